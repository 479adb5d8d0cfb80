// What the bench chip of a script is made of.
ghost use Rattle.std.specs.Prelude.{◌≡◌, false, is_some, vec_len};
ghost use Rattle.port.specs.Bench.{unmade};

// It is known that the chip can be made of it.
#[derive(PartialEq, Eq, Debug, Drop)]
pub struct Chip {
    pub capacity: u8,
    pub status: u8,
    pub busy: usize,
    pub image: Vec<u8>,
    ghost makes: { is_some (unmade capacity (vec_len image) status busy) ≡ false },
}
