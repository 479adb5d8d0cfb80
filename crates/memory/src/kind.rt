// The five kinds of cycle.
ghost use Rattle.std.specs.Prelude.{◌≡◌};

#[derive(Clone, Copy, PartialEq, Eq, Debug)]
pub enum Kind {
    // each byte becomes old AND sent
    Program,
    // each byte becomes the one sent
    Alter,
    // as program, and taken only by a page that is wholly FFh
    Preset,
    SectorErase,
    BulkErase,
}

impl Kind {
    ghost use Rattle.memory.specs.Kinds.{has_address, has_data};

    // Whether a cycle of this kind is sent data: an erase is not.
    pub fn has_data(self) -> bool
        ensures { result ≡ has_data self }
    {
        match self {
            Kind::Program | Kind::Alter | Kind::Preset => true,
            Kind::SectorErase | Kind::BulkErase => false,
        }
    }

    // Whether it is at an address: a bulk erase is of all.
    pub fn has_address(self) -> bool
        ensures { result ≡ has_address self }
    {
        self != Kind::BulkErase
    }
}
