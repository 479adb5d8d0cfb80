// Bytes handed back.
ghost use Rattle.std.specs.Prelude.{◌≡◌};

// The bytes that could not be made into something, handed back with the reason.
#[derive(Drop)]
pub struct Unmade<F> {
    pub fault: F,
    pub bytes: Vec<u8>,
}

impl<F> Unmade<F> {
    // The same bytes, with the reason as another enum has it.
    pub fn convert<G: From<F>>(self) -> Unmade<G>
        ensures fault { G.from_gives self.fault result.fault }
        ensures bytes { result.bytes ≡ self.bytes }
    {
        let Unmade { fault, bytes } = self;
        Unmade {
            fault: G::from(fault),
            bytes,
        }
    }
}
