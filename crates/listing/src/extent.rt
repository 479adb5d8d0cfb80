// What a line holds, with the length of the line, 0Ah left out.
ghost use Rattle.std.specs.Prelude.{◌≡◌};
ghost use Rattle.listing.specs.Scan.{size_of};

#[derive(Clone, Copy, PartialEq, Eq, Debug)]
pub enum Extent {
    Note(usize),
    Frame(usize),
    // Pairs, ` > ` and a pair.
    Counted(usize),
}

impl Extent {
    pub fn len(self) -> usize
        ensures { result ≡ size_of self }
    {
        match self {
            Extent::Note(end) | Extent::Frame(end) | Extent::Counted(end) => end,
        }
    }
}
