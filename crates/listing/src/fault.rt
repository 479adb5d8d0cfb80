// Why a listing is refused. specs/Fault.antt gives each case its layer, number and values.
ghost use Rattle.std.specs.Prelude.{◌≡◌, ◌+◌, ◌-◌, ◌^◌, ◌<◌};
ghost use Rattle.listing.specs.declared.fault.ListingFault.TheVariants.{Malformed};

#[derive(Clone, Copy, PartialEq, Eq, Debug)]
pub enum ListingFault {
    // The line cannot go on at this column. Both count from 1, columns in bytes.
    Malformed { line: usize, column: usize },
    // The buffer lent for the result is shorter than what it has to hold.
    TextShort { needed: u128 },
}

impl ListingFault {
    // The refusal of a line that cannot go on after `at` bytes.
    pub(crate) fn after(line: usize, at: usize) -> ListingFault
        requires { at < 2 ^ 64 - 1 }
        ensures { result ≡ Malformed line (at + 1) }
    {
        ListingFault::Malformed {
            line,
            column: at + 1,
        }
    }
}
