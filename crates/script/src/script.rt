// A script as it is read.
ghost use Rattle.std.specs.Prelude.{◌≡◌, ◌≤◌, true, sum_by};
ghost use Rattle.std.specs.List.{list_all};
ghost use Rattle.script.specs.Limits.{bytes_of, is_short};

use crate::chip::Chip;
use calls::call::Call;

// The lengths of the step list and of the data buffer. The largest chip has 262,144 pages and 16,777,216 bytes: there is
// room for at most four steps a page and for all of the bytes.
#[derive(Clone, Copy, PartialEq, Eq, Debug)]
pub struct Room {
    pub steps: usize,
    pub bytes: usize,
    ghost few: { steps ≤ 1048576 },
    ghost short: { bytes ≤ 16777216 },
}

// It is known that each call has no more bytes than the largest chip, and how many all of them have at most.
#[derive(PartialEq, Eq, Debug, Drop)]
pub struct Script {
    pub chip: Chip,
    pub room: Room,
    pub calls: Vec<Call>,
    ghost each: { list_all is_short calls.items ≡ true },
    ghost all: { sum_by bytes_of calls.items ≤ 268435456 },
}
