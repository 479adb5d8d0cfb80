// Why a write is not done. specs/WriteRows.antt gives each case its layer, number and values.
ghost use Rattle.std.specs.Prelude.{◌≡◌};
ghost use Rattle.writing.specs.WriteRows.{unplanned_as};

use least::cost::Cost;
use planner::fault::PlanFault;

#[derive(Clone, Copy, PartialEq, Eq, Debug)]
pub enum WriteFault {
    // not 1 to 4,096
    Limit(usize),
    // the bytes from the address on end past the memory's end
    Outside(usize),
    // polls were due beyond the limit before anything was planned; the polls made
    StillBusy(usize),
    // the lowest byte of a protected sector that would have to change
    Protected(usize),
    // the step list has no room for a plan of this cost
    StepsShort(Cost),
    // the data buffer has none
    DataShort(Cost),
    // polls were due beyond the limit after a cycle: the write was abandoned; the cycles sent
    Abandoned(usize),
}

impl From<PlanFault> for WriteFault {
    ghost from_gives = { λ fault made. made ≡ unplanned_as fault };

    // A write plans once nothing is due, so `Busy` never comes; its row tells no polls made.
    fn from(fault: PlanFault) -> WriteFault {
        match fault {
            PlanFault::Outside(address) => WriteFault::Outside(address),
            PlanFault::Busy => WriteFault::StillBusy(0),
            PlanFault::Protected(address) => WriteFault::Protected(address),
            PlanFault::StepsShort(cost) => WriteFault::StepsShort(cost),
            PlanFault::DataShort(cost) => WriteFault::DataShort(cost),
        }
    }
}
