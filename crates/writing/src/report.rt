// A write's refusal as it is reported.
ghost use Rattle.std.specs.Prelude.{◌≡◌, [], ◌∷◌};
ghost use Rattle.memory.specs.Row.{rowed};
ghost use Rattle.memory.specs.Reports.{cause_number, reported};
ghost use Rattle.writing.specs.WriteRows.{row};

use crate::fault::WriteFault;
use least::cost::Cost;
use memory::report::{Cause, Layer, Report, Reported};

// No room for a plan of this cost, which is told as its cycles and its data bytes.
fn short(cause: Cause, cost: Cost) -> Report
    ensures { reported result ≡ rowed 1 (cause_number cause) (cost.0 ∷ cost.1 ∷ []) }
{
    Report::two(Layer::Caller, cause, cost.0, cost.1)
}

impl Reported for WriteFault {
    ghost row = { row };

    fn report(self) -> Report {
        match self {
            WriteFault::Limit(limit) => Report::one(Layer::Caller, Cause::Limit, limit),
            WriteFault::Outside(address) => Report::one(Layer::Caller, Cause::Outside, address),
            WriteFault::StillBusy(polls) => Report::one(Layer::Caller, Cause::Busy, polls),
            WriteFault::Protected(address) => Report::one(Layer::Caller, Cause::Protected, address),
            WriteFault::StepsShort(cost) => short(Cause::StepsShort, cost),
            WriteFault::DataShort(cost) => short(Cause::DataShort, cost),
            WriteFault::Abandoned(cycles) => Report::one(Layer::Caller, Cause::Abandoned, cycles),
        }
    }
}
