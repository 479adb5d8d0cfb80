// The refusals of planning and of running as they are reported.
ghost use Rattle.planner.specs.Call.{plan_row};
ghost use Rattle.planner.specs.RunRows.{row};

use crate::fault::PlanFault;
use crate::run_fault::RunFault;
use memory::report::{Cause, Layer, Report, Reported};

// No room for a plan is told as the plan's cost.
impl Reported for PlanFault {
    ghost row = { plan_row };

    fn report(self) -> Report {
        match self {
            PlanFault::Outside(address) => Report::one(Layer::Caller, Cause::Outside, address),
            PlanFault::Busy => Report::one(Layer::Caller, Cause::Busy, 0),
            PlanFault::Protected(address) => Report::one(Layer::Caller, Cause::Protected, address),
            PlanFault::StepsShort((cycles, bytes)) => Report::two(
                Layer::Caller,
                Cause::StepsShort,
                cycles,
                bytes,
            ),
            PlanFault::DataShort((cycles, bytes)) => Report::two(
                Layer::Caller,
                Cause::DataShort,
                cycles,
                bytes,
            ),
        }
    }
}

// A refused step is told as the part refused it; `step` says which it was.
impl Reported for RunFault {
    ghost row = { row };

    fn report(self) -> Report {
        match self {
            RunFault::Limit(limit) => Report::one(Layer::Caller, Cause::Limit, limit),
            RunFault::StillBusy(polls) => Report::one(Layer::Caller, Cause::Busy, polls),
            RunFault::Refused { step: _, fault } => fault.report(),
            RunFault::Abandoned(cycles) => Report::one(Layer::Caller, Cause::Abandoned, cycles),
        }
    }
}
