// A refusal to attach as it is reported.
ghost use Rattle.driver.specs.Attach.{row};

use crate::fault::AttachFault;
use memory::report::{Cause, Layer, Report, Reported};

impl Reported for AttachFault {
    ghost row = { row };

    fn report(self) -> Report {
        match self {
            AttachFault::Limit(limit) => Report::one(Layer::Caller, Cause::Limit, limit),
            AttachFault::Busy(polls) => Report::one(Layer::Caller, Cause::Busy, polls),
        }
    }
}
