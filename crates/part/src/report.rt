// A part's refusal as it is reported.
ghost use Rattle.part.specs.Rows.{making_row, row};

use crate::fault::{PartFault, PlainMaking};
use memory::report::{Cause, Layer, Report, Reported};

impl Reported for PartFault {
    ghost row = { row };

    fn report(self) -> Report {
        match self {
            PartFault::Outside(address) => Report::one(Layer::Part, Cause::Outside, address),
            PartFault::NoSector(sector) => Report::one(Layer::Part, Cause::Outside, sector),
            PartFault::PageData(length) => Report::one(Layer::Part, Cause::PageData, length),
            PartFault::Busy => Report::one(Layer::Part, Cause::Busy, 0),
            PartFault::Protected(address) => Report::one(Layer::Part, Cause::Protected, address),
            PartFault::NotBlank(address) => Report::one(Layer::Part, Cause::NotBlank, address),
        }
    }
}

impl Reported for PlainMaking {
    ghost row = { making_row };

    fn report(self) -> Report {
        Report::one(Layer::Part, Cause::Making, self as usize)
    }
}
