// What a call answers, as it is reported.
ghost use Rattle.std.specs.Prelude.{◌≡◌};
ghost use Rattle.calls.specs.Refusals.{answer_row, row, told};

use crate::call::{Answer, Refusal};
use memory::report::{Report, Reported};
use writing::fault::WriteFault;

impl Reported for Refusal {
    ghost row = { row };

    fn report(self) -> Report {
        match self {
            Refusal::Part(fault) => fault.report(),
            Refusal::Write(fault) => fault.report(),
        }
    }
}

impl Answer {
    // The report of a call that was refused or abandoned. A done one has none.
    pub fn report(self) -> Option<Report>
        ensures { told result ≡ answer_row self }
    {
        match self {
            Answer::Done | Answer::Written(_) => None,
            Answer::Refused(refusal) => Some(refusal.report()),
            Answer::Abandoned(cycles) => Some(WriteFault::Abandoned(cycles).report()),
        }
    }
}
