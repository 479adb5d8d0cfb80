// What came of a call that answers nothing.
use memory::report::{Report, Reported};
use std::fmt;

// Shown as `done`, or as `refused` with layer, number and values.
#[derive(Clone, Copy)]
pub(crate) struct Told(Option<Report>);

impl Told {
    pub(crate) fn new<F: Reported>(answer: Result<(), F>) -> Told {
        match answer {
            Ok(()) => Told(None),
            Err(fault) => Told(Some(fault.report())),
        }
    }
}

impl fmt::Display for Told {
    fn fmt<W: fmt::Write>(&self, f: &mut fmt::Formatter<W>) -> fmt::Result {
        match self.0 {
            None => write!(f, "done"),
            Some(report) => write!(f, "refused {report}"),
        }
    }
}
