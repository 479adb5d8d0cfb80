// What came of a round on one side, and where two sides differ.
use calls::call::{Answer, Entry};
use least::step::Step;
use memory::report::{Cause, Layer, Reported};
use std::alloc::{AllocError, Global};

// The buffers that are lent for a list of calls.
#[derive(PartialEq, Eq, Debug, Drop)]
pub(crate) struct Lent {
    pub(crate) steps: Vec<Step>,
    pub(crate) data: Vec<u8>,
}

#[derive(PartialEq, Eq, Debug, Drop)]
pub(crate) struct Outcome {
    pub(crate) record: Vec<Entry>,
    // as each list of calls left them
    pub(crate) lent: Vec<Lent>,
    pub(crate) image: Vec<u8>,
}

impl Outcome {
    // How many calls have such an answer.
    pub(crate) fn count<F: Fn(Answer) -> bool>(&self, is_such: F) -> usize
        requires { (f : F) (answer : _) → F.pre f answer }
    {
        self.record
            .iter()
            .filter(|entry| entry.answer.is_some_and(|answer| is_such(answer)))
            .count()
    }

    // How many are refused by this layer for this cause.
    pub(crate) fn count_refused(&self, layer: Layer, cause: Cause) -> usize {
        self.count(|answer| match answer {
            Answer::Refused(refusal) => {
                let report = refusal.report();
                report.layer == layer && report.cause == cause
            }
            _ => false,
        })
    }
}

// A line for each place where the two sides differ.
pub(crate) fn differences(
    heap: Global,
    image: &Outcome,
    chip: &Outcome,
) -> Result<Vec<String>, AllocError> {
    let mut lines = Vec::new(heap);
    if image.record.len() != chip.record.len() || image.lent.len() != chip.lent.len() {
        lines.push(format!(in heap; "the number of calls")?)?;
    }
    for (number, (a, b)) in image.record.iter().zip(&chip.record).enumerate() {
        if a != b {
            lines.push(format!(in heap; "call {number}: {a:?}, and on the chip {b:?}")?)?;
        }
    }
    for (number, (a, b)) in image.lent.iter().zip(&chip.lent).enumerate() {
        if a.steps != b.steps {
            lines.push(format!(in heap; "the step list of list {number}")?)?;
        }
        if a.data != b.data {
            lines.push(format!(in heap; "the data buffer of list {number}")?)?;
        }
    }
    if image.image != chip.image {
        lines.push(format!(in heap; "the image")?)?;
    }
    Ok(lines)
}
