// The step list and the data buffer that are lent for a plan, and whether a call left what lies past the plan.
use crate::memories::UNTOUCHED;
use least::cost::Cost;
use least::step::Step;
use memory::kind::Kind;
use std::alloc::{AllocError, Global};

// What the step list holds before: no plan has such a step.
const UNTOUCHED_STEP: Step = Step {
    kind: Kind::Preset,
    address: 2048,
    length: 65,
    place: 7,
};

#[derive(Drop)]
pub(crate) struct Buffers {
    pub(crate) steps: Vec<Step>,
    pub(crate) data: Vec<u8>,
}

impl Buffers {
    pub(crate) fn new(heap: Global, steps: usize, bytes: usize) -> Result<Buffers, AllocError> {
        Ok(Buffers {
            steps: vec![in heap; UNTOUCHED_STEP; steps]?,
            data: vec![in heap; UNTOUCHED; bytes]?,
        })
    }

    // Whether both are as they were past a plan of this cost.
    pub(crate) fn are_kept_past(&self, cost: Cost) -> bool {
        let (cycles, bytes) = cost;
        let mut steps = self.steps.iter().skip(cycles);
        let mut data = self.data.iter().skip(bytes);
        steps.all(|step| *step == UNTOUCHED_STEP) && data.all(|byte| *byte == UNTOUCHED)
    }
}
