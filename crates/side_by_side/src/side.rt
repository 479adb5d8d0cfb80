// The memories that the same calls are made to.
use crate::slow::SlowImage;
use anyhow::{Context, ensure};
use attached::perform::perform_attached;
use calls::call::Entry;
use calls::perform::perform;
use least::step::Step;
use part::limit::MOST_POLLS;
use part::part::Part;
use part::plain::PlainImage;
use planner::wait::wait;
use port::bench::BenchChip;

// The two images pass their calls on alike: one impl for every part would overlap with the chip's.
pub(crate) trait Side {
    // Makes the calls to a new fence over it, once nothing is due, and answers it as they left it.
    fn make(
        self,
        entries: &mut [Entry],
        steps: &mut [Step],
        data: &mut [u8],
    ) -> anyhow::Result<Self>;

    // What it holds.
    fn into_bytes(self) -> Vec<u8>;
}

fn make_over<P: Part + Drop>(
    mut part: P,
    entries: &mut [Entry],
    steps: &mut [Step],
    data: &mut [u8],
) -> anyhow::Result<P> {
    ensure!(wait(&mut part, MOST_POLLS), "the memory is still busy");
    Ok(perform(part, entries, steps, data).release())
}

impl Side for PlainImage {
    fn make(
        self,
        entries: &mut [Entry],
        steps: &mut [Step],
        data: &mut [u8],
    ) -> anyhow::Result<PlainImage> {
        make_over(self, entries, steps, data)
    }

    fn into_bytes(self) -> Vec<u8> {
        PlainImage::into_bytes(self)
    }
}

impl Side for SlowImage {
    fn make(
        self,
        entries: &mut [Entry],
        steps: &mut [Step],
        data: &mut [u8],
    ) -> anyhow::Result<SlowImage> {
        make_over(self, entries, steps, data)
    }

    fn into_bytes(self) -> Vec<u8> {
        self.plain.into_bytes()
    }
}

// A driver is attached to the chip for each list of calls.
impl Side for BenchChip {
    fn make(
        self,
        entries: &mut [Entry],
        steps: &mut [Step],
        data: &mut [u8],
    ) -> anyhow::Result<BenchChip> {
        let fence = perform_attached(self, MOST_POLLS, entries, steps, data)
            .ok()
            .context("the driver does not attach")?;
        Ok(fence.release().release())
    }

    fn into_bytes(self) -> Vec<u8> {
        BenchChip::into_bytes(self)
    }
}
