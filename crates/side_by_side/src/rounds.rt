// The rounds: which memories, and how many calls are made to them.
use crate::lists::Caller;
use crate::outcome::{Outcome, differences};
use crate::side::Side;
use crate::slow::SlowImage;
use anyhow::Context;
use calls::call::Answer;
use memory::geometry::Geometry;
use memory::model::Model;
use memory::report::{Cause, Layer};
use part::plain::PlainImage;
use port::bench::BenchChip;
use std::alloc::Global;
use trials::picker::Picker;
use trials::plain::plain_image;
use trials::trial::{OPEN, TOP_PROTECTED};

// How many calls a list has.
const CALLS: usize = 25;

// Causes for which such calls are refused.
const CAUSES: [Cause; 8] = [
    Cause::Outside,
    Cause::PageData,
    Cause::Busy,
    Cause::Protected,
    Cause::NotBlank,
    Cause::StepsShort,
    Cause::DataShort,
    Cause::Limit,
];

// What the chip is compared with.
#[derive(Clone, Copy, Debug)]
pub(crate) enum Beside {
    PlainImage,
    SlowImage,
}

#[derive(Drop)]
pub(crate) struct Round {
    beside: Beside,
    capacity: u8,
    status: u8,
    // how many polls show busy after a cycle
    busy_number: usize,
    // the least limit of polls that is picked
    pub(crate) least: usize,
    lists: usize,
}

pub(crate) fn rounds() -> [Round; 8] {
    [
        Round::new(Beside::PlainImage, 0x0B, OPEN, 0, 20),
        Round::new(Beside::PlainImage, 0x0B, TOP_PROTECTED, 0, 20),
        Round::new(Beside::PlainImage, 0x0B, 0xA8, 0, 20),
        Round::new(Beside::PlainImage, 0x0B, 0xC0, 0, 4),
        Round::new(Beside::PlainImage, 0x0B, OPEN, 9, 20),
        Round::new(Beside::SlowImage, 0x0B, OPEN, 3, 20),
        Round::new(Beside::SlowImage, 0x0B, 0x8C, 2, 20),
        Round::new(Beside::PlainImage, 0x16, TOP_PROTECTED, 0, 2),
    ]
}

impl Round {
    // After a cycle a plain image is busy for one poll only, so beside it no limit is picked that is not enough for the chip.
    pub(crate) fn new(
        beside: Beside,
        capacity: u8,
        status: u8,
        busy_number: usize,
        lists: usize,
    ) -> Round {
        let least = match beside {
            Beside::PlainImage => busy_number.saturating_add(1),
            Beside::SlowImage => 1,
        };
        Round {
            beside,
            capacity,
            status,
            busy_number,
            least,
            lists,
        }
    }

    fn geometry(&self) -> anyhow::Result<Geometry> {
        let model = Model::find(self.capacity).context("no chip has this capacity byte")?;
        Ok(model.geometry)
    }

    fn plain_image(&self, bytes: Vec<u8>) -> anyhow::Result<PlainImage> {
        let Geometry { sectors, pages } = self.geometry()?;
        Ok(plain_image(sectors, pages, self.status, bytes)?)
    }

    fn slow_image(&self, bytes: Vec<u8>) -> anyhow::Result<SlowImage> {
        Ok(SlowImage {
            plain: self.plain_image(bytes)?,
            left: 0,
            busy_number: self.busy_number,
        })
    }

    fn chip(&self, bytes: Vec<u8>) -> anyhow::Result<BenchChip> {
        BenchChip::new(self.capacity, bytes, self.status, self.busy_number)
            .ok()
            .context("the chip cannot be made")
    }

    // Makes the calls that the seed picks to a memory that holds what it picks.
    fn play<S: Side + Drop, F: FnOnce(Vec<u8>) -> anyhow::Result<S>>(
        &self,
        heap: Global,
        seed: usize,
        make: F,
    ) -> anyhow::Result<Outcome>
        requires { F.IsAlwaysCallable make }
    {
        let mut caller = Caller {
            picker: Picker::new(seed),
            geometry: self.geometry()?,
            least: self.least,
        };
        let mut side = make(caller.image(heap)?)?;
        let mut record = Vec::new(heap);
        let mut lent = Vec::new(heap);
        for _ in 0..self.lists {
            let mut list = caller.list(heap, CALLS)?;
            side = side.make(&mut list.entries, &mut list.lent.steps, &mut list.lent.data)?;
            record.append(&mut list.entries)?;
            lent.push(list.lent)?;
        }
        Ok(Outcome {
            record,
            lent,
            image: side.into_bytes(),
        })
    }

    // Plays the round on both sides, prints what came of it, and answers whether they are alike.
    pub(crate) fn compare(&self, rt: &HostRuntime, seed: usize) -> anyhow::Result<bool> {
        let heap = rt.alloc();
        let image = match self.beside {
            Beside::PlainImage => self.play(heap, seed, |bytes| self.plain_image(bytes))?,
            Beside::SlowImage => self.play(heap, seed, |bytes| self.slow_image(bytes))?,
        };
        let chip = self.play(heap, seed, |bytes| self.chip(bytes))?;
        let differences = differences(heap, &image, &chip)?;
        for line in &differences {
            println!(rt; "differs: {line}")?;
        }
        self.show(rt, &chip, differences.len())?;
        Ok(image == chip)
    }

    // The line of the round.
    fn show(&self, rt: &HostRuntime, outcome: &Outcome, differ: usize) -> anyhow::Result<()> {
        let Round {
            beside,
            capacity,
            status,
            busy_number,
            least: _,
            lists: _,
        } = self;
        let calls = outcome.record.len();
        let done = outcome.count(|answer| matches!(answer, Answer::Done));
        let written = outcome.count(|answer| matches!(answer, Answer::Written(_)));
        let abandoned = outcome.count(|answer| matches!(answer, Answer::Abandoned(_)));
        print!(rt;
            "{beside:?}, chip {capacity:02X}h, status {status:02X}h, busy number {busy_number}: {calls} calls, {done} done, {written} written, {abandoned} abandoned, refused"
        )?;
        for layer in [Layer::Caller, Layer::Part] {
            for cause in CAUSES {
                let count = outcome.count_refused(layer, cause);
                if count > 0 {
                    print!(rt; " {count} by {} {},", layer as usize, cause.number())?;
                }
            }
        }
        println!(rt; " {differ} differ")?;
        Ok(())
    }
}
