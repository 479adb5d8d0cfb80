// Writes planned and run over a plain image and over a driver on a bench chip: the same steps, cost and bytes. Then one with too few
// polls for the chip, where the two differ.
#![tactic(auto)]

ghost use Rattle.std.specs.Prelude.{◌≡◌};
ghost use Rattle.planner.specs.Running.{sent_before};

mod writes;

use anyhow::{Context, ensure};
use driver::attach::attach;
use least::cost::Cost;
use least::step::Step;
use part::limit::MOST_POLLS;
use part::part::Part;
use planner::fault::PlanFault;
use planner::plan::plan;
use planner::run::run;
use planner::run_fault::RunFault;
use planner::wait::wait;
use port::bench::BenchChip;
use std::alloc::Global;
use trials::chip::ChipFault;
use trials::plain::plain_image;
use trials::trial::Trial;
use writes::{BYTES, PAGES, SECTORS, ended, trials};

// The bench chip of this program: each program chooses its own.
const CAPACITY: u8 = 0x0B;

const BUSY: usize = 2;

const ROOM: usize = 64;

// What a plan costs, and what came of its run.
#[derive(Clone, Copy, PartialEq, Eq, Debug)]
struct Ran {
    cost: Cost,
    sent: Result<usize, RunFault>,
}

// What came of a write: the answer of planning, with the run of a plan; the steps and data, and the bytes then.
#[derive(PartialEq, Eq, Debug, Drop)]
struct Outcome {
    answer: Result<Ran, PlanFault>,
    steps: Vec<Step>,
    data: Vec<u8>,
    image: Vec<u8>,
}

// How many cycles a run sent, whether or not it stopped short.
fn cycles_sent(ran: Result<usize, RunFault>) -> usize
    ensures { result ≡ sent_before ran }
{
    match ran {
        Ok(sent) | Err(RunFault::Abandoned(sent)) => sent,
        Err(RunFault::Refused { step, fault: _ }) => step,
        Err(RunFault::Limit(_) | RunFault::StillBusy(_)) => 0,
    }
}

// Leaves the plan alone in both lists.
fn plan_and_run<P: Part>(
    part: &mut P,
    trial: &Trial,
    steps: &mut Vec<Step>,
    data: &mut Vec<u8>,
    limit: usize,
) -> Result<Ran, PlanFault> {
    let cost = plan(part, trial.address, &trial.bytes, steps, data)?;
    let (cycles, bytes) = cost;
    steps.truncate(cycles);
    data.truncate(bytes);
    let sent = run(part, steps, data, limit);
    Ok(Ran { cost, sent })
}

fn attempt<P: Part>(
    heap: Global,
    part: &mut P,
    trial: &Trial,
    limit: usize,
) -> anyhow::Result<Outcome> {
    let mut steps = vec![in heap; Step::UNUSED; ROOM]?;
    let mut data = vec![in heap; 0; BYTES]?;
    let mut image = vec![in heap; 0; BYTES]?;
    let answer = plan_and_run(part, trial, &mut steps, &mut data, limit);
    // polls are due after an abandoned run
    ensure!(wait(part, MOST_POLLS), "the part is still busy");
    part.read(0, &mut image)
        .ok()
        .context("the part is not read")?;
    Ok(Outcome {
        answer,
        steps,
        data,
        image,
    })
}

// The image holds the bytes wanted, and all else is as it was.
fn is_written(trial: &Trial, image: &[u8]) -> bool {
    let before = trial.image.iter().take(trial.address);
    let end = trial.address.saturating_add(trial.bytes.len());
    before
        .chain(&trial.bytes)
        .chain(trial.image.iter().skip(end))
        .eq(image)
}

fn over_plain(heap: Global, trial: &Trial, limit: usize) -> anyhow::Result<Outcome> {
    let mut part = plain_image(SECTORS, PAGES, trial.status, trial.image.clone()?)?;
    attempt(heap, &mut part, trial, limit)
}

fn over_chip(heap: Global, trial: &Trial, limit: usize) -> anyhow::Result<Outcome> {
    let chip = BenchChip::new(CAPACITY, trial.image.clone()?, trial.status, BUSY).map_err(
        ChipFault::from,
    )?;
    let mut part = attach(chip, MOST_POLLS)
        .ok()
        .context("the driver does not attach")?;
    attempt(heap, &mut part, trial, limit)
}

// How many cycles were sent: nothing is of a write that is not planned.
fn sent_of(outcome: &Outcome) -> usize {
    outcome.answer.map_or(0, |ran| cycles_sent(ran.sent))
}

fn tell(rt: &HostRuntime, trial: &Trial, outcome: &Outcome) -> anyhow::Result<()> {
    let answer = outcome.answer.map(|ran| ran.cost);
    let sent = sent_of(outcome);
    let written = is_written(trial, &outcome.image);
    print!(rt; "{answer:?}, {sent} cycles sent, written {written}")?;
    Ok(())
}

fn show(
    rt: &HostRuntime,
    number: usize,
    trial: &Trial,
    plain: &Outcome,
    chip: &Outcome,
) -> anyhow::Result<()> {
    let address = trial.address;
    let n = trial.bytes.len();
    let same = plain == chip;
    print!(rt; "{number}: {n} bytes at {address}: ")?;
    tell(rt, trial, plain)?;
    println!(rt; ", both alike {same}")?;
    if !same {
        print!(rt; "  on the chip: ")?;
        tell(rt, trial, chip)?;
        println!(rt; "")?;
    }
    for step in plain.steps.iter().take(sent_of(plain)) {
        let kind = step.kind;
        let at = step.address;
        let length = step.length;
        println!(rt; "  {kind:?} at {at}, {length} bytes")?;
    }
    Ok(())
}

fn try_write(rt: &HostRuntime, number: usize, trial: &Trial, limit: usize) -> anyhow::Result<()> {
    let plain = over_plain(rt.alloc(), trial, limit)?;
    let chip = over_chip(rt.alloc(), trial, limit)?;
    show(rt, number, trial, &plain, &chip)
}

fn main(rt: HostRuntime) -> anyhow::Result<()> {
    let trials = trials(rt.alloc())?;
    for (number, trial) in trials.iter().enumerate() {
        try_write(&rt, number, trial, MOST_POLLS)?;
    }
    // of two cycles: one poll is enough for the plain image after each, and too few for the chip
    try_write(&rt, trials.len(), &ended(rt.alloc(), 62, 4)?, 1)
}
