// Runs that stop short, and the cycles that hold.
use crate::memories::{blank, make_driver};
use crate::steps::{program, show_steps};
use crate::tries::{rest, try_cycle, try_read};
use least::step::Step;
use memory::kind::Kind;
use memory::report::Reported;
use part::part::Part;
use planner::run::run;
use planner::run_fault::RunFault;
use trials::trial::TOP_PROTECTED;

// A byte more than a page.
const DATA: [u8; 65] = [0x11; 65];

// The polls that a cycle of the chip takes: two show it busy.
const ENOUGH: usize = 3;

fn try_run<P: Part>(
    rt: &HostRuntime,
    part: &mut P,
    steps: &[Step],
    limit: usize,
) -> anyhow::Result<()> {
    show_steps(rt, steps)?;
    print!(rt; " limit {limit}: ")?;
    match run(part, steps, &DATA, limit) {
        Ok(sent) => println!(rt; "done, {sent} cycles sent")?,
        Err(fault) => show_fault(rt, fault)?,
    }
    Ok(())
}

fn show_fault(rt: &HostRuntime, fault: RunFault) -> anyhow::Result<()> {
    let report = fault.report();
    match fault {
        RunFault::Refused { step, fault } => println!(rt;
            "refused {report}, step {step}: {fault:?}"
        )?,
        RunFault::Abandoned(_) => println!(rt; "abandoned {report}")?,
        RunFault::Limit(_) | RunFault::StillBusy(_) => println!(rt; "refused {report}")?,
    }
    Ok(())
}

// The step between two others on a new chip: the first of them holds, and the last is not sent.
fn try_step(rt: &HostRuntime, step: Step) -> anyhow::Result<()> {
    let mut part = make_driver(TOP_PROTECTED, blank(rt.alloc())?)?;
    try_run(rt, &mut part, &[program(0), step, program(1)], ENOUGH)?;
    try_read(rt, &mut part, 0, 2)
}

// By 1 and 2, which are also looked at before the part is asked, and by 4 and 5.
fn try_steps(rt: &HostRuntime) -> anyhow::Result<()> {
    println!(rt; "runs over a driver with a step that is refused")?;
    let sent = program(64);
    let past_data = Step {
        length: 2,
        place: 64,
        ..sent
    };
    try_step(rt, program(2048))?;
    try_step(rt, Step { length: 0, ..sent })?;
    try_step(rt, Step { length: 65, ..sent })?;
    try_step(rt, past_data)?;
    try_step(
        rt,
        Step {
            address: 2048,
            ..past_data
        },
    )?;
    try_step(rt, program(1792))?;
    try_step(
        rt,
        Step {
            kind: Kind::Preset,
            ..program(63)
        },
    )
}

// Each run goes on from what the one before it left: three polls are due after the cycle.
fn try_limits(rt: &HostRuntime) -> anyhow::Result<()> {
    println!(rt; "runs over a driver with polls due")?;
    let mut part = make_driver(TOP_PROTECTED, blank(rt.alloc())?)?;
    let steps = [program(0), program(1)];
    try_cycle(rt, &mut part, Kind::Program, 64, &[0])?;
    try_run(rt, &mut part, &steps, 0)?;
    try_run(rt, &mut part, &steps, 4097)?;
    try_run(rt, &mut part, &steps, 2)?;
    try_run(rt, &mut part, &steps, 2)?;
    try_read(rt, &mut part, 0, 2)?;
    rest(&mut part)?;
    try_read(rt, &mut part, 0, 2)?;
    try_run(rt, &mut part, &[], 0)?;
    try_run(rt, &mut part, &[], 1)?;
    try_run(rt, &mut part, &steps, ENOUGH)?;
    try_read(rt, &mut part, 0, 2)
}

pub(crate) fn try_runs(rt: &HostRuntime) -> anyhow::Result<()> {
    try_steps(rt)?;
    try_limits(rt)
}
