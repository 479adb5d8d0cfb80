// Writes of four bytes planned, with too little room for their plans and with just enough.
use crate::buffers::Buffers;
use crate::memories::{blank, make_image};
use anyhow::Context;
use least::cost::NOTHING;
use memory::kind::Kind;
use memory::report::Reported;
use part::part::Part;
use planner::plan::plan;
use trials::trial::TOP_PROTECTED;

// Each is written over FFh, so each has to change.
const WANTED: [u8; 4] = [0; 4];

// What lies past the plan stays in both buffers, and on a refusal all does.
fn try_plan<P: Part>(
    rt: &HostRuntime,
    part: &mut P,
    address: usize,
    steps: usize,
    bytes: usize,
) -> anyhow::Result<()> {
    let mut lent = Buffers::new(rt.alloc(), steps, bytes)?;
    print!(rt; "  at {address} into {steps} steps and {bytes} bytes: ")?;
    let answer = plan(part, address, &WANTED, &mut lent.steps, &mut lent.data);
    match answer {
        Ok((cycles, sent)) => print!(rt; "done {cycles} {sent}")?,
        Err(fault) => {
            let report = fault.report();
            print!(rt; "refused {report}")?;
        }
    }
    let kept = lent.are_kept_past(answer.unwrap_or(NOTHING));
    println!(rt; ", the rest of both as it was {kept}")?;
    Ok(())
}

// Over the end of a page, and over the start of the protected sector, which is at 1,792.
pub(crate) fn try_plans(rt: &HostRuntime) -> anyhow::Result<()> {
    println!(rt; "plans over a plain image with sector 7 protected")?;
    let mut part = make_image(TOP_PROTECTED, blank(rt.alloc())?)?;
    try_plan(rt, &mut part, 62, 3, 5)?;
    try_plan(rt, &mut part, 62, 2, 4)?;
    try_plan(rt, &mut part, 62, 1, 4)?;
    try_plan(rt, &mut part, 62, 2, 3)?;
    try_plan(rt, &mut part, 62, 1, 3)?;
    try_plan(rt, &mut part, 1790, 2, 4)?;
    try_plan(rt, &mut part, 1790, 0, 0)?;
    try_plan(rt, &mut part, 2045, 0, 0)?;
    println!(rt; "the same with a poll due")?;
    part.cycle(Kind::Program, 0, &[0])
        .ok()
        .context("the cycle is refused")?;
    try_plan(rt, &mut part, 62, 1, 3)?;
    try_plan(rt, &mut part, 1790, 0, 0)?;
    try_plan(rt, &mut part, 2045, 0, 0)
}
