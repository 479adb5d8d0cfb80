// Writes of four bytes to a chip that is busy for two polls after a cycle. Each goes on from what the one before it left.
use crate::buffers::Buffers;
use crate::memories::{blank, make_driver};
use crate::tries::{rest, try_cycle, try_read};
use least::cost::NOTHING;
use memory::kind::Kind;
use memory::report::Reported;
use part::part::Part;
use trials::trial::TOP_PROTECTED;
use writing::fault::WriteFault;
use writing::write::write;

// Each is written over FFh, so each has to change.
const WANTED: [u8; 4] = [0; 4];

// A refused write leaves both buffers; a done one and an abandoned one leave the plan in them.
fn try_write<P: Part>(
    rt: &HostRuntime,
    part: &mut P,
    address: usize,
    steps: usize,
    bytes: usize,
    limit: usize,
) -> anyhow::Result<()> {
    let mut lent = Buffers::new(rt.alloc(), steps, bytes)?;
    print!(rt; "  at {address} into {steps} steps and {bytes} bytes, limit {limit}: ")?;
    match write(
        part,
        address,
        &WANTED,
        &mut lent.steps,
        &mut lent.data,
        limit,
    ) {
        Ok((cycles, sent)) => print!(rt; "done {cycles} {sent}")?,
        Err(fault) => {
            let how = match fault {
                WriteFault::Abandoned(_) => "abandoned",
                _ => "refused",
            };
            let report = fault.report();
            print!(rt; "{how} {report}")?;
        }
    }
    let kept = lent.are_kept_past(NOTHING);
    println!(rt; ", both as they were {kept}")?;
    Ok(())
}

// Three polls are due after the cycle: a write whose limit is lower makes the limit's, and is refused.
pub(crate) fn try_writes(rt: &HostRuntime) -> anyhow::Result<()> {
    println!(rt; "writes over a driver with sector 7 protected")?;
    let mut part = make_driver(TOP_PROTECTED, blank(rt.alloc())?)?;
    try_cycle(rt, &mut part, Kind::Program, 0, &[0])?;
    try_write(rt, &mut part, 2045, 0, 0, 0)?;
    try_write(rt, &mut part, 2045, 0, 0, 4097)?;
    try_write(rt, &mut part, 2045, 0, 0, 2)?;
    try_write(rt, &mut part, 1790, 0, 0, 2)?;
    try_write(rt, &mut part, 1790, 0, 0, 1)?;
    try_write(rt, &mut part, 62, 1, 3, 2)?;
    try_write(rt, &mut part, 62, 2, 3, 2)?;
    try_write(rt, &mut part, 62, 2, 4, 2)?;
    rest(&mut part)?;
    try_read(rt, &mut part, 62, 4)?;
    try_write(rt, &mut part, 62, 2, 4, 3)?;
    try_read(rt, &mut part, 62, 4)
}
