// Drivers attached to a chip that has just carried out a cycle: it shows busy for some polls more.
use crate::memories::{BUSY, blank, make_driver};
use anyhow::Context;
use driver::attach::{Unattached, attach};
use memory::kind::Kind;
use memory::report::Reported;
use part::part::Part;
use port::bench::BenchChip;
use trials::trial::OPEN;

// The chip is handed back in any case.
fn try_attach(rt: &HostRuntime, chip: BenchChip, limit: usize) -> anyhow::Result<BenchChip> {
    match attach(chip, limit) {
        Ok(driver) => {
            println!(rt; "  limit {limit}: attached")?;
            Ok(driver.release())
        }
        Err(unattached) => {
            let Unattached { fault, port } = unattached;
            let report = fault.report();
            println!(rt; "  limit {limit}: refused {report}")?;
            Ok(port)
        }
    }
}

// Just after a cycle.
fn busy_chip(rt: &HostRuntime) -> anyhow::Result<BenchChip> {
    println!(rt; "attaching to a chip that is busy for {BUSY} polls")?;
    let mut part = make_driver(OPEN, blank(rt.alloc())?)?;
    part.cycle(Kind::Program, 0, &[0])
        .ok()
        .context("the cycle is refused")?;
    Ok(part.release())
}

// An attach that is refused for its limit makes no poll, and one that finds the chip still busy makes the limit's: the next one goes
// on from there.
pub(crate) fn try_attaching(rt: &HostRuntime) -> anyhow::Result<()> {
    let chip = busy_chip(rt)?;
    let chip = try_attach(rt, chip, 0)?;
    let chip = try_attach(rt, chip, 4097)?;
    let chip = try_attach(rt, chip, 1)?;
    let chip = try_attach(rt, chip, 1)?;
    let _idle = try_attach(rt, chip, 1)?;
    let chip = busy_chip(rt)?;
    let chip = try_attach(rt, chip, 2)?;
    let _idle = try_attach(rt, chip, 4096)?;
    let chip = busy_chip(rt)?;
    let _idle = try_attach(rt, chip, 3)?;
    Ok(())
}
