// A bus taken apart after a cycle: the chip of the chosen side is altered, and the other is as it was.
use crate::{BUSY, LIMIT, carry};
use anyhow::Context;
use driver::attach::attach;
use memory::kind::Kind;
use port::bench::BenchChip;
use port::bus::{Bus, Side};
use trials::chip::blank_chip;
use trials::trial::OPEN;

// The bytes that are no longer FFh, each at its address.
fn show_altered(rt: &HostRuntime, side: Side, chip: BenchChip) -> anyhow::Result<()> {
    print!(rt; "  {side:?} altered:")?;
    for (address, byte) in chip.into_bytes().iter().enumerate() {
        if *byte != 0xFF {
            print!(rt; " {address}={byte:02X}")?;
        }
    }
    println!(rt; "")?;
    Ok(())
}

pub(crate) fn write_and_release(rt: &HostRuntime, side: Side) -> anyhow::Result<()> {
    println!(rt; "bus released, side {side:?}")?;
    let first = blank_chip(rt.alloc(), 0x0B, OPEN, BUSY)?;
    let second = blank_chip(rt.alloc(), 0x0B, OPEN, BUSY)?;
    let mut part = attach(Bus::new(first, second, side), LIMIT)
        .ok()
        .context("the driver does not attach")?;
    carry(rt, &mut part, Kind::Program, 62, &[0x11, 0x22, 0x33, 0x44])?;
    let (first, second) = part.release().release();
    show_altered(rt, Side::First, first)?;
    show_altered(rt, Side::Second, second)
}
