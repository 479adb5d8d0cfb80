// A driver tried on every chip, on both sides of a bus: cycles, polls and reads, and what came of them; then the buses taken apart,
// and frames that no driver sends.
#![tactic(auto)]

mod frames;
mod sides;

use anyhow::Context;
use driver::attach::attach;
use driver::driver::Driver;
use frames::try_frames;
use hex_text::spaced::Spaced;
use memory::geometry::Geometry;
use memory::kind::Kind;
use part::fault::PartFault;
use part::part::Part;
use port::bench::BenchChip;
use port::bus::{Bus, Side};
use sides::write_and_release;
use trials::chip::blank_chip;
use trials::trial::TOP_PROTECTED;

// Every chip, the small one first: what is printed has this order.
const CAPACITIES: [u8; 4] = [0x0B, 0x16, 0x17, 0x18];

// The bench chips of this program: each program chooses its own.
const BUSY: usize = 2;

const LIMIT: usize = 3;

type Board = Bus<BenchChip, BenchChip>;

// Which poll, counted from 1, answers idle, if one within the limit does.
fn polled(part: &mut Driver<Board>) -> Option<usize> {
    (1..=LIMIT).find(|_| part.poll())
}

// A cycle, and polls until one answers idle.
fn carry(
    rt: &HostRuntime,
    part: &mut Driver<Board>,
    kind: Kind,
    address: usize,
    data: &[u8],
) -> anyhow::Result<()> {
    match part.cycle(kind, address, data) {
        Err(fault) => println!(rt; "  {kind:?} {address}: refused, {fault:?}")?,
        Ok(()) => match polled(part) {
            Some(poll) => println!(rt; "  {kind:?} {address}: done, idle at poll {poll}")?,
            None => println!(rt; "  {kind:?} {address}: done, busy after {LIMIT} polls")?,
        },
    }
    Ok(())
}

fn look(rt: &HostRuntime, part: &mut Driver<Board>, address: usize) -> anyhow::Result<()> {
    let mut bytes = [0u8; 4];
    match part.read(address, &mut bytes) {
        Err(fault) => println!(rt; "  read {address}: refused, {fault:?}")?,
        Ok(()) => println!(rt; "  read {address}:{}", Spaced(&bytes))?,
    }
    Ok(())
}

// Four bytes from place 62 come round to places 0 and 1.
fn exercise(rt: &HostRuntime, part: &mut Driver<Board>) -> anyhow::Result<()> {
    let geometry = part.geometry();
    let Geometry { sectors, pages } = geometry;
    println!(rt; "  {sectors} sectors of {pages} pages")?;
    let size = geometry.size();
    carry(rt, part, Kind::Program, 62, &[0x11, 0x22, 0x33, 0x44])?;
    look(rt, part, 0)?;
    look(rt, part, 60)?;
    carry(rt, part, Kind::Alter, 0, &[0xF0])?;
    carry(rt, part, Kind::Preset, 0, &[0x00])?;
    carry(rt, part, Kind::Preset, 64, &[0xA5])?;
    look(rt, part, 0)?;
    look(rt, part, 64)?;
    carry(rt, part, Kind::SectorErase, 65, &[])?;
    look(rt, part, 0)?;
    carry(rt, part, Kind::Program, size.saturating_sub(1), &[0x00])?;
    carry(rt, part, Kind::BulkErase, 0, &[])?;
    carry(rt, part, Kind::Program, size, &[0x00])?;
    carry(rt, part, Kind::Alter, 0, &[])?;
    look(rt, part, size.saturating_sub(4))?;
    look(rt, part, size.saturating_sub(3))
}

fn attach_and_try(rt: &HostRuntime, capacity: u8, side: Side) -> anyhow::Result<()> {
    println!(rt; "chip {capacity:02X} on side {side:?}")?;
    let chip = blank_chip(rt.alloc(), capacity, TOP_PROTECTED, BUSY)?;
    let other = blank_chip(rt.alloc(), 0x0B, TOP_PROTECTED, BUSY)?;
    let board = match side {
        Side::First => Bus::new(chip, other, side),
        Side::Second => Bus::new(other, chip, side),
    };
    let mut part = attach(board, LIMIT)
        .ok()
        .context("the driver does not attach")?;
    exercise(rt, &mut part)
}

fn main(rt: HostRuntime) -> anyhow::Result<()> {
    for capacity in CAPACITIES {
        for side in [Side::First, Side::Second] {
            attach_and_try(&rt, capacity, side)?;
        }
    }
    for side in [Side::First, Side::Second] {
        write_and_release(&rt, side)?;
    }
    try_frames(&rt)
}
