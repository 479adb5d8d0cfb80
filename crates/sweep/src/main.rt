// Erases a 128Mb bench chip and reads all of it, frame by frame and then through a driver; then plans a write of all of
// a plain image: a measure of speed.
#![tactic(auto)]

use anyhow::Context;
use driver::attach::attach;
use least::step::Step;
use memory::bytes::is_blank;
use memory::geometry::{MOST_BYTES, MOST_PAGES, MOST_SECTORS};
use memory::model::PAGE_BYTES;
use part::part::Part;
use planner::plan::plan;
use port::bench::BenchChip;
use port::build::build;
use port::instruction::Operation;
use port::port::Port;
use trials::chip::ChipFault;
use trials::plain::plain_image;
use trials::trial::OPEN;

// The bench chip of this program: each program chooses its own.
const CAPACITY: u8 = 0x18;

const BYTES: usize = MOST_BYTES;

// A code and an address.
const HEAD: usize = 4;

// What fits a frame of 320 bytes beside them.
const CHUNK: usize = 320 - HEAD;

fn count_blank(bytes: &[u8]) -> usize {
    bytes.iter().filter(|b| **b == 0xFF).count()
}

// Sends the frame of an operation that has no data, if it is not too long.
fn send_frame(
    chip: &mut BenchChip,
    operation: Operation,
    address: usize,
    back: &mut [u8],
) -> Option<()> {
    let mut frame = [0u8; HEAD];
    let n = build(operation, address, &[], &mut frame)?;
    chip.exchange(&frame[..n], back).ok()
}

// How many bytes of one frame's worth are FFh.
fn read_chunk(chip: &mut BenchChip, start: usize) -> Option<usize> {
    let mut bytes = [0u8; CHUNK];
    let back = &mut bytes[0..BYTES.saturating_sub(start).min(CHUNK)];
    send_frame(chip, Operation::Read, start, back)?;
    Some(count_blank(back))
}

// How many of the chip's bytes are FFh.
fn sweep(chip: &mut BenchChip) -> Option<usize> {
    let mut blank: usize = 0;
    // by the addresses, since the frames carry them
    for start in (0..BYTES).step_by(CHUNK) {
        blank = blank.saturating_add(read_chunk(chip, start)?);
    }
    Some(blank)
}

fn erased(chip: &mut BenchChip) -> Option<usize> {
    send_frame(chip, Operation::WriteEnable, 0, &mut [])?;
    send_frame(chip, Operation::BulkErase, 0, &mut [])?;
    sweep(chip)
}

// What a write of the whole memory costs: every byte changes from 5Ah to A5h.
fn plan_all(rt: &HostRuntime) -> anyhow::Result<()> {
    let heap = rt.alloc();
    let image = vec![in heap; 0x5A; BYTES]?;
    let bytes = vec![in heap; 0xA5; BYTES]?;
    let mut steps = vec![in heap; Step::UNUSED; BYTES / PAGE_BYTES]?;
    let mut data = vec![in heap; 0; BYTES]?;
    let mut part = plain_image(MOST_SECTORS, MOST_PAGES, OPEN, image)?;
    let (cycles, sent) = plan(&mut part, 0, &bytes, &mut steps, &mut data)
        .ok()
        .context("the write is not planned")?;
    println!(rt; "a write of all of it: {cycles} cycles, {sent} bytes")?;
    Ok(())
}

fn main(rt: HostRuntime) -> anyhow::Result<()> {
    // 00h everywhere, and no blank chip, so that the erase is seen
    let image = vec![in rt.alloc(); 0; BYTES]?;
    let mut chip = BenchChip::new(CAPACITY, image, OPEN, 0).map_err(ChipFault::from)?;
    let blank = erased(&mut chip).context("a frame was too long")?;
    let frames = BYTES.div_ceil(CHUNK);
    println!(rt; "{blank} bytes are FFh, read in {frames} frames")?;
    let mut bytes = vec![in rt.alloc(); 0; BYTES]?;
    let mut part = attach(chip, 1).ok().context("the driver does not attach")?;
    part.read(0, &mut bytes)
        .ok()
        .context("the driver does not read")?;
    let all = is_blank(&bytes);
    println!(rt; "all FFh through a driver: {all}")?;
    plan_all(&rt)
}
