// Frames that no driver sends, to a bench chip: write disable, and the fast read with its dummy byte.
use crate::BUSY;
use anyhow::Context;
use hex_text::spaced::Spaced;
use port::bench::BenchChip;
use port::port::Port;
use trials::chip::blank_chip;
use trials::trial::OPEN;

// Sends a frame, and prints what comes back.
fn ask(rt: &HostRuntime, chip: &mut BenchChip, sent: &[u8], wanted: usize) -> anyhow::Result<()> {
    let mut back = vec![in rt.alloc(); 0; wanted]?;
    chip.exchange(sent, &mut back)
        .ok()
        .context("the frame is too long")?;
    println!(rt; " {} >{}", Spaced(sent), Spaced(&back))?;
    Ok(())
}

// One status byte.
fn ask_status(rt: &HostRuntime, chip: &mut BenchChip) -> anyhow::Result<()> {
    ask(rt, chip, &[0x05], 1)
}

// Write disable clears the latch: the cycle after it is ignored.
fn disable(rt: &HostRuntime, chip: &mut BenchChip) -> anyhow::Result<()> {
    println!(rt; "write disable")?;
    ask(rt, chip, &[0x06], 0)?;
    ask_status(rt, chip)?;
    ask(rt, chip, &[0x04], 0)?;
    ask_status(rt, chip)?;
    ask(rt, chip, &[0x02, 0x00, 0x07, 0xFE, 0x11, 0x22], 0)?;
    ask_status(rt, chip)?;
    ask(rt, chip, &[0x03, 0x00, 0x07, 0xFE], 4)
}

// Programs two bytes, and asks until the chip is idle.
fn program(rt: &HostRuntime, chip: &mut BenchChip, sent: &[u8]) -> anyhow::Result<()> {
    ask(rt, chip, &[0x06], 0)?;
    ask(rt, chip, sent, 0)?;
    for _ in 0..=BUSY {
        ask_status(rt, chip)?;
    }
    Ok(())
}

// The two last bytes of the chip and the two first: a read rolls over. The dummy byte may be any, and without it the shape is another.
fn read_fast(rt: &HostRuntime, chip: &mut BenchChip) -> anyhow::Result<()> {
    println!(rt; "fast read")?;
    program(rt, chip, &[0x02, 0x00, 0x07, 0xFE, 0x11, 0x22])?;
    program(rt, chip, &[0x02, 0x00, 0x00, 0x00, 0x33, 0x44])?;
    ask(rt, chip, &[0x03, 0x00, 0x07, 0xFE], 4)?;
    ask(rt, chip, &[0x0B, 0x00, 0x07, 0xFE, 0x00], 4)?;
    ask(rt, chip, &[0x0B, 0x00, 0x07, 0xFE, 0xA5], 4)?;
    ask(rt, chip, &[0x0B, 0x00, 0x07, 0xFE], 4)?;
    ask(rt, chip, &[0x0B, 0x00, 0x08, 0x00, 0x00], 4)
}

pub(crate) fn try_frames(rt: &HostRuntime) -> anyhow::Result<()> {
    let mut chip = blank_chip(rt.alloc(), 0x0B, OPEN, BUSY)?;
    disable(rt, &mut chip)?;
    read_fast(rt, &mut chip)
}
