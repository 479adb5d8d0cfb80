// Frames that a port does not carry: with the bytes wanted back they are too long.
use crate::memories::{BUSY, CAPACITY, UNTOUCHED};
use crate::told::Told;
use port::bench::BenchChip;
use port::bus::{Bus, Side};
use port::port::Port;
use trials::chip::blank_chip;
use trials::trial::OPEN;

const WRITE_ENABLE: [u8; 1] = [0x06];

const READ_STATUS: [u8; 1] = [0x05];

const READ: [u8; 4] = [0x03, 0, 0, 0];

// Shows the first byte of the buffer.
fn try_frame<P: Port>(
    rt: &HostRuntime,
    port: &mut P,
    sent: &[u8],
    wanted: usize,
) -> anyhow::Result<()> {
    let mut back = vec![in rt.alloc(); UNTOUCHED; wanted]?;
    let told = Told::new(port.exchange(sent, &mut back));
    let n = sent.len();
    print!(rt; "  {n} bytes sent, {wanted} wanted back: {told}")?;
    match back.first() {
        Some(first) => println!(rt; ", the first {first:02X}")?,
        None => println!(rt; "")?,
    }
    Ok(())
}

// The latch is set before a program at 0 that is one byte too long, and the status shows that it still is.
fn try_port<P: Port>(rt: &HostRuntime, port: &mut P) -> anyhow::Result<()> {
    let mut program = [0; 321];
    program[0] = 0x02;
    try_frame(rt, port, &READ, 316)?;
    try_frame(rt, port, &READ, 317)?;
    try_frame(rt, port, &WRITE_ENABLE, 0)?;
    try_frame(rt, port, &program, 0)?;
    try_frame(rt, port, &READ_STATUS, 320)?;
    try_frame(rt, port, &READ_STATUS, 319)
}

fn chip(rt: &HostRuntime) -> anyhow::Result<BenchChip> {
    Ok(blank_chip(rt.alloc(), CAPACITY, OPEN, BUSY)?)
}

pub(crate) fn try_frames(rt: &HostRuntime) -> anyhow::Result<()> {
    println!(rt; "frames to a bench chip")?;
    try_port(rt, &mut chip(rt)?)?;
    println!(rt; "frames to a bus")?;
    try_port(rt, &mut Bus::new(chip(rt)?, chip(rt)?, Side::Second))
}
