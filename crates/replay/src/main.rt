// Plays a frame listing on a bench chip and prints what comes back, a line for each frame.
#![tactic(auto)]

ghost use Rattle.std.specs.Prelude.{OnOk, string_bytes};
ghost use Rattle.replay.specs.Replayed.{Replayed};

mod play;
mod show;
#[cfg(test)]
mod tests;

use listing::fault::ListingFault;
use listing::reader::Reader;
use memory::report::Cause;
use play::play;
use port::bench::BenchChip;
use std::alloc::{AllocError, Global};
use std::io::{Read, Write};
use trials::chip::blank_chip;
use trials::trial::OPEN;

// What is read of the standard input.
const MOST: u64 = 65536;

// The bench chip of this program: each program chooses its own. This is the smallest, so its image takes the least memory.
const CAPACITY: u8 = 0x0B;

// So many polls find a cycle still at work: a listing can show the busy bit, and need not ask long.
const BUSY: usize = 2;

// Plays the frames up to the first malformed line, writes a line for each, and says where the malformed one is.
fn replay(
    heap: Global,
    text: &[u8],
    chip: &mut BenchChip,
    out: &mut String,
) -> Result<(), AllocError>
    ensures { OnOk result (Replayed text.now chip.old chip.new (string_bytes out.old) (string_bytes out.new)) }
{
    // a frame's byte takes two digits and a space
    let mut room = vec![in heap; 0u8; text.len() / 3 + 1]?;
    let mut reader = Reader::new(text);
    // not `while let` with `?`: a refusal is a line of the output, and no error of this function
    loop {
        match reader.next_line() {
            Ok(Some(line)) => play(chip, line, &mut room, out)?,
            Ok(None) => return Ok(()),
            Err(ListingFault::Malformed { line, column }) => {
                return writeln!(out, "E{} {line} {column}", Cause::Malformed.number());
            }
            Err(ListingFault::TextShort { needed: _ }) => unreachable!(),
        }
    }
}

fn main(rt: HostRuntime) -> anyhow::Result<()> {
    let heap = rt.alloc();
    let mut text = Vec::new(heap);
    rt.stdin().take(MOST).read_to_end(&mut text)?;
    let mut chip = blank_chip(heap, CAPACITY, OPEN, BUSY)?;
    let mut out = String::new(heap);
    replay(heap, &text, &mut chip, &mut out)?;
    rt.stdout().write_all(out.as_bytes())?;
    Ok(())
}
