// One line of a listing, played on a bench chip.
ghost use Rattle.std.specs.Prelude.{◌≡◌, ◌+◌, ◌++◌, length, if◌then◌else◌, OnOk, nat_le, string_bytes};
ghost use Rattle.listing.specs.Parts.{count_of, exchange};
ghost use Rattle.port.specs.Bench.{chip_of};
ghost use Rattle.port.specs.Machine.{answer, frame};
ghost use Rattle.replay.specs.Playable.{Playable, ForAsked, wanted_by};
ghost use Rattle.replay.specs.Replayed.{frame_line, frame_lines, after_frame, after_frames};

use crate::show::Shown;
use listing::bytes::read_pair;
use listing::item::{Item, Line, Placed};
use listing::pairs::read_pairs;
use memory::report::Reported;
use port::bench::BenchChip;
use std::alloc::AllocError;

// The most bytes that a count can ask for.
const MOST_BACK: usize = u8::MAX as usize;

// How many bytes a count asks for; none without one.
fn wanted(count: Option<Placed>) -> u8
    ensures { result ≡ wanted_by (count_of count.entry) }
{
    count
        .and_then(|count| read_pair(count.item.text()))
        .unwrap_or(0)
}

// Sends a frame, and writes what comes back as a line: the bytes, `-` for none, or `E10` where the frame is too long.
fn play_frame(
    chip: &mut BenchChip,
    sent: &[u8],
    back: &mut [u8],
    out: &mut String,
) -> Result<(), AllocError>
    ensures back { back.new ≡ (if nat_le (length sent.now + length back.old) 320 then answer 0 (chip_of chip.old) (frame sent.now (length back.old)) else back.old) }
    ensures number { chip.new.busy_number ≡ chip.old.busy_number }
    ensures chip { chip_of chip.new ≡ after_frame chip.old.busy_number (chip_of chip.old) (exchange sent.now (length back.old)) }
    ensures out { OnOk result (string_bytes out.new ≡ string_bytes out.old ++ frame_line (chip_of chip.old) (exchange sent.now (length back.old))) }
{
    match chip.transfer(sent, back) {
        Ok(()) => writeln!(out, "{}", Shown(back)),
        Err(fault) => writeln!(out, "E{}", fault.report().cause.number()),
    }
}

// Plays the frame of a line that the reader gave, and writes its line. `room` is for the bytes of the frame. A note does nothing.
pub(crate) fn play(
    chip: &mut BenchChip,
    line: Line,
    room: &mut [u8],
    out: &mut String,
) -> Result<(), AllocError>
    requires { Playable line (length room.old) }
    ensures room { length room.new ≡ length room.old }
    ensures number { chip.new.busy_number ≡ chip.old.busy_number }
    ensures chip { ForAsked line.entry (λ xs. chip_of chip.new ≡ after_frames chip.old.busy_number (chip_of chip.old) xs) }
    ensures out { OnOk result (ForAsked line.entry (λ xs. string_bytes out.new ≡ string_bytes out.old ++ frame_lines chip.old.busy_number (chip_of chip.old) xs)) }
{
    let Item::Frame(pairs) = line.first.item else {
        return Ok(());
    };
    let Ok(n) = read_pairs(pairs, room) else {
        unreachable!()
    };
    let mut bytes = [0u8; MOST_BACK];
    let count = usize::from(wanted(line.count));
    // the buffers are lent, so that a line allocates nothing
    play_frame(chip, &room[..n], &mut bytes[..count], out)
}
