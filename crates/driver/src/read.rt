// Reading through frames.
ghost use Rattle.std.specs.Prelude.{◌≡◌, ◌+◌, ◌-◌, ◌≤◌, [], ◌∷◌, length};
ghost use Rattle.memory.specs.Page.{block};
ghost use Rattle.driver.specs.Frames.{reads};

use crate::ask::ask;
use port::instruction::Operation;
use port::port::Port;

// What a read frame sends: a code and three bytes of address.
const READ_HEAD: usize = 4;

// Fills the buffer from an address on, by frames as long as the port carries. With `chunks_mut` in place of the ranges
// nothing is known of the bytes once the chunks are given back, so the proof does not close.
pub(crate) fn read<P: Port>(port: &mut P, address: usize, into: &mut [u8])
    requires { address + length into.old ≤ 16777216 }
    ensures bytes { (P.Port.chip port.old).busy ≡ 0 → address + length into.old ≤ length (P.Port.chip port.old).image → into.new ≡ block address (length into.old) (P.Port.chip port.old).image }
    ensures chip { P.Port.chip port.new ≡ P.Port.chip port.old }
    ensures trace { P.Port.trace port.old port.new (reads (P.Port.longest port.old - 4) address (length into.old)) }
{
    let room = port.longest_frame() - READ_HEAD;
    for done in (0..into.len()).step_by(room) {
        let n = room.min(into.len() - done);
        ask(
            port,
            Operation::Read,
            address + done,
            &[],
            &mut into[done..done + n],
        );
    }
}
