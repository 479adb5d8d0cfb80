// One frame to the chip, and what comes back.
ghost use Rattle.std.specs.Prelude.{◌≡◌, ◌+◌, ◌≤◌, [], ◌∷◌, length, slice_index};
ghost use Rattle.port.specs.Build.{built};
ghost use Rattle.port.specs.Machine.{after, answer, frame};

use port::build::{LONGEST_BUILT, build};
use port::instruction::Operation;
use port::port::Port;

// Sends a frame that the port can carry, and fills `back` with the answer. There is no heap: the frame is the first part of a
// buffer of fixed length.
pub(crate) fn ask<P: Port>(
    port: &mut P,
    operation: Operation,
    address: usize,
    data: &[u8],
    back: &mut [u8],
)
    requires { (length (built operation address «data».now) ≤ 68) × (length (built operation address «data».now) + length back.old ≤ P.Port.longest port.old) }
    ensures back { back.new ≡ answer (slice_index back.new 0) (P.Port.chip port.old) (frame (built operation address «data».now) (length back.old)) }
    ensures chip { P.Port.chip port.new ≡ after (P.Port.chip port.new).busy (P.Port.chip port.old) (frame (built operation address «data».now) (length back.old)) }
    ensures longest { P.Port.longest port.new ≡ P.Port.longest port.old }
    ensures trace { P.Port.trace port.old port.new (frame (built operation address «data».now) (length back.old) ∷ []) }
{
    let mut frame = [0; LONGEST_BUILT];
    let n = build(operation, address, data, &mut frame).unwrap();
    port.exchange(&frame[..n], back).unwrap();
}
