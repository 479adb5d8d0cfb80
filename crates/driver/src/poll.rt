// Status reads, and the identification.
ghost use Rattle.std.specs.Prelude.{◌≡◌, ◌+◌, ◌<◌, min, not, [], ◌∷◌, replicate, ◌==◌, nat_lt};
ghost use Rattle.port.specs.Build.{status_frame};
ghost use Rattle.port.specs.Machine.{shown, waited};
ghost use Rattle.driver.specs.Frames.{identify_frame};
ghost use Rattle.driver.specs.Driving.{lowered};

use crate::ask::ask;
use memory::protection::WIP;
use port::instruction::Operation;
use port::port::Port;

// One status read, and the byte that came back. While the chip is busy no rule says what bit 1 shows, so the contract takes
// that bit from the byte.
pub(crate) fn status<P: Port>(port: &mut P) -> u8
    ensures byte { result ≡ shown result (P.Port.chip port.old) }
    ensures chip { P.Port.chip port.new ≡ waited (P.Port.chip port.old) }
    ensures trace { P.Port.trace port.old port.new (status_frame ∷ []) }
{
    let mut back = [0];
    ask(port, Operation::ReadStatus, 0, &[], &mut back);
    back[0]
}

// One status read, which is a poll: if the chip is busy.
pub(crate) fn is_busy<P: Port>(port: &mut P) -> bool
    ensures busy { result ≡ not ((P.Port.chip port.old).busy == 0) }
    ensures chip { P.Port.chip port.new ≡ waited (P.Port.chip port.old) }
    ensures trace { P.Port.trace port.old port.new (status_frame ∷ []) }
{
    status(port) & WIP != 0
}

// Polls until one shows the chip idle, at most so many times. True if one did. With `any` in place of the `for` nothing is
// known of the port as the closure leaves it, so the proof does not close.
pub(crate) fn wait<P: Port>(port: &mut P, limit: usize) -> bool
    ensures idle { result ≡ nat_lt (P.Port.chip port.old).busy limit }
    ensures chip { P.Port.chip port.new ≡ lowered (min limit ((P.Port.chip port.old).busy + 1)) (P.Port.chip port.old) }
    ensures trace { P.Port.trace port.old port.new (replicate (min limit ((P.Port.chip port.old).busy + 1)) status_frame) }
{
    for _made in 0..limit {
        if !is_busy(port) {
            return true;
        }
    }
    false
}

// The last byte of the identification, which an idle chip gives.
pub(crate) fn capacity<P: Port>(port: &mut P) -> u8
    ensures byte { (P.Port.chip port.old).busy ≡ 0 → result ≡ (P.Port.chip port.old).capacity }
    ensures chip { P.Port.chip port.new ≡ P.Port.chip port.old }
    ensures trace { P.Port.trace port.old port.new (identify_frame ∷ []) }
{
    let mut back = [0; 3];
    ask(port, Operation::Identify, 0, &[], &mut back);
    back[2]
}
