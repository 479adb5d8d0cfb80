// Cycles through frames.
ghost use Rattle.std.specs.Prelude.{◌≡◌, ◌+◌, ◌-◌, ◌*◌, ◌/◌, ◌≤◌, true, [], ◌∷◌, length};
ghost use Rattle.memory.specs.Page.{blank, page};
ghost use Rattle.port.specs.Machine.{after};
ghost use Rattle.part.specs.Verdict.{inside, presets};
ghost use Rattle.driver.specs.Frames.{Sendable, cycle_frame, enable_frame, largest_shape, looks};

use crate::ask::ask;
use crate::read::read;
use memory::bytes::is_blank;
use memory::kind::Kind;
use memory::model::{PAGE_BYTES, page_start};
use port::instruction::Operation;
use port::port::Port;

// If the page is as a cycle of this kind needs it: a preset reads its page. A plain image has a function of this name, which
// looks at its own bytes.
pub(crate) fn is_clean_for<P: Port>(port: &mut P, kind: Kind, address: usize) -> bool
    requires { inside largest_shape kind address ≡ true }
    ensures others { result ≡ presets kind result }
    ensures clean { (P.Port.chip port.old).busy ≡ 0 → address / 64 * 64 + 64 ≤ length (P.Port.chip port.old).image → result ≡ presets kind (blank (page 64 (address / 64) (P.Port.chip port.old).image)) }
    ensures chip { P.Port.chip port.new ≡ P.Port.chip port.old }
    ensures trace { P.Port.trace port.old port.new (looks (P.Port.longest port.old - 4) kind address) }
{
    if kind != Kind::Preset {
        return true;
    }
    let mut page = [0; PAGE_BYTES];
    read(port, page_start(address), &mut page);
    is_blank(&page)
}

// Sends write enable, and then the frame of the cycle.
pub(crate) fn send<P: Port>(port: &mut P, kind: Kind, address: usize, data: &[u8])
    requires { Sendable kind address (length «data».now) }
    ensures chip { P.Port.chip port.new ≡ after (P.Port.chip port.new).busy (after 0 (P.Port.chip port.old) enable_frame) (cycle_frame kind address «data».now) }
    ensures trace { P.Port.trace port.old port.new (enable_frame ∷ cycle_frame kind address «data».now ∷ []) }
{
    ask(port, Operation::WriteEnable, 0, &[], &mut []);
    ask(port, Operation::from(kind), address, data, &mut []);
}
