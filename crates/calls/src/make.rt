// One call made to a fence.
ghost use Rattle.std.specs.Prelude.{◌≡◌};
ghost use Rattle.calls.specs.Records.{Made};
ghost use Rattle.calls.specs.History.{Follows, state};

use crate::call::{Answer, Call};
use fence::fence::Fence;
use least::step::Step;
use part::part::Part;
use writing::write::write;

// Makes one call, and answers what came of it. A done read fills the call's buffer; nothing else of the call changes.
pub(crate) fn make<P: Part>(
    fence: &mut Fence<P>,
    call: &mut Call,
    steps: &mut [Step],
    data: &mut [u8],
) -> Answer
    ensures made { Made call.old call.new result }
    ensures follows { Follows P.Part (state fence.old steps.old «data».old) call.new result (state fence.new steps.new «data».new) }
{
    match call {
        Call::Close { sector } => Answer::from(fence.close(*sector)),
        Call::Open { sector } => Answer::from(fence.open(*sector)),
        Call::Read { address, into } => Answer::from(fence.read(*address, into)),
        Call::Write {
            address,
            bytes,
            limit,
        } => Answer::from(write(fence, *address, bytes, steps, data, *limit)),
    }
}
