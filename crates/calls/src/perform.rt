// A list of calls made to a new fence.
ghost use Rattle.std.specs.Prelude.{◌≡◌};
ghost use Rattle.calls.specs.Records.{Records};
ghost use Rattle.calls.specs.History.{Kept, state};

use crate::call::Entry;
use crate::make::make;
use fence::fence::Fence;
use least::step::Step;
use part::part::Part;

// Puts a new fence over the part, makes the calls in their order, puts its answer beside each, and hands out the
// fence as they left it. The caller lends the entries, so that no call depends on there being memory for its answer. (The step list and the
// data buffer are lent apart, as `write` takes them.)
pub fn perform<P: Part>(
    part: P,
    entries: &mut [Entry],
    steps: &mut [Step],
    data: &mut [u8],
) -> Fence<P>
    ensures records { Records entries.old entries.new }
    ensures kept { Kept P.Part part steps.old «data».old entries.new (state result steps.new «data».new) }
{
    let mut fence = Fence::new(part);
    for entry in entries.iter_mut() {
        let answer = make(&mut fence, &mut entry.call, steps, data);
        entry.answer = Some(answer);
    }
    fence
}
