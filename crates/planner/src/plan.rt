// Planning a write over any part.
ghost use Rattle.std.specs.Prelude.{◌≡◌, ℕ, ◌+◌, ◌*◌, ◌<◌, ◌≤◌, ◌⊎◌, length, IfOk, slice_index};
ghost use Rattle.memory.specs.Shape.{size};
ghost use Rattle.planner.specs.Asking.{planning_to};
ghost use Rattle.planner.specs.Looking.{LookedBy};
ghost use Rattle.planner.specs.Wanted.{Fitting};
ghost use Rattle.planner.specs.Call.{Handed, plan_call, plan_inside};

use crate::barred::lowest_barred;
use crate::choice::choose;
use crate::emit::put_plan;
use crate::fault::PlanFault;
use crate::overlay::Write;
use least::cost::Cost;
use least::step::Step;
use part::part::Part;
use part::size::{is_inside, size_of};

// A write that lies inside an idle memory.
fn plan_inside<P: Part>(
    part: &mut P,
    write: Write<'_>,
    steps: &mut [Step],
    data: &mut [u8],
) -> Result<Cost, PlanFault>
    requires fitting { Fitting (P.Part.meaning part.old) write.address write.bytes.now }
    requires byte { (i : ℕ) → slice_index write.bytes.now i < 256 }
    ensures looked { LookedBy P.Part (planning_to (P.Part.meaning part.old) write.entry.address write.entry.bytes.now result) part.old part.new }
    ensures room { IfOk result (λ cost. (cost.0 ≤ length steps.old) × (cost.1 ≤ length «data».old)) }
    ensures answer { Handed (plan_inside (P.Part.meaning part.old) write.entry.address write.entry.bytes.now (length steps.old) (length «data».old)) result steps.old steps.new «data».old «data».new }
{
    if let Some(place) = lowest_barred(part, write) {
        return Err(PlanFault::Protected(place));
    }
    let choice = choose(part, write);
    let (cycles, sent) = choice.cost;
    if cycles > steps.len() {
        return Err(PlanFault::StepsShort(choice.cost));
    }
    if sent > data.len() {
        return Err(PlanFault::DataShort(choice.cost));
    }
    put_plan(
        part,
        write,
        &choice,
        &mut steps[..cycles],
        &mut data[..sent],
    );
    Ok(choice.cost)
}

// The plan of least cost that writes bytes at an address, as steps and their data, and what it costs: cycles and data bytes.
// The checks in their order: the range, polls due, a protected change, room for the steps, room for the data. What follows the
// plan in either buffer is left as it was, and all of both where the write is not planned. The part is only looked at, and only
// after the first two checks.
pub fn plan<P: Part>(
    part: &mut P,
    address: usize,
    bytes: &[u8],
    steps: &mut [Step],
    data: &mut [u8],
) -> Result<Cost, PlanFault>
    ensures looked { LookedBy P.Part (planning_to (P.Part.meaning part.old) address bytes.now result) part.old part.new }
    ensures asked { LookedBy P.Part (3 * size (P.Part.meaning part.old).shape) part.old part.new }
    ensures unasked { (size (P.Part.meaning part.old).shape < address + length bytes.now) ⊎ (0 < (P.Part.meaning part.old).due) → part.new ≡ part.old }
    ensures room { IfOk result (λ cost. (cost.0 ≤ length steps.old) × (cost.1 ≤ length «data».old)) }
    ensures answer { Handed (plan_call (P.Part.meaning part.old) address bytes.now (length steps.old) (length «data».old)) result steps.old steps.new «data».old «data».new }
{
    if !is_inside(size_of(part), address, bytes.len()) {
        return Err(PlanFault::Outside(address));
    }
    if part.is_busy() {
        return Err(PlanFault::Busy);
    }
    plan_inside(part, Write { address, bytes }, steps, data)
}
