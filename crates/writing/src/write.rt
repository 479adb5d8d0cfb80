// A write to any part.
ghost use Rattle.std.specs.Prelude.{◌≡◌, ℕ, ◌+◌, ◌<◌, ◌≤◌, true, List, length, slice_index};
ghost use Rattle.memory.specs.Shape.{size};
ghost use Rattle.part.specs.Limit.{allowed};
ghost use Rattle.writing.specs.Wrote.{Carried, Wrote, buffers};

use crate::fault::WriteFault;
use least::cost::Cost;
use least::step::Step;
use part::limit::is_limit;
use part::part::Part;
use part::size::{is_inside, size_of};
use planner::plan::plan;
use planner::run::run;
use planner::run_fault::RunFault;
use planner::wait::wait;

// A write that lies inside a part with nothing due.
fn carry_out<P: Part>(
    part: &mut P,
    address: usize,
    bytes: &[u8],
    steps: &mut [Step],
    data: &mut [u8],
    limit: usize,
) -> Result<Cost, WriteFault>
    requires limited { allowed limit ≡ true }
    requires inside { address + length bytes.now ≤ size (P.Part.meaning part.old).shape }
    requires idle { (P.Part.meaning part.old).due ≡ 0 }
    requires byte { (i : ℕ) → slice_index bytes.now i < 256 }
    ensures { Carried P.Part limit address bytes.now (buffers steps.old steps.new «data».old «data».new) part.old part.new result }
{
    let cost = plan(part, address, bytes, steps, data)?;
    let (cycles, sent) = cost;
    match run(part, &steps[..cycles], &data[..sent], limit) {
        Ok(_) => Ok(cost),
        Err(RunFault::Abandoned(cycles)) => Err(WriteFault::Abandoned(cycles)),
        // the limit was looked at, nothing is due, and the part accepts each step of its plan
        Err(RunFault::Limit(_)) => unreachable!(),
        Err(RunFault::StillBusy(_)) => unreachable!(),
        Err(RunFault::Refused { step: _, fault: _ }) => unreachable!(),
    }
}

// Writes bytes at an address at the least cost, and answers it: cycles and data bytes sent. The checks in their order: the
// limit, the range, polls due beyond the limit, a protected change, room for the steps, room for the data, polls due beyond
// the limit after a cycle. A done write leaves in both buffers the plan that was sent, and so does an abandoned one.
// (The step list and the data buffer stay two parameters: each is lent on its own, with a refusal number of its own.)
pub fn write<P: Part>(
    part: &mut P,
    address: usize,
    bytes: &[u8],
    steps: &mut [Step],
    data: &mut [u8],
    limit: usize,
) -> Result<Cost, WriteFault>
    ensures { Wrote P.Part limit address bytes.now (buffers steps.old steps.new «data».old «data».new) part.old part.new result }
{
    if !is_limit(limit) {
        return Err(WriteFault::Limit(limit));
    }
    if !is_inside(size_of(part), address, bytes.len()) {
        return Err(WriteFault::Outside(address));
    }
    if !wait(part, limit) {
        return Err(WriteFault::StillBusy(limit));
    }
    carry_out(part, address, bytes, steps, data, limit)
}
