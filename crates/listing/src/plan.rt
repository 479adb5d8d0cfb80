// A plan listed as frames.
ghost use Rattle.std.specs.Prelude.{◌≡◌, length};
ghost use Rattle.least.specs.Steps.{cycles_of};
ghost use Rattle.listing.specs.PlanFrames.{plan_frames, plan_answer, plan_into};
ghost use Rattle.listing.specs.Playing.{HasEffect};
ghost use Rattle.listing.specs.Writing.{AllReadBack};

use crate::plan_fault::PlanListingFault;
use crate::plan_text::{put_steps, text_len};
use crate::room::check_room;
use crate::sheet::Sheet;
use least::step::Step;

// Lists a plan, its steps with their data, as frames at the start of the buffer, and gives the length of the text.
// The steps are looked at in their order, each for its address and then its data, and then the room for the text.
// Refused, the buffer stays as it was, as does what lies past the text. The text reads back as exactly these frames, and
// played on a chip they carry out the plan's cycles and no other.
pub fn list_plan(steps: &[Step], data: &[u8], into: &mut [u8]) -> Result<usize, PlanListingFault>
    ensures answer { result ≡ plan_answer «data».now steps.now (length into.old) }
    ensures buffer { into.new ≡ plan_into «data».now steps.now into.old }
    ensures reads { AllReadBack (plan_frames (cycles_of «data».now steps.now)) }
    ensures effect { HasEffect (cycles_of «data».now steps.now) }
{
    let needed = text_len(steps, data)?;
    check_room(needed, into)?;
    let mut sheet = Sheet::new(into);
    put_steps(steps, data, &mut sheet);
    Ok(sheet.at)
}
