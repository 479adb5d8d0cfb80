// Which steps of a plan can be listed.
ghost use Rattle.std.specs.Prelude.{◌≡◌, length};
ghost use Rattle.listing.specs.PlanFault.{addressed, filled, lies, unlisted, checked};

use crate::plan_fault::PlanListingFault;
use least::step::Step;
use memory::model::PAGE_BYTES;
use memory::range::is_inside;

// The last address that three bytes say.
const LAST_ADDRESS: usize = 0xFFFFFF;

// If a frame has room for the step's address.
fn is_addressed(step: &Step) -> bool
    ensures { result ≡ addressed step.now.kind step.now.address }
{
    !step.kind.has_address() || step.address <= LAST_ADDRESS
}

// If the step's data are a page at most, one byte at least, and lie in the buffer.
fn has_page(step: &Step, data: &[u8]) -> bool
    ensures { result ≡ lies step.now.place step.now.length (length «data».now) }
{
    (1..=PAGE_BYTES).contains(&step.length) && is_inside(data.len(), step.place, step.length)
}

// If the step has the data that its cycle needs.
fn is_filled(step: &Step, data: &[u8]) -> bool
    ensures { result ≡ filled step.now.kind (lies step.now.place step.now.length (length «data».now)) }
{
    !step.kind.has_data() || has_page(step, data)
}

// Refuses a step that is not listed.
pub(crate) fn check_step(step: &Step, data: &[u8]) -> Result<(), PlanListingFault>
    ensures { result ≡ checked (unlisted «data».now step.now) }
{
    if !is_addressed(step) {
        return Err(PlanListingFault::Address {
            address: step.address,
        });
    }
    if !is_filled(step, data) {
        return Err(PlanListingFault::PageData {
            length: step.length,
        });
    }
    Ok(())
}
