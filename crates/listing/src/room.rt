// If a lent buffer has room for what it has to hold.
ghost use Rattle.std.specs.Prelude.{◌≡◌, ◌<◌, ◌≤◌, length, MatchResult};
ghost use Rattle.listing.specs.declared.fault.ListingFault.TheVariants as listing_fault;
ghost use Rattle.listing.specs.declared.plan_fault.PlanListingFault.TheVariants as plan_fault;

use crate::fault::ListingFault;
use crate::plan_fault::PlanListingFault;

// The buffer is shorter than what it has to hold, which can be longer than any buffer.
#[derive(Clone, Copy, PartialEq, Eq, Debug)]
pub(crate) struct TextShort {
    needed: u128,
}

impl From<TextShort> for ListingFault {
    ghost from_gives = { λ old new. new ≡ listing_fault.TextShort old.needed };

    fn from(short: TextShort) -> ListingFault {
        ListingFault::TextShort {
            needed: short.needed,
        }
    }
}

impl From<TextShort> for PlanListingFault {
    ghost from_gives = { λ old new. new ≡ plan_fault.TextShort old.needed };

    fn from(short: TextShort) -> PlanListingFault {
        PlanListingFault::TextShort {
            needed: short.needed,
        }
    }
}

// Refuses a buffer that is shorter than `needed`.
pub(crate) fn check_room(needed: u128, into: &[u8]) -> Result<(), TextShort>
    ensures { MatchResult result (λ _. needed ≤ length into.now) (λ short. (length into.now < needed) × (short.needed ≡ needed)) }
{
    if (into.len() as u128) < needed {
        return Err(TextShort { needed });
    }
    Ok(())
}
