// The refusals of listings and of plans' listings as they are reported.
ghost use Rattle.listing.specs.Fault.{Told, row, short_of};
ghost use Rattle.listing.specs.PlanFault as of_plan;

use crate::fault::ListingFault;
use crate::plan_fault::PlanListingFault;
use memory::report::{Cause, Layer, Report};

// Neither fault is `Reported`: a report's values are of a `usize`, and the length that a buffer lacks can be past them. There is
// no report then.
fn short(needed: u128) -> Option<Report>
    ensures { Told (short_of needed) result }
{
    let needed = usize::try_from(needed).ok()?;
    Some(Report::one(Layer::Listing, Cause::TextShort, needed))
}

impl ListingFault {
    // The row of the fault, if a report can tell it.
    pub fn report(self) -> Option<Report>
        ensures { Told (row self) result }
    {
        let report = match self {
            ListingFault::Malformed { line, column } => Report::two(
                Layer::Listing,
                Cause::Malformed,
                line,
                column,
            ),
            ListingFault::TextShort { needed } => short(needed)?,
        };
        Some(report)
    }
}

impl PlanListingFault {
    // The row of the fault, if a report can tell it.
    pub fn report(self) -> Option<Report>
        ensures { Told (of_plan.row self) result }
    {
        let report = match self {
            PlanListingFault::Address { address } => Report::one(
                Layer::Listing,
                Cause::Outside,
                address,
            ),
            PlanListingFault::PageData { length } => Report::one(
                Layer::Listing,
                Cause::PageData,
                length,
            ),
            PlanListingFault::TextShort { needed } => short(needed)?,
        };
        Some(report)
    }
}
