// Why a plan is not listed. specs/PlanFault.antt gives each case its layer, number and values.

#[derive(Clone, Copy, PartialEq, Eq, Debug)]
pub enum PlanListingFault {
    // A step's address does not fit three bytes.
    Address { address: usize },
    // A page cycle of no data or more than a page, or with data outside their buffer.
    PageData { length: usize },
    // The buffer lent for the text is shorter than the text.
    TextShort { needed: u128 },
}
