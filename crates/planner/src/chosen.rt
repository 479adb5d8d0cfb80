// What was chosen for a write.

use least::cost::Cost;
use memory::geometry::MOST_SECTORS;

// How pages are written: as they stand, or once erased.
#[derive(Clone, Copy, PartialEq, Eq, Debug)]
pub enum Treatment {
    Kept,
    Erased,
}

// What is erased first: all, or the sectors whose pages are to be erased.
#[derive(Clone, Copy)]
pub enum Erasure {
    All,
    // a mark for each sector that a part can have: the planner has no heap, and how many sectors a part has is known only at run time
    Sectors([Treatment; MOST_SECTORS]),
}

#[derive(Clone, Copy)]
pub struct Choice {
    pub erasure: Erasure,
    pub cost: Cost,
}
