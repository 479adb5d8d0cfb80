// The fence.

pub use memory::geometry::MOST_SECTORS;

// A part, and which of its sectors are closed. It means the part with the closed sectors added to the protected ones.
#[derive(Drop)]
pub struct Fence<P> {
    pub(crate) part: P,
    // one mark for each sector that a part may have: a table of fixed length, since there is no heap
    pub(crate) closed: [bool; MOST_SECTORS],
}
