// An image in the caller's memory.
ghost use Rattle.std.specs.Prelude.{◌≡◌, ℕ, ◌*◌, ◌<◌, vec_len, slice_index};

use crate::geometry::Geometry;

// Why an image cannot be made.
#[derive(Clone, Copy, PartialEq, Eq, Debug)]
pub enum ImageFault {
    // not 1 to 128 sectors of 1 to 2,048 pages
    Geometry,
    // the bytes are not those of the sectors
    Length,
}

// The bytes of a memory, divided into sectors of pages of 64 bytes.
#[derive(Drop)]
pub struct Image {
    pub geometry: Geometry,
    pub bytes: Vec<u8>,
    ghost sized: { vec_len bytes ≡ geometry.sectors * geometry.pages * 64 },
    ghost byte: { (i : ℕ) → slice_index bytes.items i < 256 },
}
