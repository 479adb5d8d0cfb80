// What a part knows of its memory without looking at the bytes.
use memory::geometry::Geometry;
use memory::protection::Status;

#[derive(Clone, Copy, PartialEq, Eq, Debug)]
pub struct Outline {
    pub geometry: Geometry,
    // protects sectors
    pub status: Status,
    // whether polls are due
    pub busy: bool,
}
