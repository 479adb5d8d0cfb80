// What a serial memory is made of: its geometry, the sectors that its status byte protects, the cycles
// that alter it, and an image in the caller's memory that does the same.
#![tactic(auto)]

pub mod bytes;
mod carry;
pub mod geometry;
pub mod image;
pub mod kind;
mod making;
pub mod model;
mod page;
pub mod protection;
pub mod range;
pub mod report;
pub mod unmade;
