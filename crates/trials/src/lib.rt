// Writes to try on a memory, chips of the bench and plain images to try them on, and numbers to pick them by.
#![tactic(auto)]

pub mod chip;
pub mod picker;
pub mod plain;
pub mod stretch;
pub mod trial;
