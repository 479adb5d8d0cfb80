// Bytes as pairs of hexadecimal digits.
#![tactic(auto)]

pub mod spaced;
pub mod spell;
