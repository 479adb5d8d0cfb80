// A fence over any part: sectors that are closed on top of those that the part protects itself.
#![tactic(auto)]

pub mod closing;
pub mod fence;
pub mod fence_part;
