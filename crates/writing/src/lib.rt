// A write to any part: it waits, plans, and runs the plan.
#![tactic(auto)]

pub mod fault;
mod report;
pub mod write;
