// Calls to a fence over the driver of any port.
#![tactic(auto)]

pub mod perform;
