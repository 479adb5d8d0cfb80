// Lists of calls to a fence over any part, and the promise over every such list.
#![tactic(auto)]

pub mod call;
mod make;
pub mod perform;
mod report;
