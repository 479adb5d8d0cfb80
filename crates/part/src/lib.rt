// A memory that can be planned for: what it means, when it refuses, the interface of a part, and a plain image
// that is one.
#![tactic(auto)]

pub mod fault;
pub mod limit;
mod making;
pub mod outline;
pub mod part;
pub mod plain;
pub mod plain_part;
pub mod refusal;
mod report;
pub mod size;
