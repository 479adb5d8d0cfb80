// Plans of least cost made over any part, and plans run over it.
#![tactic(auto)]

mod barred;
mod choice;
mod chosen;
mod emit;
pub mod fault;
mod look;
mod overlay;
mod page;
pub mod plan;
mod report;
pub mod run;
pub mod run_fault;
pub mod send;
mod sheet;
mod survey;
pub mod wait;
