//! Frame listings: frames as text, one a line.
#![tactic(auto)]

pub mod bytes;
mod extent;
pub mod fault;
pub mod hex;
pub mod item;
pub mod pairs;
pub mod plan;
pub mod plan_fault;
mod plan_refusal;
mod plan_text;
pub mod reader;
mod report;
pub mod rewrite;
mod room;
mod sheet;
#[cfg(test)]
mod tests;
pub mod writer;
