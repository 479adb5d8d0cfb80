// Scripts of calls to a fence over a bench chip: how one is read, and how what came of its calls is shown.
#![tactic(auto)]

mod bytes;
pub mod chip;
mod command;
pub mod fault;
mod making;
mod numbers;
pub mod read;
mod reading;
pub mod script;
pub mod show;
#[cfg(test)]
mod tests;
