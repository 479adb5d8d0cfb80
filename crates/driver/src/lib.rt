// A part made of a port: attaching to the chip behind it, and the frames that each call sends.
#![tactic(auto)]

mod ask;
pub mod attach;
mod cycle;
pub mod driver;
pub mod driver_part;
pub mod fault;
mod poll;
mod read;
mod report;
