// A serial phase change memory behind frames: the instruction table, the chip machine, the interface of a
// port, and two ports, a simulated chip for the bench and a bus of two.
#![tactic(auto)]

pub mod bench;
pub mod bench_port;
pub mod build;
pub mod bus;
pub mod decode;
pub mod fault;
pub mod instruction;
pub mod laws;
mod machine;
mod making;
pub mod order;
pub mod port;
