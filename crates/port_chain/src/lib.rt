//! The fan-out of a net: which input ports each node drives, in order.
//!
//! A node's readers are not kept as a list of their own. Each node keeps the link of the first port that it
//! drives, and each port the link of the next port that the same node drives, so the readers of a node are
//! a chain through the ports. A port has one driver, so it is in one chain, and one link for each port is enough.
//! To go on from a port to the next takes one read, and delivery takes no memory.
//!
//! This is how vvp, the run-time engine of Icarus Verilog, delivers values between its functors (its README, on
//! functors and their linked ports): a functor has four input ports, and a link is the functor's number with the
//! port in its two low bits.
#![tactic(auto)]

mod chain;
mod fanout;
mod link;

pub use chain::ChainFanout;
pub use fanout::Fanout;
pub use link::{Link, Reader};

#[cfg(test)]
mod tests;
