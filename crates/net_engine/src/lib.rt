//! The values of a design's items, and how a change of one reaches what reads it (IEEE 1364-2005, 4.2, 7.9 to 7.14, 9.2 to
//! 9.7 and 11.3).
//!
//! A `Net` has a value for each variable, gate and net delay, and words for each array. Where one changes, the gates and net
//! delays that read it are to be evaluated, and the events whose edge it is let the threads go on that wait for them. Only
//! `build` and `reader_list` take memory.
#![tactic(auto)]

mod build;
mod deliver;
mod design;
mod edges;
mod inputs;
mod net;
mod outputs;
mod readers;
mod slot;
mod store;
#[cfg(test)]
mod tests;
mod times;

pub use net::Net;
pub use readers::reader_list;
