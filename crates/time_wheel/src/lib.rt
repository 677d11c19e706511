//! The agenda of a simulation as a time wheel of 256 ticks (IEEE 1364-2005, clause 11, scheduling
//! semantics).
#![tactic(auto)]

mod queues;
#[cfg(test)]
mod tests;
mod wheel;

pub use wheel::Wheel;
