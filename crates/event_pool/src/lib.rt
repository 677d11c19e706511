//! The agenda of a simulation: what is due, when, and in which region of its time (IEEE 1364-2005,
//! clause 11, scheduling semantics).
#![tactic(auto)]

mod agenda;
mod dues;
mod pool;
#[cfg(test)]
mod tests;

pub use agenda::{Act, Agenda, Due, Region, Settled};
pub use dues::Dues;
pub use pool::Pool;
