//! One run of a program: threads of opcodes over a net of gates, under the stratified event queue of IEEE 1364-2005, clause 11.
//!
//! `Engine` does the run step by step, and each step is the list machine's (`specs/Machine.antt`, `specs/Step.antt`): whatever
//! keeps the pending dues and the fan-out, values, threads, output, time, counts and ending are those of a machine that keeps
//! them in plain lists. `run` does up to a budget of steps.
#![tactic(auto)]

mod budget;
mod calls;
mod dues;
mod effects;
mod ending;
mod engine;
mod lists;
mod opcode;
mod orders;
mod pieces;
mod snapshot;
mod start;
mod stretch;
#[cfg(test)]
mod tests;

pub use budget::run;
pub use ending::Ending;
pub use engine::Engine;
pub use lists::{DelayList, Forced, ForcedList, LevelList, ThreadList, WaitList, WordList};
pub use orders::state_orders;
pub use snapshot::Snapshot;
