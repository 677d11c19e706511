//! The system tasks and functions, and the read-only phase at the end of a time step (IEEE 1364-2005, 17 and 18).
//!
//! `Tasks` keeps what the tasks keep between calls: the monitor, the strobes and the dump, and the bytes that they print.
#![tactic(auto)]

mod arguments;
mod chosen;
mod design;
mod header;
mod names;
mod phase;
mod place;
mod printing;
mod start;
mod state;
mod tasks;
mod writer;

pub use design::{Entry, EntryKind};
pub use names::Said;
pub use state::{Call, Calls, ItemList, Sections, TaskState, VecList};
pub use tasks::Tasks;

#[cfg(test)]
mod tests;
