//! A reader of value change dumps (IEEE 1364-2005, clause 18).
//!
//! `read_vcd` gives the trace of a file exactly where the file is in the grammar of dumps, and else its first fault by
//! place. The grammar is a relation, apart from the reader (`specs/Grammar.antt`).
#![tactic(auto)]

mod body;
mod bytes;
mod changes;
mod header;
mod names;
mod reader;
mod types;

pub use changes::{Changes, ChangesIter};
pub use reader::read_vcd;
pub use types::{Change, Trace, Vars, VcdFault, VcdKind, VcdVar};

#[cfg(test)]
mod tests;
