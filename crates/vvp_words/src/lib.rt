//! The words of the command line: the run of a file or of a workload, with a budget of steps, an order, and whether its counts
//! are wanted; or the report on a dump, or on the dump of a run. What the words say is what the library `clap` promises for one simple command, and then the rules on digits, ranges
//! and modes.
#![tactic(auto)]

mod command;
mod decimal;
mod entries;
#[cfg(test)]
mod tests;

pub use command::WordsFault;
pub use entries::{Entries, Work, read_words};
