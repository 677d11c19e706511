//! The program without its runtime: one call over the words, a store and two sinks.
#![tactic(auto)]

mod activity;
mod delivery;
mod dump;
mod fault;
mod load;
mod outcome;
mod pieces;
mod refusal;
mod report;
mod source;
mod toggles;
mod top;
mod verdict;

pub use activity::{Own, own_trace};
pub use dump_law::plain_names;
pub use outcome::Outcome;
pub use refusal::Why;
pub use report::{Counts, Report};
pub use top::vvp_main;

#[cfg(test)]
mod tests;
