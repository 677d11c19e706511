//! The dump of each run of a program with plain names is a dump of ours, which its reader never refuses.
//!
//! What a dump of ours is stands in vcd_law. What stands between any two steps of a run is `specs/Kept.antt`, and the law is a
//! clause of `plain_names`.
#![tactic(auto)]

mod plain;

pub use plain::plain_names;

#[cfg(test)]
mod tests;
