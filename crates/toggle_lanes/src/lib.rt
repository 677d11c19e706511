//! How often the places of a dump's variables rise and fall.
#![tactic(auto)]

mod lanes;
mod rows;

pub use rows::{Row, toggles};

#[cfg(test)]
mod tests;
