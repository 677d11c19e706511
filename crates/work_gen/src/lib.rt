//! A file to measure runs with: so many counters that step at every tick, each with a gate behind it, and one thread that ends
//! the run after 100 ticks.
#![tactic(auto)]

#[cfg(test)]
mod tests;
mod text;

pub use text::workload;
