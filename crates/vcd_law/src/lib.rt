//! Whatever the dump's writer writes, its reader reads.
//!
//! What our dumps are is `specs/Own.antt`, in the terms of the writer's definitions. `read_own` gives the trace of each of
//! them, and refuses none.
#![tactic(auto)]

mod names;
mod own;

pub use names::is_plain;
pub use own::read_own;

#[cfg(test)]
mod tests;
