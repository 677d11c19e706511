//! Drive strengths: the levels of scalars and vectors, driving and seeing them, and what nets make
//! of several drivers (IEEE 1364-2005, clauses 7.10 to 7.13 and 4.6).
#![tactic(auto)]

mod level;
mod levels;
mod places;
mod planes;
mod resolver;
#[cfg(test)]
mod tests;

pub use level::Level;
pub use levels::{Vec8, drive, resolve, seen};
pub use resolver::resolve_kind;
