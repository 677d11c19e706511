//! The structural statements of a design: scopes, variables, nets, arrays, gates, events and threads.
//!
//! `read_form` reads one statement that isn't an opcode into a `Form`, and refuses it exactly where it spells none. The
//! words stand in one table; each row has a list of operand pieces, which one reader goes over from left to right.
#![tactic(auto)]

mod checks;
mod choices;
mod form;
mod gates;
mod items;
mod make;
mod numbers;
mod owned;
mod pieces;
mod ports;
mod read;
mod table;
#[cfg(test)]
mod tests;
mod unsupported;

pub use form::{
    ArithmeticKind, CompareKind, EdgeKind, Form, Gate, Names, Port, Ports, Range, ReduceKind,
    ScopeKind, ShiftKind, StartKind, VarKind, Within,
};
pub use owned::Boxed;
pub use read::read_form;
