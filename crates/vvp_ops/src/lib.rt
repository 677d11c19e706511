//! The opcodes of a design: what a statement that begins with `%` spells.
//!
//! `read_op` reads one statement into an `Op`, and refuses it exactly where it spells none. Most opcodes have up to three
//! operands and stand in one table, a row each; a call of a task or a function has a list of arguments.
#![tactic(auto)]

mod args;
mod arguments;
mod calls;
mod op;
mod operand;
mod read;
mod statement;
mod table;
mod tokens;
mod unsupported;

pub use args::{Arg, Args};
pub use op::Op;
pub use statement::{is_opcode, read_op};

#[cfg(test)]
mod tests;
