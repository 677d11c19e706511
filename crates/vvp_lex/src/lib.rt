//! The statements and tokens of a file of vvp assembly.
//!
//! `statements` cuts a file into its statements, and refuses it exactly at its first lexical fault. `tokens` gives
//! the tokens of one of them, and `text_bytes` the bytes that a string stands for. Nothing is copied out of the
//! file but a string's bytes: all else is a place in it.
//!
//! The crates that read statements find here what they have alike: what stands at a place among the tokens, a word held against
//! a list of texts or looked up in a table, and the vector that the bytes of a constant spell.
#![tactic(auto)]

mod bytes;
mod label;
mod lex;
mod place;
mod scan;
mod text;
mod types;
mod vector;
mod words;

pub use label::{is_label, is_word};
pub use lex::{part_of, statements, tokens};
pub use place::{
    byte_at, bytes_after, bytes_of, is_mark_at, mark_at, number_at, span, text_at, text_bytes_at,
    tokens_after, word_at,
};
pub use scan::number_value;
pub use text::{Bytes, text_bytes};
pub use types::{FormFault, FormKind, LexFault, LexKind, Name, Spanned, Stmt, Token};
pub use vector::vector_of;
pub use words::{begins_with_one, is_one, looked_up};

#[cfg(test)]
mod tests;
