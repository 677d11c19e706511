//! The label of a statement.

ghost use Rattle.std.specs.Prelude.{◌≡◌};
ghost use Rattle.vvp_lex.specs.Label.{is_label, is_label_first, is_word};

use crate::place::byte_at;
use crate::types::{Spanned, Token};

/// Whether the token is a word.
pub fn is_word(token: Token) -> bool
    ensures { result ≡ is_word token }
{
    match token {
        Token::Word => true,
        _ => false,
    }
}

/// Whether a label may begin with the byte: a letter, `_`, `$` or `\`.
fn is_label_first(byte: u8) -> bool
    ensures { result ≡ is_label_first byte }
{
    byte.is_ascii_alphabetic() || byte == b'_' || byte == b'$' || byte == b'\\'
}

/// Whether a statement's first token is its label: a word, where the statement begins in the first column, and its first
/// byte is a letter, `_`, `$` or `\`.
pub fn is_label(src: &[u8], column_one: bool, first: Spanned) -> bool
    ensures { result ≡ is_label src.now column_one first }
{
    column_one && is_word(first.token) && is_label_first(byte_at(src, first.from as usize))
}
