//! What stands at a place among the tokens of a statement, for the crates that read statements. Places count from 0.

ghost use Rattle.std.specs.Prelude.{◌≡◌, ◌≤◌, ◌^◌, All, IfOk, drop, length, slice_index};
ghost use Rattle.std.specs.Option.{option_map};
ghost use Rattle.vvp_lex.specs.Place.{IsTextOf, span_of, bytes_of, is_mark_at, mark_at, number_at, word_at, text_at};
ghost use Rattle.vvp_lex.specs.Unescaped.{text_of};

use crate::text::{Bytes, text_bytes};
use crate::types::{Name, Spanned, Token};
use std::alloc::{AllocError, Global};

/// Where a token lies.
pub fn span(token: Spanned) -> Name
    ensures { result ≡ span_of token }
{
    Name {
        from: token.from,
        to: token.to,
    }
}

/// The bytes of a part of the file. Of a part that reaches past the file's end it is what lies in the file.
pub fn bytes_of(src: &[u8], name: Name) -> &[u8]
    ensures { result.now ≡ bytes_of src.now name }
{
    let to = src.len().min(name.to as usize);
    let from = to.min(name.from as usize);
    &src[from..to]
}

/// What comes after so many bytes.
pub fn bytes_after(bytes: &[u8], count: usize) -> &[u8]
    ensures { result.now ≡ drop count bytes.now }
{
    match bytes.get(count..) {
        Some(rest) => rest,
        None => &[],
    }
}

/// What comes after so many tokens.
pub fn tokens_after(tokens: &[Spanned], count: usize) -> &[Spanned]
    ensures { result.now ≡ drop count tokens.now }
{
    match tokens.get(count..) {
        Some(rest) => rest,
        None => &[],
    }
}

/// The byte at a place, 0 past the end.
pub fn byte_at(bytes: &[u8], place: usize) -> u8
    ensures { result ≡ slice_index bytes.now place }
{
    match bytes.get(place) {
        Some(byte) => *byte,
        None => 0,
    }
}

/// Whether this mark stands at a place.
#[tactic(auto, unfolding(crate::specs::Place::is_mark_at))]
pub fn is_mark_at(tokens: &[Spanned], place: usize, byte: u8) -> bool
    ensures { result ≡ is_mark_at tokens.now place byte }
{
    if place < tokens.len() {
        match tokens[place].token {
            Token::Punct(found) => found == byte,
            _ => false,
        }
    } else {
        false
    }
}

/// Some where this mark stands at a place.
#[tactic(auto, unfolding(crate::specs::Place::mark_at))]
pub fn mark_at(tokens: &[Spanned], place: usize, byte: u8) -> Option<()>
    ensures { result ≡ mark_at tokens.now place byte }
{
    if is_mark_at(tokens, place, byte) {
        Some(())
    } else {
        None
    }
}

/// The number at a place.
#[tactic(auto, unfolding(crate::specs::Place::number_at))]
pub fn number_at(tokens: &[Spanned], place: usize) -> Option<u64>
    ensures { result ≡ number_at tokens.now place }
{
    if place < tokens.len() {
        match tokens[place].token {
            Token::Number(value) => Some(value),
            _ => None,
        }
    } else {
        None
    }
}

/// The word at a place.
#[tactic(auto, unfolding(crate::specs::Place::word_at))]
pub fn word_at(tokens: &[Spanned], place: usize) -> Option<Name>
    ensures { result ≡ word_at tokens.now place }
{
    if place < tokens.len() {
        match tokens[place].token {
            Token::Word => Some(span(tokens[place])),
            _ => None,
        }
    } else {
        None
    }
}

/// The text at a place.
#[tactic(auto, unfolding(crate::specs::Place::text_at))]
pub fn text_at(tokens: &[Spanned], place: usize) -> Option<Name>
    ensures { result ≡ text_at tokens.now place }
{
    if place < tokens.len() {
        match tokens[place].token {
            Token::Text => Some(span(tokens[place])),
            _ => None,
        }
    } else {
        None
    }
}

/// The bytes that the text at a place stands for. The only error is want of memory.
pub fn text_bytes_at(
    alloc: Global,
    src: &[u8],
    tokens: &[Spanned],
    place: usize,
) -> Result<Option<Bytes>, AllocError>
    requires small { length src.now ≤ 2 ^ 26 }
    requires texts { All (IsTextOf src.now) tokens.now }
    ensures { IfOk result (λ read. read ≡ option_map (text_of src.now) (text_at tokens.now place)) }
{
    match text_at(tokens, place) {
        Some(name) => Ok(Some(text_bytes(alloc, src, name)?)),
        None => Ok(None),
    }
}
