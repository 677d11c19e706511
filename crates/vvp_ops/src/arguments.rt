//! Reading the arguments of a call.

ghost use Rattle.std.specs.Prelude.{◌≡◌, ◌≤◌, ◌^◌, ◌+◌, All, IfOk, take, length};
ghost use Rattle.std.specs.List.{prefix_len, AllPass};
ghost use Rattle.std.specs.Char.{is_ascii_digit};
ghost use Rattle.vvp_lex.specs.Place.{IsTextOf};
ghost use Rattle.vvp_ops.specs.Arguments.{mark_len, sized_vector, based_argument, stack_type, stack_argument, array_argument, part_argument, place_argument, opens_stack, word_argument, argument_at};

use crate::args::Arg;
use crate::tokens::{are_digits, decimal};
use std::alloc::{AllocError, Global};
use vvp_lex::{
    Name, Spanned, Token, byte_at, bytes_after, bytes_of, mark_at, number_at, span, text_bytes,
    vector_of, word_at,
};

/// How many bytes stand between a vector's size and its bits.
fn mark_len(signed: bool) -> usize
    ensures { result ≡ mark_len signed }
{
    if signed { 3 } else { 2 }
}

/// The vector whose size is written by the first `size` bytes.
#[tactic(auto, unfolding(crate::specs::Arguments::sized_vector))]
fn sized_vector(text: &[u8], size: usize, signed: bool) -> Option<Arg<Name>>
    requires within { size ≤ length text.now }
    requires digits { AllPass is_ascii_digit (take size text.now) }
    ensures { result ≡ sized_vector text.now size signed }
{
    let bits = bytes_after(text, size + mark_len(signed));
    let value = vector_of(bits)?;
    if decimal(&text[..size]) == bits.len() as u64 {
        Some(Arg::Based { value, signed })
    } else {
        None
    }
}

/// How many digits stand at the front.
fn digits_len(text: &[u8]) -> usize
    ensures value { result ≡ prefix_len is_ascii_digit text.now }
    ensures within { result ≤ length text.now }
    ensures digits { AllPass is_ascii_digit (take result text.now) }
{
    text.iter().take_while(|b| b.is_ascii_digit()).count()
}

/// A vector such as `4'sb01xz`.
#[tactic(auto, unfolding(crate::specs::Arguments::based_argument))]
fn based_argument(text: &[u8]) -> Option<Arg<Name>>
    ensures { result ≡ based_argument text.now }
{
    let size = digits_len(text);
    sized_vector(text, size, byte_at(text, size + 1) == b's')
}

/// The sign and the width of `u8` or `s8`.
#[tactic(auto, unfolding(crate::specs::Arguments::stack_type))]
fn stack_type(word: &[u8]) -> Option<(bool, u64)>
    ensures { result ≡ stack_type word.now }
{
    let digits = bytes_after(word, 1);
    if digits.is_empty() || !are_digits(digits) {
        return None;
    }
    match byte_at(word, 0) {
        b'u' => Some((false, decimal(digits))),
        b's' => Some((true, decimal(digits))),
        _ => None,
    }
}

/// `S<n,vec4,uW>` or `S<n,vec4,sW>`.
#[tactic(auto, unfolding(crate::specs::Arguments::stack_argument))]
fn stack_argument(src: &[u8], tokens: &[Spanned]) -> Option<Arg<Name>>
    ensures { result ≡ stack_argument src.now tokens.now }
{
    mark_at(tokens, 1, b'<')?;
    let place = number_at(tokens, 2)?;
    mark_at(tokens, 3, b',')?;
    let kind = word_at(tokens, 4)?;
    mark_at(tokens, 5, b',')?;
    let word = word_at(tokens, 6)?;
    mark_at(tokens, 7, b'>')?;
    let (signed, width) = stack_type(bytes_of(src, word))?;
    if bytes_of(src, kind) == b"vec4".as_slice() {
        Some(Arg::Stack {
            place,
            width,
            signed,
        })
    } else {
        None
    }
}

/// `&A<m, n>`.
#[tactic(auto, unfolding(crate::specs::Arguments::array_argument))]
fn array_argument(tokens: &[Spanned]) -> Option<Arg<Name>>
    ensures { result ≡ array_argument tokens.now }
{
    mark_at(tokens, 2, b'<')?;
    let array = word_at(tokens, 3)?;
    mark_at(tokens, 4, b',')?;
    let index = number_at(tokens, 5)?;
    mark_at(tokens, 6, b'>')?;
    Some(Arg::Word { array, index })
}

/// `&PV<s, n, w>`.
#[tactic(auto, unfolding(crate::specs::Arguments::part_argument))]
fn part_argument(tokens: &[Spanned]) -> Option<Arg<Name>>
    ensures { result ≡ part_argument tokens.now }
{
    mark_at(tokens, 2, b'<')?;
    let item = word_at(tokens, 3)?;
    mark_at(tokens, 4, b',')?;
    let base = number_at(tokens, 5)?;
    mark_at(tokens, 6, b',')?;
    let width = number_at(tokens, 7)?;
    mark_at(tokens, 8, b'>')?;
    Some(Arg::Part { item, base, width })
}

/// What `&` and a word begin.
#[tactic(auto, unfolding(crate::specs::Arguments::place_argument))]
fn place_argument(src: &[u8], tokens: &[Spanned]) -> Option<Arg<Name>>
    ensures { result ≡ place_argument src.now tokens.now }
{
    let word = bytes_of(src, word_at(tokens, 1)?);
    if word == b"A".as_slice() {
        array_argument(tokens)
    } else if word == b"PV".as_slice() {
        part_argument(tokens)
    } else {
        None
    }
}

/// Whether a stack item begins: `S` and `<`.
fn opens_stack(word: &[u8], tokens: &[Spanned]) -> bool
    ensures { result ≡ opens_stack word.now tokens.now }
{
    word == b"S".as_slice() && mark_at(tokens, 1, b'<').is_some()
}

/// A time word, a stack item or a symbol.
#[tactic(auto, unfolding(crate::specs::Arguments::word_argument))]
fn word_argument(src: &[u8], tokens: &[Spanned], name: Name) -> Option<Arg<Name>>
    ensures { result ≡ word_argument src.now tokens.now name }
{
    let word = bytes_of(src, name);
    if word == b"$time".as_slice() {
        Some(Arg::Time)
    } else if word == b"$stime".as_slice() {
        Some(Arg::ShortTime)
    } else if word == b"$simtime".as_slice() {
        Some(Arg::SimTime)
    } else if opens_stack(word, tokens) {
        stack_argument(src, tokens)
    } else {
        Some(Arg::Symbol(name))
    }
}

/// The argument that begins with the first token. The only error is want of memory.
#[tactic(auto, unfolding(crate::specs::Arguments::argument_at))]
pub fn argument_at(
    alloc: Global,
    src: &[u8],
    tokens: &[Spanned],
) -> Result<Option<Arg<Name>>, AllocError>
    requires small { length src.now ≤ 2 ^ 26 }
    requires texts { All (IsTextOf src.now) tokens.now }
    ensures { IfOk result (λ read. read ≡ argument_at src.now tokens.now) }
{
    if tokens.is_empty() {
        return Ok(None);
    }
    let name = span(tokens[0]);
    match tokens[0].token {
        Token::Text => Ok(Some(Arg::Text(text_bytes(alloc, src, name)?))),
        Token::Based => Ok(based_argument(bytes_of(src, name))),
        Token::Word => Ok(word_argument(src, tokens, name)),
        Token::Punct(b'&') => Ok(place_argument(src, tokens)),
        _ => Ok(None),
    }
}
