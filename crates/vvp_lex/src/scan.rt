//! Reading a text from its front.

ghost use Rattle.std.specs.Prelude.{◌≡◌, ◌<◌, ◌≤◌, false, true, not, length, slice_index, drop, ◌+◌, ◌^◌, SomeIff, IfSome, IfOk};
ghost use Rattle.std.specs.List.{AllPass, prefix_len};
ghost use Rattle.std.specs.Str.Parse.{digits_value};
ghost use Rattle.std.specs.Char.{is_ascii_digit};
ghost use Rattle.vvp_lex.specs.Text.{is_white, is_line_feed, blanked, line_state};
ghost use Rattle.vvp_lex.specs.Token.{text_len, is_constant, constant, mark_after, based_after, number, token_at, is_word_part, is_bit};

use crate::bytes::{is_bit, is_punct, is_white, is_word_first, is_word_part};
use crate::types::{LexKind, Token};
use memchr::{memchr, memchr3};

/// The widest vector, in bits.
pub const MOST_BITS: usize = 128;

/// How many bytes stand before the line's end.
pub fn line_len(rest: &[u8]) -> usize
    ensures value { result ≡ prefix_len (λ b. not (is_line_feed b)) rest.now }
    ensures within { result ≤ length rest.now }
{
    match memchr(b'\n', rest) {
        Some(end) => end,
        None => rest.len(),
    }
}

/// How much white space stands at the front, comment lines included.
pub fn gap_len(rest: &[u8], starts_line: bool) -> usize
    ensures value { result ≡ prefix_len is_white (blanked (line_state starts_line) rest.now) }
    ensures within { result ≤ length rest.now }
{
    let mut at = 0;
    let mut line_start = starts_line;
    while at < rest.len() {
        let b = rest[at];
        if line_start && b == b'#' {
            at += line_len(&rest[at..]);
            line_start = false;
        } else if is_white(b) {
            at += 1;
            line_start = b == b'\n';
        } else {
            return at;
        }
    }
    at
}

/// How many bytes a text has after its opening quote, the closing one among them.
pub fn text_len(rest: &[u8]) -> Option<usize>
    ensures value { result ≡ text_len false rest.now }
    ensures within { IfSome result (λ len. len ≤ length rest.now) }
{
    let mut at = 0;
    while let Some(offset) = memchr3(b'"', b'\\', b'\n', &rest[at..]) {
        let found = at + offset;
        if rest[found] == b'"' {
            return Some(found + 1);
        }
        if rest[found] == b'\n' || found + 1 == rest.len() || rest[found + 1] == b'\n' {
            return None;
        }
        at = found + 2;
    }
    None
}

/// How many bytes of a word stand at the front.
fn word_part_len(rest: &[u8]) -> usize
    ensures value { result ≡ prefix_len is_word_part rest.now }
    ensures within { result ≤ length rest.now }
{
    rest.iter().take_while(|b| is_word_part(**b)).count()
}

/// How many digits stand at the front.
fn digits_len(rest: &[u8]) -> usize
    ensures value { result ≡ prefix_len is_ascii_digit rest.now }
    ensures within { result ≤ length rest.now }
{
    rest.iter().take_while(|b| b.is_ascii_digit()).count()
}

/// The byte at a place, 0 past the end.
fn byte_at(rest: &[u8], at: usize) -> u8
    ensures value { result ≡ slice_index rest.now at }
    ensures within { 0 < result → at < length rest.now }
{
    match rest.get(at) {
        Some(b) => *b,
        None => 0,
    }
}

/// The number that decimal digits write, where it is below 2 ^ 64. Of no digit it is 0.
pub fn number_value(digits: &[u8]) -> Option<u64>
    requires { AllPass is_ascii_digit digits.now }
    ensures { SomeIff result (digits_value 10 digits.now < 2 ^ 64) (digits_value 10 digits.now) }
{
    let mut value: u64 = 0;
    for digit in digits {
        let tens = value.checked_mul(10)?;
        value = tens.checked_add(u64::from(*digit - b'0'))?;
    }
    Some(value)
}

/// How many bits stand at the front.
fn bits_len(rest: &[u8]) -> usize
    ensures value { result ≡ prefix_len is_bit rest.now }
    ensures within { result ≤ length rest.now }
{
    rest.iter().take_while(|b| is_bit(**b)).count()
}

/// How many bits stand from a place on.
fn bits_from(rest: &[u8], at: usize) -> usize
    ensures value { result ≡ prefix_len is_bit (drop at rest.now) }
    ensures within { at ≤ length rest.now → at + result ≤ length rest.now }
    ensures short { result ≤ length rest.now }
{
    if at < rest.len() {
        bits_len(&rest[at..])
    } else {
        0
    }
}

/// Whether a `Const` begins with the byte `b`, and the rest follows.
fn is_constant(b: u8, rest: &[u8]) -> bool
    ensures { result ≡ is_constant b rest.now }
{
    (b == b'C' || b == b'c') && byte_at(rest, 0) == b'4' && byte_at(rest, 1) == b'<'
}

/// The vector after its `C`: `4<` stands at the front.
fn constant_at(rest: &[u8]) -> Result<(Token, usize), LexKind>
    ensures value { result ≡ constant rest.now (prefix_len is_bit (drop 2 rest.now)) }
    ensures within { IfOk result (λ read. read.1 ≤ length rest.now) }
{
    let bits = bits_from(rest, 2);
    if byte_at(rest, 2 + bits) != b'>' {
        return Err(LexKind::BadCharacter);
    }
    if MOST_BITS < bits {
        return Err(LexKind::VectorTooWide);
    }
    Ok((Token::Const, 3 + bits))
}

/// Where the `b` of a vector stands, after its quote.
fn mark_after(rest: &[u8], quote: usize) -> usize
    requires { quote < length rest.now }
    ensures value { result ≡ mark_after rest.now quote }
    ensures within { result ≤ length rest.now }
{
    if byte_at(rest, quote + 1) == b's' {
        quote + 2
    } else {
        quote + 1
    }
}

/// The vector whose size is written by the digits, and whose quote stands at a place.
fn based_at(digits: &[u8], rest: &[u8], quote: usize) -> Result<(Token, usize), LexKind>
    requires digits { AllPass is_ascii_digit digits.now }
    requires inside { quote < length rest.now }
    ensures value { result ≡ based_after digits.now rest.now (mark_after rest.now quote) }
    ensures within { IfOk result (λ read. read.1 ≤ length rest.now) }
{
    let mark = mark_after(rest, quote);
    let bits = bits_from(rest, mark + 1);
    if byte_at(rest, mark) != b'b' || bits == 0 {
        return Err(LexKind::BadCharacter);
    }
    let Some(_) = number_value(digits) else {
        return Err(LexKind::NumberTooLarge);
    };
    if MOST_BITS < bits {
        return Err(LexKind::VectorTooWide);
    }
    Ok((Token::Based, mark + 1 + bits))
}

/// The number at the front, which begins with a digit.
fn number_at(text: &[u8]) -> Result<(Token, usize), LexKind>
    requires some { 0 < length text.now }
    requires digit { is_ascii_digit (slice_index text.now 0) ≡ true }
    ensures value { result ≡ number (slice_index text.now 0) (drop 1 text.now) (prefix_len is_ascii_digit (drop 1 text.now)) }
    ensures within { IfOk result (λ read. read.1 < length text.now) }
{
    let rest = &text[1..];
    let more = digits_len(rest);
    let next = byte_at(rest, more);
    if next == b'\'' {
        return based_at(&text[..more + 1], rest, more);
    }
    if is_word_part(next) {
        return Err(LexKind::BadCharacter);
    }
    match number_value(&text[..more + 1]) {
        Some(value) => Ok((Token::Number(value), more)),
        None => Err(LexKind::NumberTooLarge),
    }
}

/// The longest token at the front, and how many bytes it has after its first.
pub fn token_at(text: &[u8]) -> Result<(Token, usize), LexKind>
    requires { 0 < length text.now }
    ensures value { result ≡ token_at text.now }
    ensures within { IfOk result (λ read. read.1 < length text.now) }
{
    let b = text[0];
    let rest = &text[1..];
    if b.is_ascii_digit() {
        number_at(text)
    } else if b == b'"' {
        match text_len(rest) {
            Some(more) => Ok((Token::Text, more)),
            None => Err(LexKind::OpenString),
        }
    } else if is_constant(b, rest) {
        constant_at(rest)
    } else if is_word_first(b) {
        Ok((Token::Word, word_part_len(rest)))
    } else if is_punct(b) {
        Ok((Token::Punct(b), 0))
    } else {
        Err(LexKind::BadCharacter)
    }
}
