//! What bytes and words are, and what they write.

ghost use Rattle.std.specs.Prelude.{◌≡◌, ◌≤◌, [], ◌∷◌, length, IfSome, IsTrue, pos, negsuc, ◌≤ℤ◌};
ghost use Rattle.std.specs.List.{AllPass, list_all, prefix_len};
ghost use Rattle.std.specs.Char.{is_ascii_digit};
ghost use Rattle.std.specs.Str.{bytes_eq};
ghost use Rattle.vvp_lex.specs.Text.{is_white};
ghost use Rattle.vvp_lex.specs.Token.{is_bit};
ghost use Rattle.vcd_read.specs.Words.{is_printable, is_end, is_number};
ghost use Rattle.vvp_lex.specs.Vector.{bit_of};
ghost use Rattle.vcd_read.specs.Parts.{number_power, unit_power, extended, is_section, is_remark, is_real};

use four_state::{Bit, Vec4};
use vvp_lex::vector_of;

/// Whether a byte may stand in a word.
pub fn is_printable(b: u8) -> bool
    ensures { result ≡ is_printable b }
{
    33 <= b && b <= 126
}

/// Space, tab, carriage return or line feed.
pub fn is_white(b: u8) -> bool
    ensures { result ≡ is_white b }
{
    b == b' ' || b == b'\t' || b == b'\r' || b == b'\n'
}

/// Whether the byte writes a bit.
pub fn is_bit(b: u8) -> bool
    ensures { result ≡ is_bit b }
{
    b"01xzXZ".contains(&b)
}

/// How many bytes of white space stand at the front.
pub fn white_len(text: &[u8]) -> usize
    ensures value { result ≡ prefix_len is_white text.now }
    ensures within { result ≤ length text.now }
{
    text.iter().take_while(|b| is_white(**b)).count()
}

/// How many bytes of a word stand at the front.
pub fn word_len(text: &[u8]) -> usize
    ensures value { result ≡ prefix_len is_printable text.now }
    ensures within { result ≤ length text.now }
{
    text.iter().take_while(|b| is_printable(**b)).count()
}

/// How many digits stand at the front.
pub fn digits_len(text: &[u8]) -> usize
    ensures value { result ≡ prefix_len is_ascii_digit text.now }
    ensures within { result ≤ length text.now }
{
    text.iter().take_while(|b| b.is_ascii_digit()).count()
}

/// Whether the word is this text.
pub fn is_text(word: &[u8], text: &[u8]) -> bool
    ensures { result ≡ bytes_eq word.now text.now }
{
    word == text
}

/// Whether the word is `$end`.
pub fn is_end(word: &[u8]) -> bool
    ensures { result ≡ is_end word.now }
{
    is_text(word, b"$end")
}

/// Whether the word opens a section of the body.
pub fn is_section(word: &[u8]) -> bool
    ensures { result ≡ is_section word.now }
{
    is_text(word, b"$dumpvars")
        || is_text(word, b"$dumpoff")
        || is_text(word, b"$dumpon")
        || is_text(word, b"$dumpall")
}

/// Whether the word begins a command of the header that holds any words.
pub fn is_remark(word: &[u8]) -> bool
    ensures { result ≡ is_remark word.now }
{
    is_text(word, b"$date") || is_text(word, b"$version") || is_text(word, b"$comment")
}

/// Whether the word is a kind of variable that a trace has no values of.
pub fn is_real(word: &[u8]) -> bool
    ensures { result ≡ is_real word.now }
{
    is_text(word, b"real") || is_text(word, b"realtime")
}

/// The power of ten that the number of a time scale is.
pub fn number_power(word: &[u8]) -> Option<u8>
    ensures value { result ≡ number_power word.now }
    ensures small { IfSome result (λ power. power ≤ 2) }
{
    if is_text(word, b"1") {
        Some(0)
    } else if is_text(word, b"10") {
        Some(1)
    } else if is_text(word, b"100") {
        Some(2)
    } else {
        None
    }
}

/// The power of ten seconds that a unit of time is.
pub fn unit_power(word: &[u8]) -> Option<i8>
    ensures value { result ≡ unit_power word.now }
    ensures small { IfSome result (λ power. (negsuc 14 ≤ℤ power) × (power ≤ℤ pos 0)) }
{
    if is_text(word, b"s") {
        Some(0)
    } else if is_text(word, b"ms") {
        Some(-3)
    } else if is_text(word, b"us") {
        Some(-6)
    } else if is_text(word, b"ns") {
        Some(-9)
    } else if is_text(word, b"ps") {
        Some(-12)
    } else if is_text(word, b"fs") {
        Some(-15)
    } else {
        None
    }
}

/// Whether all bytes are digits.
fn are_digits(word: &[u8]) -> bool
    ensures value { result ≡ list_all is_ascii_digit word.now }
    ensures digits { IsTrue result → AllPass is_ascii_digit word.now }
{
    word.iter().all(|b| b.is_ascii_digit())
}

/// Whether all bytes write bits.
pub fn are_bits(word: &[u8]) -> bool
    ensures { result ≡ list_all is_bit word.now }
{
    word.iter().all(|b| is_bit(*b))
}

/// Whether the word is one or more decimal digits.
pub fn is_number(word: &[u8]) -> bool
    ensures value { result ≡ is_number word.now }
    ensures digits { IsTrue result → AllPass is_ascii_digit word.now }
{
    !word.is_empty() && are_digits(word)
}

/// The value of one place that a byte writes.
#[tactic(auto, unfolding(vvp_lex::specs::Vector::vector_of))]
pub fn value_of(byte: u8) -> Vec4
    ensures { result ≡ bit_of byte ∷ [] }
{
    match vector_of(&[byte]) {
        Some(value) => value,
        None => unreachable!(),
    }
}

/// A value extended to a width.
#[tactic(auto, unfolding(crate::specs::Parts::extended))]
pub fn extended(bits: Vec4, width: u8) -> Vec4
    requires fits { length bits ≤ width }
    requires most { width ≤ 128 }
    ensures { result ≡ extended bits width }
{
    match bits.bit(bits.width() - 1) {
        Bit::One => bits.resize_u(width),
        _ => bits.resize_s(width),
    }
}
