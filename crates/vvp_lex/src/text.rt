//! The bytes that a text stands for: its escapes are those of a string literal (IEEE 1364-2005, 3.6.3), but that
//! `\` and any other byte is that byte.

ghost use Rattle.std.specs.Prelude.{◌≡◌, ◌<◌, ◌≤◌, ◌^◌, ◌+◌, ◌++◌, ◌∷◌, [], true, OnOk, OnErr, IfOk, length, slice_index, drop};
ghost use Rattle.std.specs.List.{AllPass, prefix_len};
ghost use Rattle.vvp_lex.specs.Unescaped.{is_octal, octal_len, octal_byte, escaped_byte, escape, byte_at, unescaped, IsText, text_of};

use crate::lex::part_of;
use crate::types::Name;
use std::alloc::{AllocError, Global};
use std::marker::Model;

/// A list of bytes that owns its memory.
#[derive(Debug, Drop)]
pub struct Bytes {
    bytes: Vec<u8>,
}

impl Model for Bytes {
    ghost use Rattle.std.specs.Prelude.{ℕ, List};

    ghost Value = { List ℕ };

    ghost view = { λ b. b.bytes.items };
}

impl Bytes {
    /// No bytes. It takes no memory yet.
    pub fn new(alloc: Global) -> Bytes
        ensures { result ≡ [] }
    {
        Bytes {
            bytes: Vec::new(alloc),
        }
    }

    /// A list of these bytes. The only error is want of memory.
    pub fn from_slice(alloc: Global, bytes: &[u8]) -> Result<Bytes, AllocError>
        ensures { IfOk result (λ copied. copied ≡ bytes.now) }
    {
        let bytes = Vec::from_slice(alloc, bytes)?;
        Ok(Bytes { bytes })
    }

    /// One byte more, at the end. Without memory for it the list stays as it was.
    pub fn push(&mut self, b: u8) -> Result<(), AllocError>
        ensures ok { OnOk result (self.new ≡ self.old ++ b ∷ []) }
        ensures err { OnErr result (self.new ≡ self.old) }
    {
        self.bytes.push(b)?;
        Ok(())
    }

    /// The bytes, in order.
    pub fn as_slice(&self) -> &[u8]
        ensures { result.now ≡ self.now }
    {
        self.bytes.as_slice()
    }

    /// Another list of the same bytes. The only error is want of memory.
    pub fn copy(&self, alloc: Global) -> Result<Bytes, AllocError>
        ensures { IfOk result (λ bytes. bytes ≡ self.now) }
    {
        Bytes::from_slice(alloc, self.bytes.as_slice())
    }
}

/// Whether the byte is one of `0` to `7`.
fn is_octal(b: u8) -> bool
    ensures { result ≡ is_octal b }
{
    b'0' <= b && b <= b'7'
}

/// How many octal digits stand at the front.
fn octal_run(text: &[u8]) -> usize
    ensures value { result ≡ prefix_len is_octal text.now }
    ensures within { result ≤ length text.now }
{
    text.iter().take_while(|b| is_octal(**b)).count()
}

/// How many octal digits of an escape stand at the front.
fn octal_len(text: &[u8]) -> usize
    ensures value { result ≡ octal_len text.now }
    ensures within { result ≤ length text.now }
{
    octal_run(text).min(3)
}

/// The byte that one to three octal digits stand for.
fn octal_byte(digits: &[u8]) -> u8
    requires digits { AllPass is_octal digits.now }
    requires few { length digits.now ≤ 3 }
    ensures { result ≡ octal_byte digits.now }
{
    let mut value: u32 = 0;
    for digit in digits {
        value = value * 8 + u32::from(*digit - b'0');
    }
    (value % 256) as u8
}

/// What a `\` and this byte stand for, where it is no octal digit.
fn escaped_byte(b: u8) -> u8
    ensures { result ≡ escaped_byte b }
{
    match b {
        b'n' => b'\n',
        b't' => b'\t',
        _ => b,
    }
}

/// The byte that stands at the front, and how many bytes it takes after its first.
fn byte_at(text: &[u8]) -> (u8, usize)
    requires { 0 < length text.now }
    ensures { result ≡ byte_at (slice_index text.now 0) (drop 1 text.now) }
{
    let rest = &text[1..];
    if text[0] != b'\\' {
        return (text[0], 0);
    }
    let first = match rest.first() {
        Some(b) => *b,
        None => 0,
    };
    if is_octal(first) {
        let len = octal_len(rest);
        (octal_byte(&rest[..len]), len)
    } else {
        (escaped_byte(first), 1)
    }
}

/// The bytes that a text's inside stands for.
fn unescape(alloc: Global, text: &[u8]) -> Result<Bytes, AllocError>
    ensures { IfOk result (λ bytes. bytes ≡ unescaped 0 text.now) }
{
    let mut bytes = Bytes::new(alloc);
    let mut at = 0;
    while at < text.len() {
        let (byte, more) = byte_at(&text[at..]);
        bytes.push(byte)?;
        at += 1 + more;
    }
    Ok(bytes)
}

/// The bytes that a text of the file stands for: those between its quotes, with each escape read. The span is that of
/// a text token, quotes included. The only error is want of memory.
pub fn text_bytes(alloc: Global, src: &[u8], name: Name) -> Result<Bytes, AllocError>
    requires small { length src.now ≤ 2 ^ 26 }
    requires text { IsText src.now name }
    ensures { IfOk result (λ bytes. bytes ≡ text_of src.now name) }
{
    unescape(alloc, part_of(src, name.from + 1, name.to - 1))
}
