//! The statements of a file, and the tokens of a statement.

ghost use Rattle.std.specs.Prelude.{◌≡◌, ◌<◌, ◌≤◌, ◌^◌, false, None, Some, Contains, IfOk, IfErr, IfSome, unwrap_or, length, ◌==◌, if◌then◌else◌, count_by, slice_get, slice_range, ◌+◌};
ghost use Rattle.vvp_lex.specs.Text.{blanked, is_line_feed, InLine};
ghost use Rattle.vvp_lex.specs.Token.{text_len, tokens_from, faults_in};
ghost use Rattle.vvp_lex.specs.Statement.{body_len, open_len, comment_len, statements_of, is_column_one, tokens_of, lexical, IsFault};
ghost use Rattle.vvp_lex.specs.Longest.{AreLongest};

use crate::scan::{gap_len, line_len, text_len, token_at};
use crate::types::{LexFault, LexKind, Spanned, Stmt};
use memchr::memchr3;
use std::alloc::{AllocError, Global};

/// How many lines end in the text.
fn line_feeds(text: &[u8]) -> usize
    ensures value { result ≡ count_by is_line_feed text.now }
    ensures within { result ≤ length text.now }
{
    text.iter().filter(|b| **b == b'\n').count()
}

/// How many bytes of a comment stand at the start of a line.
fn comment_len(text: &[u8]) -> usize
    ensures value { result ≡ comment_len text.now }
    ensures within { result ≤ length text.now }
{
    match text.first() {
        Some(b'#') => line_len(text),
        _ => 0,
    }
}

/// How many bytes stand before the next `;` or the line's end.
fn open_len(text: &[u8]) -> usize
    ensures value { result ≡ open_len text.now }
    ensures within { result ≤ length text.now }
{
    text.iter()
        .take_while(|b| **b != b';' && **b != b'\n')
        .count()
}

/// How many bytes are passed over after a quote: those of the text that it opens. Where the line ends first, no
/// later quote of the line opens a text either, so that only a `;` counts. After a line feed: a comment.
fn passed_len(b: u8, after: &[u8]) -> usize
    ensures value { result ≡ (if b == 34 then unwrap_or (text_len false after.now) (open_len after.now) else comment_len after.now) }
    ensures within { result ≤ length after.now }
{
    if b != b'"' {
        return comment_len(after);
    }
    match text_len(after) {
        Some(len) => len,
        None => open_len(after),
    }
}

/// How many bytes of a statement stand before its `;`. The text begins within a line.
fn body_len(text: &[u8]) -> Option<usize>
    ensures value { result ≡ body_len 0 (blanked InLine text.now) }
    ensures within { IfSome result (λ len. len < length text.now) }
{
    let mut at = 0;
    while let Some(offset) = memchr3(b';', b'"', b'\n', &text[at..]) {
        let found = at + offset;
        let after = &text[found + 1..];
        if text[found] == b';' {
            return Some(found);
        }
        at = found + 1 + passed_len(text[found], after);
    }
    None
}

/// The first fault in the tokens of a text that begins within a line.
fn first_fault(text: &[u8]) -> Option<LexKind>
    ensures { result ≡ slice_get (faults_in (blanked InLine text.now)) 0 }
{
    let mut at = gap_len(text, false);
    while at < text.len() {
        let end = match token_at(&text[at..]) {
            Ok((_, more)) => at + 1 + more,
            Err(kind) => return Some(kind),
        };
        at = end + gap_len(&text[end..], false);
    }
    None
}

/// The bytes of a part of a file, from the place `from` to before `to`.
pub fn part_of(src: &[u8], from: u32, to: u32) -> &[u8]
    requires ordered { from ≤ to }
    requires within { to ≤ length src.now }
    ensures { result.now ≡ slice_range src.now from to }
{
    &src[from as usize..to as usize]
}

/// The tokens of a text that begins within a line, at the place `from` of a file.
fn tokens_from(alloc: Global, text: &[u8], from: u32) -> Result<Vec<Spanned>, AllocError>
    requires { from + length text.now ≤ 2 ^ 26 }
    ensures { IfOk result (λ found. found.items ≡ tokens_from from (blanked InLine text.now)) }
{
    let mut found = Vec::new(alloc);
    let mut at = gap_len(text, false);
    while at < text.len() {
        let Ok((token, more)) = token_at(&text[at..]) else {
            return Ok(found);
        };
        let place = from + at as u32;
        found.push(Spanned {
            token,
            from: place,
            to: place + 1 + more as u32,
        })?;
        let end = at + 1 + more;
        at = end + gap_len(&text[end..], false);
    }
    Ok(found)
}

/// The tokens of a statement that `statements` gave for the file, in order, each the longest that fits at its place. The
/// only error is want of memory.
pub fn tokens(alloc: Global, src: &[u8], stmt: &Stmt) -> Result<Vec<Spanned>, AllocError>
    requires small { length src.now ≤ 2 ^ 26 }
    requires given { Contains (statements_of src.now) stmt.now }
    ensures value { IfOk result (λ found. found.items ≡ tokens_of src.now stmt.now) }
    ensures longest { IfOk result (λ found. AreLongest src.now found.items) }
{
    tokens_from(alloc, part_of(src, stmt.from, stmt.to), stmt.from)
}

/// Whether a place is the first of its line.
fn is_column_one(src: &[u8], at: usize) -> bool
    requires { at ≤ length src.now }
    ensures { result ≡ is_column_one src.now at }
{
    at == 0 || src[at - 1] == b'\n'
}

/// The statements of a file of at most 2^26 bytes, in order. Refused exactly where the file has a lexical fault, at
/// the first one by place, with the line on which its statement begins; and where memory runs out.
///
/// A statement begins at the first byte that isn't white space and ends before the first `;` outside a string. What
/// follows the `;` on its line is a comment, and so is every line that begins with `#`.
pub fn statements(alloc: Global, src: &[u8]) -> Result<Vec<Stmt>, LexFault>
    requires { length src.now ≤ 2 ^ 26 }
    ensures ok { IfOk result (λ found. (lexical src.now ≡ None) × (found.items ≡ statements_of src.now)) }
    ensures refused { IfErr result (λ fault. IsFault fault (lexical src.now)) }
{
    let mut found = Vec::new(alloc);
    let mut at = gap_len(src, true);
    let mut line = 1 + line_feeds(&src[..at]);
    while at < src.len() {
        let rest = &src[at..];
        let Some(len) = body_len(rest) else {
            let kind = first_fault(rest).unwrap_or(LexKind::OpenStatement);
            return Err(LexFault::Refused {
                line: line as u32,
                kind,
            });
        };
        if let Some(kind) = first_fault(&rest[..len]) {
            return Err(LexFault::Refused {
                line: line as u32,
                kind,
            });
        }
        found.push(Stmt {
            from: at as u32,
            to: (at + len) as u32,
            line: line as u32,
            column_one: is_column_one(src, at),
        })?;
        let ended = len + 1 + line_len(&rest[len + 1..]);
        let next = ended + gap_len(&rest[ended..], false);
        line += line_feeds(&rest[..next]);
        at += next;
    }
    Ok(found)
}
