//! Reading a row's operands, piece by piece.

ghost use Rattle.std.specs.Prelude.{◌≡◌, ◌≤◌, ◌^◌, [], All, IfOk, length, slice_set};
ghost use Rattle.std.specs.Option.{option_map};
ghost use Rattle.vvp_forms.specs.declared.table.Piece.TheVariants as piece;
ghost use Rattle.vvp_lex.specs.Place.{IsTextOf};
ghost use Rattle.vvp_forms.specs.Operands.{no_operands, symbols_of, drives_at, piece_at, ends_before, pieces_at};

use crate::form::{Names, Port, Ports};
use crate::numbers::{integer_at, power_at};
use crate::ports::port_at;
use crate::table::Piece;
use std::alloc::{AllocError, Global};
use vvp_lex::{Bytes, Name, Spanned, is_mark_at, number_at, text_bytes_at, tokens_after, word_at};

/// The values of a row's operands, each in the slot that its piece names.
#[derive(Drop)]
pub struct Operands {
    /// Whether a star stands before the text.
    pub starred: bool,
    /// What the text stands for.
    pub text: Bytes,
    /// What the second text stands for.
    pub second_text: Bytes,
    /// A word that says a kind.
    pub kind: Option<Name>,
    /// A symbol.
    pub symbol: Option<Name>,
    /// A list of symbols.
    pub symbols: Names,
    /// The numbers without a sign.
    pub numbers: [u64; 5],
    /// The numbers with a sign.
    pub integers: [i32; 4],
    /// The drive strengths for 0 and 1.
    pub drives: (u64, u64),
    /// The ports.
    pub ports: Ports,
    /// The place of the last port that is written.
    pub last_port: usize,
}

/// The slots before anything is read. The only error is want of memory.
#[tactic(auto, unfolding(crate::specs::Operands::no_operands))]
fn no_operands(alloc: Global) -> Result<Operands, AllocError>
    ensures { IfOk result (λ operands. operands ≡ no_operands) }
{
    let ports = Ports::new(
        alloc,
        [Port::Unused, Port::Unused, Port::Unused, Port::Unused],
    )?;
    Ok(Operands {
        starred: false,
        text: Bytes::new(alloc),
        second_text: Bytes::new(alloc),
        kind: None,
        symbol: None,
        symbols: Names::new(alloc),
        numbers: [0, 0, 0, 0, 0],
        integers: [0, 0, 0, 0],
        drives: (6, 6),
        ports,
        last_port: 0,
    })
}

/// The numbers with one of them replaced, if there is such a slot.
fn with_number(numbers: [u64; 5], slot: usize, value: u64) -> [u64; 5]
    ensures { result ≡ slice_set numbers slot value }
{
    let mut changed = numbers;
    if slot < changed.len() {
        changed[slot] = value;
    }
    changed
}

/// The integers with one of them replaced, if there is such a slot.
fn with_integer(integers: [i32; 4], slot: usize, value: i32) -> [i32; 4]
    ensures { result ≡ slice_set integers slot value }
{
    let mut changed = integers;
    if slot < changed.len() {
        changed[slot] = value;
    }
    changed
}

/// Symbols with commas between them, to the end. The only error is want of memory.
#[tactic(auto, unfolding(crate::specs::Operands::symbols_of))]
fn symbols_of(alloc: Global, tokens: &[Spanned]) -> Result<Option<Names>, AllocError>
    ensures { IfOk result (λ read. read ≡ symbols_of tokens.now) }
{
    let mut names = Names::new(alloc);
    let Some(first) = word_at(tokens, 0) else {
        return Ok(None);
    };
    names.push(first)?;
    let mut rest = tokens_after(tokens, 1);
    while !rest.is_empty() {
        if !is_mark_at(rest, 0, b',') {
            return Ok(None);
        }
        let Some(name) = word_at(rest, 1) else {
            return Ok(None);
        };
        names.push(name)?;
        rest = tokens_after(rest, 2);
    }
    Ok(Some(names))
}

/// The two numbers in brackets.
#[tactic(auto, unfolding(crate::specs::Operands::drives_at))]
fn drives_at(tokens: &[Spanned]) -> Option<(u64, u64)>
    ensures { result ≡ drives_at tokens.now }
{
    let low = number_at(tokens, 1)?;
    let high = number_at(tokens, 2)?;
    if is_mark_at(tokens, 3, b']') {
        Some((low, high))
    } else {
        None
    }
}

/// A text into its slot, and how many tokens it has. The only error is want of memory.
#[tactic(auto, unfolding(crate::specs::Operands::piece_at))]
fn put_text(
    alloc: Global,
    src: &[u8],
    operands: &mut Operands,
    tokens: &[Spanned],
) -> Result<Option<usize>, AllocError>
    requires small { length src.now ≤ 2 ^ 26 }
    requires texts { All (IsTextOf src.now) tokens.now }
    ensures { IfOk result (λ read. option_map (λ used. (operands.new, used)) read ≡ piece_at src.now piece.Text operands.old tokens.now) }
{
    let Some(bytes) = text_bytes_at(alloc, src, tokens, 0)? else {
        return Ok(None);
    };
    operands.text = bytes;
    Ok(Some(1))
}

/// A second text into its slot.
#[tactic(auto, unfolding(crate::specs::Operands::piece_at))]
fn put_second_text(
    alloc: Global,
    src: &[u8],
    operands: &mut Operands,
    tokens: &[Spanned],
) -> Result<Option<usize>, AllocError>
    requires small { length src.now ≤ 2 ^ 26 }
    requires texts { All (IsTextOf src.now) tokens.now }
    ensures { IfOk result (λ read. option_map (λ used. (operands.new, used)) read ≡ piece_at src.now piece.SecondText operands.old tokens.now) }
{
    let Some(bytes) = text_bytes_at(alloc, src, tokens, 0)? else {
        return Ok(None);
    };
    operands.second_text = bytes;
    Ok(Some(1))
}

/// A text that may be starred into its slot.
#[tactic(auto, unfolding(crate::specs::Operands::piece_at))]
fn put_starred(
    alloc: Global,
    src: &[u8],
    operands: &mut Operands,
    tokens: &[Spanned],
) -> Result<Option<usize>, AllocError>
    requires small { length src.now ≤ 2 ^ 26 }
    requires texts { All (IsTextOf src.now) tokens.now }
    ensures { IfOk result (λ read. option_map (λ used. (operands.new, used)) read ≡ piece_at src.now piece.Starred operands.old tokens.now) }
{
    if !is_mark_at(tokens, 0, b'*') {
        return put_text(alloc, src, operands, tokens);
    }
    let Some(bytes) = text_bytes_at(alloc, src, tokens, 1)? else {
        return Ok(None);
    };
    operands.starred = true;
    operands.text = bytes;
    Ok(Some(2))
}

/// Symbols into their slot.
#[tactic(auto, unfolding(crate::specs::Operands::piece_at))]
fn put_symbols(
    alloc: Global,
    operands: &mut Operands,
    tokens: &[Spanned],
) -> Result<Option<usize>, AllocError>
    ensures { IfOk result (λ read. option_map (λ used. (operands.new, used)) read ≡ piece_at [] piece.Symbols operands.old tokens.now) }
{
    let Some(names) = symbols_of(alloc, tokens)? else {
        return Ok(None);
    };
    operands.symbols = names;
    Ok(Some(tokens.len()))
}

/// A word that says a kind into its slot.
#[tactic(auto, unfolding(crate::specs::Operands::piece_at))]
fn put_kind(operands: &mut Operands, tokens: &[Spanned]) -> Option<usize>
    ensures { option_map (λ used. (operands.new, used)) result ≡ piece_at [] piece.Kind operands.old tokens.now }
{
    operands.kind = Some(word_at(tokens, 0)?);
    Some(1)
}

/// A symbol into its slot.
#[tactic(auto, unfolding(crate::specs::Operands::piece_at))]
fn put_symbol(operands: &mut Operands, tokens: &[Spanned]) -> Option<usize>
    ensures { option_map (λ used. (operands.new, used)) result ≡ piece_at [] piece.Symbol operands.old tokens.now }
{
    operands.symbol = Some(word_at(tokens, 0)?);
    Some(1)
}

/// A number into its slot.
#[tactic(auto, unfolding(crate::specs::Operands::piece_at))]
fn put_number(operands: &mut Operands, slot: usize, tokens: &[Spanned]) -> Option<usize>
    ensures { option_map (λ used. (operands.new, used)) result ≡ piece_at [] (piece.Number slot) operands.old tokens.now }
{
    let value = number_at(tokens, 0)?;
    operands.numbers = with_number(operands.numbers, slot, value);
    Some(1)
}

/// An integer into its slot.
#[tactic(auto, unfolding(crate::specs::Operands::piece_at))]
fn put_integer(operands: &mut Operands, slot: usize, tokens: &[Spanned]) -> Option<usize>
    ensures { option_map (λ used. (operands.new, used)) result ≡ piece_at [] (piece.Integer slot) operands.old tokens.now }
{
    let (value, used) = integer_at(tokens)?;
    operands.integers = with_integer(operands.integers, slot, value);
    Some(used)
}

/// A power into the first integer's slot.
#[tactic(auto, unfolding(crate::specs::Operands::piece_at))]
fn put_power(operands: &mut Operands, tokens: &[Spanned]) -> Option<usize>
    ensures { option_map (λ used. (operands.new, used)) result ≡ piece_at [] piece.Power operands.old tokens.now }
{
    let (value, used) = power_at(tokens)?;
    operands.integers = with_integer(operands.integers, 0, value);
    Some(used)
}

/// Drive strengths, if there are any, into their slot.
#[tactic(auto, unfolding(crate::specs::Operands::piece_at))]
fn put_drives(operands: &mut Operands, tokens: &[Spanned]) -> Option<usize>
    ensures { option_map (λ used. (operands.new, used)) result ≡ piece_at [] piece.Drives operands.old tokens.now }
{
    if !is_mark_at(tokens, 0, b'[') {
        return Some(0);
    }
    operands.drives = drives_at(tokens)?;
    Some(4)
}

/// A port into its slot.
#[tactic(auto, unfolding(crate::specs::Operands::piece_at))]
fn put_port(src: &[u8], operands: &mut Operands, slot: usize, tokens: &[Spanned]) -> Option<usize>
    ensures { option_map (λ used. (operands.new, used)) result ≡ piece_at src.now (piece.Port slot) operands.old tokens.now }
{
    let port = port_at(src, tokens, 0)?;
    operands.ports.set(slot, port);
    operands.last_port = slot;
    Some(1)
}

/// Passes over a byte.
#[tactic(auto, unfolding(crate::specs::Operands::piece_at))]
fn pass_mark(operands: &Operands, byte: u8, tokens: &[Spanned]) -> Option<usize>
    ensures { option_map (λ used. (operands.now, used)) result ≡ piece_at [] (piece.Mark byte) operands.now tokens.now }
{
    if is_mark_at(tokens, 0, byte) {
        Some(1)
    } else {
        None
    }
}

/// Reads a piece at the front of the tokens into its slot, and says how many tokens it has; none where it isn't there. The
/// only error is want of memory.
#[tactic(auto, unfolding(crate::specs::Operands::piece_at))]
fn read_piece(
    alloc: Global,
    src: &[u8],
    piece: Piece,
    operands: &mut Operands,
    tokens: &[Spanned],
) -> Result<Option<usize>, AllocError>
    requires small { length src.now ≤ 2 ^ 26 }
    requires texts { All (IsTextOf src.now) tokens.now }
    ensures { IfOk result (λ read. option_map (λ used. (operands.new, used)) read ≡ piece_at src.now piece operands.old tokens.now) }
{
    match piece {
        Piece::Text => put_text(alloc, src, operands, tokens),
        Piece::SecondText => put_second_text(alloc, src, operands, tokens),
        Piece::Starred => put_starred(alloc, src, operands, tokens),
        Piece::Symbols => put_symbols(alloc, operands, tokens),
        Piece::Kind => Ok(put_kind(operands, tokens)),
        Piece::Symbol => Ok(put_symbol(operands, tokens)),
        Piece::Number(slot) => Ok(put_number(operands, slot, tokens)),
        Piece::Integer(slot) => Ok(put_integer(operands, slot, tokens)),
        Piece::Power => Ok(put_power(operands, tokens)),
        Piece::Mark(byte) => Ok(pass_mark(operands, byte, tokens)),
        Piece::Drives => Ok(put_drives(operands, tokens)),
        Piece::Port(slot) => Ok(put_port(src, operands, slot, tokens)),
        Piece::MayEnd => Ok(Some(0)),
        Piece::Anything => Ok(Some(tokens.len())),
    }
}

/// Whether the operands end before a piece.
fn ends_before(piece: Piece, tokens: &[Spanned]) -> bool
    ensures { result ≡ ends_before piece tokens.now }
{
    match piece {
        Piece::MayEnd => tokens.is_empty(),
        _ => false,
    }
}

/// Reads the pieces one after another, and nothing after them; none where one isn't there. The only error is want of memory.
pub fn read_pieces(
    alloc: Global,
    src: &[u8],
    pieces: &[Piece],
    tokens: &[Spanned],
) -> Result<Option<Operands>, AllocError>
    requires small { length src.now ≤ 2 ^ 26 }
    requires texts { All (IsTextOf src.now) tokens.now }
    ensures { IfOk result (λ read. read ≡ pieces_at src.now pieces.now no_operands tokens.now) }
{
    let mut operands = no_operands(alloc)?;
    let mut left = pieces;
    let mut rest = tokens;
    while let [piece, more @ ..] = left {
        if ends_before(*piece, rest) {
            return Ok(Some(operands));
        }
        let Some(used) = read_piece(alloc, src, *piece, &mut operands, rest)? else {
            return Ok(None);
        };
        rest = tokens_after(rest, used);
        left = more;
    }
    if rest.is_empty() {
        Ok(Some(operands))
    } else {
        Ok(None)
    }
}
