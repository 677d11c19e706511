//! Operands, as the tokens of a statement spell them.

ghost use Rattle.std.specs.Prelude.{◌≡◌};
ghost use Rattle.std.specs.List.{slice_get};
ghost use Rattle.vvp_ops.specs.Operands.{symbol_as, number_as, operand_as, operand_at, comma_or_none, tokens_of, operands_of};

use crate::table::Kind;
use vvp_lex::{Name, Spanned, Token, span};

/// An operand.
#[derive(Clone, Copy)]
pub enum Operand {
    /// None.
    Absent,
    /// A symbol.
    Symbol(Name),
    /// A number.
    Number(u64),
    /// A number below 2^32.
    Half(u32),
}

impl Operand {
    ghost use Rattle.std.specs.Prelude.{◌≡◌};
    ghost use Rattle.vvp_ops.specs.Table.{symbol_in, number_in, half_in};

    /// The symbol, of an operand that is one.
    pub fn symbol(self) -> Name
        ensures { result ≡ symbol_in self }
    {
        match self {
            Operand::Symbol(name) => name,
            _ => Name { from: 0, to: 0 },
        }
    }

    /// The number, of an operand that is one.
    pub fn number(self) -> u64
        ensures { result ≡ number_in self }
    {
        match self {
            Operand::Number(number) => number,
            _ => 0,
        }
    }

    /// The number below 2^32, of an operand that is one.
    pub fn half(self) -> u32
        ensures { result ≡ half_in self }
    {
        match self {
            Operand::Half(number) => number,
            _ => 0,
        }
    }
}

/// A symbol, where the kind is one of symbols.
fn symbol(kind: Kind, name: Name) -> Option<Operand>
    ensures { result ≡ symbol_as kind name }
{
    match kind {
        Kind::Label | Kind::Variable | Kind::Array | Kind::Signal | Kind::Event | Kind::Scope => {
            Some(Operand::Symbol(name))
        }
        _ => None,
    }
}

/// A number, where it is one of the kind.
fn number(kind: Kind, number: u64) -> Option<Operand>
    ensures { result ≡ number_as kind number }
{
    match kind {
        Kind::Register | Kind::Flag | Kind::Width | Kind::Number => Some(Operand::Number(number)),
        Kind::Half if number < 1 << 32 => Some(Operand::Half(number as u32)),
        Kind::State if number < 4 => Some(Operand::Half(number as u32)),
        _ => None,
    }
}

/// A token as an operand.
fn read_operand(kind: Kind, spanned: Spanned) -> Option<Operand>
    ensures { result ≡ operand_as kind spanned }
{
    match spanned.token {
        Token::Word => symbol(kind, span(spanned)),
        Token::Number(value) => number(kind, value),
        _ => None,
    }
}

/// The operand at a place among the tokens.
#[tactic(auto, unfolding(crate::specs::Operands::operand_at))]
fn at(kind: Kind, tokens: &[Spanned], place: usize) -> Option<Operand>
    ensures { result ≡ operand_at kind tokens.now place }
{
    match kind {
        Kind::Absent => Some(Operand::Absent),
        _ => {
            if place < tokens.len() {
                read_operand(kind, tokens[place])
            } else {
                None
            }
        }
    }
}

/// Whether a place holds a comma, where there is one.
fn comma(tokens: &[Spanned], place: usize) -> bool
    ensures { result ≡ comma_or_none (slice_get tokens.now place) }
{
    if place < tokens.len() {
        match tokens[place].token {
            Token::Punct(byte) => byte == b',',
            _ => false,
        }
    } else {
        true
    }
}

/// How many tokens the operands and the commas between them take.
#[tactic(auto, unfolding(crate::specs::Operands::tokens_of))]
fn places(kinds: (Kind, Kind, Kind)) -> usize
    ensures { result ≡ tokens_of kinds }
{
    match kinds {
        (Kind::Absent, _, _) => 0,
        (_, Kind::Absent, _) => 1,
        (_, _, Kind::Absent) => 3,
        _ => 5,
    }
}

/// The operands that the tokens after a row's word spell.
#[tactic(auto, unfolding(crate::specs::Operands::operands_of))]
pub fn operands(
    kinds: (Kind, Kind, Kind),
    tokens: &[Spanned],
) -> Option<(Operand, Operand, Operand)>
    ensures { result ≡ operands_of kinds tokens.now }
{
    if tokens.len() != places(kinds) {
        return None;
    }
    if !comma(tokens, 1) {
        return None;
    }
    if !comma(tokens, 3) {
        return None;
    }
    let first = at(kinds.0, tokens, 0)?;
    let second = at(kinds.1, tokens, 2)?;
    let third = at(kinds.2, tokens, 4)?;
    Some((first, second, third))
}
