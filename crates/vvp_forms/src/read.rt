//! Structural statements.

ghost use Rattle.std.specs.Prelude.{◌≡◌, ◌≤◌, ◌^◌, All, Contains, IfOk, IfErr, length, Err};
ghost use Rattle.vvp_lex.specs.Statement.{statements_of, tokens_of};
ghost use Rattle.vvp_lex.specs.Place.{IsTextOf, span_of};
ghost use Rattle.vvp_forms.specs.Reading.{row_or, row_of, label_fits, form_at, after_label, form_spelled, Answers};
ghost use Rattle.vvp_forms.specs.Spells.{SpellsOnly, SpellsNone};

use crate::form::Form;
use crate::make::form_of;
use crate::pieces::read_pieces;
use crate::table::{Label, Row, label_of, pieces_of, row_for};
use crate::unsupported::unsupported;
use std::alloc::Global;
use vvp_lex::{
    FormFault, FormKind, Spanned, Stmt, Token, bytes_of, is_label, is_mark_at, span, tokens,
    tokens_after,
};

/// A row that was found for the word, or why there is none.
fn row_or(word: &[u8], row: Option<Row>) -> Result<Row, FormKind>
    ensures { result ≡ row_or word.now row }
{
    match row {
        Some(found) => Ok(found),
        None => {
            if unsupported(word) {
                Err(FormKind::UnsupportedStatement)
            } else {
                Err(FormKind::UnknownStatement)
            }
        }
    }
}

/// The row of a statement's word, or of its lone text.
fn row_of(src: &[u8], first: Spanned, tokens: &[Spanned]) -> Result<Row, FormKind>
    ensures { result ≡ row_of src.now first.token (span_of first) tokens.now }
{
    let name = span(first);
    match first.token {
        Token::Word => {
            let word = bytes_of(src, name);
            row_or(word, row_for(word, is_mark_at(tokens, 1, b',')))
        }
        Token::Text => Ok(Row::LoneText),
        _ => Err(FormKind::UnknownStatement),
    }
}

/// Whether a label stands where it has to.
fn label_fits(label: Label, labelled: bool) -> Result<(), FormKind>
    ensures { result ≡ label_fits label labelled }
{
    match (label, labelled) {
        (Label::Needed, false) => Err(FormKind::LabelMissing),
        (Label::Refused, true) => Err(FormKind::LabelNotAllowed),
        _ => Ok(()),
    }
}

/// A statement that is refused.
fn refused(line: u32, kind: FormKind) -> Result<Form, FormFault>
    ensures { Answers result line (Err kind) }
{
    Err(FormFault::Refused { line, kind })
}

/// A form, or its refusal with the line of the statement.
fn answer(line: u32, read: Result<Form, FormKind>) -> Result<Form, FormFault>
    ensures { Answers result line read }
{
    match read {
        Ok(form) => Ok(form),
        Err(kind) => refused(line, kind),
    }
}

/// What a first token and the tokens after it spell, after a label or without one.
#[tactic(auto, unfolding(crate::specs::Reading::form_at))]
fn form_at(
    alloc: Global,
    src: &[u8],
    line: u32,
    labelled: bool,
    first: Spanned,
    tokens: &[Spanned],
) -> Result<Form, FormFault>
    requires small { length src.now ≤ 2 ^ 26 }
    requires texts { All (IsTextOf src.now) tokens.now }
    ensures { Answers result line (form_at src.now labelled first tokens.now) }
{
    let row = match row_of(src, first, tokens) {
        Ok(row) => row,
        Err(kind) => return refused(line, kind),
    };
    if let Err(kind) = label_fits(label_of(row), labelled) {
        return refused(line, kind);
    }
    match read_pieces(alloc, src, pieces_of(row), tokens)? {
        Some(operands) => answer(line, form_of(alloc, src, row, operands)?),
        None => refused(line, FormKind::BadOperands),
    }
}

/// What stands after a label.
fn after_label(alloc: Global, src: &[u8], line: u32, tokens: &[Spanned]) -> Result<Form, FormFault>
    requires small { length src.now ≤ 2 ^ 26 }
    requires texts { All (IsTextOf src.now) tokens.now }
    ensures { Answers result line (after_label src.now tokens.now) }
{
    if tokens.is_empty() {
        return Ok(Form::CodeLabel);
    }
    form_at(alloc, src, line, true, tokens[0], tokens_after(tokens, 1))
}

/// What the tokens of a statement spell.
fn form_spelled(
    alloc: Global,
    src: &[u8],
    stmt: &Stmt,
    tokens: &[Spanned],
) -> Result<Form, FormFault>
    requires small { length src.now ≤ 2 ^ 26 }
    requires texts { All (IsTextOf src.now) tokens.now }
    ensures { Answers result stmt.now.line (form_spelled src.now stmt.now.column_one tokens.now) }
{
    if tokens.is_empty() {
        return refused(stmt.line, FormKind::UnknownStatement);
    }
    let rest = tokens_after(tokens, 1);
    if is_label(src, stmt.column_one, tokens[0]) {
        return after_label(alloc, src, stmt.line, rest);
    }
    form_at(alloc, src, stmt.line, false, tokens[0], rest)
}

/// Reads a structural statement that `statements` gave for the file. Its label, the first word of a statement that begins in
/// the first column with a letter, `_`, `$` or `\`, is tested and passed over.
///
/// Refused with the statement's line exactly where nothing is spelled, with the first of these kinds that applies:
/// `UnknownStatement`, where no statement begins so, also where the word is an opcode's; `UnsupportedStatement`, where it is
/// one that the engine does not have; `LabelMissing` and `LabelNotAllowed`; `BadOperands`, where the tokens after the word are
/// not the statement's operands or a number among them is out of its range; `VectorTooWide`, where a width is over 128 bits.
/// The only other error is want of memory.
pub fn read_form(alloc: Global, src: &[u8], stmt: &Stmt) -> Result<Form, FormFault>
    requires small { length src.now ≤ 2 ^ 26 }
    requires given { Contains (statements_of src.now) stmt.now }
    ensures answer { Answers result stmt.now.line (form_spelled src.now stmt.now.column_one (tokens_of src.now stmt.now)) }
    ensures spells { IfOk result (SpellsOnly src.now stmt.now.column_one (tokens_of src.now stmt.now)) }
    ensures refuses { IfErr result (SpellsNone src.now stmt.now.column_one (tokens_of src.now stmt.now)) }
{
    let found = tokens(alloc, src, stmt)?;
    form_spelled(alloc, src, stmt, &found)
}
