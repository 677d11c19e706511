//! Opcode statements.

ghost use Rattle.std.specs.Prelude.{◌≡◌, ◌↔◌, ◌≤◌, ◌^◌, Contains, IfOk, IfErr, IsTrue, length, slice_get};
ghost use Rattle.vvp_lex.specs.Statement.{statements_of, tokens_of};
ghost use Rattle.vvp_ops.specs.Grammar.{read_tokens};
ghost use Rattle.vvp_ops.specs.Statement.{has_label, after_label, is_opcode, body_of, IsOpcode, Answers};
ghost use Rattle.vvp_ops.specs.Spells.{SpellsOnly, SpellsNone};

use crate::op::Op;
use crate::read::read_tokens;
use std::alloc::Global;
use vvp_lex::{FormFault, Name, Spanned, Stmt, byte_at, is_label, is_word, tokens, tokens_after};

/// Whether the first token is the statement's label.
fn has_label(src: &[u8], column_one: bool, tokens: &[Spanned]) -> bool
    ensures { result ≡ has_label src.now column_one (slice_get tokens.now 0) }
{
    if tokens.is_empty() {
        return false;
    }
    is_label(src, column_one, tokens[0])
}

/// The tokens of a statement after its label.
fn after_label<'a>(src: &[u8], column_one: bool, tokens: &'a [Spanned]) -> &'a [Spanned]
    ensures { result.now ≡ after_label src.now column_one tokens.now }
{
    if has_label(src, column_one, tokens) {
        tokens_after(tokens, 1)
    } else {
        tokens
    }
}

/// Whether the first token is a word that begins with `%`.
fn begins_opcode(src: &[u8], tokens: &[Spanned]) -> bool
    ensures { result ≡ is_opcode src.now (slice_get tokens.now 0) }
{
    if tokens.is_empty() {
        return false;
    }
    is_word(tokens[0].token) && byte_at(src, tokens[0].from as usize) == b'%'
}

/// Whether a statement is an opcode: its first token after the label is a word that begins with `%`. The tokens are those
/// that `tokens` gives for it.
#[tactic(auto, unfolding(crate::specs::Statement::body_of))]
pub fn is_opcode(src: &[u8], stmt: &Stmt, tokens: &[Spanned]) -> bool
    requires { tokens.now ≡ tokens_of src.now stmt.now }
    ensures { IsTrue result ↔ IsOpcode src.now stmt.now }
{
    begins_opcode(src, after_label(src, stmt.column_one, tokens))
}

/// Reads an opcode statement that `statements` gave for the file. The label is passed over: the first word of a statement
/// that begins in the first column with a letter, `_`, `$` or `\`. The first word after it begins with `%`.
///
/// Refused with the statement's line exactly where nothing is spelled, with the first of these kinds that applies:
/// `UnknownOpcode`, where no opcode has the word; `UnsupportedOpcode`, where it is one that the engine does not have;
/// `BadOperands`, where the tokens after the word are not the opcode's operands. The only other error is want of memory.
pub fn read_op(alloc: Global, src: &[u8], stmt: &Stmt) -> Result<Op<Name>, FormFault>
    requires small { length src.now ≤ 2 ^ 26 }
    requires given { Contains (statements_of src.now) stmt.now }
    requires opcode { IsOpcode src.now stmt.now }
    ensures answer { Answers result stmt.now.line (read_tokens src.now (body_of src.now stmt.now)) }
    ensures spells { IfOk result (SpellsOnly src.now (body_of src.now stmt.now)) }
    ensures refuses { IfErr result (SpellsNone src.now (body_of src.now stmt.now)) }
{
    let found = tokens(alloc, src, stmt)?;
    let body = after_label(src, stmt.column_one, &found);
    read_tokens(alloc, src, stmt.line, body)
}
