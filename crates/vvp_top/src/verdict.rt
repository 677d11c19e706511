//! The verdict on a source: its program, or why it has none.

ghost use Rattle.std.specs.Prelude.{◌≡◌, Ok, IfOk, IfErr};
ghost use Rattle.sym_link.specs.Sound.{IsProgram};
ghost use Rattle.sym_link.specs.Verdict.{verdict};
ghost use Rattle.vvp_top.specs.Refusals.{IsRefusal};

use crate::Outcome;
use crate::refusal::Why;
use std::alloc::Global;
use sym_link::{LinkFault, Program, link, read_statements};
use vvp_edge::MOST_SOURCE;
use vvp_lex::{FormFault, LexFault, statements};

// A refusal of the file at a line.
fn refused(line: u32, why: Why) -> Outcome
    ensures { result ≡ Outcome.Refused line why }
{
    Outcome::Refused { line, why }
}

/// The program that a source has. Else the first that applies: it is too large; its first lexical fault; its first statement that
/// is none of the grammar; its first that breaks a link rule, with the first rule that it breaks; or want of memory, at any point.
pub(crate) fn program_of(alloc: Global, source: &[u8]) -> Result<Program, Outcome>
    ensures program { IfOk result (λ program. verdict source.now ≡ Ok program) }
    ensures sound { IfOk result IsProgram }
    ensures refused { IfErr result (λ outcome. IsRefusal outcome (verdict source.now)) }
{
    if source.len() > MOST_SOURCE {
        return Err(refused(0, Why::TooLarge));
    }
    let parts = match statements(alloc, source) {
        Err(LexFault::Memory) => return Err(Outcome::Memory),
        Err(LexFault::Refused { line, kind }) => return Err(refused(line, Why::Lexical(kind))),
        Ok(parts) => parts,
    };
    let placed = match read_statements(alloc, source, &parts) {
        Err(FormFault::Memory) => return Err(Outcome::Memory),
        Err(FormFault::Refused { line, kind }) => return Err(refused(line, Why::Form(kind))),
        Ok(placed) => placed,
    };
    match link(alloc, source, placed) {
        Err(LinkFault::Memory) => Err(Outcome::Memory),
        Err(LinkFault::Refused { line, kind }) => Err(refused(line, Why::Link(kind))),
        Ok(program) => Ok(program),
    }
}
