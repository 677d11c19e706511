//! Reading a call of a task or a function: the tokens after its word.

ghost use Rattle.std.specs.Prelude.{◌≡◌, ◌≤◌, ◌^◌, All, IfOk, length};
ghost use Rattle.std.specs.Option.{option_map};
ghost use Rattle.vvp_lex.specs.Place.{IsTextOf};
ghost use Rattle.vvp_ops.specs.Calls.{is_task, is_function, arguments_of, zero_at, pops_of, task_of, function_of};

use crate::args::Args;
use crate::arguments::argument_at;
use crate::op::Op;
use std::alloc::{AllocError, Global};
use vvp_lex::{Name, Spanned, mark_at, number_at, text_bytes_at, tokens_after};

/// Whether the word calls a task.
#[tactic(auto, unfolding(crate::specs::Calls::is_task))]
pub fn is_task(word: &[u8]) -> bool
    ensures { result ≡ is_task word.now }
{
    word == b"%vpi_call".as_slice()
        || word == b"%vpi_call/w".as_slice()
        || word == b"%vpi_call/i".as_slice()
}

/// Whether the word calls a function.
#[tactic(auto, unfolding(crate::specs::Calls::is_function))]
pub fn is_function(word: &[u8]) -> bool
    ensures { result ≡ is_function word.now }
{
    word == b"%vpi_func".as_slice()
}

/// The arguments at the front, each after its comma, and the tokens after them. The only error is want of memory.
fn arguments<'a>(
    alloc: Global,
    src: &[u8],
    tokens: &'a [Spanned],
) -> Result<Option<(Args<Name>, &'a [Spanned])>, AllocError>
    requires small { length src.now ≤ 2 ^ 26 }
    requires texts { All (IsTextOf src.now) tokens.now }
    ensures { IfOk result (λ read. option_map (λ found. (found.0, found.1.now)) read ≡ arguments_of src.now 0 tokens.now) }
{
    let mut args = Args::new(alloc);
    let mut rest = tokens;
    while mark_at(rest, 0, b',').is_some() {
        let after = tokens_after(rest, 1);
        let Some(arg) = argument_at(alloc, src, after)? else {
            return Ok(None);
        };
        rest = tokens_after(after, arg.tokens());
        args.push(arg)?;
    }
    Ok(Some((args, rest)))
}

/// Some where the number at a place is 0.
fn zero_at(tokens: &[Spanned], place: usize) -> Option<()>
    ensures { result ≡ zero_at tokens.now place }
{
    match number_at(tokens, place) {
        Some(0) => Some(()),
        _ => None,
    }
}

/// How many items a call pops: `{n 0 0}`, and nothing after it.
#[tactic(auto, unfolding(crate::specs::Calls::pops_of))]
fn pops_of(tokens: &[Spanned]) -> Option<u64>
    ensures { result ≡ pops_of tokens.now }
{
    mark_at(tokens, 0, b'{')?;
    let pops = number_at(tokens, 1)?;
    zero_at(tokens, 2)?;
    zero_at(tokens, 3)?;
    mark_at(tokens, 4, b'}')?;
    if tokens.len() == 5 { Some(pops) } else { None }
}

/// The task call that the tokens after its word spell. The only error is want of memory.
#[tactic(auto, unfolding(crate::specs::Calls::task_of))]
pub fn task_of(
    alloc: Global,
    src: &[u8],
    tokens: &[Spanned],
) -> Result<Option<Op<Name>>, AllocError>
    requires small { length src.now ≤ 2 ^ 26 }
    requires texts { All (IsTextOf src.now) tokens.now }
    ensures { IfOk result (λ read. read ≡ task_of src.now tokens.now) }
{
    let Some(file) = number_at(tokens, 0) else {
        return Ok(None);
    };
    let Some(line) = number_at(tokens, 1) else {
        return Ok(None);
    };
    let Some(name) = text_bytes_at(alloc, src, tokens, 2)? else {
        return Ok(None);
    };
    let Some((args, rest)) = arguments(alloc, src, tokens_after(tokens, 3))? else {
        return Ok(None);
    };
    let Some(pops) = pops_of(rest) else {
        return Ok(None);
    };
    Ok(Some(Op::CallTask {
        file,
        line,
        name,
        args,
        pops,
    }))
}

/// The function call that the tokens after its word spell. The only error is want of memory.
#[tactic(auto, unfolding(crate::specs::Calls::function_of))]
pub fn function_of(
    alloc: Global,
    src: &[u8],
    tokens: &[Spanned],
) -> Result<Option<Op<Name>>, AllocError>
    requires small { length src.now ≤ 2 ^ 26 }
    requires texts { All (IsTextOf src.now) tokens.now }
    ensures { IfOk result (λ read. read ≡ function_of src.now tokens.now) }
{
    let Some(file) = number_at(tokens, 0) else {
        return Ok(None);
    };
    let Some(line) = number_at(tokens, 1) else {
        return Ok(None);
    };
    let Some(name) = text_bytes_at(alloc, src, tokens, 2)? else {
        return Ok(None);
    };
    let Some(width) = number_at(tokens, 3) else {
        return Ok(None);
    };
    let Some((args, rest)) = arguments(alloc, src, tokens_after(tokens, 4))? else {
        return Ok(None);
    };
    let Some(pops) = pops_of(rest) else {
        return Ok(None);
    };
    Ok(Some(Op::CallFunction {
        file,
        line,
        name,
        width,
        args,
        pops,
    }))
}
