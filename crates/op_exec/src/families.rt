//! One opcode, by the family of its row.

ghost use Rattle.std.specs.Prelude.{◌≡◌, IfOk, OnErr, IfSome, IfNone};
ghost use Rattle.op_exec.specs.Executable.{IsExecutable};
ghost use Rattle.op_exec.specs.Does.{family_of, does};
ghost use Rattle.op_exec.specs.Outcomes.{IsDone};

use crate::arithmetic_rows::arithmetic_row;
use crate::comparison_rows::comparison_row;
use crate::effect::{Effect, Local, Memory, effect_of};
use crate::effect_rows::{effect_row, local_row};
use crate::register_rows::register_row;
use crate::stack_rows::stack_row;
use four_state::Values;
use std::alloc::AllocError;
use vvp_ops::Op;
use vvp_threads::Frame;

/// The families of rows.
#[derive(Clone, Copy)]
pub(crate) enum Family {
    /// The stack, its pads and its parts.
    Stack,
    /// Registers and flags.
    Register,
    /// Arithmetic and logic.
    Arithmetic,
    /// Comparisons.
    Comparison,
    /// Loads, stores, jumps, and what is asked of the run.
    Effect,
}

/// The family of an opcode's row.
#[inline(always)]
#[rattlefmt::skip]
#[tactic(auto, unfolding(crate::specs::Does::family_of))]
fn family_for(op: &Op<u32>) -> Family
    ensures { result ≡ family_of op.now }
{
    match op {
        Op::PushImmediate { .. } | Op::Concatenate | Op::ConcatenateImmediate { .. } | Op::Replicate { .. }
        | Op::PartUnsigned { .. } | Op::PartSigned { .. } | Op::PartImmediateUnsigned { .. }
        | Op::PartImmediateSigned { .. } | Op::PadUnsigned { .. } | Op::PadSigned { .. } | Op::Duplicate
        | Op::Pop { .. } | Op::Split { .. } => Family::Stack,
        Op::IndexLoad { .. } | Op::IndexGet { .. } | Op::IndexGetSigned { .. } | Op::IndexPop { .. }
        | Op::IndexPopSigned { .. } | Op::IndexAdd { .. } | Op::IndexSubtract { .. }
        | Op::IndexMultiply { .. } | Op::IndexMove { .. } | Op::FlagPop { .. } | Op::FlagImmediate { .. }
        | Op::FlagPush { .. } | Op::FlagMove { .. } | Op::FlagInvert { .. } | Op::FlagOr { .. } => Family::Register,
        Op::Add | Op::Subtract | Op::Multiply | Op::Divide | Op::DivideSigned | Op::Modulo | Op::ModuloSigned
        | Op::Power | Op::AddImmediate { .. } | Op::SubtractImmediate { .. } | Op::MultiplyImmediate { .. }
        | Op::And | Op::Or | Op::Xor | Op::Nand | Op::Nor | Op::Xnor | Op::Invert | Op::ReduceAnd
        | Op::ReduceOr | Op::ReduceXor | Op::ReduceNand | Op::ReduceNor | Op::ReduceXnor
        | Op::ShiftLeft { .. } | Op::ShiftRight { .. } | Op::ShiftRightSigned { .. } | Op::Blend => Family::Arithmetic,
        Op::CompareUnsigned | Op::CompareSigned | Op::CompareEqual | Op::CompareNotEqual | Op::CompareWildZ
        | Op::CompareWildX | Op::CompareUnsignedImmediate { .. } | Op::CompareSignedImmediate { .. }
        | Op::CompareEqualImmediate { .. } | Op::CompareNotEqualImmediate { .. } => Family::Comparison,
        Op::Nop | Op::Load { .. } | Op::LoadWord { .. } | Op::Store { .. } | Op::StoreWord { .. }
        | Op::Assign { .. } | Op::AssignRegister { .. } | Op::AssignOffset { .. } | Op::AssignWord { .. }
        | Op::Jump { .. } | Op::JumpIfZero { .. } | Op::JumpIfOne { .. } | Op::JumpUnlessOne { .. }
        | Op::JumpUnlessZero { .. } | Op::Delay { .. } | Op::DelayRegister { .. } | Op::Wait { .. }
        | Op::Trigger { .. } | Op::Fork { .. } | Op::Join | Op::Disable { .. } | Op::End
        | Op::CallTask { .. } | Op::CallFunction { .. } | Op::Force { .. } | Op::ReleaseNet { .. }
        | Op::ReleaseReg { .. } => Family::Effect,
    }
}

/// Does the row of `op` on a thread's frame, where it asks nothing of the run but to go on: it pushes, computes, loads or
/// jumps. None, and nothing is done, where it asks more.
///
/// The place in the code stays. A trap leaves the frame, and so does want of memory.
#[inline(always)]
#[tactic(auto, unfolding(crate::specs::Does::does, crate::specs::Does::stack_does, crate::specs::Does::register_does, crate::specs::Does::arithmetic_does, crate::specs::Does::comparison_does, crate::specs::Does::effect_does))]
pub fn exec_local<V: Values>(op: &Op<u32>, t: &mut Frame, v: &V) -> Option<Local>
    requires { IsExecutable (V.words_of v.now) op.now }
    ensures done { IfSome result (λ local. IsDone local t.old t.new (does op.now t.old (V.words_of v.now))) }
    ensures kept { IfNone result (t.new ≡ t.old) }
    ensures asks { IfNone result (family_of op.now ≡ Family.Effect) }
{
    match family_for(op) {
        Family::Stack => match stack_row(op, t) {
            Ok(Memory::Enough) => Some(Local::Next),
            Ok(Memory::Short) => Some(Local::NoMemory),
            Err(kind) => Some(Local::Trap(kind)),
        },
        Family::Register => match register_row(op, t, v) {
            Ok(Memory::Enough) => Some(Local::Next),
            Ok(Memory::Short) => Some(Local::NoMemory),
            Err(kind) => Some(Local::Trap(kind)),
        },
        Family::Arithmetic => match arithmetic_row(op, t) {
            Ok(()) => Some(Local::Next),
            Err(kind) => Some(Local::Trap(kind)),
        },
        Family::Comparison => match comparison_row(op, t) {
            Ok(()) => Some(Local::Next),
            Err(kind) => Some(Local::Trap(kind)),
        },
        Family::Effect => local_row(op, t, v),
    }
}

/// Does the row of `op` on a thread's frame, and says what is left to do: the effect, or the first trap.
///
/// It changes the stack, the flags, the registers and the children; the place in the code stays. A trap leaves the frame. The
/// items that a task or a function pops stay too, and the value that a function pushes isn't there yet: its caller does both.
///
/// # Errors
///
/// `AllocError` where memory is short for one item more on the stack. The frame is then as before.
#[inline]
#[tactic(auto, unfolding(crate::specs::Does::does, crate::specs::Does::stack_does, crate::specs::Does::register_does, crate::specs::Does::arithmetic_does, crate::specs::Does::comparison_does, crate::specs::Does::effect_does))]
pub fn exec<V: Values>(op: &Op<u32>, t: &mut Frame, v: &V) -> Result<Effect, AllocError>
    requires { IsExecutable (V.words_of v.now) op.now }
    ensures done { IfOk result (λ effect. does op.now t.old (V.words_of v.now) ≡ (t.new, effect)) }
    ensures unchanged { OnErr result (t.new ≡ t.old) }
{
    match family_for(op) {
        Family::Effect => effect_row(op, t, v),
        _ => match exec_local(op, t, v) {
            Some(local) => effect_of(local),
            None => unreachable!(),
        },
    }
}
