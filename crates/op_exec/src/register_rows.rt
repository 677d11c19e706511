//! The rows on registers and flags.

ghost use Rattle.std.specs.Prelude.{◌≡◌, ◌<◌, ◌≤◌, ◌∷◌, [], Ok, Err, OnOk, OnErr, IfOk, IfErr, length, slice_index_or};
ghost use Rattle.four_state.specs.declared.bits.Bit.TheVariants.{Unknown};
ghost use Rattle.four_state.specs.Bit.{or_bit};
ghost use Rattle.op_exec.specs.Executable.{IsExecutable};
ghost use Rattle.op_exec.specs.Rows.{WithMemory, joined_halves, pushed, value_of};
ghost use Rattle.op_exec.specs.RegisterRows.{with_number, number_popped, flag_popped, bit_with_number, register_row};

use crate::effect::{Memory, TrapKind};
use crate::operations::{Signed, Unsigned, inverse};
use crate::stack_words::{push, top};
use four_state::{Bit, Values, Vec4};
use vvp_ops::Op;
use vvp_threads::{Frame, Stack};

/// The value of an item.
#[inline(always)]
pub(crate) fn value<V: Values>(v: &V, item: u32) -> Vec4
    requires { 1 ≤ length (V.words_of v.now item) }
    ensures { result ≡ value_of (V.words_of v.now item) }
{
    v.value(item, 0)
}

/// How a vector is read as a number.
trait Number {
    ghost use Rattle.std.specs.Prelude.{◌≡◌, ◌<◌, ℤ, List, Option};
    ghost use Rattle.four_state.specs.declared.bits.Bit.{Bit};
    ghost use Rattle.op_exec.specs.RegisterRows.{with_number};

    // the number of a vector, where it is known
    ghost reads: { List Bit → Option ℤ };

    /// Loads a register with the number modulo 2^64, and says in flag 4 whether it isn't known.
    fn load(t: &mut Frame, register: u64, item: Vec4)
        requires { register < 16 }
        ensures { t.new ≡ with_number t.old register (reads item) };
}

impl Number for Unsigned {
    ghost use Rattle.vec_arith.specs.Arith.{unsigned};

    ghost reads = { unsigned };

    #[tactic(auto, unfolding(crate::specs::RegisterRows::with_number))]
    fn load(t: &mut Frame, register: u64, item: Vec4) {
        match item.known() {
            None => {
                t.registers[register as usize] = 0;
                t.flags[4] = Bit::One;
            }
            Some(number) => {
                t.registers[register as usize] = (number % (1 << 64)) as u64;
                t.flags[4] = Bit::Zero;
            }
        }
    }
}

impl Number for Signed {
    ghost use Rattle.vec_arith.specs.Arith.{signed};

    ghost reads = { signed };

    #[tactic(auto, unfolding(crate::specs::RegisterRows::with_number))]
    fn load(t: &mut Frame, register: u64, item: Vec4) {
        match item.known_signed() {
            None => {
                t.registers[register as usize] = 0;
                t.flags[4] = Bit::One;
            }
            Some(number) => {
                t.registers[register as usize] = number.rem_euclid(1 << 64).unsigned_abs() as u64;
                t.flags[4] = Bit::Zero;
            }
        }
    }
}

/// Loads a register with the number of an item's value.
#[inline(never)]
fn get<N: Number, V: Values>(t: &mut Frame, v: &V, register: u64, item: u32)
    requires register { register < 16 }
    requires item { 1 ≤ length (V.words_of v.now item) }
    ensures { t.new ≡ with_number t.old register (N.reads (value_of (V.words_of v.now item))) }
{
    N::load(t, register, value(v, item));
}

/// Pops, and loads a register with the number.
#[inline(never)]
fn pop<N: Number>(t: &mut Frame, register: u64) -> Result<(), TrapKind>
    requires { register < 16 }
    ensures done { OnOk result (number_popped N.reads t.old register ≡ Ok t.new) }
    ensures trap { IfErr result (λ kind. number_popped N.reads t.old register ≡ Err kind) }
    ensures kept { OnErr result (t.new ≡ t.old) }
{
    let item = top(&t.stack)?;
    t.stack.discard(1);
    N::load(t, register, item);
    Ok(())
}

/// The lowest bit of a vector.
#[inline(always)]
fn lowest(item: Vec4) -> Bit
    ensures { result ≡ slice_index_or item 0 Unknown }
{
    let _width = item.width();
    item.bit(0)
}

/// Pops, and a flag gets the lowest bit.
#[inline(never)]
fn pop_flag(t: &mut Frame, flag: u64) -> Result<(), TrapKind>
    requires { flag < 256 }
    ensures done { OnOk result (flag_popped t.old flag ≡ Ok t.new) }
    ensures trap { IfErr result (λ kind. flag_popped t.old flag ≡ Err kind) }
    ensures kept { OnErr result (t.new ≡ t.old) }
{
    let item = top(&t.stack)?;
    t.stack.discard(1);
    t.flags[flag as usize] = lowest(item);
    Ok(())
}

/// Pushes a bit.
#[inline(never)]
fn push_bit(stack: &mut Stack, bit: Bit) -> Result<Memory, TrapKind>
    ensures done { IfOk result (λ memory. WithMemory memory (pushed stack.old (bit ∷ []) ≡ Ok stack.new) (stack.new ≡ stack.old)) }
    ensures trap { IfErr result (λ kind. pushed stack.old (bit ∷ []) ≡ Err kind) }
    ensures kept { OnErr result (stack.new ≡ stack.old) }
{
    push(stack, Vec4::splat(bit, 1))
}

/// The bit with a number: 0, 1, z, x.
#[inline(always)]
#[tactic(auto, unfolding(crate::specs::RegisterRows::bit_with_number))]
fn numbered(number: u32) -> Bit
    ensures { result ≡ bit_with_number number }
{
    match number {
        0 => Bit::Zero,
        1 => Bit::One,
        2 => Bit::HighZ,
        _ => Bit::Unknown,
    }
}

/// OR of two bits.
#[inline(always)]
fn either(left: Bit, right: Bit) -> Bit
    ensures { result ≡ or_bit left right }
{
    match (left, right) {
        (Bit::One, _) | (_, Bit::One) => Bit::One,
        (Bit::Zero, Bit::Zero) => Bit::Zero,
        _ => Bit::Unknown,
    }
}

/// The number with these halves.
#[inline(always)]
pub(crate) fn halves(low: u32, high: u32) -> u64
    ensures { result ≡ joined_halves low high }
{
    u64::from(high) * (1 << 32) + u64::from(low)
}

/// Does the row of `op` on the frame, or answers its first trap or want of memory and leaves the frame.
#[inline(always)]
#[rattlefmt::skip]
pub(crate) fn register_row<V: Values>(op: &Op<u32>, t: &mut Frame, v: &V) -> Result<Memory, TrapKind>
    requires { IsExecutable (V.words_of v.now) op.now }
    ensures done { IfOk result (λ memory. WithMemory memory (register_row op.now t.old (V.words_of v.now) ≡ Ok t.new) (t.new ≡ t.old)) }
    ensures trap { IfErr result (λ kind. register_row op.now t.old (V.words_of v.now) ≡ Err kind) }
    ensures kept { OnErr result (t.new ≡ t.old) }
{
    match op {
        Op::IndexLoad { register, low, high } => {
            t.registers[*register as usize] = halves(*low, *high);
            Ok(Memory::Enough)
        }
        Op::IndexGet { register, item } => { get::<Unsigned, V>(t, v, *register, *item); Ok(Memory::Enough) }
        Op::IndexGetSigned { register, item } => { get::<Signed, V>(t, v, *register, *item); Ok(Memory::Enough) }
        Op::IndexPop { register } => { pop::<Unsigned>(t, *register)?; Ok(Memory::Enough) }
        Op::IndexPopSigned { register } => { pop::<Signed>(t, *register)?; Ok(Memory::Enough) }
        Op::IndexAdd { register, low, high } => {
            let sum = t.registers[*register as usize].wrapping_add(halves(*low, *high));
            t.registers[*register as usize] = sum;
            Ok(Memory::Enough)
        }
        Op::IndexSubtract { register, low, high } => {
            let difference = t.registers[*register as usize].wrapping_sub(halves(*low, *high));
            t.registers[*register as usize] = difference;
            Ok(Memory::Enough)
        }
        Op::IndexMultiply { register, low, high } => {
            let product = t.registers[*register as usize].wrapping_mul(halves(*low, *high));
            t.registers[*register as usize] = product;
            Ok(Memory::Enough)
        }
        Op::IndexMove { register, source } => {
            t.registers[*register as usize] = t.registers[*source as usize];
            Ok(Memory::Enough)
        }
        Op::FlagPop { flag } => { pop_flag(t, *flag)?; Ok(Memory::Enough) }
        Op::FlagImmediate { flag, value } => { t.flags[*flag as usize] = numbered(*value); Ok(Memory::Enough) }
        Op::FlagPush { flag } => push_bit(&mut t.stack, t.flags[*flag as usize]),
        Op::FlagMove { flag, source } => { t.flags[*flag as usize] = t.flags[*source as usize]; Ok(Memory::Enough) }
        Op::FlagInvert { flag } => { t.flags[*flag as usize] = inverse(t.flags[*flag as usize]); Ok(Memory::Enough) }
        Op::FlagOr { flag, source } => {
            t.flags[*flag as usize] = either(t.flags[*flag as usize], t.flags[*source as usize]);
            Ok(Memory::Enough)
        }
        _ => Ok(Memory::Enough),
    }
}
