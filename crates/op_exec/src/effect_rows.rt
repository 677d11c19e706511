//! The rows that load, store, jump, and ask something of the run.

ghost use Rattle.std.specs.Prelude.{◌≡◌, ◌+◌, ◌<◌, ◌≤◌, Ok, Err, OnErr, IfOk, IfErr, IfSome, IfNone, length, if◌then◌else◌};
ghost use Rattle.four_state.specs.Vector.{is_zero, is_one};
ghost use Rattle.op_exec.specs.declared.effect.Effect.TheVariants.{Release};
ghost use Rattle.op_exec.specs.declared.effect.Local.TheVariants.{Goto, Next};
ghost use Rattle.op_exec.specs.Executable.{IsExecutable};
ghost use Rattle.op_exec.specs.Rows.{WithMemory, is_blocked, pushed, value_of};
ghost use Rattle.op_exec.specs.EffectRows.{offset_at, delay_at, word_at, word_or_x, loaded, stored, word_stored, assigned, offset_assigned, word_assigned, joined_last, forced, effect_row};
ghost use Rattle.op_exec.specs.Outcomes.{with_trap, IsDone};

use crate::calls::{call_function, call_task};
use crate::effect::{Effect, Local, Memory, TrapKind, effect_of};
use crate::register_rows::{halves, value};
use crate::stack_words::{fits, has_top, push, take};
use four_state::{Bit, Values, Vec4};
use std::alloc::AllocError;
use vvp_ops::Op;
use vvp_threads::{Frame, Stack};

/// Whether a bit is 1.
#[inline(always)]
fn is_one(bit: Bit) -> bool
    ensures { result ≡ is_one bit }
{
    match bit {
        Bit::One => true,
        _ => false,
    }
}

/// Whether a bit is 0.
#[inline(always)]
fn is_zero(bit: Bit) -> bool
    ensures { result ≡ is_zero bit }
{
    match bit {
        Bit::Zero => true,
        _ => false,
    }
}

/// Whether flag 4 is 1.
#[inline(always)]
fn is_blocked(flags: &[Bit; 256]) -> bool
    ensures { result ≡ is_blocked flags.now }
{
    is_one(flags[4])
}

/// An offset in a register, 0 for register 0.
#[inline(always)]
#[tactic(auto, unfolding(crate::specs::EffectRows::offset_at))]
fn offset_at(registers: &[u64; 16], register: u64) -> i64
    requires { register < 16 }
    ensures { result ≡ offset_at registers.now register }
{
    if register == 0 {
        0
    } else {
        registers[register as usize].cast_signed()
    }
}

/// A delay in a register, 0 for register 0.
#[inline(always)]
#[tactic(auto, unfolding(crate::specs::EffectRows::delay_at))]
fn delay_at(registers: &[u64; 16], register: u64) -> u64
    requires { register < 16 }
    ensures { result ≡ delay_at registers.now register }
{
    if register == 0 {
        0
    } else {
        registers[register as usize]
    }
}

/// The number of the word at the index in a register, where nothing is blocked and the array has such a word.
#[inline(always)]
#[tactic(auto, unfolding(crate::specs::EffectRows::word_at))]
fn word_at<V: Values>(t: &Frame, v: &V, array: u32, register: u64) -> Option<u32>
    requires register { register < 16 }
    requires array { 1 ≤ length (V.words_of v.now array) }
    ensures value { result ≡ word_at t.now (V.words_of v.now array) register }
    ensures within { IfSome result (λ word. word < length (V.words_of v.now array)) }
{
    if is_blocked(&t.flags) {
        return None;
    }
    let index = t.registers[register as usize].cast_signed();
    if index < 0 {
        return None;
    }
    if index < i64::from(v.words(array)) {
        Some(index as u32)
    } else {
        None
    }
}

/// That word, or all x.
#[inline(always)]
fn word_or_x<V: Values>(v: &V, array: u32, word: Option<u32>) -> Vec4
    requires array { 1 ≤ length (V.words_of v.now array) }
    requires within { IfSome word (λ word. word < length (V.words_of v.now array)) }
    ensures { result ≡ word_or_x (V.words_of v.now array) word }
{
    match word {
        None => Vec4::splat(Bit::Unknown, value(v, array).width()),
        Some(word) => v.value(array, word),
    }
}

/// The width of an item's value.
#[inline(always)]
fn wide<V: Values>(v: &V, item: u32) -> u8
    requires { 1 ≤ length (V.words_of v.now item) }
    ensures value { result ≡ length (value_of (V.words_of v.now item)) }
    ensures most { result ≤ 128 }
{
    value(v, item).width()
}

/// A jump, where a test says so.
#[inline(always)]
fn jump(target: u32, test: bool) -> Local
    ensures { result ≡ (if test then Goto target else Next) }
{
    if test {
        Local::Goto(target)
    } else {
        Local::Next
    }
}

/// Pushes the value of an item.
#[inline(never)]
fn load<V: Values>(stack: &mut Stack, v: &V, item: u32) -> Result<Memory, TrapKind>
    requires { 1 ≤ length (V.words_of v.now item) }
    ensures done { IfOk result (λ memory. WithMemory memory (pushed stack.old (value_of (V.words_of v.now item)) ≡ Ok stack.new) (stack.new ≡ stack.old)) }
    ensures trap { IfErr result (λ kind. pushed stack.old (value_of (V.words_of v.now item)) ≡ Err kind) }
    ensures kept { OnErr result (stack.new ≡ stack.old) }
{
    push(stack, value(v, item))
}

/// Pushes a word of an array, or all x.
#[inline(never)]
fn load_word<V: Values>(t: &mut Frame, v: &V, array: u32, index: u64) -> Result<Memory, TrapKind>
    requires index { index < 16 }
    requires array { 1 ≤ length (V.words_of v.now array) }
    ensures done { IfOk result (λ memory. WithMemory memory (loaded t.old (word_or_x (V.words_of v.now array) (word_at t.old (V.words_of v.now array) index)) ≡ Ok (t.new, Effect.Next)) (t.new ≡ t.old)) }
    ensures trap { IfErr result (λ kind. loaded t.old (word_or_x (V.words_of v.now array) (word_at t.old (V.words_of v.now array) index)) ≡ Err kind) }
    ensures kept { OnErr result (t.new ≡ t.old) }
{
    let word = word_at(t, v, array, index);
    push(&mut t.stack, word_or_x(v, array, word))
}

/// Pops a value of this width, and writes it.
#[inline(never)]
fn store(t: &mut Frame, item: u32, offset: u64, width: u64) -> Result<Effect, AllocError>
    requires { offset < 16 }
    ensures done { IfOk result (λ effect. with_trap t.old (stored t.old item offset width) ≡ (t.new, effect)) }
    ensures kept { OnErr result (t.new ≡ t.old) }
{
    match fits(&t.stack, width) {
        Err(kind) => Ok(Effect::Trap(kind)),
        Ok(()) => {
            let value = take(&mut t.stack);
            if offset != 0 && is_blocked(&t.flags) {
                return Ok(Effect::Next);
            }
            Ok(Effect::Set {
                item,
                word: 0,
                offset: offset_at(&t.registers, offset),
                value,
            })
        }
    }
}

/// Pops a value, and writes it to a word of an array.
#[inline(never)]
fn store_word<V: Values>(
    t: &mut Frame,
    v: &V,
    array: u32,
    index: u64,
    offset: u64,
) -> Result<Effect, AllocError>
    requires index { index < 16 }
    requires offset { offset < 16 }
    requires array { 1 ≤ length (V.words_of v.now array) }
    ensures done { IfOk result (λ effect. with_trap t.old (word_stored t.old (V.words_of v.now array) array index offset) ≡ (t.new, effect)) }
    ensures kept { OnErr result (t.new ≡ t.old) }
{
    match has_top(&t.stack) {
        Err(kind) => Ok(Effect::Trap(kind)),
        Ok(()) => {
            let word = word_at(t, v, array, index);
            let value = take(&mut t.stack);
            match word {
                None => Ok(Effect::Next),
                Some(word) => Ok(Effect::Set {
                    item: array,
                    word,
                    offset: offset_at(&t.registers, offset),
                    value,
                }),
            }
        }
    }
}

/// Pops a value of the item's width, and assigns it after so many ticks.
#[inline(never)]
fn assign<V: Values>(t: &mut Frame, v: &V, item: u32, delay: u64) -> Result<Effect, AllocError>
    requires { 1 ≤ length (V.words_of v.now item) }
    ensures done { IfOk result (λ effect. with_trap t.old (assigned t.old (V.words_of v.now item) item delay) ≡ (t.new, effect)) }
    ensures kept { OnErr result (t.new ≡ t.old) }
{
    match fits(&t.stack, u64::from(wide(v, item))) {
        Err(kind) => Ok(Effect::Trap(kind)),
        Ok(()) => {
            let value = take(&mut t.stack);
            Ok(Effect::Assign {
                item,
                word: 0,
                offset: 0,
                value,
                delay,
            })
        }
    }
}

/// Pops a value, and assigns it at an offset.
#[inline(never)]
fn assign_offset(t: &mut Frame, item: u32, offset: u64, delay: u64) -> Result<Effect, AllocError>
    requires offset { offset < 16 }
    requires delay { delay < 16 }
    ensures done { IfOk result (λ effect. with_trap t.old (offset_assigned t.old item offset delay) ≡ (t.new, effect)) }
    ensures kept { OnErr result (t.new ≡ t.old) }
{
    match has_top(&t.stack) {
        Err(kind) => Ok(Effect::Trap(kind)),
        Ok(()) => {
            let value = take(&mut t.stack);
            if is_blocked(&t.flags) {
                return Ok(Effect::Next);
            }
            Ok(Effect::Assign {
                item,
                word: 0,
                offset: offset_at(&t.registers, offset),
                value,
                delay: delay_at(&t.registers, delay),
            })
        }
    }
}

/// Pops a value, and assigns it to the word of an array at the index in register 3.
#[inline(never)]
fn assign_word<V: Values>(
    t: &mut Frame,
    v: &V,
    array: u32,
    offset: u64,
    delay: u64,
) -> Result<Effect, AllocError>
    requires offset { offset < 16 }
    requires delay { delay < 16 }
    requires array { 1 ≤ length (V.words_of v.now array) }
    ensures done { IfOk result (λ effect. with_trap t.old (word_assigned t.old (V.words_of v.now array) array offset delay) ≡ (t.new, effect)) }
    ensures kept { OnErr result (t.new ≡ t.old) }
{
    match has_top(&t.stack) {
        Err(kind) => Ok(Effect::Trap(kind)),
        Ok(()) => {
            let word = word_at(t, v, array, 3);
            let value = take(&mut t.stack);
            match word {
                None => Ok(Effect::Next),
                Some(word) => Ok(Effect::Assign {
                    item: array,
                    word,
                    offset: offset_at(&t.registers, offset),
                    value,
                    delay: delay_at(&t.registers, delay),
                }),
            }
        }
    }
}

/// Takes the child made last off the list.
#[inline(never)]
#[tactic(auto, unfolding(crate::specs::EffectRows::joined_last))]
fn join(t: &mut Frame) -> Result<Effect, AllocError>
    ensures done { IfOk result (λ effect. with_trap t.old (joined_last t.old) ≡ (t.new, effect)) }
    ensures kept { OnErr result (t.new ≡ t.old) }
{
    match t.children.last() {
        None => Ok(Effect::Trap(TrapKind::NoChild)),
        Some(child) => {
            t.children.pop();
            Ok(Effect::Join(child))
        }
    }
}

/// Pops a value of the item's width, and forces the item to it.
#[inline(never)]
fn force<V: Values>(t: &mut Frame, v: &V, item: u32) -> Result<Effect, AllocError>
    requires { 1 ≤ length (V.words_of v.now item) }
    ensures done { IfOk result (λ effect. with_trap t.old (forced t.old (V.words_of v.now item) item) ≡ (t.new, effect)) }
    ensures kept { OnErr result (t.new ≡ t.old) }
{
    match fits(&t.stack, u64::from(wide(v, item))) {
        Err(kind) => Ok(Effect::Trap(kind)),
        Ok(()) => {
            let value = take(&mut t.stack);
            Ok(Effect::Force { item, value })
        }
    }
}

/// A release of so many places of an item from a base on.
#[inline(never)]
fn release<V: Values>(
    v: &V,
    item: u32,
    base: u64,
    width: u64,
    keep: bool,
) -> Result<Effect, AllocError>
    requires item { 1 ≤ length (V.words_of v.now item) }
    requires places { base + width ≤ length (value_of (V.words_of v.now item)) }
    ensures { result ≡ Ok (Release item base width keep) }
{
    let _most = wide(v, item);
    Ok(Effect::Release {
        item,
        base: base as u32,
        width: width as u8,
        keep,
    })
}

/// Does the row of `op` on the frame, where it loads or jumps; none, and nothing is done, where it asks more of the run.
#[inline(always)]
pub(crate) fn local_row<V: Values>(op: &Op<u32>, t: &mut Frame, v: &V) -> Option<Local>
    requires { IsExecutable (V.words_of v.now) op.now }
    ensures done { IfSome result (λ local. IsDone local t.old t.new (with_trap t.old (effect_row op.now t.old (V.words_of v.now)))) }
    ensures kept { IfNone result (t.new ≡ t.old) }
{
    match op {
        Op::Nop => Some(Local::Next),
        Op::Load { item } => match load(&mut t.stack, v, *item) {
            Ok(Memory::Enough) => Some(Local::Next),
            Ok(Memory::Short) => Some(Local::NoMemory),
            Err(kind) => Some(Local::Trap(kind)),
        },
        Op::LoadWord { array, index } => match load_word(t, v, *array, *index) {
            Ok(Memory::Enough) => Some(Local::Next),
            Ok(Memory::Short) => Some(Local::NoMemory),
            Err(kind) => Some(Local::Trap(kind)),
        },
        Op::Jump { target } => Some(Local::Goto(*target)),
        Op::JumpIfZero { target, flag } => Some(jump(*target, is_zero(t.flags[*flag as usize]))),
        Op::JumpIfOne { target, flag } => Some(jump(*target, is_one(t.flags[*flag as usize]))),
        Op::JumpUnlessOne { target, flag } => Some(jump(*target, !is_one(t.flags[*flag as usize]))),
        Op::JumpUnlessZero { target, flag } => Some(jump(
            *target,
            !is_zero(t.flags[*flag as usize]),
        )),
        _ => None,
    }
}

/// Does the row of `op` on the frame and answers its effect, or its first trap. On a trap and for want of memory the frame is
/// as before.
#[inline(always)]
pub(crate) fn effect_row<V: Values>(
    op: &Op<u32>,
    t: &mut Frame,
    v: &V,
) -> Result<Effect, AllocError>
    requires { IsExecutable (V.words_of v.now) op.now }
    ensures done { IfOk result (λ effect. with_trap t.old (effect_row op.now t.old (V.words_of v.now)) ≡ (t.new, effect)) }
    ensures kept { OnErr result (t.new ≡ t.old) }
{
    match op {
        Op::Nop => Ok(Effect::Next),
        Op::Load { item } => match load(&mut t.stack, v, *item) {
            Ok(Memory::Enough) => Ok(Effect::Next),
            Ok(Memory::Short) => Err(AllocError),
            Err(kind) => Ok(Effect::Trap(kind)),
        },
        Op::LoadWord { array, index } => match load_word(t, v, *array, *index) {
            Ok(Memory::Enough) => Ok(Effect::Next),
            Ok(Memory::Short) => Err(AllocError),
            Err(kind) => Ok(Effect::Trap(kind)),
        },
        Op::Store {
            item,
            offset,
            width,
        } => store(t, *item, *offset, *width),
        Op::StoreWord {
            array,
            index,
            offset,
        } => store_word(t, v, *array, *index, *offset),
        Op::Assign { item, delay } => assign(t, v, *item, *delay),
        Op::AssignRegister { item, delay } => {
            let ticks = delay_at(&t.registers, *delay);
            assign(t, v, *item, ticks)
        }
        Op::AssignOffset {
            item,
            offset,
            delay,
        } => assign_offset(t, *item, *offset, *delay),
        Op::AssignWord {
            array,
            offset,
            delay,
        } => assign_word(t, v, *array, *offset, *delay),
        Op::Jump { target } => Ok(Effect::Goto(*target)),
        Op::JumpIfZero { target, flag } => effect_of(jump(
            *target,
            is_zero(t.flags[*flag as usize]),
        )),
        Op::JumpIfOne { target, flag } => effect_of(jump(*target, is_one(t.flags[*flag as usize]))),
        Op::JumpUnlessOne { target, flag } => effect_of(jump(
            *target,
            !is_one(t.flags[*flag as usize]),
        )),
        Op::JumpUnlessZero { target, flag } => effect_of(jump(
            *target,
            !is_zero(t.flags[*flag as usize]),
        )),
        Op::Delay { low, high } => Ok(Effect::Delay(halves(*low, *high))),
        Op::DelayRegister { register } => Ok(Effect::Delay(t.registers[*register as usize])),
        Op::Wait { event } => Ok(Effect::Wait(*event)),
        Op::Trigger { event } => Ok(Effect::Trigger(*event)),
        Op::Fork { target, scope } => Ok(Effect::Fork {
            code: *target,
            scope: *scope,
        }),
        Op::Join => join(t),
        Op::Disable { scope } => Ok(Effect::Disable(*scope)),
        Op::End => Ok(Effect::End),
        Op::CallTask { args, pops, .. } => call_task(&t.stack, args.as_slice(), *pops),
        Op::CallFunction { args, pops, .. } => { call_function(&t.stack, args.as_slice(), *pops) }
        Op::Force { item } => force(t, v, *item),
        Op::ReleaseNet { item, base, width } => release(v, *item, *base, *width, false),
        Op::ReleaseReg { item, base, width } => release(v, *item, *base, *width, true),
        _ => Ok(Effect::Next),
    }
}
