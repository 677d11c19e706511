//! Words on the stack that the rows share: what they look at, and what they put in its place.

ghost use Rattle.std.specs.Prelude.{◌≡◌, ◌≤◌, ◌∷◌, Ok, Err, drop, length, OnOk, OnErr, IfOk, IfErr};
ghost use Rattle.four_state.specs.Planes.{places};
ghost use Rattle.op_exec.specs.Rows.{top_of, two_of, equal_two_of, top_of_width, pushed, WithMemory};

use crate::effect::{Memory, TrapKind};
use four_state::Vec4;
use vvp_threads::Stack;

/// How many items a stack may have.
pub(crate) const DEPTH: usize = 256;

/// The top item.
#[inline(always)]
#[tactic(auto, using(crate::proofs::Tops::top_of_item))]
pub(crate) fn top(stack: &Stack) -> Result<Vec4, TrapKind>
    ensures value { result ≡ top_of stack.now }
    ensures some { OnOk result (1 ≤ length stack.now) }
{
    stack.item(0).ok_or(TrapKind::StackUnder)
}

/// Whether there is a top item. It copies nothing.
#[inline(always)]
#[tactic(auto, using(crate::proofs::Tops::top_of_item))]
pub(crate) fn has_top(stack: &Stack) -> Result<(), TrapKind>
    ensures some { OnOk result (1 ≤ length stack.now) }
    ensures none { IfErr result (λ kind. top_of stack.now ≡ Err kind) }
{
    match stack.item(0) {
        None => Err(TrapKind::StackUnder),
        Some(_) => Ok(()),
    }
}

/// Whether there is a top item of this width. It copies nothing.
#[inline(always)]
#[tactic(auto, using(crate::proofs::Tops::top_of_item), unfolding(crate::specs::Rows::top_of_width))]
pub(crate) fn fits(stack: &Stack, width: u64) -> Result<(), TrapKind>
    ensures some { OnOk result (1 ≤ length stack.now) }
    ensures wide { OnOk result (top_of_width stack.now width ≡ top_of stack.now) }
    ensures trap { IfErr result (λ kind. top_of_width stack.now width ≡ Err kind) }
{
    match stack.item(0) {
        None => Err(TrapKind::StackUnder),
        Some(item) => {
            if u64::from(item.width()) == width {
                Ok(())
            } else {
                Err(TrapKind::Width)
            }
        }
    }
}

/// Takes the top item off.
#[inline(always)]
#[tactic(auto, using(crate::proofs::Tops::top_of_item))]
pub(crate) fn take(stack: &mut Stack) -> Vec4
    requires { 1 ≤ length stack.old }
    ensures value { top_of stack.old ≡ Ok result }
    ensures rest { stack.new ≡ drop 1 stack.old }
{
    match stack.item(0) {
        None => unreachable!(),
        Some(item) => {
            stack.discard(1);
            item
        }
    }
}

/// The item below the top, the left one, and the top.
#[inline(always)]
#[tactic(auto, using(crate::proofs::Tops::two_of_items))]
pub(crate) fn two(stack: &Stack) -> Result<(Vec4, Vec4), TrapKind>
    ensures value { result ≡ two_of stack.now }
    ensures some { OnOk result (2 ≤ length stack.now) }
{
    match (stack.item(1), stack.item(0)) {
        (Some(left), Some(right)) => Ok((left, right)),
        _ => Err(TrapKind::StackUnder),
    }
}

/// Both, where they have one width.
#[inline(always)]
#[tactic(auto, unfolding(crate::specs::Rows::equal_two_of))]
pub(crate) fn equal_two(stack: &Stack) -> Result<(Vec4, Vec4), TrapKind>
    ensures value { result ≡ equal_two_of stack.now }
    ensures some { OnOk result (2 ≤ length stack.now) }
    ensures equal { IfOk result (λ pair. length pair.0 ≡ length pair.1) }
{
    let (left, right) = two(stack)?;
    if left.width() == right.width() {
        Ok((left, right))
    } else {
        Err(TrapKind::Width)
    }
}

/// The top item, where it has the width.
#[inline(always)]
#[tactic(auto, unfolding(crate::specs::Rows::top_of_width))]
pub(crate) fn top_wide(stack: &Stack, width: u64) -> Result<Vec4, TrapKind>
    ensures value { result ≡ top_of_width stack.now width }
    ensures some { OnOk result (1 ≤ length stack.now) }
    ensures equal { IfOk result (λ item. length item ≡ width) }
{
    let item = top(stack)?;
    if u64::from(item.width()) == width {
        Ok(item)
    } else {
        Err(TrapKind::Width)
    }
}

/// The immediate that two numbers spell as planes.
#[inline(always)]
#[tactic(auto, using(crate::proofs::Parts::lengths))]
pub(crate) fn immediate(low: u32, high: u32, width: u64) -> Vec4
    requires least { 1 ≤ width }
    requires most { width ≤ 128 }
    ensures value { result ≡ places low high width }
    ensures wide { length result ≡ width }
{
    Vec4::from_planes(u128::from(low), u128::from(high), width as u8)
}

/// Puts one item in the place of the two upper ones.
#[inline(always)]
pub(crate) fn replace_two(stack: &mut Stack, item: Vec4)
    requires { 2 ≤ length stack.old }
    ensures { stack.new ≡ item ∷ drop 2 stack.old }
{
    stack.discard(1);
    stack.set_top(item);
}

/// Puts an item on top.
#[inline(always)]
#[tactic(auto, unfolding(crate::specs::Rows::pushed))]
pub(crate) fn push(stack: &mut Stack, item: Vec4) -> Result<Memory, TrapKind>
    ensures done { IfOk result (λ memory. WithMemory memory (pushed stack.old item ≡ Ok stack.new) (stack.new ≡ stack.old)) }
    ensures trap { IfErr result (λ kind. pushed stack.old item ≡ Err kind) }
    ensures kept { OnErr result (stack.new ≡ stack.old) }
{
    if stack.len() >= DEPTH {
        return Err(TrapKind::StackOver);
    }
    match stack.push(item) {
        Ok(()) => Ok(Memory::Enough),
        Err(_) => Ok(Memory::Short),
    }
}
