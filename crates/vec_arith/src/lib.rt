//! Arithmetic, comparison and shifts of four-state vectors (IEEE 1364-2005: 5.1.5 arithmetic, 5.1.7 comparison, 5.1.12
//! shifts).
//!
//! Contracts read a vector as an integer, with or without a sign, and say the result as an integer modulo 2 to the power
//! of the width. Where a bit of an operand is x or z, arithmetic gives all x and a comparison gives x; a shift moves the
//! places whatever they hold. No call takes memory.
#![tactic(auto)]

ghost use Rattle.std.specs.Prelude.{◌≡◌, ◌+ℤ◌, ◌-ℤ◌, ◌*ℤ◌, ◌%◌, ◌^◌, int_div, int_rem, length};
ghost use Rattle.four_state.specs.declared.bits.Bit.TheVariants.{Zero};
ghost use Rattle.four_state.specs.Vector.{top_bit};
ghost use Rattle.vec_arith.specs.Arith.{unsigned, signed, computed, divided, negated, raised, ceil_log2, logarithm, less, moved_up, moved_down};

#[cfg(test)]
mod tests;

use four_state::{Bit, Vec4};

/// `+`: the sum modulo 2 to the power of the width.
pub fn add(left: Vec4, right: Vec4) -> Vec4
    requires { length left ≡ length right }
    ensures { result ≡ computed unsigned ◌+ℤ◌ left right }
{
    match (left.known(), right.known()) {
        (Some(x), Some(y)) => Vec4::from_planes(x.wrapping_add(y), 0, left.width()),
        _ => Vec4::splat(Bit::Unknown, left.width()),
    }
}

/// `-`: the difference modulo 2 to the power of the width.
pub fn sub(left: Vec4, right: Vec4) -> Vec4
    requires { length left ≡ length right }
    ensures { result ≡ computed unsigned ◌-ℤ◌ left right }
{
    match (left.known(), right.known()) {
        (Some(x), Some(y)) => Vec4::from_planes(x.wrapping_sub(y), 0, left.width()),
        _ => Vec4::splat(Bit::Unknown, left.width()),
    }
}

/// `*`: the product modulo 2 to the power of the width.
pub fn mul(left: Vec4, right: Vec4) -> Vec4
    requires { length left ≡ length right }
    ensures { result ≡ computed unsigned ◌*ℤ◌ left right }
{
    match (left.known(), right.known()) {
        (Some(x), Some(y)) => Vec4::from_planes(x.wrapping_mul(y), 0, left.width()),
        _ => Vec4::splat(Bit::Unknown, left.width()),
    }
}

/// Unary `-`: the opposite modulo 2 to the power of the width.
pub fn neg(v: Vec4) -> Vec4
    ensures { result ≡ negated v }
{
    match v.known() {
        Some(x) => Vec4::from_planes(x.wrapping_neg(), 0, v.width()),
        None => Vec4::splat(Bit::Unknown, v.width()),
    }
}

/// `/` of the numbers, rounded down. A zero divisor gives all x.
pub fn div_u(left: Vec4, right: Vec4) -> Vec4
    requires { length left ≡ length right }
    ensures { result ≡ divided unsigned int_div left right }
{
    match (left.known(), right.known()) {
        (Some(x), Some(y)) if y != 0 => Vec4::from_planes(x / y, 0, left.width()),
        _ => Vec4::splat(Bit::Unknown, left.width()),
    }
}

/// `/` of the signed numbers, rounded toward zero, modulo 2 to the power of the width: the least number divided by -1 is
/// itself. A zero divisor gives all x.
pub fn div_s(left: Vec4, right: Vec4) -> Vec4
    requires { length left ≡ length right }
    ensures { result ≡ divided signed int_div left right }
{
    match (left.known_signed(), right.known_signed()) {
        (Some(x), Some(y)) if y != 0 => {
            Vec4::from_planes(x.wrapping_div(y).cast_unsigned(), 0, left.width())
        }
        _ => Vec4::splat(Bit::Unknown, left.width()),
    }
}

/// `%` of the numbers. A zero divisor gives all x.
pub fn rem_u(left: Vec4, right: Vec4) -> Vec4
    requires { length left ≡ length right }
    ensures { result ≡ divided unsigned int_rem left right }
{
    match (left.known(), right.known()) {
        (Some(x), Some(y)) if y != 0 => Vec4::from_planes(x % y, 0, left.width()),
        _ => Vec4::splat(Bit::Unknown, left.width()),
    }
}

/// `%` of the signed numbers, with the sign of the left one. A zero divisor gives all x.
pub fn rem_s(left: Vec4, right: Vec4) -> Vec4
    requires { length left ≡ length right }
    ensures { result ≡ divided signed int_rem left right }
{
    match (left.known_signed(), right.known_signed()) {
        (Some(x), Some(y)) if y != 0 => {
            Vec4::from_planes(x.wrapping_rem(y).cast_unsigned(), 0, left.width())
        }
        _ => Vec4::splat(Bit::Unknown, left.width()),
    }
}

/// `**` of the numbers, modulo 2 to the power of the left one's width, which the result has. The exponent may have any
/// width. A power with the exponent 0 is 1, that of 0 too.
pub fn pow_u(left: Vec4, right: Vec4) -> Vec4
    ensures { result ≡ raised left right }
{
    match (left.known(), right.known()) {
        (Some(x), Some(y)) => Vec4::from_planes(wrapping_power(x, y), 0, left.width()),
        _ => Vec4::splat(Bit::Unknown, left.width()),
    }
}

/// `<` of the numbers.
pub fn lt_u(left: Vec4, right: Vec4) -> Bit
    requires { length left ≡ length right }
    ensures { result ≡ less unsigned left right }
{
    match (left.known(), right.known()) {
        (Some(x), Some(y)) if x < y => Bit::One,
        (Some(_), Some(_)) => Bit::Zero,
        _ => Bit::Unknown,
    }
}

/// `<` of the signed numbers.
pub fn lt_s(left: Vec4, right: Vec4) -> Bit
    requires { length left ≡ length right }
    ensures { result ≡ less signed left right }
{
    match (left.known_signed(), right.known_signed()) {
        (Some(x), Some(y)) if x < y => Bit::One,
        (Some(_), Some(_)) => Bit::Zero,
        _ => Bit::Unknown,
    }
}

/// `<<`: the places moved up by `count`, with 0 below them. What passes the width is dropped.
pub fn shl(v: Vec4, count: u64) -> Vec4
    ensures { result ≡ moved_up v count Zero }
{
    Vec4::splat(Bit::Zero, v.width()).put(count.min(128) as i64, v)
}

/// `>>`: the places moved down by `count`, with 0 above them.
pub fn shr(v: Vec4, count: u64) -> Vec4
    ensures { result ≡ moved_down v count Zero }
{
    Vec4::splat(Bit::Zero, v.width()).put(-(count.min(128) as i64), v)
}

/// `>>>` of a signed vector: the places moved down by `count`, with copies of the top bit, x and z too, above them.
pub fn sar(v: Vec4, count: u64) -> Vec4
    ensures { result ≡ moved_down v count (top_bit v) }
{
    let top = v.bit(v.width() - 1);
    Vec4::splat(top, v.width()).put(-(count.min(128) as i64), v)
}

/// The ceiling of the base 2 logarithm, 32 bits wide: the least n with 2 to the power n at least the number, and 0 for 0
/// (`$clog2`, IEEE 1364-2005, 17.11.1).
pub fn clog2(v: Vec4) -> Vec4
    ensures { result ≡ logarithm v }
{
    match v.known() {
        Some(x) => Vec4::from_planes(u128::from(rounded_up_log2(x)), 0, 32),
        None => Vec4::splat(Bit::Unknown, 32),
    }
}

/// The least n with `value` at most 2 to the power n.
fn rounded_up_log2(value: u128) -> u32
    ensures { result ≡ ceil_log2 value }
{
    128 - value.saturating_sub(1).leading_zeros()
}

/// A power modulo 2 to the power 128, by squaring: at most 128 calls deep.
fn wrapping_power(base: u128, exponent: u128) -> u128
    ensures { result ≡ base ^ exponent % 2 ^ 128 }
{
    if exponent == 0 {
        return 1;
    }
    let root = wrapping_power(base.wrapping_mul(base), exponent / 2);
    if exponent % 2 == 1 {
        root.wrapping_mul(base)
    } else {
        root
    }
}
