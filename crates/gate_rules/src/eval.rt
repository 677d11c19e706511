//! Gates evaluated on levels, and on strong bits.

ghost use Rattle.std.specs.Prelude.{◌≡◌, ℕ, ◌≤◌, true, Option, List, [], ◌∷◌, Some, length, map, sum, flat_map, IsTrue, IsSome, IfSome};
ghost use Rattle.four_state.specs.declared.bits.Bit.{Bit};
ghost use Rattle.four_state.specs.Bit.{resolve_bit};
ghost use Rattle.strengths.specs.Level.{driven};
ghost use Rattle.strengths.specs.Resolver.{joined, resolved_by};
ghost use Rattle.gate_rules.specs.Evaluable.{IsEvaluable, HaveWidth};
ghost use Rattle.gate_rules.specs.Output.{output};
ghost use Rattle.gate_rules.specs.Ports.{there, widths, width_at, driven_ports};
ghost use Rattle.gate_rules.specs.Strong.{keeps_strong, resolves_strongly};
ghost use Rattle.gate_rules.specs.Single.{has_one_input};
ghost use Rattle.gate_rules.specs.Tables.{has_table, IsIdle, with_next};

use crate::fold::Table;
use crate::look::looked;
use crate::pass::{
    bits_above, bits_extended, bits_from, bits_put, bits_repeated, inner_bits, levels_above,
    levels_extended, levels_from, levels_put, levels_repeated, part_levels,
};
use crate::ports::{bits_at, driven_ports, levels_at, seen_ports};
use crate::rows::buffered;
use crate::strong::strength_of;
use four_state::{Bit, ResKind, Vec4};
use strengths::{Vec8, drive, resolve_kind, seen};
use vvp_forms::Gate;

/// What a gate puts out: `width` places, from its strengths `drives` of 0 and of 1, each 0 to 7, and the levels at its four
/// ports (`docs/PROFILE.md`, "Gates").
///
/// The kinds that pass places pass their strengths too. The others look at what is seen at their ports, and drive what
/// they make of it.
pub fn eval_gate(gate: &Gate, width: u8, drives: (u8, u8), ports: &[Option<Vec8>]) -> Vec8
    requires { IsEvaluable gate.now width drives.0 drives.1 (widths ports.now) }
    ensures value { result ≡ output gate.now width drives.0 drives.1 ports.now }
    ensures width { length result ≡ width }
{
    match gate {
        Gate::Buft => levels_at(ports, 0),
        Gate::Resolver { kind } => resolve_kind(*kind, ports),
        Gate::Part { base } => part_levels(levels_at(ports, 0), *base, width),
        Gate::PartInto { base, .. } => levels_put(levels_at(ports, 0), *base, width),
        Gate::PartFrom { signed } => {
            levels_from(
                levels_at(ports, 0),
                *signed,
                seen(levels_at(ports, 1)),
                width,
            )
        }
        Gate::Concat { .. } => concat_levels(ports),
        Gate::Repeat { count } => levels_repeated(levels_at(ports, 0), *count),
        Gate::Extend => levels_extended(levels_at(ports, 0), width),
        _ => drive(
            looked(gate, width, &seen_ports(ports)),
            strength_of(gate, drives.0),
            strength_of(gate, drives.1),
        ),
    }
}

/// What a gate puts out where its ports have strong bits and it keeps them strong, as bits: `eval_gate` of the bits, driven
/// with the strengths 6 and 6, is this, driven so (`is_strong` says for which gates and strengths).
pub fn eval_strong(gate: &Gate, width: u8, ports: &[Option<Vec4>]) -> Vec4
    requires evaluable { IsEvaluable gate.now width 6 6 (widths ports.now) }
    requires strong { IsTrue (keeps_strong gate.now 6 6) }
    ensures value { (s0 s1 : ℕ) → IsTrue (keeps_strong gate.now s0 s1) → output gate.now width s0 s1 (driven_ports 6 6 ports.now) ≡ map (driven 6 6) result }
    ensures width { length result ≡ width }
{
    match gate {
        Gate::And => Table::And.fold(width, ports),
        Gate::Or => Table::Or.fold(width, ports),
        Gate::Xor => Table::Xor.fold(width, ports),
        Gate::Nand => Table::And.fold(width, ports).not(),
        Gate::Nor => Table::Or.fold(width, ports).not(),
        Gate::Xnor => Table::Xor.fold(width, ports).not(),
        Gate::Not => bits_at(ports, 0).not(),
        _ => eval_other(gate, width, ports),
    }
}

/// The same for each gate.
fn eval_other(gate: &Gate, width: u8, ports: &[Option<Vec4>]) -> Vec4
    requires evaluable { IsEvaluable gate.now width 6 6 (widths ports.now) }
    requires strong { IsTrue (keeps_strong gate.now 6 6) }
    ensures value { (s0 s1 : ℕ) → IsTrue (keeps_strong gate.now s0 s1) → output gate.now width s0 s1 (driven_ports 6 6 ports.now) ≡ map (driven 6 6) result }
    ensures width { length result ≡ width }
{
    match gate {
        Gate::Buft => bits_at(ports, 0),
        Gate::Resolver { kind } => resolve_bits(*kind, width, ports),
        Gate::Part { base } => inner_bits(bits_at(ports, 0), *base, width),
        Gate::PartInto { base, .. } => bits_put(bits_at(ports, 0), *base, width),
        Gate::PartFrom { signed } => {
            bits_from(bits_at(ports, 0), *signed, bits_at(ports, 1), width)
        }
        Gate::Concat { .. } => concat_bits(ports),
        Gate::Repeat { count } => bits_repeated(bits_at(ports, 0), *count),
        Gate::Extend => bits_extended(bits_at(ports, 0), width),
        _ => looked(gate, width, ports),
    }
}

/// Whether a gate folds a table over its ports, or negates what that gives: AND, OR, XOR and their negations (IEEE
/// 1364-2005, 7.2). `eval_two` evaluates those that have two ports.
#[inline]
pub fn has_table(gate: &Gate) -> bool
    ensures { result ≡ has_table gate.now }
{
    match gate {
        Gate::And | Gate::Or | Gate::Xor | Gate::Nand | Gate::Nor | Gate::Xnor => true,
        _ => false,
    }
}

/// Whether these bits, at a port, add nothing to what the table of a gate makes of two others: all are what it makes of
/// no bits, 1 for AND and its negation, else 0.
pub fn is_idle(gate: &Gate, bits: Vec4) -> bool
    ensures { result ≡ true → IsIdle gate.now (length bits) (Some bits) }
{
    let unit = match gate {
        Gate::And | Gate::Nand => Bit::One,
        _ => Bit::Zero,
    };
    bits.eeq(Vec4::splat(unit, bits.width()))
}

/// `eval_strong` of a gate with a table whose first two ports have these bits and whose others add nothing to them.
#[inline]
pub fn eval_two(gate: &Gate, left: Vec4, right: Vec4) -> Vec4
    requires table { IsTrue (has_table gate.now) }
    requires same_width { length left ≡ length right }
    ensures value { (s0 s1 : ℕ) (third fourth : Option (List Bit)) → IsIdle gate.now (length left) third → IsIdle gate.now (length left) fourth → IsTrue (keeps_strong gate.now s0 s1)
        → output gate.now (length left) s0 s1 (driven_ports 6 6 (Some left ∷ Some right ∷ third ∷ fourth ∷ [])) ≡ map (driven 6 6) result }
    ensures width { length result ≡ length left }
{
    match gate {
        Gate::And => Table::And.of_two(left, right),
        Gate::Or => Table::Or.of_two(left, right),
        Gate::Xor => Table::Xor.of_two(left, right),
        Gate::Nand => Table::And.of_two(left, right).not(),
        Gate::Nor => Table::Or.of_two(left, right).not(),
        Gate::Xnor => Table::Xor.of_two(left, right).not(),
        _ => unreachable!(),
    }
}

/// Whether a gate makes what it drives of its first port alone, place by place: BUF, NOT and BUFZ (IEEE 1364-2005, 7.3).
/// `eval_one` evaluates it.
#[inline]
pub fn has_one_input(gate: &Gate) -> bool
    ensures { result ≡ has_one_input gate.now }
{
    match gate {
        Gate::Buf | Gate::Not | Gate::Bufz => true,
        _ => false,
    }
}

/// `eval_strong` of a gate of one input whose first port has these bits, whatever the others have.
#[inline]
pub fn eval_one(gate: &Gate, bits: Vec4) -> Vec4
    requires { IsTrue (has_one_input gate.now) }
    ensures value { (width s0 s1 : ℕ) (others : List (Option (List Bit))) → IsTrue (keeps_strong gate.now s0 s1)
        → output gate.now width s0 s1 (driven_ports 6 6 (Some bits ∷ others)) ≡ map (driven 6 6) result }
    ensures width { length result ≡ length bits }
{
    match gate {
        Gate::Buf => buffered(bits),
        Gate::Not => bits.not(),
        Gate::Bufz => bits,
        _ => unreachable!(),
    }
}

/// The ports in one vector, the first one lowest.
fn concat_levels(ports: &[Option<Vec8>]) -> Vec8
    requires four { length ports.now ≡ 4 }
    requires first { IsSome (width_at (widths ports.now) 0) }
    requires most { sum (there (widths ports.now)) ≤ 128 }
    ensures { result ≡ flat_map (λ vector. vector) (there ports.now) }
{
    let low = levels_at(ports, 0);
    let second = levels_above(low, &ports[1]);
    let third = levels_above(second, &ports[2]);
    levels_above(third, &ports[3])
}

/// The ports in one vector, the first one lowest.
fn concat_bits(ports: &[Option<Vec4>]) -> Vec4
    requires four { length ports.now ≡ 4 }
    requires first { IsSome (width_at (widths ports.now) 0) }
    requires most { sum (there (widths ports.now)) ≤ 128 }
    ensures { result ≡ flat_map (λ vector. vector) (there ports.now) }
{
    let low = bits_at(ports, 0);
    let second = bits_above(low, &ports[1]);
    let third = bits_above(second, &ports[2]);
    bits_above(third, &ports[3])
}

/// What a net makes of strong drivers. `Tri0` and `Tri1` pull it to levels that aren't strong.
fn resolve_bits(kind: ResKind, width: u8, ports: &[Option<Vec4>]) -> Vec4
    requires strong { IsTrue (resolves_strongly kind) }
    requires least { 1 ≤ width }
    requires most { width ≤ 128 }
    requires four { length ports.now ≡ 4 }
    requires wide { HaveWidth (widths ports.now) width }
    ensures { resolved_by kind (there (driven_ports 6 6 ports.now)) ≡ map (driven 6 6) result }
{
    match kind {
        ResKind::Tri => all_resolved(width, ports),
        _ => seen(resolve_kind(kind, &driven_ports(ports))),
    }
}

/// The bits of a driver, if it is there, resolved with those before it.
fn resolved_with(before: Vec4, port: &Option<Vec4>) -> Vec4
    requires { IfSome port.now (λ bits. length bits ≡ length before) }
    ensures value { result ≡ with_next resolve_bit before port.now }
    ensures width { length result ≡ length before }
{
    match port {
        Some(bits) => before.resolve(*bits),
        None => before,
    }
}

/// Strong drivers, resolved in their order.
fn all_resolved(width: u8, ports: &[Option<Vec4>]) -> Vec4
    requires least { 1 ≤ width }
    requires most { width ≤ 128 }
    requires four { length ports.now ≡ 4 }
    requires wide { HaveWidth (widths ports.now) width }
    ensures { result ≡ joined resolve_bit (there ports.now) }
{
    let none = Vec4::splat(Bit::HighZ, width);
    let first = resolved_with(none, &ports[0]);
    let second = resolved_with(first, &ports[1]);
    let third = resolved_with(second, &ports[2]);
    resolved_with(third, &ports[3])
}
