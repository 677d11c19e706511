//! Which changes are edges (IEEE 1364-2005, 9.7.2).

ghost use Rattle.std.specs.Prelude.{◌≡◌, ◌≤◌, length};
ghost use Rattle.net_engine.specs.Delivery.{rises, falls, fires};

use four_state::{Bit, Vec4};
use vvp_forms::EdgeKind;

// From 0 to x, z or 1, or from x or z to 1.
fn rises(old: Bit, new: Bit) -> bool
    ensures { result ≡ rises old new }
{
    match (old, new) {
        (Bit::One, _) | (Bit::Zero, Bit::Zero) => false,
        (Bit::Zero, _) | (_, Bit::One) => true,
        _ => false,
    }
}

// From 1 to x, z or 0, or from x or z to 0.
fn falls(old: Bit, new: Bit) -> bool
    ensures { result ≡ falls old new }
{
    match (old, new) {
        (Bit::Zero, _) | (Bit::One, Bit::One) => false,
        (Bit::One, _) | (_, Bit::Zero) => true,
        _ => false,
    }
}

/// Whether an event fires where a port of it changes from one seen value to another.
pub(crate) fn fires(kind: EdgeKind, old: Vec4, new: Vec4) -> bool
    requires same { length old ≡ length new }
    requires least { 1 ≤ length old }
    ensures { result ≡ fires kind old new }
{
    match kind {
        EdgeKind::Pos => rises(old.bit(0), new.bit(0)),
        EdgeKind::Neg => falls(old.bit(0), new.bit(0)),
        EdgeKind::Any => !old.eeq(new),
    }
}
