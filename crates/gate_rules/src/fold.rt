//! Tables that are folded over the ports of a gate.

ghost use Rattle.std.specs.Prelude.{◌≡◌, ◌≤◌, length, IfSome};
ghost use Rattle.std.specs.List.{All};
ghost use Rattle.four_state.specs.Vector.{at_each_place};
ghost use Rattle.gate_rules.specs.Ports.{there, widths};
ghost use Rattle.gate_rules.specs.Rows.{folded};
ghost use Rattle.gate_rules.specs.Tables.{table_of, unit_of, with_port};

use four_state::{Bit, Vec4};

/// A table on single bits (IEEE 1364-2005, 7.2).
#[derive(Clone, Copy)]
pub(crate) enum Table {
    And,
    Or,
    Xor,
}

impl Table {
    /// What the table makes of no bits.
    #[inline(always)]
    fn unit(self) -> Bit
        ensures { result ≡ unit_of self }
    {
        match self {
            Table::And => Bit::One,
            Table::Or | Table::Xor => Bit::Zero,
        }
    }

    /// What the table makes of two vectors, place by place.
    #[inline(always)]
    pub(crate) fn of_two(self, left: Vec4, right: Vec4) -> Vec4
        requires { length left ≡ length right }
        ensures { result ≡ at_each_place (table_of self) left right }
    {
        match self {
            Table::And => left.and(right),
            Table::Or => left.or(right),
            Table::Xor => left.xor(right),
        }
    }

    /// A port, if it is there, joined with what the ports after it make.
    #[inline(always)]
    fn with_port(self, port: &Option<Vec4>, rest: Vec4) -> Vec4
        requires { IfSome port.now (λ bits. length bits ≡ length rest) }
        ensures value { result ≡ with_port (table_of self) port.now rest }
        ensures width { length result ≡ length rest }
    {
        match port {
            None => rest,
            Some(bits) => self.of_two(*bits, rest),
        }
    }

    /// The ports that are there, joined by the table place by place. Each has the width. Most gates have two ports, for
    /// which the table is enough.
    #[inline(always)]
    pub(crate) fn fold(self, width: u8, ports: &[Option<Vec4>]) -> Vec4
        requires least { 1 ≤ width }
        requires most { width ≤ 128 }
        requires four { length ports.now ≡ 4 }
        requires same_width { All (λ w. w ≡ width) (there (widths ports.now)) }
        ensures { result ≡ folded (table_of self) (unit_of self) width (there ports.now) }
    {
        match (&ports[0], &ports[1], &ports[2], &ports[3]) {
            (Some(left), Some(right), None, None) => self.of_two(*left, *right),
            _ => self.fold_any(width, ports),
        }
    }

    /// The same for any number of ports.
    #[inline(never)]
    fn fold_any(self, width: u8, ports: &[Option<Vec4>]) -> Vec4
        requires least { 1 ≤ width }
        requires most { width ≤ 128 }
        requires four { length ports.now ≡ 4 }
        requires same_width { All (λ w. w ≡ width) (there (widths ports.now)) }
        ensures { result ≡ folded (table_of self) (unit_of self) width (there ports.now) }
    {
        let none = Vec4::splat(self.unit(), width);
        let last = self.with_port(&ports[3], none);
        let third = self.with_port(&ports[2], last);
        let second = self.with_port(&ports[1], third);
        self.with_port(&ports[0], second)
    }
}
