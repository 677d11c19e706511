use std::marker::Model;

/// A scalar with strength: all levels from `lo` to `hi`.
///
/// A level is a number from -7 to 7. Its size is the strength: highz 0, small 1, medium 2, weak 3,
/// large 4, pull 5, strong 6, supply 7. Below 0 it drives a 0, above 0 a 1. An unambiguous strength
/// is one level, an ambiguous one several (IEEE 1364-2005, clause 7.10).
#[derive(Clone, Copy, PartialEq, Eq, Debug)]
pub struct Level {
    /// The least level, at most `hi`.
    pub lo: i8,
    /// The greatest level.
    pub hi: i8,
}

impl Model for Level {
    ghost use Rattle.strengths.specs.Interval.{Interval, IsLevel};

    ghost Value = { Interval };

    ghost view = { λ l. record { lo = l.lo; hi = l.hi } };

    ghost invariant = { λ l. IsLevel l.lo l.hi };

    ghost inverse = { λ l. record { lo = l.lo; hi = l.hi } };
}
