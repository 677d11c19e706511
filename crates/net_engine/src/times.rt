//! The times of net delays (IEEE 1364-2005, 7.14).

ghost use Rattle.std.specs.Prelude.{◌≡◌, ℕ, ◌<◌, ◌≤◌, length, Some, slice_get};
ghost use Rattle.strengths.specs.Interval.{Interval};
ghost use Rattle.net_engine.specs.Net.{seen};
ghost use Rattle.net_engine.specs.Delivery.{time_to, time_of_place, time_between};

use four_state::{Bit, Vec4};
use std::marker::Model;
use strengths::{Vec8, seen};

/// The times of a net delay in ticks: to 1, to 0 and to z.
#[derive(Clone, Copy)]
pub(crate) struct Times {
    pub(crate) rise: u64,
    pub(crate) fall: u64,
    pub(crate) decay: u64,
}

impl Model for Times {
    ghost use Rattle.net_engine.specs.Delivery.{Times};

    ghost Value = { Times };

    ghost view = { λ t. record { rise = t.rise; fall = t.fall; decay = t.decay } };

    ghost inverse = { λ t. record { rise = t.rise; fall = t.fall; decay = t.decay } };
}

impl Times {
    // The time to a bit; to x it is the least of the three (IEEE 1364-2005, 7.14.1).
    fn to_bit(self, bit: Bit) -> u64
        ensures { result ≡ time_to self bit }
    {
        match bit {
            Bit::One => self.rise,
            Bit::Zero => self.fall,
            Bit::HighZ => self.decay,
            Bit::Unknown => self.rise.min(self.fall.min(self.decay)),
        }
    }

    // The time of a place that is to go from one level to another; none where they are the same.
    fn of_place(self, old: Vec8, new: Vec8, bits: Vec4, place: u8) -> u64
        requires old { place < length old }
        requires new { place < length new }
        requires bits { bits ≡ seen new }
        ensures { (was is : Interval) → slice_get old place ≡ Some was → slice_get new place ≡ Some is → result ≡ time_of_place self (was, is) }
    {
        if old.level(place) == new.level(place) {
            0
        } else {
            self.to_bit(bits.bit(place))
        }
    }

    /// The greatest time over all places.
    pub(crate) fn between(self, old: Vec8, new: Vec8) -> u64
        requires { length old ≡ length new }
        ensures { result ≡ time_between self old new }
    {
        let bits = seen(new);
        let mut most: u64 = 0;
        'places: for place in 0..new.width() {
            most = most.max(self.of_place(old, new, bits, place));
        }
        most
    }
}
