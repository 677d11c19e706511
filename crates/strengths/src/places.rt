ghost use Rattle.std.specs.Prelude.{◌≡◌, ℕ, ◌<◌, ◌≤◌, List, [], ◌∷◌, ◌++◌, length, slice_index_or};
ghost use Rattle.std.specs.Int.{bit_at};
ghost use Rattle.four_state.specs.declared.bits.Bit.{Bit};
ghost use Rattle.four_state.specs.declared.bits.Bit.TheVariants.{HighZ};
ghost use Rattle.strengths.specs.Wired.{Shows, zero_first, one_first};

use four_state::Vec4;

/// The places of a vector by the bit that stands there: those of 0, of 1 and of x, as three planes.
/// A place in none of them is z.
#[derive(Clone, Copy)]
pub(crate) struct Places {
    pub(crate) zeros: u128,
    pub(crate) ones: u128,
    pub(crate) unknowns: u128,
}

impl Places {
    /// No place: z everywhere.
    pub(crate) const NONE: Places = Places {
        zeros: 0,
        ones: 0,
        unknowns: 0,
    };

    /// The places of a vector's bits.
    pub(crate) fn of_bits(v: Vec4) -> Places
        requires { length v ≤ 128 }
        ensures { Shows result (length v) (λ i. slice_index_or v i HighZ ∷ []) }
    {
        let (low, high) = v.planes();
        Places {
            zeros: !(low | high),
            ones: low & !high,
            unknowns: low & high,
        }
    }

    /// The places at which the one or the other shows a bit.
    pub(crate) fn with(self, more: Places) -> Places
        ensures { (width : ℕ) (bits more_bits : ℕ → List Bit) → Shows self width bits → Shows more width more_bits → Shows result width (λ i. bits i ++ more_bits i) }
    {
        Places {
            zeros: self.zeros | more.zeros,
            ones: self.ones | more.ones,
            unknowns: self.unknowns | more.unknowns,
        }
    }

    /// One bit a place: 1 before x before 0.
    pub(crate) fn ones_first(self) -> Places
        ensures { (i : ℕ) → i < 128 → zero_first (bit_at result.zeros i) (bit_at result.unknowns i) (bit_at result.ones i) ≡ one_first (bit_at self.zeros i) (bit_at self.unknowns i) (bit_at self.ones i) }
    {
        Places {
            zeros: self.zeros & !(self.ones | self.unknowns),
            ones: self.ones,
            unknowns: self.unknowns & !self.ones,
        }
    }
}
