ghost use Rattle.std.specs.Prelude.{◌≡◌, ℕ, ◌<◌, ◌≤◌, List, length, slice_get, Some, AllPairs};
ghost use Rattle.four_state.specs.declared.bits.Bit.{Bit};

use crate::vector::Vec4;

/// How a net joins the values of its drivers (IEEE 1364-2005, 4.6).
#[derive(Clone, Copy, PartialEq, Eq, Debug)]
pub enum ResKind {
    /// `wire` and `tri`: the stronger driver wins.
    Tri,
    /// `tri0`: as `Tri`, with a pull to 0 beside the drivers.
    Tri0,
    /// `tri1`: as `Tri`, with a pull to 1 beside the drivers.
    Tri1,
    /// `wand` and `triand`: 0 where any driver gives 0.
    Triand,
    /// `wor` and `trior`: 1 where any driver gives 1.
    Trior,
}

/// The values that a design's items have now. Items have numbers from 0 up, and the words of an array too.
pub trait Values {
    // The words of an item: one for a variable, a net or a functor, at least one for an array, and
    // none for an item that holds no value.
    ghost words_of: { Self → ℕ → List (List Bit) };

    /// The value of word `word` of item `item`. An item that isn't an array has the one word 0.
    fn value(&self, item: u32, word: u32) -> Vec4
        requires { word < length (words_of self.now item) }
        ensures { slice_get (words_of self.now item) word ≡ Some result };

    /// How many words an item has that holds a value: 1, or those of an array. They all have one width.
    fn words(&self, item: u32) -> u32
        requires { 1 ≤ length (words_of self.now item) }
        ensures number { result ≡ length (words_of self.now item) }
        ensures one_width { AllPairs (λ x y. length x ≡ length y) (words_of self.now item) };
}
