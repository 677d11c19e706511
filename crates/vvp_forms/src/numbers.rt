//! Numbers with a sign.

ghost use Rattle.std.specs.Prelude.{◌≡◌, ◌<◌, ◌^◌, IfSome};
ghost use Rattle.vvp_forms.specs.Numbers.{size_at, integer_at, power_at};

use vvp_lex::{Spanned, is_mark_at, number_at};

/// The number of at most 2^31 - 1 at a place.
#[tactic(auto, unfolding(crate::specs::Numbers::size_at))]
fn size_at(tokens: &[Spanned], place: usize) -> Option<u32>
    ensures value { result ≡ size_at tokens.now place }
    ensures small { IfSome result (λ value. value < 2 ^ 31) }
{
    let value = number_at(tokens, place)?;
    if value < 0x8000_0000 {
        Some(value as u32)
    } else {
        None
    }
}

/// An integer at the front, and how many tokens it has: a minus or nothing, and a number of at most 2^31 - 1.
#[tactic(auto, unfolding(crate::specs::Numbers::integer_at))]
pub fn integer_at(tokens: &[Spanned]) -> Option<(i32, usize)>
    ensures { result ≡ integer_at tokens.now }
{
    if is_mark_at(tokens, 0, b'-') {
        let size = size_at(tokens, 1)?;
        Some((-(size as i32), 2))
    } else {
        let size = size_at(tokens, 0)?;
        Some((size as i32, 1))
    }
}

/// The same, with a plus that may stand in the place of the minus.
#[tactic(auto, unfolding(crate::specs::Numbers::power_at))]
pub fn power_at(tokens: &[Spanned]) -> Option<(i32, usize)>
    ensures { result ≡ power_at tokens.now }
{
    if is_mark_at(tokens, 0, b'+') {
        let size = size_at(tokens, 1)?;
        Some((size as i32, 2))
    } else {
        integer_at(tokens)
    }
}
