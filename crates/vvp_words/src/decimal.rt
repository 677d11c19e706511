//! Numbers that are spelled by decimal digits.

ghost use Rattle.std.specs.Prelude.{◌≡◌, ◌≤◌, IfSome};
ghost use Rattle.vvp_words.specs.Decimal.{decimal_of};

/// The number that a text of one to `places` decimal digits spells, where it is from `least` to `most`.
pub(crate) fn decimal(text: &[u8], places: usize, least: u32, most: u32) -> Option<u32>
    ensures number { result ≡ decimal_of places least most text.now }
    ensures within { IfSome result (λ number. (least ≤ number) × (number ≤ most)) }
{
    if text.is_empty() {
        return None;
    }
    if text.len() > places {
        return None;
    }
    let mut number: u64 = 0;
    for byte in text {
        if !byte.is_ascii_digit() {
            return None;
        }
        number = number * 10 + u64::from(*byte - b'0');
        if number > u64::from(most) {
            return None;
        }
    }
    if number < u64::from(least) {
        return None;
    }
    Some(number as u32)
}
