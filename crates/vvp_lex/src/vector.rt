//! The vector that bytes spell, for the crates that read statements.

ghost use Rattle.std.specs.Prelude.{◌≡◌, ◌<◌, ◌++◌, ◌∷◌, [], length, map, reverse};
ghost use Rattle.vvp_lex.specs.Vector.{bit_of, vector_of};

use crate::place::bytes_after;
use crate::scan::MOST_BITS;
use four_state::{Bit, Vec4};

/// The bit that a byte spells.
fn bit_of(byte: u8) -> Bit
    ensures { result ≡ bit_of byte }
{
    match byte {
        b'0' => Bit::Zero,
        b'1' => Bit::One,
        b'z' | b'Z' => Bit::HighZ,
        _ => Bit::Unknown,
    }
}

/// The vector with the bits that are spelled highest first, and with `top` above them.
fn with_bits(top: Bit, bits: &[u8]) -> Vec4
    requires { length bits.now < 128 }
    ensures { result ≡ reverse (map bit_of bits.now) ++ top ∷ [] }
{
    let mut vector = Vec4::splat(top, 1);
    for byte in bits {
        vector = vector.concat(Vec4::splat(bit_of(*byte), 1));
    }
    vector
}

/// The vector of 1 to 128 bits that are spelled highest first; none of no bits, or of more.
#[tactic(auto, unfolding(crate::specs::Vector::vector_of))]
pub fn vector_of(bits: &[u8]) -> Option<Vec4>
    ensures { result ≡ vector_of bits.now }
{
    if bits.is_empty() {
        return None;
    }
    if MOST_BITS < bits.len() {
        return None;
    }
    Some(with_bits(bit_of(bits[0]), bytes_after(bits, 1)))
}
