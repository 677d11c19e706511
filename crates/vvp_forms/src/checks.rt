//! What the operands of a row have to be.

ghost use Rattle.std.specs.Prelude.{◌≡◌};
ghost use Rattle.vvp_forms.specs.Checks.{allowed, needed, is_used, is_symbol, used, not_wide, width, power, places, range};

use crate::form::{Port, Range};
use vvp_lex::{FormKind, Name};

/// The most bits of a vector.
const MOST_BITS: u64 = 128;

/// Refuses bad operands.
pub fn allowed(test: bool) -> Result<(), FormKind>
    ensures { result ≡ allowed test }
{
    if test {
        Ok(())
    } else {
        Err(FormKind::BadOperands)
    }
}

/// An operand that has to be there.
pub fn needed<T>(operand: Option<T>) -> Result<T, FormKind>
    ensures { result ≡ needed operand }
{
    match operand {
        Some(value) => Ok(value),
        None => Err(FormKind::BadOperands),
    }
}

/// Whether a port is a symbol or a constant.
pub fn is_used(port: &Port) -> bool
    ensures { result ≡ is_used port.now }
{
    match port {
        Port::Unused => false,
        Port::Sym(_) | Port::Fixed(_) => true,
    }
}

/// Whether a port is a symbol.
pub fn is_symbol(port: &Port) -> bool
    ensures { result ≡ is_symbol port.now }
{
    match port {
        Port::Sym(_) => true,
        Port::Unused | Port::Fixed(_) => false,
    }
}

/// A port that has to be there.
pub fn used(port: Port) -> Result<Port, FormKind>
    ensures { result ≡ used port }
{
    if is_used(&port) {
        Ok(port)
    } else {
        Err(FormKind::BadOperands)
    }
}

/// At most 128 bits.
pub fn not_wide(bits: u64) -> Result<u8, FormKind>
    ensures { result ≡ not_wide bits }
{
    if bits > MOST_BITS {
        return Err(FormKind::VectorTooWide);
    }
    Ok(bits as u8)
}

/// A width of 1 to 128 bits.
pub fn width(bits: u64) -> Result<u8, FormKind>
    ensures { result ≡ width bits }
{
    if bits == 0 {
        return Err(FormKind::BadOperands);
    }
    not_wide(bits)
}

/// The power of ten of a unit of time, -15 to 2.
pub fn power(value: i32) -> Result<i8, FormKind>
    ensures { result ≡ power value }
{
    if -15 <= value && value <= 2 {
        Ok(value as i8)
    } else {
        Err(FormKind::BadOperands)
    }
}

/// How many places there are from one to the other.
fn places(msb: i32, lsb: i32) -> u64
    ensures { result ≡ places msb lsb }
{
    u64::from(msb.abs_diff(lsb)) + 1
}

/// The places of a vector of at most 128 bits.
pub fn range(msb: i32, lsb: i32) -> Result<Range, FormKind>
    ensures { result ≡ range msb lsb }
{
    not_wide(places(msb, lsb))?;
    Ok(Range { msb, lsb })
}
