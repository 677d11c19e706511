//! The lines of values (IEEE 1364-2005, 18.2.2).

ghost use Rattle.std.specs.Prelude.{◌≡◌, ◌<◌, ◌≤◌, ◌++◌, length, map, take, reverse, slice_index_or, IsTrue, ◌↔◌, All, OnOk, OnErr};
ghost use Rattle.std.specs.List.{range_with_len};
ghost use Rattle.vcd_write.specs.Front.{Begins};
ghost use Rattle.vcd_write.specs.Value.{bit_code, extension_of, shortest, IsShortest, spelled, spelling_text, value_line};
ghost use Rattle.vcd_write.specs.Section.{shown_value, lines_of};

use crate::text::{append, append_code};
use crate::types::Section;
use four_state::{Bit, Vec4};
use std::alloc::AllocError;
use value_plane::Plane;

/// The character of a bit.
fn bit_code(bit: Bit) -> u8
    ensures { result ≡ bit_code bit }
{
    match bit {
        Bit::Zero => b'0',
        Bit::One => b'1',
        Bit::Unknown => b'x',
        Bit::HighZ => b'z',
    }
}

/// The bit that extends a spelling on the left that begins with `bit`.
fn extension_of(bit: Bit) -> Bit
    ensures { result ≡ extension_of bit }
{
    match bit {
        Bit::Zero | Bit::One => Bit::Zero,
        Bit::Unknown => Bit::Unknown,
        Bit::HighZ => Bit::HighZ,
    }
}

/// Whether a spelling that begins with `bit` extends by `above`.
fn extends(bit: Bit, above: Bit) -> bool
    ensures { IsTrue result ↔ (above ≡ extension_of bit) }
{
    above == extension_of(bit)
}

/// How many of the value's lowest places spell it: those above follow by extension.
fn spelling_len(value: Vec4) -> u8
    ensures least { 1 ≤ result }
    ensures most { result ≤ length value }
    ensures shortest { take result value ≡ shortest value }
    ensures law { IsShortest (take result value) value }
{
    let mut len = value.width();
    while len > 1 {
        if !extends(value.bit(len - 2), value.bit(len - 1)) {
            return len;
        }
        len -= 1;
    }
    len
}

/// Puts the value's lowest places, so many, to the front, the highest of them first.
fn put_bits(value: Vec4, count: u8, room: &mut [u8])
    requires there { count ≤ length value }
    requires room { length room.old ≡ 128 }
    ensures { take count room.new ≡ spelled (take count value) }
{
    for done in 0..count {
        room[usize::from(done)] = bit_code(value.bit(count - 1 - done));
    }
}

/// Appends the value's lowest places, so many, the highest of them first.
fn append_bits(value: Vec4, count: u8, out: &mut Vec<u8>) -> Result<(), AllocError>
    requires { count ≤ length value }
    ensures ok { OnOk result (out.new.items ≡ out.old.items ++ spelled (take count value)) }
    ensures err { OnErr result (Begins out.old.items out.new.items) }
{
    let mut room = [0; 128];
    put_bits(value, count, &mut room);
    append(&room[..usize::from(count)], out)
}

/// Appends what stands before the code in a value's line.
fn append_spelling(value: Vec4, out: &mut Vec<u8>) -> Result<(), AllocError>
    ensures ok { OnOk result (out.new.items ≡ out.old.items ++ spelling_text value) }
    ensures err { OnErr result (Begins out.old.items out.new.items) }
{
    if value.width() == 1 {
        return append_bits(value, 1, out);
    }
    append(b"b", out)?;
    append_bits(value, spelling_len(value), out)?;
    append(b" ", out)
}

/// Appends the line of a value of the item number `place`.
pub(crate) fn append_value(place: u32, value: Vec4, out: &mut Vec<u8>) -> Result<(), AllocError>
    ensures ok { OnOk result (out.new.items ≡ out.old.items ++ value_line place value) }
    ensures err { OnErr result (Begins out.old.items out.new.items) }
{
    append_spelling(value, out)?;
    append_code(place, out)?;
    append(b"\n", out)
}

/// What a section shows of a value.
fn shown_value(kind: Section, value: Vec4) -> Vec4
    ensures { result ≡ shown_value kind value }
{
    match kind {
        Section::Off => Vec4::splat(Bit::Unknown, value.width()),
        Section::Vars | Section::On | Section::All => value,
    }
}

/// Appends the lines that a section has for the items, of which there are so many.
pub(crate) fn append_values(
    kind: Section,
    now: &Plane,
    count: u32,
    out: &mut Vec<u8>,
) -> Result<(), AllocError>
    requires { count ≡ length now.now }
    ensures ok { OnOk result (out.new.items ≡ out.old.items ++ lines_of (map (shown_value kind) now.now) (range_with_len 0 count)) }
    ensures err { OnErr result (Begins out.old.items out.new.items) }
{
    for place in 0..count {
        append_value(place, shown_value(kind, now.get(place)), out)?;
    }
    Ok(())
}

/// Appends the lines of the items at these places.
pub(crate) fn append_lines(places: &[u32], now: &Plane, out: &mut Vec<u8>) -> Result<(), AllocError>
    requires { All (λ place. place < length now.now) places.now }
    ensures ok { OnOk result (out.new.items ≡ out.old.items ++ lines_of now.now places.now) }
    ensures err { OnErr result (Begins out.old.items out.new.items) }
{
    for place in places {
        append_value(*place, now.get(*place), out)?;
    }
    Ok(())
}
