ghost use Rattle.std.specs.Prelude.{◌≡◌, ◌+◌, ◌<◌, ◌≤◌, ◌-ℤ◌, unsigned_abs, [], ◌∷◌, length, map, All, IfOk};
ghost use Rattle.vcd_write.specs.Header.{size, AreNested};

use super::*;
use crate::header::{amount, unit_name};
use crate::text::{append, append_code};
use four_state::{Bit, Vec4};
use std::alloc::{AllocError, Global};
use std::test::Fail;
use value_plane::Plane;
use vvp_lex::Bytes;

// The codes of some numbers and all time units, one after another, each with a space.
fn codes_and_units(alloc: Global) -> Result<Vec<u8>, AllocError> {
    let mut out = Vec::new(alloc);
    for place in [0, 1, 93, 94, 95, 187, 188, 8835, 8836, 1_048_575] {
        append_code(place, &mut out)?;
        append(b" ", &mut out)?;
    }
    for steps in 0..18u8 {
        append(amount(steps).as_bytes(), &mut out)?;
        append(unit_name(steps).as_bytes(), &mut out)?;
        append(b" ", &mut out)?;
    }
    Ok(out)
}

#[test]
fn writes_codes_and_units(rt: HostRuntime) -> Result<(), Fail> {
    let out = codes_and_units(rt.alloc())?;
    let expected = b"! \" ~ !\" \"\" ~\" !# ~~ !!\" &`9\" \
        1fs 10fs 100fs 1ps 10ps 100ps 1ns 10ns 100ns 1us 10us 100us 1ms 10ms 100ms 1s 10s 100s ";
    assert_eq!(rt; out.as_slice(), expected.as_slice());
    Ok(())
}

fn scope(alloc: Global, word: ScopeWord, name: &[u8], parent: u32) -> Result<DumpScope, AllocError>
    ensures { IfOk result (λ scope. scope.parent ≡ parent) }
{
    let name = Bytes::from_slice(alloc, name)?;
    Ok(DumpScope { word, name, parent })
}

// Scopes out of the order of nesting, of which two hold nothing.
fn five_scopes(alloc: Global) -> Result<[DumpScope; 5], AllocError>
    ensures { IfOk result (λ scopes. AreNested 0 scopes) }
{
    Ok([
        scope(alloc, ScopeWord::Module, b"top", NO_SCOPE)?,
        scope(alloc, ScopeWord::Module, b"other", NO_SCOPE)?,
        scope(alloc, ScopeWord::Task, b"t", 0)?,
        scope(alloc, ScopeWord::Fork, b"f", 1)?,
        scope(alloc, ScopeWord::Begin, b"b", 2)?,
    ])
}

fn item(
    alloc: Global,
    word: VarWord,
    name: &[u8],
    scope: u32,
    msb: i32,
    lsb: i32,
) -> Result<DumpItem, AllocError>
    ensures scope { IfOk result (λ item. item.scope ≡ scope) }
    ensures size { IfOk result (λ item. size item ≡ unsigned_abs (msb -ℤ lsb) + 1) }
{
    let name = Bytes::from_slice(alloc, name)?;
    Ok(DumpItem {
        word,
        name,
        scope,
        msb,
        lsb,
    })
}

// Items of 4, 1 and 3 places.
fn three_items(alloc: Global) -> Result<[DumpItem; 3], AllocError>
    ensures scopes { IfOk result (λ items. All (λ item. item.scope < 5) items) }
    ensures sizes { IfOk result (λ items. All (λ item. size item ≤ 128) items) }
    ensures widths { IfOk result (λ items. map size items ≡ 4 ∷ 1 ∷ 3 ∷ []) }
{
    Ok([
        item(alloc, VarWord::Wire, b"v", 2, 3, 0)?,
        item(alloc, VarWord::Integer, b"i", 0, 5, 5)?,
        item(alloc, VarWord::Reg, b"r", 4, -3, -1)?,
    ])
}

// A dump of these, whose header is written.
fn started(alloc: Global, out: &mut Vec<u8>) -> Result<Dump, AllocError>
    ensures { IfOk result (λ dump. map length dump ≡ 4 ∷ 1 ∷ 3 ∷ []) }
{
    let scopes = five_scopes(alloc)?;
    let items = three_items(alloc)?;
    Dump::start(alloc, -9, &scopes, &items, out)
}

// Values of the items, the first by its planes.
fn values(alloc: Global, v: (u128, u128), bit: Bit) -> Result<Plane, AllocError>
    ensures { IfOk result (λ plane. map length plane ≡ 4 ∷ 1 ∷ 3 ∷ []) }
{
    let mut plane = Plane::new(alloc, &[4, 1, 3])?;
    plane.set(0, Vec4::from_planes(v.0, v.1, 4));
    plane.set(1, Vec4::splat(bit, 1));
    Ok(plane)
}

fn dumped(alloc: Global) -> Result<Vec<u8>, AllocError> {
    let mut out = Vec::new(alloc);
    let mut dump = started(alloc, &mut out)?;
    let first = values(alloc, (7, 6), Bit::Zero)?;
    time_line(0, &mut out)?;
    dump.section(Section::Vars, &first, &mut out)?;
    time_line(1, &mut out)?;
    dump.step(&values(alloc, (13, 12), Bit::Zero)?, &mut out)?;
    dump.section(Section::Off, &first, &mut out)?;
    dump.section(Section::On, &values(alloc, (0, 15), Bit::One)?, &mut out)?;
    dump.section(Section::All, &first, &mut out)?;
    time_line(2, &mut out)?;
    dump.step(&values(alloc, (0, 0), Bit::HighZ)?, &mut out)?;
    dump.step(&values(alloc, (4, 15), Bit::HighZ)?, &mut out)?;
    Ok(out)
}

#[test]
fn dump_text(rt: HostRuntime) -> Result<(), Fail> {
    let out = dumped(rt.alloc())?;
    let expected = b"$version vvp profile P1 $end
$timescale 1ns $end
$scope module top $end
$var integer 1 \" i [5] $end
$scope task t $end
$var wire 4 ! v [3:0] $end
$scope begin b $end
$var reg 3 # r [-3:-1] $end
$upscope $end
$upscope $end
$upscope $end
$enddefinitions $end
#0
$dumpvars
b0xx1 !
0\"
bx #
$end
#1
bx01 !
$dumpoff
bx !
x\"
bx #
$end
$dumpon
bz !
1\"
bx #
$end
$dumpall
b0xx1 !
0\"
bx #
$end
#2
b0 !
z\"
bzxzz !
";
    assert_eq!(rt; out.as_slice(), expected.as_slice());
    Ok(())
}
