ghost use Rattle.std.specs.Prelude.{◌≡◌, ◌<◌, ◌≤◌, length, map, replicate, IfOk};
ghost use Rattle.four_state.specs.declared.bits.Bit.TheVariants.{Unknown};

use super::*;
use four_state::{Bit, Vec4};
use std::alloc::{AllocError, Global};
use std::test::Fail;

// A plane of so many vectors of 70 places.
fn wide(alloc: Global, count: usize) -> Result<Plane, AllocError>
    requires { count ≤ 200 }
    ensures { IfOk result (λ plane. plane ≡ map (λ width. replicate width Unknown) (replicate count 70)) }
{
    let widths = vec![in alloc; 70u8; count]?;
    Plane::new(alloc, &widths)
}

// Puts ones into the last of so many vectors.
fn change_last(plane: &mut Plane, count: u32)
    requires { plane.old ≡ map (λ width. replicate width Unknown) (replicate count 70) }
    ensures { map length plane.new ≡ map length plane.old }
{
    if count > 0 {
        plane.set(count - 1, Vec4::splat(Bit::One, 70));
    }
}

// How many places differ where the last of so many was changed, and the first of them, or 999.
fn last_changed(alloc: Global, count: u32) -> Result<(usize, u32), AllocError>
    requires { count ≤ 200 }
{
    let old = wide(alloc, count as usize)?;
    let mut new = wide(alloc, count as usize)?;
    change_last(&mut new, count);
    let mut room = vec![in alloc; 999u32; 201]?;
    let found = old.changed(&new, &mut room);
    Ok((found, room[0]))
}

#[test]
fn finds_a_change_at_the_last_place(rt: HostRuntime) -> Result<(), Fail> {
    for (count, found) in [
        (0, (0, 999)),
        (1, (1, 0)),
        (3, (1, 2)),
        (4, (1, 3)),
        (5, (1, 4)),
        (129, (1, 128)),
    ] {
        assert!(rt; count <= 200);
        assert_eq!(rt; last_changed(rt.alloc(), count)?, found, "of {count}");
    }
    Ok(())
}

// A vector of 100 places. With no more than its width in the contract, a test's calls stay cheap to prove.
fn spelled(a: u128, b: u128) -> Vec4
    ensures { length result ≡ 100 }
{
    Vec4::from_planes(a, b, 100)
}

// The planes of a value that was put at a place of one plane, as they come to another's place 0.
fn copied(alloc: Global, a: u128, b: u128) -> Result<(u128, u128), AllocError> {
    let mut plane = Plane::new(alloc, &[3, 100])?;
    plane.set(1, spelled(a, b));
    let mut other = Plane::new(alloc, &[100])?;
    plane.copy_into(&[1], &mut other);
    Ok(other.get(0).planes())
}

#[test]
fn copies_values(rt: HostRuntime) -> Result<(), Fail> {
    let planes = (0x5_0123_4567_89ab_cdef, 0x9_fedc_ba98_7654_3210);
    assert_eq!(rt; copied(rt.alloc(), planes.0, planes.1)?, planes);
    Ok(())
}
