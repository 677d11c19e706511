//! The values of a net as bit planes in 64-bit lanes, and how often their bits move.

ghost use Rattle.std.specs.Prelude.{◌≡◌, ◌+◌, ◌*◌, ◌-◌, ◌/◌, ◌%◌, ◌^◌, ◌<◌, ◌≤◌, [], ◌∷◌, ◌++◌, length, replicate, sum_by, OnOk, IfOk};
ghost use Rattle.std.specs.Int.RustNames.{count_ones};
ghost use Rattle.std.specs.Simd.Lanes.{chunk, zip2};
ghost use Rattle.four_state.specs.declared.bits.Bit.TheVariants.{Unknown};
ghost use Rattle.four_state.specs.Planes.{low_plane, high_plane};
ghost use Rattle.toggle_lanes.specs.Lanes.{lanes_of, added, gained, gained_lanes, lane_rises, lane_falls, moves_of, IsCountable};

use four_state::{Bit, Vec4};
use std::alloc::{AllocError, Global};
use std::marker::Model;
use std::simd::prelude::*;

/// How many pairs of neighbouring values one step counts.
const LANES: usize = 4;

/// How many places go from 0 to 1, and from 1 to 0.
#[derive(Clone, Copy)]
pub(crate) struct Moves {
    pub(crate) rises: u64,
    pub(crate) falls: u64,
}

/// A list of lanes that owns its memory. Contracts see the list.
#[derive(Drop)]
pub(crate) struct Lanes {
    lanes: Vec<u64>,
}

impl Model for Lanes {
    ghost use Rattle.std.specs.Prelude.{List, ℕ};

    ghost Value = { List ℕ };

    ghost view = { λ l. l.lanes.items };
}

impl Lanes {
    /// No lanes. It takes no memory yet.
    fn new(alloc: Global) -> Lanes
        ensures { result ≡ [] }
    {
        Lanes {
            lanes: Vec::new(alloc),
        }
    }

    /// One lane more, at the end.
    fn push(&mut self, lane: u64) -> Result<(), AllocError>
        ensures { OnOk result (self.new ≡ self.old ++ lane ∷ []) }
    {
        self.lanes.push(lane)?;
        Ok(())
    }

    /// The lanes, in order.
    fn as_slice(&self) -> &[u64]
        ensures { result.now ≡ self.now }
    {
        self.lanes.as_slice()
    }
}

/// The low plane `a` and the high plane `b` of a net's values, each as the list of its bits 0 to 63 and that of its bits
/// 64 to 127. A list has one entry for each value, and places that the net doesn't have are 0. Where the net has at most
/// 64 places, the lists of bits 64 to 127 are empty.
#[derive(Drop)]
pub(crate) struct NetLanes {
    a_low: Lanes,
    a_high: Lanes,
    b_low: Lanes,
    b_high: Lanes,
}

impl NetLanes {
    /// The lanes of a net of this width whose one value is all x.
    pub(crate) fn unknown(alloc: Global, width: u8) -> Result<NetLanes, AllocError>
        requires least { 1 ≤ width }
        requires most { width ≤ 128 }
        ensures { IfOk result (λ lanes. lanes ≡ lanes_of (replicate width Unknown ∷ [])) }
    {
        let mut lanes = NetLanes {
            a_low: Lanes::new(alloc),
            a_high: Lanes::new(alloc),
            b_low: Lanes::new(alloc),
            b_high: Lanes::new(alloc),
        };
        lanes.push(Vec4::splat(Bit::Unknown, width))?;
        Ok(lanes)
    }

    /// One value more.
    pub(crate) fn push(&mut self, value: Vec4) -> Result<(), AllocError>
        ensures { OnOk result (self.new ≡ added self.old (value ∷ [])) }
    {
        let (a, b) = planes_of(value);
        self.a_low.push(low_half(a))?;
        self.b_low.push(low_half(b))?;
        if value.width() > 64 {
            self.a_high.push(high_half(a))?;
            self.b_high.push(high_half(b))?;
        }
        Ok(())
    }

    /// How often the net's places move.
    pub(crate) fn moves(&self) -> Moves
        requires { IsCountable self.now }
        ensures { result ≡ moves_of self.now }
    {
        let low = moves_in(self.a_low.as_slice(), self.b_low.as_slice());
        let high = moves_in(self.a_high.as_slice(), self.b_high.as_slice());
        low.and(high)
    }
}

impl Moves {
    /// These and more.
    fn and(self, more: Moves) -> Moves
        requires rises { self.rises + more.rises < 2 ^ 64 }
        requires falls { self.falls + more.falls < 2 ^ 64 }
        ensures rises { result.rises ≡ self.rises + more.rises }
        ensures falls { result.falls ≡ self.falls + more.falls }
    {
        Moves {
            rises: self.rises + more.rises,
            falls: self.falls + more.falls,
        }
    }
}

/// How often the bits of one half of the planes move, from each entry to the next. Without entries nothing moves.
fn moves_in(a: &[u64], b: &[u64]) -> Moves
    requires as_many { length b.now ≡ length a.now }
    requires few { length a.now ≤ 2 ^ 56 + 1 }
    ensures rises { result.rises ≡ lane_rises a.now b.now 0 (length a.now - 1) }
    ensures falls { result.falls ≡ lane_falls a.now b.now 0 (length a.now - 1) }
    ensures few_rises { result.rises ≤ 2 ^ 62 }
    ensures few_falls { result.falls ≤ 2 ^ 62 }
{
    if a.is_empty() {
        return Moves { rises: 0, falls: 0 };
    }
    let pairs = a.len() - 1;
    let fours = pairs / LANES;
    in_fours(a, b, fours).and(one_by_one(a, b, fours * LANES, pairs))
}

/// How often they move over so many times four pairs, from the first on.
fn in_fours(a: &[u64], b: &[u64], fours: usize) -> Moves
    requires as_many { length b.now ≡ length a.now }
    requires there { fours * LANES + 1 ≤ length a.now }
    requires few { fours ≤ 2 ^ 54 }
    ensures rises { result.rises ≡ lane_rises a.now b.now 0 (fours * LANES) }
    ensures falls { result.falls ≡ lane_falls a.now b.now 0 (fours * LANES) }
    ensures few_rises { result.rises ≤ 256 * fours }
    ensures few_falls { result.falls ≤ 256 * fours }
{
    let mut moves = Moves { rises: 0, falls: 0 };
    for four in 0..fours {
        moves = moves.and(four_moves(a, b, four * LANES));
    }
    moves
}

/// How often they move over the pairs from `from` up to `to`.
fn one_by_one(a: &[u64], b: &[u64], from: usize, to: usize) -> Moves
    requires as_many { length b.now ≡ length a.now }
    requires ordered { from ≤ to }
    requires there { to + 1 ≤ length a.now }
    requires few { to - from < LANES }
    ensures rises { result.rises ≡ lane_rises a.now b.now from (to - from) }
    ensures falls { result.falls ≡ lane_falls a.now b.now from (to - from) }
    ensures few_rises { result.rises ≤ 64 * (to - from) }
    ensures few_falls { result.falls ≤ 64 * (to - from) }
{
    let mut moves = Moves { rises: 0, falls: 0 };
    for at in from..to {
        moves = moves.and(one_move(a, b, at));
    }
    moves
}

/// How often they move over one pair.
fn one_move(a: &[u64], b: &[u64], at: usize) -> Moves
    requires own { at + 2 ≤ length a.now }
    requires other { at + 2 ≤ length b.now }
    ensures rises { result.rises ≡ lane_rises a.now b.now at 1 }
    ensures falls { result.falls ≡ lane_falls a.now b.now at 1 }
    ensures few_rises { result.rises ≤ 64 }
    ensures few_falls { result.falls ≤ 64 }
{
    Moves {
        rises: ones(gained(a[at + 1], b[at + 1], a[at], b[at])),
        falls: ones(gained(a[at], b[at], a[at + 1], b[at + 1])),
    }
}

/// How often they move over four pairs.
fn four_moves(a: &[u64], b: &[u64], at: usize) -> Moves
    requires own { at + 5 ≤ length a.now }
    requires other { at + 5 ≤ length b.now }
    ensures rises { result.rises ≡ lane_rises a.now b.now at LANES }
    ensures falls { result.falls ≡ lane_falls a.now b.now at LANES }
    ensures few_rises { result.rises ≤ 256 }
    ensures few_falls { result.falls ≤ 256 }
{
    let old_a = four(a, at);
    let old_b = four(b, at);
    let new_a = four(a, at + 1);
    let new_b = four(b, at + 1);
    Moves {
        rises: ones_in(gained_lanes(new_a, new_b, old_a, old_b)),
        falls: ones_in(gained_lanes(old_a, old_b, new_a, new_b)),
    }
}

/// Four entries from `at` on.
fn four(entries: &[u64], at: usize) -> u64x4
    requires { at + LANES ≤ length entries.now }
    ensures { result ≡ chunk at LANES entries.now }
{
    u64x4::from_slice(&entries[at..])
}

/// In each lane, the bits that spell 1 by the first two planes and 0 by the other two.
fn gained_lanes(a: u64x4, b: u64x4, other_a: u64x4, other_b: u64x4) -> u64x4
    ensures { result ≡ gained_lanes a b other_a other_b }
{
    a ^ (a & (b | (other_a | other_b)))
}

/// The bits that spell 1 by the first two planes and 0 by the other two.
fn gained(a: u64, b: u64, other_a: u64, other_b: u64) -> u64
    ensures { result ≡ gained a b other_a other_b }
{
    a ^ (a & (b | (other_a | other_b)))
}

/// How many bits of four lanes are 1.
fn ones_in(lanes: u64x4) -> u64
    ensures value { result ≡ sum_by count_ones lanes }
    ensures few { result ≤ 256 }
{
    let all = lanes.to_array();
    ones(all[0]) + ones(all[1]) + ones(all[2]) + ones(all[3])
}

/// How many bits are 1.
fn ones(bits: u64) -> u64
    ensures value { result ≡ count_ones bits }
    ensures few { result ≤ 64 }
{
    u64::from(bits.count_ones())
}

/// The two planes of a value.
fn planes_of(value: Vec4) -> (u128, u128)
    ensures low { result.0 ≡ low_plane value }
    ensures high { result.1 ≡ high_plane value }
{
    value.planes()
}

/// Bits 0 to 63 of a plane.
fn low_half(plane: u128) -> u64
    ensures { result ≡ plane % 2 ^ 64 }
{
    (plane % (1 << 64)) as u64
}

/// Bits 64 to 127 of a plane.
fn high_half(plane: u128) -> u64
    ensures { result ≡ plane / 2 ^ 64 }
{
    (plane >> 64) as u64
}
