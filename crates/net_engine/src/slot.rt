//! What drives an item, and what is forced on it.

ghost use Rattle.std.specs.Prelude.{◌≡◌, ℕ, ◌+◌, ◌<◌, ◌≤◌, ◌^◌, true, length, map, zip, replicate, unwrap_or, IfOk, Option, Some, None, is_some, slice_get, slice_set};
ghost use Rattle.std.specs.List.{enumerate_from, list_any};
ghost use Rattle.strengths.specs.Interval.{Interval};
ghost use Rattle.strengths.specs.Level.{driven, seen_bit};
ghost use Rattle.net_engine.specs.Net.{shown_level, seen, strongly};
ghost use Rattle.net_engine.specs.Delivery.{is_among, forced_after, kept_level, kept_after};
ghost use Rattle.net_engine.specs.Slots.{held_by, held_levels, forcing, released, released_driven, HasPlaces, KeepsValue, IsPlain};

use four_state::Vec4;
use std::alloc::{AllocError, Global};
use std::marker::Model;
use strengths::{Level, Vec8, drive, seen};

/// What is forced on the places of an item, and the levels that drive them (IEEE 1364-2005, 7.9 and 9.3.2), where these
/// aren't the bits that the plane has of the item, driven as a variable drives them. Contracts see both.
///
/// Where nothing is forced and the levels are those of bits that are driven so, a slot has no levels: the plane alone has
/// the value. Forcing takes no memory: there is a place for a forced level of each place from the start.
#[derive(Drop)]
pub(crate) struct Slot {
    levels: Option<Vec8>,
    forced: Vec<Option<Level>>,
    // False where nothing is forced.
    any: bool,
}

impl Model for Slot {
    ghost use Rattle.net_engine.specs.Slots.{SlotNow, IsSlot};

    ghost Value = { SlotNow };

    ghost view = { λ s. record { levels = s.levels; forced = s.forced.items } };

    ghost invariant = { λ s. IsSlot s.levels s.forced.items s.any };
}

// The level that a place shows, put into the levels.
fn with_shown(levels: Vec8, at: u8, forced: Option<Level>) -> Vec8
    requires { at < length levels }
    ensures { (level : Interval) → slice_get levels at ≡ Some level → result ≡ slice_set levels at (shown_level (forced, level)) }
{
    match forced {
        Some(level) => levels.with_level(at, level),
        None => levels,
    }
}

// The levels that places show, by what drives them and what is forced on them.
fn shown(driven: Vec8, forced: &[Option<Level>]) -> Vec8
    requires { length forced.now ≡ length driven }
    ensures { result ≡ map shown_level (zip forced.now driven) }
{
    let mut levels = driven;
    'places: for i in 0..driven.width() {
        levels = with_shown(levels, i, forced[i as usize]);
    }
    levels
}

// Forces every place.
fn force_all(forced: &mut [Option<Level>], levels: Vec8)
    requires { length forced.old ≡ length levels }
    ensures { forced.new ≡ map Some levels }
{
    'places: for i in 0..levels.width() {
        forced[i as usize] = Some(levels.level(i));
    }
}

// Whether a place is one of so many from a base on.
fn is_among(base: u8, width: u8, place: u8) -> bool
    ensures { result ≡ is_among base width place }
{
    base <= place && place - base < width
}

// What is forced on a place after a release.
fn forced_after(base: u8, width: u8, place: u8, forced: Option<Level>) -> Option<Level>
    ensures { result ≡ forced_after base width (place, forced) }
{
    if is_among(base, width, place) {
        None
    } else {
        forced
    }
}

// So many places from `base` on are no longer forced.
fn release_some(forced: &mut [Option<Level>], base: u8, width: u8)
    requires { length forced.old ≤ 128 }
    ensures { forced.new ≡ map (forced_after base width) (enumerate_from 0 forced.old) }
{
    'places: for i in 0..forced.len() {
        forced[i] = forced_after(base, width, i as u8, forced[i]);
    }
}

// The bit that a level is seen as, as a variable drives it.
fn as_driven(level: Level) -> Level
    ensures { result ≡ driven 6 6 (seen_bit level) }
{
    drive(seen(Vec8::splat(level, 1)), 6, 6).level(0)
}

// What drives a place after a release, where it keeps what was forced on it.
fn kept_level(forced: Option<Level>, level: Level) -> Level
    ensures { result ≡ kept_level (forced, level) }
{
    match forced {
        Some(forced) => as_driven(forced),
        None => level,
    }
}

// What drives a place after a release of so many from a base on, where these keep what was forced on them.
fn kept_after(base: u8, width: u8, place: u8, forced: Option<Level>, level: Level) -> Level
    ensures { result ≡ kept_after base width (place, (forced, level)) }
{
    if is_among(base, width, place) {
        kept_level(forced, level)
    } else {
        level
    }
}

// What drives the places after a release of so many from a base on, where these keep what was forced on them.
fn all_kept(driven: Vec8, forced: &[Option<Level>], base: u8, width: u8) -> Vec8
    requires { length forced.now ≡ length driven }
    ensures { result ≡ map (kept_after base width) (enumerate_from 0 (zip forced.now driven)) }
{
    let mut levels = driven;
    'places: for i in 0..driven.width() {
        let level = kept_after(base, width, i, forced[i as usize], driven.level(i));
        levels = levels.with_level(i, level);
    }
    levels
}

// What drives the places after a release of so many from a base on, as `keep` says whether these keep what was forced.
fn released(driven: Vec8, forced: &[Option<Level>], base: u8, width: u8, keep: bool) -> Vec8
    requires { length forced.now ≡ length driven }
    ensures { result ≡ released_driven base width keep (record { driven = driven; forced = forced.now }) }
{
    if keep {
        all_kept(driven, forced, base, width)
    } else {
        driven
    }
}

// Whether something is forced on some place.
fn is_any(forced: &[Option<Level>]) -> bool
    ensures { result ≡ list_any is_some forced.now }
{
    forced.iter().any(|level| level.is_some())
}

// So many places on which nothing is forced.
fn none_forced(alloc: Global, places: u8) -> Result<Vec<Option<Level>>, AllocError>
    ensures { IfOk result (λ forced. forced.items ≡ replicate places None) }
{
    vec![in alloc; None; places as usize]
}

// The levels, but for those of bits that are driven as a variable drives them.
fn beside_bits(levels: Vec8) -> Option<Vec8>
    ensures { unwrap_or result (strongly (seen levels)) ≡ levels }
{
    if drive(seen(levels), 6, 6) == levels {
        None
    } else {
        Some(levels)
    }
}

impl Slot {
    /// Driven with these levels, and nothing forced. The only error is want of memory.
    pub(crate) fn new(alloc: Global, levels: Vec8) -> Result<Slot, AllocError>
        ensures value { IfOk result (λ slot. KeepsValue slot (record { driven = levels; forced = map (λ level. None) levels })) }
        ensures width { IfOk result (λ slot. length slot.forced ≡ length levels) }
        ensures places { HasPlaces (Some (record { driven = levels; forced = map (λ level. None) levels })) }
    {
        Ok(Slot {
            levels: beside_bits(levels),
            forced: none_forced(alloc, levels.width())?,
            any: false,
        })
    }

    /// Whether the bits in the plane tell all of the item.
    pub(crate) fn is_plain(&self) -> bool
        ensures { result ≡ true → IsPlain self.now }
    {
        self.levels.is_none()
    }

    /// What drives the places, of which the plane has these bits.
    pub(crate) fn driven(&self, bits: Vec4) -> Vec8
        ensures { result ≡ (held_by self.now bits).driven }
    {
        match self.levels {
            Some(levels) => levels,
            None => drive(bits, 6, 6),
        }
    }

    /// The bits that what drives the places is seen as, of which the plane has these bits.
    pub(crate) fn driven_bits(&self, bits: Vec4) -> Vec4
        ensures { result ≡ seen (held_by self.now bits).driven }
    {
        match self.levels {
            Some(levels) => seen(levels),
            None => bits,
        }
    }

    /// What is forced on a place.
    pub(crate) fn forced(&self, place: u8) -> Option<Level>
        requires { place < length self.now.forced }
        ensures { slice_get self.now.forced place ≡ Some result }
    {
        self.forced[place as usize]
    }

    /// The levels that the places show, of which the plane has these bits.
    pub(crate) fn shown(&self, bits: Vec4) -> Vec8
        requires { length bits ≡ length self.now.forced }
        ensures { result ≡ held_levels (held_by self.now bits) }
    {
        let driven = self.driven(bits);
        if self.any {
            shown(driven, self.forced.as_slice())
        } else {
            driven
        }
    }

    /// Drives the places otherwise. The levels that they show.
    pub(crate) fn drive(&mut self, levels: Vec8) -> Vec8
        requires { length levels ≡ length self.old.forced }
        ensures value { KeepsValue self.new (record { driven = levels; forced = self.old.forced }) }
        ensures shown { result ≡ held_levels (record { driven = levels; forced = self.old.forced }) }
    {
        if self.any {
            self.levels = Some(levels);
            shown(levels, self.forced.as_slice())
        } else {
            self.levels = beside_bits(levels);
            levels
        }
    }

    /// Forces every place, of which the plane has these bits. The levels that they show.
    pub(crate) fn force(&mut self, bits: Vec4, levels: Vec8) -> Vec8
        requires bits { length bits ≡ length self.old.forced }
        requires levels { length levels ≡ length self.old.forced }
        ensures value { KeepsValue self.new (forcing levels (held_by self.old bits)) }
        ensures shown { result ≡ held_levels (forcing levels (held_by self.old bits)) }
        ensures forced { self.new.forced ≡ map Some levels }
    {
        self.levels = Some(self.driven(bits));
        force_all(self.forced.as_mut_slice(), levels);
        self.any = true;
        levels
    }

    /// Forces so many places from a base on no longer, of which the plane has these bits. With `keep` they are driven as they
    /// were forced. The levels that they show.
    pub(crate) fn release(&mut self, bits: Vec4, base: u8, width: u8, keep: bool) -> Vec8
        requires bits { length bits ≡ length self.old.forced }
        requires places { length self.old.forced ≤ 128 }
        ensures value { KeepsValue self.new (released base width keep (held_by self.old bits)) }
        ensures shown { result ≡ held_levels (released base width keep (held_by self.old bits)) }
    {
        let driven = released(self.driven(bits), self.forced.as_slice(), base, width, keep);
        release_some(self.forced.as_mut_slice(), base, width);
        self.any = is_any(self.forced.as_slice());
        self.levels = Some(driven);
        self.drive(driven)
    }
}
