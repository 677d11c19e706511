//! The values of all items.

ghost use Rattle.std.specs.Prelude.{◌≡◌, ℕ, ◌+◌, ◌<◌, ◌≤◌, true, [], length, map, replicate, Option, Some, None, IfOk, is_some, slice_get, slice_set, slice_index_or};
ghost use Rattle.std.specs.List.{enumerate_from};
ghost use Rattle.four_state.specs.Vector.{overlaid};
ghost use Rattle.net_engine.specs.Net.{driven_of, forced_of, levels_of, array_of, request_of, seen, strongly, with_parts, with_word, with_request};
ghost use Rattle.net_engine.specs.Delivery.{forced_after, driven_after};
ghost use Rattle.net_engine.specs.Slots.{SlotNow, driving, forcing, released, IsPlain, IsChanged, IsKept, helds, driven_in, forced_in};
ghost use Rattle.net_engine.specs.Room.{last_request, no_request};
ghost use Rattle.net_engine.specs.Parts.{IsChange, HasBits, change_if, place_by_value};

use crate::slot::Slot;
use four_state::{Bit, Vec4};
use std::alloc::{AllocError, Global};
use std::marker::Model;
use strengths::{Level, Vec8, drive, seen};
use value_plane::Plane;

/// What an item was seen as, and what it is seen as.
#[derive(Clone, Copy)]
pub(crate) struct Change {
    pub(crate) old: Vec4,
    pub(crate) new: Vec4,
}

impl Change {
    /// A place for a change, before there is one.
    pub(crate) fn none() -> Change {
        let none = Vec4::splat(Bit::Unknown, 1);
        Change {
            old: none,
            new: none,
        }
    }
}

/// The words of an array, none for another item. Contracts see the list.
#[derive(Drop)]
pub(crate) struct Words {
    pub(crate) words: Vec<Vec4>,
}

impl Model for Words {
    ghost use Rattle.std.specs.Prelude.{List};
    ghost use Rattle.four_state.specs.declared.bits.Bit.{Bit};

    ghost Value = { List (List Bit) };

    ghost view = { λ w. w.words.items };
}

/// The last request of a net delay (IEEE 1364-2005, 7.14): its number, and the value that the delay is to follow, if there
/// is one.
#[derive(Clone, Copy)]
pub(crate) struct Request {
    pub(crate) serial: u64,
    pub(crate) kept: Option<Vec8>,
}

impl Model for Request {
    ghost use Rattle.net_engine.specs.Net.{Request};

    ghost Value = { Request };

    ghost view = { λ r. record { serial = r.serial; kept = r.kept } };

    ghost inverse = { λ r. record { serial = r.serial; kept = r.kept } };
}

/// Room for the last request of a net delay, and none for any other item. Contracts see the request, where there is room.
#[derive(Drop)]
pub(crate) struct Room {
    request: Option<Box<Request>>,
}

impl Model for Room {
    ghost use Rattle.std.specs.Prelude.{Option, option_map};
    ghost use Rattle.net_engine.specs.Net.{Request};

    ghost Value = { Option Request };

    ghost view = { λ r. option_map (λ b. b.value) r.request };
}

impl Room {
    /// Room for requests, of which none was made. The only error is want of memory.
    pub(crate) fn new(alloc: Global) -> Result<Room, AllocError>
        ensures { IfOk result (λ room. room ≡ Some no_request) }
    {
        let none = Request {
            serial: 0,
            kept: None,
        };
        Ok(Room {
            request: Some(Box::new(alloc, none)?),
        })
    }

    /// No room.
    pub(crate) fn none() -> Room
        ensures { result ≡ None }
    {
        Room { request: None }
    }

    // The last request; none was made where there is no room.
    fn last(&self) -> Request
        ensures { result ≡ last_request self.now }
    {
        match &self.request {
            Some(request) => **request,
            None => Request {
                serial: 0,
                kept: None,
            },
        }
    }

    // Makes a request.
    fn set(&mut self, request: Request)
        requires { is_some self.old ≡ true }
        ensures { self.new ≡ Some request }
    {
        match &mut self.request {
            Some(place) => **place = request,
            None => unreachable!(),
        }
    }
}

/// The values of all items, by item. Contracts see what drives each, what is forced on it, its words and its last request,
/// and whether it has room for a request, as each net delay has.
///
/// An item on which nothing is forced, and which bits drive as a variable is driven, has its value in the plane alone: a
/// change of it compares two vectors. The slot of any other item has the levels that drive it. How an item is kept changes
/// with what drives it and what is forced on it.
#[derive(Drop)]
pub(crate) struct Store {
    slots: Vec<Option<Slot>>,
    words: Vec<Words>,
    // A place for the last request of each net delay, from the start, so that asking takes no memory.
    requests: Vec<Room>,
    // The bits that each item is seen as, one x for an item without a value of its own.
    plane: Plane,
}

impl Model for Store {
    ghost use Rattle.std.specs.Prelude.{map, is_some};
    ghost use Rattle.net_engine.specs.Slots.{driven_in, forced_in, helds, IsKept};
    ghost use Rattle.net_engine.specs.Room.{StoreNow, last_request};

    ghost Value = { StoreNow };

    ghost view = { λ s. record {
      values = record {
        driven = map driven_in (helds s.slots.items s.plane);
        forced = map forced_in (helds s.slots.items s.plane);
        words = s.words.items;
        requests = map last_request s.requests.items;
      };
      room = map is_some s.requests.items;
    } };

    ghost invariant = { λ s. IsKept s.slots.items s.plane };
}

// An item shows `new` in place of `old`: puts it into the plane. Whether its levels changed, and then how it is seen.
fn show(plane: &mut Plane, item: u32, old: Vec8, new: Vec8, change: &mut Change) -> bool
    requires there { item < length plane.old }
    requires width { length new ≡ length (slice_index_or plane.old item []) }
    requires same { length new ≡ length old }
    ensures plane { plane.new ≡ slice_set plane.old item (seen new) }
    ensures change { IsChange (change_if result change.exit.now) old new }
    ensures bits { result ≡ true → HasBits change.exit.now }
{
    let bits = seen(new);
    plane.set(item, bits);
    if old == new {
        return false;
    }
    let _width = old.width();
    *change = Change {
        old: seen(old),
        new: bits,
    };
    true
}

// An item that shows its bits, driven strongly, is to show these: puts them into the plane. Whether they are others, and
// then how it is seen.
#[inline(always)]
fn show_bits(plane: &mut Plane, item: u32, bits: Vec4, change: &mut Change) -> bool
    requires there { item < length plane.old }
    requires width { length bits ≡ length (slice_index_or plane.old item []) }
    ensures plane { plane.new ≡ slice_set plane.old item bits }
    ensures change { IsChange (change_if result change.exit.now) (strongly (slice_index_or plane.old item [])) (strongly bits) }
    ensures bits { result ≡ true → HasBits change.exit.now }
{
    let old = plane.get(item);
    if old.eeq(bits) {
        return false;
    }
    plane.set(item, bits);
    let _width = bits.width();
    *change = Change { old, new: bits };
    true
}

// Whether the plane alone has the value of an item.
fn is_plain(slots: &[Option<Slot>], item: u32) -> bool
    requires { (slot : SlotNow) × (slice_get slots.now item ≡ Some (Some slot)) }
    ensures { result ≡ true → (slot : SlotNow) → slice_get slots.now item ≡ Some (Some slot) → IsPlain slot }
{
    match &slots[item as usize] {
        Some(slot) => slot.is_plain(),
        None => unreachable!(),
    }
}

// Drives an item otherwise, of which the plane has these bits. What it showed, and what it shows.
fn drive_at(slots: &mut [Option<Slot>], item: u32, bits: Vec4, levels: Vec8) -> (Vec8, Vec8)
    requires { (slot : SlotNow) × (slice_get slots.old item ≡ Some (Some slot)) × (length bits ≡ length slot.forced) × (length levels ≡ length slot.forced) }
    ensures { IsChanged (driving levels) slots.old slots.new item bits result.0 result.1 }
{
    match &mut slots[item as usize] {
        Some(slot) => {
            let old = slot.shown(bits);
            let new = slot.drive(levels);
            (old, new)
        }
        None => unreachable!(),
    }
}

// Forces every place of an item, of which the plane has these bits. What it showed, and what it shows.
fn force_at(slots: &mut [Option<Slot>], item: u32, bits: Vec4, levels: Vec8) -> (Vec8, Vec8)
    requires { (slot : SlotNow) × (slice_get slots.old item ≡ Some (Some slot)) × (length bits ≡ length slot.forced) × (length levels ≡ length slot.forced) }
    ensures { IsChanged (forcing levels) slots.old slots.new item bits result.0 result.1 }
{
    match &mut slots[item as usize] {
        Some(slot) => {
            let old = slot.shown(bits);
            let new = slot.force(bits, levels);
            (old, new)
        }
        None => unreachable!(),
    }
}

// Releases so many places of an item from a base on, of which the plane has these bits. What it showed, and what it shows.
fn release_at(
    slots: &mut [Option<Slot>],
    item: u32,
    bits: Vec4,
    base: u8,
    width: u8,
    keep: bool,
) -> (Vec8, Vec8)
    requires { (slot : SlotNow) × (slice_get slots.old item ≡ Some (Some slot)) × (length bits ≡ length slot.forced) × (length slot.forced ≤ 128) }
    ensures { IsChanged (released base width keep) slots.old slots.new item bits result.0 result.1 }
{
    match &mut slots[item as usize] {
        Some(slot) => {
            let old = slot.shown(bits);
            let new = slot.release(bits, base, width, keep);
            (old, new)
        }
        None => unreachable!(),
    }
}

impl Store {
    /// The values that these slots, words and requests have, with the plane that shows them.
    pub(crate) fn new(
        slots: Vec<Option<Slot>>,
        words: Vec<Words>,
        requests: Vec<Room>,
        plane: Plane,
    ) -> Store
        requires { IsKept slots.items plane }
        ensures { result ≡ record {
          values = record {
            driven = map driven_in (helds slots.items plane);
            forced = map forced_in (helds slots.items plane);
            words = words.items;
            requests = map last_request requests.items;
          };
          room = map is_some requests.items;
        } }
    {
        Store {
            slots,
            words,
            requests,
            plane,
        }
    }

    /// The bits that each item is seen as, one x for an item without a value of its own.
    pub(crate) fn plane(&self) -> &Plane
        ensures count { length result.now ≡ length self.now.values.driven }
        ensures places { (item : ℕ) → item < length self.now.values.driven → slice_get result.now item ≡ Some (place_by_value self.now.values item) }
    {
        &self.plane
    }

    /// The bits that an item is seen as.
    pub(crate) fn bits(&self, item: u32) -> Vec4
        requires { 1 ≤ length (driven_of self.now.values item) }
        ensures { result ≡ seen (levels_of self.now.values item) }
    {
        self.plane.get(item)
    }

    /// How many bits an item has.
    pub(crate) fn width(&self, item: u32) -> u8
        requires { 1 ≤ length (driven_of self.now.values item) }
        ensures { result ≡ length (driven_of self.now.values item) }
    {
        self.plane.get(item).width()
    }

    /// Whether an item shows the bits that it is seen as, driven as a variable drives them, by what the plane alone tells.
    pub(crate) fn is_strong(&self, item: u32) -> bool
        requires { 1 ≤ length (driven_of self.now.values item) }
        ensures { result ≡ true → strongly (seen (levels_of self.now.values item)) ≡ levels_of self.now.values item }
    {
        is_plain(self.slots.as_slice(), item)
    }

    /// What drives an item.
    pub(crate) fn driven(&self, item: u32) -> Vec8
        requires { 1 ≤ length (driven_of self.now.values item) }
        ensures { result ≡ driven_of self.now.values item }
    {
        match &self.slots[item as usize] {
            Some(slot) => slot.driven(self.plane.get(item)),
            None => unreachable!(),
        }
    }

    /// The bits that what drives an item is seen as.
    pub(crate) fn driven_bits(&self, item: u32) -> Vec4
        requires { 1 ≤ length (driven_of self.now.values item) }
        ensures { result ≡ seen (driven_of self.now.values item) }
    {
        match &self.slots[item as usize] {
            Some(slot) => slot.driven_bits(self.plane.get(item)),
            None => unreachable!(),
        }
    }

    /// The levels that an item shows.
    pub(crate) fn shown(&self, item: u32) -> Vec8
        requires { 1 ≤ length (driven_of self.now.values item) }
        ensures { result ≡ levels_of self.now.values item }
    {
        match &self.slots[item as usize] {
            Some(slot) => slot.shown(self.plane.get(item)),
            None => unreachable!(),
        }
    }

    /// What is forced on a place of an item.
    pub(crate) fn forced(&self, item: u32, place: u8) -> Option<Level>
        requires { place < length (forced_of self.now.values item) }
        ensures { slice_get (forced_of self.now.values item) place ≡ Some result }
    {
        match &self.slots[item as usize] {
            Some(slot) => slot.forced(place),
            None => unreachable!(),
        }
    }

    /// Drives an item with bits, as a variable drives them. Where the plane alone has its value, two vectors are compared.
    /// Whether its levels changed; `change` says then how it is seen.
    #[inline(always)]
    pub(crate) fn drive_bits(&mut self, item: u32, bits: Vec4, change: &mut Change) -> bool
        requires there { 1 ≤ length (driven_of self.old.values item) }
        requires width { length bits ≡ length (driven_of self.old.values item) }
        ensures values { self.new.values ≡ with_parts item (strongly bits) (forced_of self.old.values item) self.old.values }
        ensures change { IsChange (change_if result change.exit.now) (levels_of self.old.values item) (levels_of self.new.values item) }
        ensures bits { result ≡ true → HasBits change.exit.now }
        ensures room { self.new.room ≡ self.old.room }
    {
        if is_plain(self.slots.as_slice(), item) {
            show_bits(&mut self.plane, item, bits, change)
        } else {
            self.drive_strongly(item, bits, change)
        }
    }

    // Drives an item with the levels of bits. It stands out of line, so that a change of bits alone pays nothing for it.
    #[inline(never)]
    fn drive_strongly(&mut self, item: u32, bits: Vec4, change: &mut Change) -> bool
        requires there { 1 ≤ length (driven_of self.old.values item) }
        requires width { length bits ≡ length (driven_of self.old.values item) }
        ensures values { self.new.values ≡ with_parts item (strongly bits) (forced_of self.old.values item) self.old.values }
        ensures change { IsChange (change_if result change.exit.now) (levels_of self.old.values item) (levels_of self.new.values item) }
        ensures bits { result ≡ true → HasBits change.exit.now }
        ensures room { self.new.room ≡ self.old.room }
    {
        self.drive_levels(item, drive(bits, 6, 6), change)
    }

    /// Drives an item with levels. Whether its levels changed; `change` says then how it is seen.
    pub(crate) fn drive_levels(&mut self, item: u32, levels: Vec8, change: &mut Change) -> bool
        requires there { 1 ≤ length (driven_of self.old.values item) }
        requires width { length levels ≡ length (driven_of self.old.values item) }
        ensures values { self.new.values ≡ with_parts item levels (forced_of self.old.values item) self.old.values }
        ensures change { IsChange (change_if result change.exit.now) (levels_of self.old.values item) (levels_of self.new.values item) }
        ensures bits { result ≡ true → HasBits change.exit.now }
        ensures room { self.new.room ≡ self.old.room }
    {
        let bits = self.plane.get(item);
        let (old, new) = drive_at(self.slots.as_mut_slice(), item, bits, levels);
        show(&mut self.plane, item, old, new, change)
    }

    /// Forces every place of an item, as strongly as a variable drives. Whether its levels changed; `change` says then how
    /// it is seen.
    pub(crate) fn force(&mut self, item: u32, value: Vec4, change: &mut Change) -> bool
        requires there { 1 ≤ length (driven_of self.old.values item) }
        requires width { length value ≡ length (driven_of self.old.values item) }
        ensures values { self.new.values ≡ with_parts item (driven_of self.old.values item) (map Some (strongly value)) self.old.values }
        ensures change { IsChange (change_if result change.exit.now) (levels_of self.old.values item) (levels_of self.new.values item) }
        ensures bits { result ≡ true → HasBits change.exit.now }
        ensures room { self.new.room ≡ self.old.room }
    {
        let bits = self.plane.get(item);
        let (old, new) = force_at(self.slots.as_mut_slice(), item, bits, drive(value, 6, 6));
        show(&mut self.plane, item, old, new, change)
    }

    /// Releases so many places of an item from a base on; with `keep` they are driven as they were forced. Whether its
    /// levels changed; `change` says then how it is seen.
    pub(crate) fn release(
        &mut self,
        item: u32,
        base: u8,
        width: u8,
        keep: bool,
        change: &mut Change,
    ) -> bool
        requires there { 1 ≤ length (driven_of self.old.values item) }
        ensures values { self.new.values ≡ with_parts item (driven_after base width keep self.old.values item)
            (map (forced_after base width) (enumerate_from 0 (forced_of self.old.values item))) self.old.values }
        ensures change { IsChange (change_if result change.exit.now) (levels_of self.old.values item) (levels_of self.new.values item) }
        ensures bits { result ≡ true → HasBits change.exit.now }
        ensures room { self.new.room ≡ self.old.room }
    {
        let bits = self.plane.get(item);
        let (old, new) = release_at(self.slots.as_mut_slice(), item, bits, base, width, keep);
        show(&mut self.plane, item, old, new, change)
    }

    /// A word of an array.
    pub(crate) fn word(&self, array: u32, word: u32) -> Vec4
        requires { word < length (array_of self.now.values array) }
        ensures { slice_get (array_of self.now.values array) word ≡ Some result }
    {
        self.words[array as usize].words[word as usize]
    }

    /// A value is laid over a word of an array, from a place up.
    pub(crate) fn lay_over(&mut self, array: u32, word: u32, offset: i64, value: Vec4)
        requires { word < length (array_of self.old.values array) }
        ensures values { self.new.values ≡ with_word array word (overlaid (slice_index_or (array_of self.old.values array) word []) offset value) self.old.values }
        ensures room { self.new.room ≡ self.old.room }
    {
        let words = &mut self.words[array as usize];
        words.words[word as usize] = words.words[word as usize].put(offset, value);
    }

    /// The last request of a net delay.
    pub(crate) fn request(&self, item: u32) -> Request
        requires { item < length self.now.values.requests }
        ensures { result ≡ request_of self.now.values item }
    {
        self.requests[item as usize].last()
    }

    /// Makes a request of a net delay.
    pub(crate) fn set_request(&mut self, item: u32, request: Request)
        requires { slice_get self.old.room item ≡ Some true }
        ensures values { self.new.values ≡ with_request item request self.old.values }
        ensures room { self.new.room ≡ self.old.room }
    {
        self.requests[item as usize].set(request);
    }
}
