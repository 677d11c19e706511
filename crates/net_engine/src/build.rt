//! How a net is built.

ghost use Rattle.std.specs.Prelude.{◌≡◌, ℕ, ◌+◌, ◌<◌, ◌≤◌, ◌^◌, false, List, [], ◌∷◌, ◌++◌, length, map, filter_map, replicate, All, IfOk, OnOk, slice_get, slice_set, slice_index_or, Some};
ghost use Rattle.std.specs.List.{enumerate_from};
ghost use Rattle.four_state.specs.declared.bits.Bit.TheVariants.{Unknown};
ghost use Rattle.sym_link.specs.Roots.{Node, node_of, nodes_of, lists};
ghost use Rattle.sym_link.specs.Sound.{IsProgram, IsItem};
ghost use Rattle.net_engine.specs.Net.{first_driven_by, first_words, first_values};
ghost use Rattle.net_engine.specs.Kept.{has_output};
ghost use Rattle.net_engine.specs.Readers.{driven_ports, listeners_of};
ghost use Rattle.net_engine.specs.Room.{first_room, HasRoom};
ghost use Rattle.net_engine.specs.Slots.{HasPlaces, helds};
ghost use Rattle.net_engine.specs.Built.{first_levels, first_slot, first_place, IsFirst, IsSized, AreEvents, events_of, is_last, once, IsListing};

use crate::design::{Design, Row};
use crate::inputs::inputs_of;
use crate::slot::Slot;
use crate::store::{Room, Store, Words};
use four_state::{Bit, Vec4};
use gate_rules::start_value;
use port_chain::Fanout;
use std::alloc::{AllocError, Global};
use strengths::{Vec8, drive, seen};
use sym_link::{Item, ItemKind, Numbers, Program, Source, Sources};
use value_plane::Plane;

// A copy of some numbers.
fn copy_numbers(alloc: Global, numbers: &Numbers) -> Result<Numbers, AllocError>
    ensures { IfOk result (λ copy. copy ≡ numbers.now) }
{
    let from = numbers.as_slice();
    let mut copy = Numbers::new(alloc);
    'numbers: for i in 0..from.len() {
        copy.push(from[i])?;
    }
    Ok(copy)
}

// A copy of a source.
fn copy_source(source: &Source) -> Source
    ensures { result ≡ source.now }
{
    match source {
        Source::Unused => Source::Unused,
        Source::Item(item) => Source::Item(*item),
        Source::Fixed(bits) => Source::Fixed(*bits),
    }
}

// Equal sources of four ports.
fn copied_sources(sources: &[Source; 4]) -> [Source; 4]
    ensures { result ≡ sources.now }
{
    [
        copy_source(&sources[0]),
        copy_source(&sources[1]),
        copy_source(&sources[2]),
        copy_source(&sources[3]),
    ]
}

// A copy of the sources of four ports. The only error is want of memory.
fn copy_sources(alloc: Global, sources: &Sources) -> Result<Sources, AllocError>
    ensures { IfOk result (λ copy. copy ≡ sources.now) }
{
    Sources::new(alloc, copied_sources(sources.as_array()))
}

// A copy of what an item is.
fn copy_kind(alloc: Global, kind: &ItemKind) -> Result<ItemKind, AllocError>
    ensures { IfOk result (λ copy. copy ≡ kind.now) }
{
    Ok(match kind {
        ItemKind::Var { integer } => ItemKind::Var { integer: *integer },
        ItemKind::Net { root } => ItemKind::Net { root: *root },
        ItemKind::Functor { gate, drive, ports } => ItemKind::Functor {
            gate: *gate,
            drive: *drive,
            ports: copy_sources(alloc, ports)?,
        },
        ItemKind::Edge { kind, ports } => ItemKind::Edge {
            kind: *kind,
            ports: copy_sources(alloc, ports)?,
        },
        ItemKind::Named => ItemKind::Named,
        ItemKind::AnyOf(events) => ItemKind::AnyOf(copy_numbers(alloc, events)?),
        ItemKind::Array { words } => ItemKind::Array { words: *words },
        ItemKind::Scope(scope) => ItemKind::Scope(*scope),
        ItemKind::Param => ItemKind::Param,
        ItemKind::Delay {
            rise,
            fall,
            decay,
            port,
        } => ItemKind::Delay {
            rise: *rise,
            fall: *fall,
            decay: *decay,
            port: *port,
        },
    })
}

// What a run knows of each item.
fn rows_of(alloc: Global, items: &[Item]) -> Result<Vec<Row>, AllocError>
    ensures { IfOk result (λ rows. rows.items ≡ map node_of items.now) }
{
    let mut rows = Vec::with_capacity(alloc, items.len())?;
    'items: for i in 0..items.len() {
        rows.push(Row {
            width: items[i].width,
            what: copy_kind(alloc, &items[i].what)?,
        })?;
    }
    Ok(rows)
}

// An item lists one more event, which stands once among those that the event's list has.
fn list_one(listeners: &mut [Numbers], item: u32, event: u32) -> Result<(), AllocError>
    requires { event < length listeners.old }
    ensures { OnOk result (listeners.new ≡ slice_set listeners.old event (once (slice_index_or listeners.old event []) item)) }
{
    add_once(&mut listeners[event as usize], item)
}

// One number more, at the end, unless it is the last already.
fn add_once(numbers: &mut Numbers, number: u32) -> Result<(), AllocError>
    ensures { OnOk result (numbers.new ≡ once numbers.old number) }
{
    if is_last(numbers, number) {
        return Ok(());
    }
    numbers.push(number)
}

// Whether a number is the last.
fn is_last(numbers: &Numbers, number: u32) -> bool
    ensures { result ≡ is_last numbers.now number }
{
    match numbers.as_slice().last() {
        Some(last) => *last == number,
        None => false,
    }
}

// An item lists some events, each once.
fn list_all(listeners: &mut [Numbers], item: u32, events: &[u32]) -> Result<(), AllocError>
    requires events { All (λ event. event < length listeners.old) events.now }
    requires fresh { (event : ℕ) → event < length listeners.old → is_last (slice_index_or listeners.old event []) item ≡ false }
    ensures { OnOk result (IsListing listeners.old listeners.new item events.now) }
{
    'events: for i in 0..events.len() {
        list_one(listeners, item, events[i])?;
    }
    Ok(())
}

// An item lists the events of its kind.
fn list_item(listeners: &mut [Numbers], item: u32, kind: &ItemKind) -> Result<(), AllocError>
    requires events { AreEvents (length listeners.old) kind.now }
    requires fresh { (event : ℕ) → event < length listeners.old → is_last (slice_index_or listeners.old event []) item ≡ false }
    ensures { OnOk result (IsListing listeners.old listeners.new item (events_of kind.now)) }
{
    match kind {
        ItemKind::AnyOf(events) => list_all(listeners, item, events.as_slice()),
        _ => Ok(()),
    }
}

// So many empty lists.
fn no_listeners(alloc: Global, count: usize) -> Result<Vec<Numbers>, AllocError>
    ensures { IfOk result (λ lists. lists.items ≡ replicate count []) }
{
    let mut listeners = Vec::with_capacity(alloc, count)?;
    'items: for _at in 0..count {
        listeners.push(Numbers::new(alloc))?;
    }
    Ok(listeners)
}

// Of each item the events that list it, in file order.
fn all_listeners(alloc: Global, items: &[Item]) -> Result<Vec<Numbers>, AllocError>
    requires few { length items.now ≤ 2 ^ 20 }
    requires events { All (λ item. AreEvents (length items.now) item.what) items.now }
    ensures { IfOk result (λ lists. lists.items ≡ map (λ event. listeners_of (map node_of items.now) event.0) (enumerate_from 0 (map node_of items.now))) }
{
    let mut listeners = no_listeners(alloc, items.len())?;
    'items: for i in 0..items.len() {
        list_item(listeners.as_mut_slice(), i as u32, &items[i].what)?;
    }
    Ok(listeners)
}

/// The design of a program.
pub(crate) fn design_of<F: Fanout + Drop>(
    alloc: Global,
    program: &Program,
    fan: F,
) -> Result<Design<F>, AllocError>
    requires program { IsProgram program.now }
    requires nodes { F.nodes fan ≡ length program.now.items }
    requires pairs { (item : ℕ) → item < length program.now.items → F.pairs fan item ≡ driven_ports (nodes_of program.now) item }
    ensures { IfOk result (λ design. design ≡ nodes_of program.now) }
{
    let items = program.items.as_slice();
    let rows = rows_of(alloc, items)?;
    let inputs = inputs_of(alloc, rows.as_slice())?;
    let listeners = all_listeners(alloc, items)?;
    Ok(Design::new(fan, rows, listeners, inputs))
}

// What drives an item before anything has happened: x, by the strengths that it drives with.
fn first_levels(item: &Item) -> Option<Vec8>
    requires { IsSized (node_of item.now) }
    ensures { result ≡ first_levels (node_of item.now) item.now.what }
{
    match &item.what {
        ItemKind::Var { .. } => Some(drive(Vec4::splat(Bit::Unknown, item.width), 6, 6)),
        ItemKind::Delay { .. } => Some(drive(Vec4::splat(Bit::Unknown, item.width), 6, 6)),
        ItemKind::Functor { gate, drive, .. } => Some(start_value(gate, item.width, *drive)),
        _ => None,
    }
}

// The value of an item before anything has happened.
fn first_slot(alloc: Global, item: &Item) -> Result<Option<Slot>, AllocError>
    requires { IsSized (node_of item.now) }
    ensures value { IfOk result (λ slot. IsFirst slot (node_of item.now)) }
    ensures places { HasPlaces (first_slot (node_of item.now)) }
{
    match first_levels(item) {
        Some(levels) => Ok(Some(Slot::new(alloc, levels)?)),
        None => Ok(None),
    }
}

// So many words that are x.
fn unknown_words(alloc: Global, words: u32, width: u8) -> Result<Words, AllocError>
    requires least { 1 ≤ width }
    requires most { width ≤ 128 }
    ensures { IfOk result (λ list. list ≡ replicate words (replicate width Unknown)) }
{
    Ok(Words {
        words: vec![in alloc; Vec4::splat(Bit::Unknown, width); words as usize]?,
    })
}

// The words of an item before anything has happened.
fn first_words(alloc: Global, item: &Item) -> Result<Words, AllocError>
    requires { IsSized (node_of item.now) }
    ensures { IfOk result (λ words. words ≡ first_words (node_of item.now) item.now.what) }
{
    match &item.what {
        ItemKind::Array { words } => unknown_words(alloc, *words, item.width),
        _ => Ok(Words {
            words: Vec::new(alloc),
        }),
    }
}

// The values of all items before anything has happened.
fn all_slots(alloc: Global, items: &[Item]) -> Result<Vec<Option<Slot>>, AllocError>
    requires { All (λ item. IsSized (node_of item)) items.now }
    ensures count { IfOk result (λ slots. length slots.items ≡ length items.now) }
    ensures values { IfOk result (λ slots. helds slots.items (map first_place (map node_of items.now)) ≡ map first_slot (map node_of items.now)) }
    ensures places { IfOk result (λ slots. All HasPlaces (map first_slot (map node_of items.now))) }
{
    let mut slots = Vec::with_capacity(alloc, items.len())?;
    'items: for i in 0..items.len() {
        slots.push(first_slot(alloc, &items[i])?)?;
    }
    Ok(slots)
}

// The words of all items before anything has happened.
fn all_words(alloc: Global, items: &[Item]) -> Result<Vec<Words>, AllocError>
    requires { All (λ item. IsSized (node_of item)) items.now }
    ensures { IfOk result (λ words. words.items ≡ map (λ node. first_words node node.what) (map node_of items.now)) }
{
    let mut words = Vec::with_capacity(alloc, items.len())?;
    'items: for i in 0..items.len() {
        words.push(first_words(alloc, &items[i])?)?;
    }
    Ok(words)
}

// Room for the requests of a net delay, of which none was made, and none for any other item.
fn first_room(alloc: Global, item: &Item) -> Result<Room, AllocError>
    ensures { IfOk result (λ room. room ≡ first_room (node_of item.now)) }
{
    match &item.what {
        ItemKind::Delay { .. } => Room::new(alloc),
        _ => Ok(Room::none()),
    }
}

// Room for the requests of all net delays.
fn all_rooms(alloc: Global, items: &[Item]) -> Result<Vec<Room>, AllocError>
    ensures { IfOk result (λ rooms. rooms.items ≡ map first_room (map node_of items.now)) }
{
    let mut rooms = Vec::with_capacity(alloc, items.len())?;
    'items: for i in 0..items.len() {
        rooms.push(first_room(alloc, &items[i])?)?;
    }
    Ok(rooms)
}

// The width of an item's place in the plane.
fn place_width(item: &Item) -> u8
    requires { IsSized (node_of item.now) }
    ensures value { result ≡ length (first_place (node_of item.now)) }
    ensures least { 1 ≤ result }
    ensures most { result ≤ 128 }
{
    place_bits(item).width()
}

// The width of each item's place in the plane.
fn place_widths(alloc: Global, items: &[Item]) -> Result<Vec<u8>, AllocError>
    requires { All (λ item. IsSized (node_of item)) items.now }
    ensures widths { IfOk result (λ widths. widths.items ≡ map length (map first_place (map node_of items.now))) }
    ensures least { IfOk result (λ widths. All (λ width. 1 ≤ width) widths.items) }
    ensures most { IfOk result (λ widths. All (λ width. width ≤ 128) widths.items) }
{
    let mut widths = Vec::with_capacity(alloc, items.len())?;
    'items: for i in 0..items.len() {
        widths.push(place_width(&items[i]))?;
    }
    Ok(widths)
}

// The bits that an item has in the plane before anything has happened.
fn place_bits(item: &Item) -> Vec4
    requires { IsSized (node_of item.now) }
    ensures { result ≡ first_place (node_of item.now) }
{
    match first_levels(item) {
        Some(levels) => seen(levels),
        None => Vec4::splat(Bit::Unknown, 1),
    }
}

// The plane before anything has happened.
fn first_plane(alloc: Global, items: &[Item]) -> Result<Plane, AllocError>
    requires few { length items.now ≤ 2 ^ 20 }
    requires sized { All (λ item. IsSized (node_of item)) items.now }
    ensures { IfOk result (λ plane. plane ≡ map first_place (map node_of items.now)) }
{
    let widths = place_widths(alloc, items)?;
    let mut plane = Plane::new(alloc, widths.as_slice())?;
    'items: for i in 0..items.len() {
        plane.set(i as u32, place_bits(&items[i]));
    }
    Ok(plane)
}

/// The values of a program's items before anything has happened.
pub(crate) fn store_of(alloc: Global, program: &Program) -> Result<Store, AllocError>
    requires { IsProgram program.now }
    ensures values { IfOk result (λ store. store.values ≡ first_values (nodes_of program.now)) }
    ensures room { IfOk result (λ store. HasRoom (nodes_of program.now) store.room) }
{
    let items = program.items.as_slice();
    let slots = all_slots(alloc, items)?;
    let words = all_words(alloc, items)?;
    let requests = all_rooms(alloc, items)?;
    let plane = first_plane(alloc, items)?;
    Ok(Store::new(slots, words, requests, plane))
}

// Whether an item has an output.
fn has_output(kind: &ItemKind) -> bool
    ensures { result ≡ has_output kind.now }
{
    match kind {
        ItemKind::Functor { .. } => true,
        ItemKind::Delay { .. } => true,
        _ => false,
    }
}

/// A mark at each gate and net delay: its evaluation is pending at the start.
pub(crate) fn marks_of(alloc: Global, program: &Program) -> Result<Vec<bool>, AllocError>
    ensures { IfOk result (λ marks. marks.items ≡ map (λ node. has_output node.what) (nodes_of program.now)) }
{
    let items = program.items.as_slice();
    let mut marks = Vec::with_capacity(alloc, items.len())?;
    'items: for i in 0..items.len() {
        marks.push(has_output(&items[i].what))?;
    }
    Ok(marks)
}
