//! The arguments of a call, and their values.

ghost use Rattle.std.specs.Prelude.{◌≡◌, ◌<◌, ◌≤◌, ◌+◌, ◌/◌, ◌^◌, length, map, reverse, take, pos, List, ℕ, IsTrue, MatchOption, false, Some, slice_index_or, replicate, []};
ghost use Rattle.std.specs.List.{list_all};
ghost use Rattle.four_state.specs.declared.bits.Bit.TheVariants.{Unknown};
ghost use Rattle.four_state.specs.Planes.{places};
ghost use Rattle.four_state.specs.Vector.{part_of};
ghost use Rattle.text_format.specs.Steps.{shown_by};
ghost use Rattle.sys_tasks.specs.Arguments.{Sight, argument, argument_value, arguments, is_signed, scaled, short_time_value, sim_time_value, time_value, value_in, word_in};
ghost use Rattle.sys_tasks.specs.Conditions.{Answers, holds_value, is_array, is_shown, is_text, is_value};
ghost use Rattle.sys_tasks.specs.Kept.{items_of};
ghost use Rattle.sys_tasks.specs.Design.{place_with, signed_of, width_of};
ghost use Rattle.sys_tasks.specs.Dumped.{kind_of};

use crate::design::Entry;
use four_state::{Bit, Values, Vec4};
use text_format::{Argument, Arguments, Place};
use vvp_ops::Arg;

/// Ticks in units of a scale, rounded, halves up.
fn scaled(scale: u64, now: u64) -> u64
    requires { 1 ≤ scale }
    ensures { result ≡ scaled scale now }
{
    ((u128::from(now) + u128::from(scale / 2)) / u128::from(scale)) as u64
}

/// `$time`: the time in units of the scope.
pub(crate) fn time_value(scale: u64, now: u64) -> Vec4
    requires { 1 ≤ scale }
    ensures { result ≡ time_value scale now }
{
    Vec4::from_planes(u128::from(scaled(scale, now)), 0, 64)
}

/// `$stime`: its low 32 bits.
pub(crate) fn short_time_value(scale: u64, now: u64) -> Vec4
    requires { 1 ≤ scale }
    ensures { result ≡ short_time_value scale now }
{
    Vec4::from_planes(u128::from(scaled(scale, now)), 0, 32)
}

/// `$simtime`: the time in ticks.
pub(crate) fn sim_time_value(now: u64) -> Vec4
    ensures { result ≡ sim_time_value now }
{
    Vec4::from_planes(u128::from(now), 0, 64)
}

/// The declared sign of an item.
fn signed_of(entries: &[Entry], item: u32) -> bool
    ensures { result ≡ signed_of entries.now item }
{
    match entries.get(item as usize) {
        Some(entry) => entry.signed,
        None => false,
    }
}

/// The declared width of an item.
pub(crate) fn width_of(entries: &[Entry], item: u32) -> u8
    ensures { result ≡ width_of entries.now item }
{
    match entries.get(item as usize) {
        Some(entry) => entry.width,
        None => 0,
    }
}

/// Whether the value of an argument is signed.
fn is_signed(entries: &[Entry], arg: &Arg<u32>) -> bool
    ensures { result ≡ is_signed entries.now arg.now }
{
    match arg {
        Arg::Based { signed, .. } => *signed,
        Arg::Symbol(item) => signed_of(entries, *item),
        Arg::Stack { signed, .. } => *signed,
        Arg::Word { array, .. } => signed_of(entries, *array),
        Arg::Text(_) | Arg::Time | Arg::ShortTime | Arg::SimTime | Arg::Part { .. } => false,
    }
}

/// The bytes of an argument that is a text.
fn text_of(arg: &Arg<u32>) -> Option<&[u8]>
    ensures { MatchOption result (is_text arg.now ≡ false) (λ text. arg.now ≡ Arg.Text text.now) }
{
    match arg {
        Arg::Text(bytes) => Some(bytes.as_slice()),
        Arg::Based { .. }
        | Arg::Symbol(_)
        | Arg::Time
        | Arg::ShortTime
        | Arg::SimTime
        | Arg::Stack { .. }
        | Arg::Word { .. }
        | Arg::Part { .. } => None,
    }
}

/// The items that a call popped.
#[derive(Clone, Copy)]
pub(crate) enum Kept<'a> {
    /// As they lie on the stack.
    TopLast(&'a [Vec4]),
    /// As they were popped.
    TopFirst(&'a [Vec4]),
}

/// The arguments of a call, with what it sees. Contracts see what they show.
pub(crate) struct CallArgs<'a, V: Values> {
    pub(crate) args: &'a [Arg<u32>],
    pub(crate) entries: &'a [Entry],
    pub(crate) place: &'a Place,
    pub(crate) kept: Kept<'a>,
    pub(crate) now: u64,
    pub(crate) values: &'a V,
    ghost fits: { IsTrue (list_all (is_shown entries.now (items_of kept)) args.now) },
    ghost answers: { Answers entries.now (V.words_of values.now) },
    ghost scale: { 1 ≤ place.now.scale },
}

/// The value of an item that isn't an array.
fn item_value<V: Values>(entries: &[Entry], item: u32, values: &V) -> Vec4
    requires answers { Answers entries.now (V.words_of values.now) }
    requires there { IsTrue (holds_value (kind_of entries.now item)) }
    ensures { result ≡ value_in (V.words_of values.now) item }
{
    let _entry = entries.get(item as usize);
    values.value(item, 0)
}

/// A word of an array; all x where there is no such word.
fn word_value<V: Values>(entries: &[Entry], array: u32, index: u64, values: &V) -> Vec4
    requires answers { Answers entries.now (V.words_of values.now) }
    requires there { IsTrue (is_array (kind_of entries.now array)) }
    requires width { (1 ≤ width_of entries.now array) × (width_of entries.now array ≤ 128) }
    ensures { result ≡ word_in (V.words_of values.now) (width_of entries.now array) array index }
{
    let _entry = entries.get(array as usize);
    if index < u64::from(values.words(array)) {
        values.value(array, index as u32)
    } else {
        Vec4::splat(Bit::Unknown, width_of(entries, array))
    }
}

/// So many bits of a value from a place on; x outside.
fn part_value(value: Vec4, base: u64, width: u8) -> Vec4
    requires least { 1 ≤ width }
    requires most { width ≤ 128 }
    ensures { result ≡ part_of value (pos base) width }
{
    if base < u64::from(value.width()) {
        value.part(base as i64, width)
    } else {
        Vec4::splat(Bit::Unknown, width)
    }
}

/// The value of an argument that isn't a text. Of the place it takes the scale alone, in ticks.
pub(crate) fn argument_value<V: Values>(
    arg: &Arg<u32>,
    entries: &[Entry],
    scale: u64,
    kept: Kept<'_>,
    now: u64,
    values: &V,
) -> Vec4
    requires answers { Answers entries.now (V.words_of values.now) }
    requires fits { IsTrue (is_value entries.now (items_of kept) arg.now) }
    requires scale { 1 ≤ scale }
    ensures { result ≡ argument_value entries.now (record { words = V.words_of values.now; now = now; place = place_with [] scale; kept = items_of kept.entry }) arg.now }
{
    match arg {
        Arg::Based { value, .. } => *value,
        Arg::Symbol(item) => item_value(entries, *item, values),
        Arg::Time => time_value(scale, now),
        Arg::ShortTime => short_time_value(scale, now),
        Arg::SimTime => sim_time_value(now),
        Arg::Stack { place, .. } => item_at(kept, *place),
        Arg::Word { array, index } => word_value(entries, *array, *index, values),
        Arg::Part { item, base, width } => {
            part_value(item_value(entries, *item, values), *base, *width as u8)
        }
        Arg::Text(_) => Vec4::splat(Bit::Zero, 1),
    }
}

/// The item at a place from the top.
pub(crate) fn item_at(kept: Kept<'_>, place: u64) -> Vec4
    requires { place < length (items_of kept) }
    ensures { result ≡ slice_index_or (items_of kept.entry) place [] }
{
    match kept {
        Kept::TopLast(items) => items[items.len() - 1 - place as usize],
        Kept::TopFirst(items) => items[place as usize],
    }
}

impl<V: Values> Drop for CallArgs<'_, V> {
    fn drop(self) {
        let CallArgs {
            args: _,
            entries: _,
            place: _,
            kept: _,
            now: _,
            values: _,
        } = self;
    }
}

impl<V: Values> Arguments for CallArgs<'_, V> {
    ghost shown = { λ c. arguments c.entries.now (record { words = V.words_of c.values.now; now = c.now; place = c.place.now; kept = items_of c.kept }) c.args.now };

    fn count(&self) -> usize {
        self.args.len()
    }

    fn argument(&self, i: usize) -> Argument<'_> {
        match self.args.get(i) {
            None => Argument::Text(b""),
            Some(arg) => match text_of(arg) {
                Some(text) => Argument::Text(text),
                None => Argument::Value {
                    value: argument_value(
                        arg,
                        self.entries,
                        self.place.scale,
                        self.kept,
                        self.now,
                        self.values,
                    ),
                    signed: is_signed(self.entries, arg),
                },
            },
        }
    }
}
