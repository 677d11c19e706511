//! A net.

ghost use Rattle.std.specs.Prelude.{◌≡◌, ℕ, ◌+◌, ◌-◌, ◌<◌, ◌≤◌, ◌^◌, true, [], Option, List, length, map, Some, None, IfOk, slice_get, slice_index_or};
ghost use Rattle.four_state.specs.declared.bits.Bit.{Bit};
ghost use Rattle.four_state.specs.Vector.{overlaid};
ghost use Rattle.sym_link.specs.Roots.{Node, nodes_of, kind_of};
ghost use Rattle.sym_link.specs.Sound.{IsProgram};
ghost use Rattle.vvp_threads.specs.Runs.{HasRuns};
ghost use Rattle.strengths.specs.Interval.{Interval};
ghost use Rattle.net_engine.specs.Net.{with_request, words_of, value_of, driven_of, forced_of, request_of, strongly, first_values};
ghost use Rattle.net_engine.specs.Delivery.{write, eval, mature, force, release, trigger, change, variable_assigned, asked, asked_anew, follows_after, postponed};
ghost use Rattle.net_engine.specs.Kept.{Fits, FitsBut, Delivers, IsWritable, IsDelay, HasOutput, has_output, evals_lacking};
ghost use Rattle.net_engine.specs.Inputs.{IsSingle};
ghost use Rattle.net_engine.specs.Readers.{driven_ports};
ghost use Rattle.net_engine.specs.Parts.{plane_of, HasLevels, HasValue, AreWide, AsksAtMost, IsGateKind, keeps};

use crate::build::{design_of, marks_of, store_of};
use crate::deliver::{follow, trigger};
use crate::design::Design;
use crate::inputs::Inputs;
use crate::outputs::{bits_output, is_told_by_bits, levels_output, pair_output, single_output};
use crate::store::{Change, Request, Store};
use crate::times::Times;
use event_pool::{Act, Agenda, Due, Region};
use four_state::{Values, Vec4};
use port_chain::Fanout;
use std::alloc::{AllocError, Global};
use std::marker::Model;
use strengths::{Level, Vec8};
use sym_link::{ItemKind, Program};
use value_plane::Plane;
use vvp_threads::Threads;

/// The values of a design's items, and a mark at each gate and net delay that has an evaluation pending. Contracts see the
/// items, the values and the marks.
///
/// The calls that change a value take the agenda and the threads of the run, which fit the net: one evaluation is pending of
/// each item that is marked and none of any other, the agenda has room for one of each other gate and net delay and for a
/// `Run` of each live thread without one, and there are as many events as items. They leave the three so. None takes memory.
#[derive(Drop)]
pub struct Net<F: Fanout + Drop> {
    design: Design<F>,
    store: Store,
    marks: Vec<bool>,
    // What an evaluation has at its ports, and what changed last. Each call overwrites them, so that none makes its own.
    ports: [Option<Vec4>; 4],
    latest: Change,
}

impl<F: Fanout + Drop> Model for Net<F> {
    ghost use Rattle.net_engine.specs.Kept.{NetNow};
    ghost use Rattle.net_engine.specs.Parts.{IsNet};
    ghost use Rattle.net_engine.specs.Room.{HasRoom};

    ghost Value = { NetNow };

    ghost view = { λ n. record { nodes = n.design; values = n.store.values; marks = n.marks.items } };

    ghost invariant = { λ n. IsNet n.design n.store.values n.marks.items × HasRoom n.design n.store.room };
}

// Whether a value that is laid over so many bits, from the place `offset` up, takes the place of all of them.
fn covers(offset: i64, value: &Vec4, width: u8) -> bool
    ensures value { result ≡ true → (bits : List Bit) → length bits ≡ width → overlaid bits offset value.now ≡ value.now }
    ensures width { result ≡ true → length value.now ≡ width }
{
    if offset == 0 {
        value.width() == width
    } else {
        false
    }
}

// Whether a request keeps these levels.
fn keeps(request: Request, wanted: Vec8) -> bool
    ensures { result ≡ keeps wanted request.kept }
{
    match request.kept {
        Some(kept) => wanted == kept,
        None => false,
    }
}

impl<F: Fanout + Drop> Net<F> {
    /// The net of a program's items at the start: each value is x, nothing is forced, no net delay was asked, and each gate
    /// and net delay is marked. `fan` has the readers of these items. The only error is want of memory.
    pub fn build(alloc: Global, program: &Program, fan: F) -> Result<Net<F>, AllocError>
        requires program { IsProgram program.now }
        requires nodes { F.nodes fan ≡ length program.now.items }
        requires pairs { (item : ℕ) → item < length program.now.items → F.pairs fan item ≡ driven_ports (nodes_of program.now) item }
        ensures nodes { IfOk result (λ net. net.nodes ≡ nodes_of program.now) }
        ensures values { IfOk result (λ net. net.values ≡ first_values (nodes_of program.now)) }
        ensures marks { IfOk result (λ net. net.marks ≡ map (λ node. has_output node.what) (nodes_of program.now)) }
    {
        Ok(Net {
            design: design_of(alloc, program, fan)?,
            store: store_of(alloc, program)?,
            marks: marks_of(alloc, program)?,
            ports: [None, None, None, None],
            latest: Change::none(),
        })
    }

    /// Does nothing. Tells that each item's values are as wide as the item.
    #[inline]
    pub fn widths(&self)
        ensures { AreWide self.now.nodes self.now.values }
    {
        let _marks = &self.marks;
    }

    /// A word of an item: word 0 of a variable, a net, a gate or a net delay, or a word of an array.
    pub fn read(&self, item: u32, word: u32) -> Vec4
        requires { word < length (words_of self.now.nodes self.now.values item) }
        ensures { slice_get (words_of self.now.nodes self.now.values item) word ≡ Some result }
    {
        match self.design.kind(item) {
            ItemKind::Array { .. } => self.store.word(item, word),
            _ => self.store.bits(self.design.root(item)),
        }
    }

    /// The values by item, a place each: the bits that a variable, a gate or a net delay is seen as, and one x for any other
    /// item. The value of a net stands at the item that it is a name for.
    pub fn plane(&self) -> &Plane
        ensures { result.now ≡ plane_of self.now.nodes self.now.values }
    {
        self.store.plane()
    }

    /// The levels that a variable, a net, a gate or a net delay shows.
    pub fn levels(&self, item: u32) -> Vec8
        requires { HasLevels (kind_of self.now.nodes item) }
        ensures { result ≡ value_of self.now.nodes self.now.values item }
    {
        self.store.shown(self.design.root(item))
    }

    /// What drives a variable, a gate or a net delay.
    pub fn driven(&self, item: u32) -> Vec8
        requires { HasValue (kind_of self.now.nodes item) }
        ensures { result ≡ driven_of self.now.values item }
    {
        self.store.driven(item)
    }

    /// What is forced on a place of a variable, a gate or a net delay. None exactly where the place isn't forced.
    pub fn forced(&self, item: u32, place: u8) -> Option<Level>
        requires item { HasValue (kind_of self.now.nodes item) }
        requires place { place < length (forced_of self.now.values item) }
        ensures { slice_get (forced_of self.now.values item) place ≡ Some result }
    {
        self.store.forced(item, place)
    }

    /// The number of the last request of a net delay, and the value that it is to follow.
    pub fn delay_state(&self, item: u32) -> (u64, Option<Vec8>)
        requires { IsDelay (kind_of self.now.nodes item) }
        ensures serial { result.0 ≡ (request_of self.now.values item).serial }
        ensures kept { result.1 ≡ (request_of self.now.values item).kept }
    {
        let request = self.store.request(item);
        (request.serial, request.kept)
    }

    // An item is driven with other bits, as a variable is driven.
    #[inline(always)]
    fn change_bits<A: Agenda>(
        &mut self,
        item: u32,
        bits: Vec4,
        agenda: &mut A,
        threads: &mut Threads,
    )
        requires fits { Fits self.old threads.old (A.schedule agenda.old) }
        requires there { 1 ≤ length (driven_of self.old.values item) }
        requires width { length bits ≡ length (driven_of self.old.values item) }
        ensures state { Delivers (change self.old.nodes item (strongly bits)) self.old self.new threads.old threads.new (A.schedule agenda.old) (A.schedule agenda.new) }
        ensures requests { self.new.values.requests ≡ self.old.values.requests }
    {
        let changed = self.store.drive_bits(item, bits, &mut self.latest);
        follow(
            &self.design,
            self.marks.as_mut_slice(),
            item,
            changed,
            &self.latest,
            agenda,
            threads,
        );
    }

    // An item is driven with other levels.
    fn change_levels<A: Agenda>(
        &mut self,
        item: u32,
        levels: Vec8,
        agenda: &mut A,
        threads: &mut Threads,
    )
        requires fits { Fits self.old threads.old (A.schedule agenda.old) }
        requires there { 1 ≤ length (driven_of self.old.values item) }
        requires width { length levels ≡ length (driven_of self.old.values item) }
        ensures state { Delivers (change self.old.nodes item levels) self.old self.new threads.old threads.new (A.schedule agenda.old) (A.schedule agenda.new) }
        ensures requests { self.new.values.requests ≡ self.old.values.requests }
    {
        let changed = self.store.drive_levels(item, levels, &mut self.latest);
        follow(
            &self.design,
            self.marks.as_mut_slice(),
            item,
            changed,
            &self.latest,
            agenda,
            threads,
        );
    }

    // A value is laid over a variable, from a place up.
    #[inline(always)]
    fn assign<A: Agenda>(
        &mut self,
        item: u32,
        offset: i64,
        value: Vec4,
        agenda: &mut A,
        threads: &mut Threads,
    )
        requires fits { Fits self.old threads.old (A.schedule agenda.old) }
        requires there { 1 ≤ length (driven_of self.old.values item) }
        ensures state { Delivers (variable_assigned self.old.nodes item offset value) self.old self.new threads.old threads.new (A.schedule agenda.old) (A.schedule agenda.new) }
        ensures requests { self.new.values.requests ≡ self.old.values.requests }
    {
        if covers(offset, &value, self.store.width(item)) {
            self.change_bits(item, value, agenda, threads);
        } else {
            self.assign_part(item, offset, value, agenda, threads);
        }
    }

    // The same where the value leaves some places as they are. It stands out of line, so that a whole value pays nothing for it.
    #[inline(never)]
    fn assign_part<A: Agenda>(
        &mut self,
        item: u32,
        offset: i64,
        value: Vec4,
        agenda: &mut A,
        threads: &mut Threads,
    )
        requires fits { Fits self.old threads.old (A.schedule agenda.old) }
        requires there { 1 ≤ length (driven_of self.old.values item) }
        ensures state { Delivers (variable_assigned self.old.nodes item offset value) self.old self.new threads.old threads.new (A.schedule agenda.old) (A.schedule agenda.new) }
        ensures requests { self.new.values.requests ≡ self.old.values.requests }
    {
        let bits = self.store.driven_bits(item).put(offset, value);
        self.change_bits(item, bits, agenda, threads);
    }

    /// Lays a value over a variable, word 0, or over a word of an array, from the place `offset` up; what lies outside is
    /// dropped. What reads a variable follows, but not where a variable is driven as before.
    #[inline(always)]
    pub fn write<A: Agenda>(
        &mut self,
        item: u32,
        word: u32,
        offset: i64,
        value: Vec4,
        agenda: &mut A,
        threads: &mut Threads,
    )
        requires fits { Fits self.old threads.old (A.schedule agenda.old) }
        requires item { IsWritable self.old.values item word (kind_of self.old.nodes item) }
        ensures state { Delivers (write self.old.nodes item word offset value) self.old self.new threads.old threads.new (A.schedule agenda.old) (A.schedule agenda.new) }
        ensures requests { self.new.values.requests ≡ self.old.values.requests }
    {
        match self.design.kind(item) {
            ItemKind::Array { .. } => self.store.lay_over(item, word, offset, value),
            _ => self.assign(item, offset, value, agenda, threads),
        }
    }

    /// Evaluates a gate or a net delay whose evaluation was taken: it is marked no more. A gate drives its output; a net delay
    /// is asked for what its port has, and for a later time puts a due. It was asked fewer than 2^64 - 1 times.
    pub fn eval<A: Agenda>(&mut self, item: u32, agenda: &mut A, threads: &mut Threads)
        requires fits { FitsBut item self.old threads.old (A.schedule agenda.old) }
        requires item { HasOutput (kind_of self.old.nodes item) }
        requires serial { IsDelay (kind_of self.old.nodes item) → (request_of self.old.values item).serial < 2 ^ 64 - 1 }
        ensures state { Delivers (eval self.old.nodes item) self.old self.new threads.old threads.new (A.schedule agenda.old) (A.schedule agenda.new) }
        ensures requests { AsksAtMost 1 self.old.values self.new.values }
    {
        self.marks[item as usize] = false;
        match self.design.kind(item) {
            ItemKind::Delay { .. } => self.eval_delay(item, agenda, threads),
            _ => self.eval_gate(item, agenda, threads),
        }
    }

    // A gate that is marked no more is evaluated. Most have the values of one item or of two at their ports and no more.
    fn eval_gate<A: Agenda>(&mut self, item: u32, agenda: &mut A, threads: &mut Threads)
        requires fits { Fits self.old threads.old (A.schedule agenda.old) }
        requires gate { IsGateKind (kind_of self.old.nodes item) }
        ensures state { Delivers (eval self.old.nodes item) self.old self.new threads.old threads.new (A.schedule agenda.old) (A.schedule agenda.new) }
        ensures requests { self.new.values.requests ≡ self.old.values.requests }
    {
        match self.design.inputs(item) {
            Inputs::Pair(left, right) => {
                let bits = pair_output(&self.design, &self.store, item, left, right);
                self.change_bits(item, bits, agenda, threads);
            }
            Inputs::Single(input) => self.eval_single(item, input, agenda, threads),
            Inputs::Other => self.eval_ports(item, agenda, threads),
        }
    }

    // The same for a gate of one input.
    #[inline(always)]
    fn eval_single<A: Agenda>(
        &mut self,
        item: u32,
        input: u32,
        agenda: &mut A,
        threads: &mut Threads,
    )
        requires fits { Fits self.old threads.old (A.schedule agenda.old) }
        requires gate { IsGateKind (kind_of self.old.nodes item) }
        requires single { IsSingle self.old.nodes (kind_of self.old.nodes item) input }
        ensures state { Delivers (eval self.old.nodes item) self.old self.new threads.old threads.new (A.schedule agenda.old) (A.schedule agenda.new) }
        ensures requests { self.new.values.requests ≡ self.old.values.requests }
    {
        let bits = single_output(&self.design, &self.store, item, input);
        self.change_bits(item, bits, agenda, threads);
    }

    // The same for each gate. It stands out of line, so that a gate with two items pays nothing for it.
    #[inline(never)]
    fn eval_ports<A: Agenda>(&mut self, item: u32, agenda: &mut A, threads: &mut Threads)
        requires fits { Fits self.old threads.old (A.schedule agenda.old) }
        requires gate { IsGateKind (kind_of self.old.nodes item) }
        ensures state { Delivers (eval self.old.nodes item) self.old self.new threads.old threads.new (A.schedule agenda.old) (A.schedule agenda.new) }
        ensures requests { self.new.values.requests ≡ self.old.values.requests }
    {
        if is_told_by_bits(&self.design, &self.store, item) {
            let bits = bits_output(&self.design, &self.store, item, &mut self.ports);
            self.change_bits(item, bits, agenda, threads);
        } else {
            self.eval_levels(item, agenda, threads);
        }
    }

    // The same by the levels at the gate's ports. It stands out of line, so that a gate that goes by bits pays nothing for it.
    #[inline(never)]
    fn eval_levels<A: Agenda>(&mut self, item: u32, agenda: &mut A, threads: &mut Threads)
        requires fits { Fits self.old threads.old (A.schedule agenda.old) }
        requires gate { IsGateKind (kind_of self.old.nodes item) }
        ensures state { Delivers (eval self.old.nodes item) self.old self.new threads.old threads.new (A.schedule agenda.old) (A.schedule agenda.new) }
        ensures requests { self.new.values.requests ≡ self.old.values.requests }
    {
        let levels = levels_output(&self.design, &self.store, item);
        self.change_levels(item, levels, agenda, threads);
    }

    // A net delay that is marked no more is evaluated. It stands out of line for the same reason.
    #[inline(never)]
    fn eval_delay<A: Agenda>(&mut self, item: u32, agenda: &mut A, threads: &mut Threads)
        requires fits { Fits self.old threads.old (A.schedule agenda.old) }
        requires more { HasRuns threads.old (evals_lacking self.old.nodes (A.schedule agenda.old).dues + 1) (A.schedule agenda.old) }
        requires item { IsDelay (kind_of self.old.nodes item) }
        requires serial { (request_of self.old.values item).serial < 2 ^ 64 - 1 }
        ensures state { Delivers (eval self.old.nodes item) self.old self.new threads.old threads.new (A.schedule agenda.old) (A.schedule agenda.new) }
        ensures requests { AsksAtMost 1 self.old.values self.new.values }
    {
        match self.design.kind(item) {
            ItemKind::Delay {
                rise,
                fall,
                decay,
                port,
            } => {
                let times = Times {
                    rise: *rise,
                    fall: *fall,
                    decay: *decay,
                };
                let wanted = self.store.shown(self.design.root(*port));
                self.ask(item, times, wanted, agenda, threads);
            }
            _ => unreachable!(),
        }
    }

    // A net delay is asked for a value.
    fn ask<A: Agenda>(
        &mut self,
        item: u32,
        times: Times,
        wanted: Vec8,
        agenda: &mut A,
        threads: &mut Threads,
    )
        requires fits { Fits self.old threads.old (A.schedule agenda.old) }
        requires more { HasRuns threads.old (evals_lacking self.old.nodes (A.schedule agenda.old).dues + 1) (A.schedule agenda.old) }
        requires item { IsDelay (kind_of self.old.nodes item) }
        requires width { length wanted ≡ length (driven_of self.old.values item) }
        requires serial { (request_of self.old.values item).serial < 2 ^ 64 - 1 }
        ensures state { Delivers (asked self.old.nodes item times wanted (request_of self.old.values item).kept) self.old self.new threads.old threads.new (A.schedule agenda.old) (A.schedule agenda.new) }
        ensures requests { AsksAtMost 1 self.old.values self.new.values }
    {
        if keeps(self.store.request(item), wanted) {
            return;
        }
        self.ask_anew(item, times, wanted, agenda, threads);
    }

    // A net delay is asked for a value that it doesn't keep.
    fn ask_anew<A: Agenda>(
        &mut self,
        item: u32,
        times: Times,
        wanted: Vec8,
        agenda: &mut A,
        threads: &mut Threads,
    )
        requires fits { Fits self.old threads.old (A.schedule agenda.old) }
        requires more { HasRuns threads.old (evals_lacking self.old.nodes (A.schedule agenda.old).dues + 1) (A.schedule agenda.old) }
        requires item { IsDelay (kind_of self.old.nodes item) }
        requires width { length wanted ≡ length (driven_of self.old.values item) }
        requires serial { (request_of self.old.values item).serial < 2 ^ 64 - 1 }
        ensures state { Delivers (asked_anew self.old.nodes item times wanted) self.old self.new threads.old threads.new (A.schedule agenda.old) (A.schedule agenda.new) }
        ensures requests { AsksAtMost 1 self.old.values self.new.values }
    {
        let request = Request {
            serial: self.store.request(item).serial + 1,
            kept: None,
        };
        let driven = self.store.driven(item);
        if wanted == driven {
            self.store.set_request(item, request);
            return;
        }
        let ticks = times.between(driven, wanted);
        self.follow_after(item, ticks, wanted, request, agenda, threads);
    }

    // A net delay follows a value after so many ticks, at once where there are none.
    fn follow_after<A: Agenda>(
        &mut self,
        item: u32,
        ticks: u64,
        wanted: Vec8,
        request: Request,
        agenda: &mut A,
        threads: &mut Threads,
    )
        requires fits { Fits self.old threads.old (A.schedule agenda.old) }
        requires more { HasRuns threads.old (evals_lacking self.old.nodes (A.schedule agenda.old).dues + 1) (A.schedule agenda.old) }
        requires item { IsDelay (kind_of self.old.nodes item) }
        requires width { length wanted ≡ length (driven_of self.old.values item) }
        requires serial { request.serial ≡ (request_of self.old.values item).serial + 1 }
        requires empty { request.kept ≡ None }
        ensures state { Delivers (follows_after self.old.nodes item ticks wanted request) self.old self.new threads.old threads.new (A.schedule agenda.old) (A.schedule agenda.new) }
        ensures requests { AsksAtMost 1 self.old.values self.new.values }
    {
        if ticks > 0 {
            self.postpone(item, ticks, wanted, request.serial, agenda, threads);
        } else {
            self.store.set_request(item, request);
            self.change_levels(item, wanted, agenda, threads);
        }
    }

    // A net delay is to follow a value when its time has come.
    fn postpone<A: Agenda>(
        &mut self,
        item: u32,
        ticks: u64,
        wanted: Vec8,
        serial: u64,
        agenda: &mut A,
        threads: &Threads,
    )
        requires fits { Fits self.old threads.now (A.schedule agenda.old) }
        requires more { HasRuns threads.now (evals_lacking self.old.nodes (A.schedule agenda.old).dues + 1) (A.schedule agenda.old) }
        requires item { IsDelay (kind_of self.old.nodes item) }
        requires width { length wanted ≡ length (driven_of self.old.values item) }
        ensures state { (kept : Option (List Interval)) → Delivers (postponed item ticks wanted (record { serial = serial; kept = kept })) self.old self.new threads.now threads.now (A.schedule agenda.old) (A.schedule agenda.new) }
        ensures requests { self.new.values ≡ with_request item (record { serial = serial; kept = Some wanted }) self.old.values }
    {
        self.store.set_request(
            item,
            Request {
                serial,
                kept: Some(wanted),
            },
        );
        let now = agenda.now();
        agenda.put(Due {
            time: now.saturating_add(ticks),
            region: Region::Active,
            act: Act::Mature { item, serial },
        });
    }

    /// The time of a request of a net delay has come: the delay follows the value that it keeps, unless it was asked for
    /// another one since.
    pub fn mature<A: Agenda>(
        &mut self,
        item: u32,
        serial: u64,
        agenda: &mut A,
        threads: &mut Threads,
    )
        requires fits { Fits self.old threads.old (A.schedule agenda.old) }
        requires item { IsDelay (kind_of self.old.nodes item) }
        ensures state { Delivers (mature self.old.nodes item serial) self.old self.new threads.old threads.new (A.schedule agenda.old) (A.schedule agenda.new) }
        ensures requests { AsksAtMost 0 self.old.values self.new.values }
    {
        let request = self.store.request(item);
        if request.serial != serial {
            return;
        }
        if let Some(kept) = request.kept {
            self.store.set_request(item, Request { serial, kept: None });
            self.change_levels(item, kept, agenda, threads);
        }
    }

    /// Forces a variable, or the item that a net is a name for, or a gate or a net delay, to a value as wide as it.
    pub fn force<A: Agenda>(
        &mut self,
        item: u32,
        value: Vec4,
        agenda: &mut A,
        threads: &mut Threads,
    )
        requires fits { Fits self.old threads.old (A.schedule agenda.old) }
        requires item { HasLevels (kind_of self.old.nodes item) }
        requires width { length value ≡ length (slice_index_or (words_of self.old.nodes self.old.values item) 0 []) }
        ensures state { Delivers (force self.old.nodes item value) self.old self.new threads.old threads.new (A.schedule agenda.old) (A.schedule agenda.new) }
        ensures requests { self.new.values.requests ≡ self.old.values.requests }
    {
        let root = self.design.root(item);
        let changed = self.store.force(root, value, &mut self.latest);
        follow(
            &self.design,
            self.marks.as_mut_slice(),
            root,
            changed,
            &self.latest,
            agenda,
            threads,
        );
    }

    /// Releases `width` places from `base` on of a variable, or of the item that a net is a name for, or of a gate or a net
    /// delay. With `keep` what was forced drives them now.
    pub fn release<A: Agenda>(
        &mut self,
        item: u32,
        base: u32,
        width: u8,
        keep: bool,
        agenda: &mut A,
        threads: &mut Threads,
    )
        requires fits { Fits self.old threads.old (A.schedule agenda.old) }
        requires item { HasLevels (kind_of self.old.nodes item) }
        requires within { base + width ≤ length (slice_index_or (words_of self.old.nodes self.old.values item) 0 []) }
        ensures state { Delivers (release self.old.nodes item base width keep) self.old self.new threads.old threads.new (A.schedule agenda.old) (A.schedule agenda.new) }
        ensures requests { self.new.values.requests ≡ self.old.values.requests }
    {
        let root = self.design.root(item);
        let changed = self
            .store
            .release(root, base as u8, width, keep, &mut self.latest);
        follow(
            &self.design,
            self.marks.as_mut_slice(),
            root,
            changed,
            &self.latest,
            agenda,
            threads,
        );
    }

    /// Triggers an event: who waits for it goes on, and then who waits for each event that lists it, in file order (IEEE
    /// 1364-2005, 9.7.3 and 9.7.4).
    pub fn trigger<A: Agenda>(&mut self, event: u32, agenda: &mut A, threads: &mut Threads)
        requires fits { Fits self.old threads.old (A.schedule agenda.old) }
        requires event { event < length self.old.nodes }
        ensures state { Delivers (trigger self.old.nodes event) self.old self.new threads.old threads.new (A.schedule agenda.old) (A.schedule agenda.new) }
        ensures values { self.new.values ≡ self.old.values }
    {
        trigger(&self.design, event, agenda, threads);
    }
}

impl<F: Fanout + Drop> Values for Net<F> {
    ghost words_of = { λ net. words_of net.nodes net.values };

    fn value(&self, item: u32, word: u32) -> Vec4 {
        self.read(item, word)
    }

    fn words(&self, item: u32) -> u32 {
        match self.design.kind(item) {
            ItemKind::Array { words } => *words,
            _ => 1,
        }
    }
}
