//! Ending the threads of a scope and those below them (IEEE 1364-2005, 10.3).

ghost use Rattle.std.specs.Prelude.{◌≡◌, ◌+◌, ◌<◌, ◌≤◌, ℕ, ◌||◌, List, Option, Some, length, map, filter_map, not, true, option_map, option_to_list};
ghost use Rattle.slab.specs.Slab.{get};
ghost use Rattle.vvp_threads.specs.declared.places.Place.{Place};
ghost use Rattle.vvp_threads.specs.declared.thread.Thread.{Thread};
ghost use Rattle.vvp_threads.specs.Marks.{is_marked};
ghost use Rattle.vvp_threads.specs.Table.{slot_at, emptied, made_ready, has, running_first, joiners_of};
ghost use Rattle.vvp_threads.specs.Disable.{scopes_within, disabled_marks, disabled_serials, disabled, IsWithin, IsDisabled, AreScopes, StandIn};
ghost use Rattle.vvp_threads.specs.Keyed.{IsKeyOf, with_runs};
ghost use Rattle.vvp_threads.specs.Runs.{HasRuns};
ghost use Rattle.vvp_threads.specs.Places.{IsRising, AreNumbered};
ghost use Rattle.vvp_threads.specs.Kept.{threads_of, keys_of, IsPlaced, IsSound, LeavesOut, ParentsBelow};
ghost use Rattle.vvp_threads.specs.Wake.{unmarked_joiner, marked_serial, marked_serials, marked_by, is_place_marked, has_marked_parent, running_serial, other_serial, other_serials};

use crate::places::{Place, Places, find_place};
use crate::scopes::is_within;
use crate::thread::Thread;
use crate::threads::{Threads, leave, take};
use crate::wake::{joiner, resume};
use event_pool::{Agenda, Pool};
use slab::Slab;

// Whether the thread under a key stands in a scope or below it, or has a marked parent.
fn is_disabled(
    places: &[Place],
    slab: &Slab<Thread>,
    key: usize,
    scope: u32,
    scope_parents: &[u32],
) -> bool
    requires rising { IsRising places.now }
    requires tree { AreScopes scope_parents.now }
    requires thread { (thread : Thread) × (get slab.now key ≡ Some thread) × (thread.scope < length scope_parents.now) }
    ensures { (thread : Thread) → get slab.now key ≡ Some thread → result
        ≡ is_marked (scopes_within scope_parents.now scope) thread.scope || has_marked_parent places.now thread.parent }
{
    let thread = &slab[key];
    if is_within(scope_parents, scope, thread.scope) {
        return true;
    }
    match thread.parent {
        Some(parent) => match find_place(places, parent) {
            Some(at) => places[at].marked,
            None => false,
        },
        None => false,
    }
}

// Marks the places of the threads that a disable of a scope ends, in time linear in the number of live threads, but for
// the logarithmic look-up of each one's parent.
fn mark_places(places: &mut [Place], slab: &Slab<Thread>, scope: u32, scope_parents: &[u32])
    requires tree { AreScopes scope_parents.now }
    requires placed { (slots : List (Option Place)) × AreNumbered 0 slots × (places.old ≡ filter_map (λ slot. slot) slots)
        × IsPlaced slots slab.now × ParentsBelow (threads_of slots slab.now) × StandIn scope_parents.now (threads_of slots slab.now) }
    ensures { (slots : List (Option Place)) → AreNumbered 0 slots → places.old ≡ filter_map (λ slot. slot) slots
        → IsPlaced slots slab.now → ParentsBelow (threads_of slots slab.now) → StandIn scope_parents.now (threads_of slots slab.now)
        → places.new ≡ map (marked_by (disabled_marks (threads_of slots slab.now) scope_parents.now scope)) places.old }
{
    'mark: for at in 0..places.len() {
        let key = places[at].key;
        let marked = is_disabled(places, slab, key, scope, scope_parents);
        places[at].marked = marked;
    }
}

impl Places {
    /// Marks the places of the threads that a disable of a scope ends, and no others. No place of an ended thread is kept
    /// then.
    fn mark_disabled(&mut self, slab: &Slab<Thread>, scope: u32, scope_parents: &[u32])
        requires tree { AreScopes scope_parents.now }
        requires placed { IsPlaced self.old.slots slab.now }
        requires below { ParentsBelow (threads_of self.old.slots slab.now) }
        requires scopes { StandIn scope_parents.now (threads_of self.old.slots slab.now) }
        ensures slots { self.new.slots ≡ map (option_map
            (marked_by (disabled_marks (threads_of self.old.slots slab.now) scope_parents.now scope))) self.old.slots }
        ensures ended { self.new.ended ≡ 0 }
    {
        self.prune();
        mark_places(self.places.as_mut_slice(), slab, scope, scope_parents);
    }

    /// Whether the place of a serial is marked.
    fn is_marked(&self, serial: u64) -> bool
        ensures { result ≡ is_place_marked (slot_at self.now.slots serial) }
    {
        match self.find(serial) {
            Some(place) => place.marked,
            None => false,
        }
    }
}

// Makes the thread go on that joins the one with this serial, but not a marked one.
fn resume_unmarked<A: Agenda>(places: &Places, slab: &mut Slab<Thread>, serial: u64, agenda: &mut A)
    requires placed { IsPlaced places.now.slots slab.old }
    requires room { length (option_to_list (unmarked_joiner places.now.slots (threads_of places.now.slots slab.old) serial))
        ≤ (A.schedule agenda.old).spare }
    ensures placed { IsPlaced places.now.slots slab.new }
    ensures threads { threads_of places.now.slots slab.new
        ≡ made_ready (option_to_list (unmarked_joiner places.now.slots (threads_of places.now.slots slab.old) serial))
        (threads_of places.now.slots slab.old) }
    ensures agenda { A.schedule agenda.new
        ≡ with_runs (A.schedule agenda.old) (keys_of places.now.slots)
        (option_to_list (unmarked_joiner places.now.slots (threads_of places.now.slots slab.old) serial)) }
{
    if let Some(place) = joiner(places, slab, serial) {
        if !place.marked {
            resume(places, slab, place, agenda);
        }
    }
}

// Makes the thread go on that joins the running one, if that one is marked.
fn resume_running<A: Agenda>(places: &Places, slab: &mut Slab<Thread>, running: u64, agenda: &mut A)
    requires placed { IsPlaced places.now.slots slab.old }
    requires room { length (filter_map (unmarked_joiner places.now.slots (threads_of places.now.slots slab.old))
        (running_serial places.now.slots running)) ≤ (A.schedule agenda.old).spare }
    ensures placed { IsPlaced places.now.slots slab.new }
    ensures threads { threads_of places.now.slots slab.new ≡ made_ready
        (filter_map (unmarked_joiner places.now.slots (threads_of places.now.slots slab.old))
        (running_serial places.now.slots running))
        (threads_of places.now.slots slab.old) }
    ensures agenda { A.schedule agenda.new ≡ with_runs (A.schedule agenda.old) (keys_of places.now.slots)
        (filter_map (unmarked_joiner places.now.slots (threads_of places.now.slots slab.old))
        (running_serial places.now.slots running)) }
{
    if places.is_marked(running) {
        resume_unmarked(places, slab, running, agenda);
    }
}

// Makes the thread go on that joins the one at a place, if that one is marked and isn't the running one.
fn resume_other<A: Agenda>(
    places: &Places,
    slab: &mut Slab<Thread>,
    place: Place,
    running: u64,
    agenda: &mut A,
)
    requires placed { IsPlaced places.now.slots slab.old }
    requires room { length (filter_map (unmarked_joiner places.now.slots (threads_of places.now.slots slab.old))
        (other_serial running place)) ≤ (A.schedule agenda.old).spare }
    ensures placed { IsPlaced places.now.slots slab.new }
    ensures threads { threads_of places.now.slots slab.new ≡ made_ready
        (filter_map (unmarked_joiner places.now.slots (threads_of places.now.slots slab.old))
        (other_serial running place))
        (threads_of places.now.slots slab.old) }
    ensures agenda { A.schedule agenda.new ≡ with_runs (A.schedule agenda.old) (keys_of places.now.slots)
        (filter_map (unmarked_joiner places.now.slots (threads_of places.now.slots slab.old))
        (other_serial running place)) }
{
    if !place.marked || place.serial == running {
        return;
    }
    resume_unmarked(places, slab, place.serial, agenda);
}

// Makes the threads go on that join a marked one other than the running one.
fn resume_others<A: Agenda>(places: &Places, slab: &mut Slab<Thread>, running: u64, agenda: &mut A)
    requires live { places.now.ended ≡ 0 }
    requires placed { IsPlaced places.now.slots slab.old }
    requires room { length (filter_map (unmarked_joiner places.now.slots (threads_of places.now.slots slab.old))
        (other_serials running (filter_map (λ slot. slot) places.now.slots))) ≤ (A.schedule agenda.old).spare }
    ensures placed { IsPlaced places.now.slots slab.new }
    ensures threads { threads_of places.now.slots slab.new ≡ made_ready
        (filter_map (unmarked_joiner places.now.slots (threads_of places.now.slots slab.old))
        (other_serials running (filter_map (λ slot. slot) places.now.slots)))
        (threads_of places.now.slots slab.old) }
    ensures agenda { A.schedule agenda.new ≡ with_runs (A.schedule agenda.old) (keys_of places.now.slots)
        (filter_map (unmarked_joiner places.now.slots (threads_of places.now.slots slab.old))
        (other_serials running (filter_map (λ slot. slot) places.now.slots))) }
{
    'each: for place in places.as_slice() {
        resume_other(places, slab, *place, running, agenda);
    }
}

// Makes the threads go on that join a marked one and aren't marked, in the order of the marked ones, the running one
// first.
fn resume_joiners<A: Agenda>(places: &Places, slab: &mut Slab<Thread>, running: u64, agenda: &mut A)
    requires live { places.now.ended ≡ 0 }
    requires placed { IsPlaced places.now.slots slab.old }
    requires room { length (filter_map (unmarked_joiner places.now.slots (threads_of places.now.slots slab.old))
        (running_first running (marked_serials places.now.slots))) ≤ (A.schedule agenda.old).spare }
    ensures placed { IsPlaced places.now.slots slab.new }
    ensures threads { threads_of places.now.slots slab.new ≡ made_ready
        (filter_map (unmarked_joiner places.now.slots (threads_of places.now.slots slab.old))
        (running_first running (marked_serials places.now.slots)))
        (threads_of places.now.slots slab.old) }
    ensures agenda { A.schedule agenda.new ≡ with_runs (A.schedule agenda.old) (keys_of places.now.slots)
        (filter_map (unmarked_joiner places.now.slots (threads_of places.now.slots slab.old))
        (running_first running (marked_serials places.now.slots))) }
{
    resume_running(places, slab, running, agenda);
    resume_others(places, slab, running, agenda);
}

// Takes the thread at a place from the slab and from its queue, if the place is marked.
fn end_place(place: Place, slab: &mut Slab<Thread>, waiting: &mut Pool<u64>)
    requires { (slots : List (Option Place)) × IsPlaced slots slab.old
        × IsSound (threads_of slots slab.old) waiting.old.queues waiting.old.spare × (slot_at slots place.serial ≡ Some place) }
    ensures { (slots : List (Option Place)) → IsPlaced slots slab.old
        → IsSound (threads_of slots slab.old) waiting.old.queues waiting.old.spare → slot_at slots place.serial ≡ Some place
        → LeavesOut slots (marked_serial place) slab.old waiting.old.queues slab.new waiting.new.queues waiting.new.spare }
{
    if !place.marked {
        return;
    }
    let state = take(slab, place.key);
    leave(waiting, place.serial, state);
}

// Takes the threads at marked places from the slab and from their queues, in time linear in the number of live threads,
// and in that of a queue for each one that waits.
fn end_marked(places: &Places, slab: &mut Slab<Thread>, waiting: &mut Pool<u64>)
    requires live { places.now.ended ≡ 0 }
    requires placed { IsPlaced places.now.slots slab.old }
    requires sound { IsSound (threads_of places.now.slots slab.old) waiting.old.queues waiting.old.spare }
    ensures { LeavesOut places.now.slots (marked_serials places.now.slots) slab.old waiting.old.queues
        slab.new waiting.new.queues waiting.new.spare }
{
    'each: for place in places.as_slice() {
        end_place(*place, slab, waiting);
    }
}

impl Threads {
    /// Ends the threads of a scope and of the scopes below it, and with them each live thread whose parent ends so
    /// (IEEE 1364-2005, 10.3), the running one first and then by serial. A parent that joins one of them and doesn't end
    /// itself is ready and gets its due. `scope_parents` has the number of each scope's parent, or `NO_SCOPE`.
    pub fn disable<A: Agenda>(
        &mut self,
        running: usize,
        scope: u32,
        scope_parents: &[u32],
        agenda: &mut A,
    )
        requires running { (serial : ℕ) × IsKeyOf self.old serial running }
        requires scope { scope < length scope_parents.now }
        requires tree { AreScopes scope_parents.now }
        requires scopes { StandIn scope_parents.now self.old.table.threads }
        requires runs { HasRuns self.old 0 (A.schedule agenda.old) }
        ensures threads { (serial : ℕ) → IsKeyOf self.old serial running → self.new ≡ record {
          table = disabled self.old.table serial scope_parents.now scope;
          keys = emptied (disabled_serials self.old.table serial scope_parents.now scope) self.old.keys;
        } }
        ensures agenda { (serial : ℕ) → IsKeyOf self.old serial running → A.schedule agenda.new
            ≡ with_runs (A.schedule agenda.old) self.old.keys
            (joiners_of self.old.table.threads (disabled_serials self.old.table serial scope_parents.now scope)) }
        ensures runs { (besides : ℕ) → HasRuns self.old besides (A.schedule agenda.old)
            → HasRuns self.new besides (A.schedule agenda.new) }
        ensures places { (A.schedule agenda.new).spare + length (A.schedule agenda.new).dues
            ≡ (A.schedule agenda.old).spare + length (A.schedule agenda.old).dues }
        ensures scopes { (inner : ℕ) → (is_marked (scopes_within scope_parents.now scope) inner ≡ true
            → IsWithin scope_parents.now scope inner)
            × (IsWithin scope_parents.now scope inner → is_marked (scopes_within scope_parents.now scope) inner ≡ true) }
        ensures least { (serial member : ℕ) → (has (disabled_serials self.old.table serial scope_parents.now scope) member ≡ true
            → IsDisabled self.old.table.threads scope_parents.now scope member)
            × (IsDisabled self.old.table.threads scope_parents.now scope member
            → has (disabled_serials self.old.table serial scope_parents.now scope) member ≡ true) }
    {
        let serial = self.slab[running].serial;
        self.places.mark_disabled(&self.slab, scope, scope_parents);
        resume_joiners(&self.places, &mut self.slab, serial, agenda);
        end_marked(&self.places, &mut self.slab, &mut self.waiting);
        self.places.remove_marked();
    }
}
