ghost use Rattle.std.specs.Prelude.{◌≡◌, ◌-◌, ◌+◌, ◌*◌, ◌^◌, ◌<◌, ◌≤◌, ℕ, [], ◌∷◌, ◌++◌, length, replicate, map, Option, Some, None, is_some, IfOk, OnErr, IfSome, IfNone, option_copied, option_map, nat_eq, filter, filter_map, not, true, OnOk};
ghost use Rattle.std.specs.List.{IsDistinct};
ghost use Rattle.std.specs.Option.{option_copied_mut};
ghost use Rattle.slab.specs.Slab.{get, ContainsKey, HasRoomFor, Updates};
ghost use Rattle.event_pool.specs.Contents.{queue_at};
ghost use Rattle.vvp_threads.specs.declared.thread.Thread.{Thread};
ghost use Rattle.vvp_threads.specs.Kept.{AddsChild};
ghost use Rattle.std.specs.Borrow.{sem};
ghost use Rattle.vvp_threads.specs.Table.{slot_at, thread_of, waiters_of, live_count, IsInState, spawned, waits_on, joins_on, woken, without, joiners_of, emptied, has};
ghost use Rattle.event_pool.specs.Schedule.{Schedule, put_due};
ghost use Rattle.vvp_threads.specs.declared.thread.Frame.{Frame};
ghost use Rattle.vvp_threads.specs.Keyed.{KeyedTable, IsKeyOf, IsNoKey, IsNamed, serial_under, with_frame_under, run_under, with_runs};
ghost use Rattle.vvp_threads.specs.Runs.{HasRuns, runs_of};
ghost use Rattle.vvp_threads.specs.declared.thread.ThreadState.{ThreadState};

use crate::places::Places;
use crate::serials::Serials;
use crate::thread::{Frame, Thread, ThreadState};
use crate::wake::{resume, resume_joiner, set_state};
use event_pool::{Agenda, Pool};
use slab::Slab;
use std::alloc::{AllocError, Global};
use std::marker::Model;

/// The live threads, each under a key, and for each event the threads that wait for it.
///
/// Contracts see the threads by serial, none where one has ended, the key of each, and by event the serials that wait,
/// in the order of waiting. Only `new`, `spawn` and `waiters` allocate: `spawn` keeps room for one waiter a live thread.
#[derive(Drop)]
pub struct Threads {
    pub(crate) alloc: Global,
    pub(crate) slab: Slab<Thread>,
    pub(crate) places: Places,
    // The serials that wait, a queue for each event.
    pub(crate) waiting: Pool<u64>,
}

impl Model for Threads {
    ghost use Rattle.vvp_threads.specs.Keyed.{KeyedTable};

    ghost Value = { KeyedTable };

    ghost use Rattle.vvp_threads.specs.Kept.{kept_as, threads_of, IsPlaced, IsSound};

    ghost view = { λ t. kept_as t.places.slots t.slab t.waiting.queues };

    ghost invariant = { λ t. IsPlaced t.places.slots t.slab
        × IsSound (threads_of t.places.slots t.slab) t.waiting.queues t.waiting.spare };
}

// Makes room for one more thread, and for it as a waiter. What is there stays.
fn make_room(
    slab: &mut Slab<Thread>,
    places: &mut Places,
    waiting: &mut Pool<u64>,
) -> Result<(), AllocError>
    ensures slab { slab.new ≡ record slab.old { capacity = slab.new.capacity } }
    ensures slots { places.new.slots ≡ places.old.slots }
    ensures queues { waiting.new.queues ≡ waiting.old.queues }
    ensures spare { waiting.old.spare ≤ waiting.new.spare }
    ensures keys { OnOk result (HasRoomFor slab.new 1) }
    ensures places { OnOk result (0 < places.new.room) }
    ensures waiters { OnOk result (length (filter_map (λ slot. slot) places.old.slots) + 1 ≤ waiting.new.spare) }
{
    waiting.reserve(places.len() + 1)?;
    slab.reserve(1)?;
    places.reserve()
}

// Puts a child last among the children of the thread under a key, if there is one. That thread's serial. Where memory is
// wanting, all stays.
fn add_child(
    slab: &mut Slab<Thread>,
    parent: Option<usize>,
    child: u64,
) -> Result<Option<u64>, AllocError>
    requires { IfSome parent (ContainsKey slab.old) }
    ensures ok { IfOk result (λ serial. AddsChild slab.old slab.new parent serial child) }
    ensures room { HasRoomFor slab.old 1 → HasRoomFor slab.new 1 }
    ensures err { OnErr result (slab.new ≡ slab.old) }
{
    let key = match parent {
        Some(key) => key,
        None => return Ok(None),
    };
    match slab.get_mut(key) {
        Some(thread) => {
            thread.frame.children.push(child)?;
            Ok(Some(thread.serial))
        }
        None => unreachable!(),
    }
}

/// Takes the thread under a key away. The state that it was in.
pub(crate) fn take(slab: &mut Slab<Thread>, key: usize) -> ThreadState
    requires { ContainsKey slab.old key }
    ensures state { (thread : Thread) → get slab.old key ≡ Some thread → result ≡ thread.state }
    ensures thread { Updates slab.old slab.new key None }
{
    let thread = slab.remove(key);
    thread.state
}

/// Takes a thread that is in a state from the queue of the event that it waits for.
pub(crate) fn leave(waiting: &mut Pool<u64>, serial: u64, state: ThreadState)
    requires event { (event : ℕ) → state ≡ ThreadState.Waiting event → event < length waiting.old.queues }
    requires once { (event : ℕ) → IsDistinct nat_eq (queue_at waiting.old event) }
    requires alone { (event : ℕ) → has (queue_at waiting.old event) serial ≡ true → state ≡ ThreadState.Waiting event }
    ensures queues { waiting.new.queues ≡ map (filter (λ s. not (has (serial ∷ []) s))) waiting.old.queues }
    ensures spare { waiting.old.spare ≤ waiting.new.spare }
{
    if let ThreadState::Waiting(event) = state {
        waiting.remove_first(event, serial);
    }
}

impl Threads {
    ghost use Rattle.vvp_threads.specs.Lends.{lends_frame, lends_frame_of};

    /// No threads, and events with the numbers below `events`, for which nobody waits.
    pub fn new(alloc: Global, events: u32) -> Result<Threads, AllocError>
        ensures table { IfOk result (λ t. t ≡ record { table = record { threads = []; waiting = replicate events [] }; keys = [] }) }
        ensures runs { IfOk result (λ t. (besides : ℕ) (schedule : Schedule) → schedule.dues ≡ [] → besides ≤ schedule.spare
            → HasRuns t besides schedule) }
    {
        Ok(Threads {
            alloc,
            slab: Slab::new(alloc),
            places: Places::new(alloc),
            waiting: Pool::new(alloc, events)?,
        })
    }

    /// Starts a thread at a place of the code, in a scope. It is ready, and its parent's last child. The key of the new
    /// thread. Where memory is wanting, all stays.
    pub fn spawn(&mut self, parent: Option<usize>, scope: u32, pc: u32) -> Result<usize, AllocError>
        requires few { live_count self.old.table < 65536 }
        requires drawn { length self.old.table.threads < 2 ^ 64 - 1 }
        requires parent { (serial : Option ℕ) × IsNamed self.old parent serial }
        ensures fresh { IfOk result (IsNoKey self.old) }
        ensures ok { IfOk result (λ key. (serial : Option ℕ) → IsNamed self.old parent serial → self.new
            ≡ record { table = spawned self.old.table serial scope pc; keys = self.old.keys ++ Some key ∷ [] }) }
        ensures runs { IfOk result (λ key. (besides : ℕ) (schedule : Schedule) → HasRuns self.old (besides + 1) schedule
            → HasRuns self.new besides (put_due schedule (run_under schedule.now (length self.old.table.threads) key))) }
        ensures err { OnErr result (self.new ≡ self.old) }
    {
        make_room(&mut self.slab, &mut self.places, &mut self.waiting)?;
        let serial = self.places.drawn();
        let parent = add_child(&mut self.slab, parent, serial)?;
        let key = self.slab.insert_reserved(Thread {
            serial,
            parent,
            scope,
            frame: Frame::new(self.alloc, pc),
            state: ThreadState::Ready,
        });
        self.places.push(key);
        Ok(key)
    }

    /// The thread with a key, in constant time. None exactly where no live thread has it. Its clauses also tell what holds
    /// of all threads: who stands in an event's queue waits for it, and the lists of threads and keys are equally long.
    #[inline]
    pub fn get(&self, key: usize) -> Option<&Thread>
        ensures thread { (serial : ℕ) → IsKeyOf self.now serial key
            → option_copied result ≡ thread_of self.now.table serial }
        ensures key { IfSome result (λ thread. IsKeyOf self.now thread.now.serial key) }
        ensures serial { IfSome result (λ thread. (serial : ℕ) → IsKeyOf self.now serial key → thread.now.serial ≡ serial) }
        ensures none { IfNone result (IsNoKey self.now key) }
        ensures keyed { (serial : ℕ) → is_some (slot_at self.now.keys serial) ≡ is_some (thread_of self.now.table serial) }
        ensures waiting { (event serial : ℕ) → has (waiters_of self.now.table event) serial ≡ true
            → IsInState self.now.table serial (ThreadState.Waiting event) }
        ensures keys { length self.now.keys ≡ length self.now.table.threads }
    {
        self.slab.get(key)
    }

    /// The frame of the thread with a key, for writing, in constant time. None exactly where no live thread has it.
    pub fn get_mut(&mut self, key: usize) -> Option<&mut Frame>
        ensures* writes_back { sem 𝓛 (lends_frame self.entry key result) }
        ensures frame { (serial : ℕ) → IsKeyOf self.old serial key → option_copied_mut result
            ≡ option_map (λ thread. thread.frame) (thread_of self.old.table serial) }
        ensures serial { (serial : ℕ) → IsKeyOf self.old serial key → serial_under self.old key ≡ serial }
        ensures runs { (frame : Frame) (besides : ℕ) (schedule : Schedule) → HasRuns self.old besides schedule
            → HasRuns (with_frame_under self.old key frame) besides schedule }
        ensures some { IfSome result (λ frame. (serial : ℕ) × IsKeyOf self.old serial key) }
        ensures none { IfNone result (IsNoKey self.old key) }
    {
        if self.slab.contains(key) {
            Some(self.frame_mut(key))
        } else {
            None
        }
    }

    fn frame_mut(&mut self, key: usize) -> &mut Frame
        requires { (serial : ℕ) × IsKeyOf self.old serial key }
        ensures* writes_back { sem 𝓛 (lends_frame_of self.entry key result) }
        ensures frame { (serial : ℕ) → IsKeyOf self.old serial key
            → option_map (λ thread. thread.frame) (thread_of self.old.table serial) ≡ Some result.now }
    {
        self.slab[key].frame_mut()
    }

    /// How many threads are live, in constant time.
    pub fn live(&self) -> u32
        ensures { result ≡ live_count self.now.table }
    {
        self.places.len() as u32
    }

    /// How many serials were drawn, which is the next thread's serial.
    pub fn serials(&self) -> u64
        ensures { result ≡ length self.now.table.threads }
    {
        self.places.drawn()
    }

    /// The key of the live thread with a serial, in time logarithmic in the number of live threads. None exactly where
    /// there is none.
    pub fn key_of(&self, serial: u64) -> Option<usize>
        ensures key { result ≡ slot_at self.now.keys serial }
        ensures live { is_some result ≡ is_some (thread_of self.now.table serial) }
    {
        match self.places.find(serial) {
            Some(place) => Some(place.key),
            None => None,
        }
    }

    /// The serials that wait for an event, in the order of waiting. The only error is want of memory.
    pub fn waiters(&self, alloc: Global, event: u32) -> Result<Serials, AllocError>
        requires { event < length self.now.table.waiting }
        ensures { IfOk result (λ serials. serials ≡ waiters_of self.now.table event) }
    {
        Ok(Serials::from_vec(self.waiting.items(alloc, event)?))
    }

    /// Makes a thread wait for an event, behind all others (IEEE 1364-2005, 9.7), in constant time.
    pub fn wait_on(&mut self, key: usize, event: u32)
        requires ready { (serial : ℕ) × IsKeyOf self.old serial key × IsInState self.old.table serial ThreadState.Ready }
        requires event { event < length self.old.table.waiting }
        ensures table { (serial : ℕ) → IsKeyOf self.old serial key
            → self.new ≡ record self.old { table = waits_on self.old.table serial event } }
        ensures runs { (serial besides : ℕ) (schedule : Schedule) → IsKeyOf self.old serial key
            → runs_of serial schedule.dues ≡ 0 → HasRuns self.old besides schedule → HasRuns self.new besides schedule }
    {
        let serial = set_state(&mut self.slab, key, ThreadState::Waiting(event));
        self.waiting.push_back(event, serial);
    }

    /// Makes a thread wait for the end of a child (IEEE 1364-2005, 9.8.2), in time logarithmic in the number of live
    /// threads. False exactly where the child has ended, and then all stays.
    pub fn join_on(&mut self, key: usize, child: u64) -> bool
        requires ready { (serial : ℕ) × IsKeyOf self.old serial key × IsInState self.old.table serial ThreadState.Ready }
        requires child { (serial : ℕ) → IsKeyOf self.old serial key
            → IfSome (thread_of self.old.table child) (λ thread. thread.parent ≡ Some serial) }
        ensures live { result ≡ is_some (thread_of self.old.table child) }
        ensures table { (serial : ℕ) → IsKeyOf self.old serial key
            → self.new ≡ record self.old { table = joins_on self.old.table serial child } }
        ensures runs { (serial besides : ℕ) (schedule : Schedule) → IsKeyOf self.old serial key
            → runs_of serial schedule.dues ≡ 0 → HasRuns self.old besides schedule → HasRuns self.new besides schedule }
    {
        if self.places.find(child).is_none() {
            return false;
        }
        set_state(&mut self.slab, key, ThreadState::Joining(child));
        true
    }

    /// Makes each thread ready that waits for an event, in the order of waiting, and puts the dues with which they go
    /// on. Nobody waits for the event then. The agenda has a place for a due of each thread that has none pending.
    pub fn wake_all<A: Agenda>(&mut self, event: u32, agenda: &mut A)
        requires event { event < length self.old.table.waiting }
        requires runs { HasRuns self.old 0 (A.schedule agenda.old) }
        ensures threads { self.new ≡ record self.old { table = woken self.old.table event } }
        ensures agenda { A.schedule agenda.new
            ≡ with_runs (A.schedule agenda.old) self.old.keys (waiters_of self.old.table event) }
        ensures runs { (besides : ℕ) → HasRuns self.old besides (A.schedule agenda.old)
            → HasRuns self.new besides (A.schedule agenda.new) }
        ensures places { (A.schedule agenda.new).spare + length (A.schedule agenda.new).dues
            ≡ (A.schedule agenda.old).spare + length (A.schedule agenda.old).dues }
    {
        'wake: while let Some(serial) = self.waiting.pop_front(event) {
            match self.places.find(serial) {
                Some(place) => resume(&self.places, &mut self.slab, place, agenda),
                None => unreachable!(),
            }
        }
    }

    /// Ends a thread. It is gone, also from the waiting lists, and a parent that joins it is ready and gets its due. Over
    /// many calls it takes constant time on average, besides look-ups in time logarithmic in the number of live threads,
    /// and the time linear in the queue of the event for which the thread waits, if it does.
    pub fn end<A: Agenda>(&mut self, key: usize, agenda: &mut A)
        requires live { (serial : ℕ) × IsKeyOf self.old serial key }
        requires runs { HasRuns self.old 0 (A.schedule agenda.old) }
        ensures threads { (serial : ℕ) → IsKeyOf self.old serial key → self.new ≡ record {
          table = without self.old.table (serial ∷ []);
          keys = emptied (serial ∷ []) self.old.keys;
        } }
        ensures agenda { (serial : ℕ) → IsKeyOf self.old serial key → A.schedule agenda.new
            ≡ with_runs (A.schedule agenda.old) self.old.keys (joiners_of self.old.table.threads (serial ∷ [])) }
        ensures runs { (besides : ℕ) → HasRuns self.old besides (A.schedule agenda.old)
            → HasRuns self.new besides (A.schedule agenda.new) }
        ensures places { (A.schedule agenda.new).spare + length (A.schedule agenda.new).dues
            ≡ (A.schedule agenda.old).spare + length (A.schedule agenda.old).dues }
    {
        let serial = self.slab[key].serial;
        resume_joiner(&self.places, &mut self.slab, serial, agenda);
        let state = take(&mut self.slab, key);
        leave(&mut self.waiting, serial, state);
        self.places.remove(serial);
    }
}
