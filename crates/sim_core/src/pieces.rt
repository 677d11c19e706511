//! What effects do to the parts of an engine.

ghost use Rattle.std.specs.Prelude.{◌≡◌, ◌<◌, ◌≤◌, ◌+◌, ◌-◌, ◌^◌, ℕ, OnOk, OnErr, IfOk, IfSome, Some, None, is_some, true, min, max, if◌then◌else◌};
ghost use Rattle.vvp_threads.specs.Keyed.{IsKeyOf, KeyedTable};
ghost use Rattle.vvp_threads.specs.Table.{thread_of, live_count, joins_on, slot_at, IsInState};
ghost use Rattle.vvp_threads.specs.Runs.{HasRuns, runs_of};
ghost use Rattle.event_pool.specs.Schedule.{Schedule};
ghost use Rattle.vvp_threads.specs.declared.thread.Thread.{Thread};
ghost use Rattle.sim_core.specs.Machine.{framed};
ghost use Rattle.sim_core.specs.Step.{pick};
ghost use Rattle.sim_core.specs.Effects.{delay_region};
ghost use Rattle.vvp_threads.specs.declared.thread.ThreadState.{ThreadState};

use crate::engine::Running;
use event_pool::{Agenda, Region};
use std::alloc::AllocError;
use vvp_threads::Threads;

/// The place at which the thread under a key stands.
pub(crate) fn place_of(threads: &Threads, key: usize) -> u32
    requires { (serial : ℕ) × (thread : Thread) × IsKeyOf threads.now serial key × (thread_of threads.now.table serial ≡ Some thread) }
    ensures { (serial : ℕ) (thread : Thread) → IsKeyOf threads.now serial key → thread_of threads.now.table serial ≡ Some thread → result ≡ thread.frame.pc }
{
    match threads.get(key) {
        Some(thread) => thread.frame.pc,
        None => unreachable!(),
    }
}

/// The thread under a key goes on at a place of the code.
pub(crate) fn go_to(threads: &mut Threads, key: usize, place: u32)
    requires { (serial : ℕ) × (thread : Thread) × IsKeyOf threads.old serial key × (thread_of threads.old.table serial ≡ Some thread) }
    ensures { (serial : ℕ) (thread : Thread) → IsKeyOf threads.old serial key → thread_of threads.old.table serial ≡ Some thread
        → threads.new ≡ record threads.old { table = framed serial (record thread.frame { pc = place }) threads.old.table } }
{
    if let Some(frame) = threads.get_mut(key) {
        frame.pc = place;
    }
}

/// The thread under a key goes on at the next place of the code.
pub(crate) fn go_next(threads: &mut Threads, key: usize)
    requires { (serial : ℕ) × (thread : Thread) × IsKeyOf threads.old serial key × (thread_of threads.old.table serial ≡ Some thread) × (thread.frame.pc + 1 < 2 ^ 32) }
    ensures { (serial : ℕ) (thread : Thread) → IsKeyOf threads.old serial key → thread_of threads.old.table serial ≡ Some thread
        → threads.new ≡ record threads.old { table = framed serial (record thread.frame { pc = thread.frame.pc + 1 }) threads.old.table } }
{
    if let Some(frame) = threads.get_mut(key) {
        frame.pc += 1;
    }
}

/// Makes room for one due more than the live threads and the gates and net delays may want, or than there is room for. What is
/// pending stays.
pub(crate) fn make_room<A: Agenda>(
    agenda: &mut A,
    threads: &Threads,
    outputs: usize,
) -> Result<(), AllocError>
    requires few { outputs < 2 ^ 32 }
    ensures now { (A.schedule agenda.new).now ≡ (A.schedule agenda.old).now }
    ensures dues { (A.schedule agenda.new).dues ≡ (A.schedule agenda.old).dues }
    ensures ok { OnOk result (min (A.schedule agenda.old).spare (live_count threads.now.table + outputs) + 1 ≤ (A.schedule agenda.new).spare) }
    ensures err { OnErr result (A.schedule agenda.new ≡ A.schedule agenda.old) }
{
    let wanted = threads.live() as usize + outputs;
    let spare = agenda.spare();
    let least = if spare < wanted { spare } else { wanted };
    agenda.reserve(least + 1)
}

/// The place that an order picks of so many dues, when so many were taken before.
pub(crate) fn pick(order: u32, taken: u64, count: usize) -> usize
    requires some { 0 < count }
    requires few { taken < 2 ^ 64 - 1 }
    ensures { result ≡ pick order taken count }
{
    let place = u128::from(order) * (u128::from(taken) + 1) % (count as u128);
    place as usize
}

/// The region in which a thread that is delayed goes on (IEEE 1364-2005, 11.3).
pub(crate) fn region_after(ticks: u64) -> Region
    ensures { result ≡ delay_region ticks }
{
    if ticks == 0 {
        Region::Inactive
    } else {
        Region::Active
    }
}

/// The thread that runs, unless it rests.
pub(crate) fn unless(rests: bool, running: Running) -> Option<Running>
    ensures { result ≡ (if rests then None else Some running) }
{
    if rests { None } else { Some(running) }
}

/// The thread that runs, where it is live.
pub(crate) fn still(threads: &Threads, running: Running) -> Option<Running>
    ensures same { IfSome result (λ live. live ≡ running) }
    ensures live { is_some result ≡ is_some (thread_of threads.now.table running.serial) }
    ensures key { IfSome result (λ live. is_some (slot_at threads.now.keys running.serial) ≡ true) }
{
    match threads.key_of(running.serial) {
        Some(_) => Some(running),
        None => None,
    }
}

/// Makes the thread under a key join a child of its own. False exactly where the child has ended, and then all stays.
pub(crate) fn join_on(threads: &mut Threads, key: usize, child: u64) -> bool
    requires ready { (serial : ℕ) × IsKeyOf threads.old serial key × IsInState threads.old.table serial ThreadState.Ready
        × IfSome (thread_of threads.old.table child) (λ thread. thread.parent ≡ Some serial) }
    ensures live { result ≡ is_some (thread_of threads.old.table child) }
    ensures table { (serial : ℕ) → IsKeyOf threads.old serial key
        → threads.new ≡ record threads.old { table = joins_on threads.old.table serial child } }
    ensures runs { (serial besides : ℕ) (schedule : Schedule) → IsKeyOf threads.old serial key
        → runs_of serial schedule.dues ≡ 0 → HasRuns threads.old besides schedule → HasRuns threads.new besides schedule }
{
    // That no other thread has this key is told by a read.
    let _joiner = threads.get(key);
    threads.join_on(key, child)
}

/// The greater of two numbers.
pub(crate) fn greater(first: u64, second: u64) -> u64
    ensures { result ≡ max first second }
{
    if first < second { second } else { first }
}
