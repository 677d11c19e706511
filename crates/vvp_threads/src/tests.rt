//! Threads that start, wait, join and end, as one table, with what each step puts and leaves.
ghost use Rattle.std.specs.Prelude.{◌≡◌, ◌<◌, ℕ, List, Some, IfOk, IfSome, IsTrue, length};
ghost use Rattle.vvp_threads.specs.declared.thread.ThreadState.{ThreadState};
ghost use Rattle.vvp_threads.specs.Table.{thread_of, IsInState};
ghost use Rattle.vvp_threads.specs.Disable.{AreScopes, StandIn};
ghost use Rattle.vvp_threads.specs.Keyed.{IsKeyOf, IsNamed};
ghost use Rattle.vvp_threads.specs.Runs.{HasRuns};

use crate::{Frame, NO_SCOPE, Serials, Stack, ThreadState, Threads};
use event_pool::{Act, Agenda};
use four_state::{Bit, Vec4};
use std::alloc::{AllocError, Global};
use std::process::Abort;
use std::test::Fail;
use time_wheel::Wheel;

// What is done. Threads are named by their serials.
#[derive(Clone, Copy)]
enum Step {
    Spawn(Option<u64>, u32),
    Wait(u64),
    Join(u64, u64),
    Wake,
    End(u64),
    Disable(u64, u32),
}

// A step, the serials that it puts Runs for, the live threads' serials after it, and those that wait.
#[derive(Clone, Copy)]
struct Row {
    step: Step,
    runs: &'static [u64],
    live: &'static [u64],
    waiters: &'static [u64],
}

// The event that is waited for.
const EVENT: u32 = 1;

fn make_row(
    step: Step,
    runs: &'static [u64],
    live: &'static [u64],
    waiters: &'static [u64],
) -> Row {
    Row {
        step,
        runs,
        live,
        waiters,
    }
}

fn key(rt: &impl Abort, threads: &Threads, serial: u64) -> usize
    ensures { IsKeyOf threads.now serial result }
{
    threads.key_of(serial).expect(rt, "the thread is live")
}

fn parent_key(rt: &impl Abort, threads: &Threads, parent: Option<u64>) -> Option<usize>
    ensures { IsNamed threads.now result parent }
{
    match parent {
        Some(serial) => Some(key(rt, threads, serial)),
        None => None,
    }
}

// Whether the thread with a key is ready.
fn is_ready(threads: &Threads, key: usize) -> bool
    ensures { IsTrue result → (serial : ℕ) → IsKeyOf threads.now serial key
        → IsInState threads.now.table serial ThreadState.Ready }
{
    match threads.get(key) {
        Some(thread) => match thread.state {
            ThreadState::Ready => true,
            ThreadState::Waiting(_) | ThreadState::Joining(_) => false,
        },
        None => false,
    }
}

// Whether a thread has ended, or is a child of the one with a key.
fn is_child(rt: &impl Abort, threads: &Threads, child: u64, parent: usize) -> bool
    ensures { IsTrue result → (serial : ℕ) → IsKeyOf threads.now serial parent
        → IfSome (thread_of threads.now.table child) (λ thread. thread.parent ≡ Some serial) }
{
    let place = match threads.key_of(child) {
        Some(place) => place,
        None => return true,
    };
    let child = threads.get(place).expect(rt, "the key is a live thread's");
    let parent = threads.get(parent).expect(rt, "the parent is live");
    match child.parent {
        Some(serial) => serial == parent.serial,
        None => false,
    }
}

// An agenda without dues, with room for a Run of each live thread.
fn make_agenda(alloc: Global, threads: &Threads) -> Result<Wheel, AllocError>
    ensures { IfOk result (HasRuns threads.now 0) }
{
    let mut agenda = Wheel::new(alloc)?;
    agenda.reserve(threads.live() as usize)?;
    Ok(agenda)
}

fn start(
    rt: &impl Abort,
    threads: &mut Threads,
    parent: Option<u64>,
    scope: u32,
) -> Result<(), AllocError>
    ensures events { length threads.new.table.waiting ≡ length threads.old.table.waiting }
    ensures scopes { (parents : List ℕ) → scope < length parents → StandIn parents threads.old.table.threads
        → StandIn parents threads.new.table.threads }
{
    assert!(rt; threads.live() < 100);
    assert!(rt; threads.serials() < 100);
    let parent = parent_key(rt, threads, parent);
    threads.spawn(parent, scope, 0)?;
    Ok(())
}

fn wait(rt: &impl Abort, threads: &mut Threads, serial: u64) -> Result<(), AllocError>
    requires event { EVENT < length threads.old.table.waiting }
    ensures events { length threads.new.table.waiting ≡ length threads.old.table.waiting }
    ensures scopes { (parents : List ℕ) → StandIn parents threads.old.table.threads
        → StandIn parents threads.new.table.threads }
{
    let key = key(rt, threads, serial);
    assert!(rt; is_ready(threads, key));
    threads.wait_on(key, EVENT);
    Ok(())
}

fn join(rt: &impl Abort, threads: &mut Threads, serial: u64, child: u64) -> Result<(), AllocError>
    ensures events { length threads.new.table.waiting ≡ length threads.old.table.waiting }
    ensures scopes { (parents : List ℕ) → StandIn parents threads.old.table.threads
        → StandIn parents threads.new.table.threads }
{
    let key = key(rt, threads, serial);
    assert!(rt; is_ready(threads, key));
    assert!(rt; is_child(rt, threads, child, key));
    threads.join_on(key, child);
    Ok(())
}

fn wake(threads: &mut Threads, agenda: &mut Wheel) -> Result<(), AllocError>
    requires event { EVENT < length threads.old.table.waiting }
    requires runs { HasRuns threads.old 0 agenda.old }
    ensures events { length threads.new.table.waiting ≡ length threads.old.table.waiting }
    ensures scopes { (parents : List ℕ) → StandIn parents threads.old.table.threads
        → StandIn parents threads.new.table.threads }
{
    threads.wake_all(EVENT, agenda);
    Ok(())
}

fn end(
    rt: &impl Abort,
    threads: &mut Threads,
    serial: u64,
    agenda: &mut Wheel,
) -> Result<(), AllocError>
    requires runs { HasRuns threads.old 0 agenda.old }
    ensures events { length threads.new.table.waiting ≡ length threads.old.table.waiting }
    ensures scopes { (parents : List ℕ) → StandIn parents threads.old.table.threads
        → StandIn parents threads.new.table.threads }
{
    let key = key(rt, threads, serial);
    threads.end(key, agenda);
    Ok(())
}

fn disable(
    rt: &impl Abort,
    threads: &mut Threads,
    scope_parents: &[u32],
    serial: u64,
    scope: u32,
    agenda: &mut Wheel,
) -> Result<(), AllocError>
    requires tree { AreScopes scope_parents.now }
    requires scopes { StandIn scope_parents.now threads.old.table.threads }
    requires runs { HasRuns threads.old 0 agenda.old }
    ensures events { length threads.new.table.waiting ≡ length threads.old.table.waiting }
    ensures scopes { StandIn scope_parents.now threads.new.table.threads }
{
    let key = key(rt, threads, serial);
    assert!(rt; (scope as usize) < scope_parents.len());
    threads.disable(key, scope, scope_parents, agenda);
    Ok(())
}

fn perform(
    rt: &impl Abort,
    threads: &mut Threads,
    scope_parents: &[u32],
    step: Step,
    agenda: &mut Wheel,
) -> Result<(), AllocError>
    requires tree { AreScopes scope_parents.now }
    requires event { EVENT < length threads.old.table.waiting }
    requires scopes { StandIn scope_parents.now threads.old.table.threads }
    requires runs { HasRuns threads.old 0 agenda.old }
    ensures event { EVENT < length threads.new.table.waiting }
    ensures scopes { StandIn scope_parents.now threads.new.table.threads }
{
    match step {
        Step::Spawn(parent, scope) => {
            assert!(rt; (scope as usize) < scope_parents.len());
            start(rt, threads, parent, scope)
        }
        Step::Wait(serial) => wait(rt, threads, serial),
        Step::Join(serial, child) => join(rt, threads, serial, child),
        Step::Wake => wake(threads, agenda),
        Step::End(serial) => end(rt, threads, serial, agenda),
        Step::Disable(serial, scope) => disable(rt, threads, scope_parents, serial, scope, agenda),
    }
}

// The serials of the threads that are due to go on.
fn runs_in(alloc: Global, agenda: &Wheel) -> Result<Serials, AllocError> {
    let mut runs = Serials::new(alloc);
    for due in agenda.dues(alloc)?.as_slice() {
        if let Act::Run { serial, key: _ } = due.act {
            runs.push(serial)?;
        }
    }
    Ok(runs)
}

// The serials of the live threads.
fn live_in(alloc: Global, threads: &Threads) -> Result<Serials, AllocError> {
    let mut live = Vec::new(alloc);
    for serial in 0..threads.serials() {
        if threads.key_of(serial).is_some() {
            live.push(serial)?;
        }
    }
    Ok(Serials::from_vec(live))
}

fn check_row(
    rt: &impl Abort,
    alloc: Global,
    threads: &mut Threads,
    scope_parents: &[u32],
    row: Row,
) -> Result<(), AllocError>
    requires tree { AreScopes scope_parents.now }
    requires event { EVENT < length threads.old.table.waiting }
    requires scopes { StandIn scope_parents.now threads.old.table.threads }
    ensures event { EVENT < length threads.new.table.waiting }
    ensures scopes { StandIn scope_parents.now threads.new.table.threads }
{
    let mut agenda = make_agenda(alloc, threads)?;
    perform(rt, threads, scope_parents, row.step, &mut agenda)?;
    assert_eq!(rt; runs_in(alloc, &agenda)?.as_slice(), row.runs);
    assert_eq!(rt; live_in(alloc, threads)?.as_slice(), row.live);
    assert_eq!(rt; threads.waiters(alloc, EVENT)?.as_slice(), row.waiters);
    Ok(())
}

fn make_threads(alloc: Global, scope_parents: &[u32]) -> Result<Threads, AllocError>
    ensures event { IfOk result (λ threads. EVENT < length threads.table.waiting) }
    ensures scopes { IfOk result (λ threads. StandIn scope_parents.now threads.table.threads) }
{
    Threads::new(alloc, 2)
}

fn check_rows(
    rt: &impl Abort,
    alloc: Global,
    threads: &mut Threads,
    scope_parents: &[u32],
    rows: &[Row],
) -> Result<(), AllocError>
    requires tree { AreScopes scope_parents.now }
    requires event { EVENT < length threads.old.table.waiting }
    requires scopes { StandIn scope_parents.now threads.old.table.threads }
{
    'rows: for row in rows {
        check_row(rt, alloc, threads, scope_parents, *row)?;
    }
    Ok(())
}

#[test]
fn steps_by_table(rt: HostRuntime) -> Result<(), Fail> {
    let rows = [
        make_row(Step::Spawn(None, 0), &[], &[0], &[]),
        make_row(Step::Spawn(Some(0), 1), &[], &[0, 1], &[]),
        make_row(Step::Spawn(Some(0), 2), &[], &[0, 1, 2], &[]),
        make_row(Step::Spawn(Some(2), 4), &[], &[0, 1, 2, 3], &[]),
        make_row(Step::Wait(3), &[], &[0, 1, 2, 3], &[3]),
        make_row(Step::Wait(1), &[], &[0, 1, 2, 3], &[3, 1]),
        make_row(Step::Wake, &[3, 1], &[0, 1, 2, 3], &[]),
        make_row(Step::Wait(3), &[], &[0, 1, 2, 3], &[3]),
        make_row(Step::Wait(1), &[], &[0, 1, 2, 3], &[3, 1]),
        make_row(Step::Join(0, 2), &[], &[0, 1, 2, 3], &[3, 1]),
        // The joiner goes on, and the child of the ended one ends too, though its scope isn't below.
        make_row(Step::Disable(2, 2), &[0], &[0, 1], &[1]),
        // The child has ended.
        make_row(Step::Join(0, 2), &[], &[0, 1], &[1]),
        make_row(Step::Join(0, 1), &[], &[0, 1], &[1]),
        make_row(Step::End(1), &[0], &[0], &[]),
        make_row(Step::Spawn(Some(0), 2), &[], &[0, 4], &[]),
        // Places of ended threads are kept no longer than those of live ones.
        make_row(Step::End(4), &[], &[0], &[]),
        make_row(Step::Spawn(None, 3), &[], &[0, 5], &[]),
        make_row(Step::End(0), &[], &[5], &[]),
        make_row(Step::Disable(5, 1), &[], &[], &[]),
    ];
    // Scopes 1 and 4 lie below scope 0, and 2 and 3 below 1.
    let scope_parents = [NO_SCOPE, 0, 1, 1, 0];
    let mut threads = make_threads(rt.alloc(), &scope_parents)?;
    check_rows(&rt, rt.alloc(), &mut threads, &scope_parents, &rows)?;
    Ok(())
}

// Changes a frame, and copies it.
fn change_frame(rt: &impl Abort, alloc: Global, frame: &mut Frame) -> Result<Frame, AllocError> {
    frame.children.push(3)?;
    frame.children.push(5)?;
    frame.children.pop();
    assert_eq!(rt; frame.children.last(), Some(3));
    frame.stack.push(Vec4::splat(Bit::Zero, 1))?;
    frame.stack.push(Vec4::splat(Bit::Zero, 2))?;
    frame.stack.push(Vec4::splat(Bit::Zero, 3))?;
    frame.copy(alloc)
}

fn change_thread(
    rt: &impl Abort,
    alloc: Global,
    threads: &mut Threads,
    key: usize,
) -> Result<Frame, AllocError> {
    let frame = threads.get_mut(key).expect(rt, "the thread is live");
    change_frame(rt, alloc, frame)
}

// Changes a stack of three items.
fn change_stack(rt: &impl Abort, stack: &mut Stack) {
    assert!(rt; stack.len() == 3);
    stack.discard(1);
    assert!(rt; stack.len() == 2);
    stack.set_second(Vec4::splat(Bit::One, 1));
    assert!(rt; stack.len() == 2);
    stack.set_top(Vec4::splat(Bit::One, 2));
}

#[test]
fn frame_is_copied(rt: HostRuntime) -> Result<(), Fail> {
    let mut threads = Threads::new(rt.alloc(), 1)?;
    let key = threads.spawn(None, 0, 7)?;
    let mut copy = change_thread(&rt, rt.alloc(), &mut threads, key)?;
    change_stack(&rt, &mut copy.stack);
    assert_eq!(rt; copy.pc, 7);
    assert_eq!(rt; copy.children.len(), 1);
    assert_eq!(rt; copy.stack.item(0), Some(Vec4::splat(Bit::One, 2)));
    assert_eq!(rt; copy.stack.item(1), Some(Vec4::splat(Bit::One, 1)));
    assert_eq!(rt; copy.stack.as_slice().len(), 2);
    Ok(())
}
