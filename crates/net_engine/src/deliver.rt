//! How a change reaches the inputs that an item drives (IEEE 1364-2005, 9.7 and 11.3).

ghost use Rattle.std.specs.Prelude.{◌≡◌, ℕ, ◌<◌, ◌≤◌, ◌+◌, Bool, true, false, List, length, Some, slice_set, slice_index_or};
ghost use Rattle.event_pool.specs.Schedule.{put_due};
ghost use Rattle.event_pool.specs.Pending.{eval_of};
ghost use Rattle.strengths.specs.Interval.{Interval};
ghost use Rattle.sym_link.specs.Roots.{kind_of};
ghost use Rattle.net_engine.specs.Delivery.{trigger, reached, delivered, wake};
ghost use Rattle.net_engine.specs.Parts.{HasBits, IsChange, MayFit, Reaches, change_if, followed};

use crate::design::Design;
use crate::edges::fires;
use crate::store::Change;
use event_pool::{Act, Agenda, Due, Region};
use port_chain::{Fanout, Link};
use sym_link::ItemKind;
use vvp_threads::Threads;

// An item is to be evaluated at once, unless it is to be already.
#[inline(always)]
fn ask_eval<A: Agenda>(marks: &mut [bool], item: u32, agenda: &mut A)
    requires there { item < length marks.old }
    requires room { slice_index_or marks.old item false ≡ false → 0 < (A.schedule agenda.old).spare }
    ensures marked { slice_index_or marks.old item false ≡ true → (marks.new ≡ marks.old) × (A.schedule agenda.new ≡ A.schedule agenda.old) }
    ensures unmarked { slice_index_or marks.old item false ≡ false → (marks.new ≡ slice_set marks.old item true)
        × (A.schedule agenda.new ≡ put_due (A.schedule agenda.old) (eval_of (A.schedule agenda.old).now item)) }
{
    if marks[item as usize] {
        return;
    }
    marks[item as usize] = true;
    let now = agenda.now();
    agenda.put(Due {
        time: now,
        region: Region::Active,
        act: Act::Eval(item),
    });
}

// Who waits for an event goes on.
fn wake<F: Fanout + Drop, A: Agenda>(
    design: &Design<F>,
    event: u32,
    agenda: &mut A,
    threads: &mut Threads,
)
    requires event { event < length design.now }
    requires fits { (marks : List Bool) × MayFit design.now marks threads.old (A.schedule agenda.old) }
    ensures { (marks : List Bool) → Reaches (λ state. wake state event) design.now marks marks
        threads.old threads.new (A.schedule agenda.old) (A.schedule agenda.new) }
{
    threads.wake_all(event, agenda);
}

/// Triggers an event: who waits for it goes on, and then who waits for each event that lists it, in file order (IEEE
/// 1364-2005, 9.7.3 and 9.7.4).
pub(crate) fn trigger<F: Fanout + Drop, A: Agenda>(
    design: &Design<F>,
    event: u32,
    agenda: &mut A,
    threads: &mut Threads,
)
    requires event { event < length design.now }
    requires fits { (marks : List Bool) × MayFit design.now marks threads.old (A.schedule agenda.old) }
    ensures { (marks : List Bool) → Reaches (trigger design.now event) design.now marks marks
        threads.old threads.new (A.schedule agenda.old) (A.schedule agenda.new) }
{
    wake(design, event, agenda, threads);
    let listeners = design.listeners(event);
    'listeners: for i in 0..listeners.len() {
        wake(design, listeners[i], agenda, threads);
    }
}

// What an item does when one of its inputs changes from one seen value to another.
#[inline(always)]
fn reach<F: Fanout + Drop, A: Agenda>(
    design: &Design<F>,
    marks: &mut [bool],
    item: u32,
    change: &Change,
    agenda: &mut A,
    threads: &mut Threads,
)
    requires item { item < length design.now }
    requires bits { HasBits change.now }
    requires fits { MayFit design.now marks.old threads.old (A.schedule agenda.old) }
    ensures { Reaches (reached design.now change.now.old change.now.new item (kind_of design.now item)) design.now marks.old marks.new
        threads.old threads.new (A.schedule agenda.old) (A.schedule agenda.new) }
{
    match design.kind(item) {
        ItemKind::Functor { .. } => ask_eval(marks, item, agenda),
        ItemKind::Delay { .. } => ask_eval(marks, item, agenda),
        ItemKind::Edge { kind, .. } => {
            if fires(*kind, change.old, change.new) {
                trigger(design, item, agenda, threads);
            }
        }
        _ => {}
    }
}

// A change of an item reaches the inputs that it drives, in their order.
#[inline(always)]
fn deliver<F: Fanout + Drop, A: Agenda>(
    design: &Design<F>,
    marks: &mut [bool],
    item: u32,
    change: &Change,
    agenda: &mut A,
    threads: &mut Threads,
)
    requires item { item < length design.now }
    requires bits { HasBits change.now }
    requires fits { MayFit design.now marks.old threads.old (A.schedule agenda.old) }
    ensures { Reaches (delivered design.now change.now.old change.now.new item) design.now marks.old marks.new
        threads.old threads.new (A.schedule agenda.old) (A.schedule agenda.new) }
{
    let mut link = design.first(item);
    'inputs: while link != Link::NONE {
        reach(design, marks, link.node(), change, agenda, threads);
        link = design.next(link);
    }
}

/// What follows from a change of an item, if it changed.
#[inline(always)]
pub(crate) fn follow<F: Fanout + Drop, A: Agenda>(
    design: &Design<F>,
    marks: &mut [bool],
    item: u32,
    changed: bool,
    change: &Change,
    agenda: &mut A,
    threads: &mut Threads,
)
    requires item { item < length design.now }
    requires bits { changed ≡ true → HasBits change.now }
    requires fits { MayFit design.now marks.old threads.old (A.schedule agenda.old) }
    ensures { (old new : List Interval) → IsChange (change_if changed change.now) old new → Reaches (followed design.now item old new) design.now
        marks.old marks.new threads.old threads.new (A.schedule agenda.old) (A.schedule agenda.new) }
{
    if changed {
        deliver(design, marks, item, change, agenda, threads);
    }
}
