ghost use Rattle.std.specs.Prelude.{◌≡◌, ◌+◌, ◌*◌, ◌%◌, ◌<◌, [], ◌++◌, length, slice_index_or, MatchOption, All, OnOk};
ghost use Rattle.event_pool.specs.Contents.{queue_at};
ghost use Rattle.event_pool.specs.Order.{in_order};
ghost use Rattle.event_pool.specs.Schedule.{IsTimelyAt};
ghost use Rattle.time_wheel.specs.TimeWheel.{queue_for as queue_of, joined, shown, least_of, IsWheel};
ghost use Rattle.time_wheel.specs.Queues.{overflow_time_after as time_after, shown_due as due_shown, next_queue as queue_after, promoted_queues, found_in, AreEmpty, IsFirst, cascaded, overflow_time_cascaded};

use event_pool::{Due, Dues, Pool, Region, Settled};
use std::alloc::{AllocError, Global};

/// How many ticks a block has. A block begins at a multiple of it.
pub const TICKS: u64 = 256;

/// The queue of the Active dues of now. The two queues of each tick of the block of now stand before
/// it: from `2 * tick` on the Active and the Nonblocking ones.
pub const ACTIVE: u32 = 512;

/// The queue of the Inactive dues, which are all of now.
pub const INACTIVE: u32 = 513;

/// The queue of the dues after the block of now.
pub const OVERFLOW: u32 = 514;

/// How many queues a wheel has.
pub const QUEUES: u32 = 515;

/// The queue of the Active dues of a later time in the block of now.
pub fn active_at(time: u64) -> u32
    ensures { result ≡ 2 * (time % TICKS) }
{
    2 * (time % TICKS) as u32
}

/// The queue of the Nonblocking dues of a time in the block of now.
pub fn nonblocking_at(time: u64) -> u32
    ensures { result ≡ 2 * (time % TICKS) + 1 }
{
    2 * (time % TICKS) as u32 + 1
}

/// The queue of the dues of a region at a time.
pub fn queue_for(region: Region, now: u64, time: u64) -> u32
    ensures { result ≡ queue_of region now time }
{
    match region {
        Region::Active if time == now => ACTIVE,
        Region::Inactive => INACTIVE,
        _ if now / TICKS < time / TICKS => OVERFLOW,
        Region::Active => active_at(time),
        Region::Nonblocking => nonblocking_at(time),
    }
}

/// The least time of the dues in overflow, in ticks, after a due of the time was put into the queue;
/// `least` is the one before, if there was a due.
pub fn overflow_time_after(least: Option<u64>, queue: u32, time: u64) -> Option<u64>
    ensures { result ≡ time_after least queue time }
{
    if queue != OVERFLOW {
        return least;
    }
    match least {
        Some(other) => Some(other.min(time)),
        None => Some(time),
    }
}

/// The time of the next due after now in the block of now, in ticks, if there is one. It looks at each
/// queue of the block's later ticks at most once.
pub fn next_in_block(pool: &Pool<Due>, now: u64) -> Option<u64>
    requires { length pool.now.queues ≡ QUEUES }
    ensures { MatchOption result
        (AreEmpty pool.now.queues (2 * (now % TICKS) + 2) ACTIVE)
        (λ time. IsFirst pool.now.queues (2 * (now % TICKS) + 2) ACTIVE time) }
{
    for q in active_at(now) + 2..ACTIVE {
        if let Some(due) = pool.first(q) {
            return Some(due.time);
        }
    }
    None
}

// The queue whose dues become Active where none is.
fn next_queue(pool: &Pool<Due>, now: u64) -> u32
    requires { length pool.now.queues ≡ QUEUES }
    ensures { result ≡ queue_after now pool.now.queues }
{
    if pool.has_any(INACTIVE) {
        INACTIVE
    } else {
        nonblocking_at(now)
    }
}

/// Where no due is Active, makes the dues of the next region of now Active: the Inactive ones, or
/// where there are none, the Nonblocking ones (IEEE 1364-2005, 11.4). It takes constant time.
pub fn promote(pool: &mut Pool<Due>, now: u64)
    requires { length pool.old.queues ≡ QUEUES }
    ensures queues { pool.new.queues ≡ promoted_queues now pool.old.queues }
    ensures spare { pool.new.spare ≡ pool.old.spare }
{
    if pool.has_any(ACTIVE) {
        return;
    }
    pool.move_all(next_queue(pool, now), ACTIVE);
}

/// What settling answers, where `pending` dues are in the wheel.
pub fn found(pool: &Pool<Due>, pending: usize) -> Settled
    requires { length pool.now.queues ≡ QUEUES }
    ensures { result ≡ found_in pool.now.queues pending }
{
    if pending == 0 {
        return Settled::Empty;
    }
    if pool.has_any(ACTIVE) {
        Settled::Ready
    } else {
        Settled::TimeEnds
    }
}

// Takes the first due of overflow, and puts it into its queue or back at the end of overflow. The
// least time of those that went back, of which `least` is the least so far.
fn cascade_first(pool: &mut Pool<Due>, now: u64, least: Option<u64>) -> Option<u64>
    requires { length pool.old.queues ≡ QUEUES }
    ensures queues { pool.new.queues ≡ cascaded now pool.old.queues (queue_at pool.old OVERFLOW) }
    ensures least { result ≡ overflow_time_cascaded now least (queue_at pool.old OVERFLOW) }
    ensures spare { pool.new.spare ≡ pool.old.spare }
{
    let Some(due) = pool.pop_front(OVERFLOW) else {
        return least;
    };
    let time = due.time;
    let queue = queue_for(due.region, now, time);
    pool.push_back(queue, due);
    overflow_time_after(least, queue, time)
}

/// Enters the block of now, where all dues stand in overflow, `count` of them: takes each once from the
/// front, and puts it into its queue or back at the end of overflow. It takes no memory. The least time
/// of those that stay in overflow, in ticks, if there is one.
pub fn cascade(pool: &mut Pool<Due>, now: u64, count: usize) -> Option<u64>
    requires queues { length pool.old.queues ≡ QUEUES }
    requires others { AreEmpty pool.old.queues 0 OVERFLOW }
    requires count { length (queue_at pool.old OVERFLOW) ≡ count }
    requires timely { All (IsTimelyAt now) (queue_at pool.old OVERFLOW) }
    ensures wheel { IsWheel now pool.new.queues }
    ensures order { in_order (joined pool.new.queues) ≡ in_order (queue_at pool.old OVERFLOW) }
    ensures least { result ≡ least_of (queue_at pool.new OVERFLOW) }
    ensures spare { pool.new.spare ≡ pool.old.spare }
{
    let mut least = None;
    'cascade: for _ in 0..count {
        least = cascade_first(pool, now, least);
    }
    least
}

// The due of a queue as it is meant: in the active queue it is Active.
fn shown_due(queue: u32, due: Due) -> Due
    ensures { result ≡ due_shown queue due }
{
    if queue == ACTIVE {
        Due {
            region: Region::Active,
            ..due
        }
    } else {
        due
    }
}

/// Puts the dues of a queue, as they are meant, behind those of a list, in time linear in their
/// number.
pub fn copy_queue(
    alloc: Global,
    pool: &Pool<Due>,
    queue: u32,
    dues: &mut Dues,
) -> Result<(), AllocError>
    requires queues { length pool.now.queues ≡ QUEUES }
    requires queue { queue < QUEUES }
    ensures { OnOk result (dues.new ≡ dues.old ++ slice_index_or (shown pool.now.queues) queue []) }
{
    let items = pool.items(alloc, queue)?;
    for item in &items {
        dues.push(shown_due(queue, *item))?;
    }
    Ok(())
}
