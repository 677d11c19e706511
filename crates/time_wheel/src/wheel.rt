ghost use Rattle.std.specs.Prelude.{◌≡◌};

use crate::queues::{
    ACTIVE, QUEUES, active_at, cascade, copy_queue, found, next_in_block, overflow_time_after,
    promote, queue_for,
};
use event_pool::{Agenda, Due, Dues, Pool, Region, Settled};
use std::alloc::{AllocError, Global};
use std::marker::Model;

/// An agenda as a time wheel: the stratified event queue of IEEE 1364-2005, clause 11.
///
/// Time goes in blocks of 256 ticks, each from a multiple of 256 on. The dues of the block of now
/// stand in two queues a tick, the Active and the Nonblocking ones, and those of now that are Active
/// or Inactive in two queues of their own. All dues after that block stand in one overflow queue, in
/// the order of putting, and cascade to the queues of their ticks when their block begins. All queues
/// share the slots of one pool.
///
/// `put`, `settle` and `take` take constant time, `take_nth` and `active_len` look at the Active dues
/// of now alone. `advance` looks at each queue of the block at most once, and where the block has no
/// later due at each due in overflow once. Only `new`, `reserve` and `dues` allocate.
#[derive(Drop)]
pub struct Wheel {
    pool: Pool<Due>,
    now: u64,
    // How many dues there are.
    pending: usize,
    // The least time of the dues in overflow.
    overflow_time: Option<u64>,
}

impl Model for Wheel {
    ghost use Rattle.event_pool.specs.Schedule.{Schedule};
    ghost use Rattle.event_pool.specs.Order.{in_order};
    ghost use Rattle.time_wheel.specs.TimeWheel.{joined, shown, IsKept};

    ghost Value = { Schedule };

    ghost view = { λ w. record {
      now = w.now;
      dues = in_order (joined (shown w.pool.queues));
      spare = w.pool.spare;
    } };

    ghost invariant = { λ w. IsKept w.now w.pending w.overflow_time w.pool };
}

impl Wheel {
    ghost use Rattle.std.specs.Prelude.{[], IfOk};

    /// No dues, at time 0, and room for none.
    pub fn new(alloc: Global) -> Result<Wheel, AllocError>
        ensures { IfOk result (λ w. w ≡ record { now = 0; dues = []; spare = 0 }) }
    {
        Ok(Wheel {
            pool: Pool::new(alloc, QUEUES)?,
            now: 0,
            pending: 0,
            overflow_time: None,
        })
    }
}

impl Agenda for Wheel {
    ghost use Rattle.std.specs.Prelude.{◌≤◌, max, OnOk, OnErr};

    ghost schedule = { λ w. w };

    fn now(&self) -> u64 {
        self.now
    }

    fn spare(&self) -> usize {
        self.pool.spare()
    }

    fn pending(&self) -> usize {
        self.pending
    }

    fn reserve(&mut self, n: usize) -> Result<(), AllocError>
        ensures now { self.new.now ≡ self.old.now }
        ensures dues { self.new.dues ≡ self.old.dues }
        ensures ok { OnOk result (n ≤ self.new.spare) }
        ensures most { OnOk result (self.new.spare ≡ max n self.old.spare) }
        ensures err { OnErr result (self.new ≡ self.old) }
    {
        // More dues than a `usize` can count don't fit in memory.
        if self.pending.checked_add(n).is_none() {
            return Err(AllocError);
        }
        self.pool.reserve(n)
    }

    #[inline(always)]
    fn put(&mut self, due: Due) {
        let time = due.time;
        let queue = queue_for(due.region, self.now, time);
        self.pool.push_back(queue, due);
        self.overflow_time = overflow_time_after(self.overflow_time, queue, time);
        self.pending += 1;
    }

    fn active_len(&self) -> usize {
        self.pool.len(ACTIVE)
    }

    fn settle(&mut self) -> Settled {
        promote(&mut self.pool, self.now);
        found(&self.pool, self.pending)
    }

    fn advance(&mut self) {
        match next_in_block(&self.pool, self.now) {
            Some(time) => {
                self.now = time;
                self.pool.move_all(active_at(time), ACTIVE);
            }
            None => {
                let time = self.overflow_time.unwrap();
                self.now = time;
                self.overflow_time = cascade(&mut self.pool, time, self.pending);
            }
        }
    }

    fn take(&mut self) -> Due {
        self.take_nth(0)
    }

    fn take_nth(&mut self, k: usize) -> Due {
        let mut due = self.pool.take_at(ACTIVE, k);
        self.pending -= 1;
        due.region = Region::Active;
        due
    }

    fn dues(&self, alloc: Global) -> Result<Dues, AllocError> {
        let mut dues = Dues::new(alloc);
        for queue in 0..QUEUES {
            copy_queue(alloc, &self.pool, queue, &mut dues)?;
        }
        dues.sort()?;
        Ok(dues)
    }
}
