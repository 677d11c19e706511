//! The lists of a snapshot.

ghost use Rattle.std.specs.Prelude.{◌≡◌, [], ◌∷◌, ◌++◌, map, OnOk, OnErr};
ghost use Rattle.sim_core.specs.Lists.{levels_or_none};

use std::alloc::{AllocError, Global};
use std::marker::Model;
use strengths::{Level, Vec8};
use sys_tasks::VecList;
use vvp_threads::{Serials, Thread};

/// A list of threads. Contracts see the list.
#[derive(Drop)]
pub struct ThreadList {
    threads: Vec<Thread>,
}

impl Model for ThreadList {
    ghost use Rattle.std.specs.Prelude.{List};
    ghost use Rattle.vvp_threads.specs.declared.thread.Thread.{Thread};

    ghost Value = { List Thread };

    ghost view = { λ l. l.threads.items };
}

impl ThreadList {
    /// The empty list. It takes no memory yet.
    pub fn new(alloc: Global) -> ThreadList
        ensures { result ≡ [] }
    {
        ThreadList {
            threads: Vec::new(alloc),
        }
    }

    /// One more, at the end. Without memory for it the list stays as it was.
    pub fn push(&mut self, thread: Thread) -> Result<(), AllocError>
        ensures ok { OnOk result (self.new ≡ self.old ++ thread ∷ []) }
        ensures err { OnErr result (self.new ≡ self.old) }
    {
        self.threads.push(thread)?;
        Ok(())
    }

    /// All of them, in order.
    pub fn as_slice(&self) -> &[Thread]
        ensures { result.now ≡ self.now }
    {
        self.threads.as_slice()
    }
}

/// A list of lists of serials. Contracts see the list of lists.
#[derive(Drop)]
pub struct WaitList {
    waiters: Vec<Serials>,
}

impl Model for WaitList {
    ghost use Rattle.std.specs.Prelude.{List, ℕ};

    ghost Value = { List (List ℕ) };

    ghost view = { λ l. l.waiters.items };
}

impl WaitList {
    /// The empty list. It takes no memory yet.
    pub fn new(alloc: Global) -> WaitList
        ensures { result ≡ [] }
    {
        WaitList {
            waiters: Vec::new(alloc),
        }
    }

    /// One more, at the end. Without memory for it the list stays as it was.
    pub fn push(&mut self, waiters: Serials) -> Result<(), AllocError>
        ensures ok { OnOk result (self.new ≡ self.old ++ waiters ∷ []) }
        ensures err { OnErr result (self.new ≡ self.old) }
    {
        self.waiters.push(waiters)?;
        Ok(())
    }

    /// All of them, in order.
    pub fn as_slice(&self) -> &[Serials]
        ensures { result.now ≡ self.now }
    {
        self.waiters.as_slice()
    }
}

/// A list of lists of levels, each of 1 to 128 levels, lowest place first, or empty. Contracts see the list of lists.
#[derive(Drop)]
pub struct LevelList {
    levels: Vec<Option<Vec8>>,
}

impl Model for LevelList {
    ghost use Rattle.std.specs.Prelude.{List, map};
    ghost use Rattle.strengths.specs.Interval.{Interval};
    ghost use Rattle.sim_core.specs.Lists.{levels_or_none};

    ghost Value = { List (List Interval) };

    ghost view = { λ l. map levels_or_none l.levels.items };
}

impl LevelList {
    /// The empty list. It takes no memory yet.
    pub fn new(alloc: Global) -> LevelList
        ensures { result ≡ [] }
    {
        LevelList {
            levels: Vec::new(alloc),
        }
    }

    /// One more, at the end: these levels, or the empty list. Without memory for it the list stays as it was.
    pub fn push(&mut self, levels: Option<Vec8>) -> Result<(), AllocError>
        ensures ok { OnOk result (self.new ≡ self.old ++ levels_or_none levels ∷ []) }
        ensures err { OnErr result (self.new ≡ self.old) }
    {
        self.levels.push(levels)?;
        Ok(())
    }

    /// All of them, in order; none stands for the empty list.
    pub fn as_slice(&self) -> &[Option<Vec8>]
        ensures { map levels_or_none result.now ≡ self.now }
    {
        self.levels.as_slice()
    }
}

/// A list of levels, any of which may be none. Contracts see the list.
#[derive(Drop)]
pub struct Forced {
    levels: Vec<Option<Level>>,
}

impl Model for Forced {
    ghost use Rattle.std.specs.Prelude.{List, Option};
    ghost use Rattle.strengths.specs.Interval.{Interval};

    ghost Value = { List (Option Interval) };

    ghost view = { λ l. l.levels.items };
}

impl Forced {
    /// The empty list. It takes no memory yet.
    pub fn new(alloc: Global) -> Forced
        ensures { result ≡ [] }
    {
        Forced {
            levels: Vec::new(alloc),
        }
    }

    /// One more, at the end. Without memory for it the list stays as it was.
    pub fn push(&mut self, level: Option<Level>) -> Result<(), AllocError>
        ensures ok { OnOk result (self.new ≡ self.old ++ level ∷ []) }
        ensures err { OnErr result (self.new ≡ self.old) }
    {
        self.levels.push(level)?;
        Ok(())
    }

    /// All of them, in order.
    pub fn as_slice(&self) -> &[Option<Level>]
        ensures { result.now ≡ self.now }
    {
        self.levels.as_slice()
    }
}

/// A list of what is forced on items. Contracts see the list of lists.
#[derive(Drop)]
pub struct ForcedList {
    items: Vec<Forced>,
}

impl Model for ForcedList {
    ghost use Rattle.std.specs.Prelude.{List, Option};
    ghost use Rattle.strengths.specs.Interval.{Interval};

    ghost Value = { List (List (Option Interval)) };

    ghost view = { λ l. l.items.items };
}

impl ForcedList {
    /// The empty list. It takes no memory yet.
    pub fn new(alloc: Global) -> ForcedList
        ensures { result ≡ [] }
    {
        ForcedList {
            items: Vec::new(alloc),
        }
    }

    /// One more, at the end. Without memory for it the list stays as it was.
    pub fn push(&mut self, forced: Forced) -> Result<(), AllocError>
        ensures ok { OnOk result (self.new ≡ self.old ++ forced ∷ []) }
        ensures err { OnErr result (self.new ≡ self.old) }
    {
        self.items.push(forced)?;
        Ok(())
    }

    /// All of them, in order.
    pub fn as_slice(&self) -> &[Forced]
        ensures { result.now ≡ self.now }
    {
        self.items.as_slice()
    }
}

/// A list of the words of arrays. Contracts see the list of lists.
#[derive(Drop)]
pub struct WordList {
    arrays: Vec<VecList>,
}

impl Model for WordList {
    ghost use Rattle.std.specs.Prelude.{List};
    ghost use Rattle.four_state.specs.declared.bits.Bit.{Bit};

    ghost Value = { List (List (List Bit)) };

    ghost view = { λ l. l.arrays.items };
}

impl WordList {
    /// The empty list. It takes no memory yet.
    pub fn new(alloc: Global) -> WordList
        ensures { result ≡ [] }
    {
        WordList {
            arrays: Vec::new(alloc),
        }
    }

    /// One more, at the end. Without memory for it the list stays as it was.
    pub fn push(&mut self, words: VecList) -> Result<(), AllocError>
        ensures ok { OnOk result (self.new ≡ self.old ++ words ∷ []) }
        ensures err { OnErr result (self.new ≡ self.old) }
    {
        self.arrays.push(words)?;
        Ok(())
    }

    /// All of them, in order.
    pub fn as_slice(&self) -> &[VecList]
        ensures { result.now ≡ self.now }
    {
        self.arrays.as_slice()
    }
}

/// A list of the last requests of net delays: the number of each, and the value that it keeps. Contracts see the list.
#[derive(Drop)]
pub struct DelayList {
    requests: Vec<(u64, Option<Vec8>)>,
}

impl Model for DelayList {
    ghost use Rattle.std.specs.Prelude.{List, Option, ℕ};
    ghost use Rattle.strengths.specs.Interval.{Interval};

    ghost Value = { List (ℕ × Option (List Interval)) };

    ghost view = { λ l. l.requests.items };
}

impl DelayList {
    /// The empty list. It takes no memory yet.
    pub fn new(alloc: Global) -> DelayList
        ensures { result ≡ [] }
    {
        DelayList {
            requests: Vec::new(alloc),
        }
    }

    /// One more, at the end. Without memory for it the list stays as it was.
    pub fn push(&mut self, request: (u64, Option<Vec8>)) -> Result<(), AllocError>
        ensures ok { OnOk result (self.new ≡ self.old ++ request ∷ []) }
        ensures err { OnErr result (self.new ≡ self.old) }
    {
        self.requests.push(request)?;
        Ok(())
    }

    /// All of them, in order.
    pub fn as_slice(&self) -> &[(u64, Option<Vec8>)]
        ensures { result.now ≡ self.now }
    {
        self.requests.as_slice()
    }
}
