// Calls that are counted, of which some are told to fail.
ghost use Rattle.std.specs.Prelude.{◌≡◌, [], OnOk, OnErr};
ghost use Rattle.vvp_edge.specs.Counts.{CallsState, also_failing, fails_next, next_call};

use std::alloc::{AllocError, Global};
use std::marker::Model;

/// A kind of calls of a store, each of which is counted on its own.
#[derive(Clone, Copy, Debug, PartialEq, Eq)]
pub enum CallKind {
    /// `Store::open_file`
    OpenFile,
    /// `Store::read`
    Read,
    /// `Store::create`
    Create,
    /// `Store::append` of a piece that isn't empty
    Append,
}

/// The calls of one kind: how many were made, and the numbers of those that fail, counted from 1.
#[derive(Drop)]
pub(crate) struct Calls {
    made: u64,
    failing: Vec<u64>,
}

impl Model for Calls {
    ghost Value = { CallsState };

    ghost view = { λ s. record { made = s.made; failing = s.failing.items } };
}

impl Calls {
    /// No call was made, and none is to fail.
    pub(crate) fn new(alloc: Global) -> Calls
        ensures { result ≡ record { made = 0; failing = [] } }
    {
        Calls {
            made: 0,
            failing: Vec::new(alloc),
        }
    }

    /// Lets the nth call fail.
    pub(crate) fn fail_at(&mut self, nth: u64) -> Result<(), AllocError>
        ensures ok { OnOk result (self.new ≡ also_failing nth self.old) }
        ensures err { OnErr result (self.new ≡ self.old) }
    {
        self.failing.push(nth)?;
        Ok(())
    }

    /// Counts a call, and answers whether it fails.
    pub(crate) fn fails_next(&mut self) -> bool
        ensures result { result ≡ fails_next self.old }
        ensures made { self.new ≡ next_call self.old }
    {
        self.made = self.made.saturating_add(1);
        let number = self.made;
        self.failing.iter().any(|nth| *nth == number)
    }
}
