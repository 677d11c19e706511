ghost use Rattle.std.specs.Prelude.{◌≡◌, ◌↔◌, ◌∷◌, ◌++◌, [], length, IsTrue, IfOk, OnOk, OnErr};

use crate::agenda::Due;
use std::alloc::{AllocError, Global};
use std::marker::Model;

/// A list of dues.
#[derive(Drop)]
pub struct Dues {
    dues: Vec<Due>,
}

impl Model for Dues {
    ghost use Rattle.std.specs.Prelude.{List};
    ghost use Rattle.event_pool.specs.declared.agenda.Due.{Due};

    ghost Value = { List Due };

    ghost view = { λ d. d.dues.items };
}

impl Dues {
    ghost use Rattle.event_pool.specs.Order.{in_order};

    /// No dues.
    pub fn new(alloc: Global) -> Dues
        ensures { result ≡ [] }
    {
        Dues {
            dues: Vec::new(alloc),
        }
    }

    /// A copy of the dues, in their order.
    pub fn from_slice(alloc: Global, dues: &[Due]) -> Result<Dues, AllocError>
        ensures { IfOk result (λ d. d ≡ dues.now) }
    {
        let dues = Vec::from_slice(alloc, dues)?;
        Ok(Dues { dues })
    }

    /// Puts a due last. Where memory is wanting, all stays.
    pub fn push(&mut self, due: Due) -> Result<(), AllocError>
        ensures ok { OnOk result (self.new ≡ self.old ++ due ∷ []) }
        ensures err { OnErr result (self.new ≡ self.old) }
    {
        self.dues.extend_from_slice(&[due])
    }

    /// Puts the dues in the order of time, then Active, Inactive, Nonblocking, then the order that
    /// they had. Where memory is wanting, all stays.
    pub fn sort(&mut self) -> Result<(), AllocError>
        ensures ok { OnOk result (self.new ≡ in_order self.old) }
        ensures err { OnErr result (self.new ≡ self.old) }
    {
        self.dues.sort_by_key(|due| due.turn())
    }

    /// The dues, in order.
    pub fn as_slice(&self) -> &[Due]
        ensures { result.now ≡ self.now }
    {
        self.dues.as_slice()
    }

    /// How many dues there are.
    pub fn len(&self) -> usize
        ensures { result ≡ length self.now }
    {
        self.dues.len()
    }

    /// Whether there is no due.
    pub fn is_empty(&self) -> bool
        ensures { IsTrue result ↔ (self.now ≡ []) }
    {
        self.dues.is_empty()
    }
}
