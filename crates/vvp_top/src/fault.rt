//! What stops a call before its end.

ghost use Rattle.std.specs.Prelude.{◌≡◌};
ghost use Rattle.vvp_top.specs.Ends.{outcome_of};

use crate::Outcome;
use std::alloc::AllocError;

/// What stops a run before its end.
#[derive(Clone, Copy, Debug, PartialEq, Eq)]
pub(crate) enum Fault {
    /// The store failed.
    Store,
    /// The output failed.
    Output,
    /// Memory ran out.
    Memory,
}

impl From<AllocError> for Fault {
    ghost use Rattle.std.specs.Prelude.{◌≡◌};
    ghost use Rattle.vvp_top.specs.declared.fault.Fault.TheVariants.{Memory};

    ghost from_gives = { λ _ fault. fault ≡ Memory };

    fn from(_error: AllocError) -> Fault {
        Fault::Memory
    }
}

impl Fault {
    /// The outcome of a call that it stops.
    pub(crate) fn outcome(self) -> Outcome
        ensures { result ≡ outcome_of self }
    {
        match self {
            Fault::Store => Outcome::StoreFault,
            Fault::Output => Outcome::OutputFault,
            Fault::Memory => Outcome::Memory,
        }
    }
}
