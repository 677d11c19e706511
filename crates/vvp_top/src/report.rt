//! What a call says of itself.

ghost use Rattle.std.specs.Prelude.{◌≡◌, ◌≤◌, None};
ghost use Rattle.vvp_top.specs.Ends.{Says, SaysOrFails};
ghost use Rattle.vvp_top.specs.Texts.{counts_line, lines_of};

use crate::Outcome;
use crate::pieces::try_say;
use itoa::Buffer;
use vvp_edge::{Failed, Sink};

/// The counts of a run.
#[derive(Clone, Copy, Debug, PartialEq, Eq)]
pub struct Counts {
    /// The time at which it ended, in ticks.
    pub time: u64,
    /// The steps that it did.
    pub steps: u64,
    /// The greatest number of dues that were pending at any moment.
    pub peak: u64,
}

/// How a call ends, and the counts of its run, where they are wanted and it has come to its end.
#[derive(Clone, Copy, Debug, PartialEq, Eq)]
pub struct Report {
    pub outcome: Outcome,
    pub counts: Option<Counts>,
}

// Says the line of a run's counts.
fn say_counts<M: Sink>(errs: &mut M, outcome: Outcome, counts: Counts) -> Result<(), Failed>
    ensures said { SaysOrFails result (counts_line outcome counts) (M.held errs.old) (M.held errs.new) (M.faults errs.old) (M.faults errs.new) }
    ensures later { M.faults errs.old ≤ M.faults errs.new }
{
    let mut time = Buffer::new();
    let mut steps = Buffer::new();
    let mut peak = Buffer::new();
    let time = time.format(counts.time).as_bytes();
    let steps = steps.format(counts.steps).as_bytes();
    let peak = peak.format(counts.peak).as_bytes();
    let pieces: [&[u8]; 9] = [
        b"ending=",
        outcome.ending_name(),
        b" time=",
        time,
        b" steps=",
        steps,
        b" peak=",
        peak,
        b"\n",
    ];
    try_say(errs, &pieces)
}

impl Report {
    /// A report without counts.
    pub fn bare(outcome: Outcome) -> Report
        ensures { result ≡ record { outcome = outcome; counts = None } }
    {
        Report {
            outcome,
            counts: None,
        }
    }

    /// Says the program's lines on it: that of the counts, where it has them, and that of the outcome. Where the sink fails, a
    /// front of them was said.
    pub fn say<M: Sink>(self, errs: &mut M)
        ensures { Says (lines_of self) (M.held errs.old) (M.held errs.new) (M.faults errs.old) (M.faults errs.new) }
    {
        let counts = match self.counts {
            None => return self.outcome.say(errs),
            Some(counts) => counts,
        };
        match say_counts(errs, self.outcome, counts) {
            Err(_) => {}
            Ok(()) => self.outcome.say(errs),
        }
    }
}
