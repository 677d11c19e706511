//! The report on the dump of a run: how often its variables rise and fall. What the run prints is left out, and its dump stays with
//! the engine, so that no file is made.

ghost use Rattle.std.specs.Prelude.{◌≡◌, ◌⊎◌, ◌<◌, ◌≤◌, ◌+◌, ◌*◌, ◌^◌, None, Ok, length, true, false, IfOk, IfErr, IfSome, OnOk, OnErr};
ghost use Rattle.dump_law.specs.Kept.{HasOwnDump};
ghost use Rattle.dump_law.specs.Plain.{plain_names};
ghost use Rattle.sim_core.specs.Engine.{in_turn_of_machine};
ghost use Rattle.sim_core.specs.Machine.{Machine};
ghost use Rattle.sim_core.specs.Start.{run as run_of};
ghost use Rattle.sim_core.specs.Step.{run_from, step};
ghost use Rattle.sym_link.specs.Sound.{IsProgram};
ghost use Rattle.vcd_law.specs.Own.{IsOwn};
ghost use Rattle.vcd_read.specs.Grammar.{IsVcd};
ghost use Rattle.vcd_read.specs.Reading.{reading};
ghost use Rattle.vcd_read.specs.Sound.{IsTrace};
ghost use Rattle.vvp_edge.specs.Causes.{Rose};
ghost use Rattle.vvp_words.specs.Seen.{seen};
ghost use Rattle.vvp_top.specs.Activity.{IsReadable, IsTraceOf, KeepsDump, Moves, own_outcome};
ghost use Rattle.vvp_top.specs.Delivery.{same_machine};
ghost use Rattle.vvp_top.specs.Ends.{CutShort, HandedOver};
ghost use Rattle.vvp_top.specs.Texts.{is_ended, yields};
ghost use Rattle.vvp_top.specs.Toggles.{own_text};
ghost use Rattle.vvp_top.specs.Whole.{dump_of, ended, is_larger, reported, silent, trace_of, whole_of_activity};

use crate::delivery::end_budget;
use crate::fault::Fault;
use crate::load::{Runner, load};
use crate::outcome::ended;
use crate::pieces::PIECE;
use crate::refusal::Why;
use crate::toggles::report_toggles;
use crate::verdict::program_of;
use crate::{Outcome, Report};
use dump_law::plain_names;
use event_pool::Agenda;
use port_chain::Fanout;
use sim_core::{Ending, Engine};
use std::alloc::{AllocError, Global};
use sym_link::Program;
use vcd_read::{Trace, VcdFault, read_vcd};
use vvp_edge::{MOST_SOURCE, Sink};
use vvp_words::Entries;

/// What stops a run whose dump is to be read.
#[derive(Clone, Copy, Debug, PartialEq, Eq)]
pub enum Own {
    /// The dump has more than 67,108,864 bytes.
    TooLarge,
    /// Memory ran out.
    Memory,
}

impl Own {
    /// The outcome of a call that it stops.
    fn outcome(self) -> Outcome
        ensures { result ≡ own_outcome self }
    {
        match self {
            Own::TooLarge => Outcome::Refused {
                line: 0,
                why: Why::TooLarge,
            },
            Own::Memory => Outcome::Memory,
        }
    }
}

// Whether there is a dump that is too large to be read. A dump only grows.
fn is_too_large<A: Agenda + Drop, F: Fanout + Drop>(engine: &Engine<A, F>) -> bool
    ensures { result ≡ is_larger MOST_SOURCE (dump_of engine.now.machine) }
{
    match engine.dump_name() {
        None => false,
        Some(_) => engine.dump().len() > MOST_SOURCE,
    }
}

// Takes what was printed away where it has as many bytes as a piece.
fn drop_printed<A: Agenda + Drop, F: Fanout + Drop>(engine: &mut Engine<A, F>)
    ensures moves { Moves same_machine engine.old engine.new }
    ensures steps { engine.new.machine.steps ≡ engine.old.machine.steps }
    ensures ending { engine.new.machine.ending ≡ engine.old.machine.ending }
{
    if engine.out().len() < PIECE {
        return;
    }
    engine.clear_out();
}

// Does one step, and leaves out what is printed. Answers the run's ending, or none where it goes on.
fn silent_turn<A: Agenda + Drop, F: Fanout + Drop>(
    engine: &mut Engine<A, F>,
) -> Result<Option<Ending>, AllocError>
    requires { engine.old.machine.steps < 3 * 2 ^ 62 }
    ensures moves { OnOk result (Moves (step engine.old.program engine.old.order) engine.old engine.new) }
    ensures answer { IfOk result (λ ending. ending ≡ engine.new.machine.ending) }
    ensures counted { OnOk result (engine.new.machine.steps ≤ engine.old.machine.steps + 1) }
{
    match engine.step() {
        Err(error) => Err(error),
        Ok(ending) => {
            drop_printed(engine);
            Ok(ending)
        }
    }
}

// Runs a program for at most so many steps, leaves out what is printed, and keeps the dump, unless it grows too large. Answers the
// ending, or none where the budget is spent.
fn run_silently<A: Agenda + Drop, F: Fanout + Drop>(
    engine: &mut Engine<A, F>,
    budget: u32,
) -> Result<Option<Ending>, Own>
    requires going { engine.old.machine.ending ≡ None }
    requires steps { engine.old.machine.steps ≡ 0 }
    ensures kept { OnOk result ((machine : Machine) → in_turn_of_machine machine ≡ engine.old.machine
        → KeepsDump (run_from engine.old.program engine.old.order budget machine) engine.new) }
    ensures answer { IfOk result (λ ending. ending ≡ engine.new.machine.ending) }
    ensures large { IfErr result (λ own. own ≡ Own.TooLarge → (machine : Machine) → in_turn_of_machine machine ≡ engine.old.machine
        → is_larger MOST_SOURCE (dump_of (run_from engine.old.program engine.old.order budget machine)) ≡ true) }
{
    for _done in 0..budget {
        let answer = match silent_turn(engine) {
            Err(_) => return Err(Own::Memory),
            Ok(answer) => answer,
        };
        if is_too_large(engine) {
            return Err(Own::TooLarge);
        }
        match answer {
            None => {}
            Some(ending) => return Ok(Some(ending)),
        }
    }
    match end_budget(engine) {
        Err(_) => Err(Own::Memory),
        Ok(ending) => Ok(ending),
    }
}

// The trace of a dump of ours: the reader refuses none.
fn read_dump(alloc: Global, dump: &[u8]) -> Result<Trace, Own>
    requires { IsOwn dump.now }
    ensures small { IfOk result (λ trace. length dump.now ≤ MOST_SOURCE) }
    ensures exact { IfOk result (λ trace. reading dump.now ≡ Ok trace) }
    ensures spelled { IfOk result (IsVcd dump.now) }
    ensures of_nets { IfOk result (IsTrace (2 ^ 26)) }
    ensures large { IfErr result (λ own. own ≡ Own.TooLarge → MOST_SOURCE < length dump.now) }
{
    if dump.len() > MOST_SOURCE {
        return Err(Own::TooLarge);
    }
    match read_vcd(alloc, dump) {
        Err(VcdFault::Memory) => Err(Own::Memory),
        Err(VcdFault::Refused { .. }) => unreachable!(),
        Ok(trace) => Ok(trace),
    }
}

// The trace of the dump that an engine has, if it has one.
fn kept_trace(alloc: Global, engine: &Runner) -> Result<Option<Trace>, Own>
    requires { HasOwnDump engine.now.machine }
    ensures small { IfOk result (λ trace. is_larger MOST_SOURCE (dump_of engine.now.machine) ≡ false) }
    ensures exact { IfOk result (λ trace. trace ≡ trace_of (dump_of engine.now.machine)) }
    ensures spelled { IfOk result (IsTraceOf (dump_of engine.now.machine)) }
    ensures of_nets { IfOk result (λ trace. IfSome trace (IsTrace (2 ^ 26))) }
    ensures large { IfErr result (λ own. own ≡ Own.TooLarge → is_larger MOST_SOURCE (dump_of engine.now.machine) ≡ true) }
{
    match engine.dump_name() {
        None => Ok(None),
        Some(_) => match read_dump(alloc, engine.dump()) {
            Err(own) => Err(own),
            Ok(trace) => Ok(Some(trace)),
        },
    }
}

/// Runs a program in this order for at most so many steps, and reads the dump of the run. Answers its trace, or none exactly where
/// there is no dump, and the run's ending, or none exactly where the budget is spent. What the run prints is left out, and no file
/// is made. `plain_names` tells whether the names of a program are plain.
///
/// # Errors
///
/// `TooLarge` exactly where the dump has more than 2^26 bytes, and `Memory` where memory is short. Nothing else is refused: the
/// dump of a run is always in the reader's grammar.
pub fn own_trace(
    alloc: Global,
    program: Program,
    budget: u32,
    order: u32,
) -> Result<(Option<Trace>, Option<Ending>), Own>
    requires linked { IsProgram program }
    requires plain { plain_names program ≡ true }
    // Whatever this call answers, the reader refuses no dump of such a run.
    ensures readable { IsReadable (dump_of (run_of program order budget)) }
    // The trace is the one that the reader's definition gives, and the dump spells it in the grammar.
    ensures trace { IfOk result (λ found. found.0 ≡ trace_of (dump_of (run_of program order budget))) }
    ensures spelled { IfOk result (λ found. IsTraceOf (dump_of (run_of program order budget)) found.0) }
    ensures ending { IfOk result (λ found. found.1 ≡ (run_of program order budget).ending) }
    // Too large exactly where it is.
    ensures small { IfOk result (λ found. is_larger (2 ^ 26) (dump_of (run_of program order budget)) ≡ false) }
    ensures large { IfErr result (λ own. own ≡ Own.TooLarge → is_larger (2 ^ 26) (dump_of (run_of program order budget)) ≡ true) }
    // Each net that is named is there, and each value is as wide as its net.
    ensures of_nets { IfOk result (λ found. IfSome found.0 (IsTrace (2 ^ 26))) }
{
    let mut engine = match load(alloc, program, order) {
        Err(_) => return Err(Own::Memory),
        Ok(engine) => engine,
    };
    let ending = match run_silently(&mut engine, budget) {
        Err(own) => return Err(own),
        Ok(ending) => ending,
    };
    match kept_trace(alloc, &engine) {
        Err(own) => Err(own),
        Ok(trace) => Ok((trace, ending)),
    }
}

// Puts the report on what a dump says out, if there is one. What fails stops it.
fn report_trace<K: Sink>(alloc: Global, trace: &Option<Trace>, out: &mut K) -> Result<(), Fault>
    requires { IfSome trace.now (IsTrace (2 ^ 26)) }
    ensures done { OnOk result (HandedOver (own_text trace.now) (K.held out.old) (K.held out.new)) }
    ensures cut { OnErr result (CutShort (own_text trace.now) (K.held out.old) (K.held out.new)) }
    ensures output_fault { IfErr result (λ fault. fault ≡ Fault.Output → Rose (K.faults out.old) (K.faults out.new)) }
    ensures own { IfErr result (λ fault. fault ≡ Fault.Store → ⊥) }
{
    match trace {
        None => Ok(()),
        Some(trace) => report_toggles(alloc, trace, out),
    }
}

// The trace of the dump of a source's run, if there is one, and the run's ending. Refused where the source has no program, where a
// dump can't hold its names, and where the dump is too large.
fn trace_of_source(
    alloc: Global,
    source: &[u8],
    entries: &Entries,
) -> Result<(Option<Trace>, Option<Ending>), Outcome>
    ensures whole { IfOk result (λ found. whole_of_activity (seen entries.now) source.now ≡ reported (ended found.1) (own_text found.0)) }
    ensures of_nets { IfOk result (λ found. IfSome found.0 (IsTrace (2 ^ 26))) }
    ensures refused { IfErr result (λ outcome. (outcome ≡ Outcome.Memory) ⊎ (whole_of_activity (seen entries.now) source.now ≡ silent outcome)) }
    ensures own { IfErr result (λ outcome. (outcome ≡ Outcome.StoreFault → ⊥) × (outcome ≡ Outcome.OutputFault → ⊥) × (outcome ≡ Outcome.BadWords → ⊥)) }
{
    let program = match program_of(alloc, source) {
        Err(outcome) => return Err(outcome),
        Ok(program) => program,
    };
    if !plain_names(&program) {
        return Err(Outcome::Refused {
            line: 0,
            why: Why::BadName,
        });
    }
    match own_trace(alloc, program, entries.budget, entries.order) {
        Err(own) => Err(own.outcome()),
        Ok(found) => Ok(found),
    }
}

/// Runs the program of a source, if it has one, and puts the report on its dump out.
pub(crate) fn report_activity<K: Sink>(
    alloc: Global,
    source: &[u8],
    entries: &Entries,
    out: &mut K,
) -> Result<Report, Outcome>
    ensures whole { IfOk result (λ report. let w = whole_of_activity (seen entries.now) source.now in
        (report ≡ w.report) × HandedOver w.output (K.held out.old) (K.held out.new)) }
    ensures cut { IfErr result (λ outcome. yields outcome ≡ true → CutShort (whole_of_activity (seen entries.now) source.now).output (K.held out.old) (K.held out.new)) }
    ensures refused { IfErr result (λ outcome. yields outcome ≡ false → (whole_of_activity (seen entries.now) source.now ≡ silent outcome) × (K.held out.new ≡ K.held out.old)) }
    ensures output_fault { IfErr result (λ outcome. outcome ≡ Outcome.OutputFault → Rose (K.faults out.old) (K.faults out.new)) }
    ensures own { IfErr result (λ outcome. (outcome ≡ Outcome.StoreFault → ⊥) × (outcome ≡ Outcome.BadWords → ⊥)) }
    ensures ended { IfOk result (λ report. is_ended report.outcome ≡ true) }
{
    let (trace, ending) = match trace_of_source(alloc, source, entries) {
        Err(outcome) => return Err(outcome),
        Ok(found) => found,
    };
    match report_trace(alloc, &trace, out) {
        Err(fault) => Err(fault.outcome()),
        Ok(()) => Ok(Report::bare(ended(ending))),
    }
}
