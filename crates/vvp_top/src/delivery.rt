//! A run whose output is handed over while it goes on.

ghost use Rattle.std.specs.Prelude.{◌≡◌, ◌<◌, ◌≤◌, ◌+◌, ◌*◌, ◌^◌, [], None, Some, true, false, IsTrue, IfOk, IfErr, IsErrOf, OnOk, OnErr};
ghost use Rattle.std.specs.Io.KnownBytes.{append_known};
ghost use Rattle.sim_core.specs.Engine.{EngineFollows, in_turn_of_machine};
ghost use Rattle.sim_core.specs.Machine.{Machine};
ghost use Rattle.sim_core.specs.Step.{budgeted, run_from};
ghost use Rattle.vvp_edge.specs.Causes.{Rose};
ghost use Rattle.vvp_top.specs.Delivery.{Before, DoneAt, Goes, IsCut, IsDone, Stands, Turns, moment, same_machine};

use crate::dump::send_dump;
use crate::fault::Fault;
use crate::pieces::{PIECE, send_pieces};
use event_pool::Agenda;
use port_chain::Fanout;
use sim_core::{Ending, Engine};
use vvp_edge::{Sink, Store};

// Hands all output and then all of the dump over.
fn hand_over<A: Agenda + Drop, F: Fanout + Drop, S: Store, K: Sink>(
    engine: &mut Engine<A, F>,
    store: &mut S,
    out: &mut K,
    made: &mut bool,
) -> Result<(), Fault>
    requires { made.old ≡ true → IsTrue (S.writing store.old) }
    ensures goes { Goes same_machine result
        (moment made.old engine.old (K.held out.old) (K.faults out.old) (S.files store.old) (S.target store.old) (S.writing store.old) (S.faults store.old))
        (moment made.new engine.new (K.held out.new) (K.faults out.new) (S.files store.new) (S.target store.new) (S.writing store.new) (S.faults store.new)) }
    ensures done { OnOk result ((machine : Machine) (before : Before)
        → Stands machine before (moment made.old engine.old (K.held out.old) (K.faults out.old) (S.files store.old) (S.target store.old) (S.writing store.old) (S.faults store.old))
        → DoneAt machine before (moment made.new engine.new (K.held out.new) (K.faults out.new) (S.files store.new) (S.target store.new) (S.writing store.new) (S.faults store.new))) }
    ensures steps { OnOk result (engine.new.machine.steps ≡ engine.old.machine.steps) }
    ensures ending { OnOk result (engine.new.machine.ending ≡ engine.old.machine.ending) }
    // The output goes first.
    ensures out_first { IsErrOf result Fault.Store → K.held out.new ≡ append_known (K.held out.old) engine.old.machine.tasks.out }
{
    match send_pieces(out, engine.out(), PIECE) {
        Err(_) => return Err(Fault::Output),
        Ok(()) => {}
    }
    engine.clear_out();
    match send_dump(engine, store, made) {
        Ok(()) => Ok(()),
        Err(_) => Err(Fault::Store),
    }
}

// Whether a buffer has as many bytes as a piece.
fn is_full<A: Agenda + Drop, F: Fanout + Drop>(engine: &Engine<A, F>) -> bool {
    engine.out().len() >= PIECE || engine.dump().len() >= PIECE
}

// Hands all over where a buffer is full.
fn hand_over_if_full<A: Agenda + Drop, F: Fanout + Drop, S: Store, K: Sink>(
    engine: &mut Engine<A, F>,
    store: &mut S,
    out: &mut K,
    made: &mut bool,
) -> Result<(), Fault>
    requires { made.old ≡ true → IsTrue (S.writing store.old) }
    ensures goes { Goes same_machine result
        (moment made.old engine.old (K.held out.old) (K.faults out.old) (S.files store.old) (S.target store.old) (S.writing store.old) (S.faults store.old))
        (moment made.new engine.new (K.held out.new) (K.faults out.new) (S.files store.new) (S.target store.new) (S.writing store.new) (S.faults store.new)) }
    ensures steps { OnOk result (engine.new.machine.steps ≡ engine.old.machine.steps) }
    ensures ending { OnOk result (engine.new.machine.ending ≡ engine.old.machine.ending) }
{
    if is_full(engine) {
        return hand_over(engine, store, out, made);
    }
    Ok(())
}

// Does a thread's own opcodes in a row and then one step, at most so many steps in all, after which full buffers are handed over.
// Answers how many steps it did, and the run's ending, or none where it goes on.
fn turn<A: Agenda + Drop, F: Fanout + Drop, S: Store, K: Sink>(
    engine: &mut Engine<A, F>,
    most: u32,
    store: &mut S,
    out: &mut K,
    made: &mut bool,
) -> Result<(u32, Option<Ending>), Fault>
    requires some { 0 < most }
    requires steps { engine.old.machine.steps + most ≤ 3 * 2 ^ 62 }
    requires writing { made.old ≡ true → IsTrue (S.writing store.old) }
    ensures turns { Turns engine.old.program engine.old.order most result
        (moment made.old engine.old (K.held out.old) (K.faults out.old) (S.files store.old) (S.target store.old) (S.writing store.old) (S.faults store.old))
        (moment made.new engine.new (K.held out.new) (K.faults out.new) (S.files store.new) (S.target store.new) (S.writing store.new) (S.faults store.new)) }
    ensures answer { IfOk result (λ turned. turned.1 ≡ engine.new.machine.ending) }
    ensures counted { IfOk result (λ turned. engine.new.machine.steps ≤ engine.old.machine.steps + turned.0) }
{
    let ran = engine.run_on(most - 1);
    let ending = match engine.step() {
        Err(_) => return Err(Fault::Memory),
        Ok(ending) => ending,
    };
    match hand_over_if_full(engine, store, out, made) {
        Err(fault) => Err(fault),
        Ok(()) => Ok((ran + 1, ending)),
    }
}

/// The end of a budget: a run with nothing left to do is idle, and any other stays as it is. Answers the ending, if there is one.
pub(crate) fn end_budget<A: Agenda + Drop, F: Fanout + Drop>(
    engine: &mut Engine<A, F>,
) -> Result<Option<Ending>, Fault>
    requires steps { engine.old.machine.steps < 3 * 2 ^ 62 }
    requires going { engine.old.machine.ending ≡ None }
    ensures shown { OnOk result (EngineFollows (budgeted engine.old.program) engine.old engine.new) }
    ensures answer { IfOk result (λ ending. ending ≡ engine.new.machine.ending) }
    ensures stop { IfErr result (λ fault. fault ≡ Fault.Memory) }
{
    if engine.idle() {
        return match engine.step() {
            Err(_) => Err(Fault::Memory),
            Ok(ending) => Ok(ending),
        };
    }
    Ok(None)
}

// The end of a run: its budget ends, and all is handed over. Answers the ending, if there is one.
fn end_run<A: Agenda + Drop, F: Fanout + Drop, S: Store, K: Sink>(
    engine: &mut Engine<A, F>,
    store: &mut S,
    out: &mut K,
    made: &mut bool,
) -> Result<Option<Ending>, Fault>
    requires steps { engine.old.machine.steps < 3 * 2 ^ 62 }
    requires going { engine.old.machine.ending ≡ None }
    requires writing { made.old ≡ true → IsTrue (S.writing store.old) }
    ensures goes { Goes (budgeted engine.old.program) result
        (moment made.old engine.old (K.held out.old) (K.faults out.old) (S.files store.old) (S.target store.old) (S.writing store.old) (S.faults store.old))
        (moment made.new engine.new (K.held out.new) (K.faults out.new) (S.files store.new) (S.target store.new) (S.writing store.new) (S.faults store.new)) }
    ensures done { OnOk result ((machine : Machine) (before : Before)
        → Stands machine before (moment made.old engine.old (K.held out.old) (K.faults out.old) (S.files store.old) (S.target store.old) (S.writing store.old) (S.faults store.old))
        → DoneAt (budgeted engine.old.program machine) before (moment made.new engine.new (K.held out.new) (K.faults out.new) (S.files store.new) (S.target store.new) (S.writing store.new) (S.faults store.new))) }
    ensures answer { IfOk result (λ ending. ending ≡ engine.new.machine.ending) }
{
    let ending = match end_budget(engine) {
        Err(fault) => return Err(fault),
        Ok(ending) => ending,
    };
    match hand_over(engine, store, out, made) {
        Err(fault) => Err(fault),
        Ok(()) => Ok(ending),
    }
}

// The end of a run that has ended: all is handed over. Answers the ending.
fn close<A: Agenda + Drop, F: Fanout + Drop, S: Store, K: Sink>(
    engine: &mut Engine<A, F>,
    store: &mut S,
    out: &mut K,
    made: &mut bool,
    ending: Ending,
) -> Result<Option<Ending>, Fault>
    requires { made.old ≡ true → IsTrue (S.writing store.old) }
    ensures goes { Goes same_machine result
        (moment made.old engine.old (K.held out.old) (K.faults out.old) (S.files store.old) (S.target store.old) (S.writing store.old) (S.faults store.old))
        (moment made.new engine.new (K.held out.new) (K.faults out.new) (S.files store.new) (S.target store.new) (S.writing store.new) (S.faults store.new)) }
    ensures done { OnOk result ((machine : Machine) (before : Before)
        → Stands machine before (moment made.old engine.old (K.held out.old) (K.faults out.old) (S.files store.old) (S.target store.old) (S.writing store.old) (S.faults store.old))
        → DoneAt machine before (moment made.new engine.new (K.held out.new) (K.faults out.new) (S.files store.new) (S.target store.new) (S.writing store.new) (S.faults store.new))) }
    ensures answer { IfOk result (λ answer. answer ≡ Some ending) }
    ensures ending { OnOk result (engine.new.machine.ending ≡ engine.old.machine.ending) }
{
    match hand_over(engine, store, out, made) {
        Err(fault) => Err(fault),
        Ok(()) => Ok(Some(ending)),
    }
}

/// Runs a program for at most so many steps, and hands its output and its dump over: after each step that leaves a buffer full, and at
/// the end. Answers the ending, or none where the budget is spent.
///
/// The output goes before the dump, in pieces of at most 65,536 bytes. The dump's file is made before its first piece. What fails
/// first stops the run, and nothing more is handed over.
pub(crate) fn run_engine<A: Agenda + Drop, F: Fanout + Drop, S: Store, K: Sink>(
    engine: &mut Engine<A, F>,
    budget: u32,
    store: &mut S,
    out: &mut K,
) -> Result<Option<Ending>, Fault>
    requires going { engine.old.machine.ending ≡ None }
    requires steps { engine.old.machine.steps ≡ 0 }
    ensures done { OnOk result ((machine : Machine) → in_turn_of_machine machine ≡ engine.old.machine
        → IsDone (run_from engine.old.program engine.old.order budget machine) (K.held out.old) (S.files store.old) engine.new (K.held out.new) (S.files store.new)) }
    ensures cut { OnErr result ((machine : Machine) → in_turn_of_machine machine ≡ engine.old.machine
        → IsCut (run_from engine.old.program engine.old.order budget machine) (K.held out.old) (S.files store.old) (K.held out.new) (S.files store.new)) }
    ensures answer { IfOk result (λ ending. ending ≡ engine.new.machine.ending) }
    ensures store_fault { IfErr result (λ fault. fault ≡ Fault.Store → Rose (S.faults store.old) (S.faults store.new)) }
    ensures output_fault { IfErr result (λ fault. fault ≡ Fault.Output → Rose (K.faults out.old) (K.faults out.new)) }
    ensures store_later { S.faults store.old ≤ S.faults store.new }
    ensures out_later { K.faults out.old ≤ K.faults out.new }
{
    let mut made = false;
    let mut done = 0;
    while done < budget {
        let (turned, answer) = match turn(engine, budget - done, store, out, &mut made) {
            Err(fault) => return Err(fault),
            Ok(turned) => turned,
        };
        done += turned;
        match answer {
            None => {}
            Some(ending) => return close(engine, store, out, &mut made, ending),
        }
    }
    end_run(engine, store, out, &mut made)
}
