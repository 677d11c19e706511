//! Taking a due.

ghost use Rattle.std.specs.Prelude.{◌≡◌, ◌<◌, ◌≤◌, ◌+◌, ◌-◌, ◌*◌, ◌^◌, ℕ, List, Some, None, Option, true, false, OnOk, OnErr, IfOk, IfSome, is_some, length, min, All, IsTrue, option_map, if◌then◌else◌};
ghost use Rattle.vvp_threads.specs.Keyed.{IsKeyOf};
ghost use Rattle.vvp_threads.specs.Runs.{HasKey};
ghost use Rattle.vvp_threads.specs.declared.thread.ThreadState.{ThreadState};
ghost use Rattle.vvp_threads.specs.Table.{IsInState, has, live_count, thread_of, waiters_of};
ghost use Rattle.sim_core.specs.declared.engine.Running.{Running};
ghost use Rattle.event_pool.specs.declared.agenda.Act.{Act};
ghost use Rattle.event_pool.specs.declared.agenda.Settled.{Settled};
ghost use Rattle.event_pool.specs.Schedule.{active_dues};
ghost use Rattle.sim_core.specs.Step.{advance, is_ready, pick, ready, settle, step};
ghost use Rattle.sim_core.specs.Engine.{EngineKeeps};
ghost use Rattle.sim_core.specs.Machine.{dues_of, now_of};
ghost use Rattle.sim_core.specs.Parts.{ShownFollows, ShownSteps, ShownFails, Unprinted, Unwritten, is_ready_state, is_delay_in, stepped, take_by_order, with_pending};

use crate::ending::Ending;
use crate::engine::{Engine, Running};
use crate::pieces::{make_room, pick};
use event_pool::{Act, Agenda, Settled};
use port_chain::Fanout;
use std::alloc::AllocError;
use sym_link::{Item, ItemKind};
use vvp_threads::Threads;

// Whether a settled agenda has a due to take.
fn is_ready(state: Settled) -> bool
    ensures { result ≡ is_ready_state state }
{
    matches!(state, Settled::Ready)
}

// Whether an item is a net delay.
fn is_delay(items: &[Item], item: u32) -> bool
    requires { item < length items.now }
    ensures { result ≡ is_delay_in items.now item }
{
    matches!(items[item as usize].what, ItemKind::Delay { .. })
}

// The thread that a Run lets go on, where it has not ended.
fn runner(threads: &Threads, serial: u64, key: usize) -> Option<Running>
    requires { HasKey threads.now.keys (Act.Run serial key) }
    ensures runner { option_map (λ (running : Running). running.serial) result ≡ (if is_some (thread_of threads.now.table serial) then Some serial else None) }
    ensures key { IfSome result (λ running. IsKeyOf threads.now running.serial running.key) }
    ensures waiting { (event waiter : ℕ) → has (waiters_of threads.now.table event) waiter ≡ true → IsInState threads.now.table waiter (ThreadState.Waiting event) }
{
    match threads.get(key) {
        Some(thread) => {
            if thread.serial == serial {
                Some(Running { serial, key })
            } else {
                None
            }
        }
        None => None,
    }
}

// Makes room for one due more, which the evaluation of a net delay may put. A gate's puts none.
fn make_delay_room<A: Agenda>(
    agenda: &mut A,
    threads: &Threads,
    items: &[Item],
    outputs: usize,
    item: u32,
) -> Result<(), AllocError>
    requires item { item < length items.now }
    requires few { outputs < 2 ^ 32 }
    ensures now { (A.schedule agenda.new).now ≡ (A.schedule agenda.old).now }
    ensures dues { (A.schedule agenda.new).dues ≡ (A.schedule agenda.old).dues }
    ensures gate { is_delay_in items.now item ≡ false → A.schedule agenda.new ≡ A.schedule agenda.old }
    ensures delay { OnOk result (is_delay_in items.now item ≡ true
        → min (A.schedule agenda.old).spare (live_count threads.now.table + outputs) + 1 ≤ (A.schedule agenda.new).spare) }
{
    if is_delay(items, item) {
        return make_room(agenda, threads, outputs);
    }
    Ok(())
}

// The place of the Active due of now that an order picks, when so many were taken before. Order 0 picks the first, and doesn't
// count them.
fn picked<A: Agenda>(agenda: &A, order: u32, taken: u64) -> usize
    requires some { 0 < length (active_dues (A.schedule agenda.now).now (A.schedule agenda.now).dues) }
    requires few { taken < 2 ^ 64 - 1 }
    ensures { result ≡ pick order taken (length (active_dues (A.schedule agenda.now).now (A.schedule agenda.now).dues)) }
{
    if order == 0 {
        return 0;
    }
    pick(order, taken, agenda.active_len())
}

impl<A: Agenda + Drop, F: Fanout + Drop> Engine<A, F> {
    /// Does one step of a run that goes on.
    pub(crate) fn go_on(&mut self) -> Result<(), AllocError>
        requires fine { self.old.failed ≡ false }
        requires going { self.old.machine.ending ≡ None }
        requires steps { self.old.machine.steps < 3 * 2 ^ 62 }
        ensures ok { OnOk result (ShownSteps (step self.old.program self.old.order) self.old self.new) }
        ensures err { OnErr result (ShownFails (step self.old.program self.old.order) self.old self.new) }
        ensures kept { OnErr result (EngineKeeps self.old.machine self.new.machine) }
    {
        if self.running.is_some() {
            return self.run_opcode();
        }
        if self.ready()? {
            self.take_due()?;
            self.see_peak();
        }
        Ok(())
    }

    // Finds an Active due of now, in the order of regions and then of times, and says whether there is one; or ends the run.
    fn ready(&mut self) -> Result<bool, AllocError>
        requires { self.old.failed ≡ false }
        ensures ok { OnOk result (ShownFollows (ready self.old.program) self.old self.new) }
        ensures answer { IfOk result (λ found. found ≡ is_ready self.new.machine) }
        ensures running { OnOk result (self.new.machine.running ≡ self.old.machine.running) }
        ensures still { IfOk result (λ found. found ≡ true → Unwritten self.old.machine self.new.machine) }
        ensures err { OnErr result (ShownFails (ready self.old.program) self.old self.new) }
        ensures kept { OnErr result (Unwritten self.old.machine self.new.machine) }
    {
        match self.settle() {
            Settled::Ready => Ok(true),
            Settled::TimeEnds => {
                self.phase()?;
                self.advance();
                Ok(is_ready(self.settle()))
            }
            Settled::Empty => {
                self.finish(Ending::Idle)?;
                Ok(false)
            }
        }
    }

    // Settles what is pending, and says what that found.
    fn settle(&mut self) -> Settled
        requires { self.old.failed ≡ false }
        ensures follows { ShownFollows settle self.old self.new }
        ensures rest { self.new ≡ record self.old { machine = with_pending self.new.machine.state.pending self.old.machine } }
        ensures answer { is_ready_state result ≡ is_ready self.new.machine }
        ensures some { result ≡ Settled.TimeEnds → 0 < length (dues_of self.new.machine) }
        ensures later { result ≡ Settled.TimeEnds → All (λ due. now_of self.new.machine < due.time) (dues_of self.new.machine) }
        ensures none { result ≡ Settled.Empty → length (dues_of self.new.machine) ≡ 0 }
    {
        self.agenda.settle()
    }

    // Goes on to the least pending time.
    fn advance(&mut self)
        requires fine { self.old.failed ≡ false }
        requires some { 0 < length (dues_of self.old.machine) }
        requires later { All (λ due. now_of self.old.machine < due.time) (dues_of self.old.machine) }
        ensures follows { ShownFollows advance self.old self.new }
        ensures rest { self.new ≡ record self.old { machine = with_pending self.new.machine.state.pending self.old.machine } }
    {
        self.agenda.advance();
    }

    // Takes the Active due of now that the order picks, and applies it.
    fn take_due(&mut self) -> Result<(), AllocError>
        requires fine { self.old.failed ≡ false }
        requires rests { self.old.machine.running ≡ None }
        requires ready { IsTrue (is_ready self.old.machine) }
        requires steps { self.old.machine.steps < 3 * 2 ^ 62 }
        ensures ok { OnOk result (ShownSteps (λ machine. take_by_order self.old.program self.old.order (stepped machine)) self.old self.new) }
        ensures err { OnErr result (Unprinted self.old self.new) }
        ensures kept { OnErr result (Unwritten self.old.machine self.new.machine) }
    {
        let place = picked(&self.agenda, self.order, self.taken);
        let act: Act = self.agenda.take_nth(place).act;
        self.steps += 1;
        self.taken += 1;
        match act {
            Act::Eval(item) => {
                let room = make_delay_room(
                    &mut self.agenda,
                    &self.threads,
                    self.program.items.as_slice(),
                    self.outputs,
                    item,
                );
                if room.is_err() {
                    self.failed = true;
                    return room;
                }
                self.net.eval(item, &mut self.agenda, &mut self.threads);
                Ok(())
            }
            Act::Run { serial, key } => {
                self.running = runner(&self.threads, serial, key);
                Ok(())
            }
            Act::Update {
                item,
                word,
                offset,
                value,
            } => {
                self.net.write(
                    item,
                    word,
                    offset,
                    value,
                    &mut self.agenda,
                    &mut self.threads,
                );
                Ok(())
            }
            Act::Mature { item, serial } => {
                self.net
                    .mature(item, serial, &mut self.agenda, &mut self.threads);
                Ok(())
            }
        }
    }
}
