//! The running thread's next opcode.

ghost use Rattle.std.specs.Prelude.{◌≡◌, ◌≢◌, ◌<◌, ◌≤◌, ◌+◌, ◌*◌, ◌^◌, ℕ, List, Some, None, Option, true, false, OnOk, OnErr, IfOk, IfSome, IfNone, length, slice_get, slice_index, option_map};
ghost use Rattle.four_state.specs.declared.bits.Bit.{Bit};
ghost use Rattle.vvp_threads.specs.declared.thread.Thread.{Thread};
ghost use Rattle.vvp_threads.specs.Keyed.{IsKeyOf};
ghost use Rattle.vvp_threads.specs.Table.{thread_of};
ghost use Rattle.vvp_ops.specs.declared.op.Op.{Op};
ghost use Rattle.op_exec.specs.Executable.{IsExecutable};
ghost use Rattle.sys_tasks.specs.Phase.{read_only, IsPartOf};
ghost use Rattle.sys_tasks.specs.Conditions.{Answers, HoldsValues};
ghost use Rattle.net_engine.specs.Net.{words_of};
ghost use Rattle.net_engine.specs.Parts.{plane_of};
ghost use Rattle.sim_core.specs.Machine.{ended_as, phase};
ghost use Rattle.sys_tasks.specs.Tasks.{said_of};
ghost use Rattle.sim_core.specs.Effects.{task_called, function_called, told};
ghost use Rattle.sim_core.specs.Engine.{Shown};
ghost use Rattle.sim_core.specs.Step.{proceed};
ghost use Rattle.sim_core.specs.Parts.{Runs, Begun, Locally, CanGoOn, ShownFollows, ShownSteps, ShownFails, EffectFits, Done, FrameDone, LeavesBy, MayAffect, Heeds, HeedsFail, PhaseCut, Untouched, stepped, peaked, task_done};

use crate::calls::{call_function_at, call_task_at};
use crate::ending::Ending;
use crate::engine::Engine;
use crate::pieces::{greater, place_of};
use event_pool::Agenda;
use four_state::Values;
use net_engine::Net;
use op_exec::{Effect, Local, TrapKind, exec, exec_local};
use port_chain::Fanout;
use std::alloc::AllocError;
use sys_tasks::{Said, Tasks};
use vvp_ops::Op;
use vvp_threads::{Frame, Threads};

// The opcode at a place of the code. None exactly past the last one.
fn op_at(code: &[Op<u32>], place: u32) -> Option<&Op<u32>>
    ensures { option_map (λ op. op.now) result ≡ slice_get code.now place }
{
    code.get(place as usize)
}

// The opcode at a place within the code.
fn op_there(code: &[Op<u32>], place: u32) -> &Op<u32>
    requires { place < length code.now }
    ensures { slice_get code.now place ≡ Some result.now }
{
    &code[place as usize]
}

// The scope in which the opcode at a place within the code stands.
fn scope_there(scopes: &[u32], place: u32) -> u32
    requires { place < length scopes.now }
    ensures { result ≡ slice_index scopes.now place }
{
    scopes[place as usize]
}

/// Does the opcode at which a thread stands, on its own frame, where it asks nothing of the run but to go on; none, and nothing
/// is done, where it asks more.
#[inline(always)]
pub(crate) fn do_local<V: Values>(code: &[Op<u32>], frame: &mut Frame, values: &V) -> Option<Local>
    requires { (op : Op ℕ) → slice_get code.now frame.old.pc ≡ Some op → IsExecutable (V.words_of values.now) op }
    ensures done { IfSome result (Locally (Done code.now frame.old frame.new (V.words_of values.now)) (frame.new ≡ frame.old)) }
    ensures kept { IfNone result (frame.new ≡ frame.old) }
{
    match op_at(code, frame.pc) {
        Some(op) => exec_local(op, frame, values),
        None => None,
    }
}

// Does the opcode at which a thread stands, on its own frame, and answers its effect; none where it stands past the last
// opcode. Where memory is wanting, the frame stays.
fn do_opcode<V: Values>(
    code: &[Op<u32>],
    frame: &mut Frame,
    values: &V,
) -> Result<Option<Effect>, AllocError>
    requires { (op : Op ℕ) → slice_get code.now frame.old.pc ≡ Some op → IsExecutable (V.words_of values.now) op }
    ensures done { IfOk result (Done code.now frame.old frame.new (V.words_of values.now)) }
    ensures still { OnErr result (frame.new ≡ frame.old) }
{
    match op_at(code, frame.pc) {
        Some(op) => Ok(Some(exec(op, frame, values)?)),
        None => Ok(None),
    }
}

// The same for the thread under a key. Where memory is wanting, all stays.
fn do_opcode_at<V: Values>(
    threads: &mut Threads,
    key: usize,
    code: &[Op<u32>],
    values: &V,
) -> Result<Option<Effect>, AllocError>
    requires live { (serial : ℕ) × (thread : Thread) × IsKeyOf threads.old serial key × (thread_of threads.old.table serial ≡ Some thread) }
    requires fits { (place : ℕ) (op : Op ℕ) → slice_get code.now place ≡ Some op → IsExecutable (V.words_of values.now) op }
    ensures done { IfOk result (λ effect. (serial : ℕ) (thread : Thread) → IsKeyOf threads.old serial key → thread_of threads.old.table serial ≡ Some thread
        → FrameDone effect code.now (V.words_of values.now) threads.old threads.new serial thread) }
    ensures still { OnErr result (threads.new ≡ threads.old) }
{
    match threads.get_mut(key) {
        Some(frame) => do_opcode(code, frame, values),
        None => unreachable!(),
    }
}

/// The read-only phase at the end of a time step.
pub(crate) fn do_phase<F: Fanout + Drop>(
    tasks: &mut Tasks,
    now: u64,
    net: &Net<F>,
) -> Result<(), AllocError>
    requires answers { Answers tasks.old.design.entries (words_of net.now.nodes net.now.values) }
    requires plane { HoldsValues tasks.old.design.entries (words_of net.now.nodes net.now.values) (plane_of net.now.nodes net.now.values) }
    ensures ok { OnOk result (tasks.new ≡ read_only now (words_of net.now.nodes net.now.values) tasks.old) }
    ensures part { OnErr result (IsPartOf tasks.old (read_only now (words_of net.now.nodes net.now.values) tasks.old) tasks.new) }
{
    tasks.read_only(now, net, net.plane())
}

impl<A: Agenda + Drop, F: Fanout + Drop> Engine<A, F> {
    /// Does the running thread's next opcode, as a step.
    pub(crate) fn run_opcode(&mut self) -> Result<(), AllocError>
        requires at { (serial : ℕ) × (thread : Thread) × Runs self.old serial thread }
        requires steps { self.old.machine.steps < 3 * 2 ^ 62 }
        ensures ok { OnOk result ((serial : ℕ) (thread : Thread) → Runs self.old serial thread → ShownSteps (proceed self.old.program serial) self.old self.new) }
        ensures err { OnErr result ((serial : ℕ) (thread : Thread) → Runs self.old serial thread → ShownFails (proceed self.old.program serial) self.old self.new) }
        ensures kept { OnErr result (Untouched self.old.machine self.new.machine) }
    {
        self.begin_step();
        self.do_next()
    }

    // Does the running thread's next opcode, and what its effect says, of a step that has begun.
    #[inline(always)]
    fn do_next(&mut self) -> Result<(), AllocError>
        requires at { (old : Shown) × (serial : ℕ) × (thread : Thread) × Begun old self.old serial thread }
        ensures ok { OnOk result ((old : Shown) (serial : ℕ) (thread : Thread) → Begun old self.old serial thread → ShownSteps (proceed old.program serial) old self.new) }
        ensures err { OnErr result ((old : Shown) (serial : ℕ) (thread : Thread) → Begun old self.old serial thread → ShownFails (proceed old.program serial) old self.new) }
        ensures kept { OnErr result ((old : Shown) (serial : ℕ) (thread : Thread) → Begun old self.old serial thread → Untouched old.machine self.new.machine) }
    {
        let effect = self.do_opcode()?;
        self.heed(effect)?;
        self.see_peak();
        Ok(())
    }

    // Does what an opcode's effect says, or ends the run by a trap where there is no opcode more.
    fn heed(&mut self, effect: Option<Effect>) -> Result<(), AllocError>
        requires at { (serial : ℕ) × (thread : Thread) × Runs self.old serial thread × MayAffect self.old serial thread effect }
        requires drawn { length self.old.machine.state.threads.threads < self.old.machine.steps + length self.old.program.threads }
        requires steps { self.old.machine.steps ≤ 3 * 2 ^ 62 }
        ensures ok { OnOk result ((serial : ℕ) (thread : Thread) → Runs self.old serial thread → Heeds effect self.old self.new serial thread) }
        ensures err { OnErr result ((serial : ℕ) (thread : Thread) → Runs self.old serial thread → HeedsFail effect self.old self.new serial thread) }
        ensures kept { OnErr result (Untouched self.old.machine self.new.machine) }
    {
        match effect {
            Some(effect) => self.affect(effect),
            None => {
                self.trap(TrapKind::OffEnd);
                Ok(())
            }
        }
    }

    // Does the running thread's next opcode on its own frame, and answers its effect; none where there is no opcode more.
    fn do_opcode(&mut self) -> Result<Option<Effect>, AllocError>
        requires at { (serial : ℕ) × (thread : Thread) × Runs self.old serial thread }
        ensures done { IfOk result (λ effect. (serial : ℕ) (thread : Thread) → Runs self.old serial thread → LeavesBy effect self.old self.new serial thread) }
        ensures err { OnErr result (self.new ≡ self.old) }
    {
        let running = self.running.unwrap();
        self.net.widths();
        let code = self.program.code.as_slice();
        do_opcode_at(&mut self.threads, running.key, code, &self.net)
    }

    /// Calls the task at the running thread's opcode.
    pub(crate) fn call_task(&mut self) -> Result<(), AllocError>
        requires at { (serial : ℕ) × (thread : Thread) × CanGoOn self.old serial thread × EffectFits self.old serial thread.frame Effect.Task }
        ensures ok { OnOk result ((serial : ℕ) (thread : Thread) (op : Op ℕ) → CanGoOn self.old serial thread → slice_get self.old.program.code thread.frame.pc ≡ Some op
            → ShownFollows (task_called self.old.program op serial thread.frame) self.old self.new) }
        ensures err { OnErr result ((serial : ℕ) (thread : Thread) (op : Op ℕ) → CanGoOn self.old serial thread → slice_get self.old.program.code thread.frame.pc ≡ Some op
            → ShownFails (task_called self.old.program op serial thread.frame) self.old self.new) }
        ensures kept { OnErr result (Untouched self.old.machine self.new.machine) }
    {
        let said = self.do_task()?;
        self.told(said)
    }

    // Calls the task at the running thread's opcode, and pops its items. What it says of the run.
    fn do_task(&mut self) -> Result<Said, AllocError>
        requires at { (serial : ℕ) × (thread : Thread) × CanGoOn self.old serial thread × EffectFits self.old serial thread.frame Effect.Task }
        ensures ok { OnOk result ((serial : ℕ) (thread : Thread) (op : Op ℕ) → CanGoOn self.old serial thread → slice_get self.old.program.code thread.frame.pc ≡ Some op
            → self.new ≡ record self.old { machine = task_done self.old.program op serial thread.frame self.old.machine }) }
        ensures said { IfOk result (λ said. (serial : ℕ) (thread : Thread) (op : Op ℕ) → CanGoOn self.old serial thread → slice_get self.old.program.code thread.frame.pc ≡ Some op
            → said ≡ said_of op) }
        ensures err { OnErr result (self.new ≡ self.old) }
    {
        let running = self.running.unwrap();
        self.net.widths();
        let place = place_of(&self.threads, running.key);
        let op = op_there(self.program.code.as_slice(), place);
        let scope = scope_there(self.program.code_scopes.as_slice(), place);
        let now = self.agenda.now();
        let threads = &mut self.threads;
        call_task_at(
            &mut self.tasks,
            threads,
            running.key,
            op,
            scope,
            now,
            &self.net,
        )
    }

    /// Calls the function at the running thread's opcode.
    pub(crate) fn call_function(&mut self) -> Result<(), AllocError>
        requires at { (serial : ℕ) × (thread : Thread) × CanGoOn self.old serial thread × EffectFits self.old serial thread.frame Effect.Func }
        ensures ok { OnOk result ((serial : ℕ) (thread : Thread) (op : Op ℕ) → CanGoOn self.old serial thread → slice_get self.old.program.code thread.frame.pc ≡ Some op
            → self.new ≡ record self.old { machine = function_called self.old.program op serial thread.frame self.old.machine }) }
        ensures err { OnErr result (self.new ≡ self.old) }
    {
        let running = self.running.unwrap();
        self.net.widths();
        let place = place_of(&self.threads, running.key);
        let op = op_there(self.program.code.as_slice(), place);
        let scope = scope_there(self.program.code_scopes.as_slice(), place);
        let now = self.agenda.now();
        let threads = &mut self.threads;
        call_function_at(&self.tasks, threads, running.key, op, scope, now, &self.net)
    }

    // What a task says of the run: it goes on, or ends after a phase.
    fn told(&mut self, said: Said) -> Result<(), AllocError>
        requires { self.old.failed ≡ false }
        ensures ok { OnOk result (self.new ≡ record self.old { machine = told self.old.program said self.old.machine }) }
        ensures err { OnErr result (PhaseCut self.old self.new) }
        ensures ends { OnErr result (said ≢ Said.Going) }
    {
        match said {
            Said::Going => Ok(()),
            Said::Finish => self.finish(Ending::Finish),
            Said::Stop => self.finish(Ending::Stop),
        }
    }

    /// Does the read-only phase and ends the run.
    pub(crate) fn finish(&mut self, ending: Ending) -> Result<(), AllocError>
        requires { self.old.failed ≡ false }
        ensures ok { OnOk result (self.new ≡ record self.old { machine = ended_as ending (phase self.old.program self.old.machine) }) }
        ensures err { OnErr result (PhaseCut self.old self.new) }
    {
        self.phase()?;
        self.ending = Some(ending);
        Ok(())
    }

    /// Does the read-only phase.
    pub(crate) fn phase(&mut self) -> Result<(), AllocError>
        requires { self.old.failed ≡ false }
        ensures ok { OnOk result (self.new ≡ record self.old { machine = phase self.old.program self.old.machine }) }
        ensures err { OnErr result (PhaseCut self.old self.new) }
    {
        self.net.widths();
        match do_phase(&mut self.tasks, self.agenda.now(), &self.net) {
            Ok(()) => Ok(()),
            Err(error) => {
                self.failed = true;
                Err(error)
            }
        }
    }

    // Counts a step that begins.
    fn begin_step(&mut self)
        requires { self.old.machine.steps < 3 * 2 ^ 62 }
        ensures stepped { self.new ≡ record self.old { machine = stepped self.old.machine } }
        ensures drawn { self.old.failed ≡ false → length self.old.machine.state.threads.threads < self.old.machine.steps + 1 + length self.old.program.threads }
    {
        self.steps += 1;
    }

    /// Takes the peak of the dues that a step leaves.
    pub(crate) fn see_peak(&mut self)
        ensures { self.new ≡ record self.old { machine = peaked self.old.machine } }
    {
        self.peak = greater(self.peak, self.agenda.pending() as u64);
    }
}
