//! Opcodes in a row that ask nothing of the run but to go on.

ghost use Rattle.std.specs.Prelude.{◌≡◌, ◌<◌, ◌≤◌, ◌+◌, ◌*◌, ◌^◌, ℕ, Some, true, false, length, slice_get};
ghost use Rattle.vvp_threads.specs.declared.thread.Thread.{Thread};
ghost use Rattle.vvp_threads.specs.Keyed.{IsKeyOf};
ghost use Rattle.vvp_threads.specs.Table.{thread_of};
ghost use Rattle.vvp_ops.specs.declared.op.Op.{Op};
ghost use Rattle.op_exec.specs.Executable.{IsExecutable};
ghost use Rattle.net_engine.specs.State.{with_threads};
ghost use Rattle.sim_core.specs.Engine.{EngineFollows};
ghost use Rattle.sim_core.specs.Step.{after};
ghost use Rattle.sim_core.specs.Parts.{Runs};
ghost use Rattle.sim_core.specs.Stretch.{FrameRan, RanOn, frame_after, frame_by, is_going, with_steps};

use crate::engine::Engine;
use crate::opcode::do_local;
use event_pool::Agenda;
use four_state::Values;
use op_exec::Local;
use port_chain::Fanout;
use vvp_ops::Op;
use vvp_threads::{Frame, Threads};

// Does the opcode at which a thread stands, and goes on to the next one, where it asks nothing of the run but to go on; else
// nothing is done. Whether it was done.
#[inline(always)]
fn go_once<V: Values>(code: &[Op<u32>], frame: &mut Frame, values: &V) -> bool
    requires few { length code.now < 2 ^ 32 }
    requires fits { (op : Op ℕ) → slice_get code.now frame.old.pc ≡ Some op → IsExecutable (V.words_of values.now) op }
    ensures went { result ≡ true → frame_by (V.words_of values.now) frame.old (slice_get code.now frame.old.pc) ≡ Some frame.new }
    ensures stays { result ≡ false → frame.new ≡ frame.old }
{
    match do_local(code, frame, values) {
        Some(Local::Next) => {
            frame.pc += 1;
            true
        }
        Some(Local::Goto(place)) => {
            frame.pc = place;
            true
        }
        Some(Local::Trap(_kind)) => false,
        Some(Local::NoMemory) => false,
        None => false,
    }
}

// Does the next opcodes of a thread as long as each asks nothing of the run but to go on, and at most so many. How many were done.
#[inline(always)]
fn go_far<V: Values>(code: &[Op<u32>], frame: &mut Frame, values: &V, most: u32) -> u32
    requires few { length code.now < 2 ^ 32 }
    requires fits { (place : ℕ) (op : Op ℕ) → slice_get code.now place ≡ Some op → IsExecutable (V.words_of values.now) op }
    ensures most { result ≤ most }
    ensures after { frame_after code.now (V.words_of values.now) result frame.old ≡ Some frame.new }
{
    for done in 0..most {
        if !go_once(code, frame, values) {
            return done;
        }
    }
    most
}

// The same for the thread under a key.
#[inline(always)]
fn go_far_at<V: Values>(
    threads: &mut Threads,
    key: usize,
    code: &[Op<u32>],
    values: &V,
    most: u32,
) -> u32
    requires live { (serial : ℕ) × (thread : Thread) × IsKeyOf threads.old serial key × (thread_of threads.old.table serial ≡ Some thread) }
    requires few { length code.now < 2 ^ 32 }
    requires fits { (place : ℕ) (op : Op ℕ) → slice_get code.now place ≡ Some op → IsExecutable (V.words_of values.now) op }
    ensures most { result ≤ most }
    ensures ran { (serial : ℕ) (thread : Thread) → IsKeyOf threads.old serial key → thread_of threads.old.table serial ≡ Some thread
        → FrameRan result code.now (V.words_of values.now) threads.old threads.new serial thread }
{
    match threads.get_mut(key) {
        Some(frame) => go_far(code, frame, values, most),
        None => unreachable!(),
    }
}

impl<A: Agenda + Drop, F: Fanout + Drop> Engine<A, F> {
    /// Does the running thread's next opcodes, each as a step, as long as each asks nothing of the run but to go on, and at most
    /// so many. Answers how many steps were done.
    ///
    /// It stops before an opcode that asks more: one with an effect on the run, a trap, or one for which memory is wanting. None
    /// is done where no thread runs, after an ending, and once memory was wanting. Nothing is printed or dumped.
    #[inline(always)]
    pub fn run_on(&mut self, most: u32) -> u32
        requires { self.old.machine.steps + most ≤ 3 * 2 ^ 62 }
        ensures most { result ≤ most }
        ensures follows { EngineFollows (after self.old.program self.old.order result) self.old self.new }
        // Only the thread's own frame and the counts of steps and of dues at once may change.
        ensures only { self.new.machine ≡ record self.old.machine {
          state = with_threads self.new.machine.state.threads self.old.machine.state;
          steps = self.old.machine.steps + result;
          peak = self.new.machine.peak;
        } }
        ensures rests { is_going self.old ≡ false → result ≡ 0 }
        ensures none { result ≡ 0 → self.new ≡ self.old }
    {
        if !self.is_going() {
            return 0;
        }
        self.run_far(most)
    }

    // The same where a thread runs.
    #[inline(always)]
    fn run_far(&mut self, most: u32) -> u32
        requires going { is_going self.old ≡ true }
        requires at { (serial : ℕ) × (thread : Thread) × Runs self.old serial thread }
        requires steps { self.old.machine.steps + most ≤ 3 * 2 ^ 62 }
        ensures most { result ≤ most }
        ensures follows { EngineFollows (after self.old.program self.old.order result) self.old self.new }
        ensures only { self.new.machine ≡ record self.old.machine {
          state = with_threads self.new.machine.state.threads self.old.machine.state;
          steps = self.old.machine.steps + result;
          peak = self.new.machine.peak;
        } }
        ensures none { result ≡ 0 → self.new ≡ self.old }
    {
        let done = self.go_far(most);
        if done == 0 {
            return 0;
        }
        self.count_steps(done);
        self.see_peak();
        done
    }

    // Whether the next step is an opcode of the running thread.
    #[inline(always)]
    fn is_going(&self) -> bool
        ensures going { result ≡ is_going self.now }
        ensures at { result ≡ true → (serial : ℕ) × (thread : Thread) × Runs self.now serial thread }
    {
        if self.failed {
            return false;
        }
        if self.ending.is_some() {
            return false;
        }
        self.running.is_some()
    }

    // Does the running thread's next opcodes on its own frame, as long as each asks nothing of the run but to go on, and at most so
    // many. How many were done.
    #[inline(always)]
    fn go_far(&mut self, most: u32) -> u32
        requires at { (serial : ℕ) × (thread : Thread) × Runs self.old serial thread }
        ensures most { result ≤ most }
        ensures ran { (serial : ℕ) (thread : Thread) → Runs self.old serial thread → RanOn result self.old self.new serial thread }
    {
        let running = self.running.unwrap();
        self.net.widths();
        let code = self.program.code.as_slice();
        go_far_at(&mut self.threads, running.key, code, &self.net, most)
    }

    // Counts so many steps.
    #[inline(always)]
    fn count_steps(&mut self, count: u32)
        requires { self.old.machine.steps + count ≤ 3 * 2 ^ 62 }
        ensures { self.new ≡ record self.old { machine = with_steps count self.old.machine } }
    {
        self.steps += u64::from(count);
    }
}
