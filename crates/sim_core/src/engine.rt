//! A run of a program.

ghost use Rattle.std.specs.Prelude.{◌≡◌, ◌<◌, ◌≤◌, ◌+◌, ◌*◌, ◌^◌, ℕ, [], length, map, option_map, Option, Some, None, true, false, IfOk, OnOk, OnErr, IsErr};
ghost use Rattle.sym_link.specs.Roots.{nodes_of};
ghost use Rattle.sym_link.specs.Sound.{IsProgram};
ghost use Rattle.sys_tasks.specs.Phase.{dump_name};
ghost use Rattle.net_engine.specs.Readers.{driven_ports};
ghost use Rattle.sim_core.specs.Engine.{EngineFails, EngineFollows, EngineKeeps, Shown, in_turn_of_machine};
ghost use Rattle.sim_core.specs.Start.{start_of};
ghost use Rattle.sim_core.specs.Step.{is_idle, step};

use crate::ending::Ending;
use crate::start::{begin_run, outputs_of};
use event_pool::Agenda;
use net_engine::Net;
use port_chain::Fanout;
use std::alloc::{AllocError, Global};
use std::marker::Model;
use sym_link::Program;
use sys_tasks::Tasks;
use vvp_threads::Threads;

/// The thread that runs: its serial, and the key under which it is kept.
#[derive(Clone, Copy)]
pub(crate) struct Running {
    pub(crate) serial: u64,
    pub(crate) key: usize,
}

/// A run of a program, with its pending dues in an agenda and its readers in a fan-out. Contracts see the list machine with
/// its dues in the order of time, region and putting, with what was printed and dumped since the buffers were cleared, and
/// whether memory was wanting.
#[derive(Drop)]
pub struct Engine<A: Agenda + Drop, F: Fanout + Drop> {
    pub(crate) program: Program,
    // The parent of each scope.
    pub(crate) scope_parents: Vec<u32>,
    // How many items are gates or net delays.
    pub(crate) outputs: usize,
    pub(crate) order: u32,
    pub(crate) agenda: A,
    pub(crate) net: Net<F>,
    pub(crate) threads: Threads,
    pub(crate) tasks: Tasks,
    pub(crate) running: Option<Running>,
    pub(crate) steps: u64,
    pub(crate) peak: u64,
    // How many dues were taken.
    pub(crate) taken: u64,
    pub(crate) ending: Option<Ending>,
    pub(crate) failed: bool,
}

impl<A: Agenda + Drop, F: Fanout + Drop> Model for Engine<A, F> {
    ghost use Rattle.std.specs.Prelude.{option_map};
    ghost use Rattle.sim_core.specs.declared.engine.Running.{Running};
    ghost use Rattle.net_engine.specs.Kept.{state_of};
    ghost use Rattle.sim_core.specs.Engine.{Shown};
    ghost use Rattle.sim_core.specs.Kept.{Lasts};

    ghost Value = { Shown };

    ghost view = { λ e. record {
      program = e.program;
      order = e.order;
      machine = record {
        state = state_of e.net e.threads (A.schedule e.agenda);
        running = option_map (λ (running : Running). running.serial) e.running;
        tasks = e.tasks;
        steps = e.steps;
        peak = e.peak;
        taken = e.taken;
        ending = e.ending;
      };
      failed = e.failed;
    } };

    ghost invariant = { λ e. Lasts e.failed (record {
      program = e.program;
      scope_parents = e.scope_parents.items;
      outputs = e.outputs;
      net = e.net;
      threads = e.threads;
      design = e.tasks.design;
      schedule = A.schedule e.agenda;
      running = e.running;
      steps = e.steps;
      taken = e.taken;
    }) };
}

impl<A: Agenda + Drop, F: Fanout + Drop> Engine<A, F> {
    /// A run of a program that starts: every value is x, each gate and net delay is due for its evaluation at time 0, and then
    /// each starting thread. Of the dues that may be taken the order chooses one, order 0 the first. The agenda is empty at
    /// time 0, and `fan` has the readers of the program's items. It reserves a place for each of the dues.
    ///
    /// # Errors
    ///
    /// `AllocError` where memory is wanting.
    pub fn load(
        alloc: Global,
        program: Program,
        agenda: A,
        fan: F,
        order: u32,
    ) -> Result<Engine<A, F>, AllocError>
        requires program { IsProgram program }
        requires empty { (A.schedule agenda).dues ≡ [] }
        requires time { (A.schedule agenda).now ≡ 0 }
        requires nodes { F.nodes fan ≡ length program.items }
        requires pairs { (item : ℕ) → item < length program.items → F.pairs fan item ≡ driven_ports (nodes_of program) item }
        ensures start { IfOk result (λ engine. in_turn_of_machine (start_of program) ≡ engine.machine) }
        ensures program { IfOk result (λ engine. engine.program ≡ program) }
        ensures order { IfOk result (λ engine. engine.order ≡ order) }
        ensures going { IfOk result (λ engine. engine.failed ≡ false) }
    {
        let outputs = outputs_of(program.items.as_slice());
        let mut agenda = agenda;
        let started = begin_run(alloc, &program, &mut agenda, fan)?;
        let peak = agenda.pending() as u64;
        Ok(Engine {
            program,
            scope_parents: started.scope_parents,
            outputs,
            order,
            agenda,
            net: started.net,
            threads: started.threads,
            tasks: started.tasks,
            running: None,
            steps: 0,
            peak,
            taken: 0,
            ending: None,
            failed: false,
        })
    }

    /// Whether no thread is running, no due is pending and no ending was reached.
    pub fn idle(&self) -> bool
        ensures { result ≡ is_idle self.now.machine }
    {
        self.running.is_none() && self.agenda.pending() == 0 && self.ending.is_none()
    }

    /// The number of steps done: opcodes, and dues taken.
    pub fn steps(&self) -> u64
        ensures { result ≡ self.now.machine.steps }
    {
        self.steps
    }

    /// The greatest number of dues that were pending at any moment.
    pub fn peak(&self) -> u64
        ensures { result ≡ self.now.machine.peak }
    {
        self.peak
    }

    /// The present time, in ticks from the start.
    pub fn now(&self) -> u64
        ensures { result ≡ self.now.machine.state.pending.now }
    {
        self.agenda.now()
    }

    /// The bytes printed since this was cleared.
    pub fn out(&self) -> &[u8]
        ensures { result.now ≡ self.now.machine.tasks.out }
    {
        self.tasks.out()
    }

    /// Takes what was printed away.
    pub fn clear_out(&mut self)
        ensures { self.new ≡ record self.old { machine = record self.old.machine { tasks = record self.old.machine.tasks { out = [] } } } }
    {
        self.tasks.clear_out();
    }

    /// The bytes of the dump since this was cleared.
    pub fn dump(&self) -> &[u8]
        ensures { result.now ≡ self.now.machine.tasks.dump }
    {
        self.tasks.dump()
    }

    /// Takes the bytes of the dump away.
    pub fn clear_dump(&mut self)
        ensures { self.new ≡ record self.old { machine = record self.old.machine { tasks = record self.old.machine.tasks { dump = [] } } } }
    {
        self.tasks.clear_dump();
    }

    /// The name of the dump, from its header on.
    pub fn dump_name(&self) -> Option<&[u8]>
        ensures { option_map (λ name. name.now) result ≡ dump_name self.now.machine.tasks.state }
    {
        self.tasks.dump_name()
    }

    /// Does one step, the running thread's next opcode or a due that is ready, and answers the run's ending, or none where it
    /// goes on. After an ending it answers that again and does nothing. A run that becomes idle takes no step.
    ///
    /// # Errors
    ///
    /// `AllocError` where memory is wanting, and then for good. Output and dump are then beginnings of what was due. The values of
    /// items, the words of arrays, what is forced and the requests of net delays are those from before the step. Where a thread
    /// was running, so are the time and all that is pending: no opcode that wants memory, such as a fork or a nonblocking
    /// assignment, has written a value or put a due. Where none was, dues of the present time may have gone on to the active
    /// region, the next time may have been reached, and the due whose evaluation wanted memory is no longer pending.
    #[inline(always)]
    pub fn step(&mut self) -> Result<Option<Ending>, AllocError>
        requires { self.old.machine.steps < 3 * 2 ^ 62 }
        ensures ok { OnOk result (EngineFollows (step self.old.program self.old.order) self.old self.new) }
        ensures answer { IfOk result (λ ending. ending ≡ self.new.machine.ending) }
        ensures counted { OnOk result (self.new.machine.steps ≤ self.old.machine.steps + 1) }
        ensures err { OnErr result (EngineFails (step self.old.program self.old.order) self.old self.new) }
        ensures kept { OnErr result (EngineKeeps self.old.machine self.new.machine) }
        ensures failed { OnErr result (self.new.failed ≡ true) }
        ensures refused { self.old.failed ≡ true → IsErr result × (self.new ≡ self.old) }
    {
        if self.failed {
            return Err(AllocError);
        }
        if let Some(ending) = self.ending {
            return Ok(Some(ending));
        }
        match self.go_on() {
            Ok(()) => Ok(self.ending),
            Err(error) => {
                self.failed = true;
                Err(error)
            }
        }
    }
}
