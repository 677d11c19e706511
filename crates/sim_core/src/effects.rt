//! What the running thread's opcodes ask of the run.

ghost use Rattle.std.specs.Prelude.{◌≡◌, ◌<◌, ◌≤◌, ◌+◌, ◌*◌, ◌^◌, ℕ, ℤ, Some, None, OnOk, OnErr, length, slice_get};
ghost use Rattle.vvp_threads.specs.declared.thread.Thread.{Thread};
ghost use Rattle.sym_link.specs.Roots.{nodes_of};
ghost use Rattle.net_engine.specs.Delivery.{write, trigger, force, release};
ghost use Rattle.sim_core.specs.Machine.{at_next, placed, trapped, on_state};
ghost use Rattle.vvp_threads.specs.Table.{live_count};
ghost use Rattle.vvp_ops.specs.declared.op.Op.{Op};
ghost use Rattle.op_exec.specs.declared.effect.Effect.{Effect};
ghost use Rattle.sim_core.specs.Effects.{affect, assigned_later, delayed, waiting, forked, joined, disabled, ended};
ghost use Rattle.sim_core.specs.Parts.{Runs, CanGoOn, ShownFollows, ShownFails, Untouched, EffectFits, delayed_run, child_put};

use crate::ending::Ending;
use crate::engine::Engine;
use crate::pieces::{go_next, go_to, join_on, make_room, place_of, region_after, still, unless};
use event_pool::{Act, Agenda, Due, Region};
use four_state::Vec4;
use op_exec::{Effect, TrapKind};
use port_chain::Fanout;
use std::alloc::AllocError;

/// How many threads may be live.
const THREADS: u32 = 65536;

impl<A: Agenda + Drop, F: Fanout + Drop> Engine<A, F> {
    /// The running thread goes on at a place of the code.
    pub(crate) fn go_to(&mut self, place: u32)
        requires at { (serial : ℕ) × (thread : Thread) × Runs self.old serial thread }
        ensures { (serial : ℕ) (thread : Thread) → Runs self.old serial thread
            → self.new ≡ record self.old { machine = placed serial thread.frame place self.old.machine } }
    {
        let running = self.running.unwrap();
        go_to(&mut self.threads, running.key, place);
    }

    /// The running thread goes on at the next opcode.
    pub(crate) fn go_next(&mut self)
        requires at { (serial : ℕ) × (thread : Thread) × CanGoOn self.old serial thread }
        ensures { (serial : ℕ) (thread : Thread) → CanGoOn self.old serial thread
            → self.new ≡ record self.old { machine = at_next serial thread.frame self.old.machine } }
    {
        let running = self.running.unwrap();
        go_next(&mut self.threads, running.key);
    }

    /// The run ends by a trap at the running thread's opcode.
    pub(crate) fn trap(&mut self, kind: TrapKind)
        requires at { (serial : ℕ) × (thread : Thread) × Runs self.old serial thread }
        ensures { (serial : ℕ) (thread : Thread) → Runs self.old serial thread
            → self.new ≡ record self.old { machine = trapped kind serial thread.frame self.old.machine } }
    {
        let running = self.running.unwrap();
        let address = place_of(&self.threads, running.key);
        self.ending = Some(Ending::Trap { kind, address });
    }

    // A value is written, and the thread goes on.
    fn set(&mut self, item: u32, word: u32, offset: i64, value: Vec4)
        requires at { (serial : ℕ) × (thread : Thread) × CanGoOn self.old serial thread × EffectFits self.old serial thread.frame (Effect.Set item word offset value) }
        ensures { (serial : ℕ) (thread : Thread) → CanGoOn self.old serial thread
            → ShownFollows (λ machine. on_state (write (nodes_of self.old.program) item word offset value) (at_next serial thread.frame machine)) self.old self.new }
    {
        self.go_next();
        self.net.write(
            item,
            word,
            offset,
            value,
            &mut self.agenda,
            &mut self.threads,
        );
    }

    // An item is forced, and the thread goes on.
    fn force(&mut self, item: u32, value: Vec4)
        requires at { (serial : ℕ) × (thread : Thread) × CanGoOn self.old serial thread × EffectFits self.old serial thread.frame (Effect.Force item value) }
        ensures { (serial : ℕ) (thread : Thread) → CanGoOn self.old serial thread
            → ShownFollows (λ machine. on_state (force (nodes_of self.old.program) item value) (at_next serial thread.frame machine)) self.old self.new }
    {
        self.go_next();
        self.net
            .force(item, value, &mut self.agenda, &mut self.threads);
    }

    // Places of an item are released, and the thread goes on.
    fn release(&mut self, item: u32, base: u32, width: u8, keep: bool)
        requires at { (serial : ℕ) × (thread : Thread) × CanGoOn self.old serial thread × EffectFits self.old serial thread.frame (Effect.Release item base width keep) }
        ensures { (serial : ℕ) (thread : Thread) → CanGoOn self.old serial thread
            → ShownFollows (λ machine. on_state (release (nodes_of self.old.program) item base width keep) (at_next serial thread.frame machine)) self.old self.new }
    {
        self.go_next();
        self.net.release(item, base, width, keep, &mut self.agenda, &mut self.threads);
    }

    // An event is triggered, and the thread goes on.
    fn trigger(&mut self, event: u32)
        requires at { (serial : ℕ) × (thread : Thread) × CanGoOn self.old serial thread × EffectFits self.old serial thread.frame (Effect.Trigger event) }
        ensures { (serial : ℕ) (thread : Thread) → CanGoOn self.old serial thread
            → ShownFollows (λ machine. on_state (trigger (nodes_of self.old.program) event) (at_next serial thread.frame machine)) self.old self.new }
    {
        self.go_next();
        self.net.trigger(event, &mut self.agenda, &mut self.threads);
    }

    // A nonblocking assignment is put, and the thread goes on, unless its time is past the last one.
    fn assign(
        &mut self,
        item: u32,
        word: u32,
        offset: i64,
        value: Vec4,
        delay: u64,
    ) -> Result<(), AllocError>
        requires at { (serial : ℕ) × (thread : Thread) × CanGoOn self.old serial thread × EffectFits self.old serial thread.frame (Effect.Assign item word offset value delay) }
        ensures ok { OnOk result ((serial : ℕ) (thread : Thread) → CanGoOn self.old serial thread
            → ShownFollows (assigned_later item word offset value delay serial thread.frame) self.old self.new) }
        ensures err { OnErr result ((serial : ℕ) (thread : Thread) → CanGoOn self.old serial thread
            → ShownFails (assigned_later item word offset value delay serial thread.frame) self.old self.new) }
        ensures kept { OnErr result (Untouched self.old.machine self.new.machine) }
    {
        match self.agenda.now().checked_add(delay) {
            None => {
                self.trap(TrapKind::TimeOver);
                Ok(())
            }
            Some(time) => {
                make_room(&mut self.agenda, &self.threads, self.outputs)?;
                self.agenda.put(Due {
                    time,
                    region: Region::Nonblocking,
                    act: Act::Update {
                        item,
                        word,
                        offset,
                        value,
                    },
                });
                self.go_next();
                Ok(())
            }
        }
    }

    // The thread gives way for some ticks, unless that goes past the last time.
    fn delay(&mut self, ticks: u64)
        requires at { (serial : ℕ) × (thread : Thread) × CanGoOn self.old serial thread }
        ensures { (serial : ℕ) (thread : Thread) → CanGoOn self.old serial thread
            → ShownFollows (delayed ticks serial thread.frame) self.old self.new }
    {
        match self.agenda.now().checked_add(ticks) {
            None => self.trap(TrapKind::TimeOver),
            Some(time) => {
                self.go_next();
                self.put_run(time, ticks);
            }
        }
    }

    // The running thread gives way, and its Run is put.
    fn put_run(&mut self, time: u64, ticks: u64)
        requires at { (serial : ℕ) × (thread : Thread) × Runs self.old serial thread }
        requires time { time ≡ self.old.machine.state.pending.now + ticks }
        ensures { (serial : ℕ) (thread : Thread) → Runs self.old serial thread
            → ShownFollows (delayed_run ticks serial) self.old self.new }
    {
        let running = self.running.unwrap();
        self.agenda.put(Due {
            time,
            region: region_after(ticks),
            act: Act::Run {
                serial: running.serial,
                key: running.key,
            },
        });
        self.running = None;
    }

    // The thread gives way until an event is triggered.
    fn wait(&mut self, event: u32)
        requires at { (serial : ℕ) × (thread : Thread) × CanGoOn self.old serial thread × EffectFits self.old serial thread.frame (Effect.Wait event) }
        ensures { (serial : ℕ) (thread : Thread) → CanGoOn self.old serial thread
            → self.new ≡ record self.old { machine = waiting event serial thread.frame self.old.machine } }
    {
        self.go_next();
        let running = self.running.unwrap();
        self.threads.wait_on(running.key, event);
        self.running = None;
    }

    // The thread gives way until a child has ended, or goes on where it has.
    fn join(&mut self, child: u64)
        requires at { (serial : ℕ) × (thread : Thread) × CanGoOn self.old serial thread × EffectFits self.old serial thread.frame (Effect.Join child) }
        ensures { (serial : ℕ) (thread : Thread) → CanGoOn self.old serial thread
            → self.new ≡ record self.old { machine = joined child serial thread.frame self.old.machine } }
    {
        self.go_next();
        let running = self.running.unwrap();
        let rests = join_on(&mut self.threads, running.key, child);
        self.running = unless(rests, running);
    }

    // A child starts and goes on at once, unless as many threads are live as may be.
    fn fork(&mut self, code: u32, scope: u32) -> Result<(), AllocError>
        requires at { (serial : ℕ) × (thread : Thread) × CanGoOn self.old serial thread × EffectFits self.old serial thread.frame (Effect.Fork code scope) }
        requires drawn { length self.old.machine.state.threads.threads < self.old.machine.steps + length self.old.program.threads }
        requires steps { self.old.machine.steps ≤ 3 * 2 ^ 62 }
        ensures ok { OnOk result ((serial : ℕ) (thread : Thread) → CanGoOn self.old serial thread
            → ShownFollows (forked code scope serial thread.frame) self.old self.new) }
        ensures err { OnErr result ((serial : ℕ) (thread : Thread) → CanGoOn self.old serial thread
            → ShownFails (forked code scope serial thread.frame) self.old self.new) }
        ensures kept { OnErr result (Untouched self.old.machine self.new.machine) }
    {
        if self.threads.live() >= THREADS {
            self.trap(TrapKind::ThreadsOver);
            return Ok(());
        }
        self.go_next();
        self.start_child(code, scope)
    }

    // A child of the running thread starts, and its Run is put.
    fn start_child(&mut self, code: u32, scope: u32) -> Result<(), AllocError>
        requires at { (serial : ℕ) × (thread : Thread) × Runs self.old serial thread }
        requires few { live_count self.old.machine.state.threads < 65536 }
        requires drawn { length self.old.machine.state.threads.threads < self.old.machine.steps + length self.old.program.threads }
        requires scope { scope < length self.old.program.scopes }
        requires steps { self.old.machine.steps ≤ 3 * 2 ^ 62 }
        ensures ok { OnOk result ((serial : ℕ) (thread : Thread) → Runs self.old serial thread
            → ShownFollows (child_put code scope serial) self.old self.new) }
        ensures err { OnErr result (self.new ≡ self.old) }
    {
        let running = self.running.unwrap();
        // That there are as many keys as serials is told by a read.
        let _parent = self.threads.get(running.key);
        make_room(&mut self.agenda, &self.threads, self.outputs)?;
        let serial = self.threads.serials();
        let key = self.threads.spawn(Some(running.key), scope, code)?;
        let time = self.agenda.now();
        self.agenda.put(Due {
            time,
            region: Region::Active,
            act: Act::Run { serial, key },
        });
        Ok(())
    }

    // The threads of a scope and of those below it end, and the thread goes on where it has not ended.
    fn disable(&mut self, scope: u32)
        requires at { (serial : ℕ) × (thread : Thread) × CanGoOn self.old serial thread × EffectFits self.old serial thread.frame (Effect.Disable scope) }
        ensures { (serial : ℕ) (thread : Thread) → CanGoOn self.old serial thread
            → ShownFollows (disabled self.old.program scope serial thread.frame) self.old self.new }
    {
        self.go_next();
        let running = self.running.unwrap();
        self.threads.disable(
            running.key,
            scope,
            self.scope_parents.as_slice(),
            &mut self.agenda,
        );
        self.running = still(&self.threads, running);
    }

    // The running thread ends.
    fn end(&mut self)
        requires at { (serial : ℕ) × (thread : Thread) × Runs self.old serial thread }
        ensures { (serial : ℕ) (thread : Thread) → Runs self.old serial thread
            → ShownFollows (ended serial) self.old self.new }
    {
        let running = self.running.unwrap();
        self.threads.end(running.key, &mut self.agenda);
        self.running = None;
    }

    /// Does what an opcode's effect says, by the frame that the opcode left.
    pub(crate) fn affect(&mut self, effect: Effect) -> Result<(), AllocError>
        requires at { (serial : ℕ) × (thread : Thread) × CanGoOn self.old serial thread × EffectFits self.old serial thread.frame effect }
        requires drawn { length self.old.machine.state.threads.threads < self.old.machine.steps + length self.old.program.threads }
        requires steps { self.old.machine.steps ≤ 3 * 2 ^ 62 }
        ensures ok { OnOk result ((serial : ℕ) (thread : Thread) (op : Op ℕ) → CanGoOn self.old serial thread → slice_get self.old.program.code thread.frame.pc ≡ Some op
            → ShownFollows (affect self.old.program op effect serial thread.frame) self.old self.new) }
        ensures err { OnErr result ((serial : ℕ) (thread : Thread) (op : Op ℕ) → CanGoOn self.old serial thread → slice_get self.old.program.code thread.frame.pc ≡ Some op
            → ShownFails (affect self.old.program op effect serial thread.frame) self.old self.new) }
        ensures kept { OnErr result (Untouched self.old.machine self.new.machine) }
    {
        match effect {
            Effect::Next => {
                self.go_next();
                Ok(())
            }
            Effect::Goto(place) => {
                self.go_to(place);
                Ok(())
            }
            Effect::Set {
                item,
                word,
                offset,
                value,
            } => {
                self.set(item, word, offset, value);
                Ok(())
            }
            Effect::Assign {
                item,
                word,
                offset,
                value,
                delay,
            } => self.assign(item, word, offset, value, delay),
            Effect::Delay(ticks) => {
                self.delay(ticks);
                Ok(())
            }
            Effect::Wait(event) => {
                self.wait(event);
                Ok(())
            }
            Effect::Fork { code, scope } => self.fork(code, scope),
            Effect::Join(child) => {
                self.join(child);
                Ok(())
            }
            Effect::Disable(scope) => {
                self.disable(scope);
                Ok(())
            }
            Effect::Trigger(event) => {
                self.trigger(event);
                Ok(())
            }
            Effect::Task => self.call_task(),
            Effect::Func => self.call_function(),
            Effect::Force { item, value } => {
                self.force(item, value);
                Ok(())
            }
            Effect::Release {
                item,
                base,
                width,
                keep,
            } => {
                self.release(item, base, width, keep);
                Ok(())
            }
            Effect::End => {
                self.end();
                Ok(())
            }
            Effect::Trap(kind) => {
                self.trap(kind);
                Ok(())
            }
        }
    }
}
