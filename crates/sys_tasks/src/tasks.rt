//! The tasks of a run.

ghost use Rattle.std.specs.Prelude.{◌≡◌, ℕ, List, ◌≤◌, ◌<◌, ◌++◌, ◌∷◌, [], length, true, Some, IsTrue, IfOk, OnErr, OnOk, option_map};
ghost use Rattle.std.specs.List.{list_all};
ghost use Rattle.four_state.specs.declared.bits.Bit.{Bit};
ghost use Rattle.sym_link.specs.Sound.{IsProgram};
ghost use Rattle.sys_tasks.specs.Design.{design_of, place_of, place_with};
ghost use Rattle.sys_tasks.specs.Arguments.{Sight, function_value, popped};
ghost use Rattle.sys_tasks.specs.Kept.{items_of};
ghost use Rattle.sys_tasks.specs.Sound.{fits_call};
ghost use Rattle.sys_tasks.specs.declared.state.Call.{Call};
ghost use Rattle.sys_tasks.specs.Conditions.{Answers, HasWidths, HoldsValues, IsBetween, function_takes, is_function_call, is_shown, is_task_call, takes_by};
ghost use Rattle.sys_tasks.specs.Dumped.{dumped_values};
ghost use Rattle.sys_tasks.specs.Phase.{IsPartOf, dump_name, dumped, monitored, read_only, strobed, with_header, with_phase};
ghost use Rattle.sys_tasks.specs.Tasks.{answered, call_line, call_text, called, called_args, called_pops, choosing, does, first_state, first_tasks, named, printed, requesting, said_by, said_of, with_state};

use crate::arguments::{
    Kept, argument_value, item_at, short_time_value, sim_time_value, time_value,
};
use crate::chosen::chosen_with;
use crate::design::Entry;
use crate::header::open;
use crate::names::{Function, Said, Task, function_of, task_of};
use crate::phase::{append_kept, append_strobes, same_values, watch};
use crate::place::{Here, nowhere, scale_of, stand_in};
use crate::printing::{append_line, append_text, kept_of};
use crate::start::{copied_scopes, entries_of};
use crate::state::{Call, Calls, ItemList, Sections, TaskState, VecList};
use crate::writer::{Writer, append_phase};
use four_state::{Bit, Values, Vec4};
use std::alloc::{AllocError, Global};
use std::marker::Model;
use std::mem::swap;
use sym_link::{Program, Scopes};
use value_plane::Plane;
use vcd_write::Section;
use vec_arith::clog2;
use vvp_lex::Bytes;
use vvp_ops::{Arg, Op};

/// The tasks of a run: the monitor, the strobes, the dump, and the bytes that they printed. Contracts see these as lists.
#[derive(Drop)]
pub struct Tasks {
    alloc: Global,
    entries: Vec<Entry>,
    scopes: Scopes,
    precision: i8,
    // The place at which a task printed last.
    here: Here,
    // All but the values written last, which `writer` has.
    state: TaskState,
    // What writes the dump, from its header on.
    writer: Option<Writer>,
    // What the monitor watches: memory that is used again.
    watched: VecList,
    out: Vec<u8>,
    dump: Vec<u8>,
}

impl Model for Tasks {
    ghost use Rattle.sys_tasks.specs.Tasks.{TasksNow};
    ghost use Rattle.sys_tasks.specs.Sound.{IsSound};
    ghost use Rattle.sys_tasks.specs.Writer.{state_with};

    ghost Value = { TasksNow };

    ghost view = { λ t. record {
      design = record { entries = t.entries.items; scopes = t.scopes; precision = t.precision };
      state = state_with t.state t.writer;
      out = t.out.items;
      dump = t.dump.items;
    } };

    ghost invariant = { λ t. IsSound t.entries.items t.scopes t.precision t.here t.state t.writer };
}

impl Tasks {
    /// The tasks of a program, before its run. The only error is want of memory.
    #[tactic(auto, unfolding(crate::specs::Tasks::first_tasks, crate::specs::Design::design_of))]
    pub fn new(alloc: Global, program: &Program) -> Result<Tasks, AllocError>
        requires { IsProgram program.now }
        ensures { IfOk result (λ tasks. tasks ≡ first_tasks (design_of program.now)) }
    {
        Ok(Tasks {
            alloc,
            entries: entries_of(alloc, program.items.as_slice())?,
            scopes: copied_scopes(alloc, program.scopes.as_slice())?,
            precision: program.precision,
            here: nowhere(alloc),
            state: first_state(alloc)?,
            writer: None,
            watched: VecList::new(alloc),
            out: Vec::new(alloc),
            dump: Vec::new(alloc),
        })
    }

    /// What the tasks printed since this was cleared.
    pub fn out(&self) -> &[u8]
        ensures { result.now ≡ self.now.out }
    {
        self.out.as_slice()
    }

    /// Takes what was printed away. Its memory is kept for what comes.
    pub fn clear_out(&mut self)
        ensures { self.new ≡ record self.old { out = [] } }
    {
        self.out.clear();
    }

    /// The bytes of the dump since this was cleared.
    pub fn dump(&self) -> &[u8]
        ensures { result.now ≡ self.now.dump }
    {
        self.dump.as_slice()
    }

    /// Takes the bytes of the dump away. Their memory is kept for what comes.
    pub fn clear_dump(&mut self)
        ensures { self.new ≡ record self.old { dump = [] } }
    {
        self.dump.clear();
    }

    /// A copy of what the tasks keep between calls. The only error is want of memory.
    pub fn state(&self, alloc: Global) -> Result<TaskState, AllocError>
        ensures { IfOk result (λ state. state ≡ self.now.state) }
    {
        Ok(TaskState {
            monitor: match &self.state.monitor {
                Some(call) => Some(call.copy(alloc)?),
                None => None,
            },
            monitor_on: self.state.monitor_on,
            monitor_due: self.state.monitor_due,
            shown: self.state.shown.copy(alloc)?,
            strobes: self.state.strobes.copy(alloc)?,
            name: self.state.name.copy(alloc)?,
            chosen: self.state.chosen.copy(alloc)?,
            dumping: self.state.dumping,
            dump_on: self.state.dump_on,
            requests: self.state.requests.copy(alloc)?,
            last: match &self.writer {
                Some(writer) => writer.last(alloc)?,
                None => VecList::new(alloc),
            },
        })
    }

    /// The name of the dump: none exactly before its header was written.
    #[tactic(auto, unfolding(crate::specs::Phase::dump_name))]
    pub fn dump_name(&self) -> Option<&[u8]>
        ensures { option_map (λ name. name.now) result ≡ dump_name self.now.state }
    {
        if self.state.dumping == 2 {
            Some(self.state.name.as_slice())
        } else {
            None
        }
    }

    /// Does a call of a task: an opcode of the program, in its scope, on the stack before its pops, which has its top last. It
    /// says whether the run goes on.
    ///
    /// # Errors
    ///
    /// `AllocError` where memory is wanting. All is then as before.
    pub fn call<V: Values>(
        &mut self,
        op: &Op<u32>,
        scope: u32,
        stack: &[Vec4],
        now: u64,
        values: &V,
    ) -> Result<Said, AllocError>
        requires answers { Answers self.old.design.entries (V.words_of values.now) }
        requires fits { IsTrue (is_task_call self.old.design scope (popped (called_pops op.now) stack.now) op.now) }
        ensures ok { OnOk result (self.new ≡ called op.now scope (popped (called_pops op.now) stack.now) now (V.words_of values.now) self.old) }
        ensures said { IfOk result (λ said. said ≡ said_of op.now) }
        ensures err { OnErr result (self.new ≡ self.old) }
    {
        match op {
            Op::CallTask {
                name,
                args,
                pops,
                ..
            } => match task_of(name.as_slice()) {
                Some(task) => {
                    self.perform(
                        task,
                        op,
                        args.as_slice(),
                        scope,
                        kept_of(stack, *pops),
                        now,
                        values,
                    )?;
                    Ok(said_by(task))
                }
                None => Ok(Said::Going),
            },
            _ => Ok(Said::Going),
        }
    }

    // Does a task.
    fn perform<V: Values>(
        &mut self,
        task: Task,
        op: &Op<u32>,
        args: &[Arg<u32>],
        scope: u32,
        kept: Kept<'_>,
        now: u64,
        values: &V,
    ) -> Result<(), AllocError>
        requires answers { Answers self.old.design.entries (V.words_of values.now) }
        requires scope { scope < length self.old.design.scopes }
        requires args { args.now ≡ called_args op.now }
        requires fits { IsTrue (takes_by task self.old.design.entries (items_of kept) args.now) }
        ensures ok { OnOk result (self.new ≡ does task (record { op = op.now; scope = scope; kept = items_of kept.entry }) now (V.words_of values.now) self.old) }
        ensures err { OnErr result (self.new ≡ self.old) }
    {
        match task {
            Task::Display => self.display(args, scope, kept, now, values),
            Task::Write => self.write(args, scope, kept, now, values),
            Task::Strobe => self.strobe(op, scope, kept),
            Task::Monitor => self.monitor(op, scope, kept),
            Task::MonitorOff => {
                self.state.monitor_on = false;
                Ok(())
            }
            Task::MonitorOn => {
                self.state.monitor_on = true;
                self.state.monitor_due = true;
                Ok(())
            }
            Task::Finish | Task::Stop | Task::DumpFlush => Ok(()),
            Task::DumpFile => self.rename(args),
            Task::DumpVars => self.choose(args),
            Task::DumpOff => self.request(Section::Off),
            Task::DumpOn => self.request(Section::On),
            Task::DumpAll => self.request(Section::All),
        }
    }

    // Prints a line.
    fn display<V: Values>(
        &mut self,
        args: &[Arg<u32>],
        scope: u32,
        kept: Kept<'_>,
        now: u64,
        values: &V,
    ) -> Result<(), AllocError>
        requires answers { Answers self.old.design.entries (V.words_of values.now) }
        requires scope { scope < length self.old.design.scopes }
        requires fits { IsTrue (list_all (is_shown self.old.design.entries (items_of kept)) args.now) }
        ensures ok { OnOk result (self.new ≡ printed (call_line self.old.design.entries (record { words = V.words_of values.now; now = now; place = place_of self.old.design.scopes scope; kept = items_of kept.entry }) args.now) self.old) }
        ensures err { OnErr result (self.new ≡ self.old) }
    {
        stand_in(&mut self.here, self.alloc, self.scopes.as_slice(), scope)?;
        append_line(
            args,
            self.entries.as_slice(),
            &self.here.place,
            kept,
            now,
            values,
            &mut self.out,
        )
    }

    // Prints a text.
    fn write<V: Values>(
        &mut self,
        args: &[Arg<u32>],
        scope: u32,
        kept: Kept<'_>,
        now: u64,
        values: &V,
    ) -> Result<(), AllocError>
        requires answers { Answers self.old.design.entries (V.words_of values.now) }
        requires scope { scope < length self.old.design.scopes }
        requires fits { IsTrue (list_all (is_shown self.old.design.entries (items_of kept)) args.now) }
        ensures ok { OnOk result (self.new ≡ printed (call_text self.old.design.entries (record { words = V.words_of values.now; now = now; place = place_of self.old.design.scopes scope; kept = items_of kept.entry }) args.now) self.old) }
        ensures err { OnErr result (self.new ≡ self.old) }
    {
        stand_in(&mut self.here, self.alloc, self.scopes.as_slice(), scope)?;
        append_text(
            args,
            self.entries.as_slice(),
            &self.here.place,
            kept,
            now,
            values,
            &mut self.out,
        )
    }

    // Keeps a call of `$strobe` for the next phase.
    fn strobe(&mut self, op: &Op<u32>, scope: u32, kept: Kept<'_>) -> Result<(), AllocError>
        requires { IsTrue (fits_call self.old.design.entries self.old.design.scopes (record { op = op.now; scope = scope; kept = items_of kept })) }
        ensures ok { OnOk result (self.new ≡ with_state (record self.old.state { strobes = self.old.state.strobes ++ record { op = op.now; scope = scope; kept = items_of kept.entry } ∷ [] }) self.old) }
        ensures err { OnErr result (self.new ≡ self.old) }
    {
        let call = kept_call(self.alloc, op, scope, kept)?;
        self.state.strobes.push(call)
    }

    // Keeps a call of `$monitor`, in the place of the last one.
    fn monitor(&mut self, op: &Op<u32>, scope: u32, kept: Kept<'_>) -> Result<(), AllocError>
        requires { IsTrue (fits_call self.old.design.entries self.old.design.scopes (record { op = op.now; scope = scope; kept = items_of kept })) }
        ensures ok { OnOk result (self.new ≡ with_state (record self.old.state { monitor = Some (record { op = op.now; scope = scope; kept = items_of kept.entry }); monitor_on = true; monitor_due = true; shown = [] }) self.old) }
        ensures err { OnErr result (self.new ≡ self.old) }
    {
        let call = kept_call(self.alloc, op, scope, kept)?;
        self.state.monitor = Some(call);
        self.state.monitor_on = true;
        self.state.monitor_due = true;
        self.state.shown = VecList::new(self.alloc);
        Ok(())
    }

    /// Does the read-only phase at the end of a time step: the strobes print, then the monitor, then the dump writes.
    /// `plane` has a place for each item, and there the value of each variable, gate and net delay. Where nothing is due it
    /// costs a few instructions; a dump that is on costs one scan of its items' lanes, and beside it what has changed.
    ///
    /// # Errors
    ///
    /// `AllocError` where memory is wanting. Each buffer has a beginning of what was due then.
    pub fn read_only<V: Values>(
        &mut self,
        now: u64,
        values: &V,
        plane: &Plane,
    ) -> Result<(), AllocError>
        requires answers { Answers self.old.design.entries (V.words_of values.now) }
        requires plane { HoldsValues self.old.design.entries (V.words_of values.now) plane.now }
        ensures ok { OnOk result (self.new ≡ read_only now (V.words_of values.now) self.old) }
        ensures part { OnErr result (IsPartOf self.old (read_only now (V.words_of values.now) self.old) self.new) }
    {
        self.print_strobes(now, values)?;
        self.print_monitor(now, values)?;
        self.write_dump(now, plane)
    }

    // Writes the dump's part of the phase.
    fn write_dump(&mut self, now: u64, plane: &Plane) -> Result<(), AllocError>
        requires { HasWidths self.old.design.entries plane.now }
        ensures ok { OnOk result ((words : ℕ → List (List Bit)) → HoldsValues self.old.design.entries words plane.now → self.new ≡ dumped now words self.old) }
        ensures part { OnErr result ((words : ℕ → List (List Bit)) → HoldsValues self.old.design.entries words plane.now → IsPartOf self.old (dumped now words self.old) self.new) }
    {
        if self.state.dumping == 0 {
            return Ok(());
        }
        if self.state.dumping == 1 {
            self.write_header()?;
            return self.write_phase(true, now, plane);
        }
        self.write_phase(false, now, plane)
    }

    // Writes the header of the dump.
    fn write_header(&mut self) -> Result<(), AllocError>
        requires { self.old.state.dumping ≡ 1 }
        ensures ok { OnOk result (self.new ≡ with_state (record self.old.state { dumping = 2; last = self.new.state.last }) (with_header self.old)) }
        ensures err { OnErr result (self.new ≡ self.old) }
    {
        let writer = open(
            self.alloc,
            self.precision,
            self.entries.as_slice(),
            self.scopes.as_slice(),
            self.state.chosen.as_slice(),
            &mut self.dump,
        )?;
        self.writer = Some(writer);
        self.state.dumping = 2;
        Ok(())
    }

    // Writes the sections and changes of the phase, where there are any.
    fn write_phase(&mut self, header: bool, now: u64, plane: &Plane) -> Result<(), AllocError>
        requires dumping { self.old.state.dumping ≡ 2 }
        requires widths { HasWidths self.old.design.entries plane.now }
        ensures ok { OnOk result ((words : ℕ → List (List Bit)) → HoldsValues self.old.design.entries words plane.now → self.new ≡ with_phase now header (dumped_values self.old.design words self.old.state.chosen) self.old) }
        ensures part { OnErr result ((words : ℕ → List (List Bit)) → HoldsValues self.old.design.entries words plane.now → IsBetween self.old.dump (with_phase now header (dumped_values self.old.design words self.old.state.chosen) self.old).dump self.new.dump) }
        ensures kept { OnErr result (self.new ≡ record self.old { state = record self.old.state { last = self.new.state.last }; dump = self.new.dump }) }
    {
        let requests = self.state.requests.as_slice();
        if !header && !self.state.dump_on && requests.is_empty() {
            return Ok(());
        }
        let Some(writer) = &mut self.writer else {
            return Ok(());
        };
        plane.copy_into(writer.roots.as_slice(), &mut writer.values);
        let on = append_phase(
            &mut writer.dump,
            &writer.values,
            header,
            requests,
            self.state.dump_on,
            now,
            &mut self.dump,
        )?;
        self.state.dump_on = on;
        self.state.requests.clear();
        Ok(())
    }

    // Prints the strobes, in order, and keeps none.
    #[tactic(auto, unfolding(crate::specs::Phase::strobed))]
    fn print_strobes<V: Values>(&mut self, now: u64, values: &V) -> Result<(), AllocError>
        requires { Answers self.old.design.entries (V.words_of values.now) }
        ensures ok { OnOk result (self.new ≡ strobed now (V.words_of values.now) self.old) }
        ensures err { OnErr result (self.new ≡ record self.old { out = self.new.out }) }
        ensures part { OnErr result (IsBetween self.old.out (strobed now (V.words_of values.now) self.old).out self.new.out) }
    {
        append_strobes(
            self.alloc,
            self.state.strobes.as_slice(),
            self.entries.as_slice(),
            self.scopes.as_slice(),
            &mut self.here,
            now,
            values,
            &mut self.out,
        )?;
        self.state.strobes.clear();
        Ok(())
    }

    // Prints the monitor where it is due, or a value that it watches has changed.
    #[tactic(auto, unfolding(crate::specs::Phase::monitored))]
    fn print_monitor<V: Values>(&mut self, now: u64, values: &V) -> Result<(), AllocError>
        requires { Answers self.old.design.entries (V.words_of values.now) }
        ensures ok { OnOk result (self.new ≡ monitored now (V.words_of values.now) self.old) }
        ensures err { OnErr result (self.new ≡ self.old) }
    {
        let Some(call) = &self.state.monitor else {
            return Ok(());
        };
        if !self.state.monitor_on {
            return Ok(());
        }
        watch(
            call,
            self.entries.as_slice(),
            self.scopes.as_slice(),
            now,
            values,
            &mut self.watched,
        )?;
        if !self.state.monitor_due
            && same_values(self.watched.as_slice(), self.state.shown.as_slice())
        {
            return Ok(());
        }
        append_kept(
            self.alloc,
            call,
            self.entries.as_slice(),
            self.scopes.as_slice(),
            &mut self.here,
            now,
            values,
            &mut self.out,
        )?;
        swap(&mut self.state.shown, &mut self.watched);
        self.state.monitor_due = false;
        Ok(())
    }

    // Asks for a section, from the first `$dumpvars` on.
    fn request(&mut self, kind: Section) -> Result<(), AllocError>
        ensures ok { OnOk result (self.new ≡ with_state (requesting kind self.old.state) self.old) }
        ensures err { OnErr result (self.new ≡ self.old) }
    {
        if self.state.dumping == 0 {
            return Ok(());
        }
        self.state.requests.push(kind)
    }

    // Gives the dump another name, until its header is written.
    fn rename(&mut self, args: &[Arg<u32>]) -> Result<(), AllocError>
        ensures ok { OnOk result (self.new ≡ with_state (named args.now self.old.state) self.old) }
        ensures err { OnErr result (self.new ≡ self.old) }
    {
        match args.first() {
            Some(Arg::Text(name)) => {
                let begun = self.state.dumping == 2;
                if begun {
                    return Ok(());
                }
                self.state.name = name.copy(self.alloc)?;
                Ok(())
            }
            _ => Ok(()),
        }
    }

    // Chooses what is dumped, until the header is written.
    fn choose(&mut self, args: &[Arg<u32>]) -> Result<(), AllocError>
        ensures ok { OnOk result (self.new ≡ with_state (choosing self.old.design args.now self.old.state) self.old) }
        ensures err { OnErr result (self.new ≡ self.old) }
    {
        let later = self.state.dumping == 2;
        if later {
            return Ok(());
        }
        let chosen = chosen_with(
            self.alloc,
            self.entries.as_slice(),
            self.scopes.as_slice(),
            args,
            self.state.chosen.as_slice(),
        )?;
        self.state.chosen = chosen;
        self.state.dumping = 1;
        Ok(())
    }

    /// The value of a call of a function: an opcode of the program, in its scope, on the stack before its pops, which has its
    /// top last.
    pub fn func<V: Values>(
        &self,
        op: &Op<u32>,
        scope: u32,
        stack: &[Vec4],
        now: u64,
        values: &V,
    ) -> Vec4
        requires answers { Answers self.now.design.entries (V.words_of values.now) }
        requires fits { IsTrue (is_function_call self.now.design scope (popped (called_pops op.now) stack.now) op.now) }
        ensures { result ≡ answered op.now scope (popped (called_pops op.now) stack.now) now (V.words_of values.now) self.now.design }
    {
        match op {
            Op::CallFunction {
                name,
                args,
                pops,
                ..
            } => match function_of(name.as_slice()) {
                Some(function) => function_value(
                    function,
                    args.as_slice(),
                    self.entries.as_slice(),
                    scale_of(self.scopes.as_slice(), scope),
                    kept_of(stack, *pops),
                    now,
                    values,
                ),
                None => Vec4::splat(Bit::Unknown, 1),
            },
            _ => Vec4::splat(Bit::Unknown, 1),
        }
    }
}

/// What is kept before the first call.
#[tactic(auto, unfolding(crate::specs::Tasks::first_state))]
fn first_state(alloc: Global) -> Result<TaskState, AllocError>
    ensures { IfOk result (λ state. state ≡ first_state) }
{
    Ok(TaskState {
        monitor: None,
        monitor_on: false,
        monitor_due: false,
        shown: VecList::new(alloc),
        strobes: Calls::new(alloc),
        name: Bytes::from_slice(alloc, b"dump.vcd")?,
        chosen: ItemList::new(alloc),
        dumping: 0,
        dump_on: false,
        requests: Sections::new(alloc),
        last: VecList::new(alloc),
    })
}

/// What a task says of the run.
fn said_by(task: Task) -> Said
    ensures { result ≡ said_by task }
{
    match task {
        Task::Finish => Said::Finish,
        Task::Stop => Said::Stop,
        Task::Display
        | Task::Write
        | Task::Strobe
        | Task::Monitor
        | Task::MonitorOff
        | Task::MonitorOn
        | Task::DumpFile
        | Task::DumpVars
        | Task::DumpOff
        | Task::DumpOn
        | Task::DumpAll
        | Task::DumpFlush => Said::Going,
    }
}

/// The value of a function. Of the place it takes the scale alone, in ticks.
fn function_value<V: Values>(
    function: Function,
    args: &[Arg<u32>],
    entries: &[Entry],
    scale: u64,
    kept: Kept<'_>,
    now: u64,
    values: &V,
) -> Vec4
    requires answers { Answers entries.now (V.words_of values.now) }
    requires fits { IsTrue (function_takes function entries.now (items_of kept) args.now) }
    requires scale { 1 ≤ scale }
    ensures { result ≡ function_value entries.now (record { words = V.words_of values.now; now = now; place = place_with [] scale; kept = items_of kept.entry }) function args.now }
{
    match function {
        Function::Time => time_value(scale, now),
        Function::ShortTime => short_time_value(scale, now),
        Function::SimTime => sim_time_value(now),
        Function::Logarithm => match args {
            [arg, ..] => clog2(argument_value(arg, entries, scale, kept, now, values)),
            [] => Vec4::splat(Bit::Unknown, 32),
        },
    }
}

/// A call as it is kept for later.
fn kept_call(alloc: Global, op: &Op<u32>, scope: u32, kept: Kept<'_>) -> Result<Call, AllocError>
    ensures { IfOk result (λ call. call ≡ record { op = op.now; scope = scope; kept = items_of kept.entry }) }
{
    Ok(Call {
        op: op.copy(alloc)?,
        scope,
        kept: kept_items(alloc, kept)?,
    })
}

/// The items, the top first.
fn kept_items(alloc: Global, kept: Kept<'_>) -> Result<VecList, AllocError>
    ensures { IfOk result (λ items. items ≡ items_of kept.entry) }
{
    let mut items = VecList::new(alloc);
    for place in 0..kept_len(kept) {
        items.push(item_at(kept, place))?;
    }
    Ok(items)
}

/// How many items a call popped.
fn kept_len(kept: Kept<'_>) -> u64
    ensures { result ≡ length (items_of kept.entry) }
{
    match kept {
        Kept::TopLast(items) => items.len() as u64,
        Kept::TopFirst(items) => items.len() as u64,
    }
}
