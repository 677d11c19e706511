//! Calls of system tasks and functions, on the frame of the thread that calls.

ghost use Rattle.std.specs.Prelude.{◌≡◌, ◌<◌, ◌≤◌, ◌+◌, ◌^◌, ℕ, IfOk, OnOk, OnErr, IsTrue, Some, drop, ◌∷◌, length, take};
ghost use Rattle.sys_tasks.specs.Conditions.{Answers, is_task_call, is_function_call};
ghost use Rattle.sys_tasks.specs.Tasks.{called, called_pops, said_of, answered};
ghost use Rattle.vvp_threads.specs.declared.thread.Thread.{Thread};
ghost use Rattle.vvp_threads.specs.Keyed.{IsKeyOf};
ghost use Rattle.vvp_threads.specs.Table.{thread_of};
ghost use Rattle.sim_core.specs.Machine.{framed};
ghost use Rattle.sim_core.specs.Effects.{without_items, with_item, items_of};

use four_state::{Values, Vec4};
use std::alloc::AllocError;
use sys_tasks::{Said, Tasks};
use vvp_ops::Op;
use vvp_threads::{Frame, Threads};

// How many items a call pops.
fn pops_of(op: &Op<u32>) -> u64
    ensures { result ≡ called_pops op.now }
{
    match op {
        Op::CallTask { pops, .. } => *pops,
        Op::CallFunction { pops, .. } => *pops,
        _ => 0,
    }
}

// Calls a task from a frame, pops its items and goes on at the next opcode. Where memory is wanting, all stays.
fn call_task<V: Values>(
    tasks: &mut Tasks,
    frame: &mut Frame,
    op: &Op<u32>,
    scope: u32,
    now: u64,
    values: &V,
) -> Result<Said, AllocError>
    requires answers { Answers tasks.old.design.entries (V.words_of values.now) }
    requires fits { IsTrue (is_task_call tasks.old.design scope (items_of op.now frame.old) op.now) }
    requires pops { called_pops op.now ≤ length frame.old.stack }
    requires place { frame.old.pc < 2 ^ 20 }
    ensures tasks { OnOk result (tasks.new ≡ called op.now scope (items_of op.now frame.old) now (V.words_of values.now) tasks.old) }
    ensures frame { OnOk result (frame.new ≡ record (without_items op.now frame.old) { pc = frame.old.pc + 1 }) }
    ensures said { IfOk result (λ said. said ≡ said_of op.now) }
    ensures kept { OnErr result (tasks.new ≡ tasks.old) }
    ensures still { OnErr result (frame.new ≡ frame.old) }
{
    let said = tasks.call(op, scope, frame.stack.as_slice(), now, values)?;
    frame.stack.discard(pops_of(op) as usize);
    frame.pc += 1;
    Ok(said)
}

// Takes so many items off and puts one on top. Where memory is wanting, the frame stays.
fn put_value(frame: &mut Frame, pops: usize, value: Vec4) -> Result<(), AllocError>
    requires { pops ≤ length frame.old.stack }
    ensures ok { OnOk result (frame.new ≡ record frame.old { stack = value ∷ drop pops frame.old.stack }) }
    ensures err { OnErr result (frame.new ≡ frame.old) }
{
    if pops == 0 {
        return frame.stack.push(value);
    }
    frame.stack.discard(pops - 1);
    frame.stack.set_top(value);
    Ok(())
}

// Calls a function from a frame: its items are popped, its value is pushed, and the thread goes on at the next opcode. Where
// memory is wanting, the frame stays.
fn call_function<V: Values>(
    tasks: &Tasks,
    frame: &mut Frame,
    op: &Op<u32>,
    scope: u32,
    now: u64,
    values: &V,
) -> Result<(), AllocError>
    requires answers { Answers tasks.now.design.entries (V.words_of values.now) }
    requires fits { IsTrue (is_function_call tasks.now.design scope (items_of op.now frame.old) op.now) }
    requires pops { called_pops op.now ≤ length frame.old.stack }
    requires place { frame.old.pc < 2 ^ 20 }
    ensures ok { OnOk result (frame.new ≡ record (with_item (answered op.now scope (items_of op.now frame.old) now (V.words_of values.now) tasks.now.design) (without_items op.now frame.old)) { pc = frame.old.pc + 1 }) }
    ensures err { OnErr result (frame.new ≡ frame.old) }
{
    let value = tasks.func(op, scope, frame.stack.as_slice(), now, values);
    put_value(frame, pops_of(op) as usize, value)?;
    frame.pc += 1;
    Ok(())
}

/// Calls a task from the frame of the thread under a key, pops its items and goes on at the next opcode. Where memory is
/// wanting, all stays.
pub(crate) fn call_task_at<V: Values>(
    tasks: &mut Tasks,
    threads: &mut Threads,
    key: usize,
    op: &Op<u32>,
    scope: u32,
    now: u64,
    values: &V,
) -> Result<Said, AllocError>
    requires answers { Answers tasks.old.design.entries (V.words_of values.now) }
    requires live { (serial : ℕ) × (thread : Thread) × IsKeyOf threads.old serial key × (thread_of threads.old.table serial ≡ Some thread)
        × IsTrue (is_task_call tasks.old.design scope (items_of op.now thread.frame) op.now)
        × (called_pops op.now ≤ length thread.frame.stack) × (thread.frame.pc < 2 ^ 20) }
    ensures tasks { OnOk result ((serial : ℕ) (thread : Thread) → IsKeyOf threads.old serial key → thread_of threads.old.table serial ≡ Some thread
        → tasks.new ≡ called op.now scope (items_of op.now thread.frame) now (V.words_of values.now) tasks.old) }
    ensures threads { OnOk result ((serial : ℕ) (thread : Thread) → IsKeyOf threads.old serial key → thread_of threads.old.table serial ≡ Some thread
        → threads.new ≡ record threads.old { table = framed serial (record (without_items op.now thread.frame) { pc = thread.frame.pc + 1 }) threads.old.table }) }
    ensures said { IfOk result (λ said. said ≡ said_of op.now) }
    ensures kept { OnErr result (tasks.new ≡ tasks.old) }
    ensures still { OnErr result (threads.new ≡ threads.old) }
{
    match threads.get_mut(key) {
        Some(frame) => call_task(tasks, frame, op, scope, now, values),
        None => unreachable!(),
    }
}

/// Calls a function from the frame of the thread under a key: its items are popped, its value is pushed, and the thread goes on
/// at the next opcode. Where memory is wanting, all stays.
pub(crate) fn call_function_at<V: Values>(
    tasks: &Tasks,
    threads: &mut Threads,
    key: usize,
    op: &Op<u32>,
    scope: u32,
    now: u64,
    values: &V,
) -> Result<(), AllocError>
    requires answers { Answers tasks.now.design.entries (V.words_of values.now) }
    requires live { (serial : ℕ) × (thread : Thread) × IsKeyOf threads.old serial key × (thread_of threads.old.table serial ≡ Some thread)
        × IsTrue (is_function_call tasks.now.design scope (items_of op.now thread.frame) op.now)
        × (called_pops op.now ≤ length thread.frame.stack) × (thread.frame.pc < 2 ^ 20) }
    ensures ok { OnOk result ((serial : ℕ) (thread : Thread) → IsKeyOf threads.old serial key → thread_of threads.old.table serial ≡ Some thread
        → threads.new ≡ record threads.old { table = framed serial (record (with_item (answered op.now scope (items_of op.now thread.frame) now (V.words_of values.now) tasks.now.design) (without_items op.now thread.frame)) { pc = thread.frame.pc + 1 }) threads.old.table }) }
    ensures err { OnErr result (threads.new ≡ threads.old) }
{
    match threads.get_mut(key) {
        Some(frame) => call_function(tasks, frame, op, scope, now, values),
        None => unreachable!(),
    }
}
