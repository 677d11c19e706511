ghost use Rattle.std.specs.Prelude.{◌≡◌, length, IfOk, OnOk};
ghost use Rattle.sys_tasks.specs.Sample.{bit_item, sample, sample_design, sample_row, scope_item, vector_item};

use super::*;
use four_state::{Bit, Values, Vec4};
use std::alloc::{AllocError, Global};
use std::test::Fail;
use sym_link::{Code, Item, ItemKind, Items, NONE, Numbers, Program, ScopeRow, Scopes, Starts};
use value_plane::Plane;
use vvp_forms::ScopeKind;
use vvp_lex::Bytes;
use vvp_ops::{Arg, Args, Op};

// The values of a variable of one bit, number 1, and of one of four, number 2.
#[derive(Drop)]
struct Pair {
    bit: Vec4,
    vector: Vec4,
    ghost one: { length bit ≡ 1 },
    ghost four: { length vector ≡ 4 },
}

impl Values for Pair {
    ghost use Rattle.sys_tasks.specs.Sample.{sample_words};

    ghost words_of = { λ p item. sample_words p.bit p.vector item };

    fn value(&self, item: u32, _word: u32) -> Vec4 {
        if item == 1 {
            return self.bit;
        }
        self.vector
    }

    fn words(&self, _item: u32) -> u32 {
        1
    }
}

fn scope_item(alloc: Global) -> Result<Item, AllocError>
    ensures { IfOk result (λ item. item ≡ scope_item) }
{
    Ok(Item {
        name: Bytes::from_slice(alloc, b"tb")?,
        starred: false,
        scope: NONE,
        msb: 0,
        lsb: 0,
        signed: false,
        width: 0,
        what: ItemKind::Scope(0),
    })
}

fn bit_item(alloc: Global) -> Result<Item, AllocError>
    ensures { IfOk result (λ item. item ≡ bit_item) }
{
    Ok(Item {
        name: Bytes::from_slice(alloc, b"a")?,
        starred: false,
        scope: 0,
        msb: 0,
        lsb: 0,
        signed: false,
        width: 1,
        what: ItemKind::Var { integer: false },
    })
}

fn vector_item(alloc: Global) -> Result<Item, AllocError>
    ensures { IfOk result (λ item. item ≡ vector_item) }
{
    Ok(Item {
        name: Bytes::from_slice(alloc, b"v")?,
        starred: false,
        scope: 0,
        msb: 3,
        lsb: 0,
        signed: false,
        width: 4,
        what: ItemKind::Var { integer: false },
    })
}

fn scope(alloc: Global) -> Result<ScopeRow, AllocError>
    ensures { IfOk result (λ row. row ≡ sample_row) }
{
    Ok(ScopeRow {
        name: Bytes::from_slice(alloc, b"tb")?,
        kind: ScopeKind::Module,
        parent: NONE,
        scale: 1000,
    })
}

// The program of both.
fn program(alloc: Global) -> Result<Program, AllocError>
    ensures { IfOk result (λ program. program ≡ sample) }
{
    let mut items = Items::new(alloc);
    items.push(scope_item(alloc)?)?;
    items.push(bit_item(alloc)?)?;
    items.push(vector_item(alloc)?)?;
    let mut scopes = Scopes::new(alloc);
    scopes.push(scope(alloc)?)?;
    Ok(Program {
        items,
        code: Code::new(alloc),
        code_scopes: Numbers::new(alloc),
        scopes,
        threads: Starts::new(alloc),
        precision: -12,
    })
}

// The tasks of the program.
fn tasks(alloc: Global) -> Result<Tasks, AllocError>
    ensures { IfOk result (λ tasks. tasks.design ≡ sample_design) }
{
    Tasks::new(alloc, &program(alloc)?)
}

// The values of two variables, by their planes.
fn values(bit: u128, low: u128, high: u128) -> Pair {
    Pair {
        bit: Vec4::from_planes(bit, 0, 1),
        vector: Vec4::from_planes(low, high, 4),
    }
}

// `$display "%0t %0d", $time, $time`, at a time.
fn display(alloc: Global, tasks: &mut Tasks, now: u64) -> Result<(), AllocError>
    requires { tasks.old.design ≡ sample_design }
    ensures { OnOk result (tasks.new.design ≡ sample_design) }
{
    let mut args = Args::new(alloc);
    args.push(Arg::Text(Bytes::from_slice(alloc, b"%0t %0d")?))?;
    args.push(Arg::Time)?;
    args.push(Arg::Time)?;
    let op = Op::CallTask {
        file: 1,
        line: 1,
        name: Bytes::from_slice(alloc, b"$display")?,
        args,
        pops: 0,
    };
    tasks.call(&op, 0, &[], now, &values(0, 0, 0))?;
    Ok(())
}

// `$monitor "%b", v`.
fn monitor(alloc: Global, tasks: &mut Tasks) -> Result<(), AllocError>
    requires { tasks.old.design ≡ sample_design }
    ensures { OnOk result (tasks.new.design ≡ sample_design) }
{
    let mut args = Args::new(alloc);
    args.push(Arg::Text(Bytes::from_slice(alloc, b"%b")?))?;
    args.push(Arg::Symbol(2))?;
    let op = Op::CallTask {
        file: 1,
        line: 1,
        name: Bytes::from_slice(alloc, b"$monitor")?,
        args,
        pops: 0,
    };
    tasks.call(&op, 0, &[], 0, &values(0, 0, 0))?;
    Ok(())
}

// `$dumpvars`.
fn dumpvars(alloc: Global, tasks: &mut Tasks) -> Result<(), AllocError>
    requires { tasks.old.design ≡ sample_design }
    ensures { OnOk result (tasks.new.design ≡ sample_design) }
{
    let op = Op::CallTask {
        file: 1,
        line: 1,
        name: Bytes::from_slice(alloc, b"$dumpvars")?,
        args: Args::new(alloc),
        pops: 0,
    };
    tasks.call(&op, 0, &[], 0, &values(0, 0, 0))?;
    Ok(())
}

// A phase by these values.
fn phase(
    alloc: Global,
    tasks: &mut Tasks,
    now: u64,
    low: u128,
    high: u128,
) -> Result<(), AllocError>
    requires { tasks.old.design ≡ sample_design }
    ensures { OnOk result (tasks.new.design ≡ sample_design) }
{
    let pair = values(0, low, high);
    let mut plane = Plane::new(alloc, &[1, 1, 4])?;
    plane.set(1, pair.bit);
    plane.set(2, pair.vector);
    tasks.read_only(now, &pair, &plane)
}

// `$time`.
fn time(alloc: Global, tasks: &Tasks, now: u64) -> Result<Vec4, AllocError>
    requires { tasks.now.design ≡ sample_design }
{
    let op = Op::CallFunction {
        file: 1,
        line: 1,
        name: Bytes::from_slice(alloc, b"$time")?,
        width: 64,
        args: Args::new(alloc),
        pops: 0,
    };
    Ok(tasks.func(&op, 0, &[], now, &values(0, 0, 0)))
}

// A line, a monitor and a dump.
fn begin(alloc: Global, tasks: &mut Tasks) -> Result<(), AllocError>
    requires { tasks.old.design ≡ sample_design }
    ensures { OnOk result (tasks.new.design ≡ sample_design) }
{
    display(alloc, tasks, 1500)?;
    monitor(alloc, tasks)?;
    dumpvars(alloc, tasks)
}

// Four phases, in one of which nothing has changed.
fn phases(alloc: Global, tasks: &mut Tasks) -> Result<(), AllocError>
    requires { tasks.old.design ≡ sample_design }
{
    phase(alloc, tasks, 0, 7, 6)?;
    phase(alloc, tasks, 1000, 13, 12)?;
    phase(alloc, tasks, 2000, 13, 12)?;
    phase(alloc, tasks, 3000, 0, 0)
}

// What the phases dump.
fn dumped() -> &'static [u8] {
    b"$version vvp profile P1 $end
$timescale 1ps $end
$scope module tb $end
$var reg 1 ! a $end
$var reg 4 \" v [3:0] $end
$upscope $end
$enddefinitions $end
#0
$dumpvars
0!
b0xx1 \"
$end
#1000
bx01 \"
#3000
b0 \"
"
}

// What the tasks printed.
fn out(tasks: &Tasks) -> &[u8] {
    tasks.out()
}

// What they dumped.
fn dump(tasks: &Tasks) -> &[u8] {
    tasks.dump()
}

// Whether the dump has its own name.
fn is_named(tasks: &Tasks) -> bool {
    tasks.dump_name() == Some(&b"dump.vcd"[..])
}

// All of it.
fn run(alloc: Global) -> Result<Tasks, AllocError> {
    let mut tasks = tasks(alloc)?;
    begin(alloc, &mut tasks)?;
    phases(alloc, &mut tasks)?;
    Ok(tasks)
}

#[test]
fn prints_and_dumps(rt: HostRuntime) -> Result<(), Fail> {
    let tasks = run(rt.alloc())?;
    assert_eq!(rt; out(&tasks), b"2000 2\n0xx1\nxx01\n0000\n".as_slice());
    assert_eq!(rt; dump(&tasks), dumped());
    assert!(rt; is_named(&tasks));
    Ok(())
}

// `$time` at 2500 ticks, how many items are chosen, and how many bytes are left once both buffers are cleared.
fn answers(alloc: Global) -> Result<(Option<u128>, usize, usize), AllocError> {
    let mut tasks = tasks(alloc)?;
    let time = time(alloc, &tasks, 2500)?.known();
    begin(alloc, &mut tasks)?;
    let chosen = chosen(alloc, &tasks)?;
    tasks.clear_out();
    tasks.clear_dump();
    Ok((time, chosen, out(&tasks).len() / 2 + dump(&tasks).len() / 2))
}

fn chosen(alloc: Global, tasks: &Tasks) -> Result<usize, AllocError> {
    Ok(tasks.state(alloc)?.chosen.as_slice().len())
}

#[test]
fn answers_and_clears(rt: HostRuntime) -> Result<(), Fail> {
    assert_eq!(rt; answers(rt.alloc())?, (Some(3), 2, 0));
    Ok(())
}
