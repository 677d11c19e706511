//! The dues and threads with which a run starts.

ghost use Rattle.std.specs.Prelude.{◌≡◌, ◌<◌, ◌≤◌, ◌+◌, ◌^◌, ℕ, [], ◌++◌, length, map, count_by, true, false, None, ◌∷◌, ◌-◌, IfOk, OnOk, All};
ghost use Rattle.std.specs.List.{enumerate_from};
ghost use Rattle.event_pool.specs.Pending.{eval_of, run_of, unkeyed};
ghost use Rattle.event_pool.specs.Schedule.{put_due};
ghost use Rattle.event_pool.specs.Order.{in_order};
ghost use Rattle.net_engine.specs.Kept.{has_output, evals_lacking};
ghost use Rattle.sym_link.specs.Roots.{node_of, nodes_of};
ghost use Rattle.sym_link.specs.Sound.{IsProgram};
ghost use Rattle.sym_link.specs.declared.program.Item.{Item};
ghost use Rattle.sym_link.specs.declared.program.ScopeRow.{ScopeRow};
ghost use Rattle.vvp_threads.specs.Runs.{HasRuns};
ghost use Rattle.vvp_threads.specs.Table.{live_count, spawned};
ghost use Rattle.net_engine.specs.Net.{first_values};
ghost use Rattle.net_engine.specs.Readers.{driven_ports};
ghost use Rattle.sys_tasks.specs.Design.{design_of};
ghost use Rattle.sys_tasks.specs.Tasks.{first_tasks};
ghost use Rattle.sim_core.specs.Effects.{parents_of};
ghost use Rattle.sim_core.specs.Start.{first_evals, first_dues, first_threads, run_at};

use event_pool::{Act, Agenda, Due, Region};
use net_engine::Net;
use port_chain::Fanout;
use std::alloc::{AllocError, Global};
use sym_link::{Item, ItemKind, Program, ScopeRow, Start};
use sys_tasks::Tasks;
use vvp_threads::Threads;

/// Whether an item of a kind has an output, which an evaluation computes.
pub(crate) fn has_output(kind: &ItemKind) -> bool
    ensures { result ≡ has_output kind.now }
{
    match kind {
        ItemKind::Functor { .. } => true,
        ItemKind::Delay { .. } => true,
        _ => false,
    }
}

/// How many items have an output.
pub(crate) fn outputs_of(items: &[Item]) -> usize
    ensures { result ≡ count_by (λ item. has_output item.what) items.now }
{
    let mut outputs = 0;
    for item in items {
        if has_output(&item.what) {
            outputs += 1;
        }
    }
    outputs
}

// The parent of each scope.
fn parents_of(alloc: Global, scopes: &[ScopeRow]) -> Result<Vec<u32>, AllocError>
    ensures { IfOk result (λ parents. parents.items ≡ map (λ (row : ScopeRow). row.parent) scopes.now) }
{
    let mut parents = Vec::new(alloc);
    for row in scopes {
        parents.push(row.parent)?;
    }
    Ok(parents)
}

// Puts the evaluation of an item of a kind, Active at time 0, where it has an output.
fn put_eval<A: Agenda>(agenda: &mut A, item: u32, kind: &ItemKind)
    requires time { (A.schedule agenda.old).now ≡ 0 }
    requires room { has_output kind.now ≡ true → 0 < (A.schedule agenda.old).spare }
    ensures some { has_output kind.now ≡ true → A.schedule agenda.new ≡ put_due (A.schedule agenda.old) (eval_of 0 item) }
    ensures none { has_output kind.now ≡ false → A.schedule agenda.new ≡ A.schedule agenda.old }
{
    if has_output(kind) {
        agenda.put(Due {
            time: 0,
            region: Region::Active,
            act: Act::Eval(item),
        });
    }
}

// Puts an evaluation of each gate and net delay, Active at time 0.
fn put_evals<A: Agenda>(agenda: &mut A, items: &[Item])
    requires few { length items.now ≤ 2 ^ 20 }
    requires empty { (A.schedule agenda.old).dues ≡ [] }
    requires time { (A.schedule agenda.old).now ≡ 0 }
    requires room { count_by (λ item. has_output item.what) items.now ≤ (A.schedule agenda.old).spare }
    ensures dues { (A.schedule agenda.new).dues ≡ in_order (first_evals (map node_of items.now)) }
    ensures time { (A.schedule agenda.new).now ≡ 0 }
    ensures room { (A.schedule agenda.new).spare + count_by (λ item. has_output item.what) items.now ≡ (A.schedule agenda.old).spare }
{
    for index in 0..items.len() {
        put_eval(agenda, index as u32, &items[index].what);
    }
}

// Starts a thread with which a program starts, and puts its Run, Inactive at time 0.
fn start_thread<A: Agenda>(
    threads: &mut Threads,
    agenda: &mut A,
    serial: u64,
    begun: Start,
) -> Result<(), AllocError>
    requires few { live_count threads.old.table < 65536 }
    requires serial { serial ≡ length threads.old.table.threads }
    requires drawn { length threads.old.table.threads < 2 ^ 64 - 1 }
    requires time { (A.schedule agenda.old).now ≡ 0 }
    requires room { (besides : ℕ) × HasRuns threads.old (besides + 1) (A.schedule agenda.old) }
    ensures table { OnOk result (threads.new.table ≡ spawned threads.old.table None begun.scope begun.code) }
    ensures dues { OnOk result (map unkeyed (A.schedule agenda.new).dues ≡ in_order (map unkeyed (A.schedule agenda.old).dues ++ run_of 0 Region.Inactive serial ∷ [])) }
    ensures runs { OnOk result ((besides : ℕ) → HasRuns threads.old (besides + 1) (A.schedule agenda.old) → HasRuns threads.new besides (A.schedule agenda.new)) }
    ensures time { (A.schedule agenda.new).now ≡ 0 }
{
    let key = threads.spawn(None, begun.scope, begun.code)?;
    agenda.put(Due {
        time: 0,
        region: Region::Inactive,
        act: Act::Run { serial, key },
    });
    Ok(())
}

// The threads with which a program starts, each with a Run, Inactive at time 0, behind the evaluations.
fn start_threads<A: Agenda>(
    alloc: Global,
    program: &Program,
    agenda: &mut A,
) -> Result<Threads, AllocError>
    requires program { IsProgram program.now }
    requires dues { (A.schedule agenda.old).dues ≡ in_order (first_evals (nodes_of program.now)) }
    requires time { (A.schedule agenda.old).now ≡ 0 }
    requires room { length program.now.threads ≤ (A.schedule agenda.old).spare }
    ensures dues { IfOk result (λ threads. map unkeyed (A.schedule agenda.new).dues ≡ in_order (first_dues program.now)) }
    ensures time { (A.schedule agenda.new).now ≡ 0 }
    ensures table { IfOk result (λ threads. threads.table ≡ first_threads program.now) }
    ensures runs { IfOk result (λ threads. HasRuns threads 0 (A.schedule agenda.new)) }
{
    let mut threads = Threads::new(alloc, program.items.as_slice().len() as u32)?;
    let starts = program.threads.as_slice();
    for index in 0..starts.len() {
        start_thread(&mut threads, agenda, index as u64, starts[index])?;
    }
    Ok(threads)
}

/// What a run has that starts, besides its program, what is pending, and its counts.
#[derive(Drop)]
pub(crate) struct Started<F: Fanout + Drop> {
    pub(crate) scope_parents: Vec<u32>,
    pub(crate) net: Net<F>,
    pub(crate) threads: Threads,
    pub(crate) tasks: Tasks,
}

/// Starts a run over an agenda that is empty at time 0: reserves a place for each of the dues, and puts them.
pub(crate) fn begin_run<A: Agenda, F: Fanout + Drop>(
    alloc: Global,
    program: &Program,
    agenda: &mut A,
    fan: F,
) -> Result<Started<F>, AllocError>
    requires program { IsProgram program.now }
    requires empty { (A.schedule agenda.old).dues ≡ [] }
    requires time { (A.schedule agenda.old).now ≡ 0 }
    requires nodes { F.nodes fan ≡ length program.now.items }
    requires pairs { (item : ℕ) → item < length program.now.items → F.pairs fan item ≡ driven_ports (nodes_of program.now) item }
    ensures parents { IfOk result (λ started. started.scope_parents.items ≡ parents_of program.now) }
    ensures nodes { IfOk result (λ started. started.net.nodes ≡ nodes_of program.now) }
    ensures values { IfOk result (λ started. started.net.values ≡ first_values (nodes_of program.now)) }
    ensures marks { IfOk result (λ started. started.net.marks ≡ map (λ node. has_output node.what) (nodes_of program.now)) }
    ensures tasks { IfOk result (λ started. started.tasks ≡ first_tasks (design_of program.now)) }
    ensures table { IfOk result (λ started. started.threads.table ≡ first_threads program.now) }
    ensures runs { IfOk result (λ started. HasRuns started.threads 0 (A.schedule agenda.new)) }
    ensures dues { IfOk result (λ started. map unkeyed (A.schedule agenda.new).dues ≡ in_order (first_dues program.now)) }
    ensures time { IfOk result (λ started. (A.schedule agenda.new).now ≡ 0) }
{
    let scope_parents = parents_of(alloc, program.scopes.as_slice())?;
    let items = program.items.as_slice();
    agenda.reserve(outputs_of(items) + program.threads.as_slice().len())?;
    put_evals(agenda, items);
    let threads = start_threads(alloc, program, agenda)?;
    let net = Net::build(alloc, program, fan)?;
    // The last that may fail: a proof that lets tasks go is dear.
    let tasks = Tasks::new(alloc, program)?;
    Ok(Started {
        scope_parents,
        net,
        threads,
        tasks,
    })
}
