//! What an engine holds, as plain lists.

ghost use Rattle.std.specs.Prelude.{◌≡◌, ◌≤◌, ◌^◌, ℕ, Some, IfOk, OnOk, [], ◌∷◌, ◌++◌, length, map, filter_map, option_map};
ghost use Rattle.std.specs.List.{cons_option, enumerate_from};
ghost use Rattle.event_pool.specs.Pending.{unkeyed};
ghost use Rattle.vvp_threads.specs.declared.thread.Thread.{Thread};
ghost use Rattle.vvp_threads.specs.Keyed.{IsKeyOf};
ghost use Rattle.vvp_threads.specs.Table.{thread_of};
ghost use Rattle.sym_link.specs.declared.program.ItemKind.{ItemKind};
ghost use Rattle.sym_link.specs.Roots.{node_of, kind_of};
ghost use Rattle.net_engine.specs.Net.{array_of, forced_of};
ghost use Rattle.net_engine.specs.Parts.{HasValue, has_value};
ghost use Rattle.sim_core.specs.declared.engine.Running.{Running};
ghost use Rattle.sim_core.specs.Snapshot.{driven_by, forced_by, words_by, request_by, driven_at, forced_at, words_at, request_at, live_threads, snapshot_of};

use crate::engine::{Engine, Running};
use crate::lists::{DelayList, Forced, ForcedList, LevelList, ThreadList, WaitList, WordList};
use event_pool::{Act, Agenda, Due, Dues};
use net_engine::Net;
use port_chain::Fanout;
use std::alloc::{AllocError, Global};
use strengths::Vec8;
use sym_link::{Item, ItemKind};
use sys_tasks::{TaskState, VecList};
use vvp_threads::{Thread, Threads};

/// What an engine holds: the machine of its program and order, as plain lists. Output and dump aren't in it.
#[derive(Drop)]
pub struct Snapshot {
    /// The present time, in ticks from the start.
    pub now: u64,
    /// How many opcodes were done and dues taken.
    pub steps: u64,
    /// The greatest number of dues that were pending at any moment.
    pub peak: u64,
    /// The serial of the thread that runs.
    pub running: Option<u64>,
    /// The serial of the thread that starts next.
    pub serials: u64,
    /// What is pending, by time, then Active, Inactive, Nonblocking, then in the order of putting. The key of each Run is 0.
    pub dues: Dues,
    /// The live threads, by rising serial.
    pub threads: ThreadList,
    /// For each item the serials of the threads that wait for it, in the order of waiting.
    pub waiting: WaitList,
    /// For each item the levels that drive it, where it is a variable, a gate or a net delay.
    pub values: LevelList,
    /// The words of each array, in file order.
    pub words: WordList,
    /// What the system tasks keep between calls.
    pub tasks: TaskState,
    /// The last request of each net delay, in file order: its number, and the levels that it keeps.
    pub delays: DelayList,
    /// For each item what is forced on each of its places, where it is a variable, a gate or a net delay.
    pub forced: ForcedList,
    /// How many dues were taken.
    pub taken: u64,
    /// The order in which dues are taken.
    pub order: u32,
}

// ---- dues

// A due without the key of its thread.
fn without_key(due: Due) -> Due
    ensures { result ≡ unkeyed due }
{
    match due.act {
        Act::Run { serial, .. } => Due {
            time: due.time,
            region: due.region,
            act: Act::Run { serial, key: 0 },
        },
        _ => due,
    }
}

// The dues without keys.
fn without_keys(alloc: Global, dues: &[Due]) -> Result<Dues, AllocError>
    ensures { IfOk result (λ bare. bare ≡ map unkeyed dues.now) }
{
    let mut bare = Dues::new(alloc);
    'dues: for i in 0..dues.len() {
        bare.push(without_key(dues[i]))?;
    }
    Ok(bare)
}

// ---- threads

// The serial of the thread that runs.
fn serial_of(running: Option<Running>) -> Option<u64>
    ensures { result ≡ option_map (λ (r : Running). r.serial) running }
{
    match running {
        Some(running) => Some(running.serial),
        None => None,
    }
}

// An equal thread. The only error is want of memory.
fn copied(alloc: Global, thread: &Thread) -> Result<Thread, AllocError>
    ensures { IfOk result (λ copy. copy ≡ thread.now) }
{
    Ok(Thread {
        serial: thread.serial,
        parent: thread.parent,
        scope: thread.scope,
        frame: thread.frame.copy(alloc)?,
        state: thread.state,
    })
}

// A copy of the thread under a key.
fn copied_at(alloc: Global, threads: &Threads, key: usize) -> Result<Thread, AllocError>
    requires { (serial : ℕ) × (thread : Thread) × IsKeyOf threads.now serial key × (thread_of threads.now.table serial ≡ Some thread) }
    ensures { IfOk result (λ copy. (serial : ℕ) → IsKeyOf threads.now serial key → thread_of threads.now.table serial ≡ Some copy) }
{
    match threads.get(key) {
        Some(thread) => copied(alloc, thread),
        None => unreachable!(),
    }
}

// Adds a copy of the thread with a serial, where it is live.
fn add_thread(
    list: &mut ThreadList,
    alloc: Global,
    threads: &Threads,
    serial: u64,
) -> Result<(), AllocError>
    ensures { OnOk result (list.new ≡ list.old ++ live_threads (thread_of threads.now.table serial ∷ [])) }
{
    match threads.key_of(serial) {
        Some(key) => list.push(copied_at(alloc, threads, key)?),
        None => Ok(()),
    }
}

// The live threads.
fn thread_list(alloc: Global, threads: &Threads) -> Result<ThreadList, AllocError>
    ensures { IfOk result (λ list. list ≡ live_threads threads.now.table.threads) }
{
    let mut list = ThreadList::new(alloc);
    'each: for serial in 0..threads.serials() {
        add_thread(&mut list, alloc, threads, serial)?;
    }
    Ok(list)
}

// Who waits for each event.
fn wait_list(alloc: Global, threads: &Threads, events: u32) -> Result<WaitList, AllocError>
    requires { length threads.now.table.waiting ≡ events }
    ensures { IfOk result (λ list. list ≡ threads.now.table.waiting) }
{
    let mut list = WaitList::new(alloc);
    'events: for event in 0..events {
        list.push(threads.waiters(alloc, event)?)?;
    }
    Ok(list)
}

// ---- values

// Whether an item of a kind has a value of its own.
fn has_value(kind: &ItemKind) -> bool
    ensures { result ≡ has_value kind.now }
{
    match kind {
        ItemKind::Var { .. } => true,
        ItemKind::Functor { .. } => true,
        ItemKind::Delay { .. } => true,
        _ => false,
    }
}

// The levels that drive an item of a kind, where it has a value of its own.
fn driven_of<F: Fanout + Drop>(net: &Net<F>, item: u32, kind: &ItemKind) -> Option<Vec8>
    requires { kind_of net.now.nodes item ≡ Some kind.now }
    ensures { result ≡ driven_by net.now.values item kind.now }
{
    if has_value(kind) {
        Some(net.driven(item))
    } else {
        None
    }
}

// What drives each item.
fn level_list<F: Fanout + Drop>(
    alloc: Global,
    net: &Net<F>,
    items: &[Item],
) -> Result<LevelList, AllocError>
    requires nodes { net.now.nodes ≡ map node_of items.now }
    requires few { length items.now ≤ 2 ^ 20 }
    ensures { IfOk result (λ list. list ≡ map (driven_at net.now.values) (enumerate_from 0 net.now.nodes)) }
{
    let mut list = LevelList::new(alloc);
    'items: for i in 0..items.len() {
        list.push(driven_of(net, i as u32, &items[i].what))?;
    }
    Ok(list)
}

// What is forced on the places of an item that has a value of its own.
fn forced_places<F: Fanout + Drop>(
    alloc: Global,
    net: &Net<F>,
    item: u32,
) -> Result<Forced, AllocError>
    requires { HasValue (kind_of net.now.nodes item) }
    ensures { IfOk result (λ forced. forced ≡ forced_of net.now.values item) }
{
    // That each place that is driven may be forced.
    net.widths();
    let mut forced = Forced::new(alloc);
    'places: for place in 0..net.driven(item).width() {
        forced.push(net.forced(item, place))?;
    }
    Ok(forced)
}

// What is forced on an item of a kind.
fn forced_on<F: Fanout + Drop>(
    alloc: Global,
    net: &Net<F>,
    item: u32,
    kind: &ItemKind,
) -> Result<Forced, AllocError>
    requires { kind_of net.now.nodes item ≡ Some kind.now }
    ensures { IfOk result (λ forced. forced ≡ forced_by net.now.values item kind.now) }
{
    if has_value(kind) {
        return forced_places(alloc, net, item);
    }
    Ok(Forced::new(alloc))
}

// What is forced on each item.
fn forced_list<F: Fanout + Drop>(
    alloc: Global,
    net: &Net<F>,
    items: &[Item],
) -> Result<ForcedList, AllocError>
    requires nodes { net.now.nodes ≡ map node_of items.now }
    requires few { length items.now ≤ 2 ^ 20 }
    ensures { IfOk result (λ list. list ≡ map (forced_at net.now.values) (enumerate_from 0 net.now.nodes)) }
{
    let mut list = ForcedList::new(alloc);
    'items: for i in 0..items.len() {
        list.push(forced_on(alloc, net, i as u32, &items[i].what)?)?;
    }
    Ok(list)
}

// ---- arrays and net delays

// The words of an array.
fn copied_words<F: Fanout + Drop>(
    alloc: Global,
    net: &Net<F>,
    item: u32,
    words: u32,
) -> Result<VecList, AllocError>
    requires { kind_of net.now.nodes item ≡ Some (ItemKind.Array words) }
    ensures { IfOk result (λ list. list ≡ array_of net.now.values item) }
{
    // That there are so many.
    net.widths();
    let mut list = VecList::new(alloc);
    'words: for word in 0..words {
        list.push(net.read(item, word))?;
    }
    Ok(list)
}

// Adds the words of an item of a kind, where it is an array.
fn add_words<F: Fanout + Drop>(
    list: &mut WordList,
    alloc: Global,
    net: &Net<F>,
    item: u32,
    kind: &ItemKind,
) -> Result<(), AllocError>
    requires { kind_of net.now.nodes item ≡ Some kind.now }
    ensures { OnOk result (list.new ≡ list.old ++ cons_option (words_by net.now.values item kind.now) []) }
{
    match kind {
        ItemKind::Array { words } => list.push(copied_words(alloc, net, item, *words)?),
        _ => Ok(()),
    }
}

// The words of each array.
fn word_list<F: Fanout + Drop>(
    alloc: Global,
    net: &Net<F>,
    items: &[Item],
) -> Result<WordList, AllocError>
    requires nodes { net.now.nodes ≡ map node_of items.now }
    requires few { length items.now ≤ 2 ^ 20 }
    ensures { IfOk result (λ list. list ≡ filter_map (words_at net.now.values) (enumerate_from 0 net.now.nodes)) }
{
    let mut list = WordList::new(alloc);
    'items: for i in 0..items.len() {
        add_words(&mut list, alloc, net, i as u32, &items[i].what)?;
    }
    Ok(list)
}

// Adds the last request of an item of a kind, where it is a net delay.
fn add_request<F: Fanout + Drop>(
    list: &mut DelayList,
    net: &Net<F>,
    item: u32,
    kind: &ItemKind,
) -> Result<(), AllocError>
    requires { kind_of net.now.nodes item ≡ Some kind.now }
    ensures { OnOk result (list.new ≡ list.old ++ cons_option (request_by net.now.values item kind.now) []) }
{
    match kind {
        ItemKind::Delay { .. } => list.push(net.delay_state(item)),
        _ => Ok(()),
    }
}

// The last request of each net delay.
fn delay_list<F: Fanout + Drop>(
    alloc: Global,
    net: &Net<F>,
    items: &[Item],
) -> Result<DelayList, AllocError>
    requires nodes { net.now.nodes ≡ map node_of items.now }
    requires few { length items.now ≤ 2 ^ 20 }
    ensures { IfOk result (λ list. list ≡ filter_map (request_at net.now.values) (enumerate_from 0 net.now.nodes)) }
{
    let mut list = DelayList::new(alloc);
    'items: for i in 0..items.len() {
        add_request(&mut list, net, i as u32, &items[i].what)?;
    }
    Ok(list)
}

// ---- all of it

impl<A: Agenda + Drop, F: Fanout + Drop> Engine<A, F> {
    /// A copy of what the engine holds, in time linear in that and in the number of threads that were started. Where memory was
    /// wanting in a step, it is what the engine holds since then: by the clause `kept` of `step` the values, the words, what is
    /// forced and the last requests are those from before that step, and where a thread was running, as at a fork or a nonblocking
    /// assignment, the time and the dues too. The only error is want of memory.
    pub fn snapshot(&self, alloc: Global) -> Result<Snapshot, AllocError>
        ensures { IfOk result (λ snapshot. snapshot ≡ snapshot_of self.now.program self.now.order self.now.machine) }
    {
        let items = self.program.items.as_slice();
        let held = self.agenda.dues(alloc)?;
        let dues = without_keys(alloc, held.as_slice())?;
        let threads = thread_list(alloc, &self.threads)?;
        let waiting = wait_list(alloc, &self.threads, items.len() as u32)?;
        let values = level_list(alloc, &self.net, items)?;
        let words = word_list(alloc, &self.net, items)?;
        let delays = delay_list(alloc, &self.net, items)?;
        let forced = forced_list(alloc, &self.net, items)?;
        // The last that may fail: a proof that lets tasks go is dear.
        let tasks = self.tasks.state(alloc)?;
        Ok(Snapshot {
            now: self.agenda.now(),
            steps: self.steps,
            peak: self.peak,
            running: serial_of(self.running),
            serials: self.threads.serials(),
            dues,
            threads,
            waiting,
            values,
            words,
            tasks,
            delays,
            forced,
            taken: self.taken,
            order: self.order,
        })
    }
}
