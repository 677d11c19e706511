//! The readers of a program: which input ports read which item.

ghost use Rattle.std.specs.Prelude.{◌≡◌, ◌≢◌, ℕ, ◌+◌, ◌<◌, ◌≤◌, ◌^◌, ◌++◌, length, map, All, AllPairs, filter_map, IfOk, slice_get, Some, option_to_list};
ghost use Rattle.std.specs.List.{enumerate_from};
ghost use Rattle.port_chain.specs.Pairs.{links_of};
ghost use Rattle.sym_link.specs.Roots.{Node, nodes_of, node_of, root_of, ports_of};
ghost use Rattle.sym_link.specs.Sound.{IsProgram};
ghost use Rattle.net_engine.specs.Readers.{reader_of, reader_at, readers_at, all_readers, driven_ports};
ghost use Rattle.net_engine.specs.Parts.{AreNamed};

use port_chain::{Link, Reader};
use std::alloc::{AllocError, Global};
use sym_link::{Item, ItemKind, Program, Source, Sources};

/// All readers of a program's items, in file order and then in the order of their ports. The only error is want of memory.
pub fn reader_list(alloc: Global, program: &Program) -> Result<Vec<Reader>, AllocError>
    requires { IsProgram program.now }
    ensures readers { IfOk result (λ readers. readers.items ≡ all_readers (nodes_of program.now)) }
    ensures links { IfOk result (λ readers. (item : ℕ) → links_of item readers.items ≡ driven_ports (nodes_of program.now) item) }
    ensures drivers { IfOk result (λ readers. All (λ reader. reader.driver < length program.now.items) readers.items) }
    ensures nodes { IfOk result (λ readers. All (λ reader. reader.link.node < length program.now.items) readers.items) }
    ensures once { IfOk result (λ readers. AllPairs (λ a b. a.link ≢ b.link) readers.items) }
{
    let items = program.items.as_slice();
    let mut readers = Vec::new(alloc);
    'items: for at in 0..items.len() {
        push_readers(items, at, &mut readers)?;
    }
    Ok(readers)
}

// The item whose value an item shows.
fn root(items: &[Item], item: u32) -> u32
    requires { item < length items.now }
    ensures { result ≡ root_of (map node_of items.now) item }
{
    match &items[item as usize].what {
        ItemKind::Net { root } => *root,
        _ => item,
    }
}

// One more reader, where the source of a port is an item.
fn push_port(
    items: &[Item],
    at: usize,
    port: u8,
    source: &Source,
    readers: &mut Vec<Reader>,
) -> Result<(), AllocError>
    requires item { at ≤ 2 ^ 20 }
    requires port { port ≤ 3 }
    requires source { (named : ℕ) → source.now ≡ Source.Item named → named < length items.now }
    ensures { IfOk result (λ _. readers.new.items ≡ readers.old.items ++ option_to_list (reader_of (map node_of items.now) at port source.now)) }
{
    if let Source::Item(named) = source {
        readers.push(Reader {
            driver: root(items, *named),
            link: Link::of(at as u32, port),
        })?;
    }
    Ok(())
}

// The readers at the four ports of an item.
fn push_ports(
    items: &[Item],
    at: usize,
    ports: &Sources,
    readers: &mut Vec<Reader>,
) -> Result<(), AllocError>
    requires item { at ≤ 2 ^ 20 }
    requires sources { AreNamed (length items.now) ports.now }
    ensures { IfOk result (λ _. readers.new.items ≡ readers.old.items ++ filter_map (reader_at (map node_of items.now) at) (enumerate_from 0 ports.now)) }
{
    let ports = ports.as_array();
    push_port(items, at, 0, &ports[0], readers)?;
    push_port(items, at, 1, &ports[1], readers)?;
    push_port(items, at, 2, &ports[2], readers)?;
    push_port(items, at, 3, &ports[3], readers)
}

// The readers at the ports of an item.
fn push_readers(items: &[Item], at: usize, readers: &mut Vec<Reader>) -> Result<(), AllocError>
    requires few { length items.now ≤ 2 ^ 20 }
    requires item { at < length items.now }
    requires sources { (node : Node) → slice_get (map node_of items.now) at ≡ Some node → AreNamed (length items.now) (ports_of node.what) }
    ensures { (node : Node) → slice_get (map node_of items.now) at ≡ Some node
        → IfOk result (λ _. readers.new.items ≡ readers.old.items ++ readers_at (map node_of items.now) (at, node)) }
{
    match &items[at].what {
        ItemKind::Functor { ports, .. } => push_ports(items, at, ports, readers),
        ItemKind::Edge { ports, .. } => push_ports(items, at, ports, readers),
        ItemKind::Delay { port, .. } => push_port(items, at, 0, &Source::Item(*port), readers),
        _ => Ok(()),
    }
}
