ghost use Rattle.std.specs.Prelude.{◌≡◌, ◌≢◌, ◌<◌, ◌≤◌, ◌^◌, All, AllPairs, IsTrue, IfOk};

use crate::{ChainFanout, Fanout, Link, Reader};
use std::alloc::{AllocError, Global};
use std::process::Abort;
use std::test::Fail;

// A walk along the ports that a node drives, for every kind of fan-out: it visits them all, in order.
fn collect_pairs<F: Fanout>(alloc: Global, fan: &F, node: u32) -> Result<Vec<Link>, AllocError>
    requires { node < F.nodes fan.now }
    ensures { IfOk result (λ links. links.items ≡ F.pairs fan.now node) }
{
    let mut links = Vec::new(alloc);
    let mut link = fan.first(node);
    while link != Link::NONE {
        links.push(link)?;
        link = fan.next(link);
    }
    Ok(links)
}

// Whether no reader names the link.
fn is_free(readers: &[Reader], link: Link) -> bool
    ensures { IsTrue result → All (λ reader. reader.link ≢ link) readers.now }
{
    readers.iter().all(|reader| reader.link != link)
}

// The readers of a table of drivers, nodes and ports, which names each port once.
fn table_readers(
    rt: &impl Abort,
    alloc: Global,
    nodes: u32,
    table: &[(u32, u32, u8)],
) -> Result<Vec<Reader>, AllocError>
    requires { nodes ≤ 2 ^ 20 }
    ensures drivers { IfOk result (λ readers. All (λ reader. reader.driver < nodes) readers.items) }
    ensures nodes { IfOk result (λ readers. All (λ reader. reader.link.node < nodes) readers.items) }
    ensures once { IfOk result (λ readers. AllPairs (λ a b. a.link ≢ b.link) readers.items) }
{
    let mut readers = Vec::new(alloc);
    for &(driver, node, port) in table {
        assert!(rt; driver < nodes);
        assert!(rt; node < nodes);
        assert!(rt; port < 4);
        let link = Link::of(node, port);
        assert!(rt; is_free(&readers, link));
        readers.push(Reader { driver, link })?;
    }
    Ok(readers)
}

// Builds the fan-out of a table and compares the ports that each node drives with the list wanted.
fn check_table(
    rt: &impl Abort,
    alloc: Global,
    table: &[(u32, u32, u8)],
    wanted: &[&[(u32, u8)]],
) -> Result<(), AllocError> {
    assert!(rt; wanted.len() <= 100);
    let nodes = wanted.len() as u32;
    let readers = table_readers(rt, alloc, nodes, table)?;
    let fan = ChainFanout::build(alloc, nodes, &readers)?;
    for node in 0..nodes {
        let links = collect_pairs(alloc, &fan, node)?;
        let pairs: Vec<(u32, u8)> = links
            .iter()
            .map(|link| (link.node(), link.port()))
            .collect(alloc)?;
        assert_eq!(rt; pairs.as_slice(), wanted[node as usize], "node {node}");
    }
    Ok(())
}

#[test]
fn packs_a_port_into_a_word(rt: HostRuntime) {
    for (node, port) in [(0, 0), (0, 3), (5, 1), (1 << 20, 0), (1 << 20, 3)] {
        let link = Link::of(node, port);
        assert_eq!(rt; link.node(), node);
        assert_eq!(rt; link.port(), port);
        assert_ne!(rt; link, Link::NONE);
    }
    assert_ne!(rt; Link::of(7, 1), Link::of(7, 2));
    assert_ne!(rt; Link::of(7, 1), Link::of(8, 1));
    assert_eq!(rt; Link::NONE.node(), u32::MAX / 4);
    assert_eq!(rt; Link::NONE.port(), 3);
    assert_eq!(rt; size_of::<Link>(), 4);
}

// A counter with its gates. The nodes: 0 clock, 1 reset, 2 enable, 3 the count, 4 its sum with enable, 5 the value
// to load, 6 the carry, 7 a parity, 8 a gate that reads itself, 9 an output, 10 a net that nothing reads, 11 the
// event that clocks the count, 12 the reduction of the count.
#[test]
fn chains_the_readers_of_a_counter(rt: HostRuntime) -> Result<(), Fail> {
    let table = [
        (3, 4, 0),
        (2, 4, 1),
        (4, 5, 0),
        (3, 5, 1),
        (2, 5, 2),
        (3, 6, 0),
        (4, 6, 1),
        (5, 6, 2),
        (2, 6, 3),
        (6, 7, 0),
        (3, 7, 1),
        (8, 8, 0),
        (2, 8, 1),
        (7, 9, 0),
        (0, 11, 0),
        (1, 11, 1),
        (8, 11, 2),
        (3, 12, 0),
        (3, 12, 1),
        (3, 12, 2),
        (3, 12, 3),
    ];
    let wanted: [&[(u32, u8)]; 13] = [
        &[(11, 0)],
        &[(11, 1)],
        &[(4, 1), (5, 2), (6, 3), (8, 1)],
        &[
            (4, 0),
            (5, 1),
            (6, 0),
            (7, 1),
            (12, 0),
            (12, 1),
            (12, 2),
            (12, 3),
        ],
        &[(5, 0), (6, 1)],
        &[(6, 2)],
        &[(7, 0)],
        &[(9, 0)],
        &[(8, 0), (11, 2)],
        &[],
        &[],
        &[],
        &[],
    ];
    check_table(&rt, rt.alloc(), &table, &wanted)?;
    Ok(())
}

// The readers' order counts, and not the order of the ports that they name; nor need there be a node.
#[test]
fn keeps_the_order_of_the_readers(rt: HostRuntime) -> Result<(), Fail> {
    let table = [(1, 2, 3), (0, 0, 1), (1, 0, 2), (1, 2, 0), (0, 1, 0)];
    let wanted: [&[(u32, u8)]; 3] = [&[(0, 1), (1, 0)], &[(2, 3), (0, 2), (2, 0)], &[]];
    check_table(&rt, rt.alloc(), &table, &wanted)?;
    check_table(&rt, rt.alloc(), &[], &[])?;
    Ok(())
}
