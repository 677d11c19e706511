ghost use Rattle.std.specs.Prelude.{◌≡◌, ◌≢◌, ℕ, ◌*◌, ◌<◌, ◌≤◌, ◌^◌, List, [], ◌∷◌, length, All, AllPairs, IfOk};
ghost use Rattle.port_chain.specs.Pairs.{links_of, pairs_of};
ghost use Rattle.port_chain.specs.Chain.{IsBound};
ghost use Rattle.port_chain.specs.declared.link.Reader.{Reader};

use crate::fanout::Fanout;
use crate::link::{Link, Reader};
use std::alloc::{AllocError, Global};
use std::marker::Model;

/// The fan-out as a chain for each node, threaded through the ports that the node drives: one link for each node
/// and four for each node's ports, of 4 bytes each. `first` and `next` are one read each.
///
/// Contracts see the list of the nodes' lists of links.
#[derive(Drop)]
pub struct ChainFanout {
    // Of each node the link of the first port that it drives.
    heads: Vec<Link>,
    // Of each port, four a node, the link of the next port that the same node drives.
    ports: Vec<Link>,
}

impl Model for ChainFanout {
    ghost use Rattle.std.specs.Prelude.{List, length, map};
    ghost use Rattle.port_chain.specs.Link.{InputPort};

    ghost Value = { List (List InputPort) };

    ghost use Rattle.port_chain.specs.Chain.{links_from, IsFanout};

    ghost view = { λ fan. map (links_from fan.ports.items (length fan.ports.items)) fan.heads.items };

    ghost invariant = { λ fan. IsFanout fan.heads.items fan.ports.items };
}

// Puts the reader at the head of its driver's chain.
fn bind(heads: &mut [Link], ports: &mut [Link], reader: Reader)
    requires driver { reader.driver < length heads.old }
    requires node { reader.link.node < length heads.old }
    requires four { length ports.old ≡ 4 * length heads.old }
    ensures { (readers : List Reader) → All (λ other. reader.link ≢ other.link) readers
        → IsBound heads.old ports.old readers → IsBound heads.new ports.new (reader ∷ readers) }
{
    ports[reader.link.place()] = heads[reader.driver as usize];
    heads[reader.driver as usize] = reader.link;
}

// Puts all readers into empty chains, from the last to the first, so that each chain is in the readers' order.
fn bind_all(heads: &mut [Link], ports: &mut [Link], readers: &[Reader])
    requires drivers { All (λ reader. reader.driver < length heads.old) readers.now }
    requires nodes { All (λ reader. reader.link.node < length heads.old) readers.now }
    requires once { AllPairs (λ a b. a.link ≢ b.link) readers.now }
    requires four { length ports.old ≡ 4 * length heads.old }
    requires empty { IsBound heads.old ports.old [] }
    ensures { IsBound heads.new ports.new readers.now }
{
    for reader in readers.iter().rev() {
        bind(heads, ports, *reader);
    }
}

impl ChainFanout {
    /// The fan-out of so many nodes, each of which drives the ports of its readers, in the readers' order. Each
    /// port is named by one reader at most. The time is linear in the nodes and readers. Fails only for want of
    /// memory.
    pub fn build(alloc: Global, nodes: u32, readers: &[Reader]) -> Result<ChainFanout, AllocError>
        requires few { nodes ≤ 2 ^ 20 }
        requires drivers { All (λ reader. reader.driver < nodes) readers.now }
        requires nodes { All (λ reader. reader.link.node < nodes) readers.now }
        requires once { AllPairs (λ a b. a.link ≢ b.link) readers.now }
        ensures nodes { IfOk result (λ fan. length fan ≡ nodes) }
        ensures pairs { IfOk result (λ fan. (node : ℕ) → node < nodes → pairs_of fan node ≡ links_of node readers.now) }
    {
        let mut heads = vec![in alloc; Link::NONE; nodes as usize]?;
        let mut ports = vec![in alloc; Link::NONE; 4 * nodes as usize]?;
        bind_all(&mut heads, &mut ports, readers);
        Ok(ChainFanout { heads, ports })
    }
}

impl Fanout for ChainFanout {
    ghost nodes = { length };

    ghost pairs = { pairs_of };

    fn first(&self, node: u32) -> Link {
        self.heads[node as usize]
    }

    fn next(&self, link: Link) -> Link {
        self.ports[link.place()]
    }
}
