ghost use Rattle.std.specs.Prelude.{◌≡◌, ◌<◌, ◌≤◌, ◌^◌, nat_eq};
ghost use Rattle.std.specs.Ordering.{on, eq_of_both};
ghost use Rattle.std.specs.Cmp.Rules.{comparing};
ghost use Rattle.std.proofs.Common.{rules};
ghost use Rattle.port_chain.specs.Link.{place_of};

use std::marker::Model;

/// The name of one input port of a node, in one word: the node times 4, plus the port (0 to 3).
///
/// Contracts see the node and the port.
#[derive(Clone, Copy, Debug)]
pub struct Link(u32);

impl Model for Link {
    ghost use Rattle.std.specs.Prelude.{◌/◌, ◌%◌};
    ghost use Rattle.std.proofs.Common.{ap};
    ghost use Rattle.port_chain.specs.Link.{InputPort, place_of, place_of-parts};

    ghost Value = { InputPort };

    ghost view = { λ link. record { node = link.0 / 4; port = link.0 % 4 } };

    ghost inverse = { λ port. record { 0 = place_of port } };

    ghost inverse_ok = { λ link _. ap (λ n. record { 0 = n }) (place_of-parts link.0) };
}

impl Link {
    /// The end of a chain, the word of all ones: `no_link` in contracts. `of` gives no such link.
    pub const NONE: Link = Link(u32::MAX);

    /// The link that names a port of a node, both counted from 0.
    pub fn of(node: u32, port: u8) -> Link
        requires node { node ≤ 2 ^ 20 }
        requires port { port ≤ 3 }
        ensures { result ≡ record { node = node; port = port } }
    {
        Link(4 * node + u32::from(port))
    }

    /// The node of the port that the link names, for each link: the quotient of the word by 4.
    pub fn node(self) -> u32
        ensures { result ≡ self.node }
    {
        self.0 / 4
    }

    /// The port that the link names, 0 to 3, for each link: the remainder of the word by 4.
    pub fn port(self) -> u8
        ensures port { result ≡ self.port }
        ensures within { result < 4 }
    {
        (self.0 % 4) as u8
    }

    /// The place of the port where the ports of all nodes lie one after another, four a node.
    pub(crate) fn place(self) -> usize
        ensures place { result ≡ place_of self }
        ensures port { self.port < 4 }
    {
        self.0 as usize
    }
}

// Two links are equal where they name one port of one node. Written out, so that a contract sees these two numbers
// compared: the derived comparison speaks of the word.
impl PartialEq for Link {
    ghost eq = { eq_of_both (on (λ link. link.node) nat_eq) (on (λ link. link.port) nat_eq) };

    ghost laws = { Prim.search (comparing, rules) };

    fn eq(&self, other: &Link) -> bool {
        self.0 == other.0
    }
}

impl Eq for Link {
    ghost laws = { Prim.search (comparing, rules) };
}

/// An input port, and the node that it reads.
#[derive(Clone, Copy, PartialEq, Eq, Debug)]
pub struct Reader {
    /// The node that drives the port.
    pub driver: u32,
    /// The port.
    pub link: Link,
}
