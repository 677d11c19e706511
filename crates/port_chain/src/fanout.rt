ghost use Rattle.std.specs.Prelude.{◌≡◌, ℕ, ◌<◌, List, Contains};
ghost use Rattle.port_chain.specs.Link.{InputPort};
ghost use Rattle.port_chain.specs.Pairs.{link_at, IsAfter, AreDistinctPorts};

use crate::link::Link;

/// The ports that each node of a net drives, in order, however they are kept.
///
/// A net's nodes are numbered from 0. To visit the ports that a node drives, begin with `first` and go on with
/// `next` until `Link::NONE`.
pub trait Fanout {
    // How many nodes there are.
    ghost nodes: { Self → ℕ };

    // The ports that a node below `nodes` drives, in order.
    ghost pairs: { Self → ℕ → List InputPort };

    /// The first port that the node drives, or `Link::NONE` where it drives none.
    fn first(&self, node: u32) -> Link
        requires { node < nodes self.now }
        ensures head { result ≡ link_at (pairs self.now node) 0 }
        ensures ports { AreDistinctPorts (pairs self.now node) };

    /// The port after this one among those that the same node drives, or `Link::NONE` after the last.
    fn next(&self, link: Link) -> Link
        requires { (node : ℕ) × (node < nodes self.now) × Contains (pairs self.now node) link }
        ensures { (node : ℕ) → node < nodes self.now → IsAfter (pairs self.now node) link result };
}
