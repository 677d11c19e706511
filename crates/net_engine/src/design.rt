//! What a run knows of the items of a design, and which inputs each one drives.

ghost use Rattle.std.specs.Prelude.{◌≡◌, ℕ, ◌<◌, Some, length, Contains, slice_get};
ghost use Rattle.port_chain.specs.Pairs.{link_at, IsAfter, AreDistinctPorts};
ghost use Rattle.sym_link.specs.Roots.{Node, kind_of, root_of};
ghost use Rattle.net_engine.specs.Readers.{driven_ports, listeners_of};
ghost use Rattle.net_engine.specs.Parts.{IsDesign};
ghost use Rattle.net_engine.specs.Inputs.{IsInputs, AreInputs};

use crate::inputs::Inputs;
use port_chain::{Fanout, Link};
use std::marker::Model;
use sym_link::{ItemKind, Numbers};

/// What a run knows of an item: the bits of its value, or of a word of it, and what it is.
#[derive(Drop)]
pub(crate) struct Row {
    pub(crate) width: u8,
    pub(crate) what: ItemKind,
}

impl Model for Row {
    ghost use Rattle.sym_link.specs.Roots.{Node};

    ghost Value = { Node };

    ghost view = { λ row. record { width = row.width; what = row.what } };
}

/// The items of a design in file order, the inputs that each one drives, and the events that list each event. Contracts see
/// the items.
#[derive(Drop)]
pub(crate) struct Design<F: Fanout + Drop> {
    fan: F,
    rows: Vec<Row>,
    // Of each item the events that list it, in file order.
    listeners: Vec<Numbers>,
    // Of each item those whose values alone tell what it drives.
    inputs: Vec<Inputs>,
}

impl<F: Fanout + Drop> Model for Design<F> {
    ghost use Rattle.std.specs.Prelude.{List};
    ghost use Rattle.sym_link.specs.Roots.{Node};
    ghost use Rattle.net_engine.specs.Parts.{IsDesign};
    ghost use Rattle.net_engine.specs.Inputs.{AreInputs};

    ghost Value = { List Node };

    ghost view = { λ d. d.rows.items };

    ghost invariant = { λ d. IsDesign (F.nodes d.fan) (F.pairs d.fan) d.listeners.items d.rows.items × AreInputs d.rows.items d.inputs.items };
}

impl<F: Fanout + Drop> Design<F> {
    /// The design of these items.
    pub(crate) fn new(
        fan: F,
        rows: Vec<Row>,
        listeners: Vec<Numbers>,
        inputs: Vec<Inputs>,
    ) -> Design<F>
        requires design { IsDesign (F.nodes fan) (F.pairs fan) listeners.items rows.items }
        requires inputs { AreInputs rows.items inputs.items }
        ensures { result ≡ rows.items }
    {
        Design {
            fan,
            rows,
            listeners,
            inputs,
        }
    }

    /// How many bits the value of an item has, or a word of it.
    pub(crate) fn width(&self, item: u32) -> u8
        requires { item < length self.now }
        ensures { (node : Node) → slice_get self.now item ≡ Some node → result ≡ node.width }
    {
        self.rows[item as usize].width
    }

    /// What an item is.
    pub(crate) fn kind(&self, item: u32) -> &ItemKind
        requires { item < length self.now }
        ensures { kind_of self.now item ≡ Some result.now }
    {
        &self.rows[item as usize].what
    }

    /// The items whose values alone tell what an item drives.
    pub(crate) fn inputs(&self, item: u32) -> Inputs
        requires { item < length self.now }
        ensures { IsInputs self.now (kind_of self.now item) result }
    {
        self.inputs[item as usize]
    }

    /// The item whose value an item shows.
    pub(crate) fn root(&self, item: u32) -> u32
        requires { item < length self.now }
        ensures { result ≡ root_of self.now item }
    {
        match self.kind(item) {
            ItemKind::Net { root } => *root,
            _ => item,
        }
    }

    /// The first input that an item drives.
    pub(crate) fn first(&self, item: u32) -> Link
        requires { item < length self.now }
        ensures head { result ≡ link_at (driven_ports self.now item) 0 }
        ensures ports { AreDistinctPorts (driven_ports self.now item) }
    {
        self.fan.first(item)
    }

    /// The input after this one among those that the same item drives.
    pub(crate) fn next(&self, link: Link) -> Link
        requires { (item : ℕ) × (item < length self.now) × Contains (driven_ports self.now item) link }
        ensures { (item : ℕ) → item < length self.now → IsAfter (driven_ports self.now item) link result }
    {
        self.fan.next(link)
    }

    /// The events that list an event, in file order.
    pub(crate) fn listeners(&self, event: u32) -> &[u32]
        requires { event < length self.now }
        ensures { result.now ≡ listeners_of self.now event }
    {
        self.listeners[event as usize].as_slice()
    }
}
