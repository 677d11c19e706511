//! What gates drive, by the values that their ports have now.

ghost use Rattle.std.specs.Prelude.{◌≡◌, ℕ, ◌<◌, ◌≤◌, true, false, Some, IfSome, IsTrue, All, length, map, option_map, slice_get};
ghost use Rattle.gate_rules.specs.Ports.{seen_ports, driven_ports};
ghost use Rattle.gate_rules.specs.Strong.{looks, keeps_strong};
ghost use Rattle.sym_link.specs.Roots.{Node, kind_of};
ghost use Rattle.net_engine.specs.Net.{at_source, output_of, seen, strongly};
ghost use Rattle.net_engine.specs.Parts.{IsLinked, AreWide, IsShowing, AreShowing, IsGateKind};
ghost use Rattle.net_engine.specs.Outputs.{IsToldByBits};
ghost use Rattle.net_engine.specs.Inputs.{IsSingle};
ghost use Rattle.net_engine.specs.Pairs.{IsPair};

use crate::design::Design;
use crate::store::Store;
use four_state::{ResKind, Vec4};
use gate_rules::{eval_gate, eval_one, eval_strong, eval_two};
use port_chain::Fanout;
use strengths::{Vec8, drive};
use sym_link::{ItemKind, Source, Sources};
use vvp_forms::Gate;

// The levels, of which there are some.
fn sized(levels: Vec8) -> Vec8
    ensures value { result ≡ levels }
    ensures least { 1 ≤ length result }
{
    let _width = levels.width();
    levels
}

// What a port has from its source.
fn at_source<F: Fanout + Drop>(design: &Design<F>, store: &Store, source: &Source) -> Option<Vec8>
    requires { IsShowing design.now store.now.values source.now }
    ensures value { result ≡ at_source design.now store.now.values source.now }
    ensures least { IfSome result (λ levels. 1 ≤ length levels) }
{
    match source {
        Source::Unused => None,
        Source::Item(item) => Some(sized(store.shown(design.root(*item)))),
        Source::Fixed(bits) => Some(sized(drive(*bits, 6, 6))),
    }
}

// What the four ports of a gate have.
fn at_ports<F: Fanout + Drop>(
    design: &Design<F>,
    store: &Store,
    ports: &Sources,
) -> [Option<Vec8>; 4]
    requires { AreShowing design.now store.now.values ports.now }
    ensures value { result ≡ map (at_source design.now store.now.values) ports.now }
    ensures least { All (λ port. IfSome port (λ levels. 1 ≤ length levels)) result }
{
    let ports = ports.as_array();
    [
        at_source(design, store, &ports[0]),
        at_source(design, store, &ports[1]),
        at_source(design, store, &ports[2]),
        at_source(design, store, &ports[3]),
    ]
}

// Whether a source drives as a variable does: an item does of which the plane alone has the value.
fn is_strong<F: Fanout + Drop>(design: &Design<F>, store: &Store, source: &Source) -> bool
    requires { IsShowing design.now store.now.values source.now }
    ensures { result ≡ true → option_map strongly (option_map seen (at_source design.now store.now.values source.now)) ≡ at_source design.now store.now.values source.now }
{
    match source {
        Source::Unused => true,
        Source::Item(item) => store.is_strong(design.root(*item)),
        Source::Fixed(_bits) => true,
    }
}

// Whether each source of a gate drives as a variable does.
fn are_strong<F: Fanout + Drop>(design: &Design<F>, store: &Store, ports: &Sources) -> bool
    requires { AreShowing design.now store.now.values ports.now }
    ensures { result ≡ true → driven_ports 6 6 (seen_ports (map (at_source design.now store.now.values) ports.now)) ≡ map (at_source design.now store.now.values) ports.now }
{
    let ports = ports.as_array();
    is_strong(design, store, &ports[0])
        && is_strong(design, store, &ports[1])
        && is_strong(design, store, &ports[2])
        && is_strong(design, store, &ports[3])
}

// Whether a gate makes strong bits of the bits that its ports are seen as: one that looks at bits alone does by its
// strengths, and one that passes places does where its ports are driven strongly.
fn is_by_bits<F: Fanout + Drop>(
    design: &Design<F>,
    store: &Store,
    gate: &Gate,
    drives: (u8, u8),
    ports: &Sources,
) -> bool
    requires { AreShowing design.now store.now.values ports.now }
    ensures strong { result ≡ true → IsTrue (keeps_strong gate.now drives.0 drives.1) }
    ensures ports { result ≡ true → looks gate.now ≡ false → driven_ports 6 6 (seen_ports (map (at_source design.now store.now.values) ports.now)) ≡ map (at_source design.now store.now.values) ports.now }
{
    match gate {
        Gate::And
        | Gate::Or
        | Gate::Xor
        | Gate::Nand
        | Gate::Nor
        | Gate::Xnor
        | Gate::Buf
        | Gate::Not
        | Gate::Bufz
        | Gate::Muxz => drives.0 == 6 && drives.1 == 6,
        Gate::Arithmetic { .. } | Gate::Compare { .. } | Gate::Shift { .. } | Gate::Reduce { .. } =>
            true,
        Gate::Resolver {
            kind: ResKind::Tri0 | ResKind::Tri1,
        } => false,
        _ => are_strong(design, store, ports),
    }
}

// The bits, of which there are some.
fn sized_bits(bits: Vec4) -> Vec4
    ensures value { result ≡ bits }
    ensures least { 1 ≤ length result }
{
    let _width = bits.width();
    bits
}

// Puts the bits that a port is seen as into its place.
fn put_bits<F: Fanout + Drop>(
    design: &Design<F>,
    store: &Store,
    source: &Source,
    port: &mut Option<Vec4>,
)
    requires { IsShowing design.now store.now.values source.now }
    ensures value { port.new ≡ option_map seen (at_source design.now store.now.values source.now) }
    ensures least { IfSome port.new (λ bits. 1 ≤ length bits) }
{
    match source {
        Source::Unused => *port = None,
        Source::Item(item) => *port = Some(sized_bits(store.bits(design.root(*item)))),
        Source::Fixed(bits) => *port = Some(sized_bits(*bits)),
    }
}

// Puts the bits that the four ports of a gate are seen as into their places.
fn put_all_bits<F: Fanout + Drop>(
    design: &Design<F>,
    store: &Store,
    sources: &Sources,
    ports: &mut [Option<Vec4>; 4],
)
    requires { AreShowing design.now store.now.values sources.now }
    ensures value { ports.new ≡ seen_ports (map (at_source design.now store.now.values) sources.now) }
    ensures least { All (λ port. IfSome port (λ bits. 1 ≤ length bits)) ports.new }
{
    let sources = sources.as_array();
    put_bits(design, store, &sources[0], &mut ports[0]);
    put_bits(design, store, &sources[1], &mut ports[1]);
    put_bits(design, store, &sources[2], &mut ports[2]);
    put_bits(design, store, &sources[3], &mut ports[3]);
}

/// Whether the bits that its ports are seen as tell what a gate drives.
pub(crate) fn is_told_by_bits<F: Fanout + Drop>(
    design: &Design<F>,
    store: &Store,
    item: u32,
) -> bool
    requires linked { IsLinked design.now }
    requires wide { AreWide design.now store.now.values }
    requires gate { IsGateKind (kind_of design.now item) }
    ensures { result ≡ true → IsToldByBits design.now store.now.values (kind_of design.now item) }
{
    match design.kind(item) {
        ItemKind::Functor { gate, drive, ports } => is_by_bits(design, store, gate, *drive, ports),
        _ => unreachable!(),
    }
}

/// The bits that a gate drives, as a variable does, where the bits that its ports are seen as tell it. These are put into
/// `ports`, so that no call makes an array.
pub(crate) fn bits_output<F: Fanout + Drop>(
    design: &Design<F>,
    store: &Store,
    item: u32,
    ports: &mut [Option<Vec4>; 4],
) -> Vec4
    requires linked { IsLinked design.now }
    requires wide { AreWide design.now store.now.values }
    requires gate { IsToldByBits design.now store.now.values (kind_of design.now item) }
    ensures value { (node : Node) → slice_get design.now item ≡ Some node → strongly result ≡ output_of design.now store.now.values node }
    ensures width { (node : Node) → slice_get design.now item ≡ Some node → length result ≡ node.width }
{
    match design.kind(item) {
        ItemKind::Functor {
            gate,
            drive: _drive,
            ports: sources,
        } => {
            let width = design.width(item);
            put_all_bits(design, store, sources, ports);
            eval_strong(gate, width, ports)
        }
        _ => unreachable!(),
    }
}

/// The bits that a gate drives, as a variable does, which has one input, the value of an item.
pub(crate) fn single_output<F: Fanout + Drop>(
    design: &Design<F>,
    store: &Store,
    item: u32,
    input: u32,
) -> Vec4
    requires linked { IsLinked design.now }
    requires wide { AreWide design.now store.now.values }
    requires single { IsSingle design.now (kind_of design.now item) input }
    ensures value { (node : Node) → slice_get design.now item ≡ Some node → strongly result ≡ output_of design.now store.now.values node }
    ensures width { (node : Node) → slice_get design.now item ≡ Some node → length result ≡ node.width }
{
    match design.kind(item) {
        ItemKind::Functor {
            gate,
            drive: _drive,
            ports: _sources,
        } => {
            let bits = sized_bits(store.bits(input));
            eval_one(gate, bits)
        }
        _ => unreachable!(),
    }
}

/// The bits that a gate drives, as a variable does, whose table joins the values of two items.
pub(crate) fn pair_output<F: Fanout + Drop>(
    design: &Design<F>,
    store: &Store,
    item: u32,
    left: u32,
    right: u32,
) -> Vec4
    requires linked { IsLinked design.now }
    requires wide { AreWide design.now store.now.values }
    requires pair { IsPair design.now (kind_of design.now item) left right }
    ensures value { (node : Node) → slice_get design.now item ≡ Some node → strongly result ≡ output_of design.now store.now.values node }
    ensures width { (node : Node) → slice_get design.now item ≡ Some node → length result ≡ node.width }
{
    match design.kind(item) {
        ItemKind::Functor {
            gate,
            drive: _drive,
            ports: _sources,
        } => {
            let low = sized_bits(store.bits(left));
            let high = sized_bits(store.bits(right));
            eval_two(gate, low, high)
        }
        _ => unreachable!(),
    }
}

/// The levels that a gate drives.
pub(crate) fn levels_output<F: Fanout + Drop>(design: &Design<F>, store: &Store, item: u32) -> Vec8
    requires linked { IsLinked design.now }
    requires wide { AreWide design.now store.now.values }
    requires gate { IsGateKind (kind_of design.now item) }
    ensures value { (node : Node) → slice_get design.now item ≡ Some node → result ≡ output_of design.now store.now.values node }
    ensures width { (node : Node) → slice_get design.now item ≡ Some node → length result ≡ node.width }
{
    match design.kind(item) {
        ItemKind::Functor { gate, drive, ports } => {
            let width = design.width(item);
            let levels = at_ports(design, store, ports);
            eval_gate(gate, width, *drive, &levels)
        }
        _ => unreachable!(),
    }
}
