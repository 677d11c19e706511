//! The items that statements declare.

ghost use Rattle.std.specs.Prelude.{◌≡◌, ◌<◌, ◌≤◌, ◌^◌, pos, ℕ, List, [], IfOk, None, Some, false, is_some, length, map, slice_get};
ghost use Rattle.sym_link.specs.declared.placed.Placed.{Placed};
ghost use Rattle.sym_link.specs.Currents.{AreFormed};
ghost use Rattle.sym_link.specs.Known.{Knows};
ghost use Rattle.sym_link.specs.KnownNets.{KnowsNets};
ghost use Rattle.sym_link.specs.LinkRules.{first_refusal};
ghost use Rattle.sym_link.specs.Meaning.{drive_of, fitted, gate_item, gate_of, is_integer, is_signed, item_said, other_item, parent_in, root_number, source_of, sources_of, words_of};
ghost use Rattle.sym_link.specs.Places.{symbol_item};
ghost use Rattle.sym_link.specs.Widths.{declared_width, root_walk};

use crate::labels::{File, words_between};
use crate::placed::{Placed, What};
use crate::program::{Item, ItemKind, NONE, Numbers, Source, Sources};
use crate::rules::Nets;
use crate::uses::{events_of, ports_of};
use crate::walks::Walk;
use crate::widths::{Wanted, declared_width, width_wanted};
use four_state::Vec4;
use std::alloc::{AllocError, Global};
use vvp_forms::{Form, Gate, Port, Range, VarKind};
use vvp_lex::{Bytes, Name};

/// What a form that is a gate computes.
#[tactic(auto, unfolding(crate::specs::Meaning::gate_of))]
fn gate_of(form: &Form) -> Option<Gate>
    ensures { result ≡ gate_of form.now }
{
    match form {
        Form::Functor { gate, .. } => Some(*gate),
        Form::Resolver { kind, .. } => Some(Gate::Resolver { kind: *kind }),
        Form::Part { base, .. } => Some(Gate::Part { base: *base }),
        Form::PartInto { base, width, .. } => Some(Gate::PartInto {
            base: *base,
            width: *width,
        }),
        Form::PartFrom { signed, .. } => Some(Gate::PartFrom { signed: *signed }),
        Form::Concat { widths, .. } => Some(Gate::Concat {
            widths: [widths[0], widths[1], widths[2], widths[3]],
        }),
        Form::Arithmetic { kind, .. } => Some(Gate::Arithmetic { kind: *kind }),
        Form::Compare { kind, width, .. } => Some(Gate::Compare {
            kind: *kind,
            width: *width,
        }),
        Form::Shift { kind, .. } => Some(Gate::Shift { kind: *kind }),
        Form::Reduce { kind, .. } => Some(Gate::Reduce { kind: *kind }),
        Form::Repeat { count, .. } => Some(Gate::Repeat { count: *count }),
        Form::Extend { .. } => Some(Gate::Extend),
        _ => None,
    }
}

/// The strengths with which a gate drives 0 and 1.
fn drive_of(form: &Form) -> (u8, u8)
    ensures { result ≡ drive_of form.now }
{
    match form {
        Form::Functor { drives, .. } => *drives,
        _ => (6, 6),
    }
}

fn is_signed(kind: VarKind) -> bool
    ensures { result ≡ is_signed kind }
{
    matches!(kind, VarKind::Signed | VarKind::Integer)
}

fn is_integer(kind: VarKind) -> bool
    ensures { result ≡ is_integer kind }
{
    matches!(kind, VarKind::Integer)
}

/// A constant at a port that takes a width: one bit is repeated to an exact one.
fn fitted(wanted: Wanted, bits: Vec4) -> Vec4
    ensures { result ≡ fitted wanted bits }
{
    match wanted {
        Wanted::Exactly(width) if bits.width() == 1 && 1 <= width && width <= 128 => {
            bits.repeat(width as u8)
        }
        _ => bits,
    }
}

/// What a port takes its value from.
fn source_of(file: &File<'_>, wanted: Wanted, port: &Port) -> Source
    ensures { (src : List ℕ) → (all : List Placed) → Knows src all file.now → result ≡ source_of src all wanted port.now }
{
    match port {
        Port::Unused => Source::Unused,
        Port::Sym(symbol) => Source::Item(file.item_of(*symbol)),
        Port::Fixed(bits) => Source::Fixed(fitted(wanted, *bits)),
    }
}

/// What the ports of a form take their values from. `own` is the width of its value.
#[tactic(auto, unfolding(crate::specs::Meaning::sources_of))]
fn sources_in(file: &File<'_>, form: &Form, own: Option<u64>) -> [Source; 4]
    ensures { (src : List ℕ) → (all : List Placed) → Knows src all file.now → result ≡ sources_of src all form.now own }
{
    let [first, second, third, fourth] = ports_of(form);
    [
        source_of(file, width_wanted(form, own, 0), &first),
        source_of(file, width_wanted(form, own, 1), &second),
        source_of(file, width_wanted(form, own, 2), &third),
        source_of(file, width_wanted(form, own, 3), &fourth),
    ]
}

/// The same, in memory of their own.
fn sources_of(
    alloc: Global,
    file: &File<'_>,
    form: &Form,
    own: Option<u64>,
) -> Result<Sources, AllocError>
    ensures { (src : List ℕ) → (all : List Placed) → Knows src all file.now → IfOk result (λ sources. sources ≡ sources_of src all form.now own) }
{
    Sources::new(alloc, sources_in(file, form, own))
}

/// A width, which is at most 128 bits.
fn narrow(width: u64) -> u8
    ensures { width ≤ 128 → result ≡ width }
{
    if width <= 128 { width as u8 } else { 0 }
}

/// The number of words of an array, which is at most 2^20.
fn few_words(words: u64) -> u32
    ensures { words ≤ 2 ^ 20 → result ≡ words }
{
    if words <= 1_048_576 { words as u32 } else { 0 }
}

/// An item without a name, a range or a sign.
fn plain(alloc: Global, scope: u32, width: u8, what: ItemKind) -> Item
    ensures { result ≡ record { name = []; starred = false; scope = scope; msb = pos 0; lsb = pos 0; signed = false; width = width; what = what } }
{
    Item {
        name: Bytes::new(alloc),
        starred: false,
        scope,
        msb: 0,
        lsb: 0,
        signed: false,
        width,
        what,
    }
}

/// An item with a name alone.
fn named(alloc: Global, name: &Bytes, scope: u32, what: ItemKind) -> Result<Item, AllocError>
    ensures { IfOk result (λ item. item ≡ record { name = name.now; starred = false; scope = scope; msb = pos 0; lsb = pos 0; signed = false; width = 0; what = what }) }
{
    Ok(Item {
        name: name.copy(alloc)?,
        starred: false,
        scope,
        msb: 0,
        lsb: 0,
        signed: false,
        width: 0,
        what,
    })
}

/// An item of a range.
fn ranged(
    alloc: Global,
    name: &Bytes,
    starred: bool,
    scope: u32,
    range: Range,
    signed: bool,
    width: u8,
    what: ItemKind,
) -> Result<Item, AllocError>
    ensures { IfOk result (λ item. item ≡ record { name = name.now; starred = starred; scope = scope; msb = range.msb; lsb = range.lsb; signed = signed; width = width; what = what }) }
{
    Ok(Item {
        name: name.copy(alloc)?,
        starred,
        scope,
        msb: range.msb,
        lsb: range.lsb,
        signed,
        width,
        what,
    })
}

/// The numbers of the items that symbols name.
fn item_numbers(alloc: Global, file: &File<'_>, symbols: &[Name]) -> Result<Numbers, AllocError>
    ensures { (src : List ℕ) → (all : List Placed) → Knows src all file.now → IfOk result (λ numbers. numbers ≡ map (symbol_item src all) symbols.now) }
{
    let mut numbers = Numbers::with_capacity(alloc, symbols.len())?;
    for symbol in symbols {
        numbers.push(file.item_of(*symbol))?;
    }
    Ok(numbers)
}

/// The number of the scope that a scope is below, or `NONE`.
pub fn parent_of(file: &File<'_>, form: &Form) -> u32
    ensures { (src : List ℕ) → (all : List Placed) → Knows src all file.now → result ≡ parent_in src all form.now }
{
    match form {
        Form::Scope {
            within: Some(within),
            ..
        } => file.scope_of(within.get().scope),
        _ => NONE,
    }
}

/// The number of the item that is the root of the net at a place.
fn root_item(nets: &Nets<'_>, place: u32) -> u32
    ensures { (src : List ℕ) → (all : List Placed) → KnowsNets src all nets.now → result ≡ root_number all (root_walk src all place) }
{
    match nets.root_walk(place) {
        Walk::Ends(root) => nets.file.counts_before(root).items,
        Walk::Astray | Walk::Endless => 0,
    }
}

/// A gate.
fn gate_item(
    alloc: Global,
    nets: &Nets<'_>,
    place: u32,
    form: &Form,
    gate: Gate,
    scope: u32,
) -> Result<Item, AllocError>
    ensures { (src : List ℕ) → (all : List Placed) → KnowsNets src all nets.now → AreFormed all → IfOk result (λ item. item ≡ gate_item src all place scope form.now gate) }
{
    let own = nets.root_width(place);
    let ports = sources_of(alloc, &nets.file, form, own)?;
    let drive = drive_of(form);
    let width = match own {
        Some(width) => narrow(width),
        None => 0,
    };
    let what = ItemKind::Functor { gate, drive, ports };
    Ok(plain(alloc, scope, width, what))
}

/// The item of a form, where it declares one that isn't a gate.
#[tactic(auto, unfolding(crate::specs::Meaning::other_item, crate::specs::Widths::declared_width))]
#[rattlefmt::skip]
fn other_item(alloc: Global, nets: &Nets<'_>, place: u32, form: &Form, labelled: bool, scope: u32) -> Result<Option<Item>, AllocError>
    ensures { (src : List ℕ) → (all : List Placed) → KnowsNets src all nets.now → declared_width form.now ≤ 128 → words_of form.now ≤ 2 ^ 20 → place ≤ length all → IfOk result (λ item. item ≡ other_item src all place scope labelled form.now) }
{
    let file = &nets.file;
    match form {
        Form::Variable { kind, starred, name, range } => {
            let integer = is_integer(*kind);
            let width = narrow(declared_width(form));
            let signed = is_signed(*kind);
            let what = ItemKind::Var { integer };
            Ok(Some(ranged(alloc, name, *starred, scope, *range, signed, width, what)?))
        }
        Form::Net { signed, starred, name, range, .. } => {
            let root = root_item(nets, place);
            let width = narrow(declared_width(form));
            let what = ItemKind::Net { root };
            Ok(Some(ranged(alloc, name, *starred, scope, *range, *signed, width, what)?))
        }
        Form::Array { kind, name, first, last, range } => {
            let words = words_between(*first, *last);
            let width = narrow(declared_width(form));
            let signed = is_signed(*kind);
            let what = ItemKind::Array { words: few_words(words) };
            Ok(Some(ranged(alloc, name, false, scope, *range, signed, width, what)?))
        }
        Form::Scope { name, .. } => {
            let number = file.counts_before(place).scopes;
            let parent = parent_of(file, form);
            Ok(Some(named(alloc, name.get(), parent, ItemKind::Scope(number))?))
        }
        Form::NamedEvent { name } => Ok(Some(named(alloc, name, scope, ItemKind::Named)?)),
        Form::EdgeEvent { kind, .. } => {
            let ports = sources_of(alloc, file, form, None)?;
            let what = ItemKind::Edge { kind: *kind, ports };
            Ok(Some(plain(alloc, scope, 0, what)))
        }
        Form::EventOr { .. } => {
            let events = item_numbers(alloc, file, events_of(form))?;
            Ok(Some(plain(alloc, scope, 0, ItemKind::AnyOf(events))))
        }
        Form::Delay { width, rise, fall, decay, port } => {
            let what = ItemKind::Delay { rise: *rise, fall: *fall, decay: *decay, port: file.item_of(*port) };
            Ok(Some(plain(alloc, scope, *width, what)))
        }
        Form::Parameter if labelled => Ok(Some(plain(alloc, scope, 0, ItemKind::Param))),
        _ => Ok(None),
    }
}

/// The item of the statement at a place, where it declares one. `scope` is the current scope there. The only error is want of
/// memory.
#[tactic(auto, unfolding(crate::specs::Meaning::item_said))]
pub fn item_of(
    alloc: Global,
    nets: &Nets<'_>,
    place: u32,
    placed: &Placed,
    scope: u32,
) -> Result<Option<Item>, AllocError>
    ensures { (src : List ℕ) → (all : List Placed) → KnowsNets src all nets.now → AreFormed all → slice_get all place ≡ Some placed.now → first_refusal src all ≡ None → IfOk result (λ item. item ≡ item_said src all place scope (is_some placed.now.label) placed.now.what) }
{
    match &placed.what {
        What::Op(_) => Ok(None),
        What::Form(form) => match gate_of(form) {
            Some(gate) => Ok(Some(gate_item(alloc, nets, place, form, gate, scope)?)),
            None => other_item(alloc, nets, place, form, placed.label.is_some(), scope),
        },
    }
}
