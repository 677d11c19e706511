//! Which gates are told by the values of one item or of two.

ghost use Rattle.std.specs.Prelude.{◌≡◌, true, Some, IfSome, IfOk, IsTrue};
ghost use Rattle.gate_rules.specs.Single.{has_one_input};
ghost use Rattle.gate_rules.specs.Tables.{has_table};
ghost use Rattle.sym_link.specs.Roots.{root_of};
ghost use Rattle.net_engine.specs.Inputs.{IsConstant, AreOne, IsSingle, IsInputs, AreInputs};
ghost use Rattle.net_engine.specs.Pairs.{IsIdleSource, AreTwo, IsPair};

use crate::design::Row;
use gate_rules::{has_one_input, has_table, is_idle};
use std::alloc::{AllocError, Global};
use sym_link::{ItemKind, Source, Sources};
use vvp_forms::Gate;

/// The items whose values alone tell what a gate drives, which drives strongly.
#[derive(Clone, Copy)]
pub(crate) enum Inputs {
    /// The gate has one input, the value of this item.
    Single(u32),
    /// The gate's table joins the values of these two items.
    Pair(u32, u32),
    /// There is more to be looked at, or the item is no gate.
    Other,
}

// The item whose value an item shows, where there is one of this number.
fn root_in(rows: &[Row], item: u32) -> Option<u32>
    ensures { IfSome result (λ root. root ≡ root_of rows.now item) }
{
    let row = rows.get(item as usize)?;
    match &row.what {
        ItemKind::Net { root } => Some(*root),
        _ => Some(item),
    }
}

// Whether a source adds nothing to what the table of a gate makes of two others.
fn is_idle_source(gate: &Gate, source: &Source) -> bool
    ensures { result ≡ true → IsIdleSource gate.now source.now }
{
    match source {
        Source::Unused => true,
        Source::Item(_item) => false,
        Source::Fixed(bits) => {
            let _width = bits.width();
            is_idle(gate, *bits)
        }
    }
}

// The two items whose values alone a gate's ports have, if there are two and no more.
fn two_of(rows: &[Row], gate: &Gate, sources: &Sources) -> Option<(u32, u32)>
    ensures { IfSome result (λ pair. AreTwo rows.now gate.now sources.now pair.0 pair.1) }
{
    let [Source::Item(first), Source::Item(second), third, fourth] = sources.as_array() else {
        return None;
    };
    if is_idle_source(gate, third) && is_idle_source(gate, fourth) {
        Some((root_in(rows, *first)?, root_in(rows, *second)?))
    } else {
        None
    }
}

// Whether a source is no item.
fn is_constant(source: &Source) -> bool
    ensures { result ≡ true → IsConstant source.now }
{
    match source {
        Source::Unused => true,
        Source::Item(_item) => false,
        Source::Fixed(bits) => {
            let _width = bits.width();
            true
        }
    }
}

// The item whose value a gate's first port has, if the others have constants or nothing.
fn one_of(rows: &[Row], sources: &Sources) -> Option<u32>
    ensures { IfSome result (λ item. AreOne rows.now sources.now item) }
{
    let [Source::Item(first), second, third, fourth] = sources.as_array() else {
        return None;
    };
    if is_constant(second) && is_constant(third) && is_constant(fourth) {
        root_in(rows, *first)
    } else {
        None
    }
}

// The item whose value is the only input of an item, where it is a gate of one input that drives strongly.
fn single_of(rows: &[Row], row: &Row) -> Option<u32>
    ensures { IfSome result (λ item. IsSingle rows.now (Some row.now.what) item) }
{
    match &row.what {
        ItemKind::Functor { gate, drive, ports } => {
            if has_one_input(gate) && drive.0 == 6 && drive.1 == 6 {
                one_of(rows, ports)
            } else {
                None
            }
        }
        _ => None,
    }
}

// The two items whose values the table of an item joins, where it is a gate that has these alone and drives strongly.
fn pair_of(rows: &[Row], row: &Row) -> Option<(u32, u32)>
    ensures { IfSome result (λ pair. IsPair rows.now (Some row.now.what) pair.0 pair.1) }
{
    match &row.what {
        ItemKind::Functor { gate, drive, ports } => {
            if has_table(gate) && drive.0 == 6 && drive.1 == 6 {
                two_of(rows, gate, ports)
            } else {
                None
            }
        }
        _ => None,
    }
}

// The items whose values alone tell what an item drives.
fn inputs_in(rows: &[Row], row: &Row) -> Inputs
    ensures { IsInputs rows.now (Some row.now.what) result }
{
    if let Some(item) = single_of(rows, row) {
        return Inputs::Single(item);
    }
    match pair_of(rows, row) {
        Some((left, right)) => Inputs::Pair(left, right),
        None => Inputs::Other,
    }
}

/// Of each item those whose values alone tell what it drives.
pub(crate) fn inputs_of(alloc: Global, rows: &[Row]) -> Result<Vec<Inputs>, AllocError>
    ensures { IfOk result (λ inputs. AreInputs rows.now inputs.items) }
{
    let mut inputs = Vec::with_capacity(alloc, rows.len())?;
    'rows: for i in 0..rows.len() {
        inputs.push(inputs_in(rows, &rows[i]))?;
    }
    Ok(inputs)
}
