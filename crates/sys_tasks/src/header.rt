//! The header of a dump, and what writes the dump from then on.

ghost use Rattle.std.specs.Prelude.{◌≡◌, ◌++◌, ◌<◌, length, map, filter_map, option_map, slice_get, IsTrue, IfOk, OnOk, OnErr};
ghost use Rattle.std.specs.List.{list_all};
ghost use Rattle.vcd_write.specs.Header.{header_text};
ghost use Rattle.sys_tasks.specs.Design.{is_dumpable_kind, root_of, width_of};
ghost use Rattle.sys_tasks.specs.Dumped.{dump_item, dump_items_of, dump_scope, kind_of, scope_word_of, var_word_of};
ghost use Rattle.sys_tasks.specs.Sound.{AreChosen, CanDump, IsWriting};

use crate::arguments::width_of;
use crate::design::{Entry, EntryKind};
use crate::writer::Writer;
use std::alloc::{AllocError, Global};
use sym_link::ScopeRow;
use value_plane::Plane;
use vcd_write::{Dump, DumpItem, DumpScope, ScopeWord, VarWord};
use vvp_forms::ScopeKind;

/// The word of a scope's kind.
fn scope_word_of(kind: ScopeKind) -> ScopeWord
    ensures { result ≡ scope_word_of kind }
{
    match kind {
        ScopeKind::Module | ScopeKind::Package => ScopeWord::Module,
        ScopeKind::Task => ScopeWord::Task,
        ScopeKind::Begin | ScopeKind::Generate => ScopeWord::Begin,
        ScopeKind::Fork => ScopeWord::Fork,
    }
}

/// The word of an item's kind.
fn var_word_of(kind: EntryKind) -> VarWord
    ensures { result ≡ var_word_of kind }
{
    match kind {
        EntryKind::Var { integer, .. } => {
            if integer {
                VarWord::Integer
            } else {
                VarWord::Reg
            }
        }
        EntryKind::Net { .. }
        | EntryKind::Unnamed
        | EntryKind::Array { .. }
        | EntryKind::Scope(_)
        | EntryKind::Other => VarWord::Wire,
    }
}

/// A scope as the dump shows it.
fn dump_scope(alloc: Global, row: &ScopeRow) -> Result<DumpScope, AllocError>
    ensures { IfOk result (λ scope. scope ≡ dump_scope row.now) }
{
    Ok(DumpScope {
        word: scope_word_of(row.kind),
        name: row.name.copy(alloc)?,
        parent: row.parent,
    })
}

/// An item as the dump shows it.
fn dump_item(alloc: Global, entry: &Entry) -> Result<DumpItem, AllocError>
    ensures { IfOk result (λ item. item ≡ dump_item entry.now) }
{
    Ok(DumpItem {
        word: var_word_of(entry.what),
        name: entry.name.copy(alloc)?,
        scope: entry.scope,
        msb: entry.msb,
        lsb: entry.lsb,
    })
}

/// The scopes as the dump shows them. The only error is want of memory.
fn dump_scopes(alloc: Global, rows: &[ScopeRow]) -> Result<Vec<DumpScope>, AllocError>
    ensures { IfOk result (λ scopes. scopes.items ≡ map dump_scope rows.now) }
{
    let mut scopes = Vec::new(alloc);
    for row in rows {
        scopes.push(dump_scope(alloc, row)?)?;
    }
    Ok(scopes)
}

/// The chosen items as the dump shows them. The only error is want of memory.
fn dump_items(alloc: Global, entries: &[Entry], chosen: &[u32]) -> Result<Vec<DumpItem>, AllocError>
    requires { IsTrue (list_all (λ item. is_dumpable_kind (kind_of entries.now item)) chosen.now) }
    ensures { IfOk result (λ items. items.items ≡ dump_items_of entries.now chosen.now) }
{
    let mut items = Vec::new(alloc);
    for item in chosen {
        items.push(dump_item(alloc, &entries[*item as usize])?)?;
    }
    Ok(items)
}

/// The item whose value an item has: a net's is its root's.
fn root_of(entries: &[Entry], item: u32) -> u32
    ensures { result ≡ root_of entries.now item }
{
    match entries.get(item as usize) {
        Some(
            Entry {
                what: EntryKind::Net { root, .. },
                ..
            },
        ) => *root,
        _ => item,
    }
}

/// The items whose values the chosen ones have. The only error is want of memory.
fn roots_of(alloc: Global, entries: &[Entry], chosen: &[u32]) -> Result<Vec<u32>, AllocError>
    ensures { IfOk result (λ roots. roots.items ≡ map (root_of entries.now) chosen.now) }
{
    let mut roots = Vec::new(alloc);
    for item in chosen {
        roots.push(root_of(entries, *item))?;
    }
    Ok(roots)
}

/// The widths of items. The only error is want of memory.
fn widths_of(alloc: Global, entries: &[Entry], items: &[u32]) -> Result<Vec<u8>, AllocError>
    ensures { IfOk result (λ widths. widths.items ≡ map (width_of entries.now) items.now) }
{
    let mut widths = Vec::new(alloc);
    for item in items {
        widths.push(width_of(entries, *item))?;
    }
    Ok(widths)
}

/// Appends the header of a dump of the chosen items to `out`. All that it takes is linear in the scopes and the chosen items.
///
/// # Errors
///
/// `AllocError` where memory is wanting. `out` is then as before.
pub(crate) fn open(
    alloc: Global,
    precision: i8,
    entries: &[Entry],
    scopes: &[ScopeRow],
    chosen: &[u32],
    out: &mut Vec<u8>,
) -> Result<Writer, AllocError>
    requires program { CanDump entries.now scopes.now precision }
    requires chosen { AreChosen entries.now chosen.now }
    ensures header { OnOk result (out.new.items ≡ out.old.items ++ header_text precision (map dump_scope scopes.now) (dump_items_of entries.now chosen.now)) }
    ensures writer { IfOk result (λ w. IsWriting entries.now chosen.now w.roots.items w.dump w.values) }
    ensures err { OnErr result (out.new.items ≡ out.old.items) }
{
    let scopes = dump_scopes(alloc, scopes)?;
    let items = dump_items(alloc, entries, chosen)?;
    let roots = roots_of(alloc, entries, chosen)?;
    let widths = widths_of(alloc, entries, roots.as_slice())?;
    let values = Plane::new(alloc, widths.as_slice())?;
    let dump = Dump::start(alloc, precision, scopes.as_slice(), items.as_slice(), out)?;
    Ok(Writer {
        dump,
        roots,
        values,
    })
}
