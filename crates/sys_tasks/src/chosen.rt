//! What is dumped.

ghost use Rattle.std.specs.Prelude.{◌≡◌, ◌==◌, ◌<◌, ◌^◌, length, map, position, replicate, false, IfOk, slice_index_or, []};
ghost use Rattle.std.specs.List.{list_any, range_with_len};
ghost use Rattle.sys_tasks.specs.Design.{lineages};
ghost use Rattle.sys_tasks.specs.Dumped.{chosen_in, depth_of, is_among, is_chosen, is_chosen_by, is_named, is_within, is_within_root, scope_at};
ghost use Rattle.sys_tasks.specs.Sound.{AreChosen};

use crate::design::{Entry, EntryKind};
use crate::start::is_dumpable;
use crate::state::ItemList;
use std::alloc::{AllocError, Global};
use sym_link::ScopeRow;
use vvp_ops::Arg;

/// The items chosen before, and those that `$dumpvars` with these arguments chooses, rising.
pub(crate) fn chosen_with(
    alloc: Global,
    entries: &[Entry],
    scopes: &[ScopeRow],
    args: &[Arg<u32>],
    chosen: &[u32],
) -> Result<ItemList, AllocError>
    requires few { length entries.now < 2 ^ 32 }
    requires chosen { AreChosen entries.now chosen.now }
    ensures { IfOk result (λ items. items ≡ chosen_in entries.now scopes.now args.now chosen.now) }
{
    let marks = marks_of(alloc, entries, chosen)?;
    let mut items = ItemList::new(alloc);
    for item in 0..entries.len() as u32 {
        if marks[item as usize] || is_chosen(entries, scopes, args, item) {
            items.push(item)?;
        }
    }
    Ok(items)
}

/// So many marks that are not set.
fn no_marks(alloc: Global, count: usize) -> Result<Vec<bool>, AllocError>
    ensures { IfOk result (λ marks. marks.items ≡ replicate count false) }
{
    vec![in alloc; false; count]
}

/// Of each item whether it was chosen before.
fn marks_of(alloc: Global, entries: &[Entry], chosen: &[u32]) -> Result<Vec<bool>, AllocError>
    requires { AreChosen entries.now chosen.now }
    ensures { IfOk result (λ marks. marks.items ≡ map (λ item. list_any (λ k. k == item) chosen.now) (range_with_len 0 (length entries.now))) }
{
    let mut marks = no_marks(alloc, entries.len())?;
    for item in chosen {
        marks[*item as usize] = true;
    }
    Ok(marks)
}

/// Whether `$dumpvars` with these arguments chooses an item.
fn is_chosen(entries: &[Entry], scopes: &[ScopeRow], args: &[Arg<u32>], item: u32) -> bool
    ensures { result ≡ is_chosen entries.now scopes.now args.now item }
{
    match entries.get(item as usize) {
        Some(entry) => {
            is_dumpable(entry.what) && is_chosen_by(entries, scopes, args, item, entry.scope)
        }
        None => false,
    }
}

/// Whether the arguments choose an item of a scope.
fn is_chosen_by(
    entries: &[Entry],
    scopes: &[ScopeRow],
    args: &[Arg<u32>],
    item: u32,
    scope: u32,
) -> bool
    ensures { result ≡ is_chosen_by entries.now (slice_index_or (lineages scopes.now) scope []) item args.now }
{
    match args {
        [] => true,
        [depth, targets @ ..] => is_among(entries, scopes, depth_of(depth), targets, item, scope),
    }
}

/// Whether an item of a scope is within so many levels of a root scope, where there is no target, or one of the targets has it.
fn is_among(
    entries: &[Entry],
    scopes: &[ScopeRow],
    depth: u128,
    targets: &[Arg<u32>],
    item: u32,
    scope: u32,
) -> bool
    ensures { result ≡ is_among entries.now depth (slice_index_or (lineages scopes.now) scope []) item targets.now }
{
    if targets.is_empty() {
        return is_within_root(scopes, depth, scope);
    }
    for target in targets {
        if is_named(entries, scopes, depth, target, item, scope) {
            return true;
        }
    }
    false
}

/// Whether a scope is one of so many levels from its root scope on.
fn is_within_root(scopes: &[ScopeRow], depth: u128, scope: u32) -> bool
    ensures { result ≡ is_within_root depth (slice_index_or (lineages scopes.now) scope []) }
{
    depth == 0 || levels(scopes, scope) as u128 <= depth
}

/// The depth that the first argument gives.
fn depth_of(arg: &Arg<u32>) -> u128
    ensures { result ≡ depth_of arg.now }
{
    match arg {
        Arg::Based { value, .. } => value.known().unwrap_or(0),
        Arg::Text(_)
        | Arg::Symbol(_)
        | Arg::Time
        | Arg::ShortTime
        | Arg::SimTime
        | Arg::Stack { .. }
        | Arg::Word { .. }
        | Arg::Part { .. } => 0,
    }
}

/// The scope that a symbol names, where it names one.
fn scope_at(entries: &[Entry], target: u32) -> Option<u32>
    ensures { result ≡ scope_at entries.now target }
{
    match entries.get(target as usize) {
        Some(entry) => match entry.what {
            EntryKind::Scope(scope) => Some(scope),
            EntryKind::Var { .. }
            | EntryKind::Net { .. }
            | EntryKind::Unnamed
            | EntryKind::Array { .. }
            | EntryKind::Other => None,
        },
        None => None,
    }
}

/// Whether a symbol names an item, or a scope that it is below.
fn is_named(
    entries: &[Entry],
    scopes: &[ScopeRow],
    depth: u128,
    target: &Arg<u32>,
    item: u32,
    scope: u32,
) -> bool
    ensures { result ≡ is_named entries.now depth (slice_index_or (lineages scopes.now) scope []) item target.now }
{
    match target {
        Arg::Symbol(target) => match scope_at(entries, *target) {
            Some(above) => is_within(scopes, depth, scope, above),
            None => item == *target,
        },
        Arg::Text(_)
        | Arg::Based { .. }
        | Arg::Time
        | Arg::ShortTime
        | Arg::SimTime
        | Arg::Stack { .. }
        | Arg::Word { .. }
        | Arg::Part { .. } => false,
    }
}

/// Whether a scope is another one or one of so many levels below it, that one being the first.
fn is_within(scopes: &[ScopeRow], depth: u128, scope: u32, above: u32) -> bool
    ensures { result ≡ is_within depth (slice_index_or (lineages scopes.now) scope []) above }
{
    match distance(scopes, scope, above) {
        Some(levels) => depth == 0 || (levels as u128) < depth,
        None => false,
    }
}

/// How many scopes there are from a scope up to its root scope, itself among them. A parent has a lower number.
fn levels(scopes: &[ScopeRow], scope: u32) -> usize
    ensures { result ≡ length (slice_index_or (lineages scopes.now) scope []) }
{
    let mut at = scope as usize;
    let mut levels = 0;
    while at < scopes.len() {
        levels += 1;
        let parent = scopes[at].parent as usize;
        if parent >= at {
            return levels;
        }
        at = parent;
    }
    levels
}

/// How many levels a scope is below another one.
fn distance(scopes: &[ScopeRow], scope: u32, above: u32) -> Option<usize>
    ensures { result ≡ position (λ s. s == above) (slice_index_or (lineages scopes.now) scope []) }
{
    let mut at = scope as usize;
    let mut levels = 0;
    while at < scopes.len() {
        if at == above as usize {
            return Some(levels);
        }
        levels += 1;
        let parent = scopes[at].parent as usize;
        if parent >= at {
            return None;
        }
        at = parent;
    }
    None
}
