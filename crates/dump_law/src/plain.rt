//! Programs whose names a dump can hold.

ghost use Rattle.std.specs.Prelude.{◌≡◌, ℕ, true};
ghost use Rattle.std.specs.List.{list_all};
ghost use Rattle.sym_link.specs.Sound.{IsProgram};
ghost use Rattle.sim_core.specs.Start.{run};
ghost use Rattle.dump_law.specs.Kept.{HasOwnDump};
ghost use Rattle.dump_law.specs.Plain.{is_plain_item, is_plain_scope, plain_names};

use sym_link::{Item, ItemKind, Program, ScopeRow};
use vcd_law::is_plain;

/// Whether a dump can hold the name of a scope.
fn is_plain_scope(row: &ScopeRow) -> bool
    ensures { result ≡ is_plain_scope row.now }
{
    is_plain(row.name.as_slice())
}

/// Whether a dump can hold the name of an item, where it is a variable or a net.
fn is_plain_item(item: &Item) -> bool
    ensures { result ≡ is_plain_item item.now }
{
    match &item.what {
        ItemKind::Var { .. } | ItemKind::Net { .. } => is_plain(item.name.as_slice()),
        ItemKind::Functor { .. }
        | ItemKind::Edge { .. }
        | ItemKind::Named
        | ItemKind::AnyOf(_)
        | ItemKind::Array { .. }
        | ItemKind::Scope(_)
        | ItemKind::Param
        | ItemKind::Delay { .. } => true,
    }
}

/// Whether every scope has a plain name.
fn are_plain_scopes(rows: &[ScopeRow]) -> bool
    ensures { result ≡ list_all is_plain_scope rows.now }
{
    rows.iter().all(|row| is_plain_scope(row))
}

/// Whether every variable and net has a plain name.
fn are_plain_items(items: &[Item]) -> bool
    ensures { result ≡ list_all is_plain_item items.now }
{
    items.iter().all(|item| is_plain_item(item))
}

/// Whether every scope, variable and net has a plain name.
fn are_plain(program: &Program) -> bool
    ensures { result ≡ plain_names program.now }
{
    are_plain_scopes(program.scopes.as_slice()) && are_plain_items(program.items.as_slice())
}

/// Whether the name of every scope, variable and net is plain: one or more bytes from `!` to `~`, and not `$end`. The dump of each
/// run of such a program is one of ours.
pub fn plain_names(program: &Program) -> bool
    ensures plain { result ≡ plain_names program.now }
    // Whatever the order and however many steps a run takes at most, its dump is one of ours, where it has a name.
    ensures own { result ≡ true → IsProgram program.now → (order budget : ℕ) → HasOwnDump (run program.now order budget) }
{
    are_plain(program)
}
