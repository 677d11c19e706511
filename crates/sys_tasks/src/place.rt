//! Where a task is called.

ghost use Rattle.std.specs.Prelude.{◌≡◌, ◌<◌, ◌≤◌, ◌++◌, length, reverse, None, IfOk, OnOk};
ghost use Rattle.sys_tasks.specs.Design.{place_of};
ghost use Rattle.sys_tasks.specs.Sound.{HasScales, IsHere};

use std::alloc::{AllocError, Global};
use sym_link::ScopeRow;
use text_format::Place;
use vvp_lex::Bytes;

/// The place at which a task printed last. A path is written from the names above a scope when it is wanted, and kept while the
/// scope stays the same: so one path is kept, however many scopes there are.
#[derive(Drop)]
pub(crate) struct Here {
    /// The scope; none before the first call that prints.
    pub(crate) scope: Option<u32>,
    pub(crate) place: Place,
}

/// No place yet.
pub(crate) fn nowhere(alloc: Global) -> Here
    ensures { result.scope ≡ None }
{
    Here {
        scope: None,
        place: Place {
            path: Bytes::new(alloc),
            scale: 1,
        },
    }
}

/// How many ticks are one unit of a scope's time.
pub(crate) fn scale_of(scopes: &[ScopeRow], scope: u32) -> u64
    requires there { scope < length scopes.now }
    requires scales { HasScales scopes.now }
    ensures scale { result ≡ (place_of scopes.now scope).scale }
    ensures least { 1 ≤ result }
{
    scopes[scope as usize].scale
}

/// Goes to the place of a scope. Where memory is wanting the place stays as it was.
pub(crate) fn stand_in(
    here: &mut Here,
    alloc: Global,
    scopes: &[ScopeRow],
    scope: u32,
) -> Result<(), AllocError>
    requires there { scope < length scopes.now }
    requires scales { HasScales scopes.now }
    requires here { IsHere scopes.now here.old }
    ensures here { IsHere scopes.now here.new }
    ensures place { OnOk result (here.new.place ≡ place_of scopes.now scope) }
    ensures least { OnOk result (1 ≤ here.new.place.scale) }
{
    let scale = scale_of(scopes, scope);
    if let Some(last) = here.scope {
        if last == scope {
            return Ok(());
        }
    }
    let path = path_of(alloc, scopes, scope)?;
    here.place = Place { path, scale };
    here.scope = Some(scope);
    Ok(())
}

/// The path of a scope: the names from its root scope down to it, joined by `.`. Time and memory are linear in it. A parent has a
/// lower number.
fn path_of(alloc: Global, scopes: &[ScopeRow], scope: u32) -> Result<Bytes, AllocError>
    requires { scope < length scopes.now }
    ensures { IfOk result (λ path. path ≡ (place_of scopes.now scope).path) }
{
    let mut path = Vec::new(alloc);
    let mut at = scope;
    while scopes[at as usize].parent < at {
        add_backwards(&mut path, scopes[at as usize].name.as_slice())?;
        path.push(b'.')?;
        at = scopes[at as usize].parent;
    }
    add_backwards(&mut path, scopes[at as usize].name.as_slice())?;
    path.reverse();
    Bytes::from_slice(alloc, path.as_slice())
}

/// Appends a name, its last byte first.
fn add_backwards(path: &mut Vec<u8>, name: &[u8]) -> Result<(), AllocError>
    ensures { OnOk result (path.new.items ≡ path.old.items ++ reverse name.now) }
{
    let start = path.len();
    path.extend_from_slice(name)?;
    path[start..].reverse();
    Ok(())
}
