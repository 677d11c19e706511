//! What a dump writes in a read-only phase, after its header.

ghost use Rattle.std.specs.Prelude.{◌≡◌, ◌<◌, ◌^◌, ◌==◌, ◌++◌, [], length, map, take, IfOk, OnOk, OnErr, if◌then◌else◌};
ghost use Rattle.std.specs.List.{fold};
ghost use Rattle.sys_tasks.specs.Conditions.{IsBetween};
ghost use Rattle.sys_tasks.specs.Phase.{Writing, opened, requested, timed, with_changes, written};

use crate::state::VecList;
use std::alloc::{AllocError, Global};
use value_plane::Plane;
use vcd_write::{Dump, Section, time_line};

/// What writes a dump, from its header on.
#[derive(Drop)]
pub(crate) struct Writer {
    /// What the dump has of the chosen items.
    pub(crate) dump: Dump,
    /// The items whose values the chosen ones have: a net's is its root.
    pub(crate) roots: Vec<u32>,
    /// The values of the chosen items now: memory that is used again.
    pub(crate) values: Plane,
}

impl Writer {
    /// The values that the dump has of its items. The only error is want of memory.
    pub(crate) fn last(&self, alloc: Global) -> Result<VecList, AllocError>
        requires as_many { length self.now.roots.items ≡ length self.now.dump }
        requires few { length self.now.roots.items < 2 ^ 32 }
        ensures { IfOk result (λ last. last ≡ self.now.dump) }
    {
        let mut last = VecList::new(alloc);
        let plane = self.dump.last();
        for place in 0..self.roots.len() as u32 {
            last.push(plane.get(place))?;
        }
        Ok(last)
    }
}

/// Appends the first section, where the header is due. It answers whether the dump is on then.
fn append_first(
    dump: &mut Dump,
    values: &Plane,
    header: bool,
    on: bool,
    out: &mut Vec<u8>,
) -> Result<bool, AllocError>
    requires { map length values.now ≡ map length dump.old }
    ensures ok { IfOk result (λ after. record { body = out.new.items; on = after; last = dump.new } ≡ opened header values.now (record { body = out.old.items; on = on; last = dump.old })) }
    ensures widths { map length dump.new ≡ map length dump.old }
    ensures err { OnErr result (out.new.items ≡ out.old.items) }
{
    if !header {
        return Ok(on);
    }
    dump.section(Section::Vars, values, out)?;
    Ok(true)
}

/// Appends what a request writes. It answers whether the dump is on then.
fn append_request(
    dump: &mut Dump,
    values: &Plane,
    kind: Section,
    on: bool,
    out: &mut Vec<u8>,
) -> Result<bool, AllocError>
    requires { map length values.now ≡ map length dump.old }
    ensures ok { IfOk result (λ after. record { body = out.new.items; on = after; last = dump.new } ≡ requested values.now (record { body = out.old.items; on = on; last = dump.old }) kind) }
    ensures widths { map length dump.new ≡ map length dump.old }
    ensures err { OnErr result (out.new.items ≡ out.old.items) }
{
    match kind {
        Section::Vars => Ok(on),
        Section::Off => {
            if !on {
                return Ok(false);
            }
            dump.section(Section::Off, values, out)?;
            Ok(false)
        }
        Section::On => {
            if on {
                return Ok(true);
            }
            dump.section(Section::On, values, out)?;
            Ok(true)
        }
        Section::All => {
            if !on {
                return Ok(false);
            }
            dump.section(Section::All, values, out)?;
            Ok(true)
        }
    }
}

/// Appends what the requests write, in their order. It answers whether the dump is on then.
fn append_requests(
    dump: &mut Dump,
    values: &Plane,
    requests: &[Section],
    on: bool,
    out: &mut Vec<u8>,
) -> Result<bool, AllocError>
    requires { map length values.now ≡ map length dump.old }
    ensures ok { IfOk result (λ after. record { body = out.new.items; on = after; last = dump.new } ≡ fold (requested values.now) (record { body = out.old.items; on = on; last = dump.old }) requests.now) }
    ensures widths { map length dump.new ≡ map length dump.old }
    ensures err { OnErr result (IsBetween out.old.items (fold (requested values.now) (record { body = out.old.items; on = on; last = dump.old }) requests.now).body out.new.items) }
{
    let mut is_on = on;
    for kind in requests {
        is_on = append_request(dump, values, *kind, is_on, out)?;
    }
    Ok(is_on)
}

/// Appends what has changed, while the dump is on.
fn append_changes(
    dump: &mut Dump,
    values: &Plane,
    on: bool,
    out: &mut Vec<u8>,
) -> Result<(), AllocError>
    requires { map length values.now ≡ map length dump.old }
    ensures ok { OnOk result (record { body = out.new.items; on = on; last = dump.new } ≡ with_changes values.now (record { body = out.old.items; on = on; last = dump.old })) }
    ensures widths { map length dump.new ≡ map length dump.old }
    ensures err { OnErr result (out.new.items ≡ out.old.items) }
{
    if !on {
        return Ok(());
    }
    dump.step(values, out)
}

/// Appends the sections and changes of a phase. It answers whether the dump is on then.
fn append_body(
    dump: &mut Dump,
    values: &Plane,
    header: bool,
    requests: &[Section],
    on: bool,
    out: &mut Vec<u8>,
) -> Result<bool, AllocError>
    requires { map length values.now ≡ map length dump.old }
    ensures ok { IfOk result (λ after. record { body = out.new.items; on = after; last = dump.new } ≡ written header values.now requests.now (record { body = out.old.items; on = on; last = dump.old })) }
    ensures widths { map length dump.new ≡ map length dump.old }
    ensures err { OnErr result (IsBetween out.old.items (written header values.now requests.now (record { body = out.old.items; on = on; last = dump.old })).body out.new.items) }
{
    let begun = append_first(dump, values, header, on, out)?;
    let after = append_requests(dump, values, requests, begun, out)?;
    append_changes(dump, values, after, out)?;
    Ok(after)
}

/// Cuts a text back to its first bytes, where it has no more than so many.
fn cut(out: &mut Vec<u8>, before: usize, after: usize)
    ensures { out.new.items ≡ (if length out.old.items == after then take before out.old.items else out.old.items) }
{
    if out.len() == after {
        out.truncate(before);
    }
}

/// Appends the sections and changes of a phase after the line of the time, where there are any. It answers whether the dump is
/// on then.
///
/// # Errors
///
/// `AllocError` where memory is wanting. A beginning of what was due is then appended.
pub(crate) fn append_phase(
    dump: &mut Dump,
    values: &Plane,
    header: bool,
    requests: &[Section],
    on: bool,
    now: u64,
    out: &mut Vec<u8>,
) -> Result<bool, AllocError>
    requires { map length values.now ≡ map length dump.old }
    ensures ok { IfOk result (λ after. let w = written header values.now requests.now (record { body = []; on = on; last = dump.old }) in record { body = out.new.items; on = after; last = dump.new } ≡ record w { body = out.old.items ++ timed now w.body }) }
    ensures widths { map length dump.new ≡ map length dump.old }
    ensures err { OnErr result (IsBetween out.old.items (out.old.items ++ timed now (written header values.now requests.now (record { body = []; on = on; last = dump.old })).body) out.new.items) }
{
    let before = out.len();
    time_line(now, out)?;
    let after = out.len();
    let result = append_body(dump, values, header, requests, on, out);
    cut(out, before, after);
    result
}
