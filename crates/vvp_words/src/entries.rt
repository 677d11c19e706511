//! What the words say.

ghost use Rattle.std.specs.Prelude.{◌≡◌, Some, None, map, option_map, string_bytes, IfOk, IfSome, IsErrOf};
ghost use Rattle.vvp_words.specs.Entries.{entries, entries_of, number_or, speaks_of_run, takes, work_given, work_of};
ghost use Rattle.vvp_words.specs.Seen.{seen, seen_given, seen_work};
ghost use Rattle.vvp_words.specs.Sizes.{IsSized};

use crate::command::{Given, WordsFault, read_given};
use crate::decimal::decimal;
use std::alloc::Global;

/// What is to be done.
#[derive(Clone, Copy, Debug)]
pub enum Work<'a> {
    /// The run of the file of this name.
    File(&'a [u8]),
    /// The run of the workload of this size, from 1 to 2,000.
    Workload(u32),
    /// The report on the dump of this name: how often its variables rise and fall.
    Toggles(&'a [u8]),
    /// The run of the file of this name, for the report on its own dump.
    Activity(&'a [u8]),
}

/// What the words say.
#[derive(Clone, Copy, Debug)]
pub struct Entries<'a> {
    /// What is to be done. Where nothing is run, all else is as it usually is.
    pub work: Work<'a>,
    /// The most steps that the run does.
    pub budget: u32,
    /// The order in which it takes dues.
    pub order: u32,
    /// Whether the counts of the run are wanted.
    pub stats: bool,
}

// The work of an operand in a mode: a file, a workload by its size, or a dump.
fn work_of<'a>(mode: Option<&'a str>, operand: &'a str) -> Option<Work<'a>>
    ensures work { option_map seen_work result ≡ work_of (option_map (λ s. s.now) mode.entry) operand.entry.now }
    ensures sized { IfSome result IsSized }
{
    let Some(mode) = mode else {
        return Some(Work::File(operand.as_bytes()));
    };
    if mode == "run" {
        return Some(Work::File(operand.as_bytes()));
    }
    if mode == "workload" {
        return match decimal(operand.as_bytes(), 4, 1, 2_000) {
            None => None,
            Some(size) => Some(Work::Workload(size)),
        };
    }
    if mode == "toggles" {
        return Some(Work::Toggles(operand.as_bytes()));
    }
    if mode == "activity" {
        return Some(Work::Activity(operand.as_bytes()));
    }
    None
}

// Whether an option that speaks of a run was given, be it with its usual value.
fn speaks_of_run(given: &Given) -> bool
    ensures { result ≡ speaks_of_run (seen_given given.now) }
{
    given.events.is_some() || given.order.is_some() || given.stats
}

// Whether a work takes the options that were given: the report on a dump takes none that speaks of a run, and the report on the
// dump of a run no counts.
fn takes(given: &Given, work: &Work) -> bool
    ensures { result ≡ takes (seen_given given.now) (seen_work work.now) }
{
    match work {
        Work::File(_) | Work::Workload(_) => true,
        Work::Toggles(_) => !speaks_of_run(given),
        Work::Activity(_) => !given.stats,
    }
}

// The work that the words say, where it takes their options.
fn work_given<'a>(given: &Given<'a>) -> Option<Work<'a>>
    ensures work { option_map seen_work result ≡ work_given (seen_given given.now) }
    ensures sized { IfSome result IsSized }
{
    let work = work_of(given.mode, given.operand)?;
    if takes(given, &work) {
        Some(work)
    } else {
        None
    }
}

// The number of an option that takes one, by default `usual`.
fn number_or(text: Option<&str>, usual: u32) -> Option<u32>
    ensures { result ≡ number_or (option_map (λ s. s.now) text.entry) usual }
{
    match text {
        None => Some(usual),
        Some(text) => decimal(text.as_bytes(), 10, 0, u32::MAX),
    }
}

// What the words say by the values of the options.
fn entries_of<'a>(given: &Given<'a>) -> Option<Entries<'a>>
    ensures entries { option_map seen result ≡ entries_of (seen_given given.now) }
    ensures sized { IfSome result (λ e. IsSized e.work) }
{
    let work = work_given(given)?;
    let budget = number_or(given.events, 10_000_000)?;
    let order = number_or(given.order, 0)?;
    Some(Entries {
        work,
        budget,
        order,
        stats: given.stats,
    })
}

/// What the words say. They leave out the program's name.
///
/// # Errors
///
/// `Refused` exactly where they aren't those of the command, unless memory is wanting; `Memory` where it is.
pub fn read_words<'a>(alloc: Global, words: &'a [String]) -> Result<Entries<'a>, WordsFault>
    ensures ok { IfOk result (λ e. entries (map string_bytes words.entry.now) ≡ Some (seen e)) }
    ensures sized { IfOk result (λ e. IsSized e.work) }
    ensures refused { IsErrOf result WordsFault.Refused → entries (map string_bytes words.entry.now) ≡ None }
{
    let given = match read_given(alloc, words) {
        Err(fault) => return Err(fault),
        Ok(given) => given,
    };
    match entries_of(&given) {
        None => Err(WordsFault::Refused),
        Some(entries) => Ok(entries),
    }
}
