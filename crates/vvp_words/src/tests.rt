//! What words say, and which are refused.

use crate::{Entries, WordsFault, Work, read_words};
use std::alloc::{AllocError, Global};
use std::test::Fail;

// Words, parted by one space, and what they say, if they are those of the command: the work, the budget, the order, and whether
// the counts of the run are wanted.
type Row = (&'static str, Option<(Work<'static>, u32, u32, bool)>);

const USUAL: u32 = 10_000_000;

#[rattlefmt::skip]
const ROWS: [Row; 58] = [
    ("a", Some((Work::File(b"a"), USUAL, 0, false))),
    ("run", Some((Work::File(b"run"), USUAL, 0, false))),
    ("", Some((Work::File(b""), USUAL, 0, false))),
    ("-", Some((Work::File(b"-"), USUAL, 0, false))),
    ("-- --stats", Some((Work::File(b"--stats"), USUAL, 0, false))),
    ("a --stats", Some((Work::File(b"a"), USUAL, 0, true))),
    ("--stats a", Some((Work::File(b"a"), USUAL, 0, true))),
    ("a --events 5", Some((Work::File(b"a"), 5, 0, false))),
    ("--events=0 a --stats", Some((Work::File(b"a"), 0, 0, true))),
    ("a --events 0000000005", Some((Work::File(b"a"), 5, 0, false))),
    ("a --events 4294967295", Some((Work::File(b"a"), u32::MAX, 0, false))),
    ("--order 7 a --events 6", Some((Work::File(b"a"), 6, 7, false))),
    ("a --order=4294967295", Some((Work::File(b"a"), USUAL, u32::MAX, false))),
    ("--mode run a", Some((Work::File(b"a"), USUAL, 0, false))),
    ("--mode workload 100 --stats", Some((Work::Workload(100), USUAL, 0, true))),
    ("1 --mode=workload --events 9", Some((Work::Workload(1), 9, 0, false))),
    ("--mode workload 0002", Some((Work::Workload(2), USUAL, 0, false))),
    ("--mode workload 2000 --order 3", Some((Work::Workload(2_000), USUAL, 3, false))),
    ("--mode toggles a", Some((Work::Toggles(b"a"), USUAL, 0, false))),
    ("a --mode=toggles", Some((Work::Toggles(b"a"), USUAL, 0, false))),
    ("--mode activity a", Some((Work::Activity(b"a"), USUAL, 0, false))),
    ("a --mode=activity --order 3 --events 7", Some((Work::Activity(b"a"), 7, 3, false))),
    ("--stats", None),
    ("a b", None),
    ("a --stats --stats", None),
    ("a --stats=true", None),
    ("a --help", None),
    ("-h", None),
    ("a --version", None),
    ("a --event 5", None),
    ("a --events", None),
    ("a --events=", None),
    ("a --events 4294967296", None),
    ("a --events 00000000005", None),
    ("a --events 5x", None),
    ("a --events +5", None),
    ("a --events -1", None),
    ("a --events 5 --events 5", None),
    ("a --order 4294967296", None),
    ("a --order -1", None),
    ("a --order 1 --order 2", None),
    ("--mode a", None),
    ("--mode Run a", None),
    ("--mode= a", None),
    ("--mode workload 0", None),
    ("--mode workload 2001", None),
    ("--mode workload 00001", None),
    ("--mode workload a", None),
    ("--mode toggles", None),
    ("--mode Toggles a", None),
    ("--mode toggles a --stats", None),
    ("--mode toggles a --events 5", None),
    ("--mode toggles a --events 10000000", None),
    ("--mode toggles a --order 0", None),
    ("a --order x --mode toggles", None),
    ("--mode activity", None),
    ("--mode activity a --stats", None),
    ("--mode activities a", None),
];

fn words_of(alloc: Global, text: &str) -> Result<Vec<String>, AllocError> {
    let mut words = Vec::new(alloc);
    for word in text.split(' ') {
        words.push(word.to_string(alloc)?)?;
    }
    Ok(words)
}

fn same_work(found: Work, wanted: Work) -> bool {
    match (found, wanted) {
        (Work::File(name), Work::File(other)) => name == other,
        (Work::Workload(size), Work::Workload(other)) => size == other,
        (Work::Toggles(name), Work::Toggles(other)) => name == other,
        (Work::Activity(name), Work::Activity(other)) => name == other,
        _ => false,
    }
}

fn says(found: Entries, wanted: (Work, u32, u32, bool)) -> bool {
    let (work, budget, order, stats) = wanted;
    same_work(found.work, work)
        && found.budget == budget
        && found.order == order
        && found.stats == stats
}

// Whether the words say what the row says, or are refused where it says nothing.
fn holds(alloc: Global, row: &Row) -> Result<bool, AllocError> {
    let words = words_of(alloc, row.0)?;
    match (read_words(alloc, &words), row.1) {
        (Ok(found), Some(wanted)) => Ok(says(found, wanted)),
        (Err(WordsFault::Refused), None) => Ok(true),
        (Err(WordsFault::Memory), _) => Err(AllocError),
        _ => Ok(false),
    }
}

#[test]
fn words_by_table(rt: HostRuntime) -> Result<(), Fail> {
    for row in &ROWS {
        assert!(rt; holds(rt.alloc(), row)?, "{}", row.0);
    }
    Ok(())
}

#[test]
fn no_words(rt: HostRuntime) {
    let words = Vec::new(rt.alloc());
    assert!(rt; matches!(read_words(rt.alloc(), &words), Err(WordsFault::Refused)));
}
