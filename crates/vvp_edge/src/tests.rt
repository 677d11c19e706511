// What no clause says: that calls succeed where memory is ample, and what reaches the system.
ghost use Rattle.std.specs.Prelude.{None, false};

use crate::{
    CallKind, DirStore, Failed, HonestSink, HonestStore, MOST_SOURCE, MemSink, MemStore, OutSink,
    ReadFault, Sink, Store, append_all, read_source, send_all,
};
use std::alloc::{AllocError, Global};
use std::fs;
use std::test::Fail;

// The helpers have no clauses, so that the tests' own proofs carry none.

fn sends<K: Sink>(sink: &mut K, bytes: &[u8]) -> bool {
    send_all(sink, bytes).is_ok()
}

fn opens<S: Store>(store: &mut S, name: &[u8]) -> Result<bool, Failed> {
    store.open_file(name)
}

fn creates<S: Store>(store: &mut S, name: &[u8]) -> bool {
    store.create(name).is_ok()
}

// Opens a file and reads it whole.
fn reads<S: Store>(alloc: Global, store: &mut S, name: &[u8]) -> Result<Vec<u8>, ReadFault> {
    let _is_there = store.open_file(name)?;
    read_source(alloc, store)
}

// Makes a file, and answers which of the pieces were added to it whole.
fn makes<S: Store>(store: &mut S, name: &[u8], pieces: [&str; 3]) -> [bool; 3] {
    if store.create(name).is_err() {
        return [false; 3];
    }
    let [first, second, third] = pieces;
    [
        append_all(store, first.as_bytes()).is_ok(),
        append_all(store, second.as_bytes()).is_ok(),
        append_all(store, third.as_bytes()).is_ok(),
    ]
}

fn sink_of(alloc: Global, most: usize, room: usize, failing: u64) -> Result<MemSink, AllocError> {
    let mut sink = MemSink::new(alloc, most.max(1), room)?;
    sink.fail_at(failing)?;
    Ok(sink)
}

fn store_of(alloc: Global, room: usize) -> Result<MemStore, AllocError> {
    MemStore::new(alloc, room)
}

fn bytes_of<'a>(store: &'a MemStore, name: &[u8]) -> Option<&'a [u8]> {
    store.file(name)
}

// A store with a file that was put twice, and an empty one, in which a call is told to fail.
fn stocked(alloc: Global, kind: CallKind, nth: u64) -> Result<MemStore, AllocError> {
    let mut store = MemStore::new(alloc, 100)?;
    store.put_file(b"in", b"the first")?;
    store.put_file(b"in", b"second")?;
    store.put_file(b"empty", b"")?;
    store.fail_at(kind, nth)?;
    Ok(store)
}

// A store of which so many zeros are read, and which forgets what is written.
#[derive(Drop)]
struct Zeros {
    left: usize,
    writing: bool,
}

impl Store for Zeros {
    ghost files = { λ _. None };

    ghost reading = { λ _. None };

    ghost writing = { λ s. s.writing };

    ghost target = { λ _. None };

    ghost faults = { λ _. 0 };

    ghost target_told = { λ s told writing. told };

    fn open_file(&mut self, _name: &[u8]) -> Result<bool, Failed> {
        Ok(true)
    }

    fn read(&mut self, room: &mut [u8]) -> Result<usize, Failed> {
        let count = room.len().min(self.left);
        self.left -= count;
        Ok(count)
    }

    fn create(&mut self, _name: &[u8]) -> Result<(), Failed> {
        self.writing = true;
        Ok(())
    }

    fn append(&mut self, piece: &[u8]) -> Result<usize, Failed> {
        Ok(piece.len())
    }
}

// How many bytes are read of a source that has so many.
fn read_length(alloc: Global, count: usize) -> Result<usize, ReadFault> {
    let mut store = Zeros {
        left: count,
        writing: false,
    };
    Ok(read_source(alloc, &mut store)?.len())
}

// What a sink holds, that takes at most `most` bytes at once and whose write `failing` fails.
#[test]
fn sink_rows(rt: HostRuntime) -> Result<(), Fail> {
    let rows = [
        (4, 100, 2, "Hello, World\n", false, "Hell"),
        (4, 100, 9, "Hello, World\n", true, "Hello, World\n"),
        (100, 5, 9, "Hello, World\n", false, "Hello"),
        (1, 3, 4, "abc", true, "abc"),
        (9, 9, 1, "abc", false, ""),
        (9, 9, 1, "", true, ""),
    ];
    for (most, room, failing, bytes, whole, held) in rows {
        let mut sink = sink_of(rt.alloc(), most, room, failing)?;
        assert_eq!(rt; sends(&mut sink, bytes.as_bytes()), whole, "{bytes}");
        assert_eq!(rt; sink.held(), held.as_bytes(), "{bytes}");
    }
    Ok(())
}

// How many of nine files are created: at most eight, and no room of a name comes back.
#[test]
fn store_creates(rt: HostRuntime) -> Result<(), Fail> {
    for (room, name, most) in [(100, "a", 8), (0, "", 8), (7, "ab", 3), (7, "too long", 0)] {
        let mut store = store_of(rt.alloc(), room)?;
        for nth in 0..9 {
            assert_eq!(rt; creates(&mut store, name.as_bytes()), nth < most, "{name}");
        }
    }
    Ok(())
}

// A file takes what there is room for beside its name.
#[test]
fn store_appends(rt: HostRuntime) -> Result<(), Fail> {
    let rows = [
        (7, ["x", "", "y"], [true, true, true], "xy"),
        (4, ["zw", "v", ""], [true, false, true], "zw"),
        (3, ["zw", "v", ""], [false, false, true], "z"),
    ];
    for (room, pieces, added, bytes) in rows {
        let mut store = store_of(rt.alloc(), room)?;
        assert_eq!(rt; makes(&mut store, b"ab", pieces), added, "{bytes}");
        assert_eq!(rt; bytes_of(&store, b"ab").ok_or("absent")?, bytes.as_bytes());
    }
    Ok(())
}

// What was put is found and read, the newer of two files under one name.
#[test]
fn store_files(rt: HostRuntime) -> Result<(), Fail> {
    let mut store = stocked(rt.alloc(), CallKind::Read, 9)?;
    for (name, there, bytes) in [
        ("in", true, "second"),
        ("empty", true, ""),
        ("no", false, ""),
    ] {
        assert_eq!(rt; opens(&mut store, name.as_bytes()), Ok(there), "{name}");
        let text = reads(rt.alloc(), &mut store, name.as_bytes())?;
        assert_eq!(rt; text.as_slice(), bytes.as_bytes());
    }
    Ok(())
}

// A call that is told to fail fails, and no other: two openings, reading to the end, and a file of
// three pieces.
#[test]
fn store_failures(rt: HostRuntime) -> Result<(), Fail> {
    let rows = [
        (CallKind::OpenFile, 1, [false, true], [true, true, true]),
        (CallKind::OpenFile, 2, [true, false], [true, true, true]),
        (CallKind::Read, 2, [true, false], [true, true, true]),
        (CallKind::Create, 1, [true, true], [false, false, false]),
        (CallKind::Append, 2, [true, true], [true, false, true]),
    ];
    for (kind, nth, [opened, read], added) in rows {
        let mut store = stocked(rt.alloc(), kind, nth)?;
        assert_eq!(rt; opens(&mut store, b"in").is_ok(), opened, "{kind:?}");
        assert_eq!(rt;
            reads(rt.alloc(), &mut store, b"in").is_ok(),
            read,
            "{kind:?}"
        );
        assert_eq!(rt;
            makes(&mut store, b"out", ["one", "two", "three"]),
            added,
            "{kind:?}"
        );
    }
    Ok(())
}

// A sink that never fails takes all, and a store that never fails has its file alone and takes what is written.
#[test]
fn honest_ones(rt: HostRuntime) -> Result<(), Fail> {
    assert!(rt; sends(&mut HonestSink::new(), b"Hello, World"));
    let mut store = HonestStore::new(b"in", b"its bytes");
    assert_eq!(rt; opens(&mut store, b"out"), Ok(false));
    for _ in 0..2 {
        let text = reads(rt.alloc(), &mut store, b"in")?;
        assert_eq!(rt; text.as_slice(), b"its bytes".as_slice());
    }
    assert_eq!(rt; makes(&mut store, b"out", ["a", "", "b"]), [true; 3]);
    let text = reads(rt.alloc(), &mut store, b"in")?;
    assert_eq!(rt; text.as_slice(), b"its bytes".as_slice());
    Ok(())
}

// A source of the greatest size is read whole, and one of a byte more is refused.
#[test]
fn source_sizes(rt: HostRuntime) {
    let too_large = Err(ReadFault::TooLarge);
    for (count, length) in [(MOST_SOURCE, Ok(MOST_SOURCE)), (MOST_SOURCE + 1, too_large)] {
        assert_eq!(rt; read_length(rt.alloc(), count), length);
    }
}

// A file of the system is made and read back.
#[test]
fn system_files(rt: HostRuntime) -> Result<(), Fail> {
    let mut store = DirStore::new(&rt);
    assert_eq!(rt;
        makes(&mut store, b"made.txt", ["Hello,\n", "", "World\n"]),
        [true; 3]
    );
    let text = reads(rt.alloc(), &mut store, b"made.txt")?;
    assert_eq!(rt; text.as_slice(), b"Hello,\nWorld\n".as_slice());
    assert!(rt; creates(&mut store, b"made.txt"));
    assert!(rt; reads(rt.alloc(), &mut store, b"made.txt")?.is_empty());
    fs::remove_file(&rt, "made.txt")?;
    Ok(())
}

// A file that isn't there isn't found, and a name that isn't UTF-8 is a fault.
#[test]
fn system_names(rt: HostRuntime) {
    let mut store = DirStore::new(&rt);
    assert_eq!(rt; opens(&mut store, b"no_such_file.txt"), Ok(false));
    assert_eq!(rt; opens(&mut store, b"\xff.txt"), Err(Failed));
    assert!(rt; !creates(&mut store, b"\xff.txt"));
}

// What a sink over a file of the system is sent stands in the file, in its order.
#[test]
fn system_writer(rt: HostRuntime) -> Result<(), Fail> {
    let mut sink = OutSink::new(fs::create(&rt, "sent.txt")?);
    for piece in ["Hello, ", "", "World\n"] {
        assert!(rt; sends(&mut sink, piece.as_bytes()), "{piece}");
    }
    let text = reads(rt.alloc(), &mut DirStore::new(&rt), b"sent.txt")?;
    assert_eq!(rt; text.as_slice(), b"Hello, World\n".as_slice());
    fs::remove_file(&rt, "sent.txt")?;
    Ok(())
}
