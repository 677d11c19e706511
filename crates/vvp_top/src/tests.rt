//! The top call over memory.

mod rows;

use crate::verdict::program_of;
use crate::{own_trace, plain_names, vvp_main};
use rows::{PARTS, Row, part};
use sim_core::Ending;
use std::alloc::{AllocError, Global};
use std::process::Abort;
use std::test::Fail;
use vcd_read::Trace;
use vvp_edge::{CallKind, Failed, HonestSink, HonestStore, MemSink, MemStore, Sink, Store};

// The call, without its contract, which would stand in each goal after it.
fn call<S: Store, K: Sink, M: Sink>(
    alloc: Global,
    words: &[String],
    store: &mut S,
    out: &mut K,
    errs: &mut M,
) -> u8 {
    vvp_main(alloc, words, store, out, errs)
}

// A text with its marks for line feeds replaced.
fn text_of(alloc: Global, marked: &[u8]) -> Result<Vec<u8>, AllocError> {
    let mut text = Vec::new(alloc);
    for byte in marked {
        match *byte {
            b'~' => text.push(b'\n')?,
            b'^' => {
                for _ in 0..200u32 {
                    text.push(b'\n')?;
                }
            }
            other => text.push(other)?,
        }
    }
    Ok(text)
}

fn words_of(alloc: Global, words: &[&str]) -> Result<Vec<String>, AllocError> {
    let mut owned = Vec::new(alloc);
    for word in words {
        owned.push(word.to_string(alloc)?)?;
    }
    Ok(owned)
}

// What a call works on: a store and two sinks.
#[derive(Drop)]
struct Desk<K: Sink + Drop> {
    store: MemStore,
    out: K,
    errs: MemSink,
}

// A store in which `a` has these bytes.
fn store_of(alloc: Global, source: &[u8]) -> Result<MemStore, AllocError> {
    let mut store = MemStore::new(alloc, 10_000)?;
    store.put_file(b"a", source)?;
    Ok(store)
}

fn sink(alloc: Global) -> Result<MemSink, AllocError> {
    MemSink::new(alloc, 1000, 200_000)
}

// A sink that takes so many bytes at once, at most, and fails at this write.
fn failing_sink(alloc: Global, most: usize, nth: u64) -> Result<MemSink, AllocError> {
    let mut sink = MemSink::new(alloc, most.max(1), 200_000)?;
    sink.fail_at(nth)?;
    Ok(sink)
}

// A desk with these bytes in `a`.
fn desk_of<K: Sink + Drop>(alloc: Global, source: &[u8], out: K) -> Result<Desk<K>, AllocError> {
    let store = store_of(alloc, source)?;
    let errs = sink(alloc)?;
    Ok(Desk { store, out, errs })
}

// The status of a call on the words.
fn run<K: Sink + Drop>(
    alloc: Global,
    desk: &mut Desk<K>,
    words: &[&str],
) -> Result<u8, AllocError> {
    let words = words_of(alloc, words)?;
    Ok(call(
        alloc,
        &words,
        &mut desk.store,
        &mut desk.out,
        &mut desk.errs,
    ))
}

// Whether a desk's sinks hold what a row says.
fn holds(alloc: Global, desk: &Desk<MemSink>, row: &Row) -> Result<bool, AllocError> {
    let out = text_of(alloc, row.out)?;
    let errs = match row.errs {
        None => return Ok(desk.out.held() == out.as_slice()),
        Some(lines) => text_of(alloc, lines)?,
    };
    Ok(desk.out.held() == out.as_slice() && desk.errs.held() == errs.as_slice())
}

// Whether a row gives what it says.
fn is_so(alloc: Global, row: &Row) -> Result<bool, AllocError> {
    let source = text_of(alloc, row.source)?;
    let mut desk = desk_of(alloc, &source, sink(alloc)?)?;
    let status = run(alloc, &mut desk, row.words)?;
    Ok(status == row.status && holds(alloc, &desk, row)?)
}

fn check_part(rt: &impl Abort, alloc: Global, rows: &[Row]) -> Result<(), Fail> {
    for row in rows {
        let name = row.name;
        assert!(rt; is_so(alloc, row)?, "{name}");
    }
    Ok(())
}

#[test]
fn table(rt: HostRuntime) -> Result<(), Fail> {
    for index in 0..PARTS {
        check_part(&rt, rt.alloc(), part(index))?;
    }
    Ok(())
}

// A design that dumps two variables, before and after its call of `$dumpfile`.
const DUMPING: [&[u8]; 2] = [
    b":vpi_time_precision - 9;~S_1 .scope module, \"tb\" \"tb\" 1 1;~a_0 .var \"a\", 0 0;~v_0 .var \"v\", 3 0;~T_0 ;~ %vpi_call 1 1 \"$dumpfile\", \"",
    b"\" {0 0 0};~ %vpi_call 1 1 \"$dumpvars\" {0 0 0};~ %pushi/vec4 0, 0, 1;~ %store/vec4 a_0, 0, 1;~ %pushi/vec4 7, 6, 4;~ %store/vec4 v_0, 0, 4;~ %delay 1, 0;~ %pushi/vec4 1, 0, 1;~ %store/vec4 a_0, 0, 1;~ %pushi/vec4 0, 0, 1;~ %store/vec4 a_0, 0, 1;~ %pushi/vec4 13, 12, 4;~ %store/vec4 v_0, 0, 4;~ %delay 1, 0;~ %pushi/vec4 0, 0, 4;~ %store/vec4 v_0, 0, 4;~ %end;~ .thread T_0;~",
];

const DUMP: &[u8] =
    b"$version vvp profile P1 $end~$timescale 1ns $end~$scope module tb $end~$var reg 1 ! a $end~$var reg 4 \" v [3:0] $end~$upscope $end~$enddefinitions $end~#0~$dumpvars~0!~b0xx1 \"~$end~#1~bx01 \"~#2~b0 \"~";

// The dumping design, whose dump has this name.
fn dumping(alloc: Global, name: &[u8]) -> Result<Vec<u8>, AllocError> {
    let mut source = text_of(alloc, DUMPING[0])?;
    source.extend_from_slice(name)?;
    source.extend_from_slice(&text_of(alloc, DUMPING[1])?)?;
    Ok(source)
}

// Whether a file is these bytes, or isn't there.
fn is_file(alloc: Global, file: Option<&[u8]>, marked: Option<&[u8]>) -> Result<bool, AllocError> {
    match (file, marked) {
        (None, None) => Ok(true),
        (Some(bytes), Some(marked)) => Ok(bytes == text_of(alloc, marked)?.as_slice()),
        _ => Ok(false),
    }
}

// Whether the dumping design has this status, where the first call of a kind fails, and its dump is this then.
fn dumps(
    alloc: Global,
    failing: Option<CallKind>,
    name: &[u8],
    status: u8,
    dump: Option<&[u8]>,
) -> Result<bool, AllocError> {
    let source = dumping(alloc, name)?;
    let mut desk = desk_of(alloc, &source, sink(alloc)?)?;
    if let Some(kind) = failing {
        desk.store.fail_at(kind, 1)?;
    }
    let answered = run(alloc, &mut desk, &["a"])?;
    Ok(answered == status && is_file(alloc, desk.store.file(name), dump)?)
}

#[test]
fn dump_file(rt: HostRuntime) -> Result<(), Fail> {
    assert!(rt; dumps(rt.alloc(), None, b"d", 0, Some(DUMP))?);
    assert!(rt; dumps(rt.alloc(), None, b"a", 0, Some(DUMP))?);
    assert!(rt; dumps(rt.alloc(), Some(CallKind::Create), b"d", 5, None)?);
    assert!(rt; dumps(rt.alloc(), Some(CallKind::Append), b"d", 5, Some(b""))?);
    assert!(rt; dumps(rt.alloc(), Some(CallKind::OpenFile), b"d", 5, None)?);
    assert!(rt; dumps(rt.alloc(), Some(CallKind::Read), b"d", 5, None)?);
    Ok(())
}

// How many variables and values a dump has, if there is one, and whether its run ended by itself.
fn counts_of(trace: &Option<Trace>, ending: Option<Ending>) -> Option<(usize, usize, bool)> {
    let idle = matches!(ending, Some(Ending::Idle));
    match trace {
        None => None,
        Some(trace) => Some((trace.vars.as_slice().len(), trace.changes.len(), idle)),
    }
}

// The same of the dump of the dumping design's run.
fn traced(alloc: Global, budget: u32) -> Result<Option<(usize, usize, bool)>, AllocError> {
    let source = dumping(alloc, b"d")?;
    let program = match program_of(alloc, &source) {
        Err(_) => return Ok(None),
        Ok(program) => program,
    };
    if !plain_names(&program) {
        return Ok(None);
    }
    match own_trace(alloc, program, budget, 0) {
        Err(_) => Ok(None),
        Ok((trace, ending)) => Ok(counts_of(&trace, ending)),
    }
}

#[test]
fn trace_of_a_run(rt: HostRuntime) -> Result<(), Fail> {
    assert_eq!(rt; traced(rt.alloc(), 100)?, Some((2, 4, true)));
    assert_eq!(rt; traced(rt.alloc(), 12)?, Some((2, 2, false)));
    assert_eq!(rt; traced(rt.alloc(), 1)?, None);
    Ok(())
}

// A sink that takes whole pieces and notes the lengths of the first ones.
#[derive(Drop)]
struct Noting {
    lengths: [usize; 8],
    count: usize,
}

impl Sink for Noting {
    ghost use Rattle.std.specs.Prelude.{None};

    ghost held = { λ _. None };

    ghost faults = { λ _. 0 };

    fn write(&mut self, piece: &[u8]) -> Result<usize, Failed> {
        if self.count < 8 {
            self.lengths[self.count] = piece.len();
            self.count += 1;
        }
        Ok(piece.len())
    }
}

// A design that prints 100 bytes at every second step.
fn printing(alloc: Global) -> Result<Vec<u8>, AllocError> {
    let mut source = text_of(
        alloc,
        b"S_1 .scope module, \"m\" \"m\" 1 1;~T_0 ;~ %vpi_call 1 1 \"$display\", \"",
    )?;
    for _ in 0..99u32 {
        source.push(b'a')?;
    }
    source.extend_from_slice(&text_of(alloc, b"\" {0 0 0};~ %jmp T_0;~ .thread T_0;~")?)?;
    Ok(source)
}

const SHORT: [&str; 3] = ["--events", "2001", "a"];

// The status of the printing design after 2,001 steps, and the lengths of the first pieces that it is put out in.
fn noted(alloc: Global) -> Result<(u8, [usize; 8]), AllocError> {
    let source = printing(alloc)?;
    let out = Noting {
        lengths: [0; 8],
        count: 0,
    };
    let mut desk = desk_of(alloc, &source, out)?;
    let status = run(alloc, &mut desk, &SHORT)?;
    Ok((status, desk.out.lengths))
}

#[test]
fn pieces(rt: HostRuntime) -> Result<(), Fail> {
    let (status, lengths) = noted(rt.alloc())?;
    assert_eq!(rt; status, 3);
    assert_eq!(rt; lengths, [65_536, 64, 34_400, 0, 0, 0, 0, 0]);
    Ok(())
}

const HELLO: &[u8] =
    b"S_1 .scope module, \"m\" \"m\" 1 1;~T_0 ;~ %vpi_call 1 1 \"$display\", \"Hello\" {0 0 0};~ %end;~ .thread T_0;~";

// Whether the status is 6 where this output fails, which then holds so many bytes, of which these are the first.
fn cut_off(
    alloc: Global,
    out: MemSink,
    source: &[u8],
    words: &[&str],
    count: usize,
    front: &[u8],
) -> Result<bool, AllocError> {
    let mut desk = desk_of(alloc, source, out)?;
    let status = run(alloc, &mut desk, words)?;
    let held = desk.out.held();
    Ok(status == 6 && held.len() == count && held.starts_with(front))
}

#[test]
fn failing_output(rt: HostRuntime) -> Result<(), Fail> {
    let alloc = rt.alloc();
    let hello = text_of(alloc, HELLO)?;
    let first = failing_sink(alloc, 4, 1)?;
    assert!(rt; cut_off(alloc, first, &hello, &["a"], 0, b"")?);
    let second = failing_sink(alloc, 4, 2)?;
    assert!(rt; cut_off(alloc, second, &hello, &["a"], 4, b"Hell")?);
    let large = failing_sink(alloc, 100_000, 2)?;
    assert!(rt; cut_off(alloc, large, &printing(alloc)?, &SHORT, 65_536, b"aaaa")?);
    Ok(())
}

// Whether no words are refused where the first write of errs fails, which then holds nothing.
fn errs_fail(alloc: Global) -> Result<bool, AllocError> {
    let mut desk = desk_of(alloc, b"", sink(alloc)?)?;
    desk.errs.fail_at(1)?;
    let status = run(alloc, &mut desk, &[])?;
    Ok(status == 1 && desk.errs.held().is_empty())
}

#[test]
fn failing_errs(rt: HostRuntime) -> Result<(), Fail> {
    assert!(rt; errs_fail(rt.alloc())?);
    Ok(())
}

// The status of a file, on objects that never fail.
fn honest_status(alloc: Global, source: &[u8]) -> Result<u8, AllocError> {
    let words = words_of(alloc, &["a"])?;
    let mut store = HonestStore::new(b"a", source);
    let mut out = HonestSink::new();
    let mut errs = HonestSink::new();
    Ok(call(alloc, &words, &mut store, &mut out, &mut errs))
}

#[test]
fn honest_objects(rt: HostRuntime) -> Result<(), Fail> {
    let source = dumping(rt.alloc(), b"d")?;
    assert_eq!(rt; honest_status(rt.alloc(), &source)?, 0);
    Ok(())
}

// The status for a file of so many spaces.
fn spaces(alloc: Global, count: usize) -> Result<u8, AllocError> {
    let blank = vec![in alloc; b' '; count]?;
    let mut desk = desk_of(alloc, &blank, sink(alloc)?)?;
    run(alloc, &mut desk, &["a"])
}

#[test]
fn size_limit(rt: HostRuntime) -> Result<(), Fail> {
    assert_eq!(rt; spaces(rt.alloc(), 67_108_864)?, 0);
    assert_eq!(rt; spaces(rt.alloc(), 67_108_865)?, 2);
    Ok(())
}
