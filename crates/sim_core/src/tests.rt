//! Small designs, run over the wheel and the chains.

ghost use Rattle.std.specs.Prelude.{◌≡◌, ◌<◌, ℕ, None, length, IfOk};
ghost use Rattle.sym_link.specs.Roots.{nodes_of};
ghost use Rattle.sym_link.specs.Sound.{IsProgram};
ghost use Rattle.port_chain.specs.Pairs.{pairs_of};
ghost use Rattle.net_engine.specs.Readers.{driven_ports};

use crate::{Engine, run, state_orders};
use event_pool::{Act, Due, Region};
use net_engine::reader_list;
use port_chain::ChainFanout;
use std::alloc::{AllocError, Global};
use std::test::Fail;
use sym_link::{Program, link, read_statements};
use time_wheel::Wheel;
use vvp_lex::statements;

// The program of a small file.
fn linked(alloc: Global, src: &[u8]) -> Result<Program, Fail>
    ensures { IfOk result IsProgram }
{
    if 5000 < src.len() {
        return Err(Fail::from(AllocError));
    }
    let found = statements(alloc, src)?;
    let placed = read_statements(alloc, src, &found)?;
    match link(alloc, src, placed) {
        Ok(program) => Ok(program),
        Err(_fault) => Err(Fail::from(AllocError)),
    }
}

// The readers of a program's items, in chains.
fn chained(alloc: Global, program: &Program) -> Result<ChainFanout, AllocError>
    requires { IsProgram program.now }
    ensures nodes { IfOk result (λ fan. length fan ≡ length program.now.items) }
    ensures pairs { IfOk result (λ fan. (item : ℕ) → item < length program.now.items → pairs_of fan item ≡ driven_ports (nodes_of program.now) item) }
{
    let readers = reader_list(alloc, program)?;
    let count = program.items.as_slice().len() as u32;
    ChainFanout::build(alloc, count, readers.as_slice())
}

// A run of a file that starts.
fn loaded(alloc: Global, src: &[u8], order: u32) -> Result<Engine<Wheel, ChainFanout>, Fail>
    ensures ending { IfOk result (λ engine. engine.machine.ending ≡ None) }
    ensures steps { IfOk result (λ engine. engine.machine.steps ≡ 0) }
{
    let wheel = Wheel::new(alloc)?;
    let program = linked(alloc, src)?;
    let fan = chained(alloc, &program)?;
    Ok(Engine::load(alloc, program, wheel, fan, order)?)
}

// Runs a file for at most 100 steps, the first of them by itself and a thread's own after it in a row. False where the first ends
// the run.
fn goes_on(engine: &mut Engine<Wheel, ChainFanout>) -> Result<bool, AllocError>
    requires ending { engine.old.machine.ending ≡ None }
    requires steps { engine.old.machine.steps ≡ 0 }
{
    if engine.step()?.is_some() {
        return Ok(false);
    }
    let done = engine.run_on(99);
    let _ending = run(engine, u64::from(99 - done))?;
    Ok(true)
}

// Whether a run did so many steps, is at this time, had at most so many dues pending, and printed this.
fn tells(engine: &Engine<Wheel, ChainFanout>, row: &Row) -> bool {
    engine.steps() == row.steps
        && engine.now() == row.now
        && engine.peak() == row.peak
        && engine.out() == row.out
        && !engine.idle()
}

// Takes away what was printed and dumped. Whether nothing of it is left, and nothing was dumped.
fn hands_over(engine: &mut Engine<Wheel, ChainFanout>) -> bool {
    engine.clear_out();
    engine.clear_dump();
    engine.out().is_empty() && engine.dump().is_empty() && engine.dump_name().is_none()
}

// Whether a file runs as its row says.
fn runs(alloc: Global, row: &Row) -> Result<bool, Fail> {
    let mut engine = loaded(alloc, row.src, row.order)?;
    Ok(goes_on(&mut engine)? && tells(&engine, row) && hands_over(&mut engine))
}

// The law of orders.
fn orders() {
    state_orders();
}

// Whether a run that starts is shown without dues, as a file without threads and gates has none.
fn shows_nothing(engine: &Engine<Wheel, ChainFanout>, alloc: Global) -> Result<bool, AllocError> {
    let shown = engine.snapshot(alloc)?;
    Ok(shown.dues.is_empty() && shown.threads.as_slice().is_empty() && shown.serials == 0)
}

// Whether these are the serials 0 and 1.
fn are_first_two(serials: &[u64]) -> bool {
    serials.len() == 2 && serials[0] == 0 && serials[1] == 1
}

// Whether this is the one due of the third thread at time 1.
fn is_third_run(dues: &[Due]) -> bool {
    dues.len() == 1
        && dues[0]
            == Due {
                time: 1,
                region: Region::Active,
                act: Act::Run { serial: 2, key: 0 },
            }
}

// Whether seven steps of the run with waiting threads are shown: two threads wait for the third item, and the third is delayed.
fn shows_waiters(engine: &Engine<Wheel, ChainFanout>, alloc: Global) -> Result<bool, AllocError> {
    let shown = engine.snapshot(alloc)?;
    let waiting = shown.waiting.as_slice();
    Ok(
        shown.steps == 7
            && shown.threads.as_slice().len() == 3
            && is_third_run(shown.dues.as_slice())
            && waiting.len() == 4
            && are_first_two(waiting[3].as_slice()),
    )
}

// Whether the snapshots of two runs show what they hold.
fn shows(alloc: Global) -> Result<bool, Fail> {
    let empty = loaded(alloc, b"", 0)?;
    if !shows_nothing(&empty, alloc)? {
        return Ok(false);
    }
    let mut engine = loaded(alloc, WAITERS, 0)?;
    let _ending = run(&mut engine, 7)?;
    Ok(shows_waiters(&engine, alloc)?)
}

struct Row {
    src: &'static [u8],
    order: u32,
    steps: u64,
    now: u64,
    peak: u64,
    out: &'static [u8],
}

#[rattlefmt::skip]
const DELAYED: &[u8] = b"S_1 .scope module, \"m\" \"m\" 1 1;
v_0 .var \"v\", 0 0;
d_0 .delay 1 (3, 5, 2) v_0;
n_0 .net \"n\", 0 0, d_0;
T_0 ;
 %vpi_call 1 1 \"$monitor\", \"%0t %b\", $time, n_0 {0 0 0};
 %pushi/vec4 1, 0, 1;
 %store/vec4 v_0, 0, 1;
 %delay 10, 0;
 %pushi/vec4 0, 0, 1;
 %store/vec4 v_0, 0, 1;
 %delay 2, 0;
 %pushi/vec4 1, 0, 1;
 %store/vec4 v_0, 0, 1;
 %delay 1, 0;
 %pushi/vec4 0, 0, 1;
 %store/vec4 v_0, 0, 1;
 %delay 20, 0;
 %end;
 .thread T_0;
";

#[rattlefmt::skip]
const RING: &[u8] = b"S_1 .scope module, \"m\" \"m\" 1 1;
v_0 .var \"en\", 0 0;
L_1 .functor NAND 1, v_0, L_2;
L_2 .functor BUF 1, L_1;
T_0 ;
 %pushi/vec4 0, 0, 1;
 %store/vec4 v_0, 0, 1;
 %delay 1, 0;
 %pushi/vec4 1, 0, 1;
 %store/vec4 v_0, 0, 1;
 %vpi_call 1 1 \"$display\", \"on\" {0 0 0};
 %delay 1, 0;
 %vpi_call 1 1 \"$display\", \"off\" {0 0 0};
 %end;
 .thread T_0;
";

#[rattlefmt::skip]
const SWAPPED: &[u8] = b"S_1 .scope module, \"m\" \"m\" 1 1;
v_0 .var \"v\", 1 0;
v_1 .var \"w\", 1 0;
T_0 ;
 %pushi/vec4 1, 0, 2;
 %store/vec4 v_0, 0, 2;
 %pushi/vec4 2, 0, 2;
 %store/vec4 v_1, 0, 2;
 %load/vec4 v_0;
 %assign/vec4 v_1, 0;
 %load/vec4 v_1;
 %assign/vec4 v_0, 0;
 %delay 1, 0;
 %vpi_call 1 1 \"$display\", \"%0d %0d\", v_0, v_1 {0 0 0};
 %end;
 .thread T_0;
";

#[rattlefmt::skip]
const RACED: &[u8] = b"S_1 .scope module, \"m\" \"m\" 1 1;
v_0 .var \"v\", 1 0;
T_0 ;
 %pushi/vec4 1, 0, 2;
 %store/vec4 v_0, 0, 2;
 %end;
 .thread T_0;
T_1 ;
 %pushi/vec4 2, 0, 2;
 %store/vec4 v_0, 0, 2;
 %end;
 .thread T_1;
T_2 ;
 %delay 1, 0;
 %vpi_call 1 1 \"$display\", \"%0d\", v_0 {0 0 0};
 %vpi_call 1 1 \"$finish\" {0 0 0};
 %end;
 .thread T_2;
";

#[rattlefmt::skip]
const FAMILY: &[u8] = b"S_1 .scope module, \"m\" \"m\" 1 1;
S_2 .scope fork, \"c\" \"c\" 1 1, 1 1 1, S_1;
S_3 .scope fork, \"d\" \"d\" 1 1, 1 1 1, S_1;
S_4 .scope fork, \"e\" \"e\" 1 1, 1 1 1, S_1;
 .scope S_1;
T_0 ;
 %fork T_1, S_2;
 %fork T_2, S_3;
 %fork T_3, S_4;
 %join;
 %join;
 %join;
 %vpi_call 1 1 \"$display\", \"joined %0t\", $time {0 0 0};
 %end;
 .thread T_0;
 .scope S_2;
T_1 %delay 2, 0;
 %vpi_call 1 1 \"$display\", \"one\" {0 0 0};
 %end;
 .scope S_3;
T_2 %delay 100, 0;
 %vpi_call 1 1 \"$display\", \"two\" {0 0 0};
 %end;
 .scope S_4;
T_3 %delay 1, 0;
 %disable S_3;
 %vpi_call 1 1 \"$display\", \"three\" {0 0 0};
 %end;
";

#[rattlefmt::skip]
const WAITERS: &[u8] = b"S_1 .scope module, \"m\" \"m\" 1 1;
v_0 .var \"v\", 0 0;
L_1 .functor AND 1, v_0, v_0;
E_1 .event edge, v_0;
T_0 %wait E_1;
 %end;
 .thread T_0;
T_1 %wait E_1;
 %end;
 .thread T_1;
T_2 %delay 1, 0;
 %pushi/vec4 1, 0, 1;
 %store/vec4 v_0, 0, 1;
 %end;
 .thread T_2;
";

#[rattlefmt::skip]
const TRAPPED: &[u8] = b"S_1 .scope module, \"m\" \"m\" 1 1;
T_0 ;
 %pushi/vec4 1, 0, 3;
 %pushi/vec4 1, 0, 4;
 %add;
 %end;
 .thread T_0;
";

#[rattlefmt::skip]
const ROWS: [Row; 7] = [
    Row { src: DELAYED, order: 0, steps: 27, now: 33, peak: 3, out: b"0 x\n3 1\n18 0\n" },
    Row { src: RING, order: 0, steps: 100, now: 1, peak: 3, out: b"on\n" },
    Row { src: SWAPPED, order: 0, steps: 15, now: 1, peak: 3, out: b"2 1\n" },
    Row { src: RACED, order: 0, steps: 13, now: 1, peak: 3, out: b"2\n" },
    Row { src: RACED, order: 7, steps: 13, now: 1, peak: 3, out: b"1\n" },
    Row { src: FAMILY, order: 0, steps: 25, now: 100, peak: 3, out: b"three\none\njoined 2\n" },
    Row { src: TRAPPED, order: 0, steps: 4, now: 0, peak: 1, out: b"" },
];

#[test]
fn designs(rt: HostRuntime) -> Result<(), Fail> {
    orders();
    for row in &ROWS {
        assert!(rt; runs(rt.alloc(), row)?);
    }
    Ok(())
}

#[test]
fn snapshots(rt: HostRuntime) -> Result<(), Fail> {
    assert!(rt; shows(rt.alloc())?);
    Ok(())
}
