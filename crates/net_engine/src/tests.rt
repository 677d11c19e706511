ghost use Rattle.std.specs.Prelude.{◌≡◌, ◌<◌, true, false, length, replicate, IfOk};
ghost use Rattle.sym_link.specs.Sound.{IsProgram};
ghost use Rattle.sym_link.specs.Roots.{nodes_of, kind_of};
ghost use Rattle.net_engine.specs.Parts.{HasBits, IsGateKind};

use crate::build::{design_of, store_of};
use crate::deliver::follow;
use crate::design::Design;
use crate::outputs::{bits_output, is_told_by_bits};
use crate::readers::reader_list;
use crate::slot::Slot;
use crate::store::Change;
use event_pool::{Act, Agenda};
use four_state::Vec4;
use port_chain::ChainFanout;
use std::alloc::{AllocError, Global};
use std::process::Abort;
use std::test::Fail;
use strengths::{drive, seen};
use sym_link::{ItemKind, Program, link, read_statements};
use time_wheel::Wheel;
use vvp_lex::statements;
use vvp_threads::Threads;

// What drives four places and what is forced on them, as the two planes of each, a release, and what is shown after it and
// what drives then.
#[derive(Clone, Copy)]
struct Row {
    driven: (u128, u128),
    forced: (u128, u128),
    base: u8,
    width: u8,
    keep: bool,
    shown: (u128, u128),
    kept: (u128, u128),
}

fn make_row(
    driven: (u128, u128),
    forced: (u128, u128),
    release: (u8, u8, bool),
    shown: (u128, u128),
    kept: (u128, u128),
) -> Row {
    Row {
        driven,
        forced,
        base: release.0,
        width: release.1,
        keep: release.2,
        shown,
        kept,
    }
}

// Forces four places and releases some. Whether they show and are driven with what the row says.
fn holds(rt: &impl Abort, alloc: Global, row: &Row) -> Result<bool, AllocError> {
    let bits = Vec4::from_planes(row.driven.0, row.driven.1, 4);
    let mut slot = Slot::new(alloc, drive(bits, 6, 6))?;
    let forced = Vec4::from_planes(row.forced.0, row.forced.1, 4);
    assert_eq!(rt; forced.width(), bits.width());
    let all = seen(slot.force(bits, drive(forced, 6, 6))).planes() == row.forced;
    let shown = seen(slot.release(forced, row.base, row.width, row.keep));
    let kept = slot.driven_bits(shown).planes() == row.kept;
    Ok(all && shown.planes() == row.shown && kept)
}

// 10xz is (0b1010, 0b0011) in planes, 0110 is (0b0110, 0).
#[test]
fn forces_and_releases(rt: HostRuntime) -> Result<(), Fail> {
    let driven = (0b1010, 0b0011);
    let forced = (0b0110, 0);
    let rows = [
        make_row(driven, forced, (0, 0, false), forced, driven),
        make_row(driven, forced, (0, 4, false), driven, driven),
        make_row(driven, forced, (0, 4, true), forced, forced),
        make_row(driven, forced, (0, 2, false), (0b0110, 0b0011), driven),
        make_row(driven, forced, (0, 2, true), forced, (0b1010, 0)),
        make_row(driven, forced, (3, 1, false), (0b1110, 0), driven),
        make_row(driven, forced, (1, 2, true), forced, (0b1110, 0b0001)),
    ];
    for row in &rows {
        assert!(rt; holds(&rt, rt.alloc(), row)?);
    }
    Ok(())
}

// Inputs of gates, of a resolver, of events with an edge, and of a net delay, and two gates that pass constants. The items are
// numbered from 0.
#[rattlefmt::skip]
const DESIGN: &[u8] = b"S_1 .scope module, \"m\" \"m\" 1 1;
v_0 .var \"v\", 3 0;
v_1 .var \"w\", 3 0;
n_0 .net \"n\", 3 0, v_0;
L_1 .functor AND 4, v_0, v_1, n_0;
E_1 .event posedge, v_1, v_0;
r_0 .resolv tri, v_0, v_1, L_1;
E_2 .event negedge, v_0;
d_0 .delay 4 (1, 2, 3) n_0;
L_2 .functor OR 4, v_1, L_1;
E_3 .event/or E_1, E_2;
E_4 .event edge, v_0, n_0;
L_3 .functor NOT 4, v_0;
L_4 .functor XOR 4, v_0, v_0, v_0, v_0;
L_5 .functor BUFZ 4, v_1;
L_6 .part C4<10xz>, 1, 2;
L_7 .concat [4 4 0 0], v_1, C4<10xz>;
";

const EITHER_EVENT: u32 = 10;

const RUN: u32 = 100;

const OTHER: u32 = 101;

// An item, the planes of its bits before and after, the evaluations and runs that follow, in order, and how many they are.
const CHANGES: [(u32, (u128, u128), (u128, u128), [u32; 6], usize); 4] = [
    (1, (0b1111, 0b1111), (0b0001, 0), [4, RUN, 6, 8, 12, 13], 6),
    (1, (0b0001, 0), (0b0000, 0), [4, 6, RUN, 8, 12, 13], 6),
    (1, (0b0001, 0), (0b0011, 0), [4, 6, 8, 12, 13, 0], 5),
    (2, (0b1111, 0b1111), (0b0000, 0), [4, 6, 9, 14, 16, 0], 5),
];

// The program of a small file.
fn linked(alloc: Global, src: &[u8]) -> Result<Program, Fail>
    ensures { IfOk result IsProgram }
{
    if 5000 < src.len() {
        return Err(Fail::from(AllocError));
    }
    let found = statements(alloc, src)?;
    let placed = read_statements(alloc, src, &found)?;
    match link(alloc, src, placed) {
        Ok(program) => Ok(program),
        Err(_fault) => Err(Fail::from(AllocError)),
    }
}

// The design of a program, its inputs in chains.
fn chained(alloc: Global, program: &Program) -> Result<Design<ChainFanout>, AllocError>
    requires { IsProgram program.now }
    ensures { IfOk result (λ design. design ≡ nodes_of program.now) }
{
    let readers = reader_list(alloc, program)?;
    let count = program.items.as_slice().len() as u32;
    let fan = ChainFanout::build(alloc, count, readers.as_slice())?;
    design_of(alloc, program, fan)
}

// One thread, which waits for an event, one of so many.
fn one_waits(alloc: Global, events: u32, event: u32) -> Result<Threads, AllocError>
    requires { event < events }
    ensures { IfOk result (λ threads. (length threads.table.threads ≡ 1) × (length threads.table.waiting ≡ events)) }
{
    let mut threads = Threads::new(alloc, events)?;
    let key = threads.spawn(None, 0, 0)?;
    threads.wait_on(key, event);
    Ok(threads)
}

// So many items, none of which is to be evaluated.
fn no_marks(alloc: Global, count: usize) -> Result<Vec<bool>, AllocError>
    ensures { IfOk result (λ marks. marks.items ≡ replicate count false) }
{
    vec![in alloc; false; count]
}

// The number of what is due: that of the item that is evaluated, or RUN.
fn number(act: Act) -> u32 {
    match act {
        Act::Eval(item) => item,
        Act::Run { .. } => RUN,
        _ => OTHER,
    }
}

// What follows from a change of an item, in order.
fn followed(
    alloc: Global,
    program: &Program,
    item: u32,
    change: Change,
) -> Result<Vec<u32>, AllocError>
    requires program { IsProgram program.now }
    requires item { item < length program.now.items }
    requires event { 10 < length program.now.items }
    requires bits { HasBits change }
{
    let count = program.items.as_slice().len();
    let design = chained(alloc, program)?;
    let mut marks = no_marks(alloc, count)?;
    let mut threads = one_waits(alloc, count as u32, EITHER_EVENT)?;
    let mut agenda = Wheel::new(alloc)?;
    agenda.reserve(count + 1)?;
    follow(
        &design,
        marks.as_mut_slice(),
        item,
        true,
        &change,
        &mut agenda,
        &mut threads,
    );
    let dues = agenda.dues(alloc)?;
    let mut numbers = Vec::new(alloc);
    for due in dues.as_slice() {
        numbers.push(number(due.act))?;
    }
    Ok(numbers)
}

#[test]
fn reaches_inputs_in_order(rt: HostRuntime) -> Result<(), Fail> {
    let program = linked(rt.alloc(), DESIGN)?;
    assert_eq!(rt; program.items.as_slice().len(), 17);
    for (item, old, new, numbers, count) in CHANGES {
        let change = Change {
            old: Vec4::from_planes(old.0, old.1, 4),
            new: Vec4::from_planes(new.0, new.1, 4),
        };
        assert!(rt; item < 17);
        assert_eq!(rt; change.old.width(), change.new.width());
        let found = followed(rt.alloc(), &program, item, change)?;
        assert_eq!(rt; found.as_slice(), &numbers[..count]);
    }
    Ok(())
}

// A gate, and the planes that it drives before anything has happened: a table's x, a part, and a concatenation. The first is
// told by the bits at its ports, and so are the others, which pass what a constant or the plane alone has. A net delay isn't.
const TOLD: [(u32, Option<(u128, u128)>); 4] = [
    (9, Some((0b1111, 0b1111))),
    (15, Some((0b01, 0b01))),
    (16, Some((0b1010_1111, 0b0011_1111))),
    (8, None),
];

// Whether an item is a gate.
fn is_gate(design: &Design<ChainFanout>, item: u32) -> bool
    requires { item < length design.now }
    ensures { result ≡ true → IsGateKind (kind_of design.now item) }
{
    match design.kind(item) {
        ItemKind::Functor { .. } => true,
        _ => false,
    }
}

// The planes that a gate drives before anything has happened, if the bits at its ports tell it.
fn told(alloc: Global, program: &Program, item: u32) -> Result<Option<(u128, u128)>, AllocError>
    requires program { IsProgram program.now }
    requires item { item < length program.now.items }
{
    let design = chained(alloc, program)?;
    let store = store_of(alloc, program)?;
    if !is_gate(&design, item) {
        return Ok(None);
    }
    if !is_told_by_bits(&design, &store, item) {
        return Ok(None);
    }
    let mut ports = [None, None, None, None];
    let bits = bits_output(&design, &store, item, &mut ports);
    Ok(Some(bits.planes()))
}

#[test]
fn passes_strong_bits(rt: HostRuntime) -> Result<(), Fail> {
    let program = linked(rt.alloc(), DESIGN)?;
    assert_eq!(rt; program.items.as_slice().len(), 17);
    for (item, planes) in TOLD {
        assert!(rt; item < 17);
        assert!(rt; told(rt.alloc(), &program, item)? == planes);
    }
    Ok(())
}
