//! A small file for each link rule, some files that break none, and a small program.

use crate::{ItemKind, LinkFault, LinkKind, NONE, Program, Source, link, read_statements};
use std::alloc::AllocError;
use std::test::Fail;
use vvp_lex::statements;
use vvp_ops::Op;

/// Why a file is refused, or its program.
fn linked(rt: &HostRuntime, src: &[u8]) -> Result<Result<Program, LinkFault>, Fail> {
    if 5000 < src.len() {
        return Ok(Err(LinkFault::Memory));
    }
    let found = statements(rt.alloc(), src)?;
    let placed = read_statements(rt.alloc(), src, &found)?;
    Ok(link(rt.alloc(), src, placed))
}

/// The line and the rule of a refusal; line 0 and no rule where there is none, line 1 where memory ran out.
fn refusal(rt: &HostRuntime, src: &[u8]) -> Result<(u32, Option<LinkKind>), Fail> {
    match linked(rt, src)? {
        Ok(_program) => Ok((0, None)),
        Err(LinkFault::Memory) => Ok((1, None)),
        Err(LinkFault::Refused { line, kind }) => Ok((line, Some(kind))),
    }
}

/// Files with the line and the rule of their refusals, at least one for each rule, and files that are accepted.
#[rattlefmt::skip]
const FILES: [(&[u8], u32, Option<LinkKind>); 21] = [
    (b"S_1 .scope module, \"m\" \"m\" 1 1;\nv_0 .var \"v\", 3 0;\nv_0 .var \"v\", 3 0;", 3, Some(LinkKind::DuplicateLabel)),
    (b"v_0 .var \"v\", 0 0;\nS_1 .scope module, \"m\" \"m\" 1 1;", 1, Some(LinkKind::NoScope)),
    (b"S_1 .scope module, \"m\" \"m\" 1 1;\nn_0 .net \"n\", 3 0, v_0;", 2, Some(LinkKind::UnknownSymbol)),
    (b"S_2 .scope module, \"a\" \"a\" 1 1, 1 1 1, S_2;", 1, Some(LinkKind::WrongKind)),
    (b"S_1 .scope module, \"m\" \"m\" 1 1;\nn_0 .net \"n\", 0 0, n_1;\nn_1 .net \"n\", 0 0, n_0;", 2, Some(LinkKind::NetLoop)),
    (b"r_0 .resolv tri, r_0;", 1, Some(LinkKind::NetLoop)),
    (b"S_1 .scope module, \"m\" \"m\" 1 1;\nv_0 .var \"v\", 3 0;\nd_0 .delay 3 (1, 2, 3) v_0;", 3, Some(LinkKind::WidthMismatch)),
    (b"L_1 .part C4<0101>, 18446744073709551615, 1;", 1, Some(LinkKind::PartOutside)),
    (b"S_1 .scope module, \"m\" \"m\" 1 1;\nv_0 .var \"v\", 3 0;\n %release/reg v_0, 3, 2;", 3, Some(LinkKind::PartOutside)),
    (b"S_1 .scope module, \"m\" \"m\" 1 1;\nT_0 ;\n .thread T_0;", 3, Some(LinkKind::NoCode)),
    (b" %end;\n %ix/load 16, 0, 0;", 2, Some(LinkKind::RegisterRange)),
    (b"T_0 %jmp/0 T_0, 256;", 1, Some(LinkKind::FlagRange)),
    (b" %pushi/vec4 1, 0, 129;", 1, Some(LinkKind::ImmediateWidth)),
    (b"S_1 .scope module, \"m\" \"m\" 1 1;\n %vpi_call 1 1 \"$wat\" {0 0 0};", 2, Some(LinkKind::UnknownTask)),
    (b"S_1 .scope module, \"m\" \"m\" 1 1;\n %vpi_call 1 1 \"$display\", S_1 {0 0 0};", 2, Some(LinkKind::BadArguments)),
    (b"S_1 .scope module, \"m\" \"m\" 1 1;\nm_0 .array \"m\", 0 1048575, 7 0;\nm_1 .array \"m\", 5 5, 7 0;", 3, Some(LinkKind::LimitReached)),
    (b"S_1 .scope module, \"m\" \"m\" 1 1;\nv_0 .var \"v\", 3 0;\n %pushi/vec4 1, 0, 129;\n %jmp T_0;", 3, Some(LinkKind::ImmediateWidth)),
    (b"S_1 .scope module, \"m\" \"m\" 1 1;\nv_0 .var \"v\", 3 0;\nv_0 .net \"n\", 0 0, x_0;", 3, Some(LinkKind::DuplicateLabel)),
    (b"S_1 .scope module, \"m\" \"m\" 1 1;\nn_0 .net \"n\", 3 0, v_0;\n\n\n\n\n\n\n\n\n\n\n\n\n\n\n\n\n\n\n\n\n\n\n\n\n\n\n\n\n\n\n\n\n\n\n\n\n\n\n\n\n\n\n\n\n\n\n\n\n\n\n\n\n\n\n\n\n\n\n\n\n\n\n\n\n\n\n\n\n\n\n\n\n\n\n\n\n\n\n\n\n\n\n\n\n\n\n\n\n\n\n\n\n\n\n\n\n\n\n\n\n\n\n\n\n\n\n\n\n\n\n\n\n\n\n\n\n\n\n\n\n\n\n\n\n\n\n\n\n\n\n\n\n\n\n\n\n\n\n\n\n\n\n\n\n\n\n\n\n\n\n\n\n\n\n\n\n\n\n\n\n\n\n\n\n\n\n\n\n\n\n\n\n\n\n\n\n\n\n\n\n\n\n\n\n\n\n\n\n\n\n\n\n\n\n\n\n\n\n\nv_0 .var \"v\", 3 0;", 0, None),
    (b"S_1 .scope module, \"m\" \"m\" 1 1;\nv_0 .var \"v\", 3 0;\nd_0 .delay 4 (1, 2, 3) v_0;\nn_0 .net \"n\", 3 0, d_0;\n %release/net n_0, 0, 4;\n %force/vec4 n_0;", 0, None),
    (b"r_0 .resolv tri, L_1, C4<11>, C4<1>;\nL_1 .functor AND 2, C4<1>, r_0;", 0, None),
];

#[test]
fn files(rt: HostRuntime) -> Result<(), Fail> {
    for (src, line, kind) in FILES {
        assert_eq!(rt; refusal(&rt, src)?, (line, kind));
    }
    Ok(())
}

#[rattlefmt::skip]
const PROGRAM: &[u8] = b":vpi_time_precision - 12;
S_1 .scope module, \"tb\" \"tb\" 1 1;
 .timescale -9 -12;
v_0 .var/s \"v\", 3 0;
S_2 .scope fork, \"f\" \"f\" 1 1, 1 1 1, S_1;
n_0 .net \"n\", 3 0, L_1;
L_1 .functor AND 4 [5 6], v_0, C4<1>, n_0;
d_0 .delay 4 (1, 2, 3) n_0;
T_0 ;
 %load/vec4 n_0;
T_1 %fork T_1, S_2;
 .thread T_0;
 .scope S_1;
 .thread T_1, $push;
 %end;
";

/// The item that a source names, 90 for none, and 100 more than its bits for a constant.
fn source(port: &Source) -> u64 {
    match port {
        Source::Unused => 90,
        Source::Item(number) => u64::from(*number),
        Source::Fixed(bits) => 100 + u64::from(bits.width()),
    }
}

/// What an item is: a net's root, a gate's strengths and first three sources, a net delay's times and port, a scope's number.
fn kind(what: &ItemKind) -> [u64; 5] {
    match what {
        ItemKind::Net { root } => [u64::from(*root), 0, 0, 0, 0],
        ItemKind::Functor { drive, ports, .. } => [
            u64::from(drive.0),
            u64::from(drive.1),
            source(&ports.as_array()[0]),
            source(&ports.as_array()[1]),
            source(&ports.as_array()[2]),
        ],
        ItemKind::Delay {
            rise,
            fall,
            decay,
            port,
        } => [*rise, *fall, *decay, u64::from(*port), 0],
        ItemKind::Scope(number) => [u64::from(*number), 0, 0, 0, 0],
        _ => [0, 0, 0, 0, 0],
    }
}

/// The width of each item, its scope, and what it is.
fn items(rt: &HostRuntime, program: &Program) -> Result<Vec<(u8, u32, [u64; 5])>, AllocError> {
    let mut found = Vec::new(rt.alloc());
    for item in program.items.as_slice() {
        found.push((item.width, item.scope, kind(&item.what)))?;
    }
    Ok(found)
}

/// The parent of each scope, and its scale.
fn scopes(rt: &HostRuntime, program: &Program) -> Result<Vec<(u32, u64)>, AllocError> {
    let mut found = Vec::new(rt.alloc());
    for scope in program.scopes.as_slice() {
        found.push((scope.parent, scope.scale))?;
    }
    Ok(found)
}

/// The address of each thread, and its scope.
fn starts(rt: &HostRuntime, program: &Program) -> Result<Vec<(u32, u32)>, AllocError> {
    let mut found = Vec::new(rt.alloc());
    for start in program.threads.as_slice() {
        found.push((start.code, start.scope))?;
    }
    Ok(found)
}

/// The numbers of an opcode of the program above.
fn numbers(op: &Op<u32>) -> (u32, u32) {
    match op {
        Op::Load { item } => (*item, 0),
        Op::Fork { target, scope } => (*target, *scope),
        _ => (0, 0),
    }
}

/// The numbers of each opcode.
fn code(rt: &HostRuntime, program: &Program) -> Result<Vec<(u32, u32)>, AllocError> {
    let mut found = Vec::new(rt.alloc());
    for op in program.code.as_slice() {
        found.push(numbers(op))?;
    }
    Ok(found)
}

const ITEMS: [(u8, u32, [u64; 5]); 6] = [
    (0, NONE, [0, 0, 0, 0, 0]),
    (4, 0, [0, 0, 0, 0, 0]),
    (0, 0, [1, 0, 0, 0, 0]),
    (4, 1, [4, 0, 0, 0, 0]),
    (4, 1, [5, 6, 1, 104, 3]),
    (4, 1, [1, 2, 3, 3, 0]),
];

#[test]
fn program(rt: HostRuntime) -> Result<(), Fail> {
    let program = linked(&rt, PROGRAM)??;
    assert_eq!(rt; program.precision, -12);
    assert_eq!(rt; items(&rt, &program)?.as_slice(), ITEMS.as_slice());
    assert_eq!(rt;
        scopes(&rt, &program)?.as_slice(),
        [(NONE, 1000), (0, 1)].as_slice()
    );
    assert_eq!(rt;
        starts(&rt, &program)?.as_slice(),
        [(1, 0), (0, 1)].as_slice()
    );
    assert_eq!(rt;
        code(&rt, &program)?.as_slice(),
        [(3, 0), (1, 1), (0, 0)].as_slice()
    );
    assert_eq!(rt; program.code_scopes.as_slice(), [1, 1, 0].as_slice());
    Ok(())
}
