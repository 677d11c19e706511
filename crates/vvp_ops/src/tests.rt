//! A good and a bad spelling of every opcode, and each kind of refusal.

ghost use Rattle.std.specs.Prelude.{◌≤◌, ◌^◌, Contains, length};
ghost use Rattle.vvp_lex.specs.Statement.{statements_of};

use crate::{Arg, Args, Op, is_opcode, read_op};
use four_state::Bit;
use std::test::Fail;
use vvp_lex::{Bytes, FormFault, FormKind, Name, Stmt, statements, tokens};

/// Each opcode as it is spelled, each form of an argument, and labels.
const SPELLED: &[u8] = b"%nop;
%pushi/vec4 4294967295, 4294967295, 8;
%load/vec4 s;
%load/vec4a m, 3;
%store/vec4 v, 3, 8;
%store/vec4a m, 3, 3;
%assign/vec4 v, 18446744073709551615;
%assign/vec4/d v, 3;
%assign/vec4/off/d v, 3, 3;
%assign/vec4/a/d m, 3, 3;
%ix/load 3, 4294967295, 4294967295;
%ix/getv 3, s;
%ix/getv/s 3, s;
%ix/vec4 3;
%ix/vec4/s 3;
%ix/add 3, 4294967295, 4294967295;
%ix/sub 3, 4294967295, 4294967295;
%ix/mul 3, 4294967295, 4294967295;
%ix/mov 3, 3;
%flag_set/vec4 4;
%flag_set/imm 4, 3;
%flag_get/vec4 4;
%flag_mov 4, 4;
%flag_inv 4;
%flag_or 4, 4;
%jmp L_0;
%jmp/0 L_0, 4;
%jmp/1 L_0, 4;
%jmp/0xz L_0, 4;
%jmp/1xz L_0, 4;
%cmp/u;
%cmp/s;
%cmp/e;
%cmp/ne;
%cmp/z;
%cmp/x;
%cmpi/u 4294967295, 4294967295, 8;
%cmpi/s 4294967295, 4294967295, 8;
%cmpi/e 4294967295, 4294967295, 8;
%cmpi/ne 4294967295, 4294967295, 8;
%add;
%sub;
%mul;
%div;
%div/s;
%mod;
%mod/s;
%pow;
%addi 4294967295, 4294967295, 8;
%subi 4294967295, 4294967295, 8;
%muli 4294967295, 4294967295, 8;
%and;
%or;
%xor;
%nand;
%nor;
%xnor;
%inv;
%and/r;
%or/r;
%xor/r;
%nand/r;
%nor/r;
%xnor/r;
%shiftl 3;
%shiftr 3;
%shiftr/s 3;
%concat/vec4;
%concati/vec4 4294967295, 4294967295, 8;
%replicate 18446744073709551615;
%part/u 8;
%part/s 8;
%parti/u 8, 18446744073709551615, 8;
%parti/s 8, 18446744073709551615, 8;
%pad/u 8;
%pad/s 8;
%dup/vec4;
%pop/vec4 18446744073709551615;
%split/vec4 8;
%blend;
%delay 4294967295, 4294967295;
%delayx 3;
%wait e;
%event e;
%fork L_0, c;
%join;
%disable c;
%end;
%force/vec4 s;
%release/net s, 18446744073709551615, 8;
%release/reg s, 3, 8;
%vpi_call 1 2 \"$display\", \"%d\", q {0 0 0};
%vpi_call/w 1 2 \"$display\" {3 0 0};
%vpi_call/i 1 2 \"$finish\", 1'b1 {0 0 0};
%vpi_func 1 2 \"$clog2\" 32, S<0,vec4,u8> {1 0 0};
%vpi_call 1 2 \"$write\", $time, $stime, $simtime, S {0 0 0};
%vpi_call 1 2 \"$write\", S<1,vec4,s99999999999999999999> {2 0 0};
%vpi_call 1 2 \"$write\", S < 1 , vec4 , s08 > {2 0 0};
%vpi_call 1 2 \"$write\", &A<m, 7>, &PV<q, 4, 2> {0 0 0};
%vpi_call 1 2 \"$write\", 4'sb01xz, 1'b1 {0 0 0};
L_1 %nop;
$l %end;
\\x %end;
";

/// Each opcode with operands that are not its own, one number too large, or one token too many or too few.
const BAD_OPERANDS: &[u8] = b"%nop 1;
%pushi/vec4 4294967295, 4294967295, w;
%load/vec4 \"t\";
%load/vec4a m, r;
%store/vec4 v, 3, w;
%store/vec4a m, 3, r;
%assign/vec4 v, n;
%assign/vec4/d v, r;
%assign/vec4/off/d v, 3, r;
%assign/vec4/a/d m, 3, r;
%ix/load 3, 4294967295, 4294967296;
%ix/getv 3, \"t\";
%ix/getv/s 3, \"t\";
%ix/vec4 r;
%ix/vec4/s r;
%ix/add 3, 4294967295, 4294967296;
%ix/sub 3, 4294967295, 4294967296;
%ix/mul 3, 4294967295, 4294967296;
%ix/mov 3, r;
%flag_set/vec4 f;
%flag_set/imm 4, 4;
%flag_get/vec4 f;
%flag_mov 4, f;
%flag_inv f;
%flag_or 4, f;
%jmp 5;
%jmp/0 L_0, f;
%jmp/1 L_0, f;
%jmp/0xz L_0, f;
%jmp/1xz L_0, f;
%cmp/u 1;
%cmp/s 1;
%cmp/e 1;
%cmp/ne 1;
%cmp/z 1;
%cmp/x 1;
%cmpi/u 4294967295, 4294967295, w;
%cmpi/s 4294967295, 4294967295, w;
%cmpi/e 4294967295, 4294967295, w;
%cmpi/ne 4294967295, 4294967295, w;
%add 1;
%sub 1;
%mul 1;
%div 1;
%div/s 1;
%mod 1;
%mod/s 1;
%pow 1;
%addi 4294967295, 4294967295, w;
%subi 4294967295, 4294967295, w;
%muli 4294967295, 4294967295, w;
%and 1;
%or 1;
%xor 1;
%nand 1;
%nor 1;
%xnor 1;
%inv 1;
%and/r 1;
%or/r 1;
%xor/r 1;
%nand/r 1;
%nor/r 1;
%xnor/r 1;
%shiftl r;
%shiftr r;
%shiftr/s r;
%concat/vec4 1;
%concati/vec4 4294967295, 4294967295, w;
%replicate n;
%part/u w;
%part/s w;
%parti/u 8, 18446744073709551615, w;
%parti/s 8, 18446744073709551615, w;
%pad/u w;
%pad/s w;
%dup/vec4 1;
%pop/vec4 n;
%split/vec4 w;
%blend 1;
%delay 4294967295, 4294967296;
%delayx r;
%wait 5;
%event 5;
%fork L_0, 5;
%join 1;
%disable 5;
%end 1;
%force/vec4 5;
%release/net s, 3;
%release/reg s, w, 8;
%vpi_call 1 2 \"$display\" {1 1 0};
%vpi_call/w 1 2 \"$display\" {3 0 1};
%vpi_call/i 1 2 $finish {0 0 0};
%vpi_func 1 2 \"$clog2\", 32 {1 0 0};
%vpi_call 1 2 \"$write\", S<1,vec4,u> {2 0 0};
%vpi_call 1 2 \"$write\", S<1,vec2,u8> {2 0 0};
%vpi_call 1 2 \"$write\", S<1,vec4,x8> {2 0 0};
%vpi_call 1 2 \"$write\", &A<m, q> {0 0 0};
%vpi_call 1 2 \"$write\", &B<m, 7> {0 0 0};
%vpi_call 1 2 \"$write\", &PV<q, 4> {0 0 0};
%vpi_call 1 2 \"$write\", 4'sb01xz, 2'b1 {0 0 0};
%vpi_call 1 2 \"$write\", C4<1> {0 0 0};
%vpi_call 1 2 \"$write\", 7 {0 0 0};
%vpi_call 1 2 \"$write\", {0 0 0};
%vpi_call 1 2 \"$write\" {0 0};
%vpi_call 1 2 \"$write\" {0 0 0} 1;
%addi 1, 2;
%addi 1 2 3;
%addi 1, 2, 3, 4;
%addi 1, 2, ;
";

/// Words that no opcode has.
const UNKNOWN: &[u8] = b"%nopx;
%x 99, ;
%vpi_calls 1 2 \"$display\" {0 0 0};
%vpi_func/r 1 2 \"$time\" 64 {0 0 0};
";

/// A word for each beginning and each part of those that the engine does not have.
const UNSUPPORTED: &[u8] = b"%callf/void 1 {;
%retload/vec4 1 {;
%alloc 1 {;
%free 1 {;
%cassign/vec4 1 {;
%deassign/vec4 1 {;
%force/link 1 {;
%release/wire 1 {;
%evctl 1 {;
%event/nb 1 {;
%join/detach 1 {;
%wait/fork 1 {;
%disable/fork 1 {;
%assign/vec4/e 1 {;
%assign/vec4/a/e 1 {;
%assign/vec4/off/e 1 {;
%set/vec4 1 {;
%cvt/sr 1 {;
%new/darray 1 {;
%null 1 {;
%prop/v 1 {;
%test_nul 1 {;
%substitute 1 {;
%pow/s 1 {;
%file_line 1 {;
%cmp/we 1 {;
%cmp/wne 1 {;
%load/str 1 {;
%pushi/real 1 {;
%add/wr 1 {;
%store/obj 1 {;
%load/dar/vec4 1 {;
%store/queue 1 {;
";

/// The first opcode of a file, and what reading it answers.
fn read(rt: &HostRuntime, src: &[u8]) -> Result<Result<Op<Name>, FormFault>, Fail> {
    if 1000 < src.len() {
        return Err(Fail::from("too long"));
    }
    for stmt in &statements(rt.alloc(), src)? {
        let found = tokens(rt.alloc(), src, stmt)?;
        if is_opcode(src, stmt, &found) {
            return Ok(read_op(rt.alloc(), src, stmt));
        }
    }
    Err(Fail::from("no opcode"))
}

/// Why a statement is refused; `None` where it is read.
fn refusal(rt: &HostRuntime, src: &[u8], stmt: &Stmt) -> Result<Option<FormKind>, Fail>
    requires small { length src.now ≤ 2 ^ 26 }
    requires given { Contains (statements_of src.now) stmt.now }
{
    let found = tokens(rt.alloc(), src, stmt)?;
    if !is_opcode(src, stmt, &found) {
        return Err(Fail::from("no opcode"));
    }
    match read_op(rt.alloc(), src, stmt) {
        Ok(_) => Ok(None),
        Err(FormFault::Refused { line, kind }) if line == stmt.line => Ok(Some(kind)),
        Err(_) => Err(Fail::from("another line, or no memory")),
    }
}

/// How many statements a file has. The test fails with the line of one that is not refused so.
fn all_are(rt: &HostRuntime, src: &[u8], want: Option<FormKind>) -> Result<usize, Fail> {
    if 10000 < src.len() {
        return Err(Fail::from("too long"));
    }
    let found = statements(rt.alloc(), src)?;
    for stmt in &found {
        if refusal(rt, src, stmt)? != want {
            return Err(Fail::from(stmt.line));
        }
    }
    Ok(found.len())
}

#[test]
fn reads_each_spelling(rt: HostRuntime) -> Result<(), Fail> {
    assert_eq!(rt; all_are(&rt, SPELLED, None)?, 103);
    Ok(())
}

#[test]
fn refuses_other_operands(rt: HostRuntime) -> Result<(), Fail> {
    assert_eq!(rt;
        all_are(&rt, BAD_OPERANDS, Some(FormKind::BadOperands))?,
        111
    );
    Ok(())
}

#[test]
fn refuses_other_words(rt: HostRuntime) -> Result<(), Fail> {
    assert_eq!(rt; all_are(&rt, UNKNOWN, Some(FormKind::UnknownOpcode))?, 4);
    assert_eq!(rt;
        all_are(&rt, UNSUPPORTED, Some(FormKind::UnsupportedOpcode))?,
        33
    );
    Ok(())
}

#[test]
fn reads_operands_in_their_order(rt: HostRuntime) -> Result<(), Fail> {
    let op = read(&rt, b"L %store/vec4 q_0, 5, 16;")??;
    let Op::Store {
        item,
        offset,
        width,
    } = op
    else {
        return Err(Fail::from("another opcode"));
    };
    assert_eq!(rt; (item.from, item.to), (14, 17));
    assert_eq!(rt; (offset, width), (5, 16));
    Ok(())
}

#[test]
fn reads_arguments(rt: HostRuntime) -> Result<(), Fail> {
    let text =
        b" %vpi_func 3 7 \"%d\\n\" 32, \"t\", q, $time, S<1,vec4,s8>, &A<m, 2>, &PV<q, 4, 9>, 4'sb01xz {2 0 0};";
    let op = read(&rt, text)??;
    let Op::CallFunction {
        file,
        line,
        name,
        width,
        args,
        pops,
    } = op
    else {
        return Err(Fail::from("another opcode"));
    };
    assert_eq!(rt; (file, line, width, pops), (3, 7, 32, 2));
    assert_eq!(rt; name.as_slice(), b"%d\n".as_slice());
    let args = args.as_slice();
    assert_eq!(rt; args.len(), 7);
    assert!(rt; matches!(&args[1], Arg::Symbol(Name { from: 31, to: 32 })));
    assert!(rt; matches!(&args[2], Arg::Time));
    assert!(rt;
        matches!(
            &args[3],
            Arg::Stack {
                place: 1,
                width: 8,
                signed: true
            }
        )
    );
    assert!(rt; matches!(&args[4], Arg::Word { index: 2, .. }));
    assert!(rt;
        matches!(
            &args[5],
            Arg::Part {
                base: 4,
                width: 9,
                ..
            }
        )
    );
    let Arg::Based { value, signed } = &args[6] else {
        return Err(Fail::from("no vector"));
    };
    assert!(rt; *signed);
    assert_eq!(rt; value.width(), 4);
    assert_eq!(rt; (value.bit(0), value.bit(3)), (Bit::HighZ, Bit::Zero));
    Ok(())
}

#[test]
fn copies(rt: HostRuntime) -> Result<(), Fail> {
    let mut args = Args::new(rt.alloc());
    args.push(Arg::Symbol(7u32))?;
    args.push(Arg::Text(Bytes::from_slice(rt.alloc(), b"t")?))?;
    let op = Op::CallTask {
        file: 1,
        line: 2,
        name: Bytes::from_slice(rt.alloc(), b"$display")?,
        args,
        pops: 3,
    };
    let Op::CallTask {
        file,
        line,
        name,
        args,
        pops,
    } = op.copy(rt.alloc())?
    else {
        return Err(Fail::from("another opcode"));
    };
    assert_eq!(rt; (file, line, pops), (1, 2, 3));
    assert_eq!(rt; name.as_slice(), b"$display".as_slice());
    assert_eq!(rt; args.as_slice().len(), 2);
    Ok(())
}
