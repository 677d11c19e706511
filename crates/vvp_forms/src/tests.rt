//! Each row of the table with good and bad spellings, and each kind of refusal.

use crate::form::{Form, Gate, Port, Range, Within};
use crate::owned::Boxed;
use crate::read::read_form;
use four_state::{Bit, Vec4};
use std::alloc::AllocError;
use std::test::Fail;
use vvp_lex::{Bytes, FormFault, FormKind, Name, bytes_of, statements};

/// A text that is spelled out: words with a space before each.
#[derive(Drop)]
struct Shown<'a> {
    src: &'a [u8],
    text: Vec<u8>,
}

impl Shown<'_> {
    fn word(&mut self, word: &[u8]) -> Result<(), AllocError> {
        self.text.push(b' ')?;
        self.text.extend_from_slice(word)?;
        Ok(())
    }

    fn name(&mut self, name: Name) -> Result<(), AllocError> {
        let word = bytes_of(self.src, name);
        self.word(word)
    }

    fn number(&mut self, rt: &HostRuntime, number: u64) -> Result<(), AllocError> {
        let text = format!(in rt.alloc(); "{number}")?;
        self.word(text.as_bytes())
    }

    fn integer(&mut self, rt: &HostRuntime, integer: i32) -> Result<(), AllocError> {
        let text = format!(in rt.alloc(); "{integer}")?;
        self.word(text.as_bytes())
    }

    fn range(&mut self, rt: &HostRuntime, range: Range) -> Result<(), AllocError> {
        self.integer(rt, range.msb)?;
        self.integer(rt, range.lsb)
    }

    /// The bits of a constant, lowest first.
    fn bits(&mut self, bits: Vec4) -> Result<(), AllocError> {
        self.text.push(b' ')?;
        for i in 0..bits.width() {
            let bit = match bits.bit(i) {
                Bit::Zero => b'0',
                Bit::One => b'1',
                Bit::Unknown => b'x',
                Bit::HighZ => b'z',
            };
            self.text.push(bit)?;
        }
        Ok(())
    }

    fn port(&mut self, port: &Port) -> Result<(), AllocError> {
        match port {
            Port::Unused => self.word(b"-"),
            Port::Sym(name) => self.name(*name),
            Port::Fixed(bits) => self.bits(*bits),
        }
    }

    fn boxed_port(&mut self, port: &Boxed<Port>) -> Result<(), AllocError> {
        self.port(port.get())
    }

    fn boxed_text(&mut self, text: &Boxed<Bytes>) -> Result<(), AllocError> {
        self.word(text.get().as_slice())
    }

    fn ports(&mut self, ports: &[Port]) -> Result<(), AllocError> {
        for port in ports {
            self.port(port)?;
        }
        Ok(())
    }
}

/// Gates by the type that a functor has.
fn gate_word(gate: &Gate) -> &'static [u8] {
    match gate {
        Gate::And => b"AND",
        Gate::Or => b"OR",
        Gate::Xor => b"XOR",
        Gate::Nand => b"NAND",
        Gate::Nor => b"NOR",
        Gate::Xnor => b"XNOR",
        Gate::Buf => b"BUF",
        Gate::Not => b"NOT",
        Gate::Bufz => b"BUFZ",
        Gate::Buft => b"BUFT",
        Gate::Muxz => b"MUXZ",
        _ => b"?",
    }
}

/// The form's fields in order. A kind is its place in its enum.
fn show(shown: &mut Shown, rt: &HostRuntime, form: &Form) -> Result<(), AllocError> {
    match form {
        Form::Ignored => shown.word(b"ignored"),
        Form::Parameter => shown.word(b"parameter"),
        Form::Precision { power } => {
            shown.word(b"precision")?;
            shown.integer(rt, i32::from(*power))
        }
        Form::Scope {
            kind,
            name,
            module,
            file,
            line,
            within,
        } => {
            shown.word(b"scope")?;
            shown.number(rt, u64::from(*kind as u8))?;
            shown.boxed_text(name)?;
            shown.boxed_text(module)?;
            shown.number(rt, *file)?;
            shown.number(rt, *line)?;
            match within {
                Some(within) => show_within(shown, rt, within.get()),
                None => Ok(()),
            }
        }
        Form::CurrentScope { scope } => {
            shown.word(b"current")?;
            shown.name(*scope)
        }
        Form::TimeScale { unit, precision } => {
            shown.word(b"timescale")?;
            shown.integer(rt, i32::from(*unit))?;
            shown.integer(rt, i32::from(*precision))
        }
        Form::Variable {
            kind,
            starred,
            name,
            range,
        } => {
            shown.word(if *starred { b"variable*" } else { b"variable." })?;
            shown.number(rt, u64::from(*kind as u8))?;
            shown.word(name.as_slice())?;
            shown.range(rt, *range)
        }
        Form::Net {
            signed,
            starred,
            name,
            range,
            source,
        } => {
            shown.word(if *starred { b"net*" } else { b"net." })?;
            shown.number(rt, u64::from(*signed))?;
            shown.word(name.as_slice())?;
            shown.range(rt, *range)?;
            shown.name(*source)
        }
        Form::Array {
            kind,
            name,
            first,
            last,
            range,
        } => {
            shown.word(b"array")?;
            shown.number(rt, u64::from(*kind as u8))?;
            shown.word(name.as_slice())?;
            shown.integer(rt, *first)?;
            shown.integer(rt, *last)?;
            shown.range(rt, *range)
        }
        _ => show_gate(shown, rt, form),
    }
}

/// Where a scope stands.
fn show_within(shown: &mut Shown, rt: &HostRuntime, place: &Within) -> Result<(), AllocError> {
    shown.number(rt, place.file)?;
    shown.number(rt, place.line)?;
    shown.number(rt, place.cell)?;
    shown.name(place.scope)
}

/// The same for gates, events and threads.
fn show_gate(shown: &mut Shown, rt: &HostRuntime, form: &Form) -> Result<(), AllocError> {
    match form {
        Form::Functor {
            gate,
            width,
            drives,
            ports,
        } => {
            shown.word(gate_word(gate))?;
            shown.number(rt, u64::from(*width))?;
            shown.number(rt, u64::from(drives.0))?;
            shown.number(rt, u64::from(drives.1))?;
            shown.ports(ports.as_array())
        }
        Form::Resolver { kind, ports } => {
            shown.word(b"resolver")?;
            shown.number(rt, u64::from(*kind as u8))?;
            shown.ports(ports.as_array())
        }
        Form::Concat { widths, ports } => {
            shown.word(b"concat")?;
            for width in widths {
                shown.number(rt, u64::from(*width))?;
            }
            shown.ports(ports.as_array())
        }
        Form::Delay {
            width,
            rise,
            fall,
            decay,
            port,
        } => {
            shown.word(b"delay")?;
            shown.number(rt, u64::from(*width))?;
            shown.number(rt, *rise)?;
            shown.number(rt, *fall)?;
            shown.number(rt, *decay)?;
            shown.name(*port)
        }
        Form::EdgeEvent { kind, ports } => {
            shown.word(b"edge")?;
            shown.number(rt, u64::from(*kind as u8))?;
            shown.ports(ports.as_array())
        }
        Form::NamedEvent { name } => {
            shown.word(b"event")?;
            shown.word(name.as_slice())
        }
        Form::EventOr { events } => {
            shown.word(b"or")?;
            for name in events.as_slice() {
                shown.name(*name)?;
            }
            Ok(())
        }
        Form::Thread { code, start } => {
            shown.word(b"thread")?;
            shown.name(*code)?;
            shown.number(rt, u64::from(*start as u8))
        }
        _ => show_boxed(shown, rt, form),
    }
}

/// The same for gates of one or two ports.
fn show_boxed(shown: &mut Shown, rt: &HostRuntime, form: &Form) -> Result<(), AllocError> {
    match form {
        Form::Part { port, base, width } => {
            shown.word(b"part")?;
            shown.boxed_port(port)?;
            shown.number(rt, *base)?;
            shown.number(rt, u64::from(*width))
        }
        Form::PartInto {
            port,
            base,
            width,
            whole,
        } => {
            shown.word(b"into")?;
            shown.boxed_port(port)?;
            shown.number(rt, *base)?;
            shown.number(rt, u64::from(*width))?;
            shown.number(rt, u64::from(*whole))
        }
        Form::PartFrom {
            signed,
            port,
            base,
            width,
        } => {
            shown.word(b"from")?;
            shown.number(rt, u64::from(*signed))?;
            shown.boxed_port(port)?;
            shown.boxed_port(base)?;
            shown.number(rt, u64::from(*width))
        }
        Form::Arithmetic {
            kind,
            width,
            left,
            right,
        } => show_two(shown, rt, b"arithmetic", *kind as u8, *width, left, right),
        Form::Compare {
            kind,
            width,
            left,
            right,
        } => show_two(shown, rt, b"compare", *kind as u8, *width, left, right),
        Form::Shift {
            kind,
            width,
            port,
            amount,
        } => show_two(shown, rt, b"shift", *kind as u8, *width, port, amount),
        Form::Reduce { kind, port } => {
            shown.word(b"reduce")?;
            shown.number(rt, u64::from(*kind as u8))?;
            shown.boxed_port(port)
        }
        Form::Repeat { width, count, port } => {
            shown.word(b"repeat")?;
            shown.number(rt, u64::from(*width))?;
            shown.number(rt, *count)?;
            shown.boxed_port(port)
        }
        Form::Extend { width, port } => {
            shown.word(b"extend")?;
            shown.number(rt, u64::from(*width))?;
            shown.boxed_port(port)
        }
        _ => shown.word(b"label"),
    }
}

/// A gate of two ports.
fn show_two(
    shown: &mut Shown,
    rt: &HostRuntime,
    word: &[u8],
    kind: u8,
    width: u8,
    left: &Boxed<Port>,
    right: &Boxed<Port>,
) -> Result<(), AllocError> {
    shown.word(word)?;
    shown.number(rt, u64::from(kind))?;
    shown.number(rt, u64::from(width))?;
    shown.boxed_port(left)?;
    shown.boxed_port(right)
}

/// What the only statement of a file says, or why it is refused.
fn read(rt: &HostRuntime, src: &[u8]) -> Result<Result<Form, FormFault>, Fail> {
    if 1000 < src.len() {
        return Ok(Err(FormFault::Memory));
    }
    let found = statements(rt.alloc(), src)?;
    for stmt in &found {
        return Ok(read_form(rt.alloc(), src, stmt));
    }
    Ok(Err(FormFault::Memory))
}

/// The form of the only statement of a file, shown.
fn text_of(rt: &HostRuntime, src: &[u8]) -> Result<Vec<u8>, Fail> {
    let mut shown = Shown {
        src,
        text: Vec::new(rt.alloc()),
    };
    match read(rt, src)? {
        Ok(form) => show(&mut shown, rt, &form)?,
        Err(FormFault::Memory) => shown.word(b"no memory")?,
        Err(FormFault::Refused { line, kind: _ }) => shown.number(rt, u64::from(line))?,
    }
    Ok(shown.text)
}

#[rattlefmt::skip]
const SPELLED: [(&[u8], &[u8]); 78] = [
    (b":ivl_version \"11.0\";", b" ignored"),
    (b":ivl_version \"11.0\" \"(stable)\";", b" ignored"),
    (b":ivl_delay_selection \"TYPICAL\";", b" ignored"),
    (b":vpi_module \"system\";", b" ignored"),
    (b":file_names 2;", b" ignored"),
    (b"    \"a.v\";", b" ignored"),
    (b"P_1 .param/l \"W\" 0 +C4<01>;", b" parameter"),
    (b".param/str;", b" parameter"),
    (b"P_2 .param/real \"R\";", b" parameter"),
    (b".port_info 0 /INPUT 1 \"a\";", b" parameter"),
    (b":vpi_time_precision - 15;", b" precision -15"),
    (b":vpi_time_precision + 2;", b" precision 2"),
    (b":vpi_time_precision 0;", b" precision 0"),
    (b"S_1 .scope module, \"t\\157p\" \"m\" 2 1;", b" scope 0 top m 2 1"),
    (b"S_2 .scope package, \"p\" \"q\" 2 5, 3 6 1, S_1;", b" scope 5 p q 2 5 3 6 1 S_1"),
    (b".scope S_1;", b" current S_1"),
    (b".timescale -9 -12;", b" timescale -9 -12"),
    (b"v .var \"a\", 3 0;", b" variable. 0 a 3 0"),
    (b"v .var/s *\"a\", -1 2;", b" variable* 1 a -1 2"),
    (b"v .var/i \"a\", 127 0;", b" variable. 2 a 127 0"),
    (b"n .net \"a\", 0 0, L_1;", b" net. 0 a 0 0 L_1"),
    (b"n .net/s *\"a\", 0 0, L_1;", b" net* 1 a 0 0 L_1"),
    (b"n .net8 \"a\", 0 0, L_1;", b" net. 0 a 0 0 L_1"),
    (b"n .net8/s \"a\", 0 0, L_1;", b" net. 1 a 0 0 L_1"),
    (b"n .net/2u \"a\", 0 0, L_1;", b" net. 0 a 0 0 L_1"),
    (b"n .net/2s \"a\", 0 0, L_1;", b" net. 1 a 0 0 L_1"),
    (b"m .array \"a\", 0 255, 7 0;", b" array 0 a 0 255 7 0"),
    (b"m .array/s \"a\", 9 -2147483647, 7 0;", b" array 1 a 9 -2147483647 7 0"),
    (b"m .array/i \"a\", 0 1, 31 0;", b" array 2 a 0 1 31 0"),
    (b"L .functor AND 2, a, C4<0x>, C4<>, b;", b" AND 2 6 6 a x0 - b"),
    (b"L .functor OR 1 [0 7], C4<>, a;", b" OR 1 0 7 - a - -"),
    (b"L .functor XOR 1, a;", b" XOR 1 6 6 a - - -"),
    (b"L .functor NAND 1, a;", b" NAND 1 6 6 a - - -"),
    (b"L .functor NOR 1, a;", b" NOR 1 6 6 a - - -"),
    (b"L .functor XNOR 1, a;", b" XNOR 1 6 6 a - - -"),
    (b"L .functor BUF 1, a, C4<0>, C4<0>, C4<0>;", b" BUF 1 6 6 a - - -"),
    (b"L .functor NOT 1, a, b;", b" NOT 1 6 6 a - - -"),
    (b"L .functor BUFZ 128, a;", b" BUFZ 128 6 6 a - - -"),
    (b"L .functor BUFT 1, C4<01zX>;", b" BUFT 4 6 6 xz10 - - -"),
    (b"L .functor BUFT 0, C4<11>;", b" BUFT 2 6 6 11 - - -"),
    (b"L .functor BUFT 3, C4<1>;", b" BUFT 3 6 6 1 - - -"),
    (b"L .functor MUXZ 1, a, b, s, t;", b" MUXZ 1 6 6 a b s -"),
    (b"L .resolv tri, a, b, c, d;", b" resolver 0 a b c d"),
    (b"L .resolv trior, C4<>, a;", b" resolver 4 - a - -"),
    (b"L .part a, 18446744073709551615, 1;", b" part a 18446744073709551615 1"),
    (b"L .part/pv a, 2, 3, 8;", b" into a 2 3 8"),
    (b"L .part/v a, b, 3;", b" from 0 a b 3"),
    (b"L .part/v.s a, b, 3;", b" from 1 a b 3"),
    (b"L .concat [1 2 0 0], a, b;", b" concat 1 2 0 0 a b - -"),
    (b"L .concat8 [32 32 32 32], a, b, c, d;", b" concat 32 32 32 32 a b c d"),
    (b"L .arith/sum 8, a, b;", b" arithmetic 0 8 a b"),
    (b"L .arith/sub 8, a, b;", b" arithmetic 1 8 a b"),
    (b"L .arith/mult 8, a, b;", b" arithmetic 2 8 a b"),
    (b"L .arith/div 8, a, b;", b" arithmetic 3 8 a b"),
    (b"L .arith/div.s 8, a, b;", b" arithmetic 4 8 a b"),
    (b"L .arith/mod 8, a, b;", b" arithmetic 5 8 a b"),
    (b"L .arith/mod.s 8, a, b;", b" arithmetic 6 8 a b"),
    (b"L .cmp/eq 8, a, b;", b" compare 0 8 a b"),
    (b"L .cmp/nee 8, a, b;", b" compare 3 8 a b"),
    (b"L .cmp/gt.s 8, a, b;", b" compare 5 8 a b"),
    (b"L .cmp/ge.s 8, a, b;", b" compare 7 8 a b"),
    (b"L .shift/l 8, a, b;", b" shift 0 8 a b"),
    (b"L .shift/rs 8, a, b;", b" shift 2 8 a b"),
    (b"L .reduce/and a;", b" reduce 0 a"),
    (b"L .reduce/xnor a;", b" reduce 5 a"),
    (b"L .repeat 8, 4, a;", b" repeat 8 4 a"),
    (b"L .extend/s 8, a;", b" extend 8 a"),
    (b"d_0 .delay 1 (3, 5, 2) v_0;", b" delay 1 3 5 2 v_0"),
    (b"E .event posedge, a;", b" edge 0 a - - -"),
    (b"E .event negedge, C4<>, a;", b" edge 1 - a - -"),
    (b"E .event edge, a, b, c, d;", b" edge 2 a b c d"),
    (b"E .event anyedge, a;", b" edge 2 a - - -"),
    (b"E .event \"done\";", b" event done"),
    (b"E .event/or E_1, E_2, E_3;", b" or E_1 E_2 E_3"),
    (b".thread T_0;", b" thread T_0 0"),
    (b"    .thread T_0, $push;", b" thread T_0 1"),
    (b".thread T_0, $init;", b" thread T_0 2"),
    (b"T_0 ;", b" label"),
];

#[test]
fn spelled(rt: HostRuntime) -> Result<(), Fail> {
    for (src, wanted) in SPELLED {
        let text = text_of(&rt, src)?;
        assert_eq!(rt; text.as_slice(), wanted);
    }
    Ok(())
}

#[rattlefmt::skip]
const REFUSED: [(&[u8], FormKind); 75] = [
    (b";", FormKind::UnknownStatement),
    (b"v 1;", FormKind::UnknownStatement),
    (b"12;", FormKind::UnknownStatement),
    (b"C4<01> a;", FormKind::UnknownStatement),
    (b" v .var \"a\", 3 0;", FormKind::UnknownStatement),
    (b"v .vars;", FormKind::UnknownStatement),
    (b"L .arith/pow 8, a, b;", FormKind::UnknownStatement),
    (b"%nop;", FormKind::UnknownStatement),
    (b".delay;", FormKind::LabelMissing),
    (b"v .var/real \"a\", 3 0;", FormKind::UnsupportedStatement),
    (b"v .var/2s \"a\", 3 0;", FormKind::UnsupportedStatement),
    (b"v .net/real \"a\", 3 0, a;", FormKind::UnsupportedStatement),
    (b"v .array/port a, 3;", FormKind::UnsupportedStatement),
    (b".udp/comb 1;", FormKind::UnsupportedStatement),
    (b".portinfo;", FormKind::UnsupportedStatement),
    (b".alias;", FormKind::UnsupportedStatement),
    (b"v .tranif0;", FormKind::UnsupportedStatement),
    (b".scope module, \"a\" \"a\" 2 1;", FormKind::LabelMissing),
    (b".scope 1,;", FormKind::LabelMissing),
    (b".var 1;", FormKind::LabelMissing),
    (b" .functor AND 999, a;", FormKind::LabelMissing),
    (b".event \"a\";", FormKind::LabelMissing),
    (b"S .scope S_1;", FormKind::LabelNotAllowed),
    (b"S .scope module \"a\";", FormKind::LabelNotAllowed),
    (b"a :file_names 2;", FormKind::LabelNotAllowed),
    (b"a \"b\";", FormKind::LabelNotAllowed),
    (b"a .timescale 3 3;", FormKind::LabelNotAllowed),
    (b"a .thread T_0;", FormKind::LabelNotAllowed),
    (b"\"a\" 1;", FormKind::BadOperands),
    (b":file_names;", FormKind::BadOperands),
    (b":ivl_version \"a\" \"b\" \"c\";", FormKind::BadOperands),
    (b":vpi_time_precision - 16;", FormKind::BadOperands),
    (b":vpi_time_precision 3;", FormKind::BadOperands),
    (b":vpi_time_precision - - 1;", FormKind::BadOperands),
    (b"S .scope class, \"a\" \"a\" 2 1;", FormKind::BadOperands),
    (b"S .scope module, \"a\" \"a\" 2 1, S_1;", FormKind::BadOperands),
    (b"S .scope module, \"a\" \"a\" 2 1,;", FormKind::BadOperands),
    (b".timescale +1 1;", FormKind::BadOperands),
    (b".timescale 1 3;", FormKind::BadOperands),
    (b"v .var \"a\", 2147483648 0;", FormKind::BadOperands),
    (b"v .var \"a\", 3 0 0;", FormKind::BadOperands),
    (b"n .net \"a\", 999 0;", FormKind::BadOperands),
    (b"m .array *\"a\", 0 1, 3 0;", FormKind::BadOperands),
    (b"L .functor BUFIF0 1, a;", FormKind::BadOperands),
    (b"L .functor AND 1 [0 8], a;", FormKind::BadOperands),
    (b"L .functor AND 1, C4<>, C4<>;", FormKind::BadOperands),
    (b"L .functor AND 0, a;", FormKind::BadOperands),
    (b"L .functor AND 999, C4<>;", FormKind::BadOperands),
    (b"L .functor AND 1, a, b, c, d, e;", FormKind::BadOperands),
    (b"L .functor MUXZ 1, a, b;", FormKind::BadOperands),
    (b"L .functor BUFZ 1, C4<>, a;", FormKind::BadOperands),
    (b"L .resolv tri, C4<1>;", FormKind::BadOperands),
    (b"L .resolv wand, a;", FormKind::BadOperands),
    (b"L .part a, 0, 0;", FormKind::BadOperands),
    (b"L .part/pv a, 0, 999, 0;", FormKind::BadOperands),
    (b"L .concat [1 0 1 0], a, b;", FormKind::BadOperands),
    (b"L .concat [0 0 0 0], a;", FormKind::BadOperands),
    (b"L .concat [1 999 0 0], a;", FormKind::BadOperands),
    (b"L .concat [1 1 0 0], a, C4<>;", FormKind::BadOperands),
    (b"L .cmp/eq 8, a;", FormKind::BadOperands),
    (b"L .repeat 8, 3, a;", FormKind::BadOperands),
    (b"L .repeat 8, 0, a;", FormKind::BadOperands),
    (b"d_0 .delay 1 3, 5, 2 v_0;", FormKind::BadOperands),
    (b"E .event sometimes, a;", FormKind::BadOperands),
    (b"E .event edge, C4<>;", FormKind::BadOperands),
    (b"E .event/or E_1,;", FormKind::BadOperands),
    (b".thread T_0, $final;", FormKind::BadOperands),
    (b"v .var \"a\", 128 0;", FormKind::VectorTooWide),
    (b"v .var \"a\", -2147483647 2147483647;", FormKind::VectorTooWide),
    (b"m .array \"a\", 0 1, 0 128;", FormKind::VectorTooWide),
    (b"L .functor BUFZ 129, a;", FormKind::VectorTooWide),
    (b"L .part/pv a, 0, 1, 129;", FormKind::VectorTooWide),
    (b"L .concat [64 64 1 0], a, b, c;", FormKind::VectorTooWide),
    (b"L .concat [18446744073709551615 1 0 0], a, b;", FormKind::VectorTooWide),
    (b"L .extend/s 129, a;", FormKind::VectorTooWide),
];

/// Why the only statement of a file is refused.
fn fault(rt: &HostRuntime, src: &[u8]) -> Result<Option<FormFault>, Fail> {
    match read(rt, src)? {
        Ok(_) => Ok(None),
        Err(fault) => Ok(Some(fault)),
    }
}

#[test]
fn refused(rt: HostRuntime) -> Result<(), Fail> {
    for (src, kind) in REFUSED {
        assert_eq!(rt;
            fault(&rt, src)?,
            Some(FormFault::Refused { line: 1, kind })
        );
    }
    Ok(())
}
