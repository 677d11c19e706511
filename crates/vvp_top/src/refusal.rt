//! Why a file is refused.

ghost use Rattle.std.specs.Prelude.{◌≡◌};
ghost use Rattle.vvp_top.specs.Texts.{dump_text, form_text, lexical_text, link_text, why_text};

use sym_link::LinkKind;
use vcd_read::VcdKind;
use vvp_lex::{FormKind, LexKind};

/// Why a file has no program, is no dump, or has one that can't be reported on.
#[derive(Clone, Copy, Debug, PartialEq, Eq)]
pub enum Why {
    /// It, or the dump of its run, has more bytes than a source may have.
    TooLarge,
    /// Its bytes aren't all tokens and statements.
    Lexical(LexKind),
    /// A statement is none of the grammar.
    Form(FormKind),
    /// A statement breaks a link rule.
    Link(LinkKind),
    /// It is no dump.
    Dump(VcdKind),
    /// The name of a scope, a variable or a net can't stand in a dump.
    BadName,
}

// The text of a lexical fault.
fn lexical_text(kind: LexKind) -> &'static [u8]
    ensures { result.now ≡ lexical_text kind }
{
    match kind {
        LexKind::BadCharacter => b"bad character",
        LexKind::OpenString => b"open string",
        LexKind::OpenStatement => b"open statement",
        LexKind::NumberTooLarge => b"number too large",
        LexKind::VectorTooWide => b"vector too wide",
    }
}

// The text of a statement that is none of the grammar.
fn form_text(kind: FormKind) -> &'static [u8]
    ensures { result.now ≡ form_text kind }
{
    match kind {
        FormKind::UnknownStatement => b"unknown statement",
        FormKind::UnsupportedStatement => b"unsupported statement",
        FormKind::UnknownOpcode => b"unknown opcode",
        FormKind::UnsupportedOpcode => b"unsupported opcode",
        FormKind::LabelMissing => b"label missing",
        FormKind::LabelNotAllowed => b"label not allowed",
        FormKind::BadOperands => b"bad operands",
        FormKind::VectorTooWide => b"vector too wide",
    }
}

// The text of a link rule.
fn link_text(kind: LinkKind) -> &'static [u8]
    ensures { result.now ≡ link_text kind }
{
    match kind {
        LinkKind::DuplicateLabel => b"duplicate label",
        LinkKind::NoScope => b"no scope",
        LinkKind::UnknownSymbol => b"unknown symbol",
        LinkKind::WrongKind => b"wrong kind",
        LinkKind::NetLoop => b"net loop",
        LinkKind::WidthMismatch => b"width mismatch",
        LinkKind::PartOutside => b"part outside",
        LinkKind::NoCode => b"no code",
        LinkKind::RegisterRange => b"register range",
        LinkKind::FlagRange => b"flag range",
        LinkKind::ImmediateWidth => b"immediate width",
        LinkKind::UnknownTask => b"unknown task",
        LinkKind::BadArguments => b"bad arguments",
        LinkKind::LimitReached => b"limit reached",
    }
}

// The text of a fault of a dump.
fn dump_text(kind: VcdKind) -> &'static [u8]
    ensures { result.now ≡ dump_text kind }
{
    match kind {
        VcdKind::BadByte => b"bad byte",
        VcdKind::BadWord => b"bad word",
        VcdKind::TooWide => b"too wide",
        VcdKind::UnknownCode => b"unknown code",
        VcdKind::TimeBack => b"time back",
        VcdKind::OpenEnd => b"open end",
    }
}

impl Why {
    /// Its text, as the program says it.
    pub(crate) fn text(self) -> &'static [u8]
        ensures { result.now ≡ why_text self }
    {
        match self {
            Why::TooLarge => b"file too large",
            Why::Lexical(kind) => lexical_text(kind),
            Why::Form(kind) => form_text(kind),
            Why::Link(kind) => link_text(kind),
            Why::Dump(kind) => dump_text(kind),
            Why::BadName => b"bad name",
        }
    }
}
