//! Reading a file word by word.

ghost use Rattle.std.specs.Prelude.{◌≡◌, ◌+◌, ◌<◌, ◌≤◌, ◌^◌, length, count_by, IfOk};
ghost use Rattle.vvp_lex.specs.Text.{is_line_feed};
ghost use Rattle.vcd_read.specs.Words.{more_len};
ghost use Rattle.vcd_read.specs.Reading.{Steps, Leads, Reads, taken, step, start, finish, may_end, reading, fault_of, Gives};
ghost use Rattle.vcd_read.specs.Sound.{IsSound, IsTrace};
ghost use Rattle.vcd_read.specs.Grammar.{IsVcd};
ghost use Rattle.vcd_read.specs.declared.types.Trace.{Trace};

use crate::body::Body;
use crate::bytes::{is_printable, white_len, word_len};
use crate::header::{Header, Wanted, plain};
use crate::types::{Stop, Trace, VcdFault, VcdKind};
use std::alloc::Global;

/// What is wanted next, and what the words so far have said.
#[derive(Drop)]
pub(crate) struct Reader<'a> {
    pub(crate) wanted: Wanted,
    pub(crate) header: Header<'a>,
    pub(crate) body: Body,
}

impl<'a> Reader<'a> {
    /// A reader before the first word.
    fn new(alloc: Global) -> Reader<'a>
        ensures { result ≡ start }
    {
        Reader {
            wanted: Wanted::Command,
            header: Header::new(alloc),
            body: Body::new(alloc),
        }
    }

    /// Takes a word, or a byte that is none.
    #[tactic(auto, unfolding(crate::specs::Reading::step))]
    fn step(&mut self, alloc: Global, word: &'a [u8]) -> Result<(), Stop>
        requires some { 0 < length word.now }
        requires sound { IsSound (2 ^ 26) self.old }
        ensures { Steps result self.new (step self.old word.now) }
    {
        if !is_printable(word[0]) {
            return Err(Stop::Refused(VcdKind::BadByte));
        }
        self.wanted = self.next(alloc, word)?;
        Ok(())
    }

    /// What is wanted after a word.
    fn next(&mut self, alloc: Global, word: &'a [u8]) -> Result<Wanted, Stop>
        requires sound { IsSound (2 ^ 26) self.old }
        ensures { Leads result self.new (taken self.old.wanted self.old.header self.old.body word.now) }
    {
        let wanted = self.wanted;
        match wanted {
            Wanted::Command => self.header.command(word),
            Wanted::Scale => self.header.scale(word),
            Wanted::ScaleUnit(power) => self.header.unit(power, word),
            Wanted::ScopeName => self.header.scope_name(word),
            Wanted::VarCode(width) => self.header.var_code(width, word),
            Wanted::VarName(net) => self.header.var_name(alloc, net, word),
            Wanted::Entry => self.body.entry(&self.header, word),
            Wanted::Code(bits) => self.body.vector(&self.header, bits, word),
            _ => Ok(plain(wanted, word)?),
        }
    }

    /// The trace, where the file may end; else it ends too early, on this line.
    #[tactic(auto, unfolding(crate::specs::Reading::finish))]
    fn finish(self, last: u32) -> Result<Trace, VcdFault>
        ensures { Reads result (finish self.entry last) }
    {
        if !self.may_end() {
            return Err(VcdFault::Refused {
                line: last,
                kind: VcdKind::OpenEnd,
            });
        }
        let Reader { header, body, .. } = self;
        let (power, widths, vars) = header.into_parts();
        Ok(Trace {
            power,
            widths,
            vars,
            changes: body.into_changes(),
        })
    }

    /// Whether the file may end here.
    fn may_end(&self) -> bool
        ensures { result ≡ may_end self.now }
    {
        match self.wanted {
            Wanted::Entry => !self.body.is_open,
            _ => false,
        }
    }
}

/// How many lines end in the text.
fn line_feeds(text: &[u8]) -> u32
    requires { length text.now ≤ 2 ^ 26 }
    ensures value { result ≡ count_by is_line_feed text.now }
    ensures within { result ≤ length text.now }
{
    text.iter().filter(|b| **b == b'\n').count() as u32
}

/// How many bytes the word at the front has, or the byte that is none.
fn spot_len(text: &[u8]) -> usize
    requires { 0 < length text.now }
    ensures value { result ≡ 1 + more_len text.now }
    ensures within { result ≤ length text.now }
{
    word_len(text).max(1)
}

/// The fault of a word on a line.
fn fault_of(stop: Stop, line: u32) -> VcdFault
    ensures { result ≡ fault_of stop line }
{
    match stop {
        Stop::Refused(kind) => VcdFault::Refused { line, kind },
        Stop::Memory => VcdFault::Memory,
    }
}

/// The trace of a file, or its first fault.
fn read(alloc: Global, bytes: &[u8]) -> Result<Trace, VcdFault>
    requires small { length bytes.now ≤ 2 ^ 26 }
    ensures exact { Reads result (reading bytes.now) }
    ensures of_nets { IfOk result (IsTrace (length bytes.now)) }
{
    let mut reader = Reader::new(alloc);
    let mut at = white_len(bytes);
    let mut line = 1 + line_feeds(&bytes[..at]);
    while at < bytes.len() {
        let rest = &bytes[at..];
        let len = spot_len(rest);
        if let Err(stop) = reader.step(alloc, &rest[..len]) {
            return Err(fault_of(stop, line));
        }
        let next = len + white_len(&rest[len..]);
        line += line_feeds(&rest[..next]);
        at += next;
    }
    reader.finish(line)
}

/// The trace of a dump of at most 2^26 bytes (IEEE 1364-2005, clause 18). Refused exactly where the bytes are no dump, at
/// the first fault by place; and where memory runs out.
pub fn read_vcd(alloc: Global, bytes: &[u8]) -> Result<Trace, VcdFault>
    requires small { length bytes.now ≤ 2 ^ 26 }
    // What is read is in the grammar.
    ensures found { IfOk result (IsVcd bytes.now) }
    // What is in the grammar is read, as the trace that it spells.
    ensures only { (trace : Trace) → IsVcd bytes.now trace → Gives result trace }
    // Which trace, or which fault.
    ensures exact { Reads result (reading bytes.now) }
    // Each net that is named is there, and each value is as wide as its net.
    ensures of_nets { IfOk result (IsTrace (2 ^ 26)) }
{
    read(alloc, bytes)
}
