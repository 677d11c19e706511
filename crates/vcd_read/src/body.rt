//! The body of a dump: times, sections and values (IEEE 1364-2005, 18.2.1 and 18.2.2).

ghost use Rattle.std.specs.Prelude.{◌≡◌, ◌≤◌, All, Ok};
ghost use Rattle.vcd_read.specs.declared.header.Wanted.TheVariants.{Entry};
ghost use Rattle.vcd_read.specs.Reading.{Takes, time, section, scalar, vector, bits, entry, changed, start};

use crate::bytes::{are_bits, extended, is_bit, is_end, is_number, is_section, is_text, value_of};
use crate::changes::Changes;
use crate::header::{Header, Wanted};
use crate::types::{Change, Stop, VcdKind};
use four_state::Vec4;
use std::alloc::Global;
use vvp_lex::{byte_at, bytes_after, number_value, vector_of};

/// What the body has said so far.
#[derive(Drop)]
pub(crate) struct Body {
    /// The time of what comes.
    pub(crate) time: u64,
    /// Whether a section is open.
    pub(crate) is_open: bool,
    /// The values.
    pub(crate) changes: Changes,
}

impl Body {
    /// A body that has said nothing.
    pub(crate) fn new(alloc: Global) -> Body
        ensures { result ≡ start.body }
    {
        Body {
            time: 0,
            is_open: false,
            changes: Changes::new(alloc),
        }
    }

    /// The values.
    pub(crate) fn into_changes(self) -> Changes
        ensures { result ≡ self.changes }
    {
        self.changes
    }

    /// An entry, or the first word of one.
    #[tactic(auto, unfolding(crate::specs::Reading::entry))]
    pub(crate) fn entry<'a>(&mut self, header: &Header<'a>, word: &'a [u8]) -> Result<Wanted, Stop>
        ensures { Takes result self.new (entry header.now self.old word.now) }
    {
        let byte = byte_at(word, 0);
        let rest = bytes_after(word, 1);
        if byte == b'#' {
            self.time(rest)
        } else if is_section(word) || is_end(word) {
            self.section(word)
        } else if is_text(word, b"$comment") {
            Ok(Wanted::Remark)
        } else if is_bit(byte) {
            self.scalar(header, byte, rest)
        } else if byte == b'b' || byte == b'B' {
            Ok(bits(rest)?)
        } else {
            Err(Stop::Refused(VcdKind::BadWord))
        }
    }

    /// A time, after its `#`.
    #[tactic(auto, unfolding(crate::specs::Reading::time))]
    fn time(&mut self, digits: &[u8]) -> Result<Wanted, Stop>
        ensures { Takes result self.new (time self.old digits.now) }
    {
        if !is_number(digits) {
            return Err(Stop::Refused(VcdKind::BadWord));
        }
        match number_value(digits) {
            Some(time) if time >= self.time => {
                self.time = time;
                Ok(Wanted::Entry)
            }
            Some(_) => Err(Stop::Refused(VcdKind::TimeBack)),
            None => Err(Stop::Refused(VcdKind::BadWord)),
        }
    }

    /// The word that opens a section, or its `$end`.
    #[tactic(auto, unfolding(crate::specs::Reading::section))]
    fn section(&mut self, word: &[u8]) -> Result<Wanted, Stop>
        ensures { Takes result self.new (section self.old word.now) }
    {
        if self.is_open == is_end(word) {
            self.is_open = !self.is_open;
            Ok(Wanted::Entry)
        } else {
            Err(Stop::Refused(VcdKind::BadWord))
        }
    }

    /// A bit and the code of the net that takes it.
    #[tactic(auto, unfolding(crate::specs::Reading::scalar))]
    fn scalar<'a>(&mut self, header: &Header<'a>, byte: u8, code: &'a [u8]) -> Result<Wanted, Stop>
        ensures { Takes result self.new (scalar header.now self.old byte code.now) }
    {
        if code.is_empty() {
            return Err(Stop::Refused(VcdKind::BadWord));
        }
        let Some(net) = header.nets.find(code) else {
            return Err(Stop::Refused(VcdKind::UnknownCode));
        };
        if header.width_of(net) != 1 {
            return Err(Stop::Refused(VcdKind::BadWord));
        }
        self.change(net, value_of(byte))
    }

    /// The code of the net that takes these bits.
    #[tactic(auto, unfolding(crate::specs::Reading::vector))]
    pub(crate) fn vector<'a>(
        &mut self,
        header: &Header<'a>,
        bits: Vec4,
        code: &'a [u8],
    ) -> Result<Wanted, Stop>
        requires { All (λ width. width ≤ 128) header.now.widths }
        ensures { Takes result self.new (vector header.now self.old bits code.now) }
    {
        let Some(net) = header.nets.find(code) else {
            return Err(Stop::Refused(VcdKind::UnknownCode));
        };
        let width = header.width_of(net);
        if width < bits.width() {
            return Err(Stop::Refused(VcdKind::BadWord));
        }
        self.change(net, extended(bits, width))
    }

    /// A net takes a value.
    fn change(&mut self, net: u32, value: Vec4) -> Result<Wanted, Stop>
        ensures { Takes result self.new (Ok (Entry, changed self.old net value)) }
    {
        let time = self.time;
        self.changes.push(Change { time, net, value })?;
        Ok(Wanted::Entry)
    }
}

/// The bits of a value, after its `b` or `B`.
#[tactic(auto, unfolding(crate::specs::Reading::bits, vvp_lex::specs::Vector::vector_of))]
fn bits(word: &[u8]) -> Result<Wanted, VcdKind>
    ensures { result ≡ bits word.now }
{
    match vector_of(word) {
        Some(bits) if are_bits(word) => Ok(Wanted::Code(bits)),
        _ => Err(VcdKind::BadWord),
    }
}
