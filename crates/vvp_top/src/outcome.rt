//! How a call of the program ends.

ghost use Rattle.std.specs.Prelude.{◌≡◌, true};
ghost use Rattle.vvp_top.specs.Ends.{Says};
ghost use Rattle.vvp_top.specs.Texts.{ending_name, fixed_line, is_ended, line_of, status_of, trap_name};
ghost use Rattle.vvp_top.specs.Whole.{ended};

use crate::pieces::say_pieces;
use crate::refusal::Why;
use itoa::Buffer;
use op_exec::TrapKind;
use sim_core::Ending;
use vvp_edge::Sink;

/// How a call of the program ends.
#[derive(Clone, Copy, Debug, PartialEq, Eq)]
pub enum Outcome {
    /// The run ended by `$finish`.
    Finish,
    /// The run ended by `$stop`.
    Stop,
    /// The run ended with nothing left to do.
    Idle,
    /// Nothing was run: the report on a dump was put out.
    Reported,
    /// The words aren't those of a call of the program.
    BadWords,
    /// The file has no program, is no dump, or has a dump that can't be reported on. `line` is that on which its first faulty
    /// statement or word begins, counted from 1, or 0 where the file as a whole is refused.
    Refused { line: u32, why: Why },
    /// The run didn't end within its budget of steps.
    Spent,
    /// An opcode couldn't be done. `address` is its place among the opcodes of the file, from 0.
    Trap { kind: TrapKind, address: u32 },
    /// The store failed.
    StoreFault,
    /// The output failed.
    OutputFault,
    /// Memory ran out.
    Memory,
    /// No file has the name.
    NoFile,
}

// The name of a kind of trap, as the program says it.
fn trap_name(kind: TrapKind) -> &'static [u8]
    ensures { result.now ≡ trap_name kind }
{
    match kind {
        TrapKind::StackUnder => b"StackUnder",
        TrapKind::StackOver => b"StackOver",
        TrapKind::Width => b"Width",
        TrapKind::Wide => b"Wide",
        TrapKind::NoChild => b"NoChild",
        TrapKind::OffEnd => b"OffEnd",
        TrapKind::TimeOver => b"TimeOver",
        TrapKind::ThreadsOver => b"ThreadsOver",
    }
}

/// How a run ended, or that its budget of steps is spent.
pub(crate) fn ended(ending: Option<Ending>) -> Outcome
    ensures ended { result ≡ ended ending }
    ensures own { is_ended result ≡ true }
{
    match ending {
        Some(Ending::Finish) => Outcome::Finish,
        Some(Ending::Stop) => Outcome::Stop,
        Some(Ending::Idle) => Outcome::Idle,
        Some(Ending::Trap { kind, address }) => Outcome::Trap { kind, address },
        None => Outcome::Spent,
    }
}

impl Outcome {
    /// The status of the program.
    pub fn status(self) -> u8
        ensures { result ≡ status_of self }
    {
        match self {
            Outcome::Finish | Outcome::Stop | Outcome::Idle | Outcome::Reported => 0,
            Outcome::BadWords => 1,
            Outcome::Refused { .. } => 2,
            Outcome::Spent => 3,
            Outcome::Trap { .. } => 4,
            Outcome::StoreFault => 5,
            Outcome::OutputFault => 6,
            Outcome::Memory => 7,
            Outcome::NoFile => 8,
        }
    }

    /// The name of the end of a run, as the line of its counts has it; of any other outcome there is none.
    pub(crate) fn ending_name(self) -> &'static [u8]
        ensures { result.now ≡ ending_name self }
    {
        match self {
            Outcome::Finish => b"finish",
            Outcome::Stop => b"stop",
            Outcome::Idle => b"idle",
            Outcome::Spent => b"spent",
            Outcome::Trap { .. } => b"trap",
            _ => b"",
        }
    }

    // What is said of it, but of a refusal and of a trap, of which more is said.
    fn fixed_line(self) -> &'static [u8]
        ensures { result.now ≡ fixed_line self }
    {
        match self {
            Outcome::BadWords => b"vvp: bad words\n",
            Outcome::Spent => b"vvp: budget spent\n",
            Outcome::StoreFault => b"vvp: store fault\n",
            Outcome::OutputFault => b"vvp: output fault\n",
            Outcome::Memory => b"vvp: out of memory\n",
            Outcome::NoFile => b"vvp: no such file\n",
            _ => b"",
        }
    }

    /// Says the program's line on it, with its line feed, or nothing. Where the sink fails, a front of the line was said.
    pub fn say<M: Sink>(self, errs: &mut M)
        ensures { Says (line_of self) (M.held errs.old) (M.held errs.new) (M.faults errs.old) (M.faults errs.new) }
    {
        match self {
            Outcome::Refused { line, why } => {
                let mut digits = Buffer::new();
                let line = digits.format(line).as_bytes();
                say_pieces(errs, &[b"vvp: line ", line, b": ", why.text(), b"\n"]);
            }
            Outcome::Trap { kind, address } => {
                let mut digits = Buffer::new();
                let address = digits.format(address).as_bytes();
                say_pieces(
                    errs,
                    &[b"vvp: trap ", trap_name(kind), b" at ", address, b"\n"],
                );
            }
            _ => say_pieces(errs, &[self.fixed_line()]),
        }
    }
}
