//! What a dump says, and why a file is no dump.

ghost use Rattle.std.specs.Prelude.{◌≡◌, [], ◌∷◌, ◌++◌, OnOk, OnErr};
ghost use Rattle.vcd_read.specs.declared.types.VcdFault.TheVariants as vcd_fault;
ghost use Rattle.vcd_read.specs.declared.types.Stop.TheVariants as stop;

use crate::changes::Changes;
use four_state::{Vec4, Widths};
use std::alloc::{AllocError, AllocFailed, Global};
use std::marker::Model;
use vvp_lex::Bytes;

/// What a dump says.
#[derive(Drop)]
pub struct Trace {
    /// The unit of its times is 10 to this power seconds.
    pub power: i8,
    /// The width of each net, in bits. Nets are numbered from 0 in the order of their first declaration.
    pub widths: Widths,
    /// The variables, in file order.
    pub vars: Vars,
    /// The values, in file order.
    pub changes: Changes,
}

/// A variable: a name of a net (IEEE 1364-2005, 18.2.3.7).
#[derive(Drop)]
pub struct VcdVar {
    /// The names of the open scopes and its own, joined by `.`.
    pub path: Bytes,
    /// The number of its net.
    pub net: u32,
}

/// A value that a net takes.
#[derive(Clone, Copy)]
pub struct Change {
    /// When, in units of the dump's time.
    pub time: u64,
    /// The number of the net.
    pub net: u32,
    /// The value, as wide as the net.
    pub value: Vec4,
}

/// A list of variables that owns its memory. Contracts see the list.
#[derive(Drop)]
pub struct Vars {
    vars: Vec<VcdVar>,
}

impl Model for Vars {
    ghost use Rattle.std.specs.Prelude.{List};
    ghost use Rattle.vcd_read.specs.declared.types.VcdVar.{VcdVar};

    ghost Value = { List VcdVar };

    ghost view = { λ v. v.vars.items };
}

impl Vars {
    /// No variables. It takes no memory yet.
    pub fn new(alloc: Global) -> Vars
        ensures { result ≡ [] }
    {
        Vars {
            vars: Vec::new(alloc),
        }
    }

    /// One variable more, at the end. Without memory for it the list stays as it was.
    pub fn push(&mut self, var: VcdVar) -> Result<(), AllocError>
        ensures ok { OnOk result (self.new ≡ self.old ++ var ∷ []) }
        ensures err { OnErr result (self.new ≡ self.old) }
    {
        self.vars.push(var)?;
        Ok(())
    }

    /// The variables, in order.
    pub fn as_slice(&self) -> &[VcdVar]
        ensures { result.now ≡ self.now }
    {
        self.vars.as_slice()
    }
}

/// Why a file is no dump.
#[derive(Clone, Copy, Debug, PartialEq, Eq)]
pub enum VcdKind {
    /// A byte that is neither white space nor part of a word.
    BadByte,
    /// A word that can't stand at its place.
    BadWord,
    /// A width of more than 128 bits.
    TooWide,
    /// A code that isn't declared.
    UnknownCode,
    /// A time below the last one.
    TimeBack,
    /// The file ends within its header, a command or a section.
    OpenEnd,
}

/// Why a file was not read.
#[derive(Clone, Copy, Debug, PartialEq, Eq)]
pub enum VcdFault {
    /// The first fault by place, and its line, counted from 1.
    Refused { line: u32, kind: VcdKind },
    /// There was no memory left.
    Memory,
}

/// Why a word was not taken.
#[derive(Clone, Copy)]
pub(crate) enum Stop {
    /// It can't stand at its place.
    Refused(VcdKind),
    /// There was no memory left.
    Memory,
}

impl From<VcdKind> for Stop {
    ghost from_gives = { λ kind found. found ≡ stop.Refused kind };

    fn from(kind: VcdKind) -> Stop {
        Stop::Refused(kind)
    }
}

impl From<AllocError> for Stop {
    ghost from_gives = { λ _ found. found ≡ stop.Memory };

    fn from(_error: AllocError) -> Stop {
        Stop::Memory
    }
}

impl<T: Drop> From<AllocFailed<T>> for Stop {
    ghost from_gives = { λ _ found. found ≡ stop.Memory };

    fn from(_error: AllocFailed<T>) -> Stop {
        Stop::Memory
    }
}

impl From<AllocError> for VcdFault {
    ghost from_gives = { λ _ found. found ≡ vcd_fault.Memory };

    fn from(_error: AllocError) -> VcdFault {
        VcdFault::Memory
    }
}
