//! The arguments of a call of a task or a function.

ghost use Rattle.std.specs.Prelude.{◌≡◌, [], ◌∷◌, ◌++◌, OnOk, OnErr, IfOk};
ghost use Rattle.vvp_ops.specs.Arguments.{tokens_in};

use four_state::Vec4;
use std::alloc::{AllocError, Global};
use std::marker::Model;
use vvp_lex::Bytes;

/// An argument, whose symbols are `S`. Widths and places are kept as they are written: the linker tests them.
#[derive(Drop)]
pub enum Arg<S> {
    /// A text: the bytes that it stands for.
    Text(Bytes),
    /// A vector with its size (IEEE 1364-2005, 3.5.1), which is its number of bits: `4'b01xz`, or `4'sb01xz` if it is
    /// signed.
    Based {
        value: Vec4,
        signed: bool,
    },
    /// A symbol.
    Symbol(S),
    /// `$time` (IEEE 1364-2005, 17.7.1).
    Time,
    /// `$stime` (IEEE 1364-2005, 17.7.2).
    ShortTime,
    /// `$simtime`: the time in ticks.
    SimTime,
    /// `S<place,vec4,uwidth>`, or `S<place,vec4,swidth>` if it is signed: the item of the stack at this place, 0 the top,
    /// before the call's pops. A width over 2^64 - 1 counts as that.
    Stack {
        place: u64,
        width: u64,
        signed: bool,
    },
    /// `&A<array, index>`: the word with this index, from 0.
    Word {
        array: S,
        index: u64,
    },
    /// `&PV<item, base, width>`: so many bits from the place `base`, 0 the lowest.
    Part {
        item: S,
        base: u64,
        width: u64,
    },
}

impl<S> Arg<S> {
    /// How many tokens the argument is spelled by.
    pub fn tokens(&self) -> usize
        ensures { result ≡ tokens_in self.now }
    {
        match self {
            Arg::Stack { .. } => 8,
            Arg::Word { .. } => 7,
            Arg::Part { .. } => 9,
            Arg::Text(_)
            | Arg::Based { .. }
            | Arg::Symbol(_)
            | Arg::Time
            | Arg::ShortTime
            | Arg::SimTime => 1,
        }
    }
}

impl Arg<u32> {
    /// An equal argument. The only error is want of memory.
    pub fn copy(&self, alloc: Global) -> Result<Arg<u32>, AllocError>
        ensures { IfOk result (λ copied. copied ≡ self.now) }
    {
        match self {
            Arg::Text(bytes) => Ok(Arg::Text(bytes.copy(alloc)?)),
            Arg::Based { value, signed } => Ok(Arg::Based {
                value: *value,
                signed: *signed,
            }),
            Arg::Symbol(item) => Ok(Arg::Symbol(*item)),
            Arg::Time => Ok(Arg::Time),
            Arg::ShortTime => Ok(Arg::ShortTime),
            Arg::SimTime => Ok(Arg::SimTime),
            Arg::Stack {
                place,
                width,
                signed,
            } => Ok(Arg::Stack {
                place: *place,
                width: *width,
                signed: *signed,
            }),
            Arg::Word { array, index } => Ok(Arg::Word {
                array: *array,
                index: *index,
            }),
            Arg::Part { item, base, width } => Ok(Arg::Part {
                item: *item,
                base: *base,
                width: *width,
            }),
        }
    }
}

/// A list of arguments that owns its memory, in the order in which they are written.
#[derive(Drop)]
pub struct Args<S> {
    args: Vec<Arg<S>>,
}

impl<S> Model for Args<S> {
    ghost use Rattle.std.specs.Prelude.{List};
    ghost use Rattle.vvp_ops.specs.declared.args.Arg.{Arg};

    ghost Value = { List (Arg S) };

    ghost view = { λ a. a.args.items };
}

impl<S: Drop> Args<S> {
    /// No arguments. It takes no memory yet.
    pub fn new(alloc: Global) -> Args<S>
        ensures { result ≡ [] }
    {
        Args {
            args: Vec::new(alloc),
        }
    }

    /// One argument more, at the end. Without memory for it the list stays as it was.
    pub fn push(&mut self, arg: Arg<S>) -> Result<(), AllocError>
        ensures ok { OnOk result (self.new ≡ self.old ++ arg ∷ []) }
        ensures err { OnErr result (self.new ≡ self.old) }
    {
        self.args.push(arg)?;
        Ok(())
    }

    /// The arguments, in order.
    pub fn as_slice(&self) -> &[Arg<S>]
        ensures { result.now ≡ self.now }
    {
        self.args.as_slice()
    }
}

impl Args<u32> {
    /// A list of equal arguments. The only error is want of memory.
    pub fn copy(&self, alloc: Global) -> Result<Args<u32>, AllocError>
        ensures { IfOk result (λ copied. copied ≡ self.now) }
    {
        let mut copied = Args::new(alloc);
        let args = self.as_slice();
        for arg in args {
            copied.push(arg.copy(alloc)?)?;
        }
        Ok(copied)
    }
}
