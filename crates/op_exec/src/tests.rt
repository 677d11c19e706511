//! Short programs, as lists of opcodes, and what they leave on the stack.

ghost use Rattle.std.specs.Prelude.{All, [], ◌∷◌};
ghost use Rattle.op_exec.specs.Executable.{IsExecutable};

use crate::{Effect, Local, TrapKind, exec, exec_local};
use four_state::{Bit, Values, Vec4};
use std::alloc::Global;
use std::test::Fail;
use vvp_ops::Op;
use vvp_threads::Frame;

/// A design whose items are arrays of four words that are all alike.
#[derive(Drop)]
struct Alike {
    word: Vec4,
}

impl Values for Alike {
    ghost use Rattle.std.specs.Prelude.{[], ◌∷◌};

    ghost words_of = { λ held item. held.word ∷ held.word ∷ held.word ∷ held.word ∷ [] };

    fn value(&self, _item: u32, _word: u32) -> Vec4 {
        self.word
    }

    fn words(&self, _item: u32) -> u32 {
        4
    }
}

/// Does the opcodes in order, until one asks something of the run.
fn run<V: Values>(ops: &[Op<u32>], t: &mut Frame, v: &V) -> Result<Effect, Fail>
    requires { All (IsExecutable (V.words_of v.now)) ops.now }
{
    for op in ops {
        match exec(op, t, v)? {
            Effect::Next => {}
            effect => return Ok(effect),
        }
    }
    Ok(Effect::Next)
}

/// Whether the opcodes, on a thread that starts, end with this effect and leave these items, the top last.
fn leaves(
    alloc: Global,
    word: Vec4,
    ops: &[Op<u32>],
    effect: Effect,
    items: &[Vec4],
) -> Result<bool, Fail>
    requires { All (IsExecutable (λ item. word ∷ word ∷ word ∷ word ∷ [])) ops.now }
{
    let mut t = Frame::new(alloc, 0);
    let last = run(ops, &mut t, &Alike { word })?;
    Ok(last == effect && t.stack.as_slice() == items)
}

/// Four copies of 32 ones, and 1 more.
fn replicate_wraps(alloc: Global) -> Result<bool, Fail> {
    let ops = [
        Op::PushImmediate {
            low: 4294967295,
            high: 0,
            width: 32,
        },
        Op::Replicate { count: 4 },
        Op::AddImmediate {
            low: 1,
            high: 0,
            width: 128,
        },
    ];
    let zero = Vec4::from_planes(0, 0, 128);
    leaves(alloc, zero, &ops, Effect::Next, &[zero])
}

/// A sum of nothing, and a sum of 3 and 4 bits.
fn stack_traps(alloc: Global) -> Result<bool, Fail> {
    let (three, four) = (Vec4::from_planes(1, 0, 3), Vec4::from_planes(1, 0, 4));
    let ops = [
        Op::PushImmediate {
            low: 1,
            high: 0,
            width: 3,
        },
        Op::PushImmediate {
            low: 1,
            high: 0,
            width: 4,
        },
        Op::Add,
    ];
    let under = Effect::Trap(TrapKind::StackUnder);
    let width = Effect::Trap(TrapKind::Width);
    Ok(
        leaves(alloc, four, &[Op::Add], under, &[])?
            && leaves(alloc, four, &ops, width, &[three, four])?,
    )
}

/// A vector of 4 bits, the highest first.
fn spelled(bits: [Bit; 4]) -> Vec4 {
    Vec4::splat(bits[3], 4)
        .with_bit(1, bits[2])
        .with_bit(2, bits[1])
        .with_bit(3, bits[0])
}

/// x at each place; `0x01`; z at each place; `0z01`.
fn printed_unknowns(alloc: Global) -> Result<bool, Fail> {
    let (zero, one, x, z) = (Bit::Zero, Bit::One, Bit::Unknown, Bit::HighZ);
    let ops = [
        Op::PushImmediate {
            low: 15,
            high: 15,
            width: 4,
        },
        Op::PushImmediate {
            low: 5,
            high: 4,
            width: 4,
        },
        Op::PushImmediate {
            low: 0,
            high: 15,
            width: 4,
        },
        Op::PushImmediate {
            low: 1,
            high: 4,
            width: 4,
        },
    ];
    let items = [
        spelled([x, x, x, x]),
        spelled([zero, x, zero, one]),
        spelled([z, z, z, z]),
        spelled([zero, z, zero, one]),
    ];
    leaves(alloc, spelled([z, z, z, z]), &ops, Effect::Next, &items)
}

/// A write to word 2 of an array, a read of it, and a read of word 4 of the four from 0.
fn array_words(alloc: Global) -> Result<bool, Fail> {
    let (word, unknown) = (Vec4::from_planes(171, 0, 8), Vec4::splat(Bit::Unknown, 8));
    let stores = [
        Op::IndexLoad {
            register: 3,
            low: 2,
            high: 0,
        },
        Op::FlagImmediate { flag: 4, value: 0 },
        Op::PushImmediate {
            low: 171,
            high: 0,
            width: 8,
        },
        Op::StoreWord {
            array: 1,
            index: 3,
            offset: 0,
        },
    ];
    let set = Effect::Set {
        item: 1,
        word: 2,
        offset: 0,
        value: word,
    };
    let loads = [
        Op::IndexLoad {
            register: 3,
            low: 2,
            high: 0,
        },
        Op::LoadWord { array: 1, index: 3 },
        Op::IndexLoad {
            register: 3,
            low: 4,
            high: 0,
        },
        Op::LoadWord { array: 1, index: 3 },
    ];
    Ok(
        leaves(alloc, unknown, &stores, set, &[])?
            && leaves(alloc, word, &loads, Effect::Next, &[word, unknown])?,
    )
}

/// Whether a jump asks no more than to go on, and the end of a thread more.
fn local_rows(alloc: Global) -> bool {
    let values = Alike {
        word: Vec4::splat(Bit::One, 1),
    };
    let mut t = Frame::new(alloc, 0);
    let jump = exec_local(&Op::Jump { target: 3 }, &mut t, &values);
    jump == Some(Local::Goto(3)) && exec_local(&Op::End, &mut t, &values).is_none()
}

#[test]
fn opcode_lists(rt: HostRuntime) -> Result<(), Fail> {
    let alloc = rt.alloc();
    assert!(rt; replicate_wraps(alloc)?);
    assert!(rt; stack_traps(alloc)?);
    assert!(rt; printed_unknowns(alloc)?);
    assert!(rt; array_words(alloc)?);
    assert!(rt; local_rows(alloc));
    Ok(())
}
