//! The values of a dump, in little memory.

ghost use Rattle.std.specs.Prelude.{◌≡◌, [], ◌∷◌, ◌++◌, length, OnOk, OnErr};
ghost use Rattle.std.specs.Iterator.{YieldsFirst, item_count};
ghost use Rattle.vcd_read.specs.Kept.{value_of, others, IsThere};

use crate::types::Change;
use four_state::{Bit, Vec4};
use std::alloc::{AllocError, Global};
use std::marker::Model;

/// A value as it is kept.
#[derive(Clone, Copy)]
pub(crate) struct Kept {
    /// When, in units of the dump's time.
    pub(crate) time: u64,
    /// The number of the net.
    pub(crate) net: u32,
    /// The bit, where the value has one place. A wider value is the next of the wide ones.
    pub(crate) bit: Option<Bit>,
}

/// A list of values of nets that owns its memory. Contracts see the list.
///
/// A value of one place takes 16 bytes, a wider one 64.
#[derive(Drop)]
pub struct Changes {
    kept: Vec<Kept>,
    wide: Vec<Vec4>,
}

impl Model for Changes {
    ghost use Rattle.std.specs.Prelude.{List};
    ghost use Rattle.vcd_read.specs.declared.types.Change.{Change};
    ghost use Rattle.vcd_read.specs.Kept.{changes_of, AreEnough};

    ghost Value = { List Change };

    ghost view = { λ c. changes_of c.kept.items c.wide.items };

    ghost invariant = { λ c. AreEnough c.kept.items c.wide.items };
}

impl Changes {
    /// No values. It takes no memory yet.
    pub fn new(alloc: Global) -> Changes
        ensures { result ≡ [] }
    {
        Changes {
            kept: Vec::new(alloc),
            wide: Vec::new(alloc),
        }
    }

    /// One value more, at the end. Without memory for it the list stays as it was.
    pub fn push(&mut self, change: Change) -> Result<(), AllocError>
        ensures ok { OnOk result (self.new ≡ self.old ++ change ∷ []) }
        ensures err { OnErr result (self.new ≡ self.old) }
    {
        let Change { time, net, value } = change;
        if value.width() == 1 {
            let bit = Some(value.bit(0));
            self.kept.push(Kept { time, net, bit })?;
            return Ok(());
        }
        self.wide.push(value)?;
        match self.kept.push(Kept {
            time,
            net,
            bit: None,
        }) {
            Ok(()) => Ok(()),
            Err(error) => {
                self.wide.pop();
                Err(error.into())
            }
        }
    }

    /// How many values there are.
    pub fn len(&self) -> usize
        ensures { result ≡ length self.now }
    {
        self.kept.len()
    }

    /// The values, in order.
    pub fn iter(&self) -> ChangesIter<'_>
        ensures { result ≡ self.now }
    {
        ChangesIter {
            kept: self.kept.as_slice(),
            wide: self.wide.as_slice(),
        }
    }
}

/// The values of a list that are still to come, in order. Contracts see the list of them.
#[derive(Drop)]
pub struct ChangesIter<'a> {
    kept: &'a [Kept],
    wide: &'a [Vec4],
}

impl<'a> Model for ChangesIter<'a> {
    ghost use Rattle.std.specs.Prelude.{List};
    ghost use Rattle.vcd_read.specs.declared.types.Change.{Change};
    ghost use Rattle.vcd_read.specs.Kept.{changes_of, AreEnough};

    ghost Value = { List Change };

    ghost view = { λ c. changes_of c.kept.now c.wide.now };

    ghost invariant = { λ c. AreEnough c.kept.now c.wide.now };
}

impl<'a> Iterator for ChangesIter<'a> {
    type Item = Change;

    ghost next_gives = { YieldsFirst (λ c. c) };

    ghost remaining = { item_count (λ c. c) };

    fn next(&mut self) -> Option<Change> {
        let (kept, later) = self.kept.split_first()?;
        let Kept { time, net, bit } = *kept;
        let (value, wide) = value_of(bit, self.wide);
        self.kept = later;
        self.wide = wide;
        Some(Change { time, net, value })
    }
}

/// A value as it is kept, and the wide ones after it.
fn value_of(bit: Option<Bit>, wide: &[Vec4]) -> (Vec4, &[Vec4])
    requires { IsThere bit wide.now }
    ensures value { result.0 ≡ value_of bit wide.now }
    ensures others { result.1.now ≡ others bit wide.now }
{
    match bit {
        Some(bit) => (Vec4::splat(bit, 1), wide),
        None => (wide[0], &wide[1..]),
    }
}
