//! Lists of words of the file, and the codes of nets.

ghost use Rattle.std.specs.Prelude.{◌≡◌, ◌-◌, ◌==◌, [], ◌∷◌, ◌++◌, length, take, not, position, None, OnOk, OnErr};
ghost use Rattle.std.specs.Str.{bytes_eq};

use std::alloc::{AllocError, Global};
use std::collections::BTreeMap;
use std::marker::Model;

/// A list of words of the file. Contracts see the list.
#[derive(Drop)]
pub(crate) struct Names<'a> {
    pub(crate) names: Vec<&'a [u8]>,
}

impl<'a> Model for Names<'a> {
    ghost use Rattle.std.specs.Prelude.{ℕ, List, map};

    ghost Value = { List (List ℕ) };

    ghost view = { λ n. map (λ name. name.now) n.names.items };
}

impl<'a> Names<'a> {
    /// No words. It takes no memory yet.
    pub(crate) fn new(alloc: Global) -> Names<'a>
        ensures { result ≡ [] }
    {
        Names {
            names: Vec::new(alloc),
        }
    }

    /// One word more, at the end. Without memory for it the list stays as it was.
    pub(crate) fn push(&mut self, name: &'a [u8]) -> Result<(), AllocError>
        ensures ok { OnOk result (self.new ≡ self.old ++ name.now ∷ []) }
        ensures err { OnErr result (self.new ≡ self.old) }
    {
        self.names.push(name)?;
        Ok(())
    }

    /// Takes the last word away, and answers whether there was one.
    pub(crate) fn pop(&mut self) -> bool
        ensures some { result ≡ not (length self.old == 0) }
        ensures rest { self.new ≡ take (length self.old - 1) self.old }
    {
        self.names.pop().is_some()
    }
}

/// The codes of the nets, in the order of their nets. Contracts see the list.
///
/// A code is found in a map, so that no file makes the search slow.
#[derive(Drop)]
pub(crate) struct Codes<'a> {
    codes: Names<'a>,
    nets: BTreeMap<&'a [u8], u32>,
}

impl<'a> Model for Codes<'a> {
    ghost use Rattle.std.specs.Prelude.{ℕ, List};
    ghost use Rattle.vcd_read.specs.Codes.{AreFound};

    ghost Value = { List (List ℕ) };

    ghost view = { λ c. c.codes };

    ghost invariant = { λ c. AreFound c.codes c.nets };
}

impl<'a> Codes<'a> {
    /// No codes. It takes no memory yet.
    pub(crate) fn new(alloc: Global) -> Codes<'a>
        ensures { result ≡ [] }
    {
        Codes {
            codes: Names::new(alloc),
            nets: BTreeMap::new(alloc),
        }
    }

    /// The number of the net with a code.
    pub(crate) fn find(&self, code: &'a [u8]) -> Option<u32>
        ensures { result ≡ position (bytes_eq code.now) self.now }
    {
        self.nets.get(&code).copied()
    }

    /// The code of one net more.
    pub(crate) fn push(&mut self, code: &'a [u8], net: u32) -> Result<(), AllocError>
        requires next { net ≡ length self.old }
        requires fresh { position (bytes_eq code.now) self.old ≡ None }
        ensures { OnOk result (self.new ≡ self.old ++ code.now ∷ []) }
    {
        self.codes.push(code)?;
        match self.nets.insert(code, net) {
            Ok(_) => Ok(()),
            Err(error) => {
                self.codes.pop();
                Err(error.into())
            }
        }
    }
}
