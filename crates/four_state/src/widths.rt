ghost use Rattle.std.specs.Prelude.{◌≡◌, [], ◌∷◌, ◌++◌, length, OnOk, OnErr};

use std::alloc::{AllocError, Global};
use std::marker::Model;

/// A list of vector widths, in bits. Contracts see the list.
#[derive(Debug, Drop)]
pub struct Widths {
    items: Vec<u8>,
}

impl Model for Widths {
    ghost use Rattle.std.specs.Prelude.{ℕ, List};

    ghost Value = { List ℕ };

    ghost view = { λ w. w.items.items };
}

impl Widths {
    /// The empty list. It takes no memory yet.
    pub fn new(alloc: Global) -> Widths
        ensures { result ≡ [] }
    {
        Widths {
            items: Vec::new(alloc),
        }
    }

    /// Puts a width at the end.
    ///
    /// # Errors
    ///
    /// `AllocError` where memory is short. The list is then as before.
    pub fn push(&mut self, width: u8) -> Result<(), AllocError>
        ensures ok { OnOk result (self.new ≡ self.old ++ width ∷ []) }
        ensures err { OnErr result (self.new ≡ self.old) }
    {
        self.items.push(width)?;
        Ok(())
    }

    /// The widths in order.
    pub fn as_slice(&self) -> &[u8]
        ensures { result.now ≡ self.now }
    {
        self.items.as_slice()
    }
}
