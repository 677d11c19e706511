// A sink and a store that never fail.
ghost use Rattle.std.specs.Prelude.{◌≡◌, [], false};

use crate::mem_files::{copy_front, same_name};
use crate::{Failed, Sink, Store};
use std::marker::Model;

/// A sink that takes every piece whole, and keeps and tells nothing of it. It never fails.
#[derive(Clone, Copy, Debug)]
pub struct HonestSink;

impl HonestSink {
    /// A sink.
    pub fn new() -> HonestSink {
        HonestSink
    }
}

impl Sink for HonestSink {
    ghost use Rattle.std.specs.Prelude.{None};

    ghost held = { λ _. None };

    ghost faults = { λ _. 0 };

    fn write(&mut self, piece: &[u8]) -> Result<usize, Failed> {
        Ok(piece.len())
    }
}

/// A store that lends one file. It tells its files until the first one is created, and nothing of them from then on: what it is
/// given to write it takes, and keeps nothing of it. It never fails.
#[derive(Drop)]
pub struct HonestStore<'a> {
    name: &'a [u8],
    bytes: &'a [u8],
    // What of the file is still to be read.
    rest: &'a [u8],
    writing: bool,
}

impl<'a> Model for HonestStore<'a> {
    ghost use Rattle.vvp_edge.specs.Honest.{LentState};

    ghost Value = { LentState };

    ghost view = { λ s. record { name = s.name.now; bytes = s.bytes.now; reading = s.rest.now; writing = s.writing } };
}

impl<'a> HonestStore<'a> {
    /// A store with this file alone. None is opened.
    pub fn new(name: &'a [u8], bytes: &'a [u8]) -> HonestStore<'a>
        ensures { result ≡ record { name = name.entry.now; bytes = bytes.entry.now; reading = []; writing = false } }
    {
        HonestStore {
            name,
            bytes,
            rest: &bytes[..0],
            writing: false,
        }
    }
}

impl<'a> Store for HonestStore<'a> {
    ghost use Rattle.std.specs.Prelude.{None, Some};
    ghost use Rattle.vvp_edge.specs.Honest.{told_files, nothing_told};

    ghost files = { λ s. told_files s };

    ghost reading = { λ s. Some s.reading };

    ghost writing = { λ s. s.writing };

    ghost target = { λ _. None };

    ghost faults = { λ _. 0 };

    ghost target_told = { λ s told writing. nothing_told s told writing };

    fn open_file(&mut self, name: &[u8]) -> Result<bool, Failed> {
        if !same_name(self.name, name) {
            return Ok(false);
        }
        self.rest = self.bytes;
        Ok(true)
    }

    fn read(&mut self, room: &mut [u8]) -> Result<usize, Failed> {
        let count = copy_front(room, self.rest);
        self.rest = &self.rest[count..];
        Ok(count)
    }

    fn create(&mut self, _name: &[u8]) -> Result<(), Failed> {
        self.writing = true;
        Ok(())
    }

    fn append(&mut self, piece: &[u8]) -> Result<usize, Failed> {
        Ok(piece.len())
    }
}
