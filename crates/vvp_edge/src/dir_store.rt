// The files of the system.
ghost use Rattle.std.specs.Prelude.{◌≡◌, None, false};

use crate::{Failed, Store};
use std::fs::Files;
use std::io::{ErrorKind, Read, Write};
use std::marker::Model;
use std::{fs, str};

/// The files that the runtime reaches, named by their paths. It tells nothing of their names and
/// bytes. A name that isn't UTF-8 is a fault, as is whatever the system refuses but a file that
/// isn't found, and an append of which the system takes nothing. Its count of faults stands still
/// at the end of its 64 bits.
#[derive(Drop)]
pub struct DirStore<'a, R: Files> {
    rt: &'a R,
    source: Option<R::File>,
    target: Option<R::File>,
    faults: u64,
}

impl<'a, R: Files> Model for DirStore<'a, R> {
    ghost use Rattle.std.specs.Prelude.{is_some};
    ghost use Rattle.vvp_edge.specs.System.{SystemState};

    ghost Value = { SystemState };

    ghost view = { λ s. record { writing = is_some s.target; faults = s.faults } };
}

impl<'a, R: Files> DirStore<'a, R> {
    /// The files of this runtime. None is opened, none is being written, and no call has failed.
    pub fn new(rt: &'a R) -> DirStore<'a, R>
        ensures { result ≡ record { writing = false; faults = 0 } }
    {
        DirStore {
            rt,
            source: None,
            target: None,
            faults: 0,
        }
    }
}

impl<'a, R: Files> Store for DirStore<'a, R> {
    ghost files = { λ _. None };

    ghost reading = { λ _. None };

    ghost writing = { λ s. s.writing };

    ghost target = { λ _. None };

    ghost faults = { λ s. s.faults };

    ghost target_told = { λ s told writing. told };

    fn open_file(&mut self, name: &[u8]) -> Result<bool, Failed> {
        if let Ok(path) = str::from_utf8(name) {
            match fs::open(self.rt, path) {
                Ok(file) => {
                    self.source = Some(file);
                    return Ok(true);
                }
                Err(error) => {
                    if error.kind() == ErrorKind::NotFound {
                        return Ok(false);
                    }
                }
            }
        }
        self.faults = self.faults.saturating_add(1);
        Err(Failed)
    }

    fn read(&mut self, room: &mut [u8]) -> Result<usize, Failed> {
        if let Some(file) = &mut self.source {
            if let Ok(count) = file.read(room) {
                return Ok(count);
            }
        }
        self.faults = self.faults.saturating_add(1);
        Err(Failed)
    }

    fn create(&mut self, name: &[u8]) -> Result<(), Failed> {
        if let Ok(path) = str::from_utf8(name) {
            if let Ok(file) = fs::create(self.rt, path) {
                self.target = Some(file);
                return Ok(());
            }
        }
        self.faults = self.faults.saturating_add(1);
        Err(Failed)
    }

    fn append(&mut self, piece: &[u8]) -> Result<usize, Failed> {
        if piece.is_empty() {
            return Ok(0);
        }
        if let Some(file) = &mut self.target {
            match file.write(piece) {
                Ok(count) if count > 0 => return Ok(count),
                _ => {}
            }
        }
        self.faults = self.faults.saturating_add(1);
        Err(Failed)
    }
}
