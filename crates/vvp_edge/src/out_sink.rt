// Bytes that leave the program.
ghost use Rattle.std.specs.Prelude.{◌≡◌, [], None, Ok, OnOk, OnErr};
ghost use Rattle.vvp_edge.specs.Bytes.{Grows, TakesSome};
ghost use Rattle.vvp_edge.specs.Causes.{HasCause};
ghost use Rattle.vvp_edge.specs.Counts.{counted};

use crate::{Failed, Sink};
use std::io;
use std::marker::Model;

/// A sink over a writer of the runtime, as standard output. It tells nothing of the bytes that it
/// hands on, and a write that takes none of them is a fault, as is one that the writer refuses.
/// Contracts see it as its count of faults, which stands still at the end of its 64 bits.
#[derive(Drop)]
pub struct OutSink<W: io::Write> {
    writer: W,
    faults: u64,
}

impl<W: io::Write> Model for OutSink<W> {
    ghost use Rattle.std.specs.Prelude.{ℕ};

    ghost Value = { ℕ };

    ghost view = { λ s. s.faults };
}

impl<W: io::Write> OutSink<W> {
    /// A sink that hands its bytes to this writer, and hasn't failed yet.
    pub fn new(writer: W) -> OutSink<W>
        ensures { result ≡ 0 }
    {
        OutSink { writer, faults: 0 }
    }
}

impl<W: io::Write> Sink for OutSink<W> {
    ghost held = { λ _. None };

    ghost faults = { λ count. count };

    fn write(&mut self, piece: &[u8]) -> Result<usize, Failed>
        ensures count { TakesSome result piece.now }
        ensures held { Grows None None result piece.now }
        ensures cause { HasCause self.old self.new result }
        ensures empty { piece.now ≡ [] → (result ≡ Ok 0) × (self.new ≡ self.old) }
        // How it counts.
        ensures ok { OnOk result (self.new ≡ self.old) }
        ensures err { OnErr result (self.new ≡ counted self.old) }
    {
        if piece.is_empty() {
            return Ok(0);
        }
        match self.writer.write(piece) {
            Ok(count) if count > 0 => Ok(count),
            _ => {
                self.faults = self.faults.saturating_add(1);
                Err(Failed)
            }
        }
    }
}
