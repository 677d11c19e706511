// A sink in memory that fails where it is told to.
ghost use Rattle.std.specs.Prelude.{◌≡◌, ◌<◌, ◌≤◌, ◌==◌, [], length, take, Some, Ok, IfOk, OnOk, OnErr, is_err};
ghost use Rattle.vvp_edge.specs.Bytes.{Grows, TakesSome};
ghost use Rattle.vvp_edge.specs.Causes.{HasCause};
ghost use Rattle.vvp_edge.specs.Counts.{also_failing, new_calls};
ghost use Rattle.vvp_edge.specs.MemorySink.{SinkState, after_failed_write, after_write, write_fails, write_takes};

use crate::calls::Calls;
use crate::{Failed, Sink};
use std::alloc::{AllocError, Global};
use std::marker::Model;

/// A sink in memory. It takes as many bytes of a piece as it may take at once and has room for.
#[derive(Drop)]
pub struct MemSink {
    bytes: Vec<u8>,
    most: usize,
    room: usize,
    writes: Calls,
    faults: u64,
}

impl Model for MemSink {
    ghost use Rattle.std.specs.Prelude.{◌≤◌, ◌<◌, ◌+◌, vec_len, vec_capacity};
    ghost use Rattle.vvp_edge.specs.MemorySink.{SinkState};

    ghost Value = { SinkState };

    ghost view = { λ s. record { held = s.bytes.items; most = s.most; room = s.room; writes = s.writes; faults = s.faults } };

    ghost invariant = { λ s. (0 < s.most) × (vec_len s.bytes + s.room ≤ vec_capacity s.bytes) };
}

impl MemSink {
    /// A sink with room for so many bytes, which takes at most `most` of them at once.
    pub fn new(alloc: Global, most: usize, room: usize) -> Result<MemSink, AllocError>
        requires { 1 ≤ most }
        ensures { IfOk result
            (λ sink. sink
            ≡ record { held = []; most = most; room = room; writes = new_calls; faults = 0 }) }
    {
        Ok(MemSink {
            bytes: Vec::with_capacity(alloc, room)?,
            most,
            room,
            writes: Calls::new(alloc),
            faults: 0,
        })
    }

    /// Lets the nth write of a piece that isn't empty fail, counted from 1.
    pub fn fail_at(&mut self, nth: u64) -> Result<(), AllocError>
        ensures ok { OnOk result
            (self.new ≡ record self.old { writes = also_failing nth self.old.writes }) }
        ensures err { OnErr result (self.new ≡ self.old) }
    {
        self.writes.fail_at(nth)
    }

    /// The bytes that it took.
    pub fn held(&self) -> &[u8]
        ensures { result.now ≡ self.now.held }
    {
        &self.bytes
    }
}

impl Sink for MemSink {
    ghost held = { λ s. Some s.held };

    ghost faults = { λ s. s.faults };

    fn write(&mut self, piece: &[u8]) -> Result<usize, Failed>
        ensures count { TakesSome result piece.now }
        ensures held { Grows (Some self.old.held) (Some self.new.held) result piece.now }
        ensures cause { HasCause self.old.faults self.new.faults result }
        ensures empty { piece.now ≡ [] → (result ≡ Ok 0) × (self.new.faults ≡ self.old.faults) }
        // Which write fails, how many bytes another takes, and what each leaves.
        ensures unchanged { piece.now ≡ [] → self.new ≡ self.old }
        ensures fails { 0 < length piece.now → is_err result ≡ write_fails self.old }
        ensures takes { IfOk result (λ n. n ≡ write_takes self.old piece.now) }
        ensures err { OnErr result (self.new ≡ after_failed_write self.old) }
        ensures ok { IfOk result
            (λ n. 0 < length piece.now → self.new ≡ after_write self.old (take n piece.now)) }
    {
        if piece.is_empty() {
            return Ok(0);
        }
        let fails = self.writes.fails_next();
        if self.room == 0 || fails {
            self.faults = self.faults.saturating_add(1);
            return Err(Failed);
        }
        let count = piece.len().min(self.most).min(self.room);
        let _kept = self.bytes.extend_from_slice(&piece[..count]);
        self.room -= count;
        Ok(count)
    }
}
