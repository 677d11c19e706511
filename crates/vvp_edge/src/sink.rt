// What takes bytes.
ghost use Rattle.std.specs.Prelude.{◌≡◌, ℕ, List, [], Option, Ok, OnOk, OnErr};
ghost use Rattle.std.specs.Io.KnownBytes.{append_known};
ghost use Rattle.vvp_edge.specs.Bytes.{Grows, IsPrefix, TakesSome};
ghost use Rattle.vvp_edge.specs.Causes.{HasCause};

/// A call of a sink or a store failed, and its count of faults rose.
#[derive(Clone, Copy, Debug, PartialEq, Eq)]
pub struct Failed;

/// What takes bytes in pieces, as a file or standard output.
pub trait Sink {
    /// The bytes that it holds, where it tells them.
    ghost held: { Self → Option (List ℕ) };

    /// How often it has failed. The count never falls, and stands still at the end of 64 bits.
    ghost faults: { Self → ℕ };

    /// Takes some bytes at the front of the piece, at least one unless it is empty, and answers how
    /// many. A failed write takes none. An empty piece changes nothing.
    fn write(&mut self, piece: &[u8]) -> Result<usize, Failed>
        ensures count { TakesSome result piece.now }
        ensures held { Grows (held self.old) (held self.new) result piece.now }
        ensures cause { HasCause (faults self.old) (faults self.new) result }
        ensures empty { piece.now ≡ [] → (result ≡ Ok 0) × (faults self.new ≡ faults self.old) };
}

/// Hands over all of the bytes, in as many pieces as the sink wants. Where a write fails, the sink
/// has taken a prefix of them.
pub fn send_all<K: Sink>(sink: &mut K, bytes: &[u8]) -> Result<(), Failed>
    ensures ok { OnOk result (K.held sink.new ≡ append_known (K.held sink.old) bytes.now) }
    ensures err { OnErr result
        ((sent : List ℕ) × IsPrefix sent bytes.now
        × (K.held sink.new ≡ append_known (K.held sink.old) sent)) }
    ensures cause { HasCause (K.faults sink.old) (K.faults sink.new) result }
{
    let mut sent = 0;
    while sent < bytes.len() {
        let taken = sink.write(&bytes[sent..])?;
        sent += taken;
    }
    Ok(())
}
