//! Bytes that are handed over in pieces.

ghost use Rattle.std.specs.Prelude.{◌≡◌, ◌<◌, ◌≤◌, ℕ, List, IsTrue, OnOk, OnErr};
ghost use Rattle.std.specs.List.{flat_map};
ghost use Rattle.std.specs.Io.KnownBytes.{append_known};
ghost use Rattle.vvp_edge.specs.Bytes.{IsPrefix};
ghost use Rattle.vvp_edge.specs.Causes.{HasCause};
ghost use Rattle.vvp_edge.specs.Files.{appended};
ghost use Rattle.vvp_top.specs.Ends.{Says, SaysOrFails};

use vvp_edge::{Failed, Sink, Store, append_all, send_all};

/// The most bytes of a piece.
pub(crate) const PIECE: usize = 65_536;

/// Says texts one after another, up to the first that fails.
pub(crate) fn try_say<M: Sink>(errs: &mut M, texts: &[&[u8]]) -> Result<(), Failed>
    ensures said { SaysOrFails result (flat_map (λ text. text.now) texts.now) (M.held errs.old) (M.held errs.new) (M.faults errs.old) (M.faults errs.new) }
    ensures later { M.faults errs.old ≤ M.faults errs.new }
{
    for text in texts {
        match send_all(errs, text) {
            Ok(()) => {}
            Err(failed) => return Err(failed),
        }
    }
    Ok(())
}

/// The same, with no answer.
pub(crate) fn say_pieces<M: Sink>(errs: &mut M, texts: &[&[u8]])
    ensures { Says (flat_map (λ text. text.now) texts.now) (M.held errs.old) (M.held errs.new) (M.faults errs.old) (M.faults errs.new) }
{
    let _said = try_say(errs, texts);
}

/// Hands over all of the bytes, at most so many at once. Where a write fails, the sink has taken a prefix of them.
pub(crate) fn send_pieces<K: Sink>(sink: &mut K, bytes: &[u8], most: usize) -> Result<(), Failed>
    requires { 0 < most }
    ensures ok { OnOk result (K.held sink.new ≡ append_known (K.held sink.old) bytes.now) }
    ensures err { OnErr result
        ((sent : List ℕ) × IsPrefix sent bytes.now
        × (K.held sink.new ≡ append_known (K.held sink.old) sent)) }
    ensures cause { HasCause (K.faults sink.old) (K.faults sink.new) result }
{
    let mut sent = 0;
    while sent < bytes.len() {
        let count = most.min(bytes.len() - sent);
        send_all(sink, &bytes[sent..sent + count])?;
        sent += count;
    }
    Ok(())
}

/// Adds all of the bytes to the file that is written, at most so many at once. Where an append fails, a prefix of them was
/// added.
pub(crate) fn append_pieces<S: Store>(
    store: &mut S,
    bytes: &[u8],
    most: usize,
) -> Result<(), Failed>
    requires some { 0 < most }
    requires writing { IsTrue (S.writing store.old) }
    ensures ok { OnOk result (S.files store.new ≡ appended (S.files store.old) (S.target store.old) bytes.now) }
    ensures err { OnErr result
        ((sent : List ℕ) × IsPrefix sent bytes.now
        × (S.files store.new ≡ appended (S.files store.old) (S.target store.old) sent)) }
    ensures writing { S.writing store.new ≡ S.writing store.old }
    ensures target { S.target store.new ≡ S.target store.old }
    ensures cause { HasCause (S.faults store.old) (S.faults store.new) result }
{
    let mut sent = 0;
    while sent < bytes.len() {
        let count = most.min(bytes.len() - sent);
        append_all(store, &bytes[sent..sent + count])?;
        sent += count;
    }
    Ok(())
}
