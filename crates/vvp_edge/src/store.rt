// A store of named files, one of which is read and one of which is written.
ghost use Rattle.std.specs.Prelude.{◌≡◌, ◌+◌, ◌-◌, ◌<◌, ◌≤◌, ℕ, Bool, true, false, List, [], Option, Some, Ok, length, take, IsTrue, IsSome, IfOk, IfSome, OnOk, OnErr, IsErrOf, MatchResult};
ghost use Rattle.std.specs.FinMap as map;
ghost use Rattle.std.specs.Option.{option_map};
ghost use Rattle.std.specs.Io.{ReadsAtMost};
ghost use Rattle.std.specs.Io.KnownBytes.{prepend_known, IsAtEnd};
ghost use Rattle.vvp_edge.specs.Bytes.{IsPrefix, TakesSome, TellsAtMost};
ghost use Rattle.vvp_edge.specs.Causes.{HasCause, Rose};
ghost use Rattle.vvp_edge.specs.Files.{Files, appended};

use crate::Failed;
use std::alloc::{AllocError, AllocFailed, Global};

/// A store of named files. A failed call leaves files, reading, writing and target as they were.
pub trait Store {
    /// The bytes of each file, where they are told. What isn't told before a call isn't told after
    /// it.
    ghost files: { Self → Option Files };

    /// The bytes of the opened file that are still to be read, where they are told.
    ghost reading: { Self → Option (List ℕ) };

    /// Whether a file is being written.
    ghost writing: { Self → Bool };

    /// The name of that file, where it is told.
    ghost target: { Self → Option (List ℕ) };

    /// How often it has failed. The count never falls, and stands still at the end of 64 bits.
    ghost faults: { Self → ℕ };

    /// Opens the file of this name for reading. `false` says that no file has the name.
    fn open_file(&mut self, name: &[u8]) -> Result<bool, Failed>
        ensures found { IfOk result
            (λ found. IfSome (files self.old) (λ m. found ≡ map.contains_key m name.now)) }
        ensures opened { IfOk result
            (λ found. found ≡ true
            → IfSome (files self.old) (λ m. reading self.new ≡ map.get m name.now)) }
        ensures absent { IfOk result
            (λ found. found ≡ false → reading self.new ≡ reading self.old) }
        ensures telling { IsSome (reading self.old) → IsSome (reading self.new) }
        ensures err { OnErr result (reading self.new ≡ reading self.old) }
        ensures files { files self.new ≡ files self.old }
        ensures writing { writing self.new ≡ writing self.old }
        ensures target { target self.new ≡ target self.old }
        ensures cause { HasCause (faults self.old) (faults self.new) result }
        ensures no_fault { OnOk result (faults self.new ≡ faults self.old) };

    /// Puts the next bytes at the front of `room`, and answers how many. None come where there is
    /// room only at the end.
    fn read(&mut self, room: &mut [u8]) -> Result<usize, Failed>
        ensures bound { ReadsAtMost result room.new }
        ensures bytes { IfOk result
            (λ n. reading self.old ≡ prepend_known (take n room.new) (reading self.new)) }
        ensures end { IfOk result (λ n. n ≡ 0 → 0 < length room.new → IsAtEnd (reading self.new)) }
        ensures err { OnErr result (reading self.new ≡ reading self.old) }
        ensures files { files self.new ≡ files self.old }
        ensures writing { writing self.new ≡ writing self.old }
        ensures target { target self.new ≡ target self.old }
        ensures cause { HasCause (faults self.old) (faults self.new) result }
        ensures no_fault { OnOk result (faults self.new ≡ faults self.old) };

    /// Makes the file of this name empty, and it is the one that is written from now on. The other
    /// files stay.
    fn create(&mut self, name: &[u8]) -> Result<(), Failed>
        ensures files { OnOk result
            (TellsAtMost (files self.new)
            (option_map (λ m. map.insert m name.now []) (files self.old))) }
        ensures writing { OnOk result (IsTrue (writing self.new)) }
        ensures target { OnOk result (TellsAtMost (target self.new) (Some name.now)) }
        ensures told { OnOk result (IsSome (files self.new) → IsSome (target self.new)) }
        ensures err { OnErr result
            ((files self.new ≡ files self.old) × (writing self.new ≡ writing self.old)
            × (target self.new ≡ target self.old)) }
        ensures reading { reading self.new ≡ reading self.old }
        ensures cause { HasCause (faults self.old) (faults self.new) result }
        ensures no_fault { OnOk result (faults self.new ≡ faults self.old) };

    /// Adds some bytes at the front of the piece to the file that is written, and answers how many.
    fn append(&mut self, piece: &[u8]) -> Result<usize, Failed>
        requires { IsTrue (writing self.old) }
        ensures count { TakesSome result piece.now }
        ensures files { MatchResult result
            (λ n. files self.new ≡ appended (files self.old) (target self.old) (take n piece.now))
            (λ _. files self.new ≡ files self.old) }
        ensures reading { reading self.new ≡ reading self.old }
        ensures writing { writing self.new ≡ writing self.old }
        ensures target { target self.new ≡ target self.old }
        ensures cause { HasCause (faults self.old) (faults self.new) result }
        ensures no_fault { OnOk result (faults self.new ≡ faults self.old) }
        ensures empty { piece.now ≡ [] → (result ≡ Ok 0) × (faults self.new ≡ faults self.old) };

    /// Where the files are told, the name of the one that is written is told.
    ghost target_told: { (store : Self) → IsSome (files store) → IsTrue (writing store)
        → IsSome (target store) };
}

/// Adds all of the bytes to the file that is written, in as many pieces as the store wants. Where
/// an append fails, a prefix of them was added.
pub fn append_all<S: Store>(store: &mut S, bytes: &[u8]) -> Result<(), Failed>
    requires { IsTrue (S.writing store.old) }
    ensures ok { OnOk result
        (S.files store.new ≡ appended (S.files store.old) (S.target store.old) bytes.now) }
    ensures err { OnErr result
        ((sent : List ℕ) × IsPrefix sent bytes.now
        × (S.files store.new ≡ appended (S.files store.old) (S.target store.old) sent)) }
    ensures reading { S.reading store.new ≡ S.reading store.old }
    ensures writing { S.writing store.new ≡ S.writing store.old }
    ensures target { S.target store.new ≡ S.target store.old }
    ensures cause { HasCause (S.faults store.old) (S.faults store.new) result }
    ensures no_fault { OnOk result (S.faults store.new ≡ S.faults store.old) }
{
    let mut sent = 0;
    while sent < bytes.len() {
        let taken = store.append(&bytes[sent..])?;
        sent += taken;
    }
    Ok(())
}

/// Why a source wasn't read to its end.
#[derive(Clone, Copy, Debug, PartialEq, Eq)]
pub enum ReadFault {
    /// A read of the store failed, and its count of faults rose.
    Failed,
    /// The source has more than `MOST_SOURCE` bytes.
    TooLarge,
    /// There was no memory for its bytes.
    Memory,
}

/// How many bytes a source has at most: 64 MiB.
pub const MOST_SOURCE: usize = 67_108_864;

// The bytes that one read may give.
const ROOM: usize = 65_536;

impl From<Failed> for ReadFault {
    ghost use Rattle.vvp_edge.specs.declared.store.ReadFault.TheVariants.{Failed as FailedRead};

    ghost from_gives = { λ _ e. e ≡ FailedRead };

    fn from(_: Failed) -> Self {
        ReadFault::Failed
    }
}

impl From<AllocError> for ReadFault {
    ghost use Rattle.std.specs.Prelude.{◌≡◌};
    ghost use Rattle.vvp_edge.specs.declared.store.ReadFault.TheVariants.{Memory};

    ghost from_gives = { λ _ e. e ≡ Memory };

    fn from(_: AllocError) -> Self {
        ReadFault::Memory
    }
}

// Reads what is left, where it is at most `most` bytes, by the bytes that `room` has place for.
fn read_at_most<S: Store>(
    store: &mut S,
    mut bytes: Vec<u8>,
    room: &mut [u8],
    most: usize,
) -> Result<Vec<u8>, ReadFault>
    requires room { 0 < length room.old }
    requires none { bytes.items ≡ [] }
    ensures bytes { IfOk result (λ v. IfSome (S.reading store.old) (λ left. v.items ≡ left)) }
    ensures end { OnOk result (IsAtEnd (S.reading store.new)) }
    ensures fits { IfOk result (λ v. length v.items ≤ most) }
    ensures large { IsErrOf result ReadFault.TooLarge
        → IfSome (S.reading store.old) (λ left. most < length left) }
    ensures failed { IsErrOf result ReadFault.Failed
        → Rose (S.faults store.old) (S.faults store.new) }
    ensures later { S.faults store.old ≤ S.faults store.new }
    ensures no_fault { OnOk result (S.faults store.new ≡ S.faults store.old) }
    ensures files { S.files store.new ≡ S.files store.old }
    ensures writing { S.writing store.new ≡ S.writing store.old }
    ensures target { S.target store.new ≡ S.target store.old }
{
    loop {
        let count = store.read(room)?;
        if count == 0 {
            return Ok(bytes);
        }
        if most - bytes.len() < count {
            return Err(ReadFault::TooLarge);
        }
        bytes.extend_from_slice(&room[..count])?;
    }
}

// This many zeros.
fn zeros(alloc: Global, count: usize) -> Result<Vec<u8>, AllocError>
    ensures { IfOk result (λ v. length v.items ≡ count) }
{
    vec![in alloc; 0u8; count]
}

/// Reads what is left of the opened file, to its end. Nothing else of the store changes.
pub fn read_source<S: Store>(alloc: Global, store: &mut S) -> Result<Vec<u8>, ReadFault>
    ensures bytes { IfOk result (λ v. IfSome (S.reading store.old) (λ left. v.items ≡ left)) }
    ensures end { OnOk result (IsAtEnd (S.reading store.new)) }
    ensures fits { IfOk result (λ v. length v.items ≤ MOST_SOURCE) }
    ensures large { IsErrOf result ReadFault.TooLarge
        → IfSome (S.reading store.old) (λ left. MOST_SOURCE < length left) }
    ensures failed { IsErrOf result ReadFault.Failed
        → Rose (S.faults store.old) (S.faults store.new) }
    ensures later { S.faults store.old ≤ S.faults store.new }
    ensures no_fault { OnOk result (S.faults store.new ≡ S.faults store.old) }
    ensures files { S.files store.new ≡ S.files store.old }
    ensures writing { S.writing store.new ≡ S.writing store.old }
    ensures target { S.target store.new ≡ S.target store.old }
{
    let mut room = zeros(alloc, ROOM)?;
    read_at_most(store, Vec::new(alloc), &mut room, MOST_SOURCE)
}
