// A store in memory that fails where it is told to.
ghost use Rattle.std.specs.Prelude.{◌≡◌, ◌<◌, ◌≤◌, ◌+◌, ◌-◌, ◌==◌, ◌||◌, ◌++◌, ◌∷◌, [], length, take, drop, min, Some, None, Ok, IfOk, IfSome, OnOk, OnErr, is_err, is_some, map, option_map, All, ℕ, vec_len, true, false, IsTrue, IsSome, MatchResult};
ghost use Rattle.std.specs.FinMap as finite;
ghost use Rattle.vvp_edge.specs.MemoryStore.{StoreState, entries_of, files_in, files_of, entry_of, target_name, told_to_fail, named_target, create_fails, after_create, after_append};
ghost use Rattle.vvp_edge.specs.Counts.{counted, fails_next, new_calls, next_call};
ghost use Rattle.std.specs.Io.{ReadsAtMost};
ghost use Rattle.std.specs.Io.KnownBytes.{prepend_known, IsAtEnd};
ghost use Rattle.vvp_edge.specs.Bytes.{TakesSome, TellsAtMost};
ghost use Rattle.vvp_edge.specs.Causes.{HasCause};
ghost use Rattle.vvp_edge.specs.Files.{appended};

use crate::calls::{CallKind, Calls};
use crate::mem_files::{
    NamedFile, copy_front, find_file, keep, next_file, refill, same_name, spare_files,
};
use crate::{Failed, Store};
use std::alloc::{AllocError, Global};
use std::marker::Model;

// How many files may be created.
const MOST_CREATES: usize = 8;

/// A store in memory. The files that it creates have one room for their names and bytes.
#[derive(Drop)]
pub struct MemStore {
    alloc: Global,
    kept: Vec<NamedFile>,
    target: Option<NamedFile>,
    spare: Vec<NamedFile>,
    reading: Vec<u8>,
    read: usize,
    room: usize,
    opens: Calls,
    reads: Calls,
    creates: Calls,
    appends: Calls,
    faults: u64,
}

impl Model for MemStore {
    ghost use Rattle.std.specs.Prelude.{◌<◌, ◌≤◌, ◌+◌, vec_len, vec_capacity, drop, map, option_map, All, IfSome};
    ghost use Rattle.vvp_edge.specs.MemoryStore.{StoreState, IsSpare, entry_of};

    ghost Value = { StoreState };

    ghost view = { λ s. record {
      kept = map entry_of s.kept.items;
      target = option_map entry_of s.target;
      reading = drop s.read s.reading.items;
      creates_left = vec_len s.spare;
      room = s.room;
      opens = s.opens;
      reads = s.reads;
      creates = s.creates;
      appends = s.appends;
      faults = s.faults;
    } };

    ghost invariant = { λ s. (s.read ≤ vec_len s.reading)
        × (vec_len s.kept + vec_len s.spare < vec_capacity s.kept)
        × All (λ f. vec_len f.bytes + s.room ≤ vec_capacity s.reading) s.kept.items
        × IfSome s.target (λ f. (vec_len f.bytes + s.room ≤ vec_capacity s.reading)
        × (vec_len f.bytes + s.room ≤ vec_capacity f.bytes))
        × All (IsSpare s.room) s.spare.items
        × (s.room ≤ vec_capacity s.reading)
        × (vec_len s.spare ≤ 8) };
}

impl MemStore {
    /// A store with no files, and with room for so many bytes of files that are created.
    pub fn new(alloc: Global, room: usize) -> Result<MemStore, AllocError>
        ensures { IfOk result (λ store. store ≡ record {
          kept = [];
          target = None;
          reading = [];
          creates_left = 8;
          room = room;
          opens = new_calls;
          reads = new_calls;
          creates = new_calls;
          appends = new_calls;
          faults = 0;
        }) }
    {
        Ok(MemStore {
            alloc,
            kept: Vec::with_capacity(alloc, MOST_CREATES + 1)?,
            target: None,
            spare: spare_files(alloc, MOST_CREATES, room)?,
            reading: Vec::with_capacity(alloc, room)?,
            read: 0,
            room,
            opens: Calls::new(alloc),
            reads: Calls::new(alloc),
            creates: Calls::new(alloc),
            appends: Calls::new(alloc),
            faults: 0,
        })
    }

    /// Lets the nth call of a kind fail, counted from 1. Appends of nothing aren't counted.
    pub fn fail_at(&mut self, kind: CallKind, nth: u64) -> Result<(), AllocError>
        ensures ok { OnOk result (self.new ≡ told_to_fail kind nth self.old) }
        ensures err { OnErr result (self.new ≡ self.old) }
    {
        match kind {
            CallKind::OpenFile => self.opens.fail_at(nth),
            CallKind::Read => self.reads.fail_at(nth),
            CallKind::Create => self.creates.fail_at(nth),
            CallKind::Append => self.appends.fail_at(nth),
        }
    }

    /// Puts a file in the place of what stood under its name.
    pub fn put_file(&mut self, name: &[u8], bytes: &[u8]) -> Result<(), AllocError>
        // Nothing was created yet.
        requires { self.old.target ≡ None }
        ensures ok { OnOk result
            (self.new ≡ record self.old { kept = self.old.kept ++ (name.now, bytes.now) ∷ [] }) }
        ensures files { OnOk result
            (files_of self.new ≡ finite.insert (files_of self.old) name.now bytes.now) }
        ensures err { OnErr result (self.new ≡ self.old) }
    {
        let most = match bytes.len().checked_add(self.room) {
            Some(most) => most,
            None => return Err(AllocError),
        };
        let file = NamedFile {
            name: name.to_vec(self.alloc)?,
            bytes: bytes.to_vec(self.alloc)?,
        };
        self.reading.reserve(most)?;
        self.kept.reserve(MOST_CREATES + 2)?;
        keep(&mut self.kept, Some(file));
        Ok(())
    }

    // Adds some bytes of a piece that isn't empty.
    fn append_some(&mut self, piece: &[u8]) -> Result<usize, Failed>
        requires writing { IsTrue (is_some self.old.target) }
        requires some { 0 < length piece.now }
        ensures fails { is_err result ≡ ((self.old.room == 0) || fails_next self.old.appends) }
        ensures takes { IfOk result (λ n. n ≡ min (length piece.now) self.old.room) }
        ensures some { IfOk result (λ n. 0 < n) }
        ensures failed { OnErr result
            (self.new
            ≡ record self.old { appends = next_call self.old.appends; faults = counted self.old.faults }) }
        ensures cause { HasCause self.old.faults self.new.faults result }
        ensures done { IfOk result (λ n. self.new ≡ after_append self.old (take n piece.now)) }
    {
        let fails = self.appends.fails_next();
        if self.room == 0 || fails {
            self.faults = self.faults.saturating_add(1);
            return Err(Failed);
        }
        let count = piece.len().min(self.room);
        match &mut self.target {
            None => {}
            Some(file) => {
                let _kept = file.bytes.extend_from_slice(&piece[..count]);
            }
        }
        self.room -= count;
        Ok(count)
    }

    /// The bytes of the file of this name.
    pub fn file(&self, name: &[u8]) -> Option<&[u8]>
        ensures { option_map (λ bytes. bytes.now) result ≡ finite.get (files_of self.now) name.now }
    {
        match newest(&self.kept, &self.target, name) {
            Some(file) => Some(&file.bytes),
            None => None,
        }
    }
}

impl Store for MemStore {
    ghost files = { λ s. Some (files_of s) };

    ghost reading = { λ s. Some s.reading };

    ghost writing = { λ s. is_some s.target };

    ghost target = { λ s. target_name s };

    ghost faults = { λ s. s.faults };

    ghost target_told = { λ s told writing. named_target s.target writing };

    fn open_file(&mut self, name: &[u8]) -> Result<bool, Failed>
        ensures found { IfOk result
            (λ found. found ≡ finite.contains_key (files_of self.old) name.now) }
        ensures opened { IfOk result
            (λ found. found ≡ true
            → Some self.new.reading ≡ finite.get (files_of self.old) name.now) }
        ensures absent { IfOk result
            (λ found. found ≡ false → Some self.new.reading ≡ Some self.old.reading) }
        ensures telling { IsSome (Some self.old.reading) → IsSome (Some self.new.reading) }
        ensures err { OnErr result (Some self.new.reading ≡ Some self.old.reading) }
        ensures files { Some (files_of self.new) ≡ Some (files_of self.old) }
        ensures writing { is_some self.new.target ≡ is_some self.old.target }
        ensures target { target_name self.new ≡ target_name self.old }
        ensures cause { HasCause self.old.faults self.new.faults result }
        ensures no_fault { OnOk result (self.new.faults ≡ self.old.faults) }
        // Which call fails, and what it leaves.
        ensures fails { is_err result ≡ fails_next self.old.opens }
        ensures failed { OnErr result
            (self.new
            ≡ record self.old { opens = next_call self.old.opens; faults = counted self.old.faults }) }
        ensures done { OnOk result
            (self.new
            ≡ record self.old { opens = next_call self.old.opens; reading = self.new.reading }) }
    {
        if self.opens.fails_next() {
            self.faults = self.faults.saturating_add(1);
            return Err(Failed);
        }
        match newest(&self.kept, &self.target, name) {
            None => Ok(false),
            Some(file) => {
                refill(&mut self.reading, &file.bytes);
                self.read = 0;
                Ok(true)
            }
        }
    }

    fn read(&mut self, room: &mut [u8]) -> Result<usize, Failed>
        ensures bound { ReadsAtMost result room.new }
        ensures bytes { IfOk result
            (λ n. Some self.old.reading ≡ prepend_known (take n room.new) (Some self.new.reading)) }
        ensures end { IfOk result
            (λ n. n ≡ 0 → 0 < length room.new → IsAtEnd (Some self.new.reading)) }
        ensures err { OnErr result (Some self.new.reading ≡ Some self.old.reading) }
        ensures files { Some (files_of self.new) ≡ Some (files_of self.old) }
        ensures writing { is_some self.new.target ≡ is_some self.old.target }
        ensures target { target_name self.new ≡ target_name self.old }
        ensures cause { HasCause self.old.faults self.new.faults result }
        ensures no_fault { OnOk result (self.new.faults ≡ self.old.faults) }
        // Which call fails, how many bytes another gives, and what each leaves.
        ensures fails { is_err result ≡ fails_next self.old.reads }
        ensures gives { IfOk result (λ n. n ≡ min (length room.old) (length self.old.reading)) }
        ensures failed { OnErr result
            (self.new
            ≡ record self.old { reads = next_call self.old.reads; faults = counted self.old.faults }) }
        ensures done { IfOk result
            (λ n. self.new
            ≡ record self.old { reads = next_call self.old.reads; reading = drop n self.old.reading }) }
    {
        if self.reads.fails_next() {
            self.faults = self.faults.saturating_add(1);
            return Err(Failed);
        }
        let count = copy_front(room, &self.reading[self.read..]);
        self.read += count;
        Ok(count)
    }

    fn create(&mut self, name: &[u8]) -> Result<(), Failed>
        ensures files { OnOk result
            (TellsAtMost (Some (files_of self.new))
            (Some (finite.insert (files_of self.old) name.now []))) }
        ensures writing { OnOk result (IsTrue (is_some self.new.target)) }
        ensures target { OnOk result (TellsAtMost (target_name self.new) (Some name.now)) }
        ensures told { OnOk result
            (IsSome (Some (files_of self.new)) → IsSome (target_name self.new)) }
        ensures err { OnErr result
            ((Some (files_of self.new) ≡ Some (files_of self.old))
            × (is_some self.new.target ≡ is_some self.old.target)
            × (target_name self.new ≡ target_name self.old)) }
        ensures reading { Some self.new.reading ≡ Some self.old.reading }
        ensures cause { HasCause self.old.faults self.new.faults result }
        ensures no_fault { OnOk result (self.new.faults ≡ self.old.faults) }
        // Which call fails, and what it leaves.
        ensures fails { is_err result ≡ create_fails self.old name.now }
        ensures failed { OnErr result
            (self.new
            ≡ record self.old { creates = next_call self.old.creates; faults = counted self.old.faults }) }
        ensures done { OnOk result (self.new ≡ after_create self.old name.now) }
    {
        let fails = self.creates.fails_next();
        if fails || self.room < name.len() {
            self.faults = self.faults.saturating_add(1);
            return Err(Failed);
        }
        match next_file(&mut self.spare, name, self.room) {
            None => {
                self.faults = self.faults.saturating_add(1);
                Err(Failed)
            }
            Some(file) => {
                let done = self.target.replace(file);
                keep(&mut self.kept, done);
                self.room -= name.len();
                Ok(())
            }
        }
    }

    fn append(&mut self, piece: &[u8]) -> Result<usize, Failed>
        requires { IsTrue (is_some self.old.target) }
        ensures count { TakesSome result piece.now }
        ensures files { MatchResult result
            (λ n. Some (files_of self.new) ≡ appended (Some (files_of self.old))
            (target_name self.old) (take n piece.now))
            (λ _. Some (files_of self.new) ≡ Some (files_of self.old)) }
        ensures reading { Some self.new.reading ≡ Some self.old.reading }
        ensures writing { is_some self.new.target ≡ is_some self.old.target }
        ensures target { target_name self.new ≡ target_name self.old }
        ensures cause { HasCause self.old.faults self.new.faults result }
        ensures no_fault { OnOk result (self.new.faults ≡ self.old.faults) }
        ensures empty { piece.now ≡ [] → (result ≡ Ok 0) × (self.new.faults ≡ self.old.faults) }
        // Which call fails, how many bytes another takes, and what each leaves.
        ensures unchanged { piece.now ≡ [] → self.new ≡ self.old }
        ensures fails { 0 < length piece.now
            → is_err result ≡ ((self.old.room == 0) || fails_next self.old.appends) }
        ensures takes { IfOk result (λ n. n ≡ min (length piece.now) self.old.room) }
        ensures failed { OnErr result
            (self.new
            ≡ record self.old { appends = next_call self.old.appends; faults = counted self.old.faults }) }
        ensures done { IfOk result
            (λ n. 0 < length piece.now → self.new ≡ after_append self.old (take n piece.now)) }
    {
        if piece.is_empty() {
            return Ok(0);
        }
        self.append_some(piece)
    }
}

// The newest file of this name.
fn newest<'a>(
    kept: &'a [NamedFile],
    target: &'a Option<NamedFile>,
    name: &[u8],
) -> Option<&'a NamedFile>
    ensures found { option_map (λ f. f.now.bytes.items) result ≡ finite.get
        (files_in (entries_of (map entry_of kept.now) (option_map entry_of target.now))) name.now }
    ensures bounded { (most room : ℕ) → All (λ f. vec_len f.bytes + room ≤ most) kept.now
        → IfSome target.now (λ f. vec_len f.bytes + room ≤ most)
        → IfSome result (λ f. vec_len f.now.bytes + room ≤ most) }
{
    match target {
        None => find_file(kept, name),
        Some(file) => {
            if same_name(&file.name, name) {
                Some(file)
            } else {
                find_file(kept, name)
            }
        }
    }
}
