ghost use Rattle.std.specs.Prelude.{◌≡◌, ◌+◌, ◌-◌, ◌^◌, ◌<◌, ◌++◌, ◌∷◌, [], Some, None, OnOk, length, map, filter_map, slice_set};
ghost use Rattle.vvp_threads.specs.Table.{slot_at};
ghost use Rattle.vvp_threads.specs.Places.{IsRising, unmarked, place_after, IsFound};

use std::alloc::{AllocError, Global};
use std::marker::Model;

/// A thread's serial, and the key under which it is kept while it is live. The mark serves while threads are chosen.
#[derive(Clone, Copy, Debug, PartialEq, Eq)]
pub(crate) struct Place {
    pub serial: u64,
    pub key: usize,
    pub marked: bool,
    pub ended: bool,
}

/// The places of the live threads, and how many serials were drawn. Contracts see the places by serial, none where a
/// thread has ended, and the room, how many places can be put with no allocation.
///
/// The place of a thread that ends is kept, marked as ended, until more than half of the kept places are so marked. These
/// are taken away together then, so that each end costs constant time on average, besides its look-up. Contracts see how
/// many are kept.
#[derive(Drop)]
pub(crate) struct Places {
    // By rising serial.
    pub(crate) places: Vec<Place>,
    pub(crate) drawn: u64,
    // How many of the places are those of ended threads.
    ended: usize,
}

impl Model for Places {
    ghost use Rattle.std.specs.Prelude.{◌-◌, map, vec_len, vec_capacity};
    ghost use Rattle.vvp_threads.specs.Places.{Places as Listed, spread, unended, IsKept};

    ghost Value = { Listed };

    ghost view = { λ p. record {
      slots = map unended (spread 0 p.drawn p.places.items);
      room = vec_capacity p.places - vec_len p.places;
      ended = p.ended;
    } };

    ghost invariant = { λ p. IsKept p.drawn p.ended p.places.items };
}

/// The place in the list, by rising serial, that has a serial, in time logarithmic in the number of places.
pub(crate) fn find_place(places: &[Place], serial: u64) -> Option<usize>
    requires { IsRising places.now }
    ensures { IsFound places.now serial result }
{
    places
        .binary_search_by_key(&serial, |place| place.serial)
        .ok()
}

impl Places {
    /// No place, and no serial drawn. It takes no memory yet.
    pub fn new(alloc: Global) -> Places
        ensures { result.slots ≡ [] }
    {
        Places {
            places: Vec::new(alloc),
            drawn: 0,
            ended: 0,
        }
    }

    /// Makes room for one more place. Where memory is wanting, the places stay.
    pub fn reserve(&mut self) -> Result<(), AllocError>
        ensures slots { self.new.slots ≡ self.old.slots }
        ensures ok { OnOk result (0 < self.new.room) }
    {
        self.places.reserve(1)
    }

    /// How many serials were drawn.
    pub fn drawn(&self) -> u64
        ensures { result ≡ length self.now.slots }
    {
        self.drawn
    }

    /// How many threads are live, in constant time. One more can be counted.
    pub fn len(&self) -> usize
        ensures count { result ≡ length (filter_map (λ slot. slot) self.now.slots) }
        ensures fits { result < 2 ^ 64 - 1 }
    {
        self.places.len() - self.ended
    }

    /// The places of the live threads, by rising serial, where no others are kept.
    pub fn as_slice(&self) -> &[Place]
        requires { self.now.ended ≡ 0 }
        ensures { result.now ≡ filter_map (λ slot. slot) self.now.slots }
    {
        self.places.as_slice()
    }

    /// The place of the live thread with a serial, in time logarithmic in the number of live threads. None exactly where
    /// there is none.
    pub fn find(&self, serial: u64) -> Option<Place>
        ensures { result ≡ slot_at self.now.slots serial }
    {
        let at = find_place(self.places.as_slice(), serial)?;
        let place = self.places[at];
        if place.ended { None } else { Some(place) }
    }

    /// Draws the next serial, for a thread that is kept under a key.
    pub fn push(&mut self, key: usize)
        requires room { 0 < self.old.room }
        requires drawn { length self.old.slots < 2 ^ 64 - 1 }
        ensures { self.new.slots ≡ self.old.slots ++ Some (place_after self.old.slots key) ∷ [] }
    {
        self.places.push_reserved(Place {
            serial: self.drawn,
            key,
            marked: false,
            ended: false,
        });
        self.drawn += 1;
    }

    /// Takes the place of a serial away, with no allocation. Over many calls it takes constant time on average, besides a
    /// look-up in time logarithmic in the number of live threads.
    pub fn remove(&mut self, serial: u64)
        ensures { self.new.slots ≡ slice_set self.old.slots serial None }
    {
        self.note_end(serial);
        if self.ended > self.places.len() / 2 {
            self.prune();
        }
    }

    // Marks the place of a serial as that of an ended thread.
    fn note_end(&mut self, serial: u64)
        ensures { self.new.slots ≡ slice_set self.old.slots serial None }
    {
        let at = match find_place(self.places.as_slice(), serial) {
            Some(at) => at,
            None => return,
        };
        if self.places[at].ended {
            return;
        }
        self.places[at].ended = true;
        self.ended += 1;
    }

    /// Keeps the places of live threads alone, in time linear in the number of places.
    pub fn prune(&mut self)
        ensures slots { self.new.slots ≡ self.old.slots }
        ensures ended { self.new.ended ≡ 0 }
    {
        self.places.retain(|place| !place.ended);
        self.ended = 0;
    }

    /// Takes all marked places away, in time linear in the number of live threads.
    pub fn remove_marked(&mut self)
        requires { self.old.ended ≡ 0 }
        ensures { self.new.slots ≡ map unmarked self.old.slots }
    {
        self.places.retain(|place| !place.marked);
    }
}
