ghost use Rattle.std.specs.Prelude.{◌≡◌, ◌≢◌, ℕ, ◌+◌, ◌<◌, ◌≤◌, List, length, slice_index, replicate, IfOk, vec_len, vec_capacity};
ghost use Rattle.std.specs.List.{position_from};
ghost use Rattle.event_pool.specs.Chain.{items_of, IsChain, IsLaidOut, IsLinked, joined_slots, joined_ends, ends_without as without_place};
ghost use Rattle.event_pool.specs.declared.pool.Ends.{Ends};

use std::alloc::{AllocError, Global};
use std::marker::Model;

/// The place that no slot has.
const NONE: usize = usize::MAX;

/// An item and the place of the slot that follows it. A free slot has the item that it had last.
#[derive(Clone, Copy)]
struct Slot<E: Copy> {
    item: Option<E>,
    next: usize,
}

/// The places of a queue's first and last slot. Of an empty queue the head is `NONE`.
#[derive(Clone, Copy)]
struct Ends {
    head: usize,
    tail: usize,
}

/// Queues of items in one vector of slots. A slot has one next field, which leads to the next item
/// of its queue or to the next free slot, so the slot of a taken item is used again with no
/// allocation.
///
/// A contract sees the items of each queue in order, and `spare`, how many more can be put with no
/// allocation. Queues are numbered from 0. Only `new`, `reserve` and `items` allocate.
#[derive(Drop)]
pub struct Pool<E: Copy> {
    slots: Vec<Slot<E>>,
    ends: Vec<Ends>,
    // The first of the free slots.
    free: usize,
    // How many slots are free.
    spare: usize,
}

impl<E: Copy> Model for Pool<E> {
    ghost use Rattle.std.specs.Prelude.{List, ℕ, length, map};
    ghost use Rattle.event_pool.specs.Contents.{Contents, contents_code};

    ghost Value = { Contents E };

    ghost coded = { contents_code E.code };

    ghost use Rattle.event_pool.specs.Chain.{items_from, IsLinked};

    ghost view = { λ p. record {
      queues = map (λ ends. items_from p.slots.items (length p.slots.items) ends.head) p.ends.items;
      spare = p.spare;
    } };

    ghost invariant = { λ p. (queues : List (List (ℕ × E)))
        × IsLinked p.slots.items p.ends.items p.free p.spare queues };
}

// Leads the first queue's last slot to the second's first. The ends of both together.
fn join<E: Copy>(slots: &mut [Slot<E>], first: Ends, second: Ends) -> Ends
    requires { first.head ≢ NONE → first.tail < length slots.old }
    ensures slots { slots.new ≡ joined_slots slots.old first second }
    ensures ends { result ≡ joined_ends first second }
{
    if first.head == NONE {
        return second;
    }
    if second.head == NONE {
        return first;
    }
    slots[first.tail].next = second.head;
    Ends {
        head: first.head,
        tail: second.tail,
    }
}

// The ends of a queue that loses the slot at `place`, which follows the one at `before`.
fn ends_without(ends: Ends, before: usize, place: usize) -> Ends
    ensures { result ≡ without_place ends before place }
{
    Ends {
        head: ends.head,
        tail: if place == ends.tail {
            before
        } else {
            ends.tail
        },
    }
}

// The place of the k-th slot, from 0, of the chain that starts at a place.
fn place_after<E: Copy>(slots: &[Slot<E>], start: usize, k: usize) -> usize
    requires { (places : List ℕ) × IsChain slots.now start places × (k < length places) }
    ensures { (places : List ℕ) → IsChain slots.now start places → k < length places
        → result ≡ slice_index places k }
{
    let mut place = start;
    'walk: for _ in 0..k {
        place = slots[place].next;
    }
    place
}

// How many slots the chain has that starts at a place.
fn chain_len<E: Copy>(slots: &[Slot<E>], start: usize) -> usize
    requires { (places : List ℕ) × IsChain slots.now start places
        × (length places ≤ length slots.now) }
    ensures { (places : List ℕ) → IsChain slots.now start places
        → length places ≤ length slots.now → result ≡ length places }
{
    let mut place = start;
    for n in 0..slots.len() {
        if place == NONE {
            return n;
        }
        place = slots[place].next;
    }
    slots.len()
}

// The items of a queue whose first slot is at a place, in order.
fn chain_items<E: Copy>(
    alloc: Global,
    slots: &[Slot<E>],
    start: usize,
) -> Result<Vec<E>, AllocError>
    requires { (queue : List (ℕ × E)) × IsLaidOut slots.now start queue }
    ensures { IfOk result (λ items.
        (queue : List (ℕ × E)) → IsLaidOut slots.now start queue → items.items ≡ items_of queue) }
{
    let mut items = Vec::new(alloc);
    let mut place = start;
    'walk: for _ in 0..slots.len() {
        if place == NONE {
            return Ok(items);
        }
        let slot = slots[place];
        items.push(slot.item.unwrap())?;
        place = slot.next;
    }
    Ok(items)
}

// The place in a queue, from 0, of its first item equal to `e`.
fn find_item<E: Copy + Eq>(slots: &[Slot<E>], start: usize, e: E) -> Option<usize>
    requires { (queue : List (ℕ × E)) × IsLaidOut slots.now start queue }
    ensures { (queue : List (ℕ × E)) → IsLaidOut slots.now start queue
        → result ≡ position_from (λ x. E.eq x e) 0 (items_of queue) }
{
    let mut place = start;
    for k in 0..slots.len() {
        if place == NONE {
            return None;
        }
        let slot = slots[place];
        if slot.item.unwrap() == e {
            return Some(k);
        }
        place = slot.next;
    }
    None
}

// The ends of so many empty queues.
fn no_ends(alloc: Global, queues: u32) -> Result<Vec<Ends>, AllocError>
    ensures { IfOk result
        (λ ends. ends.items ≡ replicate queues (record { head = NONE; tail = NONE })) }
{
    let mut ends = Vec::with_capacity(alloc, queues as usize)?;
    'each: for _ in 0..queues {
        ends.push(Ends {
            head: NONE,
            tail: NONE,
        })?;
    }
    Ok(ends)
}

// Adds free slots before the others. The first of them.
fn add_free<E: Copy>(slots: &mut Vec<Slot<E>>, free: usize, more: usize) -> usize
    requires { vec_len slots.old + more ≤ vec_capacity slots.old }
    ensures { (ends : List Ends) (spare : ℕ) (queues : List (List (ℕ × E)))
        → IsLinked slots.old.items ends free spare queues
        → IsLinked slots.new.items ends result (spare + more) queues }
{
    let mut first = free;
    'add: for _ in 0..more {
        let place = slots.len();
        let _ = slots.push(Slot {
            item: None,
            next: first,
        });
        first = place;
    }
    first
}

impl<E: Copy> Pool<E> {
    ghost use Rattle.std.specs.Prelude.{[], ◌∷◌, ◌++◌, drop, slice_get, slice_set, max, Some, is_some, OnSome, IfNone, IfOk, OnOk, OnErr, replicate, remove};
    ghost use Rattle.event_pool.specs.Contents.{queue_at, with_queue};

    /// Empty queues, as many as given, and no slot.
    pub fn new(alloc: Global, queues: u32) -> Result<Pool<E>, AllocError>
        ensures { IfOk result (λ p. p ≡ record { queues = replicate queues []; spare = 0 }) }
    {
        Ok(Pool {
            slots: Vec::new(alloc),
            ends: no_ends(alloc, queues)?,
            free: NONE,
            spare: 0,
        })
    }

    /// Makes room for `n` items besides those that are there, in time linear in the slots that are
    /// added, but for the copy that a vector makes when it grows. Where memory is wanting, all stays.
    pub fn reserve(&mut self, n: usize) -> Result<(), AllocError>
        ensures ok { OnOk result
            (self.new ≡ record { queues = self.old.queues; spare = max n self.old.spare }) }
        ensures err { OnErr result (self.new ≡ self.old) }
    {
        if n <= self.spare {
            return Ok(());
        }
        let more = n - self.spare;
        self.slots.reserve(more)?;
        self.free = add_free(&mut self.slots, self.free, more);
        self.spare = n;
        Ok(())
    }

    /// How many items can be put with no allocation, in constant time.
    pub fn spare(&self) -> usize
        ensures { result ≡ self.now.spare }
    {
        self.spare
    }

    /// How many items a queue has, in time linear in their number.
    pub fn len(&self, q: u32) -> usize
        requires { q < length self.now.queues }
        ensures { result ≡ length (queue_at self.now q) }
    {
        chain_len(&self.slots, self.ends[q as usize].head)
    }

    /// Whether a queue has an item, in constant time.
    pub fn has_any(&self, q: u32) -> bool
        requires { q < length self.now.queues }
        ensures { result ≡ is_some (slice_get (queue_at self.now q) 0) }
    {
        let head = self.ends[q as usize].head;
        if head == NONE {
            return false;
        }
        true
    }

    /// The first item of a queue, in constant time. None exactly where the queue is empty.
    pub fn first(&self, q: u32) -> Option<E>
        requires { q < length self.now.queues }
        ensures { result ≡ slice_get (queue_at self.now q) 0 }
    {
        let head = self.ends[q as usize].head;
        if head == NONE {
            return None;
        }
        self.slots[head].item
    }

    /// The k-th item of a queue, from 0, in time linear in `k`.
    pub fn item(&self, q: u32, k: usize) -> E
        requires queue { q < length self.now.queues }
        requires within { k < length (queue_at self.now q) }
        ensures { slice_get (queue_at self.now q) k ≡ Some result }
    {
        let place = place_after(&self.slots, self.ends[q as usize].head, k);
        match self.slots[place].item {
            Some(item) => item,
            None => unreachable!(),
        }
    }

    /// The items of a queue, in order, in time linear in their number.
    pub fn items(&self, alloc: Global, q: u32) -> Result<Vec<E>, AllocError>
        requires { q < length self.now.queues }
        ensures { IfOk result (λ items. items.items ≡ queue_at self.now q) }
    {
        chain_items(alloc, &self.slots, self.ends[q as usize].head)
    }

    /// Puts an item last in a queue, in constant time.
    pub fn push_back(&mut self, q: u32, e: E)
        requires queue { q < length self.old.queues }
        requires room { 0 < self.old.spare }
        ensures queues { self.new.queues ≡ with_queue self.old q (queue_at self.old q ++ e ∷ []) }
        ensures spare { self.new.spare + 1 ≡ self.old.spare }
    {
        let place = self.free;
        let slot = &mut self.slots[place];
        self.free = slot.next;
        slot.item = Some(e);
        slot.next = NONE;
        self.spare -= 1;
        let alone = Ends {
            head: place,
            tail: place,
        };
        let ends = join(&mut self.slots, self.ends[q as usize], alone);
        self.ends[q as usize] = ends;
    }

    /// Takes the first item of a queue, in constant time. None exactly where the queue is empty, and
    /// then all stays.
    pub fn pop_front(&mut self, q: u32) -> Option<E>
        requires { q < length self.old.queues }
        ensures first { result ≡ slice_get (queue_at self.old q) 0 }
        ensures rest { OnSome result
            (self.new.queues ≡ with_queue self.old q (drop 1 (queue_at self.old q))) }
        ensures spare { OnSome result (self.new.spare ≡ self.old.spare + 1) }
        ensures none { IfNone result (self.new ≡ self.old) }
    {
        if !self.has_any(q) {
            return None;
        }
        Some(self.take_first(q))
    }

    // Takes the first item of a queue that has one, in constant time. Of its slot the next field alone is written.
    fn take_first(&mut self, q: u32) -> E
        requires queue { q < length self.old.queues }
        requires some { 0 < length (queue_at self.old q) }
        ensures item { slice_get (queue_at self.old q) 0 ≡ Some result }
        ensures queues { self.new.queues ≡ with_queue self.old q (remove (queue_at self.old q) 0) }
        ensures spare { self.new.spare ≡ self.old.spare + 1 }
    {
        let ends = self.ends[q as usize];
        let slot = &mut self.slots[ends.head];
        let next = slot.next;
        slot.next = self.free;
        self.ends[q as usize] = Ends {
            head: next,
            tail: ends.tail,
        };
        self.free = ends.head;
        self.spare += 1;
        match self.slots[ends.head].item {
            Some(item) => item,
            None => unreachable!(),
        }
    }

    /// Puts all items of one queue behind those of another, in constant time.
    pub fn move_all(&mut self, from: u32, to: u32)
        requires from { from < length self.old.queues }
        requires to { to < length self.old.queues }
        requires apart { from ≢ to }
        ensures queues { self.new.queues
            ≡ slice_set (with_queue self.old to (queue_at self.old to ++ queue_at self.old from)) from [] }
        ensures spare { self.new.spare ≡ self.old.spare }
    {
        let moved = self.ends[from as usize];
        let ends = join(&mut self.slots, self.ends[to as usize], moved);
        self.ends[to as usize] = ends;
        self.ends[from as usize] = Ends {
            head: NONE,
            tail: NONE,
        };
    }

    /// Takes the k-th item of a queue, from 0, in time linear in `k`.
    pub fn take_at(&mut self, q: u32, k: usize) -> E
        requires queue { q < length self.old.queues }
        requires within { k < length (queue_at self.old q) }
        ensures item { slice_get (queue_at self.old q) k ≡ Some result }
        ensures queues { self.new.queues ≡ with_queue self.old q (remove (queue_at self.old q) k) }
        ensures spare { self.new.spare ≡ self.old.spare + 1 }
    {
        if k == 0 {
            return self.take_first(q);
        }
        let ends = self.ends[q as usize];
        let before = place_after(&self.slots, ends.head, k - 1);
        let place = self.slots[before].next;
        let slot = self.slots[place];
        self.slots[before].next = slot.next;
        self.slots[place] = Slot {
            item: slot.item,
            next: self.free,
        };
        self.ends[q as usize] = ends_without(ends, before, place);
        self.free = place;
        self.spare += 1;
        slot.item.unwrap()
    }
}

impl<E: Copy + Eq> Pool<E> {
    ghost use Rattle.std.specs.Prelude.{remove, is_some, IfSome, OnSome, IfNone};
    ghost use Rattle.event_pool.specs.Contents.{queue_at, with_queue};

    /// The place in a queue, from 0, of its first item equal to `e`, in time linear in the queue's
    /// length. None exactly where there is none.
    pub fn position(&self, q: u32, e: E) -> Option<usize>
        requires { q < length self.now.queues }
        ensures { result ≡ position_from (λ x. E.eq x e) 0 (queue_at self.now q) }
    {
        find_item(&self.slots, self.ends[q as usize].head, e)
    }

    /// Takes the first item of a queue that is equal to `e`, in time linear in the queue's length.
    /// False exactly where there is none, and then all stays.
    pub fn remove_first(&mut self, q: u32, e: E) -> bool
        requires { q < length self.old.queues }
        ensures found { result ≡ is_some (position_from (λ x. E.eq x e) 0 (queue_at self.old q)) }
        ensures queues { IfSome (position_from (λ x. E.eq x e) 0 (queue_at self.old q))
            (λ k. self.new.queues ≡ with_queue self.old q (remove (queue_at self.old q) k)) }
        ensures spare { OnSome (position_from (λ x. E.eq x e) 0 (queue_at self.old q))
            (self.new.spare ≡ self.old.spare + 1) }
        ensures none { IfNone (position_from (λ x. E.eq x e) 0 (queue_at self.old q))
            (self.new ≡ self.old) }
    {
        match self.position(q, e) {
            Some(k) => {
                self.take_at(q, k);
                true
            }
            None => false,
        }
    }
}
