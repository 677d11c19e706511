//! The labels of a file, and what is counted before each of its statements.

ghost use Rattle.std.specs.Prelude.{◌≡◌, ◌≤◌, ◌<◌, ◌+◌, ◌*◌, ◌++◌, ◌^◌, ℕ, List, [], IfOk, OnOk, length};
ghost use Rattle.std.specs.List.Sorted.{IsPermutation, IsSorted};
ghost use Rattle.vvp_forms.specs.Checks.{places};
ghost use Rattle.sym_link.specs.Known.{AreKept, IsCounted, IsFirstFrom, IsIndex, Knows, counted, label_at, label_order, labelled, labelled_places, one_where};
ghost use Rattle.sym_link.specs.Places.{counts_before, counts_of, is_opcode_what, is_scope_form, is_thread_form, signal_place, sort_at, symbol_code, symbol_item, symbol_place, symbol_scope, symbol_sort, words_in};

use crate::placed::{Placed, What};
use crate::sorts::{Sort, is_item, is_signal, makes_current, sort_of};
use std::alloc::{AllocError, Global};
use std::cmp::Ordering;
use vvp_forms::Form;
use vvp_lex::{Name, bytes_of};

/// What is counted among the statements before a place.
#[derive(Clone, Copy)]
pub struct Counts {
    pub items: u32,
    pub opcodes: u32,
    pub scopes: u32,
    pub starts: u32,
    /// The words of all arrays.
    pub words: u64,
    /// Whether a scope is current.
    pub has_scope: bool,
}

/// How many words an array has from one to the other.
pub fn words_between(first: i32, last: i32) -> u64
    ensures { result ≡ places first last }
{
    (i64::from(first) - i64::from(last)).unsigned_abs() + 1
}

/// The words of an array, 0 for what is none.
pub fn words_in(what: &What) -> u64
    ensures value { result ≡ words_in what.now }
    ensures most { result ≤ 2 ^ 32 }
{
    match what {
        What::Form(Form::Array { first, last, .. }) => words_between(*first, *last),
        _ => 0,
    }
}

/// Whether a statement is an opcode.
pub fn is_opcode_what(what: &What) -> bool
    ensures { result ≡ is_opcode_what what.now }
{
    match what {
        What::Form(_) => false,
        What::Op(_) => true,
    }
}

/// Whether a statement declares a scope.
pub fn is_scope_form(what: &What) -> bool
    ensures { result ≡ is_scope_form what.now }
{
    matches!(what, What::Form(Form::Scope { .. }))
}

/// Whether a statement starts a thread.
pub fn is_thread_form(what: &What) -> bool
    ensures { result ≡ is_thread_form what.now }
{
    matches!(what, What::Form(Form::Thread { .. }))
}

/// The statements of a file, found by their labels and by their places.
#[derive(Drop)]
pub struct File<'a> {
    src: &'a [u8],
    placed: &'a [Placed],
    /// The places of the statements with a label, in the order of their labels, and in file order where labels are
    /// equal. No choice of labels makes a search slow.
    names: Vec<u32>,
    /// The counts before each eighth place, from the first on: few enough to keep, and near enough to count on from.
    counts: Vec<Counts>,
}

impl<'a> File<'a> {
    /// Finds the labels of a file, and counts what comes before each of its statements. The only error is want of memory.
    pub fn new(alloc: Global, src: &'a [u8], placed: &'a [Placed]) -> Result<File<'a>, AllocError>
        requires few { length placed.now ≤ 2 ^ 26 }
        ensures { IfOk result (Knows src.now placed.now) }
    {
        let names = names_of(alloc, src, placed)?;
        let counts = kept_counts(alloc, placed)?;
        Ok(File {
            src,
            placed,
            names,
            counts,
        })
    }

    /// The statements in file order.
    pub fn statements(&self) -> &'a [Placed]
        ensures { result ≡ self.now.placed }
    {
        self.placed
    }

    /// The place of the first statement with this label.
    pub fn place_of(&self, symbol: Name) -> Option<u32>
        ensures { (file : List ℕ) → (all : List Placed) → Knows file all self.now → result ≡ symbol_place file all symbol }
    {
        let label = bytes_of(self.src, symbol);
        let at = first_from(self.src, self.placed, &self.names, label);
        match self.names.get(at) {
            Some(place) if label_at(self.src, self.placed, *place) == label => Some(*place),
            _ => None,
        }
    }

    /// The counts before the eighth place of this number.
    fn kept_at(&self, number: usize) -> Counts
        ensures { (file : List ℕ) → (all : List Placed) → Knows file all self.now → number * 8 ≤ length all → IsCounted all (number * 8) result }
    {
        match self.counts.get(number) {
            Some(counts) => *counts,
            None => no_counts(),
        }
    }

    /// The counts before a place, on from the nearest that are kept.
    fn counts_at(&self, place: usize) -> Counts
        ensures { (file : List ℕ) → (all : List Placed) → Knows file all self.now → place ≤ length all → result ≡ counts_before all place }
    {
        let number = place / 8;
        counts_on(self.placed, self.kept_at(number), number * 8, place)
    }

    /// The counts before a place.
    pub fn counts_before(&self, place: u32) -> Counts
        ensures { (file : List ℕ) → (all : List Placed) → Knows file all self.now → place ≤ length all → result ≡ counts_before all place }
    {
        self.counts_at(place as usize)
    }

    /// How many opcodes the file has.
    pub fn opcodes(&self) -> u32
        ensures { (file : List ℕ) → (all : List Placed) → Knows file all self.now → result ≡ (counts_before all (length all)).opcodes }
    {
        self.counts_at(self.placed.len()).opcodes
    }

    /// What the label of the statement at a place names.
    pub fn sort_at(&self, place: u32) -> Sort
        ensures { (file : List ℕ) → (all : List Placed) → Knows file all self.now → result ≡ sort_at all place }
    {
        match self.placed.get(place as usize) {
            Some(placed) => sort_of(&placed.what),
            None => Sort::Nothing,
        }
    }

    /// What a symbol names, where it is declared.
    pub fn sort_of(&self, symbol: Name) -> Option<Sort>
        ensures { (file : List ℕ) → (all : List Placed) → Knows file all self.now → result ≡ symbol_sort file all symbol }
    {
        match self.place_of(symbol) {
            Some(place) => Some(self.sort_at(place)),
            None => None,
        }
    }

    /// The place of a variable, a net or a functor.
    pub fn signal_place(&self, symbol: Name) -> Option<u32>
        ensures { (file : List ℕ) → (all : List Placed) → Knows file all self.now → result ≡ signal_place file all symbol }
    {
        let place = self.place_of(symbol)?;
        if is_signal(self.sort_at(place)) {
            Some(place)
        } else {
            None
        }
    }

    /// The address that a code label names.
    pub fn code_of(&self, symbol: Name) -> u32
        ensures { (file : List ℕ) → (all : List Placed) → Knows file all self.now → result ≡ symbol_code file all symbol }
    {
        match self.place_of(symbol) {
            Some(place) => self.counts_before(place).opcodes,
            None => 0,
        }
    }

    /// The number of the item that a symbol names.
    pub fn item_of(&self, symbol: Name) -> u32
        ensures { (file : List ℕ) → (all : List Placed) → Knows file all self.now → result ≡ symbol_item file all symbol }
    {
        match self.place_of(symbol) {
            Some(place) => self.counts_before(place).items,
            None => 0,
        }
    }

    /// The number of the scope that a symbol names.
    pub fn scope_of(&self, symbol: Name) -> u32
        ensures { (file : List ℕ) → (all : List Placed) → Knows file all self.now → result ≡ symbol_scope file all symbol }
    {
        match self.place_of(symbol) {
            Some(place) => self.counts_before(place).scopes,
            None => 0,
        }
    }
}

/// Where nothing is counted.
fn no_counts() -> Counts
    ensures { result ≡ counts_of [] }
{
    Counts {
        items: 0,
        opcodes: 0,
        scopes: 0,
        starts: 0,
        words: 0,
        has_scope: false,
    }
}

/// A count with one more where the test holds. What is counted of a file is far below the bound.
fn plus_one(count: u32, test: bool) -> u32
    ensures { count < 2 ^ 26 → result ≡ count + one_where test }
{
    count.saturating_add(u32::from(test))
}

/// Words with those of one more statement. The words of a file are far below the bound.
fn plus_words(words: u64, what: &What) -> u64
    ensures exact { words < 2 ^ 62 → result ≡ words + words_in what.now }
    ensures most { result ≤ words + 4294967296 }
{
    words.saturating_add(words_in(what))
}

/// The counts with one more statement.
fn counted(before: Counts, placed: &Placed) -> Counts
    ensures one_more { before.items < 2 ^ 26 → before.opcodes < 2 ^ 26 → before.scopes < 2 ^ 26 → before.starts < 2 ^ 26 → before.words < 2 ^ 62 → result ≡ counted before placed.now }
    ensures words { result.words ≤ before.words + 4294967296 }
{
    let what = &placed.what;
    let item = is_item(sort_of(what), placed.label.is_some());
    Counts {
        items: plus_one(before.items, item),
        opcodes: plus_one(before.opcodes, is_opcode_what(what)),
        scopes: plus_one(before.scopes, is_scope_form(what)),
        starts: plus_one(before.starts, is_thread_form(what)),
        words: plus_words(before.words, what),
        has_scope: before.has_scope || makes_current(what),
    }
}

/// The counts before a place, on from those before an earlier one.
fn counts_on(placed: &[Placed], before: Counts, from: usize, to: usize) -> Counts
    ensures { length placed.now ≤ 2 ^ 26 → from ≤ to → to ≤ length placed.now → IsCounted placed.now from before → IsCounted placed.now to result }
{
    let end = to.min(placed.len());
    let mut counts = before;
    let mut place = from;
    while place < end {
        counts = counted(counts, &placed[place]);
        place += 1;
    }
    counts
}

/// The counts before each eighth place.
fn kept_counts(alloc: Global, placed: &[Placed]) -> Result<Vec<Counts>, AllocError>
    requires few { length placed.now ≤ 2 ^ 26 }
    ensures { IfOk result (λ kept. AreKept placed.now kept.items) }
{
    let mut kept = Vec::with_capacity(alloc, placed.len() / 8 + 1)?;
    let mut counts = no_counts();
    kept.push(counts)?;
    let mut place = 0;
    while placed.len() - place >= 8 {
        counts = counts_on(placed, counts, place, place + 8);
        kept.push(counts)?;
        place += 8;
    }
    Ok(kept)
}

/// The label of the statement at a place, empty where it has none.
fn label_at<'a>(src: &'a [u8], placed: &[Placed], place: u32) -> &'a [u8]
    ensures { result.now ≡ label_at src.now placed.now place }
{
    let Some(one) = placed.get(place as usize) else {
        return &[];
    };
    match one.label {
        Some(label) => bytes_of(src, label),
        None => &[],
    }
}

/// The order of two places: that of their labels, and of equal labels that of the file.
fn label_order(src: &[u8], placed: &[Placed], first: u32, second: u32) -> Ordering
    ensures { result ≡ label_order src.now placed.now first second }
{
    let labels = label_at(src, placed, first).cmp(label_at(src, placed, second));
    labels.then(first.cmp(&second))
}

/// How many of the places have a label that comes before this one.
fn first_from(src: &[u8], placed: &[Placed], places: &[u32], label: &[u8]) -> usize
    ensures { IsSorted (label_order src.now placed.now) places.now → IsFirstFrom src.now placed.now places.now label.now result }
{
    places.partition_point(|place| label_at(src, placed, *place).cmp(label).is_lt())
}

/// Puts a place behind those that are there, where its statement has a label.
fn put_labelled(places: &mut Vec<u32>, label: Option<Name>, place: u32) -> Result<(), AllocError>
    ensures { OnOk result (places.new.items ≡ places.old.items ++ labelled place label) }
{
    if label.is_some() {
        places.push(place)?;
    }
    Ok(())
}

/// The places of the statements with a label, in file order.
fn labelled_places(alloc: Global, placed: &[Placed]) -> Result<Vec<u32>, AllocError>
    requires few { length placed.now ≤ 2 ^ 26 }
    ensures { IfOk result (λ places. places.items ≡ labelled_places placed.now) }
{
    let mut places = Vec::with_capacity(alloc, placed.len())?;
    let mut place = 0;
    while place < placed.len() {
        put_labelled(&mut places, placed[place].label, place as u32)?;
        place += 1;
    }
    Ok(places)
}

/// Puts places into the order of their labels.
fn sort_places(src: &[u8], placed: &[Placed], places: &mut Vec<u32>)
    ensures places { IsPermutation places.old.items places.new.items }
    ensures sorted { IsSorted (label_order src.now placed.now) places.new.items }
{
    places.sort_unstable_by(|first, second| label_order(src, placed, *first, *second));
}

/// The places of the statements with a label, in the order of their labels.
fn names_of(alloc: Global, src: &[u8], placed: &[Placed]) -> Result<Vec<u32>, AllocError>
    requires few { length placed.now ≤ 2 ^ 26 }
    ensures { IfOk result (λ places. IsIndex src.now placed.now places.items) }
{
    let mut places = labelled_places(alloc, placed)?;
    sort_places(src, placed, &mut places);
    Ok(places)
}
