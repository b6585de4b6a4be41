//! What of the image is taken.
ghost use Rattle.std.specs.Prelude.{◌≡◌, ◌<◌, ◌≤◌, ◌+◌, ◌*◌, ◌++◌, ◌∷◌, [], List, true, not, length, take, drop, OnOk};
ghost use Rattle.std.specs.List.{AllByRecursion, insert, list_any};
ghost use Rattle.vpd_image.specs.Places.{Placed, align_of, size_of, is_free, least_place};
ghost use Rattle.vpd_image.specs.Rooms.{meets, AreLaid, AreBelow, room_limit, first_multiple, slot, least_size, IsNext, IsRoom, Holds};

use crate::sizes::{align_of, least_size};
use build_base::WantOfMemory;
use doc_types::pcd::Datum;
use std::alloc::Global;

/// Bytes from one place on up to another.
#[derive(Clone, Copy)]
pub(crate) struct TakenRange {
    pub start: u64,
    pub end: u64,
}

/// The stretches that are taken, one behind another, and for each type of values a number below
/// which no multiple of its alignment is free.
#[derive(Drop)]
pub(crate) struct FreeMap {
    pub taken: Vec<TakenRange>,
    pub lows: [u64; 6],
}

fn slot(datum: Datum) -> usize
    ensures value { result ≡ slot datum }
    ensures within { result < 6 }
{
    match datum {
        Datum::U8 => 0,
        Datum::U16 => 1,
        Datum::U32 => 2,
        Datum::U64 => 3,
        Datum::Boolean => 4,
        Datum::Void => 5,
    }
}

// How many stretches end at a place or before it.
fn count_passed(taken: &[TakenRange], at: u64) -> usize
    ensures within { result ≤ length taken.now }
    ensures before { AreLaid 0 taken.now
        → AllByRecursion (λ s. s.end ≤ at) (take result taken.now) }
    ensures behind { AreLaid 0 taken.now
        → AllByRecursion (λ s. at < s.end) (drop result taken.now) }
{
    taken.partition_point(|stretch| stretch.end <= at)
}

// The first multiple from a number on at which so many bytes are before the next stretch.
#[tactic(auto, unfolding(crate::specs::Rooms::first_multiple))]
fn first_multiple(left: &[TakenRange], align: u64, size: u64, from: u64) -> u64
    requires below { AreBelow left.now }
    requires from { from ≤ room_limit }
    requires align { (0 < align) × (align ≤ 8) }
    requires size { size ≤ room_limit }
    ensures value { result ≡ first_multiple left.now align size from }
    ensures small { result ≤ room_limit }
{
    let mut n = from;
    let mut left = left;
    while let [stretch, rest @ ..] = left {
        if align * n + size <= stretch.start {
            return n;
        }
        n = n.max(stretch.end.div_ceil(align));
        left = rest;
    }
    n
}

// The first multiple from a number on at which none of so many bytes is taken.
fn next_free(taken: &[TakenRange], align: u64, size: u64, from: u64) -> u64
    requires laid { AreLaid 0 taken.now }
    requires below { AreBelow taken.now }
    requires from { from ≤ room_limit }
    requires align { (0 < align) × (align ≤ 8) }
    requires size { (0 < size) × (size ≤ room_limit) }
    ensures next { IsNext taken.now align size from result }
    ensures small { result ≤ room_limit }
{
    let place = count_passed(taken, align * from);
    first_multiple(&taken[place..], align, size, from)
}

// Whether no stretch meets these bytes.
fn is_clear(taken: &[TakenRange], start: u64, size: u64) -> bool
    requires size { 0 < size }
    requires end { start + size ≤ room_limit }
    ensures { AreLaid 0 taken.now → result ≡ not (list_any (meets start (start + size)) taken.now) }
{
    match taken.get(count_passed(taken, start)) {
        Some(next) => start + size <= next.start,
        None => true,
    }
}

fn insert(
    taken: &mut Vec<TakenRange>,
    place: usize,
    stretch: TakenRange,
) -> Result<(), WantOfMemory>
    requires { place ≤ length taken.old.items }
    ensures { OnOk result (taken.new.items ≡ insert taken.old.items place stretch) }
{
    match taken.insert(place, stretch) {
        Ok(()) => Ok(()),
        Err(_) => Err(WantOfMemory),
    }
}

impl FreeMap {
    /// Nothing is taken.
    pub fn new(alloc: Global) -> FreeMap
        ensures { Holds [] result }
    {
        FreeMap {
            taken: Vec::new(alloc),
            lows: [0; 6],
        }
    }

    /// Whether none of these bytes is taken.
    pub fn is_free(&self, start: u64, size: u64) -> bool
        requires size { 0 < size }
        requires end { start + size ≤ room_limit }
        ensures { (placed : List Placed) → Holds placed self.now
            → result ≡ is_free placed size start }
    {
        is_clear(self.taken.as_slice(), start, size)
    }

    /// Takes bytes that are free.
    pub fn put(&mut self, start: u64, size: u64) -> Result<(), WantOfMemory>
        requires size { 0 < size }
        requires end { start + size ≤ room_limit }
        ensures { (placed : List Placed) (p : Placed) → Holds placed self.old
            → is_free placed size start ≡ true → p.offset ≡ start → size_of p.entry.row ≡ size
            → OnOk result (Holds (placed ++ p ∷ []) self.new) }
    {
        let place = count_passed(self.taken.as_slice(), start);
        let end = start + size;
        insert(&mut self.taken, place, TakenRange { start, end })?;
        Ok(())
    }

    /// The least multiple of a type's alignment at which so many bytes are free.
    pub fn least(&mut self, datum: Datum, size: u64) -> u64
        requires room { IsRoom self.old }
        requires size { (least_size datum ≤ size) × (size ≤ room_limit) }
        ensures place { (placed : List Placed) → Holds placed self.old
            → result ≡ least_place placed (align_of datum) size }
        ensures kept { (placed : List Placed) → Holds placed self.old → Holds placed self.new }
        ensures room { IsRoom self.new }
        ensures small { result ≤ 8 * room_limit }
    {
        let align = align_of(datum);
        let place = slot(datum);
        let taken = self.taken.as_slice();
        let low = next_free(taken, align, least_size(datum), self.lows[place]);
        let found = next_free(taken, align, size, low);
        self.lows[place] = low;
        align * found
    }
}
