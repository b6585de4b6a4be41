//! The numbers of volumes: a volume comes behind those that it holds.
ghost use Rattle.std.specs.Prelude.{◌≡◌, ◌∷◌, ◌++◌, [], ℕ, ◌<◌, ◌≤◌, List, Some, None, true, false, cond, nat_eq, take, get_or, length, unwrap_or, IfOk, OnOk, IfSome, IfNone};
ghost use Rattle.std.specs.HashMap.{get};
ghost use Rattle.std.specs.BTreeSet.{contains};
ghost use Rattle.std.specs.Ordering.{nat_cmp};
ghost use Rattle.volume_nesting.specs.Numbering.{has, nest_of, all_among, next_in, topological_order};
ghost use Rattle.volume_nesting.specs.Turning.{Standing, StandingBut, waiting_at};
ghost use Rattle.volume_nesting.specs.declared.numbering.Waiting.{Waiting as WaitingRow};

use build_base::{Rows, WantOfMemory};
use indexmap::IndexMap;
use std::alloc::Global;
use std::collections::BTreeSet;

/// A volume without a number; of those that it holds the ones before `at` have numbers.
#[derive(Clone, Copy)]
struct Waiting {
    pub volume: usize,
    pub at: usize,
}

/// The volumes with numbers, those that may come next, and those that wait, each by one that it
/// holds.
struct Sorter {
    pub alloc: Global,
    pub numbered: BTreeSet<usize>,
    pub ready: BTreeSet<usize>,
    pub waiting: IndexMap<usize, Rows<Waiting>>,
}

// A written `Drop` is one call for whoever lets the value go. A derived one is spelled out there.
impl Drop for Sorter {
    fn drop(self) {
        let Sorter {
            alloc: _alloc,
            numbered: _numbered,
            ready: _ready,
            waiting: _waiting,
        } = self;
    }
}

/// The volumes that a volume holds.
pub(crate) fn nest_of(nests: &[Rows<usize>], volume: usize) -> &[usize]
    ensures { result.now ≡ nest_of nests.now volume }
{
    match nests.get(volume) {
        Some(nest) => nest.items(),
        None => &[],
    }
}

// The first from a place on that has no number.
fn open_from(numbered: &BTreeSet<usize>, nest: &[usize], from: usize) -> Option<usize>
    ensures within { IfSome result (λ at. at < length nest.now) }
    ensures open { (order : List ℕ) → ((v : ℕ) → contains nat_cmp numbered.now v ≡ has order v)
        → all_among order (take from nest.now) ≡ true
        → IfSome result (λ at. (has order (get_or nest.now at 0) ≡ false)
        × (all_among order (take at nest.now) ≡ true)) }
    ensures whole { (order : List ℕ) → ((v : ℕ) → contains nat_cmp numbered.now v ≡ has order v)
        → all_among order (take from nest.now) ≡ true
        → IfNone result (all_among order nest.now ≡ true) }
{
    for i in from..nest.len() {
        if !numbered.contains(&nest[i]) {
            return Some(i);
        }
    }
    None
}

// Takes those that wait for a volume.
fn take_waiting(
    alloc: Global,
    table: &mut IndexMap<usize, Rows<Waiting>>,
    volume: usize,
) -> Rows<Waiting>
    ensures rows { result ≡ unwrap_or (get nat_eq table.old volume) [] }
    ensures others { (other : ℕ) → get nat_eq table.new other
        ≡ cond (nat_eq volume other) None (get nat_eq table.old other) }
{
    match table.swap_remove(&volume) {
        Some(rows) => rows,
        None => Rows::new(alloc),
    }
}

// Lets a row wait for a volume.
fn add_waiting(
    alloc: Global,
    table: &mut IndexMap<usize, Rows<Waiting>>,
    volume: usize,
    row: Waiting,
) -> Result<(), WantOfMemory>
    ensures { OnOk result ((other : ℕ) → waiting_at table.new other
        ≡ cond (nat_eq volume other) (waiting_at table.old volume ++ row ∷ [])
        (waiting_at table.old other)) }
{
    let mut rows = take_waiting(alloc, table, volume);
    rows.push(row)?;
    match table.insert(volume, rows) {
        Ok(_) => Ok(()),
        Err(_) => Err(WantOfMemory),
    }
}

/// Adds a number to a set.
pub fn insert(set: &mut BTreeSet<usize>, number: usize) -> Result<(), WantOfMemory>
    ensures { OnOk result ((q : ℕ) → contains nat_cmp set.new q
        ≡ cond (nat_eq number q) true (contains nat_cmp set.old q)) }
{
    match set.insert(number) {
        Ok(_) => Ok(()),
        Err(_) => Err(WantOfMemory),
    }
}

fn take_first(set: &mut BTreeSet<usize>) -> Option<usize>
    ensures member { IfSome result (λ k. contains nat_cmp set.old k ≡ true) }
    ensures least { IfSome result (λ k. (q : ℕ) → contains nat_cmp set.old q ≡ true → k ≤ q) }
    ensures others { IfSome result (λ k. (q : ℕ)
        → contains nat_cmp set.new q ≡ cond (nat_eq k q) false (contains nat_cmp set.old q)) }
    ensures none { IfNone result ((q : ℕ) → contains nat_cmp set.old q ≡ false) }
{
    match set.pop_first() {
        Some(number) => Some(number),
        None => None,
    }
}

impl Sorter {
    // Looks at a volume: it may come, or waits for the next that it holds.
    fn settle(&mut self, nests: &[Rows<usize>], row: Waiting) -> Result<(), WantOfMemory>
        ensures { (order : List ℕ) (left : List WaitingRow)
            → Standing nests.now order (row ∷ left) self.old
            → OnOk result (Standing nests.now order left self.new) }
    {
        let nest = nest_of(nests, row.volume);
        match open_from(&self.numbered, nest, row.at) {
            Some(at) => {
                let waiting = Waiting {
                    volume: row.volume,
                    at,
                };
                add_waiting(self.alloc, &mut self.waiting, nest[at], waiting)?;
                Ok(())
            }
            None => {
                insert(&mut self.ready, row.volume)?;
                Ok(())
            }
        }
    }

    fn settle_all(&mut self, nests: &[Rows<usize>], rows: &[Waiting]) -> Result<(), WantOfMemory>
        ensures { (order : List ℕ) → Standing nests.now order rows.now self.old
            → OnOk result (Standing nests.now order [] self.new) }
    {
        for row in rows {
            self.settle(nests, *row)?;
        }
        Ok(())
    }

    // All volumes, without numbers.
    fn begin(alloc: Global, nests: &[Rows<usize>]) -> Result<Sorter, WantOfMemory>
        ensures { IfOk result (λ turns. Standing nests.now [] [] turns) }
    {
        let mut turns = Sorter {
            alloc,
            numbered: BTreeSet::new(alloc),
            ready: BTreeSet::new(alloc),
            waiting: IndexMap::new(alloc),
        };
        for volume in 0..nests.len() {
            turns.settle(nests, Waiting { volume, at: 0 })?;
        }
        Ok(turns)
    }

    // Gives the next number to a volume that may come.
    fn number(&mut self, nests: &[Rows<usize>], volume: usize) -> Result<(), WantOfMemory>
        ensures { (order : List ℕ) → StandingBut nests.now order volume self.old
            → OnOk result (Standing nests.now (order ++ volume ∷ []) [] self.new) }
    {
        insert(&mut self.numbered, volume)?;
        let rows = take_waiting(self.alloc, &mut self.waiting, volume);
        self.settle_all(nests, rows.items())?;
        Ok(())
    }

    // The first that may come.
    fn next(&mut self) -> Option<usize>
        ensures some { (nests : List (List ℕ)) (order : List ℕ) → Standing nests order [] self.old
            → IfSome result (λ v. (next_in nests order ≡ Some v)
            × StandingBut nests order v self.new) }
        ensures none { (nests : List (List ℕ)) (order : List ℕ) → Standing nests order [] self.old
            → IfNone result (next_in nests order ≡ None) }
    {
        match take_first(&mut self.ready) {
            Some(volume) => Some(volume),
            None => None,
        }
    }
}

/// The places of the volumes in the order of their numbers. At each turn comes the first in file
/// order of which all that it holds have numbers. A volume that holds itself, by any number of
/// steps, has no number, and neither has one that holds it.
pub fn topological_order(alloc: Global, nests: &[Rows<usize>]) -> Result<Rows<usize>, WantOfMemory>
    ensures { IfOk result (λ order. order ≡ topological_order nests.now) }
{
    let mut turns = Sorter::begin(alloc, nests)?;
    let mut order = Rows::new(alloc);
    for _nest in nests {
        let Some(volume) = turns.next() else {
            return Ok(order);
        };
        turns.number(nests, volume)?;
        order.push(volume)?;
    }
    Ok(order)
}
