//! The places of numbers.
ghost use Rattle.std.specs.Prelude.{◌≡◌, ◌<◌, ◌+◌, ◌++◌, [], ◌∷◌, ℕ, length, get_or, map, filter, IfOk, OnOk};
ghost use Rattle.number_chains.specs.Chains.{IsNext, IsChained, IsChainedFrom, place_in};
ghost use Rattle.number_chains.specs.Marks.{AreChained, AreMarked, has};

use build_base::WantOfMemory;
use indexmap::IndexMap;
use std::alloc::Global;

/// The places of a list's numbers: of each number the first one, and from each place the next one
/// of the same number. It takes two words a place, and some five more a number.
#[derive(Drop)]
pub struct Chains {
    first: IndexMap<u64, usize>,
    next: Vec<usize>,
}

// Puts the number at a place in front of those behind it.
fn add(
    numbers: &[u64],
    place: usize,
    first: &mut IndexMap<u64, usize>,
    next: &mut Vec<usize>,
) -> Result<(), WantOfMemory>
    requires place { place < length numbers.now }
    requires count { length next.old.items ≡ length numbers.now }
    ensures { IsChainedFrom numbers.now (place + 1) first.old next.old.items
        → OnOk result (IsChainedFrom numbers.now place first.new next.new.items) }
{
    match first.insert(numbers[place], place) {
        Ok(Some(behind)) => next[place] = behind,
        Ok(None) => next[place] = numbers.len(),
        Err(_) => return Err(WantOfMemory),
    }
    Ok(())
}

fn push_row<'a, T>(found: &mut Vec<&'a T>, row: &'a T) -> Result<(), WantOfMemory>
    ensures { OnOk result (map (λ r. r.now) found.new.items
        ≡ map (λ r. r.now) found.old.items ++ row.now ∷ []) }
{
    match found.push(row) {
        Ok(()) => Ok(()),
        Err(_) => Err(WantOfMemory),
    }
}

impl Chains {
    /// The places of these numbers.
    pub fn of(alloc: Global, numbers: &[u64]) -> Result<Chains, WantOfMemory>
        ensures { IfOk result (IsChained numbers.now) }
    {
        let mut first = IndexMap::with_capacity(alloc, numbers.len())?;
        let mut next = Vec::new(alloc);
        next.resize(numbers.len(), 0)?;
        let mut place = numbers.len();
        while place > 0 {
            place -= 1;
            add(numbers, place, &mut first, &mut next)?;
        }
        Ok(Chains { first, next })
    }

    /// The first place of a number. Where it stands nowhere, a place behind the list.
    pub fn first(&self, number: u64) -> usize
        ensures { (numbers : _) → IsChained numbers self.now → IsNext numbers 0 number result }
    {
        match self.first.get(&number) {
            Some(place) => *place,
            None => self.next.len(),
        }
    }

    /// The next place of the number that stands at a place. Where it stands at none, a place behind
    /// the list.
    pub fn next(&self, place: usize) -> usize
        requires { place < length self.now.next.items }
        ensures { (numbers : _) → IsChained numbers self.now
            → IsNext numbers (place + 1) (get_or numbers place 0) result }
    {
        self.next[place]
    }
    // Adds the rows of a number, in their order.
    fn push_rows<'a, T>(
        &self,
        rows: &'a [T],
        number: u64,
        found: &mut Vec<&'a T>,
    ) -> Result<(), WantOfMemory>
        requires chained { AreChained rows.now self.now }
        ensures { (number_of : T → ℕ) → IsChained (map number_of rows.now) self.now
            → OnOk result (map (λ r. r.now) found.new.items
            ≡ map (λ r. r.now) found.old.items ++ filter (has number_of number) rows.now) }
    {
        let mut place = self.first(number);
        while place < rows.len() {
            push_row(found, &rows[place])?;
            place = self.next(place);
        }
        Ok(())
    }

    /// The rows whose numbers are marked: number by number, and those of one number in their order.
    /// The numbers of the rows are those of these chains.
    pub fn marked_rows<'a, T>(
        &self,
        alloc: Global,
        rows: &'a [T],
        marks: &[bool],
    ) -> Result<Vec<&'a T>, WantOfMemory>
        requires chained { AreChained rows.now self.now }
        ensures { (number_of : T → ℕ) → IsChained (map number_of rows.now) self.now
            → IfOk result
            (λ found. AreMarked number_of marks.now rows.now (map (λ r. r.now) found.items)) }
    {
        let mut found = Vec::new(alloc);
        let mut number = 0;
        while number < marks.len() {
            if marks[number] {
                self.push_rows(rows, number as u64, &mut found)?;
            }
            number += 1;
        }
        Ok(found)
    }
}
