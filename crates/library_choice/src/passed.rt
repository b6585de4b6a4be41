//! Places that a walk has come to.
ghost use Rattle.std.specs.Prelude.{◌≡◌, ◌<◌, ℕ, [], List, false, nat_eq, length, get_or, slice_index_or, OnOk};
ghost use Rattle.library_choice.specs.Found.{add, is_in, put};

use build_base::{Rows, WantOfMemory};
use std::alloc::Global;
use std::marker::Model;

/// Places, each once, in the order in which they were put.
pub(crate) struct Passed {
    places: Rows<usize>,
    marks: Vec<bool>,
}

// Written out, so that a caller that lets them go has one call here.
impl Drop for Passed {
    fn drop(self) {
        let Passed {
            places: _places,
            marks: _marks,
        } = self;
    }
}

impl Model for Passed {
    ghost use Rattle.std.specs.Prelude.{List, ℕ, ◌≡◌, nat_eq, get_or, false};
    ghost use Rattle.library_choice.specs.Found.{is_in};

    ghost Value = { List ℕ };

    ghost view = { λ p. p.places };

    ghost invariant = { λ p. (x : ℕ) → get_or p.marks.items x false ≡ is_in nat_eq p.places x };
}

// Adds marks that aren't set, so that there is one for a place.
fn reserve_mark(marks: &mut Vec<bool>, place: usize) -> Result<(), WantOfMemory>
    ensures same { (x : ℕ) → get_or marks.new.items x false ≡ get_or marks.old.items x false }
    ensures within { OnOk result (place < length marks.new.items) }
{
    while marks.len() <= place {
        if marks.push(false).is_err() {
            return Err(WantOfMemory);
        }
    }
    Ok(())
}

impl Passed {
    /// No places.
    pub fn new(alloc: Global) -> Passed
        ensures { result ≡ [] }
    {
        Passed {
            places: Rows::new(alloc),
            marks: Vec::new(alloc),
        }
    }

    /// How many there are.
    pub fn len(&self) -> usize
        ensures { result ≡ length self.now }
    {
        self.places.items().len()
    }

    /// One of the places.
    pub fn get(&self, at: usize) -> usize
        requires { at < length self.now }
        ensures { result ≡ slice_index_or self.now at 0 }
    {
        self.places.items()[at]
    }

    /// Whether a place is there.
    pub fn has(&self, place: usize) -> bool
        ensures { result ≡ is_in nat_eq self.now place }
    {
        match self.marks.get(place) {
            Some(mark) => *mark,
            None => false,
        }
    }

    /// Puts a place at the end, unless it is there.
    pub fn put(&mut self, place: usize) -> Result<(), WantOfMemory>
        ensures { OnOk result (self.new ≡ put nat_eq self.old place) }
    {
        if self.has(place) {
            return Ok(());
        }
        reserve_mark(&mut self.marks, place)?;
        self.places.push(place)?;
        self.marks[place] = true;
        Ok(())
    }

    /// Puts places.
    #[tactic(auto, unfolding(crate::specs::Found::add))]
    pub fn put_all(&mut self, places: &[usize]) -> Result<(), WantOfMemory>
        ensures { OnOk result (self.new ≡ add nat_eq self.old places.now) }
    {
        for place in places {
            self.put(*place)?;
        }
        Ok(())
    }
}
