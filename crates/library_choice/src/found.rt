//! The instances found so far.
ghost use Rattle.std.specs.Prelude.{◌≡◌, [], IfOk, OnOk, drop, length, slice_get, take};
ghost use Rattle.std.specs.Option.{option_copied};
ghost use Rattle.library_choice.specs.Closure.{same_path};
ghost use Rattle.library_choice.specs.Found.{is_in, put};
ghost use Rattle.library_choice.specs.Reaching.{place_in};

use build_base::{Path, Rows, Same, WantOfMemory};
use indexmap::IndexSet;
use std::alloc::Global;
use std::marker::Model;

/// Paths, each once, in the order in which they were put.
pub struct Found {
    paths: IndexSet<Path>,
}

// Written out, so that a caller that lets them go has one call here.
impl Drop for Found {
    fn drop(self) {
        let Found { paths: _paths } = self;
    }
}

impl Model for Found {
    ghost use Rattle.std.specs.Prelude.{List, ℕ};

    ghost Value = { List (List ℕ) };

    ghost view = { λ f. f.paths.keys };
}

impl Found {
    /// No paths.
    pub fn new(alloc: Global) -> Found
        ensures { result ≡ [] }
    {
        Found {
            paths: IndexSet::new(alloc),
        }
    }

    /// How many there are.
    pub fn len(&self) -> usize
        ensures { result ≡ length self.now }
    {
        self.paths.len()
    }

    /// The path at a place.
    pub fn get(&self, place: usize) -> Option<&Path>
        ensures { option_copied result ≡ slice_get self.now place }
    {
        self.paths.get_index(place)
    }

    /// All paths, in order.
    pub fn items(&self) -> &[Path]
        ensures { result.now ≡ self.now }
    {
        self.paths.as_slice()
    }

    /// The paths from a place on.
    pub fn behind(&self, place: usize) -> &[Path]
        ensures { result.now ≡ drop place self.now }
    {
        let all = self.items();
        if place > all.len() {
            return &[];
        }
        &all[place..]
    }

    /// Leaves so many of the paths.
    pub fn truncate(&mut self, count: usize)
        ensures { self.new ≡ take count self.old }
    {
        self.paths.truncate(count);
    }

    /// Whether a path is there.
    pub fn has(&self, path: &Path) -> bool
        ensures { result ≡ is_in same_path self.now path.now }
    {
        self.paths.contains(path)
    }

    /// The place of a path. One that isn't there has the place behind the others.
    #[tactic(auto, using(crate::proofs::PlaceLemmas::place_some, crate::proofs::PlaceLemmas::place_none))]
    pub fn place_of(&self, path: &Path) -> usize
        ensures { result ≡ place_in self.now path.now }
    {
        match self.paths.get_index_of(path) {
            Some(place) => place,
            None => self.len(),
        }
    }

    /// Puts a path at the end, unless it is there.
    pub fn put(&mut self, alloc: Global, path: &Path) -> Result<(), WantOfMemory>
        ensures { OnOk result (self.new ≡ put same_path self.old path.now) }
    {
        match self.paths.insert(path.copy(alloc)?) {
            Ok(_) => Ok(()),
            Err(_) => Err(WantOfMemory),
        }
    }

    /// Copies of all paths, in order.
    pub fn paths(&self, alloc: Global) -> Result<Rows<Path>, WantOfMemory>
        ensures { IfOk result (λ rows. rows ≡ self.now) }
    {
        let mut rows = Rows::new(alloc);
        for path in self.items() {
            rows.push(path.copy(alloc)?)?;
        }
        Ok(rows)
    }
}
