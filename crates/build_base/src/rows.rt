//! Rows of one type, seen by contracts as a list.
ghost use Rattle.std.specs.Prelude.{◌≡◌, [], ◌∷◌, ◌++◌, OnOk, OnErr, ◌<◌, length, slice_set, ◌↔◌, IsTrue};
ghost use Rattle.std.proofs.Common.{rules};
ghost use Rattle.std.specs.List.{AllZip};
ghost use Rattle.std.specs.List.Retain.{IsFiltered};
ghost use Rattle.std.specs.Fn.{CalledAt};
ghost use Rattle.std.specs.Cmp.Lexicographic.{pointwise, lists_per, lists_equiv};

use crate::same::Same;
use crate::text::WantOfMemory;
use std::alloc::{AllocError, Global};
use std::marker::Model;

/// A list that grows at its end.
#[derive(Debug, Drop)]
pub struct Rows<T> {
    store: Vec<T>,
}

impl<T> Model for Rows<T> {
    ghost use Rattle.std.specs.Prelude.{List};

    ghost Value = { List T };

    ghost view = { λ r. r.store.items };
}

impl<T> Rows<T> {
    /// No rows.
    pub fn new(alloc: Global) -> Rows<T>
        ensures { result ≡ [] }
    {
        Rows {
            store: Vec::new(alloc),
        }
    }

    /// The rows of a vector, without a copy.
    pub fn from_vec(store: Vec<T>) -> Rows<T>
        ensures { result ≡ store.items }
    {
        Rows { store }
    }

    /// All rows, in order.
    pub fn items(&self) -> &[T]
        ensures { result.now ≡ self.now }
    {
        self.store.as_slice()
    }
}

impl<T: Drop> Rows<T> {
    /// Adds a row at the end. A refusal drops the row.
    pub fn push(&mut self, item: T) -> Result<(), WantOfMemory>
        ensures ok { OnOk result (self.new ≡ self.old ++ item ∷ []) }
        ensures err { OnErr result (self.new ≡ self.old) }
    {
        match self.store.push(item) {
            Ok(()) => Ok(()),
            Err(_) => Err(WantOfMemory),
        }
    }
}

impl<T: Drop> Rows<T> {
    /// Puts an item in the place of another.
    pub(crate) fn set(&mut self, place: usize, item: T)
        requires { place < length self.old }
        ensures { self.new ≡ slice_set self.old place item }
    {
        self.store[place] = item;
    }

    /// Leaves the items that pass a test, in order.
    pub(crate) fn retain<F: FnMut(&T) -> bool>(&mut self, keep: F)
        requires { F.IsAlwaysCallable keep }
        ensures { IsFiltered (CalledAt F.FnMut) keep self.old self.new }
    {
        self.store.retain(keep);
    }
}

impl<T: Same + Drop> Same for Rows<T> {
    fn copy(&self, alloc: Global) -> Result<Rows<T>, WantOfMemory> {
        let mut rows = Rows::from_vec(Vec::with_capacity(alloc, self.items().len())?);
        for item in self.items() {
            rows.push(item.copy(alloc)?)?;
        }
        Ok(rows)
    }

    fn same(&self, other: &Rows<T>) -> bool {
        same_items(self.items(), other.items())
    }
}

fn same_items<T: Same>(ours: &[T], others: &[T]) -> bool
    ensures { IsTrue result ↔ (ours.now ≡ others.now) }
{
    if ours.len() != others.len() {
        return false;
    }
    for (i, item) in ours.iter().enumerate() {
        if !item.same(&others[i]) {
            return false;
        }
    }
    true
}

impl<T: Clone> Clone for Rows<T> {
    ghost is_clone = { λ a b. AllZip T.is_clone a b };

    fn clone(&self) -> Result<Rows<T>, AllocError> {
        let store = self.store.clone()?;
        Ok(Rows { store })
    }
}

impl<T: PartialEq> PartialEq for Rows<T> {
    ghost eq = { pointwise T.eq };

    ghost laws = { lists_per T.laws };

    fn eq(&self, other: &Rows<T>) -> bool {
        self.items() == other.items()
    }
}

impl<T: Eq> Eq for Rows<T> {
    ghost laws = { lists_equiv T.Eq.laws };
}
