//! The entries of a build.
ghost use Rattle.std.specs.Prelude.{◌≡◌, true, [], IfSome, IfNone, OnOk, OnErr, Contains};

use crate::place::{keep_in, place, put_into};
use crate::rules::StepKey;
use crate::talk::Entry;
use build_base::text::WantOfMemory;
use std::alloc::Global;
use std::marker::Model;

/// At most one entry for a key, seen as the list of entries in ascending order of their keys.
/// `agrees` is set only where all answers to one part are known to be the same.
#[derive(Drop)]
pub struct Cache<K: StepKey, O: Drop> {
    store: Vec<Entry<K, O>>,
    agrees: bool,
}

impl<K: StepKey, O: Drop> Model for Cache<K, O> {
    ghost use Rattle.std.specs.Prelude.{List};
    ghost use Rattle.step_engine.specs.declared.talk.Entry.{Entry};
    ghost use Rattle.std.specs.Prelude.{◌≡◌, true};
    ghost use Rattle.step_engine.specs.Caches.{AreInOrder};
    ghost use Rattle.step_engine.specs.Agreeing.{Agree};

    ghost Value = { List (Entry K O) };

    ghost view = { λ c. c.store.items };

    ghost invariant = { λ c. AreInOrder K.cmp c.store.items
        × (c.agrees ≡ true → Agree c.store.items) };
}

impl<K: StepKey, O: Drop> Cache<K, O> {
    ghost use Rattle.step_engine.specs.Caches.{put_entry, HasKey, AreInOrder, Keeps};
    ghost use Rattle.step_engine.specs.Agreeing.{Agree};
    ghost use Rattle.std.specs.Fn.{FnReturnsAt};
    ghost use Rattle.step_engine.specs.declared.talk.Entry.{Entry};

    /// The empty cache.
    pub fn new(alloc: Global) -> Cache<K, O>
        ensures { result ≡ [] }
    {
        Cache {
            store: Vec::new(alloc),
            agrees: true,
        }
    }

    /// All entries.
    pub fn entries(&self) -> &[Entry<K, O>]
        ensures all { result.now ≡ self.now }
        ensures sorted { AreInOrder K.cmp self.now }
    {
        &self.store
    }

    /// Adds an entry in its place, or puts it in place of the one with its key. A refusal drops it.
    pub fn put(&mut self, entry: Entry<K, O>) -> Result<(), WantOfMemory>
        ensures ok { OnOk result (self.new ≡ put_entry K.cmp entry self.old) }
        ensures err { OnErr result (self.new ≡ self.old) }
    {
        self.agrees = false;
        put_into(&mut self.store, entry)
    }

    /// Leaves the entries for whose keys `wanted` answers true.
    pub fn keep<F: Fn(&K) -> bool>(&mut self, wanted: &F)
        requires { F.IsAlwaysCallable wanted.now }
        ensures { Keeps (FnReturnsAt F.Fn wanted.now) self.old self.new }
    {
        keep_in(&mut self.store, wanted)
    }

    // All entries, moved out.
    pub(crate) fn into_entries(self) -> Vec<Entry<K, O>>
        ensures all { result.items ≡ self }
        ensures sorted { AreInOrder K.cmp result.items }
    {
        let Cache { store, .. } = self;
        store
    }

    /// The same entries, all of whose answers to one part may be known to be the same.
    pub fn agreeing(self, agrees: bool) -> Cache<K, O>
        requires { agrees ≡ true → Agree self }
        ensures { result ≡ self }
    {
        let Cache { store, .. } = self;
        Cache { store, agrees }
    }

    /// Whether all answers to one part are known to be the same.
    pub fn agrees(&self) -> bool
        ensures { result ≡ true → Agree self.now }
    {
        self.agrees
    }

    /// The entry of a key.
    pub fn get(&self, key: &K) -> Option<&Entry<K, O>>
        ensures some { IfSome result (λ e. Contains self.now e.now × (e.now.key ≡ key.now)) }
        ensures only { IfSome result (λ e. (d : Entry K O) → Contains self.now d → d.key ≡ key.now
            → d ≡ e.now) }
        ensures none { IfNone result (HasKey self.now key.now → ⊥) }
    {
        match place(&self.store, key) {
            Ok(at) => Some(&self.store[at]),
            Err(_) => None,
        }
    }
}
