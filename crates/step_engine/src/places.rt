//! Where each key of a build stands.
ghost use Rattle.std.specs.Prelude.{◌≡◌, [], OnOk, OnErr};
ghost use Rattle.step_engine.specs.Table.{place_at, IsPlaced};

use crate::key_table::KeyTable;
use crate::rules::StepKey;
use build_base::text::WantOfMemory;
use std::alloc::Global;
use std::marker::Model;

/// Where a key stands: its old entry is checked, its step runs, or its entry is made, and has this
/// number.
#[derive(Clone, Copy)]
pub enum Place {
    Checking,
    Running,
    Done(usize),
}

/// The place of each key that a build has met, seen as the list of both.
#[derive(Drop)]
pub struct Places<K: StepKey> {
    table: KeyTable<K, Place>,
}

impl<K: StepKey> Model for Places<K> {
    ghost use Rattle.std.specs.Prelude.{List};
    ghost use Rattle.step_engine.specs.declared.places.Place.{Place};

    ghost Value = { List (K × Place) };

    ghost view = { λ p. p.table };
}

impl<K: StepKey> Places<K> {
    /// No keys.
    pub fn new(alloc: Global) -> Places<K>
        ensures { result ≡ [] }
    {
        Places {
            table: KeyTable::new(alloc),
        }
    }

    /// Where a key stands.
    pub fn get(&self, key: &K) -> Option<Place>
        ensures { result ≡ place_at K.cmp self.now key.now }
    {
        match self.table.get(key) {
            Some(place) => Some(*place),
            None => None,
        }
    }

    /// Notes where a key stands.
    pub fn note(&mut self, key: K, place: Place) -> Result<(), WantOfMemory>
        ensures ok { OnOk result
            (IsPlaced key place (place_at K.cmp self.old) (place_at K.cmp self.new)) }
        ensures err { OnErr result (self.new ≡ self.old) }
    {
        self.table.insert(key, place)
    }
}
