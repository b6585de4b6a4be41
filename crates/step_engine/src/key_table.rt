//! Tables by keys.
ghost use Rattle.std.specs.Prelude.{◌≡◌, [], None, Some, OnOk, OnErr};
ghost use Rattle.std.specs.BTreeMap.{is_at};
ghost use Rattle.std.specs.Map.{lookup};
ghost use Rattle.std.specs.Option.{option_copied};
ghost use Rattle.step_engine.specs.Table.{Puts, Sets};

use crate::rules::StepKey;
use build_base::text::WantOfMemory;
use indexmap::IndexMap;
use std::alloc::Global;
use std::marker::Model;

/// A value for each of some keys, which are found by their hashes, seen as the list of both.
#[derive(Drop)]
pub struct KeyTable<K: StepKey, V: Drop> {
    map: IndexMap<K, V>,
}

impl<K: StepKey, V: Drop> Model for KeyTable<K, V> {
    ghost use Rattle.std.specs.Prelude.{List};

    ghost Value = { List (K × V) };

    ghost view = { λ t. t.map.entries };
}

impl<K: StepKey, V: Drop> KeyTable<K, V> {
    /// No keys.
    pub fn new(alloc: Global) -> KeyTable<K, V>
        ensures { result ≡ [] }
    {
        KeyTable {
            map: IndexMap::new(alloc),
        }
    }

    /// The value of a key.
    pub fn get(&self, key: &K) -> Option<&V>
        ensures { option_copied result ≡ lookup (is_at (K.cmp key.now)) self.now }
    {
        self.map.get(key)
    }

    /// Gives a key this value.
    pub fn insert(&mut self, key: K, value: V) -> Result<(), WantOfMemory>
        ensures puts { OnOk result (Puts K.cmp key value self.old self.new) }
        ensures here { OnOk result (lookup (is_at (K.cmp key)) self.new ≡ Some value) }
        ensures err { OnErr result (self.new ≡ self.old) }
    {
        if self.map.insert(key, value).is_err() {
            return Err(WantOfMemory);
        }
        Ok(())
    }

    /// Takes out a key, and gives its value.
    pub fn remove(&mut self, key: &K) -> Option<V>
        ensures value { result ≡ lookup (is_at (K.cmp key.now)) self.old }
        ensures sets { Sets K.cmp key.now None self.old self.new }
    {
        self.map.swap_remove(key)
    }
}
