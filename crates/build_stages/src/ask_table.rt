//! Tables with a value for each of some asks.
ghost use Rattle.std.specs.Prelude.{◌≡◌, None, OnOk};
ghost use Rattle.std.specs.Option.{option_copied};
ghost use Rattle.build_stages.specs.Asks.{found_at, Notes};
ghost use Rattle.step_engine.specs.Table.{Puts};

use build_base::{Path, Same, WantOfMemory};
use std::alloc::Global;
use std::collections::BTreeMap;
use std::marker::Model;
use step_engine::{Ask, KeyTable, StepKey};

/// A value for each of some asks: a table of the files, one of the fields and one of the parts.
#[derive(Drop)]
pub(crate) struct AskTable<K: StepKey, V: Drop> {
    files: BTreeMap<Path, V>,
    fields: BTreeMap<u8, V>,
    parts: KeyTable<K, V>,
}

impl<K: StepKey, V: Drop> Model for AskTable<K, V> {
    ghost use Rattle.build_stages.specs.Asks.{Tables};

    ghost Value = { Tables K V };

    ghost view = { λ t. (t.files.entries, t.fields.entries, t.parts) };
}

// Puts a value into a table.
fn put<Q: Ord + Drop, V: Drop>(
    table: &mut BTreeMap<Q, V>,
    key: Q,
    value: V,
) -> Result<(), WantOfMemory>
    ensures { OnOk result (Puts Q.cmp key value table.old.entries table.new.entries) }
{
    match table.insert(key, value) {
        Ok(_) => Ok(()),
        Err(_) => Err(WantOfMemory),
    }
}

impl<K: StepKey, V: Drop> AskTable<K, V> {
    /// No ask has a value.
    pub fn new(alloc: Global) -> AskTable<K, V>
        ensures { found_at K.cmp result ≡ (λ _. None) }
    {
        AskTable {
            files: BTreeMap::new(alloc),
            fields: BTreeMap::new(alloc),
            parts: KeyTable::new(alloc),
        }
    }

    /// The value of an ask.
    pub fn get(&self, ask: &Ask<K>) -> Option<&V>
        ensures { option_copied result ≡ found_at K.cmp self.now ask.now }
    {
        match ask {
            Ask::File(path) => self.files.get(path),
            Ask::Field(number) => self.fields.get(number),
            Ask::Part(key) => self.parts.get(key),
        }
    }

    /// Gives the ask this value where it has none; the first value stays.
    pub fn note(&mut self, alloc: Global, ask: &Ask<K>, value: V) -> Result<(), WantOfMemory>
        ensures { OnOk result (Notes K.cmp ask.now value self.old self.new) }
    {
        if self.get(ask).is_some() {
            return Ok(());
        }
        match ask {
            Ask::File(path) => put(&mut self.files, path.copy(alloc)?, value),
            Ask::Field(number) => put(&mut self.fields, *number, value),
            Ask::Part(key) => self.parts.insert(key.copy(alloc)?, value),
        }
    }
}
