//! The parts whose old answers were compared.
ghost use Rattle.std.specs.Prelude.{◌≡◌, [], OnOk, OnErr};
ghost use Rattle.step_engine.specs.Reading.{compared_at};
ghost use Rattle.step_engine.specs.Table.{IsPlaced};

use crate::key_table::KeyTable;
use crate::rules::StepKey;
use build_base::text::WantOfMemory;
use std::alloc::Global;
use std::marker::Model;

/// Whether the old answers to a part are its outcome, for each part that was compared, seen as the
/// list of both.
#[derive(Drop)]
pub(crate) struct Compared<K: StepKey> {
    table: KeyTable<K, bool>,
}

impl<K: StepKey> Model for Compared<K> {
    ghost use Rattle.std.specs.Prelude.{List, Bool};

    ghost Value = { List (K × Bool) };

    ghost view = { λ c. c.table };
}

impl<K: StepKey> Compared<K> {
    /// No parts.
    pub fn new(alloc: Global) -> Compared<K>
        ensures { result ≡ [] }
    {
        Compared {
            table: KeyTable::new(alloc),
        }
    }

    /// What is noted of a part.
    pub fn get(&self, part: &K) -> Option<bool>
        ensures { result ≡ compared_at K.cmp self.now part.now }
    {
        match self.table.get(part) {
            Some(same) => Some(*same),
            None => None,
        }
    }

    /// Notes whether the old answers to a part are its outcome.
    pub fn note(&mut self, part: K, same: bool) -> Result<(), WantOfMemory>
        ensures ok { OnOk result
            (IsPlaced part same (compared_at K.cmp self.old) (compared_at K.cmp self.new)) }
        ensures err { OnErr result (self.new ≡ self.old) }
    {
        self.table.insert(part, same)
    }
}
