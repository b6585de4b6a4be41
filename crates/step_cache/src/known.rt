//! The numbers of answers that were packed before.
ghost use Rattle.std.specs.Prelude.{◌≡◌, [], OnOk, MatchOption, ⊤};
ghost use Rattle.step_cache.specs.Known.{number_at, IsKnown, Notes};
ghost use Rattle.step_engine.specs.Agreeing.{Agree};
ghost use Rattle.step_engine.specs.Table.{IsPlaced};

use build_base::{Same, WantOfMemory};
use std::alloc::Global;
use std::marker::Model;
use step_engine::{Ask, Cache, KeyTable, Pair};
use step_pack::{Key, Out};

/// The numbers of the answers to parts, seen as the list of both.
#[derive(Drop)]
pub(crate) struct Known {
    table: KeyTable<Key, u64>,
}

impl Model for Known {
    ghost use Rattle.std.specs.Prelude.{List, ℕ};
    ghost use Rattle.step_pack.specs.declared.key.Key.{Key as KeyOf};

    ghost Value = { List (KeyOf × ℕ) };

    ghost view = { λ k. k.table };
}

impl Known {
    /// No numbers.
    pub(crate) fn new(alloc: Global) -> Known
        ensures { result ≡ [] }
    {
        Known {
            table: KeyTable::new(alloc),
        }
    }

    /// The number that is noted of a part.
    pub(crate) fn get(&self, part: &Key) -> Option<u64>
        ensures { result ≡ number_at self.now part.now }
    {
        match self.table.get(part) {
            Some(number) => Some(*number),
            None => None,
        }
    }

    /// Notes the number of the answer to a part.
    pub(crate) fn note(&mut self, part: Key, number: u64) -> Result<(), WantOfMemory>
        ensures { OnOk result (IsPlaced part number (number_at self.old) (number_at self.new)) }
    {
        self.table.insert(part, number)?;
        Ok(())
    }
}

/// The number of the answer to an ask, where it is noted.
pub(crate) fn known_number(known: &Known, ask: &Ask<Key>) -> Option<u64>
    ensures { MatchOption result ⊤ (λ n. IsKnown known.now ask.now n) }
{
    match ask {
        Ask::Part(part) => match known.get(part) {
            Some(number) => Some(number),
            None => None,
        },
        _ => None,
    }
}

// Notes the number of the answer to a part of which all answers are the same.
#[tactic(auto, using(crate::proofs::KnownLemmas::noted_same))]
fn note_part(
    alloc: Global,
    cache: &Cache<Key, Out>,
    known: &mut Known,
    pair: &Pair<Key, Out>,
    number: u64,
) -> Result<(), WantOfMemory>
    requires { Agree cache.now }
    ensures { OnOk result (Notes cache.now pair.now number known.old known.new) }
{
    match &pair.ask {
        Ask::Part(part) => {
            let part = part.copy(alloc)?;
            known.note(part, number)?;
            Ok(())
        }
        _ => Ok(()),
    }
}

/// Notes the number of the answer to a part, where all answers to it are the same.
#[tactic(auto, using(crate::proofs::KnownLemmas::noted_same))]
pub(crate) fn note_number(
    alloc: Global,
    cache: &Cache<Key, Out>,
    known: &mut Known,
    pair: &Pair<Key, Out>,
    number: u64,
) -> Result<(), WantOfMemory>
    ensures { OnOk result (Notes cache.now pair.now number known.old known.new) }
{
    if cache.agrees() {
        return note_part(alloc, cache, known, pair, number);
    }
    Ok(())
}
