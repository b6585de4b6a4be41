//! The parts that a key under way wants.
ghost use Rattle.std.specs.Prelude.{◌≡◌, MatchOption, true, false, OnOk, IfOk, Contains, []};
ghost use Rattle.step_engine.specs.Meaning.{asks_of};
ghost use Rattle.step_engine.specs.Table.{place_at, IsDone};
ghost use Rattle.step_engine.specs.Items.{item_key};
ghost use Rattle.step_engine.specs.Wanting.{AddsParts, ArePartsOf, IsAskedBy, WantsItem};
ghost use Rattle.step_engine.specs.Forward.{Wants, Misses, AreDone};

use crate::answers::is_lower;
use crate::items::{Item, batch_at};
use crate::places::{Place, Places};
use crate::rules::{Rules, StepKey};
use crate::talk::{Ask, Pair};
use build_base::rows::Rows;
use build_base::same::Same;
use build_base::text::WantOfMemory;
use std::alloc::Global;

// Adds the part of an ask, where it is of lower rank and isn't done.
fn want<R: Rules>(
    alloc: Global,
    rules: &R,
    key: &R::Key,
    ask: &Ask<R::Key>,
    places: &Places<R::Key>,
    wanted: &mut Vec<R::Key>,
) -> Result<(), WantOfMemory>
    ensures among { OnOk result ((k : R.Key) → Contains wanted.new.items k
        → AddsParts ask.now wanted.old.items k) }
    ensures all { OnOk result (Wants R.means.rank (place_at R.Key.cmp places.now) key.now
        (λ k. ask.now ≡ Ask.Part k) wanted.old.items wanted.new.items) }
{
    if !is_lower(rules, key, ask) {
        return Ok(());
    }
    let Ask::Part(part) = ask else {
        return Ok(());
    };
    if let Some(Place::Done(_)) = places.get(part) {
        return Ok(());
    }
    let part = part.copy(alloc)?;
    if wanted.push(part).is_err() {
        return Err(WantOfMemory);
    }
    Ok(())
}

// Adds the parts of a batch of asks.
fn want_asks<R: Rules>(
    alloc: Global,
    rules: &R,
    key: &R::Key,
    asks: &Rows<Ask<R::Key>>,
    places: &Places<R::Key>,
    wanted: &mut Vec<R::Key>,
) -> Result<(), WantOfMemory>
    ensures among { OnOk result ((k : R.Key) → Contains wanted.new.items k
        → ArePartsOf asks.now wanted.old.items k) }
    ensures all { OnOk result (Wants R.means.rank (place_at R.Key.cmp places.now) key.now
        (λ k. Contains asks.now (Ask.Part k)) wanted.old.items wanted.new.items) }
{
    for ask in asks.items() {
        want(alloc, rules, key, ask, places, wanted)?;
    }
    Ok(())
}

// Adds the parts of a batch of an old entry.
fn want_pairs<R: Rules>(
    alloc: Global,
    rules: &R,
    key: &R::Key,
    pairs: &Rows<Pair<R::Key, R::Out>>,
    places: &Places<R::Key>,
    wanted: &mut Vec<R::Key>,
) -> Result<(), WantOfMemory>
    ensures among { OnOk result ((k : R.Key) → Contains wanted.new.items k
        → ArePartsOf (asks_of pairs.now) wanted.old.items k) }
    ensures all { OnOk result (Wants R.means.rank (place_at R.Key.cmp places.now) key.now
        (λ k. Contains (asks_of pairs.now) (Ask.Part k)) wanted.old.items wanted.new.items) }
{
    for pair in pairs.items() {
        want(alloc, rules, key, &pair.ask, places, wanted)?;
    }
    Ok(())
}

// Adds the parts that a key under way asks for.
fn want_item<R: Rules>(
    alloc: Global,
    rules: &R,
    item: &Item<R::Key, R::Out>,
    places: &Places<R::Key>,
    wanted: &mut Vec<R::Key>,
) -> Result<(), WantOfMemory>
    ensures among { OnOk result ((k : R.Key) → Contains wanted.new.items k
        → WantsItem item.now wanted.old.items k) }
    ensures all { OnOk result (Wants R.means.rank (place_at R.Key.cmp places.now)
        (item_key item.now) (λ k. IsAskedBy k item.now) wanted.old.items wanted.new.items) }
{
    match item {
        Item::Run(_) => Ok(()),
        Item::Asked(asked) => {
            want_asks(alloc, rules, &asked.key, &asked.asks, places, wanted)?;
            Ok(())
        }
        Item::Check(check) => match batch_at(&check.entry, check.batch) {
            Some(batch) => {
                want_pairs(alloc, rules, &check.entry.key, &batch.pairs, places, wanted)?;
                Ok(())
            }
            None => Ok(()),
        },
    }
}

/// The parts of lower rank that a key under way asks for and that aren't done.
pub fn parts_of<R: Rules>(
    alloc: Global,
    rules: &R,
    item: &Item<R::Key, R::Out>,
    places: &Places<R::Key>,
) -> Result<Vec<R::Key>, WantOfMemory>
    ensures among { IfOk result (λ parts. (k : R.Key) → Contains parts.items k
        → IsAskedBy k item.now) }
    ensures all { IfOk result (λ parts. Wants R.means.rank (place_at R.Key.cmp places.now)
        (item_key item.now) (λ k. IsAskedBy k item.now) [] parts.items) }
{
    let mut parts = Vec::new(alloc);
    want_item(alloc, rules, item, places, &mut parts)?;
    Ok(parts)
}

/// Whether an entry of the key was made.
pub(crate) fn is_done<K: StepKey>(key: &K, places: &Places<K>) -> bool
    ensures yes { result ≡ true → IsDone (place_at K.cmp places.now key.now) }
    ensures no { result ≡ false → IsDone (place_at K.cmp places.now key.now) → ⊥ }
{
    matches!(places.get(key), Some(Place::Done(_)))
}

/// The last of the parts that isn't done; those behind it are dropped.
pub fn missing<K: StepKey>(parts: &mut Vec<K>, places: &Places<K>) -> Option<K>
    ensures { MatchOption result (AreDone (place_at K.cmp places.now) parts.old.items)
        (Misses (place_at K.cmp places.now) parts.old.items parts.new.items) }
{
    while let Some(part) = parts.pop() {
        if !is_done(&part, places) {
            return Some(part);
        }
    }
    None
}
