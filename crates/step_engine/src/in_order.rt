//! The entries of a build as a cache.
ghost use Rattle.std.specs.Prelude.{◌≡◌, true, IfOk, OnOk, IsPermutation, Contains};
ghost use Rattle.step_engine.specs.Caches.{AreInOrder, PutsMissing};
ghost use Rattle.step_engine.specs.Rounds.{IsOneEach, AreSame};
ghost use Rattle.step_engine.specs.Agreeing.{Agree};

use crate::cache::Cache;
use crate::rules::StepKey;
use crate::talk::Entry;
use build_base::same::Same;
use build_base::text::WantOfMemory;
use std::alloc::Global;
use std::cmp::Ordering;

// The entries in ascending order of their keys.
fn sort_entries<K: StepKey, O: Drop>(
    entries: Vec<Entry<K, O>>,
) -> Result<Vec<Entry<K, O>>, WantOfMemory>
    ensures { IfOk result (λ v. IsPermutation entries.items v.items) }
{
    let mut entries = entries;
    let done = entries.sort_by(|a: &Entry<K, O>, b: &Entry<K, O>| -> Ordering {
        a.key.cmp(&b.key)
    });
    if done.is_err() {
        return Err(WantOfMemory);
    }
    Ok(entries)
}

// Puts an entry where none has its key.
fn put_new<K: StepKey, O: Same + Drop>(
    entry: Entry<K, O>,
    cache: &mut Cache<K, O>,
) -> Result<(), WantOfMemory>
    ensures { OnOk result (PutsMissing K.cmp entry cache.old cache.new) }
{
    if let Some(_found) = cache.get(&entry.key) {
        return Ok(());
    }
    cache.put(entry)
}

// The cache of these entries. It is fast where they come in their order.
fn put_all<K: StepKey, O: Same + Drop>(
    alloc: Global,
    entries: Vec<Entry<K, O>>,
) -> Result<Cache<K, O>, WantOfMemory>
    ensures same { IsOneEach entries.items → IfOk result (λ cache. AreSame entries.items cache) }
    ensures sorted { IfOk result (AreInOrder K.cmp) }
    ensures only { IfOk result (λ cache. (e : Entry K O) → Contains cache e
        → Contains entries.items e) }
{
    let mut cache = Cache::new(alloc);
    for entry in entries {
        put_new(entry, &mut cache)?;
    }
    Ok(cache)
}

/// The cache of these entries, one for a key, and whether all their answers to one part are known
/// to be the same.
pub fn in_order<K: StepKey, O: Same + Drop>(
    alloc: Global,
    entries: Vec<Entry<K, O>>,
    agree: bool,
) -> Result<Cache<K, O>, WantOfMemory>
    requires { agree ≡ true → Agree entries.items }
    ensures same { IsOneEach entries.items → IfOk result (λ cache. AreSame entries.items cache) }
    ensures sorted { IfOk result (AreInOrder K.cmp) }
{
    let entries = sort_entries(entries)?;
    let cache = put_all(alloc, entries)?;
    Ok(cache.agreeing(agree))
}
