//! A key is granted, its entry is made, its outcome is found.
ghost use Rattle.std.specs.Prelude.{MatchOption, ◌≡◌, ◌++◌, ◌∷◌, [], Some, IfOk, IfSome, IfNone, OnOk, OnErr, vec_len};
ghost use Rattle.step_engine.specs.Build.{IsEntryOf};
ghost use Rattle.step_engine.specs.Table.{place_at, IsPlaced, IsDone, Finds, IsMadeAt};
ghost use Rattle.step_engine.specs.Items.{IsRerun};
ghost use Rattle.step_engine.specs.declared.places.Place.TheVariants.{Checking as AtCheck, Running as AtRun, Done as AtDone};

use crate::items::{Item, Run};
use crate::places::{Place, Places};
use crate::rules::StepKey;
use crate::talk::{Entry, Outcome, Talk};
use build_base::book::{Book, Permit};
use build_base::rows::Rows;
use build_base::same::Same;
use build_base::text::WantOfMemory;
use std::alloc::Global;
use step_records::made_at;

/// The permit of a key, which runs from now on.
pub fn grant<K: StepKey>(
    alloc: Global,
    key: &K,
    book: &mut Book<K>,
    places: &mut Places<K>,
) -> Result<Permit, WantOfMemory>
    ensures ok { OnOk result ((book.new ≡ book.old ++ key.now ∷ [])
        × IsPlaced key.now AtRun (place_at K.cmp places.old) (place_at K.cmp places.new)) }
    ensures err { OnErr result (book.new ≡ book.old) }
{
    let noted = key.copy(alloc)?;
    places.note(noted, Place::Running)?;
    let granted = key.copy(alloc)?;
    let permit = book.grant(granted)?;
    Ok(permit)
}

// Adds an entry, whose key is done from now on.
fn make<K: StepKey, O: Drop>(
    alloc: Global,
    entry: Entry<K, O>,
    fresh: &mut Vec<Entry<K, O>>,
    places: &mut Places<K>,
) -> Result<(), WantOfMemory>
    ensures { OnOk result ((fresh.new.items ≡ fresh.old.items ++ entry ∷ [])
        × IsPlaced entry.key (AtDone (vec_len fresh.old)) (place_at K.cmp places.old)
        (place_at K.cmp places.new)) }
{
    let key = entry.key.copy(alloc)?;
    places.note(key, Place::Done(fresh.len()))?;
    if fresh.push(entry).is_err() {
        return Err(WantOfMemory);
    }
    Ok(())
}

/// The entry of a key that runs is made.
pub(crate) fn make_new<K: StepKey, O: Drop>(
    alloc: Global,
    entry: Entry<K, O>,
    fresh: &mut Vec<Entry<K, O>>,
    places: &mut Places<K>,
) -> Result<(), WantOfMemory>
    ensures made { OnOk result
        (IsMadeAt AtRun entry (place_at K.cmp places.old) (place_at K.cmp places.new)
        fresh.old.items fresh.new.items) }
    ensures done { OnOk result (place_at K.cmp places.old entry.key ≡ Some AtRun
        → IsDone (place_at K.cmp places.new entry.key)) }
{
    let Some(Place::Running) = places.get(&entry.key) else {
        return Ok(());
    };
    make(alloc, entry, fresh, places)?;
    Ok(())
}

/// The old entry of a key that is checked is taken over.
pub(crate) fn make_old<K: StepKey, O: Drop>(
    alloc: Global,
    entry: Entry<K, O>,
    fresh: &mut Vec<Entry<K, O>>,
    places: &mut Places<K>,
) -> Result<(), WantOfMemory>
    ensures made { OnOk result
        (IsMadeAt AtCheck entry (place_at K.cmp places.old) (place_at K.cmp places.new)
        fresh.old.items fresh.new.items) }
    ensures done { OnOk result (place_at K.cmp places.old entry.key ≡ Some AtCheck
        → IsDone (place_at K.cmp places.new entry.key)) }
{
    let Some(Place::Checking) = places.get(&entry.key) else {
        return Ok(());
    };
    make(alloc, entry, fresh, places)?;
    Ok(())
}

/// A key whose old entry isn't valid runs.
pub(crate) fn rerun<K: StepKey, O: Drop>(
    alloc: Global,
    key: K,
    book: &mut Book<K>,
    places: &mut Places<K>,
) -> Result<Option<Item<K, O>>, WantOfMemory>
    ensures ok { IfOk result
        (λ r. MatchOption r ((book.new ≡ book.old)
        × (place_at K.cmp places.new ≡ place_at K.cmp places.old))
        (IsRerun key book.old book.new (place_at K.cmp places.old) (place_at K.cmp places.new))) }
    ensures err { OnErr result (book.new ≡ book.old) }
    ensures runs { IfOk result (λ r. place_at K.cmp places.old key ≡ Some AtCheck → IfNone r ⊥) }
{
    let Some(Place::Checking) = places.get(&key) else {
        return Ok(None);
    };
    let permit = grant(alloc, &key, book, places)?;
    let talk = Talk {
        batches: Rows::new(alloc),
    };
    Ok(Some(Item::Run(Run { key, talk, permit })))
}

/// The outcome of a key that is done.
pub fn result_of<'a, K: StepKey, O: Drop>(
    key: &K,
    fresh: &'a Vec<Entry<K, O>>,
    places: &Places<K>,
) -> Option<&'a Outcome<O>>
    requires { Finds (place_at K.cmp places.now) fresh.now.items }
    ensures some { IfSome result (λ r. IsEntryOf key.now r.now fresh.now.items) }
    ensures none { IfNone result (IsDone (place_at K.cmp places.now key.now) → ⊥) }
{
    match places.get(key) {
        Some(Place::Done(number)) => match made_at(fresh, number) {
            Some(entry) => Some(&entry.result),
            None => None,
        },
        _ => None,
    }
}
