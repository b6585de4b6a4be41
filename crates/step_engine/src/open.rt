//! Keys that are met for the first time.
ghost use Rattle.std.specs.Prelude.{MatchOption, ◌≡◌, IfOk, OnOk, OnErr};
ghost use Rattle.step_engine.specs.Table.{place_at};
ghost use Rattle.step_engine.specs.Opening.{IsOpened, Opens, OpensNoted};
ghost use Rattle.step_engine.specs.Forward.{IsMet, AreMet, AreOpened};

use crate::cache::Cache;
use crate::items::{Check, Item, Run};
use crate::places::{Place, Places};
use crate::rules::StepKey;
use crate::table::grant;
use crate::talk::Talk;
use crate::turns::put_in;
use build_base::book::Book;
use build_base::rows::Rows;
use build_base::same::Same;
use build_base::text::WantOfMemory;
use entry_checks::entry_to_check;
use std::alloc::Global;

// A key that is met for the first time: its old entry is checked, or its step runs.
fn open<K: StepKey, O: Same + Drop>(
    alloc: Global,
    old: &Cache<K, O>,
    key: &K,
    book: &mut Book<K>,
    places: &mut Places<K>,
) -> Result<Option<Item<K, O>>, WantOfMemory>
    ensures ok { IfOk result
        (λ r. MatchOption r ((book.new ≡ book.old)
        × (place_at K.cmp places.new ≡ place_at K.cmp places.old))
        (IsOpened key.now old.now book.old book.new (place_at K.cmp places.old)
        (place_at K.cmp places.new))) }
    ensures err { OnErr result (book.new ≡ book.old) }
    ensures met { OnOk result (IsMet (place_at K.cmp places.new key.now)) }
{
    let None = places.get(key) else {
        return Ok(None);
    };
    let kept = old.get(key);
    match entry_to_check(alloc, kept)? {
        Some(entry) => {
            let noted = key.copy(alloc)?;
            places.note(noted, Place::Checking)?;
            Ok(Some(Item::Check(Check { entry, batch: 0 })))
        }
        None => {
            let own = key.copy(alloc)?;
            let permit = grant(alloc, key, book, places)?;
            let talk = Talk {
                batches: Rows::new(alloc),
            };
            Ok(Some(Item::Run(Run {
                key: own,
                talk,
                permit,
            })))
        }
    }
}

/// The keys of a list that are met for the first time.
pub(crate) fn open_all<K: StepKey, O: Same + Drop>(
    alloc: Global,
    old: &Cache<K, O>,
    keys: &Vec<K>,
    book: &mut Book<K>,
    places: &mut Places<K>,
) -> Result<Vec<Item<K, O>>, WantOfMemory>
    ensures ok { IfOk result
        (λ items. Opens keys.now.items old.now book.old (place_at K.cmp places.old) book.new
        (place_at K.cmp places.new) items.items) }
    ensures noted { OpensNoted keys.now.items old.now book.old (place_at K.cmp places.old)
        book.new }
    ensures opened { IfOk result (λ items. AreOpened (place_at K.cmp places.old)
        (place_at K.cmp places.new) items.items) }
    ensures met { OnOk result (AreMet (place_at K.cmp places.new) keys.now.items) }
{
    let mut items = Vec::new(alloc);
    for key in keys {
        let left = open(alloc, old, key, book, places)?;
        put_in(left, &mut items)?;
    }
    Ok(items)
}
