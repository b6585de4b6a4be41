//! Keys under way are looked at: parts that they ask for are opened, and they go on or wait.
ghost use Rattle.std.specs.Prelude.{◌≡◌, ◌⊎◌, ◌++◌, ℕ, List, [], Some, OnOk, IfOk, Contains, drop};
ghost use Rattle.step_engine.specs.Table.{place_at};
ghost use Rattle.step_engine.specs.Pooling.{Holds, Parks, IsIn};
ghost use Rattle.step_engine.specs.Scanning.{Scans, ScansNoted, ScansAll, ScansAllNoted, Readies, ReadiesNoted};
ghost use Rattle.step_engine.specs.Caches.{HasKey};
ghost use Rattle.step_engine.specs.Forward.{IsLeftAt, HasItem, HasWaiting, Waits, AreWaiting, AreOpened, Looks, Sorts, IsWhole, IsParted, Wakes, PutsBack};
ghost use Rattle.step_engine.specs.declared.items.Item.{Item};

use crate::cache::Cache;
use crate::items::{Item, Queue, Waiting};
use crate::key_table::KeyTable;
use crate::open::open_all;
use crate::places::Places;
use crate::pool::{Pool, park, wake};
use crate::rules::{Rules, StepKey};
use crate::talk::Entry;
use crate::wanted::{missing, parts_of};
use build_base::book::Book;
use build_base::text::WantOfMemory;
use std::alloc::Global;
use std::mem::replace;

// Opens the parts that a key asks for, and gives them all.
fn open_parts<R: Rules>(
    alloc: Global,
    rules: &R,
    old: &Cache<R::Key, R::Out>,
    item: &Item<R::Key, R::Out>,
    places: &mut Places<R::Key>,
    book: &mut Book<R::Key>,
    opened: &mut Vec<Item<R::Key, R::Out>>,
) -> Result<Vec<R::Key>, WantOfMemory>
    ensures noted { ScansNoted item.now old.now book.old (place_at R.Key.cmp places.old) book.new }
    ensures ok { OnOk result ((more : List (Item R.Key R.Out))
        × (opened.new.items ≡ opened.old.items ++ more)
        × Scans item.now old.now book.old (place_at R.Key.cmp places.old) book.new
        (place_at R.Key.cmp places.new) more) }
    ensures opens { OnOk result (AreOpened (place_at R.Key.cmp places.old)
        (place_at R.Key.cmp places.new) opened.new.items) }
    ensures grows { OnOk result ((a : Item R.Key R.Out) → Contains opened.old.items a
        → Contains opened.new.items a) }
    ensures waits { IfOk result
        (λ parts. Waits R.means.rank (place_at R.Key.cmp places.new) item.now parts.items) }
{
    let parts = parts_of(alloc, rules, item, places)?;
    let mut more = open_all(alloc, old, &parts, book, places)?;
    if opened.append(&mut more).is_err() {
        return Err(WantOfMemory);
    }
    Ok(parts)
}

// The parts that a key asks for are opened, and then it waits for them.
fn scan<R: Rules>(
    alloc: Global,
    rules: &R,
    old: &Cache<R::Key, R::Out>,
    item: Item<R::Key, R::Out>,
    places: &mut Places<R::Key>,
    book: &mut Book<R::Key>,
    waiting: &mut Vec<Waiting<R::Key, R::Out>>,
    opened: &mut Vec<Item<R::Key, R::Out>>,
) -> Result<(), WantOfMemory>
    ensures noted { ScansNoted item old.now book.old (place_at R.Key.cmp places.old) book.new }
    ensures ok { OnOk result ((more : List (Item R.Key R.Out))
        × (opened.new.items ≡ opened.old.items ++ more)
        × Scans item old.now book.old (place_at R.Key.cmp places.old) book.new
        (place_at R.Key.cmp places.new) more) }
    ensures held { OnOk result ((a : Item R.Key R.Out) → Holds waiting.new.items a → (item ≡ a)
        ⊎ Holds waiting.old.items a) }
    ensures looks { OnOk result (Looks R.means.rank (place_at R.Key.cmp places.old)
        (place_at R.Key.cmp places.new) (IsLeftAt (Some item)) opened.old.items opened.new.items
        waiting.old.items waiting.new.items) }
{
    let parts = open_parts(alloc, rules, old, &item, places, book, opened)?;
    if waiting.push(Waiting { item, parts }).is_err() {
        return Err(WantOfMemory);
    }
    Ok(())
}

// The parts that keys ask for are opened, and then they wait for them.
fn scan_all<R: Rules>(
    alloc: Global,
    rules: &R,
    old: &Cache<R::Key, R::Out>,
    items: Vec<Item<R::Key, R::Out>>,
    places: &mut Places<R::Key>,
    book: &mut Book<R::Key>,
    waiting: &mut Vec<Waiting<R::Key, R::Out>>,
) -> Result<Vec<Item<R::Key, R::Out>>, WantOfMemory>
    ensures noted { ScansAllNoted items.items old.now book.old (place_at R.Key.cmp places.old)
        book.new }
    ensures ok { IfOk result
        (λ opened. ScansAll items.items old.now book.old (place_at R.Key.cmp places.old) book.new
        (place_at R.Key.cmp places.new) opened.items) }
    ensures held { OnOk result ((a : Item R.Key R.Out) → Holds waiting.new.items a
        → Contains items.items a ⊎ Holds waiting.old.items a) }
    ensures looks { IfOk result (λ opened. Looks R.means.rank (place_at R.Key.cmp places.old)
        (place_at R.Key.cmp places.new) (HasItem items.items) [] opened.items waiting.old.items
        waiting.new.items) }
{
    let mut opened = Vec::new(alloc);
    for item in items {
        scan(alloc, rules, old, item, places, book, waiting, &mut opened)?;
    }
    Ok(opened)
}

// A key whose parts are all done is able to go on, another waits for one that isn't.
fn sort_one<K: StepKey, O: Drop>(
    alloc: Global,
    one: Waiting<K, O>,
    places: &Places<K>,
    parked: &mut KeyTable<K, Queue<K, O>>,
    able: &mut Vec<Item<K, O>>,
) -> Result<(), WantOfMemory>
    ensures among { OnOk result ((a : Item K O) → Contains able.new.items a
        ⊎ Parks K.cmp parked.new a → (one.item ≡ a)
        ⊎ (Contains able.old.items a ⊎ Parks K.cmp parked.old a)) }
    ensures sorts { OnOk result ((rank : K → ℕ) → Sorts K.cmp rank (place_at K.cmp places.now)
        (Waits rank (place_at K.cmp places.now) one.item one.parts.items) (IsLeftAt (Some one.item))
        parked.old parked.new able.old.items able.new.items) }
{
    let Waiting { item, parts } = one;
    let mut parts = parts;
    if let Some(part) = missing(&mut parts, places) {
        park(alloc, part, Waiting { item, parts }, parked)?;
        return Ok(());
    }
    if able.push(item).is_err() {
        return Err(WantOfMemory);
    }
    Ok(())
}

// The keys that are able to go on; the others wait.
fn sort_all<K: StepKey, O: Drop>(
    alloc: Global,
    waiting: Vec<Waiting<K, O>>,
    places: &Places<K>,
    parked: &mut KeyTable<K, Queue<K, O>>,
) -> Result<Vec<Item<K, O>>, WantOfMemory>
    ensures among { IfOk result (λ able. (a : Item K O) → Contains able.items a
        ⊎ Parks K.cmp parked.new a → Holds waiting.items a ⊎ Parks K.cmp parked.old a) }
    ensures sorts { IfOk result (λ able. (rank : K → ℕ)
        → Sorts K.cmp rank (place_at K.cmp places.now)
        (AreWaiting rank (place_at K.cmp places.now) waiting.items) (HasWaiting waiting.items)
        parked.old parked.new [] able.items) }
{
    let mut able = Vec::new(alloc);
    for one in waiting {
        sort_one(alloc, one, places, parked, &mut able)?;
    }
    Ok(able)
}

/// Takes out the keys that are able to go on. All new keys and all that were woken are looked at.
pub(crate) fn take_able<R: Rules>(
    alloc: Global,
    rules: &R,
    old: &Cache<R::Key, R::Out>,
    pool: &mut Pool<R::Key, R::Out>,
    places: &mut Places<R::Key>,
    book: &mut Book<R::Key>,
) -> Result<Vec<Item<R::Key, R::Out>>, WantOfMemory>
    ensures noted { ReadiesNoted R.Key.cmp pool.old old.now book.old (place_at R.Key.cmp places.old)
        book.new }
    ensures ok { OnOk result
        (Readies R.Key.cmp pool.old old.now book.old (place_at R.Key.cmp places.old) book.new
        (place_at R.Key.cmp places.new) pool.new.news.items) }
    ensures held { IfOk result (λ able. (a : Item R.Key R.Out) → Contains able.items a
        ⊎ (Holds pool.new.woken.items a ⊎ Parks R.Key.cmp pool.new.parked a)
        → IsIn R.Key.cmp pool.old a) }
    ensures parts { IfOk result (λ able.
        IsWhole R.Key.cmp R.means.rank (place_at R.Key.cmp places.old) pool.old
        → IsParted R.Key.cmp R.means.rank (place_at R.Key.cmp places.old)
        (place_at R.Key.cmp places.new) pool.new able.items) }
{
    let news = replace(&mut pool.news, Vec::new(alloc));
    let mut waiting = replace(&mut pool.woken, Vec::new(alloc));
    let opened = scan_all(alloc, rules, old, news, places, book, &mut waiting)?;
    pool.news = opened;
    let able = sort_all(alloc, waiting, places, &mut pool.parked)?;
    Ok(able)
}

// The keys that wait for one of these are woken.
fn wake_all<K: StepKey, O: Drop>(
    alloc: Global,
    made: &[Entry<K, O>],
    parked: &mut KeyTable<K, Queue<K, O>>,
    woken: &mut Vec<Waiting<K, O>>,
) -> Result<(), WantOfMemory>
    ensures among { OnOk result ((a : Item K O) → Parks K.cmp parked.new a
        ⊎ Holds woken.new.items a → Parks K.cmp parked.old a ⊎ Holds woken.old.items a) }
    ensures all { OnOk result (Wakes K.cmp (HasKey made.now) parked.old parked.new woken.old.items
        woken.new.items) }
{
    for entry in made {
        wake(alloc, &entry.key, parked, woken)?;
    }
    Ok(())
}

/// Puts back what is left of a round, and wakes the keys that wait for entries made from `first`
/// on.
pub fn put_back<K: StepKey, O: Drop>(
    alloc: Global,
    left: Vec<Item<K, O>>,
    fresh: &Vec<Entry<K, O>>,
    first: usize,
    pool: &mut Pool<K, O>,
) -> Result<(), WantOfMemory>
    ensures among { OnOk result ((a : Item K O) → IsIn K.cmp pool.new a → Contains left.items a
        ⊎ IsIn K.cmp pool.old a) }
    ensures all { OnOk result
        (PutsBack K.cmp left.items (drop first fresh.now.items) pool.old pool.new) }
{
    let mut left = left;
    if pool.news.append(&mut left).is_err() {
        return Err(WantOfMemory);
    }
    let Some(made) = fresh.get(first..) else {
        return Ok(());
    };
    wake_all(alloc, made, &mut pool.parked, &mut pool.woken)?;
    Ok(())
}
