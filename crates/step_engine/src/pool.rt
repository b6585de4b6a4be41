//! The keys under way.
ghost use Rattle.std.specs.Prelude.{◌≡◌, ◌⊎◌, None, OnOk};
ghost use Rattle.step_engine.specs.Table.{Sets};
ghost use Rattle.step_engine.specs.Pooling.{Holds, Parks};
ghost use Rattle.step_engine.specs.Forward.{queue_at, Queues, Wakes};
ghost use Rattle.step_engine.specs.declared.items.Item.{Item};

use crate::items::{Item, Queue, Waiting};
use crate::key_table::KeyTable;
use crate::rules::StepKey;
use build_base::text::WantOfMemory;
use std::alloc::Global;

/// The keys under way: new ones, those of which a part was done just now, and those that wait for a
/// part, by that part.
#[derive(Drop)]
pub struct Pool<K: StepKey, O: Drop> {
    pub news: Vec<Item<K, O>>,
    pub woken: Vec<Waiting<K, O>>,
    pub parked: KeyTable<K, Queue<K, O>>,
}

/// Takes out the keys that wait for a part.
pub(crate) fn take_parked<K: StepKey, O: Drop>(
    alloc: Global,
    part: &K,
    parked: &mut KeyTable<K, Queue<K, O>>,
) -> Vec<Waiting<K, O>>
    ensures out { (a : Item K O) → Holds result.items a → Parks K.cmp parked.old a }
    ensures less { (a : Item K O) → Parks K.cmp parked.new a → Parks K.cmp parked.old a }
    ensures all { result.items ≡ queue_at K.cmp parked.old part.now }
    ensures sets { Sets K.cmp part.now None parked.old parked.new }
{
    match parked.remove(part) {
        Some(queue) => queue.list,
        None => Vec::new(alloc),
    }
}

/// The key waits for the part.
pub(crate) fn park<K: StepKey, O: Drop>(
    alloc: Global,
    part: K,
    waiting: Waiting<K, O>,
    parked: &mut KeyTable<K, Queue<K, O>>,
) -> Result<(), WantOfMemory>
    ensures among { OnOk result ((a : Item K O) → Parks K.cmp parked.new a → (waiting.item ≡ a)
        ⊎ Parks K.cmp parked.old a) }
    ensures all { OnOk result (Queues K.cmp part waiting parked.old parked.new) }
{
    let mut list = take_parked(alloc, &part, parked);
    if list.push(waiting).is_err() {
        return Err(WantOfMemory);
    }
    parked.insert(part, Queue { list })?;
    Ok(())
}

/// The keys that wait for a part wait no longer.
pub(crate) fn wake<K: StepKey, O: Drop>(
    alloc: Global,
    part: &K,
    parked: &mut KeyTable<K, Queue<K, O>>,
    woken: &mut Vec<Waiting<K, O>>,
) -> Result<(), WantOfMemory>
    ensures among { OnOk result ((a : Item K O) → Parks K.cmp parked.new a
        ⊎ Holds woken.new.items a → Parks K.cmp parked.old a ⊎ Holds woken.old.items a) }
    ensures all { OnOk result (Wakes K.cmp (λ k. part.now ≡ k) parked.old parked.new woken.old.items
        woken.new.items) }
{
    let mut list = take_parked(alloc, part, parked);
    if woken.append(&mut list).is_err() {
        return Err(WantOfMemory);
    }
    Ok(())
}
