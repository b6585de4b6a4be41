//! A wave of turns, and what each of them leaves.
ghost use Rattle.std.specs.Prelude.{◌≤◌, ◌⊎◌, IfOk, OnOk, length};
ghost use Rattle.std.specs.List.{AllZip};
ghost use Rattle.step_engine.specs.Table.{place_at};
ghost use Rattle.step_engine.specs.Items.{IsTurned};
ghost use Rattle.step_engine.specs.Taking.{TakesUp, PutsIn, Takes};
ghost use Rattle.step_engine.specs.Forward.{HasItem, HasTurned, IsLeftAt, Goes, GoesOn, Enters};
ghost use Rattle.step_engine.specs.declared.places.Place.TheVariants.{Running as AtRun};

use crate::items::{Asked, Item, Run, Turned};
use crate::places::Places;
use crate::rules::{Rules, StepKey, Turn};
use crate::table::make_new;
use crate::talk::Entry;
use build_base::outside::Gate;
use build_base::text::WantOfMemory;
use drawn_waves::draw_wave;
use shared_value::Shared;
use std::alloc::Global;
use std::thread::Threads;

/// The turns of a wave, in its order. Waves that have turns are numbered.
pub fn turns<H: Threads + Sync, R: Rules, G: Gate>(
    rt: &H,
    alloc: Global,
    rules: &R,
    runs: Vec<Run<R::Key, R::Out>>,
    workers: u32,
    gate: &G,
    waves: &mut u64,
) -> Result<Vec<Turned<R::Key, R::Out>>, WantOfMemory>
    requires some { 1 ≤ workers }
    requires most { workers ≤ 64 }
    ensures { IfOk result (λ done. AllZip (IsTurned R.means) runs.items done.items) }
{
    if runs.is_empty() {
        return Ok(Vec::new(alloc));
    }
    let wave = *waves;
    *waves = wave.wrapping_add(1);
    let work = |run: Run<R::Key, R::Out>| -> Result<Turned<R::Key, R::Out>, WantOfMemory>
        ensures { IfOk result (λ t. IsTurned R.means run t) }
    {
        let Run { key, talk, permit } = run;
        match rules.turn(alloc, &key, &talk, permit) {
            Ok(turn) => Ok(Turned { key, talk, turn }),
            Err(_) => Err(WantOfMemory),
        }
    };
    draw_wave(rt, alloc, runs, workers, gate, wave, &work)
}

/// What a turn leaves: its asks wait, or its entry is made.
pub(crate) fn take_turn<K: StepKey, O: Drop>(
    alloc: Global,
    turned: Turned<K, O>,
    fresh: &mut Vec<Entry<K, O>>,
    places: &mut Places<K>,
) -> Result<Option<Item<K, O>>, WantOfMemory>
    ensures takes { IfOk result
        (λ r. TakesUp turned.key turned.talk turned.turn (place_at K.cmp places.old)
        (place_at K.cmp places.new) fresh.old.items fresh.new.items r) }
    ensures goes { IfOk result
        (λ r. Goes turned.key AtRun (length fresh.old.items) (length fresh.new.items)
        (place_at K.cmp places.old) (place_at K.cmp places.new) (IsLeftAt r)) }
    ensures entered { OnOk result (Enters (place_at K.cmp places.old) (place_at K.cmp places.new)
        fresh.old.items fresh.new.items) }
{
    let Turned { key, talk, turn } = turned;
    match turn {
        Turn::Ask(asks, permit) => Ok(Some(Item::Asked(Asked {
            key,
            talk,
            permit,
            asks,
        }))),
        Turn::Done(result) => {
            let talk = Shared::new(alloc, talk)?;
            make_new(alloc, Entry { key, talk, result }, fresh, places)?;
            Ok(None)
        }
    }
}

/// What is left of a key is put to the rest.
pub fn put_in<K: Drop, O: Drop>(
    left: Option<Item<K, O>>,
    rest: &mut Vec<Item<K, O>>,
) -> Result<(), WantOfMemory>
    ensures { OnOk result (PutsIn left rest.old.items rest.new.items) }
{
    if let Some(item) = left {
        if rest.push(item).is_err() {
            return Err(WantOfMemory);
        }
        return Ok(());
    }
    Ok(())
}

/// What the turns of a wave leave, in its order.
pub fn take_all<K: StepKey, O: Drop>(
    alloc: Global,
    done: Vec<Turned<K, O>>,
    fresh: &mut Vec<Entry<K, O>>,
    places: &mut Places<K>,
    rest: &mut Vec<Item<K, O>>,
) -> Result<(), WantOfMemory>
    ensures takes { OnOk result
        (Takes fresh.old.items (place_at K.cmp places.old) done.items rest.old.items fresh.new.items
        (place_at K.cmp places.new) rest.new.items) }
    ensures goes { OnOk result
        (GoesOn O K.cmp (length fresh.old.items) (length fresh.new.items)
        (place_at K.cmp places.old) (place_at K.cmp places.new)
        (λ k p. HasTurned done.items k p ⊎ HasItem rest.old.items k p) (HasItem rest.new.items)) }
    ensures entered { OnOk result (Enters (place_at K.cmp places.old) (place_at K.cmp places.new)
        fresh.old.items fresh.new.items) }
{
    for turned in done {
        let left = take_turn(alloc, turned, fresh, places)?;
        put_in(left, rest)?;
    }
    Ok(())
}
