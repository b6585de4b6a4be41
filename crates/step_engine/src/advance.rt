//! One step forward for a key under way.
ghost use Rattle.std.specs.Prelude.{◌≡◌, ◌≤◌, ◌⊎◌, true, IfOk, OnOk, [], ◌∷◌, length};
ghost use Rattle.step_engine.specs.Build.{Counts, HasReadUnedited};
ghost use Rattle.step_engine.specs.Standing.{setting_of, state_of};
ghost use Rattle.step_engine.specs.Engine.{state, AreKept, Adds};
ghost use Rattle.step_engine.specs.Reading.{knowledge};
ghost use Rattle.step_engine.specs.Table.{place_at, Finds};
ghost use Rattle.step_engine.specs.Items.{IsAsked, IsCheck, IsResumed, IsCheckedOn, IsReady, IsAdvanced, IsItem, item_key, Notes, AreItems, AreItemsWanted};
ghost use Rattle.step_engine.specs.Taking.{SortsIn, IsList, ListNotes};
ghost use Rattle.step_engine.specs.Forward.{Rises, Acts, AllAct, Goes, GoesOn, IsLeftAt, IsRun, HasItem, HasRun, HasOne, Enters, item_place};
ghost use Rattle.step_engine.specs.declared.places.Place.TheVariants.{Running as AtRun};

use crate::answers::{answers, check_batch};
use crate::fixed::Fixed;
use crate::items::{Asked, Check, Checked, Item, Run};
use crate::learned::Learned;
use crate::places::Places;
use crate::progress::Progress;
use crate::refusal::EngineRefusal;
use crate::rules::Rules;
use crate::table::{make_old, rerun};
use crate::talk::{Batch, Entry};
use build_base::book::Book;
use build_base::outside::Tree;
use build_base::text::WantOfMemory;
use std::alloc::Global;

/// Counts what a visit did for the keys under way.
pub(crate) fn count_act(acts: &mut u64, done: bool)
    ensures grows { acts.old ≤ acts.new }
    ensures counts { done ≡ true → Rises acts.old acts.new }
{
    if done {
        *acts = acts.saturating_add(1);
    }
}

// A step that asked is answered where all has an answer by now, and else it waits on.
fn resume<R: Rules, T: Tree>(
    alloc: Global,
    fixed: &Fixed<'_, R>,
    asked: Asked<R::Key, R::Out>,
    fresh: &Vec<Entry<R::Key, R::Out>>,
    places: &Places<R::Key>,
    tree: &mut T,
    learned: &mut Learned<R::Key>,
    acts: &mut u64,
) -> Result<Item<R::Key, R::Out>, EngineRefusal>
    requires kept { AreKept (setting_of R.means fixed.now (T.held tree.old))
        (state fresh.now.items (knowledge R.Key.cmp learned.old) [] (T.reads tree.old)) }
    requires finds { Finds (place_at R.Key.cmp places.now) fresh.now.items }
    requires asked { IsAsked (setting_of R.means fixed.now (T.held tree.old))
        (state fresh.now.items (knowledge R.Key.cmp learned.old) [] (T.reads tree.old)) asked.key
        asked.talk.batches asked.asks }
    ensures held { T.held tree.new ≡ T.held tree.old }
    ensures count { Counts (T.faults tree.old) (T.faults tree.new) result }
    ensures adds { Adds (setting_of R.means fixed.now (T.held tree.old)) asked.key
        (state fresh.now.items (knowledge R.Key.cmp learned.old) [] (T.reads tree.old))
        (state fresh.now.items (knowledge R.Key.cmp learned.new) [] (T.reads tree.new)) }
    ensures unedited { HasReadUnedited fixed.now.edits.now (T.reads tree.old) (T.reads tree.new) }
    ensures ok { IfOk result (IsResumed (setting_of R.means fixed.now (T.held tree.old)) asked.key
        (state fresh.now.items (knowledge R.Key.cmp learned.old) [] (T.reads tree.old))
        (state fresh.now.items (knowledge R.Key.cmp learned.new) [] (T.reads tree.new))) }
    ensures at { IfOk result (λ a. item_place a ≡ AtRun) }
    ensures acts { OnOk result (Acts R.means.rank (place_at R.Key.cmp places.now) (Item.Asked asked)
        acts.old acts.new ⊥) }
{
    let Asked {
        key,
        talk,
        permit,
        asks,
    } = asked;
    let found = answers(alloc, fixed, &key, &asks, fresh, places, tree, learned)?;
    let Some(pairs) = found else {
        return Ok(Item::Asked(Asked {
            key,
            talk,
            permit,
            asks,
        }));
    };
    count_act(acts, true);
    let mut talk = talk;
    talk.batches.push(Batch { pairs })?;
    Ok(Item::Run(Run { key, talk, permit }))
}

// The next batch of an old entry is checked where all has an answer by now.
fn check_next<R: Rules, T: Tree>(
    alloc: Global,
    fixed: &Fixed<'_, R>,
    check: Check<R::Key, R::Out>,
    fresh: &Vec<Entry<R::Key, R::Out>>,
    places: &Places<R::Key>,
    tree: &mut T,
    learned: &mut Learned<R::Key>,
    acts: &mut u64,
) -> Result<Checked<R::Key, R::Out>, EngineRefusal>
    requires kept { AreKept (setting_of R.means fixed.now (T.held tree.old))
        (state fresh.now.items (knowledge R.Key.cmp learned.old) [] (T.reads tree.old)) }
    requires finds { Finds (place_at R.Key.cmp places.now) fresh.now.items }
    requires check { IsCheck (setting_of R.means fixed.now (T.held tree.old))
        (state fresh.now.items (knowledge R.Key.cmp learned.old) [] (T.reads tree.old)) check.entry
        check.batch }
    ensures held { T.held tree.new ≡ T.held tree.old }
    ensures count { Counts (T.faults tree.old) (T.faults tree.new) result }
    ensures adds { Adds (setting_of R.means fixed.now (T.held tree.old)) check.entry.key
        (state fresh.now.items (knowledge R.Key.cmp learned.old) [] (T.reads tree.old))
        (state fresh.now.items (knowledge R.Key.cmp learned.new) [] (T.reads tree.new)) }
    ensures unedited { HasReadUnedited fixed.now.edits.now (T.reads tree.old) (T.reads tree.new) }
    ensures ok { IfOk result (IsCheckedOn
        (setting_of R.means fixed.now (T.held tree.old)) check.entry.key
        (state fresh.now.items (knowledge R.Key.cmp learned.old) [] (T.reads tree.old))
        (state fresh.now.items (knowledge R.Key.cmp learned.new) [] (T.reads tree.new))) }
    ensures acts { OnOk result (Acts R.means.rank (place_at R.Key.cmp places.now) (Item.Check check)
        acts.old acts.new ⊥) }
{
    let Check { entry, batch } = check;
    let talk = entry.talk.value();
    let found = match talk.batches.items().get(batch) {
        Some(batch) => {
            let pairs = &batch.pairs;
            check_batch(
                alloc, fixed, &entry.key, pairs, fresh, places, tree, learned,
            )?
        }
        None => {
            count_act(acts, true);
            return Ok(Checked::Right(entry));
        }
    };
    count_act(acts, found.is_some());
    match found {
        Some(true) => Ok(Checked::Next(Check {
            entry,
            batch: batch + 1,
        })),
        Some(false) => Ok(Checked::Wrong(entry.key)),
        None => Ok(Checked::Next(Check { entry, batch })),
    }
}

/// One step forward for a key under way, and what is left of it: nothing where its entry is made.
pub fn advance<R: Rules, T: Tree>(
    alloc: Global,
    fixed: &Fixed<'_, R>,
    item: Item<R::Key, R::Out>,
    progress: &mut Progress<R::Key, R::Out>,
    tree: &mut T,
    book: &mut Book<R::Key>,
    acts: &mut u64,
) -> Result<Option<Item<R::Key, R::Out>>, EngineRefusal>
    requires ready { IsReady (setting_of R.means fixed.now (T.held tree.old))
        (state_of R.Key.cmp progress.old book.old (T.reads tree.old))
        (place_at R.Key.cmp progress.old.places) }
    requires item { IsItem (setting_of R.means fixed.now (T.held tree.old))
        (state_of R.Key.cmp progress.old book.old (T.reads tree.old)) item }
    ensures held { T.held tree.new ≡ T.held tree.old }
    ensures count { Counts (T.faults tree.old) (T.faults tree.new) result }
    ensures notes { Notes (setting_of R.means fixed.now (T.held tree.old)) (item_key item)
        (state_of R.Key.cmp progress.old book.old (T.reads tree.old))
        (state_of R.Key.cmp progress.new book.new (T.reads tree.new))
        (place_at R.Key.cmp progress.old.places) }
    ensures unedited { HasReadUnedited fixed.now.edits.now (T.reads tree.old) (T.reads tree.new) }
    ensures ok { IfOk result (IsAdvanced (setting_of R.means fixed.now (T.held tree.old))
        (item_key item) (state_of R.Key.cmp progress.old book.old (T.reads tree.old))
        (state_of R.Key.cmp progress.new book.new (T.reads tree.new))
        (place_at R.Key.cmp progress.old.places) (place_at R.Key.cmp progress.new.places)) }
    ensures goes { IfOk result (λ r. Goes (item_key item) (item_place item)
        (length progress.old.fresh.items) (length progress.new.fresh.items)
        (place_at R.Key.cmp progress.old.places) (place_at R.Key.cmp progress.new.places)
        (IsLeftAt r)) }
    ensures acts { IfOk result (λ r. Acts R.means.rank
        (place_at R.Key.cmp progress.old.places) item acts.old acts.new (IsRun r)) }
    ensures entered { OnOk result (Enters (place_at R.Key.cmp progress.old.places)
        (place_at R.Key.cmp progress.new.places) progress.old.fresh.items
        progress.new.fresh.items) }
{
    match item {
        Item::Run(run) => Ok(Some(Item::Run(run))),
        Item::Asked(asked) => {
            let item = resume(
                alloc,
                fixed,
                asked,
                &progress.fresh,
                &progress.places,
                tree,
                &mut progress.learned,
                acts,
            )?;
            Ok(Some(item))
        }
        Item::Check(check) => {
            let checked = check_next(
                alloc,
                fixed,
                check,
                &progress.fresh,
                &progress.places,
                tree,
                &mut progress.learned,
                acts,
            )?;
            match checked {
                Checked::Right(entry) => {
                    make_old(alloc, entry, &mut progress.fresh, &mut progress.places)?;
                    Ok(None)
                }
                Checked::Wrong(key) => {
                    let item = rerun(alloc, key, book, &mut progress.places)?;
                    Ok(item)
                }
                Checked::Next(check) => Ok(Some(Item::Check(check))),
            }
        }
    }
}

// What is left of a key is put to the runs or to the rest.
fn sort_in<K: Drop, O: Drop>(
    left: Option<Item<K, O>>,
    runs: &mut Vec<Run<K, O>>,
    rest: &mut Vec<Item<K, O>>,
) -> Result<(), WantOfMemory>
    ensures { OnOk result
        (SortsIn left runs.old.items runs.new.items rest.old.items rest.new.items) }
{
    match left {
        None => Ok(()),
        Some(Item::Run(run)) => {
            if runs.push(run).is_err() {
                return Err(WantOfMemory);
            }
            Ok(())
        }
        Some(item) => {
            if rest.push(item).is_err() {
                return Err(WantOfMemory);
            }
            Ok(())
        }
    }
}

/// One step forward for each key under way: the runs that are to make their next turns, and the
/// rest.
pub(crate) fn advance_all<R: Rules, T: Tree>(
    alloc: Global,
    fixed: &Fixed<'_, R>,
    items: Vec<Item<R::Key, R::Out>>,
    progress: &mut Progress<R::Key, R::Out>,
    tree: &mut T,
    book: &mut Book<R::Key>,
    acts: &mut u64,
    rest: &mut Vec<Item<R::Key, R::Out>>,
) -> Result<Vec<Run<R::Key, R::Out>>, EngineRefusal>
    requires ready { IsReady (setting_of R.means fixed.now (T.held tree.old))
        (state_of R.Key.cmp progress.old book.old (T.reads tree.old))
        (place_at R.Key.cmp progress.old.places) }
    requires items { AreItems (setting_of R.means fixed.now (T.held tree.old))
        (state_of R.Key.cmp progress.old book.old (T.reads tree.old)) items.items }
    requires none { rest.old.items ≡ [] }
    ensures held { T.held tree.new ≡ T.held tree.old }
    ensures count { Counts (T.faults tree.old) (T.faults tree.new) result }
    ensures notes { ListNotes (setting_of R.means fixed.now (T.held tree.old))
        (state_of R.Key.cmp progress.old book.old (T.reads tree.old))
        (state_of R.Key.cmp progress.new book.new (T.reads tree.new))
        (place_at R.Key.cmp progress.old.places)
        (λ top. AreItemsWanted (setting_of R.means fixed.now (T.held tree.old)) top items.items) }
    ensures unedited { HasReadUnedited fixed.now.edits.now (T.reads tree.old) (T.reads tree.new) }
    ensures ok { IfOk result (λ runs. IsList (setting_of R.means fixed.now (T.held tree.old))
        (state_of R.Key.cmp progress.old book.old (T.reads tree.old))
        (state_of R.Key.cmp progress.new book.new (T.reads tree.new))
        (place_at R.Key.cmp progress.old.places) (place_at R.Key.cmp progress.new.places)
        (λ top. AreItemsWanted (setting_of R.means fixed.now (T.held tree.old)) top items.items)
        runs.items rest.new.items) }
    ensures goes { IfOk result (λ runs. GoesOn R.Out R.Key.cmp (length progress.old.fresh.items)
        (length progress.new.fresh.items) (place_at R.Key.cmp progress.old.places)
        (place_at R.Key.cmp progress.new.places) (HasItem items.items)
        (λ k p. HasRun runs.items k p ⊎ HasItem rest.new.items k p)) }
    ensures acts { IfOk result (λ runs. AllAct R.means.rank
        (place_at R.Key.cmp progress.old.places) items.items acts.old acts.new
        (HasOne runs.items)) }
    ensures entered { OnOk result (Enters (place_at R.Key.cmp progress.old.places)
        (place_at R.Key.cmp progress.new.places) progress.old.fresh.items
        progress.new.fresh.items) }
{
    let mut runs = Vec::new(alloc);
    for item in items {
        let left = advance(alloc, fixed, item, progress, tree, book, acts)?;
        sort_in(left, &mut runs, rest)?;
    }
    Ok(runs)
}
