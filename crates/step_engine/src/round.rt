//! One round of a list of keys.
ghost use Rattle.std.specs.Prelude.{◌≡◌, ◌≤◌, IfOk, OnOk, [], length};
ghost use Rattle.step_engine.specs.Build.{Counts, HasReadUnedited};
ghost use Rattle.step_engine.specs.Standing.{setting_of, state_of};
ghost use Rattle.step_engine.specs.Table.{place_at};
ghost use Rattle.step_engine.specs.Items.{IsReady, AreItems, AreItemsWanted};
ghost use Rattle.step_engine.specs.Taking.{IsList, ListNotes};
ghost use Rattle.step_engine.specs.Forward.{GoesOn, HasItem, AllAct, Enters};

use crate::advance::{advance_all, count_act};
use crate::crew::Crew;
use crate::fixed::Fixed;
use crate::items::Item;
use crate::progress::Progress;
use crate::refusal::EngineRefusal;
use crate::rules::Rules;
use crate::tally::Tally;
use crate::turns::{take_all, turns};
use build_base::book::Book;
use build_base::outside::{Gate, Tree};
use std::thread::Threads;

/// What is left of the keys of a list after a round: each that has its answers goes on, and those
/// that are to make a turn make it in one wave.
pub fn round<H: Threads + Sync, R: Rules, T: Tree, G: Gate>(
    crew: &Crew<'_, H, G>,
    fixed: &Fixed<'_, R>,
    items: Vec<Item<R::Key, R::Out>>,
    progress: &mut Progress<R::Key, R::Out>,
    tree: &mut T,
    book: &mut Book<R::Key>,
    tally: &mut Tally,
) -> Result<Vec<Item<R::Key, R::Out>>, EngineRefusal>
    requires some { 1 ≤ crew.now.workers }
    requires most { crew.now.workers ≤ 64 }
    requires ready { IsReady (setting_of R.means fixed.now (T.held tree.old))
        (state_of R.Key.cmp progress.old book.old (T.reads tree.old))
        (place_at R.Key.cmp progress.old.places) }
    requires items { AreItems (setting_of R.means fixed.now (T.held tree.old))
        (state_of R.Key.cmp progress.old book.old (T.reads tree.old)) items.items }
    ensures held { T.held tree.new ≡ T.held tree.old }
    ensures count { Counts (T.faults tree.old) (T.faults tree.new) result }
    ensures notes { ListNotes (setting_of R.means fixed.now (T.held tree.old))
        (state_of R.Key.cmp progress.old book.old (T.reads tree.old))
        (state_of R.Key.cmp progress.new book.new (T.reads tree.new))
        (place_at R.Key.cmp progress.old.places)
        (λ top. AreItemsWanted (setting_of R.means fixed.now (T.held tree.old)) top items.items) }
    ensures unedited { HasReadUnedited fixed.now.edits.now (T.reads tree.old) (T.reads tree.new) }
    ensures ok { IfOk result (λ left. IsList (setting_of R.means fixed.now (T.held tree.old))
        (state_of R.Key.cmp progress.old book.old (T.reads tree.old))
        (state_of R.Key.cmp progress.new book.new (T.reads tree.new))
        (place_at R.Key.cmp progress.old.places) (place_at R.Key.cmp progress.new.places)
        (λ top. AreItemsWanted (setting_of R.means fixed.now (T.held tree.old)) top items.items)
        [] left.items) }
    ensures goes { IfOk result (λ left. GoesOn R.Out R.Key.cmp (length progress.old.fresh.items)
        (length progress.new.fresh.items) (place_at R.Key.cmp progress.old.places)
        (place_at R.Key.cmp progress.new.places) (HasItem items.items) (HasItem left.items)) }
    ensures acts { OnOk result (AllAct R.means.rank
        (place_at R.Key.cmp progress.old.places) items.items tally.old.acts tally.new.acts ⊥) }
    ensures entered { OnOk result (Enters (place_at R.Key.cmp progress.old.places)
        (place_at R.Key.cmp progress.new.places) progress.old.fresh.items
        progress.new.fresh.items) }
{
    let alloc = crew.alloc;
    let mut left = Vec::new(alloc);
    let runs = advance_all(
        alloc,
        fixed,
        items,
        progress,
        tree,
        book,
        &mut tally.acts,
        &mut left,
    )?;
    count_act(&mut tally.acts, !runs.is_empty());
    let done = turns(
        crew.rt,
        alloc,
        fixed.rules,
        runs,
        crew.workers,
        crew.gate,
        &mut tally.waves,
    )?;
    take_all(
        alloc,
        done,
        &mut progress.fresh,
        &mut progress.places,
        &mut left,
    )?;
    Ok(left)
}
