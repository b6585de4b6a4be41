//! A build from visit to visit, until its key is done.
ghost use Rattle.std.specs.Prelude.{◌≡◌, ◌≤◌, ℕ, None, IfOk, OnOk, [], ◌∷◌};
ghost use Rattle.step_engine.specs.Build.{Counts, HasReadUnedited};
ghost use Rattle.step_engine.specs.Standing.{setting_of, state_of};
ghost use Rattle.step_engine.specs.Table.{place_at};
ghost use Rattle.step_engine.specs.Items.{IsReady};
ghost use Rattle.step_engine.specs.Taking.{ListNotes};
ghost use Rattle.step_engine.specs.Scanning.{AreUnderWay, AreAllWanted};
ghost use Rattle.step_engine.specs.Settling.{IsVisited, IsBroughtTo, TopNotes, Begins};
ghost use Rattle.step_engine.specs.Opening.{OpensNoted};
ghost use Rattle.step_engine.specs.Forward.{IsMet, IsWhole, IsForward, AreEntered};

use crate::advance::count_act;
use crate::cache::Cache;
use crate::crew::Crew;
use crate::fixed::Fixed;
use crate::key_table::KeyTable;
use crate::open::open_all;
use crate::places::Places;
use crate::pool::Pool;
use crate::progress::Progress;
use crate::refusal::EngineRefusal;
use crate::round::round;
use crate::rules::{Rules, StepKey};
use crate::scan::{put_back, take_able};
use crate::table::result_of;
use crate::talk::Outcome;
use crate::tally::Tally;
use build_base::book::Book;
use build_base::outside::{Gate, Tree};
use build_base::same::Same;
use build_base::text::WantOfMemory;
use std::alloc::Global;
use std::thread::Threads;

// All keys that are able to go on do, those that are to make a turn in one wave.
fn run_ready_keys<H: Threads + Sync, R: Rules, T: Tree, G: Gate>(
    crew: &Crew<'_, H, G>,
    fixed: &Fixed<'_, R>,
    progress: &mut Progress<R::Key, R::Out>,
    tree: &mut T,
    book: &mut Book<R::Key>,
    tally: &mut Tally,
    pool: &mut Pool<R::Key, R::Out>,
) -> Result<(), EngineRefusal>
    requires some { 1 ≤ crew.now.workers }
    requires most { crew.now.workers ≤ 64 }
    requires ready { IsReady (setting_of R.means fixed.now (T.held tree.old))
        (state_of R.Key.cmp progress.old book.old (T.reads tree.old))
        (place_at R.Key.cmp progress.old.places) }
    requires items { AreUnderWay R.Key.cmp (setting_of R.means fixed.now (T.held tree.old))
        (state_of R.Key.cmp progress.old book.old (T.reads tree.old)) pool.old }
    ensures held { T.held tree.new ≡ T.held tree.old }
    ensures count { Counts (T.faults tree.old) (T.faults tree.new) result }
    ensures notes { ListNotes (setting_of R.means fixed.now (T.held tree.old))
        (state_of R.Key.cmp progress.old book.old (T.reads tree.old))
        (state_of R.Key.cmp progress.new book.new (T.reads tree.new))
        (place_at R.Key.cmp progress.old.places)
        (λ top. AreAllWanted R.Key.cmp (setting_of R.means fixed.now (T.held tree.old)) top
        pool.old) }
    ensures unedited { HasReadUnedited fixed.now.edits.now (T.reads tree.old) (T.reads tree.new) }
    ensures ok { IfOk result
        (λ _. IsVisited R.Key.cmp (setting_of R.means fixed.now (T.held tree.old))
        (state_of R.Key.cmp progress.old book.old (T.reads tree.old))
        (state_of R.Key.cmp progress.new book.new (T.reads tree.new))
        (place_at R.Key.cmp progress.old.places) (place_at R.Key.cmp progress.new.places) pool.old
        pool.new) }
    ensures forward { OnOk result
        (IsWhole R.Key.cmp R.means.rank (place_at R.Key.cmp progress.old.places) pool.old
        → AreEntered (place_at R.Key.cmp progress.old.places) progress.old.fresh.items
        → IsForward R.Key.cmp R.means.rank (place_at R.Key.cmp progress.old.places)
        (place_at R.Key.cmp progress.new.places) pool.new progress.new.fresh.items tally.old.acts
        tally.new.acts) }
{
    let alloc = crew.alloc;
    let able = take_able(
        alloc,
        fixed.rules,
        fixed.old,
        pool,
        &mut progress.places,
        book,
    )?;
    count_act(&mut tally.acts, !pool.news.is_empty());
    let first = progress.fresh.len();
    let left = round(crew, fixed, able, progress, tree, book, tally)?;
    put_back(alloc, left, &progress.fresh, first, pool)?;
    Ok(())
}

// One key under way.
fn begin<K: StepKey, O: Same + Drop>(
    alloc: Global,
    old: &Cache<K, O>,
    top: &K,
    places: &mut Places<K>,
    book: &mut Book<K>,
) -> Result<Pool<K, O>, WantOfMemory>
    ensures noted { OpensNoted (top.now ∷ []) old.now book.old (place_at K.cmp places.old)
        book.new }
    ensures ok { IfOk result
        (λ pool. Begins K.cmp top.now old.now book.old (place_at K.cmp places.old) book.new
        (place_at K.cmp places.new) pool) }
    ensures whole { IfOk result (λ pool. (rank : K → ℕ) → ((k : K) → place_at K.cmp places.old k ≡ None)
        → IsWhole K.cmp rank (place_at K.cmp places.new) pool) }
    ensures met { OnOk result (IsMet (place_at K.cmp places.new top.now)) }
{
    let key = top.copy(alloc)?;
    let mut keys = Vec::new(alloc);
    if keys.push(key).is_err() {
        return Err(WantOfMemory);
    }
    let news = open_all(alloc, old, &keys, book, places)?;
    Ok(Pool {
        news,
        woken: Vec::new(alloc),
        parked: KeyTable::new(alloc),
    })
}

/// The outcome of a key, for the sake of which other keys are brought.
///
/// Each visit does something for some key: it opens one, makes its turn, answers or checks a batch
/// of it, or makes its entry. A key waits only for parts of lower rank that are under way, so one of
/// those under way is always able to go on. What is done is counted, up to the greatest number of
/// 64 bits.
pub(crate) fn run_to_end<H: Threads + Sync, R: Rules, T: Tree, G: Gate>(
    crew: &Crew<'_, H, G>,
    fixed: &Fixed<'_, R>,
    top: &R::Key,
    progress: &mut Progress<R::Key, R::Out>,
    tree: &mut T,
    book: &mut Book<R::Key>,
) -> Result<Outcome<R::Out>, EngineRefusal>
    requires some { 1 ≤ crew.now.workers }
    requires most { crew.now.workers ≤ 64 }
    requires ready { IsReady (setting_of R.means fixed.now (T.held tree.old))
        (state_of R.Key.cmp progress.old book.old (T.reads tree.old))
        (place_at R.Key.cmp progress.old.places) }
    requires new { (k : R.Key) → place_at R.Key.cmp progress.old.places k ≡ None }
    requires none { progress.old.fresh.items ≡ [] }
    ensures held { T.held tree.new ≡ T.held tree.old }
    ensures count { Counts (T.faults tree.old) (T.faults tree.new) result }
    ensures notes { TopNotes (setting_of R.means fixed.now (T.held tree.old)) top.now
        (state_of R.Key.cmp progress.old book.old (T.reads tree.old))
        (state_of R.Key.cmp progress.new book.new (T.reads tree.new))
        (place_at R.Key.cmp progress.old.places) }
    ensures unedited { HasReadUnedited fixed.now.edits.now (T.reads tree.old) (T.reads tree.new) }
    ensures ok { IfOk result
        (λ r. IsBroughtTo (setting_of R.means fixed.now (T.held tree.old)) top.now
        (state_of R.Key.cmp progress.old book.old (T.reads tree.old))
        (state_of R.Key.cmp progress.new book.new (T.reads tree.new))
        (place_at R.Key.cmp progress.old.places) (place_at R.Key.cmp progress.new.places) r) }
{
    let alloc = crew.alloc;
    let mut pool = begin(alloc, fixed.old, top, &mut progress.places, book)?;
    let mut tally = Tally { waves: 0, acts: 0 };
    while tally.acts < u64::MAX {
        if let Some(outcome) = result_of(top, &progress.fresh, &progress.places) {
            return Ok(outcome.copy(alloc)?);
        }
        let before = tally.acts;
        run_ready_keys(crew, fixed, progress, tree, book, &mut tally, &mut pool)?;
        if tally.acts <= before {
            unreachable!();
        }
    }
    Err(EngineRefusal::WantOfMemory)
}
