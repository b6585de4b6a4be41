//! A build: the outcome of a key, and the entries that serve the next build.
ghost use Rattle.std.specs.Prelude.{◌≡◌, ◌≤◌, true, length, IfOk, OnOk, IsTrue, ◌↔◌};
ghost use Rattle.step_engine.specs.Edits.{over};
ghost use Rattle.step_engine.specs.Standing.{setting_of};
ghost use Rattle.step_engine.specs.Entries.{AreSound};
ghost use Rattle.step_engine.specs.Needed.{IsBad};
ghost use Rattle.step_engine.specs.Caches.{AreInOrder, AddsMissing, AreOthers, IsJoined};
ghost use Rattle.step_engine.specs.Build.{setting, Counts, IsEntryOf, Ran, RanAll, HasRead, HasReadUnedited, Built};
ghost use Rattle.step_engine.specs.Ended.{IsReached, IsLeftOver};

use crate::cache::Cache;
use crate::crew::Crew;
use crate::edits::Edits;
use crate::fixed::Fixed;
use crate::in_order::in_order;
use crate::progress::Progress;
use crate::refusal::EngineRefusal;
use crate::rules::{Rules, StepKey};
use crate::running::run_to_end;
use crate::talk::{Entry, Outcome};
use build_base::book::Book;
use build_base::outside::{Gate, Tree};
use build_base::rows::Rows;
use build_base::same::Same;
use build_base::text::{Text, WantOfMemory};
use std::alloc::Global;
use std::thread::Threads;

/// What a build gives: the outcome of its key, the cache that it leaves, how many keys it needed,
/// and whether it leaves the cache that it was handed.
#[derive(Drop)]
pub struct Brought<K: StepKey, O: Drop> {
    pub result: Outcome<O>,
    pub cache: Cache<K, O>,
    pub needed: u64,
    pub unchanged: bool,
}

// The outcome of the key, and the entries made for it in the order of their keys.
#[derive(Drop)]
struct Reached<K: StepKey, O: Drop> {
    result: Outcome<O>,
    made: Cache<K, O>,
}

// Whether an outcome is a fault.
fn is_bad<O>(outcome: &Outcome<O>) -> bool
    ensures { IsTrue result ↔ IsBad outcome.now }
{
    match outcome {
        Outcome::Good(_) => false,
        Outcome::Bad(_) => true,
    }
}

// Adds the entry where none of those made has its key.
fn add_missing<K: StepKey, O: Same + Drop>(
    alloc: Global,
    entry: &Entry<K, O>,
    made: &Cache<K, O>,
    others: &mut Vec<Entry<K, O>>,
) -> Result<(), WantOfMemory>
    ensures { OnOk result (AddsMissing made.now entry.now others.old.items others.new.items) }
{
    if let Some(_found) = made.get(&entry.key) {
        return Ok(());
    }
    let entry = entry.copy(alloc)?;
    if others.push(entry).is_err() {
        return Err(WantOfMemory);
    }
    Ok(())
}

// The old entries of keys of which none was made.
fn other_entries<K: StepKey, O: Same + Drop>(
    alloc: Global,
    old: &Cache<K, O>,
    made: &Cache<K, O>,
) -> Result<Vec<Entry<K, O>>, WantOfMemory>
    ensures others { IfOk result (λ others. AreOthers made.now old.now others.items) }
    ensures sorted { AreInOrder K.cmp old.now }
{
    let mut others = Vec::new(alloc);
    for entry in old.entries() {
        add_missing(alloc, entry, made, &mut others)?;
    }
    Ok(others)
}

// The entries made, with those of other keys.
fn join_entries<K: StepKey, O: Same + Drop>(
    alloc: Global,
    old: &Cache<K, O>,
    made: Cache<K, O>,
) -> Result<Cache<K, O>, WantOfMemory>
    ensures joined { IfOk result (IsJoined made old.now) }
    ensures sorted { IfOk result (AreInOrder K.cmp) }
{
    let mut others = other_entries(alloc, old, &made)?;
    if others.is_empty() {
        return Ok(made);
    }
    let mut all = made.into_entries();
    if all.append(&mut others).is_err() {
        return Err(WantOfMemory);
    }
    in_order(alloc, all, false)
}

// Whether no key was added to a book that had so many, and the one cache is as long as the other.
fn is_idle<K: StepKey, O: Drop>(
    old: &Cache<K, O>,
    left: &Cache<K, O>,
    first: usize,
    book: &Book<K>,
) -> bool
    ensures idle { IsTrue result ↔ ((length book.now ≡ first)
        × (length left.now ≡ length old.now)) }
    ensures sorted { AreInOrder K.cmp old.now }
    ensures order { AreInOrder K.cmp left.now }
{
    let before = old.entries().len();
    let after = left.entries().len();
    book.ran().len() == first && after == before
}

// What is left of the entries made: where the outcome is a fault, the old ones of other keys too.
fn with_others<K: StepKey, O: Same + Drop>(
    alloc: Global,
    old: &Cache<K, O>,
    outcome: &Outcome<O>,
    made: Cache<K, O>,
) -> Result<Cache<K, O>, WantOfMemory>
    ensures left { IfOk result (IsLeftOver old.now made outcome.now) }
    ensures sorted { IfOk result (AreInOrder K.cmp) }
{
    if is_bad(outcome) {
        return join_entries(alloc, old, made);
    }
    Ok(made)
}

// What a build gives that reached the outcome of its key.
fn leave<K: StepKey, O: Same + Drop>(
    alloc: Global,
    old: &Cache<K, O>,
    reached: Reached<K, O>,
    first: usize,
    book: &Book<K>,
) -> Result<Brought<K, O>, WantOfMemory>
    ensures result { IfOk result (λ b. b.result ≡ reached.result) }
    ensures left { IfOk result (λ b. IsLeftOver old.now reached.made reached.result b.cache) }
    ensures needed { IfOk result (λ b. b.needed ≡ length reached.made) }
    ensures idle { IfOk result (λ b. b.unchanged ≡ true ↔ ((length book.now ≡ first)
        × (length b.cache ≡ length old.now))) }
    ensures made { AreInOrder K.cmp reached.made }
    ensures before { IfOk result (λ _. AreInOrder K.cmp old.now) }
    ensures after { IfOk result (λ b. AreInOrder K.cmp b.cache) }
{
    let Reached { result, made } = reached;
    let needed = made.entries().len() as u64;
    let cache = with_others(alloc, old, &result, made)?;
    let unchanged = is_idle(old, &cache, first, book);
    Ok(Brought {
        result,
        cache,
        needed,
        unchanged,
    })
}

// Brings a key to its outcome, from nothing that is known.
fn reach<H: Threads + Sync, R: Rules, T: Tree, G: Gate>(
    crew: &Crew<'_, H, G>,
    fixed: &Fixed<'_, R>,
    top: &R::Key,
    tree: &mut T,
    book: &mut Book<R::Key>,
) -> Result<Reached<R::Key, R::Out>, EngineRefusal>
    requires some { 1 ≤ crew.now.workers }
    requires most { crew.now.workers ≤ 64 }
    ensures held { T.held tree.new ≡ T.held tree.old }
    ensures count { Counts (T.faults tree.old) (T.faults tree.new) result }
    ensures ran { Ran (setting_of R.means fixed.now (T.held tree.old)) top.now book.old book.new }
    ensures read { HasRead (setting_of R.means fixed.now (T.held tree.old)) top.now
        (T.reads tree.old) (T.reads tree.new) }
    ensures unedited { HasReadUnedited fixed.now.edits.now (T.reads tree.old) (T.reads tree.new) }
    ensures ok { IfOk result
        (λ r. IsReached (setting_of R.means fixed.now (T.held tree.old)) top.now book.old book.new
        r.result r.made) }
{
    let alloc = crew.alloc;
    let mut progress = Progress::new(alloc);
    let result = run_to_end(crew, fixed, top, &mut progress, tree, book)?;
    let made = in_order(alloc, progress.fresh, true)?;
    Ok(Reached { result, made })
}

/// The outcome of a key, from the entries that an earlier build left.
///
/// `job` has the fields of the job, `tree` its files. `book` grants the permit of each step that is
/// run. `workers` is the most threads that work at a time, and `gate` is told of each of their
/// pieces. Both refusals drop the cache.
pub fn bring<H: Threads + Sync, R: Rules, T: Tree, G: Gate>(
    rt: &H,
    alloc: Global,
    rules: &R,
    top: R::Key,
    job: &Rows<Text>,
    cache: Cache<R::Key, R::Out>,
    tree: &mut T,
    book: &mut Book<R::Key>,
    workers: u32,
    gate: &G,
) -> Result<Brought<R::Key, R::Out>, EngineRefusal>
    requires job { R.means.is_job job.now ≡ true }
    requires some { 1 ≤ workers }
    requires most { workers ≤ 64 }

    // The tree tells the same, and a read fault comes only where its count rose.
    ensures held { T.held tree.new ≡ T.held tree.old }
    ensures count { Counts (T.faults tree.old) (T.faults tree.new) result }

    // For any tree.
    ensures sound { AreSound R.means cache → IfOk result (λ b. AreSound R.means b.cache) }
    ensures own { IfOk result (λ b. IsEntryOf top b.result b.cache) }

    // Each step once, and only where wanted.
    ensures ran { Ran (setting R.means (T.held tree.old) job.now cache) top book.old book.new }
    ensures all { OnOk result
        (RanAll (setting R.means (T.held tree.old) job.now cache) top book.old book.new) }
    ensures read { HasRead (setting R.means (T.held tree.old) job.now cache) top (T.reads tree.old)
        (T.reads tree.new) }

    // Where the tree tells what it holds and the cache is sound.
    ensures built { IfOk result
        (λ b. Built R.Key.cmp (setting R.means (T.held tree.old) job.now cache) top b.result b.cache
        b.needed) }

    // It leaves the cache as it was where it says so, which it does where nothing ran.
    ensures unchanged { IfOk result (λ b. b.unchanged ≡ true → b.cache ≡ cache) }
    ensures told { IfOk result (λ b. book.new ≡ book.old → b.cache ≡ cache → b.unchanged ≡ true) }
    ensures order { IfOk result (λ b. AreInOrder R.Key.cmp b.cache) }
{
    let edits = Edits::new(alloc);
    bring_over(
        rt, alloc, rules, top, job, cache, tree, &edits, book, workers, gate,
    )
}

/// The outcome of a key over edits of the tree's files, from the entries that an earlier build
/// left.
///
/// A path that has an edit isn't read from the tree. All else is as in `bring`.
pub fn bring_over<H: Threads + Sync, R: Rules, T: Tree, G: Gate>(
    rt: &H,
    alloc: Global,
    rules: &R,
    top: R::Key,
    job: &Rows<Text>,
    cache: Cache<R::Key, R::Out>,
    tree: &mut T,
    edits: &Edits,
    book: &mut Book<R::Key>,
    workers: u32,
    gate: &G,
) -> Result<Brought<R::Key, R::Out>, EngineRefusal>
    requires job { R.means.is_job job.now ≡ true }
    requires some { 1 ≤ workers }
    requires most { workers ≤ 64 }

    // The tree tells the same, and a read fault comes only where its count rose.
    ensures held { T.held tree.new ≡ T.held tree.old }
    ensures count { Counts (T.faults tree.old) (T.faults tree.new) result }

    // For any tree.
    ensures sound { AreSound R.means cache → IfOk result (λ b. AreSound R.means b.cache) }
    ensures own { IfOk result (λ b. IsEntryOf top b.result b.cache) }

    // Each step once, and only where wanted.
    ensures ran { Ran (setting R.means (over edits.now (T.held tree.old)) job.now cache) top
        book.old book.new }
    ensures all { OnOk result
        (RanAll (setting R.means (over edits.now (T.held tree.old)) job.now cache) top book.old
        book.new) }
    ensures read { HasRead (setting R.means (over edits.now (T.held tree.old)) job.now cache) top
        (T.reads tree.old) (T.reads tree.new) }

    // A path that has an edit isn't read from the tree.
    ensures unedited { HasReadUnedited edits.now (T.reads tree.old) (T.reads tree.new) }

    // Where the tree tells what it holds and the cache is sound.
    ensures built { IfOk result
        (λ b. Built R.Key.cmp (setting R.means (over edits.now (T.held tree.old)) job.now cache) top
        b.result b.cache b.needed) }

    // It leaves the cache as it was where it says so, which it does where nothing ran.
    ensures unchanged { IfOk result (λ b. b.unchanged ≡ true → b.cache ≡ cache) }
    ensures told { IfOk result (λ b. book.new ≡ book.old → b.cache ≡ cache → b.unchanged ≡ true) }
    ensures order { IfOk result (λ b. AreInOrder R.Key.cmp b.cache) }
{
    let first = book.ran().len();
    let crew = Crew {
        rt,
        alloc,
        workers,
        gate,
    };
    let fixed = Fixed {
        rules,
        job,
        old: &cache,
        edits,
    };
    let reached = reach(&crew, &fixed, &top, tree, book)?;
    let brought = leave(alloc, &cache, reached, first, book)?;
    Ok(brought)
}
