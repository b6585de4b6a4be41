//! The answers to asks, where all their parts are done.
ghost use Rattle.std.specs.Prelude.{MatchOption, ◌≡◌, ◌⊎◌, ◌<◌, ◌≤◌, true, false, IfOk, OnOk, IfSome, IfNone, ◌++◌, List, [], ◌∷◌, Contains, slice_index_or};
ghost use Rattle.build_base.specs.World.{World};
ghost use Rattle.step_engine.specs.Meaning.{asks_of};
ghost use Rattle.step_engine.specs.Build.{IsHere, Counts, HasReadUnedited};
ghost use Rattle.step_engine.specs.Standing.{setting_of};
ghost use Rattle.step_engine.specs.Engine.{state, AreKept, Adds, IsNext, AreLower, IsAnswered, AreAnswered, IsCheckedPair, IsCheckedBatch};
ghost use Rattle.step_engine.specs.Agreeing.{HasPair, Agree, IsCompared, AreCompared};
ghost use Rattle.step_engine.specs.Reading.{knowledge, compared_at};
ghost use Rattle.step_engine.specs.Table.{place_at, IsPlaced, IsDone, Finds};
ghost use Rattle.step_engine.specs.Items.{IsStill};
ghost use Rattle.step_engine.specs.Forward.{LacksPart};

use crate::cache::Cache;
use crate::compared::Compared;
use crate::fixed::Fixed;
use crate::learned::Learned;
use crate::places::Places;
use crate::read::read_once;
use crate::refusal::EngineRefusal;
use crate::rules::{Rules, StepKey};
use crate::table::result_of;
use crate::talk::{Answer, Ask, Entry, Pair};
use build_base::outside::Tree;
use build_base::rows::Rows;
use build_base::same::Same;
use build_base::text::{Text, WantOfMemory};
use entry_checks::all_right;
use shared_value::Shared;
use std::alloc::Global;
use step_records::keep_pair;

// The text of a field, which is empty where there is none.
fn field(alloc: Global, job: &Rows<Text>, number: u8) -> Result<Shared<Text>, WantOfMemory>
    ensures { IfOk result (λ text. text ≡ slice_index_or job.now number []) }
{
    let text = match job.items().get(number as usize) {
        Some(text) => text.copy(alloc)?,
        None => Text::of(alloc, b"")?,
    };
    Shared::new(alloc, text)
}

/// Whether a part that is asked is of lower rank.
pub(crate) fn is_lower<R: Rules>(rules: &R, key: &R::Key, ask: &Ask<R::Key>) -> bool
    ensures yes { result ≡ true → (part : R.Key) → ask.now ≡ Ask.Part part
        → R.means.rank part < R.means.rank key.now }
    ensures no { result ≡ false → (part : R.Key) × (ask.now ≡ Ask.Part part)
        × (R.means.rank key.now ≤ R.means.rank part) }
{
    match ask {
        Ask::Part(part) => rules.rank(part) < rules.rank(key),
        _ => true,
    }
}

// The right answer to an ask of a key, where it has one by now.
fn answer<R: Rules, T: Tree>(
    alloc: Global,
    fixed: &Fixed<'_, R>,
    key: &R::Key,
    ask: &Ask<R::Key>,
    fresh: &Vec<Entry<R::Key, R::Out>>,
    places: &Places<R::Key>,
    tree: &mut T,
    learned: &mut Learned<R::Key>,
) -> Result<Option<Answer<R::Out>>, EngineRefusal>
    requires kept { AreKept (setting_of R.means fixed.now (T.held tree.old))
        (state fresh.now.items (knowledge R.Key.cmp learned.old) [] (T.reads tree.old)) }
    requires finds { Finds (place_at R.Key.cmp places.now) fresh.now.items }
    requires lower { (part : R.Key) → ask.now ≡ Ask.Part part
        → R.means.rank part < R.means.rank key.now }
    requires next { (w : World) → IsHere (setting_of R.means fixed.now (T.held tree.old)) w
        → (asks : List (Ask R.Key)) × Contains asks ask.now × IsNext R.means w key.now asks }
    ensures held { T.held tree.new ≡ T.held tree.old }
    ensures count { Counts (T.faults tree.old) (T.faults tree.new) result }
    ensures adds { Adds (setting_of R.means fixed.now (T.held tree.old)) key.now
        (state fresh.now.items (knowledge R.Key.cmp learned.old) [] (T.reads tree.old))
        (state fresh.now.items (knowledge R.Key.cmp learned.new) [] (T.reads tree.new)) }
    ensures unedited { HasReadUnedited fixed.now.edits.now (T.reads tree.old) (T.reads tree.new) }
    ensures ok { IfOk result (λ r. MatchOption r
        (IsStill (setting_of R.means fixed.now (T.held tree.old)) key.now
        (state fresh.now.items (knowledge R.Key.cmp learned.old) [] (T.reads tree.old))
        (state fresh.now.items (knowledge R.Key.cmp learned.new) [] (T.reads tree.new)))
        (IsAnswered (setting_of R.means fixed.now (T.held tree.old)) key.now ask.now
        (state fresh.now.items (knowledge R.Key.cmp learned.old) [] (T.reads tree.old))
        (state fresh.now.items (knowledge R.Key.cmp learned.new) [] (T.reads tree.new)))) }
    ensures none { IfOk result (λ r. IfNone r (LacksPart (place_at R.Key.cmp places.now)
        (λ part. ask.now ≡ Ask.Part part))) }
{
    match ask {
        Ask::File(path) => {
            let answer = read_once(alloc, tree, fixed.edits, &mut learned.files, path)?;
            Ok(Some(answer))
        }
        Ask::Field(number) => Ok(Some(Answer::Field(field(alloc, fixed.job, *number)?))),
        Ask::Part(part) => match result_of(part, fresh, places) {
            Some(outcome) => Ok(Some(Answer::Part(outcome.copy(alloc)?))),
            None => Ok(None),
        },
    }
}

/// The right answers to a batch of asks, where all have one by now.
pub fn answers<R: Rules, T: Tree>(
    alloc: Global,
    fixed: &Fixed<'_, R>,
    key: &R::Key,
    asks: &Rows<Ask<R::Key>>,
    fresh: &Vec<Entry<R::Key, R::Out>>,
    places: &Places<R::Key>,
    tree: &mut T,
    learned: &mut Learned<R::Key>,
) -> Result<Option<Rows<Pair<R::Key, R::Out>>>, EngineRefusal>
    requires kept { AreKept (setting_of R.means fixed.now (T.held tree.old))
        (state fresh.now.items (knowledge R.Key.cmp learned.old) [] (T.reads tree.old)) }
    requires finds { Finds (place_at R.Key.cmp places.now) fresh.now.items }
    requires lower { AreLower (setting_of R.means fixed.now (T.held tree.old)) key.now asks.now }
    requires next { (w : World) → IsHere (setting_of R.means fixed.now (T.held tree.old)) w
        → IsNext R.means w key.now asks.now }
    ensures held { T.held tree.new ≡ T.held tree.old }
    ensures count { Counts (T.faults tree.old) (T.faults tree.new) result }
    ensures adds { Adds (setting_of R.means fixed.now (T.held tree.old)) key.now
        (state fresh.now.items (knowledge R.Key.cmp learned.old) [] (T.reads tree.old))
        (state fresh.now.items (knowledge R.Key.cmp learned.new) [] (T.reads tree.new)) }
    ensures unedited { HasReadUnedited fixed.now.edits.now (T.reads tree.old) (T.reads tree.new) }
    ensures ok { IfOk result (λ r. MatchOption r
        (IsStill (setting_of R.means fixed.now (T.held tree.old)) key.now
        (state fresh.now.items (knowledge R.Key.cmp learned.old) [] (T.reads tree.old))
        (state fresh.now.items (knowledge R.Key.cmp learned.new) [] (T.reads tree.new)))
        (AreAnswered (setting_of R.means fixed.now (T.held tree.old)) key.now asks.now
        (state fresh.now.items (knowledge R.Key.cmp learned.old) [] (T.reads tree.old))
        (state fresh.now.items (knowledge R.Key.cmp learned.new) [] (T.reads tree.new)))) }
    ensures none { IfOk result (λ r. IfNone r (LacksPart (place_at R.Key.cmp places.now)
        (λ part. Contains asks.now (Ask.Part part)))) }
{
    let mut pairs = Rows::new(alloc);
    for ask in asks.items() {
        let found = answer(alloc, fixed, key, ask, fresh, places, tree, learned)?;
        let Some(answer) = found else {
            return Ok(None);
        };
        let ask = ask.copy(alloc)?;
        keep_pair(&mut pairs, Pair { ask, answer })?;
    }
    Ok(Some(pairs))
}

// Notes whether the old answers to a part are its outcome, where they are all the same.
fn note_compared<K: StepKey, O: Drop>(
    alloc: Global,
    old: &Cache<K, O>,
    part: &K,
    same: bool,
    compared: &mut Compared<K>,
) -> Result<(), WantOfMemory>
    ensures { OnOk result ((compared.new ≡ compared.old)
        ⊎ (Agree old.now × IsPlaced part.now same (compared_at K.cmp compared.old)
        (compared_at K.cmp compared.new))) }
{
    if !old.agrees() {
        return Ok(());
    }
    let noted = part.copy(alloc)?;
    compared.note(noted, same)?;
    Ok(())
}

// Whether the old answer to a part is its outcome, where it is done. Answers that are all the same
// are compared once.
fn check_part<K: StepKey, O: Same + Drop>(
    alloc: Global,
    old: &Cache<K, O>,
    part: &K,
    pair: &Pair<K, O>,
    fresh: &Vec<Entry<K, O>>,
    places: &Places<K>,
    compared: &mut Compared<K>,
) -> Result<Option<bool>, WantOfMemory>
    requires finds { Finds (place_at K.cmp places.now) fresh.now.items }
    requires compared { AreCompared old.now fresh.now.items (compared_at K.cmp compared.old) }
    requires asked { pair.now.ask ≡ Ask.Part part.now }
    requires old { HasPair old.now pair.now }
    ensures same { IfOk result
        (λ r. IfSome r (λ same. IsCompared fresh.now.items part.now same pair.now.answer)) }
    ensures compared { OnOk result
        (AreCompared old.now fresh.now.items (compared_at K.cmp compared.new)) }
    ensures none { IfOk result
        (λ r. IfNone r (IsDone (place_at K.cmp places.now part.now) → ⊥)) }
{
    if let Some(same) = compared.get(part) {
        return Ok(Some(same));
    }
    let Some(outcome) = result_of(part, fresh, places) else {
        return Ok(None);
    };
    let outcome = outcome.copy(alloc)?;
    let answer = Answer::Part(outcome);
    let same = answer.same(&pair.answer);
    note_compared(alloc, old, part, same, compared)?;
    Ok(Some(same))
}

// Whether the answer of a pair is the right one, where its ask has an answer by now.
fn check_pair<R: Rules, T: Tree>(
    alloc: Global,
    fixed: &Fixed<'_, R>,
    key: &R::Key,
    pair: &Pair<R::Key, R::Out>,
    fresh: &Vec<Entry<R::Key, R::Out>>,
    places: &Places<R::Key>,
    tree: &mut T,
    learned: &mut Learned<R::Key>,
) -> Result<Option<bool>, EngineRefusal>
    requires kept { AreKept (setting_of R.means fixed.now (T.held tree.old))
        (state fresh.now.items (knowledge R.Key.cmp learned.old) [] (T.reads tree.old)) }
    requires finds { Finds (place_at R.Key.cmp places.now) fresh.now.items }
    requires lower { (part : R.Key) → pair.now.ask ≡ Ask.Part part
        → R.means.rank part < R.means.rank key.now }
    requires next { (w : World) → IsHere (setting_of R.means fixed.now (T.held tree.old)) w
        → (asks : List (Ask R.Key)) × Contains asks pair.now.ask × IsNext R.means w key.now asks }
    requires old { HasPair fixed.now.old.now pair.now }
    ensures held { T.held tree.new ≡ T.held tree.old }
    ensures count { Counts (T.faults tree.old) (T.faults tree.new) result }
    ensures adds { Adds (setting_of R.means fixed.now (T.held tree.old)) key.now
        (state fresh.now.items (knowledge R.Key.cmp learned.old) [] (T.reads tree.old))
        (state fresh.now.items (knowledge R.Key.cmp learned.new) [] (T.reads tree.new)) }
    ensures unedited { HasReadUnedited fixed.now.edits.now (T.reads tree.old) (T.reads tree.new) }
    ensures ok { IfOk result (λ r. MatchOption r
        (IsStill (setting_of R.means fixed.now (T.held tree.old)) key.now
        (state fresh.now.items (knowledge R.Key.cmp learned.old) [] (T.reads tree.old))
        (state fresh.now.items (knowledge R.Key.cmp learned.new) [] (T.reads tree.new)))
        (IsCheckedPair (setting_of R.means fixed.now (T.held tree.old)) key.now pair.now
        (state fresh.now.items (knowledge R.Key.cmp learned.old) [] (T.reads tree.old))
        (state fresh.now.items (knowledge R.Key.cmp learned.new) [] (T.reads tree.new)))) }
    ensures none { IfOk result (λ r. IfNone r (LacksPart (place_at R.Key.cmp places.now)
        (λ part. pair.now.ask ≡ Ask.Part part))) }
{
    if let Ask::Part(part) = &pair.ask {
        let same = check_part(
            alloc,
            fixed.old,
            part,
            pair,
            fresh,
            places,
            &mut learned.compared,
        )?;
        return Ok(same);
    }
    let found = answer(alloc, fixed, key, &pair.ask, fresh, places, tree, learned)?;
    match found {
        Some(answer) => Ok(Some(answer.same(&pair.answer))),
        None => Ok(None),
    }
}

/// Whether the answers of a batch are right, where all asks have an answer by now.
pub(crate) fn check_batch<R: Rules, T: Tree>(
    alloc: Global,
    fixed: &Fixed<'_, R>,
    key: &R::Key,
    pairs: &Rows<Pair<R::Key, R::Out>>,
    fresh: &Vec<Entry<R::Key, R::Out>>,
    places: &Places<R::Key>,
    tree: &mut T,
    learned: &mut Learned<R::Key>,
) -> Result<Option<bool>, EngineRefusal>
    requires kept { AreKept (setting_of R.means fixed.now (T.held tree.old))
        (state fresh.now.items (knowledge R.Key.cmp learned.old) [] (T.reads tree.old)) }
    requires finds { Finds (place_at R.Key.cmp places.now) fresh.now.items }
    requires next { (w : World) → IsHere (setting_of R.means fixed.now (T.held tree.old)) w
        → IsNext R.means w key.now (asks_of pairs.now) }
    requires old { (p : Pair R.Key R.Out) → Contains pairs.now p → HasPair fixed.now.old.now p }
    ensures held { T.held tree.new ≡ T.held tree.old }
    ensures count { Counts (T.faults tree.old) (T.faults tree.new) result }
    ensures adds { Adds (setting_of R.means fixed.now (T.held tree.old)) key.now
        (state fresh.now.items (knowledge R.Key.cmp learned.old) [] (T.reads tree.old))
        (state fresh.now.items (knowledge R.Key.cmp learned.new) [] (T.reads tree.new)) }
    ensures unedited { HasReadUnedited fixed.now.edits.now (T.reads tree.old) (T.reads tree.new) }
    ensures ok { IfOk result (λ r. MatchOption r
        (IsStill (setting_of R.means fixed.now (T.held tree.old)) key.now
        (state fresh.now.items (knowledge R.Key.cmp learned.old) [] (T.reads tree.old))
        (state fresh.now.items (knowledge R.Key.cmp learned.new) [] (T.reads tree.new)))
        (IsCheckedBatch (setting_of R.means fixed.now (T.held tree.old)) key.now pairs.now
        (state fresh.now.items (knowledge R.Key.cmp learned.old) [] (T.reads tree.old))
        (state fresh.now.items (knowledge R.Key.cmp learned.new) [] (T.reads tree.new)))) }
    ensures none { IfOk result (λ r. IfNone r (LacksPart (place_at R.Key.cmp places.now)
        (λ part. Contains (asks_of pairs.now) (Ask.Part part)
        × (R.means.rank part < R.means.rank key.now)))) }
{
    let mut right = true;
    for pair in pairs.items() {
        if !is_lower(fixed.rules, key, &pair.ask) {
            return Ok(Some(false));
        }
        let found = check_pair(alloc, fixed, key, pair, fresh, places, tree, learned)?;
        let Some(same) = found else {
            return Ok(None);
        };
        right = all_right(right, same);
    }
    Ok(Some(right))
}
