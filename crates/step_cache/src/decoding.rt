//! Entries from their numbers.
ghost use Rattle.std.specs.Prelude.{◌≡◌, Some, IfOk};
ghost use Rattle.std.specs.List.{AllZip};
ghost use Rattle.packed_outcomes.specs.Talk.{answer_encoding, outcome_encoding};
ghost use Rattle.step_cache.specs.Decoding.{IsDecoded, AreDecoded, value_at, all_some, pair_at, batch_at, entry_with, entry_at};

use crate::numbered::{Asked, Numbered, Pooled};
use build_base::{Rows, Same, Text, WantOfMemory};
use packed_outcomes::talk::{AnswerEncoding, OutcomeEncoding};
use packed_values::unpack_behind;
use shared_value::Shared;
use std::alloc::Global;
use step_engine::{Answer, Batch, Entry, Outcome, Pair, Talk};
use step_pack::{Key, Out};

/// What the texts of a pool stand for: as answers, and as results. The entries share it.
#[derive(Drop)]
pub(crate) struct Decoded {
    pub(crate) answers: Rows<Option<Answer<Out>>>,
    pub(crate) outcomes: Rows<Option<Outcome<Out>>>,
}

fn answers_of(alloc: Global, pool: &[Text]) -> Result<Rows<Option<Answer<Out>>>, WantOfMemory>
    ensures { IfOk result (λ rows. AllZip (IsDecoded answer_encoding) pool.now rows) }
{
    let mut rows = Rows::new(alloc);
    for text in pool {
        let answer = unpack_behind::<AnswerEncoding>(alloc, 0, text)?;
        rows.push(answer)?;
    }
    Ok(rows)
}

fn outcomes_of(alloc: Global, pool: &[Text]) -> Result<Rows<Option<Outcome<Out>>>, WantOfMemory>
    ensures { IfOk result (λ rows. AllZip (IsDecoded outcome_encoding) pool.now rows) }
{
    let mut rows = Rows::new(alloc);
    for text in pool {
        let outcome = unpack_behind::<OutcomeEncoding>(alloc, 0, text)?;
        rows.push(outcome)?;
    }
    Ok(rows)
}

/// What the texts of the pool stand for.
pub(crate) fn decoded_of(alloc: Global, parts: &Pooled) -> Result<Decoded, WantOfMemory>
    ensures { IfOk result (λ decoded. AreDecoded parts.now.pool decoded.answers decoded.outcomes) }
{
    let answers = answers_of(alloc, parts.pool.items())?;
    let outcomes = outcomes_of(alloc, parts.pool.items())?;
    Ok(Decoded { answers, outcomes })
}

// One more handle of the value of a number, where there is one.
fn value_at<T: Same + Drop>(
    alloc: Global,
    values: &[Option<T>],
    number: u64,
) -> Result<Option<T>, WantOfMemory>
    ensures { IfOk result (λ r. r ≡ value_at values.now number) }
{
    match values.get(number as usize) {
        Some(Some(value)) => Ok(Some(value.copy(alloc)?)),
        _ => Ok(None),
    }
}

fn pair_at(
    alloc: Global,
    answers: &[Option<Answer<Out>>],
    asked: &Asked,
) -> Result<Option<Pair<Key, Out>>, WantOfMemory>
    ensures { IfOk result (λ r. r ≡ pair_at answers.now asked.now) }
{
    let answer = match value_at(alloc, answers, asked.number)? {
        None => return Ok(None),
        Some(answer) => answer,
    };
    let ask = asked.ask.copy(alloc)?;
    Ok(Some(Pair { ask, answer }))
}

#[tactic(auto, using(crate::proofs::GivenLemmas::one_more, crate::proofs::GivenLemmas::one_less))]
fn pairs_at(
    alloc: Global,
    answers: &[Option<Answer<Out>>],
    asked: &[Asked],
) -> Result<Option<Rows<Pair<Key, Out>>>, WantOfMemory>
    ensures { IfOk result (λ r. r ≡ all_some (pair_at answers.now) asked.now) }
{
    let mut pairs = Rows::new(alloc);
    let mut left = asked;
    while let [ask, rest @ ..] = left {
        let pair = match pair_at(alloc, answers, ask)? {
            None => return Ok(None),
            Some(pair) => pair,
        };
        pairs.push(pair)?;
        left = rest;
    }
    Ok(Some(pairs))
}

fn batch_at(
    alloc: Global,
    answers: &[Option<Answer<Out>>],
    asked: &[Asked],
) -> Result<Option<Batch<Key, Out>>, WantOfMemory>
    ensures { IfOk result (λ r. r ≡ batch_at answers.now asked.now) }
{
    match pairs_at(alloc, answers, asked)? {
        None => Ok(None),
        Some(pairs) => Ok(Some(Batch { pairs })),
    }
}

#[tactic(auto, using(crate::proofs::GivenLemmas::one_more, crate::proofs::GivenLemmas::one_less))]
fn batches_at(
    alloc: Global,
    answers: &[Option<Answer<Out>>],
    asked: &[Rows<Asked>],
) -> Result<Option<Rows<Batch<Key, Out>>>, WantOfMemory>
    ensures { IfOk result (λ r. r ≡ all_some (batch_at answers.now) asked.now) }
{
    let mut batches = Rows::new(alloc);
    let mut left = asked;
    while let [asks, rest @ ..] = left {
        let batch = match batch_at(alloc, answers, asks.items())? {
            None => return Ok(None),
            Some(batch) => batch,
        };
        batches.push(batch)?;
        left = rest;
    }
    Ok(Some(batches))
}

// The entry of a key, with its batches and what it was given.
fn entry_of(
    alloc: Global,
    key: &Key,
    batches: Rows<Batch<Key, Out>>,
    given: Outcome<Out>,
) -> Result<Entry<Key, Out>, WantOfMemory>
    ensures { IfOk result (λ entry. Some entry ≡ entry_with key.now (Some batches) (Some given)) }
{
    let key = key.copy(alloc)?;
    let talk = Shared::new(alloc, Talk { batches })?;
    Ok(Entry {
        key,
        talk,
        result: given,
    })
}

fn entry_at(
    alloc: Global,
    decoded: &Decoded,
    number: &Numbered,
) -> Result<Option<Entry<Key, Out>>, WantOfMemory>
    ensures { IfOk result (λ r. r ≡ entry_at decoded.now.answers decoded.now.outcomes number.now) }
{
    let batches = match batches_at(alloc, decoded.answers.items(), number.batches.items())? {
        None => return Ok(None),
        Some(batches) => batches,
    };
    match value_at(alloc, decoded.outcomes.items(), number.result)? {
        None => Ok(None),
        Some(given) => Ok(Some(entry_of(alloc, &number.key, batches, given)?)),
    }
}

#[tactic(auto, using(crate::proofs::GivenLemmas::one_more, crate::proofs::GivenLemmas::one_less))]
fn entries_at(
    alloc: Global,
    decoded: &Decoded,
    numbers: &[Numbered],
) -> Result<Option<Rows<Entry<Key, Out>>>, WantOfMemory>
    ensures { IfOk result (λ r. r ≡ all_some (entry_at decoded.now.answers decoded.now.outcomes)
        numbers.now) }
{
    let mut entries = Rows::new(alloc);
    let mut left = numbers;
    while let [number, rest @ ..] = left {
        let entry = match entry_at(alloc, decoded, number)? {
            None => return Ok(None),
            Some(entry) => entry,
        };
        entries.push(entry)?;
        left = rest;
    }
    Ok(Some(entries))
}

/// The entries, where each number is that of a value.
pub(crate) fn entries_in(
    alloc: Global,
    decoded: &Decoded,
    parts: &Pooled,
) -> Result<Option<Rows<Entry<Key, Out>>>, WantOfMemory>
    ensures { IfOk result (λ r. r ≡ all_some (entry_at decoded.now.answers decoded.now.outcomes)
        parts.now.entries) }
{
    entries_at(alloc, decoded, parts.entries.items())
}
