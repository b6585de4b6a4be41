//! The text of a cache from its entries.
ghost use Rattle.std.specs.Prelude.{◌≡◌, true, List, ℕ, IfOk, OnOk, map, Contains};
ghost use Rattle.std.specs.List.{list_all, flat_map};
ghost use Rattle.packed_outcomes.specs.Talk.{answer_encoding, outcome_encoding};
ghost use Rattle.packed_values.specs.Encoding.{IsEncoding};
ghost use Rattle.step_cache.specs.CacheText.{IsCacheText, pair_text, batch_texts, entry_texts, cache_texts, numbered_pair, numbered_batch, numbered, pooled, pair_is_value, batch_is_value, entry_is_value};
ghost use Rattle.step_cache.specs.Numbered.{pooled_with};
ghost use Rattle.step_cache.specs.Known.{IsNumbered, AreNoted, AreAmong, AreAllAmong};
ghost use Rattle.step_cache.specs.Pools.{with_texts, with_text, number_in};
ghost use Rattle.step_engine.specs.Agreeing.{HasPair};
ghost use Rattle.step_engine.specs.Caches.{AreInOrder};
ghost use Rattle.step_pack.specs.Keys.{key_cmp};

use crate::known::{Known, known_number, note_number};
use crate::numbered::{Asked, Numbered};
use crate::pool::Pool;
use crate::text::{fits, text_of};
use build_base::{Rows, Same, Text, WantOfMemory};
use packed_outcomes::talk::{AnswerEncoding, OutcomeEncoding};
use std::alloc::Global;
use step_engine::{Answer, Batch, Cache, Entry, Outcome, Pair};
use step_pack::{Key, Out};

// The number of an answer's packed form, which is put into the pool where it isn't there.
fn answer_number(alloc: Global, pool: &mut Pool, answer: &Answer<Out>) -> Result<u64, WantOfMemory>
    ensures pool { OnOk result (pool.new ≡ with_text pool.old (answer_encoding.encode answer.now)) }
    ensures number { IfOk result (λ n. n ≡ number_in pool.new (answer_encoding.encode answer.now)) }
    ensures value { OnOk result (answer_encoding.is_value answer.now ≡ true) }
{
    pool.put::<AnswerEncoding>(alloc, answer)
}

// The number of a result's packed form, which is put into the pool where it isn't there.
fn result_number(
    alloc: Global,
    pool: &mut Pool,
    outcome: &Outcome<Out>,
) -> Result<u64, WantOfMemory>
    ensures pool { OnOk result (pool.new
        ≡ with_text pool.old (outcome_encoding.encode outcome.now)) }
    ensures number { IfOk result (λ n. n
        ≡ number_in pool.new (outcome_encoding.encode outcome.now)) }
    ensures value { OnOk result (outcome_encoding.is_value outcome.now ≡ true) }
{
    pool.put::<OutcomeEncoding>(alloc, outcome)
}

// The number of a pair's answer, which is packed. It is noted where all answers to its part are the
// same.
fn new_number(
    alloc: Global,
    cache: &Cache<Key, Out>,
    pool: &mut Pool,
    known: &mut Known,
    pair: &Pair<Key, Out>,
) -> Result<u64, WantOfMemory>
    requires among { HasPair cache.now pair.now }
    requires noted { AreNoted cache.now pool.old known.old }
    ensures pool { OnOk result (pool.new ≡ with_text pool.old (pair_text pair.now)) }
    ensures number { IfOk result (IsNumbered pool.new pair.now) }
    ensures noted { OnOk result (AreNoted cache.now pool.new known.new) }
{
    let number = answer_number(alloc, pool, &pair.answer)?;
    note_number(alloc, cache, known, pair, number)?;
    Ok(number)
}

// The number of a pair's answer, which is packed where no number is noted.
fn pair_number(
    alloc: Global,
    cache: &Cache<Key, Out>,
    pool: &mut Pool,
    known: &mut Known,
    pair: &Pair<Key, Out>,
) -> Result<u64, WantOfMemory>
    requires among { HasPair cache.now pair.now }
    requires noted { AreNoted cache.now pool.old known.old }
    ensures pool { OnOk result (pool.new ≡ with_text pool.old (pair_text pair.now)) }
    ensures number { IfOk result (IsNumbered pool.new pair.now) }
    ensures noted { OnOk result (AreNoted cache.now pool.new known.new) }
{
    match known_number(known, &pair.ask) {
        Some(number) => Ok(number),
        None => new_number(alloc, cache, pool, known, pair),
    }
}

// An ask with the number of its answer.
fn numbered_pair(
    alloc: Global,
    cache: &Cache<Key, Out>,
    pool: &mut Pool,
    known: &mut Known,
    pair: &Pair<Key, Out>,
) -> Result<Asked, WantOfMemory>
    requires among { HasPair cache.now pair.now }
    requires noted { AreNoted cache.now pool.old known.old }
    ensures pool { OnOk result (pool.new ≡ with_text pool.old (pair_text pair.now)) }
    ensures asked { IfOk result (λ asked. asked ≡ numbered_pair pool.new pair.now) }
    ensures value { OnOk result (pair_is_value pair.now ≡ true) }
    ensures noted { OnOk result (AreNoted cache.now pool.new known.new) }
{
    let number = pair_number(alloc, cache, pool, known, pair)?;
    let ask = pair.ask.copy(alloc)?;
    Ok(Asked { ask, number })
}

// The asks of a batch with the numbers of their answers.
fn numbered_batch(
    alloc: Global,
    cache: &Cache<Key, Out>,
    pool: &mut Pool,
    known: &mut Known,
    batch: &Batch<Key, Out>,
) -> Result<Rows<Asked>, WantOfMemory>
    requires among { AreAmong cache.now batch.now.pairs }
    requires noted { AreNoted cache.now pool.old known.old }
    ensures pool { OnOk result (pool.new ≡ with_texts pool.old (batch_texts batch.now)) }
    ensures asked { IfOk result (λ rows. rows ≡ numbered_batch pool.new batch.now) }
    ensures value { OnOk result (batch_is_value batch.now ≡ true) }
    ensures noted { OnOk result (AreNoted cache.now pool.new known.new) }
{
    let mut rows = Rows::new(alloc);
    for pair in batch.pairs.items() {
        let asked = numbered_pair(alloc, cache, pool, known, pair)?;
        rows.push(asked)?;
    }
    Ok(rows)
}

// The batches of a talk.
fn numbered_batches(
    alloc: Global,
    cache: &Cache<Key, Out>,
    pool: &mut Pool,
    known: &mut Known,
    batches: &[Batch<Key, Out>],
) -> Result<Rows<Rows<Asked>>, WantOfMemory>
    requires among { AreAllAmong cache.now batches.now }
    requires noted { AreNoted cache.now pool.old known.old }
    ensures pool { OnOk result (pool.new ≡ with_texts pool.old (flat_map batch_texts batches.now)) }
    ensures asked { IfOk result (λ rows. rows ≡ map (numbered_batch pool.new) batches.now) }
    ensures value { OnOk result (list_all batch_is_value batches.now ≡ true) }
    ensures noted { OnOk result (AreNoted cache.now pool.new known.new) }
{
    let mut rows = Rows::new(alloc);
    for batch in batches {
        let asked = numbered_batch(alloc, cache, pool, known, batch)?;
        rows.push(asked)?;
    }
    Ok(rows)
}

// An entry with the numbers of its answers and its result.
fn numbered_entry(
    alloc: Global,
    cache: &Cache<Key, Out>,
    pool: &mut Pool,
    known: &mut Known,
    entry: &Entry<Key, Out>,
) -> Result<Numbered, WantOfMemory>
    requires among { Contains cache.now entry.now }
    requires noted { AreNoted cache.now pool.old known.old }
    ensures pool { OnOk result (pool.new ≡ with_texts pool.old (entry_texts entry.now)) }
    ensures numbered { IfOk result (λ n. n ≡ numbered pool.new entry.now) }
    ensures value { OnOk result (entry_is_value entry.now ≡ true) }
    ensures noted { OnOk result (AreNoted cache.now pool.new known.new) }
{
    let talk = entry.talk.value().batches.items();
    let batches = numbered_batches(alloc, cache, pool, known, talk)?;
    let result = result_number(alloc, pool, &entry.result)?;
    let key = entry.key.copy(alloc)?;
    Ok(Numbered {
        key,
        batches,
        result,
    })
}

// All entries with the numbers of their answers and results.
fn numbered_entries(
    alloc: Global,
    cache: &Cache<Key, Out>,
    pool: &mut Pool,
    known: &mut Known,
) -> Result<Rows<Numbered>, WantOfMemory>
    requires noted { AreNoted cache.now pool.old known.old }
    ensures pool { OnOk result (pool.new ≡ with_texts pool.old (cache_texts cache.now)) }
    ensures numbered { IfOk result (λ rows. rows ≡ map (numbered pool.new) cache.now) }
    ensures value { OnOk result (list_all entry_is_value cache.now ≡ true) }
    ensures sorted { OnOk result (AreInOrder key_cmp cache.now) }
{
    let mut rows = Rows::new(alloc);
    for entry in cache.entries() {
        let number = numbered_entry(alloc, cache, pool, known, entry)?;
        rows.push(number)?;
    }
    Ok(rows)
}

/// What the text of a cache is made from.
#[derive(Drop)]
struct Parts {
    pool: Pool,
    entries: Rows<Numbered>,
}

// The pool of all entries, and they with its numbers.
#[tactic(auto, unfolding(crate::specs::CacheText::pooled))]
fn make_parts(alloc: Global, cache: &Cache<Key, Out>) -> Result<Parts, WantOfMemory>
    ensures parts { IfOk result (λ parts. pooled_with parts.pool parts.entries ≡ pooled cache.now) }
    ensures value { OnOk result (list_all entry_is_value cache.now ≡ true) }
    ensures sorted { OnOk result (AreInOrder key_cmp cache.now) }
{
    let mut pool = Pool::new(alloc);
    let mut known = Known::new(alloc);
    let entries = numbered_entries(alloc, cache, &mut pool, &mut known)?;
    Ok(Parts { pool, entries })
}

/// The text of a cache. Each cache has one.
#[tactic(auto, unfolding(crate::specs::CacheText::cache_text))]
pub fn pack(alloc: Global, cache: &Cache<Key, Out>) -> Result<Text, WantOfMemory>
    ensures { IfOk result (λ text. IsCacheText cache.now text) }
{
    let Parts { pool, entries } = make_parts(alloc, cache)?;
    let text = text_of(alloc, pool, &entries)?;
    fits(&text);
    Ok(text)
}
