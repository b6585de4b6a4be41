//! Whether all answers to one part have one number.
ghost use Rattle.std.specs.Prelude.{◌≡◌, true, IfOk, Some};
ghost use Rattle.step_cache.specs.Agreement.{AreOne, HasAsk, HasAskOf, HasAskIn, IsAsk, Notes, Places};
ghost use Rattle.step_cache.specs.Decoding.{all_some, entry_at};

use crate::decoding::Decoded;
use crate::known::Known;
use crate::numbered::{Asked, Numbered, Pooled};
use build_base::{Rows, Same, WantOfMemory};
use std::alloc::Global;
use step_engine::{Ask, Cache};
use step_pack::{Key, Out};

// Notes the number of the answer to a part. Whether it is the only one of the part so far.
fn note_part(
    alloc: Global,
    known: &mut Known,
    part: &Key,
    number: u64,
) -> Result<bool, WantOfMemory>
    ensures { IfOk result (λ yes. yes ≡ true → Places part.now number known.old known.new) }
{
    if let Some(noted) = known.get(part) {
        return Ok(noted == number);
    }
    let part = part.copy(alloc)?;
    known.note(part, number)?;
    Ok(true)
}

fn note_ask(alloc: Global, known: &mut Known, asked: &Asked) -> Result<bool, WantOfMemory>
    ensures { IfOk result (λ yes. yes ≡ true → Notes (IsAsk asked.now) known.old known.new) }
{
    match &asked.ask {
        Ask::Part(part) => note_part(alloc, known, part, asked.number),
        _ => Ok(true),
    }
}

fn note_batch(alloc: Global, known: &mut Known, asked: &[Asked]) -> Result<bool, WantOfMemory>
    ensures { IfOk result (λ yes. yes ≡ true → Notes (HasAsk asked.now) known.old known.new) }
{
    let mut left = asked;
    while let [ask, rest @ ..] = left {
        if !note_ask(alloc, known, ask)? {
            return Ok(false);
        }
        left = rest;
    }
    Ok(true)
}

fn note_batches(
    alloc: Global,
    known: &mut Known,
    batches: &[Rows<Asked>],
) -> Result<bool, WantOfMemory>
    ensures { IfOk result (λ yes. yes ≡ true → Notes (HasAskOf batches.now) known.old known.new) }
{
    let mut left = batches;
    while let [batch, rest @ ..] = left {
        if !note_batch(alloc, known, batch.items())? {
            return Ok(false);
        }
        left = rest;
    }
    Ok(true)
}

fn note_entries(
    alloc: Global,
    known: &mut Known,
    entries: &[Numbered],
) -> Result<bool, WantOfMemory>
    ensures { IfOk result (λ yes. yes ≡ true → Notes (HasAskIn entries.now) known.old known.new) }
{
    let mut left = entries;
    while let [entry, rest @ ..] = left {
        if !note_batches(alloc, known, entry.batches.items())? {
            return Ok(false);
        }
        left = rest;
    }
    Ok(true)
}

// Whether all answers to one part have one number.
fn are_one(alloc: Global, entries: &[Numbered]) -> Result<bool, WantOfMemory>
    ensures { IfOk result (λ yes. yes ≡ true → AreOne entries.now) }
{
    let mut known = Known::new(alloc);
    let yes = note_entries(alloc, &mut known, entries)?;
    Ok(yes)
}

/// The cache of the entries, whose answers to one part are known to be the same where they have one
/// number.
pub(crate) fn agreeing(
    alloc: Global,
    decoded: &Decoded,
    parts: &Pooled,
    cache: Cache<Key, Out>,
) -> Result<Cache<Key, Out>, WantOfMemory>
    requires { all_some (entry_at decoded.now.answers decoded.now.outcomes)
        parts.now.entries ≡ Some cache }
    ensures { IfOk result (λ c. c ≡ cache) }
{
    let agrees = are_one(alloc, parts.entries.items())?;
    Ok(cache.agreeing(agrees))
}
