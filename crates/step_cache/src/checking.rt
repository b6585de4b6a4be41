//! What is asked of the parts of a text.
ghost use Rattle.std.specs.Prelude.{◌≡◌, [], IfOk};
ghost use Rattle.step_cache.specs.Checking.{each_new, use_number, asks_use, batches_use, entry_uses, entries_use, are_used, is_below, ascend};

use crate::numbered::{Asked, Numbered, Pooled};
use crate::seen::Seen;
use build_base::{Rows, Same, Text, WantOfMemory};
use std::alloc::Global;
use step_engine::Entry;
use step_pack::{Key, Out};

// Whether each text stands once.
#[tactic(auto, unfolding(crate::specs::Checking::each_new))]
fn each_new(alloc: Global, pool: &[Text]) -> Result<bool, WantOfMemory>
    ensures { IfOk result (λ yes. yes ≡ each_new [] pool.now) }
{
    let mut seen = Seen::new(alloc);
    let mut left = pool;
    while let [text, rest @ ..] = left {
        if !seen.add(text.copy(alloc)?)? {
            return Ok(false);
        }
        left = rest;
    }
    Ok(true)
}

// How many texts are used after one more number.
#[tactic(auto, unfolding(crate::specs::Checking::use_number))]
fn use_number(count: u64, seen: u64, number: u64) -> Option<u64>
    ensures { result ≡ use_number count seen number }
{
    if number < seen {
        return Some(seen);
    }
    if number == seen {
        if seen < count {
            return Some(seen + 1);
        }
    }
    None
}

fn asks_use(count: u64, asked: &[Asked], before: u64) -> Option<u64>
    ensures { result ≡ asks_use count asked.now before }
{
    let mut seen = before;
    let mut left = asked;
    while let [ask, rest @ ..] = left {
        seen = match use_number(count, seen, ask.number) {
            None => return None,
            Some(now) => now,
        };
        left = rest;
    }
    Some(seen)
}

fn batches_use(count: u64, batches: &[Rows<Asked>], before: u64) -> Option<u64>
    ensures { result ≡ batches_use count batches.now before }
{
    let mut seen = before;
    let mut left = batches;
    while let [asked, rest @ ..] = left {
        seen = match asks_use(count, asked.items(), seen) {
            None => return None,
            Some(now) => now,
        };
        left = rest;
    }
    Some(seen)
}

fn entry_uses(count: u64, number: &Numbered, seen: u64) -> Option<u64>
    ensures { result ≡ entry_uses count number.now seen }
{
    match batches_use(count, number.batches.items(), seen) {
        None => None,
        Some(now) => use_number(count, now, number.result),
    }
}

// How many of so many texts the entries use, where their numbers use them in order.
fn entries_use(count: u64, numbers: &[Numbered], before: u64) -> Option<u64>
    ensures { result ≡ entries_use count numbers.now before }
{
    let mut seen = before;
    let mut left = numbers;
    while let [number, rest @ ..] = left {
        seen = match entry_uses(count, number, seen) {
            None => return None,
            Some(now) => now,
        };
        left = rest;
    }
    Some(seen)
}

/// Whether each text of the pool stands once, and the numbers use them in order and all of them.
#[tactic(auto, unfolding(crate::specs::Checking::are_used))]
pub(crate) fn are_used(alloc: Global, parts: &Pooled) -> Result<bool, WantOfMemory>
    ensures { IfOk result (λ yes. yes ≡ are_used parts.now) }
{
    if !each_new(alloc, parts.pool.items())? {
        return Ok(false);
    }
    let count = parts.pool.items().len() as u64;
    match entries_use(count, parts.entries.items(), 0) {
        None => Ok(false),
        Some(seen) => Ok(seen == count),
    }
}

fn is_below(key: &Key, entries: &[Entry<Key, Out>]) -> bool
    ensures { result ≡ is_below key.now entries.now }
{
    match entries {
        [] => true,
        [next, ..] => key.cmp(&next.key).is_lt(),
    }
}

/// Whether the keys ascend.
#[tactic(auto, unfolding(crate::specs::Checking::ascend))]
pub(crate) fn ascend(entries: &[Entry<Key, Out>]) -> bool
    ensures { result ≡ ascend entries.now }
{
    let mut left = entries;
    while let [entry, rest @ ..] = left {
        if !is_below(&entry.key, rest) {
            return false;
        }
        left = rest;
    }
    true
}
