//! Texts that stand behind one another, and where each is found.
ghost use Rattle.std.specs.Prelude.{◌≡◌, ◌++◌, ◌∷◌, [], List, ℕ, false, None, cond, nat_eq, length, slice_get, OnOk};
ghost use Rattle.std.specs.HashMap.{get};
ghost use Rattle.std.specs.Prelude.{◌<◌, ◌-◌, ◌/◌, take, drop};
ghost use Rattle.std.specs.Hash.FoldHasher.{initial, write, finish};
ghost use Rattle.step_cache.specs.Places.{digest, hash_samples, texts_at, is_some_text, first_at, found_in, numbers_at, IsPlaced};
ghost use Rattle.step_cache.specs.Pools.{has_text};

use build_base::bytes::{digest as whole_digest, part_of};
use build_base::{Rows, WantOfMemory};
use indexmap::IndexMap;
use std::alloc::Global;
use std::hash::{FoldHasher, Hasher};

/// Where a text stands: so many bytes behind a start.
#[derive(Clone, Copy)]
pub struct Span {
    pub start: usize,
    pub count: usize,
}

// A state to which samples of a text are written. An image may be as long as its device, so that
// to read each of its bytes once more takes as long as all else that is done for it.
fn hash_samples(state: FoldHasher, text: &[u8]) -> FoldHasher
    ensures { result ≡ hash_samples write state text.now (length text.now / 1024) }
{
    let mut state = state;
    for i in 0..text.len() / 1024 {
        state.write(part_of(text, i * 1024, 64));
    }
    state
}

// The number of a long text.
fn sampled_digest(text: &[u8]) -> u64
    requires { 16384 < length text.now }
    ensures { result ≡ finish (hash_samples write (write (write initial (take 1024 text.now))
        (take 1024 (drop (length text.now - 1024) text.now))) text.now (length text.now / 1024)) }
{
    let mut state = FoldHasher::default();
    state.write(part_of(text, 0, 1024));
    state.write(part_of(text, text.len() - 1024, 1024));
    hash_samples(state, text).finish()
}

/// A number of a text, by which it is looked up. Of a long text not all bytes are read for it.
#[tactic(auto, unfolding(crate::specs::Places::digest))]
pub(crate) fn digest(text: &[u8]) -> u64
    ensures { result ≡ digest text.now }
{
    if text.len() <= 16384 {
        return whole_digest(text);
    }
    sampled_digest(text)
}

// Whether a text stands at a number.
#[tactic(auto, using(crate::proofs::PlaceLemmas::text_stands, crate::proofs::PlaceLemmas::text_lacks))]
fn stands_at(bytes: &[u8], spans: &[Span], text: &[u8], number: usize) -> bool
    ensures { result ≡ is_some_text text.now (slice_get (texts_at bytes.now spans.now) number) }
{
    match spans.get(number) {
        Some(span) => text == part_of(bytes, span.start, span.count),
        None => false,
    }
}

// The first of the numbers at which a text stands.
#[tactic(auto, unfolding(crate::specs::Places::first_at))]
fn first_at(bytes: &[u8], spans: &[Span], text: &[u8], numbers: &[usize]) -> Option<usize>
    ensures { result ≡ first_at (texts_at bytes.now spans.now) text.now numbers.now }
{
    let mut left = numbers;
    while let [number, rest @ ..] = left {
        if stands_at(bytes, spans, text, *number) {
            return Some(*number);
        }
        left = rest;
    }
    None
}

/// The number of a text with this digest, where it is there.
#[tactic(auto, using(crate::proofs::PlaceLemmas::found_among, crate::proofs::PlaceLemmas::found_nowhere))]
pub(crate) fn find(
    bytes: &[u8],
    spans: &[Span],
    table: &IndexMap<u64, Rows<usize>>,
    text: &[u8],
    hash: u64,
) -> Option<usize>
    requires placed { IsPlaced (texts_at bytes.now spans.now) table.now }
    requires digest { hash ≡ digest text.now }
    ensures { result ≡ found_in (texts_at bytes.now spans.now) text.now }
{
    match table.get(&hash) {
        Some(numbers) => first_at(bytes, spans, text, numbers.items()),
        None => None,
    }
}

// Takes the numbers at a digest out of a table.
fn take_numbers(alloc: Global, table: &mut IndexMap<u64, Rows<usize>>, digest: u64) -> Rows<usize>
    ensures numbers { result ≡ numbers_at table.old digest }
    ensures others { (other : ℕ) → get nat_eq table.new other ≡
        cond (nat_eq digest other) None (get nat_eq table.old other) }
{
    match table.swap_remove(&digest) {
        Some(numbers) => numbers,
        None => Rows::new(alloc),
    }
}

/// Adds the number of a text with this digest, which isn't there yet, to the table.
pub(crate) fn note(
    alloc: Global,
    table: &mut IndexMap<u64, Rows<usize>>,
    hash: u64,
    number: usize,
) -> Result<(), WantOfMemory>
    ensures { (text : List ℕ) (texts : List (List ℕ)) → hash ≡ digest text →
        has_text texts text ≡ false → length texts ≡ number →
        IsPlaced texts table.old → OnOk result (IsPlaced (texts ++ text ∷ []) table.new) }
{
    let mut numbers = take_numbers(alloc, table, hash);
    numbers.push(number)?;
    match table.insert(hash, numbers) {
        Ok(_) => Ok(()),
        Err(_) => Err(WantOfMemory),
    }
}
