//! A cache from its text.
ghost use Rattle.std.specs.Prelude.{◌≡◌, ◌≤◌, ◌^◌, true, false, List, length, nat_lt, take, drop, IfOk, MatchOption};
ghost use Rattle.step_cache.specs.CacheText.{head_of, is_edition, IsNoText, IsNoTextOf, IsTextOf};
ghost use Rattle.step_cache.specs.Checking.{are_used, ascend, IsCacheOf};
ghost use Rattle.step_cache.specs.Decoding.{AreDecoded};
ghost use Rattle.step_engine.specs.Caches.{AreInOrder};
ghost use Rattle.step_engine.specs.declared.talk.Entry.{Entry as EntryOf};
ghost use Rattle.step_pack.specs.Keys.{key_cmp};
ghost use Rattle.step_pack.specs.declared.key.Key.{Key as KeyOf};
ghost use Rattle.step_pack.specs.declared.out.Out.{Out as OutOf};

use crate::agreeing::agreeing;
use crate::checking::{are_used, ascend};
use crate::decoding::{Decoded, decoded_of, entries_in};
use crate::numbered::Pooled;
use crate::text::{fits, parts_of};
use build_base::{Same, Text, WantOfMemory};
use cache_heads::{HEAD, edition_in, is_edition, is_head};
use std::alloc::Global;
use step_engine::{Cache, Entry};
use step_pack::{Key, Out};

// The cache of entries in order.
fn cache_from(alloc: Global, entries: &[Entry<Key, Out>]) -> Result<Cache<Key, Out>, WantOfMemory>
    requires { AreInOrder key_cmp entries.now }
    ensures { IfOk result (λ cache. cache ≡ entries.now) }
{
    let mut cache = Cache::new(alloc);
    for entry in entries {
        let own = entry.copy(alloc)?;
        cache.put(own)?;
    }
    Ok(cache)
}

// The cache of entries that ascend.
#[tactic(auto, using(crate::proofs::OrderLemmas::order_of))]
fn ascending_cache(
    alloc: Global,
    entries: &[Entry<Key, Out>],
) -> Result<Option<Cache<Key, Out>>, WantOfMemory>
    ensures { IfOk result (λ r. MatchOption r (ascend entries.now ≡ false)
        (λ cache. (cache ≡ entries.now) × (ascend entries.now ≡ true))) }
{
    if ascend(entries) {
        let cache = cache_from(alloc, entries)?;
        return Ok(Some(cache));
    }
    Ok(None)
}

// The cache of parts whose texts are used, by what those stand for.
#[tactic(auto, using(crate::proofs::PartLemmas::not_read, crate::proofs::PartLemmas::not_ascending, crate::proofs::PartLemmas::is_cache_of))]
fn decoded_cache(
    alloc: Global,
    decoded: &Decoded,
    parts: &Pooled,
) -> Result<Option<Cache<Key, Out>>, WantOfMemory>
    requires used { are_used parts.now ≡ true }
    requires decoded { AreDecoded parts.now.pool decoded.now.answers decoded.now.outcomes }
    ensures { IfOk result (λ r. MatchOption r ((entries : List (EntryOf KeyOf OutOf)) → IsCacheOf
        parts.now entries → ⊥) (λ entries. IsCacheOf parts.now entries)) }
{
    let entries = match entries_in(alloc, decoded, parts)? {
        None => return Ok(None),
        Some(entries) => entries,
    };
    match ascending_cache(alloc, entries.items())? {
        None => Ok(None),
        Some(cache) => Ok(Some(agreeing(alloc, decoded, parts, cache)?)),
    }
}

// The cache whose parts these are; nothing exactly where they are those of none.
#[tactic(auto, using(crate::proofs::PartLemmas::not_used))]
fn cache_of(alloc: Global, parts: &Pooled) -> Result<Option<Cache<Key, Out>>, WantOfMemory>
    ensures { IfOk result (λ r. MatchOption r ((entries : List (EntryOf KeyOf OutOf)) → IsCacheOf
        parts.now entries → ⊥) (λ entries. IsCacheOf parts.now entries)) }
{
    if !are_used(alloc, parts)? {
        return Ok(None);
    }
    let decoded = decoded_of(alloc, parts)?;
    decoded_cache(alloc, &decoded, parts)
}

/// A cache, and the edition of the text that it was read from.
#[derive(Drop)]
pub struct Kept {
    pub edition: u32,
    pub cache: Cache<Key, Out>,
}

// The cache whose text of an edition the bytes are; nothing exactly where they are that of none.
#[tactic(auto, using(crate::proofs::TextLemmas::no_parts))]
fn unpack_body(
    alloc: Global,
    edition: u32,
    bytes: &Text,
) -> Result<Option<Cache<Key, Out>>, WantOfMemory>
    requires long { 20 ≤ length bytes.now }
    requires known { is_edition edition ≡ true }
    requires head { take 20 bytes.now ≡ head_of edition (length (drop 20 bytes.now)) }
    requires fits { nat_lt (length bytes.now) (256 ^ 8) ≡ true }
    ensures { IfOk result (λ r. MatchOption r (IsNoTextOf edition bytes.now)
        (λ entries. IsTextOf edition entries bytes.now)) }
{
    let parts = match parts_of(alloc, bytes)? {
        None => return Ok(None),
        Some(parts) => parts,
    };
    match cache_of(alloc, &parts)? {
        None => Ok(None),
        Some(cache) => Ok(Some(cache)),
    }
}

// The same where the bytes have room for a head.
fn unpack_long(alloc: Global, bytes: &Text) -> Result<Option<Kept>, WantOfMemory>
    requires { 20 ≤ length bytes.now }
    ensures { IfOk result (λ r. MatchOption r (IsNoText bytes.now)
        (λ kept. IsTextOf kept.edition kept.cache bytes.now)) }
{
    let edition = edition_in(bytes.bytes());
    if !is_edition(edition) {
        return Ok(None);
    }
    if !is_head(alloc, edition, bytes.bytes())? {
        return Ok(None);
    }
    fits(bytes);
    match unpack_body(alloc, edition, bytes)? {
        None => Ok(None),
        Some(cache) => Ok(Some(Kept { edition, cache })),
    }
}

/// The cache whose text this is, and the text's edition; nothing exactly where it is the text of
/// none. What the cache holds shares the bytes of a shared text.
#[tactic(auto, using(crate::proofs::TextLemmas::too_short))]
pub fn unpack_text(alloc: Global, text: &Text) -> Result<Option<Kept>, WantOfMemory>
    ensures { IfOk result (λ r. MatchOption r (IsNoText text.now)
        (λ kept. IsTextOf kept.edition kept.cache text.now)) }
{
    if text.bytes().len() < HEAD {
        return Ok(None);
    }
    unpack_long(alloc, text)
}

/// The cache whose text the bytes are, and the text's edition; nothing exactly where they are the
/// text of none.
pub fn unpack(alloc: Global, bytes: &[u8]) -> Result<Option<Kept>, WantOfMemory>
    ensures { IfOk result (λ r. MatchOption r (IsNoText bytes.now)
        (λ kept. IsTextOf kept.edition kept.cache bytes.now)) }
{
    let own = Vec::from_slice(alloc, bytes)?;
    unpack_text(alloc, &Text::from_vec_shared(alloc, own)?)
}
