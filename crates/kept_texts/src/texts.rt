//! The text of a cache that is left, and the cache of a text that was kept.
ghost use Rattle.std.specs.Prelude.{IfOk, MatchOption};
ghost use Rattle.step_cache.specs.CacheText.{IsCacheText, IsNoText, IsTextOf};

use build_base::{Text, WantOfMemory};
use std::alloc::Global;
use step_cache::{Kept, pack, unpack_text};
use step_engine::Cache;
use step_pack::{Key, Out};

/// The text of the cache that a build leaves.
pub fn text_of(alloc: Global, cache: &Cache<Key, Out>) -> Result<Text, WantOfMemory>
    ensures { IfOk result (λ text. IsCacheText cache.now text) }
{
    pack(alloc, cache)
}

/// The cache whose text this is, with the text's edition; nothing exactly where it is the text of
/// none, as of one that was cut.
pub fn cache_in(alloc: Global, text: &Text) -> Result<Option<Kept>, WantOfMemory>
    ensures { IfOk result (λ r. MatchOption r (IsNoText text.now)
        (λ kept. IsTextOf kept.edition kept.cache text.now)) }
{
    match unpack_text(alloc, text)? {
        Some(kept) => Ok(Some(kept)),
        None => Ok(None),
    }
}
