//! The head and the body of a text.
ghost use Rattle.std.specs.Prelude.{◌≡◌, ◌++◌, ◌^◌, true, IfOk, OnOk, MatchOption, length, nat_lt, drop};
ghost use Rattle.packed_values.specs.Encoding.{IsEncoding};
ghost use Rattle.step_cache.specs.CacheText.{head_of, newest};
ghost use Rattle.step_cache.specs.Numbered.{pooled_encoding, pooled_with};
ghost use Rattle.step_cache.specs.declared.numbered.Pooled.{Pooled as PooledOf};

use crate::numbered::{Numbered, Pooled};
use crate::pool::Pool;
use build_base::{Rows, Text, WantOfMemory};
pub use cache_heads::NEWEST;
use cache_heads::{HEAD, with_head};
use packed_values::{Encode, unpack_behind};
use std::alloc::Global;

/// The text of the newest edition with this pool and these entries.
pub(crate) fn text_of(
    alloc: Global,
    pool: Pool,
    entries: &Rows<Numbered>,
) -> Result<Text, WantOfMemory>
    ensures value { OnOk result (pooled_encoding.is_value (pooled_with pool entries.now) ≡ true) }
    ensures text { IfOk result
        (λ t. t ≡ head_of newest (length (pooled_encoding.encode (pooled_with pool entries.now)))
        ++ pooled_encoding.encode (pooled_with pool entries.now)) }
{
    let mut text = pool.into_bytes()?;
    Rows::<Numbered>::encode(entries, &mut text)?;
    let whole = with_head(alloc, text)?;
    Ok(whole)
}

/// Shows that the length of a text has 64 bits.
pub(crate) fn fits(text: &Text)
    ensures { nat_lt (length text.now) (256 ^ 8) ≡ true }
{
    let _bytes = text.bytes();
}

/// The parts whose encoding stands behind the head, where there are any.
pub(crate) fn parts_of(alloc: Global, text: &Text) -> Result<Option<Pooled>, WantOfMemory>
    ensures { IfOk result (λ r. MatchOption r
        ((parts : PooledOf) → IsEncoding pooled_encoding parts (drop 20 text.now) → ⊥)
        (λ parts. IsEncoding pooled_encoding parts (drop 20 text.now))) }
{
    unpack_behind::<Pooled>(alloc, HEAD, text)
}
