//! Bytes that are one value's encoding.
ghost use Rattle.std.specs.Prelude.{◌≡◌, ℕ, List, drop, IfOk, MatchOption};
ghost use Rattle.packed_values.specs.Encoding.{IsEncoding};

use crate::encode::Encode;
use crate::input::Input;
use build_base::{Text, WantOfMemory};
use std::alloc::Global;

/// The encoding of a value.
pub fn pack_value<T: Encode>(alloc: Global, value: &T::Value) -> Result<Text, WantOfMemory>
    ensures { IfOk result (λ text. IsEncoding T.encoding value.now text) }
{
    let mut out = Vec::new(alloc);
    T::encode(value, &mut out)?;
    Ok(Text::from_vec(out))
}

// The value whose encoding is all that is left; nothing exactly where that is none.
#[tactic(auto, using(crate::proofs::WholeLemmas::not_encoded, crate::proofs::WholeLemmas::encoded_less))]
fn only_value<T: Encode>(alloc: Global, input: &mut Input) -> Result<Option<T::Value>, WantOfMemory>
    ensures { IfOk result
        (λ r. MatchOption r ((x : T.Value) → IsEncoding T.encoding x input.old → ⊥)
        (λ x. IsEncoding T.encoding x input.old)) }
{
    match T::decode(alloc, input)? {
        None => Ok(None),
        Some(value) => {
            if input.is_empty() {
                Ok(Some(value))
            } else {
                Ok(None)
            }
        }
    }
}

/// The value whose encoding the bytes are; nothing exactly where they are none.
pub fn unpack_value<T: Encode>(
    alloc: Global,
    bytes: &[u8],
) -> Result<Option<T::Value>, WantOfMemory>
    ensures { IfOk result
        (λ r. MatchOption r ((x : T.Value) → IsEncoding T.encoding x bytes.now → ⊥)
        (λ x. IsEncoding T.encoding x bytes.now)) }
{
    only_value::<T>(alloc, &mut Input::new(bytes))
}

/// The value whose encoding a text is but for so many bytes at its front; nothing exactly where it
/// is none. The value's texts share the bytes of a shared text.
pub fn unpack_behind<T: Encode>(
    alloc: Global,
    front: usize,
    text: &Text,
) -> Result<Option<T::Value>, WantOfMemory>
    ensures { IfOk result
        (λ r. MatchOption r ((x : T.Value) → IsEncoding T.encoding x (drop front text.now) → ⊥)
        (λ x. IsEncoding T.encoding x (drop front text.now))) }
{
    only_value::<T>(alloc, &mut Input::behind(front, text))
}

/// Bytes are the encoding of one value at most.
#[tactic(auto, using(crate::proofs::WholeLemmas::encoded_once))]
pub(crate) fn bytes_are_one_value<T: Encode>()
    ensures { (bytes : List ℕ) (x y : T.Value) → IsEncoding T.encoding x bytes
        → IsEncoding T.encoding y bytes → x ≡ y }
{}
