//! Keys and outcomes as bytes of their own.
ghost use Rattle.std.specs.Prelude.{◌≡◌, IfOk, MatchOption};
ghost use Rattle.packed_outcomes.specs.Key.{key_encoding};
ghost use Rattle.packed_outcomes.specs.Talk.{outcome_encoding};
ghost use Rattle.packed_values.specs.Encoding.{IsEncoding};
ghost use Rattle.step_engine.specs.declared.talk.Outcome.{Outcome as OutcomeOf};
ghost use Rattle.step_pack.specs.declared.key.Key.{Key as KeyOf};
ghost use Rattle.step_pack.specs.declared.out.Out.{Out as OutOf};
ghost use Rattle.step_pack.specs.Packed.{packed};

use crate::key::KeyEncoding;
use crate::talk::OutcomeEncoding;
use build_base::{Text, WantOfMemory};
use packed_values::{pack_value, unpack_value};
use std::alloc::Global;
use step_engine::Outcome;
use step_pack::{Key, Out};

/// The key whose packed form the bytes are; nothing exactly where they are the form of none.
pub fn unpack_key(alloc: Global, bytes: &[u8]) -> Result<Option<Key>, WantOfMemory>
    ensures { IfOk result
        (λ r. MatchOption r ((key : KeyOf) → IsEncoding key_encoding key bytes.now → ⊥)
        (λ key. IsEncoding key_encoding key bytes.now)) }
{
    unpack_value::<KeyEncoding>(alloc, bytes)
}

/// The packed form of an outcome. Each outcome has one.
pub fn pack_outcome(alloc: Global, value: &Outcome<Out>) -> Result<Text, WantOfMemory>
    ensures { IfOk result (λ text. IsEncoding outcome_encoding value.now text) }
{
    pack_value::<OutcomeEncoding>(alloc, value)
}

/// The outcome whose packed form the bytes are; nothing exactly where they are the form of none.
pub fn unpack_outcome(alloc: Global, bytes: &[u8]) -> Result<Option<Outcome<Out>>, WantOfMemory>
    ensures { IfOk result
        (λ r. MatchOption r ((value : OutcomeOf OutOf) → IsEncoding outcome_encoding value bytes.now
        → ⊥) (λ value. IsEncoding outcome_encoding value bytes.now)) }
{
    unpack_value::<OutcomeEncoding>(alloc, bytes)
}

/// The encoding of a key is its packed form.
#[tactic(auto, using(crate::proofs::KeyLemmas::key_encoding_is_packed))]
pub(crate) fn key_encodings_are_packed()
    ensures { (key : KeyOf) → key_encoding.encode key ≡ packed key }
{}
