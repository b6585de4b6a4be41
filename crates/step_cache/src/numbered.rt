//! Entries with numbers in place of answers.
ghost use Rattle.std.specs.Prelude.{◌≡◌, ◌++◌};
ghost use Rattle.packed_values.specs.Encoding.{IsAppended, IsRead, IsUnread};
ghost use Rattle.step_cache.specs.Numbered.{asked_encoding, numbered_encoding, pooled_encoding};

use build_base::{Rows, Text, WantOfMemory};
use packed_outcomes::key::KeyEncoding;
use packed_outcomes::talk::AskEncoding;
use packed_values::{Encode, Input, decode_fields, encode_fields};
use std::alloc::Global;
use step_engine::Ask;
use step_pack::Key;

/// An ask, and the number of its packed answer in the pool, from 0.
#[derive(Drop)]
pub struct Asked {
    pub ask: Ask<Key>,
    pub number: u64,
}

/// An entry, with the numbers of its packed answers and result.
#[derive(Drop)]
pub struct Numbered {
    pub key: Key,
    pub batches: Rows<Rows<Asked>>,
    pub result: u64,
}

/// The pool of packed answers and results, and the entries.
#[derive(Drop)]
pub(crate) struct Pooled {
    pub pool: Rows<Text>,
    pub entries: Rows<Numbered>,
}

impl Encode for Asked {
    type Value = Asked;

    ghost encoding = { asked_encoding };

    #[tactic(auto, unfolding(crate::specs::Numbered::asked_encoding, packed_values::specs::Parts::pair_encoding))]
    fn encode(value: &Asked, out: &mut Vec<u8>) -> Result<(), WantOfMemory> {
        encode_fields!(value, out; ask: AskEncoding, number: u64)
    }

    #[tactic(auto, unfolding(crate::specs::Numbered::asked_encoding), using(packed_values::proofs::WhereLemmas::unread_by))]
    fn decode(alloc: Global, input: &mut Input) -> Result<Option<Asked>, WantOfMemory> {
        decode_fields!(Asked, alloc, input; ask: AskEncoding, number: u64)
    }
}

impl Encode for Numbered {
    type Value = Numbered;

    ghost encoding = { numbered_encoding };

    #[tactic(auto, unfolding(crate::specs::Numbered::numbered_encoding, packed_values::specs::Parts::pair_encoding))]
    fn encode(value: &Numbered, out: &mut Vec<u8>) -> Result<(), WantOfMemory> {
        encode_fields!(value, out; key: KeyEncoding, batches: Rows<Rows<Asked>>, result: u64)
    }

    #[tactic(auto, unfolding(crate::specs::Numbered::numbered_encoding), using(packed_values::proofs::WhereLemmas::unread_by))]
    fn decode(alloc: Global, input: &mut Input) -> Result<Option<Numbered>, WantOfMemory> {
        decode_fields!(Numbered, alloc, input; key: KeyEncoding, batches: Rows<Rows<Asked>>, result: u64)
    }
}

impl Encode for Pooled {
    type Value = Pooled;

    ghost encoding = { pooled_encoding };

    #[tactic(auto, unfolding(crate::specs::Numbered::pooled_encoding, packed_values::specs::Parts::pair_encoding))]
    fn encode(value: &Pooled, out: &mut Vec<u8>) -> Result<(), WantOfMemory> {
        encode_fields!(value, out; pool: Rows<Text>, entries: Rows<Numbered>)
    }

    #[tactic(auto, unfolding(crate::specs::Numbered::pooled_encoding), using(packed_values::proofs::WhereLemmas::unread_by))]
    fn decode(alloc: Global, input: &mut Input) -> Result<Option<Pooled>, WantOfMemory> {
        decode_fields!(Pooled, alloc, input; pool: Rows<Text>, entries: Rows<Numbered>)
    }
}
