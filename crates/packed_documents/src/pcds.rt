//! Names of PCDs, and what is set beside their lines.
ghost use Rattle.std.specs.Prelude.{◌≡◌, ◌++◌};
ghost use Rattle.packed_values.specs.Encoding.{IsAppended, IsRead, IsUnread};
ghost use Rattle.packed_documents.specs.Pcds.{pcd_name_encoding, pcd_set_encoding};

use build_base::{Place, Rows, Text, WantOfMemory};
use doc_types::pcd::{PcdName, PcdSet};
use doc_types::pcd_lines::{HasPcd, PcdLines};
use packed_values::{Encode, Input, decode_fields, encode_fields};
use std::alloc::Global;
use std::marker::PhantomData;

/// How a value of `PcdName` is encoded.
pub(crate) struct PcdNameEncoding;

impl Encode for PcdNameEncoding {
    type Value = PcdName;

    ghost encoding = { pcd_name_encoding };

    #[tactic(auto, unfolding(crate::specs::Pcds::pcd_name_encoding, packed_values::specs::Parts::pair_encoding))]
    fn encode(value: &PcdName, out: &mut Vec<u8>) -> Result<(), WantOfMemory> {
        encode_fields!(value, out; space: Text, name: Text)
    }

    #[tactic(auto, unfolding(crate::specs::Pcds::pcd_name_encoding), using(packed_values::proofs::WhereLemmas::unread_by))]
    fn decode(alloc: Global, input: &mut Input) -> Result<Option<PcdName>, WantOfMemory> {
        decode_fields!(PcdName, alloc, input; space: Text, name: Text)
    }
}

/// How a value of `PcdSet` is encoded.
pub(crate) struct PcdSetEncoding;

impl Encode for PcdSetEncoding {
    type Value = PcdSet;

    ghost encoding = { pcd_set_encoding };

    #[tactic(auto, unfolding(crate::specs::Pcds::pcd_set_encoding, packed_values::specs::Parts::pair_encoding))]
    fn encode(value: &PcdSet, out: &mut Vec<u8>) -> Result<(), WantOfMemory> {
        encode_fields!(value, out; at: Place, rank: u8, pcd: PcdNameEncoding, value: Text)
    }

    #[tactic(auto, unfolding(crate::specs::Pcds::pcd_set_encoding), using(packed_values::proofs::WhereLemmas::unread_by))]
    fn decode(alloc: Global, input: &mut Input) -> Result<Option<PcdSet>, WantOfMemory> {
        decode_fields!(PcdSet, alloc, input; at: Place, rank: u8, pcd: PcdNameEncoding, value: Text)
    }
}

/// How lines of PCDs are encoded of which each is encoded by `E`: as rows.
pub(crate) struct PcdLinesEncoding<E> {
    line: PhantomData<E>,
}

impl<E: Encode> Encode for PcdLinesEncoding<E>
where
    E::Value: HasPcd + Drop,
{
    ghost use Rattle.packed_values.specs.Parts.{rows_encoding};

    type Value = PcdLines<E::Value>;

    ghost encoding = { rows_encoding E.encoding };

    fn encode(value: &PcdLines<E::Value>, out: &mut Vec<u8>) -> Result<(), WantOfMemory> {
        Rows::<E>::encode(value.rows(), out)
    }

    fn decode(
        alloc: Global,
        input: &mut Input,
    ) -> Result<Option<PcdLines<E::Value>>, WantOfMemory> {
        match Rows::<E>::decode(alloc, input)? {
            None => Ok(None),
            Some(rows) => Ok(Some(PcdLines::of(alloc, rows)?)),
        }
    }
}
