//! Descriptions of packages.
ghost use Rattle.std.specs.Prelude.{◌≡◌, ◌++◌, OnOk};
ghost use Rattle.packed_values.specs.Encoding.{IsAppended, IsRead, IsUnread};
ghost use Rattle.packed_documents.specs.Package.{dec_doc_encoding, dec_pcd_first, dec_pcd_first_encoding, dec_pcd_encoding, dec_pcd_of, dec_pcd_second, dec_pcd_second_encoding, named_guid_encoding};

use crate::pcds::{PcdLinesEncoding, PcdNameEncoding};
use crate::words::{ArchEncoding, DatumEncoding, KindEncoding};
use build_base::{Guid, Place, Rows, Text, WantOfMemory};
use doc_types::depex::NamedGuid;
use doc_types::package::{DecDoc, DecPcd};
use packed_values::{Encode, Input, decode_fields, encode_fields};
use std::alloc::Global;

/// How a value of `NamedGuid` is encoded.
pub(crate) struct NamedGuidEncoding;

impl Encode for NamedGuidEncoding {
    type Value = NamedGuid;

    ghost encoding = { named_guid_encoding };

    #[tactic(auto, unfolding(crate::specs::Package::named_guid_encoding))]
    fn encode(value: &NamedGuid, out: &mut Vec<u8>) -> Result<(), WantOfMemory> {
        encode_fields!(value, out; at: Place, arch: ArchEncoding, name: Text, guid: Guid)
    }

    #[tactic(auto, unfolding(crate::specs::Package::named_guid_encoding), using(packed_values::proofs::WhereLemmas::unread_by))]
    fn decode(alloc: Global, input: &mut Input) -> Result<Option<NamedGuid>, WantOfMemory> {
        decode_fields!(NamedGuid, alloc, input; at: Place, arch: ArchEncoding, name: Text, guid: Guid)
    }
}

/// How a value of `DecPcd` is encoded.
pub(crate) struct DecPcdEncoding;

type DecPcdFirst = (Place, ArchEncoding, KindEncoding, PcdNameEncoding);

type DecPcdSecond = (Text, DatumEncoding, u32);

type DecPcdGroups = (DecPcdFirst, DecPcdSecond);

// Adds its fields from `at` on.
#[tactic(auto, unfolding(crate::specs::Package::dec_pcd_first_encoding, packed_values::specs::Parts::quadruple_encoding))]
fn encode_dec_pcd_first(value: &DecPcd, out: &mut Vec<u8>) -> Result<(), WantOfMemory>
    ensures { OnOk result
        (IsAppended dec_pcd_first_encoding out.old.items (dec_pcd_first value.now) out.new.items) }
{
    encode_fields!(value, out; at: Place, arch: ArchEncoding, kind: KindEncoding, pcd: PcdNameEncoding)
}

// Adds its fields from `default` on.
#[tactic(auto, unfolding(crate::specs::Package::dec_pcd_second_encoding, packed_values::specs::Parts::triple_encoding))]
fn encode_dec_pcd_second(value: &DecPcd, out: &mut Vec<u8>) -> Result<(), WantOfMemory>
    ensures { OnOk result
        (IsAppended dec_pcd_second_encoding out.old.items (dec_pcd_second value.now)
        out.new.items) }
{
    encode_fields!(value, out; default: Text, datum: DatumEncoding, token: u32)
}

// The record of all its fields.
fn join_dec_pcd(groups: <DecPcdGroups as Encode>::Value) -> DecPcd
    ensures { result ≡ dec_pcd_of groups }
{
    let (first, second) = groups;
    let (at, arch, kind, pcd) = first;
    let (default, datum, token) = second;
    DecPcd {
        at,
        arch,
        kind,
        pcd,
        default,
        datum,
        token,
    }
}

impl Encode for DecPcdEncoding {
    type Value = DecPcd;

    ghost encoding = { dec_pcd_encoding };

    #[tactic(auto, unfolding(crate::specs::Package::dec_pcd_encoding, packed_values::specs::Parts::pair_encoding))]
    fn encode(value: &DecPcd, out: &mut Vec<u8>) -> Result<(), WantOfMemory> {
        encode_dec_pcd_first(value, out)?;
        encode_dec_pcd_second(value, out)
    }

    #[tactic(auto, unfolding(crate::specs::Package::dec_pcd_encoding, crate::specs::Package::dec_pcd_first_encoding, crate::specs::Package::dec_pcd_second_encoding), using(packed_values::proofs::WhereLemmas::unread_by))]
    fn decode(alloc: Global, input: &mut Input) -> Result<Option<DecPcd>, WantOfMemory> {
        match <DecPcdGroups>::decode(alloc, input)? {
            None => Ok(None),
            Some(groups) => Ok(Some(join_dec_pcd(groups))),
        }
    }
}

/// How a value of `DecDoc` is encoded.
pub struct DecDocEncoding;

impl Encode for DecDocEncoding {
    type Value = DecDoc;

    ghost encoding = { dec_doc_encoding };

    #[tactic(auto, unfolding(crate::specs::Package::dec_doc_encoding))]
    fn encode(value: &DecDoc, out: &mut Vec<u8>) -> Result<(), WantOfMemory> {
        encode_fields!(value, out; at: Place, name: Text, guid: Guid, guids: Rows<NamedGuidEncoding>, pcds: PcdLinesEncoding<DecPcdEncoding>)
    }

    #[tactic(auto, unfolding(crate::specs::Package::dec_doc_encoding), using(packed_values::proofs::WhereLemmas::unread_by))]
    fn decode(alloc: Global, input: &mut Input) -> Result<Option<DecDoc>, WantOfMemory> {
        decode_fields!(DecDoc, alloc, input; at: Place, name: Text, guid: Guid, guids: Rows<NamedGuidEncoding>, pcds: PcdLinesEncoding<DecPcdEncoding>)
    }
}
