//! Descriptions of modules.
ghost use Rattle.std.specs.Prelude.{◌≡◌, ◌++◌, OnOk};
ghost use Rattle.packed_values.specs.Encoding.{IsAppended, IsRead, IsUnread};
ghost use Rattle.packed_documents.specs.Module.{depex_part_encoding, inf_doc_first, inf_doc_first_encoding, inf_doc_encoding, inf_doc_fourth, inf_doc_fourth_encoding, inf_doc_of, inf_doc_second, inf_doc_second_encoding, inf_doc_third, inf_doc_third_encoding, named_encoding, served_encoding, used_pcd_encoding};

use crate::pcds::PcdNameEncoding;
use crate::words::{ArchEncoding, AskedEncoding, ModuleTypeEncoding};
use build_base::{Guid, Place, Rows, Text, WantOfMemory};
use doc_types::depex::DepexPart;
use doc_types::module::{InfDoc, Named, Served, UsedPcd};
use packed_values::{Encode, Input, decode_fields, encode_fields};
use std::alloc::Global;

/// How a value of `Named` is encoded.
pub(crate) struct NamedEncoding;

impl Encode for NamedEncoding {
    type Value = Named;

    ghost encoding = { named_encoding };

    #[tactic(auto, unfolding(crate::specs::Module::named_encoding))]
    fn encode(value: &Named, out: &mut Vec<u8>) -> Result<(), WantOfMemory> {
        encode_fields!(value, out; at: Place, arch: ArchEncoding, name: Text)
    }

    #[tactic(auto, unfolding(crate::specs::Module::named_encoding), using(packed_values::proofs::WhereLemmas::unread_by))]
    fn decode(alloc: Global, input: &mut Input) -> Result<Option<Named>, WantOfMemory> {
        decode_fields!(Named, alloc, input; at: Place, arch: ArchEncoding, name: Text)
    }
}

/// How a value of `Served` is encoded.
pub(crate) struct ServedEncoding;

impl Encode for ServedEncoding {
    type Value = Served;

    ghost encoding = { served_encoding };

    #[tactic(auto, unfolding(crate::specs::Module::served_encoding))]
    fn encode(value: &Served, out: &mut Vec<u8>) -> Result<(), WantOfMemory> {
        encode_fields!(value, out; name: Text, types: Rows<ModuleTypeEncoding>)
    }

    #[tactic(auto, unfolding(crate::specs::Module::served_encoding), using(packed_values::proofs::WhereLemmas::unread_by))]
    fn decode(alloc: Global, input: &mut Input) -> Result<Option<Served>, WantOfMemory> {
        decode_fields!(Served, alloc, input; name: Text, types: Rows<ModuleTypeEncoding>)
    }
}

/// How a value of `UsedPcd` is encoded.
pub(crate) struct UsedPcdEncoding;

impl Encode for UsedPcdEncoding {
    type Value = UsedPcd;

    ghost encoding = { used_pcd_encoding };

    #[tactic(auto, unfolding(crate::specs::Module::used_pcd_encoding))]
    fn encode(value: &UsedPcd, out: &mut Vec<u8>) -> Result<(), WantOfMemory> {
        encode_fields!(value, out; at: Place, arch: ArchEncoding, asked: AskedEncoding, pcd: PcdNameEncoding, default: Option<Text>)
    }

    #[tactic(auto, unfolding(crate::specs::Module::used_pcd_encoding), using(packed_values::proofs::WhereLemmas::unread_by))]
    fn decode(alloc: Global, input: &mut Input) -> Result<Option<UsedPcd>, WantOfMemory> {
        decode_fields!(UsedPcd, alloc, input; at: Place, arch: ArchEncoding, asked: AskedEncoding, pcd: PcdNameEncoding, default: Option<Text>)
    }
}

/// How a value of `DepexPart` is encoded.
pub(crate) struct DepexPartEncoding;

impl Encode for DepexPartEncoding {
    type Value = DepexPart;

    ghost encoding = { depex_part_encoding };

    #[tactic(auto, unfolding(crate::specs::Module::depex_part_encoding))]
    fn encode(value: &DepexPart, out: &mut Vec<u8>) -> Result<(), WantOfMemory> {
        encode_fields!(value, out; at: Place, arch: ArchEncoding, kind: Option<ModuleTypeEncoding>, terms: Rows<Text>)
    }

    #[tactic(auto, unfolding(crate::specs::Module::depex_part_encoding), using(packed_values::proofs::WhereLemmas::unread_by))]
    fn decode(alloc: Global, input: &mut Input) -> Result<Option<DepexPart>, WantOfMemory> {
        decode_fields!(DepexPart, alloc, input; at: Place, arch: ArchEncoding, kind: Option<ModuleTypeEncoding>, terms: Rows<Text>)
    }
}

/// How a value of `InfDoc` is encoded.
pub struct InfDocEncoding;

type InfDocFirst = (Place, Text, Guid, ModuleTypeEncoding);

type InfDocSecond = (
    Text,
    Rows<NamedEncoding>,
    Rows<NamedEncoding>,
    Rows<NamedEncoding>,
);

type InfDocThird = (
    Rows<ServedEncoding>,
    Rows<NamedEncoding>,
    Rows<NamedEncoding>,
);

type InfDocFourth = (
    Rows<NamedEncoding>,
    Rows<UsedPcdEncoding>,
    Rows<DepexPartEncoding>,
);

type InfDocGroups = (InfDocFirst, InfDocSecond, InfDocThird, InfDocFourth);

// Adds its fields from `at` on.
#[tactic(auto, unfolding(crate::specs::Module::inf_doc_first_encoding, packed_values::specs::Parts::quadruple_encoding))]
fn encode_inf_doc_first(value: &InfDoc, out: &mut Vec<u8>) -> Result<(), WantOfMemory>
    ensures { OnOk result
        (IsAppended inf_doc_first_encoding out.old.items (inf_doc_first value.now) out.new.items) }
{
    encode_fields!(value, out; at: Place, base_name: Text, file_guid: Guid, module_type: ModuleTypeEncoding)
}

// Adds its fields from `version` on.
#[tactic(auto, unfolding(crate::specs::Module::inf_doc_second_encoding, packed_values::specs::Parts::quadruple_encoding))]
fn encode_inf_doc_second(value: &InfDoc, out: &mut Vec<u8>) -> Result<(), WantOfMemory>
    ensures { OnOk result
        (IsAppended inf_doc_second_encoding out.old.items (inf_doc_second value.now)
        out.new.items) }
{
    encode_fields!(value, out; version: Text, entry_points: Rows<NamedEncoding>, constructors: Rows<NamedEncoding>, destructors: Rows<NamedEncoding>)
}

// Adds its fields from `serves` on.
#[tactic(auto, unfolding(crate::specs::Module::inf_doc_third_encoding, packed_values::specs::Parts::triple_encoding))]
fn encode_inf_doc_third(value: &InfDoc, out: &mut Vec<u8>) -> Result<(), WantOfMemory>
    ensures { OnOk result
        (IsAppended inf_doc_third_encoding out.old.items (inf_doc_third value.now) out.new.items) }
{
    encode_fields!(value, out; serves: Rows<ServedEncoding>, packages: Rows<NamedEncoding>, classes: Rows<NamedEncoding>)
}

// Adds its fields from `guids` on.
#[tactic(auto, unfolding(crate::specs::Module::inf_doc_fourth_encoding, packed_values::specs::Parts::triple_encoding))]
fn encode_inf_doc_fourth(value: &InfDoc, out: &mut Vec<u8>) -> Result<(), WantOfMemory>
    ensures { OnOk result
        (IsAppended inf_doc_fourth_encoding out.old.items (inf_doc_fourth value.now)
        out.new.items) }
{
    encode_fields!(value, out; guids: Rows<NamedEncoding>, pcds: Rows<UsedPcdEncoding>, depex: Rows<DepexPartEncoding>)
}

// The record of all its fields.
fn join_inf_doc(groups: <InfDocGroups as Encode>::Value) -> InfDoc
    ensures { result ≡ inf_doc_of groups }
{
    let (first, second, third, fourth) = groups;
    let (at, base_name, file_guid, module_type) = first;
    let (version, entry_points, constructors, destructors) = second;
    let (serves, packages, classes) = third;
    let (guids, pcds, depex) = fourth;
    InfDoc {
        at,
        base_name,
        file_guid,
        module_type,
        version,
        entry_points,
        constructors,
        destructors,
        serves,
        packages,
        classes,
        guids,
        pcds,
        depex,
    }
}

impl Encode for InfDocEncoding {
    type Value = InfDoc;

    ghost encoding = { inf_doc_encoding };

    #[tactic(auto, unfolding(crate::specs::Module::inf_doc_encoding, packed_values::specs::Parts::pair_encoding, packed_values::specs::Parts::quadruple_encoding))]
    fn encode(value: &InfDoc, out: &mut Vec<u8>) -> Result<(), WantOfMemory> {
        encode_inf_doc_first(value, out)?;
        encode_inf_doc_second(value, out)?;
        encode_inf_doc_third(value, out)?;
        encode_inf_doc_fourth(value, out)
    }

    #[tactic(auto, unfolding(crate::specs::Module::inf_doc_encoding, crate::specs::Module::inf_doc_first_encoding, crate::specs::Module::inf_doc_second_encoding, crate::specs::Module::inf_doc_third_encoding, crate::specs::Module::inf_doc_fourth_encoding), using(packed_values::proofs::WhereLemmas::unread_by))]
    fn decode(alloc: Global, input: &mut Input) -> Result<Option<InfDoc>, WantOfMemory> {
        match <InfDocGroups>::decode(alloc, input)? {
            None => Ok(None),
            Some(groups) => Ok(Some(join_inf_doc(groups))),
        }
    }
}
