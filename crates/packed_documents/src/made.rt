//! What is chosen, resolved and made for modules.
ghost use Rattle.std.specs.Prelude.{◌≡◌, ◌++◌, OnOk};
ghost use Rattle.packed_values.specs.Encoding.{IsAppended, IsRead, IsUnread};
ghost use Rattle.packed_documents.specs.Made.{call_encoding, choice_encoding, file_image_encoding, module_encoding, pcd_row_first, pcd_row_first_encoding, pcd_row_encoding, pcd_row_of, pcd_row_second, pcd_row_second_encoding, texts_encoding, values_encoding, vpd_encoding, vpd_place_encoding};

use crate::pcds::{PcdLinesEncoding, PcdNameEncoding};
use crate::words::{ArchEncoding, DatumEncoding, KindEncoding};
use build_base::{Guid, Path, Place, Rows, Text, WantOfMemory};
use doc_types::choice::{Call, Choice, Module};
use doc_types::image::FileImage;
use doc_types::texts::Texts;
use doc_types::values::{PcdRow, Values};
use doc_types::vpd::{Vpd, VpdPlace};
use packed_values::{Encode, Input, decode_fields, encode_fields};
use std::alloc::Global;

/// How a value of `Module` is encoded.
pub struct ModuleEncoding;

impl Encode for ModuleEncoding {
    type Value = Module;

    ghost encoding = { module_encoding };

    #[tactic(auto, unfolding(crate::specs::Made::module_encoding))]
    fn encode(value: &Module, out: &mut Vec<u8>) -> Result<(), WantOfMemory> {
        encode_fields!(value, out; arch: ArchEncoding, inf: Path)
    }

    #[tactic(auto, unfolding(crate::specs::Made::module_encoding), using(packed_values::proofs::WhereLemmas::unread_by))]
    fn decode(alloc: Global, input: &mut Input) -> Result<Option<Module>, WantOfMemory> {
        decode_fields!(Module, alloc, input; arch: ArchEncoding, inf: Path)
    }
}

/// How a value of `Call` is encoded.
pub(crate) struct CallEncoding;

impl Encode for CallEncoding {
    type Value = Call;

    ghost encoding = { call_encoding };

    #[tactic(auto, unfolding(crate::specs::Made::call_encoding))]
    fn encode(value: &Call, out: &mut Vec<u8>) -> Result<(), WantOfMemory> {
        encode_fields!(value, out; inf: Path, name: Text)
    }

    #[tactic(auto, unfolding(crate::specs::Made::call_encoding), using(packed_values::proofs::WhereLemmas::unread_by))]
    fn decode(alloc: Global, input: &mut Input) -> Result<Option<Call>, WantOfMemory> {
        decode_fields!(Call, alloc, input; inf: Path, name: Text)
    }
}

/// How a value of `Choice` is encoded.
pub struct ChoiceEncoding;

impl Encode for ChoiceEncoding {
    type Value = Choice;

    ghost encoding = { choice_encoding };

    #[tactic(auto, unfolding(crate::specs::Made::choice_encoding))]
    fn encode(value: &Choice, out: &mut Vec<u8>) -> Result<(), WantOfMemory> {
        encode_fields!(value, out; library: bool, instances: Rows<Path>, constructors: Rows<CallEncoding>, destructors: Rows<CallEncoding>)
    }

    #[tactic(auto, unfolding(crate::specs::Made::choice_encoding), using(packed_values::proofs::WhereLemmas::unread_by))]
    fn decode(alloc: Global, input: &mut Input) -> Result<Option<Choice>, WantOfMemory> {
        decode_fields!(Choice, alloc, input; library: bool, instances: Rows<Path>, constructors: Rows<CallEncoding>, destructors: Rows<CallEncoding>)
    }
}

/// How a value of `PcdRow` is encoded.
pub(crate) struct PcdRowEncoding;

type PcdRowFirst = (PcdNameEncoding, KindEncoding, DatumEncoding, u32);

type PcdRowSecond = (u32, u8, Text, Text);

type PcdRowGroups = (PcdRowFirst, PcdRowSecond);

// Adds its fields from `pcd` on.
#[tactic(auto, unfolding(crate::specs::Made::pcd_row_first_encoding, packed_values::specs::Parts::quadruple_encoding))]
fn encode_pcd_row_first(value: &PcdRow, out: &mut Vec<u8>) -> Result<(), WantOfMemory>
    ensures { OnOk result
        (IsAppended pcd_row_first_encoding out.old.items (pcd_row_first value.now) out.new.items) }
{
    encode_fields!(value, out; pcd: PcdNameEncoding, kind: KindEncoding, datum: DatumEncoding, token: u32)
}

// Adds its fields from `max` on.
#[tactic(auto, unfolding(crate::specs::Made::pcd_row_second_encoding, packed_values::specs::Parts::quadruple_encoding))]
fn encode_pcd_row_second(value: &PcdRow, out: &mut Vec<u8>) -> Result<(), WantOfMemory>
    ensures { OnOk result
        (IsAppended pcd_row_second_encoding out.old.items (pcd_row_second value.now)
        out.new.items) }
{
    encode_fields!(value, out; max: u32, rank: u8, sku: Text, value: Text)
}

// The record of all its fields.
fn join_pcd_row(groups: <PcdRowGroups as Encode>::Value) -> PcdRow
    ensures { result ≡ pcd_row_of groups }
{
    let (first, second) = groups;
    let (pcd, kind, datum, token) = first;
    let (max, rank, sku, value) = second;
    PcdRow {
        pcd,
        kind,
        datum,
        token,
        max,
        rank,
        sku,
        value,
    }
}

impl Encode for PcdRowEncoding {
    type Value = PcdRow;

    ghost encoding = { pcd_row_encoding };

    #[tactic(auto, unfolding(crate::specs::Made::pcd_row_encoding, packed_values::specs::Parts::pair_encoding))]
    fn encode(value: &PcdRow, out: &mut Vec<u8>) -> Result<(), WantOfMemory> {
        encode_pcd_row_first(value, out)?;
        encode_pcd_row_second(value, out)
    }

    #[tactic(auto, unfolding(crate::specs::Made::pcd_row_encoding, crate::specs::Made::pcd_row_first_encoding, crate::specs::Made::pcd_row_second_encoding), using(packed_values::proofs::WhereLemmas::unread_by))]
    fn decode(alloc: Global, input: &mut Input) -> Result<Option<PcdRow>, WantOfMemory> {
        match <PcdRowGroups>::decode(alloc, input)? {
            None => Ok(None),
            Some(groups) => Ok(Some(join_pcd_row(groups))),
        }
    }
}

/// How a value of `Values` is encoded.
pub struct ValuesEncoding;

impl Encode for ValuesEncoding {
    type Value = Values;

    ghost encoding = { values_encoding };

    #[tactic(auto, unfolding(crate::specs::Made::values_encoding))]
    fn encode(value: &Values, out: &mut Vec<u8>) -> Result<(), WantOfMemory> {
        encode_fields!(value, out; rows: PcdLinesEncoding<PcdRowEncoding>)
    }

    #[tactic(auto, unfolding(crate::specs::Made::values_encoding), using(packed_values::proofs::WhereLemmas::unread_by))]
    fn decode(alloc: Global, input: &mut Input) -> Result<Option<Values>, WantOfMemory> {
        decode_fields!(Values, alloc, input; rows: PcdLinesEncoding<PcdRowEncoding>)
    }
}

/// How a value of `Texts` is encoded.
pub struct TextsEncoding;

impl Encode for TextsEncoding {
    type Value = Texts;

    ghost encoding = { texts_encoding };

    #[tactic(auto, unfolding(crate::specs::Made::texts_encoding))]
    fn encode(value: &Texts, out: &mut Vec<u8>) -> Result<(), WantOfMemory> {
        encode_fields!(value, out; c: Text, h: Text)
    }

    #[tactic(auto, unfolding(crate::specs::Made::texts_encoding), using(packed_values::proofs::WhereLemmas::unread_by))]
    fn decode(alloc: Global, input: &mut Input) -> Result<Option<Texts>, WantOfMemory> {
        decode_fields!(Texts, alloc, input; c: Text, h: Text)
    }
}

/// How a value of `FileImage` is encoded.
pub struct FileImageEncoding;

impl Encode for FileImageEncoding {
    type Value = FileImage;

    ghost encoding = { file_image_encoding };

    #[tactic(auto, unfolding(crate::specs::Made::file_image_encoding))]
    fn encode(value: &FileImage, out: &mut Vec<u8>) -> Result<(), WantOfMemory> {
        encode_fields!(value, out; at: Place, guid: Guid, align: u32, bytes: Text)
    }

    #[tactic(auto, unfolding(crate::specs::Made::file_image_encoding), using(packed_values::proofs::WhereLemmas::unread_by))]
    fn decode(alloc: Global, input: &mut Input) -> Result<Option<FileImage>, WantOfMemory> {
        decode_fields!(FileImage, alloc, input; at: Place, guid: Guid, align: u32, bytes: Text)
    }
}

/// How a value of `VpdPlace` is encoded.
pub(crate) struct VpdPlaceEncoding;

impl Encode for VpdPlaceEncoding {
    type Value = VpdPlace;

    ghost encoding = { vpd_place_encoding };

    #[tactic(auto, unfolding(crate::specs::Made::vpd_place_encoding))]
    fn encode(value: &VpdPlace, out: &mut Vec<u8>) -> Result<(), WantOfMemory> {
        encode_fields!(value, out; pcd: PcdNameEncoding, sku: Text, offset: u32, size: u32)
    }

    #[tactic(auto, unfolding(crate::specs::Made::vpd_place_encoding), using(packed_values::proofs::WhereLemmas::unread_by))]
    fn decode(alloc: Global, input: &mut Input) -> Result<Option<VpdPlace>, WantOfMemory> {
        decode_fields!(VpdPlace, alloc, input; pcd: PcdNameEncoding, sku: Text, offset: u32, size: u32)
    }
}

/// How a value of `Vpd` is encoded.
pub struct VpdEncoding;

impl Encode for VpdEncoding {
    type Value = Vpd;

    ghost encoding = { vpd_encoding };

    #[tactic(auto, unfolding(crate::specs::Made::vpd_encoding))]
    fn encode(value: &Vpd, out: &mut Vec<u8>) -> Result<(), WantOfMemory> {
        encode_fields!(value, out; image: Text, map: Text, places: Rows<VpdPlaceEncoding>)
    }

    #[tactic(auto, unfolding(crate::specs::Made::vpd_encoding), using(packed_values::proofs::WhereLemmas::unread_by))]
    fn decode(alloc: Global, input: &mut Input) -> Result<Option<Vpd>, WantOfMemory> {
        decode_fields!(Vpd, alloc, input; image: Text, map: Text, places: Rows<VpdPlaceEncoding>)
    }
}
