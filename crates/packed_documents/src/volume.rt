//! Volumes as a flash description states them.
ghost use Rattle.std.specs.Prelude.{◌≡◌, ◌++◌, OnOk};
ghost use Rattle.packed_values.specs.Encoding.{IsAppended, IsRead, IsUnread};
ghost use Rattle.packed_documents.specs.Volume.{align_encoding, file_plan_first, file_plan_first_encoding, file_plan_encoding, file_plan_of, file_plan_second, file_plan_second_encoding, inf_line_first, inf_line_first_encoding, inf_line_encoding, inf_line_of, inf_line_second, inf_line_second_encoding, item_encoding, member_encoding, rule_doc_encoding, section_plan_first, section_plan_first_encoding, section_plan_encoding, section_plan_of, section_plan_second, section_plan_second_encoding, section_source_encoding, volume_head_first, volume_head_first_encoding, volume_head_encoding, volume_head_of, volume_head_second, volume_head_second_encoding, volume_head_third, volume_head_third_encoding, volume_plan_encoding};

use crate::words::{ArchEncoding, ModuleTypeEncoding};
use build_base::{Guid, Path, Place, Rows, Text, WantOfMemory};
use doc_types::volume::{
    Align, FilePlan, InfLine, Item, Member, RuleDoc, SectionPlan, SectionSource, VolumePlan,
};
use doc_types::volume_head::VolumeHead;
use packed_values::fields::{encode_four, encode_two};
use packed_values::plain::encode_byte;
use packed_values::{Encode, Input, decode_fields, encode_fields};
use std::alloc::Global;

/// How a value of `Align` is encoded.
pub(crate) struct AlignEncoding;

impl Encode for AlignEncoding {
    type Value = Align;

    ghost encoding = { align_encoding };

    #[tactic(auto, unfolding(crate::specs::Volume::align_encoding, packed_values::specs::Arms::tagged_encoding, packed_values::specs::Arms::arm, packed_values::specs::Arms::last_arm, packed_values::specs::Arms::unit_encoding, packed_values::specs::Plain::byte_encoding, packed_values::specs::Parts::pair_encoding))]
    fn encode(value: &Align, out: &mut Vec<u8>) -> Result<(), WantOfMemory> {
        match value {
            Align::Unset => encode_byte(0, out),
            Align::Auto => encode_byte(1, out),
            Align::Bytes(bytes) => encode_two::<u8, u32>(&2, bytes, out),
        }
    }

    #[tactic(auto, unfolding(crate::specs::Volume::align_encoding, packed_values::specs::Arms::tagged_encoding, packed_values::specs::Arms::arm, packed_values::specs::Arms::last_arm, packed_values::specs::Arms::unit_encoding, packed_values::specs::Plain::byte_encoding))]
    fn decode(alloc: Global, input: &mut Input) -> Result<Option<Align>, WantOfMemory> {
        match input.byte() {
            Some(0) => Ok(Some(Align::Unset)),
            Some(1) => Ok(Some(Align::Auto)),
            Some(2) => match u32::decode(alloc, input)? {
                None => Ok(None),
                Some(bytes) => Ok(Some(Align::Bytes(bytes))),
            },
            _ => Ok(None),
        }
    }
}

/// How a value of `SectionSource` is encoded.
pub(crate) struct SectionSourceEncoding;

impl Encode for SectionSourceEncoding {
    type Value = SectionSource;

    ghost encoding = { section_source_encoding };

    #[tactic(auto, unfolding(crate::specs::Volume::section_source_encoding, packed_values::specs::Arms::tagged_encoding, packed_values::specs::Arms::arm, packed_values::specs::Arms::last_arm, packed_values::specs::Plain::byte_encoding, packed_values::specs::Parts::pair_encoding))]
    fn encode(value: &SectionSource, out: &mut Vec<u8>) -> Result<(), WantOfMemory> {
        match value {
            SectionSource::Tree(path) => encode_two::<u8, Path>(&0, path, out),
            SectionSource::Template(text) => encode_two::<u8, Text>(&1, text, out),
            SectionSource::Volume(number) => encode_two::<u8, u32>(&2, number, out),
            SectionSource::Words(text) => encode_two::<u8, Text>(&3, text, out),
            SectionSource::Refused(text) => encode_two::<u8, Text>(&4, text, out),
        }
    }

    #[tactic(auto, unfolding(crate::specs::Volume::section_source_encoding, packed_values::specs::Arms::tagged_encoding, packed_values::specs::Arms::arm, packed_values::specs::Arms::last_arm, packed_values::specs::Plain::byte_encoding))]
    fn decode(alloc: Global, input: &mut Input) -> Result<Option<SectionSource>, WantOfMemory> {
        match input.byte() {
            Some(0) => match Path::decode(alloc, input)? {
                None => Ok(None),
                Some(path) => Ok(Some(SectionSource::Tree(path))),
            },
            Some(1) => match Text::decode(alloc, input)? {
                None => Ok(None),
                Some(text) => Ok(Some(SectionSource::Template(text))),
            },
            Some(2) => match u32::decode(alloc, input)? {
                None => Ok(None),
                Some(number) => Ok(Some(SectionSource::Volume(number))),
            },
            Some(3) => match Text::decode(alloc, input)? {
                None => Ok(None),
                Some(text) => Ok(Some(SectionSource::Words(text))),
            },
            Some(4) => match Text::decode(alloc, input)? {
                None => Ok(None),
                Some(text) => Ok(Some(SectionSource::Refused(text))),
            },
            _ => Ok(None),
        }
    }
}

/// How a value of `SectionPlan` is encoded.
pub(crate) struct SectionPlanEncoding;

type SectionPlanFirst = (Place, u8, bool, AlignEncoding);

type SectionPlanSecond = (u16, Option<Guid>, SectionSourceEncoding);

type SectionPlanGroups = (SectionPlanFirst, SectionPlanSecond);

// Adds its fields from `at` on.
#[tactic(auto, unfolding(crate::specs::Volume::section_plan_first_encoding, packed_values::specs::Parts::pair_encoding, packed_values::specs::Parts::quadruple_encoding))]
fn encode_section_plan_first(value: &SectionPlan, out: &mut Vec<u8>) -> Result<(), WantOfMemory>
    ensures { OnOk result
        (IsAppended section_plan_first_encoding out.old.items (section_plan_first value.now)
        out.new.items) }
{
    encode_fields!(value, out; at: Place, kind: u8, optional: bool, align: AlignEncoding)
}

// Adds its fields from `number` on.
#[tactic(auto, unfolding(crate::specs::Volume::section_plan_second_encoding, packed_values::specs::Parts::pair_encoding, packed_values::specs::Parts::triple_encoding))]
fn encode_section_plan_second(value: &SectionPlan, out: &mut Vec<u8>) -> Result<(), WantOfMemory>
    ensures { OnOk result
        (IsAppended section_plan_second_encoding out.old.items (section_plan_second value.now)
        out.new.items) }
{
    encode_fields!(value, out; number: u16, guid: Option<Guid>, source: SectionSourceEncoding)
}

// The record of all its fields.
fn join_section_plan(groups: <SectionPlanGroups as Encode>::Value) -> SectionPlan
    ensures { result ≡ section_plan_of groups }
{
    let (first, second) = groups;
    let (at, kind, optional, align) = first;
    let (number, guid, source) = second;
    SectionPlan {
        at,
        kind,
        optional,
        align,
        number,
        guid,
        source,
    }
}

impl Encode for SectionPlanEncoding {
    type Value = SectionPlan;

    ghost encoding = { section_plan_encoding };

    #[tactic(auto, unfolding(crate::specs::Volume::section_plan_encoding, packed_values::specs::Parts::pair_encoding))]
    fn encode(value: &SectionPlan, out: &mut Vec<u8>) -> Result<(), WantOfMemory> {
        encode_section_plan_first(value, out)?;
        encode_section_plan_second(value, out)
    }

    #[tactic(auto, unfolding(crate::specs::Volume::section_plan_encoding, crate::specs::Volume::section_plan_first_encoding, crate::specs::Volume::section_plan_second_encoding), using(packed_values::proofs::WhereLemmas::unread_by))]
    fn decode(alloc: Global, input: &mut Input) -> Result<Option<SectionPlan>, WantOfMemory> {
        match <SectionPlanGroups>::decode(alloc, input)? {
            None => Ok(None),
            Some(groups) => Ok(Some(join_section_plan(groups))),
        }
    }
}

/// How a value of `FilePlan` is encoded.
pub(crate) struct FilePlanEncoding;

type FilePlanFirst = (Place, u8, Option<Guid>, bool);

type FilePlanSecond = (bool, AlignEncoding, Option<Path>, Rows<SectionPlanEncoding>);

type FilePlanGroups = (FilePlanFirst, FilePlanSecond);

// Adds its fields from `at` on.
#[tactic(auto, unfolding(crate::specs::Volume::file_plan_first_encoding, packed_values::specs::Parts::pair_encoding, packed_values::specs::Parts::quadruple_encoding))]
fn encode_file_plan_first(value: &FilePlan, out: &mut Vec<u8>) -> Result<(), WantOfMemory>
    ensures { OnOk result
        (IsAppended file_plan_first_encoding out.old.items (file_plan_first value.now)
        out.new.items) }
{
    encode_fields!(value, out; at: Place, file_type: u8, guid: Option<Guid>, fixed: bool)
}

// Adds its fields from `checksum` on.
#[tactic(auto, unfolding(crate::specs::Volume::file_plan_second_encoding, packed_values::specs::Parts::pair_encoding, packed_values::specs::Parts::quadruple_encoding))]
fn encode_file_plan_second(value: &FilePlan, out: &mut Vec<u8>) -> Result<(), WantOfMemory>
    ensures { OnOk result
        (IsAppended file_plan_second_encoding out.old.items (file_plan_second value.now)
        out.new.items) }
{
    encode_fields!(value, out; checksum: bool, align: AlignEncoding, whole: Option<Path>, sections: Rows<SectionPlanEncoding>)
}

// The record of all its fields.
fn join_file_plan(groups: <FilePlanGroups as Encode>::Value) -> FilePlan
    ensures { result ≡ file_plan_of groups }
{
    let (first, second) = groups;
    let (at, file_type, guid, fixed) = first;
    let (checksum, align, whole, sections) = second;
    FilePlan {
        at,
        file_type,
        guid,
        fixed,
        checksum,
        align,
        whole,
        sections,
    }
}

impl Encode for FilePlanEncoding {
    type Value = FilePlan;

    ghost encoding = { file_plan_encoding };

    #[tactic(auto, unfolding(crate::specs::Volume::file_plan_encoding, packed_values::specs::Parts::pair_encoding))]
    fn encode(value: &FilePlan, out: &mut Vec<u8>) -> Result<(), WantOfMemory> {
        encode_file_plan_first(value, out)?;
        encode_file_plan_second(value, out)
    }

    #[tactic(auto, unfolding(crate::specs::Volume::file_plan_encoding, crate::specs::Volume::file_plan_first_encoding, crate::specs::Volume::file_plan_second_encoding), using(packed_values::proofs::WhereLemmas::unread_by))]
    fn decode(alloc: Global, input: &mut Input) -> Result<Option<FilePlan>, WantOfMemory> {
        match <FilePlanGroups>::decode(alloc, input)? {
            None => Ok(None),
            Some(groups) => Ok(Some(join_file_plan(groups))),
        }
    }
}

/// How a value of `InfLine` is encoded.
pub(crate) struct InfLineEncoding;

type InfLineFirst = (Place, Path, Option<ArchEncoding>);

type InfLineSecond = (Text, Option<Text>, Option<Text>);

type InfLineGroups = (InfLineFirst, InfLineSecond);

// Adds its fields from `at` on.
#[tactic(auto, unfolding(crate::specs::Volume::inf_line_first_encoding, packed_values::specs::Parts::pair_encoding, packed_values::specs::Parts::triple_encoding))]
fn encode_inf_line_first(value: &InfLine, out: &mut Vec<u8>) -> Result<(), WantOfMemory>
    ensures { OnOk result
        (IsAppended inf_line_first_encoding out.old.items (inf_line_first value.now)
        out.new.items) }
{
    encode_fields!(value, out; at: Place, inf: Path, arch: Option<ArchEncoding>)
}

// Adds its fields from `template` on.
#[tactic(auto, unfolding(crate::specs::Volume::inf_line_second_encoding, packed_values::specs::Parts::pair_encoding, packed_values::specs::Parts::triple_encoding))]
fn encode_inf_line_second(value: &InfLine, out: &mut Vec<u8>) -> Result<(), WantOfMemory>
    ensures { OnOk result
        (IsAppended inf_line_second_encoding out.old.items (inf_line_second value.now)
        out.new.items) }
{
    encode_fields!(value, out; template: Text, version: Option<Text>, ui: Option<Text>)
}

// The record of all its fields.
fn join_inf_line(groups: <InfLineGroups as Encode>::Value) -> InfLine
    ensures { result ≡ inf_line_of groups }
{
    let (first, second) = groups;
    let (at, inf, arch) = first;
    let (template, version, ui) = second;
    InfLine {
        at,
        inf,
        arch,
        template,
        version,
        ui,
    }
}

impl Encode for InfLineEncoding {
    type Value = InfLine;

    ghost encoding = { inf_line_encoding };

    #[tactic(auto, unfolding(crate::specs::Volume::inf_line_encoding, packed_values::specs::Parts::pair_encoding))]
    fn encode(value: &InfLine, out: &mut Vec<u8>) -> Result<(), WantOfMemory> {
        encode_inf_line_first(value, out)?;
        encode_inf_line_second(value, out)
    }

    #[tactic(auto, unfolding(crate::specs::Volume::inf_line_encoding, crate::specs::Volume::inf_line_first_encoding, crate::specs::Volume::inf_line_second_encoding), using(packed_values::proofs::WhereLemmas::unread_by))]
    fn decode(alloc: Global, input: &mut Input) -> Result<Option<InfLine>, WantOfMemory> {
        match <InfLineGroups>::decode(alloc, input)? {
            None => Ok(None),
            Some(groups) => Ok(Some(join_inf_line(groups))),
        }
    }
}

/// How a value of `Member` is encoded.
pub(crate) struct MemberEncoding;

impl Encode for MemberEncoding {
    type Value = Member;

    ghost encoding = { member_encoding };

    #[tactic(auto, unfolding(crate::specs::Volume::member_encoding, packed_values::specs::Arms::tagged_encoding, packed_values::specs::Arms::arm, packed_values::specs::Arms::last_arm, packed_values::specs::Plain::byte_encoding, packed_values::specs::Parts::pair_encoding))]
    fn encode(value: &Member, out: &mut Vec<u8>) -> Result<(), WantOfMemory> {
        match value {
            Member::Inf(line) => encode_two::<u8, InfLineEncoding>(&0, line, out),
            Member::File(guid) => encode_two::<u8, Guid>(&1, guid, out),
        }
    }

    #[tactic(auto, unfolding(crate::specs::Volume::member_encoding, packed_values::specs::Arms::tagged_encoding, packed_values::specs::Arms::arm, packed_values::specs::Arms::last_arm, packed_values::specs::Plain::byte_encoding))]
    fn decode(alloc: Global, input: &mut Input) -> Result<Option<Member>, WantOfMemory> {
        match input.byte() {
            Some(0) => match InfLineEncoding::decode(alloc, input)? {
                None => Ok(None),
                Some(line) => Ok(Some(Member::Inf(line))),
            },
            Some(1) => match Guid::decode(alloc, input)? {
                None => Ok(None),
                Some(guid) => Ok(Some(Member::File(guid))),
            },
            _ => Ok(None),
        }
    }
}

/// How a value of `Item` is encoded.
pub(crate) struct ItemEncoding;

impl Encode for ItemEncoding {
    type Value = Item;

    ghost encoding = { item_encoding };

    #[tactic(auto, unfolding(crate::specs::Volume::item_encoding, packed_values::specs::Arms::tagged_encoding, packed_values::specs::Arms::arm, packed_values::specs::Arms::last_arm, packed_values::specs::Plain::byte_encoding, packed_values::specs::Parts::pair_encoding))]
    fn encode(value: &Item, out: &mut Vec<u8>) -> Result<(), WantOfMemory> {
        match value {
            Item::Apriori { at, pei, members } => {
                encode_four::<u8, Place, bool, Rows<MemberEncoding>>(&0, at, pei, members, out)
            }
            Item::File(file) => encode_two::<u8, FilePlanEncoding>(&1, file, out),
            Item::Inf(line) => encode_two::<u8, InfLineEncoding>(&2, line, out),
        }
    }

    #[tactic(auto, unfolding(crate::specs::Volume::item_encoding, packed_values::specs::Arms::tagged_encoding, packed_values::specs::Arms::arm, packed_values::specs::Arms::last_arm, packed_values::specs::Plain::byte_encoding))]
    fn decode(alloc: Global, input: &mut Input) -> Result<Option<Item>, WantOfMemory> {
        match input.byte() {
            Some(0) => match <(Place, (bool, Rows<MemberEncoding>))>::decode(alloc, input)? {
                None => Ok(None),
                Some((at, (pei, members))) => Ok(Some(Item::Apriori { at, pei, members })),
            },
            Some(1) => match FilePlanEncoding::decode(alloc, input)? {
                None => Ok(None),
                Some(file) => Ok(Some(Item::File(file))),
            },
            Some(2) => match InfLineEncoding::decode(alloc, input)? {
                None => Ok(None),
                Some(line) => Ok(Some(Item::Inf(line))),
            },
            _ => Ok(None),
        }
    }
}

/// How a value of `RuleDoc` is encoded.
pub(crate) struct RuleDocEncoding;

impl Encode for RuleDocEncoding {
    type Value = RuleDoc;

    ghost encoding = { rule_doc_encoding };

    #[tactic(auto, unfolding(crate::specs::Volume::rule_doc_encoding, packed_values::specs::Parts::pair_encoding))]
    fn encode(value: &RuleDoc, out: &mut Vec<u8>) -> Result<(), WantOfMemory> {
        encode_fields!(value, out; at: Place, arch: ArchEncoding, module_type: ModuleTypeEncoding, template: Text, file: FilePlanEncoding)
    }

    #[tactic(auto, unfolding(crate::specs::Volume::rule_doc_encoding), using(packed_values::proofs::WhereLemmas::unread_by))]
    fn decode(alloc: Global, input: &mut Input) -> Result<Option<RuleDoc>, WantOfMemory> {
        decode_fields!(RuleDoc, alloc, input; at: Place, arch: ArchEncoding, module_type: ModuleTypeEncoding, template: Text, file: FilePlanEncoding)
    }
}

/// How a value of `VolumeHead` is encoded.
pub(crate) struct VolumeHeadEncoding;

type VolumeHeadFirst = (Place, Text, u32, u8);

type VolumeHeadSecond = (u64, Option<u64>, Option<Guid>);

type VolumeHeadThird = (Option<u64>, bool, bool);

type VolumeHeadGroups = (VolumeHeadFirst, VolumeHeadSecond, VolumeHeadThird);

// Adds its fields from `at` on.
#[tactic(auto, unfolding(crate::specs::Volume::volume_head_first_encoding, packed_values::specs::Parts::pair_encoding, packed_values::specs::Parts::quadruple_encoding))]
fn encode_volume_head_first(value: &VolumeHead, out: &mut Vec<u8>) -> Result<(), WantOfMemory>
    ensures { OnOk result
        (IsAppended volume_head_first_encoding out.old.items (volume_head_first value.now)
        out.new.items) }
{
    encode_fields!(value, out; at: Place, name: Text, attributes: u32, erase: u8)
}

// Adds its fields from `block_size` on.
#[tactic(auto, unfolding(crate::specs::Volume::volume_head_second_encoding, packed_values::specs::Parts::pair_encoding, packed_values::specs::Parts::triple_encoding))]
fn encode_volume_head_second(value: &VolumeHead, out: &mut Vec<u8>) -> Result<(), WantOfMemory>
    ensures { OnOk result
        (IsAppended volume_head_second_encoding out.old.items (volume_head_second value.now)
        out.new.items) }
{
    encode_fields!(value, out; block_size: u64, size: Option<u64>, name_guid: Option<Guid>)
}

// Adds its fields from `base` on.
#[tactic(auto, unfolding(crate::specs::Volume::volume_head_third_encoding, packed_values::specs::Parts::pair_encoding, packed_values::specs::Parts::triple_encoding))]
fn encode_volume_head_third(value: &VolumeHead, out: &mut Vec<u8>) -> Result<(), WantOfMemory>
    ensures { OnOk result
        (IsAppended volume_head_third_encoding out.old.items (volume_head_third value.now)
        out.new.items) }
{
    encode_fields!(value, out; base: Option<u64>, force: bool, ffs3: bool)
}

// The record of all its fields.
fn join_volume_head(groups: <VolumeHeadGroups as Encode>::Value) -> VolumeHead
    ensures { result ≡ volume_head_of groups }
{
    let (first, second, third) = groups;
    let (at, name, attributes, erase) = first;
    let (block_size, size, name_guid) = second;
    let (base, force, ffs3) = third;
    VolumeHead {
        at,
        name,
        attributes,
        erase,
        block_size,
        size,
        name_guid,
        base,
        force,
        ffs3,
    }
}

impl Encode for VolumeHeadEncoding {
    type Value = VolumeHead;

    ghost encoding = { volume_head_encoding };

    #[tactic(auto, unfolding(crate::specs::Volume::volume_head_encoding, packed_values::specs::Parts::pair_encoding, packed_values::specs::Parts::triple_encoding))]
    fn encode(value: &VolumeHead, out: &mut Vec<u8>) -> Result<(), WantOfMemory> {
        encode_volume_head_first(value, out)?;
        encode_volume_head_second(value, out)?;
        encode_volume_head_third(value, out)
    }

    #[tactic(auto, unfolding(crate::specs::Volume::volume_head_encoding, crate::specs::Volume::volume_head_first_encoding, crate::specs::Volume::volume_head_second_encoding, crate::specs::Volume::volume_head_third_encoding), using(packed_values::proofs::WhereLemmas::unread_by))]
    fn decode(alloc: Global, input: &mut Input) -> Result<Option<VolumeHead>, WantOfMemory> {
        match <VolumeHeadGroups>::decode(alloc, input)? {
            None => Ok(None),
            Some(groups) => Ok(Some(join_volume_head(groups))),
        }
    }
}

/// How a value of `VolumePlan` is encoded.
pub(crate) struct VolumePlanEncoding;

impl Encode for VolumePlanEncoding {
    type Value = VolumePlan;

    ghost encoding = { volume_plan_encoding };

    #[tactic(auto, unfolding(crate::specs::Volume::volume_plan_encoding, packed_values::specs::Parts::pair_encoding))]
    fn encode(value: &VolumePlan, out: &mut Vec<u8>) -> Result<(), WantOfMemory> {
        encode_fields!(value, out; head: VolumeHeadEncoding, items: Rows<ItemEncoding>)
    }

    #[tactic(auto, unfolding(crate::specs::Volume::volume_plan_encoding), using(packed_values::proofs::WhereLemmas::unread_by))]
    fn decode(alloc: Global, input: &mut Input) -> Result<Option<VolumePlan>, WantOfMemory> {
        decode_fields!(VolumePlan, alloc, input; head: VolumeHeadEncoding, items: Rows<ItemEncoding>)
    }
}
