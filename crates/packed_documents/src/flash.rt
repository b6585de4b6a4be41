//! Flash descriptions.
ghost use Rattle.std.specs.Prelude.{◌≡◌, ◌++◌, OnOk};
ghost use Rattle.packed_values.specs.Encoding.{IsAppended, IsRead, IsUnread};
ghost use Rattle.packed_documents.specs.Flash.{device_plan_first, device_plan_first_encoding, device_plan_encoding, device_plan_of, device_plan_second, device_plan_second_encoding, flash_doc_encoding, region_encoding, region_kind_encoding};

use crate::pcds::{PcdLinesEncoding, PcdSetEncoding};
use crate::volume::{RuleDocEncoding, VolumePlanEncoding};
use build_base::{Path, Place, Rows, Text, WantOfMemory};
use doc_types::flash::{DevicePlan, FlashDoc, Region, RegionKind};
use packed_values::fields::encode_two;
use packed_values::plain::encode_byte;
use packed_values::{Encode, Input, decode_fields, encode_fields};
use std::alloc::Global;

/// How a value of `RegionKind` is encoded.
pub(crate) struct RegionKindEncoding;

impl Encode for RegionKindEncoding {
    type Value = RegionKind;

    ghost encoding = { region_kind_encoding };

    #[tactic(auto, unfolding(crate::specs::Flash::region_kind_encoding, packed_values::specs::Arms::tagged_encoding, packed_values::specs::Arms::arm, packed_values::specs::Arms::last_arm, packed_values::specs::Arms::unit_encoding, packed_values::specs::Plain::byte_encoding, packed_values::specs::Parts::pair_encoding))]
    fn encode(value: &RegionKind, out: &mut Vec<u8>) -> Result<(), WantOfMemory> {
        match value {
            RegionKind::Empty => encode_byte(0, out),
            RegionKind::Bytes(text) => encode_two::<u8, Text>(&1, text, out),
            RegionKind::Tree(path) => encode_two::<u8, Path>(&2, path, out),
            RegionKind::Volume(number) => encode_two::<u8, u32>(&3, number, out),
        }
    }

    #[tactic(auto, unfolding(crate::specs::Flash::region_kind_encoding, packed_values::specs::Arms::tagged_encoding, packed_values::specs::Arms::arm, packed_values::specs::Arms::last_arm, packed_values::specs::Arms::unit_encoding, packed_values::specs::Plain::byte_encoding))]
    fn decode(alloc: Global, input: &mut Input) -> Result<Option<RegionKind>, WantOfMemory> {
        match input.byte() {
            Some(0) => Ok(Some(RegionKind::Empty)),
            Some(1) => match Text::decode(alloc, input)? {
                None => Ok(None),
                Some(text) => Ok(Some(RegionKind::Bytes(text))),
            },
            Some(2) => match Path::decode(alloc, input)? {
                None => Ok(None),
                Some(path) => Ok(Some(RegionKind::Tree(path))),
            },
            Some(3) => match u32::decode(alloc, input)? {
                None => Ok(None),
                Some(number) => Ok(Some(RegionKind::Volume(number))),
            },
            _ => Ok(None),
        }
    }
}

/// How a value of `Region` is encoded.
pub(crate) struct RegionEncoding;

impl Encode for RegionEncoding {
    type Value = Region;

    ghost encoding = { region_encoding };

    #[tactic(auto, unfolding(crate::specs::Flash::region_encoding, packed_values::specs::Parts::pair_encoding))]
    fn encode(value: &Region, out: &mut Vec<u8>) -> Result<(), WantOfMemory> {
        encode_fields!(value, out; at: Place, offset: u64, size: u64, kind: RegionKindEncoding)
    }

    #[tactic(auto, unfolding(crate::specs::Flash::region_encoding), using(packed_values::proofs::WhereLemmas::unread_by))]
    fn decode(alloc: Global, input: &mut Input) -> Result<Option<Region>, WantOfMemory> {
        decode_fields!(Region, alloc, input; at: Place, offset: u64, size: u64, kind: RegionKindEncoding)
    }
}

/// How a value of `DevicePlan` is encoded.
pub(crate) struct DevicePlanEncoding;

type DevicePlanFirst = (Place, Text, u64);

type DevicePlanSecond = (u64, u8, Rows<RegionEncoding>);

type DevicePlanGroups = (DevicePlanFirst, DevicePlanSecond);

// Adds its fields from `at` on.
#[tactic(auto, unfolding(crate::specs::Flash::device_plan_first_encoding, packed_values::specs::Parts::pair_encoding, packed_values::specs::Parts::triple_encoding))]
fn encode_device_plan_first(value: &DevicePlan, out: &mut Vec<u8>) -> Result<(), WantOfMemory>
    ensures { OnOk result
        (IsAppended device_plan_first_encoding out.old.items (device_plan_first value.now)
        out.new.items) }
{
    encode_fields!(value, out; at: Place, name: Text, base: u64)
}

// Adds its fields from `size` on.
#[tactic(auto, unfolding(crate::specs::Flash::device_plan_second_encoding, packed_values::specs::Parts::pair_encoding, packed_values::specs::Parts::triple_encoding))]
fn encode_device_plan_second(value: &DevicePlan, out: &mut Vec<u8>) -> Result<(), WantOfMemory>
    ensures { OnOk result
        (IsAppended device_plan_second_encoding out.old.items (device_plan_second value.now)
        out.new.items) }
{
    encode_fields!(value, out; size: u64, erase: u8, regions: Rows<RegionEncoding>)
}

// The record of all its fields.
fn join_device_plan(groups: <DevicePlanGroups as Encode>::Value) -> DevicePlan
    ensures { result ≡ device_plan_of groups }
{
    let (first, second) = groups;
    let (at, name, base) = first;
    let (size, erase, regions) = second;
    DevicePlan {
        at,
        name,
        base,
        size,
        erase,
        regions,
    }
}

impl Encode for DevicePlanEncoding {
    type Value = DevicePlan;

    ghost encoding = { device_plan_encoding };

    #[tactic(auto, unfolding(crate::specs::Flash::device_plan_encoding, packed_values::specs::Parts::pair_encoding))]
    fn encode(value: &DevicePlan, out: &mut Vec<u8>) -> Result<(), WantOfMemory> {
        encode_device_plan_first(value, out)?;
        encode_device_plan_second(value, out)
    }

    #[tactic(auto, unfolding(crate::specs::Flash::device_plan_encoding, crate::specs::Flash::device_plan_first_encoding, crate::specs::Flash::device_plan_second_encoding), using(packed_values::proofs::WhereLemmas::unread_by))]
    fn decode(alloc: Global, input: &mut Input) -> Result<Option<DevicePlan>, WantOfMemory> {
        match <DevicePlanGroups>::decode(alloc, input)? {
            None => Ok(None),
            Some(groups) => Ok(Some(join_device_plan(groups))),
        }
    }
}

/// How a value of `FlashDoc` is encoded.
pub struct FlashDocEncoding;

impl Encode for FlashDocEncoding {
    type Value = FlashDoc;

    ghost encoding = { flash_doc_encoding };

    #[tactic(auto, unfolding(crate::specs::Flash::flash_doc_encoding, packed_values::specs::Parts::pair_encoding))]
    fn encode(value: &FlashDoc, out: &mut Vec<u8>) -> Result<(), WantOfMemory> {
        encode_fields!(value, out; at: Place, sets: PcdLinesEncoding<PcdSetEncoding>, devices: Rows<DevicePlanEncoding>, volumes: Rows<VolumePlanEncoding>, rule_list: Rows<RuleDocEncoding>)
    }

    #[tactic(auto, unfolding(crate::specs::Flash::flash_doc_encoding), using(packed_values::proofs::WhereLemmas::unread_by))]
    fn decode(alloc: Global, input: &mut Input) -> Result<Option<FlashDoc>, WantOfMemory> {
        decode_fields!(FlashDoc, alloc, input; at: Place, sets: PcdLinesEncoding<PcdSetEncoding>, devices: Rows<DevicePlanEncoding>, volumes: Rows<VolumePlanEncoding>, rule_list: Rows<RuleDocEncoding>)
    }
}
