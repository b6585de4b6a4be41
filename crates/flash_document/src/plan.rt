//! The plans of devices and volumes, where volumes have numbers.
ghost use Rattle.std.specs.Prelude.{◌≡◌, ◌++◌, ℕ, ◌<◌, List, IfOk, OnOk, map, unwrap_or};
ghost use Rattle.std.specs.List.{flat_map};
ghost use Rattle.flash_document.specs.declared.held.HeldRegion.{HeldRegion as Part};
ghost use Rattle.doc_types.specs.declared.volume.SectionSource.TheVariants as source;
ghost use Rattle.flash_document.specs.Names.{Places};
ghost use Rattle.flash_document.specs.Held.{Sizes};
ghost use Rattle.flash_document.specs.Document.{kind_numbered, content_kind, region_kind, region_plan, polarity_of, device_plan, part_device, part_rule, body_source, section_plan, file_plan, item_plan, exponent, erase_flag, attributes_of, head_plan, volume_plan};

use crate::check::{block_of, size_of};
use crate::held::{HeldSizes, held_in};
use crate::names::place_in;
use crate::stated::{
    FdfSection, FdfStatement, StatedDevice, StatedFile, StatedRegion, StatedVolume,
};
use build_base::{Rows, Same, WantOfMemory};
use doc_types::flash::{DevicePlan, Region, RegionKind};
use doc_types::volume::{FilePlan, Item, RuleDoc, SectionPlan, SectionSource, VolumePlan};
use doc_types::volume_head::VolumeHead;
use fdf_words::rows::{Content, RegionContent, SectionBody, SectionLine};
use indexmap::IndexMap;
use std::alloc::Global;

// A number past 32 bits can't be had: there are at most 65,535 volumes.
fn kind_numbered(number: Option<usize>) -> Result<RegionKind, WantOfMemory>
    ensures { IfOk result (λ k. k ≡ kind_numbered number) }
{
    match number {
        Some(number) => match u32::try_from(number) {
            Ok(number) => Ok(RegionKind::Volume(number)),
            Err(_) => Err(WantOfMemory),
        },
        None => Ok(RegionKind::Empty),
    }
}

fn content_kind(
    alloc: Global,
    table: &IndexMap<Vec<u8>, usize>,
    content: &Content,
) -> Result<RegionKind, WantOfMemory>
    ensures { (names : List (List ℕ)) → Places names table.now
        → IfOk result (λ k. k ≡ content_kind names content.now) }
{
    match content {
        Content::Volume(name) => kind_numbered(place_in(alloc, table, name.bytes())?),
        Content::Tree(path) => Ok(RegionKind::Tree(path.copy(alloc)?)),
        Content::Bytes(bytes) => Ok(RegionKind::Bytes(bytes.copy(alloc)?)),
    }
}

fn region_kind(
    alloc: Global,
    table: &IndexMap<Vec<u8>, usize>,
    content: &Option<RegionContent>,
) -> Result<RegionKind, WantOfMemory>
    ensures { (names : List (List ℕ)) → Places names table.now
        → IfOk result (λ k. k ≡ region_kind names content.now) }
{
    match content {
        Some(stated) => content_kind(alloc, table, &stated.content),
        None => Ok(RegionKind::Empty),
    }
}

fn region_plan(
    alloc: Global,
    table: &IndexMap<Vec<u8>, usize>,
    region: &StatedRegion,
) -> Result<Region, WantOfMemory>
    ensures { (names : List (List ℕ)) → Places names table.now
        → IfOk result (λ r. r ≡ region_plan names region.now) }
{
    let kind = region_kind(alloc, table, &region.content)?;
    Ok(Region {
        at: region.at.copy(alloc)?,
        offset: region.offset,
        size: region.size,
        kind,
    })
}

fn region_plans(
    alloc: Global,
    table: &IndexMap<Vec<u8>, usize>,
    regions: &[StatedRegion],
) -> Result<Rows<Region>, WantOfMemory>
    ensures { (names : List (List ℕ)) → Places names table.now
        → IfOk result (λ rows. rows ≡ map (region_plan names) regions.now) }
{
    let mut plans = Rows::new(alloc);
    let mut left = regions;
    while let [region, rest @ ..] = left {
        plans.push(region_plan(alloc, table, region)?)?;
        left = rest;
    }
    Ok(plans)
}

fn polarity_of(stated: Option<u64>) -> u8
    ensures { result ≡ polarity_of stated }
{
    if stated.unwrap_or(1) == 0 { 0 } else { 1 }
}

fn device_plan(
    alloc: Global,
    table: &IndexMap<Vec<u8>, usize>,
    device: &StatedDevice,
) -> Result<DevicePlan, WantOfMemory>
    ensures { (names : List (List ℕ)) → Places names table.now
        → IfOk result (λ d. d ≡ device_plan names device.now) }
{
    let regions = region_plans(alloc, table, device.regions.items())?;
    Ok(DevicePlan {
        at: device.at.copy(alloc)?,
        name: device.name.copy(alloc)?,
        base: device.base.unwrap_or(0),
        size: device.size.unwrap_or(0),
        erase: polarity_of(device.erase),
        regions,
    })
}

fn push_device(
    alloc: Global,
    table: &IndexMap<Vec<u8>, usize>,
    devices: &mut Rows<DevicePlan>,
    part: &FdfSection,
) -> Result<(), WantOfMemory>
    ensures { (names : List (List ℕ)) → Places names table.now
        → OnOk result (devices.new ≡ devices.old ++ part_device names part.now) }
{
    match part {
        FdfSection::Device(device) => devices.push(device_plan(alloc, table, device)?),
        _ => Ok(()),
    }
}

/// The devices.
pub(crate) fn device_plans(
    alloc: Global,
    table: &IndexMap<Vec<u8>, usize>,
    parts: &[FdfSection],
) -> Result<Rows<DevicePlan>, WantOfMemory>
    ensures { (names : List (List ℕ)) → Places names table.now
        → IfOk result (λ rows. rows ≡ flat_map (part_device names) parts.now) }
{
    let mut devices = Rows::new(alloc);
    let mut left = parts;
    while let [part, rest @ ..] = left {
        push_device(alloc, table, &mut devices, part)?;
        left = rest;
    }
    Ok(devices)
}

/// The rules.
pub(crate) fn rules_of(alloc: Global, parts: &[FdfSection]) -> Result<Rows<RuleDoc>, WantOfMemory>
    ensures { IfOk result (λ rows. rows ≡ flat_map part_rule parts.now) }
{
    let mut rules = Rows::new(alloc);
    let mut left = parts;
    while let [part, rest @ ..] = left {
        if let FdfSection::Rule(stated) = part {
            rules.push(stated.rule.copy(alloc)?)?;
        }
        left = rest;
    }
    Ok(rules)
}

fn volume_source(number: Option<usize>) -> Result<SectionSource, WantOfMemory>
    ensures { IfOk result (λ s. s ≡ source.Volume (unwrap_or number 0)) }
{
    match u32::try_from(number.unwrap_or(0)) {
        Ok(number) => Ok(SectionSource::Volume(number)),
        Err(_) => Err(WantOfMemory),
    }
}

fn body_source(
    alloc: Global,
    table: &IndexMap<Vec<u8>, usize>,
    body: &SectionBody,
) -> Result<SectionSource, WantOfMemory>
    ensures { (names : List (List ℕ)) → Places names table.now
        → IfOk result (λ s. s ≡ body_source names body.now) }
{
    match body {
        SectionBody::Tree(path) => Ok(SectionSource::Tree(path.copy(alloc)?)),
        SectionBody::Volume(name) => volume_source(place_in(alloc, table, name.bytes())?),
        SectionBody::Words(text) => Ok(SectionSource::Words(text.copy(alloc)?)),
    }
}

fn section_plan(
    alloc: Global,
    table: &IndexMap<Vec<u8>, usize>,
    section: &SectionLine,
) -> Result<SectionPlan, WantOfMemory>
    ensures { (names : List (List ℕ)) → Places names table.now
        → IfOk result (λ s. s ≡ section_plan names section.now) }
{
    let source = body_source(alloc, table, &section.body)?;
    Ok(SectionPlan {
        at: section.at.copy(alloc)?,
        kind: section.kind,
        optional: false,
        align: section.align,
        number: 0,
        guid: section.guid,
        source,
    })
}

fn section_plans(
    alloc: Global,
    table: &IndexMap<Vec<u8>, usize>,
    sections: &[SectionLine],
) -> Result<Rows<SectionPlan>, WantOfMemory>
    ensures { (names : List (List ℕ)) → Places names table.now
        → IfOk result (λ rows. rows ≡ map (section_plan names) sections.now) }
{
    let mut plans = Rows::new(alloc);
    let mut left = sections;
    while let [section, rest @ ..] = left {
        plans.push(section_plan(alloc, table, section)?)?;
        left = rest;
    }
    Ok(plans)
}

fn file_plan(
    alloc: Global,
    table: &IndexMap<Vec<u8>, usize>,
    file: &StatedFile,
) -> Result<FilePlan, WantOfMemory>
    ensures { (names : List (List ℕ)) → Places names table.now
        → IfOk result (λ f. f ≡ file_plan names file.now) }
{
    let sections = section_plans(alloc, table, file.sections.items())?;
    Ok(FilePlan {
        at: file.head.at.copy(alloc)?,
        file_type: file.head.file_type,
        guid: file.head.guid,
        fixed: file.head.fixed,
        checksum: file.head.checksum,
        align: file.head.align,
        whole: file.whole.copy(alloc)?,
        sections,
    })
}

fn item_plan(
    alloc: Global,
    table: &IndexMap<Vec<u8>, usize>,
    item: &FdfStatement,
) -> Result<Item, WantOfMemory>
    ensures { (names : List (List ℕ)) → Places names table.now
        → IfOk result (λ i. i ≡ item_plan names item.now) }
{
    match item {
        FdfStatement::Apriori { at, pei, members } => Ok(Item::Apriori {
            at: at.copy(alloc)?,
            pei: *pei,
            members: members.copy(alloc)?,
        }),
        FdfStatement::File(file) => Ok(Item::File(file_plan(alloc, table, file)?)),
        FdfStatement::Inf(line) => Ok(Item::Inf(line.copy(alloc)?)),
    }
}

fn item_plans(
    alloc: Global,
    table: &IndexMap<Vec<u8>, usize>,
    items: &[FdfStatement],
) -> Result<Rows<Item>, WantOfMemory>
    ensures { (names : List (List ℕ)) → Places names table.now
        → IfOk result (λ rows. rows ≡ map (item_plan names) items.now) }
{
    let mut plans = Rows::new(alloc);
    let mut left = items;
    while let [item, rest @ ..] = left {
        plans.push(item_plan(alloc, table, item)?)?;
        left = rest;
    }
    Ok(plans)
}

fn exponent_in(alignment: u64) -> u32
    ensures value { result ≡ exponent alignment }
    ensures bound { result < 64 }
{
    if alignment == 0 {
        return 0;
    }
    alignment.ilog2()
}

fn erase_flag(erase: u8) -> u32
    ensures { result ≡ erase_flag erase }
{
    if erase == 0 { 0 } else { 0x800 }
}

fn attributes_of(volume: &StatedVolume) -> u32
    ensures { result ≡ attributes_of volume.now }
{
    let erase = erase_flag(polarity_of(volume.erase));
    let alignment = exponent_in(volume.alignment.unwrap_or(1)) * 0x1_0000;
    volume.flags | erase | alignment
}

fn head_plan(
    alloc: Global,
    volume: &StatedVolume,
    held: Option<HeldSizes>,
) -> Result<VolumeHead, WantOfMemory>
    ensures { IfOk result (λ h. h ≡ head_plan volume.now held) }
{
    Ok(VolumeHead {
        at: volume.at.copy(alloc)?,
        name: volume.name.copy(alloc)?,
        attributes: attributes_of(volume),
        erase: polarity_of(volume.erase),
        block_size: block_of(volume, held),
        size: size_of(volume, held),
        name_guid: volume.name_guid,
        base: volume.base,
        force: volume.force,
        ffs3: volume.ffs3,
    })
}

/// A volume.
pub(crate) fn volume_plan(
    alloc: Global,
    table: &IndexMap<Vec<u8>, usize>,
    sizes: &IndexMap<Vec<u8>, HeldSizes>,
    volume: &StatedVolume,
) -> Result<VolumePlan, WantOfMemory>
    ensures { (names : List (List ℕ)) (regions : List Part) → Places names table.now
        → Sizes regions sizes.now → IfOk result (λ p. p ≡ volume_plan names regions volume.now) }
{
    let items = item_plans(alloc, table, volume.items.items())?;
    let held = held_in(alloc, sizes, volume)?;
    Ok(VolumePlan {
        head: head_plan(alloc, volume, held)?,
        items,
    })
}
