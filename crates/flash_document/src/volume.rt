//! A volume as its section states it.
ghost use Rattle.std.specs.Prelude.{◌≡◌, ◌++◌, IfOk, OnOk, IfSome, IfNone, Some, None};
ghost use Rattle.flash_document.specs.Columns.{row_at};
ghost use Rattle.fdf_words.specs.declared.rows.Row.TheVariants as row;
ghost use Rattle.flash_document.specs.declared.stated.FdfStatement.TheVariants as item;
ghost use Rattle.flash_document.specs.Volumes.{is_key, setting_of, last_setting, numbers, rebases, names, systems, is_on, flags_of, members_in, sections_in, whole_in, file_with, item_at, items_of, volume_of};

use crate::column::row_at;
use crate::stated::{FdfStatement, StatedFile, StatedVolume, head_copy, section_copy};
use build_base::{Guid, Path, Place, Rows, Same, Text, WantOfMemory};
use doc_types::volume::Member;
use fdf_words::rows::{
    AprioriHead, FileHead, LineRead, Row, SectionLine, VolumeKey, VolumeSetting,
};
use std::alloc::Global;

fn is_key(key: VolumeKey, other: VolumeKey) -> bool
    ensures { result ≡ is_key key other }
{
    match (key, other) {
        (VolumeKey::BlockSize, VolumeKey::BlockSize) => true,
        (VolumeKey::NumBlocks, VolumeKey::NumBlocks) => true,
        (VolumeKey::FvBaseAddress, VolumeKey::FvBaseAddress) => true,
        (VolumeKey::FvAlignment, VolumeKey::FvAlignment) => true,
        (VolumeKey::ErasePolarity, VolumeKey::ErasePolarity) => true,
        _ => false,
    }
}

// What a line sets below the head of a number.
fn setting_at(line: &LineRead, k: usize) -> Option<&VolumeSetting>
    ensures some { IfSome result (λ s. row_at k line.now ≡ Some (row.Setting s.now)) }
    ensures none { IfNone result (setting_of (row_at k line.now) ≡ None) }
{
    match row_at(line, k) {
        Some(Row::Setting(setting)) => Some(setting),
        _ => None,
    }
}

fn number_of(key: VolumeKey, k: usize, lines: &[LineRead]) -> Option<u64>
    ensures { result ≡ last_setting (numbers key) k lines.now }
{
    let mut found = None;
    let mut left = lines;
    while let [line, rest @ ..] = left {
        if let Some(VolumeSetting::Number { key: other, number }) = setting_at(line, k) {
            if is_key(*other, key) {
                found = Some(*number);
            }
        }
        left = rest;
    }
    found
}

fn is_on(k: usize, lines: &[LineRead], bits: u32) -> bool
    ensures { result ≡ is_on k lines.now bits }
{
    let mut found = None;
    let mut left = lines;
    while let [line, rest @ ..] = left {
        if let Some(VolumeSetting::Attribute { bits: other, on }) = setting_at(line, k) {
            if *other == bits {
                found = Some(*on);
            }
        }
        left = rest;
    }
    found.unwrap_or(false)
}

/// The attributes that may be stated (EFI_FVB_ATTRIBUTES_2), EFI_FVB2_READ_DISABLED_CAP to
/// EFI_FVB2_WEAK_ALIGNMENT.
const ATTRIBUTES: [u32; 15] = [
    0x1,
    0x2,
    0x4,
    0x8,
    0x10,
    0x20,
    0x40,
    0x80,
    0x200,
    0x400,
    0x1000,
    0x2000,
    0x4000,
    0x8000,
    0x8000_0000,
];

fn flags_of(k: usize, lines: &[LineRead]) -> u32
    ensures { result ≡ flags_of k lines.now }
{
    let mut flags = 0;
    let mut left = ATTRIBUTES.as_slice();
    while let [bits, rest @ ..] = left {
        if is_on(k, lines, *bits) {
            flags |= *bits;
        }
        left = rest;
    }
    flags
}

fn force_of(k: usize, lines: &[LineRead]) -> Option<bool>
    ensures { result ≡ last_setting rebases k lines.now }
{
    let mut found = None;
    let mut left = lines;
    while let [line, rest @ ..] = left {
        if let Some(VolumeSetting::ForceRebase(on)) = setting_at(line, k) {
            found = Some(*on);
        }
        left = rest;
    }
    found
}

fn name_of(k: usize, lines: &[LineRead]) -> Option<Guid>
    ensures { result ≡ last_setting names k lines.now }
{
    let mut found = None;
    let mut left = lines;
    while let [line, rest @ ..] = left {
        if let Some(VolumeSetting::NameGuid(guid)) = setting_at(line, k) {
            found = Some(*guid);
        }
        left = rest;
    }
    found
}

fn system_of(k: usize, lines: &[LineRead]) -> Option<bool>
    ensures { result ≡ last_setting systems k lines.now }
{
    let mut found = None;
    let mut left = lines;
    while let [line, rest @ ..] = left {
        if let Some(VolumeSetting::FileSystem { ffs3 }) = setting_at(line, k) {
            found = Some(*ffs3);
        }
        left = rest;
    }
    found
}

fn push_members(
    alloc: Global,
    members: &mut Rows<Member>,
    k: usize,
    lines: &[LineRead],
) -> Result<(), WantOfMemory>
    ensures { OnOk result (members.new ≡ members.old ++ members_in k lines.now) }
{
    let mut left = lines;
    while let [line, rest @ ..] = left {
        match row_at(line, k) {
            Some(Row::Closes) => return Ok(()),
            Some(Row::Member(member)) => members.push(member.copy(alloc)?)?,
            _ => {}
        }
        left = rest;
    }
    Ok(())
}

fn members_in(alloc: Global, k: usize, lines: &[LineRead]) -> Result<Rows<Member>, WantOfMemory>
    ensures { IfOk result (λ rows. rows ≡ members_in k lines.now) }
{
    let mut members = Rows::new(alloc);
    push_members(alloc, &mut members, k, lines)?;
    Ok(members)
}

fn push_sections(
    alloc: Global,
    sections: &mut Rows<SectionLine>,
    k: usize,
    lines: &[LineRead],
) -> Result<(), WantOfMemory>
    ensures { OnOk result (sections.new ≡ sections.old ++ sections_in k lines.now) }
{
    let mut left = lines;
    while let [line, rest @ ..] = left {
        match row_at(line, k) {
            Some(Row::Closes) => return Ok(()),
            Some(Row::Section(section)) => sections.push(section_copy(section, alloc)?)?,
            _ => {}
        }
        left = rest;
    }
    Ok(())
}

fn sections_in(
    alloc: Global,
    k: usize,
    lines: &[LineRead],
) -> Result<Rows<SectionLine>, WantOfMemory>
    ensures { IfOk result (λ rows. rows ≡ sections_in k lines.now) }
{
    let mut sections = Rows::new(alloc);
    push_sections(alloc, &mut sections, k, lines)?;
    Ok(sections)
}

fn whole_in(alloc: Global, k: usize, lines: &[LineRead]) -> Result<Option<Path>, WantOfMemory>
    ensures { IfOk result (λ path. path ≡ whole_in k lines.now) }
{
    let mut left = lines;
    while let [line, rest @ ..] = left {
        match row_at(line, k) {
            Some(Row::Closes) => return Ok(None),
            Some(Row::Whole(path)) => {
                let path = path.copy(alloc)?;
                return Ok(Some(path));
            }
            _ => left = rest,
        }
    }
    Ok(None)
}

fn file_with(
    alloc: Global,
    head: &FileHead,
    k: usize,
    lines: &[LineRead],
) -> Result<StatedFile, WantOfMemory>
    ensures { IfOk result (λ file. file ≡ file_with head.now k lines.now) }
{
    Ok(StatedFile {
        head: head_copy(head, alloc)?,
        whole: whole_in(alloc, k, lines)?,
        sections: sections_in(alloc, k, lines)?,
    })
}

fn apriori_with(
    alloc: Global,
    head: &AprioriHead,
    k: usize,
    lines: &[LineRead],
) -> Result<FdfStatement, WantOfMemory>
    ensures { IfOk result
        (λ made. made ≡ item.Apriori head.now.at head.now.pei (members_in k lines.now)) }
{
    Ok(FdfStatement::Apriori {
        at: head.at.copy(alloc)?,
        pei: head.pei,
        members: members_in(alloc, k, lines)?,
    })
}

// Adds the statement that begins in a line, with what stands in its braces.
fn push_item(
    alloc: Global,
    items: &mut Rows<FdfStatement>,
    k: usize,
    line: &LineRead,
    rest: &[LineRead],
) -> Result<(), WantOfMemory>
    ensures { OnOk result (items.new ≡ items.old ++ item_at (row_at k line.now) k rest.now) }
{
    match row_at(line, k) {
        Some(Row::Apriori(head)) => items.push(apriori_with(alloc, head, k, rest)?),
        Some(Row::File(head)) => items.push(FdfStatement::File(file_with(alloc, head, k, rest)?)),
        Some(Row::Inf(inf)) => items.push(FdfStatement::Inf(inf.copy(alloc)?)),
        _ => Ok(()),
    }
}

fn items_of(alloc: Global, k: usize, lines: &[LineRead]) -> Result<Rows<FdfStatement>, WantOfMemory>
    ensures { IfOk result (λ rows. rows ≡ items_of k lines.now) }
{
    let mut items = Rows::new(alloc);
    let mut left = lines;
    while let [line, rest @ ..] = left {
        push_item(alloc, &mut items, k, line, rest)?;
        left = rest;
    }
    Ok(items)
}

/// The volume that a section states below the head of a number.
#[tactic(auto, unfolding(crate::specs::Volumes::volume_of))]
pub fn volume_of(
    alloc: Global,
    at: &Place,
    name: &Text,
    k: usize,
    lines: &[LineRead],
) -> Result<StatedVolume, WantOfMemory>
    ensures { IfOk result (λ v. v ≡ volume_of at.now name.now k lines.now) }
{
    let items = items_of(alloc, k, lines)?;
    Ok(StatedVolume {
        at: at.copy(alloc)?,
        name: name.copy(alloc)?,
        block_size: number_of(VolumeKey::BlockSize, k, lines),
        blocks: number_of(VolumeKey::NumBlocks, k, lines),
        erase: number_of(VolumeKey::ErasePolarity, k, lines),
        alignment: number_of(VolumeKey::FvAlignment, k, lines),
        base: number_of(VolumeKey::FvBaseAddress, k, lines),
        flags: flags_of(k, lines),
        name_guid: name_of(k, lines),
        force: force_of(k, lines).unwrap_or(false),
        ffs3: system_of(k, lines).unwrap_or(false),
        items,
    })
}
