//! What the sections of a flash description state, before volumes have numbers and sizes.
ghost use Rattle.std.specs.Prelude.{◌≡◌, IfOk};

use build_base::{Guid, Path, Place, Rows, Same, Text, WantOfMemory, copied};
use doc_types::volume::{InfLine, Member, RuleDoc};
use fdf_words::rows::{Content, FileHead, RegionContent, SectionBody, SectionLine};
use std::alloc::Global;

/// A region of a device and what fills it.
#[derive(Drop)]
pub(crate) struct StatedRegion {
    pub at: Place,
    pub offset: u64,
    pub size: u64,
    pub content: Option<RegionContent>,
}

/// A device. `blocks` are the products of its pairs of BlockSize and NumBlocks, `first_block` the
/// size of the first pair.
#[derive(Drop)]
pub(crate) struct StatedDevice {
    pub at: Place,
    pub name: Text,
    pub base: Option<u64>,
    pub size: Option<u64>,
    pub erase: Option<u64>,
    pub first_block: Option<u64>,
    pub blocks: u64,
    pub regions: Rows<StatedRegion>,
}

/// A file of a volume, whose sections name volumes.
#[derive(Drop)]
pub(crate) struct StatedFile {
    pub head: FileHead,
    pub whole: Option<Path>,
    pub sections: Rows<SectionLine>,
}

/// A statement of a volume.
#[derive(Drop)]
pub(crate) enum FdfStatement {
    Apriori {
        at: Place,
        pei: bool,
        members: Rows<Member>,
    },
    File(StatedFile),
    Inf(InfLine),
}

/// A volume. `flags` are the attributes that it states.
#[derive(Drop)]
pub(crate) struct StatedVolume {
    pub at: Place,
    pub name: Text,
    pub block_size: Option<u64>,
    pub blocks: Option<u64>,
    pub erase: Option<u64>,
    pub alignment: Option<u64>,
    pub base: Option<u64>,
    pub flags: u32,
    pub name_guid: Option<Guid>,
    pub force: bool,
    pub ffs3: bool,
    pub items: Rows<FdfStatement>,
}

/// A rule, and its name as it is written.
#[derive(Drop)]
pub(crate) struct StatedRule {
    pub name: Text,
    pub rule: RuleDoc,
}

/// What a section states below one head.
#[derive(Drop)]
pub(crate) enum FdfSection {
    Settings,
    Device(StatedDevice),
    Volume(StatedVolume),
    Rule(StatedRule),
}

fn content_copy(content: &Content, alloc: Global) -> Result<Content, WantOfMemory>
    ensures { IfOk result (λ c. c ≡ content.now) }
{
    match content {
        Content::Volume(name) => Ok(Content::Volume(name.copy(alloc)?)),
        Content::Tree(path) => Ok(Content::Tree(path.copy(alloc)?)),
        Content::Bytes(bytes) => Ok(Content::Bytes(bytes.copy(alloc)?)),
    }
}

/// What fills a region, once more.
pub(crate) fn region_content_copy(
    stated: &RegionContent,
    alloc: Global,
) -> Result<RegionContent, WantOfMemory>
    ensures { IfOk result (λ c. c ≡ stated.now) }
{
    Ok(RegionContent {
        at: stated.at.copy(alloc)?,
        content: content_copy(&stated.content, alloc)?,
    })
}

/// The first line of a file, once more.
pub(crate) fn head_copy(head: &FileHead, alloc: Global) -> Result<FileHead, WantOfMemory>
    ensures { IfOk result (λ h. h ≡ head.now) }
{
    copied!(FileHead, head, alloc; at; file_type, guid, fixed, checksum, align)
}

fn body_copy(body: &SectionBody, alloc: Global) -> Result<SectionBody, WantOfMemory>
    ensures { IfOk result (λ b. b ≡ body.now) }
{
    match body {
        SectionBody::Tree(path) => Ok(SectionBody::Tree(path.copy(alloc)?)),
        SectionBody::Volume(name) => Ok(SectionBody::Volume(name.copy(alloc)?)),
        SectionBody::Words(text) => Ok(SectionBody::Words(text.copy(alloc)?)),
    }
}

/// The line of a section, once more.
pub(crate) fn section_copy(
    section: &SectionLine,
    alloc: Global,
) -> Result<SectionLine, WantOfMemory>
    ensures { IfOk result (λ s. s ≡ section.now) }
{
    Ok(SectionLine {
        at: section.at.copy(alloc)?,
        kind: section.kind,
        align: section.align,
        guid: section.guid.copy(alloc)?,
        body: body_copy(&section.body, alloc)?,
    })
}
