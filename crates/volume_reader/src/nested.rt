//! The text of a volume, and of the volumes in its sections.
ghost use Rattle.std.specs.Prelude.{◌≡◌, ◌≤◌, ◌+◌, ◌*◌, ◌++◌, OnOk, IsTrue};
ghost use Rattle.std.specs.List.{flat_map};
ghost use Rattle.volume_reader.specs.Head.{is_head};
ghost use Rattle.volume_reader.specs.Listing.{content_of, section_text, file_text, volume_text, is_whole, content_text};

use crate::head::{fv_length, is_head};
use crate::lines::{put_file_line, put_free_line, put_pad_line, put_section_line, put_volume_line};
use crate::listed::{Listed, ListedSection, ReadRefusal, VolumeList};
use crate::slices::{front, rest};
use crate::volume::read_volume;
use build_base::WantOfMemory;
use doc_types::standard::{EFI_FV_FILETYPE_FFS_PAD, EFI_SECTION_FIRMWARE_VOLUME_IMAGE};
use ffs_sections::standard::SECTION_LIMIT;
use std::alloc::Global;

// The content of a section that has no GUID, in the bytes of its volume.
#[tactic(auto, unfolding(crate::specs::Listing::content_of))]
fn content_of<'a>(bytes: &'a [u8], section: &ListedSection) -> &'a [u8]
    ensures { result.now ≡ content_of bytes.now section.now }
{
    let header = if section.size > SECTION_LIMIT { 8 } else { 4 };
    front(
        rest(bytes, section.start),
        section.size.saturating_sub(header),
    )
}

// Whether a content begins with the header of a volume, and is as long as that says.
#[tactic(auto, unfolding(crate::specs::Listing::is_whole))]
fn is_whole(content: &[u8]) -> bool
    ensures value { result ≡ is_whole content.now }
    ensures head { IsTrue result → IsTrue (is_head content.now) }
{
    if !is_head(content) {
        return false;
    }
    fv_length(content) == content.len() as u64
}

// The text of a content that is a volume, where so many volumes may stand one in the other.
#[cycle(volumes)]
#[tactic(auto, unfolding(crate::specs::Listing::content_text))]
fn put_content(
    alloc: Global,
    out: &mut Vec<u8>,
    depth: u32,
    indent: u64,
    content: &[u8],
) -> Result<(), WantOfMemory>
    requires { indent + 6 * depth ≤ 1006 }
    ensures { OnOk result (out.new.items ≡ out.old.items ++ content_text depth indent content.now) }
{
    if depth == 0 {
        return Ok(());
    }
    if !is_whole(content) {
        return Ok(());
    }
    match read_volume(alloc, content) {
        Ok(list) => put_volume(alloc, out, depth - 1, indent, 0, content, &list),
        Err(ReadRefusal::BadFile(_place)) => Ok(()),
        Err(ReadRefusal::WantOfMemory) => Err(WantOfMemory),
    }
}

#[cycle(volumes)]
#[tactic(auto, unfolding(crate::specs::Listing::section_text))]
fn put_section(
    alloc: Global,
    out: &mut Vec<u8>,
    depth: u32,
    indent: u64,
    bytes: &[u8],
    section: &ListedSection,
) -> Result<(), WantOfMemory>
    requires { indent + 6 * depth ≤ 1004 }
    ensures { OnOk result (out.new.items ≡ out.old.items
        ++ section_text (content_text depth) indent bytes.now section.now) }
{
    put_section_line(alloc, out, indent, section)?;
    if section.kind != EFI_SECTION_FIRMWARE_VOLUME_IMAGE {
        return Ok(());
    }
    put_content(alloc, out, depth, indent + 2, content_of(bytes, section))
}

#[cycle(volumes)]
fn put_sections(
    alloc: Global,
    out: &mut Vec<u8>,
    depth: u32,
    indent: u64,
    bytes: &[u8],
    sections: &[ListedSection],
) -> Result<(), WantOfMemory>
    requires { indent + 6 * depth ≤ 1004 }
    ensures { OnOk result (out.new.items ≡ out.old.items
        ++ flat_map (section_text (content_text depth) indent bytes.now) sections.now) }
{
    let mut left = sections;
    while let [section, rest @ ..] = left {
        put_section(alloc, out, depth, indent, bytes, section)?;
        left = rest;
    }
    Ok(())
}

#[cycle(volumes)]
#[tactic(auto, unfolding(crate::specs::Listing::file_text))]
fn put_file(
    alloc: Global,
    out: &mut Vec<u8>,
    depth: u32,
    indent: u64,
    bytes: &[u8],
    file: &Listed,
) -> Result<(), WantOfMemory>
    requires { indent + 6 * depth ≤ 1002 }
    ensures { OnOk result (out.new.items ≡ out.old.items
        ++ file_text (content_text depth) indent bytes.now file.now) }
{
    if file.file_type == EFI_FV_FILETYPE_FFS_PAD {
        return put_pad_line(alloc, out, indent, file);
    }
    put_file_line(alloc, out, indent, file)?;
    put_sections(alloc, out, depth, indent + 2, bytes, file.sections.items())
}

#[cycle(volumes)]
fn put_files(
    alloc: Global,
    out: &mut Vec<u8>,
    depth: u32,
    indent: u64,
    bytes: &[u8],
    files: &[Listed],
) -> Result<(), WantOfMemory>
    requires { indent + 6 * depth ≤ 1002 }
    ensures { OnOk result (out.new.items ≡ out.old.items
        ++ flat_map (file_text (content_text depth) indent bytes.now) files.now) }
{
    let mut left = files;
    while let [file, rest @ ..] = left {
        put_file(alloc, out, depth, indent, bytes, file)?;
        left = rest;
    }
    Ok(())
}

/// Adds the text of the volume that some bytes begin with, at an offset, where so many volumes may
/// stand one in the other below it.
#[cycle(volumes)]
#[tactic(auto, unfolding(crate::specs::Listing::volume_text))]
pub(crate) fn put_volume(
    alloc: Global,
    out: &mut Vec<u8>,
    depth: u32,
    indent: u64,
    offset: u64,
    bytes: &[u8],
    list: &VolumeList,
) -> Result<(), WantOfMemory>
    requires { indent + 6 * depth ≤ 1000 }
    ensures { OnOk result (out.new.items ≡ out.old.items
        ++ volume_text (content_text depth) indent offset bytes.now list.now) }
{
    put_volume_line(alloc, out, indent, offset, list)?;
    put_files(alloc, out, depth, indent + 2, bytes, list.files.items())?;
    put_free_line(alloc, out, indent + 2, list.free)
}
