//! A file whose modules are moved.
ghost use Rattle.std.specs.Prelude.{◌≡◌, ◌≤◌, ◌<◌, ◌^◌, IfOk, IsTrue, length};
ghost use Rattle.build_base.specs.Answer.{Answers};
ghost use Rattle.image_rebase.specs.Files.{has_checksum, resummed_head, with_body, file_head, file_body, with_sections, moved_sections, has_sections, moved_bytes, moved_file};

use crate::bytes::{append, byte_at, copy_bytes, front, rest};
use crate::sections::move_from;
use build_base::{Place, Refusal, Same, Text, WantOfMemory};
use doc_types::image::FileImage;
use doc_types::standard::{EFI_FV_FILETYPE_FFS_PAD, EFI_FV_FILETYPE_RAW};
use ffs_sections::body_sum;
use ffs_sections::header::header_len;
use ffs_sections::standard::FFS_ATTRIB_CHECKSUM;
use std::alloc::Global;
use volume_reader::{ListedSection, sections_of};

fn file_head(bytes: &[u8]) -> &[u8]
    ensures { result.now ≡ file_head bytes.now }
{
    front(bytes, header_len(bytes) as u128)
}

fn file_body(bytes: &[u8]) -> &[u8]
    ensures { result.now ≡ file_body bytes.now }
{
    rest(bytes, header_len(bytes) as u128)
}

// Whether a header has the attribute CHECKSUM.
#[tactic(auto, unfolding(crate::specs::Files::has_checksum, volume_reader::specs::Files::file_attributes))]
fn has_checksum(head: &[u8]) -> bool
    ensures value { result ≡ has_checksum head.now }
    ensures long { IsTrue result → 20 ≤ length head.now }
{
    if head.len() < 20 {
        return false;
    }
    head[0x13] / FFS_ATTRIB_CHECKSUM % 2 == 1
}

// A header with the file checksum of this body where it has that attribute.
#[tactic(auto, unfolding(crate::specs::Files::resummed_head))]
fn resummed_head(alloc: Global, head: &[u8], body: &[u8]) -> Result<Vec<u8>, WantOfMemory>
    ensures { IfOk result (λ out. out.items ≡ resummed_head head.now body.now) }
{
    let mut out = copy_bytes(alloc, head)?;
    if has_checksum(head) {
        out[0x11] = body_sum(body);
    }
    Ok(out)
}

fn with_body(alloc: Global, head: &[u8], body: &[u8]) -> Result<Text, WantOfMemory>
    ensures { IfOk result (λ bytes. bytes ≡ with_body head.now body.now) }
{
    let mut out = resummed_head(alloc, head, body)?;
    append(&mut out, body)?;
    Ok(Text::from_vec(out))
}

fn with_sections(
    alloc: Global,
    place: &Place,
    base: u64,
    address: u128,
    bytes: &[u8],
    sections: &[ListedSection],
) -> Result<Text, Refusal>
    requires near { address < 2 ^ 99 }
    ensures { Answers result (with_sections place.now base address bytes.now sections.now) }
{
    let start = address + header_len(bytes) as u128;
    match move_from(alloc, place, base, start, file_body(bytes), sections) {
        Ok(body) => Ok(with_body(alloc, file_head(bytes), body.bytes())?),
        Err(refusal) => Err(refusal),
    }
}

#[tactic(auto, unfolding(crate::specs::Files::has_sections, volume_reader::specs::Files::file_type))]
fn has_sections(bytes: &[u8]) -> bool
    ensures { result ≡ has_sections bytes.now }
{
    let kind = byte_at(bytes, 0x12);
    if kind == EFI_FV_FILETYPE_RAW {
        return false;
    }
    kind != EFI_FV_FILETYPE_FFS_PAD
}

// The bytes of a file that starts at an address.
#[tactic(auto, unfolding(crate::specs::Files::moved_sections))]
fn move_sections(
    alloc: Global,
    ffs3: bool,
    place: &Place,
    base: u64,
    address: u128,
    bytes: &Text,
) -> Result<Text, Refusal>
    requires near { address < 2 ^ 99 }
    ensures { Answers result (moved_sections ffs3 place.now base address bytes.now) }
{
    match sections_of(alloc, ffs3, 0, file_body(bytes.bytes()))? {
        Some(sections) => with_sections(
            alloc,
            place,
            base,
            address,
            bytes.bytes(),
            sections.items(),
        ),
        None => Ok(bytes.copy(alloc)?),
    }
}

#[tactic(auto, unfolding(crate::specs::Files::moved_bytes))]
fn move_bytes(
    alloc: Global,
    ffs3: bool,
    place: &Place,
    base: u64,
    address: u128,
    bytes: &Text,
) -> Result<Text, Refusal>
    requires near { address < 2 ^ 99 }
    ensures { Answers result (moved_bytes ffs3 place.now base address bytes.now) }
{
    if has_sections(bytes.bytes()) {
        return move_sections(alloc, ffs3, place, base, address, bytes);
    }
    Ok(bytes.copy(alloc)?)
}

/// A file that stands at a place of a volume with this base.
#[tactic(auto, unfolding(crate::specs::Files::moved_file))]
pub(crate) fn move_file(
    alloc: Global,
    ffs3: bool,
    base: u64,
    start: u64,
    file: &FileImage,
) -> Result<FileImage, Refusal>
    ensures { Answers result (moved_file ffs3 base start file.now) }
{
    let address = base as u128 + start as u128;
    let bytes = move_bytes(alloc, ffs3, &file.at, base, address, &file.bytes)?;
    Ok(FileImage {
        at: file.at.copy(alloc)?,
        guid: file.guid,
        align: file.align,
        bytes,
    })
}
