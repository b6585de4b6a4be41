//! The files of a volume (UEFI PI specification, volume 3, section 3.2.3).
ghost use Rattle.std.specs.Prelude.{◌≡◌, ◌≤◌, ◌<◌, ◌+◌, ◌^◌, ◌==◌, ◌||◌, IsTrue, IfOk, take, length, not, unwrap_or, []};
ghost use Rattle.ffs_sections.specs.Sums.{header_sum};
ghost use Rattle.ffs_sections.specs.File.{header_len as spec_head_at};
ghost use Rattle.volume_reader.specs.Sections.{sections_of};
ghost use Rattle.volume_reader.specs.Files.{file_name, file_type, stated_size, body_in, has_header, has_state, has_size, has_check, is_file, HasBody, file_sections, listed_file};

use crate::listed::{Listed, ListedSection};
use crate::sections::sections_of;
use crate::slices::{u24_at, u64_at};
use build_base::{Guid, Rows, WantOfMemory};
use doc_types::standard::{EFI_FV_FILETYPE_FFS_PAD, EFI_FV_FILETYPE_RAW};
use ffs_sections::header::{header_len, state_of};
use ffs_sections::standard::{FFS_ATTRIB_CHECKSUM, FFS_FIXED_CHECKSUM};
use ffs_sections::{body_sum, header_sum, header_sum_long};
use std::alloc::Global;

#[tactic(auto, unfolding(crate::specs::Files::file_name))]
fn file_name(bytes: &[u8]) -> Guid
    requires { 24 ≤ length bytes.now }
    ensures { result ≡ record { 0 = file_name bytes.now } }
{
    let mut name = [0; 16];
    name.copy_from_slice(&bytes[..16]);
    Guid(name)
}

#[tactic(auto, unfolding(crate::specs::Files::file_type))]
fn file_type(bytes: &[u8]) -> u8
    requires { 24 ≤ length bytes.now }
    ensures { result ≡ file_type bytes.now }
{
    bytes[0x12]
}

#[tactic(auto, unfolding(crate::specs::Files::stated_size))]
pub(crate) fn stated_size(bytes: &[u8]) -> u64
    requires { spec_head_at bytes.now ≤ length bytes.now }
    ensures { result ≡ stated_size bytes.now }
{
    if header_len(bytes) == 32 {
        u64_at(bytes, 0x18)
    } else {
        u24_at(bytes, 0x14) as u64
    }
}

#[tactic(auto, unfolding(crate::specs::Files::has_header))]
fn has_header(ffs3: bool, bytes: &[u8]) -> bool
    ensures value { result ≡ has_header ffs3 bytes.now }
    ensures inside { IsTrue result → spec_head_at bytes.now ≤ length bytes.now }
    ensures least { IsTrue result → 24 ≤ spec_head_at bytes.now }
{
    let head = header_len(bytes);
    if bytes.len() < head as usize {
        return false;
    }
    ffs3 || head == 24
}

fn short_sum(bytes: &[u8]) -> u8
    requires { 24 ≤ length bytes.now }
    ensures { result ≡ header_sum (take 24 bytes.now) }
{
    let mut head = [0; 24];
    head.copy_from_slice(&bytes[..24]);
    header_sum(&head)
}

fn long_sum(bytes: &[u8]) -> u8
    requires { 32 ≤ length bytes.now }
    ensures { result ≡ header_sum (take 32 bytes.now) }
{
    let mut head = [0; 32];
    head.copy_from_slice(&bytes[..32]);
    header_sum_long(&head)
}

// The checksum that the header has to have.
fn wanted_sum(bytes: &[u8]) -> u8
    requires { spec_head_at bytes.now ≤ length bytes.now }
    ensures { result ≡ header_sum (take (spec_head_at bytes.now) bytes.now) }
{
    if header_len(bytes) == 32 {
        long_sum(bytes)
    } else {
        short_sum(bytes)
    }
}

#[tactic(auto, unfolding(crate::specs::Files::has_state, crate::specs::Files::header_check, crate::specs::Files::file_state))]
fn has_state(erase: u8, bytes: &[u8]) -> bool
    requires inside { spec_head_at bytes.now ≤ length bytes.now }
    requires long { 24 ≤ length bytes.now }
    ensures { result ≡ has_state erase bytes.now }
{
    if bytes[0x10] != wanted_sum(bytes) {
        return false;
    }
    bytes[0x17] == state_of(erase)
}

#[tactic(auto, unfolding(crate::specs::Files::has_size))]
fn has_size(bytes: &[u8]) -> bool
    requires { spec_head_at bytes.now ≤ length bytes.now }
    ensures value { result ≡ has_size bytes.now }
    ensures least { IsTrue result → spec_head_at bytes.now ≤ stated_size bytes.now }
    ensures inside { IsTrue result → stated_size bytes.now ≤ length bytes.now }
{
    let size = stated_size(bytes);
    if size < header_len(bytes) as u64 {
        return false;
    }
    size <= bytes.len() as u64
}

#[tactic(auto, unfolding(crate::specs::Files::body_in))]
fn body_in(bytes: &[u8]) -> &[u8]
    requires { HasBody bytes.now }
    ensures { result.now ≡ body_in bytes.now }
{
    let file = &bytes[..stated_size(bytes) as usize];
    &file[header_len(bytes) as usize..]
}

#[tactic(auto, unfolding(crate::specs::Files::has_check, crate::specs::Files::file_check, crate::specs::Files::file_attributes))]
fn has_check(bytes: &[u8]) -> bool
    requires { HasBody bytes.now }
    ensures { result ≡ has_check bytes.now }
{
    if bytes[0x13] / FFS_ATTRIB_CHECKSUM % 2 == 1 {
        return bytes[0x11] == body_sum(body_in(bytes));
    }
    bytes[0x11] == FFS_FIXED_CHECKSUM
}

/// Whether a file stands at the front of some bytes, in a volume of FFS3 or FFS2 and this erase
/// polarity.
#[tactic(auto, unfolding(crate::specs::Files::is_file))]
pub(crate) fn is_file(ffs3: bool, erase: u8, bytes: &[u8]) -> bool
    ensures value { result ≡ is_file ffs3 erase bytes.now }
    ensures body { IsTrue result → HasBody bytes.now }
{
    if !has_header(ffs3, bytes) {
        return false;
    }
    if !has_state(erase, bytes) {
        return false;
    }
    if !has_size(bytes) {
        return false;
    }
    has_check(bytes)
}

fn is_listed(file_type: u8) -> bool
    ensures { result
        ≡ not (file_type == EFI_FV_FILETYPE_RAW || file_type == EFI_FV_FILETYPE_FFS_PAD) }
{
    if file_type == EFI_FV_FILETYPE_RAW {
        return false;
    }
    file_type != EFI_FV_FILETYPE_FFS_PAD
}

// The sections of a body, or none where it is no list of them.
fn body_sections(
    alloc: Global,
    ffs3: bool,
    place: u64,
    body: &[u8],
) -> Result<Rows<ListedSection>, WantOfMemory>
    requires { place + length body.now < 2 ^ 63 }
    ensures { IfOk result (λ rows. rows ≡ unwrap_or (sections_of ffs3 place body.now) []) }
{
    match sections_of(alloc, ffs3, place, body)? {
        Some(rows) => Ok(rows),
        None => Ok(Rows::new(alloc)),
    }
}

#[tactic(auto, unfolding(crate::specs::Files::file_sections))]
fn file_sections(
    alloc: Global,
    ffs3: bool,
    place: u64,
    bytes: &[u8],
) -> Result<Rows<ListedSection>, WantOfMemory>
    requires body { HasBody bytes.now }
    requires near { place + length bytes.now < 2 ^ 63 }
    ensures { IfOk result (λ rows. rows ≡ file_sections ffs3 place bytes.now) }
{
    if !is_listed(file_type(bytes)) {
        return Ok(Rows::new(alloc));
    }
    body_sections(
        alloc,
        ffs3,
        place + header_len(bytes) as u64,
        body_in(bytes),
    )
}

/// The file at the front of some bytes, which stand at a place of the volume.
#[tactic(auto, unfolding(crate::specs::Files::listed_file))]
pub(crate) fn listed_file(
    alloc: Global,
    ffs3: bool,
    place: u64,
    bytes: &[u8],
) -> Result<Listed, WantOfMemory>
    requires body { HasBody bytes.now }
    requires near { place + length bytes.now < 2 ^ 63 }
    ensures { IfOk result (λ file. file ≡ listed_file ffs3 place bytes.now) }
{
    Ok(Listed {
        place,
        guid: file_name(bytes),
        file_type: file_type(bytes),
        size: stated_size(bytes),
        sections: file_sections(alloc, ffs3, place, bytes)?,
    })
}
