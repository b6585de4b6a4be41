//! The sections of a file (UEFI PI specification, volume 3, section 3.2.4).
ghost use Rattle.std.specs.Prelude.{◌≡◌, ◌≤◌, ◌<◌, ◌+◌, ◌^◌, ◌==◌, false, IsTrue, IfOk, length};
ghost use Rattle.std.specs.List.{list_all};
ghost use Rattle.ffs_sections.specs.Sections.{up4};
ghost use Rattle.volume_reader.specs.Sections.{short_size, section_kind, extended_size, is_extended, section_size, content_at, has_size_form, is_section, HasFields, IsNext, listed_section, follows, sections_of};

use crate::listed::ListedSection;
use crate::slices::{front, rest, u24_at, u32_at};
use build_base::{Rows, WantOfMemory};
use doc_types::standard::EFI_SECTION_FREEFORM_SUBTYPE_GUID;
use ffs_sections::standard::SECTION_LIMIT;
use std::alloc::Global;

/// The size of a section that stands behind its kind.
const EXTENDED_SIZE: u32 = 0xFF_FFFF;

#[tactic(auto, unfolding(crate::specs::Sections::short_size))]
fn short_size(bytes: &[u8]) -> u32
    requires { 4 ≤ length bytes.now }
    ensures { result ≡ short_size bytes.now }
{
    u24_at(bytes, 0)
}

#[tactic(auto, unfolding(crate::specs::Sections::section_kind))]
fn section_kind(bytes: &[u8]) -> u8
    requires { 4 ≤ length bytes.now }
    ensures { result ≡ section_kind bytes.now }
{
    bytes[3]
}

#[tactic(auto, unfolding(crate::specs::Sections::extended_size))]
fn extended_size(bytes: &[u8]) -> u32
    requires { 8 ≤ length bytes.now }
    ensures { result ≡ extended_size bytes.now }
{
    u32_at(bytes, 4)
}

#[tactic(auto, unfolding(crate::specs::Sections::is_extended))]
fn is_extended(ffs3: bool, bytes: &[u8]) -> bool
    requires { 4 ≤ length bytes.now }
    ensures { result ≡ is_extended ffs3 bytes.now }
{
    ffs3 && short_size(bytes) == EXTENDED_SIZE
}

#[tactic(auto, unfolding(crate::specs::Sections::section_size))]
fn section_size(ffs3: bool, bytes: &[u8]) -> u32
    requires short { 4 ≤ length bytes.now }
    requires long { IsTrue (is_extended ffs3 bytes.now) → 8 ≤ length bytes.now }
    ensures { result ≡ section_size ffs3 bytes.now }
{
    if is_extended(ffs3, bytes) {
        extended_size(bytes)
    } else {
        short_size(bytes)
    }
}

// Where the content stands in a section.
#[tactic(auto, unfolding(crate::specs::Sections::content_at))]
fn content_at(ffs3: bool, bytes: &[u8]) -> u32
    requires { 4 ≤ length bytes.now }
    ensures value { result ≡ content_at ffs3 bytes.now }
    ensures short { result ≤ 24 }
{
    let header = if is_extended(ffs3, bytes) { 8 } else { 4 };
    if section_kind(bytes) == EFI_SECTION_FREEFORM_SUBTYPE_GUID {
        header + 16
    } else {
        header
    }
}

#[tactic(auto, unfolding(crate::specs::Sections::has_size_form))]
fn has_size_form(ffs3: bool, bytes: &[u8]) -> bool
    requires short { 4 ≤ length bytes.now }
    requires long { IsTrue (is_extended ffs3 bytes.now) → 8 ≤ length bytes.now }
    ensures { result ≡ has_size_form ffs3 bytes.now }
{
    if is_extended(ffs3, bytes) {
        extended_size(bytes) as u64 > SECTION_LIMIT + 4
    } else {
        short_size(bytes) as u64 <= SECTION_LIMIT
    }
}

// Whether the fields that tell a section's size lie within some bytes.
fn has_fields(ffs3: bool, bytes: &[u8]) -> bool
    ensures yes { IsTrue result → HasFields ffs3 bytes.now }
    ensures no { result ≡ false → is_section ffs3 bytes.now ≡ false }
{
    if bytes.len() < 4 {
        return false;
    }
    if is_extended(ffs3, bytes) {
        return bytes.len() >= 8;
    }
    true
}

// Whether a section stands at the front of some bytes.
#[tactic(auto, unfolding(crate::specs::Sections::is_section))]
fn is_section(ffs3: bool, bytes: &[u8]) -> bool
    ensures value { result ≡ is_section ffs3 bytes.now }
    ensures fields { IsTrue result → HasFields ffs3 bytes.now }
    ensures some { IsTrue result → 4 ≤ section_size ffs3 bytes.now }
    ensures inside { IsTrue result → section_size ffs3 bytes.now ≤ length bytes.now }
{
    if !has_fields(ffs3, bytes) {
        return false;
    }
    if !has_size_form(ffs3, bytes) {
        return false;
    }
    let size = section_size(ffs3, bytes);
    if size < content_at(ffs3, bytes) {
        return false;
    }
    size as u64 <= bytes.len() as u64
}

// The section at the front of some bytes, which stand at a place of the volume.
fn listed_section(ffs3: bool, place: u64, bytes: &[u8]) -> ListedSection
    requires near { place < 2 ^ 63 }
    requires short { 4 ≤ length bytes.now }
    requires long { IsTrue (is_extended ffs3 bytes.now) → 8 ≤ length bytes.now }
    ensures { result ≡ listed_section ffs3 place bytes.now }
{
    ListedSection {
        kind: section_kind(bytes),
        size: section_size(ffs3, bytes) as u64,
        start: place + content_at(ffs3, bytes) as u64,
    }
}

fn are_zeros(bytes: &[u8]) -> bool
    ensures { result ≡ list_all (λ b. b == 0) bytes.now }
{
    bytes.iter().all(|b| *b == 0)
}

// The least multiple of 4 from a place on.
fn up4(at: u64) -> u64
    requires { at < 2 ^ 63 }
    ensures value { result ≡ up4 at }
    ensures after { at ≤ result }
{
    (at + 3) / 4 * 4
}

// Whether a section follows on an end in a body.
#[tactic(auto, unfolding(crate::specs::Sections::follows))]
fn follows(ffs3: bool, body: &[u8], at: u64) -> bool
    requires { at < 2 ^ 63 }
    ensures value { result ≡ follows ffs3 body.now at }
    ensures next { IsTrue result → IsNext ffs3 body.now at }
{
    let start = up4(at);
    if !are_zeros(front(rest(body, at), start - at)) {
        return false;
    }
    is_section(ffs3, rest(body, start))
}

/// The sections of a body that stands at a place of the volume; None where it is no list of
/// sections.
pub fn sections_of(
    alloc: Global,
    ffs3: bool,
    place: u64,
    body: &[u8],
) -> Result<Option<Rows<ListedSection>>, WantOfMemory>
    requires { place + length body.now < 2 ^ 63 }
    ensures { IfOk result (λ found. found ≡ sections_of ffs3 place body.now) }
{
    let mut rows = Rows::new(alloc);
    let mut at = 0;
    while at != body.len() as u64 {
        if !follows(ffs3, body, at) {
            return Ok(None);
        }
        let start = up4(at);
        let bytes = rest(body, start);
        rows.push(listed_section(ffs3, place + start, bytes))?;
        at = start + section_size(ffs3, bytes) as u64;
    }
    Ok(Some(rows))
}
