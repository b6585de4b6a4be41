//! Sections, one after another.
ghost use Rattle.std.specs.Prelude.{◌≡◌, ◌≤◌, ◌<◌, ◌+◌, ◌^◌, ◌++◌, length, vec_len, OnOk, IfOk, Some, ◌%◌, ◌==◌, ◌↔◌, IsTrue, All, is_some};
ghost use Rattle.build_base.specs.First.{unless};
ghost use Rattle.build_base.specs.Answer.{Answers, Grows, Checks};
ghost use Rattle.doc_types.specs.Standard.{EFI_SECTION_FREEFORM_SUBTYPE_GUID};
ghost use Rattle.ffs_sections.specs.Sections.{guid_bytes, is_large, content_at, section_limit, section_head, section_bytes, part_pad, pad_section, with_part, part_fault, with_parts, HaveGuids};
ghost use Rattle.ffs_sections.specs.Sizes.{part_end, parts_end};

use crate::alignment::{is_section_alignment, pad};
use crate::faults::fault_with_size;
use crate::lent::LentPart;
use crate::standard::{FFS3_LIMIT, SECTION_LIMIT};
use build_base::bytes::fill;
use build_base::fault_codes::{ALIGNMENT_REFUSED, SECTION_TOO_LONG};
use build_base::{Guid, Place, Refusal, WantOfMemory};
use doc_types::image::{Body, Part};
use doc_types::standard::{EFI_SECTION_FREEFORM_SUBTYPE_GUID, EFI_SECTION_RAW};
use std::alloc::Global;

fn guid_len(guid: &Option<Guid>) -> u64
    ensures value { result ≡ length (guid_bytes guid.now) }
    ensures short { result ≤ 16 }
{
    match guid {
        Some(guid) => array_len(&guid.0),
        None => 0,
    }
}

fn array_len(guid: &[u8; 16]) -> u64
    ensures value { result ≡ length guid.now }
    ensures short { result ≡ 16 }
{
    guid.len() as u64
}

// Whether a section whose content has so many bytes is large.
fn is_large(ffs3: bool, guid: &Option<Guid>, count: u64) -> bool
    requires { count < 2 ^ 63 }
    ensures { result ≡ is_large ffs3 guid.now count }
{
    ffs3 && 4 + guid_len(guid) + count > SECTION_LIMIT
}

// Where the content of a section stands in it.
fn content_at(ffs3: bool, guid: &Option<Guid>, count: u64) -> u64
    requires { count < 2 ^ 63 }
    ensures value { result ≡ content_at ffs3 guid.now count }
    ensures short { result ≤ 24 }
{
    let head = if is_large(ffs3, guid, count) { 8 } else { 4 };
    head + guid_len(guid)
}

fn section_limit(ffs3: bool) -> u64
    ensures value { result ≡ section_limit ffs3 }
    ensures most { result ≤ 2 ^ 28 }
{
    if ffs3 { FFS3_LIMIT } else { SECTION_LIMIT }
}

// The pad before a section that comes after `at` bytes, or the section's fault.
#[tactic(auto, unfolding(crate::specs::Sections::part_fault))]
fn check_part(
    alloc: Global,
    ffs3: bool,
    place: &Place,
    at: u64,
    part: &LentPart<'_>,
) -> Result<u64, Refusal>
    requires { at < 2 ^ 63 }
    ensures fault { Checks result (part_fault ffs3 place.now at part.now) }
    ensures pad { IfOk result (λ p. part_pad ffs3 at part.now ≡ Some p) }
    ensures four { IfOk result (λ p. p % 4 ≡ 0) }
    ensures small { IfOk result (λ p. p < 2 ^ 24) }
    ensures short { OnOk result (length part.now.bytes < 2 ^ 29) }
{
    if !is_section_alignment(part.align) {
        return Err(Refusal::Bad(fault_with_size(
            alloc,
            ALIGNMENT_REFUSED,
            place,
            part.align as u64,
        )?));
    }
    let count = part.content.length();
    let head = content_at(ffs3, &part.guid, count);
    let size = match pad((at + 3) / 4 * 4 + head, part.align, part.shift) {
        Some(size) => size,
        None => return Err(Refusal::Bad(fault_with_size(
            alloc,
            ALIGNMENT_REFUSED,
            place,
            part.align as u64,
        )?)),
    };
    let len = head + count;
    if len > section_limit(ffs3) {
        return Err(Refusal::Bad(fault_with_size(alloc, SECTION_TOO_LONG, place, len)?));
    }
    Ok(size)
}

// Appends the size and the kind of a section.
#[tactic(auto, unfolding(crate::specs::Sections::section_head))]
fn put_section_head(out: &mut Vec<u8>, large: bool, kind: u8, size: u32) -> Result<(), WantOfMemory>
    ensures { OnOk result (out.new.items ≡ out.old.items ++ section_head large kind size) }
{
    let [first, second, third, fourth] = size.to_le_bytes();
    if large {
        let head = [0xFF, 0xFF, 0xFF, kind, first, second, third, fourth];
        out.extend_from_slice(&head)?;
        return Ok(());
    }
    out.extend_from_slice(&[first, second, third, kind])?;
    Ok(())
}

// Appends a RAW section of zeros, or nothing where the size is 0.
#[tactic(auto, unfolding(crate::specs::Sections::section_bytes))]
fn pad_section(out: &mut Vec<u8>, size: u64) -> Result<(), WantOfMemory>
    requires four { size % 4 ≡ 0 }
    requires small { size < 2 ^ 24 }
    ensures { OnOk result (out.new.items ≡ out.old.items ++ pad_section size) }
{
    if size == 0 {
        return Ok(());
    }
    put_section_head(out, false, EFI_SECTION_RAW, size as u32)?;
    fill(out, size - 4, 0)
}

fn put_guid(out: &mut Vec<u8>, guid: &Option<Guid>) -> Result<(), WantOfMemory>
    ensures { OnOk result (out.new.items ≡ out.old.items ++ guid_bytes guid.now) }
{
    if let Some(guid) = guid {
        out.extend_from_slice(&guid.0)?;
    }
    Ok(())
}

// Appends a section.
#[tactic(auto, unfolding(crate::specs::Sections::section_bytes))]
fn section(out: &mut Vec<u8>, ffs3: bool, part: &LentPart<'_>) -> Result<(), WantOfMemory>
    requires { length part.now.bytes < 2 ^ 29 }
    ensures { OnOk result (out.new.items ≡ out.old.items
        ++ section_bytes ffs3 part.now.kind part.now.guid part.now.bytes) }
{
    let count = part.content.length();
    let size = (content_at(ffs3, &part.guid, count) + count) as u32;
    put_section_head(out, is_large(ffs3, &part.guid, count), part.kind, size)?;
    put_guid(out, &part.guid)?;
    part.content.put(out)
}

// Appends a section behind a pad of this size.
#[tactic(auto, unfolding(crate::specs::Sections::with_part))]
fn put_part(
    out: &mut Vec<u8>,
    ffs3: bool,
    part: &LentPart<'_>,
    pad: u64,
) -> Result<(), WantOfMemory>
    requires pad { part_pad ffs3 (vec_len out.old) part.now ≡ Some pad }
    requires four { pad % 4 ≡ 0 }
    requires small { pad < 2 ^ 24 }
    requires short { length part.now.bytes < 2 ^ 29 }
    ensures { OnOk result (out.new.items ≡ with_part ffs3 out.old.items part.now) }
{
    let at = out.len() as u64;
    fill(out, (at + 3) / 4 * 4 - at, 0)?;
    pad_section(out, pad)?;
    section(out, ffs3, part)
}

/// Whether a GUID stands in the SUBTYPE_GUID sections and in no other.
pub fn have_guids(body: &Body) -> bool
    ensures { IsTrue result ↔ HaveGuids body.now }
{
    match body {
        Body::Whole(_) => true,
        Body::Sections(parts) => all_guids(parts.items()),
    }
}

fn all_guids(parts: &[Part]) -> bool
    ensures { IsTrue result ↔ All
        (λ part. is_some part.guid ≡ (part.kind == EFI_SECTION_FREEFORM_SUBTYPE_GUID)) parts.now }
{
    for part in parts {
        if part.guid.is_some() != (part.kind == EFI_SECTION_FREEFORM_SUBTYPE_GUID) {
            return false;
        }
    }
    true
}

// Where a body ends that has one section more behind `at` bytes.
fn part_end(
    alloc: Global,
    ffs3: bool,
    place: &Place,
    at: u64,
    part: &LentPart<'_>,
) -> Result<u64, Refusal>
    requires { at < 2 ^ 63 }
    ensures value { Answers result
        (unless (part_fault ffs3 place.now at part.now) (part_end ffs3 at part.now)) }
    ensures short { IfOk result (λ end. end < 2 ^ 63) }
{
    let pad = check_part(alloc, ffs3, place, at, part)?;
    let count = part.content.length();
    let end = (at + 3) / 4 * 4 + pad + (content_at(ffs3, &part.guid, count) + count);
    if end >= 0x8000_0000_0000_0000 {
        return Err(Refusal::WantOfMemory);
    }
    Ok(end)
}

/// Where the body of these sections ends, each behind the pad that it needs, in a file of FFS3 or of
/// FFS2. No byte of them is looked at.
pub(crate) fn parts_end(
    alloc: Global,
    ffs3: bool,
    place: &Place,
    parts: &[LentPart<'_>],
) -> Result<u64, Refusal>
    ensures value { Answers result (parts_end ffs3 place.now 0 parts.now) }
    ensures short { IfOk result (λ end. end < 2 ^ 63) }
{
    let mut end = 0;
    for part in parts {
        match part_end(alloc, ffs3, place, end, part) {
            Ok(next) => end = next,
            Err(refusal) => return Err(refusal),
        }
    }
    Ok(end)
}

/// Appends sections to a body.
pub(crate) fn add_parts(
    alloc: Global,
    out: &mut Vec<u8>,
    ffs3: bool,
    place: &Place,
    parts: &[LentPart<'_>],
) -> Result<(), Refusal>
    ensures { Grows result out.new.items (with_parts ffs3 place.now out.old.items parts.now) }
{
    for part in parts {
        match add_part(alloc, out, ffs3, place, part) {
            Ok(()) => (),
            Err(refusal) => return Err(refusal),
        }
    }
    Ok(())
}

fn add_part(
    alloc: Global,
    out: &mut Vec<u8>,
    ffs3: bool,
    place: &Place,
    part: &LentPart<'_>,
) -> Result<(), Refusal>
    ensures { Grows result out.new.items
        (unless (part_fault ffs3 place.now (length out.old.items) part.now)
        (with_part ffs3 out.old.items part.now)) }
{
    let pad = check_part(alloc, ffs3, place, out.len() as u64, part)?;
    put_part(out, ffs3, part, pad)?;
    Ok(())
}
