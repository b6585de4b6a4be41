//! The sections of a file.
ghost use Rattle.std.specs.Prelude.{◌≡◌, ◌++◌, ◌==◌, ◌≤◌, ◌^◌, ◌/◌, ◌%◌, true, false, IfOk, OnOk, Some, is_some, All, decimal, length, codes};
ghost use Rattle.std.specs.Option.{option_copied};
ghost use Rattle.step_answers.specs.Contents.{file_content, section_absent};
ghost use Rattle.file_steps.specs.Words.{words_bytes};
ghost use Rattle.build_base.specs.Answer.{Answers, Finds};
ghost use Rattle.build_base.specs.First.{and_then};
ghost use Rattle.doc_types.specs.Standard.{EFI_SECTION_FREEFORM_SUBTYPE_GUID};
ghost use Rattle.build_stages.specs.Gives.{GivesIn};
ghost use Rattle.te_images.specs.Pe.{file_alignment_of, section_alignment_of};
ghost use Rattle.te_images.specs.Te.{te_of};
ghost use Rattle.file_steps.specs.Parts.{alignments_text, pe_code, pe_detail, pe_fault, as_is, te_content, te_shaped, file_shaped, content_of, volume_align, unset_align, section_align, some_guid, without_guid, header_guid, part_with, part_of, parts_of, source_checked, files_checked};

use crate::lent::LentShaped;
use crate::words::words_bytes;
use build_base::fault_codes::{
    ALIGNMENTS_DIFFER, HEADER_TOO_LONG, NOT_PE, SUBSYSTEM_TOO_LARGE, TOO_MANY_SECTIONS, TRUNCATED,
};
use build_base::{Guid, Path, Refusal, Rows, Same, Text, WantOfMemory};
use build_stages::{Given, Stop};
use doc_types::flash::FlashDoc;
use doc_types::standard::{EFI_SECTION_FREEFORM_SUBTYPE_GUID, EFI_SECTION_TE};
use doc_types::volume::{Align, SectionPlan, SectionSource, VolumePlan};
use ffs_sections::LentPart;
use itoa::Buffer;
use std::alloc::Global;
use step_answers::contents::{nested_volume, refuse_file, section_content};
use step_pack::{Key, Out};
use te_images::{PeFault, TeHead, file_alignment, section_alignment, strip_at, te_header};

/// The content of a section: what its place is counted less by, and its bytes.
#[derive(Drop)]
pub struct Shaped {
    pub shift: u32,
    pub bytes: Text,
}

fn push_number(out: &mut Vec<u8>, number: u64) -> Result<(), WantOfMemory>
    ensures { OnOk result (out.new.items ≡ out.old.items ++ decimal number) }
{
    let mut digits = Buffer::new();
    out.extend_from_slice(digits.format(number).as_bytes())?;
    Ok(())
}

fn alignments_detail(alloc: Global, file: u32, section: u32) -> Result<Vec<u8>, WantOfMemory>
    ensures { IfOk result (λ text. text.items ≡ decimal file ++ codes " != " ++ decimal section) }
{
    let mut text = Vec::new(alloc);
    push_number(&mut text, file as u64)?;
    text.extend_from_slice(b" != ")?;
    push_number(&mut text, section as u64)?;
    Ok(text)
}

fn alignments_text(alloc: Global, file: &[u8]) -> Result<Vec<u8>, WantOfMemory>
    ensures { IfOk result (λ text. text.items
        ≡ alignments_text (file_alignment_of file.now) (section_alignment_of file.now)) }
{
    match (file_alignment(file), section_alignment(file)) {
        (Ok(of_file), Ok(of_section)) => alignments_detail(alloc, of_file, of_section),
        _ => Ok(Vec::new(alloc)),
    }
}

fn length_text(alloc: Global, file: &[u8]) -> Result<Vec<u8>, WantOfMemory>
    ensures { IfOk result (λ text. text.items ≡ decimal (length file.now)) }
{
    let mut text = Vec::new(alloc);
    push_number(&mut text, file.len() as u64)?;
    Ok(text)
}

fn pe_detail(alloc: Global, file: &[u8], fault: PeFault) -> Result<Vec<u8>, WantOfMemory>
    ensures { IfOk result (λ text. text.items ≡ pe_detail file.now fault) }
{
    match fault {
        PeFault::AlignmentsDiffer => alignments_text(alloc, file),
        PeFault::NotPe
        | PeFault::Truncated
        | PeFault::TooManySections
        | PeFault::HeaderTooLong
        | PeFault::SubsystemTooLarge => length_text(alloc, file),
    }
}

fn pe_code(fault: PeFault) -> u16
    ensures { result ≡ pe_code fault }
{
    match fault {
        PeFault::NotPe => NOT_PE,
        PeFault::Truncated => TRUNCATED,
        PeFault::AlignmentsDiffer => ALIGNMENTS_DIFFER,
        PeFault::TooManySections => TOO_MANY_SECTIONS,
        PeFault::HeaderTooLong => HEADER_TOO_LONG,
        PeFault::SubsystemTooLarge => SUBSYSTEM_TOO_LARGE,
    }
}

/// The refusal of a file that a TE image, or an alignment, can't be taken of.
pub fn pe_fault(alloc: Global, path: &Path, file: &[u8], fault: PeFault) -> Refusal
    ensures { Finds result (Some (pe_fault path.now file.now fault)) }
{
    match pe_detail(alloc, file, fault) {
        Ok(detail) => refuse_file(alloc, pe_code(fault), path, detail.as_slice()),
        Err(_) => Refusal::WantOfMemory,
    }
}

// The bytes of a file, which are shared.
fn as_is(alloc: Global, bytes: &Text) -> Result<Shaped, WantOfMemory>
    ensures { IfOk result (λ s. s ≡ as_is bytes.now) }
{
    Ok(Shaped {
        shift: 0,
        bytes: bytes.copy(alloc)?,
    })
}

fn te_content(alloc: Global, file: &[u8], head: &TeHead) -> Result<Shaped, WantOfMemory>
    requires inside { head.now.stripped ≤ length file.now }
    requires least { 120 ≤ head.now.stripped }
    ensures { IfOk result (λ s. s ≡ te_content file.now head.now) }
{
    let mut bytes = Vec::from_slice(alloc, head.bytes().as_slice())?;
    bytes.extend_from_slice(strip_at(file, head))?;
    Ok(Shaped {
        shift: head.stripped as u32 - 40,
        bytes: Text::from_vec(bytes),
    })
}

fn te_shaped(alloc: Global, path: &Path, file: &[u8]) -> Result<Shaped, Refusal>
    ensures { Answers result (te_shaped path.now file.now (te_of file.now)) }
{
    match te_header(file) {
        Ok(head) => Ok(te_content(alloc, file, &head)?),
        Err(fault) => Err(pe_fault(alloc, path, file, fault)),
    }
}

/// The content of a section of this kind that is made of a file: of a TE section its TE image.
pub fn file_shaped(alloc: Global, kind: u8, path: &Path, file: &Text) -> Result<Shaped, Refusal>
    ensures { Answers result (file_shaped kind path.now file.now) }
{
    if kind == EFI_SECTION_TE {
        return te_shaped(alloc, path, file.bytes());
    }
    Ok(as_is(alloc, file)?)
}

fn file_content<'a>(
    alloc: Global,
    given: &Given<'a, Key, Out>,
    section: &SectionPlan,
    path: &Path,
) -> Result<LentShaped<'a>, Stop<Key>>
    ensures { GivesIn (λ s. s) result
        (and_then (file_content given.now (section_absent section.now.at path.now) path.now)
        (file_shaped section.now.kind path.now)) }
{
    let bytes = section_content(alloc, given, &section.at, path)?;
    Ok(LentShaped::of_file(alloc, section.kind, path, bytes)?)
}

fn words_content<'a>(
    alloc: Global,
    section: &SectionPlan,
    text: &Text,
) -> Result<LentShaped<'a>, WantOfMemory>
    ensures { IfOk result
        (λ s. s ≡ as_is (words_bytes section.now.kind section.now.number text.now)) }
{
    let bytes = words_bytes(alloc, section.kind, section.number, text.bytes())?;
    Ok(LentShaped::of_text(bytes))
}

fn content_of<'a>(
    alloc: Global,
    volumes: &[VolumePlan],
    given: &Given<'a, Key, Out>,
    section: &SectionPlan,
) -> Result<LentShaped<'a>, Stop<Key>>
    ensures { GivesIn (λ s. s) result
        (content_of volumes.now given.now section.now section.now.source) }
{
    match &section.source {
        SectionSource::Tree(path) => file_content(alloc, given, section, path),
        SectionSource::Volume(number) => {
            let image = nested_volume(volumes, given, *number)?;
            Ok(LentShaped::of_image(image)?)
        }
        SectionSource::Words(text) => Ok(words_content(alloc, section, text)?),
        SectionSource::Template(_) | SectionSource::Refused(_) => Err(Stop::ImpossibleAnswer),
    }
}

// 2 to the exponent in bits 16 to 20.
fn power(attributes: u32) -> u32
    ensures { result ≡ 2 ^ (attributes / 65536 % 32) }
{
    1 << (attributes / 0x1_0000 % 0x20)
}

fn volume_align(plan: Option<&VolumePlan>) -> u32
    ensures { result ≡ volume_align (option_copied plan.entry) }
{
    match plan {
        None => 8,
        Some(plan) => power(plan.head.attributes).max(8),
    }
}

fn unset_align(flash: &FlashDoc, source: &SectionSource) -> u32
    ensures { result ≡ unset_align flash.now source.now }
{
    match source {
        SectionSource::Volume(number) => {
            volume_align(flash.volumes.items().get(*number as usize))
        }
        SectionSource::Tree(_)
        | SectionSource::Template(_)
        | SectionSource::Words(_)
        | SectionSource::Refused(_) => 1,
    }
}

fn section_align(flash: &FlashDoc, source: &SectionSource, align: Align) -> u32
    ensures { result ≡ section_align flash.now source.now align }
{
    match align {
        Align::Unset => unset_align(flash, source),
        Align::Auto => 1,
        Align::Bytes(bytes) => bytes,
    }
}

fn some_guid(guid: Option<Guid>) -> Result<Option<Guid>, Stop<Key>>
    ensures value { GivesIn (λ guid. guid) result (some_guid guid) }
    ensures shape { IfOk result (λ guid. is_some guid ≡ true) }
{
    match guid {
        Some(guid) => Ok(Some(guid)),
        None => Err(Stop::ImpossibleAnswer),
    }
}

fn without_guid(guid: Option<Guid>) -> Result<Option<Guid>, Stop<Key>>
    ensures value { GivesIn (λ guid. guid) result (without_guid guid) }
    ensures shape { IfOk result (λ guid. is_some guid ≡ false) }
{
    match guid {
        Some(_) => Err(Stop::ImpossibleAnswer),
        None => Ok(None),
    }
}

/// The GUID of a section's header, which a SUBTYPE_GUID section has, and no other.
pub fn header_guid(kind: u8, guid: Option<Guid>) -> Result<Option<Guid>, Stop<Key>>
    ensures value { GivesIn (λ guid. guid) result (header_guid kind guid) }
    ensures shape { IfOk result (λ guid. is_some guid
        ≡ (kind == EFI_SECTION_FREEFORM_SUBTYPE_GUID)) }
{
    if kind == EFI_SECTION_FREEFORM_SUBTYPE_GUID {
        some_guid(guid)
    } else {
        without_guid(guid)
    }
}

fn part_with<'a>(
    flash: &FlashDoc,
    section: &SectionPlan,
    content: LentShaped<'a>,
    guid: Option<Guid>,
) -> LentPart<'a>
    ensures { result ≡ part_with flash.now section.now content.entry guid }
{
    LentPart {
        kind: section.kind,
        guid,
        align: section_align(flash, &section.source, section.align),
        shift: content.shift,
        content: content.content,
    }
}

#[tactic(auto, unfolding(crate::specs::Parts::part_of))]
fn part_of<'a>(
    alloc: Global,
    flash: &FlashDoc,
    given: &Given<'a, Key, Out>,
    section: &SectionPlan,
) -> Result<LentPart<'a>, Stop<Key>>
    ensures value { GivesIn (λ part. part) result (part_of flash.now given.now section.now) }
    ensures guid { IfOk result (λ part. is_some part.guid
        ≡ (part.kind == EFI_SECTION_FREEFORM_SUBTYPE_GUID)) }
{
    let content = content_of(alloc, flash.volumes.items(), given, section)?;
    let guid = header_guid(section.kind, section.guid)?;
    Ok(part_with(flash, section, content, guid))
}

/// All sections, whose contents are lent, or the first fault of one.
#[tactic(auto, unfolding(crate::specs::Parts::parts_of))]
pub fn parts_of<'a>(
    alloc: Global,
    flash: &FlashDoc,
    given: &Given<'a, Key, Out>,
    sections: &[SectionPlan],
) -> Result<Rows<LentPart<'a>>, Stop<Key>>
    ensures value { GivesIn (λ parts. parts) result (parts_of flash.now given.now sections.now) }
    ensures guids { IfOk result
        (All (λ part. is_some part.guid ≡ (part.kind == EFI_SECTION_FREEFORM_SUBTYPE_GUID))) }
{
    let mut parts = Rows::new(alloc);
    let mut left = sections;
    while let [section, rest @ ..] = left {
        parts.push(part_of(alloc, flash, given, section)?)?;
        left = rest;
    }
    Ok(parts)
}

fn source_checked(
    alloc: Global,
    given: &Given<'_, Key, Out>,
    section: &SectionPlan,
) -> Result<(), Stop<Key>>
    ensures { GivesIn (λ _. tt) result
        (source_checked given.now section.now section.now.source) }
{
    match &section.source {
        SectionSource::Tree(path) => {
            section_content(alloc, given, &section.at, path)?;
            Ok(())
        }
        SectionSource::Template(_)
        | SectionSource::Volume(_)
        | SectionSource::Words(_)
        | SectionSource::Refused(_) => Ok(()),
    }
}

/// Refuses the first file of sections that isn't there or is too long.
#[tactic(auto, unfolding(crate::specs::Parts::files_checked))]
pub fn files_checked(
    alloc: Global,
    given: &Given<'_, Key, Out>,
    sections: &[SectionPlan],
) -> Result<(), Stop<Key>>
    ensures { GivesIn (λ _. tt) result (files_checked given.now sections.now) }
{
    let mut left = sections;
    while let [section, rest @ ..] = left {
        source_checked(alloc, given, section)?;
        left = rest;
    }
    Ok(())
}
