//! The sections of a module's file, by the answers of its step.
ghost use Rattle.std.specs.Prelude.{◌≡◌, All, IfOk};
ghost use Rattle.build_base.specs.Answer.{Answers, Checks};
ghost use Rattle.build_base.specs.First.{and_then};
ghost use Rattle.build_stages.specs.Gives.{GivesIn};
ghost use Rattle.build_stages.specs.Writing.{given_file};
ghost use Rattle.file_steps.specs.Required.{IsTable};
ghost use Rattle.file_steps.specs.Sections.{absent_fault, got_checked, source_checked, files_checked, depex_of_out, own_expression, expression_fault, unset_align, content_align, part_of, file_part, plain_part, absent_part, got_part, expression_part, words_part, source_part, parts_from, HasGuid, MayHaveGuid};

use crate::files::file_align;
use crate::module_asks::{is_path_of, takes_depex};
use crate::parts::{Shaped, file_shaped, header_guid, pe_fault};
use crate::plans::ModulePlan;
use crate::required::requiring;
use crate::words::words_bytes;
use build_base::fault_codes::{FILE_TOO_LONG, SECTION_ABSENT};
use build_base::{Path, Refusal, Rows, Same, Text, refuse};
use build_stages::{Given, Stop};
use doc_types::image::Part;
use doc_types::standard::EFI_SECTION_FIRMWARE_VOLUME_IMAGE;
use doc_types::volume::{Align, SectionPlan, SectionSource};
use indexmap::IndexMap;
use std::alloc::Global;
use step_answers::contents::refuse_file;
use step_engine::Answer;
use step_pack::{Key, Out};
use te_images::section_alignment;

// Refuses a file that is absent, where one of the sections requires it.
fn none_requires(
    alloc: Global,
    places: &IndexMap<Vec<u8>, usize>,
    sections: &[SectionPlan],
    path: &[u8],
) -> Result<(), Refusal>
    requires { IsTable sections.now places.now }
    ensures { Checks result (absent_fault sections.now path.now) }
{
    match requiring(alloc, places, sections, path)? {
        Some(section) => Err(refuse(alloc, SECTION_ABSENT, &section.at, path)),
        None => Ok(()),
    }
}

fn got_checked(
    alloc: Global,
    given: &Given<'_, Key, Out>,
    places: &IndexMap<Vec<u8>, usize>,
    sections: &[SectionPlan],
    path: &Path,
) -> Result<(), Stop<Key>>
    requires { IsTable sections.now places.now }
    ensures { GivesIn (λ _. tt) result
        (and_then (given_file given.now path.now) (got_checked sections.now path.now)) }
{
    match given.file(path)? {
        Answer::Bytes(_) => Ok(()),
        Answer::Absent => {
            none_requires(alloc, places, sections, path.bytes())?;
            Ok(())
        }
        Answer::TooLong => Err(Stop::from(refuse_file(alloc, FILE_TOO_LONG, path, path.bytes()))),
        Answer::Field(_) | Answer::Part(_) => Err(Stop::ImpossibleAnswer),
    }
}

// The file of a section among these.
fn source_checked(
    alloc: Global,
    depex: &Text,
    given: &Given<'_, Key, Out>,
    places: &IndexMap<Vec<u8>, usize>,
    sections: &[SectionPlan],
    source: &SectionSource,
) -> Result<(), Stop<Key>>
    requires { IsTable sections.now places.now }
    ensures { GivesIn (λ _. tt) result
        (source_checked depex.now given.now sections.now source.now) }
{
    match source {
        SectionSource::Tree(path) => {
            if is_path_of(depex, path) {
                return Ok(());
            }
            got_checked(alloc, given, places, sections, path)
        }
        SectionSource::Template(_)
        | SectionSource::Volume(_)
        | SectionSource::Words(_)
        | SectionSource::Refused(_) => Ok(()),
    }
}

/// Refuses the first file of sections that is too long, or that isn't there and is required, by the
/// table of their places.
#[tactic(auto, unfolding(crate::specs::Sections::files_checked))]
pub fn files_checked(
    alloc: Global,
    depex: &Text,
    given: &Given<'_, Key, Out>,
    places: &IndexMap<Vec<u8>, usize>,
    sections: &[SectionPlan],
) -> Result<(), Stop<Key>>
    requires { IsTable sections.now places.now }
    ensures { GivesIn (λ _. tt) result
        (files_checked depex.now given.now sections.now sections.now) }
{
    let mut left = sections;
    while let [section, rest @ ..] = left {
        source_checked(alloc, depex, given, places, sections, &section.source)?;
        left = rest;
    }
    Ok(())
}

fn depex_of_out(out: &Out) -> Result<&[u8], Stop<Key>>
    ensures { GivesIn (λ bytes. bytes.now) result (depex_of_out out.now) }
{
    match out {
        Out::Depex(bytes) => Ok(bytes.bytes()),
        _ => Err(Stop::ImpossibleAnswer),
    }
}

/// The module's own expression, where a section holds it, else no bytes.
#[tactic(auto, unfolding(crate::specs::Sections::own_expression))]
pub(crate) fn own_expression<'a>(
    alloc: Global,
    plan: &ModulePlan,
    given: &Given<'a, Key, Out>,
) -> Result<&'a [u8], Stop<Key>>
    ensures { GivesIn (λ bytes. bytes.now) result (own_expression plan.now given.now) }
{
    if takes_depex(&plan.depex, plan.file.sections.items()) {
        let key = Key::Depex(plan.module.copy(alloc)?);
        return depex_of_out(given.part(&key)?);
    }
    Ok(b"".as_slice())
}

/// Refuses an expression without bytes, where one of the sections requires it.
pub(crate) fn expression_checked(
    alloc: Global,
    depex: &Text,
    places: &IndexMap<Vec<u8>, usize>,
    sections: &[SectionPlan],
    expression: &[u8],
) -> Result<(), Refusal>
    requires { IsTable sections.now places.now }
    ensures { Checks result (expression_fault depex.now sections.now expression.now) }
{
    if expression.is_empty() {
        none_requires(alloc, places, sections, depex.bytes())?;
    }
    Ok(())
}

fn unset_align(kind: u8) -> u32
    ensures { result ≡ unset_align kind }
{
    if kind == EFI_SECTION_FIRMWARE_VOLUME_IMAGE {
        8
    } else {
        1
    }
}

// The alignment of a section whose content is a file.
fn content_align(
    alloc: Global,
    kind: u8,
    path: &Path,
    bytes: &[u8],
    align: Align,
) -> Result<u32, Refusal>
    ensures { Answers result (content_align kind path.now bytes.now align) }
{
    match align {
        Align::Unset => Ok(unset_align(kind)),
        Align::Auto => match section_alignment(bytes) {
            Ok(align) => Ok(align),
            Err(fault) => Err(pe_fault(alloc, path, bytes, fault)),
        },
        Align::Bytes(align) => Ok(align),
    }
}

// A section with its content.
fn part_of(section: &SectionPlan, align: u32, content: Shaped) -> Result<Part, Stop<Key>>
    ensures value { GivesIn (λ part. part) result (part_of section.now align content) }
    ensures guid { IfOk result HasGuid }
{
    let guid = header_guid(section.kind, section.guid)?;
    Ok(Part {
        kind: section.kind,
        guid,
        align,
        shift: content.shift,
        bytes: content.bytes,
    })
}

// A section that holds a file.
#[tactic(auto, unfolding(crate::specs::Sections::file_part))]
fn file_part(
    alloc: Global,
    section: &SectionPlan,
    path: &Path,
    file: &Text,
) -> Result<Part, Stop<Key>>
    ensures value { GivesIn (λ part. part) result (file_part section.now path.now file.now) }
    ensures guid { IfOk result HasGuid }
{
    let content = file_shaped(alloc, section.kind, path, file)?;
    let align = content_align(alloc, section.kind, path, file.bytes(), section.align)?;
    part_of(section, align, content)
}

// A section that holds other bytes.
#[tactic(auto, unfolding(crate::specs::Sections::plain_part))]
fn plain_part(section: &SectionPlan, bytes: Text) -> Result<Part, Stop<Key>>
    ensures value { GivesIn (λ part. part) result (plain_part section.now bytes) }
    ensures guid { IfOk result HasGuid }
{
    let align = file_align(section.align);
    part_of(section, align, Shaped { shift: 0, bytes })
}

// What is absent is left out where it is Optional.
fn absent_part(alloc: Global, section: &SectionPlan, path: &Path) -> Result<Option<Part>, Refusal>
    ensures value { Answers result (absent_part section.now path.now) }
    ensures guid { IfOk result MayHaveGuid }
{
    if !section.optional {
        return Err(refuse(alloc, SECTION_ABSENT, &section.at, path.bytes()));
    }
    Ok(None)
}

fn got_part(
    alloc: Global,
    given: &Given<'_, Key, Out>,
    section: &SectionPlan,
    path: &Path,
) -> Result<Option<Part>, Stop<Key>>
    ensures value { GivesIn (λ part. part) result
        (and_then (given_file given.now path.now) (got_part section.now path.now)) }
    ensures guid { IfOk result MayHaveGuid }
{
    match given.file(path)? {
        Answer::Bytes(bytes) => {
            let part = file_part(alloc, section, path, bytes.value())?;
            Ok(Some(part))
        }
        Answer::Absent => Ok(absent_part(alloc, section, path)?),
        Answer::TooLong => Err(Stop::from(refuse_file(alloc, FILE_TOO_LONG, path, path.bytes()))),
        Answer::Field(_) | Answer::Part(_) => Err(Stop::ImpossibleAnswer),
    }
}

fn expression_part(
    alloc: Global,
    section: &SectionPlan,
    path: &Path,
    expression: &[u8],
) -> Result<Option<Part>, Stop<Key>>
    ensures value { GivesIn (λ part. part) result
        (expression_part section.now path.now expression.now) }
    ensures guid { IfOk result MayHaveGuid }
{
    if expression.is_empty() {
        return Ok(absent_part(alloc, section, path)?);
    }
    let part = plain_part(section, Text::of(alloc, expression)?)?;
    Ok(Some(part))
}

fn words_part(alloc: Global, section: &SectionPlan, text: &[u8]) -> Result<Option<Part>, Stop<Key>>
    ensures value { GivesIn (λ part. part) result (words_part section.now text.now) }
    ensures guid { IfOk result MayHaveGuid }
{
    if section.optional && text.is_empty() {
        return Ok(None);
    }
    let bytes = words_bytes(alloc, section.kind, section.number, text)?;
    let part = plain_part(section, bytes)?;
    Ok(Some(part))
}

// A section, unless it is left out.
fn source_part(
    alloc: Global,
    depex: &Text,
    expression: &[u8],
    given: &Given<'_, Key, Out>,
    section: &SectionPlan,
) -> Result<Option<Part>, Stop<Key>>
    ensures value { GivesIn (λ part. part) result
        (source_part depex.now expression.now given.now section.now section.now.source) }
    ensures guid { IfOk result MayHaveGuid }
{
    match &section.source {
        SectionSource::Tree(path) => {
            if is_path_of(depex, path) {
                return expression_part(alloc, section, path, expression);
            }
            got_part(alloc, given, section, path)
        }
        SectionSource::Words(text) => words_part(alloc, section, text.bytes()),
        SectionSource::Template(_) | SectionSource::Volume(_) | SectionSource::Refused(_) => {
            Err(Stop::ImpossibleAnswer)
        }
    }
}

/// All sections that are there, or the first fault of one.
#[tactic(auto, unfolding(crate::specs::Sections::parts_from))]
pub fn parts(
    alloc: Global,
    depex: &Text,
    expression: &[u8],
    given: &Given<'_, Key, Out>,
    sections: &[SectionPlan],
) -> Result<Rows<Part>, Stop<Key>>
    ensures value { GivesIn (λ parts. parts) result
        (parts_from depex.now expression.now given.now sections.now) }
    ensures guids { IfOk result (All HasGuid) }
{
    let mut parts = Rows::new(alloc);
    let mut left = sections;
    while let [section, rest @ ..] = left {
        match source_part(alloc, depex, expression, given, section)? {
            Some(part) => parts.push(part)?,
            None => {}
        }
        left = rest;
    }
    Ok(parts)
}
