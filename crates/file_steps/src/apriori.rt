//! The a priori file of a volume, by the answers of its step.
ghost use Rattle.std.specs.Prelude.{◌≡◌, ◌++◌, ◌∷◌, [], IfOk, OnOk};
ghost use Rattle.std.specs.List.{flat_map};
ghost use Rattle.build_base.specs.Answer.{Answers};
ghost use Rattle.build_stages.specs.Gives.{GivesIn};
ghost use Rattle.ffs_sections.specs.File.{file_of};
ghost use Rattle.file_steps.specs.Apriori.{apriori_name, name_described, name_below, line_name, member_name, names_given, names_part, apriori_plan, apriori_given};

use crate::names::module_guid;
use crate::plans::module_of;
use build_base::{Guid, Permit, Place, Refusal, Rows, Same, Text, WantOfMemory};
use build_stages::{Given, Stop};
use doc_types::image::{Body, FileImage, ImagePlan, Part};
use doc_types::module::InfDoc;
use doc_types::platform::PlatformDoc;
use doc_types::standard::{EFI_FV_FILETYPE_FREEFORM, EFI_SECTION_RAW};
use doc_types::volume::{InfLine, Member};
use doc_types::volume_head::VolumeHead;
use ffs_sections::file_of;
use rule_choice::inf_arch;
use std::alloc::Global;
use step_answers::readers::{inf_in, platform_in};
use step_answers::settings::arches_built_in;
use step_pack::{Key, Out};

/// PEI_APRIORI_FILE_NAME_GUID, 1b45cc0a-156a-428a-af62-49864da0e6e6.
static PEI_APRIORI_FILE_NAME_GUID: [u8; 16] = [
    0x0A, 0xCC, 0x45, 0x1B, 0x6A, 0x15, 0x8A, 0x42, 0xAF, 0x62, 0x49, 0x86, 0x4D, 0xA0, 0xE6, 0xE6,
];

/// EFI_APRIORI_GUID, fc510ee7-ffdc-11d4-bd41-0080c73c8881.
static EFI_APRIORI_GUID: [u8; 16] = [
    0xE7, 0x0E, 0x51, 0xFC, 0xDC, 0xFF, 0xD4, 0x11, 0xBD, 0x41, 0x00, 0x80, 0xC7, 0x3C, 0x88, 0x81,
];

// The name of the file of the PEI phase, or of the DXE phase.
fn apriori_name(pei: bool) -> Guid
    ensures { result ≡ apriori_name pei }
{
    if pei {
        Guid(PEI_APRIORI_FILE_NAME_GUID)
    } else {
        Guid(EFI_APRIORI_GUID)
    }
}

// The name of the file of a statement's module, by the architectures.
#[tactic(auto, unfolding(crate::specs::Apriori::name_described))]
fn name_described(
    alloc: Global,
    given: &Given<'_, Key, Out>,
    line: &InfLine,
    platform: &PlatformDoc,
    inf: &InfDoc,
) -> Result<Guid, Stop<Key>>
    ensures { GivesIn (λ name. name) result
        (name_described given.now line.now platform.now inf.now) }
{
    let arches = arches_built_in(alloc, platform, given)?;
    let arch = inf_arch(alloc, line, platform, &arches)?;
    let module = module_of(alloc, line, arch)?;
    Ok(module_guid(platform, &module, inf))
}

// By the module's description before it.
#[tactic(auto, unfolding(crate::specs::Apriori::name_below))]
fn name_below(
    alloc: Global,
    given: &Given<'_, Key, Out>,
    line: &InfLine,
    platform: &PlatformDoc,
) -> Result<Guid, Stop<Key>>
    ensures { GivesIn (λ name. name) result (name_below given.now line.now platform.now) }
{
    let inf = inf_in(alloc, given, &line.inf)?;
    name_described(alloc, given, line, platform, inf.value())
}

// The name of the file of a statement's module.
#[tactic(auto, unfolding(crate::specs::Apriori::line_name))]
fn line_name(alloc: Global, given: &Given<'_, Key, Out>, line: &InfLine) -> Result<Guid, Stop<Key>>
    ensures { GivesIn (λ name. name) result (line_name given.now line.now) }
{
    let platform = platform_in(given)?;
    name_below(alloc, given, line, platform)
}

// The name of a member's file.
fn member_name(
    alloc: Global,
    given: &Given<'_, Key, Out>,
    member: &Member,
) -> Result<Guid, Stop<Key>>
    ensures { GivesIn (λ name. name) result (member_name given.now member.now) }
{
    match member {
        Member::Inf(line) => line_name(alloc, given, line),
        Member::File(name) => Ok(*name),
    }
}

// The names of all members' files.
fn names_given(
    alloc: Global,
    given: &Given<'_, Key, Out>,
    members: &[Member],
) -> Result<Rows<Guid>, Stop<Key>>
    ensures { GivesIn (λ names. names) result (names_given given.now members.now) }
{
    let mut names = Rows::new(alloc);
    let mut left = members;
    while let [member, rest @ ..] = left {
        names.push(member_name(alloc, given, member)?)?;
        left = rest;
    }
    Ok(names)
}

fn push_name(bytes: &mut Vec<u8>, name: &[u8; 16]) -> Result<(), WantOfMemory>
    ensures { OnOk result (bytes.new.items ≡ bytes.old.items ++ name.now) }
{
    bytes.extend_from_slice(name.as_slice())?;
    Ok(())
}

fn names_bytes(alloc: Global, names: &[Guid]) -> Result<Vec<u8>, WantOfMemory>
    ensures { IfOk result (λ v. v.items ≡ flat_map (λ name. name.0) names.now) }
{
    let mut bytes = Vec::new(alloc);
    let mut left = names;
    while let [name, rest @ ..] = left {
        push_name(&mut bytes, &name.0)?;
        left = rest;
    }
    Ok(bytes)
}

fn names_part(alloc: Global, names: &[Guid]) -> Result<Part, WantOfMemory>
    ensures { IfOk result (λ part. part ≡ names_part names.now) }
{
    let bytes = names_bytes(alloc, names)?;
    Ok(Part {
        kind: EFI_SECTION_RAW,
        guid: None,
        align: 1,
        shift: 0,
        bytes: Text::from_vec(bytes),
    })
}

fn names_body(alloc: Global, names: &[Guid]) -> Result<Body, WantOfMemory>
    ensures { IfOk result (λ body. body ≡ Body.Sections (names_part names.now ∷ [])) }
{
    let mut parts = Rows::new(alloc);
    parts.push(names_part(alloc, names)?)?;
    Ok(Body::Sections(parts))
}

fn apriori_plan(
    alloc: Global,
    head: &VolumeHead,
    at: &Place,
    pei: bool,
    names: &[Guid],
) -> Result<ImagePlan, WantOfMemory>
    ensures { IfOk result (λ plan. plan ≡ apriori_plan head.now at.now pei names.now) }
{
    let body = names_body(alloc, names)?;
    Ok(ImagePlan {
        at: at.copy(alloc)?,
        file_type: EFI_FV_FILETYPE_FREEFORM,
        guid: apriori_name(pei),
        fixed: false,
        checksum: false,
        align: 1,
        erase: head.erase,
        ffs3: head.ffs3,
        body,
    })
}

fn names_file(
    alloc: Global,
    permit: Permit,
    head: &VolumeHead,
    at: &Place,
    pei: bool,
    names: &[Guid],
) -> Result<FileImage, Refusal>
    ensures { Answers result (file_of (apriori_plan head.now at.now pei names.now)) }
{
    let plan = apriori_plan(alloc, head, at, pei, names)?;
    file_of(alloc, permit, &plan)
}

/// The a priori file of a statement in a volume with this head: that of the PEI phase, or of the
/// DXE phase.
#[tactic(auto, unfolding(crate::specs::Apriori::apriori_given))]
pub fn apriori_given(
    alloc: Global,
    permit: Permit,
    head: &VolumeHead,
    at: &Place,
    pei: bool,
    members: &[Member],
    given: &Given<'_, Key, Out>,
) -> Result<FileImage, Stop<Key>>
    ensures { GivesIn (λ file. file) result
        (apriori_given head.now at.now pei members.now given.now) }
{
    let names = names_given(alloc, given, members)?;
    Ok(names_file(alloc, permit, head, at, pei, names.items())?)
}
