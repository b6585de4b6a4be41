//! The file of a FILE statement, by the answers of its step.
ghost use Rattle.std.specs.Prelude.{◌≡◌, IfOk};
ghost use Rattle.build_base.specs.Answer.{Answers};
ghost use Rattle.build_stages.specs.Gives.{GivesIn};
ghost use Rattle.ffs_sections.specs.Sections.{HaveGuids};
ghost use Rattle.file_steps.specs.Files.{file_align, body_given, file_name, image_plan, file_given};
ghost use Rattle.ffs_sections.specs.File.{file_of};
ghost use Rattle.ffs_sections.specs.LentPlans.{lent_body};

use crate::parts::{files_checked, parts_of};
use build_base::{Guid, Permit, Refusal, Same, WantOfMemory};
use build_stages::{Given, Stop};
use doc_types::flash::FlashDoc;
use doc_types::image::{Body, FileImage, ImagePlan};
use doc_types::volume::{Align, FilePlan};
use doc_types::volume_head::VolumeHead;
use ffs_sections::{LentBody, LentPlan, file_of, file_of_lent};
use std::alloc::Global;
use step_answers::contents::whole_content;
use step_pack::{Key, Out};

/// An alignment that is stated in bytes, else 1.
pub fn file_align(align: Align) -> u32
    ensures { result ≡ file_align align }
{
    match align {
        Align::Unset | Align::Auto => 1,
        Align::Bytes(bytes) => bytes,
    }
}

fn body_given<'a>(
    alloc: Global,
    flash: &FlashDoc,
    plan: &FilePlan,
    given: &Given<'a, Key, Out>,
) -> Result<LentBody<'a>, Stop<Key>>
    ensures value { GivesIn (λ body. lent_body body) result
        (body_given flash.now plan.now plan.now.whole given.now) }
    ensures guids { IfOk result (λ body. HaveGuids (lent_body body)) }
{
    let sections = plan.sections.items();
    match &plan.whole {
        Some(path) => {
            let bytes = whole_content(alloc, given, path)?;
            Ok(LentBody::Whole(bytes.bytes()))
        }
        None => {
            files_checked(alloc, given, sections)?;
            let parts = parts_of(alloc, flash, given, sections)?;
            Ok(LentBody::Sections(parts))
        }
    }
}

fn file_name(guid: Option<Guid>) -> Result<Guid, Stop<Key>>
    ensures { GivesIn (λ guid. guid) result (file_name guid) }
{
    match guid {
        Some(guid) => Ok(guid),
        None => Err(Stop::ImpossibleAnswer),
    }
}

fn image_plan(
    alloc: Global,
    head: &VolumeHead,
    plan: &FilePlan,
    name: Guid,
    body: Body,
) -> Result<ImagePlan, WantOfMemory>
    ensures { IfOk result (λ p. p ≡ image_plan head.now plan.now name body) }
{
    Ok(ImagePlan {
        at: plan.at.copy(alloc)?,
        file_type: plan.file_type,
        guid: name,
        fixed: plan.fixed,
        checksum: plan.checksum,
        align: file_align(plan.align),
        erase: head.erase,
        ffs3: head.ffs3,
        body,
    })
}

/// The file of a plan with this name and body, in a volume with this head.
pub fn image(
    alloc: Global,
    permit: Permit,
    head: &VolumeHead,
    plan: &FilePlan,
    name: Guid,
    body: Body,
) -> Result<FileImage, Refusal>
    requires { HaveGuids body }
    ensures { Answers result (file_of (image_plan head.now plan.now name body)) }
{
    let image = image_plan(alloc, head, plan, name, body)?;
    file_of(alloc, permit, &image)
}

// A plan whose body is lent.
fn lent_plan<'a>(
    head: &VolumeHead,
    plan: &'a FilePlan,
    name: Guid,
    body: LentBody<'a>,
) -> LentPlan<'a>
    ensures { result ≡ image_plan head.now plan.now name (lent_body body.entry) }
{
    LentPlan {
        at: &plan.at,
        file_type: plan.file_type,
        guid: name,
        fixed: plan.fixed,
        checksum: plan.checksum,
        align: file_align(plan.align),
        erase: head.erase,
        ffs3: head.ffs3,
        body,
    }
}

fn lent_image(
    alloc: Global,
    permit: Permit,
    head: &VolumeHead,
    plan: &FilePlan,
    name: Guid,
    body: LentBody<'_>,
) -> Result<FileImage, Refusal>
    requires { HaveGuids (lent_body body) }
    ensures { Answers result (file_of (image_plan head.now plan.now name (lent_body body.entry))) }
{
    let lent = lent_plan(head, plan, name, body);
    file_of_lent(alloc, permit, &lent)
}

/// The file of a statement in a volume with this head.
#[tactic(auto, unfolding(crate::specs::Files::file_given))]
pub fn file_given(
    alloc: Global,
    permit: Permit,
    flash: &FlashDoc,
    head: &VolumeHead,
    plan: &FilePlan,
    given: &Given<'_, Key, Out>,
) -> Result<FileImage, Stop<Key>>
    ensures { GivesIn (λ file. file) result (file_given flash.now head.now plan.now given.now) }
{
    let body = body_given(alloc, flash, plan, given)?;
    let name = file_name(plan.guid)?;
    Ok(lent_image(alloc, permit, head, plan, name, body)?)
}
