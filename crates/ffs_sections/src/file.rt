//! Files: a header and a body.
ghost use Rattle.std.specs.Prelude.{◌≡◌, ◌≤◌, ◌<◌, [], true, is_ok, length, Ok, IfOk, if◌then◌else◌};
ghost use Rattle.build_base.specs.Answer.{Answers, AnswersAs};
ghost use Rattle.doc_types.specs.declared.image.Body.TheVariants.{Whole, Sections};
ghost use Rattle.ffs_sections.specs.Sections.{HaveGuids, with_parts};
ghost use Rattle.ffs_sections.specs.Standard.{FFS_FIXED_CHECKSUM};
ghost use Rattle.ffs_sections.specs.File.{greatest, body_align, plan_step, attributes_of, plan_head, file_bytes, file_size, file_limit, file_of, header_len, image_of, IsFileImage};
ghost use Rattle.ffs_sections.specs.LentPlans.{lent_body};
ghost use Rattle.ffs_sections.specs.Sizes.{file_length};
ghost use Rattle.ffs_sections.specs.Sums.{zero_byte};

use crate::alignment::{alignment_index, step_align, step_bits};
use crate::header::{Head, append_head, state_of};
use crate::lent::LentPart;
use crate::lent_plan::{LentBody, LentPlan, lent_plan};
use crate::sections::add_parts;
use crate::sizes::{file_length, head_len, is_large_file};
use crate::standard::{FFS_ATTRIB_CHECKSUM, FFS_ATTRIB_FIXED, FFS_FIXED_CHECKSUM};
use crate::sums::body_sum;
use build_base::{Permit, Refusal, Same, Text, WantOfMemory};
use doc_types::image::{FileImage, ImagePlan};
use std::alloc::Global;

fn greatest(align: u32, parts: &[LentPart<'_>]) -> u32
    ensures { result ≡ greatest align parts.now }
{
    let mut most = align;
    for part in parts {
        most = most.max(part.align);
    }
    most
}

fn body_align(align: u32, body: &LentBody<'_>) -> u32
    ensures { result ≡ body_align align (lent_body body.now) }
{
    match body {
        LentBody::Whole(_) => align,
        LentBody::Sections(parts) => greatest(align, parts.items()),
    }
}

fn attributes(plan: &LentPlan<'_>, step: usize) -> u8
    requires step { step ≡ plan_step plan.now }
    requires below { step < 16 }
    ensures value { result ≡ attributes_of plan.now }
    ensures small { result < 128 }
{
    let fixed = if plan.fixed { FFS_ATTRIB_FIXED } else { 0 };
    let checksum = if plan.checksum {
        FFS_ATTRIB_CHECKSUM
    } else {
        0
    };
    fixed + checksum + step_bits(step)
}

fn check_byte(checksum: bool, body: &[u8]) -> u8
    ensures { result ≡ (if checksum then zero_byte body.now else FFS_FIXED_CHECKSUM) }
{
    if checksum {
        body_sum(body)
    } else {
        FFS_FIXED_CHECKSUM
    }
}

// The header of a plan's file of this size.
fn plan_head(plan: &LentPlan<'_>, body: &[u8], step: usize, size: u64) -> Head
    requires step { step ≡ plan_step plan.now }
    requires below { step < 16 }
    requires size { size ≡ file_size plan.now.ffs3 (length body.now) }
    ensures value { result ≡ plan_head plan.now body.now }
    ensures small { result.attributes < 128 }
{
    Head {
        check: check_byte(plan.checksum, body),
        kind: plan.file_type,
        attributes: attributes(plan, step),
        size,
        state: state_of(plan.erase),
    }
}

#[tactic(auto, unfolding(crate::specs::File::file_bytes))]
fn bytes(
    alloc: Global,
    plan: &LentPlan<'_>,
    name: &[u8; 16],
    body: &[u8],
    step: usize,
) -> Result<Text, WantOfMemory>
    requires name { name.now ≡ plan.now.guid.0 }
    requires step { step ≡ plan_step plan.now }
    requires below { step < 16 }
    ensures { IfOk result (λ t. t ≡ file_bytes plan.now body.now) }
{
    let large = is_large_file(plan.ffs3, body.len() as u64);
    let size = head_len(large) + body.len() as u64;
    let head = plan_head(plan, body, step, size);
    let mut out = Vec::new(alloc);
    append_head(alloc, &mut out, large, name, &head)?;
    out.extend_from_slice(body)?;
    Text::from_vec_shared(alloc, out)
}

// The same, with a header of the length that it states.
fn file_bytes(
    alloc: Global,
    plan: &LentPlan<'_>,
    name: &[u8; 16],
    body: &[u8],
    step: usize,
) -> Result<Text, WantOfMemory>
    requires name { name.now ≡ plan.now.guid.0 }
    requires step { step ≡ plan_step plan.now }
    requires below { step < 16 }
    ensures value { IfOk result (λ t. t ≡ file_bytes plan.now body.now) }
    ensures head { IfOk result (λ t. header_len t ≤ length t) }
    ensures size { IfOk result (λ t. length t ≡ file_size plan.now.ffs3 (length body.now)) }
{
    let text = bytes(alloc, plan, name, body, step)?;
    Ok(text)
}

// The file of a plan whose body is known to fit, so no more bytes are made than it may have.
fn image(alloc: Global, plan: &LentPlan<'_>, body: &[u8]) -> Result<FileImage, WantOfMemory>
    requires fits { file_size plan.now.ffs3 (length body.now) ≤ file_limit plan.now.ffs3 }
    ensures value { IfOk result (λ file. file ≡ image_of plan.now body.now) }
    ensures shape { IfOk result IsFileImage }
    ensures short { IfOk result (λ file. length file.bytes ≤ file_limit plan.now.ffs3) }
{
    let step = alignment_index(body_align(plan.align, &plan.body));
    Ok(FileImage {
        at: plan.at.copy(alloc)?,
        guid: plan.guid,
        align: step_align(step),
        bytes: file_bytes(alloc, plan, &plan.guid.0, body, step)?,
    })
}

// The body of a plan's file with these sections.
fn sections_body(
    alloc: Global,
    plan: &LentPlan<'_>,
    parts: &[LentPart<'_>],
) -> Result<Vec<u8>, Refusal>
    ensures { AnswersAs (λ body. body.items) result
        (with_parts plan.now.ffs3 plan.now.at [] parts.now) }
{
    let mut body = Vec::new(alloc);
    match add_parts(alloc, &mut body, plan.ffs3, plan.at, parts) {
        Ok(()) => Ok(body),
        Err(refusal) => Err(refusal),
    }
}

// The file of a plan with these sections.
#[tactic(auto, using(crate::proofs::SizeLemmas::sections_fit, crate::proofs::SizeLemmas::sections_made, crate::proofs::SizeLemmas::sections_refused))]
fn sections_image(
    alloc: Global,
    plan: &LentPlan<'_>,
    parts: &[LentPart<'_>],
) -> Result<FileImage, Refusal>
    requires body { plan.now.body ≡ Sections parts.now }
    requires fits { is_ok (file_length plan.now) ≡ true }
    ensures value { Answers result (file_of plan.now) }
    ensures shape { IfOk result IsFileImage }
    ensures short { IfOk result (λ file. length file.bytes ≤ file_limit plan.now.ffs3) }
{
    match sections_body(alloc, plan, parts) {
        Ok(body) => Ok(image(alloc, plan, body.as_slice())?),
        Err(refusal) => Err(refusal),
    }
}

#[tactic(auto, using(crate::proofs::SizeLemmas::whole_fits, crate::proofs::SizeLemmas::whole_made))]
fn whole_image(alloc: Global, plan: &LentPlan<'_>, body: &[u8]) -> Result<FileImage, WantOfMemory>
    requires body { plan.now.body ≡ Whole body.now }
    requires fits { is_ok (file_length plan.now) ≡ true }
    ensures value { IfOk result (λ file. file_of plan.now ≡ Ok file) }
    ensures shape { IfOk result IsFileImage }
    ensures short { IfOk result (λ file. length file.bytes ≤ file_limit plan.now.ffs3) }
{
    let file = image(alloc, plan, body)?;
    Ok(file)
}

// The file of a plan that is known to fit.
fn make_file(alloc: Global, plan: &LentPlan<'_>) -> Result<FileImage, Refusal>
    requires { is_ok (file_length plan.now) ≡ true }
    ensures value { Answers result (file_of plan.now) }
    ensures shape { IfOk result IsFileImage }
    ensures short { IfOk result (λ file. length file.bytes ≤ file_limit plan.now.ffs3) }
{
    match &plan.body {
        LentBody::Whole(bytes) => Ok(whole_image(alloc, plan, bytes)?),
        LentBody::Sections(parts) => sections_image(alloc, plan, parts.items()),
    }
}

/// The file of a plan whose body is lent. It is that of `file_of`, and its bytes are made behind
/// all that may be at fault: its size is known by lengths alone (`file_length`).
#[tactic(auto, using(crate::proofs::SizeLemmas::refused_length))]
pub fn file_of_lent(
    alloc: Global,
    permit: Permit,
    plan: &LentPlan<'_>,
) -> Result<FileImage, Refusal>
    requires { HaveGuids plan.now.body }
    ensures value { Answers result (file_of plan.now) }
    ensures shape { IfOk result IsFileImage }
    ensures short { IfOk result (λ file. length file.bytes ≤ file_limit plan.now.ffs3) }
{
    let _spent = permit;
    match file_length(alloc, plan) {
        Ok(_) => make_file(alloc, plan),
        Err(refusal) => Err(refusal),
    }
}

/// The file of a plan, header and body. The first fault is that of the file's alignment (613), of a
/// section in order (613 of its alignment, then 611 of its size), or of the file's size (612).
pub fn file_of(alloc: Global, permit: Permit, plan: &ImagePlan) -> Result<FileImage, Refusal>
    requires { HaveGuids plan.now.body }
    ensures value { Answers result (file_of plan.now) }
    ensures shape { IfOk result IsFileImage }
    ensures short { IfOk result (λ file. length file.bytes ≤ file_limit plan.now.ffs3) }
{
    let lent = lent_plan(alloc, plan)?;
    file_of_lent(alloc, permit, &lent)
}
