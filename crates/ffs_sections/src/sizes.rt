//! The size of a file, by the lengths and the alignments of its sections alone.
ghost use Rattle.std.specs.Prelude.{◌≡◌, ◌≤◌, ◌<◌, ◌^◌, IfOk};
ghost use Rattle.build_base.specs.Answer.{Answers};
ghost use Rattle.build_base.specs.First.{and_then};
ghost use Rattle.ffs_sections.specs.File.{file_limit, is_large_file, head_len};
ghost use Rattle.ffs_sections.specs.Sizes.{body_length, size_checked, file_length, IsFileLength};

use crate::alignment::is_section_alignment;
use crate::faults::fault_with_size;
use crate::lent_plan::{LentBody, LentPlan};
use crate::sections::parts_end;
use crate::standard::{FFS3_LIMIT, FILE_LIMIT};
use build_base::Refusal;
use build_base::fault_codes::{ALIGNMENT_REFUSED, IMAGE_FILE_TOO_LONG};
use std::alloc::Global;

/// Whether a file whose body has so many bytes is large.
pub(crate) fn is_large_file(ffs3: bool, count: u64) -> bool
    requires { count < 2 ^ 63 }
    ensures { result ≡ is_large_file ffs3 count }
{
    ffs3 && 24 + count > FILE_LIMIT
}

pub(crate) fn head_len(large: bool) -> u64
    ensures value { result ≡ head_len large }
    ensures short { result ≤ 32 }
{
    if large { 32 } else { 24 }
}

fn file_limit(ffs3: bool) -> u64
    ensures { result ≡ file_limit ffs3 }
{
    if ffs3 { FFS3_LIMIT } else { FILE_LIMIT }
}

// The size of a file whose body has so many bytes, where it fits into its file system.
#[tactic(auto, unfolding(crate::specs::File::size_fault))]
fn check_size(alloc: Global, plan: &LentPlan<'_>, count: u64) -> Result<u64, Refusal>
    requires { count < 2 ^ 63 }
    ensures { Answers result (size_checked plan.now count) }
{
    let size = head_len(is_large_file(plan.ffs3, count)) + count;
    if size > file_limit(plan.ffs3) {
        return Err(Refusal::Bad(fault_with_size(alloc, IMAGE_FILE_TOO_LONG, plan.at, size)?));
    }
    Ok(size)
}

fn body_length(alloc: Global, plan: &LentPlan<'_>) -> Result<u64, Refusal>
    ensures value { Answers result (body_length plan.now plan.now.body) }
    ensures short { IfOk result (λ count. count < 2 ^ 63) }
{
    match &plan.body {
        LentBody::Whole(bytes) => Ok(bytes.len() as u64),
        LentBody::Sections(parts) => parts_end(alloc, plan.ffs3, plan.at, parts.items()),
    }
}

// The size of a file whose alignment is known to be one.
fn aligned_length(alloc: Global, plan: &LentPlan<'_>) -> Result<u64, Refusal>
    ensures { Answers result (and_then (body_length plan.now plan.now.body) (size_checked plan.now)) }
{
    let count = body_length(alloc, plan)?;
    check_size(alloc, plan, count)
}

// What the file's own bytes say of it.
fn size_law(plan: &LentPlan<'_>, name: &[u8; 16])
    requires { name.now ≡ plan.now.guid.0 }
    ensures { IsFileLength plan.now }
{}

/// The size of a plan's file with its header, or the file's fault. It is known by the lengths and
/// alignments of its sections, so no byte is made for it.
#[tactic(auto, unfolding(crate::specs::Sizes::file_length))]
pub fn file_length(alloc: Global, plan: &LentPlan<'_>) -> Result<u64, Refusal>
    ensures value { Answers result (file_length plan.now) }
    ensures law { IsFileLength plan.now }
{
    size_law(plan, &plan.guid.0);
    if !is_section_alignment(plan.align) {
        return Err(Refusal::Bad(fault_with_size(
            alloc,
            ALIGNMENT_REFUSED,
            plan.at,
            plan.align as u64,
        )?));
    }
    aligned_length(alloc, plan)
}
