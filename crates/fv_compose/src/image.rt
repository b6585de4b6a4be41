//! The image of a volume: header, files, pads and free space.
ghost use Rattle.std.specs.Prelude.{◌≡◌, ◌≤◌, ◌%◌, ◌==◌, ◌^◌, ◌↔◌, IsTrue, IfOk, IfSome, Some, is_some, true};
ghost use Rattle.std.specs.List.{list_all};
ghost use Rattle.build_base.specs.Answer.{AnswersAs, Checks};
ghost use Rattle.build_base.specs.Runs.{runs_bytes};
ghost use Rattle.ffs_sections.specs.Alignment.{IsAlignment};
ghost use Rattle.fv_compose.specs.Header.{header_end};
ghost use Rattle.fv_compose.specs.Files.{top_of, is_stated, AreAligned, AreRunsOf};
ghost use Rattle.fv_compose.specs.Turns.{pointed, own_starts, IsLaid};
ghost use Rattle.fv_compose.specs.Volume.{last_end, taken_by, holds, volume_fault, twice_fault, start_fault, top_fault, place_fault, volume_image, with_length, length_of, volume_of, head_fits, HasShape, IsLength};

use crate::files::{check_pads, check_top_pad, is_top, put_files, put_top, taken_by, top_of};
use crate::header::{header_end, start_bytes};
use crate::layout::{Layout, lay_out};
use crate::length::{full, length_for};
use build_base::fault_codes::{TOP_FILE_TWICE, TOP_FILE_UNALIGNED};
use build_base::{Fault, Permit, Place, Refusal, Rows, Run, RunWriter, Same, Text, WantOfMemory};
use doc_types::image::FileImage;
use doc_types::volume_head::{SIZE_LIMIT, VolumeHead};
use ffs_sections::alignment::is_file_alignment;
use ffs_sections::header::header_len;
use std::alloc::Global;

/// Whether a stated size is a whole number of blocks and at most 256M.
pub fn has_shape(plan: &VolumeHead) -> bool
    ensures value { result ≡ head_fits plan.now }
    ensures shape { IsTrue result ↔ HasShape plan.now }
{
    match plan.size {
        None => true,
        Some(size) => size <= SIZE_LIMIT && is_multiple(size, plan.block_size),
    }
}

// Whether a size is a multiple of a unit; of 0 there is the multiple 0 alone.
fn is_multiple(size: u64, unit: u64) -> bool
    ensures { result ≡ (size % unit == 0) }
{
    if unit == 0 {
        size == 0
    } else {
        size % unit == 0
    }
}

#[tactic(auto, unfolding(crate::specs::Files::is_stated))]
fn is_stated(file: &FileImage) -> bool
    ensures { result ≡ is_stated file.now }
{
    is_file_alignment(file.align)
}

/// Whether each file has an alignment that a file's header can state.
#[tactic(auto, using(crate::proofs::ShapeLemmas::files_shape))]
pub fn are_aligned(files: &Rows<FileImage>) -> bool
    ensures value { result ≡ list_all is_stated files.now }
    ensures aligned { IsTrue result ↔ AreAligned files.now }
{
    all_stated(files.items())
}

fn all_stated(files: &[FileImage]) -> bool
    ensures { result ≡ list_all is_stated files.now }
{
    files.iter().all(|file| is_stated(file))
}

// The fault of this code, with the volume's name.
fn volume_fault(
    alloc: Global,
    code: u16,
    place: &Place,
    plan: &VolumeHead,
) -> Result<Fault, WantOfMemory>
    ensures { IfOk result (λ f. f ≡ volume_fault code place.now plan.now) }
{
    Ok(Fault {
        code,
        place: place.copy(alloc)?,
        detail: plan.name.copy(alloc)?,
    })
}

/// A top file after another.
pub(crate) fn check_tops(
    alloc: Global,
    plan: &VolumeHead,
    files: &[FileImage],
) -> Result<(), Refusal>
    ensures { Checks result (twice_fault plan.now files.now) }
{
    let mut found = false;
    for file in files {
        let top = is_top(file);
        if found && top {
            return Err(Refusal::Bad(volume_fault(alloc, TOP_FILE_TWICE, &file.at, plan)?));
        }
        found = found || top;
    }
    Ok(())
}

// A file that can't start here.
fn check_start(
    alloc: Global,
    plan: &VolumeHead,
    start: u64,
    file: &FileImage,
) -> Result<(), Refusal>
    requires near { start ≤ 2 ^ 28 }
    requires aligned { IsAlignment file.now.align }
    ensures { Checks result (start_fault plan.now start file.now) }
{
    if start % 8 == 0 && (start + header_len(file.bytes.bytes()) as u64) % file.align as u64 == 0 {
        return Ok(());
    }
    Err(Refusal::Bad(volume_fault(alloc, TOP_FILE_UNALIGNED, &file.at, plan)?))
}

// A top file that can't end at the volume's last byte.
fn check_top(
    alloc: Global,
    plan: &VolumeHead,
    top: Option<&FileImage>,
    end: u128,
    size: u64,
) -> Result<(), Refusal>
    requires near { size ≤ 2 ^ 28 }
    requires room { holds (is_some (pointed top)) (taken_by end (pointed top)) size ≡ true }
    requires aligned { IfSome (pointed top) (λ file. IsAlignment file.align) }
    ensures { Checks result (top_fault plan.now (pointed top.entry) size) }
{
    match top {
        None => Ok(()),
        Some(file) => check_start(alloc, plan, size - file.bytes.bytes().len() as u64, file),
    }
}

/// The first file that can't stand in its place in a volume of this length.
pub(crate) fn check_places(
    alloc: Global,
    plan: &VolumeHead,
    files: &[FileImage],
    top: Option<&FileImage>,
    layout: &Layout,
    size: u64,
) -> Result<(), Refusal>
    requires aligned { AreAligned files.now }
    requires top { pointed top ≡ top_of files.now }
    requires laid { IsLaid (header_end plan.now.name_guid) files.now layout.now }
    requires length { IsLength plan.now.block_size (is_some (pointed top))
        (taken_by layout.now.end (pointed top)) size }
    ensures { Checks result (place_fault plan.now files.now size) }
{
    let first = header_end(&plan.name_guid) as u128;
    check_top(alloc, plan, top, layout.end, size)?;
    check_pads(alloc, plan.ffs3, first, files, layout.starts.items())?;
    check_top_pad(alloc, plan.ffs3, layout.end, top, size)?;
    Ok(())
}

// The image of a volume of this length.
fn image(
    alloc: Global,
    plan: &VolumeHead,
    files: &[FileImage],
    top: Option<&FileImage>,
    starts: &[u128],
    size: u64,
) -> Result<Rows<Run>, WantOfMemory>
    requires aligned { AreAligned files.now }
    requires top { pointed top ≡ top_of files.now }
    requires starts { starts.now ≡ own_starts (header_end plan.now.name_guid) files.now }
    requires length { IsLength plan.now.block_size (is_some (pointed top))
        (taken_by (last_end plan.now files.now) (pointed top)) size }
    ensures value { IfOk result (λ runs. runs_bytes runs ≡ volume_image plan.now files.now size) }
    ensures runs { IfOk result (AreRunsOf files.now) }
{
    let head = start_bytes(alloc, plan, size)?;
    let mut out = RunWriter::new(alloc, plan.erase);
    out.put(Text::from_vec(head))?;
    put_files(alloc, &mut out, files, starts, plan.erase)?;
    put_top(alloc, &mut out, top, size, plan.erase)?;
    let len = out.length();
    out.fill(size - len)?;
    Ok(out.finish())
}

fn runs_of_layout(
    alloc: Global,
    plan: &VolumeHead,
    files: &[FileImage],
    top: Option<&FileImage>,
    layout: &Layout,
    size: u64,
) -> Result<Rows<Run>, Refusal>
    requires aligned { AreAligned files.now }
    requires top { pointed top ≡ top_of files.now }
    requires laid { IsLaid (header_end plan.now.name_guid) files.now layout.now }
    requires length { IsLength plan.now.block_size (is_some (pointed top))
        (taken_by layout.now.end (pointed top)) size }
    ensures value { AnswersAs runs_bytes result (with_length plan.now files.now (Some size)) }
    ensures runs { IfOk result (AreRunsOf files.now) }
{
    if let Err(refusal) = check_places(alloc, plan, files, top, layout, size) {
        return Err(refusal);
    }
    match image(alloc, plan, files, top, layout.starts.items(), size) {
        Ok(runs) => Ok(runs),
        Err(_) => Err(Refusal::WantOfMemory),
    }
}

// The volume of files of which at most one is a top file.
fn volume(alloc: Global, plan: &VolumeHead, files: &[FileImage]) -> Result<Rows<Run>, Refusal>
    requires shape { HasShape plan.now }
    requires aligned { AreAligned files.now }
    ensures value { AnswersAs runs_bytes result
        (with_length plan.now files.now (length_of plan.now files.now)) }
    ensures runs { IfOk result (AreRunsOf files.now) }
{
    let top = top_of(files);
    let layout = lay_out(alloc, header_end(&plan.name_guid) as u128, files)?;
    let taken = taken_by(layout.end, top);
    match length_for(plan.block_size, plan.size, top.is_some(), taken) {
        Some(size) => runs_of_layout(alloc, plan, files, top, &layout, size),
        None => Err(Refusal::Bad(full(alloc, plan, top.is_some(), taken)?)),
    }
}

/// The volume of a head and its files, each at the least place that it may start at, as runs. The
/// first fault is that of a second top file (702), of want of space (701), of the top file's place
/// (703) or of a pad that is too long (704).
#[tactic(auto, unfolding(crate::specs::Volume::volume_of))]
pub fn compose(
    alloc: Global,
    permit: Permit,
    plan: &VolumeHead,
    files: &Rows<FileImage>,
) -> Result<Rows<Run>, Refusal>
    requires shape { HasShape plan.now }
    requires aligned { AreAligned files.now }
    ensures value { AnswersAs runs_bytes result (volume_of plan.now files.now) }
    ensures runs { IfOk result (AreRunsOf files.now) }
{
    let _spent = permit;
    match check_tops(alloc, plan, files.items()) {
        Ok(()) => volume(alloc, plan, files.items()),
        Err(refusal) => Err(refusal),
    }
}
