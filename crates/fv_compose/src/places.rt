//! The places of a volume's files, told without an image.
ghost use Rattle.std.specs.Prelude.{◌≡◌, ◌≤◌, ◌^◌, IfOk, Some, is_some, length};
ghost use Rattle.build_base.specs.Answer.{Answers};
ghost use Rattle.fv_compose.specs.Header.{header_end};
ghost use Rattle.fv_compose.specs.Files.{plain_files, top_of, end_of, AreAligned};
ghost use Rattle.fv_compose.specs.Turns.{pointed, own_start, own_starts, IsLaid};
ghost use Rattle.fv_compose.specs.Volume.{taken_by, length_of, HasShape, IsLength};
ghost use Rattle.fv_compose.specs.Places.{placed_at, placed_from, places_with, places_of};

use crate::files::{is_top, taken_by, top_of};
use crate::header::header_end;
use crate::image::{check_places, check_tops};
use crate::layout::{Layout, lay_out, next_end};
use crate::length::{full, length_for};
use build_base::{Refusal, Rows, WantOfMemory};
use doc_types::image::FileImage;
use doc_types::volume_head::VolumeHead;
use std::alloc::Global;

// Where a file of a volume of this length stands, by its own start among the others.
fn placed_at(size: u64, start: u64, file: &FileImage) -> u64
    ensures { (at : _) → start ≡ own_start at file.now → result ≡ placed_at size at file.now }
{
    if is_top(file) {
        return size.saturating_sub(file.bytes.bytes().len() as u64);
    }
    start
}

// Where each of the files stands behind a header that ends at `first`.
fn placed_from(
    alloc: Global,
    size: u64,
    first: u128,
    files: &[FileImage],
    starts: &[u128],
) -> Result<Rows<u64>, WantOfMemory>
    requires aligned { AreAligned files.now }
    requires starts { starts.now ≡ own_starts first files.now }
    requires short { end_of first (plain_files files.now) ≤ 2 ^ 28 }
    ensures { IfOk result (λ places. places ≡ placed_from size first files.now) }
{
    let mut places = Rows::new(alloc);
    let mut at = first;
    for (i, file) in files.iter().enumerate() {
        let start = starts[i];
        places.push(placed_at(size, start as u64, file))?;
        at = next_end(start, file);
    }
    Ok(places)
}

fn places_in(
    alloc: Global,
    plan: &VolumeHead,
    files: &[FileImage],
    top: Option<&FileImage>,
    layout: &Layout,
    size: u64,
) -> Result<Rows<u64>, Refusal>
    requires aligned { AreAligned files.now }
    requires top { pointed top ≡ top_of files.now }
    requires laid { IsLaid (header_end plan.now.name_guid) files.now layout.now }
    requires length { IsLength plan.now.block_size (is_some (pointed top))
        (taken_by layout.now.end (pointed top)) size }
    ensures { Answers result (places_with plan.now files.now (Some size)) }
{
    if let Err(refusal) = check_places(alloc, plan, files, top, layout, size) {
        return Err(refusal);
    }
    let first = header_end(&plan.name_guid) as u128;
    match placed_from(alloc, size, first, files, layout.starts.items()) {
        Ok(places) => Ok(places),
        Err(_) => Err(Refusal::WantOfMemory),
    }
}

// The places of files of which at most one is a top file.
fn places(alloc: Global, plan: &VolumeHead, files: &[FileImage]) -> Result<Rows<u64>, Refusal>
    requires shape { HasShape plan.now }
    requires aligned { AreAligned files.now }
    ensures { Answers result (places_with plan.now files.now (length_of plan.now files.now)) }
{
    let top = top_of(files);
    let layout = lay_out(alloc, header_end(&plan.name_guid) as u128, files)?;
    let taken = taken_by(layout.end, top);
    match length_for(plan.block_size, plan.size, top.is_some(), taken) {
        Some(size) => places_in(alloc, plan, files, top, &layout, size),
        None => Err(Refusal::Bad(full(alloc, plan, top.is_some(), taken)?)),
    }
}

/// Where each file stands in the volume that `compose` makes of these, in the order of the files,
/// counted from the volume's start; or the fault of that volume.
#[tactic(auto, unfolding(crate::specs::Places::places_of))]
pub fn file_places(
    alloc: Global,
    plan: &VolumeHead,
    files: &Rows<FileImage>,
) -> Result<Rows<u64>, Refusal>
    requires shape { HasShape plan.now }
    requires aligned { AreAligned files.now }
    ensures { Answers result (places_of plan.now files.now) }
{
    match check_tops(alloc, plan, files.items()) {
        Ok(()) => places(alloc, plan, files.items()),
        Err(refusal) => Err(refusal),
    }
}
