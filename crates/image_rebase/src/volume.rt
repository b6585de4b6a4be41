//! Volumes whose modules are moved.
ghost use Rattle.std.specs.Prelude.{◌≡◌, ◌↔◌, IsTrue, IfOk};
ghost use Rattle.build_base.specs.Answer.{AnswersAs};
ghost use Rattle.build_base.specs.Runs.{runs_bytes};
ghost use Rattle.fv_compose.specs.Files.{AreAligned, AreRunsOf};
ghost use Rattle.fv_compose.specs.Volume.{HasShape, volume_of};
ghost use Rattle.image_rebase.specs.Changes.{StaysBut};
ghost use Rattle.image_rebase.specs.Rebase.{IsBased, base_of, moved_volume, rebased_bytes};

use crate::files::move_files;
use build_base::{Permit, Refusal, Rows, Run};
use doc_types::image::FileImage;
use doc_types::volume_head::VolumeHead;
use fv_compose::{compose, file_places};
use std::alloc::Global;

/// Whether a head says where its volume lies, and that its modules are to be moved there.
pub fn is_based(head: &VolumeHead) -> bool
    ensures { IsTrue result ↔ IsBased head.now }
{
    if !head.force {
        return false;
    }
    head.base.is_some()
}

fn base_of(head: &VolumeHead) -> u64
    ensures { result ≡ base_of head.now }
{
    head.base.unwrap_or(0)
}

// The volume of files that stand at these places, each of them moved.
#[tactic(auto, unfolding(crate::specs::Rebase::moved_volume))]
fn move_volume(
    alloc: Global,
    permit: Permit,
    head: &VolumeHead,
    files: &[FileImage],
    places: &[u64],
) -> Result<Rows<Run>, Refusal>
    requires shape { HasShape head.now }
    requires aligned { AreAligned files.now }
    ensures value { AnswersAs runs_bytes result (moved_volume head.now files.now places.now) }
    ensures runs { IfOk result (AreRunsOf files.now) }
{
    match move_files(alloc, head.ffs3, base_of(head), files, places) {
        Ok(moved) => compose(alloc, permit, head, &moved),
        Err(refusal) => Err(refusal),
    }
}

// The volume of files each of which is moved at its place.
#[tactic(auto, unfolding(crate::specs::Rebase::rebased_bytes))]
fn rebased_runs(
    alloc: Global,
    permit: Permit,
    head: &VolumeHead,
    files: &Rows<FileImage>,
) -> Result<Rows<Run>, Refusal>
    requires shape { HasShape head.now }
    requires aligned { AreAligned files.now }
    ensures value { AnswersAs runs_bytes result (rebased_bytes head.now files.now) }
    ensures runs { IfOk result (AreRunsOf files.now) }
{
    match file_places(alloc, head, files) {
        Ok(places) => move_volume(alloc, permit, head, files.items(), places.items()),
        Err(refusal) => Err(refusal),
    }
}

/// The volume of a head and its files as runs, with each module moved to the address at which it
/// lies when the volume lies at its base. The first fault is that of `compose` (701 to 704), or of
/// the first module in the order of the files that has one: of its sections' places (734), of its
/// new ImageBase (735), of its base relocations' blocks (731), of their entries' types (732) or of
/// the places of the words that they name (733). All bytes but those of such words, of ImageBase
/// and the file checksums are those that `compose` gives.
pub fn rebase_volume(
    alloc: Global,
    permit: Permit,
    head: &VolumeHead,
    files: &Rows<FileImage>,
) -> Result<Rows<Run>, Refusal>
    requires shape { HasShape head.now }
    requires based { IsBased head.now }
    requires aligned { AreAligned files.now }
    ensures value { AnswersAs runs_bytes result (rebased_bytes head.now files.now) }
    ensures runs { IfOk result (AreRunsOf files.now) }
    ensures stays { IfOk result
        (λ runs. StaysBut head.now files.now (runs_bytes runs) (volume_of head.now files.now)) }
{
    match rebased_runs(alloc, permit, head, files) {
        Ok(runs) => Ok(runs),
        Err(refusal) => Err(refusal),
    }
}
