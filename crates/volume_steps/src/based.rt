//! A volume that is moved to its base, by the answers of its step.
ghost use Rattle.std.specs.Prelude.{◌≡◌, ◌<◌, length, true};
ghost use Rattle.build_base.specs.Answer.{AnswersAs};
ghost use Rattle.build_stages.specs.Gives.{GivesIn};
ghost use Rattle.fv_compose.specs.Files.{AreAligned};
ghost use Rattle.fv_compose.specs.Volume.{HasShape};
ghost use Rattle.image_rebase.specs.Rebase.{IsBased, rebased_bytes};
ghost use Rattle.step_answers.specs.Volumes.{is_based};
ghost use Rattle.volume_steps.specs.Based.{rebased_image, based_given};

use crate::volumes::{images_of, volume_given};
use build_base::{Image, Permit, Refusal, Rows};
use build_stages::{Given, Stop};
use doc_types::image::FileImage;
use doc_types::volume::VolumePlan;
use doc_types::volume_head::VolumeHead;
use fv_compose::{are_aligned, has_shape};
use image_rebase::rebase_volume;
use std::alloc::Global;
use step_answers::volumes::is_based;
use step_pack::{Key, Out};

fn image(
    alloc: Global,
    permit: Permit,
    head: &VolumeHead,
    files: &Rows<FileImage>,
) -> Result<Image, Refusal>
    requires shape { HasShape head.now }
    requires based { IsBased head.now }
    requires aligned { AreAligned files.now }
    ensures { AnswersAs (λ image. image) result (rebased_bytes head.now files.now) }
{
    match rebase_volume(alloc, permit, head, files) {
        Ok(runs) => Ok(Image::of_runs(runs)),
        Err(refusal) => Err(refusal),
    }
}

#[tactic(auto, unfolding(crate::specs::Based::rebased_image), using(crate::proofs::BasedLemmas::is_based_head))]
fn rebased_image(
    alloc: Global,
    permit: Permit,
    head: &VolumeHead,
    files: &Rows<FileImage>,
) -> Result<Image, Stop<Key>>
    requires { is_based head.now ≡ true }
    ensures { GivesIn (λ image. image) result (rebased_image head.now files.now) }
{
    if has_shape(head) && are_aligned(files) {
        return Ok(image(alloc, permit, head, files)?);
    }
    Err(Stop::ImpossibleAnswer)
}

/// The volume of a number and a plan, by its files, moved to its base where it is to be.
#[tactic(auto, unfolding(crate::specs::Based::based_given))]
pub fn based_given(
    alloc: Global,
    permit: Permit,
    number: u32,
    plan: &VolumePlan,
    given: &Given<'_, Key, Out>,
) -> Result<Image, Stop<Key>>
    requires { length plan.now.items < 65536 }
    ensures { GivesIn (λ image. image) result (based_given number plan.now given.now) }
{
    if is_based(&plan.head) {
        let files = images_of(alloc, given, number, plan.items.items())?;
        return rebased_image(alloc, permit, &plan.head, &files);
    }
    volume_given(alloc, permit, number, plan, given)
}
