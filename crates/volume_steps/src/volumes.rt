//! A volume by the answers of its step.
ghost use Rattle.std.specs.Prelude.{◌<◌, length};
ghost use Rattle.build_base.specs.Answer.{AnswersAs};
ghost use Rattle.build_stages.specs.Gives.{GivesIn};
ghost use Rattle.fv_compose.specs.Files.{AreAligned};
ghost use Rattle.fv_compose.specs.Volume.{HasShape, volume_of};
ghost use Rattle.volume_steps.specs.Volumes.{file_in, image_of, images_of, composed_volume, volume_given};

use crate::asks::file_order;
use build_base::{Image, Permit, Refusal, Rows, Same};
use build_stages::{Given, Stop};
use doc_types::image::FileImage;
use doc_types::volume::{Item, VolumePlan};
use doc_types::volume_head::VolumeHead;
use fv_compose::{are_aligned, compose, has_shape};
use std::alloc::Global;
use step_pack::{Key, Out};

fn file_in(out: &Out) -> Result<&FileImage, Stop<Key>>
    ensures { GivesIn (λ file. file.now) result (file_in out.now) }
{
    match out {
        Out::File(file) => Ok(file),
        _ => Err(Stop::ImpossibleAnswer),
    }
}

fn image_of(
    alloc: Global,
    given: &Given<'_, Key, Out>,
    volume: u32,
    item: u32,
) -> Result<FileImage, Stop<Key>>
    ensures { GivesIn (λ file. file) result (image_of given.now volume item) }
{
    let file = file_in(given.part(&Key::File(volume, item))?)?;
    Ok(file.copy(alloc)?)
}

/// The files of the items of a volume, in the order in which they stand in it.
#[tactic(auto, unfolding(crate::specs::Volumes::images_of))]
pub fn images_of(
    alloc: Global,
    given: &Given<'_, Key, Out>,
    volume: u32,
    items: &[Item],
) -> Result<Rows<FileImage>, Stop<Key>>
    requires { length items.now < 65536 }
    ensures { GivesIn (λ images. images) result (images_of given.now volume items.now) }
{
    let order = file_order(alloc, items)?;
    let mut images = Rows::new(alloc);
    let mut left = order.items();
    while let [number, rest @ ..] = left {
        images.push(image_of(alloc, given, volume, *number)?)?;
        left = rest;
    }
    Ok(images)
}

fn image(
    alloc: Global,
    permit: Permit,
    head: &VolumeHead,
    files: &Rows<FileImage>,
) -> Result<Image, Refusal>
    requires head { HasShape head.now }
    requires files { AreAligned files.now }
    ensures { AnswersAs (λ image. image) result (volume_of head.now files.now) }
{
    match compose(alloc, permit, head, files) {
        Ok(runs) => Ok(Image::of_runs(runs)),
        Err(refusal) => Err(refusal),
    }
}

#[tactic(auto, unfolding(crate::specs::Volumes::composed_volume))]
fn composed_volume(
    alloc: Global,
    permit: Permit,
    head: &VolumeHead,
    files: &Rows<FileImage>,
) -> Result<Image, Stop<Key>>
    ensures { GivesIn (λ image. image) result (composed_volume head.now files.now) }
{
    if has_shape(head) && are_aligned(files) {
        return Ok(image(alloc, permit, head, files)?);
    }
    Err(Stop::ImpossibleAnswer)
}

/// The volume of a number and a plan, by its files.
#[tactic(auto, unfolding(crate::specs::Volumes::volume_given))]
pub fn volume_given(
    alloc: Global,
    permit: Permit,
    number: u32,
    plan: &VolumePlan,
    given: &Given<'_, Key, Out>,
) -> Result<Image, Stop<Key>>
    requires { length plan.now.items < 65536 }
    ensures { GivesIn (λ image. image) result (volume_given number plan.now given.now) }
{
    let files = images_of(alloc, given, number, plan.items.items())?;
    composed_volume(alloc, permit, &plan.head, &files)
}
