//! The steps of volumes and devices.
ghost use Rattle.std.specs.Prelude.{◌<◌, true, false, length};
ghost use Rattle.build_stages.specs.Gives.{GivesIn};
ghost use Rattle.step_answers.specs.Readers.{AdvancesTo};
ghost use Rattle.volume_steps.specs.VolumeTrees.{device_at, image_by, plan_stages, volume_from, volume_stages, vpd_path, vpd_in, regions_stages, device_from, device_stages};

use crate::asks::{item_asks, region_asks, regions_below};
use crate::based::based_given;
use crate::devices::device_given;
use crate::volumes::volume_given;
use build_base::{Image, Path, Permit};
use build_stages::{Given, Known, Stop, gather};
use doc_types::flash::{DevicePlan, FlashDoc};
use doc_types::platform::PlatformDoc;
use doc_types::volume::VolumePlan;
use job_fields::fields::{TAG, TARGET};
use std::alloc::Global;
use step_answers::answers::{EdkAnswers, answers_to};
use step_answers::folders::{output_folder, path_below};
use step_answers::readers::platform_in;
pub use step_answers::readers::{flash_in, shared_flash};
use step_answers::volumes::{fits_u16, item_of_number, volume_at};
use step_answers::vpd_lines::has_vpd;
use step_engine::Ask;
use step_pack::{Key, Out};

fn device_at<'a>(
    alloc: Global,
    flash: &'a FlashDoc,
    number: u32,
) -> Result<&'a DevicePlan, Stop<Key>>
    ensures { GivesIn (λ plan. plan.now) result (device_at flash.now number) }
{
    item_of_number(alloc, flash, flash.devices.items().get(number as usize))
}

// The image of a volume as it stands, or moved to its base.
fn image_by(
    alloc: Global,
    permit: Permit,
    moved: bool,
    number: u32,
    plan: &VolumePlan,
    given: &Given<'_, Key, Out>,
) -> Result<Image, Stop<Key>>
    requires { length plan.now.items < 65536 }
    ensures { GivesIn (λ image. image) result (image_by moved number plan.now given.now) }
{
    if moved {
        return based_given(alloc, permit, number, plan, given);
    }
    volume_given(alloc, permit, number, plan, given)
}

// The volume of a plan.
fn volume_of_plan(
    alloc: Global,
    known: &Known<'_, Key, Out>,
    moved: bool,
    number: u32,
    plan: &VolumePlan,
    permit: Permit,
) -> Result<Out, Stop<Key>>
    ensures { AdvancesTo known.now (plan_stages moved number plan.now) result }
{
    let items = plan.items.items();
    if !fits_u16(items.len()) {
        return Err(Stop::ImpossibleAnswer);
    }
    let asks = item_asks(alloc, number, items)?;
    let (given, permit) = answers_to(alloc, known, &asks, permit)?;
    Ok(Out::Volume(image_by(alloc, permit, moved, number, plan, &given)?))
}

// The volume of a number, by the answer of the flash description.
fn volume_from(
    alloc: Global,
    known: &Known<'_, Key, Out>,
    moved: bool,
    number: u32,
    given: &Given<'_, Key, Out>,
    permit: Permit,
) -> Result<Out, Stop<Key>>
    ensures { AdvancesTo known.now (volume_from moved number given.now) result }
{
    let flash = flash_in(given)?;
    let plan = volume_at(alloc, flash, number)?;
    volume_of_plan(alloc, known, moved, number, plan, permit)
}

fn numbered_volume(
    alloc: Global,
    known: &Known<'_, Key, Out>,
    moved: bool,
    number: u32,
    permit: Permit,
) -> Result<Out, Stop<Key>>
    ensures { AdvancesTo known.now (volume_stages moved number) result }
{
    let asks = [Ask::Part(Key::Flash)];
    let (given, permit) = gather(alloc, &EdkAnswers, known, &asks, permit)?;
    volume_from(alloc, known, moved, number, &given, permit)
}

/// The volume of a number as it stands.
pub fn volume(
    alloc: Global,
    known: &Known<'_, Key, Out>,
    number: u32,
    permit: Permit,
) -> Result<Out, Stop<Key>>
    ensures { AdvancesTo known.now (volume_stages false number) result }
{
    numbered_volume(alloc, known, false, number, permit)
}

/// The volume of a number, moved to its base where it is to be.
pub fn rebased_volume(
    alloc: Global,
    known: &Known<'_, Key, Out>,
    number: u32,
    permit: Permit,
) -> Result<Out, Stop<Key>>
    ensures { AdvancesTo known.now (volume_stages true number) result }
{
    numbered_volume(alloc, known, true, number, permit)
}

// The path of the image of vital product data, where the platform has a line of it.
fn vpd_path(
    alloc: Global,
    platform: &PlatformDoc,
    target: &[u8],
    tag: &[u8],
) -> Result<Option<Path>, Stop<Key>>
    ensures { GivesIn (λ vpd. vpd) result (vpd_path platform.now target.now tag.now) }
{
    if has_vpd(platform) {
        let folder = output_folder(alloc, &platform.output, target, tag)?;
        return Ok(Some(path_below(alloc, &folder, b"FV/VPD.bin".as_slice())?));
    }
    Ok(None)
}

fn vpd_in(
    alloc: Global,
    platform: &PlatformDoc,
    given: &Given<'_, Key, Out>,
) -> Result<Option<Path>, Stop<Key>>
    ensures { GivesIn (λ vpd. vpd) result (vpd_in platform.now given.now) }
{
    let target = given.field(TARGET)?;
    let tag = given.field(TAG)?;
    vpd_path(alloc, platform, target.bytes(), tag.bytes())
}

// The device of a plan.
fn with_regions(
    alloc: Global,
    known: &Known<'_, Key, Out>,
    volumes: &[VolumePlan],
    vpd: &Option<Path>,
    plan: &DevicePlan,
    permit: Permit,
) -> Result<Out, Stop<Key>>
    ensures { AdvancesTo known.now (regions_stages volumes.now vpd.now plan.now) result }
{
    let regions = plan.regions.items();
    if !regions_below(regions) {
        return Err(Stop::ImpossibleAnswer);
    }
    let asks = region_asks(alloc, volumes, vpd, regions)?;
    let (given, permit) = answers_to(alloc, known, &asks, permit)?;
    Ok(Out::Device(device_given(alloc, permit, vpd, volumes, plan, &given)?))
}

// The device of a number, by the answers of the documents and of the fields.
fn device_from(
    alloc: Global,
    known: &Known<'_, Key, Out>,
    number: u32,
    given: &Given<'_, Key, Out>,
    permit: Permit,
) -> Result<Out, Stop<Key>>
    ensures { AdvancesTo known.now (device_from number given.now) result }
{
    let flash = flash_in(given)?;
    let platform = platform_in(given)?;
    let vpd = vpd_in(alloc, platform, given)?;
    let plan = device_at(alloc, flash, number)?;
    with_regions(alloc, known, flash.volumes.items(), &vpd, plan, permit)
}

/// The device of a number.
pub fn device(
    alloc: Global,
    known: &Known<'_, Key, Out>,
    number: u32,
    permit: Permit,
) -> Result<Out, Stop<Key>>
    ensures { AdvancesTo known.now (device_stages number) result }
{
    let asks = [
        Ask::Part(Key::Flash),
        Ask::Part(Key::Platform),
        Ask::Field(TARGET),
        Ask::Field(TAG),
    ];
    let (given, permit) = gather(alloc, &EdkAnswers, known, &asks, permit)?;
    device_from(alloc, known, number, &given, permit)
}
