//! The step of the whole build.
ghost use Rattle.std.specs.Prelude.{◌≡◌, ◌++◌, ◌∷◌, ◌<◌, length, IfOk, OnOk};
ghost use Rattle.build_stages.specs.Gives.{GivesIn};
ghost use Rattle.build_stages.specs.Writing.{attempt};
ghost use Rattle.step_answers.specs.Readers.{AdvancesTo};
ghost use Rattle.step_answers.specs.Volumes.{volume_key};
ghost use Rattle.text_steps.specs.Asks.{build_module_asks};
ghost use Rattle.output_steps.specs.AllTree.{image_asks, step_where, steps_from, device_step, report_part, build_asks, folder_in, modules_in, wanted_in, report_in, files_stages, all_given, all_stages};

use crate::outputs::outputs_of;
use crate::wanted::{Wanted, is_marked, wanted_of};
use build_base::{Path, Permit, Rows, WantOfMemory};
use build_stages::{Given, Known, Stop, gather};
use doc_types::choice::Module;
use doc_types::flash::{DevicePlan, FlashDoc};
use doc_types::platform::PlatformDoc;
use doc_types::volume::VolumePlan;
use job_fields::fields::{ARCHES, FLASH, IMAGES, REPORT, TAG, TARGET};
use job_fields::readings::file_in;
use std::alloc::Global;
use step_answers::answers::{EdkAnswers, answers_to};
use step_answers::folders::output_folder;
use step_answers::readers::{flash_in, or_impossible, platform_in};
use step_answers::settings::built_modules;
use step_answers::volumes::{fits_u16, volume_key};
use step_answers::vpd_lines::has_vpd;
use step_engine::Ask;
use step_pack::{Key, Out};
use text_steps::push_module_asks;

fn push_volume(
    asks: &mut Rows<Ask<Key>>,
    is_wanted: bool,
    number: u32,
    plan: &VolumePlan,
) -> Result<(), WantOfMemory>
    ensures { OnOk result
        (asks.new ≡ asks.old ++ step_where is_wanted (volume_key number plan.now)) }
{
    if is_wanted {
        asks.push(Ask::Part(volume_key(number, plan)))?;
    }
    Ok(())
}

fn push_device(asks: &mut Rows<Ask<Key>>, is_wanted: bool, number: u32) -> Result<(), WantOfMemory>
    ensures { OnOk result (asks.new ≡ asks.old ++ step_where is_wanted (Key.Device number)) }
{
    if is_wanted {
        asks.push(Ask::Part(Key::Device(number)))?;
    }
    Ok(())
}

// Appends a step for each volume that is marked.
#[tactic(auto, unfolding(crate::specs::AllTree::steps_from))]
fn push_volumes(
    asks: &mut Rows<Ask<Key>>,
    marks: &[bool],
    plans: &[VolumePlan],
) -> Result<(), WantOfMemory>
    requires { length plans.now < 65536 }
    ensures { OnOk result (asks.new ≡ asks.old ++ steps_from volume_key marks.now 0 plans.now) }
{
    let mut number: u32 = 0;
    let mut left = plans;
    while let [plan, rest @ ..] = left {
        push_volume(asks, is_marked(marks, number), number, plan)?;
        number += 1;
        left = rest;
    }
    Ok(())
}

// Appends a step for each device that is marked.
#[tactic(auto, unfolding(crate::specs::AllTree::steps_from))]
fn push_devices(
    asks: &mut Rows<Ask<Key>>,
    marks: &[bool],
    plans: &[DevicePlan],
) -> Result<(), WantOfMemory>
    requires { length plans.now < 65536 }
    ensures { OnOk result (asks.new ≡ asks.old ++ steps_from device_step marks.now 0 plans.now) }
{
    let mut number: u32 = 0;
    let mut left = plans;
    while let [_plan, rest @ ..] = left {
        push_device(asks, is_marked(marks, number), number)?;
        number += 1;
        left = rest;
    }
    Ok(())
}

// Appends the step of the image of vital product data, where there is one.
fn push_vpd(asks: &mut Rows<Ask<Key>>, vpd: bool) -> Result<(), WantOfMemory>
    ensures { OnOk result (asks.new ≡ asks.old ++ step_where vpd Key.Vpd) }
{
    if vpd {
        asks.push(Ask::Part(Key::Vpd))?;
    }
    Ok(())
}

// Appends the step of the report, where one is wanted.
fn push_report(asks: &mut Rows<Ask<Key>>, report: &Option<Path>) -> Result<(), WantOfMemory>
    ensures { OnOk result (asks.new ≡ asks.old ++ report_part report.now) }
{
    match report {
        Some(_path) => asks.push(Ask::Part(Key::Report)),
        None => Ok(()),
    }
}

// Appends the rows of dynamic PCDs and the steps of each module.
fn push_modules(
    alloc: Global,
    asks: &mut Rows<Ask<Key>>,
    modules: &[Module],
) -> Result<(), WantOfMemory>
    ensures { OnOk result (asks.new
        ≡ asks.old ++ Ask.Part Key.PlatformPcds ∷ build_module_asks modules.now) }
{
    asks.push(Ask::Part(Key::PlatformPcds))?;
    push_module_asks(alloc, asks, modules)
}

// Appends the images that are wanted, that of vital product data, and the report.
fn push_images(
    asks: &mut Rows<Ask<Key>>,
    vpd: bool,
    flash: &FlashDoc,
    wanted: &Wanted,
    report: &Option<Path>,
) -> Result<(), WantOfMemory>
    requires volumes { length flash.now.volumes < 65536 }
    requires devices { length flash.now.devices < 65536 }
    ensures { OnOk result (asks.new ≡ asks.old ++ image_asks flash.now wanted.now
        ++ step_where vpd Key.Vpd ++ report_part report.now) }
{
    push_volumes(asks, wanted.volumes.items(), flash.volumes.items())?;
    push_devices(asks, wanted.devices.items(), flash.devices.items())?;
    push_vpd(asks, vpd)?;
    push_report(asks, report)
}

// The rows of dynamic PCDs, each module, the volumes that are wanted by their numbers, the devices,
// the image of vital product data, where there is one, and then the report.
fn build_asks(
    alloc: Global,
    vpd: bool,
    modules: &[Module],
    flash: &FlashDoc,
    wanted: &Wanted,
    report: &Option<Path>,
) -> Result<Rows<Ask<Key>>, WantOfMemory>
    requires volumes { length flash.now.volumes < 65536 }
    requires devices { length flash.now.devices < 65536 }
    ensures { IfOk result
        (λ asks. asks ≡ build_asks vpd modules.now flash.now wanted.now report.now) }
{
    let mut asks = Rows::new(alloc);
    push_modules(alloc, &mut asks, modules)?;
    push_images(&mut asks, vpd, flash, wanted, report)?;
    Ok(asks)
}

fn folder_in(
    alloc: Global,
    platform: &PlatformDoc,
    given: &Given<'_, Key, Out>,
) -> Result<Path, Stop<Key>>
    ensures { GivesIn (λ path. path) result (folder_in platform.now given.now) }
{
    let target = given.field(TARGET)?;
    let tag = given.field(TAG)?;
    output_folder(alloc, &platform.output, target.bytes(), tag.bytes())
}

fn modules_in(
    alloc: Global,
    platform: &PlatformDoc,
    given: &Given<'_, Key, Out>,
) -> Result<Rows<Module>, Stop<Key>>
    ensures { GivesIn (λ modules. modules) result (modules_in platform.now given.now) }
{
    let arches = given.field(ARCHES)?;
    built_modules(alloc, platform, arches.bytes())
}

// The images that the words want.
fn wanted_in(
    alloc: Global,
    flash: &FlashDoc,
    given: &Given<'_, Key, Out>,
) -> Result<Wanted, Stop<Key>>
    ensures { GivesIn (λ wanted. wanted) result (wanted_in flash.now given.now) }
{
    let text = given.field(IMAGES)?;
    wanted_of(alloc, flash, text.bytes())
}

// The file of the report, if one is wanted.
fn report_in(alloc: Global, given: &Given<'_, Key, Out>) -> Result<Option<Path>, Stop<Key>>
    ensures { GivesIn (λ report. report) result (report_in given.now) }
{
    let text = given.field(REPORT)?;
    or_impossible(file_in(alloc, text.bytes())?)
}

// Modules, images and the report, and then the files of the build.
fn files(
    alloc: Global,
    known: &Known<'_, Key, Out>,
    vpd: bool,
    folder: &Path,
    modules: &[Module],
    flash: &FlashDoc,
    wanted: &Wanted,
    report: &Option<Path>,
    permit: Permit,
) -> Result<Out, Stop<Key>>
    ensures { AdvancesTo known.now
        (files_stages vpd folder.now modules.now flash.now wanted.now report.now) result }
{
    if !fits_u16(flash.volumes.items().len()) || !fits_u16(flash.devices.items().len()) {
        return Err(Stop::ImpossibleAnswer);
    }
    let asks = build_asks(alloc, vpd, modules, flash, wanted, report)?;
    let (given, _permit) = answers_to(alloc, known, &asks, permit)?;
    let outputs = outputs_of(alloc, vpd, folder, modules, flash, wanted, report, &given)?;
    Ok(Out::All(outputs))
}

// The images that the words want and the report, and then the files of the build.
fn wanted_files(
    alloc: Global,
    known: &Known<'_, Key, Out>,
    vpd: bool,
    folder: &Path,
    modules: &[Module],
    flash: &FlashDoc,
    given: &Given<'_, Key, Out>,
    permit: Permit,
) -> Result<Out, Stop<Key>>
    ensures { AdvancesTo known.now
        (attempt (wanted_in flash.now given.now) (λ wanted. attempt (report_in given.now)
        (λ report. files_stages vpd folder.now modules.now flash.now wanted report))) result }
{
    let wanted = wanted_in(alloc, flash, given)?;
    let report = report_in(alloc, given)?;
    files(
        alloc, known, vpd, folder, modules, flash, &wanted, &report, permit,
    )
}

// The files of the whole build, by the answers of the documents and of the words.
fn all_given(
    alloc: Global,
    known: &Known<'_, Key, Out>,
    given: &Given<'_, Key, Out>,
    permit: Permit,
) -> Result<Out, Stop<Key>>
    ensures { AdvancesTo known.now (all_given given.now) result }
{
    let platform = platform_in(given)?;
    let flash = flash_in(given)?;
    let folder = folder_in(alloc, platform, given)?;
    let modules = modules_in(alloc, platform, given)?;
    let vpd = has_vpd(platform);
    wanted_files(
        alloc,
        known,
        vpd,
        &folder,
        modules.items(),
        flash,
        given,
        permit,
    )
}

/// The files of the whole build.
pub fn all(alloc: Global, known: &Known<'_, Key, Out>, permit: Permit) -> Result<Out, Stop<Key>>
    ensures { AdvancesTo known.now all_stages result }
{
    let asks = [
        Ask::Part(Key::Platform),
        Ask::Part(Key::Flash),
        Ask::Field(ARCHES),
        Ask::Field(TARGET),
        Ask::Field(TAG),
        Ask::Field(FLASH),
        Ask::Field(IMAGES),
        Ask::Field(REPORT),
    ];
    let (given, permit) = gather(alloc, &EdkAnswers, known, &asks, permit)?;
    all_given(alloc, known, &given, permit)
}
