//! The steps of files.
ghost use Rattle.build_stages.specs.Gives.{GivesIn};
ghost use Rattle.step_answers.specs.Readers.{AdvancesTo};
ghost use Rattle.file_steps.specs.FileTrees.{item_at, sections_stages, module_from, module_stages, apriori_stages, item_stages, file_from, file_stages};

use crate::apriori::apriori_given;
use crate::asks::{file_asks, sections_below};
use crate::files::file_given;
use crate::module_asks::{line_asks, members_asks, plan_asks};
use crate::module_files::module_given;
use crate::modules::plan_given;
use crate::plans::ModulePlan;
use build_base::{Permit, Place};
use build_stages::{Given, Known, Stop, gather};
use doc_types::flash::FlashDoc;
use doc_types::volume::{FilePlan, InfLine, Item, Member, VolumePlan};
use doc_types::volume_head::VolumeHead;
use std::alloc::Global;
use step_answers::answers::{EdkAnswers, answers_to};
use step_answers::readers::flash_in;
use step_answers::volumes::{item_of_number, volume_at};
use step_engine::Ask;
use step_pack::{Key, Out};

fn item_at<'a>(
    alloc: Global,
    flash: &FlashDoc,
    plan: &'a VolumePlan,
    number: u32,
) -> Result<&'a Item, Stop<Key>>
    ensures { GivesIn (λ item. item.now) result (item_at flash.now plan.now number) }
{
    item_of_number(alloc, flash, plan.items.items().get(number as usize))
}

// The file of a FILE statement.
fn statement(
    alloc: Global,
    known: &Known<'_, Key, Out>,
    volume: u32,
    flash: &FlashDoc,
    head: &VolumeHead,
    plan: &FilePlan,
    permit: Permit,
) -> Result<Out, Stop<Key>>
    ensures { AdvancesTo known.now (item_stages volume flash.now head.now (Item.File plan.now)) result }
{
    if !sections_below(volume, plan.sections.items()) {
        return Err(Stop::ImpossibleAnswer);
    }
    let asks = file_asks(alloc, flash.volumes.items(), plan)?;
    let (given, permit) = answers_to(alloc, known, &asks, permit)?;
    Ok(Out::File(file_given(alloc, permit, flash, head, plan, &given)?))
}

// The file of a module, by its plan.
fn module_sections(
    alloc: Global,
    known: &Known<'_, Key, Out>,
    head: &VolumeHead,
    plan: &ModulePlan,
    permit: Permit,
) -> Result<Out, Stop<Key>>
    ensures { AdvancesTo known.now (sections_stages head.now plan.now) result }
{
    let asks = plan_asks(alloc, plan)?;
    let (given, permit) = answers_to(alloc, known, &asks, permit)?;
    Ok(Out::File(module_given(alloc, permit, head, plan, &given)?))
}

// The module of an INF statement by the answers, and then its file.
fn module_from(
    alloc: Global,
    known: &Known<'_, Key, Out>,
    flash: &FlashDoc,
    head: &VolumeHead,
    line: &InfLine,
    given: &Given<'_, Key, Out>,
    permit: Permit,
) -> Result<Out, Stop<Key>>
    ensures { AdvancesTo known.now (module_from flash.now head.now line.now given.now) result }
{
    let plan = plan_given(alloc, flash, line, given)?;
    module_sections(alloc, known, head, &plan, permit)
}

// The file of the module of an INF statement.
fn module_file(
    alloc: Global,
    known: &Known<'_, Key, Out>,
    flash: &FlashDoc,
    head: &VolumeHead,
    line: &InfLine,
    permit: Permit,
) -> Result<Out, Stop<Key>>
    ensures { AdvancesTo known.now (module_stages flash.now head.now line.now) result }
{
    let asks = line_asks(alloc, line)?;
    let (given, permit) = answers_to(alloc, known, &asks, permit)?;
    module_from(alloc, known, flash, head, line, &given, permit)
}

// The a priori file of a statement.
fn apriori_file(
    alloc: Global,
    known: &Known<'_, Key, Out>,
    head: &VolumeHead,
    at: &Place,
    pei: bool,
    members: &[Member],
    permit: Permit,
) -> Result<Out, Stop<Key>>
    ensures { AdvancesTo known.now (apriori_stages head.now at.now pei members.now) result }
{
    let asks = members_asks(alloc, members)?;
    let (given, permit) = answers_to(alloc, known, &asks, permit)?;
    Ok(Out::File(apriori_given(alloc, permit, head, at, pei, members, &given)?))
}

// The file of an item of a volume.
fn item_file(
    alloc: Global,
    known: &Known<'_, Key, Out>,
    volume: u32,
    flash: &FlashDoc,
    head: &VolumeHead,
    item: &Item,
    permit: Permit,
) -> Result<Out, Stop<Key>>
    ensures { AdvancesTo known.now (item_stages volume flash.now head.now item.now) result }
{
    match item {
        Item::File(plan) => statement(alloc, known, volume, flash, head, plan, permit),
        Item::Apriori { at, pei, members } => {
            apriori_file(alloc, known, head, at, *pei, members.items(), permit)
        }
        Item::Inf(line) => module_file(alloc, known, flash, head, line, permit),
    }
}

// The file of an item of a volume, by the answer of the flash description.
fn file_from(
    alloc: Global,
    known: &Known<'_, Key, Out>,
    volume: u32,
    item: u32,
    given: &Given<'_, Key, Out>,
    permit: Permit,
) -> Result<Out, Stop<Key>>
    ensures { AdvancesTo known.now (file_from volume item given.now) result }
{
    let flash = flash_in(given)?;
    let plan = volume_at(alloc, flash, volume)?;
    let item = item_at(alloc, flash, plan, item)?;
    item_file(alloc, known, volume, flash, &plan.head, item, permit)
}

/// The file of an item of a volume.
pub fn file(
    alloc: Global,
    known: &Known<'_, Key, Out>,
    volume: u32,
    item: u32,
    permit: Permit,
) -> Result<Out, Stop<Key>>
    ensures { AdvancesTo known.now (file_stages volume item) result }
{
    let asks = [Ask::Part(Key::Flash)];
    let (given, permit) = gather(alloc, &EdkAnswers, known, &asks, permit)?;
    file_from(alloc, known, volume, item, &given, permit)
}
