//! What a statement's module is, by the answers of a step.
ghost use Rattle.build_stages.specs.Gives.{GivesIn};
ghost use Rattle.file_steps.specs.Modules.{folder_in, plan_described, plan_below, plan_given};

use crate::plans::{ModulePlan, module_plan};
use build_base::Text;
use build_stages::{Given, Stop};
use doc_types::flash::FlashDoc;
use doc_types::module::InfDoc;
use doc_types::platform::PlatformDoc;
use doc_types::volume::InfLine;
use job_fields::fields::{TAG, TARGET};
use std::alloc::Global;
use step_answers::folders::build_folder;
use step_answers::readers::{inf_in, platform_in};
use step_answers::settings::arches_built_in;
use step_pack::{Key, Out};

// The folder of all outputs, by the target and the tag.
#[tactic(auto, unfolding(crate::specs::Modules::folder_in))]
fn folder_in(
    alloc: Global,
    platform: &PlatformDoc,
    given: &Given<'_, Key, Out>,
) -> Result<Text, Stop<Key>>
    ensures { GivesIn (λ folder. folder) result (folder_in platform.now given.now) }
{
    let target = given.field(TARGET)?;
    let tag = given.field(TAG)?;
    Ok(build_folder(alloc, &platform.output, target.bytes(), tag.bytes())?)
}

// The file of a statement's module, by the architectures, the target and the tag.
#[tactic(auto, unfolding(crate::specs::Modules::plan_described))]
fn plan_described(
    alloc: Global,
    flash: &FlashDoc,
    line: &InfLine,
    given: &Given<'_, Key, Out>,
    platform: &PlatformDoc,
    inf: &InfDoc,
) -> Result<ModulePlan, Stop<Key>>
    ensures { GivesIn (λ plan. plan) result
        (plan_described flash.now line.now given.now platform.now inf.now) }
{
    let arches = arches_built_in(alloc, platform, given)?;
    let folder = folder_in(alloc, platform, given)?;
    module_plan(alloc, flash, line, platform, &arches, inf, &folder)
}

// By the module's description before them.
#[tactic(auto, unfolding(crate::specs::Modules::plan_below))]
fn plan_below(
    alloc: Global,
    flash: &FlashDoc,
    line: &InfLine,
    given: &Given<'_, Key, Out>,
    platform: &PlatformDoc,
) -> Result<ModulePlan, Stop<Key>>
    ensures { GivesIn (λ plan. plan) result (plan_below flash.now line.now given.now platform.now) }
{
    let inf = inf_in(alloc, given, &line.inf)?;
    plan_described(alloc, flash, line, given, platform, inf.value())
}

/// The file of a statement's module, by the answers of what the statement asks.
#[tactic(auto, unfolding(crate::specs::Modules::plan_given))]
pub fn plan_given(
    alloc: Global,
    flash: &FlashDoc,
    line: &InfLine,
    given: &Given<'_, Key, Out>,
) -> Result<ModulePlan, Stop<Key>>
    ensures { GivesIn (λ plan. plan) result (plan_given flash.now line.now given.now) }
{
    let platform = platform_in(given)?;
    plan_below(alloc, flash, line, given, platform)
}
