//! The file of a module, by the answers of its step.
ghost use Rattle.std.specs.Prelude.{All, IfOk};
ghost use Rattle.build_stages.specs.Gives.{GivesIn};
ghost use Rattle.file_steps.specs.ModuleFiles.{sections_given, module_given};
ghost use Rattle.file_steps.specs.Sections.{HasGuid};

use crate::files::image;
use crate::plans::ModulePlan;
use crate::required::places_of;
use crate::sections::{expression_checked, files_checked, own_expression, parts};
use build_base::{Permit, Rows};
use build_stages::{Given, Stop};
use doc_types::image::{Body, FileImage, Part};
use doc_types::volume_head::VolumeHead;
use std::alloc::Global;
use step_pack::{Key, Out};

// The sections that are there, once all that they require is.
#[tactic(auto, unfolding(crate::specs::ModuleFiles::sections_given))]
fn sections_given(
    alloc: Global,
    plan: &ModulePlan,
    given: &Given<'_, Key, Out>,
) -> Result<Rows<Part>, Stop<Key>>
    ensures value { GivesIn (λ parts. parts) result (sections_given plan.now given.now) }
    ensures guids { IfOk result (All HasGuid) }
{
    let sections = plan.file.sections.items();
    let places = places_of(alloc, sections)?;
    files_checked(alloc, &plan.depex, given, &places, sections)?;
    let expression = own_expression(alloc, plan, given)?;
    expression_checked(alloc, &plan.depex, &places, sections, expression)?;
    parts(alloc, &plan.depex, expression, given, sections)
}

/// The file of a module in a volume with this head, by its plan.
#[tactic(auto, unfolding(crate::specs::ModuleFiles::module_given))]
pub fn module_given(
    alloc: Global,
    permit: Permit,
    head: &VolumeHead,
    plan: &ModulePlan,
    given: &Given<'_, Key, Out>,
) -> Result<FileImage, Stop<Key>>
    ensures { GivesIn (λ file. file) result (module_given head.now plan.now given.now) }
{
    let parts = sections_given(alloc, plan, given)?;
    let body = Body::Sections(parts);
    Ok(image(alloc, permit, head, &plan.file, plan.name, body)?)
}
