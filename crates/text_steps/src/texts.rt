//! The steps of texts, of dependency expressions and of the report.
ghost use Rattle.std.specs.Prelude.{◌≡◌, IfOk};
ghost use Rattle.build_stages.specs.Gives.{GivesIn};
ghost use Rattle.step_answers.specs.Readers.{AdvancesTo};
ghost use Rattle.text_steps.specs.TextTrees.{code_from, code_first, code_stages, depex_from, depex_stages, told_modules_in, heading_by, heading_in, told_stages, told_in, report_stages};

use crate::asks::report_asks;
use crate::code::code_given;
use crate::depex::depex_given;
use crate::report::{Heading, heading_of, report_given, report_modules};
use build_base::together::two;
use build_base::{Permit, Rows, Same, Text, WantOfMemory};
use build_stages::{Given, Known, Stop, gather};
use doc_types::choice::{Choice, Module};
use doc_types::platform::PlatformDoc;
use doc_types::values::Values;
use job_fields::fields::{ARCHES, SKU, TAG, TARGET};
use job_fields::macros::{tag_in, target_in};
use library_steps::modules::module_parts;
use shared_value::Shared;
use std::alloc::Global;
use step_answers::answers::{EdkAnswers, answers_to};
use step_answers::readers::{choice_in, module_values, platform_in, shared_platform};
use step_engine::Ask;
use step_pack::{Key, Out};

#[tactic(auto, using(build_stages::specs::Bounds::advance_bind))]
fn code_from(
    alloc: Global,
    known: &Known<'_, Key, Out>,
    module: &Module,
    platform: &PlatformDoc,
    choice: &Choice,
    values: &Shared<Values>,
    permit: Permit,
) -> Result<Out, Stop<Key>>
    ensures { AdvancesTo known.now (code_from «module».now platform.now choice.now values.now) result }
{
    let (parts, permit) = module_parts(alloc, known, module, choice, permit)?;
    let texts = code_given(alloc, permit, platform, choice, values, parts)?;
    Ok(Out::Code(texts))
}

// The texts of a module, by the answers of the platform, of the libraries and of the values.
fn code_first(
    alloc: Global,
    known: &Known<'_, Key, Out>,
    module: &Module,
    given: &Given<'_, Key, Out>,
    permit: Permit,
) -> Result<Out, Stop<Key>>
    ensures { AdvancesTo known.now (code_first «module».now given.now) result }
{
    let platform = platform_in(given)?;
    let choice = choice_in(alloc, given, module)?;
    let values = module_values(alloc, given, module)?;
    code_from(alloc, known, module, platform, choice, values, permit)
}

/// The texts of a module.
pub fn code(
    alloc: Global,
    known: &Known<'_, Key, Out>,
    module: &Module,
    permit: Permit,
) -> Result<Out, Stop<Key>>
    ensures { AdvancesTo known.now (code_stages «module».now) result }
{
    let (chosen, valued) = two(module, module, alloc)?;
    let asks = [
        Ask::Part(Key::Platform),
        Ask::Part(Key::Choice(chosen)),
        Ask::Part(Key::Values(valued)),
    ];
    let (given, permit) = gather(alloc, &EdkAnswers, known, &asks, permit)?;
    code_first(alloc, known, module, &given, permit)
}

#[tactic(auto, using(build_stages::specs::Bounds::advance_bind))]
fn depex_from(
    alloc: Global,
    known: &Known<'_, Key, Out>,
    module: &Module,
    choice: &Choice,
    permit: Permit,
) -> Result<Out, Stop<Key>>
    ensures { AdvancesTo known.now (depex_from «module».now choice.now) result }
{
    let (parts, permit) = module_parts(alloc, known, module, choice, permit)?;
    let bytes = depex_given(alloc, permit, choice, &parts)?;
    Ok(Out::Depex(bytes))
}

/// The dependency expression of a module.
pub fn depex(
    alloc: Global,
    known: &Known<'_, Key, Out>,
    module: &Module,
    permit: Permit,
) -> Result<Out, Stop<Key>>
    ensures { AdvancesTo known.now (depex_stages «module».now) result }
{
    let own = module.copy(alloc)?;
    let asks = [Ask::Part(Key::Choice(own))];
    let (given, permit) = gather(alloc, &EdkAnswers, known, &asks, permit)?;
    let choice = choice_in(alloc, &given, module)?;
    depex_from(alloc, known, module, choice, permit)
}

fn told_modules_in(
    alloc: Global,
    platform: &PlatformDoc,
    given: &Given<'_, Key, Out>,
) -> Result<Rows<Module>, Stop<Key>>
    ensures { GivesIn (λ modules. modules) result (told_modules_in platform.now given.now) }
{
    let arches = given.field(ARCHES)?;
    report_modules(alloc, platform, arches.bytes())
}

fn stated_heading(
    alloc: Global,
    platform: &PlatformDoc,
    target_text: &[u8],
    tag_text: &[u8],
    sku: &[u8],
) -> Result<Heading, WantOfMemory>
    ensures { IfOk result (λ heading. heading
        ≡ heading_by platform.now target_text.now tag_text.now sku.now) }
{
    let target = Text::of(alloc, target_in(target_text))?;
    let tag = Text::of(alloc, tag_in(tag_text))?;
    heading_of(alloc, platform, target, tag, sku)
}

fn heading_in(
    alloc: Global,
    platform: &PlatformDoc,
    given: &Given<'_, Key, Out>,
) -> Result<Heading, Stop<Key>>
    ensures { GivesIn (λ heading. heading) result (heading_in platform.now given.now) }
{
    let target = given.field(TARGET)?;
    let tag = given.field(TAG)?;
    let sku = given.field(SKU)?;
    Ok(stated_heading(alloc, platform, target.bytes(), tag.bytes(), sku.bytes())?)
}

// The modules of a build, and then the report.
fn modules_and_report(
    alloc: Global,
    known: &Known<'_, Key, Out>,
    platform: &Shared<PlatformDoc>,
    heading: Heading,
    modules: &[Module],
    permit: Permit,
) -> Result<Out, Stop<Key>>
    ensures { AdvancesTo known.now (told_stages platform.now heading modules.now) result }
{
    let asks = report_asks(alloc, modules)?;
    let (given, _permit) = answers_to(alloc, known, &asks, permit)?;
    let text = report_given(alloc, platform, heading, modules, &given)?;
    Ok(Out::Report(text))
}

// The check of the words' architectures, and then the same.
fn told_in(
    alloc: Global,
    known: &Known<'_, Key, Out>,
    platform: &Shared<PlatformDoc>,
    given: &Given<'_, Key, Out>,
    permit: Permit,
) -> Result<Out, Stop<Key>>
    ensures { AdvancesTo known.now (told_in platform.now given.now) result }
{
    let modules = told_modules_in(alloc, platform.value(), given)?;
    let heading = heading_in(alloc, platform.value(), given)?;
    modules_and_report(alloc, known, platform, heading, modules.items(), permit)
}

/// The report of a build.
pub fn report(alloc: Global, known: &Known<'_, Key, Out>, permit: Permit) -> Result<Out, Stop<Key>>
    ensures { AdvancesTo known.now report_stages result }
{
    let asks = [
        Ask::Part(Key::Platform),
        Ask::Field(ARCHES),
        Ask::Field(TARGET),
        Ask::Field(TAG),
        Ask::Field(SKU),
    ];
    let (given, permit) = gather(alloc, &EdkAnswers, known, &asks, permit)?;
    let platform = shared_platform(&given)?;
    told_in(alloc, known, platform, &given, permit)
}
