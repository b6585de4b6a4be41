//! The report of a build.
ghost use Rattle.std.specs.Prelude.{◌≡◌, filter, map, Ok, IfOk};
ghost use Rattle.build_stages.specs.Gives.{GivesIn};
ghost use Rattle.step_answers.specs.Settings.{named_skus};
ghost use Rattle.pcd_resolve.specs.Platform.{is_chosen, wanted};
ghost use Rattle.text_steps.specs.Report.{report_modules, report_skus, heading_of, module_report, report_in, reports_in, report_ask, text_of, report_given};

use build_base::together::{three, two};
use build_base::{Rows, Same, Text, WantOfMemory};
use build_stages::{Given, Stop};
use build_texts::{ModuleReport, ReportAsk, report_text};
use doc_types::choice::{Choice, Module};
use doc_types::platform::{PlatformDoc, Sku};
use doc_types::values::Values;
use meta_lexer::parts::field_texts;
use pcd_resolve::skus::chosen_skus;
use shared_value::Shared;
use std::alloc::Global;
use step_answers::readers::{choice_in, module_values, values_in};
use step_answers::settings::{Setting, setting_of};
use step_pack::{Key, Out};

/// What stands at the head of a report: the target, the tool chain's tag, and the chosen SKUs.
#[derive(Drop)]
pub struct Heading {
    pub target: Text,
    pub tag: Text,
    pub skus: Rows<Sku>,
}

/// The modules that are built. Fault 232 of an architecture that the words name and the platform
/// doesn't support.
#[tactic(auto, unfolding(crate::specs::Report::report_modules))]
pub fn report_modules(
    alloc: Global,
    platform: &PlatformDoc,
    arches: &[u8],
) -> Result<Rows<Module>, Stop<Key>>
    ensures { GivesIn (λ modules. modules) result (report_modules platform.now arches.now) }
{
    let none = b"".as_slice();
    let Setting { modules, .. } = setting_of(alloc, platform, arches, none, none)?;
    Ok(modules)
}

fn wanted_names(alloc: Global, sku: &[u8], choice: &[u8]) -> Result<Rows<Text>, WantOfMemory>
    ensures { IfOk result (λ names. names ≡ wanted (named_skus sku.now) choice.now) }
{
    if sku.is_empty() {
        return field_texts(alloc, choice);
    }
    let mut names = Rows::new(alloc);
    names.push(Text::of(alloc, sku)?)?;
    Ok(names)
}

// The same SKUs, owned.
fn each_sku(alloc: Global, skus: &[&Sku]) -> Result<Rows<Sku>, WantOfMemory>
    ensures { IfOk result (λ rows. rows ≡ map (λ s. s.now) skus.now) }
{
    let mut rows = Rows::new(alloc);
    for sku in skus {
        rows.push(sku.copy(alloc)?)?;
    }
    Ok(rows)
}

fn copies_of_chosen(alloc: Global, names: &[Text], skus: &[Sku]) -> Result<Rows<Sku>, WantOfMemory>
    ensures { IfOk result (λ rows. rows ≡ filter (is_chosen names.now) skus.now) }
{
    let picked = chosen_skus(alloc, names, skus)?;
    each_sku(alloc, picked.as_slice())
}

#[tactic(auto, unfolding(crate::specs::Report::report_skus))]
fn report_skus(alloc: Global, platform: &PlatformDoc, sku: &[u8]) -> Result<Rows<Sku>, WantOfMemory>
    ensures { IfOk result (λ skus. skus ≡ report_skus platform.now sku.now) }
{
    let names = wanted_names(alloc, sku, platform.sku_choice.bytes())?;
    copies_of_chosen(alloc, names.items(), platform.skus.items())
}

/// What stands at the head of a report, by the SKU that the words choose.
pub fn heading_of(
    alloc: Global,
    platform: &PlatformDoc,
    target: Text,
    tag: Text,
    sku: &[u8],
) -> Result<Heading, WantOfMemory>
    ensures { IfOk result (λ heading. heading ≡ heading_of platform.now target tag sku.now) }
{
    let skus = report_skus(alloc, platform, sku)?;
    Ok(Heading { target, tag, skus })
}

fn module_report(
    alloc: Global,
    module: &Module,
    choice: &Choice,
    values: &Shared<Values>,
) -> Result<ModuleReport, WantOfMemory>
    ensures { IfOk result (λ report. module_report «module».now choice.now values.now ≡ Ok report) }
{
    let (module, choice, values) = three(module, choice, values, alloc)?;
    Ok(ModuleReport {
        module,
        choice,
        values,
    })
}

// What is told of a module, by its libraries and its values.
#[tactic(auto, unfolding(crate::specs::Report::report_in))]
fn report_in(
    alloc: Global,
    given: &Given<'_, Key, Out>,
    module: &Module,
) -> Result<ModuleReport, Stop<Key>>
    ensures { GivesIn (λ report. report) result (report_in given.now «module».now) }
{
    let choice = choice_in(alloc, given, module)?;
    let values = module_values(alloc, given, module)?;
    Ok(module_report(alloc, module, choice, values)?)
}

fn reports_in(
    alloc: Global,
    given: &Given<'_, Key, Out>,
    modules: &[Module],
) -> Result<Rows<ModuleReport>, Stop<Key>>
    ensures { GivesIn (λ reports. reports) result (reports_in given.now modules.now) }
{
    let mut reports = Rows::new(alloc);
    for module in modules {
        reports.push(report_in(alloc, given, module)?)?;
    }
    Ok(reports)
}

fn report_ask(
    alloc: Global,
    platform: &Shared<PlatformDoc>,
    heading: Heading,
    dynamic: &Shared<Values>,
    modules: Rows<ModuleReport>,
) -> Result<ReportAsk, WantOfMemory>
    ensures { IfOk result (λ ask. ask ≡ report_ask platform.now heading dynamic.now modules) }
{
    let (platform, dynamic) = two(platform, dynamic, alloc)?;
    let Heading { target, tag, skus } = heading;
    Ok(ReportAsk {
        platform,
        target,
        tag,
        skus,
        dynamic,
        modules,
    })
}

// The report of these modules.
fn report_by(
    alloc: Global,
    platform: &Shared<PlatformDoc>,
    heading: Heading,
    dynamic: &Shared<Values>,
    modules: Rows<ModuleReport>,
) -> Result<Text, WantOfMemory>
    ensures { IfOk result (λ text. Ok text ≡ text_of platform.now heading dynamic.now modules) }
{
    let ask = report_ask(alloc, platform, heading, dynamic, modules)?;
    report_text(alloc, &ask)
}

/// The report, by the answers of the steps that it asks.
#[tactic(auto, unfolding(crate::specs::Report::report_given))]
pub fn report_given(
    alloc: Global,
    platform: &Shared<PlatformDoc>,
    heading: Heading,
    modules: &[Module],
    given: &Given<'_, Key, Out>,
) -> Result<Text, Stop<Key>>
    ensures { GivesIn (λ text. text) result
        (report_given platform.now heading modules.now given.now) }
{
    let dynamic = values_in(given, &Key::PlatformPcds)?;
    let reports = reports_in(alloc, given, modules)?;
    Ok(report_by(alloc, platform, heading, dynamic, reports)?)
}
