//! The file of a module by its rule.
ghost use Rattle.std.specs.Prelude.{◌≡◌, unwrap_or, Ok, IfOk};
ghost use Rattle.std.specs.Option.{option_copied};
ghost use Rattle.build_base.specs.Answer.{Answers, Checks};
ghost use Rattle.build_stages.specs.Gives.{GivesIn};
ghost use Rattle.meta_lexer.specs.Faults.{first_fault};
ghost use Rattle.file_steps.specs.Names.{rule_names};
ghost use Rattle.file_steps.specs.Plans.{rule_found, rule_for, refused_source, refused_section, stated_text, template_filled, source_filled, with_source, section_filled, sections_filled, file_by, plan_with, plan_named, plan_by, module_of, module_plan};

use crate::names::{fill_names, module_folder, module_guid, own_depex, rule_names};
use build_base::fault_codes::{BAD_PATH, RULE_LINE_REFUSED};
use build_base::path::path_field;
use build_base::{Guid, Macro, Place, Refusal, Rows, Same, Text, WantOfMemory, refuse};
use build_stages::Stop;
use doc_types::arch::Arch;
use doc_types::choice::Module;
use doc_types::flash::FlashDoc;
use doc_types::module::InfDoc;
use doc_types::module_type::ModuleType;
use doc_types::platform::PlatformDoc;
use doc_types::standard::{EFI_SECTION_USER_INTERFACE, EFI_SECTION_VERSION};
use doc_types::volume::{FilePlan, InfLine, RuleDoc, SectionPlan, SectionSource};
use rule_choice::{inf_arch, rule_of};
use std::alloc::Global;
use step_pack::Key;

/// The file of a module: the module, the file's name, the path of the module's own expression, and
/// the file of its rule, whose sections are files and texts.
#[derive(Drop)]
pub struct ModulePlan {
    pub module: Module,
    pub name: Guid,
    pub depex: Text,
    pub file: FilePlan,
}

fn rule_found(rule: Option<&RuleDoc>) -> Result<&RuleDoc, Stop<Key>>
    ensures { GivesIn (λ rule. rule.now) result (rule_found (option_copied rule.entry)) }
{
    match rule {
        Some(rule) => Ok(rule),
        None => Err(Stop::ImpossibleAnswer),
    }
}

// The rule for the module of a statement.
#[tactic(auto, unfolding(crate::specs::Plans::rule_for))]
fn rule_for<'a>(
    alloc: Global,
    flash: &'a FlashDoc,
    line: &InfLine,
    arch: Arch,
    module_type: ModuleType,
) -> Result<&'a RuleDoc, Stop<Key>>
    ensures { GivesIn (λ rule. rule.now) result (rule_for flash.now line.now arch module_type) }
{
    let number = rule_of(alloc, flash, line, arch, module_type)?;
    rule_found(flash.rule_list.items().get(number as usize))
}

fn refused_source(alloc: Global, at: &Place, source: &SectionSource) -> Result<(), Refusal>
    ensures { Checks result (refused_source at.now source.now) }
{
    match source {
        SectionSource::Refused(text) => Err(refuse(alloc, RULE_LINE_REFUSED, at, text.bytes())),
        SectionSource::Tree(_)
        | SectionSource::Template(_)
        | SectionSource::Volume(_)
        | SectionSource::Words(_) => Ok(()),
    }
}

// Refuses the first line of a rule that may stand but not be used.
fn none_refused(alloc: Global, sections: &[SectionPlan]) -> Result<(), Refusal>
    ensures { Checks result (first_fault refused_section sections.now) }
{
    for section in sections {
        refused_source(alloc, &section.at, &section.source)?;
    }
    Ok(())
}

fn text_or<'a>(stated: &'a Option<Text>, text: &'a Text) -> &'a Text
    ensures { result.now ≡ unwrap_or stated.now text.now }
{
    match stated {
        Some(stated) => stated,
        None => text,
    }
}

fn stated_text<'a>(line: &'a InfLine, kind: u8, text: &'a Text) -> &'a Text
    ensures { result.now ≡ stated_text line.now kind text.now }
{
    if kind == EFI_SECTION_VERSION {
        return text_or(&line.version, text);
    }
    if kind == EFI_SECTION_USER_INTERFACE {
        return text_or(&line.ui, text);
    }
    text
}

fn template_filled(alloc: Global, at: &Place, text: &Text) -> Result<SectionSource, Refusal>
    ensures { Answers result (template_filled at.now text.now) }
{
    match path_field(alloc, text.bytes())? {
        Some(path) => Ok(SectionSource::Tree(path)),
        None => Err(refuse(alloc, BAD_PATH, at, text.bytes())),
    }
}

fn source_filled(
    alloc: Global,
    line: &InfLine,
    names: &[Macro],
    section: &SectionPlan,
) -> Result<SectionSource, Stop<Key>>
    ensures { GivesIn (λ source. source) result
        (source_filled line.now names.now section.now section.now.source) }
{
    match &section.source {
        SectionSource::Template(text) => {
            let text = fill_names(alloc, names, text.bytes())?;
            Ok(template_filled(alloc, &section.at, &text)?)
        }
        SectionSource::Words(text) => {
            let text = stated_text(line, section.kind, text);
            Ok(SectionSource::Words(fill_names(alloc, names, text.bytes())?))
        }
        SectionSource::Tree(_) | SectionSource::Volume(_) | SectionSource::Refused(_) => {
            Err(Stop::ImpossibleAnswer)
        }
    }
}

fn with_source(
    alloc: Global,
    section: &SectionPlan,
    source: SectionSource,
) -> Result<SectionPlan, WantOfMemory>
    ensures { IfOk result (λ plan. with_source section.now source ≡ Ok plan) }
{
    Ok(SectionPlan {
        at: section.at.copy(alloc)?,
        kind: section.kind,
        optional: section.optional,
        align: section.align,
        number: section.number,
        guid: section.guid,
        source,
    })
}

fn section_filled(
    alloc: Global,
    line: &InfLine,
    names: &[Macro],
    section: &SectionPlan,
) -> Result<SectionPlan, Stop<Key>>
    ensures { GivesIn (λ plan. plan) result (section_filled line.now names.now section.now) }
{
    let source = source_filled(alloc, line, names, section)?;
    Ok(with_source(alloc, section, source)?)
}

// The sections of a rule for a module.
fn sections_filled(
    alloc: Global,
    line: &InfLine,
    names: &[Macro],
    sections: &[SectionPlan],
) -> Result<Rows<SectionPlan>, Stop<Key>>
    ensures { GivesIn (λ plans. plans) result (sections_filled line.now names.now sections.now) }
{
    let mut plans = Rows::new(alloc);
    let mut left = sections;
    while let [section, rest @ ..] = left {
        plans.push(section_filled(alloc, line, names, section)?)?;
        left = rest;
    }
    Ok(plans)
}

fn file_by(
    alloc: Global,
    line: &InfLine,
    file: &FilePlan,
    sections: Rows<SectionPlan>,
) -> Result<FilePlan, WantOfMemory>
    ensures { IfOk result (λ plan. plan ≡ file_by line.now file.now sections) }
{
    Ok(FilePlan {
        at: line.at.copy(alloc)?,
        file_type: file.file_type,
        guid: file.guid,
        fixed: file.fixed,
        checksum: file.checksum,
        align: file.align,
        whole: file.whole.copy(alloc)?,
        sections,
    })
}

// The sections of a rule with the names of a module of this GUID filled in.
fn sections_named(
    alloc: Global,
    line: &InfLine,
    name: Guid,
    folder: &Text,
    inf: &InfDoc,
    sections: &[SectionPlan],
) -> Result<Rows<SectionPlan>, Stop<Key>>
    ensures { GivesIn (λ plans. plans) result
        (sections_filled line.now (rule_names name folder.now inf.now) sections.now) }
{
    let names = rule_names(alloc, &name, folder, inf)?;
    sections_filled(alloc, line, names.items(), sections)
}

fn plan_with(
    alloc: Global,
    line: &InfLine,
    module: Module,
    name: Guid,
    depex: Text,
    file: &FilePlan,
    sections: Rows<SectionPlan>,
) -> Result<ModulePlan, WantOfMemory>
    ensures { IfOk result
        (λ plan. plan_with line.now «module» name depex file.now sections ≡ Ok plan) }
{
    let file = file_by(alloc, line, file, sections)?;
    Ok(ModulePlan {
        module,
        name,
        depex,
        file,
    })
}

// The file by the rule's file, of a module of this GUID whose outputs stand in this folder.
#[tactic(auto, unfolding(crate::specs::Plans::plan_named))]
fn plan_named(
    alloc: Global,
    line: &InfLine,
    module: Module,
    name: Guid,
    folder: &Text,
    inf: &InfDoc,
    file: &FilePlan,
) -> Result<ModulePlan, Stop<Key>>
    ensures { GivesIn (λ plan. plan) result
        (plan_named line.now «module» name folder.now inf.now file.now) }
{
    let sections = sections_named(alloc, line, name, folder, inf, file.sections.items())?;
    let depex = own_depex(alloc, folder, inf)?;
    Ok(plan_with(alloc, line, module, name, depex, file, sections)?)
}

#[tactic(auto, unfolding(crate::specs::Plans::plan_by))]
fn plan_by(
    alloc: Global,
    line: &InfLine,
    platform: &PlatformDoc,
    module: Module,
    folder: &Text,
    inf: &InfDoc,
    file: &FilePlan,
) -> Result<ModulePlan, Stop<Key>>
    ensures { GivesIn (λ plan. plan) result
        (plan_by line.now platform.now «module» folder.now inf.now file.now) }
{
    none_refused(alloc, file.sections.items())?;
    let name = module_guid(platform, &module, inf);
    let below = module_folder(alloc, folder, &module)?;
    plan_named(alloc, line, module, name, &below, inf, file)
}

/// The module that a statement names, for an architecture.
pub fn module_of(alloc: Global, line: &InfLine, arch: Arch) -> Result<Module, WantOfMemory>
    ensures { IfOk result (λ m. m ≡ module_of line.now arch) }
{
    Ok(Module {
        arch,
        inf: line.inf.copy(alloc)?,
    })
}

/// The file of the module that a statement names, by its rule. `arches` are those that are built,
/// `inf` is the module's description, and all outputs stand in `folder`.
#[tactic(auto, unfolding(crate::specs::Plans::module_plan))]
pub(crate) fn module_plan(
    alloc: Global,
    flash: &FlashDoc,
    line: &InfLine,
    platform: &PlatformDoc,
    arches: &Rows<Arch>,
    inf: &InfDoc,
    folder: &Text,
) -> Result<ModulePlan, Stop<Key>>
    ensures { GivesIn (λ plan. plan) result
        (module_plan flash.now line.now platform.now arches.now inf.now folder.now) }
{
    let arch = inf_arch(alloc, line, platform, arches)?;
    let rule = rule_for(alloc, flash, line, arch, inf.module_type)?;
    let module = module_of(alloc, line, arch)?;
    plan_by(alloc, line, platform, module, folder, inf, &rule.file)
}
