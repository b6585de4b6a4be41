//! The steps of documents.
ghost use Rattle.document_steps.specs.Trees.{named_or, document_stages, dec_stages, inf_stages, platform_given, platform_stages, root_in, macros_in, flash_named, flash_root, empty_flash, flash_from, flash_given, flash_stages};
ghost use Rattle.std.specs.Prelude.{◌≡◌, [], IfOk};
ghost use Rattle.build_base.specs.Answer.{Answers};
ghost use Rattle.dec_docs.specs.Package.{package_of};
ghost use Rattle.dsc_platform.specs.Platform.{platform_of};
ghost use Rattle.flash_document.specs.Flash.{flash_of};
ghost use Rattle.inf_docs.specs.Modules.{module_of};
ghost use Rattle.step_pack.specs.declared.out.Out.TheVariants as out;
ghost use Rattle.step_answers.specs.Readers.{AdvancesTo};
ghost use Rattle.build_stages.specs.Gives.{GivesIn};

use build_base::path::path_field;
use build_base::{Lines, Macro, Path, Permit, Refusal, Rows, Same, WantOfMemory};
use build_stages::{Given, Known, Stop, gather};
use dec_docs::read_dec;
use doc_types::flash::FlashDoc;
use doc_types::module::InfDoc;
use doc_types::package::DecDoc;
use doc_types::pcd_lines::PcdLines;
use doc_types::platform::PlatformDoc;
use document_stages::lines_of;
use dsc_platform::read_platform;
use flash_document::read_flash;
use inf_docs::read_inf;
use job_fields::fields::{DEFINES, FLASH, PLATFORM, TAG, TARGET};
use job_fields::macros::macros_of_job;
use job_fields::readings::file_in;
use macro_conditions::OpenDocument;
use shared_value::Shared;
use std::alloc::Global;
use step_answers::answers::EdkAnswers;
use step_answers::readers::{or_impossible, platform_in};
use step_engine::Ask;
use step_pack::{Key, Out};

fn package_of(alloc: Global, permit: Permit, lines: &Lines) -> Result<Shared<DecDoc>, Refusal>
    ensures { Answers result (package_of lines.now) }
{
    let document = read_dec(alloc, permit, lines)?;
    Ok(Shared::new(alloc, document)?)
}

fn module_of(alloc: Global, permit: Permit, lines: &Lines) -> Result<Shared<InfDoc>, Refusal>
    ensures { Answers result (module_of lines.now) }
{
    let document = read_inf(alloc, permit, lines)?;
    Ok(Shared::new(alloc, document)?)
}

fn platform_of(alloc: Global, permit: Permit, lines: &Lines) -> Result<Shared<PlatformDoc>, Refusal>
    ensures { Answers result (platform_of lines.now) }
{
    let document = read_platform(alloc, permit, lines)?;
    Ok(Shared::new(alloc, document)?)
}

fn flash_of(alloc: Global, permit: Permit, lines: &Lines) -> Result<Shared<FlashDoc>, Refusal>
    ensures { Answers result (flash_of lines.now) }
{
    let document = read_flash(alloc, permit, lines)?;
    Ok(Shared::new(alloc, document)?)
}

/// The declarations of a package.
#[tactic(auto, using(build_stages::specs::Bounds::advance_bind))]
pub fn dec(
    alloc: Global,
    known: &Known<'_, Key, Out>,
    path: &Path,
    park: &mut Option<OpenDocument>,
    permit: Permit,
) -> Result<Out, Stop<Key>>
    ensures { AdvancesTo known.now (dec_stages path.now) result }
{
    let none = Rows::new(alloc);
    let (lines, permit) = lines_of(alloc, &EdkAnswers, known, path, &none, &none, park, permit)?;
    Ok(Out::Dec(package_of(alloc, permit, &lines)?))
}

/// The description of a module.
#[tactic(auto, using(build_stages::specs::Bounds::advance_bind))]
pub fn inf(
    alloc: Global,
    known: &Known<'_, Key, Out>,
    path: &Path,
    park: &mut Option<OpenDocument>,
    permit: Permit,
) -> Result<Out, Stop<Key>>
    ensures { AdvancesTo known.now (inf_stages path.now) result }
{
    let none = Rows::new(alloc);
    let (lines, permit) = lines_of(alloc, &EdkAnswers, known, path, &none, &none, park, permit)?;
    Ok(Out::Inf(module_of(alloc, permit, &lines)?))
}

// The file that the job names.
fn root(alloc: Global, given: &Given<'_, Key, Out>) -> Result<Path, Stop<Key>>
    ensures { GivesIn (λ path. path) result (root_in given.now) }
{
    let text = given.field(PLATFORM)?;
    or_impossible(path_field(alloc, text.bytes())?)
}

// The macros of the job: its target, its tool chain's tag and its words.
fn job_macros(alloc: Global, given: &Given<'_, Key, Out>) -> Result<Rows<Macro>, Stop<Key>>
    ensures { GivesIn (λ macros. macros) result (macros_in given.now) }
{
    let target = given.field(TARGET)?;
    let tag = given.field(TAG)?;
    let texts = given.field(DEFINES)?;
    Ok(macros_of_job(alloc, target.bytes(), tag.bytes(), texts.bytes())?)
}

// The platform's description in a file, by the macros that hold above all.
#[tactic(auto, using(build_stages::specs::Bounds::advance_bind))]
fn platform_from(
    alloc: Global,
    known: &Known<'_, Key, Out>,
    path: &Path,
    fixed: &Rows<Macro>,
    park: &mut Option<OpenDocument>,
    permit: Permit,
) -> Result<Out, Stop<Key>>
    ensures { AdvancesTo known.now (document_stages out.Platform platform_of [] fixed.now path.now)
        result }
{
    let none = Rows::new(alloc);
    let (lines, permit) = lines_of(alloc, &EdkAnswers, known, path, &none, fixed, park, permit)?;
    Ok(Out::Platform(platform_of(alloc, permit, &lines)?))
}

// The same, by the answers of the fields.
fn platform_given(
    alloc: Global,
    known: &Known<'_, Key, Out>,
    given: &Given<'_, Key, Out>,
    park: &mut Option<OpenDocument>,
    permit: Permit,
) -> Result<Out, Stop<Key>>
    ensures { AdvancesTo known.now (platform_given given.now) result }
{
    let path = root(alloc, given)?;
    let fixed = job_macros(alloc, given)?;
    platform_from(alloc, known, &path, &fixed, park, permit)
}

/// The platform's description.
pub fn platform(
    alloc: Global,
    known: &Known<'_, Key, Out>,
    park: &mut Option<OpenDocument>,
    permit: Permit,
) -> Result<Out, Stop<Key>>
    ensures { AdvancesTo known.now platform_stages result }
{
    let asks = [
        Ask::Field(PLATFORM),
        Ask::Field(TARGET),
        Ask::Field(TAG),
        Ask::Field(DEFINES),
    ];
    let (given, permit) = gather(alloc, &EdkAnswers, known, &asks, permit)?;
    platform_given(alloc, known, &given, park, permit)
}

// The file that is named, or else the one that is stated, if any.
fn named_or(
    alloc: Global,
    stated: &Option<Path>,
    named: Option<Path>,
) -> Result<Option<Path>, WantOfMemory>
    ensures { IfOk result (λ path. path ≡ named_or stated.now named) }
{
    match (named, stated) {
        (Some(path), _) => Ok(Some(path)),
        (None, Some(path)) => Ok(Some(path.copy(alloc)?)),
        (None, None) => Ok(None),
    }
}

// The file that a field names, or else the one that is stated, if any.
#[tactic(auto, unfolding(crate::specs::Trees::flash_named))]
fn flash_named(alloc: Global, stated: &Option<Path>, text: &[u8]) -> Result<Option<Path>, Stop<Key>>
    ensures { GivesIn (λ root. root) result (flash_named stated.now text.now) }
{
    let named = or_impossible(file_in(alloc, text)?)?;
    Ok(named_or(alloc, stated, named)?)
}

fn flash_root(
    alloc: Global,
    platform: &PlatformDoc,
    given: &Given<'_, Key, Out>,
) -> Result<Option<Path>, Stop<Key>>
    ensures { GivesIn (λ root. root) result (flash_root platform.now given.now) }
{
    let text = given.field(FLASH)?;
    flash_named(alloc, &platform.flash, text.bytes())
}

fn empty_flash(alloc: Global, platform: &PlatformDoc) -> Result<Shared<FlashDoc>, WantOfMemory>
    ensures { IfOk result (λ flash. flash ≡ empty_flash platform.now) }
{
    let at = platform.at.copy(alloc)?;
    let flash = FlashDoc {
        at,
        sets: PcdLines::of(alloc, Rows::new(alloc))?,
        devices: Rows::new(alloc),
        volumes: Rows::new(alloc),
        rule_list: Rows::new(alloc),
    };
    Shared::new(alloc, flash)
}

// The flash description of a file.
#[tactic(auto, using(build_stages::specs::Bounds::advance_bind))]
fn flash_at(
    alloc: Global,
    known: &Known<'_, Key, Out>,
    macros: &Rows<Macro>,
    fixed: &Rows<Macro>,
    path: &Path,
    park: &mut Option<OpenDocument>,
    permit: Permit,
) -> Result<Out, Stop<Key>>
    ensures { AdvancesTo known.now (document_stages out.Flash flash_of macros.now fixed.now path.now)
        result }
{
    let (lines, permit) = lines_of(alloc, &EdkAnswers, known, path, macros, fixed, park, permit)?;
    Ok(Out::Flash(flash_of(alloc, permit, &lines)?))
}

// The flash description of a file, or that of a platform that has none.
fn flash_from(
    alloc: Global,
    known: &Known<'_, Key, Out>,
    platform: &PlatformDoc,
    fixed: &Rows<Macro>,
    root: &Option<Path>,
    park: &mut Option<OpenDocument>,
    permit: Permit,
) -> Result<Out, Stop<Key>>
    ensures { AdvancesTo known.now (flash_from platform.now fixed.now root.now) result }
{
    match root {
        Some(path) => flash_at(alloc, known, &platform.macros, fixed, path, park, permit),
        None => Ok(Out::Flash(empty_flash(alloc, platform)?)),
    }
}

// The same, by the answers of the platform and of the fields.
fn flash_given(
    alloc: Global,
    known: &Known<'_, Key, Out>,
    given: &Given<'_, Key, Out>,
    park: &mut Option<OpenDocument>,
    permit: Permit,
) -> Result<Out, Stop<Key>>
    ensures { AdvancesTo known.now (flash_given given.now) result }
{
    let platform = platform_in(given)?;
    let fixed = job_macros(alloc, given)?;
    let root = flash_root(alloc, platform, given)?;
    flash_from(alloc, known, platform, &fixed, &root, park, permit)
}

/// The flash description.
pub fn flash(
    alloc: Global,
    known: &Known<'_, Key, Out>,
    park: &mut Option<OpenDocument>,
    permit: Permit,
) -> Result<Out, Stop<Key>>
    ensures { AdvancesTo known.now flash_stages result }
{
    let asks = [
        Ask::Part(Key::Platform),
        Ask::Field(TARGET),
        Ask::Field(TAG),
        Ask::Field(DEFINES),
        Ask::Field(FLASH),
    ];
    let (given, permit) = gather(alloc, &EdkAnswers, known, &asks, permit)?;
    flash_given(alloc, known, &given, park, permit)
}
