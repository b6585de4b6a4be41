//! The steps of libraries and PCDs.
ghost use Rattle.library_steps.specs.Parts.{parts_in};
ghost use Rattle.std.specs.Prelude.{◌≡◌, [], true, IfOk};
ghost use Rattle.build_base.specs.Answer.{Answers};
ghost use Rattle.build_stages.specs.Gives.{Gives, GivesIn};
ghost use Rattle.build_stages.specs.Known.{advance_at};
ghost use Rattle.library_choice.specs.Choices.{choice};
ghost use Rattle.library_choice.specs.Closure.{is_known, wanted};
ghost use Rattle.library_steps.specs.Choices.{with_more};
ghost use Rattle.library_steps.specs.Pcds.{pcds_given, values_given};
ghost use Rattle.pcd_resolve.specs.Platform.{SkusEnd};
ghost use Rattle.step_pack.specs.Keys.{key_cmp};
ghost use Rattle.step_answers.specs.Fits.{fits};
ghost use Rattle.library_steps.specs.ModuleTrees.{round_stages, choice_after, most_rounds, choice_given, choice_stages, linked_stages, described_stages, parts_stages, modules_parts, setting_in, pcds_from, pcds_first, pcds_stages, one_described, one_parts, module_parts, values_from, commands_in, values_first, values_stages};
ghost use Rattle.step_answers.specs.Readers.{AdvancesTo, given_as};
ghost use Rattle.step_pack.specs.declared.out.Out.TheVariants as out;

use crate::asks::{choice_asks, dec_asks, inf_asks, linked_asks, package_asks};
use crate::choices::own_inf;
use crate::held_infs::held_infs;
use crate::parts::{
    Described, Linked, described_from, described_in, infs_from, linked_from, linked_module,
    parts_from, parts_in,
};
use crate::pcds::{pcds_given, values_given};
use crate::skus::skus_end;
use build_base::{Path, Permit, Refusal, Rows, Same};
use build_stages::{Given, Known, Stop, gather};
use doc_types::choice::{Choice, Module};
use doc_types::flash::FlashDoc;
use doc_types::module::InfDoc;
use doc_types::parts::ModuleParts;
use doc_types::pcd::PcdSet;
use doc_types::platform::PlatformDoc;
use doc_types::values::Values;
use job_fields::fields::{ARCHES, PCDS, SKU};
use library_choice::InstanceSearch;
use shared_value::Shared;
use std::alloc::Global;
use step_answers::answers::{EdkAnswers, answers_to};
use step_answers::readers::{choice_in, platform_in, shared_flash, shared_platform, values_in};
use step_answers::settings::{Setting, command_line_pcds, setting_of};
use step_engine::Ask;
use step_pack::{Key, Out};

/// The most rounds in which the libraries of a module are found: each but the last makes at least
/// one of 1,025 instances known.
const MOST_ROUNDS: u32 = 1026;

// The descriptions that a round asks for, behind those that a search knows.
fn with_infs<'a>(
    alloc: Global,
    search: InstanceSearch<'a>,
    given: &Given<'_, Key, Out>,
    paths: &[Path],
) -> Result<InstanceSearch<'a>, Stop<Key>>
    ensures value { GivesIn (λ s. s.infs) result
        (with_more search.entry.infs given.now paths.now) }
    ensures user { IfOk result (λ s. s.user ≡ search.entry.user) }
    ensures platform { IfOk result (λ s. s.platform ≡ search.entry.platform) }
{
    let infs = infs_from(alloc, given, paths)?;
    Ok(search.with_more(alloc, infs.items())?)
}

// The search of a round, with the descriptions that it asks for behind those that are known.
fn asking_round<'a>(
    alloc: Global,
    known: &Known<'_, Key, Out>,
    search: InstanceSearch<'a>,
    paths: &[Path],
    permit: Permit,
) -> Result<(InstanceSearch<'a>, Permit), Stop<Key>>
    ensures value { Gives (λ x. x.0.infs) result
        (advance_at key_cmp fits known.now (round_stages search.entry.infs paths.now)) }
    ensures user { IfOk result (λ x. x.0.user ≡ search.entry.user) }
    ensures platform { IfOk result (λ x. x.0.platform ≡ search.entry.platform) }
{
    let asks = inf_asks(alloc, paths)?;
    let (given, permit) = answers_to(alloc, known, &asks, permit)?;
    let more = with_infs(alloc, search, &given, paths)?;
    Ok((more, permit))
}

// The same, where those that the talk has are taken as they are.
fn round<'a>(
    alloc: Global,
    known: &Known<'_, Key, Out>,
    search: InstanceSearch<'a>,
    paths: &[Path],
    permit: Permit,
) -> Result<(InstanceSearch<'a>, Permit), Stop<Key>>
    ensures value { Gives (λ x. x.0.infs) result
        (advance_at key_cmp fits known.now (round_stages search.entry.infs paths.now)) }
    ensures user { IfOk result (λ x. x.0.user ≡ search.entry.user) }
    ensures platform { IfOk result (λ x. x.0.platform ≡ search.entry.platform) }
{
    match held_infs(alloc, known, paths)? {
        Some(infs) => Ok((search.with_more(alloc, infs.items())?, permit)),
        None => asking_round(alloc, known, search, paths, permit),
    }
}

// The libraries of a module of which all descriptions are known that it wants.
fn chosen_libraries(
    alloc: Global,
    search: InstanceSearch<'_>,
    permit: Permit,
) -> Result<Out, Stop<Key>>
    requires closed { wanted search.user search.platform search.infs ≡ [] }
    ensures { GivesIn (λ out. out) result
        (given_as out.Choice
        (choice search.entry.user search.entry.platform search.entry.infs)) }
{
    let choice = search.choose(alloc, permit)?;
    Ok(Out::Choice(choice))
}

// The libraries of a module, of which some descriptions are known.
#[tactic(auto, unfolding(crate::specs::ModuleTrees::most_rounds), using(crate::proofs::ChoiceLemmas::choice_none))]
fn rounds(
    alloc: Global,
    known: &Known<'_, Key, Out>,
    module: &Module,
    platform: &PlatformDoc,
    first: Rows<Shared<InfDoc>>,
    permit: Permit,
) -> Result<Out, Stop<Key>>
    requires { is_known first «module».now.inf ≡ true }
    ensures { AdvancesTo known.now (choice_after most_rounds «module».now platform.now first) result }
{
    let mut search = InstanceSearch::new(alloc, module, platform, first)?;
    let mut permit = permit;
    let mut left = MOST_ROUNDS;
    while left > 0 {
        let (wanted, behind) = search.wanted_infs(alloc)?;
        if wanted.items().is_empty() {
            return chosen_libraries(alloc, behind, permit);
        }
        match round(alloc, known, behind, wanted.items(), permit) {
            Ok((more, again)) => {
                search = more;
                permit = again;
            }
            Err(stop) => return Err(stop),
        }
        left -= 1;
    }
    Err(Stop::ImpossibleAnswer)
}

// The libraries of a module, by the platform and the module's own description.
fn choice_given(
    alloc: Global,
    known: &Known<'_, Key, Out>,
    module: &Module,
    given: &Given<'_, Key, Out>,
    permit: Permit,
) -> Result<Out, Stop<Key>>
    ensures { AdvancesTo known.now (choice_given «module».now given.now) result }
{
    let platform = platform_in(given)?;
    let infs = own_inf(alloc, given, module)?;
    rounds(alloc, known, module, platform, infs, permit)
}

/// The libraries of a module.
pub fn choice(
    alloc: Global,
    known: &Known<'_, Key, Out>,
    module: &Module,
    permit: Permit,
) -> Result<Out, Stop<Key>>
    ensures { AdvancesTo known.now (choice_stages «module».now) result }
{
    let inf = module.inf.copy(alloc)?;
    let asks = [Ask::Part(Key::Platform), Ask::Part(Key::Inf(inf))];
    let (given, permit) = gather(alloc, &EdkAnswers, known, &asks, permit)?;
    choice_given(alloc, known, module, &given, permit)
}

fn linked_modules(
    alloc: Global,
    known: &Known<'_, Key, Out>,
    modules: &[Module],
    permit: Permit,
) -> Result<(Rows<Linked>, Permit), Stop<Key>>
    ensures { Gives (λ x. x.0) result
        (advance_at key_cmp fits known.now (linked_stages modules.now)) }
{
    let asks = choice_asks(alloc, modules)?;
    let (given, permit) = answers_to(alloc, known, &asks, permit)?;
    Ok((linked_from(alloc, &given, modules)?, permit))
}

fn described_modules(
    alloc: Global,
    known: &Known<'_, Key, Out>,
    modules: &[Linked],
    permit: Permit,
) -> Result<(Rows<Described>, Permit), Stop<Key>>
    ensures { Gives (λ x. x.0) result
        (advance_at key_cmp fits known.now (described_stages modules.now)) }
{
    let asks = linked_asks(alloc, modules)?;
    let (given, permit) = answers_to(alloc, known, &asks, permit)?;
    Ok((described_from(alloc, &given, modules)?, permit))
}

fn parts(
    alloc: Global,
    known: &Known<'_, Key, Out>,
    modules: &[Described],
    permit: Permit,
) -> Result<(Rows<ModuleParts>, Permit), Stop<Key>>
    ensures { Gives (λ x. x.0) result
        (advance_at key_cmp fits known.now (parts_stages modules.now)) }
{
    let asks = package_asks(alloc, modules)?;
    let (given, permit) = answers_to(alloc, known, &asks, permit)?;
    Ok((parts_from(alloc, &given, modules)?, permit))
}

// The modules of a build with the descriptions and the packages that their values come from.
#[tactic(auto, using(build_stages::specs::Bounds::advance_bind))]
fn modules_parts(
    alloc: Global,
    known: &Known<'_, Key, Out>,
    modules: &[Module],
    permit: Permit,
) -> Result<(Rows<ModuleParts>, Permit), Stop<Key>>
    ensures { Gives (λ x. x.0) result
        (advance_at key_cmp fits known.now (modules_parts modules.now)) }
{
    let (linked, permit) = linked_modules(alloc, known, modules, permit)?;
    let (described, permit) = described_modules(alloc, known, linked.items(), permit)?;
    parts(alloc, known, described.items(), permit)
}

fn setting_in(
    alloc: Global,
    platform: &PlatformDoc,
    given: &Given<'_, Key, Out>,
) -> Result<Setting, Stop<Key>>
    ensures { GivesIn (λ s. s) result (setting_in platform.now given.now) }
{
    let arches = given.field(ARCHES)?;
    let sku = given.field(SKU)?;
    let pcds = given.field(PCDS)?;
    setting_of(alloc, platform, arches.bytes(), sku.bytes(), pcds.bytes())
}

fn pcds_of(
    alloc: Global,
    permit: Permit,
    platform: &Shared<PlatformDoc>,
    flash: &Shared<FlashDoc>,
    setting: &Setting,
    modules: Rows<ModuleParts>,
) -> Result<Shared<Values>, Refusal>
    requires { SkusEnd platform.now.skus }
    ensures { Answers result (pcds_given platform.now flash.now setting.now modules) }
{
    let values = pcds_given(alloc, permit, platform, flash, setting, modules)?;
    Ok(Shared::new(alloc, values)?)
}

#[tactic(auto, using(build_stages::specs::Bounds::advance_bind))]
fn pcds_from(
    alloc: Global,
    known: &Known<'_, Key, Out>,
    platform: &Shared<PlatformDoc>,
    flash: &Shared<FlashDoc>,
    setting: &Setting,
    permit: Permit,
) -> Result<Out, Stop<Key>>
    requires { SkusEnd platform.now.skus }
    ensures { AdvancesTo known.now (pcds_from platform.now flash.now setting.now) result }
{
    let (modules, permit) = modules_parts(alloc, known, setting.modules.items(), permit)?;
    Ok(Out::Values(pcds_of(alloc, permit, platform, flash, setting, modules)?))
}

// The rows of dynamic PCDs, by the answers of the documents and of the fields.
fn pcds_first(
    alloc: Global,
    known: &Known<'_, Key, Out>,
    given: &Given<'_, Key, Out>,
    permit: Permit,
) -> Result<Out, Stop<Key>>
    ensures { AdvancesTo known.now (pcds_first given.now) result }
{
    let platform = shared_platform(given)?;
    if !skus_end(alloc, platform.value().skus.items()) {
        return Err(Stop::ImpossibleAnswer);
    }
    let flash = shared_flash(given)?;
    let setting = setting_in(alloc, platform.value(), given)?;
    pcds_from(alloc, known, platform, flash, &setting, permit)
}

/// The rows of dynamic PCDs.
pub fn pcds(alloc: Global, known: &Known<'_, Key, Out>, permit: Permit) -> Result<Out, Stop<Key>>
    ensures { AdvancesTo known.now pcds_stages result }
{
    let asks = [
        Ask::Part(Key::Platform),
        Ask::Part(Key::Flash),
        Ask::Field(ARCHES),
        Ask::Field(SKU),
        Ask::Field(PCDS),
    ];
    let (given, permit) = gather(alloc, &EdkAnswers, known, &asks, permit)?;
    pcds_first(alloc, known, &given, permit)
}

fn commands_in(
    alloc: Global,
    platform: &PlatformDoc,
    given: &Given<'_, Key, Out>,
) -> Result<Rows<PcdSet>, Stop<Key>>
    ensures { GivesIn (λ sets. sets) result (commands_in platform.now given.now) }
{
    let text = given.field(PCDS)?;
    command_line_pcds(alloc, &platform.at, text.bytes())
}

fn one_described(
    alloc: Global,
    known: &Known<'_, Key, Out>,
    linked: &Linked,
    permit: Permit,
) -> Result<(Described, Permit), Stop<Key>>
    ensures { Gives (λ x. x.0) result
        (advance_at key_cmp fits known.now (one_described linked.now)) }
{
    let asks = inf_asks(alloc, linked.paths.items())?;
    let (given, permit) = answers_to(alloc, known, &asks, permit)?;
    Ok((described_in(alloc, &given, linked)?, permit))
}

// A module's parts, by the answers of its packages.
fn parts_of(
    alloc: Global,
    given: &Given<'_, Key, Out>,
    described: Described,
    permit: Permit,
) -> Result<(ModuleParts, Permit), Stop<Key>>
    ensures { GivesIn (λ x. x.0) result (parts_in given.now described) }
{
    Ok((parts_in(alloc, given, described)?, permit))
}

fn one_parts(
    alloc: Global,
    known: &Known<'_, Key, Out>,
    described: Described,
    permit: Permit,
) -> Result<(ModuleParts, Permit), Stop<Key>>
    ensures { Gives (λ x. x.0) result
        (advance_at key_cmp fits known.now (one_parts described)) }
{
    let asks = dec_asks(alloc, described.packages.items())?;
    let (given, permit) = answers_to(alloc, known, &asks, permit)?;
    parts_of(alloc, &given, described, permit)
}

/// A module with the descriptions and the packages that its values come from.
#[tactic(auto, using(build_stages::specs::Bounds::advance_bind))]
pub fn module_parts(
    alloc: Global,
    known: &Known<'_, Key, Out>,
    module: &Module,
    choice: &Choice,
    permit: Permit,
) -> Result<(ModuleParts, Permit), Stop<Key>>
    ensures { Gives (λ x. x.0) result
        (advance_at key_cmp fits known.now (module_parts «module».now choice.now)) }
{
    let linked = linked_module(alloc, module, choice)?;
    let (described, permit) = one_described(alloc, known, &linked, permit)?;
    one_parts(alloc, known, described, permit)
}

fn values_of(
    alloc: Global,
    permit: Permit,
    platform: &Shared<PlatformDoc>,
    flash: &Shared<FlashDoc>,
    commands: Rows<PcdSet>,
    dynamic: &Shared<Values>,
    parts: ModuleParts,
) -> Result<Shared<Values>, Refusal>
    ensures { Answers result (values_given platform.now flash.now commands dynamic.now parts) }
{
    let values = values_given(alloc, permit, platform, flash, commands, dynamic, parts)?;
    Ok(Shared::new(alloc, values)?)
}

#[tactic(auto, using(build_stages::specs::Bounds::advance_bind))]
fn values_from(
    alloc: Global,
    known: &Known<'_, Key, Out>,
    module: &Module,
    platform: &Shared<PlatformDoc>,
    flash: &Shared<FlashDoc>,
    dynamic: &Shared<Values>,
    choice: &Choice,
    commands: Rows<PcdSet>,
    permit: Permit,
) -> Result<Out, Stop<Key>>
    ensures { AdvancesTo known.now
        (values_from «module».now platform.now flash.now dynamic.now choice.now commands) result }
{
    let (parts, permit) = module_parts(alloc, known, module, choice, permit)?;
    let values = values_of(alloc, permit, platform, flash, commands, dynamic, parts)?;
    Ok(Out::Values(values))
}

// The values of a module, by the answers of the documents, of the libraries and of the words.
fn values_first(
    alloc: Global,
    known: &Known<'_, Key, Out>,
    module: &Module,
    given: &Given<'_, Key, Out>,
    permit: Permit,
) -> Result<Out, Stop<Key>>
    ensures { AdvancesTo known.now (values_first «module».now given.now) result }
{
    let platform = shared_platform(given)?;
    let flash = shared_flash(given)?;
    let dynamic = values_in(given, &Key::PlatformPcds)?;
    let choice = choice_in(alloc, given, module)?;
    let commands = commands_in(alloc, platform.value(), given)?;
    values_from(
        alloc, known, module, platform, flash, dynamic, choice, commands, permit,
    )
}

/// The values of a module.
pub fn values(
    alloc: Global,
    known: &Known<'_, Key, Out>,
    module: &Module,
    permit: Permit,
) -> Result<Out, Stop<Key>>
    ensures { AdvancesTo known.now (values_stages «module».now) result }
{
    let own = module.copy(alloc)?;
    let asks = [
        Ask::Part(Key::Platform),
        Ask::Part(Key::Flash),
        Ask::Part(Key::PlatformPcds),
        Ask::Part(Key::Choice(own)),
        Ask::Field(PCDS),
    ];
    let (given, permit) = gather(alloc, &EdkAnswers, known, &asks, permit)?;
    values_first(alloc, known, module, &given, permit)
}
