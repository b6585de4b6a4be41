//! The modules of a build, and what the words say of its PCDs.
ghost use Rattle.step_answers.specs.Settings.{arches_built_in, named_arches, stated_guid, has_arch, put_arch, each_once, built_arches, module_where, modules_for, modules_of, is_supported, arch_unsupported, skus_fault, named_skus, command_line_pcds, arches_built, built_modules, words_checked, setting_by, setting_of};
ghost use Rattle.std.specs.Prelude.{◌≡◌, ◌++◌, ◌+◌, IfOk, OnOk, Ok};
ghost use Rattle.build_base.specs.Answer.{Checks};
ghost use Rattle.build_base.specs.First.{or_fault};
ghost use Rattle.meta_lexer.specs.Faults.{first_fault};
ghost use Rattle.build_stages.specs.Gives.{GivesIn};

use crate::readers::or_impossible;
use build_base::fault_codes::ARCH_UNSUPPORTED;
use build_base::{Guid, Place, Refusal, Rows, Same, Text, WantOfMemory, refuse};
use build_stages::{Given, Stop};
use doc_types::arch::{Arch, arch_named, covers, same_arch};
use doc_types::choice::Module;
use doc_types::pcd::PcdSet;
use doc_types::platform::{Component, PlatformDoc};
use job_fields::fields::ARCHES;
use job_fields::readings::{arches_in, name_in, sets_in, texts_in};
use pcd_resolve::skus::{is_all, skus_known};
use std::alloc::Global;
use step_pack::{Key, Out};

/// What the words and the platform settle of a build's PCDs: the values that the words give, the
/// SKUs that they choose, the architectures that are built, and the modules in order.
#[derive(Drop)]
pub struct Setting {
    pub commands: Rows<PcdSet>,
    pub skus: Rows<Text>,
    pub arches: Rows<Arch>,
    pub modules: Rows<Module>,
}

fn has_arch(arches: &[Arch], arch: Arch) -> bool
    ensures { result ≡ has_arch arches.now arch }
{
    arches.iter().any(|other| same_arch(*other, arch))
}

fn put_arch(arches: &mut Rows<Arch>, arch: Arch) -> Result<(), WantOfMemory>
    ensures { OnOk result (arches.new ≡ put_arch arches.old arch) }
{
    if has_arch(arches.items(), arch) {
        return Ok(());
    }
    arches.push(arch)
}

fn each_once(alloc: Global, arches: &[Arch]) -> Result<Rows<Arch>, WantOfMemory>
    ensures { IfOk result (λ once. once ≡ each_once arches.now) }
{
    let mut once = Rows::new(alloc);
    let mut left = arches;
    while let [arch, rest @ ..] = left {
        put_arch(&mut once, *arch)?;
        left = rest;
    }
    Ok(once)
}

#[tactic(auto, unfolding(crate::specs::Settings::built_arches))]
fn built_arches(
    alloc: Global,
    named: &[Arch],
    supported: &[Arch],
) -> Result<Rows<Arch>, WantOfMemory>
    ensures { IfOk result (λ arches. arches ≡ built_arches named.now supported.now) }
{
    if named.is_empty() {
        return each_once(alloc, supported);
    }
    each_once(alloc, named)
}

fn push_where(
    alloc: Global,
    modules: &mut Rows<Module>,
    arch: Arch,
    component: &Component,
) -> Result<(), WantOfMemory>
    ensures { OnOk result (modules.new ≡ modules.old ++ module_where arch component.now) }
{
    if covers(component.arch, arch) {
        let inf = component.inf.copy(alloc)?;
        modules.push(Module { arch, inf })?;
    }
    Ok(())
}

fn push_for(
    alloc: Global,
    modules: &mut Rows<Module>,
    components: &[Component],
    arch: Arch,
) -> Result<(), WantOfMemory>
    ensures { OnOk result (modules.new ≡ modules.old ++ modules_for components.now arch) }
{
    let mut left = components;
    while let [component, rest @ ..] = left {
        push_where(alloc, modules, arch, component)?;
        left = rest;
    }
    Ok(())
}

// The modules of some architectures: those of each in the order of their lines.
#[tactic(auto, unfolding(crate::specs::Settings::modules_of))]
fn modules_of(
    alloc: Global,
    arches: &[Arch],
    components: &[Component],
) -> Result<Rows<Module>, WantOfMemory>
    ensures { IfOk result (λ modules. modules ≡ modules_of arches.now components.now) }
{
    let mut modules = Rows::new(alloc);
    let mut left = arches;
    while let [arch, rest @ ..] = left {
        push_for(alloc, &mut modules, components, *arch)?;
        left = rest;
    }
    Ok(modules)
}

fn is_supported(supported: &[Arch], arch: Option<Arch>) -> bool
    ensures { result ≡ is_supported supported.now arch }
{
    match arch {
        None => false,
        Some(arch) => has_arch(supported, arch),
    }
}

#[tactic(auto, unfolding(crate::specs::Settings::arch_unsupported))]
fn arch_unsupported(alloc: Global, platform: &PlatformDoc, text: &Text) -> Result<(), Refusal>
    ensures { Checks result (arch_unsupported platform.now text.now) }
{
    if is_supported(platform.arches.items(), arch_named(text.bytes())) {
        return Ok(());
    }
    Err(refuse(alloc, ARCH_UNSUPPORTED, &platform.at, text.bytes()))
}

fn arches_supported(alloc: Global, platform: &PlatformDoc, texts: &[Text]) -> Result<(), Refusal>
    ensures { Checks result (first_fault (arch_unsupported platform.now) texts.now) }
{
    for text in texts {
        arch_unsupported(alloc, platform, text)?;
    }
    Ok(())
}

fn skus_chosen(alloc: Global, platform: &PlatformDoc, names: &[Text]) -> Result<(), Refusal>
    ensures { Checks result (skus_fault platform.now names.now) }
{
    if is_all(names) {
        return Ok(());
    }
    skus_known(alloc, platform, names)
}

// Both checks of the words: that of the SKU, and then that of the architectures.
fn words_checked(
    alloc: Global,
    platform: &PlatformDoc,
    skus: &[Text],
    arches: &[Text],
) -> Result<(), Refusal>
    ensures { Checks result (words_checked platform.now skus.now arches.now) }
{
    skus_chosen(alloc, platform, skus)?;
    arches_supported(alloc, platform, arches)
}

fn setting_by(
    alloc: Global,
    platform: &PlatformDoc,
    skus: Rows<Text>,
    commands: Rows<PcdSet>,
    arches: Rows<Arch>,
) -> Result<Setting, WantOfMemory>
    ensures { IfOk result (λ s. s ≡ setting_by platform.now skus commands arches) }
{
    let modules = modules_of(alloc, arches.items(), platform.components.items())?;
    Ok(Setting {
        commands,
        skus,
        arches,
        modules,
    })
}

// The same by the architectures of the words.
fn setting_built(
    alloc: Global,
    platform: &PlatformDoc,
    skus: Rows<Text>,
    commands: Rows<PcdSet>,
    named: &[Arch],
) -> Result<Setting, WantOfMemory>
    ensures { IfOk result (λ s. s
        ≡ setting_by platform.now skus commands (built_arches named.now platform.now.arches)) }
{
    let built = built_arches(alloc, named, platform.arches.items())?;
    setting_by(alloc, platform, skus, commands, built)
}

// The architectures that a field names.
fn named_arches(alloc: Global, text: &[u8]) -> Result<Rows<Arch>, Stop<Key>>
    ensures { GivesIn (λ arches. arches) result (named_arches text.now) }
{
    or_impossible(arches_in(alloc, text)?)
}

/// The values that the words give PCDs.
pub fn command_line_pcds(alloc: Global, at: &Place, text: &[u8]) -> Result<Rows<PcdSet>, Stop<Key>>
    ensures { GivesIn (λ sets. sets) result (command_line_pcds at.now text.now) }
{
    or_impossible(sets_in(alloc, at, text)?)
}

/// The architectures that are built, by those of the words.
#[tactic(auto, unfolding(crate::specs::Settings::arches_built))]
pub fn arches_built(
    alloc: Global,
    platform: &PlatformDoc,
    arches: &[u8],
) -> Result<Rows<Arch>, Stop<Key>>
    ensures { GivesIn (λ arches. arches) result (arches_built platform.now arches.now) }
{
    let named = named_arches(alloc, arches)?;
    Ok(built_arches(alloc, named.items(), platform.arches.items())?)
}

/// The same by the answers of a stage.
pub fn arches_built_in(
    alloc: Global,
    platform: &PlatformDoc,
    given: &Given<'_, Key, Out>,
) -> Result<Rows<Arch>, Stop<Key>>
    ensures { GivesIn (λ arches. arches) result (arches_built_in platform.now given.now) }
{
    let text = given.field(ARCHES)?;
    arches_built(alloc, platform, text.bytes())
}

/// The modules of a build, by the words' architectures.
#[tactic(auto, unfolding(crate::specs::Settings::built_modules))]
pub fn built_modules(
    alloc: Global,
    platform: &PlatformDoc,
    arches: &[u8],
) -> Result<Rows<Module>, Stop<Key>>
    ensures { GivesIn (λ modules. modules) result (built_modules platform.now arches.now) }
{
    let built = arches_built(alloc, platform, arches)?;
    Ok(modules_of(alloc, built.items(), platform.components.items())?)
}

fn named_skus(alloc: Global, text: &[u8]) -> Result<Rows<Text>, WantOfMemory>
    ensures { IfOk result (λ skus. skus ≡ named_skus text.now) }
{
    let mut skus = Rows::new(alloc);
    if let Some(name) = name_in(text) {
        skus.push(Text::of(alloc, name)?)?;
    }
    Ok(skus)
}

// What the words settle, once they are checked.
fn setting_checked(
    alloc: Global,
    platform: &PlatformDoc,
    texts: &[Text],
    named: &[Arch],
    sku: &[u8],
    commands: Rows<PcdSet>,
) -> Result<Setting, Stop<Key>>
    ensures { GivesIn (λ s. s) result
        (or_fault (words_checked platform.now (named_skus sku.now) texts.now)
        (Ok (setting_by platform.now (named_skus sku.now) commands
        (built_arches named.now platform.now.arches)))) }
{
    let skus = named_skus(alloc, sku)?;
    words_checked(alloc, platform, skus.items(), texts)?;
    Ok(setting_built(alloc, platform, skus, commands, named)?)
}

/// What the words settle: their architectures, their SKU and the values that they give PCDs. Faults
/// 229 of the SKU and then 232 of an architecture.
#[tactic(auto, unfolding(crate::specs::Settings::setting_of))]
pub fn setting_of(
    alloc: Global,
    platform: &PlatformDoc,
    arches: &[u8],
    sku: &[u8],
    pcds: &[u8],
) -> Result<Setting, Stop<Key>>
    ensures { GivesIn (λ s. s) result (setting_of platform.now arches.now sku.now pcds.now) }
{
    let named = named_arches(alloc, arches)?;
    let commands = command_line_pcds(alloc, &platform.at, pcds)?;
    let texts = texts_in(alloc, arches)?;
    setting_checked(alloc, platform, texts.items(), named.items(), sku, commands)
}

/// The GUID that a module's component states.
#[tactic(auto, unfolding(crate::specs::Settings::stated_guid))]
pub fn stated_guid(platform: &PlatformDoc, module: &Module) -> Option<Guid>
    ensures { result ≡ stated_guid platform.now «module».now }
{
    match platform.components.find(&module.inf, module.arch) {
        Some(component) => component.file_guid,
        None => None,
    }
}
