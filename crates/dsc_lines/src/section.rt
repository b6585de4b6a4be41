//! The sections of a platform's description, and what their heads enter.
ghost use Rattle.std.specs.Prelude.{◌≡◌, ◌∷◌, [], IfOk};
ghost use Rattle.build_base.specs.Answer.{Answers, Checks};
ghost use Rattle.doc_reading.specs.Gathering.{unless_faulty};
ghost use Rattle.dsc_lines.specs.Sections.{section_named, arch_word, type_word, qualifiers_fault, arch_fault, type_fault, libraries_scope, components_scope, pcds_scope, sku_word, section_faults, section_scope, named_faults, named_scope, head_faults, scope_of};

use build_base::fault_codes::{BAD_ARCH, BAD_SECTION, DSC_UNKNOWN_SECTION};
use build_base::{Refusal, Taken, Text, WantOfMemory, refuse};
use doc_reading::least_check::{least_of_one, least_of_three, least_of_two};
use doc_reading::values::require;
use doc_types::arch::{Arch, arch_named};
use doc_types::module_type::{ModuleType, module_type_named};
use doc_types::pcd::Kind;
use meta_lexer::head::Head;
use meta_lexer::lookup;
use meta_lexer::parts::first_text;
use std::alloc::Global;

/// Where PCDs are kept at run time, which gives their lines a form.
#[derive(Clone, Copy, PartialEq, Eq)]
pub enum StoreKind {
    Plain,
    Hii,
    Vpd,
}

/// What the lines of a section say.
#[derive(Clone, Copy, PartialEq, Eq)]
pub enum Section {
    Defines,
    SkuIds,
    Libraries,
    Components,
    Pcds(Kind, StoreKind),
}

/// The PCDs of a section: their kind, where they are kept, and for which architecture and SKU.
#[derive(Drop)]
pub struct PcdScope {
    pub kind: Kind,
    pub store: StoreKind,
    pub arch: Arch,
    pub sku: Text,
}

/// What a head enters.
#[derive(Drop)]
pub enum Scope {
    Defines,
    SkuIds,
    Libraries(Arch, Option<ModuleType>),
    Components(Arch),
    Pcds(PcdScope),
}

// `None`: read past.
const SECTIONS: [(&[u8], Option<Section>); 17] = [
    (b"Defines", Some(Section::Defines)),
    (b"SkuIds", Some(Section::SkuIds)),
    (b"LibraryClasses", Some(Section::Libraries)),
    (b"Components", Some(Section::Components)),
    (
        b"PcdsFeatureFlag",
        Some(Section::Pcds(Kind::FeatureFlag, StoreKind::Plain)),
    ),
    (
        b"PcdsFixedAtBuild",
        Some(Section::Pcds(Kind::FixedAtBuild, StoreKind::Plain)),
    ),
    (
        b"PcdsPatchableInModule",
        Some(Section::Pcds(Kind::PatchableInModule, StoreKind::Plain)),
    ),
    (
        b"PcdsDynamicDefault",
        Some(Section::Pcds(Kind::Dynamic, StoreKind::Plain)),
    ),
    (
        b"PcdsDynamicHii",
        Some(Section::Pcds(Kind::Dynamic, StoreKind::Hii)),
    ),
    (
        b"PcdsDynamicVpd",
        Some(Section::Pcds(Kind::Dynamic, StoreKind::Vpd)),
    ),
    (
        b"PcdsDynamicExDefault",
        Some(Section::Pcds(Kind::DynamicEx, StoreKind::Plain)),
    ),
    (
        b"PcdsDynamicExHii",
        Some(Section::Pcds(Kind::DynamicEx, StoreKind::Hii)),
    ),
    (
        b"PcdsDynamicExVpd",
        Some(Section::Pcds(Kind::DynamicEx, StoreKind::Vpd)),
    ),
    (b"BuildOptions", None),
    (b"UserExtensions", None),
    (b"DefaultStores", None),
    (b"Packages", None),
];

/// The section of a name, if there is one.
#[tactic(auto, unfolding(crate::specs::Sections::section_named))]
pub fn section_named(name: &[u8]) -> Option<Option<Section>>
    ensures { result ≡ section_named name.now }
{
    lookup(&SECTIONS, name)
}

// The architecture that the first qualifier names.
fn arch_word(qualifiers: &[Text]) -> Option<Arch>
    ensures { result ≡ arch_word qualifiers.now }
{
    match qualifiers {
        [] => Some(Arch::Common),
        [word, ..] => arch_named(word.bytes()),
    }
}

// The type of modules that the second qualifier names, where there is one.
fn type_word(qualifiers: &[Text]) -> Option<Option<ModuleType>>
    ensures { result ≡ type_word qualifiers.now }
{
    match qualifiers {
        [_, word, ..] => match module_type_named(word.bytes()) {
            Some(kind) => Some(Some(kind)),
            None => None,
        },
        _ => Some(None),
    }
}

fn check_qualifiers(
    alloc: Global,
    line: &Taken,
    most: usize,
    qualifiers: &[Text],
) -> Result<(), Refusal>
    ensures { Checks result (qualifiers_fault line.now most qualifiers.now) }
{
    if qualifiers.len() > most {
        return Err(refuse(alloc, BAD_SECTION, &line.at, line.text.bytes()));
    }
    Ok(())
}

fn check_arch(
    alloc: Global,
    line: &Taken,
    qualifiers: &[Text],
    arch: Option<Arch>,
) -> Result<(), Refusal>
    ensures { Checks result (arch_fault line.now qualifiers.now arch) }
{
    require(alloc, &arch, BAD_ARCH, &line.at, first_text(qualifiers))
}

fn check_type(alloc: Global, line: &Taken, kind: Option<Option<ModuleType>>) -> Result<(), Refusal>
    ensures { Checks result (type_fault line.now kind) }
{
    require(alloc, &kind, BAD_SECTION, &line.at, line.text.bytes())
}

fn libraries_scope(arch: Option<Arch>, kind: Option<Option<ModuleType>>) -> Option<Scope>
    ensures { result ≡ libraries_scope arch kind }
{
    match (arch, kind) {
        (Some(arch), Some(kind)) => Some(Scope::Libraries(arch, kind)),
        _ => None,
    }
}

fn components_scope(arch: Option<Arch>) -> Option<Scope>
    ensures { result ≡ components_scope arch }
{
    match arch {
        Some(arch) => Some(Scope::Components(arch)),
        None => None,
    }
}

// The SKU that the second qualifier names.
fn sku_word(qualifiers: &[Text]) -> &[u8]
    ensures { result.now ≡ sku_word qualifiers.now }
{
    match qualifiers {
        [_, word, ..] => word.bytes(),
        _ => b"DEFAULT".as_slice(),
    }
}

fn pcds_scope(
    alloc: Global,
    kind: Kind,
    store: StoreKind,
    arch: Option<Arch>,
    sku: &[u8],
) -> Result<Option<Scope>, WantOfMemory>
    ensures { IfOk result (λ scope. scope ≡ pcds_scope kind store arch sku.now) }
{
    match arch {
        Some(arch) => Ok(Some(Scope::Pcds(PcdScope {
            kind,
            store,
            arch,
            sku: Text::of(alloc, sku)?,
        }))),
        None => Ok(None),
    }
}

fn enter_pcds(
    alloc: Global,
    line: &Taken,
    kind: Kind,
    store: StoreKind,
    qualifiers: &[Text],
) -> Result<Option<Scope>, Refusal>
    ensures { Answers result
        (unless_faulty (qualifiers_fault line.now 2 qualifiers.now
        ∷ arch_fault line.now qualifiers.now (arch_word qualifiers.now) ∷ [])
        (pcds_scope kind store (arch_word qualifiers.now) (sku_word qualifiers.now))) }
{
    let arch = arch_word(qualifiers);
    least_of_two(
        check_qualifiers(alloc, line, 2, qualifiers),
        check_arch(alloc, line, qualifiers, arch),
    )?;
    let scope = pcds_scope(alloc, kind, store, arch, sku_word(qualifiers))?;
    Ok(scope)
}

fn enter_section(
    alloc: Global,
    line: &Taken,
    section: Section,
    qualifiers: &[Text],
) -> Result<Option<Scope>, Refusal>
    ensures { Answers result
        (unless_faulty (section_faults line.now section qualifiers.now)
        (section_scope section qualifiers.now)) }
{
    match section {
        Section::Defines => {
            least_of_one(check_qualifiers(alloc, line, 0, qualifiers))?;
            Ok(Some(Scope::Defines))
        }
        Section::SkuIds => {
            least_of_one(check_qualifiers(alloc, line, 0, qualifiers))?;
            Ok(Some(Scope::SkuIds))
        }
        Section::Libraries => {
            let arch = arch_word(qualifiers);
            let kind = type_word(qualifiers);
            least_of_three(
                check_qualifiers(alloc, line, 2, qualifiers),
                check_type(alloc, line, kind),
                check_arch(alloc, line, qualifiers, arch),
            )?;
            Ok(libraries_scope(arch, kind))
        }
        Section::Components => {
            let arch = arch_word(qualifiers);
            least_of_two(
                check_qualifiers(alloc, line, 1, qualifiers),
                check_arch(alloc, line, qualifiers, arch),
            )?;
            Ok(components_scope(arch))
        }
        Section::Pcds(kind, store) => enter_pcds(alloc, line, kind, store, qualifiers),
    }
}

fn enter_named(
    alloc: Global,
    line: &Taken,
    section: Option<Option<Section>>,
    name: &[u8],
    qualifiers: &[Text],
) -> Result<Option<Scope>, Refusal>
    ensures { Answers result
        (unless_faulty (named_faults line.now section name.now qualifiers.now)
        (named_scope section qualifiers.now)) }
{
    match section {
        Some(Some(section)) => enter_section(alloc, line, section, qualifiers),
        Some(None) => Ok(None),
        None => Err(refuse(alloc, DSC_UNKNOWN_SECTION, &line.at, name)),
    }
}

/// What a head enters.
#[tactic(auto, unfolding(crate::specs::Sections::head_faults, crate::specs::Sections::scope_of))]
pub fn enter_head(alloc: Global, line: &Taken, head: &Head) -> Result<Option<Scope>, Refusal>
    ensures { Answers result (unless_faulty (head_faults line.now head.now) (scope_of head.now)) }
{
    match head.parts.items() {
        [name, qualifiers @ ..] => enter_named(
            alloc,
            line,
            section_named(name.bytes()),
            name.bytes(),
            qualifiers,
        ),
        [] => Ok(None),
    }
}
