//! The sections of a module's description, and what their heads stand for.
ghost use Rattle.std.specs.Prelude.{◌≡◌};
ghost use Rattle.inf_docs.specs.Sections.{section_named, scope_for, with_arch, with_type, qualified_section, meaning_of, head_meaning};

use build_base::Text;
use doc_reading::meaning::Meaning;
use doc_types::arch::{Arch, arch_named};
use doc_types::module_type::{ModuleType, module_type_named};
use doc_types::pcd::Asked;
use meta_lexer::head::Head;
use meta_lexer::lookup;

/// What the lines of a section state: keys of the module, paths of packages, names of library
/// classes or of GUIDs, PCDs, or the terms of a dependency expression.
#[derive(Clone, Copy, PartialEq, Eq)]
pub(crate) enum SectionKind {
    Defines,
    Packages,
    Classes,
    GuidNames,
    Pcds(Asked),
    Depex,
}

/// A section that is entered, and the architecture and type of modules for which its lines count.
#[derive(Clone, Copy, PartialEq, Eq)]
pub struct Scope {
    pub kind: SectionKind,
    pub arch: Arch,
    pub for_type: Option<ModuleType>,
}

// `None`: read past.
const SECTIONS: [(&[u8], Option<SectionKind>); 20] = [
    (b"Defines", Some(SectionKind::Defines)),
    (b"Packages", Some(SectionKind::Packages)),
    (b"LibraryClasses", Some(SectionKind::Classes)),
    (b"Depex", Some(SectionKind::Depex)),
    (b"Guids", Some(SectionKind::GuidNames)),
    (b"Protocols", Some(SectionKind::GuidNames)),
    (b"Ppis", Some(SectionKind::GuidNames)),
    (b"FixedPcd", Some(SectionKind::Pcds(Asked::Fixed))),
    (b"FeaturePcd", Some(SectionKind::Pcds(Asked::Feature))),
    (b"PatchPcd", Some(SectionKind::Pcds(Asked::Patch))),
    (b"Pcd", Some(SectionKind::Pcds(Asked::Any))),
    (b"PcdEx", Some(SectionKind::Pcds(Asked::Ex))),
    (b"Sources", None),
    (b"Includes", None),
    (b"BuildOptions", None),
    (b"UserExtensions", None),
    (b"Binaries", None),
    (b"Hob", None),
    (b"Event", None),
    (b"BootMode", None),
];

#[tactic(auto, unfolding(crate::specs::Sections::section_named))]
fn section_named(name: &[u8]) -> Option<Option<SectionKind>>
    ensures { result ≡ section_named name.now }
{
    lookup(&SECTIONS, name)
}

fn scope_for(kind: SectionKind, arch: Arch, for_type: Option<ModuleType>) -> Meaning<Scope>
    ensures { result ≡ scope_for kind arch for_type }
{
    Meaning::Section(Scope {
        kind,
        arch,
        for_type,
    })
}

fn with_arch(kind: SectionKind, arch: Option<Arch>) -> Meaning<Scope>
    ensures { result ≡ with_arch kind arch }
{
    match arch {
        Some(arch) => scope_for(kind, arch, None),
        None => Meaning::BadQualifier,
    }
}

fn with_type(arch: Option<Arch>, found: Option<ModuleType>) -> Meaning<Scope>
    ensures { result ≡ with_type arch found }
{
    match (arch, found) {
        (Some(arch), Some(found)) => scope_for(SectionKind::Depex, arch, Some(found)),
        _ => Meaning::BadQualifier,
    }
}

fn qualified_section(kind: SectionKind, qualifiers: &[Text]) -> Meaning<Scope>
    ensures { result ≡ qualified_section kind qualifiers.now }
{
    match (kind, qualifiers) {
        (_, []) => scope_for(kind, Arch::Common, None),
        (SectionKind::Defines, _) => Meaning::BadQualifier,
        (_, [word]) => with_arch(kind, arch_named(word.bytes())),
        (SectionKind::Depex, [word, next]) => {
            with_type(arch_named(word.bytes()), module_type_named(next.bytes()))
        }
        _ => Meaning::BadQualifier,
    }
}

fn meaning_of(section: Option<Option<SectionKind>>, qualifiers: &[Text]) -> Meaning<Scope>
    ensures { result ≡ meaning_of section qualifiers.now }
{
    match section {
        Some(Some(kind)) => qualified_section(kind, qualifiers),
        Some(None) => Meaning::Ignored,
        None => Meaning::Unknown,
    }
}

/// What a head stands for.
#[tactic(auto, unfolding(crate::specs::Sections::head_meaning))]
pub fn head_meaning(head: &Head) -> Meaning<Scope>
    ensures { result ≡ head_meaning head.now }
{
    match head.parts.items() {
        [name, qualifiers @ ..] => meaning_of(section_named(name.bytes()), qualifiers),
        [] => Meaning::Unknown,
    }
}
