//! The sections of a package's declarations, and what their heads stand for.
ghost use Rattle.std.specs.Prelude.{◌≡◌};
ghost use Rattle.dec_docs.specs.Sections.{section_named, for_all, with_arch, qualified_section, meaning_of, head_meaning};

use build_base::Text;
use doc_reading::meaning::Meaning;
use doc_types::arch::{Arch, arch_named};
use doc_types::pcd::Kind;
use meta_lexer::head::Head;
use meta_lexer::lookup;

/// What the lines of a section declare: keys of the package, GUIDs ([Guids], [Protocols], [Ppis])
/// or PCDs of one kind.
#[derive(Clone, Copy, PartialEq, Eq)]
pub(crate) enum DecSection {
    Defines,
    Guids,
    Pcds(Kind),
}

/// A section that is entered, and the architecture for which its lines count.
#[derive(Clone, Copy, PartialEq, Eq)]
pub struct Entry {
    pub section: DecSection,
    pub arch: Arch,
}

// `None`: read past.
const SECTIONS: [(&[u8], Option<DecSection>); 13] = [
    (b"Defines", Some(DecSection::Defines)),
    (b"Guids", Some(DecSection::Guids)),
    (b"Protocols", Some(DecSection::Guids)),
    (b"Ppis", Some(DecSection::Guids)),
    (
        b"PcdsFeatureFlag",
        Some(DecSection::Pcds(Kind::FeatureFlag)),
    ),
    (
        b"PcdsFixedAtBuild",
        Some(DecSection::Pcds(Kind::FixedAtBuild)),
    ),
    (
        b"PcdsPatchableInModule",
        Some(DecSection::Pcds(Kind::PatchableInModule)),
    ),
    (b"PcdsDynamic", Some(DecSection::Pcds(Kind::Dynamic))),
    (b"PcdsDynamicEx", Some(DecSection::Pcds(Kind::DynamicEx))),
    (b"Includes", None),
    (b"LibraryClasses", None),
    (b"Packages", None),
    (b"UserExtensions", None),
];

/// The section of a name, if there is one.
#[tactic(auto, unfolding(crate::specs::Sections::section_named))]
pub fn section_named(name: &[u8]) -> Option<Option<DecSection>>
    ensures { result ≡ section_named name.now }
{
    lookup(&SECTIONS, name)
}

fn for_all(section: DecSection) -> Meaning<Entry>
    ensures { result ≡ for_all section }
{
    Meaning::Section(Entry {
        section,
        arch: Arch::Common,
    })
}

fn with_arch(section: DecSection, arch: Option<Arch>) -> Meaning<Entry>
    ensures { result ≡ with_arch section arch }
{
    match arch {
        Some(arch) => Meaning::Section(Entry { section, arch }),
        None => Meaning::BadQualifier,
    }
}

fn qualified_section(section: DecSection, qualifiers: &[Text]) -> Meaning<Entry>
    ensures { result ≡ qualified_section section qualifiers.now }
{
    match (section, qualifiers) {
        (_, []) => for_all(section),
        (DecSection::Defines, _) => Meaning::BadQualifier,
        (_, [word]) => with_arch(section, arch_named(word.bytes())),
        _ => Meaning::BadQualifier,
    }
}

fn meaning_of(section: Option<Option<DecSection>>, qualifiers: &[Text]) -> Meaning<Entry>
    ensures { result ≡ meaning_of section qualifiers.now }
{
    match section {
        Some(Some(section)) => qualified_section(section, qualifiers),
        Some(None) => Meaning::Ignored,
        None => Meaning::Unknown,
    }
}

/// What a head stands for.
#[tactic(auto, unfolding(crate::specs::Sections::head_meaning))]
pub fn head_meaning(head: &Head) -> Meaning<Entry>
    ensures { result ≡ head_meaning head.now }
{
    match head.parts.items() {
        [name, qualifiers @ ..] => meaning_of(section_named(name.bytes()), qualifiers),
        [] => Meaning::Unknown,
    }
}
