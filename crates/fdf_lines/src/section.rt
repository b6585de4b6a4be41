//! The heads of sections.
ghost use Rattle.std.specs.Prelude.{◌≡◌, ◌++◌, ◌∷◌, [], IfOk, codes};
ghost use Rattle.std.specs.List.{list_all};
ghost use Rattle.build_base.specs.Answer.{Answers};
ghost use Rattle.doc_reading.specs.Gathering.{unless_faulty};
ghost use Rattle.fdf_lines.specs.Sections.{section_named, is_name_byte, is_image_name, plain_meaning, device_meaning, volume_meaning, rule_scope, rule_meaning, meaning_of, head_meaning, meaning_faults, meaning_scope};

use build_base::fault_codes::{BAD_KEY, BAD_RULE, BAD_SECTION};
use build_base::{Refusal, Taken, Text, WantOfMemory, refuse};
use doc_types::arch::{Arch, arch_named};
use doc_types::module_type::{ModuleType, module_type_named};
use fdf_words::rows::{RuleScope, Scope};
use meta_lexer::head::Head;
use meta_lexer::lookup;
use meta_lexer::parts::first_text;
use meta_lexer::words::is_identifier;
use std::alloc::Global;

/// A section that is entered.
#[derive(Clone, Copy, PartialEq, Eq)]
pub enum FlashSection {
    Defines,
    Device,
    Volume,
    Rule,
}

/// What a head stands for: a scope that is entered, a section that is read past, a section with
/// qualifiers that may not stand there, such a rule, or no section that there is.
#[derive(Drop)]
pub enum HeadMeaning {
    Section(Scope),
    Ignored,
    BadQualifier,
    BadRule,
    Unknown,
}

// `None`: read past.
const SECTIONS: [(&[u8], Option<FlashSection>); 10] = [
    (b"Defines", Some(FlashSection::Defines)),
    (b"FD", Some(FlashSection::Device)),
    (b"FV", Some(FlashSection::Volume)),
    (b"Rule", Some(FlashSection::Rule)),
    (b"VTF", None),
    (b"OptionRom", None),
    (b"Capsule", None),
    (b"FmpPayload", None),
    (b"UserExtensions", None),
    (b"DefaultStores", None),
];

/// The section of a name, if there is one.
#[tactic(auto, unfolding(crate::specs::Sections::section_named))]
pub fn section_named(name: &[u8]) -> Option<Option<FlashSection>>
    ensures { result ≡ section_named name.now }
{
    lookup(&SECTIONS, name)
}

fn is_name_byte(byte: u8) -> bool
    ensures { result ≡ is_name_byte byte }
{
    matches!(byte, b'a'..=b'z' | b'A'..=b'Z' | b'0'..=b'9' | b'_' | b'-')
}

fn has_name_bytes(text: &[u8]) -> bool
    ensures { result ≡ list_all is_name_byte text.now }
{
    text.iter().all(|byte| is_name_byte(*byte))
}

#[tactic(auto, unfolding(crate::specs::Sections::is_image_name))]
fn is_image_name(text: &[u8]) -> bool
    ensures { result ≡ is_image_name text.now }
{
    !text.is_empty() && text.len() <= 64 && has_name_bytes(text)
}

fn plain_meaning(qualifiers: &[Text]) -> HeadMeaning
    ensures { result ≡ plain_meaning qualifiers.now }
{
    match qualifiers {
        [] => HeadMeaning::Section(Scope::Settings),
        _ => HeadMeaning::BadQualifier,
    }
}

fn device_meaning(alloc: Global, qualifiers: &[Text]) -> Result<HeadMeaning, WantOfMemory>
    ensures { IfOk result (λ m. m ≡ device_meaning qualifiers.now) }
{
    match qualifiers {
        [name] => {
            if is_image_name(name.bytes()) {
                return Ok(HeadMeaning::Section(Scope::Device(Text::of(alloc, name.bytes())?)));
            }
            Ok(HeadMeaning::BadQualifier)
        }
        _ => Ok(HeadMeaning::BadQualifier),
    }
}

fn volume_meaning(alloc: Global, qualifiers: &[Text]) -> Result<HeadMeaning, WantOfMemory>
    ensures { IfOk result (λ m. m ≡ volume_meaning qualifiers.now) }
{
    match qualifiers {
        [name] => {
            if is_image_name(name.bytes()) {
                return Ok(HeadMeaning::Section(Scope::Volume(Text::of(alloc, name.bytes())?)));
            }
            Ok(HeadMeaning::BadQualifier)
        }
        _ => Ok(HeadMeaning::BadQualifier),
    }
}

fn rule_scope(
    alloc: Global,
    arch: Option<Arch>,
    module_type: Option<ModuleType>,
    named: bool,
    template: &[u8],
    name: Text,
) -> Result<HeadMeaning, WantOfMemory>
    ensures { IfOk result (λ m. m ≡ rule_scope arch module_type named template.now name) }
{
    match (arch, module_type) {
        (Some(arch), Some(module_type)) => {
            if named {
                return Ok(HeadMeaning::Section(Scope::Rule(RuleScope {
                    arch,
                    module_type,
                    template: Text::of(alloc, template)?,
                    name,
                })));
            }
            Ok(HeadMeaning::BadRule)
        }
        (Some(_), None) => Ok(HeadMeaning::BadRule),
        (None, _) => Ok(HeadMeaning::BadRule),
    }
}

fn dotted_text(alloc: Global, first: &[u8], second: &[u8]) -> Result<Text, WantOfMemory>
    ensures { IfOk result (λ t. t ≡ first.now ++ codes "." ++ second.now) }
{
    let mut out = Vec::from_slice(alloc, first)?;
    out.extend_from_slice(b".".as_slice())?;
    out.extend_from_slice(second)?;
    Ok(Text::from_vec(out))
}

fn two_qualifiers(alloc: Global, arch: &[u8], kind: &[u8]) -> Result<HeadMeaning, WantOfMemory>
    ensures { IfOk result (λ m. m ≡ rule_meaning (arch.now ∷ kind.now ∷ [])) }
{
    let name = dotted_text(alloc, arch, kind)?;
    rule_scope(
        alloc,
        arch_named(arch),
        module_type_named(kind),
        true,
        b"".as_slice(),
        name,
    )
}

fn three_qualifiers(
    alloc: Global,
    arch: &[u8],
    kind: &[u8],
    template: &[u8],
) -> Result<HeadMeaning, WantOfMemory>
    ensures { IfOk result (λ m. m ≡ rule_meaning (arch.now ∷ kind.now ∷ template.now ∷ [])) }
{
    let rest = dotted_text(alloc, kind, template)?;
    let name = dotted_text(alloc, arch, rest.bytes())?;
    rule_scope(
        alloc,
        arch_named(arch),
        module_type_named(kind),
        is_identifier(template),
        template,
        name,
    )
}

fn rule_meaning(alloc: Global, qualifiers: &[Text]) -> Result<HeadMeaning, WantOfMemory>
    ensures { IfOk result (λ m. m ≡ rule_meaning qualifiers.now) }
{
    match qualifiers {
        [arch, kind] => two_qualifiers(alloc, arch.bytes(), kind.bytes()),
        [arch, kind, template] => {
            three_qualifiers(alloc, arch.bytes(), kind.bytes(), template.bytes())
        }
        _ => Ok(HeadMeaning::BadRule),
    }
}

fn meaning_of(
    alloc: Global,
    section: Option<Option<FlashSection>>,
    qualifiers: &[Text],
) -> Result<HeadMeaning, WantOfMemory>
    ensures { IfOk result (λ m. m ≡ meaning_of section qualifiers.now) }
{
    match section {
        Some(Some(FlashSection::Defines)) => Ok(plain_meaning(qualifiers)),
        Some(Some(FlashSection::Device)) => device_meaning(alloc, qualifiers),
        Some(Some(FlashSection::Volume)) => volume_meaning(alloc, qualifiers),
        Some(Some(FlashSection::Rule)) => rule_meaning(alloc, qualifiers),
        Some(None) => Ok(HeadMeaning::Ignored),
        None => Ok(HeadMeaning::Unknown),
    }
}

#[tactic(auto, unfolding(crate::specs::Sections::head_meaning))]
fn head_meaning(alloc: Global, head: &Head) -> Result<HeadMeaning, WantOfMemory>
    ensures { IfOk result (λ m. m ≡ head_meaning head.now) }
{
    match head.parts.items() {
        [name, qualifiers @ ..] => meaning_of(alloc, section_named(name.bytes()), qualifiers),
        [] => Ok(HeadMeaning::Unknown),
    }
}

fn enter_as(
    alloc: Global,
    line: &Taken,
    head: &Head,
    meaning: HeadMeaning,
) -> Result<Option<Scope>, Refusal>
    ensures { Answers result
        (unless_faulty (meaning_faults line.now head.now meaning) (meaning_scope meaning)) }
{
    match meaning {
        HeadMeaning::Section(scope) => Ok(Some(scope)),
        HeadMeaning::Ignored => Ok(None),
        HeadMeaning::BadQualifier => Err(refuse(alloc, BAD_SECTION, &line.at, line.text.bytes())),
        HeadMeaning::BadRule => Err(refuse(alloc, BAD_RULE, &line.at, line.text.bytes())),
        HeadMeaning::Unknown => Err(refuse(
            alloc,
            BAD_KEY,
            &line.at,
            first_text(head.parts.items()),
        )),
    }
}

/// The scope that a head enters, or its fault.
pub fn enter(alloc: Global, line: &Taken, head: &Head) -> Result<Option<Scope>, Refusal>
    ensures { Answers result
        (unless_faulty (meaning_faults line.now head.now (head_meaning head.now))
        (meaning_scope (head_meaning head.now))) }
{
    let meaning = head_meaning(alloc, head)?;
    enter_as(alloc, line, head, meaning)
}
