//! The lines of [Components].
ghost use Rattle.std.specs.Prelude.{◌≡◌, IfOk, None, Option};
ghost use Rattle.std.specs.Option.{option_map};
ghost use Rattle.dsc_lines.specs.declared.rows.Part.{Part as Row};
ghost use Rattle.dsc_lines.specs.declared.rows.Part.TheVariants.{Tagged};
ghost use Rattle.build_base.specs.Answer.{Answers};
ghost use Rattle.meta_lexer.specs.Words.{split_once};
ghost use Rattle.doc_reading.specs.Gathering.{unless_faulty};
ghost use Rattle.dsc_lines.specs.ComponentLines.{form_of, tag_named, inf_text, is_file_guid, out_of_place, begun_faults, made_begun, begun_part, define_faults, define_part, tagged_faults, tagged_part, found_faults, misplaced_faults, shut_faults, shut_part, untagged_faults, untagged_part, below_faults, below_part, standing_faults, standing_part, component_faults, component_part};

use crate::form::refuse_form;
use crate::library_line::library_line;
use crate::open_mark::Open;
use crate::pcd_line::pcd_line;
use crate::rows::{Begun, Part, Tag};
use crate::section::StoreKind;
use build_base::fault_codes::{BAD_COMPONENT, BAD_PATH, DSC_BAD_GUID};
use build_base::path::path_field;
use build_base::{Guid, Path, Refusal, Same, Taken, WantOfMemory};
use doc_reading::least_check::{least_of_one, least_of_two};
use doc_reading::value_fields::{open_quote, undefined_macro};
use doc_reading::values::require;
use doc_types::arch::Arch;
use doc_types::pcd::Kind;
use macro_expressions::macros::without_workspace;
use meta_lexer::line::trim;
use meta_lexer::lookup;
use meta_lexer::parts::field_texts;
use meta_lexer::words::{same_word, split_once};
use std::alloc::Global;

/// What a line of [Components] is by its first and last bytes.
#[derive(Clone, Copy, PartialEq, Eq)]
pub enum Form {
    Closes,
    Misplaced,
    Tagged,
    Opens,
    Plain,
}

const TAGS: [(&[u8], Tag); 12] = [
    (b"<LibraryClasses>", Tag::Libraries),
    (b"<Defines>", Tag::Defines),
    (b"<BuildOptions>", Tag::Ignored),
    (
        b"<PcdsFeatureFlag>",
        Tag::Pcds(Kind::FeatureFlag, StoreKind::Plain),
    ),
    (
        b"<PcdsFixedAtBuild>",
        Tag::Pcds(Kind::FixedAtBuild, StoreKind::Plain),
    ),
    (
        b"<PcdsPatchableInModule>",
        Tag::Pcds(Kind::PatchableInModule, StoreKind::Plain),
    ),
    (
        b"<PcdsDynamicDefault>",
        Tag::Pcds(Kind::Dynamic, StoreKind::Plain),
    ),
    (
        b"<PcdsDynamicHii>",
        Tag::Pcds(Kind::Dynamic, StoreKind::Hii),
    ),
    (
        b"<PcdsDynamicVpd>",
        Tag::Pcds(Kind::Dynamic, StoreKind::Vpd),
    ),
    (
        b"<PcdsDynamicExDefault>",
        Tag::Pcds(Kind::DynamicEx, StoreKind::Plain),
    ),
    (
        b"<PcdsDynamicExHii>",
        Tag::Pcds(Kind::DynamicEx, StoreKind::Hii),
    ),
    (
        b"<PcdsDynamicExVpd>",
        Tag::Pcds(Kind::DynamicEx, StoreKind::Vpd),
    ),
];

#[tactic(auto, unfolding(crate::specs::ComponentLines::tag_named))]
fn tag_named(text: &[u8]) -> Option<Tag>
    ensures { result ≡ tag_named text.now }
{
    lookup(&TAGS, text)
}

#[tactic(auto, unfolding(crate::specs::ComponentLines::form_of))]
fn form_of(text: &[u8]) -> Form
    ensures { result ≡ form_of text.now }
{
    match text {
        [b'}'] => Form::Closes,
        [b'}', ..] => Form::Misplaced,
        [b'<', ..] => Form::Tagged,
        [.., b'{'] => Form::Opens,
        _ => Form::Plain,
    }
}

// The path of a component's line.
#[tactic(auto, unfolding(crate::specs::ComponentLines::inf_text))]
fn inf_text(text: &[u8]) -> &[u8]
    ensures { result.now ≡ inf_text text.now }
{
    match text {
        [front @ .., b'{'] => trim(front),
        _ => text,
    }
}

// A brace, a tag or a line out of place.
fn refuse_misplaced(alloc: Global, line: &Taken) -> Result<Option<Part>, Refusal>
    ensures { (part : Option Row) → Answers result (unless_faulty (out_of_place line.now) part) }
{
    open_quote(alloc, &line.at, line.text.bytes())?;
    let fields = field_texts(alloc, line.text.bytes())?;
    Err(refuse_form(alloc, BAD_COMPONENT, line, fields.items()))
}

fn made_begun(
    alloc: Global,
    line: &Taken,
    arch: Arch,
    braced: bool,
    inf: Option<Path>,
) -> Result<Option<Part>, WantOfMemory>
    ensures { IfOk result (λ row. row ≡ made_begun line.now arch braced inf) }
{
    match inf {
        Some(inf) => Ok(Some(Part::Begins(Begun {
            at: line.at.copy(alloc)?,
            arch,
            inf,
            braced,
        }))),
        None => Ok(None),
    }
}

// The line of a component.
fn begun_part(
    alloc: Global,
    line: &Taken,
    arch: Arch,
    braced: bool,
) -> Result<Option<Part>, Refusal>
    ensures { Answers result
        (unless_faulty (begun_faults line.now) (begun_part line.now arch braced)) }
{
    let text = inf_text(line.text.bytes());
    if text.is_empty() {
        return refuse_misplaced(alloc, line);
    }
    open_quote(alloc, &line.at, line.text.bytes())?;
    let inf = path_field(alloc, without_workspace(text))?;
    least_of_one(require(alloc, &inf, BAD_PATH, &line.at, text))?;
    let row = made_begun(alloc, line, arch, braced, inf)?;
    Ok(row)
}

fn is_file_guid(key: &[u8]) -> bool
    ensures { result ≡ is_file_guid key.now }
{
    same_word(key, b"FILE_GUID".as_slice())
}

fn define_part(alloc: Global, line: &Taken, arch: Arch) -> Result<Option<Part>, Refusal>
    ensures { Answers result
        (unless_faulty (define_faults line.now (split_once 61 line.now.text))
        (define_part arch (split_once 61 line.now.text))) }
{
    let Some((key, value)) = split_once(b'=', line.text.bytes()) else {
        return Ok(None);
    };
    if !is_file_guid(key) {
        return Ok(None);
    }
    open_quote(alloc, &line.at, line.text.bytes())?;
    let guid = Guid::of_text(value);
    least_of_two(
        undefined_macro(alloc, &line.at, value),
        require(alloc, &guid, DSC_BAD_GUID, &line.at, value),
    )?;
    Ok(guid.map(|guid| Part::FileGuid(arch, guid)))
}

// A line below a tag.
fn tagged_part(alloc: Global, line: &Taken, arch: Arch, tag: Tag) -> Result<Option<Part>, Refusal>
    ensures { Answers result
        (unless_faulty (tagged_faults line.now tag) (tagged_part line.now arch tag)) }
{
    match tag {
        Tag::Libraries => {
            let library = library_line(alloc, line, arch, None)?;
            Ok(library.map(|library| Part::Library(library)))
        }
        Tag::Defines => define_part(alloc, line, arch),
        Tag::Pcds(kind, stored) => {
            let pcd = pcd_line(alloc, line, kind, stored, arch, b"DEFAULT".as_slice())?;
            Ok(pcd.map(|pcd| Part::Pcd(pcd)))
        }
        Tag::Ignored => Ok(None),
    }
}

// The line of a tag.
fn found_tag(alloc: Global, line: &Taken) -> Result<Option<Part>, Refusal>
    ensures { Answers result
        (unless_faulty (found_faults line.now (tag_named line.now.text))
        (option_map Tagged (tag_named line.now.text))) }
{
    match tag_named(line.text.bytes()) {
        Some(tag) => Ok(Some(Part::Tagged(tag))),
        None => refuse_misplaced(alloc, line),
    }
}

fn shut_part(alloc: Global, line: &Taken, arch: Arch, form: Form) -> Result<Option<Part>, Refusal>
    ensures { Answers result
        (unless_faulty (shut_faults line.now form) (shut_part line.now arch form)) }
{
    match form {
        Form::Plain => begun_part(alloc, line, arch, false),
        Form::Opens => begun_part(alloc, line, arch, true),
        Form::Closes => refuse_misplaced(alloc, line),
        Form::Misplaced => refuse_misplaced(alloc, line),
        Form::Tagged => refuse_misplaced(alloc, line),
    }
}

fn untagged_part(alloc: Global, line: &Taken, form: Form) -> Result<Option<Part>, Refusal>
    ensures { Answers result
        (unless_faulty (untagged_faults line.now form) (untagged_part line.now form)) }
{
    match form {
        Form::Plain => refuse_misplaced(alloc, line),
        Form::Opens => refuse_misplaced(alloc, line),
        Form::Closes => Ok(Some(Part::Closes)),
        Form::Misplaced => refuse_misplaced(alloc, line),
        Form::Tagged => found_tag(alloc, line),
    }
}

// A `}` with more behind it.
fn misplaced_below(alloc: Global, line: &Taken, tag: Tag) -> Result<Option<Part>, Refusal>
    ensures { Answers result (unless_faulty (misplaced_faults line.now tag) None) }
{
    match tag {
        Tag::Libraries => refuse_misplaced(alloc, line),
        Tag::Defines => refuse_misplaced(alloc, line),
        Tag::Pcds(_, _) => refuse_misplaced(alloc, line),
        Tag::Ignored => Ok(None),
    }
}

fn below_part(
    alloc: Global,
    line: &Taken,
    arch: Arch,
    tag: Tag,
    form: Form,
) -> Result<Option<Part>, Refusal>
    ensures { Answers result
        (unless_faulty (below_faults line.now tag form) (below_part line.now arch tag form)) }
{
    match form {
        Form::Plain => tagged_part(alloc, line, arch, tag),
        Form::Opens => tagged_part(alloc, line, arch, tag),
        Form::Closes => Ok(Some(Part::Closes)),
        Form::Misplaced => misplaced_below(alloc, line, tag),
        Form::Tagged => found_tag(alloc, line),
    }
}

fn standing_part(
    alloc: Global,
    line: &Taken,
    arch: Arch,
    standing: Open,
    form: Form,
) -> Result<Option<Part>, Refusal>
    ensures { Answers result
        (unless_faulty (standing_faults line.now standing form)
        (standing_part line.now arch standing form)) }
{
    match standing {
        Open::Shut => shut_part(alloc, line, arch, form),
        Open::Untagged => untagged_part(alloc, line, form),
        Open::Tagged(tag) => below_part(alloc, line, arch, tag, form),
    }
}

/// What a line of [Components] says, where this is open above it.
#[tactic(auto, unfolding(crate::specs::ComponentLines::component_faults, crate::specs::ComponentLines::component_part))]
pub fn component_line(
    alloc: Global,
    line: &Taken,
    arch: Arch,
    standing: Open,
) -> Result<Option<Part>, Refusal>
    ensures { Answers result
        (unless_faulty (component_faults line.now standing)
        (component_part line.now arch standing)) }
{
    standing_part(alloc, line, arch, standing, form_of(line.text.bytes()))
}
