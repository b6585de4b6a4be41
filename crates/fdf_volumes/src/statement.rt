//! The statements of a volume that open braces, and the files of an a priori file.
ghost use Rattle.std.specs.Prelude.{◌≡◌, ◌∷◌, [], IfOk, Some};
ghost use Rattle.std.specs.Option.{option_map};
ghost use Rattle.build_base.specs.Answer.{Answers, Checks, Finds};
ghost use Rattle.doc_reading.specs.Gathering.{unless_faulty};
ghost use Rattle.fdf_words.specs.Numbers.{bad_line};
ghost use Rattle.fdf_volumes.specs.Statements.{macro_before, full_fault, file_type, file_front, front_parts, file_parts, guid_fault, head_with, named_file, file_faults, file_row, alone, member_name, named_member, member_faults, member_row, apriori_names, apriori_named, made_apriori, apriori_faults, apriori_row};
ghost use Rattle.build_base.specs.Guid.{guid_of};
ghost use Rattle.doc_reading.specs.Least.{least_of};
ghost use Rattle.doc_reading.specs.ValueFields.{undefined_macro};
ghost use Rattle.meta_lexer.specs.Lookup.{lookup};

use build_base::fault_codes::{FDF_BAD_FILE, FDF_BAD_GUID, TOO_MANY, UNDEFINED_MACRO};
use build_base::{Guid, Refusal, Same, Taken, WantOfMemory, refuse};
use doc_reading::least_check::{
    least_of_one, least_of_three, least_of_two, least_refusal, with_check,
};
use doc_reading::value_fields::undefined_macro;
use doc_reading::values::require;
use doc_types::standard::{
    EFI_FV_FILETYPE_APPLICATION, EFI_FV_FILETYPE_DRIVER, EFI_FV_FILETYPE_DXE_CORE,
    EFI_FV_FILETYPE_FIRMWARE_VOLUME_IMAGE, EFI_FV_FILETYPE_FREEFORM, EFI_FV_FILETYPE_MM,
    EFI_FV_FILETYPE_MM_CORE, EFI_FV_FILETYPE_PEI_CORE, EFI_FV_FILETYPE_PEIM, EFI_FV_FILETYPE_RAW,
    EFI_FV_FILETYPE_SECURITY_CORE,
};
use doc_types::volume::Member;
use fdf_words::number::{bad_line, no_form};
use fdf_words::rows::{AprioriHead, FileHead, Row};
use fdf_words::words::{Options, after_equals, before_brace, first_word, options_of};
use meta_lexer::lookup;
use meta_lexer::words::has_macro_use;
use std::alloc::Global;

const FILE_TYPES: [(&[u8], u8); 11] = [
    (b"RAW", EFI_FV_FILETYPE_RAW),
    (b"FREEFORM", EFI_FV_FILETYPE_FREEFORM),
    (b"SEC", EFI_FV_FILETYPE_SECURITY_CORE),
    (b"PEI_CORE", EFI_FV_FILETYPE_PEI_CORE),
    (b"DXE_CORE", EFI_FV_FILETYPE_DXE_CORE),
    (b"PEIM", EFI_FV_FILETYPE_PEIM),
    (b"DRIVER", EFI_FV_FILETYPE_DRIVER),
    (b"APPLICATION", EFI_FV_FILETYPE_APPLICATION),
    (b"SMM", EFI_FV_FILETYPE_MM),
    (b"FV_IMAGE", EFI_FV_FILETYPE_FIRMWARE_VOLUME_IMAGE),
    (b"SMM_CORE", EFI_FV_FILETYPE_MM_CORE),
];

const APRIORI_NAMES: [(&[u8], bool); 2] = [(b"PEI", true), (b"DXE", false)];

/// Refuses a macro that is left before a field at the line's end.
pub fn macro_before(alloc: Global, line: &Taken, field: &[u8]) -> Result<(), Refusal>
    ensures { Checks result (macro_before line.now field.now) }
{
    let text = line.text.bytes();
    let end = text.len().saturating_sub(field.len());
    if has_macro_use(&text[..end]) {
        return Err(bad_line(alloc, UNDEFINED_MACRO, line));
    }
    Ok(())
}

/// Refuses a statement where the volume has as many as it may.
pub(crate) fn check_full(alloc: Global, line: &Taken, full: bool) -> Result<(), Refusal>
    ensures { Checks result (full_fault line.now full) }
{
    if full {
        return Err(refuse(alloc, TOO_MANY, &line.at, b"65536".as_slice()));
    }
    Ok(())
}

#[tactic(auto, unfolding(crate::specs::Statements::file_type))]
fn file_type(word: &[u8]) -> Option<u8>
    ensures { result ≡ file_type word.now }
{
    lookup(&FILE_TYPES, word)
}

#[tactic(auto, unfolding(crate::specs::Statements::file_front))]
fn file_front(text: &[u8]) -> Option<&[u8]>
    ensures { option_map (λ t. t.now) result ≡ file_front text.now }
{
    let (_, rest) = first_word(text);
    let value = after_equals(rest)?;
    before_brace(value)
}

fn front_parts(kind: Option<u8>, front: Option<&[u8]>) -> Option<(u8, &[u8], Options)>
    ensures { option_map (λ p. (p.0, p.1.now, p.2)) result
        ≡ front_parts kind (option_map (λ t. t.now) front.entry) }
{
    let (name, rest) = first_word(front?);
    let options = options_of(rest);
    Some((kind?, name, options?))
}

/// The type, the name and the options of a file's first line, behind the word FILE.
#[tactic(auto, unfolding(crate::specs::Statements::file_parts))]
pub fn file_parts(text: &[u8]) -> Option<(u8, &[u8], Options)>
    ensures { option_map (λ p. (p.0, p.1.now, p.2)) result ≡ file_parts text.now }
{
    let (word, _) = first_word(text);
    front_parts(file_type(word), file_front(text))
}

fn check_guid(alloc: Global, line: &Taken, word: &[u8], guid: &Option<Guid>) -> Result<(), Refusal>
    ensures { Checks result (guid_fault line.now word.now guid.now) }
{
    if word.is_empty() {
        return Err(bad_line(alloc, FDF_BAD_FILE, line));
    }
    require(alloc, guid, FDF_BAD_GUID, &line.at, word)
}

/// The first line of a file.
pub fn head_with(
    alloc: Global,
    line: &Taken,
    file_type: u8,
    guid: Option<Guid>,
    options: Options,
) -> Result<FileHead, WantOfMemory>
    ensures { IfOk result (λ h. h ≡ head_with line.now file_type guid options) }
{
    Ok(FileHead {
        at: line.at.copy(alloc)?,
        file_type,
        guid,
        fixed: options.fixed,
        checksum: options.checksum,
        align: options.align,
    })
}

fn named_file(
    alloc: Global,
    line: &Taken,
    file_type: u8,
    guid: Option<Guid>,
    options: Options,
) -> Result<Option<Row>, WantOfMemory>
    ensures { IfOk result (λ row. row ≡ named_file line.now file_type guid options) }
{
    match guid {
        Some(guid) => Ok(Some(Row::File(head_with(alloc, line, file_type, Some(guid), options)?))),
        None => Ok(None),
    }
}

fn parted_file(
    alloc: Global,
    line: &Taken,
    full: bool,
    file_type: u8,
    name: &[u8],
    options: Options,
) -> Result<Option<Row>, Refusal>
    ensures { Answers result
        (unless_faulty (undefined_macro line.now.at line.now.text
        ∷ guid_fault line.now name.now (guid_of name.now) ∷ full_fault line.now full ∷ [])
        (named_file line.now file_type (guid_of name.now) options)) }
{
    let guid = Guid::of_text(name);
    least_of_three(
        undefined_macro(alloc, &line.at, line.text.bytes()),
        check_guid(alloc, line, name, &guid),
        check_full(alloc, line, full),
    )?;
    let row = named_file(alloc, line, file_type, guid, options)?;
    Ok(row)
}

fn bad_or_full(alloc: Global, code: u16, line: &Taken, full: bool) -> Refusal
    ensures { Finds result
        (least_of (Some (bad_line code line.now) ∷ full_fault line.now full ∷ [])) }
{
    with_check(
        bad_line(alloc, code, line),
        least_of_one(check_full(alloc, line, full)),
    )
}

/// The refusal of a statement that is of no form.
pub(crate) fn no_statement(alloc: Global, code: u16, line: &Taken, full: bool) -> Refusal
    ensures { Finds result
        (least_of (undefined_macro line.now.at line.now.text ∷ Some (bad_line code line.now)
        ∷ full_fault line.now full ∷ [])) }
{
    least_refusal(
        undefined_macro(alloc, &line.at, line.text.bytes()),
        bad_or_full(alloc, code, line, full),
    )
}

/// The first line of a file of a volume.
#[tactic(auto, unfolding(crate::specs::Statements::file_faults, crate::specs::Statements::file_row))]
pub fn file_line(alloc: Global, line: &Taken, full: bool) -> Result<Option<Row>, Refusal>
    ensures { Answers result (unless_faulty (file_faults line.now full) (file_row line.now)) }
{
    let (_, rest) = first_word(line.text.bytes());
    match file_parts(rest) {
        Some((file_type, name, options)) => {
            parted_file(alloc, line, full, file_type, name, options)
        }
        None => Err(no_statement(alloc, FDF_BAD_FILE, line, full)),
    }
}

fn alone(kind: Option<u8>, text: Option<&[u8]>) -> Option<&[u8]>
    ensures { option_map (λ t. t.now) result ≡ alone kind (option_map (λ t. t.now) text.entry) }
{
    let (word, rest) = first_word(text?);
    match kind {
        Some(_) => { if rest.is_empty() { Some(word) } else { None } }
        None => None,
    }
}

#[tactic(auto, unfolding(crate::specs::Statements::member_name))]
fn member_name(text: &[u8]) -> Option<&[u8]>
    ensures { option_map (λ t. t.now) result ≡ member_name text.now }
{
    let (word, rest) = first_word(text);
    alone(file_type(word), after_equals(rest))
}

fn named_member(guid: Option<Guid>) -> Option<Row>
    ensures { result ≡ named_member guid }
{
    match guid {
        Some(guid) => Some(Row::Member(Member::File(guid))),
        None => None,
    }
}

fn named_line(alloc: Global, line: &Taken, word: &[u8]) -> Result<Option<Row>, Refusal>
    ensures { Answers result
        (unless_faulty (undefined_macro line.now.at line.now.text
        ∷ guid_fault line.now word.now (guid_of word.now) ∷ []) (named_member (guid_of word.now))) }
{
    let guid = Guid::of_text(word);
    least_of_two(
        undefined_macro(alloc, &line.at, line.text.bytes()),
        check_guid(alloc, line, word, &guid),
    )?;
    Ok(named_member(guid))
}

/// A file of an a priori file.
#[tactic(auto, unfolding(crate::specs::Statements::member_faults, crate::specs::Statements::member_row))]
pub(crate) fn member_line(alloc: Global, line: &Taken) -> Result<Option<Row>, Refusal>
    ensures { Answers result (unless_faulty (member_faults line.now) (member_row line.now)) }
{
    let (_, rest) = first_word(line.text.bytes());
    match member_name(rest) {
        Some(word) => named_line(alloc, line, word),
        None => Err(no_form(alloc, FDF_BAD_FILE, line)),
    }
}

fn apriori_word(word: &[u8]) -> Option<bool>
    ensures { result ≡ lookup apriori_names word.now }
{
    lookup(&APRIORI_NAMES, word)
}

#[tactic(auto, unfolding(crate::specs::Statements::apriori_named))]
fn apriori_named(text: &[u8]) -> Option<bool>
    ensures { result ≡ apriori_named text.now }
{
    let front = before_brace(text)?;
    apriori_word(front)
}

fn made_apriori(alloc: Global, line: &Taken, pei: Option<bool>) -> Result<Option<Row>, WantOfMemory>
    ensures { IfOk result (λ row. row ≡ made_apriori line.now pei) }
{
    match pei {
        Some(pei) => Ok(Some(Row::Apriori(AprioriHead {
            at: line.at.copy(alloc)?,
            pei,
        }))),
        None => Ok(None),
    }
}

/// The first line of an a priori file.
#[tactic(auto, unfolding(crate::specs::Statements::apriori_faults, crate::specs::Statements::apriori_row))]
pub(crate) fn apriori_line(alloc: Global, line: &Taken, full: bool) -> Result<Option<Row>, Refusal>
    ensures { Answers result (unless_faulty (apriori_faults line.now full) (apriori_row line.now)) }
{
    let (_, rest) = first_word(line.text.bytes());
    let pei = apriori_named(rest);
    least_of_three(
        undefined_macro(alloc, &line.at, line.text.bytes()),
        require(alloc, &pei, FDF_BAD_FILE, &line.at, line.text.bytes()),
        check_full(alloc, line, full),
    )?;
    let row = made_apriori(alloc, line, pei)?;
    Ok(row)
}
