//! The lines in the braces of a file.
ghost use Rattle.std.specs.Prelude.{◌≡◌, ◌∷◌, [], not, ◌==◌, IfOk, Some};
ghost use Rattle.std.specs.List.{list_all};
ghost use Rattle.std.specs.Option.{option_map};
ghost use Rattle.build_base.specs.Answer.{Answers, Finds};
ghost use Rattle.build_base.specs.FaultText.{fault_of};
ghost use Rattle.build_base.specs.Guid.{guid_of};
ghost use Rattle.build_base.specs.Path.{path_field};
ghost use Rattle.macro_expressions.specs.Macros.{without_workspace};
ghost use Rattle.doc_reading.specs.Gathering.{unless_faulty};
ghost use Rattle.doc_reading.specs.Least.{least_of};
ghost use Rattle.doc_reading.specs.ValueFields.{undefined_macro};
ghost use Rattle.fdf_words.specs.Words.{word_of};
ghost use Rattle.fdf_volumes.specs.declared.body.SectionWord.TheVariants.{Nested};
ghost use Rattle.fdf_volumes.specs.Bodies.{section_word, maybe_align, words_in_quotes, made_section, path_faults, path_row, words_faults, words_row, guid_faults, guid_row, some_text, value_faults, value_row, equals_faults, equals_row, named_faults, named_row, named_value, kind_faults, kind_row, section_faults, section_row, whole_faults, whole_row};
ghost use Rattle.build_base.specs.FaultCodes.{COMPRESSED_REFUSED};

use crate::statement::macro_before;
use build_base::fault_codes::{BAD_PATH, COMPRESSED_REFUSED, FDF_BAD_FILE, FDF_BAD_GUID};
use build_base::path::path_field;
use build_base::{Guid, Path, Refusal, Same, Taken, Text, WantOfMemory, refuse};
use doc_reading::least_check::{least_of_three, least_of_two, least_refusal};
use doc_reading::value_fields::undefined_macro;
use doc_reading::values::require;
use doc_types::standard::{
    EFI_SECTION_DXE_DEPEX, EFI_SECTION_FIRMWARE_VOLUME_IMAGE, EFI_SECTION_FREEFORM_SUBTYPE_GUID,
    EFI_SECTION_MM_DEPEX, EFI_SECTION_PE32, EFI_SECTION_PEI_DEPEX, EFI_SECTION_RAW, EFI_SECTION_TE,
    EFI_SECTION_USER_INTERFACE, EFI_SECTION_VERSION,
};
use doc_types::volume::Align;
use fdf_words::number::no_form;
use fdf_words::rows::{Row, SectionBody, SectionLine};
use fdf_words::words::{after_equals, first_word, stated_align};
use macro_expressions::macros::without_workspace;
use meta_lexer::head::strip_delimiters;
use meta_lexer::lookup;
use meta_lexer::words::same_word;
use std::alloc::Global;

/// What stands behind the kind of a section: a path, a text or a path, the name of a volume, a GUID
/// and a path, or nothing that is taken. A number is the section's type.
#[derive(Clone, Copy, PartialEq, Eq)]
pub enum SectionWord {
    Plain(u8),
    Worded(u8),
    Nested,
    Named,
    Refused,
}

const SECTION_WORDS: [(&[u8], SectionWord); 12] = [
    (b"PE32", SectionWord::Plain(EFI_SECTION_PE32)),
    (b"TE", SectionWord::Plain(EFI_SECTION_TE)),
    (b"DXE_DEPEX", SectionWord::Plain(EFI_SECTION_DXE_DEPEX)),
    (b"VERSION", SectionWord::Worded(EFI_SECTION_VERSION)),
    (b"UI", SectionWord::Worded(EFI_SECTION_USER_INTERFACE)),
    (b"FV_IMAGE", SectionWord::Nested),
    (b"SUBTYPE_GUID", SectionWord::Named),
    (b"RAW", SectionWord::Plain(EFI_SECTION_RAW)),
    (b"PEI_DEPEX", SectionWord::Plain(EFI_SECTION_PEI_DEPEX)),
    (b"SMM_DEPEX", SectionWord::Plain(EFI_SECTION_MM_DEPEX)),
    (b"COMPRESS", SectionWord::Refused),
    (b"GUIDED", SectionWord::Refused),
];

/// What stands behind the kind of a section.
#[tactic(auto, unfolding(crate::specs::Bodies::section_word))]
pub fn section_word(word: &[u8]) -> Option<SectionWord>
    ensures { result ≡ section_word word.now }
{
    lookup(&SECTION_WORDS, word)
}

#[tactic(auto, unfolding(crate::specs::Bodies::maybe_align))]
fn maybe_align(text: &[u8]) -> Option<(Align, &[u8])>
    ensures { option_map (λ p. (p.0, p.1.now)) result ≡ maybe_align text.now }
{
    let (word, rest) = first_word(text);
    if same_word(word, b"Align".as_slice()) {
        let (bytes, rest) = stated_align(rest)?;
        Some((Align::Bytes(bytes), rest))
    } else {
        Some((Align::Unset, text))
    }
}

fn has_no_quote(text: &[u8]) -> bool
    ensures { result ≡ list_all (λ b. not (b == 34)) text.now }
{
    text.iter().all(|byte| *byte != b'"')
}

#[tactic(auto, unfolding(crate::specs::Bodies::words_in_quotes))]
fn words_in_quotes(text: &[u8]) -> Option<&[u8]>
    ensures { option_map (λ t. t.now) result ≡ words_in_quotes text.now }
{
    match strip_delimiters(b'"', b'"', text) {
        Some(inner) => {
            if has_no_quote(inner) {
                Some(inner)
            } else {
                None
            }
        }
        None => None,
    }
}

fn made_section(
    alloc: Global,
    line: &Taken,
    kind: u8,
    align: Align,
    guid: Option<Guid>,
    body: SectionBody,
) -> Result<Row, WantOfMemory>
    ensures { IfOk result (λ row. row ≡ made_section line.now kind align guid body) }
{
    Ok(Row::Section(SectionLine {
        at: line.at.copy(alloc)?,
        kind,
        align,
        guid,
        body,
    }))
}

fn path_row(
    alloc: Global,
    line: &Taken,
    kind: u8,
    align: Align,
    path: Option<Path>,
) -> Result<Option<Row>, WantOfMemory>
    ensures { IfOk result (λ row. row ≡ path_row line.now kind align path) }
{
    match path {
        Some(path) => Ok(Some(made_section(
            alloc,
            line,
            kind,
            align,
            None,
            SectionBody::Tree(path),
        )?)),
        None => Ok(None),
    }
}

fn path_section(
    alloc: Global,
    line: &Taken,
    kind: u8,
    align: Align,
    value: &[u8],
) -> Result<Option<Row>, Refusal>
    ensures { Answers result
        (unless_faulty (path_faults line.now value.now)
        (path_row line.now kind align (path_field (without_workspace value.now)))) }
{
    let path = path_field(alloc, without_workspace(value))?;
    least_of_two(
        macro_before(alloc, line, value),
        require(alloc, &path, BAD_PATH, &line.at, value),
    )?;
    let row = path_row(alloc, line, kind, align, path)?;
    Ok(row)
}

fn quoted_section(
    alloc: Global,
    line: &Taken,
    kind: u8,
    align: Align,
    words: &[u8],
) -> Result<Option<Row>, Refusal>
    ensures { Answers result
        (unless_faulty (words_faults line.now [] (Some words.now))
        (words_row line.now kind align [] (Some words.now))) }
{
    undefined_macro(alloc, &line.at, line.text.bytes())?;
    let body = SectionBody::Words(Text::of(alloc, words)?);
    let row = made_section(alloc, line, kind, align, None, body)?;
    Ok(Some(row))
}

fn words_section(
    alloc: Global,
    line: &Taken,
    kind: u8,
    align: Align,
    value: &[u8],
) -> Result<Option<Row>, Refusal>
    ensures { Answers result
        (unless_faulty (words_faults line.now value.now (words_in_quotes value.now))
        (words_row line.now kind align value.now (words_in_quotes value.now))) }
{
    match words_in_quotes(value) {
        Some(words) => quoted_section(alloc, line, kind, align, words),
        None => path_section(alloc, line, kind, align, value),
    }
}

fn nested_section(
    alloc: Global,
    line: &Taken,
    align: Align,
    name: &[u8],
) -> Result<Option<Row>, Refusal>
    ensures { Answers result
        (unless_faulty (undefined_macro line.now.at line.now.text ∷ [])
        (value_row line.now align Nested name.now)) }
{
    undefined_macro(alloc, &line.at, line.text.bytes())?;
    let body = SectionBody::Volume(Text::of(alloc, name)?);
    let row = made_section(
        alloc,
        line,
        EFI_SECTION_FIRMWARE_VOLUME_IMAGE,
        align,
        None,
        body,
    )?;
    Ok(Some(row))
}

fn guid_row(
    alloc: Global,
    line: &Taken,
    align: Align,
    guid: Option<Guid>,
    path: Option<Path>,
) -> Result<Option<Row>, WantOfMemory>
    ensures { IfOk result (λ row. row ≡ guid_row line.now align guid path) }
{
    match (guid, path) {
        (Some(guid), Some(path)) => Ok(Some(made_section(
            alloc,
            line,
            EFI_SECTION_FREEFORM_SUBTYPE_GUID,
            align,
            Some(guid),
            SectionBody::Tree(path),
        )?)),
        (Some(_), None) => Ok(None),
        (None, _) => Ok(None),
    }
}

fn guid_section(
    alloc: Global,
    line: &Taken,
    align: Align,
    word: &[u8],
    value: &[u8],
) -> Result<Option<Row>, Refusal>
    ensures { Answers result
        (unless_faulty (guid_faults line.now word.now value.now)
        (guid_row line.now align (guid_of word.now) (path_field (without_workspace value.now)))) }
{
    let guid = Guid::of_text(word);
    let path = path_field(alloc, without_workspace(value))?;
    least_of_three(
        macro_before(alloc, line, value),
        require(alloc, &path, BAD_PATH, &line.at, value),
        require(alloc, &guid, FDF_BAD_GUID, &line.at, word),
    )?;
    let row = guid_row(alloc, line, align, guid, path)?;
    Ok(row)
}

fn some_text(text: Option<&[u8]>) -> Option<&[u8]>
    ensures { option_map (λ t. t.now) result ≡ some_text (option_map (λ t. t.now) text.entry) }
{
    let text = text?;
    if text.is_empty() { None } else { Some(text) }
}

#[tactic(auto, unfolding(crate::specs::Bodies::named_value))]
fn named_value(text: &[u8]) -> Option<&[u8]>
    ensures { option_map (λ t. t.now) result ≡ named_value text.now }
{
    let (word, rest) = first_word(text);
    if word.is_empty() {
        return None;
    }
    some_text(after_equals(rest))
}

fn value_section(
    alloc: Global,
    line: &Taken,
    align: Align,
    word: SectionWord,
    value: &[u8],
) -> Result<Option<Row>, Refusal>
    ensures { Answers result
        (unless_faulty (value_faults line.now word value.now)
        (value_row line.now align word value.now)) }
{
    match word {
        SectionWord::Plain(kind) => path_section(alloc, line, kind, align, value),
        SectionWord::Worded(kind) => words_section(alloc, line, kind, align, value),
        SectionWord::Nested => nested_section(alloc, line, align, value),
        SectionWord::Named => Err(no_form(alloc, FDF_BAD_FILE, line)),
        SectionWord::Refused => Err(no_form(alloc, FDF_BAD_FILE, line)),
    }
}

fn equals_section(
    alloc: Global,
    line: &Taken,
    align: Align,
    word: SectionWord,
    value: Option<&[u8]>,
) -> Result<Option<Row>, Refusal>
    ensures { Answers result
        (unless_faulty (equals_faults line.now word (option_map (λ t. t.now) value.entry))
        (equals_row line.now align word (option_map (λ t. t.now) value.entry))) }
{
    match value {
        Some(value) => value_section(alloc, line, align, word, value),
        None => Err(no_form(alloc, FDF_BAD_FILE, line)),
    }
}

fn named_section(
    alloc: Global,
    line: &Taken,
    align: Align,
    text: &[u8],
) -> Result<Option<Row>, Refusal>
    ensures { Answers result
        (unless_faulty (named_faults line.now (word_of text.now) (named_value text.now))
        (named_row line.now align (word_of text.now) (named_value text.now))) }
{
    let (word, _) = first_word(text);
    match named_value(text) {
        Some(value) => guid_section(alloc, line, align, word, value),
        None => Err(no_form(alloc, FDF_BAD_FILE, line)),
    }
}

/// The refusal of a section that would be compressed or GUIDed, unless a macro is left in its line.
pub(crate) fn refuse_kind(alloc: Global, line: &Taken, word: &[u8]) -> Refusal
    ensures { Finds result
        (least_of (undefined_macro line.now.at line.now.text
        ∷ Some (fault_of COMPRESSED_REFUSED line.now.at word.now) ∷ [])) }
{
    least_refusal(
        undefined_macro(alloc, &line.at, line.text.bytes()),
        refuse(alloc, COMPRESSED_REFUSED, &line.at, word),
    )
}

fn kind_section(
    alloc: Global,
    line: &Taken,
    align: Align,
    text: &[u8],
) -> Result<Option<Row>, Refusal>
    ensures { Answers result
        (unless_faulty (kind_faults line.now text.now (section_word (word_of text.now)))
        (kind_row line.now align text.now (section_word (word_of text.now)))) }
{
    let (word, rest) = first_word(text);
    match section_word(word) {
        Some(SectionWord::Refused) => Err(refuse_kind(alloc, line, word)),
        Some(SectionWord::Named) => named_section(alloc, line, align, rest),
        Some(SectionWord::Plain(kind)) => equals_section(
            alloc,
            line,
            align,
            SectionWord::Plain(kind),
            some_text(after_equals(rest)),
        ),
        Some(SectionWord::Worded(kind)) => equals_section(
            alloc,
            line,
            align,
            SectionWord::Worded(kind),
            some_text(after_equals(rest)),
        ),
        Some(SectionWord::Nested) => equals_section(
            alloc,
            line,
            align,
            SectionWord::Nested,
            some_text(after_equals(rest)),
        ),
        None => Err(no_form(alloc, FDF_BAD_FILE, line)),
    }
}

/// A section of a file.
#[tactic(auto, unfolding(crate::specs::Bodies::section_faults, crate::specs::Bodies::section_row))]
pub fn section_line(alloc: Global, line: &Taken) -> Result<Option<Row>, Refusal>
    ensures { Answers result (unless_faulty (section_faults line.now) (section_row line.now)) }
{
    let (_, rest) = first_word(line.text.bytes());
    match maybe_align(rest) {
        Some((align, text)) => kind_section(alloc, line, align, text),
        None => Err(no_form(alloc, FDF_BAD_FILE, line)),
    }
}

fn whole_row(path: Option<Path>) -> Option<Row>
    ensures { result ≡ whole_row path }
{
    match path {
        Some(path) => Some(Row::Whole(path)),
        None => None,
    }
}

/// The path of a whole body.
pub(crate) fn whole_line(alloc: Global, line: &Taken) -> Result<Option<Row>, Refusal>
    ensures { Answers result
        (unless_faulty (whole_faults line.now)
        (whole_row (path_field (without_workspace line.now.text)))) }
{
    let path = path_field(alloc, without_workspace(line.text.bytes()))?;
    require(alloc, &path, BAD_PATH, &line.at, line.text.bytes())?;
    Ok(whole_row(path))
}
