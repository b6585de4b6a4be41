//! The lines of a rule.
ghost use Rattle.std.specs.Prelude.{◌≡◌, ◌∷◌, [], not, Some, IfOk};
ghost use Rattle.doc_types.specs.declared.volume.SectionSource.TheVariants.{Words};
ghost use Rattle.meta_lexer.specs.Lines.{is_blank};
ghost use Rattle.std.specs.List.{list_all};
ghost use Rattle.std.specs.Option.{option_map};
ghost use Rattle.build_base.specs.Answer.{Answers, Checks, Finds};
ghost use Rattle.build_base.specs.FaultText.{fault_of};
ghost use Rattle.doc_reading.specs.Gathering.{unless_faulty};
ghost use Rattle.doc_reading.specs.Least.{least_of};
ghost use Rattle.fdf_volumes.specs.Statements.{file_parts};
ghost use Rattle.fdf_lines.specs.Rules.{begins_name, is_other, holds_other, rule_parts, other_macro, other_around, no_rule_faults, rule_kind, made_plan, is_extension, path_fault, path_source, path_faults, path_row, text_fault, text_faults, text_row, quoted_faults, quoted_row, stated_words, plain_faults, plain_row, worded_faults, worded_row, kind_faults, kind_row, inner_faults, inner_row, named_faults, named_row, outer_faults, outer_row, rule_faults, rule_row};
ghost use Rattle.build_base.specs.FaultCodes.{COMPRESSED_REFUSED};

use crate::rule_number::stated_number;
use crate::rule_options::{RuleOptions, rule_parts};
use build_base::fault_codes::{BAD_RULE, COMPRESSED_REFUSED, UNDEFINED_MACRO};
use build_base::{Refusal, Same, Taken, Text, WantOfMemory, refuse};
use doc_reading::least_check::{least_of_one, least_refusal, with_check};
use doc_types::standard::{
    EFI_SECTION_DXE_DEPEX, EFI_SECTION_FIRMWARE_VOLUME_IMAGE, EFI_SECTION_MM_DEPEX,
    EFI_SECTION_PE32, EFI_SECTION_PEI_DEPEX, EFI_SECTION_RAW, EFI_SECTION_TE,
    EFI_SECTION_USER_INTERFACE, EFI_SECTION_VERSION,
};
use doc_types::volume::{SectionPlan, SectionSource};
use fdf_volumes::inf_line::quoted_front;
use fdf_volumes::statement::{file_parts, head_with};
use fdf_words::marks::{Marks, Open};
use fdf_words::number::bad_line;
use fdf_words::rows::Row;
use fdf_words::words::{after_equals, first_word, is_close};
use macro_expressions::macros::without_workspace;
use meta_lexer::lookup;
use meta_lexer::words::same_word;
use std::alloc::Global;

/// The kind of a rule's section by its word: of a type that takes a path, of one that takes a text
/// too, or one that would be compressed or GUIDed.
#[derive(Clone, Copy, PartialEq, Eq)]
pub enum RuleKind {
    Plain(u8),
    Worded(u8),
    Compressed,
}

const RULE_KINDS: [(&[u8], RuleKind); 11] = [
    (b"PE32", RuleKind::Plain(EFI_SECTION_PE32)),
    (b"TE", RuleKind::Plain(EFI_SECTION_TE)),
    (b"DXE_DEPEX", RuleKind::Plain(EFI_SECTION_DXE_DEPEX)),
    (b"VERSION", RuleKind::Worded(EFI_SECTION_VERSION)),
    (b"UI", RuleKind::Worded(EFI_SECTION_USER_INTERFACE)),
    (
        b"FV_IMAGE",
        RuleKind::Plain(EFI_SECTION_FIRMWARE_VOLUME_IMAGE),
    ),
    (b"RAW", RuleKind::Plain(EFI_SECTION_RAW)),
    (b"PEI_DEPEX", RuleKind::Plain(EFI_SECTION_PEI_DEPEX)),
    (b"SMM_DEPEX", RuleKind::Plain(EFI_SECTION_MM_DEPEX)),
    (b"COMPRESS", RuleKind::Compressed),
    (b"GUIDED", RuleKind::Compressed),
];

#[tactic(auto, unfolding(crate::specs::Rules::begins_name))]
fn begins_name(text: &[u8]) -> bool
    ensures { result ≡ begins_name text.now }
{
    if text.starts_with(b"$(NAMED_GUID)") {
        return true;
    }
    if text.starts_with(b"$(INF_OUTPUT)") {
        return true;
    }
    if text.starts_with(b"$(MODULE_NAME)") {
        return true;
    }
    if text.starts_with(b"$(INF_VERSION)") {
        return true;
    }
    text.starts_with(b"$(BUILD_NUMBER)")
}

fn is_other(text: &[u8]) -> bool
    ensures { result ≡ is_other text.now }
{
    text.starts_with(b"$(") && !begins_name(text)
}

// Whether a macro stands in a text that isn't filled in when the rule is used.
#[tactic(auto, unfolding(crate::specs::Rules::holds_other))]
fn holds_other(text: &[u8]) -> bool
    ensures { result ≡ holds_other text.now }
{
    for (i, _) in text.iter().enumerate() {
        if is_other(&text[i..]) {
            return true;
        }
    }
    false
}

fn check_macros(alloc: Global, line: &Taken, text: &[u8]) -> Result<(), Refusal>
    ensures { Checks result (other_macro line.now text.now) }
{
    if holds_other(text) {
        return Err(bad_line(alloc, UNDEFINED_MACRO, line));
    }
    Ok(())
}

fn check_around(alloc: Global, line: &Taken, path: &[u8]) -> Result<(), Refusal>
    ensures { Checks result (other_around line.now path.now) }
{
    let text = line.text.bytes();
    let end = text.len().saturating_sub(path.len());
    if holds_other(&text[..end]) {
        return Err(bad_line(alloc, UNDEFINED_MACRO, line));
    }
    if holds_other(without_workspace(path)) {
        return Err(bad_line(alloc, UNDEFINED_MACRO, line));
    }
    Ok(())
}

fn no_rule(alloc: Global, line: &Taken) -> Refusal
    ensures { Finds result (least_of (no_rule_faults line.now)) }
{
    least_refusal(
        check_macros(alloc, line, line.text.bytes()),
        bad_line(alloc, BAD_RULE, line),
    )
}

#[tactic(auto, unfolding(crate::specs::Rules::rule_kind))]
fn rule_kind(word: &[u8]) -> Option<RuleKind>
    ensures { result ≡ rule_kind word.now }
{
    lookup(&RULE_KINDS, word)
}

fn made_plan(
    alloc: Global,
    line: &Taken,
    kind: u8,
    options: RuleOptions,
    number: u16,
    source: SectionSource,
) -> Result<Row, WantOfMemory>
    ensures { IfOk result (λ row. row ≡ made_plan line.now kind options number source) }
{
    Ok(Row::RuleSection(SectionPlan {
        at: line.at.copy(alloc)?,
        kind,
        optional: options.optional,
        align: options.align,
        number,
        guid: None,
        source,
    }))
}

fn is_blank(byte: u8) -> bool
    ensures { result ≡ is_blank byte }
{
    byte == b'\t' || byte == b' '
}

fn has_no_blank(text: &[u8]) -> bool
    ensures { result ≡ list_all (λ b. not (is_blank b)) text.now }
{
    text.iter().all(|byte| !is_blank(*byte))
}

#[tactic(auto, unfolding(crate::specs::Rules::is_extension))]
fn is_extension(text: &[u8]) -> bool
    ensures { result ≡ is_extension text.now }
{
    text.starts_with(b"|.") && has_no_blank(text)
}

fn check_path(
    alloc: Global,
    line: &Taken,
    same: bool,
    options: RuleOptions,
    path: &[u8],
) -> Result<(), Refusal>
    ensures { Checks result (path_fault line.now same options path.now) }
{
    if options.wrong {
        return Err(no_rule(alloc, line));
    }
    if is_extension(path) {
        return check_macros(alloc, line, line.text.bytes());
    }
    if same && !path.is_empty() {
        return check_around(alloc, line, path);
    }
    Err(no_rule(alloc, line))
}

fn path_source(alloc: Global, line: &Taken, path: &[u8]) -> Result<SectionSource, WantOfMemory>
    ensures { IfOk result (λ source. source ≡ path_source line.now path.now) }
{
    if is_extension(path) {
        return Ok(SectionSource::Refused(line.text.copy(alloc)?));
    }
    Ok(SectionSource::Template(Text::of(alloc, without_workspace(path))?))
}

fn path_plan(
    alloc: Global,
    line: &Taken,
    kind: u8,
    options: RuleOptions,
    number: u16,
    path: &[u8],
) -> Result<Row, WantOfMemory>
    ensures { IfOk result
        (λ row. row ≡ made_plan line.now kind options number (path_source line.now path.now)) }
{
    let source = path_source(alloc, line, path)?;
    made_plan(alloc, line, kind, options, number, source)
}

fn path_line(
    alloc: Global,
    line: &Taken,
    kind: u8,
    same: bool,
    text: &[u8],
) -> Result<Option<Row>, Refusal>
    ensures { Answers result
        (unless_faulty (path_faults line.now same (rule_parts text.now))
        (path_row line.now kind (rule_parts text.now))) }
{
    let (options, word, path) = rule_parts(text);
    match stated_number(alloc, line, options.numbered, word) {
        Ok(number) => {
            least_of_one(check_path(alloc, line, same, options, path))?;
            let row = path_plan(alloc, line, kind, options, number, path)?;
            Ok(Some(row))
        }
        Err(Refusal::WantOfMemory) => Err(Refusal::WantOfMemory),
        Err(refusal) => Err(with_check(
            refusal,
            least_of_one(check_path(alloc, line, same, options, path)),
        )),
    }
}

fn check_text(alloc: Global, line: &Taken, options: RuleOptions, rest: &[u8]) -> Result<(), Refusal>
    ensures { Checks result (text_fault line.now options rest.now) }
{
    if options.wrong {
        return Err(no_rule(alloc, line));
    }
    if rest.is_empty() {
        return check_macros(alloc, line, line.text.bytes());
    }
    Err(no_rule(alloc, line))
}

fn text_plan(
    alloc: Global,
    line: &Taken,
    kind: u8,
    options: RuleOptions,
    number: u16,
    words: &[u8],
) -> Result<Row, WantOfMemory>
    ensures { IfOk result
        (λ row. row ≡ made_plan line.now kind options number (Words words.now)) }
{
    let source = SectionSource::Words(Text::of(alloc, words)?);
    made_plan(alloc, line, kind, options, number, source)
}

fn text_line(
    alloc: Global,
    line: &Taken,
    kind: u8,
    words: &[u8],
    rest: &[u8],
) -> Result<Option<Row>, Refusal>
    ensures { Answers result
        (unless_faulty (text_faults line.now (rule_parts rest.now))
        (text_row line.now kind words.now (rule_parts rest.now))) }
{
    let (options, word, rest) = rule_parts(rest);
    match stated_number(alloc, line, options.numbered, word) {
        Ok(number) => {
            least_of_one(check_text(alloc, line, options, rest))?;
            let row = text_plan(alloc, line, kind, options, number, words)?;
            Ok(Some(row))
        }
        Err(Refusal::WantOfMemory) => Err(Refusal::WantOfMemory),
        Err(refusal) => Err(with_check(
            refusal,
            least_of_one(check_text(alloc, line, options, rest)),
        )),
    }
}

#[tactic(auto, unfolding(crate::specs::Rules::stated_words))]
fn stated_words(text: &[u8]) -> Option<(&[u8], &[u8])>
    ensures { option_map (λ p. (p.0.now, p.1.now)) result ≡ stated_words text.now }
{
    let value = after_equals(text)?;
    quoted_front(value)
}

fn string_line(alloc: Global, line: &Taken, kind: u8, text: &[u8]) -> Result<Option<Row>, Refusal>
    ensures { Answers result
        (unless_faulty (quoted_faults line.now (stated_words text.now))
        (quoted_row line.now kind (stated_words text.now))) }
{
    match stated_words(text) {
        Some((words, rest)) => text_line(alloc, line, kind, words, rest),
        None => Err(no_rule(alloc, line)),
    }
}

fn plain_line(
    alloc: Global,
    line: &Taken,
    kind: u8,
    first: &[u8],
    text: &[u8],
) -> Result<Option<Row>, Refusal>
    ensures { Answers result
        (unless_faulty (plain_faults line.now first.now text.now)
        (plain_row line.now kind text.now)) }
{
    let (word, rest) = first_word(text);
    path_line(alloc, line, kind, same_word(word, first), rest)
}

fn worded_line(
    alloc: Global,
    line: &Taken,
    kind: u8,
    first: &[u8],
    text: &[u8],
) -> Result<Option<Row>, Refusal>
    ensures { Answers result
        (unless_faulty (worded_faults line.now first.now text.now)
        (worded_row line.now kind text.now)) }
{
    let (word, rest) = first_word(text);
    if same_word(word, b"STRING".as_slice()) {
        string_line(alloc, line, kind, rest)
    } else {
        plain_line(alloc, line, kind, first, text)
    }
}

fn refuse_compressed(alloc: Global, line: &Taken, word: &[u8]) -> Refusal
    ensures { Finds result
        (least_of (other_macro line.now line.now.text
        ∷ Some (fault_of COMPRESSED_REFUSED line.now.at word.now)
        ∷ [])) }
{
    least_refusal(
        check_macros(alloc, line, line.text.bytes()),
        refuse(alloc, COMPRESSED_REFUSED, &line.at, word),
    )
}

fn kind_line(alloc: Global, line: &Taken, first: &[u8], text: &[u8]) -> Result<Option<Row>, Refusal>
    ensures { Answers result
        (unless_faulty (kind_faults line.now first.now text.now (rule_kind first.now))
        (kind_row line.now text.now (rule_kind first.now))) }
{
    match rule_kind(first) {
        Some(RuleKind::Plain(kind)) => plain_line(alloc, line, kind, first, text),
        Some(RuleKind::Worded(kind)) => worded_line(alloc, line, kind, first, text),
        Some(RuleKind::Compressed) => Err(refuse_compressed(alloc, line, first)),
        None => Err(no_rule(alloc, line)),
    }
}

fn inner_line(alloc: Global, line: &Taken) -> Result<Option<Row>, Refusal>
    ensures { Answers result (unless_faulty (inner_faults line.now) (inner_row line.now)) }
{
    if is_close(line.text.bytes()) {
        return Ok(Some(Row::Closes));
    }
    let (word, rest) = first_word(line.text.bytes());
    kind_line(alloc, line, word, rest)
}

fn file_line(alloc: Global, line: &Taken, text: &[u8]) -> Result<Option<Row>, Refusal>
    ensures { Answers result
        (unless_faulty (named_faults line.now (file_parts text.now))
        (named_row line.now (file_parts text.now))) }
{
    let Some((file_type, name, options)) = file_parts(text) else {
        return Err(no_rule(alloc, line));
    };
    if name != b"$(NAMED_GUID)".as_slice() {
        return Err(no_rule(alloc, line));
    }
    check_macros(alloc, line, line.text.bytes())?;
    let head = head_with(alloc, line, file_type, None, options)?;
    Ok(Some(Row::RuleFile(head)))
}

fn outer_line(alloc: Global, line: &Taken, unfiled: bool) -> Result<Option<Row>, Refusal>
    ensures { Answers result (unless_faulty (outer_faults line.now unfiled) (outer_row line.now)) }
{
    let (word, rest) = first_word(line.text.bytes());
    if unfiled && same_word(word, b"FILE".as_slice()) {
        return file_line(alloc, line, rest);
    }
    Err(no_rule(alloc, line))
}

/// What a line of a rule says below these marks.
#[tactic(auto, unfolding(crate::specs::Rules::rule_faults, crate::specs::Rules::rule_row))]
pub fn rule_line(alloc: Global, line: &Taken, marks: Marks) -> Result<Option<Row>, Refusal>
    ensures { Answers result
        (unless_faulty (rule_faults line.now marks) (rule_row line.now marks.braces)) }
{
    match marks.braces {
        Open::InRule => inner_line(alloc, line),
        Open::Shut => outer_line(alloc, line, marks.unfiled),
        Open::InApriori => outer_line(alloc, line, marks.unfiled),
        Open::InFile(_) => outer_line(alloc, line, marks.unfiled),
    }
}
