//! The statements of modules.
ghost use Rattle.std.specs.Prelude.{◌≡◌, [], IfOk, unwrap_or};
ghost use Rattle.std.specs.Option.{option_map};
ghost use Rattle.build_base.specs.Answer.{Answers, Checks};
ghost use Rattle.build_base.specs.Path.{path_field};
ghost use Rattle.macro_expressions.specs.Macros.{without_workspace};
ghost use Rattle.doc_reading.specs.Gathering.{unless_faulty};
ghost use Rattle.std.specs.Prelude.{Some};
ghost use Rattle.fdf_volumes.specs.InfLines.{inf_option, up_to_quote, quoted_front, with_rule, with_use, with_version, with_ui, with_inf, next_inf, inf_parts, inf_path_fault, template_fault, one_arch, use_fault, used_arch, inf_parts_faults, made_inf, inf_faults, inf_of};

use crate::statement::{check_full, macro_before, no_statement};
use build_base::fault_codes::{BAD_INF_LINE, BAD_PATH};
use build_base::path::path_field;
use build_base::{Path, Refusal, Same, Taken, Text, WantOfMemory};
use doc_reading::least_check::least_of_five;
use doc_reading::values::require;
use doc_types::arch::{Arch, arch_named};
use doc_types::volume::InfLine;
use fdf_words::number::bad_line;
use fdf_words::words::{after_equals, begins_with, first_word};
use macro_expressions::macros::without_workspace;
use meta_lexer::line::trim;
use meta_lexer::lookup;
use meta_lexer::words::{is_identifier, place_of};
use std::alloc::Global;

/// A word that states an option of a module's statement.
#[derive(Clone, Copy, PartialEq, Eq)]
pub enum InfOption {
    RuleOverride,
    Use,
    Version,
    Ui,
}

/// The options of a module's statement, as they are written.
#[derive(Drop)]
pub struct InfOptions {
    pub template: Option<Text>,
    pub arch: Option<Text>,
    pub version: Option<Text>,
    pub ui: Option<Text>,
}

const INF_OPTIONS: [(&[u8], InfOption); 4] = [
    (b"RuleOverride", InfOption::RuleOverride),
    (b"USE", InfOption::Use),
    (b"VERSION", InfOption::Version),
    (b"UI", InfOption::Ui),
];

#[tactic(auto, unfolding(crate::specs::InfLines::inf_option))]
fn inf_option(word: &[u8]) -> Option<InfOption>
    ensures { result ≡ inf_option word.now }
{
    lookup(&INF_OPTIONS, word)
}

fn up_to_quote(text: &[u8]) -> Option<(&[u8], &[u8])>
    ensures { option_map (λ p. (p.0.now, p.1.now)) result ≡ up_to_quote text.now }
{
    let i = place_of(b'"', text);
    if i < text.len() {
        Some((&text[..i], trim(&text[i + 1..])))
    } else {
        None
    }
}

/// A text in quotes at the front, without them, and what follows it.
#[tactic(auto, unfolding(crate::specs::InfLines::quoted_front))]
pub fn quoted_front(text: &[u8]) -> Option<(&[u8], &[u8])>
    ensures { option_map (λ p. (p.0.now, p.1.now)) result ≡ quoted_front text.now }
{
    if begins_with(b'"', text) {
        up_to_quote(&text[1..])
    } else {
        None
    }
}

fn with_rule<'a>(
    alloc: Global,
    options: InfOptions,
    value: &'a [u8],
) -> Result<Option<(InfOptions, &'a [u8])>, WantOfMemory>
    ensures { IfOk result (λ o. option_map (λ p. (p.0, p.1.now)) o ≡ with_rule options value.now) }
{
    if options.template.is_some() {
        return Ok(None);
    }
    let (word, rest) = first_word(value);
    let template = Text::of(alloc, word)?;
    Ok(Some((
        InfOptions {
            template: Some(template),
            arch: options.arch,
            version: options.version,
            ui: options.ui,
        },
        rest,
    )))
}

fn with_use<'a>(
    alloc: Global,
    options: InfOptions,
    value: &'a [u8],
) -> Result<Option<(InfOptions, &'a [u8])>, WantOfMemory>
    ensures { IfOk result (λ o. option_map (λ p. (p.0, p.1.now)) o ≡ with_use options value.now) }
{
    if options.arch.is_some() {
        return Ok(None);
    }
    let (word, rest) = first_word(value);
    let arch = Text::of(alloc, word)?;
    Ok(Some((
        InfOptions {
            template: options.template,
            arch: Some(arch),
            version: options.version,
            ui: options.ui,
        },
        rest,
    )))
}

fn with_version<'a>(
    alloc: Global,
    options: InfOptions,
    value: &'a [u8],
) -> Result<Option<(InfOptions, &'a [u8])>, WantOfMemory>
    ensures { IfOk result (λ o. option_map (λ p. (p.0, p.1.now)) o
        ≡ with_version options (quoted_front value.now)) }
{
    let Some((words, rest)) = quoted_front(value) else {
        return Ok(None);
    };
    if options.version.is_some() {
        return Ok(None);
    }
    let version = Text::of(alloc, words)?;
    Ok(Some((
        InfOptions {
            template: options.template,
            arch: options.arch,
            version: Some(version),
            ui: options.ui,
        },
        rest,
    )))
}

fn with_ui<'a>(
    alloc: Global,
    options: InfOptions,
    value: &'a [u8],
) -> Result<Option<(InfOptions, &'a [u8])>, WantOfMemory>
    ensures { IfOk result (λ o. option_map (λ p. (p.0, p.1.now)) o
        ≡ with_ui options (quoted_front value.now)) }
{
    let Some((words, rest)) = quoted_front(value) else {
        return Ok(None);
    };
    if options.ui.is_some() {
        return Ok(None);
    }
    let ui = Text::of(alloc, words)?;
    Ok(Some((
        InfOptions {
            template: options.template,
            arch: options.arch,
            version: options.version,
            ui: Some(ui),
        },
        rest,
    )))
}

fn with_inf<'a>(
    alloc: Global,
    options: InfOptions,
    text: &'a [u8],
    option: Option<InfOption>,
    value: Option<&'a [u8]>,
) -> Result<Option<(InfOptions, &'a [u8])>, WantOfMemory>
    ensures { IfOk result (λ o. option_map (λ p. (p.0, p.1.now)) o
        ≡ with_inf options text.now option (option_map (λ t. t.now) value.entry)) }
{
    match (option, value) {
        (Some(InfOption::RuleOverride), Some(value)) => with_rule(alloc, options, value),
        (Some(InfOption::Use), Some(value)) => with_use(alloc, options, value),
        (Some(InfOption::Version), Some(value)) => with_version(alloc, options, value),
        (Some(InfOption::Ui), Some(value)) => with_ui(alloc, options, value),
        (Some(_), None) => Ok(Some((options, text))),
        (None, _) => Ok(Some((options, text))),
    }
}

#[tactic(auto, unfolding(crate::specs::InfLines::next_inf))]
fn next_inf<'a>(
    alloc: Global,
    options: InfOptions,
    text: &'a [u8],
) -> Result<Option<(InfOptions, &'a [u8])>, WantOfMemory>
    ensures { IfOk result (λ o. option_map (λ p. (p.0, p.1.now)) o ≡ next_inf options text.now) }
{
    let (word, rest) = first_word(text);
    with_inf(alloc, options, text, inf_option(word), after_equals(rest))
}

#[tactic(auto, unfolding(crate::specs::InfLines::inf_parts))]
fn inf_parts(alloc: Global, text: &[u8]) -> Result<Option<(InfOptions, &[u8])>, WantOfMemory>
    ensures { IfOk result (λ o. option_map (λ p. (p.0, p.1.now)) o ≡ inf_parts text.now) }
{
    let none = InfOptions {
        template: None,
        arch: None,
        version: None,
        ui: None,
    };
    let Some((options, text)) = next_inf(alloc, none, text)? else {
        return Ok(None);
    };
    let Some((options, text)) = next_inf(alloc, options, text)? else {
        return Ok(None);
    };
    let Some((options, text)) = next_inf(alloc, options, text)? else {
        return Ok(None);
    };
    let Some((options, text)) = next_inf(alloc, options, text)? else {
        return Ok(None);
    };
    next_inf(alloc, options, text)
}

fn check_path(alloc: Global, line: &Taken, text: &[u8], path: &Option<Path>) -> Result<(), Refusal>
    requires { path.now ≡ path_field (without_workspace text.now) }
    ensures { Checks result (inf_path_fault line.now text.now) }
{
    if text.is_empty() {
        return Err(bad_line(alloc, BAD_INF_LINE, line));
    }
    require(alloc, path, BAD_PATH, &line.at, text)
}

fn check_template(alloc: Global, line: &Taken, template: &Option<Text>) -> Result<(), Refusal>
    ensures { Checks result (template_fault line.now template.now) }
{
    match template {
        Some(name) => {
            if is_identifier(name.bytes()) {
                return Ok(());
            }
            Err(bad_line(alloc, BAD_INF_LINE, line))
        }
        None => Ok(()),
    }
}

fn one_arch(arch: Option<Arch>) -> Option<Arch>
    ensures { result ≡ one_arch arch }
{
    match arch {
        Some(Arch::Common) => None,
        _ => arch,
    }
}

fn check_use(alloc: Global, line: &Taken, word: &Option<Text>) -> Result<(), Refusal>
    ensures { Checks result (use_fault line.now word.now) }
{
    match word {
        Some(word) => {
            let arch = one_arch(arch_named(word.bytes()));
            require(alloc, &arch, BAD_INF_LINE, &line.at, line.text.bytes())
        }
        None => Ok(()),
    }
}

fn used_arch(word: &Option<Text>) -> Option<Arch>
    ensures { result ≡ used_arch word.now }
{
    match word {
        Some(word) => one_arch(arch_named(word.bytes())),
        None => None,
    }
}

fn template_of(alloc: Global, template: Option<Text>) -> Result<Text, WantOfMemory>
    ensures { IfOk result (λ t. t ≡ unwrap_or template []) }
{
    match template {
        Some(template) => Ok(template),
        None => Text::of(alloc, b"".as_slice()),
    }
}

fn made_inf(
    alloc: Global,
    line: &Taken,
    options: InfOptions,
    path: Option<Path>,
) -> Result<Option<InfLine>, WantOfMemory>
    ensures { IfOk result (λ l. l ≡ made_inf line.now options path) }
{
    let Some(inf) = path else {
        return Ok(None);
    };
    let arch = used_arch(&options.arch);
    let InfOptions {
        template,
        version,
        ui,
        ..
    } = options;
    Ok(Some(InfLine {
        at: line.at.copy(alloc)?,
        inf,
        arch,
        template: template_of(alloc, template)?,
        version,
        ui,
    }))
}

fn parted_inf(
    alloc: Global,
    line: &Taken,
    full: bool,
    options: InfOptions,
    text: &[u8],
) -> Result<Option<InfLine>, Refusal>
    ensures { Answers result
        (unless_faulty (inf_parts_faults line.now full (Some (options, text.now)))
        (made_inf line.now options (path_field (without_workspace text.now)))) }
{
    let path = path_field(alloc, without_workspace(text))?;
    least_of_five(
        macro_before(alloc, line, text),
        check_path(alloc, line, text, &path),
        check_template(alloc, line, &options.template),
        check_use(alloc, line, &options.arch),
        check_full(alloc, line, full),
    )?;
    let inf = made_inf(alloc, line, options, path)?;
    Ok(inf)
}

/// A module's statement; `full` is whether the volume has as many as it may.
#[tactic(auto, unfolding(crate::specs::InfLines::inf_faults, crate::specs::InfLines::inf_of))]
pub fn inf_line(alloc: Global, line: &Taken, full: bool) -> Result<Option<InfLine>, Refusal>
    ensures { Answers result (unless_faulty (inf_faults line.now full) (inf_of line.now)) }
{
    let (_, rest) = first_word(line.text.bytes());
    match inf_parts(alloc, rest)? {
        Some((options, path)) => parted_inf(alloc, line, full, options, path),
        None => Err(no_statement(alloc, BAD_INF_LINE, line, full)),
    }
}
