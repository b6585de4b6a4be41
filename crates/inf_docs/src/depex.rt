//! The terms of [Depex] sections, and the parts that they make.
ghost use Rattle.std.specs.Prelude.{◌≡◌, ◌++◌, [], IfOk, OnOk, Some, option_map};
ghost use Rattle.std.specs.List.{flat_map};
ghost use Rattle.build_base.specs.Answer.{Answers};
ghost use Rattle.doc_reading.specs.Gathering.{unless_faulty};
ghost use Rattle.doc_reading.specs.Grammar.{entered};
ghost use Rattle.inf_docs.specs.Depex.{apart, terms_of, terms_faults, has_terms, terms_in, line_terms, opened_section, with_terms, is_depex, part_of, parts_of, parts_in};

use crate::row::Row;
use crate::section::{Scope, SectionKind};
use build_base::{Place, Refusal, Rows, Same, Taken, Text, WantOfMemory};
use doc_reading::least_check::least_of_one;
use doc_reading::value_fields::{open_quote, undefined_macro};
use doc_types::depex::DepexPart;
use meta_lexer::parts::words;
use std::alloc::Global;

/// The section at hand: its head's place, what its heads say, and the terms of its lines so far.
#[derive(Drop)]
pub(crate) struct OpenSection {
    pub at: Place,
    pub scopes: Rows<Scope>,
    pub terms: Rows<Text>,
}

fn push_apart(out: &mut Vec<u8>, byte: u8) -> Result<(), WantOfMemory>
    ensures { OnOk result (out.new.items ≡ out.old.items ++ apart byte) }
{
    if byte == b'(' || byte == b')' {
        out.extend_from_slice(&[b' ', byte, b' '])?;
    } else {
        out.extend_from_slice(&[byte])?;
    }
    Ok(())
}

fn spaced_words(alloc: Global, text: &[u8]) -> Result<Vec<u8>, WantOfMemory>
    ensures { IfOk result (λ out. out.items ≡ flat_map apart text.now) }
{
    let mut out = Vec::new(alloc);
    for byte in text {
        push_apart(&mut out, *byte)?;
    }
    Ok(out)
}

#[tactic(auto, unfolding(crate::specs::Depex::terms_of))]
fn terms_of(alloc: Global, text: &[u8]) -> Result<Rows<Text>, WantOfMemory>
    ensures { IfOk result (λ terms. terms ≡ terms_of text.now) }
{
    let text = spaced_words(alloc, text)?;
    words(alloc, text.as_slice())
}

/// The terms of a line.
#[tactic(auto, unfolding(crate::specs::Depex::terms_faults))]
pub(crate) fn terms_line(alloc: Global, line: &Taken) -> Result<Rows<Text>, Refusal>
    ensures { Answers result (unless_faulty (terms_faults line.now) (terms_of line.now.text)) }
{
    open_quote(alloc, &line.at, line.text.bytes())?;
    least_of_one(undefined_macro(alloc, &line.at, line.text.bytes()))?;
    let terms = terms_of(alloc, line.text.bytes())?;
    Ok(terms)
}

fn is_depex(scope: Scope) -> bool
    ensures { result ≡ is_depex scope.kind }
{
    scope.kind == SectionKind::Depex
}

fn push_all(alloc: Global, terms: &mut Rows<Text>, more: &[Text]) -> Result<(), WantOfMemory>
    ensures { OnOk result (terms.new ≡ terms.old ++ more.now) }
{
    for term in more {
        terms.push(term.copy(alloc)?)?;
    }
    Ok(())
}

fn has_terms(row: &Row) -> bool
    ensures { result ≡ has_terms row.now }
{
    match row {
        Row::Terms(_) => true,
        _ => false,
    }
}

fn push_row(alloc: Global, terms: &mut Rows<Text>, row: &Row) -> Result<(), WantOfMemory>
    ensures { OnOk result (terms.new ≡ terms.old ++ terms_in row.now) }
{
    match row {
        Row::Terms(more) => push_all(alloc, terms, more.items()),
        _ => Ok(()),
    }
}

// Adds the terms of a line, of which these are the rows.
#[tactic(auto, unfolding(crate::specs::Depex::line_terms))]
fn push_terms(alloc: Global, terms: &mut Rows<Text>, mut rows: &[Row]) -> Result<(), WantOfMemory>
    ensures { OnOk result (terms.new ≡ terms.old ++ line_terms rows.entry.now) }
{
    while let [row, rest @ ..] = rows {
        if has_terms(row) {
            return push_row(alloc, terms, row);
        }
        rows = rest;
    }
    Ok(())
}

/// Adds the terms of a line, of which these are the rows, to the section at hand.
pub(crate) fn add_terms(
    alloc: Global,
    section: &mut Option<OpenSection>,
    rows: &[Row],
) -> Result<(), WantOfMemory>
    ensures { OnOk result (section.new ≡ option_map (with_terms rows.now) section.old) }
{
    match section {
        Some(section) => {
            push_terms(alloc, &mut section.terms, rows)?;
            Ok(())
        }
        None => Ok(()),
    }
}

/// The section of these heads, without a line.
pub(crate) fn opened_section(
    alloc: Global,
    at: &Place,
    scopes: &[Scope],
) -> Result<OpenSection, WantOfMemory>
    ensures { IfOk result
        (λ section. opened_section (entered at.now scopes.now) [] ≡ Some section) }
{
    Ok(OpenSection {
        at: at.copy(alloc)?,
        scopes: Rows::from_vec(Vec::from_slice(alloc, scopes)?),
        terms: Rows::new(alloc),
    })
}

fn push_part(
    alloc: Global,
    parts: &mut Rows<DepexPart>,
    section: &OpenSection,
    scope: Scope,
) -> Result<(), WantOfMemory>
    ensures { OnOk result (parts.new ≡ parts.old ++ part_of section.now scope) }
{
    if is_depex(scope) {
        parts.push(DepexPart {
            at: section.at.copy(alloc)?,
            arch: scope.arch,
            kind: scope.for_type,
            terms: section.terms.copy(alloc)?,
        })?;
    }
    Ok(())
}

fn push_scopes(
    alloc: Global,
    parts: &mut Rows<DepexPart>,
    section: &OpenSection,
) -> Result<(), WantOfMemory>
    ensures { OnOk result
        (parts.new ≡ parts.old ++ flat_map (part_of section.now) section.now.scopes) }
{
    for scope in section.scopes.items() {
        push_part(alloc, parts, section, *scope)?;
    }
    Ok(())
}

fn push_section(
    alloc: Global,
    parts: &mut Rows<DepexPart>,
    section: &OpenSection,
) -> Result<(), WantOfMemory>
    ensures { OnOk result (parts.new ≡ parts.old ++ parts_of section.now) }
{
    if section.terms.items().is_empty() {
        return Ok(());
    }
    push_scopes(alloc, parts, section)
}

/// Adds the parts of a section that ends.
pub fn push_parts(
    alloc: Global,
    parts: &mut Rows<DepexPart>,
    section: Option<OpenSection>,
) -> Result<(), WantOfMemory>
    ensures { OnOk result (parts.new ≡ parts.old ++ parts_in section) }
{
    match section {
        Some(section) => push_section(alloc, parts, &section),
        None => Ok(()),
    }
}
