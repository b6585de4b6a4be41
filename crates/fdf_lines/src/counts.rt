//! How many heads and statements there are.
ghost use Rattle.std.specs.Prelude.{◌≡◌};
ghost use Rattle.fdf_lines.specs.Counts.{count_of, saturated, one_if, same_section, section_of, one_scope, is_named, one_head, is_statement, begins_statement};

use crate::section::{FlashSection, section_named};
use fdf_words::rows::{Row, Scope};
use meta_lexer::head::Head;
use meta_lexer::parts::first_text;

fn one_if(holds: bool) -> u64
    ensures { result ≡ one_if holds }
{
    if holds { 1 } else { 0 }
}

#[tactic(auto, unfolding(crate::specs::Counts::same_section))]
fn same_section(section: FlashSection, other: FlashSection) -> bool
    ensures { result ≡ same_section section other }
{
    match (section, other) {
        (FlashSection::Defines, FlashSection::Defines) => true,
        (FlashSection::Device, FlashSection::Device) => true,
        (FlashSection::Volume, FlashSection::Volume) => true,
        (FlashSection::Rule, FlashSection::Rule) => true,
        _ => false,
    }
}

fn section_of(scope: &Scope) -> FlashSection
    ensures { result ≡ section_of scope.now }
{
    match scope {
        Scope::Settings => FlashSection::Defines,
        Scope::Device(_) => FlashSection::Device,
        Scope::Volume(_) => FlashSection::Volume,
        Scope::Rule(_) => FlashSection::Rule,
    }
}

fn one_scope(section: FlashSection, scope: &Scope) -> u64
    ensures { result ≡ one_scope section scope.now }
{
    one_if(same_section(section_of(scope), section))
}

/// How many scopes are of a section.
pub fn scopes_of(section: FlashSection, scopes: &[Scope]) -> u64
    ensures { result ≡ saturated (count_of (one_scope section) scopes.now) }
{
    let mut count = 0_u64;
    for scope in scopes {
        count = count.saturating_add(one_scope(section, scope));
    }
    count
}

fn is_named(section: FlashSection, named: Option<Option<FlashSection>>) -> bool
    ensures { result ≡ is_named section named }
{
    match named {
        Some(Some(named)) => same_section(named, section),
        Some(None) => false,
        None => false,
    }
}

fn one_head(section: FlashSection, head: &Head) -> u64
    ensures { result ≡ one_head section head.now }
{
    one_if(is_named(section, section_named(first_text(head.parts.items()))))
}

/// How many heads are of a section.
pub fn heads_of(section: FlashSection, heads: &[Head]) -> u64
    ensures { result ≡ saturated (count_of (one_head section) heads.now) }
{
    let mut count = 0_u64;
    for head in heads {
        count = count.saturating_add(one_head(section, head));
    }
    count
}

fn is_statement(row: &Row) -> bool
    ensures { result ≡ is_statement row.now }
{
    match row {
        Row::Apriori(_) | Row::Inf(_) | Row::File(_) => true,
        _ => false,
    }
}

fn begins_statement(rows: &[Row]) -> bool
    ensures { result ≡ begins_statement rows.now }
{
    rows.iter().any(|row| is_statement(row))
}

/// How many statements of one volume these rows of a line begin.
pub fn statements_of(rows: &[Row]) -> u64
    ensures { result ≡ one_if (begins_statement rows.now) }
{
    one_if(begins_statement(rows))
}
