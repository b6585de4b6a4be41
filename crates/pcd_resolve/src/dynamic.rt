//! The rows of a dynamic PCD.
ghost use Rattle.std.specs.Prelude.{◌≡◌, ◌+◌, ◌++◌, ◌∷◌, [], length, map, filter, IfOk, OnOk, option_copied};
ghost use Rattle.std.specs.Option.{option_map};
ghost use Rattle.std.specs.Str.{bytes_eq};
ghost use Rattle.build_base.specs.Answer.{Answers, Checks};
ghost use Rattle.meta_lexer.specs.Faults.{first_fault};
ghost use Rattle.std.specs.List.{All};
ghost use Rattle.pcd_values.specs.Skus.{WalkEnds, value_within};
ghost use Rattle.pcd_resolve.specs.PcdLines.{own_values, sku_row, AreSources, HasTables};
ghost use Rattle.pcd_resolve.specs.Rows.{all_rows};
ghost use Rattle.pcd_resolve.specs.SkuTables.{AreTables};
ghost use Rattle.pcd_ranks.specs.Assignments.{by_line};
ghost use Rattle.pcd_resolve.specs.Platform.{too_great, bad_rest, rest_fault, vpd_fault, default_for, sku_assignments, named_if, own_value_rows, row_by_source, dynamic_rows};
ghost use Rattle.pcd_ranks.specs.Assignments.{value_from};
ghost use Rattle.pcd_ranks.specs.Views.{stated_view, given_view};

use crate::resolve::append;
use crate::rows::row_of;
use crate::sku_tables::SkuTables;
use crate::sku_values::{PcdLines, known_source, lines_by_sku, row_from, sources_of};
use build_base::fault_codes::BAD_VALUE;
use build_base::{Place, Refusal, Rows, Same, Text, WantOfMemory, refuse};
use doc_types::package::DecPcd;
use doc_types::pcd::{Datum, Kind, PcdSet};
use doc_types::platform::{Sku, Store};
use doc_types::values::{PcdRow, SkuRow};
use meta_lexer::numbers::number;
use pcd_ranks::assign::{LentAssignment, by_declaration, by_line, put, put_sets, value_from};
use pcd_ranks::listing::StatedLine;
use pcd_ranks::names::is_void;
use pcd_values::sku_value;
use std::alloc::Global;

fn too_great(n: Option<u64>) -> bool
    ensures { result ≡ too_great n }
{
    match n {
        Some(n) => n >= 1 << 32,
        None => true,
    }
}

fn bad_rest(datum: Datum, rest: &[Text]) -> bool
    ensures { result ≡ bad_rest datum rest.now }
{
    match rest {
        [] => false,
        [field] => {
            if !is_void(datum) {
                return false;
            }
            match number(field.bytes()) {
                Some(n) => too_great(Some(n)),
                None => false,
            }
        }
        [max, _, ..] => {
            if !is_void(datum) {
                return true;
            }
            too_great(number(max.bytes()))
        }
    }
}

fn rest_fault(alloc: Global, at: &Place, datum: Datum, rest: &[Text]) -> Result<(), Refusal>
    ensures { Checks result (rest_fault at.now datum rest.now) }
{
    match rest {
        [] => Ok(()),
        [field, ..] => {
            if bad_rest(datum, rest) {
                return Err(refuse(alloc, BAD_VALUE, at, field.bytes()));
            }
            Ok(())
        }
    }
}

#[tactic(auto, unfolding(crate::specs::Platform::vpd_fault))]
fn vpd_fault(alloc: Global, datum: Datum, stated: &StatedLine<'_>) -> Result<(), Refusal>
    ensures { Checks result (vpd_fault datum (stated_view stated.now)) }
{
    match &stated.line.store {
        Store::Vpd { rest, .. } => rest_fault(alloc, &stated.line.at, datum, rest.items()),
        _ => Ok(()),
    }
}

/// Refuses the first VPD line whose further fields don't fit the type.
pub(crate) fn vpd_faults(
    alloc: Global,
    datum: Datum,
    lines: &[StatedLine<'_>],
) -> Result<(), Refusal>
    ensures { Checks result (first_fault (vpd_fault datum) (map stated_view lines.now)) }
{
    for stated in lines {
        vpd_fault(alloc, datum, stated)?;
    }
    Ok(())
}

fn put_default<'a>(
    all: &mut Vec<LentAssignment<'a>>,
    line: &'a DecPcd,
    sku: &[u8],
) -> Result<(), WantOfMemory>
    ensures { OnOk result (map given_view all.new.items
        ≡ map given_view all.old.items ++ default_for line.now sku.now) }
{
    if sku == b"DEFAULT".as_slice() {
        put(all, by_declaration(line))?;
    }
    Ok(())
}

fn put_line<'a>(
    all: &mut Vec<LentAssignment<'a>>,
    datum: Datum,
    stated: &StatedLine<'a>,
    sku: &[u8],
) -> Result<(), WantOfMemory>
    ensures { OnOk result (map given_view all.new.items
        ≡ map given_view all.old.items ++ map (by_line datum)
        (filter (λ s. bytes_eq s.line.sku sku.now) (stated_view stated.now ∷ []))) }
{
    if stated.line.sku.bytes() == sku {
        put(all, by_line(datum, stated))?;
    }
    Ok(())
}

fn put_lines<'a>(
    all: &mut Vec<LentAssignment<'a>>,
    datum: Datum,
    lines: &[StatedLine<'a>],
    sku: &[u8],
) -> Result<(), WantOfMemory>
    ensures { OnOk result (map given_view all.new.items
        ≡ map given_view all.old.items ++ map (by_line datum)
        (filter (λ s. bytes_eq s.line.sku sku.now) (map stated_view lines.now))) }
{
    for stated in lines {
        put_line(all, datum, stated, sku)?;
    }
    Ok(())
}

/// The assignments of a PCD for a SKU.
#[tactic(auto, unfolding(crate::specs::Platform::sku_assignments))]
pub(crate) fn sku_assignments<'a>(
    alloc: Global,
    line: &'a DecPcd,
    lines: &[StatedLine<'a>],
    sets: &[&'a PcdSet],
    sku: &[u8],
) -> Result<Vec<LentAssignment<'a>>, WantOfMemory>
    ensures { IfOk result (λ v. map given_view v.items
        ≡ sku_assignments line.now (map stated_view lines.now) (map (λ s. s.now) sets.now)
        sku.now) }
{
    let mut all = Vec::new(alloc);
    put_default(&mut all, line, sku)?;
    put_lines(&mut all, line.datum, lines, sku)?;
    put_sets(&mut all, sets)?;
    Ok(all)
}

fn put_named(
    alloc: Global,
    rows: &mut Rows<SkuRow>,
    sku: &Text,
    taken: Option<LentAssignment<'_>>,
) -> Result<(), WantOfMemory>
    ensures { OnOk result (rows.new ≡ rows.old
        ++ named_if sku.now (option_map given_view taken.entry)) }
{
    match taken {
        Some(_) => {
            rows.push(SkuRow {
                sku: sku.copy(alloc)?,
                value: sku.copy(alloc)?,
            })?;
            Ok(())
        }
        None => Ok(()),
    }
}

fn put_valued<'a>(
    alloc: Global,
    rows: &mut Rows<SkuRow>,
    line: &'a DecPcd,
    lines: &[StatedLine<'a>],
    sets: &[&'a PcdSet],
    sku: &Sku,
) -> Result<(), WantOfMemory>
    ensures { OnOk result (rows.new ≡ rows.old
        ++ named_if sku.now.name
        (value_from (sku_assignments line.now (map stated_view lines.now)
        (map (λ s. s.now) sets.now) sku.now.name))) }
{
    let all = sku_assignments(alloc, line, lines, sets, sku.name.bytes())?;
    put_named(alloc, rows, &sku.name, value_from(all.as_slice()))?;
    Ok(())
}

/// The SKUs that have a value of their own, each with its name in the place of the value.
#[tactic(auto, unfolding(crate::specs::Platform::own_value_rows))]
pub(crate) fn own_value_rows<'a>(
    alloc: Global,
    line: &'a DecPcd,
    lines: &[StatedLine<'a>],
    sets: &[&'a PcdSet],
    skus: &[Sku],
) -> Result<Rows<SkuRow>, WantOfMemory>
    ensures { IfOk result
        (λ rows. rows ≡ own_value_rows line.now (map stated_view lines.now) (map (λ s. s.now) sets.now)
        skus.now) }
{
    let mut rows = Rows::new(alloc);
    for sku in skus {
        put_valued(alloc, &mut rows, line, lines, sets, sku)?;
    }
    Ok(rows)
}

// The row of a SKU, by the SKU whose value it takes.
fn row_by_source(
    alloc: Global,
    kind: Kind,
    pcd: &PcdLines<'_, '_>,
    sku: &[u8],
    from: Option<&Text>,
) -> Result<Rows<PcdRow>, Refusal>
    ensures { Answers result
        (row_by_source kind pcd.now.line.now (map stated_view pcd.now.lines.now)
        (map (λ s. s.now) pcd.now.sets.now) sku.now (option_copied from.entry)) }
{
    let Some(from) = from else {
        return Ok(Rows::new(alloc));
    };
    let all = sku_assignments(alloc, pcd.line, pcd.lines, pcd.sets, from.bytes())?;
    row_of(alloc, kind, pcd.line, sku, all.as_slice())
}

fn source<'s>(rows: &'s Rows<SkuRow>, skus: &Rows<Sku>, sku: &Text) -> Option<&'s Text>
    requires { WalkEnds skus.now sku.now }
    ensures { option_copied result ≡ value_within rows.now skus.now sku.now (length skus.now + 1) }
{
    sku_value(rows, skus, sku)
}

#[tactic(auto, unfolding(crate::specs::Platform::source))]
fn row_for(
    alloc: Global,
    kind: Kind,
    pcd: &PcdLines<'_, '_>,
    values: &Rows<SkuRow>,
    sku: &Sku,
) -> Result<Rows<PcdRow>, Refusal>
    requires walk { WalkEnds pcd.now.skus.now sku.now.name }
    requires values { values.now ≡ own_values pcd.now }
    ensures { Answers result (sku_row kind pcd.now sku.now.name) }
{
    let from = source(values, pcd.skus, &sku.name);
    row_by_source(alloc, kind, pcd, sku.name.bytes(), from)
}

// The same, where no source is known: by a walk.
fn walked_row(
    alloc: Global,
    kind: Kind,
    pcd: &PcdLines<'_, '_>,
    sku: &Sku,
) -> Result<Rows<PcdRow>, Refusal>
    requires { WalkEnds pcd.now.skus.now sku.now.name }
    ensures { Answers result (sku_row kind pcd.now sku.now.name) }
{
    let values = own_value_rows(alloc, pcd.line, pcd.lines, pcd.sets, pcd.skus.items())?;
    row_for(alloc, kind, pcd, &values, sku)
}

// The row of a SKU by what is known of sources.
fn row_at(
    alloc: Global,
    kind: Kind,
    pcd: &PcdLines<'_, '_>,
    known: &[Option<usize>],
    sku: &Sku,
) -> Result<Rows<PcdRow>, Refusal>
    requires walk { WalkEnds pcd.now.skus.now sku.now.name }
    requires tables { HasTables pcd.now }
    requires known { AreSources pcd.now known.now }
    ensures { Answers result (sku_row kind pcd.now sku.now.name) }
{
    match known_source(pcd.skus, pcd.tables, known, &sku.name) {
        Some(from) => row_from(alloc, kind, pcd, &sku.name, &from.name),
        None => walked_row(alloc, kind, pcd, sku),
    }
}

fn rows_for(
    alloc: Global,
    kind: Kind,
    pcd: &PcdLines<'_, '_>,
    known: &[Option<usize>],
    picked: &[&Sku],
) -> Result<Rows<PcdRow>, Refusal>
    requires walks { All (λ s. WalkEnds pcd.now.skus.now s.now.name) picked.now }
    requires tables { HasTables pcd.now }
    requires known { AreSources pcd.now known.now }
    ensures { Answers result
        (all_rows (map (λ sku. sku_row kind pcd.now sku.name) (map (λ s. s.now) picked.now))) }
{
    let mut rows = Rows::new(alloc);
    for sku in picked {
        let more = row_at(alloc, kind, pcd, known, sku)?;
        append(alloc, &mut rows, more.items())?;
    }
    Ok(rows)
}

// The rows by the lines of each SKU.
fn rows_by_sku(
    alloc: Global,
    kind: Kind,
    pcd: &PcdLines<'_, '_>,
    picked: &[&Sku],
) -> Result<Rows<PcdRow>, Refusal>
    requires walks { All (λ s. WalkEnds pcd.now.skus.now s.now.name) picked.now }
    requires tables { HasTables pcd.now }
    ensures { Answers result
        (all_rows (map (λ sku. sku_row kind pcd.now sku.name) (map (λ s. s.now) picked.now))) }
{
    let known = sources_of(alloc, pcd)?;
    rows_for(alloc, kind, pcd, known.as_slice(), picked)
}

/// The rows of a dynamic PCD, one for each chosen SKU, by the tables of all SKUs.
#[tactic(auto, unfolding(crate::specs::Platform::dynamic_rows))]
pub(crate) fn dynamic_rows<'a>(
    alloc: Global,
    kind: Kind,
    line: &'a DecPcd,
    lines: &[StatedLine<'a>],
    sets: &[&'a PcdSet],
    skus: &Rows<Sku>,
    tables: &SkuTables,
    picked: &[&Sku],
) -> Result<Rows<PcdRow>, Refusal>
    requires walks { All (λ s. WalkEnds skus.now s.now.name) picked.now }
    requires tables { AreTables skus.now tables.now }
    ensures { Answers result
        (dynamic_rows kind line.now (map stated_view lines.now) (map (λ s. s.now) sets.now) skus.now
        (map (λ s. s.now) picked.now)) }
{
    vpd_faults(alloc, line.datum, lines)?;
    let own = lines_by_sku(alloc, lines)?;
    let pcd = PcdLines {
        line,
        lines,
        own: &own,
        sets,
        skus,
        tables,
    };
    rows_by_sku(alloc, kind, &pcd, picked)
}
