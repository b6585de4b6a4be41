//! The rows of one PCD.
ghost use Rattle.std.specs.Prelude.{◌≡◌, ◌≤◌, ◌∷◌, [], map, length, IfOk, Some, option_copied};
ghost use Rattle.std.specs.Option.{option_map};
ghost use Rattle.build_base.specs.Answer.{Answers};
ghost use Rattle.pcd_resolve.specs.Rows.{stated_max, maximum, row, row_by, row_of, fixed_row, rows_by_kind, rows_of};
ghost use Rattle.pcd_ranks.specs.Views.{given_view, stated_view, use_view};

use crate::faults::checked_kind;
use crate::kinds::declaration;
use build_base::fault_codes::DOES_NOT_FIT;
use build_base::{Refusal, Rows, Same, Text, WantOfMemory, refuse};
use doc_types::choice::Module;
use doc_types::package::DecPcd;
use doc_types::pcd::{Datum, Kind, PcdSet};
use doc_types::values::PcdRow;
use pcd_ranks::assign::{LentAssignment, assignments, max_from, value_from};
use pcd_ranks::listing::{StatedLine, UseLine};
use pcd_ranks::names::{is_dynamic, is_void};
use pcd_values::parse::{parse_value, width};
use std::alloc::Global;

fn stated_max(found: Option<LentAssignment<'_>>) -> Option<u32>
    ensures { result ≡ stated_max (option_map given_view found.entry) }
{
    match found {
        Some(a) => a.max,
        None => None,
    }
}

#[tactic(auto, unfolding(crate::specs::Rows::maximum))]
fn maximum(
    alloc: Global,
    datum: Datum,
    taken: &LentAssignment<'_>,
    text: &[u8],
    bytes: &[u8],
    stated: Option<u32>,
) -> Result<u32, Refusal>
    requires { length bytes.now ≤ 65535 }
    ensures { Answers result (maximum datum (given_view taken.now) text.now bytes.now stated) }
{
    if !is_void(datum) {
        return Ok(width(datum));
    }
    match stated {
        None => Ok(bytes.len() as u32),
        Some(max) => {
            if (max as usize) < bytes.len() {
                return Err(refuse(alloc, DOES_NOT_FIT, taken.at, text));
            }
            Ok(max)
        }
    }
}

fn row(
    alloc: Global,
    kind: Kind,
    line: &DecPcd,
    sku: &[u8],
    rank: u8,
    value: Text,
    max: u32,
) -> Result<PcdRow, WantOfMemory>
    ensures { IfOk result (λ r. r ≡ row kind line.now sku.now rank value max) }
{
    Ok(PcdRow {
        pcd: line.pcd.copy(alloc)?,
        kind,
        datum: line.datum,
        token: line.token,
        max,
        rank,
        sku: Text::of(alloc, sku)?,
        value,
    })
}

fn only_row(
    alloc: Global,
    kind: Kind,
    line: &DecPcd,
    sku: &[u8],
    rank: u8,
    value: Text,
    max: u32,
) -> Result<Rows<PcdRow>, WantOfMemory>
    ensures { IfOk result (λ rows. rows ≡ row kind line.now sku.now rank value max ∷ []) }
{
    let row = row(alloc, kind, line, sku, rank, value, max)?;
    let mut rows = Rows::new(alloc);
    rows.push(row)?;
    Ok(rows)
}

// The row of a PCD to which a text is assigned.
fn row_by(
    alloc: Global,
    kind: Kind,
    line: &DecPcd,
    sku: &[u8],
    all: &[LentAssignment<'_>],
    taken: &LentAssignment<'_>,
    text: &Text,
) -> Result<Rows<PcdRow>, Refusal>
    ensures { Answers result
        (row_by kind line.now sku.now (map given_view all.now) (given_view taken.now)
        (Some text.now)) }
{
    let bytes = parse_value(alloc, taken.at, text, line.datum)?;
    let max = maximum(
        alloc,
        line.datum,
        taken,
        text.bytes(),
        bytes.bytes(),
        stated_max(max_from(all)),
    )?;
    let rows = only_row(alloc, kind, line, sku, taken.rank, bytes, max)?;
    Ok(rows)
}

/// The row of a PCD for a SKU.
#[tactic(auto, unfolding(crate::specs::Rows::row_of))]
pub fn row_of(
    alloc: Global,
    kind: Kind,
    line: &DecPcd,
    sku: &[u8],
    all: &[LentAssignment<'_>],
) -> Result<Rows<PcdRow>, Refusal>
    ensures { Answers result (row_of kind line.now sku.now (map given_view all.now)) }
{
    let Some(taken) = value_from(all) else {
        return Ok(Rows::new(alloc));
    };
    let Some(text) = taken.value else {
        return Ok(Rows::new(alloc));
    };
    row_by(alloc, kind, line, sku, all, &taken, text)
}

fn fixed_row<'a>(
    alloc: Global,
    user: &Module,
    uses: &[UseLine<'a>],
    lines: &[StatedLine<'a>],
    sets: &[&'a PcdSet],
    kind: Kind,
    line: Option<&'a DecPcd>,
) -> Result<Rows<PcdRow>, Refusal>
    ensures { Answers result
        (fixed_row user.now (map use_view uses.now) (map stated_view lines.now)
        (map (λ s. s.now) sets.now) kind (option_copied line.entry)) }
{
    let Some(line) = line else {
        return Ok(Rows::new(alloc));
    };
    let all = assignments(alloc, user, line, uses, lines, sets)?;
    row_of(alloc, kind, line, b"DEFAULT".as_slice(), all.as_slice())
}

fn copies(alloc: Global, rows: &[&PcdRow]) -> Result<Rows<PcdRow>, WantOfMemory>
    ensures { IfOk result (λ copied. copied ≡ map (λ r. r.now) rows.now) }
{
    let mut copied = Rows::new(alloc);
    for row in rows {
        copied.push(row.copy(alloc)?)?;
    }
    Ok(copied)
}

fn rows_by_kind<'a>(
    alloc: Global,
    user: &Module,
    uses: &[UseLine<'a>],
    lines: &[StatedLine<'a>],
    declared: &[&'a DecPcd],
    sets: &[&'a PcdSet],
    dynamic: &[&PcdRow],
    kind: Kind,
) -> Result<Rows<PcdRow>, Refusal>
    ensures { Answers result
        (rows_by_kind user.now (map use_view uses.now) (map stated_view lines.now)
        (map (λ l. l.now) declared.now) (map (λ s. s.now) sets.now) (map (λ r. r.now) dynamic.now)
        (Some kind)) }
{
    if is_dynamic(kind) {
        return Ok(copies(alloc, dynamic)?);
    }
    let line = declaration(kind, declared);
    fixed_row(alloc, user, uses, lines, sets, kind, line)
}

/// The rows of one PCD of a module, or its first fault.
#[tactic(auto, unfolding(crate::specs::Rows::rows_of))]
pub fn rows_of<'a>(
    alloc: Global,
    pcd: &[u8],
    user: &Module,
    uses: &[UseLine<'a>],
    lines: &[StatedLine<'a>],
    declared: &[&'a DecPcd],
    sets: &[&'a PcdSet],
    dynamic: &[&PcdRow],
) -> Result<Rows<PcdRow>, Refusal>
    ensures { Answers result
        (rows_of pcd.now user.now (map use_view uses.now) (map stated_view lines.now)
        (map (λ l. l.now) declared.now) (map (λ s. s.now) sets.now)
        (map (λ r. r.now) dynamic.now)) }
{
    match checked_kind(alloc, pcd, uses, lines)? {
        Some(kind) => rows_by_kind(alloc, user, uses, lines, declared, sets, dynamic, kind),
        None => Ok(Rows::new(alloc)),
    }
}
