//! The SKU whose value each SKU takes, for one PCD, found in one pass over the SKUs.
ghost use Rattle.std.specs.Prelude.{◌≡◌, ◌+◌, ◌++◌, ◌∷◌, [], ℕ, List, Some, None, length, map, IfOk, IfSome, OnOk, option_copied, is_some, slice_get};
ghost use Rattle.std.specs.HashMap.{get};
ghost use Rattle.std.specs.Option.{option_and_then};
ghost use Rattle.build_base.specs.Answer.{Answers};
ghost use Rattle.doc_types.specs.declared.values.SkuRow.{SkuRow as Row};
ghost use Rattle.pcd_ranks.specs.Assignments.{value_from};
ghost use Rattle.pcd_ranks.specs.Listing.{Stated};
ghost use Rattle.pcd_ranks.specs.Views.{stated_view, given_view};
ghost use Rattle.pcd_resolve.specs.Groups.{Grouped};
ghost use Rattle.pcd_resolve.specs.PcdLines.{assignments_for, own_values, AreSources, HasTables};
ghost use Rattle.pcd_resolve.specs.Rows.{row_of};
ghost use Rattle.pcd_resolve.specs.SkuTables.{same_name, sku_at, name_at, at_place, stated_sku, within, AreKnown, AreTables};
ghost use Rattle.pcd_values.specs.Skus.{value_within};

use crate::dynamic::sku_assignments;
use crate::groups::{add, group};
use crate::rows::row_of;
use crate::sku_tables::{SkuTables, at_place, put_place, set_place, within};
use build_base::{Refusal, Rows, Text, WantOfMemory};
use doc_types::package::DecPcd;
use doc_types::pcd::{Kind, PcdSet};
use doc_types::platform::Sku;
use doc_types::values::PcdRow;
use indexmap::IndexMap;
use pcd_ranks::assign::{LentAssignment, value_from};
use pcd_ranks::listing::StatedLine;
use std::alloc::Global;

/// What the rows of a dynamic PCD are made from. `own` has its lines by their SKUs, and `tables`
/// are those of all SKUs.
#[derive(Clone, Copy)]
pub(crate) struct PcdLines<'t, 'a> {
    pub line: &'a DecPcd,
    pub lines: &'t [StatedLine<'a>],
    pub own: &'t IndexMap<Vec<u8>, Vec<StatedLine<'a>>>,
    pub sets: &'t [&'a PcdSet],
    pub skus: &'t Rows<Sku>,
    pub tables: &'t SkuTables,
}

fn add_line<'a>(
    alloc: Global,
    table: &mut IndexMap<Vec<u8>, Vec<StatedLine<'a>>>,
    stated: &StatedLine<'a>,
) -> Result<(), WantOfMemory>
    ensures { (xs : List Stated) → Grouped stated_view stated_sku xs table.old
        → OnOk result (Grouped stated_view stated_sku (xs ++ stated_view stated.now ∷ [])
        table.new) }
{
    let key = Vec::from_slice(alloc, stated.line.sku.bytes())?;
    add(alloc, table, key, *stated)?;
    Ok(())
}

/// The lines of one PCD by their SKUs.
pub(crate) fn lines_by_sku<'a>(
    alloc: Global,
    lines: &[StatedLine<'a>],
) -> Result<IndexMap<Vec<u8>, Vec<StatedLine<'a>>>, WantOfMemory>
    ensures { IfOk result
        (λ table. Grouped stated_view stated_sku (map stated_view lines.now) table) }
{
    let mut table = IndexMap::new(alloc);
    for stated in lines {
        add_line(alloc, &mut table, stated)?;
    }
    Ok(table)
}

fn assignments_of<'a>(
    alloc: Global,
    pcd: &PcdLines<'_, 'a>,
    sku: &[u8],
) -> Result<Vec<LentAssignment<'a>>, WantOfMemory>
    ensures { HasTables pcd.now
        → IfOk result (λ v. map given_view v.items ≡ assignments_for pcd.now sku.now) }
{
    let key = Vec::from_slice(alloc, sku)?;
    let all = sku_assignments(alloc, pcd.line, group(pcd.own, &key), pcd.sets, sku)?;
    Ok(all)
}

fn has_value(alloc: Global, pcd: &PcdLines<'_, '_>, sku: &Text) -> Result<bool, WantOfMemory>
    ensures { HasTables pcd.now
        → IfOk result (λ b. b ≡ is_some (value_from (assignments_for pcd.now sku.now))) }
{
    let all = assignments_of(alloc, pcd, sku.bytes())?;
    Ok(value_from(all.as_slice()).is_some())
}

fn sku_of(skus: &Rows<Sku>, place: usize) -> Option<&Sku>
    ensures { option_copied result ≡ slice_get skus.now place }
{
    skus.items().get(place)
}

// What is known at the parent of a place.
fn known_above(ups: &[Option<usize>], known: &[Option<usize>], place: usize) -> Option<usize>
    ensures { result ≡ option_and_then (at_place known.now) (at_place ups.now place) }
{
    match at_place(ups, place) {
        Some(up) => at_place(known, up),
        None => None,
    }
}

// The SKU whose value the one at a place takes, by what is known of its parent.
fn source_at(
    alloc: Global,
    pcd: &PcdLines<'_, '_>,
    known: &[Option<usize>],
    place: usize,
) -> Result<Option<usize>, WantOfMemory>
    ensures { (n : ℕ) → HasTables pcd.now
        → AreKnown (own_values pcd.now) pcd.now.skus.now n known.now
        → IfOk result (λ found. (from : ℕ) → found ≡ Some from
        → value_within (own_values pcd.now) pcd.now.skus.now (name_at pcd.now.skus.now place) (n + 1)
        ≡ Some (name_at pcd.now.skus.now from)) }
{
    let Some(sku) = sku_of(pcd.skus, place) else {
        return Ok(None);
    };
    if has_value(alloc, pcd, &sku.name)? {
        return Ok(Some(place));
    }
    Ok(known_above(pcd.tables.ups.as_slice(), known, place))
}

fn none_known(alloc: Global, skus: &Rows<Sku>) -> Result<Vec<Option<usize>>, WantOfMemory>
    ensures { IfOk result (λ known. known.items ≡ map (λ sku. None) skus.now) }
{
    let mut known = Vec::new(alloc);
    for _sku in skus.items() {
        put_place(&mut known, None)?;
    }
    Ok(known)
}

/// The SKU whose value each SKU takes, where the order finds it.
pub(crate) fn sources_of(
    alloc: Global,
    pcd: &PcdLines<'_, '_>,
) -> Result<Vec<Option<usize>>, WantOfMemory>
    ensures { HasTables pcd.now → IfOk result (λ known. AreSources pcd.now known.items) }
{
    let mut known = none_known(alloc, pcd.skus)?;
    for place in pcd.tables.order.as_slice() {
        let from = source_at(alloc, pcd, known.as_slice(), *place)?;
        set_place(&mut known, *place, from);
    }
    Ok(known)
}

fn source_place(
    skus: &Rows<Sku>,
    tables: &SkuTables,
    known: &[Option<usize>],
    sku: &Text,
) -> Option<usize>
    ensures { result ≡ option_and_then (at_place known.now)
        (within skus.now (get same_name tables.now.firsts sku.now)) }
{
    match within(skus.items(), tables.firsts.get(sku)) {
        Some(place) => at_place(known, place),
        None => None,
    }
}

fn sku_at(skus: &Rows<Sku>, place: Option<usize>) -> Option<&Sku>
    ensures { option_copied result ≡ sku_at skus.now place }
{
    match place {
        Some(place) => sku_of(skus, place),
        None => None,
    }
}

/// The SKU whose value a SKU takes, where it is known.
pub(crate) fn known_source<'s>(
    skus: &'s Rows<Sku>,
    tables: &SkuTables,
    known: &[Option<usize>],
    sku: &Text,
) -> Option<&'s Sku>
    requires { AreTables skus.now tables.now }
    ensures { (rows : List Row)
        → AreKnown rows skus.now (length tables.now.order.items) known.now
        → IfSome result (λ from. value_within rows skus.now sku.now (length skus.now + 1)
        ≡ Some from.now.name) }
{
    let from = source_place(skus, tables, known, sku);
    sku_at(skus, from)
}

/// The row of a SKU that takes the value of another one.
pub(crate) fn row_from(
    alloc: Global,
    kind: Kind,
    pcd: &PcdLines<'_, '_>,
    sku: &Text,
    from: &Text,
) -> Result<Rows<PcdRow>, Refusal>
    ensures { HasTables pcd.now
        → Answers result (row_of kind pcd.now.line.now sku.now (assignments_for pcd.now from.now)) }
{
    let all = assignments_of(alloc, pcd, from.bytes())?;
    row_of(alloc, kind, pcd.line, sku.bytes(), all.as_slice())
}
