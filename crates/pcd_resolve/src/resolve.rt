//! The values of a module.
ghost use Rattle.std.specs.Prelude.{◌≡◌, ◌++◌, true, map, IfOk, OnOk};
ghost use Rattle.build_base.specs.Answer.{Answers};
ghost use Rattle.pcd_resolve.specs.Groups.{Grouped, GroupedAt};
ghost use Rattle.pcd_ranks.specs.Listing.{stated_in, uses_of_module};
ghost use Rattle.pcd_resolve.specs.NameFilter.{is_kept};
ghost use Rattle.pcd_resolve.specs.ModuleLines.{HoldsModule};
ghost use Rattle.pcd_resolve.specs.Rows.{all_rows, module_values, names_of, rows_in, sets_in};
ghost use Rattle.pcd_resolve.specs.Tables.{AllKept, IsTabled, set_name, stated_name, use_name};
ghost use Rattle.pcd_ranks.specs.Views.{stated_view, use_view};

use crate::groups::group;
use crate::name_filter::marks_of;
use crate::packages::{ModuleTables, declared_in, tables_of};
use crate::rows::rows_of;
use crate::sorted::names_of_module;
use crate::tables::{lines_by_name, rows_by_name, sets_by_name};
use crate::used::uses_by_name;
use build_base::{Permit, Refusal, Rows, Same, WantOfMemory};
use doc_types::asks::ModuleAsk;
use doc_types::pcd::PcdSet;
use doc_types::pcd_lines::PcdLines;
use doc_types::values::{PcdRow, Values};
use indexmap::IndexMap;
use pcd_ranks::listing::{StatedLine, UseLine};
use std::alloc::Global;

/// A module and its tables: by the names of PCDs what uses, states and sets them, and the rows of
/// those that are dynamic.
#[derive(Clone, Copy)]
pub(crate) struct ModuleLines<'t, 'a> {
    pub ask: &'a ModuleAsk,
    pub tables: &'t ModuleTables<'a>,
    pub uses: &'t IndexMap<Vec<u8>, Vec<UseLine<'a>>>,
    pub lines: &'t IndexMap<Vec<u8>, Vec<StatedLine<'a>>>,
    pub sets: &'t IndexMap<Vec<u8>, Vec<&'a PcdSet>>,
    pub dynamic: &'t IndexMap<Vec<u8>, Vec<&'a PcdRow>>,
}

#[tactic(auto, unfolding(crate::specs::Rows::rows_in))]
fn rows_at(
    alloc: Global,
    from: &ModuleLines<'_, '_>,
    pcd: &Vec<u8>,
) -> Result<Rows<PcdRow>, Refusal>
    requires from { HoldsModule from.now }
    requires kept { is_kept from.now.tables.now.marks.items pcd.now.items ≡ true }
    ensures { Answers result
        (rows_in from.now.ask.now (uses_of_module from.now.ask.now.parts)
        (stated_in from.now.ask.now.platform) pcd.now.items) }
{
    let declared = declared_in(alloc, from.tables, pcd)?;
    rows_of(
        alloc,
        pcd.as_slice(),
        &from.ask.parts.module,
        group(from.uses, pcd),
        group(from.lines, pcd),
        declared.as_slice(),
        group(from.sets, pcd),
        group(from.dynamic, pcd),
    )
}

pub(crate) fn append(
    alloc: Global,
    rows: &mut Rows<PcdRow>,
    more: &[PcdRow],
) -> Result<(), WantOfMemory>
    ensures { OnOk result (rows.new ≡ rows.old ++ more.now) }
{
    for row in more {
        rows.push(row.copy(alloc)?)?;
    }
    Ok(())
}

fn all_rows(
    alloc: Global,
    from: &ModuleLines<'_, '_>,
    names: &[Vec<u8>],
) -> Result<Rows<PcdRow>, Refusal>
    requires from { HoldsModule from.now }
    requires kept { AllKept from.now.tables.now.marks.items (map (λ n. n.items) names.now) }
    ensures { Answers result
        (all_rows
        (map (rows_in from.now.ask.now (uses_of_module from.now.ask.now.parts)
        (stated_in from.now.ask.now.platform))
        (map (λ n. n.items) names.now))) }
{
    let mut rows = Rows::new(alloc);
    for pcd in names {
        let more = rows_at(alloc, from, pcd)?;
        append(alloc, &mut rows, more.items())?;
    }
    Ok(rows)
}

fn sets_of_ask<'a>(
    alloc: Global,
    marks: &[bool],
    ask: &'a ModuleAsk,
) -> Result<IndexMap<Vec<u8>, Vec<&'a PcdSet>>, WantOfMemory>
    ensures { IfOk result
        (λ table. GroupedAt marks.now (λ s. s.now) set_name (sets_in ask.now) table) }
{
    sets_by_name(alloc, marks, ask.commands.items(), &ask.flash.value().sets)
}

// The rows by the tables of the uses and of the platform's lines.
fn rows_by_lines<'a>(
    alloc: Global,
    ask: &'a ModuleAsk,
    names: &[Vec<u8>],
    tables: &ModuleTables<'a>,
    uses: &IndexMap<Vec<u8>, Vec<UseLine<'a>>>,
    lines: &IndexMap<Vec<u8>, Vec<StatedLine<'a>>>,
) -> Result<Rows<PcdRow>, Refusal>
    requires tabled { IsTabled tables.now }
    requires parts { tables.now.parts.now ≡ ask.now.parts }
    requires uses { Grouped use_view use_name (uses_of_module ask.now.parts) uses.now }
    requires lines { GroupedAt tables.now.marks.items stated_view stated_name
        (stated_in ask.now.platform) lines.now }
    requires kept { AllKept tables.now.marks.items (map (λ n. n.items) names.now) }
    ensures { Answers result
        (all_rows (map (rows_in ask.now (uses_of_module ask.now.parts) (stated_in ask.now.platform))
        (map (λ n. n.items) names.now))) }
{
    let marks = tables.marks.as_slice();
    let sets = sets_of_ask(alloc, marks, ask)?;
    let dynamic = rows_by_name(alloc, marks, &ask.dynamic.value().rows)?;
    let from = ModuleLines {
        ask,
        tables,
        uses,
        lines,
        sets: &sets,
        dynamic: &dynamic,
    };
    all_rows(alloc, &from, names)
}

fn rows_by_tables<'a>(
    alloc: Global,
    ask: &'a ModuleAsk,
    names: &[Vec<u8>],
    tables: &ModuleTables<'a>,
    uses: &IndexMap<Vec<u8>, Vec<UseLine<'a>>>,
) -> Result<Rows<PcdRow>, Refusal>
    requires tabled { IsTabled tables.now }
    requires parts { tables.now.parts.now ≡ ask.now.parts }
    requires uses { Grouped use_view use_name (uses_of_module ask.now.parts) uses.now }
    requires kept { AllKept tables.now.marks.items (map (λ n. n.items) names.now) }
    ensures { Answers result
        (all_rows (map (rows_in ask.now (uses_of_module ask.now.parts) (stated_in ask.now.platform))
        (map (λ n. n.items) names.now))) }
{
    let lines = lines_by_name(alloc, tables.marks.as_slice(), ask.platform.value())?;
    rows_by_lines(alloc, ask, names, tables, uses, &lines)
}

// The rows of the PCDs of these names, by the tables of the module.
fn rows_by_names<'a>(
    alloc: Global,
    ask: &'a ModuleAsk,
    names: &[Vec<u8>],
    tables: &ModuleTables<'a>,
) -> Result<Rows<PcdRow>, Refusal>
    requires tabled { IsTabled tables.now }
    requires parts { tables.now.parts.now ≡ ask.now.parts }
    requires uses { AllKept tables.now.marks.items (map use_name (uses_of_module ask.now.parts)) }
    requires kept { AllKept tables.now.marks.items (map (λ n. n.items) names.now) }
    ensures { Answers result
        (all_rows (map (rows_in ask.now (uses_of_module ask.now.parts) (stated_in ask.now.platform))
        (map (λ n. n.items) names.now))) }
{
    let uses = uses_by_name(alloc, tables)?;
    rows_by_tables(alloc, ask, names, tables, &uses)
}

// The rows of the PCDs of these names, by tables of what these names and the uses mark.
fn rows_of_names(alloc: Global, ask: &ModuleAsk, names: &[Vec<u8>]) -> Result<Rows<PcdRow>, Refusal>
    ensures { Answers result
        (all_rows (map (rows_in ask.now (uses_of_module ask.now.parts) (stated_in ask.now.platform))
        (map (λ n. n.items) names.now))) }
{
    let marks = marks_of(alloc, &ask.parts, names)?;
    let tables = tables_of(alloc, &ask.parts, marks)?;
    rows_by_names(alloc, ask, names, &tables)
}

fn values_of(alloc: Global, ask: &ModuleAsk) -> Result<Rows<PcdRow>, Refusal>
    ensures { Answers result
        (all_rows (map (rows_in ask.now (uses_of_module ask.now.parts) (stated_in ask.now.platform))
        (names_of (uses_of_module ask.now.parts)))) }
{
    let names = names_of_module(alloc, &ask.parts)?;
    rows_of_names(alloc, ask, names.as_slice())
}

/// The values of a module, PCD by PCD in the order of their names, or the first fault: NotDeclared,
/// DatumConflict, DynamicInComponent, SkuOnFixed, KindConflict, KindAsked, and then that of the
/// value. Those of dynamic PCDs are the rows that `ask` has of them.
#[tactic(auto, unfolding(crate::specs::Rows::module_values))]
pub fn resolve_module(alloc: Global, permit: Permit, ask: &ModuleAsk) -> Result<Values, Refusal>
    ensures { Answers result (module_values ask.now) }
{
    let _spent = permit;
    let rows = PcdLines::of(alloc, values_of(alloc, ask)?)?;
    Ok(Values { rows })
}
