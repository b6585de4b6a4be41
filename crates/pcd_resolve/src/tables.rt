//! Tables of lines by the names of their PCDs, where these are marked.
ghost use Rattle.std.specs.Prelude.{◌++◌, List, Some, None, map, IfOk, OnOk};
ghost use Rattle.std.specs.List.{flat_map};
ghost use Rattle.std.specs.Option.{option_map};
ghost use Rattle.doc_types.specs.declared.pcd.PcdSet.{PcdSet as Set};
ghost use Rattle.doc_types.specs.declared.values.PcdRow.{PcdRow as Row};
ghost use Rattle.doc_types.specs.Pcds.{full_name};
ghost use Rattle.pcd_resolve.specs.Additions.{AddsAt};
ghost use Rattle.pcd_resolve.specs.Groups.{Grouped, GroupedAt};
ghost use Rattle.pcd_ranks.specs.Listing.{Declared, Stated, line_from, package_lines, stated_in};
ghost use Rattle.pcd_resolve.specs.Tables.{declared_name, stated_name, set_name, row_name, at_home, lines_at};
ghost use Rattle.pcd_ranks.specs.Views.{declared_view, stated_view};

use crate::groups::add;
use crate::name_filter::is_pcd_kept;
use build_base::{Path, WantOfMemory};
use doc_types::components::Components;
use doc_types::package::DecPcd;
use doc_types::parts::Package;
use doc_types::pcd::{PcdName, PcdSet};
use doc_types::pcd_lines::PcdLines;
use doc_types::platform::{Component, PcdLine, PlatformDoc};
use doc_types::values::PcdRow;
use indexmap::IndexMap;
use pcd_ranks::listing::{DeclaredLine, StatedLine};
use std::alloc::Global;

// Adds an item behind those of its PCD's name, where this is marked.
fn add_kept<V: Drop>(
    alloc: Global,
    marks: &[bool],
    table: &mut IndexMap<Vec<u8>, Vec<V>>,
    pcd: &PcdName,
    item: V,
) -> Result<(), WantOfMemory>
    ensures { OnOk result (AddsAt marks.now (full_name pcd.now) item table.old table.new) }
{
    if !is_pcd_kept(marks, pcd) {
        return Ok(());
    }
    let name = pcd.full_name(alloc)?;
    add(alloc, table, name, item)?;
    Ok(())
}

#[inline(always)]
fn add_lines<'a>(
    alloc: Global,
    marks: &[bool],
    table: &mut IndexMap<Vec<u8>, Vec<StatedLine<'a>>>,
    home: Option<&'a Component>,
    lines: &'a [PcdLine],
) -> Result<(), WantOfMemory>
    ensures { (xs : List Stated) → GroupedAt marks.now stated_view stated_name xs table.old
        → OnOk result (GroupedAt marks.now stated_view stated_name
        (xs ++ map (at_home (option_map (λ h. h.now) home.entry)) lines.now) table.new) }
{
    for line in lines {
        add_kept(alloc, marks, table, &line.pcd, StatedLine { home, line })?;
    }
    Ok(())
}

#[inline(always)]
fn add_component<'a>(
    alloc: Global,
    marks: &[bool],
    table: &mut IndexMap<Vec<u8>, Vec<StatedLine<'a>>>,
    one: &'a Component,
) -> Result<(), WantOfMemory>
    ensures { (xs : List Stated) → GroupedAt marks.now stated_view stated_name xs table.old
        → OnOk result (GroupedAt marks.now stated_view stated_name
        (xs ++ lines_at one.now) table.new) }
{
    add_lines(alloc, marks, table, Some(one), one.pcds.items())?;
    Ok(())
}

fn add_each<'a>(
    alloc: Global,
    marks: &[bool],
    table: &mut IndexMap<Vec<u8>, Vec<StatedLine<'a>>>,
    homes: &[&'a Component],
) -> Result<(), WantOfMemory>
    ensures { (xs : List Stated) → GroupedAt marks.now stated_view stated_name xs table.old
        → OnOk result (GroupedAt marks.now stated_view stated_name
        (xs ++ flat_map (λ one. lines_at one.now) homes.now) table.new) }
{
    for one in homes {
        add_component(alloc, marks, table, *one)?;
    }
    Ok(())
}

// Adds lines, each of which is lent by itself.
fn add_lent_lines<'a>(
    alloc: Global,
    marks: &[bool],
    table: &mut IndexMap<Vec<u8>, Vec<StatedLine<'a>>>,
    lines: &[&'a PcdLine],
) -> Result<(), WantOfMemory>
    ensures { (xs : List Stated) → GroupedAt marks.now stated_view stated_name xs table.old
        → OnOk result (GroupedAt marks.now stated_view stated_name
        (xs ++ map (λ line. at_home None line.now) lines.now) table.new) }
{
    for line in lines {
        let stated = StatedLine {
            home: None,
            line: *line,
        };
        add_kept(alloc, marks, table, &line.pcd, stated)?;
    }
    Ok(())
}

// Of many lines those of marked places are looked at alone.
fn add_platform_lines<'a>(
    alloc: Global,
    marks: &[bool],
    table: &mut IndexMap<Vec<u8>, Vec<StatedLine<'a>>>,
    lines: &'a PcdLines<PcdLine>,
) -> Result<(), WantOfMemory>
    ensures { (xs : List Stated) → GroupedAt marks.now stated_view stated_name xs table.old
        → OnOk result (GroupedAt marks.now stated_view stated_name
        (xs ++ map (at_home None) lines.now) table.new) }
{
    match lines.marked(alloc, marks)? {
        None => add_lines(alloc, marks, table, None, lines.items())?,
        Some(marked) => add_lent_lines(alloc, marks, table, marked.as_slice())?,
    }
    Ok(())
}

// Of all components those that have lines are looked at alone.
fn add_components<'a>(
    alloc: Global,
    marks: &[bool],
    table: &mut IndexMap<Vec<u8>, Vec<StatedLine<'a>>>,
    homes: &'a Components,
) -> Result<(), WantOfMemory>
    ensures { (xs : List Stated) → GroupedAt marks.now stated_view stated_name xs table.old
        → OnOk result (GroupedAt marks.now stated_view stated_name
        (xs ++ flat_map lines_at homes.now) table.new) }
{
    let with_lines = homes.with_lines(alloc)?;
    add_each(alloc, marks, table, with_lines.as_slice())?;
    Ok(())
}

fn add_sets<'a>(
    alloc: Global,
    marks: &[bool],
    table: &mut IndexMap<Vec<u8>, Vec<&'a PcdSet>>,
    sets: &'a [PcdSet],
) -> Result<(), WantOfMemory>
    ensures { (xs : List Set) → GroupedAt marks.now (λ s. s.now) set_name xs table.old
        → OnOk result (GroupedAt marks.now (λ s. s.now) set_name (xs ++ map (λ s. s) sets.now)
        table.new) }
{
    for set in sets {
        add_kept(alloc, marks, table, &set.pcd, set)?;
    }
    Ok(())
}

// Adds sets, each of which is lent by itself.
fn add_lent_sets<'a>(
    alloc: Global,
    marks: &[bool],
    table: &mut IndexMap<Vec<u8>, Vec<&'a PcdSet>>,
    sets: &[&'a PcdSet],
) -> Result<(), WantOfMemory>
    ensures { (xs : List Set) → GroupedAt marks.now (λ s. s.now) set_name xs table.old
        → OnOk result (GroupedAt marks.now (λ s. s.now) set_name (xs ++ map (λ s. s.now) sets.now)
        table.new) }
{
    for set in sets {
        add_kept(alloc, marks, table, &set.pcd, *set)?;
    }
    Ok(())
}

// Of many sets those of marked places are looked at alone.
fn add_flash_sets<'a>(
    alloc: Global,
    marks: &[bool],
    table: &mut IndexMap<Vec<u8>, Vec<&'a PcdSet>>,
    sets: &'a PcdLines<PcdSet>,
) -> Result<(), WantOfMemory>
    ensures { (xs : List Set) → GroupedAt marks.now (λ s. s.now) set_name xs table.old
        → OnOk result (GroupedAt marks.now (λ s. s.now) set_name (xs ++ map (λ s. s) sets.now)
        table.new) }
{
    match sets.marked(alloc, marks)? {
        None => add_sets(alloc, marks, table, sets.items())?,
        Some(marked) => add_lent_sets(alloc, marks, table, marked.as_slice())?,
    }
    Ok(())
}

fn add_rows<'a>(
    alloc: Global,
    marks: &[bool],
    table: &mut IndexMap<Vec<u8>, Vec<&'a PcdRow>>,
    rows: &'a [PcdRow],
) -> Result<(), WantOfMemory>
    ensures { (xs : List Row) → GroupedAt marks.now (λ r. r.now) row_name xs table.old
        → OnOk result (GroupedAt marks.now (λ r. r.now) row_name (xs ++ map (λ r. r) rows.now)
        table.new) }
{
    for row in rows {
        add_kept(alloc, marks, table, &row.pcd, row)?;
    }
    Ok(())
}

// Adds rows, each of which is lent by itself.
fn add_lent_rows<'a>(
    alloc: Global,
    marks: &[bool],
    table: &mut IndexMap<Vec<u8>, Vec<&'a PcdRow>>,
    rows: &[&'a PcdRow],
) -> Result<(), WantOfMemory>
    ensures { (xs : List Row) → GroupedAt marks.now (λ r. r.now) row_name xs table.old
        → OnOk result (GroupedAt marks.now (λ r. r.now) row_name (xs ++ map (λ r. r.now) rows.now)
        table.new) }
{
    for row in rows {
        add_kept(alloc, marks, table, &row.pcd, *row)?;
    }
    Ok(())
}

// Of many rows those of marked places are looked at alone.
fn add_values<'a>(
    alloc: Global,
    marks: &[bool],
    table: &mut IndexMap<Vec<u8>, Vec<&'a PcdRow>>,
    rows: &'a PcdLines<PcdRow>,
) -> Result<(), WantOfMemory>
    ensures { (xs : List Row) → GroupedAt marks.now (λ r. r.now) row_name xs table.old
        → OnOk result (GroupedAt marks.now (λ r. r.now) row_name (xs ++ map (λ r. r) rows.now)
        table.new) }
{
    match rows.marked(alloc, marks)? {
        None => add_rows(alloc, marks, table, rows.items())?,
        Some(marked) => add_lent_rows(alloc, marks, table, marked.as_slice())?,
    }
    Ok(())
}

fn add_declarations<'a>(
    alloc: Global,
    marks: &[bool],
    table: &mut IndexMap<Vec<u8>, Vec<DeclaredLine<'a>>>,
    from: &'a Path,
    lines: &'a [DecPcd],
) -> Result<(), WantOfMemory>
    ensures { (xs : List Declared) → GroupedAt marks.now declared_view declared_name xs table.old
        → OnOk result (GroupedAt marks.now declared_view declared_name
        (xs ++ map (line_from from.now) lines.now) table.new) }
{
    for line in lines {
        add_kept(alloc, marks, table, &line.pcd, DeclaredLine { from, line })?;
    }
    Ok(())
}

// Adds declarations, each of which is lent by itself.
fn add_lent_declarations<'a>(
    alloc: Global,
    marks: &[bool],
    table: &mut IndexMap<Vec<u8>, Vec<DeclaredLine<'a>>>,
    from: &'a Path,
    lines: &[&'a DecPcd],
) -> Result<(), WantOfMemory>
    ensures { (xs : List Declared) → GroupedAt marks.now declared_view declared_name xs table.old
        → OnOk result (GroupedAt marks.now declared_view declared_name
        (xs ++ map (λ line. line_from from.now line.now) lines.now) table.new) }
{
    for line in lines {
        let declared = DeclaredLine { from, line: *line };
        add_kept(alloc, marks, table, &line.pcd, declared)?;
    }
    Ok(())
}

// Of many declarations those of marked places are looked at alone.
fn add_declared<'a>(
    alloc: Global,
    marks: &[bool],
    table: &mut IndexMap<Vec<u8>, Vec<DeclaredLine<'a>>>,
    from: &'a Path,
    lines: &'a PcdLines<DecPcd>,
) -> Result<(), WantOfMemory>
    ensures { (xs : List Declared) → GroupedAt marks.now declared_view declared_name xs table.old
        → OnOk result (GroupedAt marks.now declared_view declared_name
        (xs ++ map (line_from from.now) lines.now) table.new) }
{
    match lines.marked(alloc, marks)? {
        None => add_declarations(alloc, marks, table, from, lines.items())?,
        Some(marked) => add_lent_declarations(alloc, marks, table, from, marked.as_slice())?,
    }
    Ok(())
}

fn add_package<'a>(
    alloc: Global,
    marks: &[bool],
    table: &mut IndexMap<Vec<u8>, Vec<DeclaredLine<'a>>>,
    held: &'a Package,
) -> Result<(), WantOfMemory>
    ensures { (xs : List Declared) → GroupedAt marks.now declared_view declared_name xs table.old
        → OnOk result (GroupedAt marks.now declared_view declared_name
        (xs ++ map (line_from held.now.path) held.now.doc.pcds) table.new) }
{
    add_declared(alloc, marks, table, &held.path, &held.doc.value().pcds)?;
    Ok(())
}

fn add_packages<'a>(
    alloc: Global,
    marks: &[bool],
    table: &mut IndexMap<Vec<u8>, Vec<DeclaredLine<'a>>>,
    decs: &'a [Package],
) -> Result<(), WantOfMemory>
    ensures { (xs : List Declared) → GroupedAt marks.now declared_view declared_name xs table.old
        → OnOk result (GroupedAt marks.now declared_view declared_name
        (xs ++ flat_map (λ held. map (line_from held.path) held.doc.pcds) decs.now) table.new) }
{
    for held in decs {
        add_package(alloc, marks, table, held)?;
    }
    Ok(())
}

/// The lines of packages by the names of their PCDs, where these are marked.
#[tactic(auto, unfolding(pcd_ranks::specs::Listing::package_lines))]
pub(crate) fn declared_by_name<'a>(
    alloc: Global,
    marks: &[bool],
    decs: &'a [Package],
) -> Result<IndexMap<Vec<u8>, Vec<DeclaredLine<'a>>>, WantOfMemory>
    ensures { IfOk result
        (λ table. GroupedAt marks.now declared_view declared_name (package_lines decs.now) table) }
{
    let mut table = IndexMap::new(alloc);
    add_packages(alloc, marks, &mut table, decs)?;
    Ok(table)
}

fn lines_of<'a>(
    alloc: Global,
    marks: &[bool],
    lines: &'a PcdLines<PcdLine>,
    homes: &'a Components,
) -> Result<IndexMap<Vec<u8>, Vec<StatedLine<'a>>>, WantOfMemory>
    ensures { IfOk result
        (λ table. GroupedAt marks.now stated_view stated_name
        (map (at_home None) lines.now ++ flat_map lines_at homes.now) table) }
{
    let mut table = IndexMap::new(alloc);
    add_platform_lines(alloc, marks, &mut table, lines)?;
    add_components(alloc, marks, &mut table, homes)?;
    Ok(table)
}

/// The platform's lines by their names, where these are marked.
#[tactic(auto, unfolding(pcd_ranks::specs::Listing::stated_in))]
pub fn lines_by_name<'a>(
    alloc: Global,
    marks: &[bool],
    platform: &'a PlatformDoc,
) -> Result<IndexMap<Vec<u8>, Vec<StatedLine<'a>>>, WantOfMemory>
    ensures { IfOk result
        (λ table. GroupedAt marks.now stated_view stated_name (stated_in platform.now) table) }
{
    lines_of(alloc, marks, &platform.pcds, &platform.components)
}

/// All of the platform's lines by their names.
pub fn all_lines<'a>(
    alloc: Global,
    platform: &'a PlatformDoc,
) -> Result<IndexMap<Vec<u8>, Vec<StatedLine<'a>>>, WantOfMemory>
    ensures { IfOk result
        (λ table. Grouped stated_view stated_name (stated_in platform.now) table) }
{
    lines_by_name(alloc, &[], platform)
}

/// The sets of two lists by their names, where these are marked.
pub(crate) fn sets_by_name<'a>(
    alloc: Global,
    marks: &[bool],
    words: &'a [PcdSet],
    sets: &'a PcdLines<PcdSet>,
) -> Result<IndexMap<Vec<u8>, Vec<&'a PcdSet>>, WantOfMemory>
    ensures { IfOk result
        (λ table. GroupedAt marks.now (λ s. s.now) set_name (words.now ++ sets.now) table) }
{
    let mut table = IndexMap::new(alloc);
    add_sets(alloc, marks, &mut table, words)?;
    add_flash_sets(alloc, marks, &mut table, sets)?;
    Ok(table)
}

/// All of the sets of two lists by their names.
pub fn all_sets<'a>(
    alloc: Global,
    words: &'a [PcdSet],
    sets: &'a PcdLines<PcdSet>,
) -> Result<IndexMap<Vec<u8>, Vec<&'a PcdSet>>, WantOfMemory>
    ensures { IfOk result (λ table. Grouped (λ s. s.now) set_name (words.now ++ sets.now) table) }
{
    sets_by_name(alloc, &[], words, sets)
}

/// Rows by their names, where these are marked.
pub(crate) fn rows_by_name<'a>(
    alloc: Global,
    marks: &[bool],
    rows: &'a PcdLines<PcdRow>,
) -> Result<IndexMap<Vec<u8>, Vec<&'a PcdRow>>, WantOfMemory>
    ensures { IfOk result (λ table. GroupedAt marks.now (λ r. r.now) row_name rows.now table) }
{
    let mut table = IndexMap::new(alloc);
    add_values(alloc, marks, &mut table, rows)?;
    Ok(table)
}
