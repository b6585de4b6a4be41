//! Uses by the names of their PCDs, with the lines that declare these.
ghost use Rattle.std.specs.Prelude.{◌≡◌, ◌++◌, ◌∷◌, [], true, List, map, IfOk, OnOk};
ghost use Rattle.std.specs.List.{flat_map};
ghost use Rattle.pcd_resolve.specs.Groups.{Grouped};
ghost use Rattle.pcd_ranks.specs.Listing.{Use, uses_in, uses_of_module};
ghost use Rattle.pcd_resolve.specs.NameFilter.{is_kept};
ghost use Rattle.pcd_resolve.specs.Tables.{AllKept, IsTabled, use_name};
ghost use Rattle.pcd_ranks.specs.Views.{at_view, use_view};

use crate::groups::add;
use crate::name_filter::marks_of;
use crate::packages::{ModuleTables, declared_for, declared_in, tables_of};
use crate::uses::uses_of_module;
use build_base::WantOfMemory;
use doc_types::parts::ModuleParts;
use indexmap::IndexMap;
use pcd_ranks::listing::{UseAt, UseLine};
use std::alloc::Global;

#[tactic(auto, unfolding(pcd_ranks::specs::Listing::use_of))]
fn use_of<'a>(
    alloc: Global,
    tables: &ModuleTables<'a>,
    at: &UseAt<'a>,
    name: &Vec<u8>,
) -> Result<UseLine<'a>, WantOfMemory>
    requires tabled { IsTabled tables.now }
    requires name { name.now.items ≡ use_name (at_view tables.now.parts.now at.now) }
    requires kept { is_kept tables.now.marks.items name.now.items ≡ true }
    ensures { IfOk result (λ used. use_view used ≡ at_view tables.now.parts.now at.now) }
{
    let own = declared_for(alloc, tables, at.inf, name)?;
    let all = declared_in(alloc, tables, name)?;
    Ok(UseLine {
        user: &tables.parts.module,
        line: at.line,
        own,
        all,
    })
}

#[tactic(auto, unfolding(pcd_ranks::specs::Listing::use_of))]
fn name_of(
    alloc: Global,
    tables: &ModuleTables<'_>,
    at: &UseAt<'_>,
) -> Result<Vec<u8>, WantOfMemory>
    ensures { IfOk result (λ v. v.items ≡ use_name (at_view tables.now.parts.now at.now)) }
{
    Ok(at.line.pcd.full_name(alloc)?)
}

fn add_use<'a>(
    alloc: Global,
    table: &mut IndexMap<Vec<u8>, Vec<UseLine<'a>>>,
    tables: &ModuleTables<'a>,
    at: &UseAt<'a>,
) -> Result<(), WantOfMemory>
    requires tabled { IsTabled tables.now }
    requires kept { is_kept tables.now.marks.items (use_name (at_view tables.now.parts.now at.now))
        ≡ true }
    ensures { (xs : List Use) → Grouped use_view use_name xs table.old
        → OnOk result (Grouped use_view use_name (xs ++ at_view tables.now.parts.now at.now ∷ [])
        table.new) }
{
    let name = name_of(alloc, tables, at)?;
    let used = use_of(alloc, tables, at, &name)?;
    add(alloc, table, name, used)?;
    Ok(())
}

fn add_uses<'a>(
    alloc: Global,
    table: &mut IndexMap<Vec<u8>, Vec<UseLine<'a>>>,
    tables: &ModuleTables<'a>,
    uses: &[UseAt<'a>],
) -> Result<(), WantOfMemory>
    requires tabled { IsTabled tables.now }
    requires kept { AllKept tables.now.marks.items
        (map use_name (map (at_view tables.now.parts.now) uses.now)) }
    ensures { (xs : List Use) → Grouped use_view use_name xs table.old
        → OnOk result (Grouped use_view use_name (xs ++ map (at_view tables.now.parts.now) uses.now)
        table.new) }
{
    for at in uses {
        add_use(alloc, table, tables, at)?;
    }
    Ok(())
}

fn add_module<'a>(
    alloc: Global,
    table: &mut IndexMap<Vec<u8>, Vec<UseLine<'a>>>,
    tables: &ModuleTables<'a>,
) -> Result<(), WantOfMemory>
    requires tabled { IsTabled tables.now }
    requires kept { AllKept tables.now.marks.items
        (map use_name (uses_of_module tables.now.parts.now)) }
    ensures { (xs : List Use) → Grouped use_view use_name xs table.old
        → OnOk result (Grouped use_view use_name (xs ++ uses_of_module tables.now.parts.now)
        table.new) }
{
    let uses = uses_of_module(alloc, tables.parts)?;
    add_uses(alloc, table, tables, uses.as_slice())?;
    Ok(())
}

// The uses by one module more, by tables that hold what it uses.
fn add_parts<'a>(
    alloc: Global,
    table: &mut IndexMap<Vec<u8>, Vec<UseLine<'a>>>,
    parts: &'a ModuleParts,
) -> Result<(), WantOfMemory>
    ensures { (xs : List Use) → Grouped use_view use_name xs table.old
        → OnOk result (Grouped use_view use_name (xs ++ uses_of_module parts.now) table.new) }
{
    let marks = marks_of(alloc, parts, &[])?;
    let tables = tables_of(alloc, parts, marks)?;
    add_module(alloc, table, &tables)?;
    Ok(())
}

fn add_modules<'a>(
    alloc: Global,
    table: &mut IndexMap<Vec<u8>, Vec<UseLine<'a>>>,
    modules: &'a [ModuleParts],
) -> Result<(), WantOfMemory>
    ensures { (xs : List Use) → Grouped use_view use_name xs table.old
        → OnOk result (Grouped use_view use_name (xs ++ flat_map uses_of_module modules.now)
        table.new) }
{
    for parts in modules {
        add_parts(alloc, table, parts)?;
    }
    Ok(())
}

/// The uses by a module by their names.
pub(crate) fn uses_by_name<'a>(
    alloc: Global,
    tables: &ModuleTables<'a>,
) -> Result<IndexMap<Vec<u8>, Vec<UseLine<'a>>>, WantOfMemory>
    requires tabled { IsTabled tables.now }
    requires kept { AllKept tables.now.marks.items
        (map use_name (uses_of_module tables.now.parts.now)) }
    ensures { IfOk result
        (λ table. Grouped use_view use_name (uses_of_module tables.now.parts.now) table) }
{
    let mut table = IndexMap::new(alloc);
    add_module(alloc, &mut table, tables)?;
    Ok(table)
}

/// The uses by modules by their names. The tables of a module are let go before those of the next
/// one are made.
pub(crate) fn all_uses_by_name<'a>(
    alloc: Global,
    modules: &'a [ModuleParts],
) -> Result<IndexMap<Vec<u8>, Vec<UseLine<'a>>>, WantOfMemory>
    ensures { IfOk result (λ table. Grouped use_view use_name (uses_in modules.now) table) }
{
    let mut table = IndexMap::new(alloc);
    add_modules(alloc, &mut table, modules)?;
    Ok(table)
}
