//! The packages of a module, and the lines by which they declare the names of GUIDs, where these
//! are marked.
ghost use Rattle.std.specs.Prelude.{◌≡◌, ◌++◌, ◌∷◌, [], List, map, IfOk, OnOk};
ghost use Rattle.std.specs.List.{flat_map};
ghost use Rattle.build_texts.specs.Named.{Declared, declared_name, first_guid, guid_from, is_from, line_from, package_lines};
ghost use Rattle.build_texts.specs.Views.{declared_view};
ghost use Rattle.pcd_resolve.specs.Groups.{GroupedAt};

use build_base::{Guid, Path, WantOfMemory};
use doc_types::arch::{Arch, covers};
use doc_types::depex::NamedGuid;
use doc_types::parts::Package;
use indexmap::IndexMap;
use pcd_resolve::groups::add;
use pcd_resolve::name_filter::is_kept;
use std::alloc::Global;

/// A line of the package of a path.
#[derive(Clone, Copy)]
pub(crate) struct DeclaredGuid<'a> {
    pub from: &'a Path,
    pub line: &'a NamedGuid,
}

fn add_line<'a>(
    alloc: Global,
    marks: &[bool],
    table: &mut IndexMap<Vec<u8>, Vec<DeclaredGuid<'a>>>,
    from: &'a Path,
    line: &'a NamedGuid,
) -> Result<(), WantOfMemory>
    ensures { (xs : List Declared) → GroupedAt marks.now declared_view declared_name xs table.old
        → OnOk result (GroupedAt marks.now declared_view declared_name
        (xs ++ line_from from.now line.now ∷ []) table.new) }
{
    if !is_kept(marks, line.name.bytes()) {
        return Ok(());
    }
    let name = Vec::from_slice(alloc, line.name.bytes())?;
    add(alloc, table, name, DeclaredGuid { from, line })?;
    Ok(())
}

fn add_lines<'a>(
    alloc: Global,
    marks: &[bool],
    table: &mut IndexMap<Vec<u8>, Vec<DeclaredGuid<'a>>>,
    from: &'a Path,
    lines: &'a [NamedGuid],
) -> Result<(), WantOfMemory>
    ensures { (xs : List Declared) → GroupedAt marks.now declared_view declared_name xs table.old
        → OnOk result (GroupedAt marks.now declared_view declared_name
        (xs ++ map (line_from from.now) lines.now) table.new) }
{
    for line in lines {
        add_line(alloc, marks, table, from, line)?;
    }
    Ok(())
}

fn add_package<'a>(
    alloc: Global,
    marks: &[bool],
    table: &mut IndexMap<Vec<u8>, Vec<DeclaredGuid<'a>>>,
    held: &'a Package,
) -> Result<(), WantOfMemory>
    ensures { (xs : List Declared) → GroupedAt marks.now declared_view declared_name xs table.old
        → OnOk result (GroupedAt marks.now declared_view declared_name
        (xs ++ map (line_from held.now.path) held.now.doc.guids) table.new) }
{
    add_lines(
        alloc,
        marks,
        table,
        &held.path,
        held.doc.value().guids.items(),
    )?;
    Ok(())
}

fn add_packages<'a>(
    alloc: Global,
    marks: &[bool],
    table: &mut IndexMap<Vec<u8>, Vec<DeclaredGuid<'a>>>,
    decs: &'a [Package],
) -> Result<(), WantOfMemory>
    ensures { (xs : List Declared) → GroupedAt marks.now declared_view declared_name xs table.old
        → OnOk result (GroupedAt marks.now declared_view declared_name
        (xs ++ flat_map (λ held. map (line_from held.path) held.doc.guids) decs.now) table.new) }
{
    for held in decs {
        add_package(alloc, marks, table, held)?;
    }
    Ok(())
}

/// The lines of packages by the names that they declare, where these are marked.
#[tactic(auto, unfolding(crate::specs::Named::package_lines))]
pub fn lines_by_name<'a>(
    alloc: Global,
    marks: &[bool],
    decs: &'a [Package],
) -> Result<IndexMap<Vec<u8>, Vec<DeclaredGuid<'a>>>, WantOfMemory>
    ensures { IfOk result
        (λ table. GroupedAt marks.now declared_view declared_name (package_lines decs.now) table) }
{
    let mut table = IndexMap::new(alloc);
    add_packages(alloc, marks, &mut table, decs)?;
    Ok(table)
}

#[tactic(auto, unfolding(crate::specs::Named::is_from))]
fn is_from(arch: Arch, path: &[u8], declared: &DeclaredGuid<'_>) -> bool
    ensures { result ≡ is_from arch path.now (declared_view declared.now) }
{
    if declared.from.bytes() != path {
        return false;
    }
    covers(declared.line.arch, arch)
}

fn guid_from(arch: Arch, lines: &[DeclaredGuid<'_>], path: &[u8]) -> Option<Guid>
    ensures { result ≡ guid_from arch (map declared_view lines.now) path.now }
{
    for declared in lines {
        if is_from(arch, path, declared) {
            return Some(declared.line.guid);
        }
    }
    None
}

/// The GUID of the first of some lines, by packages in order and then by lines.
#[tactic(auto, unfolding(crate::specs::Named::first_guid))]
pub(crate) fn first_guid(arch: Arch, lines: &[DeclaredGuid<'_>], paths: &[&[u8]]) -> Option<Guid>
    ensures { result ≡ first_guid arch (map declared_view lines.now) (map (λ p. p.now) paths.now) }
{
    for path in paths {
        if let Some(guid) = guid_from(arch, lines, *path) {
            return Some(guid);
        }
    }
    None
}
