//! The packages of a module, and the lines by which they declare a PCD.
ghost use Rattle.std.specs.Prelude.{◌≡◌, ◌++◌, ◌∷◌, [], true, map, filter, fold, IfOk, OnOk};
ghost use Rattle.std.specs.List.{flat_map, list_any};
ghost use Rattle.std.specs.Str.{bytes_eq};
ghost use Rattle.pcd_ranks.specs.Listing.{by_packages, declared_in, declared_for, is_from, of_package, packages_in, packages_of, put_once};
ghost use Rattle.pcd_resolve.specs.NameFilter.{is_kept};
ghost use Rattle.pcd_ranks.specs.Names.{covers};
ghost use Rattle.pcd_resolve.specs.Tables.{IsTabled};
ghost use Rattle.pcd_ranks.specs.Views.{declared_view};

use crate::groups::group;
use crate::tables::declared_by_name;
use build_base::WantOfMemory;
use doc_types::arch::{Arch, covers};
use doc_types::module::{InfDoc, Named};
use doc_types::package::DecPcd;
use doc_types::parts::ModuleParts;
use indexmap::IndexMap;
use pcd_ranks::listing::DeclaredLine;
use shared_value::Shared;
use std::alloc::Global;

/// A module, the packages that its INFs name for its architecture, each once, and the lines of its
/// packages by the names of their PCDs, where these are marked.
pub struct ModuleTables<'a> {
    pub parts: &'a ModuleParts,
    pub packages: Vec<&'a [u8]>,
    pub marks: Vec<bool>,
    pub declared: IndexMap<Vec<u8>, Vec<DeclaredLine<'a>>>,
}

// Written out, so that a caller that lets tables go has one call here.
impl Drop for ModuleTables<'_> {
    fn drop(self) {
        let ModuleTables {
            parts: _parts,
            packages: _packages,
            marks: _marks,
            declared: _declared,
        } = self;
    }
}

fn put_named<'a>(
    arch: Arch,
    named: &'a Named,
    paths: &mut Vec<&'a [u8]>,
) -> Result<(), WantOfMemory>
    ensures { OnOk result (map (λ p. p.now) paths.new.items
        ≡ map (λ p. p.now) paths.old.items ++ map (λ n. n.name)
        (filter (λ n. covers n.arch arch) (named.now ∷ []))) }
{
    if covers(named.arch, arch) {
        if paths.push(named.name.bytes()).is_err() {
            return Err(WantOfMemory);
        }
    }
    Ok(())
}

fn put_names<'a>(
    arch: Arch,
    names: &'a [Named],
    paths: &mut Vec<&'a [u8]>,
) -> Result<(), WantOfMemory>
    ensures { OnOk result (map (λ p. p.now) paths.new.items
        ≡ map (λ p. p.now) paths.old.items ++ map (λ n. n.name)
        (filter (λ n. covers n.arch arch) names.now)) }
{
    for named in names {
        put_named(arch, named, paths)?;
    }
    Ok(())
}

#[tactic(auto, unfolding(pcd_ranks::specs::Listing::packages_of))]
fn put_packages<'a>(
    arch: Arch,
    inf: &'a InfDoc,
    paths: &mut Vec<&'a [u8]>,
) -> Result<(), WantOfMemory>
    ensures { OnOk result (map (λ p. p.now) paths.new.items
        ≡ map (λ p. p.now) paths.old.items ++ packages_of arch inf.now) }
{
    put_names(arch, inf.packages.items(), paths)?;
    Ok(())
}

/// The packages that an INF names for an architecture.
pub fn packages_of<'a>(
    alloc: Global,
    arch: Arch,
    inf: &'a InfDoc,
) -> Result<Vec<&'a [u8]>, WantOfMemory>
    ensures { IfOk result (λ v. map (λ p. p.now) v.items ≡ packages_of arch inf.now) }
{
    let mut paths = Vec::new(alloc);
    put_packages(arch, inf, &mut paths)?;
    Ok(paths)
}

// The packages that some INFs name, as often as they do.
fn named_in<'a>(
    alloc: Global,
    arch: Arch,
    infs: &'a [Shared<InfDoc>],
) -> Result<Vec<&'a [u8]>, WantOfMemory>
    ensures { IfOk result (λ v. map (λ p. p.now) v.items ≡ flat_map (packages_of arch) infs.now) }
{
    let mut paths = Vec::new(alloc);
    for inf in infs {
        put_packages(arch, inf.value(), &mut paths)?;
    }
    Ok(paths)
}

fn has_path(paths: &[&[u8]], path: &[u8]) -> bool
    ensures { result ≡ list_any (λ other. bytes_eq other path.now) (map (λ p. p.now) paths.now) }
{
    for other in paths {
        if *other == path {
            return true;
        }
    }
    false
}

fn put_once<'a>(paths: &mut Vec<&'a [u8]>, path: &'a [u8]) -> Result<(), WantOfMemory>
    ensures { OnOk result (map (λ p. p.now) paths.new.items
        ≡ put_once (map (λ p. p.now) paths.old.items) path.now) }
{
    if has_path(paths.as_slice(), path) {
        return Ok(());
    }
    if paths.push(path).is_err() {
        return Err(WantOfMemory);
    }
    Ok(())
}

fn put_each_once<'a>(paths: &mut Vec<&'a [u8]>, more: &[&'a [u8]]) -> Result<(), WantOfMemory>
    ensures { OnOk result (map (λ p. p.now) paths.new.items
        ≡ fold put_once (map (λ p. p.now) paths.old.items) (map (λ p. p.now) more.now)) }
{
    for path in more {
        put_once(paths, *path)?;
    }
    Ok(())
}

/// The packages that some INFs name for an architecture, each at its first place.
#[tactic(auto, unfolding(pcd_ranks::specs::Listing::packages_in))]
pub fn packages_in<'a>(
    alloc: Global,
    arch: Arch,
    infs: &'a [Shared<InfDoc>],
) -> Result<Vec<&'a [u8]>, WantOfMemory>
    ensures { IfOk result (λ v. map (λ p. p.now) v.items ≡ packages_in arch infs.now) }
{
    let named = named_in(alloc, arch, infs)?;
    let mut paths = Vec::new(alloc);
    put_each_once(&mut paths, named.as_slice())?;
    Ok(paths)
}

#[tactic(auto, unfolding(pcd_ranks::specs::Listing::is_from))]
fn is_from(arch: Arch, path: &[u8], declared: &DeclaredLine<'_>) -> bool
    ensures { result ≡ is_from arch path.now (declared_view declared.now) }
{
    if declared.from.bytes() != path {
        return false;
    }
    covers(declared.line.arch, arch)
}

fn put_package<'a>(
    arch: Arch,
    lines: &[DeclaredLine<'a>],
    path: &[u8],
    found: &mut Vec<&'a DecPcd>,
) -> Result<(), WantOfMemory>
    ensures { OnOk result (map (λ l. l.now) found.new.items
        ≡ map (λ l. l.now) found.old.items ++ of_package arch (map declared_view lines.now)
        path.now) }
{
    for declared in lines {
        if is_from(arch, path, declared) {
            if found.push(declared.line).is_err() {
                return Err(WantOfMemory);
            }
        }
    }
    Ok(())
}

// Of some lines those of some packages, package by package.
#[tactic(auto, unfolding(pcd_ranks::specs::Listing::by_packages))]
fn by_packages<'a>(
    alloc: Global,
    arch: Arch,
    lines: &[DeclaredLine<'a>],
    paths: &[&[u8]],
) -> Result<Vec<&'a DecPcd>, WantOfMemory>
    ensures { IfOk result (λ v. map (λ l. l.now) v.items
        ≡ by_packages arch (map declared_view lines.now) (map (λ p. p.now) paths.now)) }
{
    let mut found = Vec::new(alloc);
    for path in paths {
        put_package(arch, lines, *path, &mut found)?;
    }
    Ok(found)
}

/// The tables of a module, with the lines of marked names.
pub fn tables_of<'a>(
    alloc: Global,
    parts: &'a ModuleParts,
    marks: Vec<bool>,
) -> Result<ModuleTables<'a>, WantOfMemory>
    ensures parts { IfOk result (λ t. t.parts.now ≡ parts.now) }
    ensures marks { IfOk result (λ t. t.marks.items ≡ marks.items) }
    ensures tabled { IfOk result (λ t. IsTabled t) }
{
    let packages = packages_in(alloc, parts.module.arch, parts.infs.items())?;
    let declared = declared_by_name(alloc, marks.as_slice(), parts.decs.items())?;
    Ok(ModuleTables {
        parts,
        packages,
        marks,
        declared,
    })
}

/// The lines by which the packages of a module's INFs declare a PCD.
#[tactic(auto, unfolding(pcd_ranks::specs::Listing::declared_in))]
pub fn declared_in<'a>(
    alloc: Global,
    tables: &ModuleTables<'a>,
    pcd: &Vec<u8>,
) -> Result<Vec<&'a DecPcd>, WantOfMemory>
    requires tabled { IsTabled tables.now }
    requires kept { is_kept tables.now.marks.items pcd.now.items ≡ true }
    ensures { IfOk result (λ v. map (λ l. l.now) v.items
        ≡ declared_in tables.now.parts.now pcd.now.items) }
{
    by_packages(
        alloc,
        tables.parts.module.arch,
        group(&tables.declared, pcd),
        tables.packages.as_slice(),
    )
}

/// The lines by which the packages of one INF do.
#[tactic(auto, unfolding(pcd_ranks::specs::Listing::declared_for))]
pub fn declared_for<'a>(
    alloc: Global,
    tables: &ModuleTables<'a>,
    inf: &InfDoc,
    pcd: &Vec<u8>,
) -> Result<Vec<&'a DecPcd>, WantOfMemory>
    requires tabled { IsTabled tables.now }
    requires kept { is_kept tables.now.marks.items pcd.now.items ≡ true }
    ensures { IfOk result (λ v. map (λ l. l.now) v.items
        ≡ declared_for tables.now.parts.now inf.now pcd.now.items) }
{
    let own = packages_of(alloc, tables.parts.module.arch, inf)?;
    by_packages(
        alloc,
        tables.parts.module.arch,
        group(&tables.declared, pcd),
        own.as_slice(),
    )
}
