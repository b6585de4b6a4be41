//! The GUIDs that the names of a module's INF files stand for.
ghost use Rattle.std.specs.Prelude.{◌≡◌, ◌++◌, true, List, OnOk, IfOk, fold, map};
ghost use Rattle.std.specs.List.{All};
ghost use Rattle.std.specs.BTreeMap.{insert_entry};
ghost use Rattle.std.specs.Cmp.Lexicographic.{slice_cmp};
ghost use Rattle.std.specs.Ordering.{nat_cmp};
ghost use Rattle.build_base.specs.Answer.{AnswersAs};
ghost use Rattle.build_texts.specs.Named.{Declared, all_of, by_name, declared_name, found_guid, inf_guids, line_guids, module_guids, with_guids};
ghost use Rattle.pcd_resolve.specs.Groups.{by_bytes, GroupedAt};
ghost use Rattle.pcd_resolve.specs.NameFilter.{is_kept, with_marks};
ghost use Rattle.build_texts.specs.Views.{declared_view, entry_view, given, seen};

use crate::packages::{DeclaredGuid, first_guid, lines_by_name};
use build_base::fault_codes::AUTOGEN_GUID_UNKNOWN;
use build_base::{Guid, Refusal, WantOfMemory, refuse};
use doc_types::arch::{Arch, covers};
use doc_types::module::{InfDoc, Named};
use doc_types::parts::ModuleParts;
use indexmap::IndexMap;
use pcd_resolve::groups::group;
use pcd_resolve::name_filter::{mark, no_marks};
use pcd_resolve::packages::packages_of;
use shared_value::Shared;
use std::alloc::Global;
use std::collections::BTreeMap;

/// A name and its GUID.
#[derive(Clone, Copy)]
pub(crate) struct FoundGuid<'a> {
    pub name: &'a [u8],
    pub guid: Guid,
}

fn found_guid<'a>(
    alloc: Global,
    named: &'a Named,
    guid: Option<Guid>,
) -> Result<Option<FoundGuid<'a>>, Refusal>
    ensures { AnswersAs given result (found_guid named.now guid) }
{
    match guid {
        None => Err(refuse(alloc, AUTOGEN_GUID_UNKNOWN, &named.at, named.name.bytes())),
        Some(guid) => Ok(Some(FoundGuid {
            name: named.name.bytes(),
            guid,
        })),
    }
}

fn key_of(alloc: Global, named: &Named) -> Result<Vec<u8>, WantOfMemory>
    ensures { IfOk result (λ v. v.items ≡ named.now.name) }
{
    Ok(Vec::from_slice(alloc, named.name.bytes())?)
}

#[tactic(auto, unfolding(crate::specs::Named::line_guids))]
fn line_guid<'a>(
    alloc: Global,
    arch: Arch,
    marks: &[bool],
    table: &IndexMap<Vec<u8>, Vec<DeclaredGuid<'_>>>,
    paths: &[&[u8]],
    named: &'a Named,
) -> Result<Option<FoundGuid<'a>>, Refusal>
    requires kept { is_kept marks.now named.now.name ≡ true }
    ensures { (lines : List Declared)
        → GroupedAt marks.now declared_view declared_name lines table.now
        → AnswersAs given result (line_guids arch lines (map (λ p. p.now) paths.now) named.now) }
{
    if !covers(named.arch, arch) {
        return Ok(None);
    }
    let name = key_of(alloc, named)?;
    let guid = first_guid(arch, group(table, &name), paths);
    found_guid(alloc, named, guid)
}

fn put_found<'a>(
    guids: &mut Vec<FoundGuid<'a>>,
    found: Option<FoundGuid<'a>>,
) -> Result<(), WantOfMemory>
    ensures { OnOk result (seen guids.new.items ≡ seen guids.old.items ++ given found.entry) }
{
    if let Some(found) = found {
        if guids.push(found).is_err() {
            return Err(WantOfMemory);
        }
    }
    Ok(())
}

fn lines_guids<'a>(
    alloc: Global,
    arch: Arch,
    marks: &[bool],
    table: &IndexMap<Vec<u8>, Vec<DeclaredGuid<'_>>>,
    paths: &[&[u8]],
    names: &'a [Named],
) -> Result<Vec<FoundGuid<'a>>, Refusal>
    requires kept { All (λ n. is_kept marks.now n.name ≡ true) names.now }
    ensures { (lines : List Declared)
        → GroupedAt marks.now declared_view declared_name lines table.now
        → AnswersAs (λ v. seen v.items) result
        (all_of (map (line_guids arch lines (map (λ p. p.now) paths.now)) names.now)) }
{
    let mut guids = Vec::new(alloc);
    for named in names {
        let found = line_guid(alloc, arch, marks, table, paths, named)?;
        put_found(&mut guids, found)?;
    }
    Ok(guids)
}

#[tactic(auto, unfolding(crate::specs::Named::inf_guids))]
fn inf_guids<'a>(
    alloc: Global,
    arch: Arch,
    marks: &[bool],
    table: &IndexMap<Vec<u8>, Vec<DeclaredGuid<'_>>>,
    inf: &'a InfDoc,
) -> Result<Vec<FoundGuid<'a>>, Refusal>
    requires kept { All (λ n. is_kept marks.now n.name ≡ true) inf.now.guids }
    ensures { (lines : List Declared)
        → GroupedAt marks.now declared_view declared_name lines table.now
        → AnswersAs (λ v. seen v.items) result (inf_guids arch lines inf.now) }
{
    let paths = packages_of(alloc, arch, inf)?;
    lines_guids(
        alloc,
        arch,
        marks,
        table,
        paths.as_slice(),
        inf.guids.items(),
    )
}

fn append<'a>(guids: &mut Vec<FoundGuid<'a>>, more: &[FoundGuid<'a>]) -> Result<(), WantOfMemory>
    ensures { OnOk result (seen guids.new.items ≡ seen guids.old.items ++ seen more.now) }
{
    let mut left = more;
    while let [found, rest @ ..] = left {
        if guids.push(*found).is_err() {
            return Err(WantOfMemory);
        }
        left = rest;
    }
    Ok(())
}

fn infs_guids<'a>(
    alloc: Global,
    arch: Arch,
    marks: &[bool],
    table: &IndexMap<Vec<u8>, Vec<DeclaredGuid<'_>>>,
    infs: &'a [Shared<InfDoc>],
) -> Result<Vec<FoundGuid<'a>>, Refusal>
    requires kept { All (λ inf. All (λ n. is_kept marks.now n.name ≡ true) inf.guids) infs.now }
    ensures { (lines : List Declared)
        → GroupedAt marks.now declared_view declared_name lines table.now
        → AnswersAs (λ v. seen v.items) result (all_of (map (inf_guids arch lines) infs.now)) }
{
    let mut guids = Vec::new(alloc);
    for inf in infs {
        let more = inf_guids(alloc, arch, marks, table, inf.value())?;
        append(&mut guids, more.as_slice())?;
    }
    Ok(guids)
}

fn mark_guids(marks: &mut Vec<bool>, names: &[Named])
    ensures { marks.new.items ≡ with_marks marks.old.items (map (λ n. n.name) names.now) }
{
    let mut left = names;
    while let [named, rest @ ..] = left {
        mark(marks, named.name.bytes());
        left = rest;
    }
}

fn mark_infs(marks: &mut Vec<bool>, infs: &[Shared<InfDoc>])
    ensures { marks.new.items ≡ fold with_guids marks.old.items infs.now }
{
    let mut left = infs;
    while let [inf, rest @ ..] = left {
        mark_guids(marks, inf.value().guids.items());
        left = rest;
    }
}

// Marks with the names of all lines.
fn guid_marks(alloc: Global, infs: &[Shared<InfDoc>]) -> Result<Vec<bool>, WantOfMemory>
    ensures { IfOk result
        (λ marks. All (λ inf. All (λ n. is_kept marks.items n.name ≡ true) inf.guids) infs.now) }
{
    let mut marks = no_marks(alloc)?;
    mark_infs(&mut marks, infs);
    Ok(marks)
}

/// What the INF files of a module name, file by file and line by line, or the first fault.
#[tactic(auto, unfolding(crate::specs::Named::module_guids))]
pub(crate) fn module_guids<'a>(
    alloc: Global,
    parts: &'a ModuleParts,
) -> Result<Vec<FoundGuid<'a>>, Refusal>
    ensures { AnswersAs (λ v. seen v.items) result (module_guids parts.now) }
{
    let marks = guid_marks(alloc, parts.infs.items())?;
    let table = lines_by_name(alloc, marks.as_slice(), parts.decs.items())?;
    infs_guids(
        alloc,
        parts.module.arch,
        marks.as_slice(),
        &table,
        parts.infs.items(),
    )
}

fn insert(
    table: &mut BTreeMap<Vec<u8>, Guid>,
    name: Vec<u8>,
    guid: Guid,
) -> Result<(), WantOfMemory>
    ensures { OnOk result (table.new.entries ≡ insert_entry by_bytes table.old.entries name guid) }
{
    match table.insert(name, guid) {
        Ok(_) => Ok(()),
        Err(_) => Err(WantOfMemory),
    }
}

fn put_entry(
    alloc: Global,
    table: &mut BTreeMap<Vec<u8>, Guid>,
    name: &[u8],
    guid: Guid,
) -> Result<(), WantOfMemory>
    ensures { OnOk result (map entry_view table.new.entries
        ≡ insert_entry (slice_cmp nat_cmp) (map entry_view table.old.entries) name.now guid) }
{
    let name = Vec::from_slice(alloc, name)?;
    insert(table, name, guid)?;
    Ok(())
}

/// The names in ascending order, each with the GUID of the first of its lines: the lines go in from
/// the last one on, and each takes the place of one of its name.
#[tactic(auto, using(crate::proofs::EntryLemmas::by_name_step, crate::proofs::EntryLemmas::by_name_end))]
pub fn by_name(
    alloc: Global,
    guids: &[FoundGuid<'_>],
) -> Result<BTreeMap<Vec<u8>, Guid>, WantOfMemory>
    ensures { IfOk result (λ table. map entry_view table.entries ≡ by_name (seen guids.now)) }
{
    let mut table = BTreeMap::new(alloc);
    let mut i = guids.len();
    while i > 0 {
        i -= 1;
        put_entry(alloc, &mut table, guids[i].name, guids[i].guid)?;
    }
    Ok(table)
}
