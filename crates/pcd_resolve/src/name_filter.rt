//! The names of which a table has the lines. A table of all lines of a package, made anew for each
//! module, would cost far more than the lines that the module asks for: so the names that are asked
//! for are marked, and a line without a mark is passed by.
ghost use Rattle.std.specs.Prelude.{◌≡◌, false, map, replicate, slice_get, OnOk, IfOk};
ghost use Rattle.pcd_ranks.specs.Listing.{uses_of_module};
ghost use Rattle.pcd_resolve.specs.NameFilter.{is_kept, mark_of, no_marks, with_mark, with_marks};
ghost use Rattle.doc_types.specs.Pcds.{full_name};
ghost use Rattle.pcd_resolve.specs.Tables.{use_name, AllKept};
ghost use Rattle.pcd_ranks.specs.Views.{at_view};

use crate::uses::uses_of_module;
use build_base::WantOfMemory;
use doc_types::name_places::{NAME_PLACES, place_of, place_of_pcd};
use doc_types::parts::ModuleParts;
use doc_types::pcd::PcdName;
use pcd_ranks::listing::UseAt;
use std::alloc::Global;

fn unmarked(alloc: Global, count: usize) -> Result<Vec<bool>, WantOfMemory>
    ensures { IfOk result (λ marks. marks.items ≡ replicate count false) }
{
    let mut marks = Vec::new(alloc);
    marks.resize(count, false)?;
    Ok(marks)
}

/// Marks where none is set.
#[tactic(auto, unfolding(crate::specs::NameFilter::no_marks))]
pub fn no_marks(alloc: Global) -> Result<Vec<bool>, WantOfMemory>
    ensures { IfOk result (λ marks. marks.items ≡ no_marks) }
{
    unmarked(alloc, NAME_PLACES)
}

/// Marks a name.
pub fn mark(marks: &mut Vec<bool>, name: &[u8])
    ensures { marks.new.items ≡ with_mark marks.old.items name.now }
{
    let place = place_of(name);
    if place < marks.len() {
        marks[place] = true;
    }
}

fn is_marked(marks: &[bool], place: usize) -> bool
    ensures { result ≡ mark_of (slice_get marks.now place) }
{
    match marks.get(place) {
        Some(mark) => *mark,
        None => true,
    }
}

/// Whether a line of a name is wanted.
pub fn is_kept(marks: &[bool], name: &[u8]) -> bool
    ensures { result ≡ is_kept marks.now name.now }
{
    is_marked(marks, place_of(name))
}

/// Whether lines of a PCD are wanted. Its name is not put together for that.
pub(crate) fn is_pcd_kept(marks: &[bool], pcd: &PcdName) -> bool
    ensures { result ≡ is_kept marks.now (full_name pcd.now) }
{
    is_marked(marks, place_of_pcd(pcd))
}

/// Marks the names of a list.
pub(crate) fn mark_names(marks: &mut Vec<bool>, names: &[Vec<u8>])
    ensures { marks.new.items ≡ with_marks marks.old.items (map (λ n. n.items) names.now) }
{
    let mut left = names;
    while let [name, rest @ ..] = left {
        mark(marks, name.as_slice());
        left = rest;
    }
}

#[tactic(auto, unfolding(pcd_ranks::specs::Listing::use_of))]
fn mark_use(
    alloc: Global,
    marks: &mut Vec<bool>,
    parts: &ModuleParts,
    at: &UseAt<'_>,
) -> Result<(), WantOfMemory>
    ensures { OnOk result (marks.new.items
        ≡ with_mark marks.old.items (use_name (at_view parts.now at.now))) }
{
    let name = at.line.pcd.full_name(alloc)?;
    mark(marks, name.as_slice());
    Ok(())
}

fn mark_each(
    alloc: Global,
    marks: &mut Vec<bool>,
    parts: &ModuleParts,
    uses: &[UseAt<'_>],
) -> Result<(), WantOfMemory>
    ensures { OnOk result (marks.new.items
        ≡ with_marks marks.old.items (map use_name (map (at_view parts.now) uses.now))) }
{
    let mut left = uses;
    while let [at, rest @ ..] = left {
        mark_use(alloc, marks, parts, at)?;
        left = rest;
    }
    Ok(())
}

fn mark_uses(alloc: Global, marks: &mut Vec<bool>, parts: &ModuleParts) -> Result<(), WantOfMemory>
    ensures { OnOk result (marks.new.items
        ≡ with_marks marks.old.items (map use_name (uses_of_module parts.now))) }
{
    let uses = uses_of_module(alloc, parts)?;
    mark_each(alloc, marks, parts, uses.as_slice())?;
    Ok(())
}

/// Marks with some names and those of a module's uses.
pub fn marks_of(
    alloc: Global,
    parts: &ModuleParts,
    names: &[Vec<u8>],
) -> Result<Vec<bool>, WantOfMemory>
    ensures names { IfOk result (λ marks. AllKept marks.items (map (λ n. n.items) names.now)) }
    ensures uses { IfOk result
        (λ marks. AllKept marks.items (map use_name (uses_of_module parts.now))) }
{
    let mut marks = no_marks(alloc)?;
    mark_names(&mut marks, names);
    mark_uses(alloc, &mut marks, parts)?;
    Ok(marks)
}
