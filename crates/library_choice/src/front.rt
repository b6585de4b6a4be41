//! How far the instances of a module are found that more known INF files don't move.
ghost use Rattle.std.specs.Prelude.{◌≡◌, ◌≤◌, ◌+◌, ◌∷◌, ◌++◌, ℕ, [], List, cond, length, drop, filter, nat_le, IfOk, OnOk};
ghost use Rattle.doc_types.specs.declared.module.InfDoc.{InfDoc as InfModel};
ghost use Rattle.library_choice.specs.Closure.{same_path, is_known, is_unknown, next, wanted_by};
ghost use Rattle.library_choice.specs.Found.{add};
ghost use Rattle.library_choice.specs.Fronts.{PassedKnown, IsFrontOf, LeadsClasses, LeadsNulls, AreFronts, FindsFor, BothEnd, is_apart};
ghost use Rattle.library_choice.specs.Search.{Prefix};

use crate::closure::{
    MOST_INSTANCES, first_found, is_unknown, nulls_found, pass, put_next, put_paths,
};
use crate::found::Found;
use crate::tables::Tables;
use build_base::{Path, Rows, Same, WantOfMemory};
use doc_types::module::InfDoc;
use std::alloc::Global;

/// What is found so far of a queue, which is passed up to a place.
#[derive(Drop)]
pub struct Front {
    pub found: Found,
    pub at: usize,
}

/// The queue that begins with the classes of a module, and that of the instances without a class.
/// Neither knows of the other, so each goes on as far as its own INF files are known.
#[derive(Drop)]
pub(crate) struct Fronts {
    pub classes: Front,
    pub nulls: Front,
}

/// The fronts of a module whose INF file this is, with nothing passed.
pub fn begin(alloc: Global, tables: &Tables<'_>, inf: &InfDoc) -> Result<Fronts, WantOfMemory>
    ensures { IfOk result (AreFronts tables.now inf.now) }
{
    let classes = first_found(alloc, tables, inf)?;
    let nulls = nulls_found(alloc, tables)?;
    Ok(Fronts {
        classes: Front {
            found: classes,
            at: 0,
        },
        nulls: Front {
            found: nulls,
            at: 0,
        },
    })
}

// Passes the queue from a place on up to the first instance whose INF file isn't known; the place
// that is come to.
fn pass_known(
    alloc: Global,
    tables: &Tables<'_>,
    found: &mut Found,
    from: usize,
) -> Result<usize, WantOfMemory>
    ensures { IfOk result
        (PassedKnown same_path (is_known tables.now.infs) (next tables.now) found.old from found.new) }
{
    let mut at = from;
    while at < found.len() {
        if found.len() > MOST_INSTANCES {
            return Ok(at);
        }
        if !put_next(alloc, tables, at, found)? {
            return Ok(at);
        }
        at += 1;
    }
    Ok(at)
}

// Passes a queue as far as more known INF files don't move it.
fn advance(alloc: Global, tables: &Tables<'_>, front: Front) -> Result<Front, WantOfMemory>
    ensures { (starts : List (List ℕ)) → IsFrontOf tables.now starts front
        → IfOk result (IsFrontOf tables.now starts) }
{
    let Front { found, at } = front;
    let mut found = found;
    let at = pass_known(alloc, tables, &mut found, at)?;
    Ok(Front { found, at })
}

fn advance_both(alloc: Global, tables: &Tables<'_>, fronts: Fronts) -> Result<Fronts, WantOfMemory>
    ensures { (inf : InfModel) → AreFronts tables.now inf fronts
        → IfOk result (AreFronts tables.now inf) }
{
    let Fronts { classes, nulls } = fronts;
    let classes = advance(alloc, tables, classes)?;
    let nulls = advance(alloc, tables, nulls)?;
    Ok(Fronts { classes, nulls })
}

// Passes all that is left of both queues. False where one of them has too many.
fn pass_both(
    alloc: Global,
    tables: &Tables<'_>,
    first: &mut Found,
    first_at: usize,
    second: &mut Found,
    second_at: usize,
) -> Result<bool, WantOfMemory>
    ensures ends { (inf : InfModel)
        → LeadsClasses tables.now inf (record { found = first.old; at = first_at })
        → LeadsNulls tables.now (record { found = second.old; at = second_at })
        → IfOk result (BothEnd tables.now inf first.new second.new) }
    ensures first { OnOk result (Prefix first.old first.new) }
    ensures second { OnOk result (Prefix second.old second.new) }
{
    if !pass(alloc, tables, first, first_at)? {
        return Ok(false);
    }
    let few = pass(alloc, tables, second, second_at)?;
    Ok(few)
}

#[tactic(auto, unfolding(crate::specs::Fronts::is_apart))]
fn is_apart(tables: &Tables<'_>, first: &Found, path: &Path) -> bool
    ensures { result ≡ is_apart tables.now first.now path.now }
{
    is_unknown(tables, path) && !first.has(path)
}

fn push_apart(
    alloc: Global,
    tables: &Tables<'_>,
    first: &Found,
    path: &Path,
    paths: &mut Rows<Path>,
) -> Result<(), WantOfMemory>
    ensures { OnOk result (paths.new ≡ paths.old
        ++ filter (is_apart tables.now first.now) (path.now ∷ [])) }
{
    if is_apart(tables, first, path) {
        paths.push(path.copy(alloc)?)?;
    }
    Ok(())
}

// Those of which no INF file is known, and that aren't among the first.
fn push_aparts(
    alloc: Global,
    tables: &Tables<'_>,
    first: &Found,
    found: &[Path],
    paths: &mut Rows<Path>,
) -> Result<(), WantOfMemory>
    ensures { OnOk result (paths.new ≡ paths.old
        ++ filter (is_apart tables.now first.now) found.now) }
{
    let mut left = found;
    while let [path, rest @ ..] = left {
        push_apart(alloc, tables, first, path, paths)?;
        left = rest;
    }
    Ok(())
}

// Those of both queues behind their fronts of which no INF file is known, each once.
fn unknown_behind(
    alloc: Global,
    tables: &Tables<'_>,
    first: &Found,
    first_at: usize,
    second: &Found,
    second_at: usize,
) -> Result<Rows<Path>, WantOfMemory>
    ensures { IfOk result (λ w. w
        ≡ filter (is_unknown tables.now.infs) (drop first_at first.now)
        ++ filter (is_apart tables.now first.now) (drop second_at second.now)) }
{
    let none = Found::new(alloc);
    let mut paths = Rows::new(alloc);
    push_aparts(alloc, tables, &none, first.behind(first_at), &mut paths)?;
    push_aparts(alloc, tables, first, second.behind(second_at), &mut paths)?;
    Ok(paths)
}

// These paths, which are the unknown ones of both queues, or none where both have more than 1,024
// together. They are put together only where the number of the known ones leaves that open.
fn unless_many(
    alloc: Global,
    tables: &Tables<'_>,
    unknown: Rows<Path>,
    first: &mut Found,
    second: &Found,
) -> Result<Rows<Path>, WantOfMemory>
    ensures few { length (add same_path first.old second.now) ≤ length unknown + length tables.now.infs
        → IfOk result (λ w. w ≡ cond (nat_le (length (add same_path first.old second.now)) 1024) unknown []) }
    ensures grows { OnOk result (Prefix first.old first.new) }
{
    let (known, count) = (tables.count(), unknown.items().len());
    if known <= MOST_INSTANCES && count <= MOST_INSTANCES - known {
        return Ok(unknown);
    }
    put_paths(alloc, second.items(), first)?;
    if first.len() > MOST_INSTANCES {
        return Ok(Rows::new(alloc));
    }
    Ok(unknown)
}

// The INF files that are wanted next. What was found stays in front of what it finds.
fn wanted_of(
    alloc: Global,
    tables: &Tables<'_>,
    first: &mut Found,
    first_at: usize,
    second: &mut Found,
    second_at: usize,
) -> Result<Rows<Path>, WantOfMemory>
    ensures wanted { (inf : InfModel)
        → LeadsClasses tables.now inf (record { found = first.old; at = first_at })
        → LeadsNulls tables.now (record { found = second.old; at = second_at })
        → IfOk result (λ w. w ≡ wanted_by tables.now inf) }
    ensures first { OnOk result (Prefix first.old first.new) }
    ensures second { OnOk result (Prefix second.old second.new) }
{
    if !pass_both(alloc, tables, first, first_at, second, second_at)? {
        return Ok(Rows::new(alloc));
    }
    let unknown = unknown_behind(alloc, tables, first, first_at, second, second_at)?;
    let wanted = unless_many(alloc, tables, unknown, first, second)?;
    Ok(wanted)
}

/// The INF files that are wanted next, and the fronts behind which they were found.
pub(crate) fn wanted_behind(
    alloc: Global,
    tables: &Tables<'_>,
    fronts: Fronts,
) -> Result<(Rows<Path>, Fronts), WantOfMemory>
    ensures wanted { (inf : InfModel) → AreFronts tables.now inf fronts
        → IfOk result (λ x. x.0 ≡ wanted_by tables.now inf) }
    ensures fronts { (inf : InfModel) → AreFronts tables.now inf fronts
        → IfOk result (λ x. AreFronts tables.now inf x.1) }
{
    let Fronts { classes, nulls } = advance_both(alloc, tables, fronts)?;
    let (mut classes, mut nulls) = (classes, nulls);
    let (first_size, second_size) = (classes.found.len(), nulls.found.len());
    let wanted = wanted_of(
        alloc,
        tables,
        &mut classes.found,
        classes.at,
        &mut nulls.found,
        nulls.at,
    )?;
    classes.found.truncate(first_size);
    nulls.found.truncate(second_size);
    Ok((wanted, Fronts { classes, nulls }))
}

/// The instances of a module, or none where they are too many.
pub(crate) fn instances_behind(
    alloc: Global,
    tables: &Tables<'_>,
    fronts: Fronts,
) -> Result<Option<Found>, WantOfMemory>
    ensures { (inf : InfModel) → AreFronts tables.now inf fronts
        → IfOk result (FindsFor tables.now inf) }
{
    let Fronts { classes, nulls } = fronts;
    let Front {
        found: first,
        at: first_at,
    } = classes;
    let Front {
        found: second,
        at: second_at,
    } = nulls;
    let (mut first, mut second) = (first, second);
    if !pass_both(alloc, tables, &mut first, first_at, &mut second, second_at)? {
        return Ok(None);
    }
    put_paths(alloc, second.items(), &mut first)?;
    if first.len() > MOST_INSTANCES {
        return Ok(None);
    }
    Ok(Some(first))
}
