//! The instances of a module: the list of what is found is itself the queue.
ghost use Rattle.std.specs.Prelude.{◌≡◌, ◌<◌, ◌∷◌, ℕ, [], List, length, slice_index_or, IfOk, OnOk};
ghost use Rattle.std.specs.List.{filter_map};
ghost use Rattle.doc_types.specs.declared.module.Named.{Named as Class};
ghost use Rattle.std.specs.Option.{option_copied};
ghost use Rattle.library_choice.specs.Closure.{same_path, known, is_known, instance_of, next, nulls, is_unknown};
ghost use Rattle.library_choice.specs.Found.{add};
ghost use Rattle.library_choice.specs.Search.{Passed, Prefix};

use crate::found::Found;
use crate::tables::Tables;
use build_base::{Path, WantOfMemory};
use doc_types::module::{InfDoc, Named};
use std::alloc::Global;

/// The most instances of a module.
pub(crate) const MOST_INSTANCES: usize = 1024;

#[tactic(auto, unfolding(crate::specs::Found::add))]
fn put_here(alloc: Global, path: &Path, found: &mut Found) -> Result<(), WantOfMemory>
    ensures { OnOk result ((rest : List (List ℕ)) →
        add same_path found.new rest ≡ add same_path found.old (path.now ∷ rest)) }
{
    found.put(alloc, path)?;
    Ok(())
}

fn put_class(
    alloc: Global,
    tables: &Tables<'_>,
    class: &Named,
    found: &mut Found,
) -> Result<(), WantOfMemory>
    ensures { OnOk result ((rest : List Class) →
        add same_path found.new (filter_map (instance_of tables.now) rest)
        ≡ add same_path found.old (filter_map (instance_of tables.now) (class.now ∷ rest))) }
{
    match tables.instance_of(class) {
        Some(path) => put_here(alloc, path, found),
        None => Ok(()),
    }
}

// Puts the instances for the classes of an INF file.
#[tactic(auto, unfolding(crate::specs::Found::add))]
fn put_classes(
    alloc: Global,
    tables: &Tables<'_>,
    classes: &[Named],
    found: &mut Found,
) -> Result<(), WantOfMemory>
    ensures { OnOk result
        (found.new ≡ add same_path found.old (filter_map (instance_of tables.now) classes.now)) }
{
    for class in classes {
        put_class(alloc, tables, class, found)?;
    }
    Ok(())
}

fn known_at<'a>(tables: &'a Tables<'_>, found: &Found, at: usize) -> Option<&'a InfDoc>
    requires { at < length found.now }
    ensures { option_copied result
        ≡ known tables.now.infs (slice_index_or found.now at []) }
{
    match found.get(at) {
        Some(path) => tables.inf_at(path),
        None => None,
    }
}

/// Puts the instances one step on from that at a place. False where its INF file isn't known.
#[tactic(auto, unfolding(crate::specs::Closure::next, crate::specs::Closure::is_known, crate::specs::Found::add))]
pub fn put_next(
    alloc: Global,
    tables: &Tables<'_>,
    at: usize,
    found: &mut Found,
) -> Result<bool, WantOfMemory>
    requires { at < length found.old }
    ensures known { IfOk result
        (λ known. known ≡ is_known tables.now.infs (slice_index_or found.old at [])) }
    ensures found { OnOk result
        (found.new ≡ add same_path found.old (next tables.now (slice_index_or found.old at []))) }
{
    match known_at(tables, found, at) {
        Some(inf) => {
            put_classes(alloc, tables, inf.classes.items(), found)?;
            Ok(true)
        }
        None => Ok(false),
    }
}

/// Passes the queue from a place on. True where nothing is left to pass, false where there are too
/// many.
pub fn pass(
    alloc: Global,
    tables: &Tables<'_>,
    found: &mut Found,
    from: usize,
) -> Result<bool, WantOfMemory>
    ensures passed { IfOk result (Passed same_path (next tables.now) found.old from found.new) }
    ensures grows { OnOk result (Prefix found.old found.new) }
{
    let mut at = from;
    while at < found.len() {
        if found.len() > MOST_INSTANCES {
            return Ok(false);
        }
        let _known = put_next(alloc, tables, at, found)?;
        at += 1;
    }
    Ok(true)
}

/// Puts paths.
#[tactic(auto, unfolding(crate::specs::Found::add))]
pub(crate) fn put_paths(
    alloc: Global,
    paths: &[Path],
    found: &mut Found,
) -> Result<(), WantOfMemory>
    ensures { OnOk result (found.new ≡ add same_path found.old paths.now) }
{
    for path in paths {
        put_here(alloc, path, found)?;
    }
    Ok(())
}

/// The instances for the classes of the module's INF file.
pub(crate) fn first_found(
    alloc: Global,
    tables: &Tables<'_>,
    inf: &InfDoc,
) -> Result<Found, WantOfMemory>
    ensures { IfOk result
        (λ f. f ≡ add same_path [] (filter_map (instance_of tables.now) inf.now.classes)) }
{
    let mut found = Found::new(alloc);
    put_classes(alloc, tables, inf.classes.items(), &mut found)?;
    Ok(found)
}

/// The instances that are linked without a class.
pub(crate) fn nulls_found(alloc: Global, tables: &Tables<'_>) -> Result<Found, WantOfMemory>
    ensures { IfOk result (λ f. f ≡ add same_path [] (nulls tables.now)) }
{
    let mut found = Found::new(alloc);
    put_paths(alloc, tables.nulls(), &mut found)?;
    Ok(found)
}

/// Whether no INF file of a path is known.
#[tactic(auto, unfolding(crate::specs::Closure::is_unknown))]
pub(crate) fn is_unknown(tables: &Tables<'_>, path: &Path) -> bool
    ensures { result ≡ is_unknown tables.now.infs path.now }
{
    tables.inf_at(path).is_none()
}
