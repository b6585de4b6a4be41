//! Where the parents of SKUs stand.
ghost use Rattle.std.specs.Prelude.{◌≡◌, ◌++◌, ◌∷◌, [], ℕ, List, map, OnOk, IfOk};
ghost use Rattle.dsc_lines.specs.SkuNames.{Placed};
ghost use Rattle.dsc_platform.specs.SkuWalks.{parent_place, next_of};

use build_base::WantOfMemory;
use dsc_lines::rows::SkuLine;
use dsc_lines::sku_line::is_default;
use dsc_lines::sku_names::place_of;
use indexmap::IndexMap;
use std::alloc::Global;

fn parent_place(
    alloc: Global,
    names: &IndexMap<Vec<u8>, usize>,
    line: &SkuLine,
) -> Result<Option<usize>, WantOfMemory>
    ensures { (ns : List (List ℕ)) → Placed ns names.now
        → IfOk result (λ place. place ≡ parent_place ns line.now) }
{
    if is_default(line.sku.name.bytes()) {
        return Ok(None);
    }
    let place = place_of(alloc, names, line.sku.parent.bytes())?;
    Ok(place)
}

/// Takes one place more.
pub fn push_place(places: &mut Vec<Option<usize>>, place: Option<usize>) -> Result<(), WantOfMemory>
    ensures { OnOk result (places.new.items ≡ places.old.items ++ place ∷ []) }
{
    match places.push(place) {
        Ok(()) => Ok(()),
        Err(_) => Err(WantOfMemory),
    }
}

/// Where the parent of each SKU stands, by a table of the names.
pub(crate) fn parents_among(
    alloc: Global,
    names: &IndexMap<Vec<u8>, usize>,
    skus: &[SkuLine],
) -> Result<Vec<Option<usize>>, WantOfMemory>
    ensures { (ns : List (List ℕ)) → Placed ns names.now
        → IfOk result (λ parents. parents.items ≡ map (parent_place ns) skus.now) }
{
    let mut parents = Vec::new(alloc);
    for line in skus {
        let place = parent_place(alloc, names, line)?;
        push_place(&mut parents, place)?;
    }
    Ok(parents)
}

/// The place behind a place.
pub fn next_of(parents: &[Option<usize>], place: usize) -> Option<usize>
    ensures { result ≡ next_of parents.now place }
{
    match parents.get(place) {
        Some(next) => *next,
        None => None,
    }
}
