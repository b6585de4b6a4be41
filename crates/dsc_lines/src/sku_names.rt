//! Tables of names.
ghost use Rattle.std.specs.Prelude.{◌≡◌, ◌++◌, ◌∷◌, [], List, ℕ, length, Some, cond, OnOk, IfOk};
ghost use Rattle.std.specs.Global.{Vec as Bytes};
ghost use Rattle.std.specs.HashMap.{get};
ghost use Rattle.dsc_lines.specs.SkuLines.{place_of};
ghost use Rattle.dsc_lines.specs.SkuNames.{same_key, Placed};

use build_base::WantOfMemory;
use indexmap::IndexMap;
use std::alloc::Global;

fn place_at(table: &IndexMap<Vec<u8>, usize>, name: &Vec<u8>) -> Option<usize>
    ensures { (names : List (List ℕ)) → Placed names table.now
        → result ≡ place_of name.now.items names }
{
    match table.get(name) {
        Some(place) => Some(*place),
        None => None,
    }
}

/// Where a name stands first.
pub fn place_of(
    alloc: Global,
    table: &IndexMap<Vec<u8>, usize>,
    name: &[u8],
) -> Result<Option<usize>, WantOfMemory>
    ensures { (names : List (List ℕ)) → Placed names table.now
        → IfOk result (λ place. place ≡ place_of name.now names) }
{
    let key = Vec::from_slice(alloc, name)?;
    Ok(place_at(table, &key))
}

fn insert_place(
    table: &mut IndexMap<Vec<u8>, usize>,
    key: Vec<u8>,
    place: usize,
) -> Result<(), WantOfMemory>
    ensures { OnOk result ((q : Bytes ℕ) → get same_key table.new q
        ≡ cond (same_key key q) (Some place) (get same_key table.old q)) }
{
    match table.insert(key, place) {
        Ok(_) => Ok(()),
        Err(_) => Err(WantOfMemory),
    }
}

/// Takes a name that stands at a place behind those of a table.
pub fn add_name(
    alloc: Global,
    table: &mut IndexMap<Vec<u8>, usize>,
    name: &[u8],
    place: usize,
) -> Result<(), WantOfMemory>
    ensures { (names : List (List ℕ)) → place ≡ length names → Placed names table.old
        → OnOk result (Placed (names ++ name.now ∷ []) table.new) }
{
    let key = Vec::from_slice(alloc, name)?;
    match place_at(table, &key) {
        Some(_) => Ok(()),
        None => {
            insert_place(table, key, place)?;
            Ok(())
        }
    }
}
