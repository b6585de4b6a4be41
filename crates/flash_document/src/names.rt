//! Names in lower case, and their places.
ghost use Rattle.std.specs.Prelude.{◌≡◌, ◌∷◌, ◌++◌, [], ℕ, List, IfOk, OnOk, length};
ghost use Rattle.flash_document.specs.Names.{lower_case, place_of, Places};

use build_base::{Text, WantOfMemory};
use indexmap::IndexMap;
use std::alloc::Global;

/// A name in lower case.
pub(crate) fn lower_case(alloc: Global, name: &[u8]) -> Result<Vec<u8>, WantOfMemory>
    ensures { IfOk result (λ v. v.items ≡ lower_case name.now) }
{
    match name.to_ascii_lowercase(alloc) {
        Ok(key) => Ok(key),
        Err(_) => Err(WantOfMemory),
    }
}

/// The place of the first of the names in a table that is this one.
pub fn place_in(
    alloc: Global,
    table: &IndexMap<Vec<u8>, usize>,
    name: &[u8],
) -> Result<Option<usize>, WantOfMemory>
    ensures { (names : List (List ℕ)) → Places names table.now
        → IfOk result (λ n. n ≡ place_of names name.now) }
{
    let key = lower_case(alloc, name)?;
    Ok(table.get(&key).copied())
}

/// Adds a name with its place, unless it is there.
pub fn add_name(
    alloc: Global,
    table: &mut IndexMap<Vec<u8>, usize>,
    name: &[u8],
    place: usize,
) -> Result<(), WantOfMemory>
    ensures { (above : List (List ℕ)) → place ≡ length above → Places above table.old
        → OnOk result (Places (above ++ name.now ∷ []) table.new) }
{
    let key = lower_case(alloc, name)?;
    if table.contains_key(&key) {
        return Ok(());
    }
    match table.insert(key, place) {
        Ok(_) => Ok(()),
        Err(_) => Err(WantOfMemory),
    }
}

/// The places of names.
pub fn places_of(alloc: Global, names: &[Text]) -> Result<IndexMap<Vec<u8>, usize>, WantOfMemory>
    ensures { IfOk result (Places names.now) }
{
    let mut table = IndexMap::new(alloc);
    for (i, name) in names.iter().enumerate() {
        add_name(alloc, &mut table, name.bytes(), i)?;
    }
    Ok(table)
}
