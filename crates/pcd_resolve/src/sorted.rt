//! Names in ascending order.
ghost use Rattle.std.specs.Prelude.{◌≡◌, map, IfOk, OnOk};
ghost use Rattle.std.specs.BTreeSet.{insert_key, keys};
ghost use Rattle.std.specs.Cmp.Lexicographic.{slice_cmp};
ghost use Rattle.std.specs.List.{flat_map};
ghost use Rattle.std.specs.Ordering.{nat_cmp};
ghost use Rattle.pcd_resolve.specs.Groups.{by_bytes};
ghost use Rattle.pcd_ranks.specs.Listing.{uses_in, uses_of_module};
ghost use Rattle.pcd_resolve.specs.Rows.{names_of, with_names};
ghost use Rattle.pcd_resolve.specs.Tables.{use_name};
ghost use Rattle.pcd_ranks.specs.Views.{at_view};

use crate::uses::uses_of_module;
use build_base::WantOfMemory;
use doc_types::parts::ModuleParts;
use pcd_ranks::listing::UseAt;
use std::alloc::Global;
use std::collections::BTreeSet;

fn insert(names: &mut BTreeSet<Vec<u8>>, name: Vec<u8>) -> Result<(), WantOfMemory>
    ensures { OnOk result (names.new.keys ≡ insert_key by_bytes names.old.keys name) }
{
    match names.insert(name) {
        Ok(_) => Ok(()),
        Err(_) => Err(WantOfMemory),
    }
}

fn put_name(names: &mut BTreeSet<Vec<u8>>, name: Vec<u8>) -> Result<(), WantOfMemory>
    ensures { OnOk result (map (λ n. n.items) names.new.keys
        ≡ insert_key (slice_cmp nat_cmp) (map (λ n. n.items) names.old.keys) name.items) }
{
    insert(names, name)?;
    Ok(())
}

#[tactic(auto, unfolding(pcd_ranks::specs::Listing::use_of))]
fn put_use(
    alloc: Global,
    names: &mut BTreeSet<Vec<u8>>,
    parts: &ModuleParts,
    at: &UseAt<'_>,
) -> Result<(), WantOfMemory>
    ensures { OnOk result (map (λ n. n.items) names.new.keys
        ≡ insert_key (slice_cmp nat_cmp) (map (λ n. n.items) names.old.keys)
        (use_name (at_view parts.now at.now))) }
{
    let name = at.line.pcd.full_name(alloc)?;
    put_name(names, name)?;
    Ok(())
}

fn put_uses(
    alloc: Global,
    names: &mut BTreeSet<Vec<u8>>,
    parts: &ModuleParts,
    uses: &[UseAt<'_>],
) -> Result<(), WantOfMemory>
    ensures { OnOk result (map (λ n. n.items) names.new.keys
        ≡ with_names (map (λ n. n.items) names.old.keys) (map (at_view parts.now) uses.now)) }
{
    for at in uses {
        put_use(alloc, names, parts, at)?;
    }
    Ok(())
}

fn put_module(
    alloc: Global,
    names: &mut BTreeSet<Vec<u8>>,
    parts: &ModuleParts,
) -> Result<(), WantOfMemory>
    ensures { OnOk result (map (λ n. n.items) names.new.keys
        ≡ with_names (map (λ n. n.items) names.old.keys) (uses_of_module parts.now)) }
{
    let uses = uses_of_module(alloc, parts)?;
    put_uses(alloc, names, parts, uses.as_slice())?;
    Ok(())
}

fn put_modules(
    alloc: Global,
    names: &mut BTreeSet<Vec<u8>>,
    modules: &[ModuleParts],
) -> Result<(), WantOfMemory>
    ensures { OnOk result (map (λ n. n.items) names.new.keys
        ≡ with_names (map (λ n. n.items) names.old.keys) (flat_map uses_of_module modules.now)) }
{
    for parts in modules {
        put_module(alloc, names, parts)?;
    }
    Ok(())
}

fn in_order(alloc: Global, names: BTreeSet<Vec<u8>>) -> Result<Vec<Vec<u8>>, WantOfMemory>
    ensures { IfOk result (λ v. v.items ≡ keys names) }
{
    let mut listed = Vec::new(alloc);
    for name in names {
        if listed.push(name).is_err() {
            return Err(WantOfMemory);
        }
    }
    Ok(listed)
}

/// The names of a module's uses in ascending order, each once.
#[tactic(auto, unfolding(crate::specs::Rows::names_of))]
pub(crate) fn names_of_module(
    alloc: Global,
    parts: &ModuleParts,
) -> Result<Vec<Vec<u8>>, WantOfMemory>
    ensures { IfOk result (λ v. map (λ n. n.items) v.items ≡ names_of (uses_of_module parts.now)) }
{
    let mut names = BTreeSet::new(alloc);
    put_module(alloc, &mut names, parts)?;
    in_order(alloc, names)
}

/// The names of the uses of modules in ascending order, each once.
#[tactic(auto, unfolding(crate::specs::Rows::names_of, pcd_ranks::specs::Listing::uses_in))]
pub(crate) fn names_of_modules(
    alloc: Global,
    modules: &[ModuleParts],
) -> Result<Vec<Vec<u8>>, WantOfMemory>
    ensures { IfOk result (λ v. map (λ n. n.items) v.items ≡ names_of (uses_in modules.now)) }
{
    let mut names = BTreeSet::new(alloc);
    put_modules(alloc, &mut names, modules)?;
    in_order(alloc, names)
}
