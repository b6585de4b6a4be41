//! The check that each module stands once for an architecture.
ghost use Rattle.std.specs.Prelude.{◌≡◌, ◌∷◌, ◌++◌, [], ℕ, List, None, cond, unwrap_or, OnOk, IfOk};
ghost use Rattle.std.specs.Global.{Vec as Bytes};
ghost use Rattle.std.specs.HashMap.{get};
ghost use Rattle.std.specs.List.{list_any};
ghost use Rattle.build_base.specs.Answer.{Checks};
ghost use Rattle.doc_types.specs.declared.platform.Component.{Component as Part};
ghost use Rattle.dsc_lines.specs.SkuNames.{same_key};
ghost use Rattle.dsc_platform.specs.Repeats.{archs_overlap, repeats, repeat_fault, repeats_fault, Arched};

use build_base::fault_codes::DUPLICATE_COMPONENT;
use build_base::{Refusal, Rows, WantOfMemory, refuse};
use doc_types::arch::{Arch, archs_overlap};
use doc_types::platform::Component;
use indexmap::IndexMap;
use std::alloc::Global;

fn any_meets(arches: &[Arch], arch: Arch) -> bool
    ensures { result ≡ list_any (λ a. archs_overlap a arch) arches.now }
{
    arches.iter().any(|other| archs_overlap(*other, arch))
}

// Whether a component repeats one of those in a table.
fn is_repeated(table: &IndexMap<Vec<u8>, Rows<Arch>>, key: &Vec<u8>, component: &Component) -> bool
    ensures { (above : List Part) → key.now.items ≡ component.now.inf → Arched above table.now
        → result ≡ list_any (λ old. repeats old component.now) above }
{
    match table.get(key) {
        Some(arches) => any_meets(arches.items(), component.arch),
        None => false,
    }
}

// Takes the architectures of a module out of a table.
fn take_arches(
    alloc: Global,
    table: &mut IndexMap<Vec<u8>, Rows<Arch>>,
    key: &Vec<u8>,
) -> Rows<Arch>
    ensures arches { result ≡ unwrap_or (get same_key table.old key.now) [] }
    ensures others { (other : Bytes ℕ) → get same_key table.new other
        ≡ cond (same_key key.now other) None (get same_key table.old other) }
{
    match table.swap_remove(key) {
        Some(arches) => arches,
        None => Rows::new(alloc),
    }
}

// Adds a component to a table of those above it.
fn add_component(
    alloc: Global,
    table: &mut IndexMap<Vec<u8>, Rows<Arch>>,
    key: Vec<u8>,
    component: &Component,
) -> Result<(), WantOfMemory>
    ensures { (above : List Part) → key.items ≡ component.now.inf → Arched above table.old
        → OnOk result (Arched (above ++ component.now ∷ []) table.new) }
{
    let mut arches = take_arches(alloc, table, &key);
    arches.push(component.arch)?;
    match table.insert(key, arches) {
        Ok(_) => Ok(()),
        Err(_) => Err(WantOfMemory),
    }
}

fn key_of(alloc: Global, component: &Component) -> Result<Vec<u8>, WantOfMemory>
    ensures { IfOk result (λ key. key.items ≡ component.now.inf) }
{
    Ok(Vec::from_slice(alloc, component.inf.bytes())?)
}

// Refuses a component that repeats one of those in a table, or adds it.
fn check_component(
    alloc: Global,
    table: &mut IndexMap<Vec<u8>, Rows<Arch>>,
    component: &Component,
) -> Result<(), Refusal>
    ensures fault { (above : List Part) → Arched above table.old
        → Checks result (repeat_fault above component.now) }
    ensures table { (above : List Part) → Arched above table.old
        → OnOk result (Arched (above ++ component.now ∷ []) table.new) }
{
    let key = key_of(alloc, component)?;
    if is_repeated(table, &key, component) {
        return Err(refuse(
            alloc,
            DUPLICATE_COMPONENT,
            &component.at,
            component.inf.bytes(),
        ));
    }
    add_component(alloc, table, key, component)?;
    Ok(())
}

/// Refuses the first component that repeats one above it.
pub fn check_repeats(alloc: Global, components: &[Component]) -> Result<(), Refusal>
    ensures { Checks result (repeats_fault components.now) }
{
    let mut table = IndexMap::new(alloc);
    for component in components {
        if let Err(refusal) = check_component(alloc, &mut table, component) {
            return Err(refusal);
        }
    }
    Ok(())
}
