//! The volumes of a flash description, their names and what they hold.
ghost use Rattle.std.specs.Prelude.{◌≡◌, ◌++◌, [], ℕ, List, IfOk, OnOk, IfSome, IfNone, Some, None, map, get_or, slice_get};
ghost use Rattle.std.specs.List.{flat_map};
ghost use Rattle.std.specs.Option.{option_map};
ghost use Rattle.flash_document.specs.declared.held.HeldRegion.{HeldRegion as Part};
ghost use Rattle.flash_document.specs.Names.{Places};
ghost use Rattle.flash_document.specs.Held.{Sizes};
ghost use Rattle.flash_document.specs.Whole.{volumes_of, section_nest, item_nest, nest_in};
ghost use Rattle.flash_document.specs.Document.{plan_in};

use crate::held::HeldSizes;
use crate::names::place_in;
use crate::plan::volume_plan;
use crate::stated::{FdfSection, FdfStatement, StatedVolume};
use build_base::{Rows, Same, Text, WantOfMemory};
use doc_types::volume::VolumePlan;
use fdf_words::rows::{SectionBody, SectionLine};
use indexmap::IndexMap;
use std::alloc::Global;

/// The volumes, in file order.
pub fn volumes_of(alloc: Global, parts: &[FdfSection]) -> Result<Vec<&StatedVolume>, WantOfMemory>
    ensures { IfOk result (λ volumes. map (λ v. v.now) volumes.items ≡ volumes_of parts.now) }
{
    let mut volumes = Vec::new(alloc);
    let mut left = parts;
    while let [part, rest @ ..] = left {
        if let FdfSection::Volume(volume) = part {
            match volumes.push(volume) {
                Ok(()) => {}
                Err(_) => return Err(WantOfMemory),
            }
        }
        left = rest;
    }
    Ok(volumes)
}

/// The names of volumes.
pub fn names_of(alloc: Global, volumes: &[&StatedVolume]) -> Result<Rows<Text>, WantOfMemory>
    ensures { IfOk result (λ names. names ≡ map (λ v. v.now.name) volumes.now) }
{
    let mut names = Rows::new(alloc);
    let mut left = volumes;
    while let [volume, rest @ ..] = left {
        names.push(volume.name.copy(alloc)?)?;
        left = rest;
    }
    Ok(names)
}

fn push_place(
    alloc: Global,
    table: &IndexMap<Vec<u8>, usize>,
    nest: &mut Rows<usize>,
    section: &SectionLine,
) -> Result<(), WantOfMemory>
    ensures { (names : List (List ℕ)) → Places names table.now
        → OnOk result (nest.new ≡ nest.old ++ section_nest names section.now) }
{
    let SectionBody::Volume(name) = &section.body else {
        return Ok(());
    };
    match place_in(alloc, table, name.bytes())? {
        Some(place) => nest.push(place),
        None => Ok(()),
    }
}

fn push_sections(
    alloc: Global,
    table: &IndexMap<Vec<u8>, usize>,
    nest: &mut Rows<usize>,
    sections: &[SectionLine],
) -> Result<(), WantOfMemory>
    ensures { (names : List (List ℕ)) → Places names table.now
        → OnOk result (nest.new ≡ nest.old ++ flat_map (section_nest names) sections.now) }
{
    let mut left = sections;
    while let [section, rest @ ..] = left {
        push_place(alloc, table, nest, section)?;
        left = rest;
    }
    Ok(())
}

fn push_item(
    alloc: Global,
    table: &IndexMap<Vec<u8>, usize>,
    nest: &mut Rows<usize>,
    item: &FdfStatement,
) -> Result<(), WantOfMemory>
    ensures { (names : List (List ℕ)) → Places names table.now
        → OnOk result (nest.new ≡ nest.old ++ item_nest names item.now) }
{
    match item {
        FdfStatement::File(file) => push_sections(alloc, table, nest, file.sections.items()),
        _ => Ok(()),
    }
}

fn nest_in(
    alloc: Global,
    table: &IndexMap<Vec<u8>, usize>,
    volume: &StatedVolume,
) -> Result<Rows<usize>, WantOfMemory>
    ensures { (names : List (List ℕ)) → Places names table.now
        → IfOk result (λ nest. nest ≡ nest_in names volume.now) }
{
    let mut nest = Rows::new(alloc);
    let mut left = volume.items.items();
    while let [item, rest @ ..] = left {
        push_item(alloc, table, &mut nest, item)?;
        left = rest;
    }
    Ok(nest)
}

/// The places of the volumes that each volume holds.
pub(crate) fn nests_of(
    alloc: Global,
    table: &IndexMap<Vec<u8>, usize>,
    volumes: &[&StatedVolume],
) -> Result<Rows<Rows<usize>>, WantOfMemory>
    ensures { (names : List (List ℕ)) → Places names table.now
        → IfOk result (λ nests. nests ≡ map (λ v. nest_in names v.now) volumes.now) }
{
    let mut nests = Rows::new(alloc);
    let mut left = volumes;
    while let [volume, rest @ ..] = left {
        nests.push(nest_in(alloc, table, volume)?)?;
        left = rest;
    }
    Ok(nests)
}

fn name_at(alloc: Global, names: &[Text], place: usize) -> Result<Text, WantOfMemory>
    ensures { IfOk result (λ name. name ≡ get_or names.now place []) }
{
    match names.get(place) {
        Some(name) => name.copy(alloc),
        None => Text::of(alloc, &[]),
    }
}

/// The names in the order of the numbers.
pub(crate) fn ordered_names(
    alloc: Global,
    names: &[Text],
    order: &[usize],
) -> Result<Rows<Text>, WantOfMemory>
    ensures { IfOk result (λ rows. rows ≡ map (λ p. get_or names.now p []) order.now) }
{
    let mut ordered = Rows::new(alloc);
    let mut left = order;
    while let [place, rest @ ..] = left {
        ordered.push(name_at(alloc, names, *place)?)?;
        left = rest;
    }
    Ok(ordered)
}

/// The volume of a place.
pub fn volume_at<'a>(volumes: &[&'a StatedVolume], place: usize) -> Option<&'a StatedVolume>
    ensures some { IfSome result
        (λ v. option_map (λ w. w.now) (slice_get volumes.now place) ≡ Some v.now) }
    ensures none { IfNone result (option_map (λ w. w.now) (slice_get volumes.now place) ≡ None) }
{
    match volumes.get(place) {
        Some(volume) => Some(*volume),
        None => None,
    }
}

fn push_plan(
    alloc: Global,
    table: &IndexMap<Vec<u8>, usize>,
    sizes: &IndexMap<Vec<u8>, HeldSizes>,
    plans: &mut Rows<VolumePlan>,
    volumes: &[&StatedVolume],
    place: usize,
) -> Result<(), WantOfMemory>
    ensures { (names : List (List ℕ)) (regions : List Part) → Places names table.now
        → Sizes regions sizes.now
        → OnOk result (plans.new ≡ plans.old ++ plan_in names regions volumes.now place) }
{
    match volume_at(volumes, place) {
        Some(volume) => {
            plans.push(volume_plan(alloc, table, sizes, volume)?)?;
            Ok(())
        }
        None => Ok(()),
    }
}

/// The volumes in the order of their numbers.
pub(crate) fn volume_plans(
    alloc: Global,
    table: &IndexMap<Vec<u8>, usize>,
    sizes: &IndexMap<Vec<u8>, HeldSizes>,
    volumes: &[&StatedVolume],
    order: &[usize],
) -> Result<Rows<VolumePlan>, WantOfMemory>
    ensures { (names : List (List ℕ)) (regions : List Part) → Places names table.now
        → Sizes regions sizes.now
        → IfOk result (λ plans. plans ≡ flat_map (plan_in names regions volumes.now) order.now) }
{
    let mut plans = Rows::new(alloc);
    let mut left = order;
    while let [place, rest @ ..] = left {
        push_plan(alloc, table, sizes, &mut plans, volumes, *place)?;
        left = rest;
    }
    Ok(plans)
}
