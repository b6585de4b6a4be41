//! A flash description put together, and the checks over the whole.
ghost use Rattle.std.specs.Prelude.{◌≡◌, [], List, IfOk, Some, map};
ghost use Rattle.build_base.specs.Answer.{Answers, Checks};
ghost use Rattle.flash_document.specs.Whole.{volumes_of, names_of, nests_of, all_held, loop_fault, twin_marks, whole_fault};
ghost use Rattle.volume_nesting.specs.Numbering.{first_loop};
ghost use Rattle.std.specs.List.{flat_map};
ghost use Rattle.flash_document.specs.Document.{ordered_names, part_device, volume_plans, document_of, flash_of_lines};
ghost use Rattle.flash_document.specs.Held.{Sizes};
ghost use Rattle.flash_document.specs.Names.{Places};
ghost use Rattle.flash_document.specs.declared.stated.FdfSection.{FdfSection as Part};
ghost use Rattle.flash_document.specs.Parts.{all_stated};
ghost use Rattle.flash_document.specs.Tables.{loop_in, Stands};

use crate::check::{
    check_blocks, check_duplicate_names, check_names, check_regions, check_sizes, check_stated,
    twin_marks,
};
use crate::held::{HeldSizes, all_held, sizes_of};
use crate::names::places_of;
use crate::parts::all_stated;
use crate::plan::{device_plans, rules_of};
use crate::sets::all_sets;
use crate::stated::{FdfSection, StatedVolume};
use crate::volumes::{names_of, nests_of, ordered_names, volume_at, volume_plans, volumes_of};
use build_base::fault_codes::VOLUME_LOOP;
use build_base::{Path, Place, Refusal, Rows, Same, Text, WantOfMemory, refuse};
use doc_types::flash::{DevicePlan, FlashDoc};
use doc_types::pcd_lines::PcdLines;
use doc_types::volume::VolumePlan;
use fdf_words::rows::LineRead;
use indexmap::IndexMap;
use std::alloc::Global;
use volume_nesting::{component_numbers, first_loop, topological_order};

/// What the checks and the plans look up: the names of the volumes and their places, the sizes of
/// the regions that hold them, the volumes that each one holds, and their places in the order of
/// their numbers.
#[derive(Drop)]
pub struct Tables {
    pub names: Rows<Text>,
    pub places: IndexMap<Vec<u8>, usize>,
    pub sizes: IndexMap<Vec<u8>, HeldSizes>,
    pub nests: Rows<Rows<usize>>,
    pub order: Rows<usize>,
}

// The sizes of all regions that hold volumes.
fn region_sizes(
    alloc: Global,
    parts: &[FdfSection],
) -> Result<IndexMap<Vec<u8>, HeldSizes>, WantOfMemory>
    ensures { IfOk result (Sizes (all_held parts.now)) }
{
    let regions = all_held(alloc, parts)?;
    sizes_of(alloc, regions.items())
}

// The tables, with those that rest on the places of the volumes.
fn tables_with(
    alloc: Global,
    volumes: &[&StatedVolume],
    names: Rows<Text>,
    places: IndexMap<Vec<u8>, usize>,
    sizes: IndexMap<Vec<u8>, HeldSizes>,
) -> Result<Tables, WantOfMemory>
    ensures { (parts : List Part) → map (λ v. v.now) volumes.now ≡ volumes_of parts
        → names ≡ names_of parts → Places (names_of parts) places → Sizes (all_held parts) sizes
        → IfOk result (Stands parts) }
{
    let nests = nests_of(alloc, &places, volumes)?;
    let order = topological_order(alloc, nests.items())?;
    Ok(Tables {
        names,
        places,
        sizes,
        nests,
        order,
    })
}

fn tables_of(
    alloc: Global,
    parts: &[FdfSection],
    volumes: &[&StatedVolume],
) -> Result<Tables, WantOfMemory>
    ensures { map (λ v. v.now) volumes.now ≡ volumes_of parts.now → IfOk result (Stands parts.now) }
{
    let names = names_of(alloc, volumes)?;
    let places = places_of(alloc, names.items())?;
    let sizes = region_sizes(alloc, parts)?;
    tables_with(alloc, volumes, names, places, sizes)
}

#[tactic(auto, unfolding(crate::specs::Tables::loop_in))]
fn loop_at(alloc: Global, volumes: &[&StatedVolume], place: usize) -> Result<(), Refusal>
    ensures { Checks result (loop_in volumes.now (Some place)) }
{
    match volume_at(volumes, place) {
        Some(volume) => Err(refuse(alloc, VOLUME_LOOP, &volume.at, volume.name.bytes())),
        None => Ok(()),
    }
}

// Refuses the first of the volumes that holds itself.
#[tactic(auto, unfolding(crate::specs::Tables::loop_in))]
fn find_loop(alloc: Global, volumes: &[&StatedVolume], nests: &[Rows<usize>]) -> Result<(), Refusal>
    ensures { Checks result (loop_in volumes.now (first_loop nests.now)) }
{
    let numbers = component_numbers(alloc, nests)?;
    match first_loop(alloc, nests, numbers.items())? {
        Some(place) => loop_at(alloc, volumes, place),
        None => Ok(()),
    }
}

fn check_loops(
    alloc: Global,
    volumes: &[&StatedVolume],
    nests: &[Rows<usize>],
) -> Result<(), Refusal>
    ensures { (parts : List Part) → map (λ v. v.now) volumes.now ≡ volumes_of parts
        → nests.now ≡ nests_of parts → Checks result (loop_fault parts) }
{
    find_loop(alloc, volumes, nests)
}

#[tactic(auto, unfolding(crate::specs::Whole::whole_fault))]
fn check_marked(
    alloc: Global,
    lines: &[LineRead],
    parts: &[FdfSection],
    volumes: &[&StatedVolume],
    tables: &Tables,
    repeats: &[bool],
) -> Result<(), Refusal>
    ensures { map (λ v. v.now) volumes.now ≡ volumes_of parts.now → Stands parts.now tables.now
        → repeats.now ≡ twin_marks parts.now [] → Checks result (whole_fault lines.now parts.now) }
{
    check_stated(alloc, parts)?;
    check_sizes(alloc, &tables.sizes, parts, repeats)?;
    check_loops(alloc, volumes, tables.nests.items())?;
    check_names(alloc, &tables.places, lines)?;
    check_blocks(alloc, &tables.sizes, parts, repeats)?;
    check_regions(alloc, &tables.sizes, parts, repeats)?;
    check_duplicate_names(alloc, parts, repeats)
}

fn check_whole(
    alloc: Global,
    lines: &[LineRead],
    parts: &[FdfSection],
    volumes: &[&StatedVolume],
    tables: &Tables,
) -> Result<(), Refusal>
    ensures { map (λ v. v.now) volumes.now ≡ volumes_of parts.now → Stands parts.now tables.now
        → Checks result (whole_fault lines.now parts.now) }
{
    let repeats = twin_marks(alloc, parts)?;
    check_marked(alloc, lines, parts, volumes, tables, repeats.items())
}

// The places of the names in the order of the volumes' numbers.
fn ordered_places(alloc: Global, tables: &Tables) -> Result<IndexMap<Vec<u8>, usize>, WantOfMemory>
    ensures { (parts : List Part) → Stands parts tables.now
        → IfOk result (Places (ordered_names parts)) }
{
    let names = ordered_names(alloc, tables.names.items(), tables.order.items())?;
    places_of(alloc, names.items())
}

fn planned_volumes(
    alloc: Global,
    places: &IndexMap<Vec<u8>, usize>,
    tables: &Tables,
    volumes: &[&StatedVolume],
) -> Result<Rows<VolumePlan>, WantOfMemory>
    ensures { (parts : List Part) → map (λ v. v.now) volumes.now ≡ volumes_of parts
        → Stands parts tables.now → Places (ordered_names parts) places.now
        → IfOk result (λ plans. plans ≡ volume_plans parts) }
{
    volume_plans(alloc, places, &tables.sizes, volumes, tables.order.items())
}

fn whole_file(alloc: Global, root: &Path) -> Result<Place, WantOfMemory>
    ensures { IfOk result (λ at. at ≡ record {
      path = root.now;
      line = 0;
    }) }
{
    Ok(Place {
        path: root.copy(alloc)?,
        line: 0,
    })
}

#[tactic(auto, unfolding(crate::specs::Document::document_of))]
fn document_with(
    alloc: Global,
    root: &Path,
    lines: &[LineRead],
    parts: &[FdfSection],
    devices: Rows<DevicePlan>,
    volumes: Rows<VolumePlan>,
) -> Result<FlashDoc, WantOfMemory>
    ensures { devices ≡ flat_map (part_device (ordered_names parts.now)) parts.now
        → volumes ≡ volume_plans parts.now
        → IfOk result (λ d. d ≡ document_of root.now lines.now parts.now) }
{
    let at = whole_file(alloc, root)?;
    let sets = PcdLines::of(alloc, all_sets(alloc, lines)?)?;
    let rule_list = rules_of(alloc, parts)?;
    Ok(FlashDoc {
        at,
        sets,
        devices,
        volumes,
        rule_list,
    })
}

fn document_of(
    alloc: Global,
    root: &Path,
    lines: &[LineRead],
    parts: &[FdfSection],
    volumes: &[&StatedVolume],
    tables: &Tables,
) -> Result<FlashDoc, WantOfMemory>
    ensures { map (λ v. v.now) volumes.now ≡ volumes_of parts.now → Stands parts.now tables.now
        → IfOk result (λ d. d ≡ document_of root.now lines.now parts.now) }
{
    let places = ordered_places(alloc, tables)?;
    let devices = device_plans(alloc, &places, parts)?;
    let volumes = planned_volumes(alloc, &places, tables, volumes)?;
    document_with(alloc, root, lines, parts, devices, volumes)
}

#[tactic(auto, unfolding(crate::specs::Document::flash_of_lines))]
fn document_or_fault(
    alloc: Global,
    root: &Path,
    lines: &[LineRead],
    parts: &[FdfSection],
    volumes: &[&StatedVolume],
    tables: &Tables,
) -> Result<FlashDoc, Refusal>
    ensures { parts.now ≡ all_stated lines.now → map (λ v. v.now) volumes.now ≡ volumes_of parts.now
        → Stands parts.now tables.now → Answers result (flash_of_lines root.now lines.now) }
{
    check_whole(alloc, lines, parts, volumes, tables)?;
    let flash = document_of(alloc, root, lines, parts, volumes, tables)?;
    Ok(flash)
}

fn flash_of_volumes(
    alloc: Global,
    root: &Path,
    lines: &[LineRead],
    parts: &[FdfSection],
    volumes: &[&StatedVolume],
) -> Result<FlashDoc, Refusal>
    ensures { parts.now ≡ all_stated lines.now → map (λ v. v.now) volumes.now ≡ volumes_of parts.now
        → Answers result (flash_of_lines root.now lines.now) }
{
    let tables = tables_of(alloc, parts, volumes)?;
    document_or_fault(alloc, root, lines, parts, volumes, &tables)
}

fn flash_of_parts(
    alloc: Global,
    root: &Path,
    lines: &[LineRead],
    parts: &[FdfSection],
) -> Result<FlashDoc, Refusal>
    ensures { parts.now ≡ all_stated lines.now
        → Answers result (flash_of_lines root.now lines.now) }
{
    let volumes = volumes_of(alloc, parts)?;
    flash_of_volumes(alloc, root, lines, parts, volumes.as_slice())
}

/// The document of what the lines say, or the first fault of the whole, in the order of codes.
pub(crate) fn flash_of_lines(
    alloc: Global,
    root: &Path,
    lines: &[LineRead],
) -> Result<FlashDoc, Refusal>
    ensures { Answers result (flash_of_lines root.now lines.now) }
{
    let parts = all_stated(alloc, lines)?;
    flash_of_parts(alloc, root, lines, parts.items())
}
