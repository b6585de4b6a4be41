//! The sizes of the regions that hold volumes.
ghost use Rattle.std.specs.Prelude.{◌≡◌, ◌++◌, ◌∷◌, [], List, IfOk, OnOk};
ghost use Rattle.std.specs.List.{flat_map};
ghost use Rattle.flash_document.specs.declared.held.HeldRegion.{HeldRegion as Part};
ghost use Rattle.flash_document.specs.Whole.{region_held, part_held, all_held, held_of};
ghost use Rattle.flash_document.specs.Held.{with_region, Sizes};

use crate::names::lower_case;
use crate::stated::{FdfSection, StatedRegion, StatedVolume};
use build_base::{Rows, Same, Text, WantOfMemory};
use fdf_words::rows::Content;
use indexmap::IndexMap;
use std::alloc::Global;

/// A region that holds a volume: the volume's name, the region's size, and the first block size of
/// its device.
#[derive(Drop)]
pub(crate) struct HeldRegion {
    pub name: Text,
    pub size: u64,
    pub block: Option<u64>,
}

/// Of the regions that hold a volume: the first one's size and the first block size of its device,
/// and the first size that differs.
#[derive(Clone, Copy, PartialEq, Eq)]
pub(crate) struct HeldSizes {
    pub first: u64,
    pub block: Option<u64>,
    pub other: Option<u64>,
}

fn push_region(
    alloc: Global,
    held: &mut Rows<HeldRegion>,
    block: Option<u64>,
    region: &StatedRegion,
) -> Result<(), WantOfMemory>
    ensures { OnOk result (held.new ≡ held.old ++ region_held block region.now) }
{
    let Some(stated) = &region.content else {
        return Ok(());
    };
    match &stated.content {
        Content::Volume(name) => held.push(HeldRegion {
            name: name.copy(alloc)?,
            size: region.size,
            block,
        }),
        _ => Ok(()),
    }
}

fn push_regions(
    alloc: Global,
    held: &mut Rows<HeldRegion>,
    block: Option<u64>,
    regions: &[StatedRegion],
) -> Result<(), WantOfMemory>
    ensures { OnOk result (held.new ≡ held.old ++ flat_map (region_held block) regions.now) }
{
    let mut left = regions;
    while let [region, rest @ ..] = left {
        push_region(alloc, held, block, region)?;
        left = rest;
    }
    Ok(())
}

fn push_part(
    alloc: Global,
    held: &mut Rows<HeldRegion>,
    part: &FdfSection,
) -> Result<(), WantOfMemory>
    ensures { OnOk result (held.new ≡ held.old ++ part_held part.now) }
{
    match part {
        FdfSection::Device(device) => {
            push_regions(alloc, held, device.first_block, device.regions.items())
        }
        _ => Ok(()),
    }
}

/// The regions that hold volumes.
pub(crate) fn all_held(
    alloc: Global,
    parts: &[FdfSection],
) -> Result<Rows<HeldRegion>, WantOfMemory>
    ensures { IfOk result (λ held. held ≡ all_held parts.now) }
{
    let mut held = Rows::new(alloc);
    let mut left = parts;
    while let [part, rest @ ..] = left {
        push_part(alloc, &mut held, part)?;
        left = rest;
    }
    Ok(held)
}

fn with_region(held: Option<HeldSizes>, region: &HeldRegion) -> HeldSizes
    ensures { result ≡ with_region held region.now }
{
    match held {
        Some(held) => {
            if held.other.is_some() || region.size == held.first {
                held
            } else {
                HeldSizes {
                    first: held.first,
                    block: held.block,
                    other: Some(region.size),
                }
            }
        }
        None => HeldSizes {
            first: region.size,
            block: region.block,
            other: None,
        },
    }
}

fn add_region(
    alloc: Global,
    sizes: &mut IndexMap<Vec<u8>, HeldSizes>,
    region: &HeldRegion,
) -> Result<(), WantOfMemory>
    ensures { (above : List Part) → Sizes above sizes.old
        → OnOk result (Sizes (above ++ region.now ∷ []) sizes.new) }
{
    let key = lower_case(alloc, region.name.bytes())?;
    let size = with_region(sizes.get(&key).copied(), region);
    match sizes.insert(key, size) {
        Ok(_) => Ok(()),
        Err(_) => Err(WantOfMemory),
    }
}

/// The sizes of the regions by the names of their volumes in lower case.
pub(crate) fn sizes_of(
    alloc: Global,
    regions: &[HeldRegion],
) -> Result<IndexMap<Vec<u8>, HeldSizes>, WantOfMemory>
    ensures { IfOk result (Sizes regions.now) }
{
    let mut sizes = IndexMap::new(alloc);
    for region in regions {
        add_region(alloc, &mut sizes, region)?;
    }
    Ok(sizes)
}

/// The sizes of the regions that hold a volume, by a table of them.
pub(crate) fn held_in(
    alloc: Global,
    sizes: &IndexMap<Vec<u8>, HeldSizes>,
    volume: &StatedVolume,
) -> Result<Option<HeldSizes>, WantOfMemory>
    ensures { (regions : List Part) → Sizes regions sizes.now
        → IfOk result (λ held. held ≡ held_of regions volume.now) }
{
    let key = lower_case(alloc, volume.name.bytes())?;
    Ok(sizes.get(&key).copied())
}
