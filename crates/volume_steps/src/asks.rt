//! What the steps of volumes and devices ask, once the flash description is known.
ghost use Rattle.std.specs.Prelude.{◌≡◌, ◌++◌, ◌<◌, not, length, IfOk, OnOk};
ghost use Rattle.step_answers.specs.Volumes.{volume_step};
ghost use Rattle.volume_steps.specs.Asks.{is_apriori, numbers_where, file_order, item_asks, is_vpd, kind_asks, region_asks, kind_below, regions_below};

use build_base::{Path, Rows, WantOfMemory};
use doc_types::flash::{Region, RegionKind};
use doc_types::volume::{Item, VolumePlan};
use std::alloc::Global;
use step_answers::contents::push_file;
use step_answers::volumes::{fits_u16, volume_step};
use step_engine::Ask;
use step_pack::Key;

fn is_apriori(item: &Item) -> bool
    ensures { result ≡ is_apriori item.now }
{
    match item {
        Item::Apriori { .. } => true,
        Item::File(_) | Item::Inf(_) => false,
    }
}

// The numbers of the a priori files of a volume.
#[tactic(auto, unfolding(crate::specs::Asks::numbers_where))]
fn push_apriori(order: &mut Rows<u32>, items: &[Item]) -> Result<(), WantOfMemory>
    requires { length items.now < 65536 }
    ensures { OnOk result (order.new ≡ order.old ++ numbers_where is_apriori 0 items.now) }
{
    let mut number: u32 = 0;
    let mut left = items;
    while let [item, rest @ ..] = left {
        if is_apriori(item) {
            order.push(number)?;
        }
        number += 1;
        left = rest;
    }
    Ok(())
}

// Those of its other files.
#[tactic(auto, unfolding(crate::specs::Asks::numbers_where))]
fn push_others(order: &mut Rows<u32>, items: &[Item]) -> Result<(), WantOfMemory>
    requires { length items.now < 65536 }
    ensures { OnOk result (order.new ≡ order.old
        ++ numbers_where (λ item. not (is_apriori item)) 0 items.now) }
{
    let mut number: u32 = 0;
    let mut left = items;
    while let [item, rest @ ..] = left {
        if !is_apriori(item) {
            order.push(number)?;
        }
        number += 1;
        left = rest;
    }
    Ok(())
}

/// The numbers of the files of a volume in the order in which they stand in it: a priori files
/// first.
pub(crate) fn file_order(alloc: Global, items: &[Item]) -> Result<Rows<u32>, WantOfMemory>
    requires { length items.now < 65536 }
    ensures { IfOk result (λ order. order ≡ file_order items.now) }
{
    let mut order = Rows::new(alloc);
    push_apriori(&mut order, items)?;
    push_others(&mut order, items)?;
    Ok(order)
}

/// The files of a volume in the order in which they stand in it.
#[tactic(auto, using(crate::proofs::OrderLemmas::asks_in_order))]
pub fn item_asks(alloc: Global, volume: u32, items: &[Item]) -> Result<Rows<Ask<Key>>, WantOfMemory>
    requires { length items.now < 65536 }
    ensures { IfOk result (λ asks. asks ≡ item_asks volume items.now) }
{
    let order = file_order(alloc, items)?;
    let mut asks = Rows::new(alloc);
    let mut left = order.items();
    while let [number, rest @ ..] = left {
        asks.push(Ask::Part(Key::File(volume, *number)))?;
        left = rest;
    }
    Ok(asks)
}

/// Whether a path is that of the image of vital product data, where there is one.
pub fn is_vpd(vpd: &Option<Path>, path: &Path) -> bool
    ensures { result ≡ is_vpd vpd.now path.now }
{
    match vpd {
        Some(image) => path.bytes() == image.bytes(),
        None => false,
    }
}

fn push_kind(
    alloc: Global,
    asks: &mut Rows<Ask<Key>>,
    volumes: &[VolumePlan],
    vpd: &Option<Path>,
    kind: &RegionKind,
) -> Result<(), WantOfMemory>
    ensures { OnOk result (asks.new ≡ asks.old ++ kind_asks volumes.now vpd.now kind.now) }
{
    match kind {
        RegionKind::Empty | RegionKind::Bytes(_) => Ok(()),
        RegionKind::Tree(path) => {
            if is_vpd(vpd, path) {
                return asks.push(Ask::Part(Key::Vpd));
            }
            push_file(alloc, asks, path)
        }
        RegionKind::Volume(number) => {
            asks.push(Ask::Part(volume_step(volumes, *number)))?;
            Ok(())
        }
    }
}

/// The file, the volume or the image of vital product data of each region of a device. `vpd` is the
/// path of that image, where there is one.
pub fn region_asks(
    alloc: Global,
    volumes: &[VolumePlan],
    vpd: &Option<Path>,
    regions: &[Region],
) -> Result<Rows<Ask<Key>>, WantOfMemory>
    ensures { IfOk result (λ asks. asks ≡ region_asks volumes.now vpd.now regions.now) }
{
    let mut asks = Rows::new(alloc);
    let mut left = regions;
    while let [region, rest @ ..] = left {
        push_kind(alloc, &mut asks, volumes, vpd, &region.kind)?;
        left = rest;
    }
    Ok(asks)
}

fn kind_below(kind: &RegionKind) -> bool
    ensures { result ≡ kind_below kind.now }
{
    match kind {
        RegionKind::Empty | RegionKind::Bytes(_) | RegionKind::Tree(_) => true,
        RegionKind::Volume(number) => fits_u16(*number as usize),
    }
}

/// Whether the regions of a device name volumes that there can be.
pub fn regions_below(regions: &[Region]) -> bool
    ensures { result ≡ regions_below regions.now }
{
    regions.iter().all(|region| kind_below(&region.kind))
}
