//! Which images a build makes.
ghost use Rattle.std.specs.Prelude.{◌≡◌, ◌++◌, ◌||◌, map, true, replicate, IfOk, OnOk, ℕ};
ghost use Rattle.std.specs.BTreeSet.{contains};
ghost use Rattle.std.specs.Ordering.{nat_cmp};
ghost use Rattle.build_base.specs.Answer.{Checks};
ghost use Rattle.build_stages.specs.Gives.{GivesIn};
ghost use Rattle.meta_lexer.specs.Faults.{first_fault};
ghost use Rattle.volume_nesting.specs.Numbering.{has};
ghost use Rattle.output_steps.specs.Wanted.{device_name, volume_name, is_among, image_unknown, images_unknown, kind_volume, region_volumes, volumes_where, held_volumes, device_marks, volume_marks, wanted_by, wanted_among, all_wanted, wanted_of, is_marked};

use build_base::fault_codes::IMAGE_UNKNOWN;
use build_base::{Refusal, Rows, Same, Text, WantOfMemory, refuse};
use build_stages::Stop;
use doc_types::flash::{DevicePlan, FlashDoc, Region, RegionKind};
use doc_types::volume::VolumePlan;
use flash_document::names::{place_in, places_of};
use indexmap::IndexMap;
use job_fields::images::images_in;
use job_fields::job::Images;
use std::alloc::Global;
use std::collections::BTreeSet;
use std::marker::Model;
use step_answers::readers::or_impossible;
use step_pack::Key;
use volume_nesting::insert;

/// Which images a build makes: a mark for each volume by its number, and one for each device.
#[derive(Drop)]
pub struct Wanted {
    pub volumes: Rows<bool>,
    pub devices: Rows<bool>,
}

// Names that are looked up without regard to case.
#[derive(Drop)]
struct Names {
    rows: Rows<Text>,
    places: IndexMap<Vec<u8>, usize>,
}

impl Model for Names {
    ghost use Rattle.std.specs.Prelude.{List, ℕ};
    ghost use Rattle.flash_document.specs.Names.{Places};

    ghost Value = { List (List ℕ) };

    ghost view = { λ n. n.rows };

    ghost invariant = { λ n. Places n.rows n.places };
}

impl Names {
    fn new(alloc: Global, rows: Rows<Text>) -> Result<Names, WantOfMemory>
        ensures { IfOk result (λ names. names ≡ rows) }
    {
        let places = places_of(alloc, rows.items())?;
        Ok(Names { rows, places })
    }

    fn has(&self, alloc: Global, name: &[u8]) -> Result<bool, WantOfMemory>
        ensures { IfOk result (λ there. there ≡ is_among self.now name.now) }
    {
        let place = place_in(alloc, &self.places, name)?;
        Ok(place.is_some())
    }
}

fn device_rows(alloc: Global, plans: &[DevicePlan]) -> Result<Rows<Text>, WantOfMemory>
    ensures { IfOk result (λ names. names ≡ map device_name plans.now) }
{
    let mut names = Rows::new(alloc);
    let mut left = plans;
    while let [plan, rest @ ..] = left {
        names.push(plan.name.copy(alloc)?)?;
        left = rest;
    }
    Ok(names)
}

fn volume_rows(alloc: Global, plans: &[VolumePlan]) -> Result<Rows<Text>, WantOfMemory>
    ensures { IfOk result (λ names. names ≡ map volume_name plans.now) }
{
    let mut names = Rows::new(alloc);
    let mut left = plans;
    while let [plan, rest @ ..] = left {
        names.push(plan.head.name.copy(alloc)?)?;
        left = rest;
    }
    Ok(names)
}

// The names of the devices of a flash description.
fn device_names(alloc: Global, flash: &FlashDoc) -> Result<Names, WantOfMemory>
    ensures { IfOk result (λ names. names ≡ map device_name flash.now.devices) }
{
    let rows = device_rows(alloc, flash.devices.items())?;
    Names::new(alloc, rows)
}

// The names of its volumes.
fn volume_names(alloc: Global, flash: &FlashDoc) -> Result<Names, WantOfMemory>
    ensures { IfOk result (λ names. names ≡ map volume_name flash.now.volumes) }
{
    let rows = volume_rows(alloc, flash.volumes.items())?;
    Names::new(alloc, rows)
}

fn image_unknown(alloc: Global, flash: &FlashDoc, there: &Names, name: &[u8]) -> Result<(), Refusal>
    ensures { Checks result (image_unknown flash.now there.now name.now) }
{
    if there.has(alloc, name)? {
        return Ok(());
    }
    Err(refuse(alloc, IMAGE_UNKNOWN, &flash.at, name))
}

// Refuses the first name that no image has.
fn check_names(
    alloc: Global,
    flash: &FlashDoc,
    there: &Names,
    names: &[Text],
) -> Result<(), Refusal>
    ensures { Checks result (first_fault (image_unknown flash.now there.now) names.now) }
{
    let mut left = names;
    while let [name, rest @ ..] = left {
        image_unknown(alloc, flash, there, name.bytes())?;
        left = rest;
    }
    Ok(())
}

fn check_devices(alloc: Global, flash: &FlashDoc, names: &[Text]) -> Result<(), Refusal>
    ensures { Checks result
        (first_fault (image_unknown flash.now (map device_name flash.now.devices)) names.now) }
{
    let there = device_names(alloc, flash)?;
    check_names(alloc, flash, &there, names)
}

fn check_volumes(alloc: Global, flash: &FlashDoc, names: &[Text]) -> Result<(), Refusal>
    ensures { Checks result
        (first_fault (image_unknown flash.now (map volume_name flash.now.volumes)) names.now) }
{
    let there = volume_names(alloc, flash)?;
    check_names(alloc, flash, &there, names)
}

fn push_kind(held: &mut Rows<usize>, kind: &RegionKind) -> Result<(), WantOfMemory>
    ensures { OnOk result (held.new ≡ held.old ++ kind_volume kind.now) }
{
    match kind {
        RegionKind::Volume(number) => held.push(*number as usize),
        RegionKind::Empty | RegionKind::Bytes(_) | RegionKind::Tree(_) => Ok(()),
    }
}

fn push_regions(held: &mut Rows<usize>, regions: &[Region]) -> Result<(), WantOfMemory>
    ensures { OnOk result (held.new ≡ held.old ++ region_volumes regions.now) }
{
    let mut left = regions;
    while let [region, rest @ ..] = left {
        push_kind(held, &region.kind)?;
        left = rest;
    }
    Ok(())
}

fn push_held(held: &mut Rows<usize>, is_wanted: bool, plan: &DevicePlan) -> Result<(), WantOfMemory>
    ensures { OnOk result (held.new ≡ held.old ++ volumes_where is_wanted plan.now) }
{
    if is_wanted {
        push_regions(held, plan.regions.items())?;
    }
    Ok(())
}

// The volumes in regions of the devices of these names.
fn held_volumes(
    alloc: Global,
    names: &Names,
    devices: &[DevicePlan],
) -> Result<Rows<usize>, WantOfMemory>
    ensures { IfOk result (λ held. held ≡ held_volumes names.now devices.now) }
{
    let mut held = Rows::new(alloc);
    let mut left = devices;
    while let [plan, rest @ ..] = left {
        let is_wanted = names.has(alloc, plan.name.bytes())?;
        push_held(&mut held, is_wanted, plan)?;
        left = rest;
    }
    Ok(held)
}

fn device_marks(
    alloc: Global,
    names: &Names,
    devices: &[DevicePlan],
) -> Result<Rows<bool>, WantOfMemory>
    ensures { IfOk result (λ marks. marks ≡ device_marks names.now devices.now) }
{
    let mut marks = Rows::new(alloc);
    let mut left = devices;
    while let [plan, rest @ ..] = left {
        marks.push(names.has(alloc, plan.name.bytes())?)?;
        left = rest;
    }
    Ok(marks)
}

// Numbers that are looked up.
fn set_of(alloc: Global, numbers: &[usize]) -> Result<BTreeSet<usize>, WantOfMemory>
    ensures { IfOk result (λ set. (n : ℕ) → contains nat_cmp set n ≡ has numbers.now n) }
{
    let mut set = BTreeSet::new(alloc);
    let mut left = numbers;
    while let [number, rest @ ..] = left {
        insert(&mut set, *number)?;
        left = rest;
    }
    Ok(set)
}

fn volume_mark(
    alloc: Global,
    names: &Names,
    is_held: bool,
    plan: &VolumePlan,
) -> Result<bool, WantOfMemory>
    ensures { IfOk result (λ mark. mark ≡ (is_among names.now plan.now.head.name || is_held)) }
{
    let is_named = names.has(alloc, plan.head.name.bytes())?;
    Ok(is_named || is_held)
}

#[tactic(auto, unfolding(crate::specs::Wanted::volume_marks))]
fn volume_marks(
    alloc: Global,
    names: &Names,
    held: &[usize],
    volumes: &[VolumePlan],
) -> Result<Rows<bool>, WantOfMemory>
    ensures { IfOk result (λ marks. marks ≡ volume_marks names.now held.now 0 volumes.now) }
{
    let set = set_of(alloc, held)?;
    let mut marks = Rows::new(alloc);
    let mut number: usize = 0;
    let mut left = volumes;
    while let [plan, rest @ ..] = left {
        let is_held = set.contains(&number);
        marks.push(volume_mark(alloc, names, is_held, plan)?)?;
        number += 1;
        left = rest;
    }
    Ok(marks)
}

fn wanted_by(
    alloc: Global,
    flash: &FlashDoc,
    device_names: &Names,
    volume_names: &Names,
) -> Result<Wanted, WantOfMemory>
    ensures { IfOk result
        (λ wanted. wanted ≡ wanted_by flash.now device_names.now volume_names.now) }
{
    let held = held_volumes(alloc, device_names, flash.devices.items())?;
    let volumes = volume_marks(alloc, volume_names, held.items(), flash.volumes.items())?;
    let devices = device_marks(alloc, device_names, flash.devices.items())?;
    Ok(Wanted { volumes, devices })
}

// Refuses the first device and then the first volume that a flash description doesn't have.
fn check_images(alloc: Global, flash: &FlashDoc, images: &Images) -> Result<(), Refusal>
    ensures { Checks result (images_unknown flash.now images.now) }
{
    check_devices(alloc, flash, images.devices.items())?;
    check_volumes(alloc, flash, images.volumes.items())
}

// The marks of images, each of which there is.
fn wanted_images(alloc: Global, flash: &FlashDoc, images: Images) -> Result<Wanted, WantOfMemory>
    ensures { IfOk result (λ wanted. wanted ≡ wanted_by flash.now images.devices images.volumes) }
{
    let Images { devices, volumes } = images;
    let device_names = Names::new(alloc, devices)?;
    let volume_names = Names::new(alloc, volumes)?;
    wanted_by(alloc, flash, &device_names, &volume_names)
}

fn wanted_among(alloc: Global, flash: &FlashDoc, images: Images) -> Result<Wanted, Stop<Key>>
    ensures { GivesIn (λ wanted. wanted) result (wanted_among flash.now images) }
{
    check_images(alloc, flash, &images)?;
    Ok(wanted_images(alloc, flash, images)?)
}

fn all_marks(alloc: Global, count: usize) -> Result<Rows<bool>, WantOfMemory>
    ensures { IfOk result (λ marks. marks ≡ replicate count true) }
{
    let mut marks = Vec::new(alloc);
    marks.resize(count, true)?;
    Ok(Rows::from_vec(marks))
}

fn all_wanted(alloc: Global, flash: &FlashDoc) -> Result<Wanted, WantOfMemory>
    ensures { IfOk result (λ wanted. wanted ≡ all_wanted flash.now) }
{
    Ok(Wanted {
        volumes: all_marks(alloc, flash.volumes.items().len())?,
        devices: all_marks(alloc, flash.devices.items().len())?,
    })
}

/// The images that a field of the words wants, all where it is empty, or the fault of its first
/// name that no image has.
#[tactic(auto, unfolding(crate::specs::Wanted::wanted_of))]
pub fn wanted_of(alloc: Global, flash: &FlashDoc, text: &[u8]) -> Result<Wanted, Stop<Key>>
    ensures { GivesIn (λ wanted. wanted) result (wanted_of flash.now text.now) }
{
    if text.is_empty() {
        return Ok(all_wanted(alloc, flash)?);
    }
    let images = or_impossible(images_in(alloc, text)?)?;
    wanted_among(alloc, flash, images)
}

/// Whether the volume or the device of a number is made.
pub fn is_marked(marks: &[bool], number: u32) -> bool
    ensures { result ≡ is_marked marks.now number }
{
    match marks.get(number as usize) {
        Some(mark) => *mark,
        None => false,
    }
}
