//! A flash device by the answers of its step.
ghost use Rattle.volume_steps.specs.Devices.{vpd_content, vpd_given, tree_content, region_content, contents_of, device_given};
ghost use Rattle.std.specs.Prelude.{◌≡◌, ◌≤◌, ◌+◌, ◌++◌, [], length, IfOk, OnOk};
ghost use Rattle.build_base.specs.Answer.{AnswersAs};
ghost use Rattle.build_stages.specs.Gives.{GivesIn};
ghost use Rattle.fd_regions.specs.Device.{device_of};
ghost use Rattle.volume_steps.specs.Asks.{is_vpd};

use crate::asks::is_vpd;
use build_base::{Image, Path, Permit, Refusal, Rows, RunWriter, Same, Text, WantOfMemory};
use build_stages::{Given, Stop};
use doc_types::flash::{DevicePlan, Region, RegionKind};
use doc_types::volume::VolumePlan;
use fd_regions::{Contents, device};
use std::alloc::Global;
use std::marker::Model;
use step_answers::contents::{nested_volume, whole_content};
use step_pack::{Key, Out};

fn vpd_of(out: &Out) -> Result<&Text, Stop<Key>>
    ensures { GivesIn (λ text. text.now) result (vpd_given out.now) }
{
    match out {
        Out::Vpd(vpd) => Ok(&vpd.image),
        _ => Err(Stop::ImpossibleAnswer),
    }
}

// The image of vital product data.
fn vpd_content<'a>(given: &Given<'a, Key, Out>) -> Result<&'a Text, Stop<Key>>
    ensures { GivesIn (λ text. text.now) result (vpd_content given.now) }
{
    vpd_of(given.part(&Key::Vpd)?)
}

/// Where the bytes of a region stand.
#[derive(Drop)]
enum Held<'a> {
    Nothing,
    Bytes(&'a Text),
    Image(&'a Image),
}

/// What a region holds, seen as its bytes.
#[derive(Drop)]
struct RegionPart<'a> {
    held: Held<'a>,
}

impl<'a> Model for RegionPart<'a> {
    ghost use Rattle.std.specs.Prelude.{List, ℕ};
    ghost use Rattle.volume_steps.specs.Devices.{held_bytes};

    ghost Value = { List ℕ };

    ghost view = { λ p. held_bytes p.held };
}

impl<'a> RegionPart<'a> {
    fn nothing() -> RegionPart<'a>
        ensures { result ≡ [] }
    {
        RegionPart {
            held: Held::Nothing,
        }
    }

    fn of_text(text: &'a Text) -> RegionPart<'a>
        ensures { result ≡ text.now }
    {
        RegionPart {
            held: Held::Bytes(text),
        }
    }

    fn of_image(image: &'a Image) -> RegionPart<'a>
        ensures { result ≡ image.now }
    {
        RegionPart {
            held: Held::Image(image),
        }
    }

    fn length(&self) -> u64
        ensures { result ≡ length self.now }
    {
        match &self.held {
            Held::Nothing => 0,
            Held::Bytes(text) => text.bytes().len() as u64,
            Held::Image(image) => image.length(),
        }
    }

    fn write(&self, alloc: Global, out: &mut RunWriter) -> Result<(), WantOfMemory>
        ensures bytes { OnOk result (out.new.bytes ≡ out.old.bytes ++ self.now) }
        ensures kept { OnOk result (out.new.kept ≤ out.old.kept + length self.now) }
        ensures free { OnOk result (out.new.free ≡ out.old.free) }
    {
        match &self.held {
            Held::Nothing => Ok(()),
            Held::Bytes(text) => {
                out.put(text.copy(alloc)?)?;
                Ok(())
            }
            Held::Image(image) => {
                out.put_runs(alloc, image.runs())?;
                Ok(())
            }
        }
    }
}

/// What the regions of a device hold.
#[derive(Drop)]
struct RegionParts<'a> {
    parts: Rows<RegionPart<'a>>,
}

impl<'a> Contents for RegionParts<'a> {
    ghost contents = { λ p. p.parts };

    fn length(&self, region: usize) -> u64 {
        self.parts.items()[region].length()
    }

    fn write(&self, alloc: Global, region: usize, out: &mut RunWriter) -> Result<(), WantOfMemory> {
        self.parts.items()[region].write(alloc, out)?;
        Ok(())
    }
}

// The bytes of a region of a path.
fn tree_content<'a>(
    alloc: Global,
    vpd: &Option<Path>,
    given: &Given<'a, Key, Out>,
    path: &Path,
) -> Result<&'a Text, Stop<Key>>
    ensures { GivesIn (λ text. text.now) result
        (tree_content (is_vpd vpd.now path.now) given.now path.now) }
{
    if is_vpd(vpd, path) {
        return vpd_content(given);
    }
    whole_content(alloc, given, path)
}

fn region_content<'a>(
    alloc: Global,
    vpd: &Option<Path>,
    volumes: &[VolumePlan],
    given: &Given<'a, Key, Out>,
    kind: &'a RegionKind,
) -> Result<RegionPart<'a>, Stop<Key>>
    ensures { GivesIn (λ part. part) result
        (region_content vpd.now volumes.now given.now kind.now) }
{
    match kind {
        RegionKind::Empty => Ok(RegionPart::nothing()),
        RegionKind::Bytes(bytes) => Ok(RegionPart::of_text(bytes)),
        RegionKind::Tree(path) => {
            let bytes = tree_content(alloc, vpd, given, path)?;
            Ok(RegionPart::of_text(bytes))
        }
        RegionKind::Volume(number) => {
            let image = nested_volume(volumes, given, *number)?;
            Ok(RegionPart::of_image(image))
        }
    }
}

#[tactic(auto, unfolding(crate::specs::Devices::contents_of))]
fn contents_of<'a>(
    alloc: Global,
    vpd: &Option<Path>,
    volumes: &[VolumePlan],
    given: &Given<'a, Key, Out>,
    regions: &'a [Region],
) -> Result<Rows<RegionPart<'a>>, Stop<Key>>
    ensures value { GivesIn (λ parts. parts) result
        (contents_of vpd.now volumes.now given.now regions.now) }
    ensures count { IfOk result (λ parts. length regions.now ≡ length parts) }
{
    let mut parts = Rows::new(alloc);
    let mut left = regions;
    while let [region, rest @ ..] = left {
        parts.push(region_content(alloc, vpd, volumes, given, &region.kind)?)?;
        left = rest;
    }
    Ok(parts)
}

fn image(
    alloc: Global,
    permit: Permit,
    plan: &DevicePlan,
    parts: &RegionParts<'_>,
) -> Result<Image, Refusal>
    requires { length plan.now.regions ≡ length parts.now.parts }
    ensures { AnswersAs (λ image. image) result (device_of plan.now parts.now.parts) }
{
    match device(alloc, permit, plan, parts) {
        Ok(runs) => Ok(Image::of_runs(runs)),
        Err(refusal) => Err(refusal),
    }
}

/// The device of a plan, whose regions hold what the answers tell. `vpd` is the path of the image
/// of vital product data, where there is one.
#[tactic(auto, unfolding(crate::specs::Devices::device_given))]
pub fn device_given(
    alloc: Global,
    permit: Permit,
    vpd: &Option<Path>,
    volumes: &[VolumePlan],
    plan: &DevicePlan,
    given: &Given<'_, Key, Out>,
) -> Result<Image, Stop<Key>>
    ensures { GivesIn (λ image. image) result
        (device_given vpd.now volumes.now plan.now given.now) }
{
    let parts = contents_of(alloc, vpd, volumes, given, plan.regions.items())?;
    Ok(image(alloc, permit, plan, &RegionParts { parts })?)
}
