//! The volumes of a flash description by their numbers, and the steps that make them.
ghost use Rattle.std.specs.Prelude.{◌≡◌};
ghost use Rattle.std.specs.Option.{option_copied};
ghost use Rattle.step_answers.specs.Volumes.{is_based, volume_key, step_by, volume_step, fits_u16, item_of_number, volume_at};
ghost use Rattle.build_stages.specs.Gives.{GivesIn};

use build_base::fault_codes::VOLUME_UNKNOWN;
use build_base::refuse;
use build_stages::Stop;
use doc_types::flash::FlashDoc;
use doc_types::volume::VolumePlan;
use doc_types::volume_head::VolumeHead;
use std::alloc::Global;
use step_pack::Key;

/// Whether a volume is moved to its base: where it has one, and is to be.
pub fn is_based(head: &VolumeHead) -> bool
    ensures { result ≡ is_based head.now }
{
    head.base.is_some() && head.force
}

/// The step of a volume: one that is moved to its base has a step of its own.
pub fn volume_key(number: u32, plan: &VolumePlan) -> Key
    ensures { result ≡ volume_key number plan.now }
{
    if is_based(&plan.head) {
        return Key::Based(number);
    }
    Key::Volume(number)
}

fn step_by(number: u32, plan: Option<&VolumePlan>) -> Key
    ensures { result ≡ step_by number (option_copied plan.entry) }
{
    match plan {
        Some(plan) => volume_key(number, plan),
        None => Key::Volume(number),
    }
}

/// The step of the volume of a number.
pub fn volume_step(volumes: &[VolumePlan], number: u32) -> Key
    ensures { result ≡ volume_step volumes.now number }
{
    step_by(number, volumes.get(number as usize))
}

/// Whether there are at most 65,535, as many as a volume has items and a flash description volumes
/// or devices.
pub fn fits_u16(count: usize) -> bool
    ensures { result ≡ fits_u16 count }
{
    count < 0x1_0000
}

/// What a number names, or the fault that it names nothing.
pub fn item_of_number<'a, A>(
    alloc: Global,
    flash: &FlashDoc,
    named: Option<&'a A>,
) -> Result<&'a A, Stop<Key>>
    ensures { GivesIn (λ x. x.now) result (item_of_number flash.now (option_copied named.entry)) }
{
    match named {
        Some(named) => Ok(named),
        None => Err(Stop::from(refuse(alloc, VOLUME_UNKNOWN, &flash.at, b"".as_slice()))),
    }
}

/// The volume of a number.
pub fn volume_at<'a>(
    alloc: Global,
    flash: &'a FlashDoc,
    number: u32,
) -> Result<&'a VolumePlan, Stop<Key>>
    ensures { GivesIn (λ plan. plan.now) result (volume_at flash.now number) }
{
    item_of_number(alloc, flash, flash.volumes.items().get(number as usize))
}
