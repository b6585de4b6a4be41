//! The step of the image of vital product data.
ghost use Rattle.build_stages.specs.Gives.{GivesIn};
ghost use Rattle.step_answers.specs.Readers.{AdvancesTo};
ghost use Rattle.volume_steps.specs.VpdTree.{placed_vpd, vpd_stages};

use build_base::{Permit, Rows, Same};
use build_stages::{Known, Stop, gather};
use doc_types::arch::Arch;
use doc_types::platform::PlatformDoc;
use doc_types::values::Values;
use doc_types::vpd::Vpd;
use job_fields::fields::ARCHES;
use shared_value::Shared;
use std::alloc::Global;
use step_answers::answers::EdkAnswers;
use step_answers::readers::{shared_platform, values_in};
use step_answers::settings::arches_built_in;
pub use step_answers::vpd_lines::has_vpd;
use step_engine::Ask;
use step_pack::{Key, Out};
use vpd_image::{VpdAsk, vpd_of};

fn placed_vpd(
    alloc: Global,
    permit: Permit,
    platform: &Shared<PlatformDoc>,
    values: &Shared<Values>,
    arches: Rows<Arch>,
) -> Result<Vpd, Stop<Key>>
    ensures { GivesIn (λ vpd. vpd) result (placed_vpd platform.now values.now arches) }
{
    let ask = VpdAsk {
        platform: platform.copy(alloc)?,
        values: values.copy(alloc)?,
        arches,
    };
    Ok(vpd_of(alloc, permit, &ask)?)
}

/// The image of vital product data, its map and its places.
pub fn vpd(alloc: Global, known: &Known<'_, Key, Out>, permit: Permit) -> Result<Out, Stop<Key>>
    ensures { AdvancesTo known.now vpd_stages result }
{
    let asks = [
        Ask::Part(Key::Platform),
        Ask::Part(Key::PlatformPcds),
        Ask::Field(ARCHES),
    ];
    let (given, permit) = gather(alloc, &EdkAnswers, known, &asks, permit)?;
    let platform = shared_platform(&given)?;
    let values = values_in(&given, &Key::PlatformPcds)?;
    let arches = arches_built_in(alloc, platform.value(), &given)?;
    Ok(Out::Vpd(placed_vpd(alloc, permit, platform, values, arches)?))
}
