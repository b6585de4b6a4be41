//! The steps of a build, each by its key.
ghost use Rattle.std.specs.Prelude.{◌≡◌};
ghost use Rattle.build_stages.specs.Gives.{Gives};
ghost use Rattle.build_stages.specs.Known.{outcome_at};
ghost use Rattle.build_rules.specs.Rules.{edk};
ghost use Rattle.step_pack.specs.Keys.{key_cmp};

use build_base::Permit;
use build_stages::{Known, Stop};
use document_steps::{dec, flash, inf, platform};
use file_steps::file;
use library_steps::modules::{choice, pcds, values};
use macro_conditions::OpenDocument;
use output_steps::all::all;
use std::alloc::Global;
use step_pack::{Key, Out};
use text_steps::texts::{code, depex, report};
use volume_steps::vpd::vpd;
use volume_steps::{device, rebased_volume, volume};

// A number above those of all steps whose outcome a step asks for.
pub(crate) fn rank_of(key: &Key) -> u64
    ensures { result ≡ edk.rank key.now }
{
    match key {
        Key::Dec(_) | Key::Inf(_) => 1,
        Key::Platform => 2,
        Key::Flash => 3,
        Key::Choice(_) => 4,
        Key::PlatformPcds => 5,
        Key::Values(_) | Key::Vpd => 6,
        Key::Code(_) | Key::Depex(_) => 7,
        Key::File(volume, _) => 8 + 2 * *volume as u64,
        Key::Volume(volume) | Key::Based(volume) => 9 + 2 * *volume as u64,
        Key::Device(_) => 0x4_0000_0000,
        Key::Report => 0x4_0000_0001,
        Key::All => 0x4_0000_0002,
    }
}

// What a step gives by what is known. A document that stops is parked.
pub(crate) fn outcome_of(
    alloc: Global,
    key: &Key,
    known: &Known<'_, Key, Out>,
    park: &mut Option<OpenDocument>,
    permit: Permit,
) -> Result<Out, Stop<Key>>
    ensures { Gives (λ x. x) result (outcome_at key_cmp edk known.now key.now) }
{
    match key {
        Key::Dec(path) => dec(alloc, known, path, park, permit),
        Key::Inf(path) => inf(alloc, known, path, park, permit),
        Key::Platform => platform(alloc, known, park, permit),
        Key::Flash => flash(alloc, known, park, permit),
        Key::Choice(module) => choice(alloc, known, module, permit),
        Key::PlatformPcds => pcds(alloc, known, permit),
        Key::Values(module) => values(alloc, known, module, permit),
        Key::Code(module) => code(alloc, known, module, permit),
        Key::Depex(module) => depex(alloc, known, module, permit),
        Key::File(volume, item) => file(alloc, known, *volume, *item, permit),
        Key::Volume(number) => volume(alloc, known, *number, permit),
        Key::Based(number) => rebased_volume(alloc, known, *number, permit),
        Key::Device(number) => device(alloc, known, *number, permit),
        Key::Report => report(alloc, known, permit),
        Key::All => all(alloc, known, permit),
        Key::Vpd => vpd(alloc, known, permit),
    }
}
