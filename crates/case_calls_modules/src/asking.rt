//! What is asked for the values of a platform.

ghost use Rattle.std.specs.Prelude.{◌≡◌, IfOk};
ghost use Rattle.pcd_resolve.specs.Platform.{SkusEnd};

use crate::plans::{Plan, plan_of};
use build_base::{Place, Rows, Same, WantOfMemory};
use case_calls_documents::platform_of;
use case_calls_texts::checked_copy;
use case_player::{Output, Stop, Wrong};
use doc_types::asks::PlatformAsk;
use doc_types::flash::FlashDoc;
use doc_types::pcd::PcdSet;
use doc_types::pcd_lines::PcdLines;
use doc_types::platform::PlatformDoc;
use shared_value::Shared;
use std::alloc::Global;

fn flash_of(alloc: Global, at: Place, sets: Rows<PcdSet>) -> Result<FlashDoc, WantOfMemory> {
    let sets = PcdLines::of(alloc, sets)?;
    Ok(FlashDoc {
        at,
        sets,
        devices: Rows::new(alloc),
        volumes: Rows::new(alloc),
        rule_list: Rows::new(alloc),
    })
}

fn shared_flash(
    alloc: Global,
    at: &Place,
    sets: Rows<PcdSet>,
) -> Result<Shared<FlashDoc>, WantOfMemory> {
    let at = at.copy(alloc)?;
    Shared::new(alloc, flash_of(alloc, at, sets)?)
}

fn ask_with(alloc: Global, plan: Plan, platform: PlatformDoc) -> Result<PlatformAsk, WantOfMemory>
    ensures { IfOk result (λ ask. ask.platform ≡ platform) }
{
    let mut plan = plan;
    let flash = shared_flash(alloc, &platform.at, plan.take_sets(alloc))?;
    let platform = Shared::new(alloc, platform)?;
    Ok(plan.into_ask(platform, flash))
}

fn platform_named(alloc: Global, files: &[Output], plan: &Plan) -> Result<PlatformDoc, Stop>
    ensures { IfOk result (λ platform. SkusEnd platform.skus) }
{
    match &plan.platform {
        Some(path) => platform_of(alloc, files, path),
        None => Err(Stop::Wrong(Wrong::Line("no platform"))),
    }
}

/// What the file of this path asks.
pub fn ask_of(alloc: Global, files: &[Output], path: &str) -> Result<PlatformAsk, Stop>
    ensures { IfOk result (λ ask. SkusEnd ask.platform.skus) }
{
    let plan = plan_of(alloc, files, path)?;
    let platform = platform_named(alloc, files, &plan)?;
    let ask = ask_with(alloc, plan, platform)?;
    checked_copy(alloc, &ask)
}
