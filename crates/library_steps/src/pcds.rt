//! What the steps of PCDs give, once all that they ask is answered.
ghost use Rattle.std.specs.Prelude.{◌≡◌, IfOk};
ghost use Rattle.build_base.specs.Answer.{Answers};
ghost use Rattle.pcd_resolve.specs.Platform.{SkusEnd};
ghost use Rattle.library_steps.specs.Pcds.{platform_ask, pcds_given, module_ask, values_given};

use build_base::together::{three, two};
use build_base::{Permit, Refusal, Rows, WantOfMemory};
use doc_types::asks::{ModuleAsk, PlatformAsk};
use doc_types::flash::FlashDoc;
use doc_types::parts::ModuleParts;
use doc_types::pcd::PcdSet;
use doc_types::platform::PlatformDoc;
use doc_types::values::Values;
use pcd_resolve::{resolve_module, resolve_platform};
use shared_value::Shared;
use std::alloc::Global;
use step_answers::settings::Setting;

fn platform_ask(
    alloc: Global,
    platform: &Shared<PlatformDoc>,
    flash: &Shared<FlashDoc>,
    setting: &Setting,
    modules: Rows<ModuleParts>,
) -> Result<PlatformAsk, WantOfMemory>
    ensures { IfOk result (λ ask. ask ≡ platform_ask platform.now flash.now setting.now modules) }
{
    let (platform, flash) = two(platform, flash, alloc)?;
    let (commands, skus, arches) = three(&setting.commands, &setting.skus, &setting.arches, alloc)?;
    Ok(PlatformAsk {
        platform,
        flash,
        commands,
        skus,
        arches,
        modules,
    })
}

/// The rows of a platform's dynamic PCDs.
pub fn pcds_given(
    alloc: Global,
    permit: Permit,
    platform: &Shared<PlatformDoc>,
    flash: &Shared<FlashDoc>,
    setting: &Setting,
    modules: Rows<ModuleParts>,
) -> Result<Values, Refusal>
    requires { SkusEnd platform.now.skus }
    ensures { Answers result (pcds_given platform.now flash.now setting.now modules) }
{
    let ask = platform_ask(alloc, platform, flash, setting, modules)?;
    resolve_platform(alloc, permit, &ask)
}

fn module_ask(
    alloc: Global,
    platform: &Shared<PlatformDoc>,
    flash: &Shared<FlashDoc>,
    commands: Rows<PcdSet>,
    dynamic: &Shared<Values>,
    parts: ModuleParts,
) -> Result<ModuleAsk, WantOfMemory>
    ensures { IfOk result
        (λ ask. ask ≡ module_ask platform.now flash.now commands dynamic.now parts) }
{
    let (platform, flash, dynamic) = three(platform, flash, dynamic, alloc)?;
    Ok(ModuleAsk {
        platform,
        flash,
        commands,
        parts,
        dynamic,
    })
}

/// The values of a module.
pub fn values_given(
    alloc: Global,
    permit: Permit,
    platform: &Shared<PlatformDoc>,
    flash: &Shared<FlashDoc>,
    commands: Rows<PcdSet>,
    dynamic: &Shared<Values>,
    parts: ModuleParts,
) -> Result<Values, Refusal>
    ensures { Answers result (values_given platform.now flash.now commands dynamic.now parts) }
{
    let ask = module_ask(alloc, platform, flash, commands, dynamic, parts)?;
    resolve_module(alloc, permit, &ask)
}
