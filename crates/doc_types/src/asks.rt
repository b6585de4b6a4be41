//! What the values of PCDs are made from.
use crate::arch::Arch;
use crate::flash::FlashDoc;
use crate::parts::ModuleParts;
use crate::pcd::PcdSet;
use crate::platform::PlatformDoc;
use crate::values::Values;
use build_base::{Rows, Same, Text, WantOfMemory, all_same, copied};
use shared_value::Shared;
use std::alloc::Global;

/// For the values of dynamic PCDs, which a platform has once: `commands` are the values that the
/// build's words give, `skus` the SKUs that they choose, none where they leave the choice to the
/// platform, and `arches` the architectures that are built.
pub struct PlatformAsk {
    pub platform: Shared<PlatformDoc>,
    pub flash: Shared<FlashDoc>,
    pub commands: Rows<PcdSet>,
    pub skus: Rows<Text>,
    pub arches: Rows<Arch>,
    pub modules: Rows<ModuleParts>,
}

// A written `Drop` is one call for whoever lets the value go. A derived one is spelled out there.
impl Drop for PlatformAsk {
    fn drop(self) {
        let PlatformAsk {
            platform: _platform,
            flash: _flash,
            commands: _commands,
            skus: _skus,
            arches: _arches,
            modules: _modules,
        } = self;
    }
}

/// For the values of one module. `dynamic` are those of the platform's dynamic PCDs.
pub struct ModuleAsk {
    pub platform: Shared<PlatformDoc>,
    pub flash: Shared<FlashDoc>,
    pub commands: Rows<PcdSet>,
    pub parts: ModuleParts,
    pub dynamic: Shared<Values>,
}

impl Drop for ModuleAsk {
    fn drop(self) {
        let ModuleAsk {
            platform: _platform,
            flash: _flash,
            commands: _commands,
            parts: _parts,
            dynamic: _dynamic,
        } = self;
    }
}

impl Same for PlatformAsk {
    fn copy(&self, alloc: Global) -> Result<PlatformAsk, WantOfMemory> {
        copied!(PlatformAsk, self, alloc; platform, flash, commands, skus, arches, modules)
    }

    fn same(&self, other: &PlatformAsk) -> bool {
        all_same!(self, other; platform, flash, commands, skus, arches, modules)
    }
}

impl Same for ModuleAsk {
    fn copy(&self, alloc: Global) -> Result<ModuleAsk, WantOfMemory> {
        copied!(ModuleAsk, self, alloc; platform, flash, commands, parts, dynamic)
    }

    fn same(&self, other: &ModuleAsk) -> bool {
        all_same!(self, other; platform, flash, commands, parts, dynamic)
    }
}
