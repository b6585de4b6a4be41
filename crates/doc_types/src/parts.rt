//! Modules with the descriptions that they need.
use crate::choice::Module;
use crate::module::InfDoc;
use crate::package::DecDoc;
use build_base::{Path, Rows, Same, WantOfMemory, all_same, copied};
use shared_value::Shared;
use std::alloc::Global;

/// A package and what its DEC file says, which all modules that name it share.
#[derive(Drop)]
pub struct Package {
    pub path: Path,
    pub doc: Shared<DecDoc>,
}

/// A module, the descriptions of itself and of its library instances in first-found order, and the
/// packages that they name. The first of `infs` is the module's own.
pub struct ModuleParts {
    pub module: Module,
    pub infs: Rows<Shared<InfDoc>>,
    pub decs: Rows<Package>,
}

// A written `Drop` is one call for whoever lets the value go. A derived one is spelled out there.
impl Drop for ModuleParts {
    fn drop(self) {
        let ModuleParts {
            module: _module,
            infs: _infs,
            decs: _decs,
        } = self;
    }
}

impl Same for Package {
    fn copy(&self, alloc: Global) -> Result<Package, WantOfMemory> {
        copied!(Package, self, alloc; path, doc)
    }

    fn same(&self, other: &Package) -> bool {
        all_same!(self, other; path, doc)
    }
}

impl Same for ModuleParts {
    fn copy(&self, alloc: Global) -> Result<ModuleParts, WantOfMemory> {
        copied!(ModuleParts, self, alloc; module, infs, decs)
    }

    fn same(&self, other: &ModuleParts) -> bool {
        all_same!(self, other; module, infs, decs)
    }
}
