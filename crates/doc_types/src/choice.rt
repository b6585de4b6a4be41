//! A module as it is built, and what is chosen for it (EDK II DSC specification, library classes).
use crate::arch::Arch;
use build_base::{Path, Rows, Same, Text, WantOfMemory, all_same, copied};
use std::alloc::Global;

/// A module for one architecture. `inf` is its INF file.
#[derive(Drop)]
pub struct Module {
    pub arch: Arch,
    pub inf: Path,
}

/// A function that a library instance has called, by the instance's INF file.
#[derive(Drop)]
pub struct Call {
    pub inf: Path,
    pub name: Text,
}

/// The library instances of a module, in the order in which they are found, and what they have
/// called before and after its entry point. `library`: the module is itself a library, and nothing
/// is chosen for it.
#[derive(Drop)]
pub struct Choice {
    pub library: bool,
    pub instances: Rows<Path>,
    pub constructors: Rows<Call>,
    pub destructors: Rows<Call>,
}

impl Same for Module {
    fn copy(&self, alloc: Global) -> Result<Module, WantOfMemory> {
        copied!(Module, self, alloc; inf; arch)
    }

    fn same(&self, other: &Module) -> bool {
        all_same!(self, other; arch, inf)
    }
}

impl Same for Call {
    fn copy(&self, alloc: Global) -> Result<Call, WantOfMemory> {
        copied!(Call, self, alloc; inf, name)
    }

    fn same(&self, other: &Call) -> bool {
        all_same!(self, other; inf, name)
    }
}

impl Same for Choice {
    fn copy(&self, alloc: Global) -> Result<Choice, WantOfMemory> {
        copied!(Choice, self, alloc; instances, constructors, destructors; library)
    }

    fn same(&self, other: &Choice) -> bool {
        all_same!(self, other; library, instances, constructors, destructors)
    }
}
