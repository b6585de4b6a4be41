//! What the texts are made from.
use build_base::{Guid, Rows, Same, Text, WantOfMemory, all_same, copied};
use doc_types::choice::{Choice, Module};
use doc_types::parts::ModuleParts;
use doc_types::platform::{PlatformDoc, Sku};
use doc_types::values::Values;
use shared_value::Shared;
use std::alloc::Global;

/// For the texts of one module. `file_guid` is that of its component where this states one, else
/// that of its INF file.
#[derive(Drop)]
pub struct CodeAsk {
    pub file_guid: Guid,
    pub parts: ModuleParts,
    pub choice: Choice,
    pub values: Shared<Values>,
}

/// What the report tells of one module.
#[derive(Drop)]
pub struct ModuleReport {
    pub module: Module,
    pub choice: Choice,
    pub values: Shared<Values>,
}

/// For the report of a build: `skus` are the chosen ones, `dynamic` the values of the platform's
/// dynamic PCDs.
#[derive(Drop)]
pub struct ReportAsk {
    pub platform: Shared<PlatformDoc>,
    pub target: Text,
    pub tag: Text,
    pub skus: Rows<Sku>,
    pub dynamic: Shared<Values>,
    pub modules: Rows<ModuleReport>,
}

impl Same for CodeAsk {
    fn copy(&self, alloc: Global) -> Result<CodeAsk, WantOfMemory> {
        copied!(CodeAsk, self, alloc; parts, choice, values; file_guid)
    }

    fn same(&self, other: &CodeAsk) -> bool {
        all_same!(self, other; file_guid, parts, choice, values)
    }
}

impl Same for ModuleReport {
    fn copy(&self, alloc: Global) -> Result<ModuleReport, WantOfMemory> {
        copied!(ModuleReport, self, alloc; module, choice, values)
    }

    fn same(&self, other: &ModuleReport) -> bool {
        all_same!(self, other; module, choice, values)
    }
}

impl Same for ReportAsk {
    fn copy(&self, alloc: Global) -> Result<ReportAsk, WantOfMemory> {
        copied!(ReportAsk, self, alloc; platform, target, tag, skus, dynamic, modules)
    }

    fn same(&self, other: &ReportAsk) -> bool {
        all_same!(self, other; platform, target, tag, skus, dynamic, modules)
    }
}
