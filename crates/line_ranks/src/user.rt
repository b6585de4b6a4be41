//! Who asks for libraries.
use doc_types::arch::Arch;
use doc_types::module_type::ModuleType;

/// A module's architecture and type, which hold for each library that it is linked with.
#[derive(Clone, Copy)]
pub struct Consumer {
    pub arch: Arch,
    pub kind: ModuleType,
}
