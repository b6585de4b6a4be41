//! What the image is made from.
use build_base::Rows;
use doc_types::arch::Arch;
use doc_types::platform::PlatformDoc;
use doc_types::values::Values;
use shared_value::Shared;

/// The platform, the values of its dynamic PCDs, and the architectures that are built.
#[derive(Drop)]
pub struct VpdAsk {
    pub platform: Shared<PlatformDoc>,
    pub values: Shared<Values>,
    pub arches: Rows<Arch>,
}
