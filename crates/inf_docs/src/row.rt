//! What a line says below a head.

use build_base::{Guid, Rows, Text};
use doc_types::module::{Named, Served, UsedPcd};
use doc_types::module_type::ModuleType;

/// The value of a key, a name, a path, a PCD, or the terms of a line of [Depex].
#[derive(Drop)]
pub enum Row {
    BaseName(Text),
    FileGuid(Guid),
    Kind(ModuleType),
    Version(Text),
    EntryPoint(Named),
    Constructor(Named),
    Destructor(Named),
    Serves(Served),
    Package(Named),
    Class(Named),
    GuidName(Named),
    Pcd(UsedPcd),
    Terms(Rows<Text>),
}
