//! What a line says below one head.
use crate::output_folder::OutputFolder;
use crate::platform_name::PlatformName;
use crate::section::StoreKind;
use build_base::{Guid, Path, Place, Rows, Text};
use doc_types::arch::Arch;
use doc_types::pcd::Kind;
use doc_types::platform::{LibraryLine, PcdLine, Sku};

/// The value of a key of [Defines].
#[derive(Drop)]
pub enum KeyValue {
    Name(PlatformName),
    Guid(Guid),
    Arches(Rows<Arch>),
    Output(OutputFolder),
    SkuChoice(Place, Text),
    Flash(Path),
}

/// A SKU, and its line.
#[derive(Drop)]
pub struct SkuLine {
    pub at: Place,
    pub sku: Sku,
}

/// The line of a component, with an open brace or without.
#[derive(Drop)]
pub struct Begun {
    pub at: Place,
    pub arch: Arch,
    pub inf: Path,
    pub braced: bool,
}

/// What the lines below a tag say.
#[derive(Clone, Copy, PartialEq, Eq)]
pub enum Tag {
    Libraries,
    Defines,
    Pcds(Kind, StoreKind),
    Ignored,
}

/// What a line of [Components] says.
#[derive(Drop)]
pub enum Part {
    Begins(Begun),
    Tagged(Tag),
    Library(LibraryLine),
    Pcd(PcdLine),
    FileGuid(Arch, Guid),
    Closes,
}

/// What a line says.
#[derive(Drop)]
pub enum DscRow {
    Key(KeyValue),
    Sku(SkuLine),
    Library(LibraryLine),
    Pcd(PcdLine),
    Part(Part),
}
