//! A platform's description (EDK II DSC specification, version 1.28).
use crate::arch::Arch;
use crate::components::Components;
use crate::library_lines::LibraryLines;
use crate::module_type::ModuleType;
use crate::pcd::{Datum, Kind, PcdName};
use crate::pcd_lines::PcdLines;
use build_base::together::three;
use build_base::{
    Guid, Macro, Path, Place, Rows, Same, Text, WantOfMemory, all_same, copied, copies,
};
use std::alloc::Global;

/// A SKU: its number, its name, and the SKU whose values it takes where it has none. DEFAULT has no
/// parent.
#[derive(Drop)]
pub struct Sku {
    pub id: u64,
    pub name: Text,
    pub parent: Text,
}

/// A library class and the INF file of the library that serves it, for modules of an architecture
/// and a type.
#[derive(Drop)]
pub struct LibraryLine {
    pub at: Place,
    pub arch: Arch,
    pub kind: Option<ModuleType>,
    pub class: Text,
    pub instance: Path,
}

/// Where a PCD's value is kept at run time: by the database alone, in a variable, or in the region
/// of vital product data. Texts stand as written; an `offset` that is none is chosen by the build.
#[derive(Drop)]
pub enum Store {
    Plain,
    Hii {
        variable: Text,
        guid: Text,
        offset: u32,
        attributes: Text,
    },
    Vpd {
        offset: Option<u32>,
        rest: Rows<Text>,
    },
}

/// A line that gives a PCD its value, as written, for an architecture and a SKU.
pub struct PcdLine {
    pub at: Place,
    pub arch: Arch,
    pub kind: Kind,
    pub sku: Text,
    pub pcd: PcdName,
    pub value: Option<Text>,
    pub datum: Option<Datum>,
    pub max: Option<u32>,
    pub store: Store,
}

// A written `Drop` is one call for whoever lets the value go. A derived one is spelled out there.
impl Drop for PcdLine {
    fn drop(self) {
        let PcdLine {
            at: _at,
            arch: _arch,
            kind: _kind,
            sku: _sku,
            pcd: _pcd,
            value: _value,
            datum: _datum,
            max: _max,
            store: _store,
        } = self;
    }
}

/// A module of the platform, and what its braces say of it alone.
pub struct Component {
    pub at: Place,
    pub arch: Arch,
    pub inf: Path,
    pub file_guid: Option<Guid>,
    pub libraries: Rows<LibraryLine>,
    pub pcds: Rows<PcdLine>,
}

impl Drop for Component {
    fn drop(self) {
        let Component {
            at: _at,
            arch: _arch,
            inf: _inf,
            file_guid: _file_guid,
            libraries: _libraries,
            pcds: _pcds,
        } = self;
    }
}

/// What a DSC file says. `output` is its OUTPUT_DIRECTORY, `arches` its SUPPORTED_ARCHITECTURES as
/// written, `sku_choice` its SKUID_IDENTIFIER as written, and `flash` its FLASH_DEFINITION. Each
/// list stands line by line, and for each line by its section's heads. `macros` are those at its
/// end.
pub struct PlatformDoc {
    pub at: Place,
    pub name: Text,
    pub guid: Guid,
    pub output: Path,
    pub arches: Rows<Arch>,
    pub sku_choice: Text,
    pub flash: Option<Path>,
    pub skus: Rows<Sku>,
    pub libraries: LibraryLines,
    pub components: Components,
    pub pcds: PcdLines<PcdLine>,
    pub macros: Rows<Macro>,
}

impl Drop for PlatformDoc {
    fn drop(self) {
        let PlatformDoc {
            at: _at,
            name: _name,
            guid: _guid,
            output: _output,
            arches: _arches,
            sku_choice: _sku_choice,
            flash: _flash,
            skus: _skus,
            libraries: _libraries,
            components: _components,
            pcds: _pcds,
            macros: _macros,
        } = self;
    }
}

impl Same for Store {
    fn copy(&self, alloc: Global) -> Result<Store, WantOfMemory> {
        match self {
            Store::Plain => Ok(Store::Plain),
            Store::Hii {
                variable,
                guid,
                offset,
                attributes,
            } => {
                let (variable, guid, attributes) = three(variable, guid, attributes, alloc)?;
                Ok(Store::Hii {
                    variable,
                    guid,
                    offset: *offset,
                    attributes,
                })
            }
            Store::Vpd { offset, rest } => Ok(Store::Vpd {
                offset: *offset,
                rest: rest.copy(alloc)?,
            }),
        }
    }

    fn same(&self, other: &Store) -> bool {
        match (self, other) {
            (Store::Plain, Store::Plain) => true,
            (
                Store::Hii {
                    variable,
                    guid,
                    offset,
                    attributes,
                },
                Store::Hii {
                    variable: other_variable,
                    guid: other_guid,
                    offset: other_offset,
                    attributes: other_attributes,
                },
            ) => {
                variable.same(other_variable)
                    && guid.same(other_guid)
                    && *offset == *other_offset
                    && attributes.same(other_attributes)
            }
            (
                Store::Vpd { offset, rest },
                Store::Vpd {
                    offset: other_offset,
                    rest: other_rest,
                },
            ) => offset.same(other_offset) && rest.same(other_rest),
            _ => false,
        }
    }
}

impl Same for Sku {
    fn copy(&self, alloc: Global) -> Result<Sku, WantOfMemory> {
        copied!(Sku, self, alloc; name, parent; id)
    }

    fn same(&self, other: &Sku) -> bool {
        all_same!(self, other; id, name, parent)
    }
}

impl Same for LibraryLine {
    fn copy(&self, alloc: Global) -> Result<LibraryLine, WantOfMemory> {
        copied!(LibraryLine, self, alloc; at, class, instance; arch, kind)
    }

    fn same(&self, other: &LibraryLine) -> bool {
        all_same!(self, other; at, arch, kind, class, instance)
    }
}

impl Same for PcdLine {
    fn copy(&self, alloc: Global) -> Result<PcdLine, WantOfMemory> {
        copied!(PcdLine, self, alloc; at, sku, pcd, value, store; arch, kind, datum, max)
    }

    fn same(&self, other: &PcdLine) -> bool {
        all_same!(self, other; at, arch, kind, sku, pcd, value, datum, max, store)
    }
}

impl Same for Component {
    fn copy(&self, alloc: Global) -> Result<Component, WantOfMemory> {
        copied!(Component, self, alloc; at, inf, libraries, pcds; arch, file_guid)
    }

    fn same(&self, other: &Component) -> bool {
        all_same!(self, other; at, arch, inf, file_guid, libraries, pcds)
    }
}

impl Same for PlatformDoc {
    fn copy(&self, alloc: Global) -> Result<PlatformDoc, WantOfMemory> {
        let (at, name, output, arches, sku_choice) =
            copies!(self, alloc; at, name, output, arches, sku_choice)?;
        let (flash, skus, libraries, components, pcds, macros) =
            copies!(self, alloc; flash, skus, libraries, components, pcds, macros)?;
        Ok(PlatformDoc {
            at,
            name,
            guid: self.guid,
            output,
            arches,
            sku_choice,
            flash,
            skus,
            libraries,
            components,
            pcds,
            macros,
        })
    }

    fn same(&self, other: &PlatformDoc) -> bool {
        all_same!(self, other; at, name, guid, output, arches, sku_choice, flash, skus, libraries, components, pcds, macros)
    }
}
