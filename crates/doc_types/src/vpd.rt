//! The image of vital product data (EDK II DSC specification, [PcdsDynamicVpd] sections) and its
//! map, whose formats are this project's own.
use crate::pcd::PcdName;
use build_base::{Rows, Same, Text, WantOfMemory, all_same, copied};
use std::alloc::Global;

/// Where the value that a PCD has for a SKU stands in the image.
#[derive(Drop)]
pub struct VpdPlace {
    pub pcd: PcdName,
    pub sku: Text,
    pub offset: u32,
    pub size: u32,
}

/// The bytes of the image, the text that lists what stands in it, and the places, by their offsets.
#[derive(Drop)]
pub struct Vpd {
    pub image: Text,
    pub map: Text,
    pub places: Rows<VpdPlace>,
}

impl Same for VpdPlace {
    fn copy(&self, alloc: Global) -> Result<VpdPlace, WantOfMemory> {
        copied!(VpdPlace, self, alloc; pcd, sku; offset, size)
    }

    fn same(&self, other: &VpdPlace) -> bool {
        all_same!(self, other; pcd, sku, offset, size)
    }
}

impl Same for Vpd {
    fn copy(&self, alloc: Global) -> Result<Vpd, WantOfMemory> {
        copied!(Vpd, self, alloc; image, map, places)
    }

    fn same(&self, other: &Vpd) -> bool {
        all_same!(self, other; image, map, places)
    }
}
