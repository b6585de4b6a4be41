//! A flash description (EDK II FDF specification).
use crate::pcd::PcdSet;
use crate::pcd_lines::PcdLines;
use crate::volume::{RuleDoc, VolumePlan};
use build_base::{Path, Place, Rows, Same, Text, WantOfMemory, all_same, copied};
use std::alloc::Global;

/// What fills a region: nothing, bytes that the FDF file gives, a file of the tree, or the volume
/// of a number, from 0.
#[derive(Drop)]
pub enum RegionKind {
    Empty,
    Bytes(Text),
    Tree(Path),
    Volume(u32),
}

/// A region of a device: `size` bytes from `offset` on.
#[derive(Drop)]
pub struct Region {
    pub at: Place,
    pub offset: u64,
    pub size: u64,
    pub kind: RegionKind,
}

/// A flash device of `size` bytes at the address `base`. `erase` is the erase polarity, 1 or 0.
pub struct DevicePlan {
    pub at: Place,
    pub name: Text,
    pub base: u64,
    pub size: u64,
    pub erase: u8,
    pub regions: Rows<Region>,
}

// A written `Drop` is one call for whoever lets the value go. A derived one is spelled out there.
impl Drop for DevicePlan {
    fn drop(self) {
        let DevicePlan {
            at: _at,
            name: _name,
            base: _base,
            size: _size,
            erase: _erase,
            regions: _regions,
        } = self;
    }
}

/// What an FDF file says. `sets` are the values that it gives to PCDs, line by line. The volumes
/// stand in the order of their numbers.
pub struct FlashDoc {
    pub at: Place,
    pub sets: PcdLines<PcdSet>,
    pub devices: Rows<DevicePlan>,
    pub volumes: Rows<VolumePlan>,
    pub rule_list: Rows<RuleDoc>,
}

impl Drop for FlashDoc {
    fn drop(self) {
        let FlashDoc {
            at: _at,
            sets: _sets,
            devices: _devices,
            volumes: _volumes,
            rule_list: _rule_list,
        } = self;
    }
}

impl Same for RegionKind {
    fn copy(&self, alloc: Global) -> Result<RegionKind, WantOfMemory> {
        match self {
            RegionKind::Empty => Ok(RegionKind::Empty),
            RegionKind::Bytes(text) => Ok(RegionKind::Bytes(text.copy(alloc)?)),
            RegionKind::Tree(path) => Ok(RegionKind::Tree(path.copy(alloc)?)),
            RegionKind::Volume(number) => Ok(RegionKind::Volume(*number)),
        }
    }

    fn same(&self, other: &RegionKind) -> bool {
        match (self, other) {
            (RegionKind::Empty, RegionKind::Empty) => true,
            (RegionKind::Bytes(text), RegionKind::Bytes(other)) => text.same(other),
            (RegionKind::Tree(path), RegionKind::Tree(other)) => path.same(other),
            (RegionKind::Volume(number), RegionKind::Volume(other)) => *number == *other,
            _ => false,
        }
    }
}

impl Same for Region {
    fn copy(&self, alloc: Global) -> Result<Region, WantOfMemory> {
        copied!(Region, self, alloc; at, kind; offset, size)
    }

    fn same(&self, other: &Region) -> bool {
        all_same!(self, other; at, offset, size, kind)
    }
}

impl Same for DevicePlan {
    fn copy(&self, alloc: Global) -> Result<DevicePlan, WantOfMemory> {
        copied!(DevicePlan, self, alloc; at, name, regions; base, size, erase)
    }

    fn same(&self, other: &DevicePlan) -> bool {
        all_same!(self, other; at, name, base, size, erase, regions)
    }
}

impl Same for FlashDoc {
    fn copy(&self, alloc: Global) -> Result<FlashDoc, WantOfMemory> {
        copied!(FlashDoc, self, alloc; at, sets, devices, volumes, rule_list)
    }

    fn same(&self, other: &FlashDoc) -> bool {
        all_same!(self, other; at, sets, devices, volumes, rule_list)
    }
}
