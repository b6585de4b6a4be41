//! The values of PCDs (EDK II DSC specification, PCD sections).
use crate::pcd::{Datum, Kind, PcdName};
use crate::pcd_lines::PcdLines;
use build_base::{Same, Text, WantOfMemory, all_same, copied};
use std::alloc::Global;

/// The value that a SKU has of its own.
#[derive(Drop)]
pub struct SkuRow {
    pub sku: Text,
    pub value: Text,
}

/// A PCD's value for one SKU: its token, the most bytes that it may have, and the rank of what
/// stated it.
#[derive(Drop)]
pub struct PcdRow {
    pub pcd: PcdName,
    pub kind: Kind,
    pub datum: Datum,
    pub token: u32,
    pub max: u32,
    pub rank: u8,
    pub sku: Text,
    pub value: Text,
}

/// Values by their PCDs' token spaces and names, and for each PCD in the order of the chosen SKUs.
#[derive(Drop)]
pub struct Values {
    pub rows: PcdLines<PcdRow>,
}

impl Same for SkuRow {
    fn copy(&self, alloc: Global) -> Result<SkuRow, WantOfMemory> {
        copied!(SkuRow, self, alloc; sku, value)
    }

    fn same(&self, other: &SkuRow) -> bool {
        all_same!(self, other; sku, value)
    }
}

impl Same for PcdRow {
    fn copy(&self, alloc: Global) -> Result<PcdRow, WantOfMemory> {
        copied!(PcdRow, self, alloc; pcd, sku, value; kind, datum, token, max, rank)
    }

    fn same(&self, other: &PcdRow) -> bool {
        all_same!(self, other; pcd, kind, datum, token, max, rank, sku, value)
    }
}

impl Same for Values {
    fn copy(&self, alloc: Global) -> Result<Values, WantOfMemory> {
        copied!(Values, self, alloc; rows)
    }

    fn same(&self, other: &Values) -> bool {
        all_same!(self, other; rows)
    }
}
