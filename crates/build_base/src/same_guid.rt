//! Copies of GUIDs.
use crate::guid::Guid;
use crate::same::Same;
use crate::text::WantOfMemory;
use std::alloc::Global;

impl Same for Guid {
    fn copy(&self, _alloc: Global) -> Result<Guid, WantOfMemory> {
        Ok(*self)
    }

    fn same(&self, other: &Guid) -> bool {
        *self == *other
    }
}
