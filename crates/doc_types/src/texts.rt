//! The texts that are written for a module (EDK II Build specification, AutoGen files).
use build_base::{Same, Text, WantOfMemory, all_same, copied};
use std::alloc::Global;

/// The bytes of a module's AutoGen.c and AutoGen.h.
#[derive(Drop)]
pub struct Texts {
    pub c: Text,
    pub h: Text,
}

impl Same for Texts {
    fn copy(&self, alloc: Global) -> Result<Texts, WantOfMemory> {
        copied!(Texts, self, alloc; c, h)
    }

    fn same(&self, other: &Texts) -> bool {
        all_same!(self, other; c, h)
    }
}
