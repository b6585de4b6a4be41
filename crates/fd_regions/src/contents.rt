//! What the regions of a device hold.
ghost use Rattle.std.specs.Prelude.{◌≡◌, ◌<◌, ◌≤◌, ◌+◌, ◌++◌, length, OnOk, List, ℕ, slice_index_or, []};

use build_base::{Rows, RunWriter, Same, Text, WantOfMemory};
use std::alloc::Global;

/// The content of each region of a device, by the region's number.
pub trait Contents {
    /// The bytes of each region.
    ghost contents: { Self → List (List ℕ) };

    /// How many bytes a region's content has.
    fn length(&self, region: usize) -> u64
        requires { region < length (contents self.now) }
        ensures { result ≡ length (slice_index_or (contents self.now) region []) };

    /// Writes a region's content.
    fn write(&self, alloc: Global, region: usize, out: &mut RunWriter) -> Result<(), WantOfMemory>
        requires { region < length (contents self.now) }
        ensures bytes { OnOk result
            (out.new.bytes ≡ out.old.bytes ++ slice_index_or (contents self.now) region []) }
        ensures kept { OnOk result
            (out.new.kept ≤ out.old.kept + length (slice_index_or (contents self.now) region [])) }
        ensures free { OnOk result (out.new.free ≡ out.old.free) };
}

impl Contents for Rows<Text> {
    ghost contents = { λ rows. rows };

    fn length(&self, region: usize) -> u64 {
        self.items()[region].bytes().len() as u64
    }

    fn write(&self, alloc: Global, region: usize, out: &mut RunWriter) -> Result<(), WantOfMemory> {
        let bytes = self.items()[region].copy(alloc)?;
        out.put(bytes)?;
        Ok(())
    }
}
