//! The runs of an image: stretches of one byte, and bytes.
ghost use Rattle.std.specs.Prelude.{◌≡◌, length};
ghost use Rattle.build_base.specs.Runs.{run_bytes};

use crate::same::Same;
use crate::text::{Text, WantOfMemory};
use std::alloc::Global;

/// A stretch of an image: one byte so many times, or bytes as they are.
#[derive(Debug, Drop)]
pub enum Run {
    Fill { byte: u8, count: u64 },
    Bytes(Text),
}

impl Run {
    /// How many bytes it stands for.
    pub fn length(&self) -> u64
        ensures { result ≡ length (run_bytes self.now) }
    {
        match self {
            Run::Fill { byte: _, count } => *count,
            Run::Bytes(bytes) => bytes.bytes().len() as u64,
        }
    }
}

impl Same for Run {
    fn copy(&self, alloc: Global) -> Result<Run, WantOfMemory> {
        match self {
            Run::Fill { byte, count } => Ok(Run::Fill {
                byte: *byte,
                count: *count,
            }),
            Run::Bytes(bytes) => Ok(Run::Bytes(bytes.copy(alloc)?)),
        }
    }

    fn same(&self, other: &Run) -> bool {
        match (self, other) {
            (Run::Fill { byte, count }, Run::Fill { byte: b, count: c }) => {
                *byte == *b && *count == *c
            }
            (Run::Bytes(bytes), Run::Bytes(other)) => bytes.same(other),
            _ => false,
        }
    }
}
