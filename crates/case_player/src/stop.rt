//! Why a call ends before all of it is told.

use crate::wrong::Wrong;
use build_base::{Fault, PathRefusal, Refusal, WantOfMemory};
use std::alloc::AllocError;

/// A fault of what the call reads, which is told; or what is wrong with the case itself.
#[derive(Drop)]
pub enum Stop {
    Bad(Fault),
    Wrong(Wrong),
}

impl From<Refusal> for Stop {
    fn from(refusal: Refusal) -> Stop {
        match refusal {
            Refusal::Bad(fault) => Stop::Bad(fault),
            Refusal::WantOfMemory => Stop::Wrong(Wrong::WantOfMemory),
        }
    }
}

impl From<Wrong> for Stop {
    fn from(wrong: Wrong) -> Stop {
        Stop::Wrong(wrong)
    }
}

impl From<WantOfMemory> for Stop {
    fn from(_: WantOfMemory) -> Stop {
        Stop::Wrong(Wrong::WantOfMemory)
    }
}

impl From<AllocError> for Stop {
    fn from(_: AllocError) -> Stop {
        Stop::Wrong(Wrong::WantOfMemory)
    }
}

impl From<PathRefusal> for Stop {
    fn from(refusal: PathRefusal) -> Stop {
        Stop::Wrong(Wrong::from(refusal))
    }
}
