//! Why a build didn't come to its end.
ghost use Rattle.std.specs.Prelude.{◌≡◌};
ghost use Rattle.edk_build.specs.Stops.{stop_status};

use crate::status::Status;

/// A read or an emission failed, or memory was wanting.
#[derive(Clone, Copy, Debug, PartialEq, Eq)]
pub enum Stop {
    ReadFault,
    WriteFault,
    WantOfMemory,
}

impl Stop {
    /// The status of a run that it ends.
    pub fn status(self) -> Status
        ensures { result ≡ stop_status self }
    {
        match self {
            Stop::ReadFault => Status::ReadFault,
            Stop::WriteFault => Status::WriteFault,
            Stop::WantOfMemory => Status::WantOfMemory,
        }
    }
}

impl From<Stop> for Status {
    ghost use Rattle.std.specs.Prelude.{◌≡◌};
    ghost use Rattle.edk_build.specs.Stops.{stop_status};

    ghost from_gives = { λ stop status. status ≡ stop_status stop };

    fn from(stop: Stop) -> Status {
        stop.status()
    }
}
