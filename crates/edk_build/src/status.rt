//! How a run ends.
use build_base::WantOfMemory;

/// The answer of a run; the number of each is the exit status of the program.
#[derive(Clone, Copy, Debug, PartialEq, Eq)]
pub enum Status {
    /// All outputs were written.
    Done = 0,
    /// The inputs have a fault, whose text was written.
    FileFault = 1,
    /// The words aren't in the grammar.
    Usage = 2,
    /// The tree failed.
    ReadFault = 3,
    /// The sink failed.
    WriteFault = 4,
    /// Memory was wanting.
    WantOfMemory = 5,
}

impl From<WantOfMemory> for Status {
    ghost use Rattle.std.specs.Prelude.{◌≡◌};
    ghost use Rattle.edk_build.specs.declared.status.Status.TheVariants.{WantOfMemory as Wanting};

    ghost from_gives = { λ _ status. status ≡ Wanting };

    fn from(_: WantOfMemory) -> Status {
        Status::WantOfMemory
    }
}
