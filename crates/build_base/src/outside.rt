//! The objects that a build is handed, each seen by what it tells and by a count of its faults.
ghost use Rattle.std.specs.Prelude.{◌≡◌, IfOk, IfSome, List, ℕ, Option, Some, None, ◌∷◌, [], ◌++◌, OnOk, OnErr};
ghost use Rattle.std.specs.Option.{option_map};

use crate::path::Path;
use crate::text::Text;

/// What a read gives: the file's bytes, that there is none, or that it is over the limit.
#[derive(Debug, Drop)]
pub enum Got {
    File(Text),
    Absent,
    TooLong,
}

/// Why a tree gave nothing. Only `Failed` counts as a fault of the tree.
#[derive(Clone, Copy, Debug, PartialEq, Eq)]
pub enum TreeFailed {
    Failed,
    WantOfMemory,
}

/// Where bytes go: to the start of a file, which is created or emptied, to its end, to standard
/// output, or to standard error.
#[derive(Debug, Drop)]
pub enum Target {
    Start(Path),
    More(Path),
    Out,
    Err,
}

/// A sink failed.
#[derive(Clone, Copy, Debug, PartialEq, Eq)]
pub struct SinkFailed;

/// Why a keeper gave or took nothing. Only `Failed` counts as a fault of the keeper.
#[derive(Clone, Copy, Debug, PartialEq, Eq)]
pub enum KeeperFailed {
    Failed,
    WantOfMemory,
}

/// Files that are read.
pub trait Tree {
    ghost use Rattle.build_base.specs.Outside.{Files, got_of, IsWithin, TreeCause};

    /// What stands at each path, where the tree tells it.
    ghost held: { Self → Option Files };

    /// The paths of the calls that answered, in order, where the tree tells them.
    ghost reads: { Self → Option (List (List ℕ)) };

    /// How many faults there were.
    ghost faults: { Self → ℕ };

    /// Reads a file of at most `limit` bytes.
    fn read(&mut self, path: &Path, limit: u64) -> Result<Got, TreeFailed>
        ensures held { held self.new ≡ held self.old }
        ensures got { IfOk result
            (λ g. IfSome (held self.old) (λ files. g ≡ got_of limit (files path.now))) }
        ensures within { IfOk result (IsWithin limit) }
        ensures reads_ok { OnOk result
            (reads self.new ≡ option_map (λ paths. paths ++ path.now ∷ []) (reads self.old)) }
        ensures reads_err { OnErr result (reads self.new ≡ reads self.old) }
        ensures cause { TreeCause (faults self.old) (faults self.new) result };
}

/// Where what is made goes.
pub trait Sink {
    ghost use Rattle.build_base.specs.Outside.{Emission, Emits, Cause};

    /// What was emitted, where the sink tells it.
    ghost written: { Self → Option (List Emission) };

    /// How many faults there were.
    ghost faults: { Self → ℕ };

    /// Writes bytes. After a failure the target has a prefix of them.
    fn emit(&mut self, target: &Target, bytes: &[u8]) -> Result<(), SinkFailed>
        ensures written { Emits (written self.old) (written self.new) target.now bytes.now result }
        ensures cause { Cause (faults self.old) (faults self.new) result };
}

/// What is kept from one build to the next.
pub trait Keeper {
    ghost use Rattle.build_base.specs.Keeping.{KeeperCause, Stores};

    /// The text kept, if there is one, where the keeper tells it.
    ghost kept: { Self → Option (Option (List ℕ)) };

    /// How many faults there were.
    ghost faults: { Self → ℕ };

    /// The text kept.
    fn load(&mut self) -> Result<Option<Text>, KeeperFailed>
        ensures kept { kept self.new ≡ kept self.old }
        ensures loads { IfOk result (λ text. IfSome (kept self.old) (λ there. text ≡ there)) }
        ensures cause { KeeperCause (faults self.old) (faults self.new) result };

    /// Keeps other bytes. After a failure it keeps the old ones, nothing, or a prefix of the new.
    fn store(&mut self, bytes: &[u8]) -> Result<(), KeeperFailed>
        ensures kept { Stores (kept self.old) (kept self.new) bytes.now result }
        ensures cause { KeeperCause (faults self.old) (faults self.new) result }
        ensures room { ¬ (result ≡ Err KeeperFailed.WantOfMemory) };
}

/// What is told of each piece of work before a thread begins it.
pub trait Gate: Sync {
    /// Piece `piece` of the `pieces` of wave `wave` begins.
    fn enter(&self, wave: u64, piece: u64, pieces: u64);
}
