//! Where a replay stands.
ghost use Rattle.std.specs.Prelude.{◌≡◌, IfOk};
ghost use Rattle.edk_build.specs.History.{start, label_of};

use crate::label::Label;
use build_base::WantOfMemory;
use build_base::path::path_field;
use itoa::Buffer;
use std::alloc::Global;
use step_engine::{Cache, Edits};
use step_pack::{Key, Out};

/// The edits so far, the cache that the last build left, and how many builds there were.
#[derive(Drop)]
pub(crate) struct ReplayState {
    pub edits: Edits,
    pub cache: Cache<Key, Out>,
    pub builds: u64,
}

impl ReplayState {
    /// Before the first line.
    pub fn new(alloc: Global) -> ReplayState
        ensures { result ≡ start }
    {
        ReplayState {
            edits: Edits::new(alloc),
            cache: Cache::new(alloc),
            builds: 0,
        }
    }
}

/// How the build of this number is told from the others: its outputs go below the folder of that
/// name.
#[tactic(auto, using(crate::proofs::LabelLemmas::decimal_is_path))]
pub(crate) fn label_of(alloc: Global, number: u64) -> Result<Label, WantOfMemory>
    ensures { IfOk result (λ label. label ≡ label_of number) }
{
    let mut digits = Buffer::new();
    match path_field(alloc, digits.format(number).as_bytes())? {
        Some(folder) => Ok(Label {
            folder: Some(folder),
            tells_status: true,
        }),
        None => unreachable!(),
    }
}
