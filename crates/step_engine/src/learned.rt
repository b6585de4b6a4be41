//! What a build has learned.
ghost use Rattle.std.specs.Prelude.{◌≡◌, []};

use crate::compared::Compared;
use crate::files::FilesRead;
use crate::rules::StepKey;
use std::alloc::Global;

/// The files that a build has read, and the parts whose old answers it has compared.
#[derive(Drop)]
pub struct Learned<K: StepKey> {
    pub files: FilesRead,
    pub compared: Compared<K>,
}

impl<K: StepKey> Learned<K> {
    /// Nothing is learned yet.
    pub fn new(alloc: Global) -> Learned<K>
        ensures files { result.files ≡ [] }
        ensures compared { result.compared ≡ [] }
    {
        Learned {
            files: FilesRead::new(alloc),
            compared: Compared::new(alloc),
        }
    }
}
