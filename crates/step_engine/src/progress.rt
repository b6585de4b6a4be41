//! What grows during a build.
ghost use Rattle.std.specs.Prelude.{◌≡◌, []};

use crate::learned::Learned;
use crate::places::Places;
use crate::rules::StepKey;
use crate::talk::Entry;
use std::alloc::Global;

/// The entries that a build has made, where each key stands, and what was learned.
#[derive(Drop)]
pub struct Progress<K: StepKey, O: Drop> {
    pub fresh: Vec<Entry<K, O>>,
    pub places: Places<K>,
    pub learned: Learned<K>,
}

impl<K: StepKey, O: Drop> Progress<K, O> {
    /// Nothing is made yet.
    pub fn new(alloc: Global) -> Progress<K, O>
        ensures fresh { result.fresh.items ≡ [] }
        ensures places { result.places ≡ [] }
        ensures files { result.learned.files ≡ [] }
        ensures compared { result.learned.compared ≡ [] }
    {
        Progress {
            fresh: Vec::new(alloc),
            places: Places::new(alloc),
            learned: Learned::new(alloc),
        }
    }
}
