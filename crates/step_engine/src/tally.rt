//! What a build counts.

/// How many waves had turns, and how often something was done for a key under way.
#[derive(Clone, Copy)]
pub struct Tally {
    pub waves: u64,
    pub acts: u64,
}
