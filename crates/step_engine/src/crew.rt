//! Who works at a build.

use std::alloc::Global;

/// The threads that make the turns of a wave: at most so many work at a time. The gate is told of
/// each of their pieces.
#[derive(Drop)]
pub struct Crew<'a, H, G> {
    pub rt: &'a H,
    pub alloc: Global,
    pub workers: u32,
    pub gate: &'a G,
}
