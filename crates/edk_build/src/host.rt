//! What builds run on.
use std::alloc::Global;

/// The handle that starts threads, where memory is taken, and the gate that is told of each piece
/// of work that begins.
#[derive(Drop)]
pub(crate) struct Host<'a, H, G> {
    pub rt: &'a H,
    pub alloc: Global,
    pub gate: &'a G,
}
