//! A gate that lets everything pass.
use crate::outside::Gate;

/// Does nothing.
#[derive(Clone, Copy, Debug)]
pub struct OpenGate;

impl Gate for OpenGate {
    fn enter(&self, _wave: u64, _piece: u64, _pieces: u64) {}
}
