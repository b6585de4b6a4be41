//! Instances that have something called.
use build_base::{Path, Place, Rows};
use doc_types::choice::Call;

/// An instance that has a constructor or a destructor, and the line of the first of them.
#[derive(Drop)]
pub struct WithCalls {
    pub inf: Path,
    pub at: Place,
    pub constructors: Rows<Call>,
    pub destructors: Rows<Call>,
}
