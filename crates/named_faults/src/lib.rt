//! Faults whose codes have names: of parts, so of the whole.
#![tactic(auto)]

mod laws;

pub use laws::outcomes_have_names;
