//! The steps of a build: what each asks, and what it gives.
#![tactic(auto)]

mod adoption;
pub mod laws;
mod parked;
mod rules;
mod shapes;
mod steps;

pub use adoption::adopt;
pub use parked::ParkedRules;
pub use rules::EdkRules;
