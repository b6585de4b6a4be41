//! Walks over nested volumes: their numbers by nesting, and the first volume that holds itself.
#![tactic(auto)]

mod loops;
mod numbering;
mod strong_components;

pub use loops::first_loop;
pub use numbering::{insert, topological_order};
pub use strong_components::component_numbers;
