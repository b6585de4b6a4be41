//! Builds of the whole program, on threads that a gate holds.
#![tactic(auto)]

#[cfg(test)]
mod tests;
