//! Builds by the engine over small rules, on threads.
#![tactic(auto)]

#[cfg(test)]
mod small_rules;
#[cfg(test)]
mod tests;
