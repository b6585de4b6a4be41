//! A tree and a sink in memory that never fail.
#![tactic(auto)]

mod listed_tree;
mod sure_sink;
mod sure_tree;
mod tabled_tree;

pub use sure_sink::SureSink;
pub use sure_tree::SureTree;
