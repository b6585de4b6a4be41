//! Cached steps over any rules: conversations, entries, and builds that run a step only where none
//! of its entries is valid.
#![tactic(auto)]

mod advance;
mod answers;
mod brought;
mod cache;
mod compared;
mod crew;
pub mod edits;
mod files;
mod fixed;
mod in_order;
mod items;
mod key_table;
mod learned;
mod open;
mod place;
mod places;
mod pool;
mod progress;
mod read;
mod refusal;
mod round;
pub mod rules;
mod running;
mod same;
mod scan;
mod seen;
mod table;
pub mod talk;
mod tally;
mod turns;
mod wanted;

pub use brought::{Brought, bring, bring_over};
pub use cache::Cache;
pub use edits::{Edit, Edits};
pub use key_table::KeyTable;
pub use refusal::EngineRefusal;
pub use rules::{Rules, StepKey, Turn};
pub use talk::{Answer, Ask, Batch, Entry, Outcome, Pair, Talk};
