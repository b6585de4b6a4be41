//! The library instances of a module, and the order in which they have constructors and destructors
//! called (EDK II DSC, INF and Build specifications).
#![tactic(auto)]

mod callers;
mod choosing;
mod closure;
mod found;
mod front;
mod known_infs;
mod laws;
mod passed;
mod reach;
mod search;
mod serving;
mod tables;
mod wanted;

pub use choosing::choose;
pub use laws::{instances_stand_by_walks, lines_hold_by_rank};
pub use line_ranks::type_covers;
pub use search::InstanceSearch;
pub use wanted::{is_known, next_wanted};
