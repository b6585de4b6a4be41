//! The lines of [LibraryClasses] that hold for a module: of each class the greatest by rank (EDK II
//! DSC specification).
#![tactic(auto)]

mod lines;
mod places;
mod user;

pub use lines::{applies, rank, same_type, type_covers};
pub use places::{best_line, line_places, picked_line};
pub use user::Consumer;
