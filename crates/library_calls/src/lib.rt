//! The order in which the constructors and destructors of a module's library instances are called
//! (EDK II Build specification).
#![tactic(auto)]

mod caller;
mod calls;
mod order;

pub use caller::WithCalls;
pub use calls::choice_by;
