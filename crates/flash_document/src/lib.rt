//! A flash description, from what its lines say (EDK II FDF specification).
#![tactic(auto)]

mod check;
mod column;
mod device;
mod held;
pub mod names;
mod parts;
mod plan;
mod reading;
mod rule;
mod sets;
mod stated;
mod volume;
mod volumes;
mod whole;

pub use reading::read_flash;
pub use rule_choice::{inf_arch, modules, rule_of, rules};
