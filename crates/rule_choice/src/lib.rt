//! The rule of a flash description for a module, and the architecture for which a volume has it (EDK
//! II FDF specification, [Rule] sections and INF statements).
#![tactic(auto)]

pub mod modules;
pub mod rules;

pub use modules::inf_arch;
pub use rules::rule_of;
