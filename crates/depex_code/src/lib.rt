//! Dependency expressions and their bytes (UEFI PI specification, volumes 1 and 2).
#![tactic(auto)]

mod compiler;
mod conjunction;
mod held;
mod join;
mod law;
mod leave;
mod make;
mod measure;
mod opcode;
mod part;
mod piece;
mod postfix;
mod reader;
mod terms;
mod token;
mod waiting;
mod words;

pub use compiler::compile;
pub use law::compiled_reads_back;
pub use reader::read_back;
