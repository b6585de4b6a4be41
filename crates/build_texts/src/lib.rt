//! The texts that a build writes beside its images: AutoGen.c and AutoGen.h of each module, and the
//! report (EDK II Build specification).
#![tactic(auto)]

pub mod asks;
mod code;
mod guids;
mod header;
mod names;
mod packages;
mod report;
mod source;
mod words;

pub use asks::{CodeAsk, ModuleReport, ReportAsk};
pub use code::code_texts;
pub use report::report_text;
pub use words::arch_word;
