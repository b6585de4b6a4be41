//! TE images of PE modules (UEFI PI specification, volume 1): the header, and what of the file
//! stays.
#![tactic(auto)]

mod fault;
mod number;
mod pe;
mod standard;
mod te;

pub use fault::PeFault;
pub use pe::{file_alignment, section_alignment};
pub use te::{TeHead, strip_at, te_header};
