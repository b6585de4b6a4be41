//! The words, numbers and keys of a flash description, what its lines say, and the lines of devices
//! and of SET (EDK II FDF specification).
#![tactic(auto)]

mod data_bytes;
pub mod device_line;
pub mod keys;
pub mod marks;
pub mod number;
pub mod rows;
pub mod set_line;
pub mod words;
