//! Values as bytes, with one encoding each: how a value is written, and read back.
#![tactic(auto)]

mod base;
mod bytes;
mod encode;
pub mod fields;
mod image;
mod input;
mod parts;
pub mod plain;
mod whole;

pub use encode::Encode;
pub use input::Input;
pub use whole::{pack_value, unpack_behind, unpack_value};
