//! Texts, paths, faults, permits and the objects of the outside, on which every other crate stands.
#![tactic(auto)]

pub mod blank;
pub mod book;
pub mod bytes;
pub mod disk_sink;
pub mod disk_tree;
pub mod fault;
pub mod fault_codes;
pub mod fault_names;
pub mod fields;
pub mod file_limit;
pub mod guid;
pub mod image;
pub mod lines;
pub mod memory_sink;
pub mod memory_tree;
pub mod open_gate;
pub mod outside;
pub mod path;
pub mod pieces;
pub mod refusal;
pub mod rows;
pub mod run;
pub mod run_writer;
pub mod same;
mod same_guid;
mod same_image;
mod store;
pub mod sure_keeper;
pub mod text;
pub mod together;

pub use book::{Book, Permit};
pub use fault::{Fault, Place};
pub use file_limit::FILE_LIMIT;
pub use guid::Guid;
pub use image::Image;
pub use lines::{Lines, Macro, Taken};
pub use outside::{Gate, Got, Keeper, KeeperFailed, Sink, SinkFailed, Target, Tree, TreeFailed};
pub use path::{Path, PathRefusal};
pub use pieces::Pieces;
pub use refusal::{Refusal, refuse};
pub use rows::Rows;
pub use run::Run;
pub use run_writer::RunWriter;
pub use same::Same;
pub use text::{Text, WantOfMemory};
