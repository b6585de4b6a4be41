//! Keepers of the text of a cache: in memory, with calls that fail, and on the disk.
#![tactic(auto)]

mod disk_keeper;
mod memory_keeper;

pub use disk_keeper::DiskKeeper;
pub use memory_keeper::{KeeperFail, Left, MemoryKeeper};
