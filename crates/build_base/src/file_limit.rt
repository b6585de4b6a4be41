//! How many bytes of a file are read.

/// The most bytes that a file may have to be read.
pub const FILE_LIMIT: u64 = 67_108_864;
