//! Opcodes of dependency expressions (UEFI PI specification, volumes 1 and 2), and this product's
//! limits.

pub const BEFORE: u8 = 0;

pub const AFTER: u8 = 1;

pub const PUSH: u8 = 2;

pub const AND: u8 = 3;

pub const OR: u8 = 4;

pub const NOT: u8 = 5;

pub const TRUE: u8 = 6;

pub const FALSE: u8 = 7;

pub(crate) const END: u8 = 8;

pub const SOR: u8 = 9;

/// How deep an expression may nest.
pub(crate) const DEEPEST: u32 = 64;

/// How many opcodes may stand before END.
pub const MOST: u32 = 4096;
