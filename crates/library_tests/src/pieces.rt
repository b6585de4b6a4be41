//! Pieces of work for waves.
use build_base::text::WantOfMemory;
use std::alloc::{AllocError, Global};

/// The number after a piece's, or want of memory at one piece.
pub fn next_of(piece: u64, wanting: u64) -> Result<u64, WantOfMemory> {
    if piece == wanting {
        return Err(WantOfMemory);
    }
    Ok(piece.saturating_add(1))
}

/// The numbers below one.
pub fn numbers(alloc: Global, upto: u64) -> Result<Vec<u64>, AllocError> {
    let mut items = Vec::new(alloc);
    for number in 0..upto {
        items.push(number)?;
    }
    Ok(items)
}
