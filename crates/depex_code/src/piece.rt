//! A value that the compiler keeps.
use crate::measure::Measure;
use build_base::Guid;

/// The postfix form of an expression; where it has nothing but AND, GUIDs and TRUE, its GUIDs too,
/// from left to right.
#[derive(Drop)]
pub struct Code {
    pub bytes: Vec<u8>,
    pub guids: Option<Vec<Guid>>,
}

/// The code of an expression and its measure. Past the limits the code is empty. `alone` is a
/// BEFORE or an AFTER.
#[derive(Drop)]
pub struct Piece {
    pub code: Code,
    pub measure: Measure,
    pub alone: bool,
}
