//! What the compiler keeps between two terms.
use crate::piece::Piece;
use crate::token::{Edge, Joiner, Prefix};

/// What waits for an operand: an open parenthesis, a prefix, or a left operand with its joiner.
#[derive(Drop)]
pub enum Waiting {
    Group,
    Front(Prefix),
    Left(Piece, Joiner),
}

/// What may come next: an operand, a GUID name after BEFORE or AFTER, or what follows an operand.
#[derive(Drop)]
pub enum Stage {
    Wanting,
    Pointing(Edge),
    Holding(Piece),
}
