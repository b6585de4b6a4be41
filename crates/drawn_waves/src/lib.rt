//! Waves of pieces of work on threads, whose workers draw their pieces from one word of a table.
#![tactic(auto)]

mod order;
mod pieces;
mod start;
mod steps;
mod table;
mod wave;

pub use pieces::{Piece, Taken, take_pieces};
pub use start::piece_table;
pub use table::{Drawing, PieceSeat, PieceStart, PieceTable, Plan, WorkerView};
pub use wave::draw_wave;
