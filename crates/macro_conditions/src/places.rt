//! Where the lines of a text stand.
ghost use Rattle.std.specs.Prelude.{◌≡◌, ◌<◌, ◌≤◌, ◌+◌, ◌^◌, ℕ, List, length, take, drop, map};
ghost use Rattle.std.specs.List.{prefix_len};
ghost use Rattle.meta_lexer.specs.Faults.{ReadsAs};
ghost use Rattle.build_base.specs.First.{unless};
ghost use Rattle.meta_lexer.specs.Lines.{is_blank, lines_of, piece_of, piece_fault, piece_line};
ghost use Rattle.macro_conditions.specs.Work.{text_line};

use crate::work::LinePlace;
use meta_lexer::LexRefusal;
use meta_lexer::line::{is_end, line_of, split_line};
use std::alloc::Global;

// How many blanks a piece begins with.
fn blanks(piece: &[u8]) -> usize
    ensures at { result ≡ prefix_len is_blank piece.now }
    ensures within { result ≤ length piece.now }
{
    let mut count = 0;
    while count < piece.len() && (piece[count] == b'\t' || piece[count] == b' ') {
        count += 1;
    }
    count
}

// The place of the line of a piece, which begins at a start.
fn next_place(number: u64, start: usize, piece: &[u8]) -> Result<LinePlace, LexRefusal>
    requires { start + length piece.now < 2 ^ 64 }
    ensures { let p = piece_of number start piece.now
        in (bytes : List ℕ) → piece.now ≡ take (length piece.now) (drop start bytes)
        → ReadsAs (text_line bytes) result (unless (piece_fault p) (piece_line p)) }
{
    let line = line_of(number, start as u64, piece)?;
    Ok(LinePlace {
        number: line.number,
        start: start + blanks(piece),
        count: line.text.len(),
    })
}

// What stands behind so many bytes and the line feed after them.
fn behind(rest: &[u8], count: usize) -> &[u8]
    ensures { result.now ≡ drop (count + 1) rest.now }
{
    if count < rest.len() {
        &rest[count + 1..]
    } else {
        &[]
    }
}

/// The places of the lines of a text, or the fault of the first piece that has one.
pub(crate) fn places(alloc: Global, bytes: &[u8]) -> Result<Vec<LinePlace>, LexRefusal>
    ensures { ReadsAs (λ v. map (text_line bytes.now) v.items) result (lines_of bytes.now) }
{
    let mut found = Vec::new(alloc);
    let mut number = 1;
    let mut rest = bytes;
    while !is_end(rest) {
        let start = bytes.len() - rest.len();
        let (piece, _) = split_line(rest);
        match next_place(number, start, piece) {
            Ok(place) => found.push(place)?,
            Err(refusal) => return Err(refusal),
        }
        number += 1;
        rest = behind(rest, piece.len());
    }
    Ok(found)
}
