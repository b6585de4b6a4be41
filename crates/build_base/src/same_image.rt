//! Images are the same where their bytes are, however they are cut into runs.
ghost use Rattle.std.specs.Prelude.{◌≡◌, ◌↔◌, ◌++◌, [], IsTrue};

use crate::pieces::Pieces;

// What is left of a piece, or the next one where nothing is; nothing at the end alone.
fn piece_from<'a>(piece: &'a [u8], pieces: &mut Pieces<'a>) -> &'a [u8]
    ensures whole { result.now ++ pieces.new ≡ piece.now ++ pieces.old }
    ensures end { result.now ≡ [] → pieces.new ≡ [] }
{
    if !piece.is_empty() {
        return piece;
    }
    match pieces.next() {
        Some(next) => next,
        None => piece,
    }
}

/// Whether the bytes that are left of two images are the same.
pub(crate) fn same_pieces(left: Pieces<'_>, right: Pieces<'_>) -> bool
    ensures { IsTrue result ↔ (left ≡ right) }
{
    let mut left = left;
    let mut right = right;
    let mut ours = b"".as_slice();
    let mut others = b"".as_slice();
    loop {
        ours = piece_from(ours, &mut left);
        others = piece_from(others, &mut right);
        if ours.is_empty() {
            return others.is_empty();
        }
        if others.is_empty() {
            return false;
        }
        let count = ours.len().min(others.len());
        let (own, rest) = ours.split_at(count);
        let (other, behind) = others.split_at(count);
        if own != other {
            return false;
        }
        ours = rest;
        others = behind;
    }
}
