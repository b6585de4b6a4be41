//! The lines of a text.

ghost use Rattle.std.specs.Prelude.{◌≡◌, ℕ, ◌+◌, ◌-◌, ◌<◌, ◌≤◌, ◌^◌, ◌∷◌, length, take, map, IsTrue, false, not, ◌↔◌};
ghost use Rattle.std.specs.List.{prefix_len, suffix_len, position_or_len};
ghost use Rattle.meta_lexer.specs.Faults.{ReadsAs};
ghost use Rattle.build_base.specs.First.{unless};
ghost use Rattle.meta_lexer.specs.Lines.{piece_of, is_feed, lines_of, line_view, piece_line, piece_fault, pieces_from, comment_from, without_blanks, without_return};

use crate::refusal::LexRefusal;
use build_base::fault_codes::{BAD_BYTE, LINE_TOO_LONG};
use std::alloc::Global;

/// A line of a text, without its comment and outer blanks.
#[derive(Clone, Copy, Debug)]
pub struct Line<'a> {
    pub number: u64,
    pub text: &'a [u8],
}

const LONGEST: usize = 8192;

/// Nothing is left that would be a line.
pub fn is_end(rest: &[u8]) -> bool
    ensures { IsTrue result ↔ (length (without_return rest.now) ≡ 0) }
{
    without_line_end(rest).is_empty()
}

/// The piece without the carriage return that may end it.
pub fn without_line_end(piece: &[u8]) -> &[u8]
    ensures { result.now ≡ without_return piece.now }
{
    match piece {
        [front @ .., b'\r'] => front,
        _ => piece,
    }
}

#[tactic(auto, using(crate::proofs::PieceLemmas::feed_is))]
fn feed_at(rest: &[u8]) -> usize
    ensures at { result ≡ position_or_len is_feed rest.now }
    ensures within { result ≤ length rest.now }
{
    for (i, b) in rest.iter().enumerate() {
        if *b == b'\n' {
            return i;
        }
    }
    rest.len()
}

/// The first piece, and what follows its line feed.
#[tactic(auto, using(crate::proofs::PieceLemmas::pieces_cut, crate::proofs::PieceLemmas::pieces_last))]
pub fn split_line(rest: &[u8]) -> (&[u8], &[u8])
    requires { 0 < length (without_return rest.now) }
    ensures pieces { (n at : ℕ) → pieces_from n at rest.now
        ≡ record { number = n; start = at; bytes = result.0.now }
        ∷ pieces_from (n + 1) (at + (length rest.now - length result.1.now)) result.1.now }
    ensures shorter { length result.1.now < length rest.now }
    ensures within { length result.0.now ≤ length rest.now }
{
    let i = feed_at(rest);
    if i < rest.len() {
        (&rest[..i], &rest[i + 1..])
    } else {
        (rest, &[])
    }
}

/// The text before the comment.
#[tactic(auto, unfolding(crate::specs::Lines::comment_from))]
fn before_comment(text: &[u8]) -> &[u8]
    ensures { result.now ≡ take (comment_from false text.now) text.now }
{
    let mut quoted = false;
    for (i, b) in text.iter().enumerate() {
        if *b == b'#' && !quoted {
            return &text[..i];
        }
        if *b == b'"' {
            quoted = !quoted;
        }
    }
    text
}

pub(crate) fn is_blank(b: u8) -> bool
    ensures { result ≡ Rattle.meta_lexer.specs.Lines.is_blank b }
{
    b == b'\t' || b == b' '
}

/// Whether a byte may stand outside comments.
pub fn is_plain(b: u8) -> bool
    ensures { result ≡ Rattle.meta_lexer.specs.Lines.is_plain b }
{
    b == b'\t' || (b' '..=b'~').contains(&b)
}

/// How many blanks the text begins with.
fn blanks(text: &[u8]) -> usize
    ensures at { result ≡ prefix_len Rattle.meta_lexer.specs.Lines.is_blank text.now }
    ensures within { result ≤ length text.now }
{
    let mut i = 0;
    while i < text.len() && is_blank(text[i]) {
        i += 1;
    }
    i
}

/// How long the text is without the blanks at its end.
fn used_length(text: &[u8]) -> usize
    ensures { result + suffix_len Rattle.meta_lexer.specs.Lines.is_blank text.now
        ≡ length text.now }
{
    let mut n = text.len();
    while n > 0 && is_blank(text[n - 1]) {
        n -= 1;
    }
    n
}

/// A text without its outer blanks.
pub fn trim(text: &[u8]) -> &[u8]
    ensures { result.now ≡ without_blanks text.now }
{
    let text = &text[blanks(text)..];
    &text[..used_length(text)]
}

/// Where the first byte stands that may not, or the length.
fn bad_at(text: &[u8]) -> usize
    ensures at { result ≡ position_or_len (λ b. not (Rattle.meta_lexer.specs.Lines.is_plain b))
        text.now }
    ensures within { result ≤ length text.now }
{
    let mut i = 0;
    while i < text.len() && is_plain(text[i]) {
        i += 1;
    }
    i
}

/// The line of a piece, or its fault.
pub fn line_of(number: u64, start: u64, piece: &[u8]) -> Result<Line<'_>, LexRefusal>
    requires { start + length piece.now < 2 ^ 64 }
    ensures { let p = piece_of number start piece.now
        in ReadsAs line_view result (unless (piece_fault p) (piece_line p)) }
{
    let text = without_line_end(piece);
    let code = before_comment(text);
    let bad = bad_at(code);
    if bad < code.len() {
        let at = start + bad as u64;
        return Err(LexRefusal::Bad {
            code: BAD_BYTE,
            line: number,
            start: at,
            end: at + 1,
        });
    }
    if text.len() > LONGEST {
        return Err(LexRefusal::Bad {
            code: LINE_TOO_LONG,
            line: number,
            start,
            end: start + text.len() as u64,
        });
    }
    Ok(Line {
        number,
        text: trim(code),
    })
}

/// The lines of a text, or the fault of the first piece that has one.
pub fn lines(alloc: Global, bytes: &[u8]) -> Result<Vec<Line<'_>>, LexRefusal>
    ensures { ReadsAs (λ v. map line_view v.items) result (lines_of bytes.now) }
{
    let mut found = Vec::new(alloc);
    let mut number = 1;
    let mut rest = bytes;
    while !is_end(rest) {
        let start = (bytes.len() - rest.len()) as u64;
        let (piece, after) = split_line(rest);
        found.push(line_of(number, start, piece)?)?;
        number += 1;
        rest = after;
    }
    Ok(found)
}
