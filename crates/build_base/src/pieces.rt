//! The bytes of an image, piece by piece.
ghost use Rattle.std.specs.Prelude.{◌≡◌, ◌++◌, [], true, false, length, IsTrue, ◌↔◌};
ghost use Rattle.std.specs.Iterator.{at_most};
ghost use Rattle.build_base.specs.GivesPiece.{GivesPiece};
ghost use Rattle.build_base.specs.Runs.{runs_bytes, run_bytes, are_blank, is_blank, is_free};

use crate::blank::{PIECE, blank_bytes};
use crate::run::Run;
use std::marker::Model;

/// What is left of one run: bytes, and then so many bytes of erased flash.
#[derive(Drop)]
struct Front<'a> {
    bytes: &'a [u8],
    blank: u64,
    ones: bool,
}

impl<'a> Model for Front<'a> {
    ghost use Rattle.std.specs.Prelude.{List, ℕ, ◌++◌, replicate, if◌then◌else◌};

    ghost Value = { List ℕ };

    ghost view = { λ f. f.bytes.now ++ replicate f.blank (if f.ones then 255 else 0) };
}

impl<'a> Front<'a> {
    fn none() -> Front<'a>
        ensures { result ≡ [] }
    {
        Front {
            bytes: b"".as_slice(),
            blank: 0,
            ones: false,
        }
    }

    fn fill(byte: u8, count: u64) -> Front<'a>
        requires { is_free byte ≡ true }
        ensures { result ≡ run_bytes (Run.Fill byte count) }
    {
        Front {
            bytes: b"".as_slice(),
            blank: count,
            ones: byte != 0,
        }
    }

    fn bytes(bytes: &'a [u8]) -> Front<'a>
        ensures { result ≡ bytes.now }
    {
        Front {
            bytes,
            blank: 0,
            ones: false,
        }
    }

    fn of(run: &'a Run) -> Front<'a>
        requires { is_blank run.now ≡ true }
        ensures { result ≡ run_bytes run.now }
    {
        match run {
            Run::Fill { byte, count } => Front::fill(*byte, *count),
            Run::Bytes(bytes) => Front::bytes(bytes.bytes()),
        }
    }

    fn is_empty(&self) -> bool
        ensures { IsTrue result ↔ (self.now ≡ []) }
    {
        if !self.bytes.is_empty() {
            return false;
        }
        self.blank == 0
    }

    // Takes a piece of it.
    fn take(&mut self) -> Option<&'a [u8]>
        ensures { GivesPiece self.old result self.new }
    {
        if !self.bytes.is_empty() {
            let (piece, rest) = self.bytes.split_at(self.bytes.len().min(PIECE));
            self.bytes = rest;
            return Some(piece);
        }
        if self.blank == 0 {
            return None;
        }
        let size = self.blank.min(PIECE as u64);
        self.blank -= size;
        Some(blank_bytes(self.ones, size as usize))
    }
}

// The first run that has bytes, and those behind it.
fn first_of<'a>(runs: &'a [Run]) -> (Front<'a>, &'a [Run])
    requires { are_blank runs.now ≡ true }
    ensures whole { result.0 ++ runs_bytes result.1.now ≡ runs_bytes runs.now }
    ensures blank { are_blank result.1.now ≡ true }
    ensures some { result.0 ≡ [] → runs_bytes result.1.now ≡ [] }
{
    for (i, run) in runs.iter().enumerate() {
        let front = Front::of(run);
        if !front.is_empty() {
            return (front, &runs[i + 1..]);
        }
    }
    (Front::none(), &runs[runs.len()..])
}

/// An iterator over the pieces of an image, each of 1 to 65,536 bytes, seen by contracts as the
/// bytes that are left.
#[derive(Drop)]
pub struct Pieces<'a> {
    front: Front<'a>,
    runs: &'a [Run],
}

impl<'a> Model for Pieces<'a> {
    ghost use Rattle.std.specs.Prelude.{List, ℕ, ◌≡◌, ◌++◌, true};
    ghost use Rattle.build_base.specs.Runs.{runs_bytes, are_blank};

    ghost Value = { List ℕ };

    ghost view = { λ p. p.front ++ runs_bytes p.runs.now };

    ghost invariant = { λ p. are_blank p.runs.now ≡ true };
}

impl<'a> Pieces<'a> {
    /// The pieces of the image of these runs.
    pub fn of(runs: &'a [Run]) -> Pieces<'a>
        requires { are_blank runs.now ≡ true }
        ensures { result ≡ runs_bytes runs.now }
    {
        Pieces {
            front: Front::none(),
            runs,
        }
    }
}

impl<'a> Iterator for Pieces<'a> {
    type Item = &'a [u8];

    ghost next_gives = { GivesPiece };

    ghost remaining = { λ p. at_most (length p) };

    fn next(&mut self) -> Option<&'a [u8]> {
        if self.front.is_empty() {
            let (front, runs) = first_of(self.runs);
            self.front = front;
            self.runs = runs;
        }
        self.front.take()
    }
}
