//! What an output has: an image, or a text.
ghost use Rattle.std.specs.Prelude.{◌≡◌, true, length};
ghost use Rattle.std.specs.Iterator.{at_most};
ghost use Rattle.build_base.specs.GivesPiece.{GivesPiece};
ghost use Rattle.build_base.specs.Runs.{runs_bytes, are_blank};
ghost use Rattle.edk_build.specs.Contents.{kind_bytes};
ghost use Rattle.edk_build.specs.Outcome.{texts_part, vpd_part, given_bytes, outcome_bytes};

use build_base::{Pieces, Run};
use doc_types::texts::Texts;
use doc_types::vpd::Vpd;
use std::marker::Model;
use step_engine::Outcome;
use step_pack::Out;

/// The most bytes of a piece.
const PIECE: usize = 0x1_0000;

#[derive(Drop)]
enum Kind<'a> {
    Image(&'a [Run]),
    Text(&'a [u8]),
}

/// The content of an output, lent by the step that gave it.
#[derive(Drop)]
pub struct Content<'a> {
    kind: Kind<'a>,
}

impl<'a> Model for Content<'a> {
    ghost use Rattle.std.specs.Prelude.{List, ℕ, ◌≡◌, true};
    ghost use Rattle.edk_build.specs.Contents.{kind_bytes, is_blank_kind};

    ghost Value = { List ℕ };

    ghost view = { λ c. kind_bytes c.kind };

    ghost invariant = { λ c. is_blank_kind c.kind ≡ true };
}

impl<'a> Content<'a> {
    /// An image of these runs.
    pub fn image(runs: &'a [Run]) -> Content<'a>
        requires { are_blank runs.now ≡ true }
        ensures { result ≡ runs_bytes runs.now }
    {
        Content {
            kind: Kind::Image(runs),
        }
    }

    /// A text.
    pub fn text(bytes: &'a [u8]) -> Content<'a>
        ensures { result ≡ bytes.now }
    {
        Content {
            kind: Kind::Text(bytes),
        }
    }

    /// Its bytes, piece by piece.
    pub fn pieces(&self) -> ContentPieces<'a>
        ensures { result ≡ self.now }
    {
        match &self.kind {
            Kind::Image(runs) => ContentPieces {
                left: Left::Image(Pieces::of(*runs)),
            },
            Kind::Text(bytes) => ContentPieces {
                left: Left::Text(*bytes),
            },
        }
    }
}

#[derive(Drop)]
enum Left<'a> {
    Image(Pieces<'a>),
    Text(&'a [u8]),
}

/// An iterator over the pieces of an output, each of 1 to 65,536 bytes, seen by contracts as the
/// bytes that are left.
#[derive(Drop)]
pub(crate) struct ContentPieces<'a> {
    left: Left<'a>,
}

impl<'a> Model for ContentPieces<'a> {
    ghost use Rattle.std.specs.Prelude.{List, ℕ};
    ghost use Rattle.edk_build.specs.Contents.{left_bytes};

    ghost Value = { List ℕ };

    ghost view = { λ p. left_bytes p.left };
}

// Takes a piece of a text.
fn take_piece<'a>(bytes: &mut &'a [u8]) -> Option<&'a [u8]>
    ensures { GivesPiece bytes.old.now result bytes.new.now }
{
    if bytes.is_empty() {
        return None;
    }
    let (piece, rest) = bytes.split_at(bytes.len().min(PIECE));
    *bytes = rest;
    Some(piece)
}

impl<'a> Iterator for ContentPieces<'a> {
    type Item = &'a [u8];

    ghost next_gives = { GivesPiece };

    ghost remaining = { λ p. at_most (length p) };

    fn next(&mut self) -> Option<&'a [u8]> {
        match &mut self.left {
            Left::Image(pieces) => pieces.next(),
            Left::Text(bytes) => take_piece(bytes),
        }
    }
}

// A part of two texts, where there are any.
fn texts_part(texts: &Option<Texts>, part: u8) -> Content<'_>
    ensures { result ≡ texts_part texts.now part }
{
    match texts {
        None => Content::text(b"".as_slice()),
        Some(texts) => {
            if part == 1 {
                Content::text(texts.h.bytes())
            } else {
                Content::text(texts.c.bytes())
            }
        }
    }
}

// The image of vital product data, or its map.
fn vpd_part(vpd: &Vpd, part: u8) -> Content<'_>
    ensures { result ≡ vpd_part vpd.now part }
{
    if part == 1 {
        Content::text(vpd.map.bytes())
    } else {
        Content::text(vpd.image.bytes())
    }
}

fn given_bytes(given: &Out, part: u8) -> Content<'_>
    ensures { result ≡ given_bytes given.now part }
{
    match given {
        Out::Code(texts) => texts_part(texts, part),
        Out::Depex(bytes) => Content::text(bytes.bytes()),
        Out::Volume(image) => Content::image(image.runs()),
        Out::Device(image) => Content::image(image.runs()),
        Out::Report(text) => Content::text(text.bytes()),
        Out::Vpd(vpd) => vpd_part(vpd, part),
        _ => Content::text(b"".as_slice()),
    }
}

/// The bytes of what a step gave: none where that is a fault.
pub(crate) fn outcome_bytes(outcome: &Outcome<Out>, part: u8) -> Content<'_>
    ensures { result ≡ outcome_bytes outcome.now part }
{
    match outcome {
        Outcome::Good(given) => given_bytes(given.value(), part),
        Outcome::Bad(_) => Content::text(b"".as_slice()),
    }
}
