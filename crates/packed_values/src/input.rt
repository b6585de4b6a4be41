//! Bytes that are still to be read.
ghost use Rattle.std.specs.Prelude.{◌≡◌, ◌<◌, ◌++◌, ◌∷◌, [], length, drop, MatchOption, IfOk, IsTrue, ◌↔◌};

use build_base::{Text, WantOfMemory};
use std::alloc::Global;
use std::marker::Model;

/// What is left of bytes, seen as these. Where they are those of a text, its texts can share them.
#[derive(Drop)]
pub struct Input<'a> {
    rest: &'a [u8],
    whole: Option<&'a Text>,
    place: usize,
}

impl<'a> Model for Input<'a> {
    ghost use Rattle.std.specs.Prelude.{List, ℕ, ◌≡◌, ◌+◌, ◌<◌, ◌^◌, length, drop, IfSome};

    ghost Value = { List ℕ };

    ghost view = { λ s. s.rest.now };

    ghost invariant = { λ s. (s.place + length s.rest.now < 2 ^ 64)
        × IfSome s.whole (λ text. s.rest.now ≡ drop s.place text.now) };
}

impl<'a> Input<'a> {
    /// All of these bytes.
    pub fn new(rest: &'a [u8]) -> Input<'a>
        ensures { result ≡ rest.now }
    {
        Input {
            rest,
            whole: None,
            place: 0,
        }
    }

    /// All bytes of a text but so many at its front, which the texts that are taken share where it
    /// is a shared one.
    pub fn behind(front: usize, text: &'a Text) -> Input<'a>
        ensures { result ≡ drop front text.now }
    {
        let bytes = text.bytes();
        let place = front.min(bytes.len());
        Input {
            rest: &bytes[place..],
            whole: Some(text),
            place,
        }
    }

    /// Whether nothing is left.
    pub fn is_empty(&self) -> bool
        ensures { IsTrue result ↔ (self.now ≡ []) }
    {
        self.rest.is_empty()
    }

    /// Takes a byte.
    pub fn byte(&mut self) -> Option<u8>
        ensures { MatchOption result (self.old ≡ []) (λ b. self.old ≡ b ∷ self.new) }
    {
        let byte = *self.rest.first()?;
        self.rest = &self.rest[1..];
        self.place += 1;
        Some(byte)
    }

    /// Takes so many bytes, where there are as many.
    pub fn bytes(&mut self, count: u64) -> Option<&'a [u8]>
        ensures bytes { MatchOption result (length self.old < count)
            (λ s. self.old ≡ s.now ++ self.new) }
        ensures count { MatchOption result (length self.old < count) (λ s. length s.now ≡ count) }
    {
        let all = self.rest;
        if (all.len() as u64) < count {
            return None;
        }
        let end = count as usize;
        self.rest = &all[end..];
        self.place += end;
        Some(&all[..end])
    }

    /// Takes so many bytes as a text, where there are as many.
    pub fn text(&mut self, alloc: Global, count: u64) -> Result<Option<Text>, WantOfMemory>
        ensures text { IfOk result (λ r. MatchOption r (length self.old < count)
            (λ t. self.old ≡ t ++ self.new)) }
        ensures count { IfOk result (λ r. MatchOption r (length self.old < count)
            (λ t. length t ≡ count)) }
    {
        let start = self.place;
        let whole = self.whole;
        match (self.bytes(count), whole) {
            (None, _) => Ok(None),
            (Some(bytes), Some(text)) => Ok(Some(text.part(alloc, start, bytes.len())?)),
            (Some(bytes), None) => Ok(Some(Text::of(alloc, bytes)?)),
        }
    }
}
