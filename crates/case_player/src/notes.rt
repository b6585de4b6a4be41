//! What is wrong with a line. It is remembered, and looked at once: so what a line does has no way
//! out, and is quick to prove.

use crate::wrong::Wrong;

/// The first thing that was wrong, if anything was.
#[derive(Clone, Copy, Drop)]
pub struct Notes {
    first: Option<Wrong>,
}

impl Notes {
    /// Nothing yet.
    pub fn new() -> Notes {
        Notes { first: None }
    }

    /// Notes what is wrong.
    pub fn note(&mut self, wrong: Wrong) {
        if self.first.is_none() {
            self.first = Some(wrong);
        }
    }

    /// Notes what is wrong with the line.
    pub fn line(&mut self, text: &'static str) {
        self.note(Wrong::Line(text));
    }

    /// Notes that memory was wanting.
    pub fn short(&mut self) {
        self.note(Wrong::WantOfMemory);
    }

    /// Nothing was wrong so far.
    pub fn is_empty(&self) -> bool {
        self.first.is_none()
    }

    /// An error where something was wrong.
    pub fn whole(&self) -> Result<(), Wrong> {
        match self.first {
            Some(wrong) => Err(wrong),
            None => Ok(()),
        }
    }

    /// Adds bytes, unless something was wrong before.
    pub fn add(&mut self, bytes: &mut Vec<u8>, more: &[u8]) {
        if self.is_empty() && bytes.extend_from_slice(more).is_err() {
            self.short();
        }
    }
}
