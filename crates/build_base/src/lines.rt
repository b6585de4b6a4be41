//! The lines of a document as a reader takes them, and macros.
use crate::fault::Place;
use crate::path::Path;
use crate::rows::Rows;
use crate::same::Same;
use crate::text::{Text, WantOfMemory};
use crate::{all_same, copied};
use std::alloc::Global;

/// A macro and what stands in its place.
#[derive(Debug, Drop)]
pub struct Macro {
    pub name: Text,
    pub value: Text,
}

/// A line that counts: where it stands, and its text without comment and outer blanks.
#[derive(Debug, Drop)]
pub struct Taken {
    pub at: Place,
    pub text: Text,
}

/// The lines of a document in order, with its root file and the macros at its end.
#[derive(Debug, Drop)]
pub struct Lines {
    pub root: Path,
    pub rows: Rows<Taken>,
    pub macros: Rows<Macro>,
}

impl Same for Macro {
    fn copy(&self, alloc: Global) -> Result<Macro, WantOfMemory> {
        copied!(Macro, self, alloc; name, value)
    }

    fn same(&self, other: &Macro) -> bool {
        all_same!(self, other; name, value)
    }
}

impl Same for Taken {
    fn copy(&self, alloc: Global) -> Result<Taken, WantOfMemory> {
        copied!(Taken, self, alloc; at, text)
    }

    fn same(&self, other: &Taken) -> bool {
        all_same!(self, other; at, text)
    }
}

impl Same for Lines {
    fn copy(&self, alloc: Global) -> Result<Lines, WantOfMemory> {
        copied!(Lines, self, alloc; root, rows, macros)
    }

    fn same(&self, other: &Lines) -> bool {
        all_same!(self, other; root, rows, macros)
    }
}
