//! The lines of a platform that give library classes their instances, by their classes (EDK II DSC
//! specification, [LibraryClasses]).
ghost use Rattle.std.specs.Prelude.{◌≡◌, ◌<◌, ◌+◌, get_or, length, map, IfOk};
ghost use Rattle.build_base.specs.Digest.{digest};
ghost use Rattle.number_chains.specs.Chains.{IsNext};
ghost use Rattle.doc_types.specs.LibraryLines.{class_number};

use crate::platform::LibraryLine;
use build_base::bytes::digest;
use build_base::{Rows, Same, WantOfMemory};
use number_chains::Chains;
use std::alloc::Global;
use std::marker::Model;

/// Lines in their order, seen as a list. From a line the next one is found whose class has the same
/// number.
pub struct LibraryLines {
    rows: Rows<LibraryLine>,
    classes: Chains,
}

// A written `Drop` is one call for whoever lets the value go.
impl Drop for LibraryLines {
    fn drop(self) {
        let LibraryLines {
            rows: _rows,
            classes: _classes,
        } = self;
    }
}

impl Model for LibraryLines {
    ghost use Rattle.std.specs.Prelude.{List, map};
    ghost use Rattle.doc_types.specs.declared.platform.LibraryLine.{LibraryLine};
    ghost use Rattle.doc_types.specs.LibraryLines.{class_number};
    ghost use Rattle.number_chains.specs.Chains.{IsChained};

    ghost Value = { List LibraryLine };

    ghost view = { λ l. l.rows };

    ghost invariant = { λ l. IsChained (map class_number l.rows) l.classes };
}

fn class_numbers(alloc: Global, rows: &[LibraryLine]) -> Result<Vec<u64>, WantOfMemory>
    ensures { IfOk result (λ numbers. numbers.items ≡ map class_number rows.now) }
{
    let mut numbers = Vec::with_capacity(alloc, rows.len())?;
    for row in rows {
        if numbers.push(digest(row.class.bytes())).is_err() {
            return Err(WantOfMemory);
        }
    }
    Ok(numbers)
}

impl LibraryLines {
    /// These lines.
    pub fn of(alloc: Global, rows: Rows<LibraryLine>) -> Result<LibraryLines, WantOfMemory>
        ensures { IfOk result (λ l. l ≡ rows) }
    {
        let numbers = class_numbers(alloc, rows.items())?;
        let classes = Chains::of(alloc, numbers.as_slice())?;
        Ok(LibraryLines { rows, classes })
    }

    /// All of them, in order.
    pub fn items(&self) -> &[LibraryLine]
        ensures { result.now ≡ self.now }
    {
        self.rows.items()
    }

    /// The same as rows.
    pub fn rows(&self) -> &Rows<LibraryLine>
        ensures { result.now ≡ self.now }
    {
        &self.rows
    }

    /// The place of the first line whose class has the number of this class. Where none has it, a
    /// place behind the list.
    pub fn first_place(&self, class: &[u8]) -> usize
        ensures { IsNext (map class_number self.now) 0 (digest class.now) result }
    {
        self.classes.first(digest(class))
    }

    /// The place of the next line whose class has the number of the class at this place. Where none
    /// has it, a place behind the list.
    pub fn next_place(&self, place: usize) -> usize
        requires { place < length self.now }
        ensures { IsNext (map class_number self.now) (place + 1)
            (get_or (map class_number self.now) place 0) result }
    {
        self.classes.next(place)
    }
}

impl Same for LibraryLines {
    fn copy(&self, alloc: Global) -> Result<LibraryLines, WantOfMemory> {
        LibraryLines::of(alloc, self.rows.copy(alloc)?)
    }

    fn same(&self, other: &LibraryLines) -> bool {
        self.rows.same(&other.rows)
    }
}
