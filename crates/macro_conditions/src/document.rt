//! A document whose expansion stops where a file is wanted, and goes on from there.
ghost use Rattle.std.specs.Prelude.{◌≡◌, OnOk, true};
ghost use Rattle.macro_conditions.specs.Sources.{answer};
ghost use Rattle.macro_conditions.specs.Expansion.{expansion};
ghost use Rattle.macro_conditions.specs.Work.{Expands};
ghost use Rattle.macro_conditions.specs.Asked.{learnt};

use crate::expansion::{Given, Turned, carry_out};
use crate::known::Known;
use crate::work::Left;
use build_base::{Got, Macro, Path, Refusal, Rows, Same, WantOfMemory};
use macro_expressions::table::ListedMacros;
use std::alloc::Global;
use std::marker::Model;

/// A document, by the macros that it begins with, those that hold above all, and the files that are
/// known. It keeps what its expansion has come to.
pub struct OpenDocument {
    root: Path,
    macros: Rows<Macro>,
    fixed: Rows<Macro>,
    files: Rows<Known>,
    left: Option<Left>,
}

// Written out, so that a caller that lets a document go has one call here.
impl Drop for OpenDocument {
    fn drop(self) {
        let OpenDocument {
            root: _root,
            macros: _macros,
            fixed: _fixed,
            files: _files,
            left: _left,
        } = self;
    }
}

impl Model for OpenDocument {
    ghost use Rattle.macro_conditions.specs.Sources.{answer};
    ghost use Rattle.macro_conditions.specs.OpenFiles.{IsPause};
    ghost use Rattle.macro_conditions.specs.Asked.{Asked};

    ghost Value = { Asked };

    ghost view = { λ d.
        record { root = d.root; macros = d.macros; fixed = d.fixed; files = d.files } };

    ghost invariant = { λ d. IsPause (answer d.files) d.root d.macros d.fixed d.left };
}

impl OpenDocument {
    /// A document at its beginning.
    pub fn new(
        root: Path,
        macros: Rows<Macro>,
        fixed: Rows<Macro>,
        files: Rows<Known>,
    ) -> OpenDocument
        ensures { result ≡ record { root = root; macros = macros; fixed = fixed; files = files } }
    {
        OpenDocument {
            root,
            macros,
            fixed,
            files,
            left: None,
        }
    }

    /// Whether it is the document of this root by these macros.
    pub fn is_of(&self, root: &Path, macros: &Rows<Macro>, fixed: &Rows<Macro>) -> bool
        ensures { result ≡ true → (self.now.root ≡ root.now) × (self.now.macros ≡ macros.now)
            × (self.now.fixed ≡ fixed.now) }
    {
        self.root.same(root) && self.macros.same(macros) && self.fixed.same(fixed)
    }

    /// The files that are known.
    pub fn files(&self) -> &[Known]
        ensures { result.now ≡ self.now.files }
    {
        self.files.items()
    }

    /// Learns what was got of one path more.
    pub fn learn(&mut self, path: Path, got: Got) -> Result<(), WantOfMemory>
        ensures { OnOk result (self.new ≡ learnt self.old path got) }
    {
        self.files.push(Known { path, got })
    }

    /// The lines that the document comes to, or the one path whose answer is wanted next. What is
    /// done till then isn't done again.
    pub fn go_on(&mut self, alloc: Global) -> Result<Turned, Refusal>
        ensures outcome { Expands result
            (expansion (answer self.old.files) self.old.root self.old.macros self.old.fixed) }
        ensures same { self.new ≡ self.old }
    {
        let left = self.left.take();
        let fixed = ListedMacros::of(alloc, self.fixed.items())?;
        let given = Given {
            known: self.files.items(),
            fixed: &fixed,
        };
        match carry_out(alloc, given, &self.root, self.macros.items(), left) {
            Ok((turned, left)) => {
                self.left = left;
                Ok(turned)
            }
            Err(refusal) => Err(refusal),
        }
    }
}
