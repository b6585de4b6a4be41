//! Reading a document whole: its lines, and only then what is at fault in them together.
ghost use Rattle.std.specs.Prelude.{List, [], Result};
ghost use Rattle.build_base.specs.Answer.{Answers};
ghost use Rattle.build_base.specs.declared.fault.Fault.{Fault as Found};
ghost use Rattle.build_base.specs.declared.lines.Lines.{Lines as AllLines};
ghost use Rattle.doc_reading.specs.Grammar.{Read, whole_read};

use crate::document::Document;
use crate::format::Format;
use crate::reader::read_lines;
use build_base::{Lines, Refusal};
use std::alloc::Global;

/// A format whose lines make a document.
pub trait DocumentFormat: Format {
    /// What they make.
    type Made;

    /// The document of lines, of which this is what they come to, or the first fault of the whole.
    ghost made: { AllLines → List (Read Self.Scope Self.Row) → Result Self.Made Found };

    /// Makes the document, or refuses what is at fault in the whole.
    fn finish(self, lines: &Lines) -> Result<Self::Made, Refusal>
        ensures { (above : List (Read Self.Scope Self.Row)) → Self.holds above self →
            Answers result (made lines.now above) };
}

/// The document of these lines, or its first fault: of the first line that has one, else of the
/// whole.
pub fn read_whole<F: DocumentFormat + Drop>(
    alloc: Global,
    format: F,
    lines: &Lines,
) -> Result<F::Made, Refusal>
    requires { F.holds [] format }
    ensures { Answers result (whole_read F.grammar (F.made lines.now) lines.now.rows) }
{
    let mut document = Document {
        alloc,
        scopes: None,
        format,
    };
    match read_lines(&mut document, lines.rows.items()) {
        Ok(()) => document.format.finish(lines),
        Err(refusal) => Err(refusal),
    }
}
