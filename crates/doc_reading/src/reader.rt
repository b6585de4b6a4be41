//! Reading line by line: the fault of the first line that has one, or what all lines come to.
ghost use Rattle.std.specs.Prelude.{List, [], ◌∷◌, ◌++◌, Bool, Option, OnOk};
ghost use Rattle.build_base.specs.declared.lines.Taken.{Taken as Line};
ghost use Rattle.build_base.specs.declared.fault.Fault.{Fault as Found};
ghost use Rattle.build_base.specs.Answer.{Checks};
ghost use Rattle.doc_reading.specs.Reading.{lines_fault};

use build_base::{Refusal, Taken};

/// A reader of one format.
pub trait Reader {
    /// What the reader holds when it has read these lines.
    ghost read: { List Line → Self → Type 0 };

    /// The fault of a line, by the lines above it and by whether it is the last.
    ghost fault: { List Line → Line → Bool → Option Found };

    /// Reads one line more.
    fn line(&mut self, line: &Taken, last: bool) -> Result<(), Refusal>
        ensures fault { (above : List Line) → read above self.old →
            Checks result (fault above line.now last) }
        ensures rows { (above : List Line) → read above self.old →
            OnOk result (read (above ++ line.now ∷ []) self.new) };
}

/// Reads all lines, or answers the fault of the first line that has one.
pub fn read_lines<R: Reader>(reader: &mut R, lines: &[Taken]) -> Result<(), Refusal>
    requires { R.read [] reader.old }
    ensures fault { Checks result (lines_fault R.fault [] lines.now) }
    ensures rows { OnOk result (R.read lines.now reader.new) }
{
    let count = lines.len();
    for (i, line) in lines.iter().enumerate() {
        if let Err(refusal) = reader.line(line, i + 1 == count) {
            return Err(refusal);
        }
    }
    Ok(())
}
