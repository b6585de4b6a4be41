//! Laws of a package's lines.
ghost use Rattle.std.specs.Prelude.{◌≡◌, ℕ, List, Some, None};
ghost use Rattle.std.specs.Option.{IsSome};
ghost use Rattle.build_base.specs.declared.lines.Taken.{Taken as Line};
ghost use Rattle.doc_reading.specs.Least.{least_of};
ghost use Rattle.dec_docs.specs.declared.key_line.DecKey.{DecKey};
ghost use Rattle.dec_docs.specs.declared.section.Entry.{Entry};
ghost use Rattle.dec_docs.specs.KeyLines.{key_faults, key_row};
ghost use Rattle.dec_docs.specs.Package.{line_faults, line_row, Lists};

/// A line of a section that lists, of which no condition holds, gives a row.
pub fn listed_lines_give_rows()
    ensures { (line : Line) (entry : Entry) → Lists entry.section →
        least_of (line_faults line entry) ≡ None → IsSome (line_row line entry) }
{}

/// A key's line, of which no condition holds, gives a row.
pub fn keys_give_rows()
    ensures { (line : Line) (key : DecKey) (value : List ℕ) →
        least_of (key_faults line (Some key) value) ≡ None → IsSome (key_row (Some key) value) }
{}
