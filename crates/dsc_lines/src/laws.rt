//! Laws of a platform's lines.
ghost use Rattle.std.specs.Prelude.{◌≡◌, ℕ, List, None};
ghost use Rattle.std.specs.Option.{IsSome};
ghost use Rattle.build_base.specs.declared.lines.Taken.{Taken as Line};
ghost use Rattle.doc_reading.specs.Least.{least_of};
ghost use Rattle.doc_reading.specs.Values.{of_read_line};
ghost use Rattle.doc_types.specs.declared.arch.Arch.{Arch};
ghost use Rattle.dsc_lines.specs.declared.key_line.PlatformKey.{PlatformKey};
ghost use Rattle.dsc_lines.specs.declared.open_mark.Open.{Open};
ghost use Rattle.dsc_lines.specs.declared.section.Scope.{Scope};
ghost use Rattle.dsc_lines.specs.ComponentLines.{component_faults, component_part, Tells};
ghost use Rattle.dsc_lines.specs.KeyLines.{key_faults, key_row};
ghost use Rattle.dsc_lines.specs.Lines.{line_faults, line_row, Lists};

/// A line of SKUs, libraries or PCDs, of which no condition holds, gives a row.
pub fn listed_lines_give_rows()
    ensures { (above : List (List ℕ)) (standing : Open) (line : Line) (scope : Scope)
        → Lists scope → least_of (line_faults above standing line scope) ≡ None
        → IsSome (line_row standing line scope) }
{}

/// A line of components, of which no condition holds, gives a row where lines aren't read past.
pub(crate) fn component_lines_give_rows()
    ensures { (line : Line) (arch : Arch) (standing : Open) → Tells standing
        → least_of (component_faults line standing) ≡ None
        → IsSome (component_part line arch standing) }
{}

/// A key's line, of which no condition holds, gives a row.
pub fn keys_give_rows()
    ensures { (line : Line) (key : PlatformKey) (value : List ℕ)
        → least_of (of_read_line line (key_faults line key value)) ≡ None
        → IsSome (key_row line key value) }
{}
