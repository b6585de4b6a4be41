//! Laws of a module's lines.
ghost use Rattle.std.specs.Prelude.{◌≡◌, ℕ, List, None};
ghost use Rattle.std.specs.Option.{IsSome};
ghost use Rattle.build_base.specs.declared.lines.Taken.{Taken as Line};
ghost use Rattle.doc_reading.specs.Least.{least_of};
ghost use Rattle.inf_docs.specs.declared.key.ModuleKey.{ModuleKey};
ghost use Rattle.inf_docs.specs.declared.section.Scope.{Scope};
ghost use Rattle.inf_docs.specs.Keys.{value_faults, value_row};
ghost use Rattle.inf_docs.specs.Rows.{line_faults, line_row, Lists};

/// A line of a section that lists, of which no condition holds, gives a row.
pub fn listed_lines_give_rows()
    ensures { (line : Line) (scope : Scope) → Lists scope.kind →
        least_of (line_faults line scope) ≡ None → IsSome (line_row line scope) }
{}

/// A key's value, of which no condition holds, gives a row.
pub fn keys_give_rows()
    ensures { (line : Line) (key : ModuleKey) (value : List ℕ) →
        least_of (value_faults line key value) ≡ None → IsSome (value_row line key value) }
{}
