//! Laws of what is chosen.
ghost use Rattle.std.specs.Prelude.{ℕ, Bool, List};
ghost use Rattle.doc_types.specs.declared.platform.LibraryLine.{LibraryLine as Line};
ghost use Rattle.line_ranks.specs.declared.user.Consumer.{Consumer as Asking};
ghost use Rattle.library_choice.specs.Closure.{next};
ghost use Rattle.library_choice.specs.Laws.{IsByRank};
ghost use Rattle.library_choice.specs.Lines.{Setting};
ghost use Rattle.library_choice.specs.Walks.{AreWalks};

/// The line that holds for a class, of the sections or of the module's own braces, is the greatest
/// by rank, and of one rank the last.
pub fn lines_hold_by_rank()
    ensures { (user : Asking) (own : Bool) (class : List ℕ) (lines : List Line)
        → IsByRank user own class lines }
{}

/// Instances are found in the order of walks: the shorter first, those of one length by their
/// places.
pub fn instances_stand_by_walks()
    ensures { (s : Setting) (starts : List (List ℕ)) (n : ℕ) → AreWalks (next s) starts n }
{}
