//! Laws of the expansion.
ghost use Rattle.std.specs.Prelude.{◌≡◌, ◌<◌, ℕ, List, None, Err};
ghost use Rattle.build_base.specs.declared.lines.Macro.{Macro};
ghost use Rattle.build_base.specs.declared.outside.Got.{Got};
ghost use Rattle.macro_conditions.specs.declared.known.Known.{Known};
ghost use Rattle.macro_conditions.specs.Sources.{Source, answer};
ghost use Rattle.macro_conditions.specs.Expansion.{expansion, need};
ghost use Rattle.macro_conditions.specs.Counting.{left, with_answer, AreWithin};
ghost use Rattle.build_base.specs.declared.lines.Taken.{Taken as Line};
ghost use Rattle.macro_conditions.specs.LineTree.{Items, tree_of, written};
ghost use Rattle.macro_conditions.specs.TreesOfLines.{IsTreeOf};

/// The items of a file's tree, written out in order, are its lines.
pub(crate) fn tree_is_whole()
    ensures { (lines : List Line) → written (tree_of lines) ≡ lines }
{}

/// A file's lines have one tree in which each line stands where its kind may stand, and it is the
/// one that the conditionals are read by.
pub(crate) fn lines_have_one_tree()
    ensures found { (lines : List Line) → IsTreeOf lines (tree_of lines) }
    ensures only { (lines : List Line) (t : Items) → IsTreeOf lines t → t ≡ tree_of lines }
{}

/// The answer to the path that is wanted makes less left.
pub(crate) fn answers_make_less_left()
    ensures { (limit : ℕ) (root : List ℕ) (macros fixed : List Macro) (files : List Known)
        (path : List ℕ) (got : Got) → AreWithin limit files
        → expansion (answer files) root macros fixed ≡ Err (need path)
        → left limit root macros fixed (with_answer files path got)
        < left limit root macros fixed files }
{}

/// A path that is wanted has no answer, so that in a world, which tells all, none is wanted.
pub(crate) fn wanted_paths_are_unknown()
    ensures { (known : Source) (root : List ℕ) (macros fixed : List Macro) (path : List ℕ)
        → expansion known root macros fixed ≡ Err (need path) → known path ≡ None }
{}
