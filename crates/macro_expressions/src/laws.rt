//! Laws of expressions.
ghost use Rattle.std.specs.Prelude.{◌≡◌, ℕ, List, Some, false};
ghost use Rattle.meta_lexer.specs.Fields.{ends_quoted};
ghost use Rattle.macro_expressions.specs.ExpressionTree.{Tree, IsTree, value_of};
ghost use Rattle.macro_expressions.specs.Expressions.{IsValueOf, answered, symbols_of, value_of_text};

/// What the text of an expression comes to, after `!if` and in a numeric field, is the value of its
/// tree, or the fault that the tree has.
pub(crate) fn values_are_of_trees()
    ensures { (text : List ℕ) → IsValueOf text (value_of_text text) }
{}

/// Each tree of the grammar that spells an expression has that value, so no expression can be read
/// in two ways.
#[tactic(auto, using(crate::proofs::ExpressionMeaning::tree_has_value))]
pub(crate) fn every_tree_has_that_value()
    ensures { (text : List ℕ) (t : Tree) → ends_quoted text ≡ false → IsTree (symbols_of text) t
        → value_of_text text ≡ answered (Some (value_of t)) }
{}
