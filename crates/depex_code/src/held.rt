//! A tree that the reader of opcodes keeps.
ghost use Rattle.std.specs.Prelude.{◌≡◌, ◌≤◌};
ghost use Rattle.depex_code.specs.Tree.{tree_of, nest};

use doc_types::depex::Depex;

/// A tree with how deep it nests.
#[derive(Drop)]
pub struct Held {
    pub tree: Depex,
    pub deep: u32,
    ghost small: { deep ≤ 64 },
    ghost counted: { deep ≡ nest (tree_of tree) },
}
