//! Whether texts stand once.
ghost use Rattle.std.specs.Prelude.{◌≡◌, [], IfOk, OnOk, not, nat_eq};
ghost use Rattle.indexmap.specs.IndexSet.{insert_key};
ghost use Rattle.std.proofs.Common.{rules};
ghost use Rattle.std.specs.Cmp.Lexicographic.{pointwise};
ghost use Rattle.std.specs.Cmp.Rules.{comparing};
ghost use Rattle.std.specs.List.{list_any};
ghost use Rattle.step_cache.specs.Checking.{Adds};
ghost use Rattle.step_cache.specs.Places.{digest_input, equal_inputs};
ghost use Rattle.step_cache.specs.Pools.{text_is};

use crate::places::digest;
use build_base::{Text, WantOfMemory};
use indexmap::IndexSet;
use std::alloc::Global;
use std::hash::{Hash, Hasher};
use std::marker::Model;

/// A text as a key, of which its digest alone is hashed.
#[derive(Drop)]
pub(crate) struct TextKey {
    text: Text,
}

impl Model for TextKey {
    ghost use Rattle.std.specs.Prelude.{List, ℕ};

    ghost Value = { List ℕ };

    ghost view = { λ k. k.text };
}

impl PartialEq for TextKey {
    ghost eq = { pointwise nat_eq };

    ghost laws = { Prim.search (comparing, rules) };

    fn eq(&self, other: &TextKey) -> bool {
        self.text.bytes() == other.text.bytes()
    }
}

impl Eq for TextKey {
    ghost laws = { Prim.search (comparing, rules) };
}

impl Hash for TextKey {
    ghost hash_input = { digest_input };

    ghost respects_eq = { equal_inputs };

    fn hash<H: Hasher>(&self, state: &mut H) {
        state.write_u64(digest(self.text.bytes()));
    }
}

/// The texts that were seen, each once.
#[derive(Drop)]
pub(crate) struct Seen {
    texts: IndexSet<TextKey>,
}

impl Model for Seen {
    ghost use Rattle.std.specs.Prelude.{List, ℕ};

    ghost Value = { List (List ℕ) };

    ghost view = { λ s. s.texts.keys };
}

// Whether a key was put, since it wasn't there.
#[tactic(auto, unfolding(crate::specs::Pools::text_is))]
fn add_key(texts: &mut IndexSet<TextKey>, text: Text) -> Result<bool, WantOfMemory>
    ensures keys { OnOk result (texts.new.keys ≡ insert_key text_is texts.old.keys text) }
    ensures added { IfOk result (λ added. added ≡ not (list_any (text_is text) texts.old.keys)) }
{
    match texts.insert(TextKey { text }) {
        Ok(added) => Ok(added),
        Err(_) => Err(WantOfMemory),
    }
}

impl Seen {
    /// No texts.
    pub(crate) fn new(alloc: Global) -> Seen
        ensures { result ≡ [] }
    {
        Seen {
            texts: IndexSet::new(alloc),
        }
    }

    /// Whether the text was put, since it wasn't there.
    pub(crate) fn add(&mut self, text: Text) -> Result<bool, WantOfMemory>
        ensures { IfOk result (Adds self.old text self.new) }
    {
        let added = add_key(&mut self.texts, text)?;
        Ok(added)
    }
}
