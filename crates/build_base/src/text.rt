//! Bytes, seen by contracts as a list of numbers.
ghost use Rattle.std.specs.Prelude.{◌≡◌, IfOk, take, drop};
ghost use Rattle.std.proofs.Common.{rules};
ghost use Rattle.std.specs.Prelude.{nat_eq};
ghost use Rattle.std.specs.Cmp.Rules.{comparing};
ghost use Rattle.std.specs.Cmp.Lexicographic.{pointwise};
ghost use Rattle.build_base.specs.Digest.{text_input, equal_texts};

use crate::same::Same;
use crate::store::Store;
use std::alloc::{AllocError, Global};
use std::hash::{Hash, Hasher};
use std::marker::Model;

/// Memory was wanting.
#[derive(Clone, Copy, Debug, PartialEq, Eq)]
pub struct WantOfMemory;

impl From<AllocError> for WantOfMemory {
    fn from(_: AllocError) -> Self {
        WantOfMemory
    }
}

/// A text of any bytes. One that is made of at most 23 bytes stands in place. The copies of one
/// that is shared hold the same bytes and take no memory for them.
#[derive(Debug, Drop)]
pub struct Text {
    store: Store,
}

impl Model for Text {
    ghost use Rattle.std.specs.Prelude.{List, ℕ};
    ghost use Rattle.build_base.specs.Stores.{store_bytes};

    ghost Value = { List ℕ };

    ghost view = { λ t. store_bytes t.store };
}

impl Text {
    /// The text of a vector, without a copy.
    pub fn from_vec(bytes: Vec<u8>) -> Text
        ensures { result ≡ bytes.items }
    {
        Text {
            store: Store::Own(bytes),
        }
    }

    /// The text of a vector, without a copy, of which all copies share the bytes.
    pub fn from_vec_shared(alloc: Global, bytes: Vec<u8>) -> Result<Text, WantOfMemory>
        ensures { IfOk result (λ t. t ≡ bytes.items) }
    {
        Ok(Text {
            store: Store::from_vec_shared(alloc, bytes)?,
        })
    }

    /// The text of these bytes.
    pub fn of(alloc: Global, bytes: &[u8]) -> Result<Text, WantOfMemory>
        ensures { IfOk result (λ t. t ≡ bytes.now) }
    {
        Ok(Text {
            store: Store::of(alloc, bytes)?,
        })
    }

    /// So many of its bytes behind a start, or as many as there are. Of a shared text at most 23
    /// bytes are copied.
    pub fn part(&self, alloc: Global, start: usize, count: usize) -> Result<Text, WantOfMemory>
        ensures { IfOk result (λ t. t ≡ take count (drop start self.now)) }
    {
        Ok(Text {
            store: self.store.part(alloc, start, count)?,
        })
    }

    /// Its bytes.
    #[inline(always)]
    pub fn bytes(&self) -> &[u8]
        ensures { result.now ≡ self.now }
    {
        self.store.bytes()
    }
}

impl Same for Text {
    fn copy(&self, _alloc: Global) -> Result<Text, WantOfMemory> {
        Ok(Text {
            store: self.store.copy()?,
        })
    }

    fn same(&self, other: &Text) -> bool {
        self.bytes() == other.bytes()
    }
}

impl Clone for Text {
    ghost is_clone = { λ a b. b ≡ a };

    fn clone(&self) -> Result<Text, AllocError> {
        Ok(Text {
            store: self.store.copy()?,
        })
    }
}

impl PartialEq for Text {
    ghost eq = { pointwise nat_eq };

    ghost laws = { Prim.search (comparing, rules) };

    fn eq(&self, other: &Text) -> bool {
        self.bytes() == other.bytes()
    }
}

impl Eq for Text {
    ghost laws = { Prim.search (comparing, rules) };
}

impl Hash for Text {
    ghost hash_input = { text_input };

    ghost respects_eq = { equal_texts };

    fn hash<H: Hasher>(&self, state: &mut H) {
        state.write(self.bytes());
    }
}
