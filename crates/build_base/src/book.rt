//! Permits for the costly calls, and the list of what they were granted for.
ghost use Rattle.std.specs.Prelude.{◌≡◌, [], ◌∷◌, ◌++◌, OnOk, OnErr};

use crate::rows::Rows;
use crate::text::WantOfMemory;
use std::alloc::Global;
use std::marker::Model;

/// The right to one costly call, which spends it. Only `Book::grant` makes one.
#[derive(Drop)]
pub struct Permit(());

/// The keys of the steps that ran, in the order in which their permits were granted.
#[derive(Drop)]
pub struct Book<K> {
    keys: Rows<K>,
}

impl<K> Model for Book<K> {
    ghost use Rattle.std.specs.Prelude.{List};

    ghost Value = { List K };

    ghost view = { λ b. b.keys };
}

impl<K: Drop> Book<K> {
    /// An empty book.
    pub fn new(alloc: Global) -> Book<K>
        ensures { result ≡ [] }
    {
        Book {
            keys: Rows::new(alloc),
        }
    }

    /// Appends the key, and gives the permit for its step.
    pub fn grant(&mut self, key: K) -> Result<Permit, WantOfMemory>
        ensures ok { OnOk result (self.new ≡ self.old ++ key ∷ []) }
        ensures err { OnErr result (self.new ≡ self.old) }
    {
        self.keys.push(key)?;
        Ok(Permit(()))
    }

    /// The keys so far.
    pub fn ran(&self) -> &[K]
        ensures { result.now ≡ self.now }
    {
        self.keys.items()
    }
}
