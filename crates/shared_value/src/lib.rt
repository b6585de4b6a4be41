//! A value that many hold, and that is copied by its handle.
#![tactic(auto)]

ghost use Rattle.std.specs.Prelude.{◌≡◌, IfOk};

use build_base::{Same, WantOfMemory};
use std::alloc::Global;
use std::marker::Model;
use std::sync::Arc;

/// A value that is shared, seen as itself. A copy is one more handle, and takes constant time.
#[derive(Drop)]
pub struct Shared<T> {
    inner: Arc<T>,
}

impl<T> Model for Shared<T> {
    ghost Value = { T };

    ghost view = { λ s. s.inner.value };
}

impl<T> Shared<T> {
    /// The value.
    pub fn value(&self) -> &T
        ensures { result.now ≡ self.now }
    {
        &self.inner
    }
}

impl<T: Drop> Shared<T> {
    /// The value, from now on shared.
    pub fn new(alloc: Global, value: T) -> Result<Shared<T>, WantOfMemory>
        ensures { IfOk result (λ shared. shared ≡ value) }
    {
        match Arc::new(alloc, value) {
            Ok(inner) => Ok(Shared { inner }),
            Err(_) => Err(WantOfMemory),
        }
    }
}

impl<T: Same + Drop> Same for Shared<T> {
    fn copy(&self, _alloc: Global) -> Result<Shared<T>, WantOfMemory> {
        match self.inner.clone() {
            Ok(inner) => Ok(Shared { inner }),
            Err(_) => Err(WantOfMemory),
        }
    }

    fn same(&self, other: &Shared<T>) -> bool {
        self.value().same(other.value())
    }
}

// What is shared may be held by many threads.
fn may_cross<T: Send + Sync>(_value: &T) {}

/// A shared value crosses threads where the value does.
pub fn crosses<T: Drop + Send + Sync>(value: &Shared<T>) {
    may_cross(value);
}
