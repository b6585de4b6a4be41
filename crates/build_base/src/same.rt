//! Copies that may be refused, and a test that two values are the same.
ghost use Rattle.std.specs.Prelude.{◌≡◌, ◌↔◌, IfOk, IsTrue};

use crate::text::WantOfMemory;
use std::alloc::Global;

/// A value that can be copied and compared.
pub trait Same: Sized {
    /// The same value once more.
    fn copy(&self, alloc: Global) -> Result<Self, WantOfMemory>
        ensures { IfOk result (λ x. x ≡ self.now) };

    /// Whether both are the same value.
    fn same(&self, other: &Self) -> bool
        ensures { IsTrue result ↔ (self.now ≡ other.now) };
}

impl Same for u8 {
    fn copy(&self, _alloc: Global) -> Result<u8, WantOfMemory> {
        Ok(*self)
    }

    fn same(&self, other: &u8) -> bool {
        *self == *other
    }
}

impl Same for u16 {
    fn copy(&self, _alloc: Global) -> Result<u16, WantOfMemory> {
        Ok(*self)
    }

    fn same(&self, other: &u16) -> bool {
        *self == *other
    }
}

impl Same for u32 {
    fn copy(&self, _alloc: Global) -> Result<u32, WantOfMemory> {
        Ok(*self)
    }

    fn same(&self, other: &u32) -> bool {
        *self == *other
    }
}

impl Same for u64 {
    fn copy(&self, _alloc: Global) -> Result<u64, WantOfMemory> {
        Ok(*self)
    }

    fn same(&self, other: &u64) -> bool {
        *self == *other
    }
}

impl Same for bool {
    fn copy(&self, _alloc: Global) -> Result<bool, WantOfMemory> {
        Ok(*self)
    }

    fn same(&self, other: &bool) -> bool {
        *self == *other
    }
}

impl<T: Same> Same for Option<T> {
    fn copy(&self, alloc: Global) -> Result<Option<T>, WantOfMemory> {
        match self {
            None => Ok(None),
            Some(x) => Ok(Some(x.copy(alloc)?)),
        }
    }

    fn same(&self, other: &Option<T>) -> bool {
        match (self, other) {
            (None, None) => true,
            (Some(x), Some(y)) => x.same(y),
            _ => false,
        }
    }
}

impl Same for [u8; 16] {
    fn copy(&self, _alloc: Global) -> Result<[u8; 16], WantOfMemory> {
        Ok(*self)
    }

    fn same(&self, other: &[u8; 16]) -> bool {
        *self == *other
    }
}
