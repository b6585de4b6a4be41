//! Why a text is refused.

ghost use Rattle.std.specs.Prelude.{◌≡◌};
ghost use Rattle.meta_lexer.specs.declared.refusal.LexRefusal.TheVariants.{WantOfMemory};

use build_base::WantOfMemory as Wanting;
use std::alloc::{AllocError, AllocFailed};
use thiserror::Error;

/// What is wrong with a text: the fault's code, the line from 1, and the span of the wrong bytes in
/// the text handed in.
#[derive(Debug, Drop, Error)]
pub enum LexRefusal {
    #[error("error {code} at line {line}")]
    Bad {
        code: u16,
        line: u64,
        start: u64,
        end: u64,
    },
    #[error("want of memory")]
    WantOfMemory,
}

impl From<AllocError> for LexRefusal {
    ghost from_gives = { λ _ e. e ≡ WantOfMemory };

    fn from(_e: AllocError) -> LexRefusal {
        LexRefusal::WantOfMemory
    }
}

impl<T: Drop> From<AllocFailed<T>> for LexRefusal {
    ghost from_gives = { λ _ e. e ≡ WantOfMemory };

    fn from(_e: AllocFailed<T>) -> LexRefusal {
        LexRefusal::WantOfMemory
    }
}

impl From<Wanting> for LexRefusal {
    ghost from_gives = { λ _ e. e ≡ WantOfMemory };

    fn from(_e: Wanting) -> LexRefusal {
        LexRefusal::WantOfMemory
    }
}
