//! What a reader or a maker answers in place of its value.
ghost use Rattle.std.specs.Prelude.{Some, IfOk, ◌≡◌};
ghost use Rattle.build_base.specs.Answer.{Finds};
ghost use Rattle.build_base.specs.FaultText.{fault_of};

use crate::fault::{Fault, Place};
use crate::same::Same;
use crate::text::{Text, WantOfMemory};
use std::alloc::Global;
use thiserror::Error;

/// The first fault of the input, or want of memory.
#[derive(Debug, Drop, Error)]
pub enum Refusal {
    #[error("error {}", .0.code)]
    Bad(Fault),
    #[error("want of memory")]
    WantOfMemory,
}

impl From<WantOfMemory> for Refusal {
    ghost use Rattle.std.specs.Prelude.{◌≡◌};
    ghost use Rattle.build_base.specs.declared.refusal.Refusal.TheVariants.{WantOfMemory as Wanting};

    ghost from_gives = { λ _ e. e ≡ Wanting };

    fn from(_: WantOfMemory) -> Refusal {
        Refusal::WantOfMemory
    }
}

fn make_fault(alloc: Global, code: u16, at: &Place, detail: &[u8]) -> Result<Fault, WantOfMemory>
    ensures { IfOk result (λ f. f ≡ fault_of code at.now detail.now) }
{
    Ok(Fault {
        code,
        place: at.copy(alloc)?,
        detail: Text::of(alloc, detail)?,
    })
}

/// The refusal of a fault at this place.
pub fn refuse(alloc: Global, code: u16, at: &Place, detail: &[u8]) -> Refusal
    ensures { Finds result (Some (fault_of code at.now detail.now)) }
{
    match make_fault(alloc, code, at, detail) {
        Ok(fault) => Refusal::Bad(fault),
        Err(_) => Refusal::WantOfMemory,
    }
}
