//! Faults whose detail is a number.
ghost use Rattle.std.specs.Prelude.{◌≡◌, IfOk};
ghost use Rattle.ffs_sections.specs.Sections.{fault_with_size};

use build_base::{Fault, Place, Same, Text, WantOfMemory};
use itoa::Buffer;
use std::alloc::Global;

/// The fault of this code, with the number in decimal.
pub fn fault_with_size(
    alloc: Global,
    code: u16,
    place: &Place,
    size: u64,
) -> Result<Fault, WantOfMemory>
    ensures { IfOk result (λ f. f ≡ fault_with_size code place.now size) }
{
    let mut digits = Buffer::new();
    let detail = Text::of(alloc, digits.format(size).as_bytes())?;
    Ok(Fault {
        code,
        place: place.copy(alloc)?,
        detail,
    })
}
