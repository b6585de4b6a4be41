//! Copies of what was read. A call goes on with the copy, so that a copy that isn't made, or is
//! another value, shows in every case of it.

ghost use Rattle.std.specs.Prelude.{◌≡◌, IfOk};

use build_base::Same;
use case_player::{Stop, Wrong};
use std::alloc::Global;

/// The same value once more.
pub fn checked_copy<T: Same + Drop>(alloc: Global, value: &T) -> Result<T, Stop>
    ensures { IfOk result (λ copy. copy ≡ value.now) }
{
    let copy = value.copy(alloc)?;
    if value.same(&copy) {
        Ok(copy)
    } else {
        Err(Stop::Wrong(Wrong::Line("a copy is another value")))
    }
}
