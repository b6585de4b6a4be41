//! Whether what was kept of a step still holds: its entry is checked, answer by answer, before the
//! step runs.
#![tactic(auto)]

ghost use Rattle.std.specs.Prelude.{◌≡◌, ◌↔◌, IsTrue, IfOk, true, false};
ghost use Rattle.std.specs.Option.{option_copied};

use build_base::{Same, WantOfMemory};
use std::alloc::Global;

/// The entry that is checked before the step of its key runs: the one that was kept.
pub fn entry_to_check<E: Same>(alloc: Global, kept: Option<&E>) -> Result<Option<E>, WantOfMemory>
    ensures { IfOk result (λ entry. entry ≡ option_copied kept.entry) }
{
    match kept {
        Some(entry) => Ok(Some(entry.copy(alloc)?)),
        None => Ok(None),
    }
}

/// Whether a field, or the outcome of another step, is what was kept of it.
pub fn still_same<V: Same>(kept: &V, current: &V) -> bool
    ensures { IsTrue result ↔ (kept.now ≡ current.now) }
{
    kept.same(current)
}

/// Whether all answers so far are right, of which the last one is `same`.
pub fn all_right(right: bool, same: bool) -> bool
    ensures yes { same ≡ true → result ≡ right }
    ensures no { same ≡ false → result ≡ false }
{
    right && same
}
