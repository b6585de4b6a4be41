//! What is kept while steps run: asks with their answers, and what each step gave.
#![tactic(auto)]

ghost use Rattle.std.specs.Prelude.{◌≡◌, ◌++◌, ◌∷◌, [], OnOk, slice_get};
ghost use Rattle.std.specs.Option.{option_copied};

use build_base::{Rows, WantOfMemory};

/// Adds an ask with its answer to what is kept of a step, whatever the answer is.
pub fn keep_pair<P: Drop>(pairs: &mut Rows<P>, pair: P) -> Result<(), WantOfMemory>
    ensures { OnOk result (pairs.new ≡ pairs.old ++ pair ∷ []) }
{
    pairs.push(pair)
}

/// What a step gave, by the number under which it was made. `made` stands in the order of time.
pub fn made_at<T>(made: &[T], number: usize) -> Option<&T>
    ensures { option_copied result ≡ slice_get made.now number }
{
    made.get(number)
}
