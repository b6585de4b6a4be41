//! Keys that compare equal are the same.
use crate::key::Key;
use step_engine::StepKey;

impl StepKey for Key {
    ghost use Rattle.step_pack.specs.KeyLaws.{keys_exact};

    ghost same_key = { keys_exact };
}
