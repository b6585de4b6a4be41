//! Laws of the packed form.
ghost use Rattle.step_pack.specs.Packed.{HasNumbers, StandByBytes};
ghost use Rattle.step_pack.specs.declared.key.Key.{Key as PackedKey};

/// Keys stand in the order of their packed forms, byte by byte, so that no two keys have one form.
pub(crate) fn keys_stand_by_their_bytes()
    ensures { (a b : PackedKey) → HasNumbers a → HasNumbers b → StandByBytes a b }
{}
