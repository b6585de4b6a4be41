//! The law of the names of the faults of a build's steps.
ghost use Rattle.build_base.specs.World.{World};
ghost use Rattle.build_faults.specs.NamedFaults.{IsSpoken, StepsFailByName};
ghost use Rattle.build_rules.specs.Rules.{edk};
ghost use Rattle.build_stages.specs.Stages.{meaning_of};
ghost use Rattle.step_engine.specs.Meaning.{IsWorld};
ghost use Rattle.step_pack.specs.Keys.{key_cmp};

/// In a world of a build's words each step gives something, or its fault has a name. None ends with
/// the fault of an answer that no world gives.
pub fn steps_fail_by_name()
    ensures { (w : World) → IsWorld (meaning_of key_cmp edk) w → IsSpoken w → StepsFailByName w }
{}
