//! What the steps of older editions were.
ghost use Rattle.build_rules.specs.Adopting.{AreOlder};
ghost use Rattle.build_rules.specs.Older.{second_edition};
ghost use Rattle.step_answers.specs.Readers.{EdkStages};
ghost use Rattle.step_pack.specs.declared.key.Key.{Key as KeyOf};

/// The steps of edition 2, whatever those of images and of the whole build were, are older
/// definitions: dependency expressions whose conjunctions aren't simplified, and of all other kinds
/// today's.
#[tactic(auto, using(crate::proofs::OlderLemmas::second_is_older))]
pub(crate) fn second_edition_is_older()
    ensures { (images : KeyOf → EdkStages) → AreOlder 2 (second_edition images) }
{}
