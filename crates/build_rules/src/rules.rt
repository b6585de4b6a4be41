//! The steps of a build as rules of the engine.
pub use crate::shapes::EdkRules;
use crate::steps::{outcome_of, rank_of};
use build_base::{Permit, WantOfMemory};
use build_stages::{Known, StagedRules, Stop, turn_by};
use std::alloc::Global;
use step_engine::{Rules, Talk, Turn};
use step_pack::{Key, Out};

impl StagedRules for EdkRules {
    ghost use Rattle.build_rules.specs.RulesBounds.{edk_is_bounded};

    fn rank(&self, key: &Key) -> u64 {
        rank_of(key)
    }

    fn outcome(
        &self,
        alloc: Global,
        key: &Key,
        known: &Known<'_, Key, Out>,
        permit: Permit,
    ) -> Result<Out, Stop<Key>> {
        outcome_of(alloc, key, known, &mut None, permit)
    }

    ghost bounded = { edk_is_bounded };
}

impl Rules for EdkRules {
    ghost use Rattle.build_stages.specs.Stages.{meaning_of};
    ghost use Rattle.build_stages.specs.StagesRules.{staged_is_lawful};
    ghost use Rattle.build_rules.specs.Rules.{edk};
    ghost use Rattle.build_rules.specs.RulesBounds.{edk_is_bounded};
    ghost use Rattle.step_pack.specs.Keys.{key_cmp};
    ghost use Rattle.step_pack.specs.KeyLaws.{keys_total, keys_exact};

    type Key = Key;

    type Out = Out;

    ghost means = { meaning_of key_cmp edk };

    fn rank(&self, key: &Key) -> u64 {
        StagedRules::rank(self, key)
    }

    fn turn(
        &self,
        alloc: Global,
        key: &Key,
        talk: &Talk<Key, Out>,
        permit: Permit,
    ) -> Result<Turn<Key, Out>, WantOfMemory> {
        turn_by(alloc, self, key, talk, permit)
    }

    ghost lawful = { staged_is_lawful key_cmp edk keys_total keys_exact edk_is_bounded };
}
