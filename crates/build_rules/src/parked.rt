//! The same rules, whose turns go on with the documents that earlier turns left.
use crate::steps::{outcome_of, rank_of};
use build_base::{Permit, Same, WantOfMemory};
use build_stages::{Known, StagedRules, StepTypes, Stop, turn_by};
use macro_conditions::OpenDocument;
use std::alloc::Global;
use std::collections::BTreeMap;
use std::sync::Mutex;
use step_answers::answers::EdkAnswers;
use step_engine::{Answer, Ask, Rules, Talk, Turn};
use step_pack::{Key, Out};

/// The most documents that stay open at a time. Each holds the lines that it has come to.
const MOST_OPEN: usize = 64;

/// The steps of an EDK II build. A document that waits for a file stays open until its step's next
/// turn, unless many are open. A turn that doesn't get hold of it begins the document anew.
pub struct ParkedRules {
    parks: Mutex<BTreeMap<Key, OpenDocument>>,
}

// Written out, so that a caller that lets the rules go has one call here.
impl Drop for ParkedRules {
    fn drop(self) {
        let ParkedRules { parks: _parks } = self;
    }
}

impl ParkedRules {
    /// No document is open.
    pub fn new(alloc: Global) -> ParkedRules {
        ParkedRules {
            parks: Mutex::new(BTreeMap::new(alloc)),
        }
    }

    // Takes the document that a step left open, if the table is free.
    fn take(&self, key: &Key) -> Option<OpenDocument> {
        match self.parks.try_lock() {
            Some(mut parks) => parks.remove(key),
            None => None,
        }
    }

    // Keeps a document for the step's next turn, if the table is free and has room, and there is
    // memory.
    fn keep(&self, alloc: Global, key: &Key, park: Option<OpenDocument>) {
        let Some(document) = park else {
            return;
        };
        let Ok(key) = key.copy(alloc) else {
            return;
        };
        let Some(mut parks) = self.parks.try_lock() else {
            return;
        };
        if parks.len() < MOST_OPEN {
            let _ = parks.insert(key, document);
        }
    }
}

impl StepTypes for ParkedRules {
    ghost use Rattle.build_rules.specs.Rules.{edk};

    type Key = Key;

    type Out = Out;

    ghost staged = { edk };

    fn fits(&self, ask: &Ask<Key>, answer: &Answer<Out>) -> bool {
        StepTypes::fits(&EdkAnswers, ask, answer)
    }
}

impl StagedRules for ParkedRules {
    ghost use Rattle.build_rules.specs.RulesBounds.{edk_is_bounded};

    fn rank(&self, key: &Key) -> u64 {
        rank_of(key)
    }

    fn outcome(
        &self,
        alloc: Global,
        key: &Key,
        known: &Known<'_, Key, Out>,
        permit: Permit,
    ) -> Result<Out, Stop<Key>> {
        let mut park = self.take(key);
        let outcome = outcome_of(alloc, key, known, &mut park, permit);
        if let Err(Stop::Wants(_, _)) = &outcome {
            self.keep(alloc, key, park);
        }
        outcome
    }

    ghost bounded = { edk_is_bounded };
}

impl Rules for ParkedRules {
    ghost use Rattle.build_stages.specs.Stages.{meaning_of};
    ghost use Rattle.build_stages.specs.StagesRules.{staged_is_lawful};
    ghost use Rattle.build_rules.specs.Rules.{edk};
    ghost use Rattle.build_rules.specs.RulesBounds.{edk_is_bounded};
    ghost use Rattle.step_pack.specs.Keys.{key_cmp};
    ghost use Rattle.step_pack.specs.KeyLaws.{keys_total, keys_exact};

    type Key = Key;

    type Out = Out;

    ghost means = { meaning_of key_cmp edk };

    fn rank(&self, key: &Key) -> u64 {
        StagedRules::rank(self, key)
    }

    fn turn(
        &self,
        alloc: Global,
        key: &Key,
        talk: &Talk<Key, Out>,
        permit: Permit,
    ) -> Result<Turn<Key, Out>, WantOfMemory> {
        turn_by(alloc, self, key, talk, permit)
    }

    ghost lawful = { staged_is_lawful key_cmp edk keys_total keys_exact edk_is_bounded };
}
