//! What the engine asks of rules.
ghost use Rattle.std.specs.Prelude.{◌≡◌, IfOk};
ghost use Rattle.std.specs.declared.cmp.Ordering.TheVariants.{Equal};
ghost use Rattle.step_engine.specs.Meaning.{Meaning};
ghost use Rattle.step_engine.specs.Turns.{IsTurn, AreLawful};

use crate::talk::{Ask, Outcome, Talk};
use build_base::book::Permit;
use build_base::rows::Rows;
use build_base::same::Same;
use build_base::text::WantOfMemory;
use std::alloc::Global;
use std::hash::Hash;

/// The key of a step. Keys that compare equal are the same.
pub trait StepKey: Same + Ord + Hash + Drop + Send + Sync {
    ghost same_key: { (a b : Self) → Self.cmp a b ≡ Equal → a ≡ b };
}

impl StepKey for u32 {
    ghost use Rattle.std.proofs.lemmas.Map.Lookups.{exact_unsigned};

    ghost same_key = { exact_unsigned };
}

/// What a step does next: it asks, and gets its permit back with the answers, or it is done.
#[derive(Drop)]
pub enum Turn<K, O> {
    Ask(Rows<Ask<K>>, Permit),
    Done(Outcome<O>),
}

/// A set of steps: what each asks, and what it gives.
pub trait Rules: Sync {
    type Key: StepKey;

    type Out: Same + Drop + Send + Sync;

    /// What the rules mean, as functions.
    ghost means: { Meaning Self.Key Self.Out };

    /// A number above those of all steps whose outcome the step asks for.
    fn rank(&self, key: &Self::Key) -> u64
        ensures { result ≡ means.rank key.now };

    /// The next turn of a step after a talk.
    fn turn(
        &self,
        alloc: Global,
        key: &Self::Key,
        talk: &Talk<Self::Key, Self::Out>,
        permit: Permit,
    ) -> Result<Turn<Self::Key, Self::Out>, WantOfMemory>
        ensures { IfOk result (IsTurn means key.now talk.now.batches) };

    ghost lawful: { AreLawful means };
}
