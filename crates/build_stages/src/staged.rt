//! Rules that are written as stages.
ghost use Rattle.std.specs.Prelude.{◌≡◌};
ghost use Rattle.build_stages.specs.Stages.{Staged, AreBounded};
ghost use Rattle.build_stages.specs.Known.{outcome_at};
ghost use Rattle.build_stages.specs.Gives.{Gives};

use crate::known::Known;
use crate::stop::Stop;
use build_base::{Permit, Same};
use std::alloc::Global;
use step_engine::{Answer, Ask, StepKey};

/// What the steps of a set ask and give, and which answers a world can give them. It stands apart
/// from `StagedRules` so that a step's function may gather answers.
pub trait StepTypes: Sync {
    type Key: StepKey;

    type Out: Same + Drop + Send + Sync;

    /// What each key asks and gives.
    ghost staged: { Staged Self.Key Self.Out };

    /// Whether a world can give the answer to the ask.
    fn fits(&self, ask: &Ask<Self::Key>, answer: &Answer<Self::Out>) -> bool
        ensures { result ≡ staged.fits ask.now answer.now };
}

/// A set of steps, each of which asks stage by stage.
pub trait StagedRules: StepTypes {
    /// A number above those of all steps whose outcome the step asks for.
    fn rank(&self, key: &Self::Key) -> u64
        ensures { result ≡ Self.staged.rank key.now };

    /// What a step gives by what is known, or why it gives nothing.
    fn outcome(
        &self,
        alloc: Global,
        key: &Self::Key,
        known: &Known<'_, Self::Key, Self::Out>,
        permit: Permit,
    ) -> Result<Self::Out, Stop<Self::Key>>
        ensures { Gives (λ x. x) result (outcome_at Self.Key.cmp Self.staged known.now key.now) };

    ghost bounded: { AreBounded Self.staged };
}
