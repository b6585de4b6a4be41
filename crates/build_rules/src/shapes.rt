//! The steps of a build, and which answers a world can give to them.
use build_stages::StepTypes;
use step_answers::answers::EdkAnswers;
use step_engine::{Answer, Ask};
use step_pack::{Key, Out};

/// The steps of an EDK II build.
pub struct EdkRules;

impl StepTypes for EdkRules {
    ghost use Rattle.build_rules.specs.Rules.{edk};

    type Key = Key;

    type Out = Out;

    ghost staged = { edk };

    fn fits(&self, ask: &Ask<Key>, answer: &Answer<Out>) -> bool {
        StepTypes::fits(&EdkAnswers, ask, answer)
    }
}
