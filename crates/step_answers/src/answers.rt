//! Which answers a world can give to the asks of a build.
ghost use Rattle.std.specs.Prelude.{◌≡◌};
ghost use Rattle.build_stages.specs.Gives.{Gives};
ghost use Rattle.build_stages.specs.Known.{gathered_at};
ghost use Rattle.step_answers.specs.Fits.{kind_of, kind_at, fits};
ghost use Rattle.step_pack.specs.Keys.{key_cmp};

use build_base::{Permit, Rows};
use build_stages::{Given, Known, StepTypes, Stop, gather};
use std::alloc::Global;
use step_engine::{Answer, Ask, Outcome};
use step_pack::{Key, Out};

/// The answers that fit the asks of an EDK II build, for functions that gather some: a set of steps
/// of which nothing but its test of answers counts.
pub struct EdkAnswers;

// What the steps give, by number.
fn kind_of(out: &Out) -> u8
    ensures { result ≡ kind_of out.now }
{
    match out {
        Out::Dec(_) => 0,
        Out::Inf(_) => 1,
        Out::Platform(_) => 2,
        Out::Flash(_) => 3,
        Out::Choice(_) => 4,
        Out::Values(_) => 5,
        Out::Code(_) => 6,
        Out::Depex(_) => 7,
        Out::File(_) => 8,
        Out::Volume(_) => 9,
        Out::Device(_) => 10,
        Out::Report(_) => 11,
        Out::All(_) => 12,
        Out::Vpd(_) => 13,
    }
}

// What the step of a key gives.
fn kind_at(key: &Key) -> u8
    ensures { result ≡ kind_at key.now }
{
    match key {
        Key::Dec(_) => 0,
        Key::Inf(_) => 1,
        Key::Platform => 2,
        Key::Flash => 3,
        Key::Choice(_) => 4,
        Key::PlatformPcds | Key::Values(_) => 5,
        Key::Code(_) => 6,
        Key::Depex(_) => 7,
        Key::File(_, _) => 8,
        Key::Volume(_) | Key::Based(_) => 9,
        Key::Device(_) => 10,
        Key::Report => 11,
        Key::All => 12,
        Key::Vpd => 13,
    }
}

impl StepTypes for EdkAnswers {
    ghost use Rattle.step_answers.specs.Fits.{answers_alone};

    type Key = Key;

    type Out = Out;

    ghost staged = { answers_alone };

    fn fits(&self, ask: &Ask<Key>, answer: &Answer<Out>) -> bool {
        match (ask, answer) {
            (Ask::File(_), Answer::Bytes(_) | Answer::Absent | Answer::TooLong) => true,
            (Ask::Field(_), Answer::Field(_)) => true,
            (Ask::Part(key), Answer::Part(Outcome::Good(out))) => {
                let out = out.value();
                kind_at(key) == kind_of(out)
            }
            (Ask::Part(_), Answer::Part(Outcome::Bad(_))) => true,
            _ => false,
        }
    }
}

/// The answers to these asks, as `gather` gives them.
pub fn answers_to<'a>(
    alloc: Global,
    known: &'a Known<'_, Key, Out>,
    asks: &'a Rows<Ask<Key>>,
    permit: Permit,
) -> Result<(Given<'a, Key, Out>, Permit), Stop<Key>>
    ensures { Gives (λ x. x.0) result (gathered_at key_cmp fits known.now asks.now) }
{
    gather(alloc, &EdkAnswers, known, asks.items(), permit)
}
