//! What steps ask and are answered.
ghost use Rattle.std.specs.Prelude.{◌≡◌, ◌++◌};
ghost use Rattle.packed_values.specs.Encoding.{IsAppended, IsRead, IsUnread};
ghost use Rattle.packed_outcomes.specs.Talk.{answer_encoding, ask_encoding, outcome_encoding};

use crate::key::KeyEncoding;
use crate::out::OutEncoding;
use build_base::{Fault, Path, Text, WantOfMemory};
use packed_values::plain::encode_byte;
use packed_values::{Encode, Input};
use shared_value::Shared;
use std::alloc::Global;
use step_engine::{Answer, Ask, Outcome};
use step_pack::{Key, Out};

/// How a value of `Ask` is encoded.
pub struct AskEncoding;

impl Encode for AskEncoding {
    type Value = Ask<Key>;

    ghost encoding = { ask_encoding };

    #[tactic(auto, unfolding(crate::specs::Talk::ask_encoding, packed_values::specs::Arms::tagged_encoding, packed_values::specs::Arms::arm, packed_values::specs::Arms::last_arm, packed_values::specs::Plain::byte_encoding))]
    fn encode(value: &Ask<Key>, out: &mut Vec<u8>) -> Result<(), WantOfMemory> {
        match value {
            Ask::File(path) => {
                encode_byte(0, out)?;
                Path::encode(path, out)
            }
            Ask::Field(number) => {
                encode_byte(1, out)?;
                u8::encode(number, out)
            }
            Ask::Part(key) => {
                encode_byte(2, out)?;
                KeyEncoding::encode(key, out)
            }
        }
    }

    #[tactic(auto, unfolding(crate::specs::Talk::ask_encoding, packed_values::specs::Arms::tagged_encoding, packed_values::specs::Arms::arm, packed_values::specs::Arms::last_arm, packed_values::specs::Plain::byte_encoding))]
    fn decode(alloc: Global, input: &mut Input) -> Result<Option<Ask<Key>>, WantOfMemory> {
        match input.byte() {
            Some(0) => match Path::decode(alloc, input)? {
                None => Ok(None),
                Some(path) => Ok(Some(Ask::File(path))),
            },
            Some(1) => match u8::decode(alloc, input)? {
                None => Ok(None),
                Some(number) => Ok(Some(Ask::Field(number))),
            },
            Some(2) => match KeyEncoding::decode(alloc, input)? {
                None => Ok(None),
                Some(key) => Ok(Some(Ask::Part(key))),
            },
            _ => Ok(None),
        }
    }
}

/// How a value of `Outcome` is encoded.
pub struct OutcomeEncoding;

impl Encode for OutcomeEncoding {
    type Value = Outcome<Out>;

    ghost encoding = { outcome_encoding };

    #[tactic(auto, unfolding(crate::specs::Talk::outcome_encoding, packed_values::specs::Arms::tagged_encoding, packed_values::specs::Arms::arm, packed_values::specs::Arms::last_arm, packed_values::specs::Plain::byte_encoding))]
    fn encode(value: &Outcome<Out>, out: &mut Vec<u8>) -> Result<(), WantOfMemory> {
        match value {
            Outcome::Good(given) => {
                encode_byte(0, out)?;
                <Shared<OutEncoding>>::encode(given, out)
            }
            Outcome::Bad(fault) => {
                encode_byte(1, out)?;
                <Shared<Fault>>::encode(fault, out)
            }
        }
    }

    #[tactic(auto, unfolding(crate::specs::Talk::outcome_encoding, packed_values::specs::Arms::tagged_encoding, packed_values::specs::Arms::arm, packed_values::specs::Arms::last_arm, packed_values::specs::Plain::byte_encoding))]
    fn decode(alloc: Global, input: &mut Input) -> Result<Option<Outcome<Out>>, WantOfMemory> {
        match input.byte() {
            Some(0) => match <Shared<OutEncoding>>::decode(alloc, input)? {
                None => Ok(None),
                Some(given) => Ok(Some(Outcome::Good(given))),
            },
            Some(1) => match <Shared<Fault>>::decode(alloc, input)? {
                None => Ok(None),
                Some(fault) => Ok(Some(Outcome::Bad(fault))),
            },
            _ => Ok(None),
        }
    }
}

/// How a value of `Answer` is encoded.
pub struct AnswerEncoding;

impl Encode for AnswerEncoding {
    type Value = Answer<Out>;

    ghost encoding = { answer_encoding };

    #[tactic(auto, unfolding(crate::specs::Talk::answer_encoding, packed_values::specs::Arms::tagged_encoding, packed_values::specs::Arms::arm, packed_values::specs::Arms::last_arm, packed_values::specs::Arms::unit_encoding, packed_values::specs::Plain::byte_encoding))]
    fn encode(value: &Answer<Out>, out: &mut Vec<u8>) -> Result<(), WantOfMemory> {
        match value {
            Answer::Absent => encode_byte(0, out),
            Answer::TooLong => encode_byte(1, out),
            Answer::Bytes(text) => {
                encode_byte(2, out)?;
                <Shared<Text>>::encode(text, out)
            }
            Answer::Field(text) => {
                encode_byte(3, out)?;
                <Shared<Text>>::encode(text, out)
            }
            Answer::Part(outcome) => {
                encode_byte(4, out)?;
                OutcomeEncoding::encode(outcome, out)
            }
        }
    }

    #[tactic(auto, unfolding(crate::specs::Talk::answer_encoding, packed_values::specs::Arms::tagged_encoding, packed_values::specs::Arms::arm, packed_values::specs::Arms::last_arm, packed_values::specs::Arms::unit_encoding, packed_values::specs::Plain::byte_encoding))]
    fn decode(alloc: Global, input: &mut Input) -> Result<Option<Answer<Out>>, WantOfMemory> {
        match input.byte() {
            Some(0) => Ok(Some(Answer::Absent)),
            Some(1) => Ok(Some(Answer::TooLong)),
            Some(2) => match <Shared<Text>>::decode(alloc, input)? {
                None => Ok(None),
                Some(text) => Ok(Some(Answer::Bytes(text))),
            },
            Some(3) => match <Shared<Text>>::decode(alloc, input)? {
                None => Ok(None),
                Some(text) => Ok(Some(Answer::Field(text))),
            },
            Some(4) => match OutcomeEncoding::decode(alloc, input)? {
                None => Ok(None),
                Some(outcome) => Ok(Some(Answer::Part(outcome))),
            },
            _ => Ok(None),
        }
    }
}
