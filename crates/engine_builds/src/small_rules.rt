//! The rules of the tests: a step asks for a file and a field, or for the outcomes of step 0 and of
//! the step before it.
ghost use Rattle.std.specs.Prelude.{◌≡◌, ◌∷◌, ◌++◌, [], IfOk};
ghost use Rattle.build_stages.specs.Gives.{GivesIn};
ghost use Rattle.build_stages.specs.Writing.{given_file};
ghost use Rattle.engine_builds.specs.SmallRules.{first_ask, second_ask, path_of, absent, with_field, file_given, parts_given, step_given};

use build_base::book::Permit;
use build_base::fault::{Fault, Place};
use build_base::fault_codes::FILE_ABSENT;
use build_base::path::Path;
use build_base::rows::Rows;
use build_base::text::{Text, WantOfMemory};
use build_stages::{Given, Known, StagedRules, StepTypes, Stop, gather, turn_by};
use std::alloc::Global;
use step_engine::{Answer, Ask, Rules, Talk, Turn};

pub struct SmallRules;

impl StepTypes for SmallRules {
    ghost use Rattle.engine_builds.specs.SmallRules.{small};

    type Key = u32;

    type Out = Text;

    ghost staged = { small };

    fn fits(&self, _ask: &Ask<u32>, _answer: &Answer<Text>) -> bool {
        true
    }
}

impl StagedRules for SmallRules {
    ghost use Rattle.engine_builds.specs.SmallBounds.{small_is_bounded};

    fn rank(&self, key: &u32) -> u64 {
        (*key as u64).saturating_sub(1)
    }

    fn outcome(
        &self,
        alloc: Global,
        key: &u32,
        known: &Known<'_, u32, Text>,
        permit: Permit,
    ) -> Result<Text, Stop<u32>> {
        let asks = asks(alloc, *key)?;
        let (given, _permit) = gather(alloc, self, known, asks.items(), permit)?;
        step_given(alloc, *key, &given)
    }

    ghost bounded = { small_is_bounded };
}

impl Rules for SmallRules {
    ghost use Rattle.std.specs.Cmp.{nat_cmp_total};
    ghost use Rattle.std.specs.Ordering.{nat_cmp};
    ghost use Rattle.std.proofs.lemmas.Map.Lookups.{exact_unsigned};
    ghost use Rattle.build_stages.specs.Stages.{meaning_of};
    ghost use Rattle.build_stages.specs.StagesRules.{staged_is_lawful};
    ghost use Rattle.engine_builds.specs.SmallRules.{small};
    ghost use Rattle.engine_builds.specs.SmallBounds.{small_is_bounded};

    type Key = u32;

    type Out = Text;

    ghost means = { meaning_of nat_cmp small };

    fn rank(&self, key: &u32) -> u64 {
        StagedRules::rank(self, key)
    }

    fn turn(
        &self,
        alloc: Global,
        key: &u32,
        talk: &Talk<u32, Text>,
        permit: Permit,
    ) -> Result<Turn<u32, Text>, WantOfMemory> {
        turn_by(alloc, self, key, talk, permit)
    }

    ghost lawful = { staged_is_lawful nat_cmp small nat_cmp_total exact_unsigned small_is_bounded };
}

fn path(alloc: Global, key: u32) -> Result<Path, WantOfMemory>
    ensures { IfOk result (λ path. path ≡ path_of key) }
{
    let made = if key == 0 {
        Path::new(alloc, b"a")
    } else {
        Path::new(alloc, b"b")
    };
    match made {
        Ok(path) => Ok(path),
        Err(_) => Err(WantOfMemory),
    }
}

fn asks(alloc: Global, key: u32) -> Result<Rows<Ask<u32>>, WantOfMemory>
    ensures { IfOk result (λ asks. asks ≡ first_ask key ∷ second_ask key ∷ []) }
{
    let mut asks = Rows::new(alloc);
    if key < 2 {
        asks.push(Ask::File(path(alloc, key)?))?;
        asks.push(Ask::Field(key as u8))?;
        return Ok(asks);
    }
    asks.push(Ask::Part(0))?;
    asks.push(Ask::Part(key - 1))?;
    Ok(asks)
}

fn absent(alloc: Global, key: u32) -> Result<Fault, WantOfMemory>
    ensures { IfOk result (λ fault. fault ≡ absent key) }
{
    let place = Place {
        path: path(alloc, key)?,
        line: 0,
    };
    let detail = Text::of(alloc, b"")?;
    Ok(Fault {
        code: FILE_ABSENT,
        place,
        detail,
    })
}

fn join_texts(alloc: Global, first: &Text, second: &Text) -> Result<Text, WantOfMemory>
    ensures { IfOk result (λ text. text ≡ first.now ++ second.now) }
{
    let mut bytes = Vec::from_slice(alloc, first.bytes())?;
    bytes.extend_from_slice(second.bytes())?;
    Ok(Text::from_vec(bytes))
}

fn with_field(alloc: Global, key: u32, file: &Answer<Text>, more: &Text) -> Result<Text, Stop<u32>>
    ensures { GivesIn (λ text. text) result (with_field key file.now more.now) }
{
    match file {
        Answer::Bytes(bytes) => Ok(join_texts(alloc, bytes.value(), more)?),
        _ => Err(Stop::Fails(absent(alloc, key)?)),
    }
}

fn file_answer<'a>(
    alloc: Global,
    key: u32,
    given: &Given<'a, u32, Text>,
) -> Result<&'a Answer<Text>, Stop<u32>>
    ensures { GivesIn (λ answer. answer.now) result (given_file given.now (path_of key)) }
{
    let path = path(alloc, key)?;
    given.file(&path)
}

fn file_given(alloc: Global, key: u8, given: &Given<'_, u32, Text>) -> Result<Text, Stop<u32>>
    ensures { GivesIn (λ text. text) result (file_given key given.now) }
{
    let file = file_answer(alloc, key as u32, given)?;
    let more = given.field(key)?;
    with_field(alloc, key as u32, file, more)
}

fn parts_given(alloc: Global, before: u32, given: &Given<'_, u32, Text>) -> Result<Text, Stop<u32>>
    ensures { GivesIn (λ text. text) result (parts_given before given.now) }
{
    let first = given.part(&0)?;
    let second = given.part(&before)?;
    Ok(join_texts(alloc, first, second)?)
}

fn step_given(alloc: Global, key: u32, given: &Given<'_, u32, Text>) -> Result<Text, Stop<u32>>
    ensures { GivesIn (λ text. text) result (step_given key given.now) }
{
    if key < 2 {
        file_given(alloc, key as u8, given)
    } else {
        parts_given(alloc, key - 1, given)
    }
}
