//! What files and volumes hold, by the answers of a stage.
ghost use Rattle.std.specs.Prelude.{◌≡◌, ◌++◌, ◌∷◌, [], Some, IfOk, OnOk};
ghost use Rattle.build_base.specs.Answer.{Finds};
ghost use Rattle.build_base.specs.FaultText.{fault_of};
ghost use Rattle.build_stages.specs.Gives.{GivesIn};
ghost use Rattle.step_answers.specs.Volumes.{volume_step};
ghost use Rattle.step_answers.specs.Contents.{whole_file, file_content, file_absent, section_absent, volume_content, volume_given};

use crate::volumes::volume_step;
use build_base::fault_codes::{FILE_ABSENT, FILE_TOO_LONG, SECTION_ABSENT};
use build_base::{Image, Path, Place, Refusal, Rows, Same, Text, WantOfMemory, refuse};
use build_stages::{Given, Stop};
use doc_types::volume::VolumePlan;
use std::alloc::Global;
use step_engine::{Answer, Ask};
use step_pack::{Key, Out};

/// Asks a file.
pub fn push_file(alloc: Global, asks: &mut Rows<Ask<Key>>, path: &Path) -> Result<(), WantOfMemory>
    ensures { OnOk result (asks.new ≡ asks.old ++ Ask.File path.now ∷ []) }
{
    asks.push(Ask::File(path.copy(alloc)?))?;
    Ok(())
}

fn whole_file(alloc: Global, path: &Path) -> Result<Place, WantOfMemory>
    ensures { IfOk result (λ at. at ≡ whole_file path.now) }
{
    Ok(Place {
        path: path.copy(alloc)?,
        line: 0,
    })
}

/// The refusal of a whole file.
pub fn refuse_file(alloc: Global, code: u16, path: &Path, detail: &[u8]) -> Refusal
    ensures { Finds result (Some (fault_of code (whole_file path.now) detail.now)) }
{
    match whole_file(alloc, path) {
        Ok(at) => refuse(alloc, code, &at, detail),
        Err(_) => Refusal::WantOfMemory,
    }
}

/// The bytes of a file that was asked for, which is a whole body or the content of a region.
pub fn whole_content<'a>(
    alloc: Global,
    given: &Given<'a, Key, Out>,
    path: &Path,
) -> Result<&'a Text, Stop<Key>>
    ensures { GivesIn (λ text. text.now) result
        (file_content given.now (file_absent path.now) path.now) }
{
    match given.file(path)? {
        Answer::Bytes(bytes) => Ok(bytes.value()),
        Answer::Absent => Err(Stop::from(refuse_file(alloc, FILE_ABSENT, path, path.bytes()))),
        Answer::TooLong => Err(Stop::from(refuse_file(alloc, FILE_TOO_LONG, path, path.bytes()))),
        Answer::Field(_) | Answer::Part(_) => Err(Stop::ImpossibleAnswer),
    }
}

/// The bytes of a file that was asked for, which is a section's.
pub fn section_content<'a>(
    alloc: Global,
    given: &Given<'a, Key, Out>,
    at: &Place,
    path: &Path,
) -> Result<&'a Text, Stop<Key>>
    ensures { GivesIn (λ text. text.now) result
        (file_content given.now (section_absent at.now path.now) path.now) }
{
    match given.file(path)? {
        Answer::Bytes(bytes) => Ok(bytes.value()),
        Answer::Absent => Err(Stop::from(refuse(alloc, SECTION_ABSENT, at, path.bytes()))),
        Answer::TooLong => Err(Stop::from(refuse_file(alloc, FILE_TOO_LONG, path, path.bytes()))),
        Answer::Field(_) | Answer::Part(_) => Err(Stop::ImpossibleAnswer),
    }
}

fn volume_of(out: &Out) -> Result<&Image, Stop<Key>>
    ensures { GivesIn (λ image. image.now) result (volume_given out.now) }
{
    match out {
        Out::Volume(image) => Ok(image),
        _ => Err(Stop::ImpossibleAnswer),
    }
}

// The volume of a step that was asked for.
fn volume_content<'a>(given: &Given<'a, Key, Out>, key: &Key) -> Result<&'a Image, Stop<Key>>
    ensures { GivesIn (λ image. image.now) result (volume_content given.now key.now) }
{
    volume_of(given.part(key)?)
}

/// The volume of a number, which may be moved to its base.
pub fn nested_volume<'a>(
    volumes: &[VolumePlan],
    given: &Given<'a, Key, Out>,
    number: u32,
) -> Result<&'a Image, Stop<Key>>
    ensures { GivesIn (λ image. image.now) result
        (volume_content given.now (volume_step volumes.now number)) }
{
    volume_content(given, &volume_step(volumes, number))
}
