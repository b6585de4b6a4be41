//! The keys of a volume.
ghost use Rattle.std.specs.Prelude.{◌≡◌, false};
ghost use Rattle.build_base.specs.Answer.{Answers, Checks};
ghost use Rattle.build_base.specs.Guid.{guid_of};
ghost use Rattle.doc_reading.specs.Gathering.{unless_faulty};
ghost use Rattle.fdf_words.specs.Keys.{volume_word};
ghost use Rattle.fdf_words.specs.Words.{volume_alignment};
ghost use Rattle.fdf_words.specs.Numbers.{number_faults, number_of_field};
ghost use Rattle.fdf_volumes.specs.VolumeKeys.{truth_named, is_ffs3, volume_form, made_number, alignment_faults, alignment_row, numbers_faults, numbers_row, truth_faults, name_faults, name_row, file_system, system_fault, system_faults, system_row, force_row, attribute_row, word_faults, word_row};

use build_base::fault_codes::{BAD_KEY, FDF_BAD_GUID};
use build_base::{Guid, Refusal, Taken, refuse};
use doc_reading::least_check::least_of_two;
use doc_reading::value_fields::undefined_macro;
use doc_reading::values::require;
use doc_types::standard::{EFI_FIRMWARE_FILE_SYSTEM2_GUID, EFI_FIRMWARE_FILE_SYSTEM3_GUID};
use fdf_words::keys::{VolumeWord, volume_word};
use fdf_words::number::{NumberForm, Numbered, no_key, number_field};
use fdf_words::rows::{Row, VolumeKey, VolumeSetting};
use fdf_words::words::volume_alignment;
use meta_lexer::lookup;
use std::alloc::Global;

const TRUTHS: [(&[u8], bool); 2] = [(b"TRUE", true), (b"FALSE", false)];

#[tactic(auto, unfolding(crate::specs::VolumeKeys::truth_named))]
fn truth_named(word: &[u8]) -> Option<bool>
    ensures { result ≡ truth_named word.now }
{
    lookup(&TRUTHS, word)
}

#[tactic(auto, unfolding(crate::specs::VolumeKeys::is_ffs3))]
fn is_ffs3(guid: Guid) -> Option<bool>
    ensures { result ≡ is_ffs3 guid }
{
    if guid.0 == EFI_FIRMWARE_FILE_SYSTEM2_GUID {
        return Some(false);
    }
    if guid.0 == EFI_FIRMWARE_FILE_SYSTEM3_GUID {
        return Some(true);
    }
    None
}

fn volume_form(key: VolumeKey) -> NumberForm
    ensures { result ≡ volume_form key }
{
    match key {
        VolumeKey::ErasePolarity => NumberForm::Polarity,
        VolumeKey::BlockSize
        | VolumeKey::NumBlocks
        | VolumeKey::FvBaseAddress
        | VolumeKey::FvAlignment => NumberForm::Plain,
    }
}

fn made_number(key: VolumeKey, numbered: Option<Numbered>) -> Option<Row>
    ensures { result ≡ made_number key numbered }
{
    match numbered {
        Some(Numbered { number, .. }) => Some(Row::Setting(VolumeSetting::Number { key, number })),
        None => None,
    }
}

fn alignment_row(bytes: Option<u32>) -> Option<Row>
    ensures { result ≡ alignment_row bytes }
{
    match bytes {
        Some(bytes) => Some(Row::Setting(VolumeSetting::Number {
            key: VolumeKey::FvAlignment,
            number: bytes as u64,
        })),
        None => None,
    }
}

fn alignment_line(alloc: Global, line: &Taken, value: &[u8]) -> Result<Option<Row>, Refusal>
    ensures { Answers result
        (unless_faulty (alignment_faults line.now value.now)
        (alignment_row (volume_alignment value.now))) }
{
    let bytes = volume_alignment(value);
    least_of_two(
        undefined_macro(alloc, &line.at, value),
        require(alloc, &bytes, BAD_KEY, &line.at, value),
    )?;
    Ok(alignment_row(bytes))
}

fn plain_line(
    alloc: Global,
    line: &Taken,
    key: VolumeKey,
    name: &[u8],
    value: &[u8],
) -> Result<Option<Row>, Refusal>
    ensures { Answers result
        (unless_faulty (number_faults line.now (volume_form key) name.now value.now false)
        (made_number key (number_of_field line.now (volume_form key) value.now))) }
{
    let numbered = number_field(alloc, line, volume_form(key), name, value, false)?;
    Ok(made_number(key, numbered))
}

fn number_line(
    alloc: Global,
    line: &Taken,
    key: VolumeKey,
    name: &[u8],
    value: &[u8],
) -> Result<Option<Row>, Refusal>
    ensures { Answers result
        (unless_faulty (numbers_faults line.now key name.now value.now)
        (numbers_row line.now key value.now)) }
{
    match key {
        VolumeKey::FvAlignment => alignment_line(alloc, line, value),
        VolumeKey::BlockSize => plain_line(alloc, line, VolumeKey::BlockSize, name, value),
        VolumeKey::NumBlocks => plain_line(alloc, line, VolumeKey::NumBlocks, name, value),
        VolumeKey::FvBaseAddress => plain_line(alloc, line, VolumeKey::FvBaseAddress, name, value),
        VolumeKey::ErasePolarity => plain_line(alloc, line, VolumeKey::ErasePolarity, name, value),
    }
}

fn name_row(guid: Option<Guid>) -> Option<Row>
    ensures { result ≡ name_row guid }
{
    match guid {
        Some(guid) => Some(Row::Setting(VolumeSetting::NameGuid(guid))),
        None => None,
    }
}

fn name_line(alloc: Global, line: &Taken, value: &[u8]) -> Result<Option<Row>, Refusal>
    ensures { Answers result
        (unless_faulty (name_faults line.now value.now) (name_row (guid_of value.now))) }
{
    let guid = Guid::of_text(value);
    least_of_two(
        undefined_macro(alloc, &line.at, value),
        require(alloc, &guid, FDF_BAD_GUID, &line.at, value),
    )?;
    Ok(name_row(guid))
}

fn file_system(guid: Option<Guid>) -> Option<bool>
    ensures { result ≡ file_system guid }
{
    match guid {
        Some(guid) => is_ffs3(guid),
        None => None,
    }
}

fn check_system(
    alloc: Global,
    line: &Taken,
    value: &[u8],
    guid: Option<Guid>,
) -> Result<(), Refusal>
    ensures { Checks result (system_fault line.now value.now guid) }
{
    match guid {
        Some(guid) => {
            let known = is_ffs3(guid);
            require(alloc, &known, BAD_KEY, &line.at, value)
        }
        None => Err(refuse(alloc, FDF_BAD_GUID, &line.at, value)),
    }
}

fn system_row(ffs3: Option<bool>) -> Option<Row>
    ensures { result ≡ system_row ffs3 }
{
    match ffs3 {
        Some(ffs3) => Some(Row::Setting(VolumeSetting::FileSystem { ffs3 })),
        None => None,
    }
}

fn system_line(alloc: Global, line: &Taken, value: &[u8]) -> Result<Option<Row>, Refusal>
    ensures { Answers result
        (unless_faulty (system_faults line.now value.now)
        (system_row (file_system (guid_of value.now)))) }
{
    let guid = Guid::of_text(value);
    least_of_two(
        undefined_macro(alloc, &line.at, value),
        check_system(alloc, line, value, guid),
    )?;
    Ok(system_row(file_system(guid)))
}

fn truth_line(alloc: Global, line: &Taken, value: &[u8]) -> Result<Option<bool>, Refusal>
    ensures { Answers result
        (unless_faulty (truth_faults line.now value.now) (truth_named value.now)) }
{
    let on = truth_named(value);
    least_of_two(
        undefined_macro(alloc, &line.at, value),
        require(alloc, &on, BAD_KEY, &line.at, value),
    )?;
    Ok(on)
}

fn force_row(on: Option<bool>) -> Option<Row>
    ensures { result ≡ force_row on }
{
    match on {
        Some(on) => Some(Row::Setting(VolumeSetting::ForceRebase(on))),
        None => None,
    }
}

fn attribute_row(bits: u32, on: Option<bool>) -> Option<Row>
    ensures { result ≡ attribute_row bits on }
{
    match on {
        Some(on) => Some(Row::Setting(VolumeSetting::Attribute { bits, on })),
        None => None,
    }
}

/// What a key of a volume states.
pub fn key_line(
    alloc: Global,
    line: &Taken,
    name: &[u8],
    value: &[u8],
) -> Result<Option<Row>, Refusal>
    ensures { Answers result
        (unless_faulty (word_faults line.now name.now value.now (volume_word name.now))
        (word_row line.now value.now (volume_word name.now))) }
{
    match volume_word(name) {
        Some(VolumeWord::Number(key)) => number_line(alloc, line, key, name, value),
        Some(VolumeWord::NameGuid) => name_line(alloc, line, value),
        Some(VolumeWord::FileSystem) => system_line(alloc, line, value),
        Some(VolumeWord::ForceRebase) => {
            let on = truth_line(alloc, line, value)?;
            Ok(force_row(on))
        }
        Some(VolumeWord::Attribute(bits)) => {
            let on = truth_line(alloc, line, value)?;
            Ok(attribute_row(bits, on))
        }
        None => Err(no_key(alloc, line, name, value)),
    }
}
