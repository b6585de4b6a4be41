//! The lines of [Defines].
ghost use Rattle.std.specs.Prelude.{◌≡◌};
ghost use Rattle.build_base.specs.Answer.{Answers};
ghost use Rattle.doc_reading.specs.Gathering.{unless_faulty};
ghost use Rattle.dsc_lines.specs.KeyLines.{key_named, guid_faults, guid_row, output_faults, output_row, key_faults, key_row, pair_faults, pair_row, key_line_faults, key_line_row};

use crate::arches::arches_value;
use crate::output_folder::output_folder;
use crate::platform_name::platform_name;
use crate::rows::{DscRow, KeyValue};
use build_base::fault_codes::{BAD_PATH, DSC_BAD_GUID};
use build_base::{Guid, Refusal, Same, Taken};
use doc_reading::least_check::{least_of_one, least_of_two};
use doc_reading::value_fields::{open_quote, path_value, text_value, undefined_macro};
use doc_reading::values::require;
use macro_expressions::macros::without_workspace;
use meta_lexer::lookup;
use meta_lexer::words::split_once;
use std::alloc::Global;

/// A key of [Defines] that is read.
#[derive(Clone, Copy, PartialEq, Eq)]
pub(crate) enum PlatformKey {
    Name,
    Guid,
    Arches,
    Output,
    SkuChoice,
    Flash,
}

const KEYS: [(&[u8], PlatformKey); 6] = [
    (b"PLATFORM_NAME", PlatformKey::Name),
    (b"PLATFORM_GUID", PlatformKey::Guid),
    (b"SUPPORTED_ARCHITECTURES", PlatformKey::Arches),
    (b"OUTPUT_DIRECTORY", PlatformKey::Output),
    (b"SKUID_IDENTIFIER", PlatformKey::SkuChoice),
    (b"FLASH_DEFINITION", PlatformKey::Flash),
];

/// The key of a word.
#[tactic(auto, unfolding(crate::specs::KeyLines::key_named))]
pub fn key_named(word: &[u8]) -> Option<PlatformKey>
    ensures { result ≡ key_named word.now }
{
    lookup(&KEYS, word)
}

fn guid_said(alloc: Global, line: &Taken, value: &[u8]) -> Result<Option<DscRow>, Refusal>
    ensures { Answers result (unless_faulty (guid_faults line.now value.now) (guid_row value.now)) }
{
    let guid = Guid::of_text(value);
    least_of_two(
        undefined_macro(alloc, &line.at, value),
        require(alloc, &guid, DSC_BAD_GUID, &line.at, value),
    )?;
    Ok(guid.map(|guid| DscRow::Key(KeyValue::Guid(guid))))
}

fn output_said(alloc: Global, line: &Taken, value: &[u8]) -> Result<Option<DscRow>, Refusal>
    ensures { Answers result
        (unless_faulty (output_faults line.now value.now) (output_row value.now)) }
{
    let folder = output_folder(alloc, without_workspace(value))?;
    least_of_one(require(alloc, &folder, BAD_PATH, &line.at, value))?;
    Ok(folder.map(|folder| DscRow::Key(KeyValue::Output(folder))))
}

fn key_said(
    alloc: Global,
    line: &Taken,
    key: PlatformKey,
    value: &[u8],
) -> Result<Option<DscRow>, Refusal>
    ensures { Answers result
        (unless_faulty (key_faults line.now key value.now) (key_row line.now key value.now)) }
{
    match key {
        PlatformKey::Name => {
            let name = platform_name(alloc, &line.at, value)?;
            Ok(Some(DscRow::Key(KeyValue::Name(name))))
        }
        PlatformKey::Guid => guid_said(alloc, line, value),
        PlatformKey::Arches => {
            let arches = arches_value(alloc, &line.at, value)?;
            Ok(Some(DscRow::Key(KeyValue::Arches(arches))))
        }
        PlatformKey::Output => output_said(alloc, line, value),
        PlatformKey::SkuChoice => {
            let choice = text_value(alloc, &line.at, value)?;
            Ok(Some(DscRow::Key(KeyValue::SkuChoice(line.at.copy(alloc)?, choice))))
        }
        PlatformKey::Flash => {
            let flash = path_value(alloc, &line.at, value)?;
            Ok(Some(DscRow::Key(KeyValue::Flash(flash))))
        }
    }
}

fn pair_said(
    alloc: Global,
    line: &Taken,
    key: Option<PlatformKey>,
    value: &[u8],
) -> Result<Option<DscRow>, Refusal>
    ensures { Answers result
        (unless_faulty (pair_faults line.now key value.now) (pair_row line.now key value.now)) }
{
    match key {
        Some(key) => {
            open_quote(alloc, &line.at, line.text.bytes())?;
            key_said(alloc, line, key, value)
        }
        None => Ok(None),
    }
}

/// What a line of [Defines] says.
#[tactic(auto, unfolding(crate::specs::KeyLines::key_line_faults, crate::specs::KeyLines::key_line_row))]
pub fn key_line(alloc: Global, line: &Taken) -> Result<Option<DscRow>, Refusal>
    ensures { Answers result (unless_faulty (key_line_faults line.now) (key_line_row line.now)) }
{
    match split_once(b'=', line.text.bytes()) {
        Some((key, value)) => pair_said(alloc, line, key_named(key), value),
        None => Ok(None),
    }
}
