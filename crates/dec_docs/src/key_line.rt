//! The lines of [Defines].
ghost use Rattle.std.specs.Prelude.{◌≡◌};
ghost use Rattle.build_base.specs.Answer.{Answers};
ghost use Rattle.doc_reading.specs.Gathering.{unless_faulty};
ghost use Rattle.dec_docs.specs.KeyLines.{key_named, key_faults, key_row, key_line_faults, key_line_row};

use crate::rows::DecRow;
use build_base::fault_codes::DEC_BAD_GUID;
use build_base::{Guid, Refusal, Taken};
use doc_reading::least_check::least_of_two;
use doc_reading::segment_name::segment_name;
use doc_reading::value_fields::{open_quote, undefined_macro};
use doc_reading::values::require;
use meta_lexer::lookup;
use meta_lexer::words::split_once;
use std::alloc::Global;

/// A key of [Defines] that is read.
#[derive(Clone, Copy, PartialEq, Eq)]
pub(crate) enum DecKey {
    Name,
    Guid,
}

const KEYS: [(&[u8], DecKey); 2] = [
    (b"PACKAGE_NAME", DecKey::Name),
    (b"PACKAGE_GUID", DecKey::Guid),
];

/// The key of a word.
#[tactic(auto, unfolding(crate::specs::KeyLines::key_named))]
pub fn key_named(word: &[u8]) -> Option<DecKey>
    ensures { result ≡ key_named word.now }
{
    lookup(&KEYS, word)
}

fn key_said(
    alloc: Global,
    line: &Taken,
    key: Option<DecKey>,
    value: &[u8],
) -> Result<Option<DecRow>, Refusal>
    ensures { Answers result
        (unless_faulty (key_faults line.now key value.now) (key_row key value.now)) }
{
    match key {
        Some(DecKey::Name) => {
            open_quote(alloc, &line.at, line.text.bytes())?;
            let name = segment_name(alloc, &line.at, value)?;
            Ok(Some(DecRow::Name(name.into_text())))
        }
        Some(DecKey::Guid) => {
            open_quote(alloc, &line.at, line.text.bytes())?;
            let guid = Guid::of_text(value);
            least_of_two(
                undefined_macro(alloc, &line.at, value),
                require(alloc, &guid, DEC_BAD_GUID, &line.at, value),
            )?;
            Ok(guid.map(|guid| DecRow::Guid(guid)))
        }
        None => Ok(None),
    }
}

/// What a line of [Defines] says.
#[tactic(auto, unfolding(crate::specs::KeyLines::key_line_faults, crate::specs::KeyLines::key_line_row))]
pub fn key_line(alloc: Global, line: &Taken) -> Result<Option<DecRow>, Refusal>
    ensures { Answers result (unless_faulty (key_line_faults line.now) (key_line_row line.now)) }
{
    match split_once(b'=', line.text.bytes()) {
        Some((key, value)) => key_said(alloc, line, key_named(key), value),
        None => Ok(None),
    }
}
