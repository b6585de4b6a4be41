//! The lines of [Defines].
ghost use Rattle.std.specs.Prelude.{◌≡◌, IfOk};
ghost use Rattle.build_base.specs.Answer.{Answers, Checks};
ghost use Rattle.doc_reading.specs.Gathering.{unless_faulty};
ghost use Rattle.doc_reading.specs.Least.{least_of};
ghost use Rattle.inf_docs.specs.Keys.{guid_faults, type_faults, value_faults, value_row, key_faults, key_row, key_line_faults, key_line_row};

use crate::class::{check_class, class_served};
use crate::key::{ModuleKey, key_named};
use crate::names::{check_name, name_for};
use crate::row::Row;
use build_base::fault_codes::{BAD_TYPE, INF_BAD_GUID};
use build_base::{Guid, Refusal, Taken, Text, WantOfMemory};
use doc_reading::least_check::{least_of_one, least_of_two};
use doc_reading::value_fields::{open_quote, undefined_macro};
use doc_reading::values::require;
use doc_types::arch::Arch;
use doc_types::module_type::module_type_named;
use meta_lexer::parts::field_texts;
use meta_lexer::words::split_once;
use std::alloc::Global;

fn check_guid(alloc: Global, line: &Taken, value: &[u8]) -> Result<(), Refusal>
    ensures { Checks result (least_of (guid_faults line.now value.now)) }
{
    least_of_two(
        undefined_macro(alloc, &line.at, value),
        require(alloc, &Guid::of_text(value), INF_BAD_GUID, &line.at, value),
    )
}

fn check_type(alloc: Global, line: &Taken, value: &[u8]) -> Result<(), Refusal>
    ensures { Checks result (least_of (type_faults line.now value.now)) }
{
    least_of_two(
        undefined_macro(alloc, &line.at, value),
        require(alloc, &module_type_named(value), BAD_TYPE, &line.at, value),
    )
}

#[tactic(auto, unfolding(crate::specs::Keys::value_faults))]
fn check_value(alloc: Global, line: &Taken, key: ModuleKey, value: &[u8]) -> Result<(), Refusal>
    ensures { Checks result (least_of (value_faults line.now key value.now)) }
{
    match key {
        ModuleKey::FileGuid => check_guid(alloc, line, value),
        ModuleKey::Kind => check_type(alloc, line, value),
        ModuleKey::Version => least_of_one(undefined_macro(alloc, &line.at, value)),
        ModuleKey::LibraryClass => {
            let fields = field_texts(alloc, value)?;
            check_class(alloc, line, fields.items())
        }
        ModuleKey::BaseName
        | ModuleKey::EntryPoint
        | ModuleKey::Constructor
        | ModuleKey::Destructor => check_name(alloc, &line.at, value),
    }
}

#[tactic(auto, unfolding(crate::specs::Keys::value_row))]
fn value_row(
    alloc: Global,
    line: &Taken,
    key: ModuleKey,
    value: &[u8],
) -> Result<Option<Row>, WantOfMemory>
    ensures { IfOk result (λ row. row ≡ value_row line.now key value.now) }
{
    let at = &line.at;
    match key {
        ModuleKey::BaseName => Ok(Some(Row::BaseName(Text::of(alloc, value)?))),
        ModuleKey::FileGuid => Ok(Guid::of_text(value).map(|guid| Row::FileGuid(guid))),
        ModuleKey::Kind => Ok(module_type_named(value).map(|found| Row::Kind(found))),
        ModuleKey::Version => Ok(Some(Row::Version(Text::of(alloc, value)?))),
        ModuleKey::EntryPoint => {
            Ok(Some(Row::EntryPoint(name_for(alloc, at, Arch::Common, value)?)))
        }
        ModuleKey::Constructor => {
            Ok(Some(Row::Constructor(name_for(alloc, at, Arch::Common, value)?)))
        }
        ModuleKey::Destructor => {
            Ok(Some(Row::Destructor(name_for(alloc, at, Arch::Common, value)?)))
        }
        ModuleKey::LibraryClass => {
            let fields = field_texts(alloc, value)?;
            let served = class_served(alloc, fields.items())?;
            Ok(served.map(|served| Row::Serves(served)))
        }
    }
}

fn key_row(
    alloc: Global,
    line: &Taken,
    key: Option<ModuleKey>,
    value: &[u8],
) -> Result<Option<Row>, Refusal>
    ensures { Answers result
        (unless_faulty (key_faults line.now key value.now) (key_row line.now key value.now)) }
{
    match key {
        Some(key) => {
            open_quote(alloc, &line.at, line.text.bytes())?;
            check_value(alloc, line, key, value)?;
            let row = value_row(alloc, line, key, value)?;
            Ok(row)
        }
        None => Ok(None),
    }
}

/// What a line of [Defines] says.
#[tactic(auto, unfolding(crate::specs::Keys::key_line_faults, crate::specs::Keys::key_line_row))]
pub fn key_line(alloc: Global, line: &Taken) -> Result<Option<Row>, Refusal>
    ensures { Answers result (unless_faulty (key_line_faults line.now) (key_line_row line.now)) }
{
    match split_once(b'=', line.text.bytes()) {
        Some((key, value)) => key_row(alloc, line, key_named(key), value),
        None => Ok(None),
    }
}
