//! The lines of a device.
ghost use Rattle.std.specs.Prelude.{◌≡◌, IfOk, None};
ghost use Rattle.build_base.specs.Answer.{Answers, Checks, Finds};
ghost use Rattle.build_base.specs.Path.{path_field};
ghost use Rattle.macro_expressions.specs.Macros.{without_workspace};
ghost use Rattle.doc_reading.specs.Gathering.{unless_faulty};
ghost use Rattle.doc_reading.specs.Least.{least_of};
ghost use Rattle.doc_types.specs.Pcds.{pcd_name_of};
ghost use Rattle.fdf_words.specs.DataBytes.{data_of};
ghost use Rattle.fdf_words.specs.Words.{word_of};
ghost use Rattle.fdf_words.specs.declared.rows.Content.TheVariants as content;
ghost use Rattle.fdf_words.specs.declared.rows.Row.TheVariants as variant;
ghost use Rattle.fdf_words.specs.declared.marks.Waiting.TheVariants.{NoRegion};
ghost use Rattle.fdf_words.specs.Keys.{device_word};
ghost use Rattle.fdf_words.specs.Numbers.{number_faults, number_of_field};
ghost use Rattle.fdf_words.specs.DeviceLines.{number_form, misplaced, made_number, pcds_fault, content_fault, made_content, held_faults, tree_faults, tree_row, bytes_faults, bytes_row, keyed_faults, keyed_row, one_faults, one_row, pair_faults, pair_row, other_faults, fields_faults, fields_row, unkeyed_faults, unkeyed_row, device_faults, device_row};

use crate::data_bytes::data_of;
use crate::keys::{DeviceWord, device_word, key_pair};
use crate::marks::{Marks, Waiting};
use crate::number::{NumberForm, Numbered, bad_line, no_form, no_key, number_field};
use crate::rows::{Content, DeviceKey, DeviceNumber, RegionContent, RegionPcds, RegionStart, Row};
use crate::words::first_word;
use build_base::fault_codes::{BAD_PATH, BAD_REGION};
use build_base::path::path_field;
use build_base::{Path, Refusal, Same, Taken, Text, WantOfMemory};
use doc_reading::least_check::{least_of_three, least_of_two, least_refusal, lesser_refusal};
use doc_reading::value_fields::{number_value, undefined_macro, undefined_macros};
use doc_reading::values::require;
use doc_types::pcd::{PcdName, pcd_name_of};
use macro_expressions::macros::without_workspace;
use meta_lexer::parts::field_texts;
use std::alloc::Global;

fn number_form(key: DeviceKey) -> NumberForm
    ensures { result ≡ number_form key }
{
    match key {
        DeviceKey::BaseAddress => NumberForm::Address,
        DeviceKey::Size => NumberForm::Size,
        DeviceKey::ErasePolarity => NumberForm::Polarity,
        DeviceKey::BlockSize | DeviceKey::NumBlocks => NumberForm::Plain,
    }
}

fn is_misplaced(pair: bool, key: DeviceKey) -> bool
    ensures { result ≡ misplaced pair key }
{
    match key {
        DeviceKey::BlockSize => pair,
        DeviceKey::NumBlocks => !pair,
        DeviceKey::BaseAddress | DeviceKey::Size | DeviceKey::ErasePolarity => false,
    }
}

fn made_number(
    alloc: Global,
    line: &Taken,
    key: DeviceKey,
    numbered: Option<Numbered>,
) -> Result<Option<Row>, WantOfMemory>
    ensures { IfOk result (λ row. row ≡ made_number line.now key numbered) }
{
    match numbered {
        Some(Numbered { number, pcd }) => Ok(Some(Row::Number(DeviceNumber {
            at: line.at.copy(alloc)?,
            key,
            number,
            pcd,
        }))),
        None => Ok(None),
    }
}

fn number_line(
    alloc: Global,
    line: &Taken,
    pair: bool,
    known: DeviceKey,
    key: &[u8],
    value: &[u8],
) -> Result<Option<Row>, Refusal>
    ensures { Answers result
        (unless_faulty (number_faults line.now (number_form known) key.now value.now
        (misplaced pair known))
        (made_number line.now known (number_of_field line.now (number_form known) value.now))) }
{
    let numbered = number_field(
        alloc,
        line,
        number_form(known),
        key,
        value,
        is_misplaced(pair, known),
    )?;
    let row = made_number(alloc, line, known, numbered)?;
    Ok(row)
}

fn check_pcds(alloc: Global, line: &Taken, waiting: Waiting) -> Result<(), Refusal>
    ensures { Checks result (pcds_fault line.now waiting) }
{
    match waiting {
        Waiting::Started => Ok(()),
        Waiting::Named | Waiting::NoRegion => Err(bad_line(alloc, BAD_REGION, line)),
    }
}

fn check_content(alloc: Global, line: &Taken, waiting: Waiting) -> Result<(), Refusal>
    ensures { Checks result (content_fault line.now waiting) }
{
    match waiting {
        Waiting::Started | Waiting::Named => Ok(()),
        Waiting::NoRegion => Err(bad_line(alloc, BAD_REGION, line)),
    }
}

fn made_content(alloc: Global, line: &Taken, content: Content) -> Result<Option<Row>, WantOfMemory>
    ensures { IfOk result (λ row. row ≡ made_content line.now content) }
{
    Ok(Some(Row::Content(RegionContent {
        at: line.at.copy(alloc)?,
        content,
    })))
}

fn held_line(
    alloc: Global,
    line: &Taken,
    waiting: Waiting,
    value: &[u8],
) -> Result<Option<Row>, Refusal>
    ensures { Answers result
        (unless_faulty (held_faults line.now waiting value.now)
        (made_content line.now (content.Volume value.now))) }
{
    least_of_two(
        undefined_macro(alloc, &line.at, value),
        check_content(alloc, line, waiting),
    )?;
    let row = made_content(alloc, line, Content::Volume(Text::of(alloc, value)?))?;
    Ok(row)
}

fn tree_row(alloc: Global, line: &Taken, path: Option<Path>) -> Result<Option<Row>, WantOfMemory>
    ensures { IfOk result (λ row. row ≡ tree_row line.now path) }
{
    match path {
        Some(path) => made_content(alloc, line, Content::Tree(path)),
        None => Ok(None),
    }
}

fn tree_line(
    alloc: Global,
    line: &Taken,
    waiting: Waiting,
    value: &[u8],
) -> Result<Option<Row>, Refusal>
    ensures { Answers result
        (unless_faulty (tree_faults line.now waiting value.now)
        (tree_row line.now (path_field (without_workspace value.now)))) }
{
    let path = path_field(alloc, without_workspace(value))?;
    least_of_two(
        require(alloc, &path, BAD_PATH, &line.at, value),
        check_content(alloc, line, waiting),
    )?;
    let row = tree_row(alloc, line, path)?;
    Ok(row)
}

fn bytes_row(alloc: Global, line: &Taken, bytes: Option<Text>) -> Result<Option<Row>, WantOfMemory>
    ensures { IfOk result (λ row. row ≡ bytes_row line.now bytes) }
{
    match bytes {
        Some(bytes) => made_content(alloc, line, Content::Bytes(bytes)),
        None => Ok(None),
    }
}

fn bytes_line(
    alloc: Global,
    line: &Taken,
    waiting: Waiting,
    value: &[u8],
) -> Result<Option<Row>, Refusal>
    ensures { Answers result
        (unless_faulty (bytes_faults line.now waiting value.now)
        (bytes_row line.now (data_of value.now))) }
{
    let bytes = data_of(alloc, value)?;
    least_of_three(
        undefined_macro(alloc, &line.at, value),
        require(alloc, &bytes, BAD_REGION, &line.at, line.text.bytes()),
        check_content(alloc, line, waiting),
    )?;
    let row = bytes_row(alloc, line, bytes)?;
    Ok(row)
}

fn keyed_line(
    alloc: Global,
    line: &Taken,
    marks: Marks,
    key: &[u8],
    value: &[u8],
) -> Result<Option<Row>, Refusal>
    ensures { Answers result
        (unless_faulty (keyed_faults line.now marks key.now value.now (device_word key.now))
        (keyed_row line.now value.now (device_word key.now))) }
{
    match device_word(key) {
        Some(DeviceWord::Number(known)) => number_line(alloc, line, marks.pair, known, key, value),
        Some(DeviceWord::Volume) => held_line(alloc, line, marks.waiting, value),
        Some(DeviceWord::Tree) => tree_line(alloc, line, marks.waiting, value),
        Some(DeviceWord::Bytes) => bytes_line(alloc, line, marks.waiting, value),
        None => Err(no_key(alloc, line, key, value)),
    }
}

fn pcds_line(
    alloc: Global,
    line: &Taken,
    first: PcdName,
    second: Option<PcdName>,
) -> Result<Row, WantOfMemory>
    ensures { IfOk result
        (λ row. row ≡ variant.Pcds (record { at = line.now.at; first = first; second = second })) }
{
    Ok(Row::Pcds(RegionPcds {
        at: line.at.copy(alloc)?,
        first,
        second,
    }))
}

fn one_field(
    alloc: Global,
    line: &Taken,
    waiting: Waiting,
    field: &[u8],
) -> Result<Option<Row>, Refusal>
    ensures { Answers result
        (unless_faulty (one_faults line.now waiting (pcd_name_of field.now))
        (one_row line.now (pcd_name_of field.now))) }
{
    match pcd_name_of(alloc, field)? {
        Some(pcd) => {
            check_pcds(alloc, line, waiting)?;
            let row = pcds_line(alloc, line, pcd, None)?;
            Ok(Some(row))
        }
        None => Err(no_form(alloc, BAD_REGION, line)),
    }
}

fn extent_line(
    alloc: Global,
    line: &Taken,
    offset: &[u8],
    size: &[u8],
) -> Result<Option<Row>, Refusal>
    ensures { Answers result
        (unless_faulty (pair_faults line.now NoRegion offset.now size.now None None)
        (pair_row line.now offset.now size.now None None)) }
{
    let offset = number_value(alloc, &line.at, offset);
    let size = number_value(alloc, &line.at, size);
    match (offset, size) {
        (Ok(offset), Ok(size)) => Ok(Some(Row::Region(RegionStart {
            at: line.at.copy(alloc)?,
            offset,
            size,
        }))),
        (Ok(_), Err(refusal)) => Err(refusal),
        (Err(refusal), Ok(_)) => Err(refusal),
        (Err(first), Err(second)) => Err(lesser_refusal(first, second)),
    }
}

fn two_fields(
    alloc: Global,
    line: &Taken,
    waiting: Waiting,
    first: &[u8],
    second: &[u8],
) -> Result<Option<Row>, Refusal>
    ensures { Answers result
        (unless_faulty (pair_faults line.now waiting first.now second.now (pcd_name_of first.now)
        (pcd_name_of second.now))
        (pair_row line.now first.now second.now (pcd_name_of first.now) (pcd_name_of second.now))) }
{
    let Some(address) = pcd_name_of(alloc, first)? else {
        return extent_line(alloc, line, first, second);
    };
    let Some(size) = pcd_name_of(alloc, second)? else {
        return extent_line(alloc, line, first, second);
    };
    check_pcds(alloc, line, waiting)?;
    let row = pcds_line(alloc, line, address, Some(size))?;
    Ok(Some(row))
}

fn no_fields(alloc: Global, line: &Taken, fields: &[Text]) -> Refusal
    ensures { Finds result (least_of (other_faults line.now fields.now)) }
{
    least_refusal(
        undefined_macros(alloc, &line.at, fields),
        bad_line(alloc, BAD_REGION, line),
    )
}

fn fields_line(
    alloc: Global,
    line: &Taken,
    waiting: Waiting,
    fields: &[Text],
) -> Result<Option<Row>, Refusal>
    ensures { Answers result
        (unless_faulty (fields_faults line.now waiting fields.now)
        (fields_row line.now fields.now)) }
{
    match fields {
        [field] => one_field(alloc, line, waiting, field.bytes()),
        [first, second] => two_fields(alloc, line, waiting, first.bytes(), second.bytes()),
        _ => Err(no_fields(alloc, line, fields)),
    }
}

fn unkeyed_line(alloc: Global, line: &Taken, waiting: Waiting) -> Result<Option<Row>, Refusal>
    ensures { Answers result
        (unless_faulty (unkeyed_faults line.now waiting (device_word (word_of line.now.text)))
        (unkeyed_row line.now (device_word (word_of line.now.text)))) }
{
    let (word, _) = first_word(line.text.bytes());
    match device_word(word) {
        Some(DeviceWord::Number(_)) => Err(no_key(alloc, line, word, line.text.bytes())),
        _ => {
            let fields = field_texts(alloc, line.text.bytes())?;
            fields_line(alloc, line, waiting, fields.items())
        }
    }
}

/// What a line of a device says below these marks.
#[tactic(auto, unfolding(crate::specs::DeviceLines::device_faults, crate::specs::DeviceLines::device_row))]
pub fn device_line(alloc: Global, line: &Taken, marks: Marks) -> Result<Option<Row>, Refusal>
    ensures { Answers result (unless_faulty (device_faults line.now marks) (device_row line.now)) }
{
    match key_pair(line.text.bytes()) {
        Some((key, value)) => keyed_line(alloc, line, marks, key, value),
        None => unkeyed_line(alloc, line, marks.waiting),
    }
}
