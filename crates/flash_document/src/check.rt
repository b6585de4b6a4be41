//! The checks over the whole of a flash description.
ghost use Rattle.std.specs.Prelude.{◌≡◌, ◌%◌, ◌++◌, ◌∷◌, [], ℕ, IfOk, OnOk, Some, is_some, List};
ghost use Rattle.build_base.specs.Answer.{Checks, Finds};
ghost use Rattle.build_base.specs.FaultText.{fault_of};
ghost use Rattle.meta_lexer.specs.Faults.{first_fault};
ghost use Rattle.flash_document.specs.declared.held.HeldRegion.{HeldRegion as Part};
ghost use Rattle.flash_document.specs.Names.{place_of, Places};
ghost use Rattle.flash_document.specs.Held.{Sizes};
ghost use Rattle.flash_document.specs.Whole.{differing_size, first_size, block_of, size_of, unequal, check_is_stated, part_unstated, size_fault, held_first, part_too_large, unknown, row_unknown, line_unknown, device_blocks, check_equal_sizes, whole_blocks, volume_blocks, part_blocks, two_sizes, part_sizes, part_fault, part_key, named_twice, twin, is_again, above_with, twin_marks, first_marked};

use crate::held::{HeldSizes, held_in};
use crate::names::{add_name, place_in};
use crate::stated::{FdfSection, StatedVolume};
use build_base::fault_codes::{
    BLOCKS_DIFFER, FDF_MISSING_KEY, FDF_REPEATED_NAME, SIZE_TOO_LARGE, VOLUME_TWO_SIZES,
    VOLUME_UNKNOWN,
};
use build_base::{Place, Refusal, Rows, Text, WantOfMemory, refuse};
use doc_types::volume_head::SIZE_LIMIT;
use fdf_words::rows::{Content, LineRead, Row, SectionBody};
use indexmap::IndexMap;
use itoa::Buffer;
use std::alloc::Global;

/// The size of the first region that holds a volume.
pub fn first_size(held: Option<HeldSizes>) -> Option<u64>
    ensures { result ≡ first_size held }
{
    match held {
        Some(held) => Some(held.first),
        None => None,
    }
}

fn differing_size(size: u64, held: Option<HeldSizes>) -> Option<u64>
    ensures { result ≡ differing_size size held }
{
    match held {
        Some(held) => {
            if held.first == size {
                held.other
            } else {
                Some(held.first)
            }
        }
        None => None,
    }
}

/// The block size of a volume: its own, else the first of the device that holds it, else 0x1000.
pub(crate) fn block_of(volume: &StatedVolume, held: Option<HeldSizes>) -> u64
    ensures { result ≡ block_of volume.now held }
{
    match (volume.block_size, held) {
        (Some(own), _) => own,
        (None, Some(held)) => held.block.unwrap_or(0x1000),
        (None, None) => 0x1000,
    }
}

/// The size of a volume that its blocks or its first region give.
pub fn size_of(volume: &StatedVolume, held: Option<HeldSizes>) -> Option<u64>
    ensures { result ≡ size_of volume.now held }
{
    match volume.blocks {
        Some(blocks) => Some(block_of(volume, held).saturating_mul(blocks)),
        None => first_size(held),
    }
}

fn unequal(alloc: Global, first: u64, second: u64) -> Result<Text, WantOfMemory>
    ensures { IfOk result (λ t. t ≡ unequal first second) }
{
    let mut digits = Buffer::new();
    let mut out = Vec::from_slice(alloc, digits.format(first).as_bytes())?;
    out.extend_from_slice(b" != ".as_slice())?;
    out.extend_from_slice(digits.format(second).as_bytes())?;
    Ok(Text::from_vec(out))
}

fn refuse_unequal(alloc: Global, code: u16, at: &Place, first: u64, second: u64) -> Refusal
    ensures { Finds result (Some (fault_of code at.now (unequal first second))) }
{
    match unequal(alloc, first, second) {
        Ok(detail) => refuse(alloc, code, at, detail.bytes()),
        Err(_) => Refusal::WantOfMemory,
    }
}

fn check_is_stated(
    alloc: Global,
    at: &Place,
    base: Option<u64>,
    size: Option<u64>,
) -> Result<(), Refusal>
    ensures { Checks result (check_is_stated at.now base size) }
{
    match (base, size) {
        (Some(_), Some(_)) => Ok(()),
        (None, _) => Err(refuse(alloc, FDF_MISSING_KEY, at, b"BaseAddress".as_slice())),
        (Some(_), None) => Err(refuse(alloc, FDF_MISSING_KEY, at, b"Size".as_slice())),
    }
}

fn part_unstated(alloc: Global, part: &FdfSection) -> Result<(), Refusal>
    ensures { Checks result (part_unstated part.now) }
{
    match part {
        FdfSection::Device(device) => check_is_stated(alloc, &device.at, device.base, device.size),
        _ => Ok(()),
    }
}

/// Refuses the first device without a base address or a size.
pub(crate) fn check_stated(alloc: Global, parts: &[FdfSection]) -> Result<(), Refusal>
    ensures { Checks result (first_fault part_unstated parts.now) }
{
    for part in parts {
        part_unstated(alloc, part)?;
    }
    Ok(())
}

fn size_fault(alloc: Global, at: &Place, size: Option<u64>) -> Result<(), Refusal>
    ensures { Checks result (size_fault at.now size) }
{
    match size {
        Some(size) if size > SIZE_LIMIT => {
            let mut digits = Buffer::new();
            Err(refuse(alloc, SIZE_TOO_LARGE, at, digits.format(size).as_bytes()))
        }
        _ => Ok(()),
    }
}

// The sizes of the regions that hold a volume; `again` is whether one above has its name.
fn held_first(
    alloc: Global,
    sizes: &IndexMap<Vec<u8>, HeldSizes>,
    again: bool,
    volume: &StatedVolume,
) -> Result<Option<HeldSizes>, WantOfMemory>
    ensures { (regions : List Part) → Sizes regions sizes.now
        → IfOk result (λ held. held ≡ held_first regions again volume.now) }
{
    if again {
        return Ok(None);
    }
    held_in(alloc, sizes, volume)
}

fn part_too_large(
    alloc: Global,
    sizes: &IndexMap<Vec<u8>, HeldSizes>,
    again: bool,
    part: &FdfSection,
) -> Result<(), Refusal>
    ensures { (regions : List Part) → Sizes regions sizes.now
        → Checks result (part_too_large regions again part.now) }
{
    let FdfSection::Volume(volume) = part else {
        return Ok(());
    };
    let held = held_first(alloc, sizes, again, volume)?;
    size_fault(alloc, &volume.at, size_of(volume, held))
}

fn unknown(
    alloc: Global,
    table: &IndexMap<Vec<u8>, usize>,
    at: &Place,
    name: &Text,
) -> Result<(), Refusal>
    ensures { (names : List (List ℕ)) → Places names table.now
        → Checks result (unknown names at.now name.now) }
{
    match place_in(alloc, table, name.bytes())? {
        Some(_) => Ok(()),
        None => Err(refuse(alloc, VOLUME_UNKNOWN, at, name.bytes())),
    }
}

fn row_unknown(alloc: Global, table: &IndexMap<Vec<u8>, usize>, row: &Row) -> Result<(), Refusal>
    ensures { (names : List (List ℕ)) → Places names table.now
        → Checks result (row_unknown names row.now) }
{
    match row {
        Row::Content(stated) => match &stated.content {
            Content::Volume(name) => unknown(alloc, table, &stated.at, name),
            _ => Ok(()),
        },
        Row::Section(section) => match &section.body {
            SectionBody::Volume(name) => unknown(alloc, table, &section.at, name),
            _ => Ok(()),
        },
        _ => Ok(()),
    }
}

fn rows_unknown(
    alloc: Global,
    table: &IndexMap<Vec<u8>, usize>,
    rows: &[Row],
) -> Result<(), Refusal>
    ensures { (names : List (List ℕ)) → Places names table.now
        → Checks result (first_fault (row_unknown names) rows.now) }
{
    let mut left = rows;
    while let [row, rest @ ..] = left {
        row_unknown(alloc, table, row)?;
        left = rest;
    }
    Ok(())
}

fn line_unknown(
    alloc: Global,
    table: &IndexMap<Vec<u8>, usize>,
    line: &LineRead,
) -> Result<(), Refusal>
    ensures { (names : List (List ℕ)) → Places names table.now
        → Checks result (line_unknown names line.now) }
{
    match line {
        LineRead::Heads { .. } => Ok(()),
        LineRead::Body(rows) => rows_unknown(alloc, table, rows.items()),
    }
}

/// Refuses the first name in a region or a section that is no volume's.
pub fn check_names(
    alloc: Global,
    table: &IndexMap<Vec<u8>, usize>,
    lines: &[LineRead],
) -> Result<(), Refusal>
    ensures { (names : List (List ℕ)) → Places names table.now
        → Checks result (first_fault (line_unknown names) lines.now) }
{
    let mut left = lines;
    while let [line, rest @ ..] = left {
        line_unknown(alloc, table, line)?;
        left = rest;
    }
    Ok(())
}

fn device_blocks(alloc: Global, at: &Place, blocks: u64, size: Option<u64>) -> Result<(), Refusal>
    ensures { Checks result (device_blocks at.now blocks size) }
{
    match size {
        Some(size) if blocks != size => Err(refuse_unequal(alloc, BLOCKS_DIFFER, at, blocks, size)),
        _ => Ok(()),
    }
}

fn check_equal_sizes(
    alloc: Global,
    code: u16,
    at: &Place,
    size: u64,
    other: Option<u64>,
) -> Result<(), Refusal>
    ensures { Checks result (check_equal_sizes code at.now size other) }
{
    match other {
        Some(other) => Err(refuse_unequal(alloc, code, at, size, other)),
        None => Ok(()),
    }
}

// What a size is past the greatest multiple of a unit; of 0 there is the multiple 0 alone.
fn past_multiple(size: u64, unit: u64) -> u64
    ensures { result ≡ size % unit }
{
    if unit == 0 { size } else { size % unit }
}

fn whole_blocks(alloc: Global, at: &Place, block: u64, size: Option<u64>) -> Result<(), Refusal>
    ensures { Checks result (whole_blocks at.now block size) }
{
    let Some(size) = size else {
        return Ok(());
    };
    let past = past_multiple(size, block);
    if past == 0 {
        return Ok(());
    }
    Err(refuse_unequal(alloc, BLOCKS_DIFFER, at, size, size.saturating_sub(past)))
}

fn volume_blocks(
    alloc: Global,
    volume: &StatedVolume,
    held: Option<HeldSizes>,
) -> Result<(), Refusal>
    ensures { Checks result (volume_blocks volume.now held) }
{
    let block = block_of(volume, held);
    match volume.blocks {
        Some(blocks) => {
            let own = block.saturating_mul(blocks);
            let other = differing_size(own, held);
            check_equal_sizes(alloc, BLOCKS_DIFFER, &volume.at, own, other)
        }
        None => whole_blocks(alloc, &volume.at, block, first_size(held)),
    }
}

fn part_blocks(
    alloc: Global,
    sizes: &IndexMap<Vec<u8>, HeldSizes>,
    again: bool,
    part: &FdfSection,
) -> Result<(), Refusal>
    ensures { (regions : List Part) → Sizes regions sizes.now
        → Checks result (part_blocks regions again part.now) }
{
    match part {
        FdfSection::Device(device) => device_blocks(alloc, &device.at, device.blocks, device.size),
        FdfSection::Volume(volume) => {
            let held = held_first(alloc, sizes, again, volume)?;
            volume_blocks(alloc, volume, held)
        }
        _ => Ok(()),
    }
}

fn two_sizes(alloc: Global, at: &Place, held: Option<HeldSizes>) -> Result<(), Refusal>
    ensures { Checks result (two_sizes at.now held) }
{
    match held {
        Some(held) => check_equal_sizes(alloc, VOLUME_TWO_SIZES, at, held.first, held.other),
        None => Ok(()),
    }
}

fn part_sizes(
    alloc: Global,
    sizes: &IndexMap<Vec<u8>, HeldSizes>,
    again: bool,
    part: &FdfSection,
) -> Result<(), Refusal>
    ensures { (regions : List Part) → Sizes regions sizes.now
        → Checks result (part_sizes regions again part.now) }
{
    let FdfSection::Volume(volume) = part else {
        return Ok(());
    };
    let held = held_first(alloc, sizes, again, volume)?;
    two_sizes(alloc, &volume.at, held)
}

/// A test of a part by the sizes of the regions that hold it.
#[derive(Clone, Copy)]
pub(crate) enum RegionTest {
    TooLarge,
    Blocks,
    TwoSizes,
}

fn part_fault(
    alloc: Global,
    sizes: &IndexMap<Vec<u8>, HeldSizes>,
    test: RegionTest,
    again: bool,
    part: &FdfSection,
) -> Result<(), Refusal>
    ensures { (regions : List Part) → Sizes regions sizes.now
        → Checks result (part_fault test regions again part.now) }
{
    match test {
        RegionTest::TooLarge => part_too_large(alloc, sizes, again, part),
        RegionTest::Blocks => part_blocks(alloc, sizes, again, part),
        RegionTest::TwoSizes => part_sizes(alloc, sizes, again, part),
    }
}

// Refuses the first part that fails a test.
#[tactic(auto, using(crate::proofs::MarkedLemmas::marked_passed))]
fn check_parts(
    alloc: Global,
    sizes: &IndexMap<Vec<u8>, HeldSizes>,
    test: RegionTest,
    parts: &[FdfSection],
    repeats: &[bool],
) -> Result<(), Refusal>
    ensures { (regions : List Part) → Sizes regions sizes.now
        → Checks result (first_marked (part_fault test regions) parts.now repeats.now) }
{
    let mut left = parts;
    let mut marks = repeats;
    while let [part, rest @ ..] = left {
        let [again, more @ ..] = marks else {
            return Ok(());
        };
        let found = part_fault(alloc, sizes, test, *again, part);
        if found.is_err() {
            return found;
        }
        left = rest;
        marks = more;
    }
    Ok(())
}

/// Refuses the first volume that is too large.
pub(crate) fn check_sizes(
    alloc: Global,
    sizes: &IndexMap<Vec<u8>, HeldSizes>,
    parts: &[FdfSection],
    repeats: &[bool],
) -> Result<(), Refusal>
    ensures { (regions : List Part) → Sizes regions sizes.now
        → Checks result (first_marked (part_too_large regions) parts.now repeats.now) }
{
    check_parts(alloc, sizes, RegionTest::TooLarge, parts, repeats)
}

/// Refuses the first device or volume whose blocks are no whole size.
pub fn check_blocks(
    alloc: Global,
    sizes: &IndexMap<Vec<u8>, HeldSizes>,
    parts: &[FdfSection],
    repeats: &[bool],
) -> Result<(), Refusal>
    ensures { (regions : List Part) → Sizes regions sizes.now
        → Checks result (first_marked (part_blocks regions) parts.now repeats.now) }
{
    check_parts(alloc, sizes, RegionTest::Blocks, parts, repeats)
}

/// Refuses the first volume in regions of two sizes.
pub(crate) fn check_regions(
    alloc: Global,
    sizes: &IndexMap<Vec<u8>, HeldSizes>,
    parts: &[FdfSection],
    repeats: &[bool],
) -> Result<(), Refusal>
    ensures { (regions : List Part) → Sizes regions sizes.now
        → Checks result (first_marked (part_sizes regions) parts.now repeats.now) }
{
    check_parts(alloc, sizes, RegionTest::TwoSizes, parts, repeats)
}

fn key_with(alloc: Global, kind: u8, name: &Text) -> Result<Text, WantOfMemory>
    ensures { IfOk result (λ key. key ≡ kind ∷ name.now) }
{
    let mut key = Vec::from_slice(alloc, [kind].as_slice())?;
    key.extend_from_slice(name.bytes())?;
    Ok(Text::from_vec(key))
}

// A name with the kind of the thing that has it.
fn part_key(alloc: Global, part: &FdfSection) -> Result<Option<Text>, WantOfMemory>
    ensures { IfOk result (λ key. key ≡ part_key part.now) }
{
    match part {
        FdfSection::Settings => Ok(None),
        FdfSection::Device(device) => Ok(Some(key_with(alloc, b'D', &device.name)?)),
        FdfSection::Volume(volume) => Ok(Some(key_with(alloc, b'F', &volume.name)?)),
        FdfSection::Rule(rule) => Ok(Some(key_with(alloc, b'R', &rule.name)?)),
    }
}

fn named_twice(alloc: Global, part: &FdfSection) -> Result<(), Refusal>
    ensures { Checks result (named_twice part.now) }
{
    match part {
        FdfSection::Settings => Ok(()),
        FdfSection::Device(device) => Err(refuse(
            alloc,
            FDF_REPEATED_NAME,
            &device.at,
            device.name.bytes(),
        )),
        FdfSection::Volume(volume) => Err(refuse(
            alloc,
            FDF_REPEATED_NAME,
            &volume.at,
            volume.name.bytes(),
        )),
        FdfSection::Rule(rule) => Err(refuse(
            alloc,
            FDF_REPEATED_NAME,
            &rule.rule.at,
            rule.name.bytes(),
        )),
    }
}

// Whether a name with its kind stands above; it is added there.
fn add_key(
    alloc: Global,
    table: &mut IndexMap<Vec<u8>, usize>,
    above: &mut Rows<Text>,
    key: Text,
) -> Result<bool, WantOfMemory>
    ensures found { Places above.old table.old
        → IfOk result (λ again. again ≡ is_some (place_of above.old key)) }
    ensures longer { OnOk result (above.new ≡ above.old ++ key ∷ []) }
    ensures placed { Places above.old table.old → OnOk result (Places above.new table.new) }
{
    let again = place_in(alloc, table, key.bytes())?.is_some();
    add_name(alloc, table, key.bytes(), above.items().len())?;
    above.push(key)?;
    Ok(again)
}

// Whether one above has the name of a part, which is added there.
fn add_part(
    alloc: Global,
    table: &mut IndexMap<Vec<u8>, usize>,
    above: &mut Rows<Text>,
    part: &FdfSection,
) -> Result<bool, WantOfMemory>
    ensures found { Places above.old table.old
        → IfOk result (λ again. again ≡ is_again above.old (part_key part.now)) }
    ensures longer { OnOk result (above.new ≡ above_with above.old (part_key part.now)) }
    ensures placed { Places above.old table.old → OnOk result (Places above.new table.new) }
{
    match part_key(alloc, part)? {
        Some(key) => add_key(alloc, table, above, key),
        None => Ok(false),
    }
}

/// Of each device, volume and rule whether one above of its kind has its name.
#[tactic(auto, unfolding(crate::specs::Whole::twin_marks))]
pub(crate) fn twin_marks(alloc: Global, parts: &[FdfSection]) -> Result<Rows<bool>, WantOfMemory>
    ensures { IfOk result (λ marks. marks ≡ twin_marks parts.now []) }
{
    let mut marks = Rows::new(alloc);
    let mut above = Rows::new(alloc);
    let mut table = IndexMap::new(alloc);
    let mut left = parts;
    while let [part, rest @ ..] = left {
        let again = add_part(alloc, &mut table, &mut above, part)?;
        marks.push(again)?;
        left = rest;
    }
    Ok(marks)
}

fn twin(alloc: Global, again: bool, part: &FdfSection) -> Result<(), Refusal>
    ensures { Checks result (twin again part.now) }
{
    if again {
        return named_twice(alloc, part);
    }
    Ok(())
}

/// Refuses the first device, volume or rule whose name one above of its kind has.
pub(crate) fn check_duplicate_names(
    alloc: Global,
    parts: &[FdfSection],
    repeats: &[bool],
) -> Result<(), Refusal>
    ensures { Checks result (first_marked twin parts.now repeats.now) }
{
    let mut left = parts;
    let mut marks = repeats;
    while let [part, rest @ ..] = left {
        let [again, more @ ..] = marks else {
            return Ok(());
        };
        twin(alloc, *again, part)?;
        left = rest;
        marks = more;
    }
    Ok(())
}
