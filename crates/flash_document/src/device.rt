//! A device as its section states it.
ghost use Rattle.std.specs.Prelude.{◌≡◌, ◌++◌, IfOk, OnOk, IfSome, IfNone, Some, None};
ghost use Rattle.fdf_words.specs.declared.rows.Row.TheVariants as row;
ghost use Rattle.flash_document.specs.Columns.{row_at};
ghost use Rattle.flash_document.specs.Devices.{is_key, number_in, number_of, sum_counted, sum_with, block_pairs, first_size, total_of, content_in, region_at, regions_of, device_of};

use crate::column::row_at;
use crate::stated::{StatedDevice, StatedRegion, region_content_copy};
use build_base::{Place, Rows, Same, Text, WantOfMemory};
use fdf_words::rows::{DeviceKey, DeviceNumber, LineRead, RegionContent, RegionStart, Row};
use std::alloc::Global;

/// Two keys are one.
pub fn is_key(key: DeviceKey, other: DeviceKey) -> bool
    ensures { result ≡ is_key key other }
{
    match (key, other) {
        (DeviceKey::BaseAddress, DeviceKey::BaseAddress) => true,
        (DeviceKey::Size, DeviceKey::Size) => true,
        (DeviceKey::ErasePolarity, DeviceKey::ErasePolarity) => true,
        (DeviceKey::BlockSize, DeviceKey::BlockSize) => true,
        (DeviceKey::NumBlocks, DeviceKey::NumBlocks) => true,
        _ => false,
    }
}

/// The number that a line states below the head of a number.
pub(crate) fn number_at(line: &LineRead, k: usize) -> Option<&DeviceNumber>
    ensures some { IfSome result (λ n. row_at k line.now ≡ Some (row.Number n.now)) }
    ensures none { IfNone result (number_in (row_at k line.now) ≡ None) }
{
    match row_at(line, k) {
        Some(Row::Number(n)) => Some(n),
        _ => None,
    }
}

/// The number that the last line of a key gives it.
pub fn number_of(key: DeviceKey, k: usize, lines: &[LineRead]) -> Option<u64>
    ensures { result ≡ number_of key k lines.now }
{
    let mut found = None;
    let mut left = lines;
    while let [line, rest @ ..] = left {
        if let Some(n) = number_at(line, k) {
            if is_key(n.key, key) {
                found = Some(n.number);
            }
        }
        left = rest;
    }
    found
}

/// The pairs of BlockSize and NumBlocks: a size that waits for its count, the size of the first
/// pair, and all products together.
#[derive(Clone, Copy)]
pub(crate) struct BlockSum {
    pub waiting: Option<u64>,
    pub first: Option<u64>,
    pub total: u64,
}

impl BlockSum {
    fn count(&mut self, number: u64)
        ensures { self.new ≡ sum_counted self.old number }
    {
        if let Some(size) = self.waiting {
            if self.first.is_none() {
                self.first = Some(size);
            }
            self.total = self.total.saturating_add(size.saturating_mul(number));
        }
        self.waiting = None;
    }

    fn take(&mut self, n: &DeviceNumber)
        ensures { self.new ≡ sum_with self.old n.now }
    {
        match n.key {
            DeviceKey::BlockSize => self.waiting = Some(n.number),
            DeviceKey::NumBlocks => self.count(n.number),
            _ => {}
        }
    }
}

fn block_sum(k: usize, lines: &[LineRead]) -> BlockSum
    ensures first { result.first ≡ first_size (block_pairs k lines.now) }
    ensures total { result.total ≡ total_of (block_pairs k lines.now) }
{
    let mut sum = BlockSum {
        waiting: None,
        first: None,
        total: 0,
    };
    let mut left = lines;
    while let [line, rest @ ..] = left {
        if let Some(n) = number_at(line, k) {
            sum.take(n);
        }
        left = rest;
    }
    sum
}

// The content that stands before the next region.
fn content_in(
    alloc: Global,
    k: usize,
    lines: &[LineRead],
) -> Result<Option<RegionContent>, WantOfMemory>
    ensures { IfOk result (λ content. content ≡ content_in k lines.now) }
{
    let mut left = lines;
    while let [line, rest @ ..] = left {
        match row_at(line, k) {
            Some(Row::Region(_)) => return Ok(None),
            Some(Row::Content(content)) => {
                let content = region_content_copy(content, alloc)?;
                return Ok(Some(content));
            }
            _ => left = rest,
        }
    }
    Ok(None)
}

fn region_with(
    alloc: Global,
    start: &RegionStart,
    content: Option<RegionContent>,
) -> Result<StatedRegion, WantOfMemory>
    ensures { IfOk result
        (λ r. r
        ≡ record {
          at = start.now.at;
          offset = start.now.offset;
          size = start.now.size;
          content =
              content;
        }) }
{
    Ok(StatedRegion {
        at: start.at.copy(alloc)?,
        offset: start.offset,
        size: start.size,
        content,
    })
}

// Adds the region that starts in a line, with what fills it.
fn push_region(
    alloc: Global,
    regions: &mut Rows<StatedRegion>,
    k: usize,
    line: &LineRead,
    rest: &[LineRead],
) -> Result<(), WantOfMemory>
    ensures { OnOk result (regions.new ≡ regions.old
        ++ region_at (row_at k line.now) (content_in k rest.now)) }
{
    match row_at(line, k) {
        Some(Row::Region(start)) => {
            let content = content_in(alloc, k, rest)?;
            regions.push(region_with(alloc, start, content)?)
        }
        _ => Ok(()),
    }
}

fn regions_of(
    alloc: Global,
    k: usize,
    lines: &[LineRead],
) -> Result<Rows<StatedRegion>, WantOfMemory>
    ensures { IfOk result (λ rows. rows ≡ regions_of k lines.now) }
{
    let mut regions = Rows::new(alloc);
    let mut left = lines;
    while let [line, rest @ ..] = left {
        push_region(alloc, &mut regions, k, line, rest)?;
        left = rest;
    }
    Ok(regions)
}

/// The device that a section states below the head of a number.
#[tactic(auto, unfolding(crate::specs::Devices::device_of))]
pub fn device_of(
    alloc: Global,
    at: &Place,
    name: &Text,
    k: usize,
    lines: &[LineRead],
) -> Result<StatedDevice, WantOfMemory>
    ensures { IfOk result (λ d. d ≡ device_of at.now name.now k lines.now) }
{
    let sum = block_sum(k, lines);
    let regions = regions_of(alloc, k, lines)?;
    Ok(StatedDevice {
        at: at.copy(alloc)?,
        name: name.copy(alloc)?,
        base: number_of(DeviceKey::BaseAddress, k, lines),
        size: number_of(DeviceKey::Size, k, lines),
        erase: number_of(DeviceKey::ErasePolarity, k, lines),
        first_block: sum.first,
        blocks: sum.total,
        regions,
    })
}
