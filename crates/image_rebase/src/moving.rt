//! Modules that are moved to the addresses at which they lie.
ghost use Rattle.std.specs.Prelude.{◌≡◌, ◌≤◌, ◌<◌, ◌^◌, false, IfOk};
ghost use Rattle.std.specs.List.{range_with_len, find};
ghost use Rattle.build_base.specs.Answer.{Answers, Checks};
ghost use Rattle.image_rebase.specs.Moves.{is_misplaced, misplaced, new_base, base_limit, out_of_range, range_fault, difference, with_base, moved_words, moved_by_blocks, moved_to, moved_in_range, moved_module, moved_content};

use crate::blocks::{Block, directory_in, module_blocks};
use crate::bytes::{copy_bytes, put, u32_at};
use crate::entries::{check_blocks, move_blocks};
use crate::module::{Module, module_in};
use crate::standard::IMAGE_SIZEOF_SECTION_HEADER;
use build_base::fault_codes::{BASE_RANGE, NOT_IN_PLACE};
use build_base::{Fault, Place, Refusal, Same, Text, WantOfMemory};
use ffs_sections::faults::fault_with_size;
use std::alloc::Global;
use volume_reader::put_hex;

#[tactic(auto, unfolding(crate::specs::Moves::is_misplaced))]
fn is_misplaced(image: &Module, content: &[u8], number: u8) -> bool
    ensures { result ≡ is_misplaced image.now content.now number }
{
    let at = image.table as u64 + IMAGE_SIZEOF_SECTION_HEADER * number as u64;
    if u32_at(content, at + 0x10) == 0 {
        return false;
    }
    u32_at(content, at + 0x14) != u32_at(content, at + 0x0C)
}

// The first section with bytes that lie elsewhere in the file than in memory.
fn misplaced_section(image: &Module, content: &[u8]) -> Option<u8>
    ensures { result ≡ find (is_misplaced image.now content.now)
        (range_with_len 0 image.now.sections) }
{
    for number in 0..image.sections {
        if is_misplaced(image, content, number) {
            return Some(number);
        }
    }
    None
}

fn check_sections(
    alloc: Global,
    place: &Place,
    image: &Module,
    content: &[u8],
) -> Result<(), Refusal>
    ensures { Checks result (misplaced place.now image.now content.now) }
{
    match misplaced_section(image, content) {
        Some(number) => Err(Refusal::Bad(fault_with_size(
            alloc,
            NOT_IN_PLACE,
            place,
            number as u64,
        )?)),
        None => Ok(()),
    }
}

fn base_limit(wide: bool) -> u64
    ensures { result ≡ base_limit wide }
{
    if wide { u64::MAX } else { 0xFFFF_FFFF }
}

// Whether ImageBase can't be that of a module whose content lies at an address.
#[tactic(auto, unfolding(crate::specs::Moves::out_of_range))]
fn out_of_range(image: &Module, address: u128) -> bool
    ensures value { result ≡ out_of_range image.now address }
    ensures above { result ≡ false → image.now.skip ≤ address }
    ensures near { result ≡ false → new_base image.now address ≤ base_limit image.now.wide }
{
    if address < image.skip as u128 {
        return true;
    }
    address - image.skip as u128 > base_limit(image.wide) as u128
}

fn range_fault(alloc: Global, place: &Place, base: u64) -> Result<Fault, WantOfMemory>
    ensures { IfOk result (λ f. f ≡ range_fault place.now base) }
{
    let mut detail = Vec::new(alloc);
    put_hex(alloc, &mut detail, base)?;
    Ok(Fault {
        code: BASE_RANGE,
        place: place.copy(alloc)?,
        detail: Text::from_vec(detail),
    })
}

// The new ImageBase less the old, modulo 2^64.
#[tactic(auto, unfolding(crate::specs::Moves::difference))]
fn difference(new: u64, old: u64) -> u64
    ensures { result ≡ difference new old }
{
    new.wrapping_sub(old)
}

// Writes the new ImageBase.
fn put_base(content: &mut Vec<u8>, image: &Module, new: u64)
    requires { new ≤ base_limit image.now.wide }
    ensures { content.new.items ≡ with_base image.now new content.old.items }
{
    if image.wide {
        put(content, image.base_at, &new.to_le_bytes());
    } else {
        put(content, image.base_at, &(new as u32).to_le_bytes());
    }
}

// The content with its words and its ImageBase moved.
#[tactic(auto, unfolding(crate::specs::Moves::moved_words))]
fn move_words(
    alloc: Global,
    place: &Place,
    image: &Module,
    new: u64,
    content: &[u8],
    directory: &[u8],
    blocks: &[Block],
) -> Result<Text, Refusal>
    requires { new ≤ base_limit image.now.wide }
    ensures { Answers result
        (moved_words place.now image.now new content.now directory.now blocks.now) }
{
    let mut moved = copy_bytes(alloc, content)?;
    let by = difference(new, image.base);
    if let Err(refusal) = move_blocks(alloc, place, image.skip, by, directory, blocks, &mut moved) {
        return Err(refusal);
    }
    put_base(&mut moved, image, new);
    Ok(Text::from_vec(moved))
}

// The same after a look at the types of all entries.
#[tactic(auto, unfolding(crate::specs::Moves::moved_by_blocks))]
fn move_by_blocks(
    alloc: Global,
    place: &Place,
    image: &Module,
    new: u64,
    content: &[u8],
    blocks: &[Block],
) -> Result<Text, Refusal>
    requires { new ≤ base_limit image.now.wide }
    ensures { Answers result (moved_by_blocks place.now image.now new content.now blocks.now) }
{
    let directory = directory_in(image, content);
    if let Err(refusal) = check_blocks(alloc, place, directory, blocks) {
        return Err(refusal);
    }
    move_words(alloc, place, image, new, content, directory, blocks)
}

// The content with this ImageBase.
#[tactic(auto, unfolding(crate::specs::Moves::moved_to))]
fn move_to(
    alloc: Global,
    place: &Place,
    image: &Module,
    new: u64,
    content: &[u8],
) -> Result<Text, Refusal>
    requires { new ≤ base_limit image.now.wide }
    ensures { Answers result (moved_to place.now image.now new content.now) }
{
    match module_blocks(alloc, place, image, content) {
        Ok(blocks) => move_by_blocks(alloc, place, image, new, content, blocks.items()),
        Err(refusal) => Err(refusal),
    }
}

// The content whose module lies at an address, if its ImageBase can be that.
#[tactic(auto, unfolding(crate::specs::Moves::moved_in_range))]
fn move_in_range(
    alloc: Global,
    place: &Place,
    base: u64,
    address: u128,
    image: &Module,
    content: &[u8],
) -> Result<Text, Refusal>
    ensures { Answers result (moved_in_range place.now base address image.now content.now) }
{
    if out_of_range(image, address) {
        return Err(Refusal::Bad(range_fault(alloc, place, base)?));
    }
    let new = (address - image.skip as u128) as u64;
    move_to(alloc, place, image, new, content)
}

#[tactic(auto, unfolding(crate::specs::Moves::moved_module))]
fn move_module(
    alloc: Global,
    place: &Place,
    base: u64,
    address: u128,
    image: &Module,
    content: &[u8],
) -> Result<Text, Refusal>
    ensures { Answers result (moved_module place.now base address image.now content.now) }
{
    if let Err(refusal) = check_sections(alloc, place, image, content) {
        return Err(refusal);
    }
    move_in_range(alloc, place, base, address, image, content)
}

/// The content of a section of this kind, which lies at this address.
#[tactic(auto, unfolding(crate::specs::Moves::moved_content))]
pub(crate) fn move_content(
    alloc: Global,
    place: &Place,
    base: u64,
    address: u128,
    kind: u8,
    content: &[u8],
) -> Result<Text, Refusal>
    ensures { Answers result (moved_content place.now base address kind content.now) }
{
    match module_in(kind, content) {
        Some(image) => move_module(alloc, place, base, address, &image, content),
        None => Ok(Text::of(alloc, content)?),
    }
}
