//! The entries of base relocations, by the PE/COFF format, section 5.6, and the words that they
//! name.
ghost use Rattle.std.specs.Prelude.{◌≡◌, ◌≤◌, ◌<◌, ◌+◌, ◌*◌, ◌⊎◌, ◌^◌, false, IfOk};
ghost use Rattle.build_base.specs.Answer.{Checks, Grows};
ghost use Rattle.image_rebase.specs.Bytes.{with_number};
ghost use Rattle.image_rebase.specs.Blocks.{words_of, entries_in};
ghost use Rattle.image_rebase.specs.Moves.{width_of, is_type, type_fault, types_fault, blocks_fault, lies_outside, outside_fault, sum_at, moved_word, moved_by, moved_entries, moved_blocks};

use crate::blocks::{Block, entry_bytes};
use crate::bytes::{put, u32_at, u64_at};
use crate::standard::{IMAGE_REL_BASED_ABSOLUTE, IMAGE_REL_BASED_DIR64, IMAGE_REL_BASED_HIGHLOW};
use build_base::fault_codes::{RELOC_OUTSIDE, RELOC_TYPE};
use build_base::{Fault, Place, Refusal, Same, Text, WantOfMemory};
use ffs_sections::faults::fault_with_size;
use itoa::Buffer;
use std::alloc::Global;

fn is_type(kind: u16) -> bool
    ensures { result ≡ is_type kind }
{
    if kind == IMAGE_REL_BASED_ABSOLUTE {
        return true;
    }
    if kind == IMAGE_REL_BASED_HIGHLOW {
        return true;
    }
    kind == IMAGE_REL_BASED_DIR64
}

// The bytes of the word that an entry of this type names.
fn width_of(kind: u16) -> u8
    ensures value { result ≡ width_of kind }
    ensures some { (result ≡ 0) ⊎ ((result ≡ 4) ⊎ (result ≡ 8)) }
{
    if kind == IMAGE_REL_BASED_HIGHLOW {
        4
    } else if kind == IMAGE_REL_BASED_DIR64 {
        8
    } else {
        0
    }
}

#[tactic(auto, unfolding(crate::specs::Moves::type_fault))]
fn check_type(alloc: Global, place: &Place, entry: u16) -> Result<(), Refusal>
    ensures { Checks result (type_fault place.now entry) }
{
    let kind = entry / 0x1000;
    if !is_type(kind) {
        return Err(Refusal::Bad(fault_with_size(alloc, RELOC_TYPE, place, kind as u64)?));
    }
    Ok(())
}

// The entry of two bytes.
fn entry_of(low: u8, high: u8) -> u16
    ensures { result ≡ low + 256 * high }
{
    low as u16 + 256 * high as u16
}

// The first entry whose type is none that is carried out.
#[tactic(auto, unfolding(crate::specs::Blocks::words_of))]
fn check_entries(alloc: Global, place: &Place, entries: &[u8]) -> Result<(), Refusal>
    ensures { Checks result (types_fault place.now (words_of entries.now)) }
{
    let mut left = entries;
    while let [low, high, more @ ..] = left {
        if let Err(refusal) = check_type(alloc, place, entry_of(*low, *high)) {
            return Err(refusal);
        }
        left = more;
    }
    Ok(())
}

#[tactic(auto, unfolding(crate::specs::Blocks::entries_in))]
fn check_block(alloc: Global, place: &Place, directory: &[u8], block: &Block) -> Result<(), Refusal>
    ensures { Checks result (types_fault place.now (entries_in directory.now block.now)) }
{
    check_entries(alloc, place, entry_bytes(directory, block))
}

/// The first such entry of all blocks.
pub fn check_blocks(
    alloc: Global,
    place: &Place,
    directory: &[u8],
    blocks: &[Block],
) -> Result<(), Refusal>
    ensures { Checks result (blocks_fault place.now directory.now blocks.now) }
{
    let mut left = blocks;
    while let [block, more @ ..] = left {
        if let Err(refusal) = check_block(alloc, place, directory, block) {
            return Err(refusal);
        }
        left = more;
    }
    Ok(())
}

// Whether a word at a relative address isn't within a content so long.
#[tactic(auto, unfolding(crate::specs::Moves::lies_outside))]
fn lies_outside(skip: u16, address: u64, width: u8, count: u64) -> bool
    requires { address < 2 ^ 33 }
    ensures value { result ≡ lies_outside skip address width count }
    ensures above { result ≡ false → skip ≤ address }
{
    if address < skip as u64 {
        return true;
    }
    address - skip as u64 + width as u64 > count
}

fn outside_fault(alloc: Global, place: &Place, end: u64, count: u64) -> Result<Fault, WantOfMemory>
    ensures { IfOk result (λ f. f ≡ outside_fault place.now end count) }
{
    let mut digits = Buffer::new();
    let mut out = Vec::from_slice(alloc, digits.format(end).as_bytes())?;
    out.extend_from_slice(b" > ")?;
    out.extend_from_slice(digits.format(count).as_bytes())?;
    Ok(Fault {
        code: RELOC_OUTSIDE,
        place: place.copy(alloc)?,
        detail: Text::from_vec(out),
    })
}

// Adds a difference to a word of 32 bits.
fn add32(content: &mut Vec<u8>, at: u64, by: u64)
    ensures { content.new.items ≡ with_number 4 at (sum_at 4 at by content.old.items)
        content.old.items }
{
    let sum = (u32_at(content.as_slice(), at) as u128 + by as u128) % 0x1_0000_0000;
    put(content, at, &(sum as u32).to_le_bytes());
}

// The same to one of 64 bits.
fn add64(content: &mut Vec<u8>, at: u64, by: u64)
    ensures { content.new.items ≡ with_number 8 at (sum_at 8 at by content.old.items)
        content.old.items }
{
    let sum = (u64_at(content.as_slice(), at) as u128 + by as u128) % 0x1_0000_0000_0000_0000;
    put(content, at, &(sum as u64).to_le_bytes());
}

fn add(content: &mut Vec<u8>, at: u64, width: u8, by: u64)
    requires { (width ≡ 4) ⊎ (width ≡ 8) }
    ensures { content.new.items ≡ with_number width at (sum_at width at by content.old.items)
        content.old.items }
{
    if width == 4 {
        add32(content, at, by);
    } else {
        add64(content, at, by);
    }
}

// Moves the word at a relative address.
#[tactic(auto, unfolding(crate::specs::Moves::moved_word))]
fn move_word(
    alloc: Global,
    place: &Place,
    skip: u16,
    by: u64,
    address: u64,
    width: u8,
    content: &mut Vec<u8>,
) -> Result<(), Refusal>
    requires near { address < 2 ^ 33 }
    requires width { (width ≡ 4) ⊎ (width ≡ 8) }
    ensures { Grows result content.new.items
        (moved_word place.now skip by address width content.old.items) }
{
    let count = content.len() as u64;
    if lies_outside(skip, address, width, count) {
        let end = (address + width as u64).saturating_sub(skip as u64);
        return Err(Refusal::Bad(outside_fault(alloc, place, end, count)?));
    }
    add(content, address - skip as u64, width, by);
    Ok(())
}

// Carries out an entry of a page.
#[tactic(auto, unfolding(crate::specs::Moves::moved_by))]
fn move_by(
    alloc: Global,
    place: &Place,
    skip: u16,
    by: u64,
    page: u32,
    entry: u16,
    content: &mut Vec<u8>,
) -> Result<(), Refusal>
    ensures { Grows result content.new.items
        (moved_by place.now skip by page entry content.old.items) }
{
    let width = width_of(entry / 0x1000);
    if width == 0 {
        return Ok(());
    }
    let address = page as u64 + (entry % 0x1000) as u64;
    move_word(alloc, place, skip, by, address, width, content)
}

// Carries out the entries of a block, one after another.
#[tactic(auto, unfolding(crate::specs::Blocks::words_of, crate::specs::Moves::moved_entries))]
fn move_entries(
    alloc: Global,
    place: &Place,
    skip: u16,
    by: u64,
    page: u32,
    entries: &[u8],
    content: &mut Vec<u8>,
) -> Result<(), Refusal>
    ensures { Grows result content.new.items
        (moved_entries place.now skip by page (words_of entries.now) content.old.items) }
{
    let mut left = entries;
    while let [low, high, more @ ..] = left {
        move_by(alloc, place, skip, by, page, entry_of(*low, *high), content)?;
        left = more;
    }
    Ok(())
}

#[tactic(auto, unfolding(crate::specs::Blocks::entries_in))]
fn move_block(
    alloc: Global,
    place: &Place,
    skip: u16,
    by: u64,
    directory: &[u8],
    block: &Block,
    content: &mut Vec<u8>,
) -> Result<(), Refusal>
    ensures { Grows result content.new.items
        (moved_entries place.now skip by block.now.page (entries_in directory.now block.now)
        content.old.items) }
{
    let entries = entry_bytes(directory, block);
    move_entries(alloc, place, skip, by, block.page, entries, content)
}

/// Carries out the entries of all blocks of a directory.
#[tactic(auto, unfolding(crate::specs::Moves::moved_blocks))]
pub(crate) fn move_blocks(
    alloc: Global,
    place: &Place,
    skip: u16,
    by: u64,
    directory: &[u8],
    blocks: &[Block],
    content: &mut Vec<u8>,
) -> Result<(), Refusal>
    ensures { Grows result content.new.items
        (moved_blocks place.now skip by directory.now blocks.now content.old.items) }
{
    let mut left = blocks;
    while let [block, more @ ..] = left {
        move_block(alloc, place, skip, by, directory, block, content)?;
        left = more;
    }
    Ok(())
}
