//! The blocks of a module's base relocations, by the PE/COFF format, section 5.6.
ghost use Rattle.std.specs.Prelude.{◌≡◌, ◌≤◌, ◌<◌, ◌^◌, false};
ghost use Rattle.build_base.specs.Answer.{Answers};
ghost use Rattle.image_rebase.specs.Blocks.{lies_past, directory_in, block_page, block_size, is_wrong_size, is_end, block_at, blocks_of, entry_bytes};
ghost use Rattle.image_rebase.specs.Moves.{module_blocks};

use crate::bytes::{front, rest, u32_at};
use crate::module::Module;
use crate::standard::IMAGE_SIZEOF_BASE_RELOCATION;
use build_base::fault_codes::RELOC_BLOCK;
use build_base::{Place, Refusal, Rows};
use ffs_sections::faults::fault_with_size;
use std::alloc::Global;

/// A block: its page, and where its entries start in the directory and how many bytes they have.
#[derive(Clone, Copy)]
pub struct Block {
    pub page: u32,
    pub start: u64,
    pub size: u32,
}

#[tactic(auto, unfolding(crate::specs::Blocks::lies_past))]
fn lies_past(image: &Module, count: u64) -> bool
    ensures { result ≡ lies_past image.now count }
{
    if image.address < image.skip as u32 {
        return true;
    }
    (image.address - image.skip as u32) as u64 + image.size as u64 > count
}

/// The bytes of a module's directory of base relocations.
#[tactic(auto, unfolding(crate::specs::Blocks::directory_in))]
pub(crate) fn directory_in<'a>(image: &Module, content: &'a [u8]) -> &'a [u8]
    ensures { result.now ≡ directory_in image.now content.now }
{
    let start = image.address.saturating_sub(image.skip as u32);
    front(rest(content, start as u128), image.size as u128)
}

#[tactic(auto, unfolding(crate::specs::Blocks::block_page))]
fn block_page(bytes: &[u8]) -> u32
    ensures { result ≡ block_page bytes.now }
{
    u32_at(bytes, 0)
}

#[tactic(auto, unfolding(crate::specs::Blocks::block_size))]
fn block_size(bytes: &[u8]) -> u32
    ensures { result ≡ block_size bytes.now }
{
    u32_at(bytes, 4)
}

#[tactic(auto, unfolding(crate::specs::Blocks::is_wrong_size))]
fn is_wrong_size(size: u32, count: u64) -> bool
    ensures value { result ≡ is_wrong_size size count }
    ensures least { result ≡ false → 8 ≤ size }
    ensures inside { result ≡ false → size ≤ count }
{
    if size % 2 == 1 {
        return true;
    }
    if size < IMAGE_SIZEOF_BASE_RELOCATION {
        return true;
    }
    size as u64 > count
}

// Whether no block follows.
#[tactic(auto, unfolding(crate::specs::Blocks::is_end))]
fn is_end(left: &[u8]) -> bool
    ensures value { result ≡ is_end left.now }
{
    if left.len() < IMAGE_SIZEOF_BASE_RELOCATION as usize {
        return true;
    }
    block_size(left) == 0
}

fn block_at(at: u64, left: &[u8]) -> Block
    requires { at < 2 ^ 63 }
    ensures { result ≡ block_at at left.now }
{
    Block {
        page: block_page(left),
        start: at + 8,
        size: block_size(left).saturating_sub(8),
    }
}

// The blocks of a directory, up to its end or its first block without a size.
fn blocks_of(alloc: Global, place: &Place, directory: &[u8]) -> Result<Rows<Block>, Refusal>
    ensures { Answers result (blocks_of place.now directory.now) }
{
    let mut blocks = Rows::new(alloc);
    let mut at = 0;
    let mut left = directory;
    while !is_end(left) {
        let size = block_size(left);
        if is_wrong_size(size, left.len() as u64) {
            return Err(Refusal::Bad(fault_with_size(alloc, RELOC_BLOCK, place, at)?));
        }
        blocks.push(block_at(at, left))?;
        at += size as u64;
        left = rest(left, size as u128);
    }
    Ok(blocks)
}

/// The blocks of a module's directory.
#[tactic(auto, unfolding(crate::specs::Moves::module_blocks))]
pub(crate) fn module_blocks(
    alloc: Global,
    place: &Place,
    image: &Module,
    content: &[u8],
) -> Result<Rows<Block>, Refusal>
    ensures { Answers result (module_blocks place.now image.now content.now) }
{
    if lies_past(image, content.len() as u64) {
        return Err(Refusal::Bad(fault_with_size(alloc, RELOC_BLOCK, place, 0)?));
    }
    blocks_of(alloc, place, directory_in(image, content))
}

/// The bytes of a block's entries.
pub fn entry_bytes<'a>(directory: &'a [u8], block: &Block) -> &'a [u8]
    ensures { result.now ≡ entry_bytes directory.now block.now }
{
    front(rest(directory, block.start as u128), block.size as u128)
}
