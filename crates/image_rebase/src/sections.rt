//! The sections of a body whose modules are moved.
ghost use Rattle.std.specs.Prelude.{◌≡◌, ◌<◌, ◌+◌, ◌^◌};
ghost use Rattle.build_base.specs.Answer.{Answers};
ghost use Rattle.image_rebase.specs.Files.{has_module, content_length, content_in, moved_from};

use crate::bytes::{append, front, rest};
use crate::moving::move_content;
use crate::standard::{EFI_SECTION_PE32, EFI_SECTION_TE};
use build_base::{Place, Refusal, Text};
use ffs_sections::standard::SECTION_LIMIT;
use std::alloc::Global;
use volume_reader::ListedSection;

fn has_module(section: &ListedSection) -> bool
    ensures { result ≡ has_module section.now }
{
    if section.kind == EFI_SECTION_PE32 {
        return true;
    }
    section.kind == EFI_SECTION_TE
}

// The length of the content of a section that has no GUID.
fn content_length(section: &ListedSection) -> u64
    ensures { result ≡ content_length section.now }
{
    let header = if section.size > SECTION_LIMIT { 8 } else { 4 };
    section.size.saturating_sub(header)
}

// Where that content ends in the body.
fn content_end(section: &ListedSection) -> u128
    ensures { result ≡ section.now.start + content_length section.now }
{
    section.start as u128 + content_length(section) as u128
}

fn content_in<'a>(body: &'a [u8], section: &ListedSection) -> &'a [u8]
    ensures { result.now ≡ content_in body.now section.now }
{
    front(
        rest(body, section.start as u128),
        content_length(section) as u128,
    )
}

/// The body of a file, which lies at an address of memory, with the modules of these sections
/// moved.
#[tactic(auto, unfolding(crate::specs::Files::moved_from))]
pub(crate) fn move_from(
    alloc: Global,
    place: &Place,
    base: u64,
    address: u128,
    body: &[u8],
    sections: &[ListedSection],
) -> Result<Text, Refusal>
    requires near { address < 2 ^ 100 }
    ensures { Answers result (moved_from place.now base address body.now 0 sections.now) }
{
    let mut out = Vec::new(alloc);
    let mut at: u128 = 0;
    let mut left = sections;
    while let [section, more @ ..] = left {
        if has_module(section) {
            let start = section.start as u128;
            let content = content_in(body, section);
            let moved = move_content(alloc, place, base, address + start, section.kind, content)?;
            append(&mut out, front(rest(body, at), start.saturating_sub(at)))?;
            append(&mut out, moved.bytes())?;
            at = content_end(section);
        }
        left = more;
    }
    append(&mut out, rest(body, at))?;
    Ok(Text::from_vec(out))
}
