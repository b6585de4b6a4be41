//! The module that a section holds, and what of its headers a move goes by.
ghost use Rattle.std.specs.Prelude.{◌≡◌, ◌≤◌, ◌<◌, ◌^◌};
ghost use Rattle.te_images.specs.Pe.{optional_header, is_pe32_plus};
ghost use Rattle.image_rebase.specs.Module.{with_relocations, base_offset, pe_fields, pe_module, stripped_size, is_no_te, te_fields, te_module, module_in};

use crate::bytes::{byte_at, u16_at, u32_at, u64_at};
use crate::standard::{
    EFI_SECTION_PE32, EFI_SECTION_TE, EFI_TE_IMAGE_HEADER_SIGNATURE, EFI_TE_IMAGE_HEADER_SIZE,
    IMAGE_SIZEOF_SECTION_HEADER,
};
use te_images::{TeHead, te_header};

/// A module that can be moved.
#[derive(Clone, Copy)]
pub struct Module {
    /// How many bytes a relative address is more than the place in the content that it goes to.
    pub skip: u16,
    /// The place of the section table.
    pub table: u16,
    /// NumberOfSections.
    pub sections: u8,
    /// ImageBase, its place, and whether it has 64 bits and not 32.
    pub base: u64,
    pub base_at: u64,
    pub wide: bool,
    /// The relative address and the size of the base relocations.
    pub address: u32,
    pub size: u32,
}

fn with_relocations(found: Module) -> Option<Module>
    ensures { result ≡ with_relocations found }
{
    if found.size == 0 { None } else { Some(found) }
}

// The place of the optional header of a PE file.
#[tactic(auto, unfolding(te_images::specs::Pe::number_at))]
fn optional_header(content: &[u8]) -> u64
    ensures value { result ≡ optional_header content.now }
    ensures near { result < 2 ^ 33 }
{
    u32_at(content, 0x3C) as u64 + 0x18
}

#[tactic(auto, unfolding(te_images::specs::Pe::number_at))]
fn is_pe32_plus(content: &[u8]) -> bool
    ensures { result ≡ is_pe32_plus content.now }
{
    u16_at(content, optional_header(content)) == 0x20B
}

fn base_offset(plus: bool) -> u64
    ensures value { result ≡ base_offset plus }
    ensures near { result ≤ 0x1C }
{
    if plus { 0x18 } else { 0x1C }
}

#[tactic(auto, unfolding(crate::specs::Module::pe_fields))]
fn pe_fields(content: &[u8], head: &TeHead) -> Module
    ensures { result ≡ pe_fields content.now head.now }
{
    let wide = is_pe32_plus(content);
    Module {
        skip: 0,
        table: head.stripped,
        sections: head.sections,
        base: head.base,
        base_at: optional_header(content) + base_offset(wide),
        wide,
        address: head.relocation[0],
        size: head.relocation[1],
    }
}

// The module of a PE32 image.
#[tactic(auto, unfolding(crate::specs::Module::pe_module))]
fn pe_module(content: &[u8]) -> Option<Module>
    ensures { result ≡ pe_module content.now }
{
    match te_header(content) {
        Ok(head) => with_relocations(pe_fields(content, &head)),
        Err(_) => None,
    }
}

#[tactic(auto, unfolding(crate::specs::Module::stripped_size))]
fn stripped_size(content: &[u8]) -> u16
    ensures { result ≡ stripped_size content.now }
{
    u16_at(content, 0x06)
}

// Whether a content is no TE image that can be moved.
#[tactic(auto, unfolding(crate::specs::Module::is_no_te))]
fn is_no_te(content: &[u8]) -> bool
    ensures { result ≡ is_no_te content.now }
{
    let sections = byte_at(content, 0x04) as u64;
    let least = EFI_TE_IMAGE_HEADER_SIZE as u64 + IMAGE_SIZEOF_SECTION_HEADER * sections;
    if (content.len() as u64) < least {
        return true;
    }
    if u16_at(content, 0x00) != EFI_TE_IMAGE_HEADER_SIGNATURE {
        return true;
    }
    stripped_size(content) < EFI_TE_IMAGE_HEADER_SIZE
}

#[tactic(auto, unfolding(crate::specs::Module::te_fields))]
fn te_fields(content: &[u8]) -> Module
    ensures { result ≡ te_fields content.now }
{
    Module {
        skip: stripped_size(content).saturating_sub(EFI_TE_IMAGE_HEADER_SIZE),
        table: EFI_TE_IMAGE_HEADER_SIZE,
        sections: byte_at(content, 0x04),
        base: u64_at(content, 0x10),
        base_at: 0x10,
        wide: true,
        address: u32_at(content, 0x18),
        size: u32_at(content, 0x1C),
    }
}

// The module of a TE image.
#[tactic(auto, unfolding(crate::specs::Module::te_module))]
fn te_module(content: &[u8]) -> Option<Module>
    ensures { result ≡ te_module content.now }
{
    if is_no_te(content) {
        return None;
    }
    with_relocations(te_fields(content))
}

/// The module in the content of a section of this kind, unless the content stays as it is.
#[tactic(auto, unfolding(crate::specs::Module::module_in))]
pub(crate) fn module_in(kind: u8, content: &[u8]) -> Option<Module>
    ensures { result ≡ module_in kind content.now }
{
    if kind == EFI_SECTION_PE32 {
        pe_module(content)
    } else if kind == EFI_SECTION_TE {
        te_module(content)
    } else {
        None
    }
}
