//! Names of the PE/COFF format, of the TE image and of sections (UEFI PI specification, volumes 1
//! and 3).

/// "VZ", what a TE image begins with.
pub(crate) const EFI_TE_IMAGE_HEADER_SIGNATURE: u16 = 0x5A56;

/// The length of a TE image's header.
pub(crate) const EFI_TE_IMAGE_HEADER_SIZE: u16 = 0x28;

/// The length of a section's header in the section table.
pub const IMAGE_SIZEOF_SECTION_HEADER: u64 = 0x28;

/// The length of what a block of base relocations begins with.
pub(crate) const IMAGE_SIZEOF_BASE_RELOCATION: u32 = 8;

/// Types of base relocations.
pub(crate) const IMAGE_REL_BASED_ABSOLUTE: u16 = 0;

pub(crate) const IMAGE_REL_BASED_HIGHLOW: u16 = 3;

pub(crate) const IMAGE_REL_BASED_DIR64: u16 = 10;

/// Sections of a file that hold modules.
pub const EFI_SECTION_PE32: u8 = 0x10;

pub const EFI_SECTION_TE: u8 = 0x12;
