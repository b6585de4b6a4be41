//! Names of the PE/COFF format.

/// What a file begins with.
pub(crate) const IMAGE_DOS_SIGNATURE: u16 = 0x5A4D;

/// What its headers begin with.
pub(crate) const IMAGE_NT_SIGNATURE: u32 = 0x4550;

/// The length of the MS-DOS header.
pub(crate) const IMAGE_SIZEOF_DOS_HEADER: u64 = 0x40;

/// The place in it of the place of the headers.
pub const E_LFANEW: u64 = 0x3C;

/// The length of the signature and the COFF file header behind it.
pub const IMAGE_SIZEOF_FILE_HEADER: u64 = 0x18;

/// What the optional header of PE32 begins with.
pub(crate) const IMAGE_NT_OPTIONAL_HDR32_MAGIC: u16 = 0x10B;

/// The same of PE32+.
pub(crate) const IMAGE_NT_OPTIONAL_HDR64_MAGIC: u16 = 0x20B;

/// The length of the optional header of PE32 without data directories.
pub(crate) const IMAGE_SIZEOF_OPTIONAL32_HEADER: u16 = 0x60;

/// The same of PE32+.
pub(crate) const IMAGE_SIZEOF_OPTIONAL64_HEADER: u16 = 0x70;

/// The number of the data directory of base relocations.
pub(crate) const IMAGE_DIRECTORY_ENTRY_BASERELOC: u32 = 0x05;

/// The number of the data directory of debugging.
pub(crate) const IMAGE_DIRECTORY_ENTRY_DEBUG: u32 = 0x06;

/// The length of a section's header in the section table.
pub const IMAGE_SIZEOF_SECTION_HEADER: u64 = 0x28;
