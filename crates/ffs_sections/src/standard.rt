//! Names of the standard (UEFI PI specification, volume 3, section 3.2).
use doc_types::volume_head::SIZE_LIMIT;

/// The attributes of a file.
pub(crate) const FFS_ATTRIB_LARGE_FILE: u8 = 0x01;

pub(crate) const FFS_ATTRIB_FIXED: u8 = 0x04;

pub const FFS_ATTRIB_CHECKSUM: u8 = 0x40;

/// The file checksum of a file without the attribute CHECKSUM.
pub const FFS_FIXED_CHECKSUM: u8 = 0xAA;

/// The state of a whole file under erase polarity 0: header made, header valid, data valid.
pub(crate) const FILE_STATE: u8 = 0x07;

/// The greatest size of a section in an FFS2 volume, header and all.
pub const SECTION_LIMIT: u64 = 0xFF_FFFE;

/// The greatest size of a file in an FFS2 volume, header and all.
pub const FILE_LIMIT: u64 = 0xFF_FFFF;

/// The greatest size of a section and of a file in an FFS3 volume, header and all: that of a
/// volume.
pub(crate) const FFS3_LIMIT: u64 = SIZE_LIMIT;
