//! Names of the standard (UEFI PI specification, volume 3, sections 2.1, 2.2 and 3.2): kinds of
//! sections, types of files, file systems.

/// Kinds of sections.
pub const EFI_SECTION_PE32: u8 = 0x10;

pub const EFI_SECTION_TE: u8 = 0x12;

pub const EFI_SECTION_DXE_DEPEX: u8 = 0x13;

pub const EFI_SECTION_VERSION: u8 = 0x14;

pub const EFI_SECTION_USER_INTERFACE: u8 = 0x15;

pub const EFI_SECTION_FIRMWARE_VOLUME_IMAGE: u8 = 0x17;

/// The kind of a section with a GUID behind its header.
pub const EFI_SECTION_FREEFORM_SUBTYPE_GUID: u8 = 0x18;

/// The kind of a section of raw data, with which pads are made.
pub const EFI_SECTION_RAW: u8 = 0x19;

pub const EFI_SECTION_PEI_DEPEX: u8 = 0x1B;

pub const EFI_SECTION_MM_DEPEX: u8 = 0x1C;

/// Types of files.
pub const EFI_FV_FILETYPE_RAW: u8 = 0x01;

pub const EFI_FV_FILETYPE_FREEFORM: u8 = 0x02;

pub const EFI_FV_FILETYPE_SECURITY_CORE: u8 = 0x03;

pub const EFI_FV_FILETYPE_PEI_CORE: u8 = 0x04;

pub const EFI_FV_FILETYPE_DXE_CORE: u8 = 0x05;

pub const EFI_FV_FILETYPE_PEIM: u8 = 0x06;

pub const EFI_FV_FILETYPE_DRIVER: u8 = 0x07;

pub const EFI_FV_FILETYPE_APPLICATION: u8 = 0x09;

pub const EFI_FV_FILETYPE_MM: u8 = 0x0A;

pub const EFI_FV_FILETYPE_FIRMWARE_VOLUME_IMAGE: u8 = 0x0B;

pub const EFI_FV_FILETYPE_MM_CORE: u8 = 0x0D;

/// The type of a pad file.
pub const EFI_FV_FILETYPE_FFS_PAD: u8 = 0xF0;

/// 8c8ce578-8a3d-4f1c-9935-896185c32dd3.
pub static EFI_FIRMWARE_FILE_SYSTEM2_GUID: [u8; 16] = [
    0x78, 0xE5, 0x8C, 0x8C, 0x3D, 0x8A, 0x1C, 0x4F, 0x99, 0x35, 0x89, 0x61, 0x85, 0xC3, 0x2D, 0xD3,
];

/// 5473c07a-3dcb-4dca-bd6f-1e9689e7349a.
pub static EFI_FIRMWARE_FILE_SYSTEM3_GUID: [u8; 16] = [
    0x7A, 0xC0, 0x73, 0x54, 0xCB, 0x3D, 0xCA, 0x4D, 0xBD, 0x6F, 0x1E, 0x96, 0x89, 0xE7, 0x34, 0x9A,
];
