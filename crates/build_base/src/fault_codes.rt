//! Codes of faults, by subjects. `docs/FAULTS.md` says when each comes and what its detail is;
//! its name is `fault_name` of the code.

// Files and texts.
pub const BAD_PATH: u16 = 101;

pub const FILE_TOO_LONG: u16 = 102;

pub const FILE_ABSENT: u16 = 103;

pub const BAD_BYTE: u16 = 110;

pub const OPEN_QUOTE: u16 = 111;

pub const LINE_TOO_LONG: u16 = 112;

pub const BAD_NUMBER: u16 = 113;

pub const BAD_SECTION: u16 = 114;

pub const UNBALANCED: u16 = 120;

pub const INCLUDE_ABSENT: u16 = 121;

pub const INCLUDE_TOO_DEEP: u16 = 122;

pub const INCLUDE_LOOP: u16 = 123;

pub const BAD_EXPRESSION: u16 = 124;

pub const VALUE_RANGE: u16 = 125;

pub const ZERO_DIVISOR: u16 = 126;

pub const UNDEFINED_MACRO: u16 = 127;

pub const TOO_MANY_MACROS: u16 = 128;

pub const BAD_DIRECTIVE: u16 = 129;

pub const SCRIPT_ABSENT: u16 = 131;

pub const FROM_ABSENT: u16 = 132;

// Package documents (DEC).
pub const DEC_MISSING_KEY: u16 = 201;

pub const DEC_BAD_GUID: u16 = 202;

pub const DEC_BAD_PCD_LINE: u16 = 203;

pub const DEC_REPEATED_NAME: u16 = 204;

pub const BAD_TOKEN: u16 = 205;

pub const DEC_UNKNOWN_SECTION: u16 = 206;

// Module documents (INF).
pub const INF_MISSING_KEY: u16 = 211;

pub const INF_BAD_GUID: u16 = 212;

pub const BAD_TYPE: u16 = 213;

pub const BAD_CLASS_LINE: u16 = 214;

pub const BAD_PCD_NAME: u16 = 215;

pub const BAD_NAME: u16 = 217;

pub const INF_UNKNOWN_SECTION: u16 = 218;

// Platform documents (DSC).
pub const DSC_MISSING_KEY: u16 = 221;

pub const DSC_BAD_GUID: u16 = 222;

pub const BAD_LIBRARY_LINE: u16 = 223;

pub const BAD_COMPONENT: u16 = 224;

pub const DSC_BAD_PCD_LINE: u16 = 225;

pub const DSC_UNKNOWN_SECTION: u16 = 226;

pub const BAD_ARCH: u16 = 227;

pub const DUPLICATE_COMPONENT: u16 = 228;

pub const SKU_UNKNOWN: u16 = 229;

pub const SKU_LOOP: u16 = 230;

pub const BAD_SKU_LINE: u16 = 231;

pub const ARCH_UNSUPPORTED: u16 = 232;

// Flash descriptions (FDF).
pub const BAD_KEY: u16 = 241;

pub const FDF_MISSING_KEY: u16 = 242;

pub const STATEMENT_REFUSED: u16 = 243;

pub const BAD_REGION: u16 = 244;

pub const FDF_BAD_FILE: u16 = 246;

pub const BAD_RULE: u16 = 247;

pub const BAD_INF_LINE: u16 = 248;

pub const SIZE_TOO_LARGE: u16 = 249;

pub const VOLUME_LOOP: u16 = 250;

pub const VOLUME_UNKNOWN: u16 = 251;

pub const COMPRESSED_REFUSED: u16 = 252;

pub const RULE_ABSENT: u16 = 253;

pub const ARCH_AMBIGUOUS: u16 = 254;

pub const BLOCKS_DIFFER: u16 = 255;

pub const VOLUME_TWO_SIZES: u16 = 256;

pub const RULE_LINE_REFUSED: u16 = 257;

pub const SECTION_ABSENT: u16 = 258;

pub const NOT_A_COMPONENT: u16 = 259;

pub const IMAGE_UNKNOWN: u16 = 260;

pub const FDF_REPEATED_NAME: u16 = 261;

pub const FDF_BAD_GUID: u16 = 262;

pub const TOO_MANY: u16 = 263;

// Choice of libraries.
pub const CLASS_UNRESOLVED: u16 = 301;

pub const TYPE_NOT_SERVED: u16 = 302;

pub const CLASS_NOT_SERVED: u16 = 303;

pub const CONSTRUCTOR_LOOP: u16 = 304;

pub const TOO_MANY_INSTANCES: u16 = 305;

// Values of PCDs, and what is asked of them.
pub const BAD_VALUE: u16 = 401;

pub const DOES_NOT_FIT: u16 = 402;

pub const TEXT_TOO_LONG: u16 = 403;

pub const NOT_DECLARED: u16 = 411;

pub const KIND_CONFLICT: u16 = 412;

pub const KIND_ASKED: u16 = 413;

pub const DATUM_CONFLICT: u16 = 414;

pub const DYNAMIC_IN_COMPONENT: u16 = 415;

pub const SKU_ON_FIXED: u16 = 416;

// Dependency expressions, and the names of GUIDs in generated texts.
pub const BAD_TERM: u16 = 501;

pub const DEPEX_GUID_UNKNOWN: u16 = 502;

pub const BAD_PLACE: u16 = 503;

pub const TOO_DEEP: u16 = 504;

pub const AUTOGEN_GUID_UNKNOWN: u16 = 511;

// Modules as PE32 and TE images.
pub const NOT_PE: u16 = 601;

pub const TRUNCATED: u16 = 602;

pub const ALIGNMENTS_DIFFER: u16 = 603;

pub const TOO_MANY_SECTIONS: u16 = 604;

pub const HEADER_TOO_LONG: u16 = 605;

pub const SUBSYSTEM_TOO_LARGE: u16 = 606;

// Sections and files of volumes.
pub const SECTION_TOO_LONG: u16 = 611;

pub const IMAGE_FILE_TOO_LONG: u16 = 612;

pub const ALIGNMENT_REFUSED: u16 = 613;

// Volumes.
pub const VOLUME_FULL: u16 = 701;

pub const TOP_FILE_TWICE: u16 = 702;

pub const TOP_FILE_UNALIGNED: u16 = 703;

pub const PAD_TOO_LONG: u16 = 704;

// Devices.
pub const REGION_ORDER: u16 = 711;

pub const REGION_OUTSIDE: u16 = 712;

pub const DATA_TOO_LONG: u16 = 713;

// Vital product data.
pub const VPD_OVERLAP: u16 = 721;

pub const VPD_TOO_LONG: u16 = 722;

// Modules that are moved.
pub const RELOC_BLOCK: u16 = 731;

pub const RELOC_TYPE: u16 = 732;

pub const RELOC_OUTSIDE: u16 = 733;

pub const NOT_IN_PLACE: u16 = 734;

pub const BASE_RANGE: u16 = 735;

// Images that are read.
pub const NO_VOLUME: u16 = 741;

pub const VOLUME_BAD_FILE: u16 = 742;
