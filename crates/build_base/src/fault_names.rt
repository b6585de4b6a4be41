//! The names of fault codes.
ghost use Rattle.std.specs.Prelude.{◌≡◌, map};
ghost use Rattle.std.specs.Option.{option_map};
ghost use Rattle.build_base.specs.FaultNames.{name_in_table, fault_name};

use crate::fault_codes as codes;

const NAMES: [(u16, &str); 111] = [
    (codes::BAD_PATH, "BadPath"),
    (codes::FILE_TOO_LONG, "FileTooLong"),
    (codes::FILE_ABSENT, "FileAbsent"),
    (codes::BAD_BYTE, "BadByte"),
    (codes::OPEN_QUOTE, "OpenQuote"),
    (codes::LINE_TOO_LONG, "LineTooLong"),
    (codes::BAD_NUMBER, "BadNumber"),
    (codes::BAD_SECTION, "BadSection"),
    (codes::UNBALANCED, "Unbalanced"),
    (codes::INCLUDE_ABSENT, "IncludeAbsent"),
    (codes::INCLUDE_TOO_DEEP, "IncludeTooDeep"),
    (codes::INCLUDE_LOOP, "IncludeLoop"),
    (codes::BAD_EXPRESSION, "BadExpression"),
    (codes::VALUE_RANGE, "ValueRange"),
    (codes::ZERO_DIVISOR, "ZeroDivisor"),
    (codes::UNDEFINED_MACRO, "UndefinedMacro"),
    (codes::TOO_MANY_MACROS, "TooManyMacros"),
    (codes::BAD_DIRECTIVE, "BadDirective"),
    (codes::SCRIPT_ABSENT, "ScriptAbsent"),
    (codes::FROM_ABSENT, "FromAbsent"),
    (codes::DEC_MISSING_KEY, "MissingKey"),
    (codes::DEC_BAD_GUID, "BadGuid"),
    (codes::DEC_BAD_PCD_LINE, "BadPcdLine"),
    (codes::DEC_REPEATED_NAME, "RepeatedName"),
    (codes::BAD_TOKEN, "BadToken"),
    (codes::DEC_UNKNOWN_SECTION, "UnknownSection"),
    (codes::INF_MISSING_KEY, "MissingKey"),
    (codes::INF_BAD_GUID, "BadGuid"),
    (codes::BAD_TYPE, "BadType"),
    (codes::BAD_CLASS_LINE, "BadClassLine"),
    (codes::BAD_PCD_NAME, "BadPcdName"),
    (codes::BAD_NAME, "BadName"),
    (codes::INF_UNKNOWN_SECTION, "UnknownSection"),
    (codes::DSC_MISSING_KEY, "MissingKey"),
    (codes::DSC_BAD_GUID, "BadGuid"),
    (codes::BAD_LIBRARY_LINE, "BadLibraryLine"),
    (codes::BAD_COMPONENT, "BadComponent"),
    (codes::DSC_BAD_PCD_LINE, "BadPcdLine"),
    (codes::DSC_UNKNOWN_SECTION, "UnknownSection"),
    (codes::BAD_ARCH, "BadArch"),
    (codes::DUPLICATE_COMPONENT, "DuplicateComponent"),
    (codes::SKU_UNKNOWN, "SkuUnknown"),
    (codes::SKU_LOOP, "SkuLoop"),
    (codes::BAD_SKU_LINE, "BadSkuLine"),
    (codes::ARCH_UNSUPPORTED, "ArchUnsupported"),
    (codes::BAD_KEY, "BadKey"),
    (codes::FDF_MISSING_KEY, "MissingKey"),
    (codes::STATEMENT_REFUSED, "StatementRefused"),
    (codes::BAD_REGION, "BadRegion"),
    (codes::FDF_BAD_FILE, "BadFile"),
    (codes::BAD_RULE, "BadRule"),
    (codes::BAD_INF_LINE, "BadInfLine"),
    (codes::SIZE_TOO_LARGE, "SizeTooLarge"),
    (codes::VOLUME_LOOP, "VolumeLoop"),
    (codes::VOLUME_UNKNOWN, "VolumeUnknown"),
    (codes::COMPRESSED_REFUSED, "CompressedRefused"),
    (codes::RULE_ABSENT, "RuleAbsent"),
    (codes::ARCH_AMBIGUOUS, "ArchAmbiguous"),
    (codes::BLOCKS_DIFFER, "BlocksDiffer"),
    (codes::VOLUME_TWO_SIZES, "VolumeTwoSizes"),
    (codes::RULE_LINE_REFUSED, "RuleLineRefused"),
    (codes::SECTION_ABSENT, "SectionAbsent"),
    (codes::NOT_A_COMPONENT, "NotAComponent"),
    (codes::IMAGE_UNKNOWN, "ImageUnknown"),
    (codes::FDF_REPEATED_NAME, "RepeatedName"),
    (codes::FDF_BAD_GUID, "BadGuid"),
    (codes::TOO_MANY, "TooMany"),
    (codes::CLASS_UNRESOLVED, "ClassUnresolved"),
    (codes::TYPE_NOT_SERVED, "TypeNotServed"),
    (codes::CLASS_NOT_SERVED, "ClassNotServed"),
    (codes::CONSTRUCTOR_LOOP, "ConstructorLoop"),
    (codes::TOO_MANY_INSTANCES, "TooManyInstances"),
    (codes::BAD_VALUE, "BadValue"),
    (codes::DOES_NOT_FIT, "DoesNotFit"),
    (codes::TEXT_TOO_LONG, "TextTooLong"),
    (codes::NOT_DECLARED, "NotDeclared"),
    (codes::KIND_CONFLICT, "KindConflict"),
    (codes::KIND_ASKED, "KindAsked"),
    (codes::DATUM_CONFLICT, "DatumConflict"),
    (codes::DYNAMIC_IN_COMPONENT, "DynamicInComponent"),
    (codes::SKU_ON_FIXED, "SkuOnFixed"),
    (codes::BAD_TERM, "BadTerm"),
    (codes::DEPEX_GUID_UNKNOWN, "GuidUnknown"),
    (codes::BAD_PLACE, "BadPlace"),
    (codes::TOO_DEEP, "TooDeep"),
    (codes::AUTOGEN_GUID_UNKNOWN, "GuidUnknown"),
    (codes::NOT_PE, "NotPe"),
    (codes::TRUNCATED, "Truncated"),
    (codes::ALIGNMENTS_DIFFER, "AlignmentsDiffer"),
    (codes::TOO_MANY_SECTIONS, "TooManySections"),
    (codes::HEADER_TOO_LONG, "HeaderTooLong"),
    (codes::SUBSYSTEM_TOO_LARGE, "SubsystemTooLarge"),
    (codes::SECTION_TOO_LONG, "SectionTooLong"),
    (codes::IMAGE_FILE_TOO_LONG, "ImageFileTooLong"),
    (codes::ALIGNMENT_REFUSED, "AlignmentRefused"),
    (codes::VOLUME_FULL, "VolumeFull"),
    (codes::TOP_FILE_TWICE, "TopFileTwice"),
    (codes::TOP_FILE_UNALIGNED, "TopFileUnaligned"),
    (codes::PAD_TOO_LONG, "PadTooLong"),
    (codes::REGION_ORDER, "RegionOrder"),
    (codes::REGION_OUTSIDE, "RegionOutside"),
    (codes::DATA_TOO_LONG, "DataTooLong"),
    (codes::VPD_OVERLAP, "VpdOverlap"),
    (codes::VPD_TOO_LONG, "VpdTooLong"),
    (codes::RELOC_BLOCK, "RelocBlock"),
    (codes::RELOC_TYPE, "RelocType"),
    (codes::RELOC_OUTSIDE, "RelocOutside"),
    (codes::NOT_IN_PLACE, "NotInPlace"),
    (codes::BASE_RANGE, "BaseRange"),
    (codes::NO_VOLUME, "NoVolume"),
    (codes::VOLUME_BAD_FILE, "BadFile"),
];

#[tactic(auto, unfolding(crate::specs::FaultNames::name_in_table))]
fn name_in_table(mut table: &[(u16, &'static str)], code: u16) -> Option<&'static str>
    ensures { option_map (λ n. n.now) result ≡ name_in_table
        (map (λ e. (e.0, e.1.now)) table.entry.now) code }
{
    while let [entry, rest @ ..] = table {
        if entry.0 == code {
            return Some(entry.1);
        }
        table = rest;
    }
    None
}

/// The name of a fault code, as it stands in a fault's text.
#[tactic(auto, unfolding(crate::specs::FaultNames::fault_name))]
pub fn fault_name(code: u16) -> Option<&'static str>
    ensures { option_map (λ name. name.now) result ≡ fault_name code }
{
    name_in_table(&NAMES, code)
}
