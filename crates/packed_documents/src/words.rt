//! Words: architectures, types of modules, and those of PCDs.
ghost use Rattle.std.specs.Prelude.{◌≡◌, ◌++◌};
ghost use Rattle.packed_values.specs.Encoding.{IsAppended, IsRead, IsUnread};
ghost use Rattle.packed_documents.specs.Words.{arch_encoding, asked_encoding, datum_encoding, kind_encoding, module_type_encoding};

use build_base::WantOfMemory;
use doc_types::arch::Arch;
use doc_types::module_type::ModuleType;
use doc_types::pcd::{Asked, Datum, Kind};
use packed_values::plain::encode_byte;
use packed_values::{Encode, Input};
use std::alloc::Global;

/// How a value of `Arch` is encoded.
pub(crate) struct ArchEncoding;

#[tactic(auto, unfolding(crate::specs::Words::arch_encoding, packed_values::specs::Plain::byte_encoding))]
impl Encode for ArchEncoding {
    type Value = Arch;

    ghost encoding = { arch_encoding };

    fn encode(value: &Arch, out: &mut Vec<u8>) -> Result<(), WantOfMemory> {
        encode_byte(*value as u8, out)
    }

    fn decode(_alloc: Global, input: &mut Input) -> Result<Option<Arch>, WantOfMemory> {
        match input.byte() {
            Some(0) => Ok(Some(Arch::Common)),
            Some(1) => Ok(Some(Arch::Ia32)),
            Some(2) => Ok(Some(Arch::X64)),
            Some(3) => Ok(Some(Arch::Arm)),
            Some(4) => Ok(Some(Arch::Aarch64)),
            Some(5) => Ok(Some(Arch::Riscv64)),
            Some(6) => Ok(Some(Arch::Loongarch64)),
            Some(7) => Ok(Some(Arch::Ebc)),
            _ => Ok(None),
        }
    }
}

/// How a value of `ModuleType` is encoded.
pub(crate) struct ModuleTypeEncoding;

#[tactic(auto, unfolding(crate::specs::Words::module_type_encoding, packed_values::specs::Plain::byte_encoding))]
impl Encode for ModuleTypeEncoding {
    type Value = ModuleType;

    ghost encoding = { module_type_encoding };

    fn encode(value: &ModuleType, out: &mut Vec<u8>) -> Result<(), WantOfMemory> {
        encode_byte(*value as u8, out)
    }

    fn decode(_alloc: Global, input: &mut Input) -> Result<Option<ModuleType>, WantOfMemory> {
        match input.byte() {
            Some(0) => Ok(Some(ModuleType::Base)),
            Some(1) => Ok(Some(ModuleType::Sec)),
            Some(2) => Ok(Some(ModuleType::PeiCore)),
            Some(3) => Ok(Some(ModuleType::Peim)),
            Some(4) => Ok(Some(ModuleType::DxeCore)),
            Some(5) => Ok(Some(ModuleType::DxeDriver)),
            Some(6) => Ok(Some(ModuleType::DxeRuntimeDriver)),
            Some(7) => Ok(Some(ModuleType::DxeSalDriver)),
            Some(8) => Ok(Some(ModuleType::DxeSmmDriver)),
            Some(9) => Ok(Some(ModuleType::SmmCore)),
            Some(10) => Ok(Some(ModuleType::MmStandalone)),
            Some(11) => Ok(Some(ModuleType::MmCoreStandalone)),
            Some(12) => Ok(Some(ModuleType::UefiDriver)),
            Some(13) => Ok(Some(ModuleType::UefiApplication)),
            Some(14) => Ok(Some(ModuleType::UserDefined)),
            Some(15) => Ok(Some(ModuleType::HostApplication)),
            _ => Ok(None),
        }
    }
}

/// How a value of `Kind` is encoded.
pub(crate) struct KindEncoding;

#[tactic(auto, unfolding(crate::specs::Words::kind_encoding, packed_values::specs::Plain::byte_encoding))]
impl Encode for KindEncoding {
    type Value = Kind;

    ghost encoding = { kind_encoding };

    fn encode(value: &Kind, out: &mut Vec<u8>) -> Result<(), WantOfMemory> {
        encode_byte(*value as u8, out)
    }

    fn decode(_alloc: Global, input: &mut Input) -> Result<Option<Kind>, WantOfMemory> {
        match input.byte() {
            Some(0) => Ok(Some(Kind::FixedAtBuild)),
            Some(1) => Ok(Some(Kind::PatchableInModule)),
            Some(2) => Ok(Some(Kind::FeatureFlag)),
            Some(3) => Ok(Some(Kind::Dynamic)),
            Some(4) => Ok(Some(Kind::DynamicEx)),
            _ => Ok(None),
        }
    }
}

/// How a value of `Datum` is encoded.
pub(crate) struct DatumEncoding;

#[tactic(auto, unfolding(crate::specs::Words::datum_encoding, packed_values::specs::Plain::byte_encoding))]
impl Encode for DatumEncoding {
    type Value = Datum;

    ghost encoding = { datum_encoding };

    fn encode(value: &Datum, out: &mut Vec<u8>) -> Result<(), WantOfMemory> {
        encode_byte(*value as u8, out)
    }

    fn decode(_alloc: Global, input: &mut Input) -> Result<Option<Datum>, WantOfMemory> {
        match input.byte() {
            Some(0) => Ok(Some(Datum::U8)),
            Some(1) => Ok(Some(Datum::U16)),
            Some(2) => Ok(Some(Datum::U32)),
            Some(3) => Ok(Some(Datum::U64)),
            Some(4) => Ok(Some(Datum::Boolean)),
            Some(5) => Ok(Some(Datum::Void)),
            _ => Ok(None),
        }
    }
}

/// How a value of `Asked` is encoded.
pub(crate) struct AskedEncoding;

#[tactic(auto, unfolding(crate::specs::Words::asked_encoding, packed_values::specs::Plain::byte_encoding))]
impl Encode for AskedEncoding {
    type Value = Asked;

    ghost encoding = { asked_encoding };

    fn encode(value: &Asked, out: &mut Vec<u8>) -> Result<(), WantOfMemory> {
        encode_byte(*value as u8, out)
    }

    fn decode(_alloc: Global, input: &mut Input) -> Result<Option<Asked>, WantOfMemory> {
        match input.byte() {
            Some(0) => Ok(Some(Asked::Fixed)),
            Some(1) => Ok(Some(Asked::Feature)),
            Some(2) => Ok(Some(Asked::Patch)),
            Some(3) => Ok(Some(Asked::Any)),
            Some(4) => Ok(Some(Asked::Ex)),
            _ => Ok(None),
        }
    }
}
