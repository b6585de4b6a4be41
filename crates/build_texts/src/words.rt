//! The words of the texts.
ghost use Rattle.std.specs.Prelude.{◌≡◌};
ghost use Rattle.build_texts.specs.Words.{arch_word, kind_word, datum_word, source_word};

use doc_types::arch::Arch;
use doc_types::pcd::{Datum, Kind};

/// The word of an architecture.
pub fn arch_word(arch: Arch) -> &'static [u8]
    ensures { result.now ≡ arch_word arch }
{
    match arch {
        Arch::Common => b"COMMON".as_slice(),
        Arch::Ia32 => b"IA32".as_slice(),
        Arch::X64 => b"X64".as_slice(),
        Arch::Arm => b"ARM".as_slice(),
        Arch::Aarch64 => b"AARCH64".as_slice(),
        Arch::Riscv64 => b"RISCV64".as_slice(),
        Arch::Loongarch64 => b"LOONGARCH64".as_slice(),
        Arch::Ebc => b"EBC".as_slice(),
    }
}

pub(crate) fn kind_word(kind: Kind) -> &'static [u8]
    ensures { result.now ≡ kind_word kind }
{
    match kind {
        Kind::FixedAtBuild => b"FixedAtBuild".as_slice(),
        Kind::PatchableInModule => b"PatchableInModule".as_slice(),
        Kind::FeatureFlag => b"FeatureFlag".as_slice(),
        Kind::Dynamic => b"Dynamic".as_slice(),
        Kind::DynamicEx => b"DynamicEx".as_slice(),
    }
}

pub(crate) fn datum_word(datum: Datum) -> &'static [u8]
    ensures { result.now ≡ datum_word datum }
{
    match datum {
        Datum::U8 => b"UINT8".as_slice(),
        Datum::U16 => b"UINT16".as_slice(),
        Datum::U32 => b"UINT32".as_slice(),
        Datum::U64 => b"UINT64".as_slice(),
        Datum::Boolean => b"BOOLEAN".as_slice(),
        Datum::Void => b"VOID*".as_slice(),
    }
}

/// What stated a value of this rank.
pub(crate) fn source_word(rank: u8) -> &'static [u8]
    ensures { result.now ≡ source_word rank }
{
    match rank {
        1 => b"COMMAND".as_slice(),
        2 => b"COMPONENT".as_slice(),
        3 => b"REGION".as_slice(),
        4 => b"SET".as_slice(),
        5 => b"SETDEF".as_slice(),
        6 => b"DSC".as_slice(),
        7 => b"INF".as_slice(),
        8 => b"DEC".as_slice(),
        _ => b"".as_slice(),
    }
}
