//! The order of packed numbers and paths.
ghost use Rattle.std.specs.Prelude.{◌≡◌};
ghost use Rattle.std.specs.Int.{to_le_bytes, w64};
ghost use Rattle.step_pack.specs.Keys.{arch_byte, text_cmp, number_cmp, path_cmp};

use doc_types::arch::Arch;
use std::cmp::Ordering;

/// The byte of an architecture, in the order of declaration.
pub fn arch_byte(arch: Arch) -> u8
    ensures { result ≡ arch_byte arch }
{
    match arch {
        Arch::Common => 0,
        Arch::Ia32 => 1,
        Arch::X64 => 2,
        Arch::Arm => 3,
        Arch::Aarch64 => 4,
        Arch::Riscv64 => 5,
        Arch::Loongarch64 => 6,
        Arch::Ebc => 7,
    }
}

/// The order of numbers by their four bytes, the lowest first.
#[tactic(auto, using(crate::proofs::NumberLemmas::numbers_swapped))]
pub(crate) fn number_cmp(ours: u32, other: u32) -> Ordering
    ensures { result ≡ number_cmp ours other }
{
    ours.swap_bytes().cmp(&other.swap_bytes())
}

// The order of lengths by their eight bytes, the lowest first.
#[tactic(auto, using(crate::proofs::NumberLemmas::lengths_swapped))]
fn length_cmp(ours: u64, other: u64) -> Ordering
    ensures { result ≡ text_cmp (to_le_bytes w64 ours) (to_le_bytes w64 other) }
{
    ours.swap_bytes().cmp(&other.swap_bytes())
}

/// The order of paths by the eight bytes of their lengths, the lowest first, and then by their
/// bytes.
#[tactic(auto, unfolding(crate::specs::Keys::path_cmp))]
pub(crate) fn path_cmp(ours: &[u8], other: &[u8]) -> Ordering
    ensures { result ≡ path_cmp ours.now other.now }
{
    match length_cmp(ours.len() as u64, other.len() as u64) {
        Ordering::Equal => ours.cmp(other),
        differing => differing,
    }
}
