//! When names, kinds, types and architectures are the same.
ghost use Rattle.std.specs.Prelude.{◌≡◌};
ghost use Rattle.pcd_ranks.specs.Names.{is_common, same_datum, is_void, is_dynamic};

use doc_types::arch::Arch;
use doc_types::pcd::{Datum, Kind};

#[tactic(auto, unfolding(crate::specs::Names::is_common))]
pub fn is_common(arch: Arch) -> bool
    ensures { result ≡ is_common arch }
{
    match arch {
        Arch::Common => true,
        _ => false,
    }
}

#[tactic(auto, unfolding(crate::specs::Names::same_datum))]
pub fn same_datum(first: Datum, second: Datum) -> bool
    ensures { result ≡ same_datum first second }
{
    match (first, second) {
        (Datum::U8, Datum::U8) => true,
        (Datum::U16, Datum::U16) => true,
        (Datum::U32, Datum::U32) => true,
        (Datum::U64, Datum::U64) => true,
        (Datum::Boolean, Datum::Boolean) => true,
        (Datum::Void, Datum::Void) => true,
        _ => false,
    }
}

#[tactic(auto, unfolding(crate::specs::Names::is_void))]
pub fn is_void(datum: Datum) -> bool
    ensures { result ≡ is_void datum }
{
    match datum {
        Datum::Void => true,
        _ => false,
    }
}

#[tactic(auto, unfolding(crate::specs::Names::is_dynamic))]
pub fn is_dynamic(kind: Kind) -> bool
    ensures { result ≡ is_dynamic kind }
{
    match kind {
        Kind::Dynamic => true,
        Kind::DynamicEx => true,
        _ => false,
    }
}
