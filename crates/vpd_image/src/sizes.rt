//! How many bytes entries have, and how they are aligned.
ghost use Rattle.std.specs.Prelude.{◌≡◌, ◌<◌, ◌≤◌};
ghost use Rattle.vpd_image.specs.Places.{size_of, align_of, offset_in};
ghost use Rattle.vpd_image.specs.Rooms.{least_size};

use doc_types::pcd::Datum;
use doc_types::platform::Store;
use doc_types::values::PcdRow;
use pcd_values::parse::width;

/// The bytes of a value in the image.
#[tactic(auto, unfolding(crate::specs::Places::size_of))]
pub fn size_of(row: &PcdRow) -> u32
    ensures { result ≡ size_of row.now }
{
    match row.datum {
        Datum::Void => row.max,
        datum => width(datum),
    }
}

/// The least size that a value of this type has, if it has bytes.
#[tactic(auto, unfolding(crate::specs::Rooms::least_size))]
pub(crate) fn least_size(datum: Datum) -> u64
    ensures value { result ≡ least_size datum }
    ensures some { 0 < result }
    ensures small { result ≤ 8 }
{
    match datum {
        Datum::Void => 1,
        datum => width(datum) as u64,
    }
}

/// The alignment of values of this type.
#[tactic(auto, unfolding(crate::specs::Places::align_of))]
pub fn align_of(datum: Datum) -> u64
    ensures value { result ≡ align_of datum }
    ensures some { 0 < result }
    ensures small { result ≤ 8 }
{
    match datum {
        Datum::Void => 8,
        datum => width(datum) as u64,
    }
}

/// The offset that a line states, or none where it is `*`.
pub(crate) fn offset_in(store: &Store) -> Option<u32>
    ensures { result ≡ offset_in store.now }
{
    match store {
        Store::Vpd { offset, .. } => *offset,
        _ => None,
    }
}
