//! Where a file of a volume stands.
ghost use Rattle.std.specs.Prelude.{◌≡◌, ◌≤◌, ◌+◌, ◌^◌, ◌<◌, ◌⊎◌};
ghost use Rattle.build_base.specs.Least.{IsLeast};
ghost use Rattle.ffs_sections.specs.Alignment.{IsAlignment};
ghost use Rattle.fv_compose.specs.Place.{IsStart, IsUp, IsHead, align_up, start_of};

/// The length of a pad file without a body.
pub(crate) const LEAST_PAD: u128 = 24;

/// Where a file starts, counted from the volume's start, and the size of the pad file before it, 0
/// where there is none.
#[derive(Clone, Copy, PartialEq, Eq)]
pub struct Placed {
    pub pad: u64,
    pub file: u64,
}

/// The least multiple of a unit from `at` on.
#[tactic(auto, unfolding(crate::specs::Place::align_up))]
pub fn align_up(unit: u128, at: u128) -> u128
    requires some { 0 < unit }
    requires fits { at + unit ≤ 2 ^ 127 }
    ensures value { result ≡ align_up unit at }
    ensures least { IsLeast (IsUp unit at) result }
    ensures near { result < at + unit }
{
    (at + (unit - 1)) / unit * unit
}

/// Where a file of this alignment, with a header so long, starts after an end.
pub fn start(at: u128, align: u32, head: u32) -> u128
    requires near { at ≤ 2 ^ 126 }
    requires alignment { IsAlignment align }
    requires head { IsHead head }
    ensures value { result ≡ start_of at align head }
    ensures least { IsLeast (IsStart at align head) result }
    ensures after { align_up 8 at ≤ result }
    ensures near { result < at + 2 ^ 25 }
{
    start_from(align_up(8, at), at, align as u128, head as u128)
}

#[tactic(auto, unfolding(crate::specs::Place::start_of))]
fn start_from(first: u128, at: u128, unit: u128, head: u128) -> u128
    requires first { first ≡ align_up 8 at }
    requires near { first ≤ 2 ^ 126 + 8 }
    requires alignment { IsAlignment unit }
    requires head { IsHead head }
    requires short { head ≤ 32 }
    ensures value { result ≡ start_of at unit head }
    ensures after { first ≤ result }
    ensures near { result < first + 24 + head + unit }
{
    if (first + head) % unit == 0 {
        first
    } else {
        align_up(unit, first + LEAST_PAD + head) - head
    }
}

/// Where a file of this alignment, with a header of 24 or 32 bytes, stands after a file that ends
/// at `at`.
pub fn place_of(at: u64, align: u32, head: u32) -> Placed
    requires near { at ≤ 2 ^ 32 }
    requires alignment { IsAlignment align }
    requires head { IsHead head }
    ensures value { result.file ≡ start_of at align head }
    ensures pad { result.pad + align_up 8 at ≡ result.file }
    ensures least { IsLeast (IsStart at align head) result.file }
    ensures after { at + result.pad ≤ result.file }
    ensures near { result.file < at + 2 ^ 25 }
    ensures room { (result.pad ≡ 0) ⊎ (24 ≤ result.pad) }
{
    let first = align_up(8, at as u128) as u64;
    let file = start(at as u128, align, head) as u64;
    Placed {
        pad: file - first,
        file,
    }
}
