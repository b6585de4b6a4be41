//! The length of a volume.
ghost use Rattle.std.specs.Prelude.{◌≡◌, ◌≤◌, ◌<◌, ◌+◌, ◌^◌, IfOk, IfSome, Some, None, if◌then◌else◌};
ghost use Rattle.build_base.specs.Least.{IsLeast};
ghost use Rattle.fv_compose.specs.Volume.{holds, Fits, blocks_for, length_for, given_size, needed_of, full_fault, SizeFits, IsLength};

use crate::place::{LEAST_PAD, align_up};
use build_base::fault_codes::VOLUME_FULL;
use build_base::{Fault, Same, Text, WantOfMemory};
use doc_types::volume_head::{SIZE_LIMIT, VolumeHead};
use itoa::Buffer;
use std::alloc::Global;

// Whether a length holds what is taken, with the space before a top file.
fn holds(top: bool, taken: u128, size: u128) -> bool
    requires { taken < 2 ^ 127 }
    ensures { result ≡ holds top taken size }
{
    taken <= size && (!top || size == taken || taken + LEAST_PAD <= size)
}

// The least whole number of blocks that holds what is taken.
fn least_length(block: u128, top: bool, taken: u128) -> u128
    requires block { 0 < block }
    requires small { block < 2 ^ 64 }
    requires near { taken ≤ 2 ^ 126 + 2 ^ 64 }
    ensures least { IsLeast (Fits block top taken) result }
{
    let least = align_up(block, taken);
    if holds(top, taken, least) {
        least
    } else {
        align_up(block, taken + LEAST_PAD)
    }
}

fn blocks_for(block: u64, top: bool, taken: u128) -> Option<u64>
    requires near { taken ≤ 2 ^ 126 + 2 ^ 64 }
    requires some { 0 < taken }
    ensures value { result ≡ blocks_for block top taken }
    ensures length { IfSome result (IsLength block top taken) }
{
    if block == 0 {
        return None;
    }
    let size = least_length(block as u128, top, taken);
    if size > SIZE_LIMIT as u128 {
        return None;
    }
    Some(size as u64)
}

/// The length of a volume in which the files take so many bytes, with or without a top file.
pub(crate) fn length_for(block: u64, size: Option<u64>, top: bool, taken: u128) -> Option<u64>
    requires near { taken ≤ 2 ^ 126 + 2 ^ 64 }
    requires some { 0 < taken }
    requires shape { SizeFits block size }
    ensures value { result ≡ length_for block size top taken }
    ensures length { IfSome result (IsLength block top taken) }
{
    match size {
        Some(size) => checked_length(size, top, taken),
        None => blocks_for(block, top, taken),
    }
}

fn checked_length(size: u64, top: bool, taken: u128) -> Option<u64>
    requires near { taken ≤ 2 ^ 126 + 2 ^ 64 }
    ensures { result ≡ (if holds top taken size then Some size else None) }
{
    if holds(top, taken, size as u128) {
        Some(size)
    } else {
        None
    }
}

fn given_size(block: u64, size: Option<u64>) -> u64
    ensures { result ≡ given_size block size }
{
    match size {
        Some(size) => size,
        None => { if block == 0 { 0 } else { SIZE_LIMIT } }
    }
}

fn needed_of(top: bool, taken: u128, given: u128) -> u128
    requires { taken < 2 ^ 127 }
    ensures { result ≡ needed_of top taken given }
{
    if top && taken < given && given < taken + LEAST_PAD {
        taken + LEAST_PAD
    } else {
        taken
    }
}

/// The fault of a volume that is too small for what its files take.
pub(crate) fn full(
    alloc: Global,
    plan: &VolumeHead,
    top: bool,
    taken: u128,
) -> Result<Fault, WantOfMemory>
    requires { taken ≤ 2 ^ 126 + 2 ^ 64 }
    ensures { IfOk result (λ f. f ≡ full_fault plan.now top taken) }
{
    let given = given_size(plan.block_size, plan.size);
    let mut digits = Buffer::new();
    let needed = needed_of(top, taken, given as u128);
    let mut out = Vec::from_slice(alloc, digits.format(needed).as_bytes())?;
    out.extend_from_slice(b" > ")?;
    out.extend_from_slice(digits.format(given).as_bytes())?;
    Ok(Fault {
        code: VOLUME_FULL,
        place: plan.at.copy(alloc)?,
        detail: Text::from_vec(out),
    })
}
