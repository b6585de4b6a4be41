//! A device made from the content of its regions.
ghost use Rattle.std.specs.Prelude.{◌≡◌, ◌≤◌, ◌<◌, ◌^◌, ◌+◌, ◌-◌, ◌++◌, length, replicate, IfOk, OnOk, None, Some, slice_index_or, [], true};
ghost use Rattle.std.specs.List.{sum_by};
ghost use Rattle.build_base.specs.Answer.{AnswersAs, Checks};
ghost use Rattle.build_base.specs.Runs.{runs_bytes, kept_bytes, are_blank};
ghost use Rattle.fd_regions.specs.Device.{device_of, device_fault, device_image, comparison_text, region_fault};

use crate::contents::Contents;
use build_base::fault_codes::{DATA_TOO_LONG, REGION_ORDER, REGION_OUTSIDE};
use build_base::{Fault, Permit, Place, Refusal, Rows, Run, RunWriter, Same, Text, WantOfMemory};
use doc_types::flash::{DevicePlan, Region};
use itoa::Buffer;
use std::alloc::Global;

/// The device of a plan, from the content of each of its regions, as runs. `RegionOrder`,
/// `RegionOutside` and `DataTooLong` stand at the region's line, and their details compare the two
/// numbers concerned.
#[tactic(auto, unfolding(crate::specs::Device::device_of))]
pub fn device<C: Contents>(
    alloc: Global,
    permit: Permit,
    plan: &DevicePlan,
    parts: &C,
) -> Result<Rows<Run>, Refusal>
    requires { length plan.now.regions ≡ length (C.contents parts.now) }
    ensures value { AnswersAs runs_bytes result (device_of plan.now (C.contents parts.now)) }
    ensures kept { IfOk result (λ runs. kept_bytes runs ≤ sum_by length (C.contents parts.now)) }
    ensures blank { IfOk result (λ runs. are_blank runs ≡ true) }
    ensures short { IfOk result (λ runs. length (runs_bytes runs) < 2 ^ 64) }
{
    let _spent = permit;
    let regions = plan.regions.items();
    check(alloc, plan.size, regions, parts)?;
    Ok(image(alloc, plan, regions, parts)?)
}

// The first fault.
fn check<C: Contents>(
    alloc: Global,
    size: u64,
    regions: &[Region],
    parts: &C,
) -> Result<(), Refusal>
    requires { length regions.now ≡ length (C.contents parts.now) }
    ensures { Checks result (device_fault size 0 regions.now (C.contents parts.now)) }
{
    let mut at: u64 = 0;
    for (i, region) in regions.iter().enumerate() {
        if let Err(refusal) = check_region(alloc, region, parts.length(i), at, size) {
            return Err(refusal);
        }
        at = region.offset + region.size;
    }
    Ok(())
}

#[tactic(auto, unfolding(crate::specs::Device::region_fault))]
fn check_region(
    alloc: Global,
    region: &Region,
    wanted: u64,
    at: u64,
    size: u64,
) -> Result<(), Refusal>
    ensures fault { Checks result (region_fault size at region.now wanted) }
    ensures inside { OnOk result (region.now.offset + region.now.size ≤ size) }
{
    if region.offset < at {
        let start = region.offset as u128;
        return bad(alloc, REGION_ORDER, &region.at, start, b" < ", at as u128);
    }
    let end = region.offset as u128 + region.size as u128;
    if end > size as u128 {
        return bad(alloc, REGION_OUTSIDE, &region.at, end, b" > ", size as u128);
    }
    let given = region.size as u128;
    if wanted > region.size {
        return bad(
            alloc,
            DATA_TOO_LONG,
            &region.at,
            wanted as u128,
            b" > ",
            given,
        );
    }
    Ok(())
}

// A fault whose detail compares two numbers.
fn bad(
    alloc: Global,
    code: u16,
    at: &Place,
    first: u128,
    sign: &[u8],
    second: u128,
) -> Result<(), Refusal>
    ensures { Checks result
        (Some
        (record { code = code; place = at.now; detail = comparison_text first sign.now second })) }
{
    let detail = comparison_text(alloc, first, sign, second)?;
    let place = at.copy(alloc)?;
    Err(Refusal::Bad(Fault {
        code,
        place,
        detail,
    }))
}

fn comparison_text(
    alloc: Global,
    first: u128,
    sign: &[u8],
    second: u128,
) -> Result<Text, WantOfMemory>
    ensures { IfOk result (λ t. t ≡ comparison_text first sign.now second) }
{
    let mut digits = Buffer::new();
    let mut out = Vec::from_slice(alloc, digits.format(first).as_bytes())?;
    out.extend_from_slice(sign)?;
    out.extend_from_slice(digits.format(second).as_bytes())?;
    Ok(Text::from_vec(out))
}

fn image<C: Contents>(
    alloc: Global,
    plan: &DevicePlan,
    regions: &[Region],
    parts: &C,
) -> Result<Rows<Run>, WantOfMemory>
    requires own { regions.now ≡ plan.now.regions }
    requires as_many { length regions.now ≡ length (C.contents parts.now) }
    requires checked { device_fault plan.now.size 0 regions.now (C.contents parts.now) ≡ None }
    ensures value { IfOk result (λ runs. runs_bytes runs
        ≡ device_image plan.now (C.contents parts.now)) }
    ensures kept { IfOk result (λ runs. kept_bytes runs ≤ sum_by length (C.contents parts.now)) }
    ensures blank { IfOk result (λ runs. are_blank runs ≡ true) }
    ensures short { IfOk result (λ runs. length (runs_bytes runs) < 2 ^ 64) }
{
    let mut out = RunWriter::new(alloc, plan.erase);
    let mut at: u64 = 0;
    for (i, region) in regions.iter().enumerate() {
        put_region(alloc, &mut out, at, region, parts, i)?;
        at = region.offset + region.size;
    }
    out.fill(plan.size - at)?;
    Ok(out.finish())
}

// Writes the free space before a region, its content, and the free space behind it.
fn put_region<C: Contents>(
    alloc: Global,
    out: &mut RunWriter,
    at: u64,
    region: &Region,
    parts: &C,
    i: usize,
) -> Result<(), WantOfMemory>
    requires there { i < length (C.contents parts.now) }
    requires after { at ≤ region.now.offset }
    requires fits { length (slice_index_or (C.contents parts.now) i []) ≤ region.now.size }
    ensures bytes { let part = slice_index_or (C.contents parts.now) i [] in
        OnOk result
        (out.new.bytes ≡ (out.old.bytes ++ replicate (region.now.offset - at) out.old.free)
        ++ (part ++ replicate (region.now.size - length part) out.old.free)) }
    ensures kept { OnOk result
        (out.new.kept ≤ out.old.kept + length (slice_index_or (C.contents parts.now) i [])) }
    ensures free { OnOk result (out.new.free ≡ out.old.free) }
{
    out.fill(region.offset - at)?;
    parts.write(alloc, i, out)?;
    out.fill(region.size - parts.length(i))?;
    Ok(())
}
