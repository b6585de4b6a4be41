//! The values that a flash description gives to PCDs.
ghost use Rattle.std.specs.Prelude.{◌≡◌, ◌+◌, ◌++◌, [], IfOk, OnOk, IfSome, IfNone, Some, None};
ghost use Rattle.std.specs.List.{position_or_len};
ghost use Rattle.fdf_words.specs.declared.rows.Row.TheVariants as row;
ghost use Rattle.flash_document.specs.Columns.{row_at};
ghost use Rattle.flash_document.specs.Sets.{is_heads, section_lines, automatic, pcd_set, has_key, region_above, region_sets, sets_at, line_sets, section_sets, bases_from, sets_below, all_sets};

use crate::column::row_at;
use crate::device::{is_key, number_at, number_of};
use build_base::together::two;
use build_base::{Place, Rows, Same, Text, WantOfMemory};
use doc_types::pcd::{PcdName, PcdSet};
use fdf_words::rows::{DeviceKey, DeviceNumber, LineRead, RegionPcds, RegionStart, Row, Scope};
use itoa::Buffer;
use std::alloc::Global;

fn is_heads(line: &LineRead) -> bool
    ensures { result ≡ is_heads line.now }
{
    match line {
        LineRead::Heads { .. } => true,
        LineRead::Body(_) => false,
    }
}

fn heads_at(lines: &[LineRead]) -> usize
    ensures { result ≡ position_or_len is_heads lines.now }
{
    let mut i = 0;
    while i < lines.len() && !is_heads(&lines[i]) {
        i += 1;
    }
    i
}

/// The lines down to the next heads.
pub(crate) fn section_lines(lines: &[LineRead]) -> &[LineRead]
    ensures { result.now ≡ section_lines lines.now }
{
    match lines.get(..heads_at(lines)) {
        Some(section) => section,
        None => lines,
    }
}

// An automatic assignment.
fn automatic(alloc: Global, at: &Place, pcd: &PcdName, number: u128) -> Result<PcdSet, WantOfMemory>
    ensures { IfOk result (λ set. set ≡ automatic at.now pcd.now number) }
{
    let mut digits = Buffer::new();
    let value = Text::of(alloc, digits.format(number).as_bytes())?;
    let (at, pcd) = two(at, pcd, alloc)?;
    Ok(PcdSet {
        at,
        rank: 3,
        pcd,
        value,
    })
}

fn push_set(
    alloc: Global,
    sets: &mut Rows<PcdSet>,
    at: &Place,
    number: u64,
    pcd: &Option<PcdName>,
) -> Result<(), WantOfMemory>
    ensures { OnOk result (sets.new ≡ sets.old ++ pcd_set at.now number pcd.now) }
{
    match pcd {
        Some(pcd) => sets.push(automatic(alloc, at, pcd, number as u128)?),
        None => Ok(()),
    }
}

// A line of these states a key.
fn has_key(key: DeviceKey, k: usize, lines: &[LineRead]) -> bool
    ensures { result ≡ has_key key k lines.now }
{
    let mut left = lines;
    while let [line, rest @ ..] = left {
        if let Some(n) = number_at(line, k) {
            if is_key(n.key, key) {
                return true;
            }
        }
        left = rest;
    }
    false
}

// Where the last region above starts, and its size.
fn region_above(k: usize, above: &[LineRead]) -> Option<&RegionStart>
    ensures some { IfSome result (λ start. region_above k above.now ≡ Some start.now) }
    ensures none { IfNone result (region_above k above.now ≡ None) }
{
    let mut i = above.len();
    while i > 0 {
        i -= 1;
        if let Some(Row::Region(start)) = row_at(&above[i], k) {
            return Some(start);
        }
    }
    None
}

fn push_region_sets(
    alloc: Global,
    sets: &mut Rows<PcdSet>,
    pcds: &RegionPcds,
    base: u64,
    start: &RegionStart,
) -> Result<(), WantOfMemory>
    ensures { OnOk result (sets.new ≡ sets.old ++ region_sets pcds.now base (Some start.now)) }
{
    let address = base as u128 + start.offset as u128;
    sets.push(automatic(alloc, &pcds.at, &pcds.first, address)?)?;
    push_set(alloc, sets, &pcds.at, start.size, &pcds.second)
}

fn push_key_sets(
    alloc: Global,
    sets: &mut Rows<PcdSet>,
    k: usize,
    n: &DeviceNumber,
    rest: &[LineRead],
) -> Result<(), WantOfMemory>
    ensures { OnOk result (sets.new ≡ sets.old
        ++ sets_at k 0 [] rest.now (Some (row.Number n.now))) }
{
    if has_key(n.key, k, rest) {
        return Ok(());
    }
    push_set(alloc, sets, &n.at, n.number, &n.pcd)
}

// What a line sets below the head of a number.
fn push_sets_at(
    alloc: Global,
    sets: &mut Rows<PcdSet>,
    k: usize,
    base: u64,
    above: &[LineRead],
    line: &LineRead,
    rest: &[LineRead],
) -> Result<(), WantOfMemory>
    ensures { OnOk result (sets.new ≡ sets.old
        ++ sets_at k base above.now rest.now (row_at k line.now)) }
{
    match row_at(line, k) {
        Some(Row::Set(set)) => sets.push(set.copy(alloc)?),
        Some(Row::Number(n)) => push_key_sets(alloc, sets, k, n, rest),
        Some(Row::Pcds(pcds)) => match region_above(k, above) {
            Some(start) => push_region_sets(alloc, sets, pcds, base, start),
            None => Ok(()),
        },
        _ => Ok(()),
    }
}

fn push_line_sets(
    alloc: Global,
    sets: &mut Rows<PcdSet>,
    bases: &[u64],
    above: &[LineRead],
    line: &LineRead,
    rest: &[LineRead],
) -> Result<(), WantOfMemory>
    ensures { OnOk result (sets.new ≡ sets.old
        ++ line_sets above.now line.now rest.now 0 bases.now) }
{
    for (k, base) in bases.iter().enumerate() {
        push_sets_at(alloc, sets, k, *base, above, line, rest)?;
    }
    Ok(())
}

fn push_section_sets(
    alloc: Global,
    sets: &mut Rows<PcdSet>,
    bases: &[u64],
    lines: &[LineRead],
) -> Result<(), WantOfMemory>
    ensures { OnOk result (sets.new ≡ sets.old ++ section_sets bases.now [] lines.now) }
{
    for i in 0..lines.len() {
        push_line_sets(alloc, sets, bases, &lines[..i], &lines[i], &lines[i + 1..])?;
    }
    Ok(())
}

// The base addresses below each head.
fn bases_of(alloc: Global, scopes: &[Scope], lines: &[LineRead]) -> Result<Rows<u64>, WantOfMemory>
    ensures { IfOk result (λ bases. bases ≡ bases_from 0 scopes.now lines.now) }
{
    let mut bases = Rows::new(alloc);
    for (k, _scope) in scopes.iter().enumerate() {
        bases.push(number_of(DeviceKey::BaseAddress, k, lines).unwrap_or(0))?;
    }
    Ok(bases)
}

// Only at heads are the lines below looked through for the next ones.
fn push_sets_below(
    alloc: Global,
    sets: &mut Rows<PcdSet>,
    line: &LineRead,
    below: &[LineRead],
) -> Result<(), WantOfMemory>
    ensures { OnOk result (sets.new ≡ sets.old ++ sets_below line.now (section_lines below.now)) }
{
    match line {
        LineRead::Heads { scopes, .. } => {
            let section = section_lines(below);
            let bases = bases_of(alloc, scopes.items(), section)?;
            push_section_sets(alloc, sets, bases.items(), section)
        }
        LineRead::Body(_) => Ok(()),
    }
}

/// The values that the lines give to PCDs, line by line, and for each line by its heads.
pub fn all_sets(alloc: Global, lines: &[LineRead]) -> Result<Rows<PcdSet>, WantOfMemory>
    ensures { IfOk result (λ sets. sets ≡ all_sets lines.now) }
{
    let mut sets = Rows::new(alloc);
    let mut left = lines;
    while let [line, rest @ ..] = left {
        push_sets_below(alloc, &mut sets, line, rest)?;
        left = rest;
    }
    Ok(sets)
}
