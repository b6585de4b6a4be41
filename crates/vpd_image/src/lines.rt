//! Which lines of a platform give entries, and of which rows of values.
ghost use Rattle.std.specs.Prelude.{◌≡◌, ◌++◌, ◌∷◌, List, map, reverse, IfOk, OnOk};
ghost use Rattle.std.specs.List.{list_any};
ghost use Rattle.std.specs.Option.{option_map};
ghost use Rattle.doc_types.specs.declared.platform.PcdLine.{PcdLine as Line};
ghost use Rattle.vpd_image.specs.Entries.{is_vpd, same_arch, is_built, counts, with_row, entry_in, entries};
ghost use Rattle.vpd_image.specs.Tables.{IsLeft, entry_view};

use crate::labels::line_label;
use crate::rows::{rows_by_label, take_row};
use build_base::WantOfMemory;
use doc_types::arch::{Arch, same_arch};
use doc_types::platform::{PcdLine, Store};
use doc_types::values::PcdRow;
use indexmap::IndexMap;
use std::alloc::Global;

/// A line, and the row of its PCD and its SKU.
#[derive(Clone, Copy)]
pub(crate) struct EntryLine<'a> {
    pub line: &'a PcdLine,
    pub row: &'a PcdRow,
}

fn is_vpd(store: &Store) -> bool
    ensures { result ≡ is_vpd store.now }
{
    match store {
        Store::Vpd { .. } => true,
        _ => false,
    }
}

fn is_among(arches: &[Arch], arch: Arch) -> bool
    ensures { result ≡ list_any (same_arch arch) arches.now }
{
    for other in arches {
        if same_arch(arch, *other) {
            return true;
        }
    }
    false
}

#[tactic(auto, unfolding(crate::specs::Entries::is_built))]
fn is_built(arches: &[Arch], arch: Arch) -> bool
    ensures { result ≡ is_built arches.now arch }
{
    match arch {
        Arch::Common => true,
        _ => is_among(arches, arch),
    }
}

#[tactic(auto, unfolding(crate::specs::Entries::counts))]
fn counts(arches: &[Arch], line: &PcdLine) -> bool
    ensures { result ≡ counts arches.now line.now }
{
    if !is_vpd(&line.store) {
        return false;
    }
    is_built(arches, line.arch)
}

fn put_row<'a>(
    line: &'a PcdLine,
    row: Option<&'a PcdRow>,
    found: &mut Vec<EntryLine<'a>>,
) -> Result<(), WantOfMemory>
    ensures { OnOk result (map entry_view found.new.items
        ≡ map entry_view found.old.items ++ with_row line.now (option_map (λ r. r.now) row.entry)) }
{
    if let Some(row) = row {
        if found.push(EntryLine { line, row }).is_err() {
            return Err(WantOfMemory);
        }
    }
    Ok(())
}

// Puts the entry that a line gives, and takes its row from those above.
#[tactic(auto, unfolding(crate::specs::Entries::entry_in))]
fn put_line<'a>(
    alloc: Global,
    arches: &[Arch],
    line: &'a PcdLine,
    rows: &'a [PcdRow],
    table: &mut IndexMap<Vec<u8>, usize>,
    found: &mut Vec<EntryLine<'a>>,
) -> Result<(), WantOfMemory>
    ensures left { (below : List Line) → IsLeft arches.now rows.now below table.old
        → OnOk result (IsLeft arches.now rows.now (line.now ∷ below) table.new) }
    ensures found { (below : List Line) → IsLeft arches.now rows.now below table.old
        → OnOk result (map entry_view found.new.items
        ≡ map entry_view found.old.items ++ entry_in arches.now rows.now below line.now) }
{
    if !counts(arches, line) {
        return Ok(());
    }
    let key = line_label(alloc, line)?;
    put_row(line, take_row(table, rows, &key), found)?;
    Ok(())
}

fn entries_up<'a>(
    alloc: Global,
    arches: &[Arch],
    rows: &'a [PcdRow],
    lines: &'a [PcdLine],
) -> Result<Vec<EntryLine<'a>>, WantOfMemory>
    ensures { IfOk result (λ v. map entry_view v.items
        ≡ reverse (entries arches.now rows.now lines.now)) }
{
    let mut table = rows_by_label(alloc, rows)?;
    let mut found = Vec::new(alloc);
    let mut place = lines.len();
    while place > 0 {
        place -= 1;
        put_line(alloc, arches, &lines[place], rows, &mut table, &mut found)?;
    }
    Ok(found)
}

/// The entries, in the order of their lines.
pub fn entries<'a>(
    alloc: Global,
    arches: &[Arch],
    rows: &'a [PcdRow],
    lines: &'a [PcdLine],
) -> Result<Vec<EntryLine<'a>>, WantOfMemory>
    ensures { IfOk result (λ v. map entry_view v.items ≡ entries arches.now rows.now lines.now) }
{
    let mut found = entries_up(alloc, arches, rows, lines)?;
    found.reverse();
    Ok(found)
}
