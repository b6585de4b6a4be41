//! A table of rows of values by their PCDs and SKUs.
ghost use Rattle.std.specs.Prelude.{◌≡◌, ℕ, None, Some, if◌then◌else◌, cond, IfOk, OnOk};
ghost use Rattle.std.specs.Global.{Vec as Bytes};
ghost use Rattle.std.specs.HashMap.{get};
ghost use Rattle.std.specs.Option.{option_copied};
ghost use Rattle.vpd_image.specs.Entries.{is_row_of};
ghost use Rattle.vpd_image.specs.Tables.{same_key, row_at, IsTableFrom};

use crate::labels::row_label;
use build_base::WantOfMemory;
use doc_types::values::PcdRow;
use indexmap::IndexMap;
use std::alloc::Global;

fn put_row(
    alloc: Global,
    table: &mut IndexMap<Vec<u8>, usize>,
    row: &PcdRow,
    place: usize,
) -> Result<(), WantOfMemory>
    ensures { (key : Bytes ℕ)
        → OnOk result (get same_key table.new key
        ≡ (if is_row_of key.items row.now then Some place else get same_key table.old key)) }
{
    let key = row_label(alloc, row)?;
    match table.insert(key, place) {
        Ok(_) => Ok(()),
        Err(_) => Err(WantOfMemory),
    }
}

/// For each PCD and SKU the place of its first row.
pub(crate) fn rows_by_label(
    alloc: Global,
    rows: &[PcdRow],
) -> Result<IndexMap<Vec<u8>, usize>, WantOfMemory>
    ensures { IfOk result (IsTableFrom rows.now 0) }
{
    let mut table = IndexMap::new(alloc);
    let mut place = rows.len();
    while place > 0 {
        place -= 1;
        put_row(alloc, &mut table, &rows[place], place)?;
    }
    Ok(table)
}

fn row_at<'a>(rows: &'a [PcdRow], place: Option<usize>) -> Option<&'a PcdRow>
    ensures { option_copied result ≡ row_at rows.now place }
{
    match place {
        Some(place) => rows.get(place),
        None => None,
    }
}

/// Takes the row of a PCD and a SKU out of a table.
pub(crate) fn take_row<'a>(
    table: &mut IndexMap<Vec<u8>, usize>,
    rows: &'a [PcdRow],
    key: &Vec<u8>,
) -> Option<&'a PcdRow>
    ensures row { option_copied result ≡ row_at rows.now (get same_key table.old key.now) }
    ensures others { (other : Bytes ℕ) → get same_key table.new other
        ≡ cond (same_key key.now other) None (get same_key table.old other) }
{
    row_at(rows, table.swap_remove(key))
}
