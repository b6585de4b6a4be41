//! The names by which the values of PCDs for SKUs are told.
ghost use Rattle.std.specs.Prelude.{◌≡◌, ◌++◌, IfOk, OnOk};
ghost use Rattle.vpd_image.specs.Entries.{sku_of, label, line_label, row_label};

use build_base::WantOfMemory;
use doc_types::pcd::PcdName;
use doc_types::platform::PcdLine;
use doc_types::values::PcdRow;
use std::alloc::{AllocError, Global};

/// The SKU of a line, which is DEFAULT where it names none.
pub fn sku_of(line: &PcdLine) -> &[u8]
    ensures { result.now ≡ sku_of line.now }
{
    match line.sku.bytes() {
        [] => b"DEFAULT".as_slice(),
        sku => sku,
    }
}

/// Appends `Space.Name SKU`.
#[tactic(auto, unfolding(crate::specs::Entries::label))]
pub(crate) fn put_label(out: &mut Vec<u8>, pcd: &PcdName, sku: &[u8]) -> Result<(), AllocError>
    ensures { OnOk result (out.new.items ≡ out.old.items ++ label pcd.now sku.now) }
{
    out.extend_from_slice(pcd.space.bytes())?;
    out.extend_from_slice(b".")?;
    out.extend_from_slice(pcd.name.bytes())?;
    out.extend_from_slice(b" ")?;
    out.extend_from_slice(sku)?;
    Ok(())
}

fn label(alloc: Global, pcd: &PcdName, sku: &[u8]) -> Result<Vec<u8>, WantOfMemory>
    ensures { IfOk result (λ v. v.items ≡ label pcd.now sku.now) }
{
    let mut out = Vec::new(alloc);
    put_label(&mut out, pcd, sku)?;
    Ok(out)
}

/// The name of a line's value.
pub(crate) fn line_label(alloc: Global, line: &PcdLine) -> Result<Vec<u8>, WantOfMemory>
    ensures { IfOk result (λ v. v.items ≡ line_label line.now) }
{
    label(alloc, &line.pcd, sku_of(line))
}

/// The name of a row's value.
pub(crate) fn row_label(alloc: Global, row: &PcdRow) -> Result<Vec<u8>, WantOfMemory>
    ensures { IfOk result (λ v. v.items ≡ row_label row.now) }
{
    label(alloc, &row.pcd, row.sku.bytes())
}
