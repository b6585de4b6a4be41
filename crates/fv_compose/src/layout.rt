//! Where the files of a volume stand.
ghost use Rattle.std.specs.Prelude.{◌≡◌, ℕ, ◌≤◌, ◌<◌, ◌+◌, ◌^◌, IfOk};
ghost use Rattle.ffs_sections.specs.Alignment.{IsAlignment};
ghost use Rattle.fv_compose.specs.Files.{AreAligned};
ghost use Rattle.fv_compose.specs.Turns.{own_start, next_end, IsLaid};

use crate::files::is_top;
use crate::place::start;
use build_base::{Rows, WantOfMemory};
use doc_types::image::FileImage;
use ffs_sections::header::header_len;
use std::alloc::Global;

/// The start of each file of a volume, in order, and the end of the last. The top file stands at
/// the volume's end; here it has the end of the files before it, as if it had no bytes.
#[derive(Drop)]
pub struct Layout {
    pub starts: Rows<u128>,
    pub end: u128,
}

// The start of a file that comes after an end.
fn own_start(at: u128, file: &FileImage) -> u128
    requires near { at ≤ 2 ^ 126 }
    requires aligned { IsAlignment file.now.align }
    ensures value { result ≡ own_start at file.now }
    ensures near { result < at + 2 ^ 25 }
{
    if is_top(file) {
        return at;
    }
    start(at, file.align, header_len(file.bytes.bytes()))
}

/// The end of a file that stands at its own start.
pub(crate) fn next_end(start: u128, file: &FileImage) -> u128
    requires near { start ≤ 2 ^ 126 + 2 ^ 25 }
    ensures value { (at : ℕ) → start ≡ own_start at file.now → result ≡ next_end at file.now }
    ensures near { result < start + 2 ^ 63 }
{
    if is_top(file) {
        return start;
    }
    start + file.bytes.bytes().len() as u128
}

/// Where files stand behind a header that ends at `first`.
pub(crate) fn lay_out(
    alloc: Global,
    first: u128,
    files: &[FileImage],
) -> Result<Layout, WantOfMemory>
    requires first { first ≤ 116 }
    requires aligned { AreAligned files.now }
    ensures laid { IfOk result (IsLaid first files.now) }
    ensures small { IfOk result (λ layout. layout.end < 2 ^ 126) }
    ensures after { IfOk result (λ layout. first ≤ layout.end) }
{
    let mut starts = Rows::new(alloc);
    let mut end = first;
    for file in files {
        let start = own_start(end, file);
        starts.push(start)?;
        end = next_end(start, file);
    }
    Ok(Layout { starts, end })
}
