//! Reading a flash description.
ghost use Rattle.std.specs.Prelude.{IfOk};
ghost use Rattle.build_base.specs.Answer.{Answers};
ghost use Rattle.fdf_lines.specs.Grammar.{rows_of_flash};
ghost use Rattle.fdf_lines.specs.Limits.{WithinLimits};
ghost use Rattle.flash_document.specs.Flash.{flash_of};
ghost use Rattle.flash_document.specs.Shape.{HasShape};

use crate::whole::flash_of_lines;
use build_base::{Lines, Permit, Refusal};
use doc_types::flash::FlashDoc;
use fdf_lines::read_rows;
use std::alloc::Global;

fn read_document(alloc: Global, lines: &Lines) -> Result<FlashDoc, Refusal>
    ensures document { Answers result (flash_of lines.now) }
    ensures limits { IfOk result (λ flash. IfOk (rows_of_flash lines.now.rows) WithinLimits) }
{
    match read_rows(alloc, lines) {
        Ok(rows) => flash_of_lines(alloc, &lines.root, rows.items()),
        Err(refusal) => Err(refusal),
    }
}

/// The flash description of these lines, or the first fault: that of the first line that has one,
/// of its faults the one of the least code, else of the whole, in the order of codes.
pub fn read_flash(alloc: Global, permit: Permit, lines: &Lines) -> Result<FlashDoc, Refusal>
    ensures flash { Answers result (flash_of lines.now) }
    ensures shape { IfOk result (λ flash. HasShape flash) }
{
    let _spent = permit;
    read_document(alloc, lines)
}
