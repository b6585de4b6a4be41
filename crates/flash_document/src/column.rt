//! What a line says below one of its section's heads.
ghost use Rattle.std.specs.Prelude.{◌≡◌, IfSome, IfNone, Some, None};
ghost use Rattle.flash_document.specs.Columns.{row_at};

use fdf_words::rows::{LineRead, Row};

/// What a line says below the head of a number.
pub fn row_at(line: &LineRead, k: usize) -> Option<&Row>
    ensures some { IfSome result (λ row. row_at k line.now ≡ Some row.now) }
    ensures none { IfNone result (row_at k line.now ≡ None) }
{
    match line {
        LineRead::Heads { .. } => None,
        LineRead::Body(rows) => rows.items().get(k),
    }
}
