//! Entries by their offsets.
ghost use Rattle.std.specs.Prelude.{◌≡◌, map, IfOk};
ghost use Rattle.vpd_image.specs.Places.{in_order};
ghost use Rattle.vpd_image.specs.Tables.{placed_view};

use crate::places::PlacedLine;
use build_base::WantOfMemory;

/// The entries by their offsets, those of one offset in the order that they have.
pub fn in_order<'a>(placed: Vec<PlacedLine<'a>>) -> Result<Vec<PlacedLine<'a>>, WantOfMemory>
    ensures { IfOk result (λ v. map placed_view v.items
        ≡ in_order (map placed_view placed.entry.items)) }
{
    let mut placed = placed;
    placed.sort_by_key(|one| one.offset)?;
    Ok(placed)
}
