//! What the lines above left open in [Components].
ghost use Rattle.std.specs.Prelude.{◌≡◌};
ghost use Rattle.dsc_lines.specs.Standing.{open_with, last_mark, said_marks};

use crate::rows::{Begun, DscRow, Part, Tag};

/// Whether a component's braces are open, and the tag below which the next line stands.
#[derive(Clone, Copy, PartialEq, Eq)]
pub enum Open {
    Shut,
    Untagged,
    Tagged(Tag),
}

fn open_with(standing: Open, part: &Part) -> Open
    ensures { result ≡ open_with standing part.now }
{
    match part {
        Part::Begins(Begun { braced: true, .. }) => Open::Untagged,
        Part::Begins(_) => Open::Shut,
        Part::Tagged(tag) => Open::Tagged(*tag),
        Part::Closes => Open::Shut,
        Part::Library(_) | Part::Pcd(_) | Part::FileGuid(_, _) => standing,
    }
}

/// With one row more.
pub fn open_below(standing: Open, row: &DscRow) -> Open
    ensures { result ≡ last_mark standing (said_marks row.now) }
{
    match row {
        DscRow::Part(part) => open_with(standing, part),
        DscRow::Key(_) | DscRow::Sku(_) | DscRow::Library(_) | DscRow::Pcd(_) => standing,
    }
}
