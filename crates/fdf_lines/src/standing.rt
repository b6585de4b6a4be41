//! What stands open below some lines.
ghost use Rattle.std.specs.Prelude.{◌≡◌, fold};
ghost use Rattle.fdf_lines.specs.Standing.{last_mark, open_marks, waiting_marks, key_marks, pair_marks, unfiled_marks, is_rule, has_rule, is_volume, has_volume, marks_with, marks_begun};

use fdf_words::marks::{Body, Marks, Open, Waiting};
use fdf_words::rows::{DeviceKey, DeviceNumber, Row, Scope};

fn open_with(braces: Open, row: &Row) -> Open
    ensures { result ≡ last_mark braces (open_marks row.now) }
{
    match row {
        Row::Apriori(_) => Open::InApriori,
        Row::File(_) => Open::InFile(Body::Nothing),
        Row::Section(_) => Open::InFile(Body::Sections),
        Row::Whole(_) => Open::InFile(Body::Whole),
        Row::RuleFile(_) => Open::InRule,
        Row::Closes => Open::Shut,
        _ => braces,
    }
}

fn waiting_with(waiting: Waiting, row: &Row) -> Waiting
    ensures { result ≡ last_mark waiting (waiting_marks row.now) }
{
    match row {
        Row::Region(_) => Waiting::Started,
        Row::Pcds(_) => Waiting::Named,
        Row::Content(_) => Waiting::NoRegion,
        _ => waiting,
    }
}

fn key_with(pair: bool, key: DeviceKey) -> bool
    ensures { result ≡ last_mark pair (key_marks key) }
{
    match key {
        DeviceKey::BlockSize => true,
        DeviceKey::NumBlocks => false,
        DeviceKey::BaseAddress | DeviceKey::Size | DeviceKey::ErasePolarity => pair,
    }
}

fn pair_with(pair: bool, row: &Row) -> bool
    ensures { result ≡ last_mark pair (pair_marks row.now) }
{
    match row {
        Row::Number(DeviceNumber { key, .. }) => key_with(pair, *key),
        _ => pair,
    }
}

fn unfiled_with(unfiled: bool, row: &Row) -> bool
    ensures { result ≡ last_mark unfiled (unfiled_marks row.now) }
{
    match row {
        Row::RuleFile(_) => false,
        _ => unfiled,
    }
}

fn marks_with(marks: Marks, row: &Row) -> Marks
    ensures { result ≡ marks_with marks row.now }
{
    Marks {
        braces: open_with(marks.braces, row),
        waiting: waiting_with(marks.waiting, row),
        pair: pair_with(marks.pair, row),
        unfiled: unfiled_with(marks.unfiled, row),
    }
}

/// What these rows leave below the marks above.
pub(crate) fn marks_after(marks: Marks, rows: &[Row]) -> Marks
    ensures { result ≡ fold marks_with marks rows.now }
{
    let mut after = marks;
    for row in rows {
        after = marks_with(after, row);
    }
    after
}

fn is_rule(scope: &Scope) -> bool
    ensures { result ≡ is_rule scope.now }
{
    match scope {
        Scope::Rule(_) => true,
        Scope::Settings | Scope::Device(_) | Scope::Volume(_) => false,
    }
}

fn has_rule(scopes: &[Scope]) -> bool
    ensures { result ≡ has_rule scopes.now }
{
    scopes.iter().any(|scope| is_rule(scope))
}

fn is_volume(scope: &Scope) -> bool
    ensures { result ≡ is_volume scope.now }
{
    match scope {
        Scope::Volume(_) => true,
        Scope::Settings | Scope::Device(_) | Scope::Rule(_) => false,
    }
}

/// Whether heads that enter these scopes begin a volume.
pub fn has_volume(scopes: &[Scope]) -> bool
    ensures { result ≡ has_volume scopes.now }
{
    scopes.iter().any(|scope| is_volume(scope))
}

/// What heads leave that enter these scopes.
pub(crate) fn marks_begun(scopes: &[Scope]) -> Marks
    ensures { result ≡ marks_begun scopes.now }
{
    Marks {
        braces: Open::Shut,
        waiting: Waiting::NoRegion,
        pair: false,
        unfiled: has_rule(scopes),
    }
}
