//! The kind of a PCD in a platform, and the line that declares it.
ghost use Rattle.std.specs.Prelude.{◌≡◌, map, option_copied};
ghost use Rattle.std.specs.List.{flat_map};
ghost use Rattle.pcd_resolve.specs.Kinds.{asked_kind, has_kind, first_kind, kind_given, claim_of, claims, kind_of, of_kind, head_of, declaration};
ghost use Rattle.pcd_ranks.specs.Views.{use_view, stated_view};

use doc_types::package::DecPcd;
use doc_types::pcd::{Asked, Kind, same_kind};
use pcd_ranks::listing::{StatedLine, UseLine};

/// The kind for which a section of an INF asks.
pub(crate) fn asked_kind(asked: Asked) -> Option<Kind>
    ensures { result ≡ asked_kind asked }
{
    match asked {
        Asked::Fixed => Some(Kind::FixedAtBuild),
        Asked::Feature => Some(Kind::FeatureFlag),
        Asked::Patch => Some(Kind::PatchableInModule),
        Asked::Any => None,
        Asked::Ex => Some(Kind::DynamicEx),
    }
}

/// Whether one of some lines has a kind.
pub(crate) fn has_kind(lines: &[&DecPcd], kind: Kind) -> bool
    ensures { result ≡ has_kind (map (λ l. l.now) lines.now) kind }
{
    for line in lines {
        if same_kind(line.kind, kind) {
            return true;
        }
    }
    false
}

#[tactic(auto, unfolding(crate::specs::Kinds::first_kind))]
fn first_kind(lines: &[&DecPcd]) -> Option<Kind>
    ensures { result ≡ first_kind (map (λ l. l.now) lines.now) }
{
    if has_kind(lines, Kind::FixedAtBuild) {
        return Some(Kind::FixedAtBuild);
    }
    if has_kind(lines, Kind::PatchableInModule) {
        return Some(Kind::PatchableInModule);
    }
    if has_kind(lines, Kind::FeatureFlag) {
        return Some(Kind::FeatureFlag);
    }
    if has_kind(lines, Kind::Dynamic) {
        return Some(Kind::Dynamic);
    }
    if has_kind(lines, Kind::DynamicEx) {
        return Some(Kind::DynamicEx);
    }
    None
}

/// The kind that a use gives where the platform lists none.
#[tactic(auto, unfolding(crate::specs::Kinds::kind_given))]
pub(crate) fn kind_given(used: &UseLine<'_>) -> Option<Kind>
    ensures { result ≡ kind_given (use_view used.now) }
{
    if let Some(kind) = asked_kind(used.line.asked) {
        return Some(kind);
    }
    first_kind(used.own.as_slice())
}

fn first_given(uses: &[UseLine<'_>]) -> Option<Kind>
    ensures { result
        ≡ kind_of (flat_map (λ used. claim_of used.line.at (kind_given used))
        (map use_view uses.now)) }
{
    for used in uses {
        if let Some(kind) = kind_given(used) {
            return Some(kind);
        }
    }
    None
}

/// The kind that the first line says: of the platform's lines, or where it has none of the uses.
pub fn kind_of(uses: &[UseLine<'_>], lines: &[StatedLine<'_>]) -> Option<Kind>
    ensures { result ≡ kind_of (claims (map use_view uses.now) (map stated_view lines.now)) }
{
    match lines {
        [first, ..] => Some(first.line.kind),
        [] => first_given(uses),
    }
}

pub(crate) fn first_of_kind<'a>(kind: Kind, lines: &[&'a DecPcd]) -> Option<&'a DecPcd>
    ensures { option_copied result ≡ of_kind kind (map (λ l. l.now) lines.now) }
{
    for line in lines {
        if same_kind(line.kind, kind) {
            return Some(line);
        }
    }
    None
}

pub(crate) fn head_of<'a>(lines: &[&'a DecPcd]) -> Option<&'a DecPcd>
    ensures { option_copied result ≡ head_of (map (λ l. l.now) lines.now) }
{
    match lines {
        [first, ..] => Some(first),
        [] => None,
    }
}

/// The line that gives a PCD its type and its token.
#[tactic(auto, unfolding(crate::specs::Kinds::declaration))]
pub fn declaration<'a>(kind: Kind, lines: &[&'a DecPcd]) -> Option<&'a DecPcd>
    ensures { option_copied result ≡ declaration kind (map (λ l. l.now) lines.now) }
{
    if let Some(line) = first_of_kind(kind, lines) {
        return Some(line);
    }
    head_of(lines)
}
