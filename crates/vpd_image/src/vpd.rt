//! The image of a platform.
ghost use Rattle.std.specs.Prelude.{◌≡◌, map, IfOk};
ghost use Rattle.build_base.specs.Answer.{Answers, AnswersAs};
ghost use Rattle.vpd_image.specs.Orders.{Apart};
ghost use Rattle.vpd_image.specs.Places.{in_order, placed_by, written_entries};
ghost use Rattle.vpd_image.specs.Tables.{entry_view, placed_view};
ghost use Rattle.vpd_image.specs.Vpd.{vpd_from, vpd_by, vpd_of, AreApart, AreRead, AreReadOf};

use crate::ask::VpdAsk;
use crate::free_map::FreeMap;
use crate::image::vpd_from;
use crate::lines::{EntryLine, entries};
use crate::order::in_order;
use crate::places::{PlacedLine, check_ends, take_all_written, written_entries};
use crate::placing::place_all;
use build_base::{Permit, Refusal, WantOfMemory};
use doc_types::vpd::Vpd;
use std::alloc::Global;

// What is made of entries at their places.
#[tactic(auto, using(crate::proofs::ApartLemmas::apart_in_order, crate::proofs::OrderLemmas::rising_in_order))]
fn vpd_of_places(alloc: Global, placed: Vec<PlacedLine<'_>>) -> Result<Vpd, WantOfMemory>
    requires { Apart (map placed_view placed.items) }
    ensures { IfOk result (λ vpd. vpd ≡ vpd_from (in_order (map placed_view placed.entry.items))) }
{
    let sorted = in_order(placed)?;
    vpd_from(alloc, sorted.as_slice())
}

// The entries at their places, given those with a written offset.
#[tactic(auto, unfolding(crate::specs::Places::placed_by, crate::specs::Places::placed))]
fn place_behind<'a>(
    alloc: Global,
    fixed: &[PlacedLine<'a>],
    entries: &[EntryLine<'a>],
) -> Result<Vec<PlacedLine<'a>>, Refusal>
    requires { map placed_view fixed.now ≡ written_entries (map entry_view entries.now) }
    ensures value { AnswersAs (λ v. map placed_view v.items) result
        (placed_by (map entry_view entries.now)) }
    ensures apart { IfOk result (λ v. Apart (map placed_view v.items)) }
{
    let mut room = FreeMap::new(alloc);
    take_all_written(alloc, &mut room, fixed)?;
    check_ends(alloc, fixed)?;
    let placed = place_all(alloc, &mut room, fixed, entries)?;
    Ok(placed)
}

// The entries at their places, or the first fault.
fn place_entries<'a>(
    alloc: Global,
    entries: &[EntryLine<'a>],
) -> Result<Vec<PlacedLine<'a>>, Refusal>
    ensures value { AnswersAs (λ v. map placed_view v.items) result
        (placed_by (map entry_view entries.now)) }
    ensures apart { IfOk result (λ v. Apart (map placed_view v.items)) }
{
    let fixed = written_entries(alloc, entries)?;
    place_behind(alloc, fixed.as_slice(), entries)
}

#[tactic(auto, unfolding(crate::specs::Vpd::vpd_by))]
fn vpd_by(alloc: Global, entries: &[EntryLine<'_>]) -> Result<Vpd, Refusal>
    ensures value { Answers result (vpd_by (map entry_view entries.now)) }
    ensures apart { IfOk result (λ vpd. AreApart vpd.places) }
    ensures read { IfOk result (λ vpd. AreReadOf (map entry_view entries.now) vpd) }
{
    let placed = place_entries(alloc, entries)?;
    let vpd = vpd_of_places(alloc, placed)?;
    Ok(vpd)
}

/// The image of the VPD lines of a platform, its map and its places. `VpdOverlap` stands at the
/// first line whose written offset gives it a byte of one above, `VpdTooLong` at the first that
/// ends behind 0x1000000, those with a written offset before those with `*`.
#[tactic(auto, unfolding(crate::specs::Vpd::vpd_of, crate::specs::Vpd::entries_of))]
pub fn vpd_of(alloc: Global, permit: Permit, ask: &VpdAsk) -> Result<Vpd, Refusal>
    ensures value { Answers result (vpd_of ask.now) }
    ensures apart { IfOk result (λ vpd. AreApart vpd.places) }
    ensures read { IfOk result (λ vpd. AreRead ask.now vpd) }
{
    let _spent = permit;
    let platform = ask.platform.value();
    let rows = ask.values.value().rows.items();
    let entries = entries(alloc, ask.arches.items(), rows, platform.pcds.items())?;
    vpd_by(alloc, entries.as_slice())
}
