//! The line that holds for each class.
ghost use Rattle.std.specs.Prelude.{◌≡◌, ◌<◌, ◌+◌, false, take, length, IfOk, OnOk};
ghost use Rattle.std.specs.HashMap.{get};
ghost use Rattle.std.specs.Option.{option_copied};
ghost use Rattle.build_base.specs.Best.{best, counted, over};
ghost use Rattle.line_ranks.specs.Lines.{weight};
ghost use Rattle.line_ranks.specs.Places.{Lines, outweighs, picked_line};

use crate::lines::rank;
use crate::user::Consumer;
use build_base::{Same, Text, WantOfMemory};
use doc_types::library_lines::LibraryLines;
use doc_types::platform::LibraryLine;
use indexmap::IndexMap;
use std::alloc::Global;
use std::hash::Hash;

/// The item at the place that a table has for a key.
pub fn picked_line<'a, K: Hash + Eq, T>(
    items: &'a [T],
    places: &IndexMap<K, usize>,
    key: &K,
) -> Option<&'a T>
    ensures { option_copied result ≡ picked_line items.now (get K.eq places.now key.now) }
{
    match places.get(key) {
        Some(place) => items.get(*place),
        None => None,
    }
}

fn outweighs(user: Consumer, own: bool, weight: u8, held: Option<&LibraryLine>) -> bool
    ensures { result ≡ outweighs user own weight (option_copied held.entry) }
{
    match held {
        None => false,
        Some(held) => weight < rank(user, own, held),
    }
}

// Adds a line under its class, unless it doesn't hold or one above goes before it.
fn add_line(
    alloc: Global,
    user: Consumer,
    own: bool,
    lines: &[LibraryLine],
    place: usize,
    places: &mut IndexMap<Text, usize>,
) -> Result<(), WantOfMemory>
    requires { place < length lines.now }
    ensures { Lines user own lines.now (take place lines.now) places.old →
        OnOk result (Lines user own lines.now (take (place + 1) lines.now) places.new) }
{
    let line = &lines[place];
    let weight = rank(user, own, line);
    if weight == 0 {
        return Ok(());
    }
    if outweighs(user, own, weight, picked_line(lines, places, &line.class)) {
        return Ok(());
    }
    let class = line.class.copy(alloc)?;
    match places.insert(class, place) {
        Ok(_) => Ok(()),
        Err(_) => Err(WantOfMemory),
    }
}

fn weight(user: Consumer, class: &[u8], line: &LibraryLine) -> u8
    ensures { result ≡ weight user false class.now line.now }
{
    if line.class.bytes() == class {
        return rank(user, false, line);
    }
    0
}

// Of what is held and a line below it the one that goes before the other.
fn greater<'a>(
    user: Consumer,
    class: &[u8],
    held: Option<&'a LibraryLine>,
    line: &'a LibraryLine,
) -> Option<&'a LibraryLine>
    ensures { option_copied result ≡ over (weight user false class.now) (option_copied held.entry)
        (counted (weight user false class.now) line.now) }
{
    let below = weight(user, class, line);
    if below == 0 {
        return held;
    }
    match held {
        None => Some(line),
        Some(above) => {
            if weight(user, class, above) <= below {
                Some(line)
            } else {
                Some(above)
            }
        }
    }
}

/// Of the lines of a platform's sections the one that holds for a class.
pub fn best_line<'a>(
    user: Consumer,
    lines: &'a LibraryLines,
    class: &[u8],
) -> Option<&'a LibraryLine>
    ensures { option_copied result ≡ best (weight user false class.now) lines.now }
{
    let rows = lines.items();
    let mut held = None;
    let mut place = lines.first_place(class);
    while place < rows.len() {
        held = greater(user, class, held, &rows[place]);
        place = lines.next_place(place);
    }
    held
}

/// For each class the place of the line that holds.
pub fn line_places(
    alloc: Global,
    user: Consumer,
    own: bool,
    lines: &[LibraryLine],
) -> Result<IndexMap<Text, usize>, WantOfMemory>
    ensures { IfOk result (Lines user own lines.now lines.now) }
{
    let mut places = IndexMap::with_capacity(alloc, lines.len())?;
    for place in 0..lines.len() {
        add_line(alloc, user, own, lines, place, &mut places)?;
    }
    Ok(places)
}
