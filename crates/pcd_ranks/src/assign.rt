//! What sets a PCD.
ghost use Rattle.std.specs.Prelude.{◌≡◌, ◌++◌, ◌∷◌, [], map, filter, IfOk, OnOk, option_copied};
ghost use Rattle.std.specs.Option.{option_map};
ghost use Rattle.build_base.specs.Best.{best, over, counted};
ghost use Rattle.pcd_ranks.specs.Assignments.{small, one_field, vpd_parts, parts_stated, by_declaration, first_default, by_line, by_set, assignments, precedence, value_height, max_height};
ghost use Rattle.meta_lexer.specs.Numbers.{number_of};
ghost use Rattle.pcd_ranks.specs.Listing.{applies};
ghost use Rattle.pcd_ranks.specs.Views.{use_view, stated_view, given_view};

use crate::listing::{StatedLine, UseLine, applies};
use crate::names::{is_common, is_void};
use build_base::{Place, Text, WantOfMemory};
use doc_types::choice::Module;
use doc_types::package::DecPcd;
use doc_types::pcd::{Datum, PcdSet};
use doc_types::platform::{PcdLine, Store};
use meta_lexer::numbers::number;
use std::alloc::Global;

/// An assignment: its rank, whether it is for an architecture of its own, where it stands, and what
/// it states.
#[derive(Clone, Copy)]
pub struct LentAssignment<'a> {
    pub rank: u8,
    pub own: bool,
    pub at: &'a Place,
    pub value: Option<&'a Text>,
    pub max: Option<u32>,
}

fn small(n: Option<u64>) -> Option<u32>
    ensures { result ≡ small n }
{
    match n {
        Some(n) => { if n < 1 << 32 { Some(n as u32) } else { None } }
        None => None,
    }
}

#[tactic(auto, unfolding(crate::specs::Assignments::precedence))]
fn precedence(a: &LentAssignment<'_>) -> u64
    ensures { result ≡ precedence (given_view a.now) }
{
    let base = 2 * (256 - a.rank as u64);
    if a.own { base + 1 } else { base }
}

#[tactic(auto, unfolding(crate::specs::Assignments::value_height))]
fn value_height(a: &LentAssignment<'_>) -> u64
    ensures { result ≡ value_height (given_view a.now) }
{
    match a.value {
        Some(_) => precedence(a),
        None => 0,
    }
}

#[tactic(auto, unfolding(crate::specs::Assignments::max_height))]
fn max_height(a: &LentAssignment<'_>) -> u64
    ensures { result ≡ max_height (given_view a.now) }
{
    match a.max {
        Some(_) => precedence(a),
        None => 0,
    }
}

fn higher_value<'a>(
    held: Option<LentAssignment<'a>>,
    a: LentAssignment<'a>,
) -> Option<LentAssignment<'a>>
    ensures { option_map given_view result
        ≡ over value_height (option_map given_view held.entry)
        (counted value_height (given_view a.entry)) }
{
    if value_height(&a) == 0 {
        return held;
    }
    match held {
        Some(x) => {
            if value_height(&x) <= value_height(&a) {
                Some(a)
            } else {
                Some(x)
            }
        }
        None => Some(a),
    }
}

/// The assignment that gives the value.
pub fn value_from<'a>(all: &[LentAssignment<'a>]) -> Option<LentAssignment<'a>>
    ensures { option_map given_view result ≡ best value_height (map given_view all.now) }
{
    let mut held = None;
    for a in all {
        held = higher_value(held, *a);
    }
    held
}

fn higher_max<'a>(
    held: Option<LentAssignment<'a>>,
    a: LentAssignment<'a>,
) -> Option<LentAssignment<'a>>
    ensures { option_map given_view result
        ≡ over max_height (option_map given_view held.entry)
        (counted max_height (given_view a.entry)) }
{
    if max_height(&a) == 0 {
        return held;
    }
    match held {
        Some(x) => {
            if max_height(&x) <= max_height(&a) {
                Some(a)
            } else {
                Some(x)
            }
        }
        None => Some(a),
    }
}

/// The assignment that gives the maximum.
pub fn max_from<'a>(all: &[LentAssignment<'a>]) -> Option<LentAssignment<'a>>
    ensures { option_map given_view result ≡ best max_height (map given_view all.now) }
{
    let mut held = None;
    for a in all {
        held = higher_max(held, *a);
    }
    held
}

/// The default of a declaration.
#[tactic(auto, unfolding(crate::specs::Assignments::by_declaration))]
pub fn by_declaration<'a>(line: &'a DecPcd) -> LentAssignment<'a>
    ensures { given_view result ≡ by_declaration line.now }
{
    LentAssignment {
        rank: 8,
        own: false,
        at: &line.at,
        value: Some(&line.default),
        max: None,
    }
}

#[tactic(auto, unfolding(crate::specs::Assignments::by_set))]
fn by_set<'a>(set: &'a PcdSet) -> LentAssignment<'a>
    ensures { given_view result ≡ by_set set.now }
{
    LentAssignment {
        rank: set.rank,
        own: false,
        at: &set.at,
        value: Some(&set.value),
        max: None,
    }
}

fn one_value<'a>(datum: Datum, field: &'a Text) -> Option<&'a Text>
    ensures { option_copied result ≡ (one_field datum field.now (number_of field.now)).value }
{
    match number(field.bytes()) {
        Some(_) => { if is_void(datum) { None } else { Some(field) } }
        None => Some(field),
    }
}

fn one_max(datum: Datum, field: &[u8]) -> Option<u32>
    ensures { result ≡ (one_field datum field.now (number_of field.now)).max }
{
    match number(field) {
        Some(n) => { if is_void(datum) { small(Some(n)) } else { None } }
        None => None,
    }
}

fn vpd_value<'a>(datum: Datum, rest: &'a [Text]) -> Option<&'a Text>
    ensures { option_copied result ≡ (vpd_parts datum rest.now).value }
{
    match rest {
        [] => None,
        [field] => one_value(datum, field),
        [_, value, ..] => Some(value),
    }
}

fn vpd_max(datum: Datum, rest: &[Text]) -> Option<u32>
    ensures { result ≡ (vpd_parts datum rest.now).max }
{
    match rest {
        [] => None,
        [field] => one_max(datum, field.bytes()),
        [max, _, ..] => small(number(max.bytes())),
    }
}

fn stated_text(value: &Option<Text>) -> Option<&Text>
    ensures { option_copied result ≡ value.now }
{
    match value {
        Some(text) => Some(text),
        None => None,
    }
}

#[tactic(auto, unfolding(crate::specs::Assignments::parts_stated))]
fn value_stated<'a>(datum: Datum, line: &'a PcdLine) -> Option<&'a Text>
    ensures { option_copied result ≡ (parts_stated datum line.now).value }
{
    match &line.store {
        Store::Vpd { rest, .. } => vpd_value(datum, rest.items()),
        _ => stated_text(&line.value),
    }
}

#[tactic(auto, unfolding(crate::specs::Assignments::parts_stated))]
fn max_stated(datum: Datum, line: &PcdLine) -> Option<u32>
    ensures { result ≡ (parts_stated datum line.now).max }
{
    match &line.store {
        Store::Vpd { rest, .. } => vpd_max(datum, rest.items()),
        _ => line.max,
    }
}

#[tactic(auto, unfolding(crate::specs::Assignments::by_line))]
pub fn by_line<'a>(datum: Datum, stated: &StatedLine<'a>) -> LentAssignment<'a>
    ensures { given_view result ≡ by_line datum (stated_view stated.now) }
{
    let value = value_stated(datum, stated.line);
    let max = max_stated(datum, stated.line);
    match stated.home {
        None => LentAssignment {
            rank: 6,
            own: !is_common(stated.line.arch),
            at: &stated.line.at,
            value,
            max,
        },
        Some(_) => LentAssignment {
            rank: 2,
            own: false,
            at: &stated.line.at,
            value,
            max,
        },
    }
}

pub fn put<'a>(all: &mut Vec<LentAssignment<'a>>, a: LentAssignment<'a>) -> Result<(), WantOfMemory>
    ensures { OnOk result (map given_view all.new.items
        ≡ map given_view all.old.items ++ given_view a.entry ∷ []) }
{
    if all.push(a).is_err() {
        return Err(WantOfMemory);
    }
    Ok(())
}

// The first default that an INF of the module states.
fn put_default<'a>(
    all: &mut Vec<LentAssignment<'a>>,
    uses: &[UseLine<'a>],
) -> Result<(), WantOfMemory>
    ensures { OnOk result (map given_view all.new.items
        ≡ map given_view all.old.items ++ first_default (map use_view uses.now)) }
{
    for used in uses {
        if let Some(text) = &used.line.default {
            let a = LentAssignment {
                rank: 7,
                own: false,
                at: &used.line.at,
                value: Some(text),
                max: None,
            };
            put(all, a)?;
            return Ok(());
        }
    }
    Ok(())
}

fn put_line<'a>(
    all: &mut Vec<LentAssignment<'a>>,
    user: &Module,
    datum: Datum,
    stated: &StatedLine<'a>,
) -> Result<(), WantOfMemory>
    ensures { OnOk result (map given_view all.new.items
        ≡ map given_view all.old.items ++ map (by_line datum)
        (filter (applies user.now) (stated_view stated.now ∷ []))) }
{
    if applies(user, stated) {
        put(all, by_line(datum, stated))?;
    }
    Ok(())
}

fn put_stated<'a>(
    all: &mut Vec<LentAssignment<'a>>,
    user: &Module,
    datum: Datum,
    lines: &[StatedLine<'a>],
) -> Result<(), WantOfMemory>
    ensures { OnOk result (map given_view all.new.items
        ≡ map given_view all.old.items ++ map (by_line datum)
        (filter (applies user.now) (map stated_view lines.now))) }
{
    for stated in lines {
        put_line(all, user, datum, stated)?;
    }
    Ok(())
}

pub fn put_sets<'a>(
    all: &mut Vec<LentAssignment<'a>>,
    sets: &[&'a PcdSet],
) -> Result<(), WantOfMemory>
    ensures { OnOk result (map given_view all.new.items
        ≡ map given_view all.old.items ++ map by_set (map (λ s. s.now) sets.now)) }
{
    for set in sets {
        put(all, by_set(set))?;
    }
    Ok(())
}

// Adds the assignments of a PCD for a module.
#[tactic(auto, unfolding(crate::specs::Assignments::assignments))]
fn put_all<'a>(
    all: &mut Vec<LentAssignment<'a>>,
    user: &Module,
    line: &'a DecPcd,
    uses: &[UseLine<'a>],
    lines: &[StatedLine<'a>],
    sets: &[&'a PcdSet],
) -> Result<(), WantOfMemory>
    ensures { OnOk result (map given_view all.new.items ≡ map given_view all.old.items
        ++ assignments user.now line.now (map use_view uses.now) (map stated_view lines.now)
        (map (λ s. s.now) sets.now)) }
{
    put(all, by_declaration(line))?;
    put_default(all, uses)?;
    put_stated(all, user, line.datum, lines)?;
    put_sets(all, sets)?;
    Ok(())
}

/// The assignments of a PCD for a module.
pub fn assignments<'a>(
    alloc: Global,
    user: &Module,
    line: &'a DecPcd,
    uses: &[UseLine<'a>],
    lines: &[StatedLine<'a>],
    sets: &[&'a PcdSet],
) -> Result<Vec<LentAssignment<'a>>, WantOfMemory>
    ensures { IfOk result (λ v. map given_view v.items
        ≡ assignments user.now line.now (map use_view uses.now) (map stated_view lines.now)
        (map (λ s. s.now) sets.now)) }
{
    let mut all = Vec::new(alloc);
    put_all(&mut all, user, line, uses, lines, sets)?;
    Ok(all)
}
