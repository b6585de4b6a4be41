//! The faults of a PCD that are no faults of its value.
ghost use Rattle.std.specs.Prelude.{◌≡◌, ◌∷◌, [], map, false, IfSome, Some, option_copied};
ghost use Rattle.std.specs.List.{flat_map, list_any};
ghost use Rattle.build_base.specs.Answer.{Answers, Checks, Finds};
ghost use Rattle.build_base.specs.FaultText.{fault_of};
ghost use Rattle.build_base.specs.First.{first_of};
ghost use Rattle.meta_lexer.specs.Faults.{first_fault};
ghost use Rattle.pcd_resolve.specs.Kinds.{claims, claim_of, kind_given};
ghost use Rattle.pcd_resolve.specs.Faults.{not_declared, datum_text, datum_differs, is_other, is_against, asks_other, datum_conflict, dynamic_in_component, sku_on_fixed, kind_conflict, kind_asked, kind_faults, pcd_fault, checked_kind};
ghost use Rattle.doc_types.specs.Pcds.{full_name};
ghost use Rattle.pcd_ranks.specs.Views.{use_view, stated_view};

use crate::kinds::{asked_kind, declaration, has_kind, kind_given, kind_of};
use build_base::fault_codes::{
    DATUM_CONFLICT, DYNAMIC_IN_COMPONENT, KIND_ASKED, KIND_CONFLICT, NOT_DECLARED, SKU_ON_FIXED,
};
use build_base::{Place, Refusal, refuse};
use doc_types::package::DecPcd;
use doc_types::pcd::{Datum, Kind, PcdName, same_kind};
use pcd_ranks::listing::{StatedLine, UseLine, applies};
use pcd_ranks::names::{is_dynamic, same_datum};
use std::alloc::Global;

#[tactic(auto, unfolding(crate::specs::Faults::not_declared))]
fn not_declared(alloc: Global, used: &UseLine<'_>) -> Result<(), Refusal>
    ensures { Checks result (not_declared (use_view used.now)) }
{
    if used.own.is_empty() {
        return Err(refuse_named(alloc, NOT_DECLARED, &used.line.at, &used.line.pcd));
    }
    Ok(())
}

fn all_declared(alloc: Global, uses: &[UseLine<'_>]) -> Result<(), Refusal>
    ensures { Checks result (first_fault not_declared (map use_view uses.now)) }
{
    for used in uses {
        not_declared(alloc, used)?;
    }
    Ok(())
}

#[tactic(auto, unfolding(crate::specs::Faults::datum_text))]
fn datum_text(datum: Datum) -> &'static [u8]
    ensures { result.now ≡ datum_text datum }
{
    match datum {
        Datum::U8 => b"UINT8".as_slice(),
        Datum::U16 => b"UINT16".as_slice(),
        Datum::U32 => b"UINT32".as_slice(),
        Datum::U64 => b"UINT64".as_slice(),
        Datum::Boolean => b"BOOLEAN".as_slice(),
        Datum::Void => b"VOID*".as_slice(),
    }
}

fn datum_differs(datum: Datum, line: Option<&DecPcd>) -> bool
    ensures { result ≡ datum_differs datum (option_copied line.entry) }
{
    match line {
        Some(line) => !same_datum(datum, line.datum),
        None => false,
    }
}

fn is_other(kind: Kind, datum: Datum, used: &UseLine<'_>) -> bool
    ensures { result ≡ is_other kind datum (use_view used.now) }
{
    datum_differs(datum, declaration(kind, used.all.as_slice()))
}

fn is_other_for_one(kind: Kind, datum: Datum, uses: &[UseLine<'_>]) -> bool
    ensures { result ≡ list_any (is_other kind datum) (map use_view uses.now) }
{
    for used in uses {
        if is_other(kind, datum, used) {
            return true;
        }
    }
    false
}

fn is_against(kind: Kind, datum: Datum, stated: &StatedLine<'_>, used: &UseLine<'_>) -> bool
    ensures { result ≡ is_against kind datum (stated_view stated.now) (use_view used.now) }
{
    if !applies(used.user, stated) {
        return false;
    }
    is_other(kind, datum, used)
}

fn is_against_one(kind: Kind, datum: Datum, stated: &StatedLine<'_>, uses: &[UseLine<'_>]) -> bool
    ensures { result ≡ list_any (is_against kind datum (stated_view stated.now))
        (map use_view uses.now) }
{
    for used in uses {
        if is_against(kind, datum, stated, used) {
            return true;
        }
    }
    false
}

// The type that the packages of all uses declare, where it is one.
fn common_datum(kind: Kind, uses: &[UseLine<'_>]) -> Option<Datum>
    ensures { IfSome result (λ d. list_any (is_other kind d) (map use_view uses.now) ≡ false) }
{
    let [first, ..] = uses else {
        return None;
    };
    let line = declaration(kind, first.all.as_slice())?;
    let datum = line.datum;
    if is_other_for_one(kind, datum, uses) {
        return None;
    }
    Some(datum)
}

// Of one type for all uses no line is against one of them.
#[tactic(auto, using(crate::proofs::DatumLemmas::none_against))]
fn is_at_odds(
    kind: Kind,
    datum: Datum,
    agreed: Option<Datum>,
    stated: &StatedLine<'_>,
    uses: &[UseLine<'_>],
) -> bool
    requires { IfSome agreed (λ d. list_any (is_other kind d) (map use_view uses.now) ≡ false) }
    ensures { result ≡ list_any (is_against kind datum (stated_view stated.now))
        (map use_view uses.now) }
{
    if let Some(one) = agreed {
        if same_datum(datum, one) {
            return false;
        }
    }
    is_against_one(kind, datum, stated, uses)
}

#[tactic(auto, unfolding(crate::specs::Faults::datum_conflict))]
fn datum_conflict(
    alloc: Global,
    kind: Kind,
    agreed: Option<Datum>,
    stated: &StatedLine<'_>,
    uses: &[UseLine<'_>],
) -> Result<(), Refusal>
    requires { IfSome agreed (λ d. list_any (is_other kind d) (map use_view uses.now) ≡ false) }
    ensures { Checks result (datum_conflict kind (map use_view uses.now) (stated_view stated.now)) }
{
    let Some(datum) = stated.line.datum else {
        return Ok(());
    };
    if is_at_odds(kind, datum, agreed, stated, uses) {
        return Err(refuse(alloc, DATUM_CONFLICT, &stated.line.at, datum_text(datum)));
    }
    Ok(())
}

fn datums_fit(
    alloc: Global,
    kind: Kind,
    agreed: Option<Datum>,
    uses: &[UseLine<'_>],
    lines: &[StatedLine<'_>],
) -> Result<(), Refusal>
    requires { IfSome agreed (λ d. list_any (is_other kind d) (map use_view uses.now) ≡ false) }
    ensures { Checks result
        (first_fault (datum_conflict kind (map use_view uses.now)) (map stated_view lines.now)) }
{
    for stated in lines {
        datum_conflict(alloc, kind, agreed, stated, uses)?;
    }
    Ok(())
}

#[tactic(auto, unfolding(crate::specs::Faults::dynamic_in_component))]
fn dynamic_in_component(alloc: Global, stated: &StatedLine<'_>) -> Result<(), Refusal>
    ensures { Checks result (dynamic_in_component (stated_view stated.now)) }
{
    match stated.home {
        None => Ok(()),
        Some(_) => {
            if is_dynamic(stated.line.kind) {
                return Err(refuse_named(
                    alloc,
                    DYNAMIC_IN_COMPONENT,
                    &stated.line.at,
                    &stated.line.pcd,
                ));
            }
            Ok(())
        }
    }
}

fn refuse_named(alloc: Global, code: u16, at: &Place, pcd: &PcdName) -> Refusal
    ensures { Finds result (Some (fault_of code at.now (full_name pcd.now))) }
{
    match pcd.full_name(alloc) {
        Ok(name) => refuse(alloc, code, at, name.as_slice()),
        Err(_) => Refusal::WantOfMemory,
    }
}

fn none_dynamic_inside(alloc: Global, lines: &[StatedLine<'_>]) -> Result<(), Refusal>
    ensures { Checks result (first_fault dynamic_in_component (map stated_view lines.now)) }
{
    for stated in lines {
        dynamic_in_component(alloc, stated)?;
    }
    Ok(())
}

#[tactic(auto, unfolding(crate::specs::Faults::sku_on_fixed))]
fn sku_on_fixed(alloc: Global, stated: &StatedLine<'_>) -> Result<(), Refusal>
    ensures { Checks result (sku_on_fixed (stated_view stated.now)) }
{
    if is_dynamic(stated.line.kind) {
        return Ok(());
    }
    if stated.line.sku.bytes() == b"DEFAULT".as_slice() {
        return Ok(());
    }
    Err(refuse_named(alloc, SKU_ON_FIXED, &stated.line.at, &stated.line.pcd))
}

fn no_sku_on_fixed(alloc: Global, lines: &[StatedLine<'_>]) -> Result<(), Refusal>
    ensures { Checks result (first_fault sku_on_fixed (map stated_view lines.now)) }
{
    for stated in lines {
        sku_on_fixed(alloc, stated)?;
    }
    Ok(())
}

#[tactic(auto, unfolding(crate::specs::Faults::kind_conflict))]
fn kind_conflict(
    alloc: Global,
    pcd: &[u8],
    kind: Kind,
    at: &Place,
    said: Kind,
) -> Result<(), Refusal>
    ensures { Checks result (kind_conflict pcd.now kind (record { at = at.now; kind = said })) }
{
    if same_kind(said, kind) {
        return Ok(());
    }
    Err(refuse(alloc, KIND_CONFLICT, at, pcd))
}

fn line_agrees(
    alloc: Global,
    pcd: &[u8],
    kind: Kind,
    stated: &StatedLine<'_>,
) -> Result<(), Refusal>
    ensures { Checks result
        (kind_conflict pcd.now kind
        (record { at = (stated_view stated.now).line.at; kind = (stated_view stated.now).line.kind })) }
{
    kind_conflict(alloc, pcd, kind, &stated.line.at, stated.line.kind)
}

fn lines_agree(
    alloc: Global,
    pcd: &[u8],
    kind: Kind,
    lines: &[StatedLine<'_>],
) -> Result<(), Refusal>
    ensures { Checks result
        (first_fault (kind_conflict pcd.now kind)
        (map (λ s. record { at = s.line.at; kind = s.line.kind }) (map stated_view lines.now))) }
{
    for stated in lines {
        line_agrees(alloc, pcd, kind, stated)?;
    }
    Ok(())
}

fn use_agrees(alloc: Global, pcd: &[u8], kind: Kind, used: &UseLine<'_>) -> Result<(), Refusal>
    ensures { Checks result
        (first_fault (kind_conflict pcd.now kind)
        (claim_of (use_view used.now).line.at (kind_given (use_view used.now)))) }
{
    match kind_given(used) {
        Some(said) => {
            kind_conflict(alloc, pcd, kind, &used.line.at, said)?;
            Ok(())
        }
        None => Ok(()),
    }
}

fn uses_agree(alloc: Global, pcd: &[u8], kind: Kind, uses: &[UseLine<'_>]) -> Result<(), Refusal>
    ensures { Checks result
        (first_fault (kind_conflict pcd.now kind)
        (flat_map (λ used. claim_of used.line.at (kind_given used)) (map use_view uses.now))) }
{
    for used in uses {
        use_agrees(alloc, pcd, kind, used)?;
    }
    Ok(())
}

fn kinds_agree(
    alloc: Global,
    pcd: &[u8],
    kind: Kind,
    uses: &[UseLine<'_>],
    lines: &[StatedLine<'_>],
) -> Result<(), Refusal>
    ensures { Checks result
        (first_fault (kind_conflict pcd.now kind)
        (claims (map use_view uses.now) (map stated_view lines.now))) }
{
    match lines {
        [] => uses_agree(alloc, pcd, kind, uses),
        [_, ..] => lines_agree(alloc, pcd, kind, lines),
    }
}

fn asks_other(kind: Kind, asked: Option<Kind>) -> bool
    ensures { result ≡ asks_other kind asked }
{
    match asked {
        Some(asked) => !same_kind(asked, kind),
        None => false,
    }
}

#[tactic(auto, unfolding(crate::specs::Faults::kind_asked))]
fn kind_asked(alloc: Global, kind: Kind, used: &UseLine<'_>) -> Result<(), Refusal>
    ensures { Checks result (kind_asked kind (use_view used.now)) }
{
    if asks_other(kind, asked_kind(used.line.asked)) {
        return Err(refuse_named(alloc, KIND_ASKED, &used.line.at, &used.line.pcd));
    }
    if has_kind(used.own.as_slice(), kind) {
        return Ok(());
    }
    Err(refuse_named(alloc, KIND_ASKED, &used.line.at, &used.line.pcd))
}

fn kinds_asked(alloc: Global, kind: Kind, uses: &[UseLine<'_>]) -> Result<(), Refusal>
    ensures { Checks result (first_fault (kind_asked kind) (map use_view uses.now)) }
{
    for used in uses {
        kind_asked(alloc, kind, used)?;
    }
    Ok(())
}

// The last three of the faults that suppose a kind.
fn kinds_stand(
    alloc: Global,
    pcd: &[u8],
    kind: Kind,
    uses: &[UseLine<'_>],
    lines: &[StatedLine<'_>],
) -> Result<(), Refusal>
    ensures { Checks result
        (first_of
        (first_fault sku_on_fixed (map stated_view lines.now)
        ∷ first_fault (kind_conflict pcd.now kind)
        (claims (map use_view uses.now) (map stated_view lines.now))
        ∷ first_fault (kind_asked kind) (map use_view uses.now) ∷ [])) }
{
    no_sku_on_fixed(alloc, lines)?;
    kinds_agree(alloc, pcd, kind, uses, lines)?;
    kinds_asked(alloc, kind, uses)
}

#[tactic(auto, unfolding(crate::specs::Faults::kind_faults))]
fn kind_faults(
    alloc: Global,
    pcd: &[u8],
    kind: Kind,
    uses: &[UseLine<'_>],
    lines: &[StatedLine<'_>],
) -> Result<(), Refusal>
    ensures { Checks result
        (kind_faults pcd.now (map use_view uses.now) (map stated_view lines.now) kind) }
{
    datums_fit(alloc, kind, common_datum(kind, uses), uses, lines)?;
    none_dynamic_inside(alloc, lines)?;
    kinds_stand(alloc, pcd, kind, uses, lines)
}

/// Refuses a PCD by its first fault.
#[tactic(auto, unfolding(crate::specs::Faults::pcd_fault))]
pub fn pcd_faults(
    alloc: Global,
    pcd: &[u8],
    uses: &[UseLine<'_>],
    lines: &[StatedLine<'_>],
) -> Result<(), Refusal>
    ensures { Checks result
        (pcd_fault pcd.now (map use_view uses.now) (map stated_view lines.now)) }
{
    all_declared(alloc, uses)?;
    match kind_of(uses, lines) {
        Some(kind) => {
            kind_faults(alloc, pcd, kind, uses, lines)?;
            Ok(())
        }
        None => Ok(()),
    }
}

/// The kind of a PCD, or its first fault.
#[tactic(auto, unfolding(crate::specs::Faults::checked_kind))]
pub(crate) fn checked_kind(
    alloc: Global,
    pcd: &[u8],
    uses: &[UseLine<'_>],
    lines: &[StatedLine<'_>],
) -> Result<Option<Kind>, Refusal>
    ensures { Answers result
        (checked_kind pcd.now (map use_view uses.now) (map stated_view lines.now)) }
{
    pcd_faults(alloc, pcd, uses, lines)?;
    Ok(kind_of(uses, lines))
}
