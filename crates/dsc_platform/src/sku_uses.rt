//! The check that each SKU that is named is one of [SkuIds].
ghost use Rattle.std.specs.Prelude.{◌≡◌, ◌++◌, ◌∷◌, [], ◌&&◌, if◌then◌else◌, ℕ, List, Option, None, OnOk, IfOk};
ghost use Rattle.std.specs.List.{flat_map};
ghost use Rattle.build_base.specs.Answer.{Checks};
ghost use Rattle.build_base.specs.First.{or_else};
ghost use Rattle.build_base.specs.declared.fault.Fault.{Fault as Found};
ghost use Rattle.meta_lexer.specs.Faults.{first_fault};
ghost use Rattle.dsc_lines.specs.SkuNames.{Placed};
ghost use Rattle.dsc_platform.specs.SkuUses.{head_uses, parent_uses, row_uses, is_known, unknown, chosen_unknown, use_fault, uses_fault};

use build_base::fault_codes::SKU_UNKNOWN;
use build_base::together::two;
use build_base::{Place, Refusal, Rows, Text, WantOfMemory, refuse};
use dsc_lines::rows::{DscRow, KeyValue};
use dsc_lines::section::Scope;
use dsc_lines::sku_line::is_default;
use dsc_lines::sku_names::place_of;
use indexmap::IndexMap;
use meta_lexer::parts::field_texts;
use meta_lexer::words::same_word;
use std::alloc::Global;

/// A place that names a SKU, or, where it is SKUID_IDENTIFIER, the SKUs that are chosen.
#[derive(Drop)]
pub(crate) struct SkuUse {
    pub at: Place,
    pub text: Text,
    pub chosen: bool,
}

fn push_use(
    alloc: Global,
    uses: &mut Rows<SkuUse>,
    at: &Place,
    text: &Text,
    chosen: bool,
) -> Result<(), WantOfMemory>
    ensures { OnOk result (uses.new ≡ uses.old
        ++ record { at = at.now; text = text.now; chosen = chosen } ∷ []) }
{
    let (at, text) = two(at, text, alloc)?;
    uses.push(SkuUse { at, text, chosen })?;
    Ok(())
}

fn push_head(
    alloc: Global,
    uses: &mut Rows<SkuUse>,
    at: &Place,
    scope: &Scope,
) -> Result<(), WantOfMemory>
    ensures { OnOk result (uses.new ≡ uses.old ++ head_uses at.now scope.now) }
{
    match scope {
        Scope::Pcds(pcds) => push_use(alloc, uses, at, &pcds.sku, false),
        Scope::Defines | Scope::SkuIds | Scope::Libraries(_, _) | Scope::Components(_) => Ok(()),
    }
}

/// Takes the SKUs that heads name.
pub(crate) fn push_heads(
    alloc: Global,
    uses: &mut Rows<SkuUse>,
    at: &Place,
    scopes: &[Scope],
) -> Result<(), WantOfMemory>
    ensures { OnOk result (uses.new ≡ uses.old ++ flat_map (head_uses at.now) scopes.now) }
{
    for scope in scopes {
        push_head(alloc, uses, at, scope)?;
    }
    Ok(())
}

fn push_parent(
    alloc: Global,
    uses: &mut Rows<SkuUse>,
    at: &Place,
    name: &Text,
    parent: &Text,
) -> Result<(), WantOfMemory>
    ensures { OnOk result (uses.new ≡ uses.old ++ parent_uses at.now name.now parent.now) }
{
    if is_default(name.bytes()) {
        return Ok(());
    }
    push_use(alloc, uses, at, parent, false)
}

fn push_row(alloc: Global, uses: &mut Rows<SkuUse>, row: &DscRow) -> Result<(), WantOfMemory>
    ensures { OnOk result (uses.new ≡ uses.old ++ row_uses row.now) }
{
    match row {
        DscRow::Sku(line) => push_parent(alloc, uses, &line.at, &line.sku.name, &line.sku.parent),
        DscRow::Key(KeyValue::SkuChoice(at, choice)) => push_use(alloc, uses, at, choice, true),
        DscRow::Key(_) | DscRow::Library(_) | DscRow::Pcd(_) | DscRow::Part(_) => Ok(()),
    }
}

/// Takes the SKUs that the rows of a line name.
pub(crate) fn push_rows(
    alloc: Global,
    uses: &mut Rows<SkuUse>,
    rows: &[DscRow],
) -> Result<(), WantOfMemory>
    ensures { OnOk result (uses.new ≡ uses.old ++ flat_map row_uses rows.now) }
{
    for row in rows {
        push_row(alloc, uses, row)?;
    }
    Ok(())
}

fn is_known(
    alloc: Global,
    names: &IndexMap<Vec<u8>, usize>,
    name: &[u8],
) -> Result<bool, WantOfMemory>
    ensures { (ns : List (List ℕ)) → Placed ns names.now
        → IfOk result (λ known. known ≡ is_known ns name.now) }
{
    if is_default(name) {
        return Ok(true);
    }
    match place_of(alloc, names, name)? {
        Some(_) => Ok(true),
        None => Ok(false),
    }
}

fn check_name(
    alloc: Global,
    names: &IndexMap<Vec<u8>, usize>,
    at: &Place,
    name: &[u8],
) -> Result<(), Refusal>
    ensures { (ns : List (List ℕ)) → Placed ns names.now
        → Checks result (unknown at.now ns name.now) }
{
    let known = is_known(alloc, names, name)?;
    if known {
        return Ok(());
    }
    Err(refuse(alloc, SKU_UNKNOWN, at, name))
}

fn check_names(
    alloc: Global,
    names: &IndexMap<Vec<u8>, usize>,
    at: &Place,
    fields: &[Text],
) -> Result<(), Refusal>
    ensures { (ns : List (List ℕ)) → Placed ns names.now
        → Checks result (first_fault (unknown at.now ns) fields.now) }
{
    for field in fields {
        if let Err(refusal) = check_name(alloc, names, at, field.bytes()) {
            return Err(refusal);
        }
    }
    Ok(())
}

fn check_choice(
    alloc: Global,
    names: &IndexMap<Vec<u8>, usize>,
    at: &Place,
    text: &[u8],
) -> Result<(), Refusal>
    ensures { (ns : List (List ℕ)) → Placed ns names.now
        → Checks result (chosen_unknown at.now ns text.now) }
{
    if same_word(text, b"ALL".as_slice()) {
        return Ok(());
    }
    let fields = field_texts(alloc, text)?;
    check_names(alloc, names, at, fields.items())
}

fn check_use(alloc: Global, names: &IndexMap<Vec<u8>, usize>, sku: &SkuUse) -> Result<(), Refusal>
    ensures { (ns : List (List ℕ)) → Placed ns names.now → Checks result (use_fault ns sku.now) }
{
    if sku.chosen {
        return check_choice(alloc, names, &sku.at, sku.text.bytes());
    }
    check_name(alloc, names, &sku.at, sku.text.bytes())
}

// What a check finds, else what was found before.
fn found_first(check: Result<(), Refusal>, found: Result<(), Refusal>) -> Result<(), Refusal>
    ensures { (first second : Option Found) → Checks check first → Checks found second
        → Checks result (or_else first second) }
{
    match check {
        Ok(()) => found,
        Err(refusal) => Err(refusal),
    }
}

fn check_standing(
    alloc: Global,
    names: &IndexMap<Vec<u8>, usize>,
    sku: &SkuUse,
    overridden: bool,
) -> Result<(), Refusal>
    ensures { (ns : List (List ℕ)) → Placed ns names.now
        → Checks result (if sku.now.chosen && overridden then None else use_fault ns sku.now) }
{
    if sku.chosen && overridden {
        return Ok(());
    }
    check_use(alloc, names, sku)
}

/// Refuses the first name that is no SKU's. It goes from the last to the first, since the last
/// SKUID_IDENTIFIER counts alone.
pub(crate) fn check_uses(
    alloc: Global,
    names: &IndexMap<Vec<u8>, usize>,
    uses: &[SkuUse],
) -> Result<(), Refusal>
    ensures { (ns : List (List ℕ)) → Placed ns names.now → Checks result (uses_fault ns uses.now) }
{
    let mut found = Ok(());
    let mut chosen = false;
    let mut left = uses.len();
    while left > 0 {
        left -= 1;
        let sku = &uses[left];
        found = found_first(check_standing(alloc, names, sku, chosen), found);
        chosen = sku.chosen || chosen;
    }
    found
}
