//! The values of a platform's dynamic PCDs.
ghost use Rattle.std.specs.Prelude.{◌≡◌, Some, map, filter, IfOk};
ghost use Rattle.std.specs.List.{All, list_any};
ghost use Rattle.build_base.specs.Answer.{Answers, Checks};
ghost use Rattle.pcd_values.specs.Skus.{WalkEnds};
ghost use Rattle.pcd_resolve.specs.Groups.{Grouped};
ghost use Rattle.pcd_ranks.specs.Listing.{stated_in, uses_in};
ghost use Rattle.pcd_ranks.specs.Names.{covers};
ghost use Rattle.pcd_resolve.specs.Platform.{SkusEnd, chosen, counts, is_chosen, platform_sets, platform_values, rows_at, rows_by, wanted, words_fault};
ghost use Rattle.pcd_resolve.specs.PlatformTables.{HoldsPlatform};
ghost use Rattle.pcd_resolve.specs.Rows.{all_rows, names_of};
ghost use Rattle.pcd_resolve.specs.SkuTables.{AreTables};
ghost use Rattle.pcd_resolve.specs.Sought.{found, sought_view};
ghost use Rattle.pcd_resolve.specs.Tables.{set_name, use_name};
ghost use Rattle.pcd_ranks.specs.Views.{stated_view, use_view};

use crate::dynamic::dynamic_rows;
use crate::faults::pcd_faults;
use crate::groups::group;
use crate::resolve::append;
use crate::sku_tables::{SkuTables, tables_of};
use crate::skus::{chosen_skus, is_all, skus_known};
use crate::sorted::names_of_modules;
use crate::sought::{DeclarationSearch, declaration, sought_of};
use crate::tables::{all_lines, all_sets};
use crate::used::all_uses_by_name;
use build_base::{Permit, Refusal, Rows, Text, WantOfMemory};
use doc_types::arch::{Arch, covers};
use doc_types::asks::PlatformAsk;
use doc_types::pcd::{Kind, PcdSet};
use doc_types::pcd_lines::PcdLines;
use doc_types::platform::Sku;
use doc_types::values::{PcdRow, Values};
use indexmap::IndexMap;
use meta_lexer::parts::field_texts;
use pcd_ranks::listing::{StatedLine, UseLine};
use pcd_ranks::names::{is_common, is_dynamic};
use std::alloc::Global;

/// A platform, with the tables of its SKUs, the chosen ones of these, and by the names of PCDs what
/// uses, states and sets them.
#[derive(Clone, Copy)]
pub(crate) struct PlatformTables<'t, 'a> {
    pub ask: &'a PlatformAsk,
    pub skus: &'t SkuTables,
    pub picked: &'t [&'a Sku],
    pub uses: &'t IndexMap<Vec<u8>, Vec<UseLine<'a>>>,
    pub lines: &'t IndexMap<Vec<u8>, Vec<StatedLine<'a>>>,
    pub sets: &'t IndexMap<Vec<u8>, Vec<&'a PcdSet>>,
}

fn serves_one(line: Arch, arches: &[Arch]) -> bool
    ensures { result ≡ list_any (λ arch. covers line arch) arches.now }
{
    for arch in arches {
        if covers(line, *arch) {
            return true;
        }
    }
    false
}

#[tactic(auto, unfolding(crate::specs::Platform::counts))]
fn counts(arches: &[Arch], stated: &StatedLine<'_>) -> bool
    ensures { result ≡ counts arches.now (stated_view stated.now) }
{
    match stated.home {
        Some(_) => false,
        None => {
            if is_common(stated.line.arch) {
                return true;
            }
            serves_one(stated.line.arch, arches)
        }
    }
}

/// The lines that count for the built architectures.
pub(crate) fn counting_lines<'a>(
    alloc: Global,
    arches: &[Arch],
    lines: &[StatedLine<'a>],
) -> Result<Vec<StatedLine<'a>>, WantOfMemory>
    ensures { IfOk result (λ v. map stated_view v.items
        ≡ filter (counts arches.now) (map stated_view lines.now)) }
{
    let mut found = Vec::new(alloc);
    for stated in lines {
        if counts(arches, stated) {
            if found.push(*stated).is_err() {
                return Err(WantOfMemory);
            }
        }
    }
    Ok(found)
}

fn rows_by<'a>(
    alloc: Global,
    tables: &PlatformTables<'_, 'a>,
    sought: &DeclarationSearch<'_, 'a>,
    lines: &[StatedLine<'a>],
    sets: &[&'a PcdSet],
    kind: Kind,
) -> Result<Rows<PcdRow>, Refusal>
    requires tables { HoldsPlatform tables.now }
    requires sought { sought_view sought.now
        ≡ found tables.now.ask.now sought.now.name.now.items }
    requires kind { sought.now.kind ≡ Some kind }
    ensures { Answers result
        (rows_by tables.now.ask.now sought.now.name.now.items (map stated_view lines.now)
        (map (λ s. s.now) sets.now) (Some kind)) }
{
    if !is_dynamic(kind) {
        return Ok(Rows::new(alloc));
    }
    let Some(line) = declaration(kind, sought) else {
        return Ok(Rows::new(alloc));
    };
    let lines = counting_lines(alloc, tables.ask.arches.items(), lines)?;
    dynamic_rows(
        alloc,
        kind,
        line,
        lines.as_slice(),
        sets,
        &tables.ask.platform.value().skus,
        tables.skus,
        tables.picked,
    )
}

#[tactic(auto, unfolding(crate::specs::Platform::rows_at, crate::specs::Faults::checked_kind))]
fn rows_at<'a>(
    alloc: Global,
    tables: &PlatformTables<'_, 'a>,
    sought: &DeclarationSearch<'_, 'a>,
) -> Result<Rows<PcdRow>, Refusal>
    requires tables { HoldsPlatform tables.now }
    requires sought { sought_view sought.now
        ≡ found tables.now.ask.now sought.now.name.now.items }
    ensures { Answers result
        (rows_at tables.now.ask.now (uses_in tables.now.ask.now.modules)
        (stated_in tables.now.ask.now.platform) sought.now.name.now.items) }
{
    let pcd = sought.name;
    let lines = group(tables.lines, pcd);
    pcd_faults(alloc, pcd.as_slice(), group(tables.uses, pcd), lines)?;
    match sought.kind {
        Some(kind) => rows_by(alloc, tables, sought, lines, group(tables.sets, pcd), kind),
        None => Ok(Rows::new(alloc)),
    }
}

fn all_rows<'a>(
    alloc: Global,
    tables: &PlatformTables<'_, 'a>,
    all: &[DeclarationSearch<'_, 'a>],
) -> Result<Rows<PcdRow>, Refusal>
    requires tables { HoldsPlatform tables.now }
    requires sought { All (λ s. sought_view s ≡ found tables.now.ask.now s.name.now.items)
        all.now }
    ensures { Answers result
        (all_rows
        (map (rows_at tables.now.ask.now (uses_in tables.now.ask.now.modules)
        (stated_in tables.now.ask.now.platform))
        (map (λ s. s.name.now.items) all.now))) }
{
    let mut rows = Rows::new(alloc);
    for sought in all {
        let more = rows_at(alloc, tables, sought)?;
        append(alloc, &mut rows, more.items())?;
    }
    Ok(rows)
}

fn sets_of_ask<'a>(
    alloc: Global,
    ask: &'a PlatformAsk,
) -> Result<IndexMap<Vec<u8>, Vec<&'a PcdSet>>, WantOfMemory>
    ensures { IfOk result (λ table. Grouped (λ s. s.now) set_name (platform_sets ask.now) table) }
{
    all_sets(alloc, ask.commands.items(), &ask.flash.value().sets)
}

fn chosen_by<'a>(
    alloc: Global,
    words: &[Text],
    choice: &[u8],
    skus: &'a [Sku],
) -> Result<Vec<&'a Sku>, WantOfMemory>
    ensures { IfOk result (λ v. map (λ s. s.now) v.items
        ≡ filter (is_chosen (wanted words.now choice.now)) skus.now) }
{
    match words {
        [] => {
            let names = field_texts(alloc, choice)?;
            chosen_skus(alloc, names.items(), skus)
        }
        [_, ..] => chosen_skus(alloc, words, skus),
    }
}

#[tactic(auto, unfolding(crate::specs::Platform::chosen))]
fn chosen_of<'a>(alloc: Global, ask: &'a PlatformAsk) -> Result<Vec<&'a Sku>, WantOfMemory>
    ensures { IfOk result (λ v. map (λ s. s.now) v.items ≡ chosen ask.now) }
{
    chosen_by(
        alloc,
        ask.skus.items(),
        ask.platform.value().sku_choice.bytes(),
        ask.platform.value().skus.items(),
    )
}

// The rows of the PCDs of these names.
fn rows_by_tables<'a>(
    alloc: Global,
    tables: &PlatformTables<'_, 'a>,
    names: &[Vec<u8>],
) -> Result<Rows<PcdRow>, Refusal>
    requires { HoldsPlatform tables.now }
    ensures { Answers result
        (all_rows
        (map (rows_at tables.now.ask.now (uses_in tables.now.ask.now.modules)
        (stated_in tables.now.ask.now.platform))
        (map (λ n. n.items) names.now))) }
{
    let all = sought_of(alloc, tables.ask, names, tables.uses, tables.lines)?;
    all_rows(alloc, tables, all.as_slice())
}

// The same, by the tables of the uses, of the platform's lines and of what is set.
fn rows_by_uses<'a>(
    alloc: Global,
    ask: &'a PlatformAsk,
    names: &[Vec<u8>],
    skus: &SkuTables,
    picked: &[&'a Sku],
    uses: &IndexMap<Vec<u8>, Vec<UseLine<'a>>>,
) -> Result<Rows<PcdRow>, Refusal>
    requires skus { AreTables ask.now.platform.skus skus.now }
    requires picked { map (λ s. s.now) picked.now ≡ chosen ask.now }
    requires walks { All (λ s. WalkEnds ask.now.platform.skus s.now.name) picked.now }
    requires uses { Grouped use_view use_name (uses_in ask.now.modules) uses.now }
    ensures { Answers result
        (all_rows (map (rows_at ask.now (uses_in ask.now.modules) (stated_in ask.now.platform))
        (map (λ n. n.items) names.now))) }
{
    let lines = all_lines(alloc, ask.platform.value())?;
    let sets = sets_of_ask(alloc, ask)?;
    let tables = PlatformTables {
        ask,
        skus,
        picked,
        uses,
        lines: &lines,
        sets: &sets,
    };
    rows_by_tables(alloc, &tables, names)
}

// The rows of the PCDs that modules use.
fn rows_of_modules<'a>(
    alloc: Global,
    ask: &'a PlatformAsk,
    skus: &SkuTables,
    picked: &[&'a Sku],
) -> Result<Rows<PcdRow>, Refusal>
    requires skus { AreTables ask.now.platform.skus skus.now }
    requires picked { map (λ s. s.now) picked.now ≡ chosen ask.now }
    requires walks { All (λ s. WalkEnds ask.now.platform.skus s.now.name) picked.now }
    ensures { Answers result
        (all_rows (map (rows_at ask.now (uses_in ask.now.modules) (stated_in ask.now.platform))
        (names_of (uses_in ask.now.modules)))) }
{
    let names = names_of_modules(alloc, ask.modules.items())?;
    let uses = all_uses_by_name(alloc, ask.modules.items())?;
    rows_by_uses(alloc, ask, names.as_slice(), skus, picked, &uses)
}

fn values_of(alloc: Global, ask: &PlatformAsk) -> Result<Rows<PcdRow>, Refusal>
    requires { SkusEnd ask.now.platform.skus }
    ensures { Answers result
        (all_rows (map (rows_at ask.now (uses_in ask.now.modules) (stated_in ask.now.platform))
        (names_of (uses_in ask.now.modules)))) }
{
    let skus = tables_of(alloc, ask.platform.value().skus.items())?;
    let picked = chosen_of(alloc, ask)?;
    rows_of_modules(alloc, ask, &skus, picked.as_slice())
}

#[tactic(auto, unfolding(crate::specs::Platform::words_fault))]
fn words_known(alloc: Global, ask: &PlatformAsk) -> Result<(), Refusal>
    ensures { Checks result (words_fault ask.now) }
{
    if is_all(ask.skus.items()) {
        return Ok(());
    }
    skus_known(alloc, ask.platform.value(), ask.skus.items())
}

/// The values of a platform's dynamic PCDs, PCD by PCD in the order of their names, for each chosen
/// SKU. Or the first fault: SkuUnknown of the words, and then PCD by PCD those of `resolve_module`,
/// for every PCD that a module uses; those of values come for dynamic PCDs alone.
#[tactic(auto, unfolding(crate::specs::Platform::platform_values))]
pub fn resolve_platform(alloc: Global, permit: Permit, ask: &PlatformAsk) -> Result<Values, Refusal>
    requires { SkusEnd ask.now.platform.skus }
    ensures { Answers result (platform_values ask.now) }
{
    let _spent = permit;
    words_known(alloc, ask)?;
    let rows = PcdLines::of(alloc, values_of(alloc, ask)?)?;
    Ok(Values { rows })
}
