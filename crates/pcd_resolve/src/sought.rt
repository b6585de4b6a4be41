//! The lines that give the PCDs of a platform's modules their types and their tokens. Modules are
//! look at one by one, each by tables of its own that are let go again, and only as long as a
//! line isn't found.
ghost use Rattle.std.specs.Prelude.{◌≡◌, [], true, Some, fold, map, option_copied, IfOk};
ghost use Rattle.std.specs.List.{All, list_any};
ghost use Rattle.build_base.specs.First.{or_else};
ghost use Rattle.doc_types.specs.declared.asks.PlatformAsk.{PlatformAsk as Ask};
ghost use Rattle.pcd_resolve.specs.Groups.{Grouped};
ghost use Rattle.pcd_ranks.specs.Listing.{stated_in, uses_in};
ghost use Rattle.pcd_resolve.specs.NameFilter.{is_kept, with_marks};
ghost use Rattle.pcd_resolve.specs.Platform.{declaration_among};
ghost use Rattle.pcd_resolve.specs.Sought.{new_search, found, front_if, is_open, look, look_each, of_some, open_names, sought_view, widen};
ghost use Rattle.pcd_resolve.specs.Tables.{IsTabled, stated_name, use_name};
ghost use Rattle.pcd_ranks.specs.Views.{stated_view, use_view};

use crate::groups::group;
use crate::kinds::{first_of_kind, head_of, kind_of};
use crate::name_filter::{mark, no_marks};
use crate::packages::{ModuleTables, declared_in, tables_of};
use build_base::WantOfMemory;
use doc_types::asks::PlatformAsk;
use doc_types::package::DecPcd;
use doc_types::parts::ModuleParts;
use doc_types::pcd::Kind;
use indexmap::IndexMap;
use pcd_ranks::listing::{StatedLine, UseLine};
use std::alloc::Global;

/// A PCD of modules: its kind, and of the lines by which the modules' packages declare it the first
/// one of the kind and the first one.
#[derive(Clone, Copy)]
pub(crate) struct DeclarationSearch<'n, 'a> {
    pub name: &'n Vec<u8>,
    pub kind: Option<Kind>,
    pub line: Option<&'a DecPcd>,
    pub first: Option<&'a DecPcd>,
}

fn of_some<'a>(kind: Option<Kind>, lines: &[&'a DecPcd]) -> Option<&'a DecPcd>
    ensures { option_copied result ≡ of_some kind (map (λ l. l.now) lines.now) }
{
    match kind {
        Some(kind) => first_of_kind(kind, lines),
        None => None,
    }
}

fn or_else<'a>(first: Option<&'a DecPcd>, second: Option<&'a DecPcd>) -> Option<&'a DecPcd>
    ensures { option_copied result ≡ or_else (option_copied first.entry)
        (option_copied second.entry) }
{
    match first {
        Some(line) => Some(line),
        None => second,
    }
}

/// The line that gives a PCD its type and its token.
#[tactic(auto, using(crate::proofs::SoughtLemmas::declared_among))]
pub fn declaration<'a>(kind: Kind, one: &DeclarationSearch<'_, 'a>) -> Option<&'a DecPcd>
    ensures { (ask : Ask) → one.now.kind ≡ Some kind
        → sought_view one.now ≡ found ask one.now.name.now.items
        → option_copied result ≡ declaration_among kind one.now.name.now.items ask.modules }
{
    or_else(one.line, one.first)
}

// Whether one of the lines isn't found yet.
fn is_open(one: &DeclarationSearch<'_, '_>) -> bool
    ensures { result ≡ is_open (sought_view one.now) }
{
    match one.line {
        None => true,
        Some(_) => match one.first {
            None => true,
            Some(_) => false,
        },
    }
}

fn any_open(all: &[DeclarationSearch<'_, '_>]) -> bool
    ensures { result ≡ list_any is_open (map sought_view all.now) }
{
    for one in all {
        if is_open(one) {
            return true;
        }
    }
    false
}

fn mark_open(marks: &mut Vec<bool>, one: &DeclarationSearch<'_, '_>)
    ensures { marks.new.items ≡ with_marks marks.old.items
        (front_if (is_open (sought_view one.now)) (sought_view one.now).name []) }
{
    if is_open(one) {
        mark(marks, one.name.as_slice());
    }
}

fn mark_all_open(marks: &mut Vec<bool>, all: &[DeclarationSearch<'_, '_>])
    ensures { marks.new.items ≡ with_marks marks.old.items (open_names (map sought_view all.now)) }
{
    let mut left = all;
    while let [one, rest @ ..] = left {
        mark_open(marks, one);
        left = rest;
    }
}

fn open_marks(alloc: Global, all: &[DeclarationSearch<'_, '_>]) -> Result<Vec<bool>, WantOfMemory>
    ensures { IfOk result
        (λ marks. All (λ s. is_open (sought_view s) ≡ true
        → is_kept marks.items s.name.now.items ≡ true) all.now) }
{
    let mut marks = no_marks(alloc)?;
    mark_all_open(&mut marks, all);
    Ok(marks)
}

fn widen<'n, 'a>(one: &DeclarationSearch<'n, 'a>, lines: &[&'a DecPcd]) -> DeclarationSearch<'n, 'a>
    ensures { sought_view result ≡ widen (sought_view one.now) (map (λ l. l.now) lines.now) }
{
    let line = or_else(one.line, of_some(one.kind, lines));
    let first = or_else(one.first, head_of(lines));
    DeclarationSearch {
        name: one.name,
        kind: one.kind,
        line,
        first,
    }
}

fn look<'n, 'a>(
    alloc: Global,
    tables: &ModuleTables<'a>,
    one: &DeclarationSearch<'n, 'a>,
) -> Result<DeclarationSearch<'n, 'a>, WantOfMemory>
    requires tabled { IsTabled tables.now }
    requires kept { is_open (sought_view one.now) ≡ true
        → is_kept tables.now.marks.items one.now.name.now.items ≡ true }
    ensures { IfOk result (λ s. sought_view s ≡ look tables.now.parts.now (sought_view one.now)) }
{
    if !is_open(one) {
        return Ok(*one);
    }
    let lines = declared_in(alloc, tables, one.name)?;
    Ok(widen(one, lines.as_slice()))
}

fn look_by_tables<'n, 'a>(
    alloc: Global,
    tables: &ModuleTables<'a>,
    all: &[DeclarationSearch<'n, 'a>],
) -> Result<Vec<DeclarationSearch<'n, 'a>>, WantOfMemory>
    requires tabled { IsTabled tables.now }
    requires kept { All (λ s. is_open (sought_view s) ≡ true
        → is_kept tables.now.marks.items s.name.now.items ≡ true) all.now }
    ensures { IfOk result (λ v. map sought_view v.items
        ≡ map (look tables.now.parts.now) (map sought_view all.now)) }
{
    let mut more = Vec::new(alloc);
    for one in all {
        let s = look(alloc, tables, one)?;
        if more.push(s).is_err() {
            return Err(WantOfMemory);
        }
    }
    Ok(more)
}

fn look_in<'n, 'a>(
    alloc: Global,
    parts: &'a ModuleParts,
    all: &[DeclarationSearch<'n, 'a>],
) -> Result<Vec<DeclarationSearch<'n, 'a>>, WantOfMemory>
    ensures { IfOk result (λ v. map sought_view v.items
        ≡ look_each (map sought_view all.now) parts.now) }
{
    let marks = open_marks(alloc, all)?;
    let tables = tables_of(alloc, parts, marks)?;
    look_by_tables(alloc, &tables, all)
}

// The same, where nothing may be left to look for.
fn look_further<'n, 'a>(
    alloc: Global,
    parts: &'a ModuleParts,
    all: Vec<DeclarationSearch<'n, 'a>>,
) -> Result<Vec<DeclarationSearch<'n, 'a>>, WantOfMemory>
    ensures { IfOk result (λ v. map sought_view v.items
        ≡ look_each (map sought_view all.entry.items) parts.now) }
{
    if !any_open(all.as_slice()) {
        return Ok(all);
    }
    look_in(alloc, parts, all.as_slice())
}

// The same of some modules, one by one.
fn look_among<'n, 'a>(
    alloc: Global,
    modules: &'a [ModuleParts],
    start: Vec<DeclarationSearch<'n, 'a>>,
) -> Result<Vec<DeclarationSearch<'n, 'a>>, WantOfMemory>
    ensures { IfOk result (λ v. map sought_view v.items
        ≡ fold look_each (map sought_view start.entry.items) modules.now) }
{
    let mut all = start;
    let mut left = modules;
    while let [parts, rest @ ..] = left {
        all = look_further(alloc, parts, all)?;
        left = rest;
    }
    Ok(all)
}

fn new_search<'n, 'a>(
    ask: &'a PlatformAsk,
    name: &'n Vec<u8>,
    uses: &IndexMap<Vec<u8>, Vec<UseLine<'a>>>,
    lines: &IndexMap<Vec<u8>, Vec<StatedLine<'a>>>,
) -> DeclarationSearch<'n, 'a>
    requires uses { Grouped use_view use_name (uses_in ask.now.modules) uses.now }
    requires lines { Grouped stated_view stated_name (stated_in ask.now.platform) lines.now }
    ensures { sought_view result ≡ new_search ask.now name.now.items }
{
    let kind = kind_of(group(uses, name), group(lines, name));
    DeclarationSearch {
        name,
        kind,
        line: None,
        first: None,
    }
}

fn new_searches<'n, 'a>(
    alloc: Global,
    ask: &'a PlatformAsk,
    names: &'n [Vec<u8>],
    uses: &IndexMap<Vec<u8>, Vec<UseLine<'a>>>,
    lines: &IndexMap<Vec<u8>, Vec<StatedLine<'a>>>,
) -> Result<Vec<DeclarationSearch<'n, 'a>>, WantOfMemory>
    requires uses { Grouped use_view use_name (uses_in ask.now.modules) uses.now }
    requires lines { Grouped stated_view stated_name (stated_in ask.now.platform) lines.now }
    ensures { IfOk result (λ v. map sought_view v.items
        ≡ map (new_search ask.now) (map (λ n. n.items) names.now)) }
{
    let mut all = Vec::new(alloc);
    for name in names {
        let one = new_search(ask, name, uses, lines);
        if all.push(one).is_err() {
            return Err(WantOfMemory);
        }
    }
    Ok(all)
}

/// The PCDs of these names, each with what is found of it in all modules.
pub(crate) fn sought_of<'n, 'a>(
    alloc: Global,
    ask: &'a PlatformAsk,
    names: &'n [Vec<u8>],
    uses: &IndexMap<Vec<u8>, Vec<UseLine<'a>>>,
    lines: &IndexMap<Vec<u8>, Vec<StatedLine<'a>>>,
) -> Result<Vec<DeclarationSearch<'n, 'a>>, WantOfMemory>
    requires uses { Grouped use_view use_name (uses_in ask.now.modules) uses.now }
    requires lines { Grouped stated_view stated_name (stated_in ask.now.platform) lines.now }
    ensures names { IfOk result (λ v. map (λ s. s.name.now.items) v.items
        ≡ map (λ n. n.items) names.now) }
    ensures found { IfOk result
        (λ v. All (λ s. sought_view s ≡ found ask.now s.name.now.items) v.items) }
{
    let start = new_searches(alloc, ask, names, uses, lines)?;
    let all = look_among(alloc, ask.modules.items(), start)?;
    Ok(all)
}
