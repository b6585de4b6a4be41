//! The rows of a platform's dynamic PCDs, and of each module.

ghost use Rattle.pcd_resolve.specs.Platform.{SkusEnd};

use crate::asking::ask_of;
use crate::parsing::value;
use build_base::together::three;
use build_base::{Book, Rows, Same, WantOfMemory};
use case_calls_documents::rows::pcd;
use case_calls_texts::checked_copy;
use case_player::{Output, Page, Stop};
use doc_types::asks::{ModuleAsk, PlatformAsk};
use doc_types::parts::ModuleParts;
use doc_types::pcd_lines::PcdLines;
use doc_types::values::{PcdRow, Values};
use pcd_resolve::{resolve_module, resolve_platform};
use shared_value::Shared;
use std::alloc::Global;

fn tell_row(page: &mut Page, row: &PcdRow) -> Result<(), Stop> {
    page.put(b"pcd");
    pcd(page, &row.pcd);
    page.name(&row.kind);
    page.name(&row.datum);
    page.number(u64::from(row.token));
    page.number(u64::from(row.max));
    page.number(u64::from(row.rank));
    page.word(row.sku.bytes());
    value(page, row.datum, row.value.bytes())?;
    page.end();
    Ok(())
}

fn tell_values(page: &mut Page, values: &Values) -> Result<(), Stop> {
    for row in values.rows.items() {
        tell_row(page, row)?;
    }
    Ok(())
}

/// The values of a platform's dynamic PCDs.
pub fn values_of(alloc: Global, ask: &PlatformAsk) -> Result<Values, Stop>
    requires { SkusEnd ask.now.platform.skus }
{
    let mut book = Book::new(alloc);
    Ok(resolve_platform(alloc, book.grant(())?, ask)?)
}

/// The rows of a platform's dynamic PCDs, or the first fault.
pub(crate) fn call_resolve_platform(
    page: &mut Page,
    files: &[Output],
    path: &str,
) -> Result<(), Stop> {
    let alloc = page.alloc();
    let ask = ask_of(alloc, files, path)?;
    let values = values_of(alloc, &ask)?;
    tell_values(page, &checked_copy(alloc, &values)?)
}

// The rows of the dynamic PCDs; none where one is at fault.
fn dynamic_of(alloc: Global, ask: &PlatformAsk) -> Result<Values, Stop>
    requires { SkusEnd ask.now.platform.skus }
{
    match values_of(alloc, ask) {
        Err(Stop::Bad(_fault)) => Ok(Values {
            rows: PcdLines::of(alloc, Rows::new(alloc))?,
        }),
        values => values,
    }
}

fn shared_dynamic(alloc: Global, ask: &PlatformAsk) -> Result<Shared<Values>, Stop>
    requires { SkusEnd ask.now.platform.skus }
{
    Ok(Shared::new(alloc, dynamic_of(alloc, ask)?)?)
}

fn asked_of(
    alloc: Global,
    ask: &PlatformAsk,
    parts: &ModuleParts,
    dynamic: &Shared<Values>,
) -> Result<ModuleAsk, WantOfMemory> {
    let (platform, flash, commands) = three(&ask.platform, &ask.flash, &ask.commands, alloc)?;
    let parts = parts.copy(alloc)?;
    let dynamic = dynamic.copy(alloc)?;
    Ok(ModuleAsk {
        platform,
        flash,
        commands,
        parts,
        dynamic,
    })
}

// What is asked of one of the platform's modules.
fn module_ask(
    alloc: Global,
    ask: &PlatformAsk,
    parts: &ModuleParts,
    dynamic: &Shared<Values>,
) -> Result<ModuleAsk, Stop> {
    Ok(asked_of(alloc, ask, parts, dynamic)?)
}

fn module_values(alloc: Global, ask: &ModuleAsk) -> Result<Values, Stop> {
    let mut book = Book::new(alloc);
    Ok(resolve_module(alloc, book.grant(())?, ask)?)
}

fn tell_values_of(page: &mut Page, ask: &ModuleAsk) -> Result<(), Stop> {
    match module_values(page.alloc(), ask) {
        Ok(values) => tell_values(page, &values),
        Err(Stop::Bad(fault)) => {
            page.fault(&fault);
            Ok(())
        }
        Err(stop) => Err(stop),
    }
}

fn tell_module(page: &mut Page, ask: &ModuleAsk) -> Result<(), Stop> {
    let ask = checked_copy(page.alloc(), ask)?;
    page.put(b"module");
    page.word(ask.parts.module.inf.bytes());
    page.end();
    tell_values_of(page, &ask)
}

fn tell_modules(page: &mut Page, ask: &PlatformAsk, dynamic: &Shared<Values>) -> Result<(), Stop> {
    let alloc = page.alloc();
    for parts in ask.modules.items() {
        tell_module(page, &module_ask(alloc, ask, parts, dynamic)?)?;
    }
    Ok(())
}

/// The rows of each module, or its first fault.
pub(crate) fn call_resolve_module(
    page: &mut Page,
    files: &[Output],
    path: &str,
) -> Result<(), Stop> {
    let alloc = page.alloc();
    let ask = ask_of(alloc, files, path)?;
    let dynamic = shared_dynamic(alloc, &ask)?;
    tell_modules(page, &ask, &dynamic)
}
