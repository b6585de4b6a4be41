//! Calls of what finds the architecture and the rule of the modules that a flash description names.

use crate::reading::{flash_at, platform_at};
use case_player::{Output, Page, Stop, Wrong, first_word};
use doc_types::flash::FlashDoc;
use doc_types::module_type::{ModuleType, module_type_named};
use doc_types::platform::PlatformDoc;
use doc_types::volume::{InfLine, Item};
use flash_document::{inf_arch, rule_of};

// The architecture of a statement's module, and the number of its rule.
fn tell_module(
    page: &mut Page,
    platform: &PlatformDoc,
    flash: &FlashDoc,
    line: &InfLine,
    module_type: ModuleType,
) -> Result<(), Stop> {
    let alloc = page.alloc();
    let arch = inf_arch(alloc, line, platform, &platform.arches)?;
    let number = rule_of(alloc, flash, line, arch, module_type)?;
    page.put(b"module");
    page.name(&arch);
    page.number(number as u64);
    page.end();
    Ok(())
}

fn tell_items(
    page: &mut Page,
    platform: &PlatformDoc,
    flash: &FlashDoc,
    items: &[Item],
    module_type: ModuleType,
) -> Result<(), Stop> {
    for item in items {
        if let Item::Inf(line) = item {
            tell_module(page, platform, flash, line, module_type)?;
        }
    }
    Ok(())
}

fn tell_volumes(
    page: &mut Page,
    platform: &PlatformDoc,
    flash: &FlashDoc,
    module_type: ModuleType,
) -> Result<(), Stop> {
    for volume in flash.volumes.items() {
        tell_items(page, platform, flash, volume.items.items(), module_type)?;
    }
    Ok(())
}

/// The architecture of each module of the volumes, and the number of its rule, up to the first that
/// has none, for the words `TYPE PLATFORM FLASH`.
pub(crate) fn call_modules(page: &mut Page, files: &[Output], words: &str) -> Result<(), Stop> {
    let alloc = page.alloc();
    let (module_type, rest) = first_word(words);
    let (root, flash) = first_word(rest);
    let Some(module_type) = module_type_named(module_type.as_bytes()) else {
        return Err(Stop::Wrong(Wrong::Line("no type of modules has this name")));
    };
    let platform = platform_at(alloc, files, root)?;
    let flash = flash_at(alloc, files, flash)?;
    tell_volumes(page, &platform, &flash, module_type)
}
