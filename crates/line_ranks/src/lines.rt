//! Which lines hold for a module.
ghost use Rattle.std.specs.Prelude.{◌≡◌};
ghost use Rattle.line_ranks.specs.Lines.{same_type, type_covers, applies, is_common, section_rank, rank};

use crate::user::Consumer;
use doc_types::arch::{Arch, covers};
use doc_types::module_type::ModuleType;
use doc_types::platform::LibraryLine;

/// Whether two types are one.
#[tactic(auto, unfolding(crate::specs::Lines::same_type))]
pub fn same_type(stated: ModuleType, own: ModuleType) -> bool
    ensures { result ≡ same_type stated own }
{
    match (stated, own) {
        (ModuleType::Base, ModuleType::Base) => true,
        (ModuleType::Sec, ModuleType::Sec) => true,
        (ModuleType::PeiCore, ModuleType::PeiCore) => true,
        (ModuleType::Peim, ModuleType::Peim) => true,
        (ModuleType::DxeCore, ModuleType::DxeCore) => true,
        (ModuleType::DxeDriver, ModuleType::DxeDriver) => true,
        (ModuleType::DxeRuntimeDriver, ModuleType::DxeRuntimeDriver) => true,
        (ModuleType::DxeSalDriver, ModuleType::DxeSalDriver) => true,
        (ModuleType::DxeSmmDriver, ModuleType::DxeSmmDriver) => true,
        (ModuleType::SmmCore, ModuleType::SmmCore) => true,
        (ModuleType::MmStandalone, ModuleType::MmStandalone) => true,
        (ModuleType::MmCoreStandalone, ModuleType::MmCoreStandalone) => true,
        (ModuleType::UefiDriver, ModuleType::UefiDriver) => true,
        (ModuleType::UefiApplication, ModuleType::UefiApplication) => true,
        (ModuleType::UserDefined, ModuleType::UserDefined) => true,
        (ModuleType::HostApplication, ModuleType::HostApplication) => true,
        _ => false,
    }
}

/// Whether what is stated for a type of module, or for all, holds for one.
pub fn type_covers(stated: Option<ModuleType>, own: ModuleType) -> bool
    ensures { result ≡ type_covers stated own }
{
    match stated {
        None => true,
        Some(stated) => same_type(stated, own),
    }
}

/// Whether a line holds for a module's architecture and type.
#[tactic(auto, unfolding(crate::specs::Lines::applies))]
pub fn applies(user: Consumer, line: &LibraryLine) -> bool
    ensures { result ≡ applies user line.now }
{
    covers(line.arch, user.arch) && type_covers(line.kind, user.kind)
}

fn is_common(arch: Arch) -> bool
    ensures { result ≡ is_common arch }
{
    matches!(arch, Arch::Common)
}

#[tactic(auto, unfolding(crate::specs::Lines::section_rank))]
fn section_rank(line: &LibraryLine) -> u8
    ensures { result ≡ section_rank line.now }
{
    if line.kind.is_some() {
        if is_common(line.arch) { 3 } else { 4 }
    } else if is_common(line.arch) {
        1
    } else {
        2
    }
}

/// How much a line counts: 5 in the module's own braces, 4 to 1 in a section, 0 where it doesn't
/// hold.
#[tactic(auto, unfolding(crate::specs::Lines::rank))]
pub fn rank(user: Consumer, own: bool, line: &LibraryLine) -> u8
    ensures { result ≡ rank user own line.now }
{
    if !applies(user, line) {
        return 0;
    }
    if own { 5 } else { section_rank(line) }
}
