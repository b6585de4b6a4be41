//! Which INF files are wanted next.
ghost use Rattle.std.specs.Prelude.{◌≡◌, true, IfOk};
ghost use Rattle.std.specs.Option.{option_copied};
ghost use Rattle.library_choice.specs.Closure.{known, is_known, own_lines, wanted};
ghost use Rattle.library_choice.specs.Rounds.{Falls};

use crate::search::InstanceSearch;
use build_base::{Path, Rows, Same, WantOfMemory};
use doc_types::choice::Module;
use doc_types::components::Components;
use doc_types::module::InfDoc;
use doc_types::platform::{LibraryLine, PlatformDoc};
use shared_value::Shared;
use std::alloc::Global;

/// The lines of [LibraryClasses] in the braces of a module's own component.
#[tactic(auto, unfolding(crate::specs::Closure::own_lines))]
pub(crate) fn own_lines<'a>(user: &Module, components: &'a Components) -> &'a [LibraryLine]
    ensures { result.now ≡ own_lines user.now components.now }
{
    match components.find(&user.inf, user.arch) {
        Some(component) => component.libraries.items(),
        None => &[],
    }
}

/// The INF file of a path, where it is known.
#[tactic(auto, unfolding(crate::specs::Closure::known))]
pub fn inf_of_path<'a>(infs: &'a [Shared<InfDoc>], path: &Path) -> Option<&'a InfDoc>
    ensures { option_copied result ≡ known infs.now path.now }
{
    for inf in infs {
        if inf.value().at.path == *path {
            return Some(inf.value());
        }
    }
    None
}

/// Whether an INF file is known.
#[tactic(auto, unfolding(crate::specs::Closure::is_known))]
pub fn is_known(infs: &Rows<Shared<InfDoc>>, path: &Path) -> bool
    ensures { result ≡ is_known infs.now path.now }
{
    inf_of_path(infs.items(), path).is_some()
}

/// The INF files that the choice for a module needs next: those of the instances found so far that
/// aren't among `infs`, in first-found order. None are wanted of a library, where all are known,
/// and where more than 1,024 instances are found.
pub fn next_wanted(
    alloc: Global,
    module: &Module,
    platform: &PlatformDoc,
    infs: &Rows<Shared<InfDoc>>,
) -> Result<Rows<Path>, WantOfMemory>
    requires known { is_known infs.now «module».now.inf ≡ true }
    ensures wanted { IfOk result (λ w. w ≡ wanted «module».now platform.now infs.now) }
    ensures falls { Falls «module».now platform.now infs.now }
{
    let search = InstanceSearch::new(alloc, module, platform, infs.copy(alloc)?)?;
    let (wanted, _search) = search.wanted_infs(alloc)?;
    Ok(wanted)
}
