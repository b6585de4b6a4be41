//! The uses of PCDs by modules.
ghost use Rattle.std.specs.Prelude.{◌≡◌, ◌++◌, ◌∷◌, [], map, filter, IfOk, OnOk};
ghost use Rattle.std.specs.List.{flat_map};
ghost use Rattle.pcd_ranks.specs.Listing.{arch_of, use_of, uses_by, uses_of_module};
ghost use Rattle.pcd_ranks.specs.Names.{covers};
ghost use Rattle.pcd_ranks.specs.Views.{at_view};

use build_base::WantOfMemory;
use doc_types::arch::covers;
use doc_types::module::{InfDoc, UsedPcd};
use doc_types::parts::ModuleParts;
use pcd_ranks::listing::UseAt;
use shared_value::Shared;
use std::alloc::Global;

fn put_line<'a>(
    parts: &'a ModuleParts,
    inf: &'a InfDoc,
    line: &'a UsedPcd,
    uses: &mut Vec<UseAt<'a>>,
) -> Result<(), WantOfMemory>
    ensures { OnOk result (map (at_view parts.now) uses.new.items
        ≡ map (at_view parts.now) uses.old.items
        ++ map (use_of parts.now inf.now)
        (filter (λ l. covers l.arch (arch_of parts.now)) (line.now ∷ []))) }
{
    if covers(line.arch, parts.module.arch) {
        if uses.push(UseAt { inf, line }).is_err() {
            return Err(WantOfMemory);
        }
    }
    Ok(())
}

fn put_lines<'a>(
    parts: &'a ModuleParts,
    inf: &'a InfDoc,
    lines: &'a [UsedPcd],
    uses: &mut Vec<UseAt<'a>>,
) -> Result<(), WantOfMemory>
    ensures { OnOk result (map (at_view parts.now) uses.new.items
        ≡ map (at_view parts.now) uses.old.items
        ++ map (use_of parts.now inf.now)
        (filter (λ l. covers l.arch (arch_of parts.now)) lines.now)) }
{
    for line in lines {
        put_line(parts, inf, line, uses)?;
    }
    Ok(())
}

#[tactic(auto, unfolding(pcd_ranks::specs::Listing::uses_by))]
fn put_inf<'a>(
    parts: &'a ModuleParts,
    inf: &'a InfDoc,
    uses: &mut Vec<UseAt<'a>>,
) -> Result<(), WantOfMemory>
    ensures { OnOk result (map (at_view parts.now) uses.new.items
        ≡ map (at_view parts.now) uses.old.items ++ uses_by parts.now inf.now) }
{
    put_lines(parts, inf, inf.pcds.items(), uses)?;
    Ok(())
}

fn put_infs<'a>(
    parts: &'a ModuleParts,
    infs: &'a [Shared<InfDoc>],
    uses: &mut Vec<UseAt<'a>>,
) -> Result<(), WantOfMemory>
    ensures { OnOk result (map (at_view parts.now) uses.new.items
        ≡ map (at_view parts.now) uses.old.items ++ flat_map (uses_by parts.now) infs.now) }
{
    for inf in infs {
        put_inf(parts, inf.value(), uses)?;
    }
    Ok(())
}

/// The lines of a module's INFs that name a PCD for its architecture, INF by INF.
#[tactic(auto, unfolding(pcd_ranks::specs::Listing::uses_of_module))]
pub fn uses_of_module<'a>(
    alloc: Global,
    parts: &'a ModuleParts,
) -> Result<Vec<UseAt<'a>>, WantOfMemory>
    ensures { IfOk result (λ v. map (at_view parts.now) v.items ≡ uses_of_module parts.now) }
{
    let mut uses = Vec::new(alloc);
    put_infs(parts, parts.infs.items(), &mut uses)?;
    Ok(uses)
}
