//! The lines below the heads of a platform's description.
ghost use Rattle.std.specs.Prelude.{ℕ, List};
ghost use Rattle.build_base.specs.Answer.{Answers};
ghost use Rattle.doc_reading.specs.Gathering.{unless_faulty};
ghost use Rattle.dsc_lines.specs.Lines.{line_faults, line_row};
ghost use Rattle.dsc_lines.specs.SkuNames.{Placed};

use crate::component_line::component_line;
use crate::key_line::key_line;
use crate::library_line::library_line;
use crate::open_mark::Open;
use crate::pcd_line::pcd_line;
use crate::rows::DscRow;
use crate::section::Scope;
use crate::sku_line::sku_line;
use build_base::{Refusal, Taken};
use indexmap::IndexMap;
use std::alloc::Global;

/// What a line says below a head, under the names of the SKUs above it and what is open there.
#[tactic(auto, unfolding(crate::specs::Lines::line_faults, crate::specs::Lines::line_row))]
pub fn line_row(
    alloc: Global,
    line: &Taken,
    names: &IndexMap<Vec<u8>, usize>,
    standing: Open,
    scope: &Scope,
) -> Result<Option<DscRow>, Refusal>
    ensures { (above : List (List ℕ)) → Placed above names.now
        → Answers result
        (unless_faulty (line_faults above standing line.now scope.now)
        (line_row standing line.now scope.now)) }
{
    match scope {
        Scope::Defines => key_line(alloc, line),
        Scope::SkuIds => {
            let sku = sku_line(alloc, line, names)?;
            Ok(sku.map(|sku| DscRow::Sku(sku)))
        }
        Scope::Libraries(arch, kind) => {
            let library = library_line(alloc, line, *arch, *kind)?;
            Ok(library.map(|library| DscRow::Library(library)))
        }
        Scope::Components(arch) => {
            let part = component_line(alloc, line, *arch, standing)?;
            Ok(part.map(|part| DscRow::Part(part)))
        }
        Scope::Pcds(pcds) => {
            let pcd = pcd_line(
                alloc,
                line,
                pcds.kind,
                pcds.store,
                pcds.arch,
                pcds.sku.bytes(),
            )?;
            Ok(pcd.map(|pcd| DscRow::Pcd(pcd)))
        }
    }
}
