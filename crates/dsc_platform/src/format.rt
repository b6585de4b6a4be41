//! The format of a platform's description.
ghost use Rattle.std.specs.Prelude.{◌≡◌, [], ◌∷◌, ◌++◌, List, OnOk};
ghost use Rattle.std.specs.List.{flat_map};
ghost use Rattle.build_base.specs.Answer.{Checks};
ghost use Rattle.dsc_lines.specs.declared.rows.Part.{Part as PartRow};
ghost use Rattle.dsc_platform.specs.Cutting.{begins, BlocksHeld};
ghost use Rattle.dsc_platform.specs.Holding.{Holds};
ghost use Rattle.dsc_lines.specs.Standing.{last_mark, said_marks};
ghost use Rattle.dsc_platform.specs.Platform.{open_fault};

use crate::components::{begins, push_block};
use crate::sku_uses::{SkuUse, push_heads, push_rows};
use crate::stated::{Stated, keep_rows};
use build_base::fault_codes::{BAD_COMPONENT, DSC_UNKNOWN_SECTION};
use build_base::{Place, Refusal, Rows, Taken, WantOfMemory, refuse};
use doc_reading::Format;
use doc_types::platform::Component;
use dsc_lines::lines::line_row;
use dsc_lines::open_mark::{Open, open_below};
use dsc_lines::rows::{DscRow, Part};
use dsc_lines::section::{Scope, enter_head};
use indexmap::IndexMap;
use meta_lexer::head::Head;
use std::alloc::Global;

/// What is kept of the lines above: what they state, what they left open, where each SKU stands,
/// the SKUs that they name, the components of all blocks but the last, and the parts of the last
/// one.
#[derive(Drop)]
pub(crate) struct DscFormat {
    pub alloc: Global,
    pub stated: Stated,
    pub standing: Open,
    pub names: IndexMap<Vec<u8>, usize>,
    pub uses: Rows<SkuUse>,
    pub done: Rows<Component>,
    pub first: Vec<Part>,
    pub rest: Vec<Part>,
}

impl DscFormat {
    /// No lines yet.
    pub fn new(alloc: Global) -> DscFormat
        ensures { Holds [] result }
    {
        DscFormat {
            alloc,
            stated: Stated::new(alloc),
            standing: Open::Shut,
            names: IndexMap::new(alloc),
            uses: Rows::new(alloc),
            done: Rows::new(alloc),
            first: Vec::new(alloc),
            rest: Vec::new(alloc),
        }
    }
}

fn standing_below(standing: Open, rows: &[DscRow]) -> Open
    ensures { result ≡ last_mark standing (flat_map said_marks rows.now) }
{
    let mut below = standing;
    for row in rows {
        below = open_below(below, row);
    }
    below
}

fn push_part(parts: &mut Vec<Part>, part: Part) -> Result<(), WantOfMemory>
    ensures { OnOk result (parts.new.items ≡ parts.old.items ++ part ∷ []) }
{
    match parts.push(part) {
        Ok(()) => Ok(()),
        Err(_) => Err(WantOfMemory),
    }
}

fn push_parts(parts: &mut Vec<Part>, more: Vec<Part>) -> Result<(), WantOfMemory>
    ensures { OnOk result (parts.new.items ≡ parts.old.items ++ more.items) }
{
    for part in more {
        push_part(parts, part)?;
    }
    Ok(())
}

fn check_standing(alloc: Global, line: &Taken, standing: Open) -> Result<(), Refusal>
    ensures { Checks result (open_fault line.now standing) }
{
    match standing {
        Open::Shut => Ok(()),
        Open::Untagged | Open::Tagged(_) => Err(refuse(
            alloc,
            BAD_COMPONENT,
            &line.at,
            b"{".as_slice(),
        )),
    }
}

// Takes the parts of a line into the last block, or begins one.
fn take_parts(
    alloc: Global,
    done: &mut Rows<Component>,
    first: &mut Vec<Part>,
    rest: &mut Vec<Part>,
    parts: Vec<Part>,
) -> Result<(), WantOfMemory>
    ensures { (lines : List (List PartRow))
        → BlocksHeld lines done.old first.old.items rest.old.items
        → OnOk result (BlocksHeld (lines ++ parts.items ∷ []) done.new first.new.items
        rest.new.items) }
{
    if begins(parts.as_slice()) {
        push_block(alloc, done, first.as_slice(), rest.as_slice())?;
        *first = parts;
        *rest = Vec::new(alloc);
        return Ok(());
    }
    push_parts(rest, parts)?;
    Ok(())
}

impl Format for DscFormat {
    ghost use Rattle.dsc_platform.specs.Platform.{dsc_grammar};
    ghost use Rattle.dsc_platform.specs.Holding.{Holds};
    ghost use Rattle.dsc_lines.specs.declared.rows.DscRow.{DscRow};
    ghost use Rattle.dsc_lines.specs.declared.section.Scope.{Scope};
    ghost use Rattle.doc_reading.specs.Grammar.{Read, gave};
    ghost use Rattle.std.specs.Prelude.{List, ◌++◌};

    type Scope = Scope;

    type Row = DscRow;

    ghost grammar = { dsc_grammar };

    ghost holds = { Holds };

    fn stray_code(&self) -> u16 {
        DSC_UNKNOWN_SECTION
    }

    fn enter(&self, line: &Taken, head: &Head) -> Result<Option<Scope>, Refusal> {
        enter_head(self.alloc, line, head)
    }

    fn read_line(&self, line: &Taken, scope: &Scope) -> Result<Option<DscRow>, Refusal> {
        line_row(self.alloc, line, &self.names, self.standing, scope)
    }

    fn check_heads(&self, line: &Taken, _heads: &[Head]) -> Result<(), Refusal> {
        check_standing(self.alloc, line, self.standing)
    }

    fn check_open(&self, line: &Taken) -> Result<(), Refusal> {
        check_standing(self.alloc, line, self.standing)
    }

    fn begin(&mut self, at: &Place, scopes: &[Scope]) -> Result<(), WantOfMemory> {
        push_heads(self.alloc, &mut self.uses, at, scopes)?;
        Ok(())
    }

    fn add_rows(&mut self, rows: Vec<DscRow>) -> Result<(), WantOfMemory>
        ensures { (above : List (Read Scope DscRow)) → Holds above self.old
            → OnOk result (Holds (above ++ gave rows.items ∷ []) self.new) }
    {
        self.standing = standing_below(self.standing, rows.as_slice());
        push_rows(self.alloc, &mut self.uses, rows.as_slice())?;
        let mut parts = Vec::new(self.alloc);
        keep_rows(
            self.alloc,
            &mut self.stated,
            &mut self.names,
            &mut parts,
            rows,
        )?;
        take_parts(
            self.alloc,
            &mut self.done,
            &mut self.first,
            &mut self.rest,
            parts,
        )?;
        Ok(())
    }
}
