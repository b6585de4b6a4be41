//! The format of a module's description, and what its lines come to.
ghost use Rattle.std.specs.Prelude.{◌∷◌, ◌++◌, [], List, OnOk};
ghost use Rattle.build_base.specs.Answer.{Answers};
ghost use Rattle.doc_reading.specs.Gathering.{unless_faulty};
ghost use Rattle.doc_reading.specs.Grammar.{Read, gave};
ghost use Rattle.inf_docs.specs.Rows.{line_faults, line_row};
ghost use Rattle.inf_docs.specs.Reading.{Holds};
ghost use Rattle.inf_docs.specs.declared.row.Row.{Row as Said};
ghost use Rattle.inf_docs.specs.declared.section.Scope.{Scope as Entered};

use crate::depex::{OpenSection, add_terms, opened_section, push_parts, terms_line};
use crate::key_line::key_line;
use crate::names::{name_line, package_line};
use crate::pcd_line::pcd_line;
use crate::row::Row;
use crate::section::{Scope, SectionKind, head_meaning};
use crate::tables::ModuleTables;
use build_base::fault_codes::INF_UNKNOWN_SECTION;
use build_base::{Place, Refusal, Rows, Taken, WantOfMemory};
use doc_reading::Format;
use doc_reading::meaning::enter_as;
use doc_types::depex::DepexPart;
use meta_lexer::head::Head;
use std::alloc::Global;
use std::mem;

/// The format of a module's description, and what its reader holds: what the rows come to, the
/// section at hand, and the parts of the sections above.
#[derive(Drop)]
pub(crate) struct ModuleFormat {
    pub alloc: Global,
    pub tables: ModuleTables,
    pub section: Option<OpenSection>,
    pub parts: Rows<DepexPart>,
}

impl ModuleFormat {
    /// No lines yet.
    #[tactic(auto, using(crate::proofs::TableLemmas::rows_none))]
    pub fn new(alloc: Global) -> ModuleFormat
        ensures { Holds [] result }
    {
        ModuleFormat {
            alloc,
            tables: ModuleTables::new(alloc),
            section: None,
            parts: Rows::new(alloc),
        }
    }
}

// What a line says below a head.
#[tactic(auto, unfolding(crate::specs::Rows::line_faults, crate::specs::Rows::line_row))]
fn line_row(alloc: Global, line: &Taken, scope: Scope) -> Result<Option<Row>, Refusal>
    ensures { Answers result
        (unless_faulty (line_faults line.now scope) (line_row line.now scope)) }
{
    match scope.kind {
        SectionKind::Defines => key_line(alloc, line),
        SectionKind::Packages => package_line(alloc, line, scope.arch),
        SectionKind::Classes => {
            let named = name_line(alloc, line, scope.arch)?;
            Ok(Some(Row::Class(named)))
        }
        SectionKind::GuidNames => {
            let named = name_line(alloc, line, scope.arch)?;
            Ok(Some(Row::GuidName(named)))
        }
        SectionKind::Pcds(asked) => {
            let used = pcd_line(alloc, line, scope.arch, asked)?;
            Ok(used.map(|used| Row::Pcd(used)))
        }
        SectionKind::Depex => {
            let terms = terms_line(alloc, line)?;
            Ok(Some(Row::Terms(terms)))
        }
    }
}

impl Format for ModuleFormat {
    ghost use Rattle.inf_docs.specs.Modules.{inf_grammar};

    type Scope = Scope;

    type Row = Row;

    ghost grammar = { inf_grammar };

    ghost holds = { Holds };

    fn stray_code(&self) -> u16 {
        INF_UNKNOWN_SECTION
    }

    fn enter(&self, line: &Taken, head: &Head) -> Result<Option<Scope>, Refusal> {
        enter_as(
            self.alloc,
            INF_UNKNOWN_SECTION,
            line,
            head,
            head_meaning(head),
        )
    }

    fn read_line(&self, line: &Taken, scope: &Scope) -> Result<Option<Row>, Refusal> {
        line_row(self.alloc, line, *scope)
    }

    fn check_heads(&self, _line: &Taken, _heads: &[Head]) -> Result<(), Refusal> {
        Ok(())
    }

    fn check_open(&self, _line: &Taken) -> Result<(), Refusal> {
        Ok(())
    }

    // Ends the section at hand.
    fn begin(&mut self, at: &Place, scopes: &[Scope]) -> Result<(), WantOfMemory> {
        let ended = mem::replace(&mut self.section, None);
        push_parts(self.alloc, &mut self.parts, ended)?;
        self.section = Some(opened_section(self.alloc, at, scopes)?);
        Ok(())
    }

    fn add_rows(&mut self, rows: Vec<Row>) -> Result<(), WantOfMemory>
        ensures { (above : List (Read Entered Said)) → Holds above self.old →
            OnOk result (Holds (above ++ gave rows.items ∷ []) self.new) }
    {
        add_terms(self.alloc, &mut self.section, rows.as_slice())?;
        self.tables.take(rows)?;
        Ok(())
    }
}
