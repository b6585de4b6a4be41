//! What the rows come to.
ghost use Rattle.std.specs.Prelude.{◌≡◌, ◌∷◌, [], OnOk};
ghost use Rattle.inf_docs.specs.Modules.{no_tables, with_rows};

use crate::row::Row;
use build_base::{Guid, Rows, Text, WantOfMemory};
use doc_types::module::{Named, Served, UsedPcd};
use doc_types::module_type::ModuleType;
use std::alloc::Global;

/// The last value of each key that holds once, and the lists.
#[derive(Drop)]
pub struct ModuleTables {
    pub base_name: Option<Text>,
    pub file_guid: Option<Guid>,
    pub kind: Option<ModuleType>,
    pub version: Option<Text>,
    pub entry_points: Rows<Named>,
    pub constructors: Rows<Named>,
    pub destructors: Rows<Named>,
    pub serves: Rows<Served>,
    pub packages: Rows<Named>,
    pub classes: Rows<Named>,
    pub guids: Rows<Named>,
    pub pcds: Rows<UsedPcd>,
}

impl ModuleTables {
    /// No rows yet.
    pub fn new(alloc: Global) -> ModuleTables
        ensures { result ≡ no_tables }
    {
        ModuleTables {
            base_name: None,
            file_guid: None,
            kind: None,
            version: None,
            entry_points: Rows::new(alloc),
            constructors: Rows::new(alloc),
            destructors: Rows::new(alloc),
            serves: Rows::new(alloc),
            packages: Rows::new(alloc),
            classes: Rows::new(alloc),
            guids: Rows::new(alloc),
            pcds: Rows::new(alloc),
        }
    }

    #[tactic(auto, unfolding(crate::specs::Modules::with_rows))]
    fn push(&mut self, row: Row) -> Result<(), WantOfMemory>
        ensures { OnOk result (self.new ≡ with_rows self.old (row ∷ [])) }
    {
        match row {
            Row::BaseName(name) => self.base_name = Some(name),
            Row::FileGuid(guid) => self.file_guid = Some(guid),
            Row::Kind(kind) => self.kind = Some(kind),
            Row::Version(text) => self.version = Some(text),
            Row::EntryPoint(named) => self.entry_points.push(named)?,
            Row::Constructor(named) => self.constructors.push(named)?,
            Row::Destructor(named) => self.destructors.push(named)?,
            Row::Serves(served) => self.serves.push(served)?,
            Row::Package(named) => self.packages.push(named)?,
            Row::Class(named) => self.classes.push(named)?,
            Row::GuidName(named) => self.guids.push(named)?,
            Row::Pcd(used) => self.pcds.push(used)?,
            Row::Terms(_terms) => {}
        }
        Ok(())
    }

    /// Takes the rows of a line.
    #[tactic(auto, using(crate::proofs::TableLemmas::rows_join, crate::proofs::TableLemmas::rows_none))]
    pub fn take(&mut self, rows: Vec<Row>) -> Result<(), WantOfMemory>
        ensures { OnOk result (self.new ≡ with_rows self.old rows.items) }
    {
        for row in rows {
            self.push(row)?;
        }
        Ok(())
    }
}
