//! The INF files that are known, found by their paths.
ghost use Rattle.std.specs.Prelude.{◌≡◌, ◌∷◌, ◌++◌, [], List, length, IfOk, OnOk};
ghost use Rattle.std.specs.Option.{option_copied};
ghost use Rattle.doc_types.specs.declared.module.InfDoc.{InfDoc as InfModel};
ghost use Rattle.library_choice.specs.Closure.{known};
ghost use Rattle.library_choice.specs.Tables.{Infs};

use build_base::{Path, Rows, Same, WantOfMemory};
use doc_types::module::InfDoc;
use indexmap::IndexMap;
use shared_value::Shared;
use std::alloc::Global;
use std::marker::Model;

// Adds an INF file under its path, unless one above has it.
fn add_inf(
    alloc: Global,
    inf: &Shared<InfDoc>,
    by_path: &mut IndexMap<Path, Shared<InfDoc>>,
) -> Result<(), WantOfMemory>
    ensures { (above : List InfModel) → Infs above by_path.old
        → OnOk result (Infs (above ++ inf.now ∷ []) by_path.new) }
{
    let path = &inf.value().at.path;
    if by_path.contains_key(path) {
        return Ok(());
    }
    let (path, inf) = (path.copy(alloc)?, inf.copy(alloc)?);
    match by_path.insert(path, inf) {
        Ok(_) => Ok(()),
        Err(_) => Err(WantOfMemory),
    }
}

fn push_inf(
    alloc: Global,
    inf: &Shared<InfDoc>,
    list: &mut Rows<Shared<InfDoc>>,
) -> Result<(), WantOfMemory>
    ensures { OnOk result (list.new ≡ list.old ++ inf.now ∷ []) }
{
    list.push(inf.copy(alloc)?)
}

// Adds INF files behind those of a list, and to the table over it.
fn add_infs(
    alloc: Global,
    infs: &[Shared<InfDoc>],
    list: &mut Rows<Shared<InfDoc>>,
    by_path: &mut IndexMap<Path, Shared<InfDoc>>,
) -> Result<(), WantOfMemory>
    ensures list { OnOk result (list.new ≡ list.old ++ infs.now) }
    ensures table { Infs list.old by_path.old → OnOk result (Infs list.new by_path.new) }
{
    for inf in infs {
        add_inf(alloc, inf, by_path)?;
        push_inf(alloc, inf, list)?;
    }
    Ok(())
}

/// INF files that are known. Of one path the first counts.
pub(crate) struct KnownInfs {
    list: Rows<Shared<InfDoc>>,
    by_path: IndexMap<Path, Shared<InfDoc>>,
}

// Written out, so that a caller that lets them go has one call here.
impl Drop for KnownInfs {
    fn drop(self) {
        let KnownInfs {
            list: _list,
            by_path: _by_path,
        } = self;
    }
}

impl Model for KnownInfs {
    ghost use Rattle.std.specs.Prelude.{List};
    ghost use Rattle.doc_types.specs.declared.module.InfDoc.{InfDoc as InfModel};
    ghost use Rattle.library_choice.specs.Tables.{Infs};

    ghost Value = { List InfModel };

    ghost view = { λ t. t.list };

    ghost invariant = { λ t. Infs t.list t.by_path };
}

impl KnownInfs {
    /// These files.
    pub fn of(alloc: Global, list: Rows<Shared<InfDoc>>) -> Result<KnownInfs, WantOfMemory>
        ensures { IfOk result (λ t. t ≡ list) }
    {
        let none = KnownInfs {
            list: Rows::new(alloc),
            by_path: IndexMap::new(alloc),
        };
        none.with_more(alloc, list.items())
    }

    /// These files behind the others.
    pub fn with_more(
        self,
        alloc: Global,
        more: &[Shared<InfDoc>],
    ) -> Result<KnownInfs, WantOfMemory>
        ensures { IfOk result (λ t. t ≡ self ++ more.now) }
    {
        let KnownInfs { list, by_path } = self;
        let (mut list, mut by_path) = (list, by_path);
        add_infs(alloc, more, &mut list, &mut by_path)?;
        Ok(KnownInfs { list, by_path })
    }

    /// How many there are.
    pub fn len(&self) -> usize
        ensures { result ≡ length self.now }
    {
        self.list.items().len()
    }

    /// The INF file of a path, where it is known.
    pub fn get(&self, path: &Path) -> Option<&Shared<InfDoc>>
        ensures { option_copied result ≡ known self.now path.now }
    {
        self.by_path.get(path)
    }
}
