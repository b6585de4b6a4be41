//! The instances of a module, found round by round.
ghost use Rattle.std.specs.Prelude.{◌≡◌, ◌++◌, [], true, false, Some, IfOk, OnOk};
ghost use Rattle.build_base.specs.Answer.{Answers};
ghost use Rattle.library_choice.specs.Choices.{choice};
ghost use Rattle.doc_types.specs.declared.module.InfDoc.{InfDoc as InfModel};
ghost use Rattle.library_choice.specs.Closure.{known, is_known, is_library, setting_of, wanted};
ghost use Rattle.library_choice.specs.Laws.{AreLawful};

use crate::choosing::{choice_of_found, empty_choice};
use crate::front::{Fronts, begin, wanted_behind};
use crate::known_infs::KnownInfs;
use crate::tables::Tables;
use crate::wanted::own_lines;
use build_base::{Path, Permit, Refusal, Rows, Same, WantOfMemory};
use doc_types::choice::{Choice, Module};
use doc_types::module::InfDoc;
use doc_types::platform::PlatformDoc;
use line_ranks::Consumer;
use shared_value::Shared;
use std::alloc::Global;
use std::marker::Model;

/// What is found of a module's instances. In a round each of the two queues goes on from its first
/// instance whose INF file the rounds before it didn't know.
pub struct InstanceSearch<'a> {
    user: &'a Module,
    platform: &'a PlatformDoc,
    inf: Shared<InfDoc>,
    tables: Tables<'a>,
    fronts: Fronts,
}

// Written out, so that a caller that lets a search go has one call here.
impl Drop for InstanceSearch<'_> {
    fn drop(self) {
        let InstanceSearch {
            user: _user,
            platform: _platform,
            inf: _inf,
            tables: _tables,
            fronts: _fronts,
        } = self;
    }
}

impl<'a> Model for InstanceSearch<'a> {
    ghost use Rattle.library_choice.specs.Searches.{Search, IsSearch};

    ghost Value = { Search };

    ghost view = { λ s.
        record { user = s.user.now; platform = s.platform.now; infs = s.tables.infs } };

    ghost invariant = { λ s. IsSearch s.user.now s.platform.now s.inf s.tables s.fronts };
}

// The INF file of a module, which is known.
#[tactic(auto, unfolding(crate::specs::Closure::is_known))]
fn own_inf(alloc: Global, user: &Module, infs: &KnownInfs) -> Result<Shared<InfDoc>, WantOfMemory>
    requires { is_known infs.now user.now.inf ≡ true }
    ensures { IfOk result (λ inf. known infs.now user.now.inf ≡ Some inf) }
{
    match infs.get(&user.inf) {
        Some(inf) => inf.copy(alloc),
        None => unreachable!(),
    }
}

#[tactic(auto, unfolding(crate::specs::Closure::setting_of))]
fn tables_for<'a>(
    alloc: Global,
    user: &Module,
    platform: &'a PlatformDoc,
    inf: &InfDoc,
    infs: KnownInfs,
) -> Result<Tables<'a>, WantOfMemory>
    ensures { IfOk result (λ t. t ≡ setting_of user.now platform.now infs inf.now) }
{
    let own = own_lines(user, &platform.components);
    let asking = Consumer {
        arch: user.arch,
        kind: inf.module_type,
    };
    Tables::new(alloc, asking, &platform.libraries, own, infs)
}

impl<'a> InstanceSearch<'a> {
    /// A search for a module's instances, of which these INF files are known.
    pub fn new(
        alloc: Global,
        user: &'a Module,
        platform: &'a PlatformDoc,
        infs: Rows<Shared<InfDoc>>,
    ) -> Result<InstanceSearch<'a>, WantOfMemory>
        requires { is_known infs user.now.inf ≡ true }
        ensures { IfOk result
            (λ s. s ≡ record { user = user.now; platform = platform.now; infs = infs }) }
    {
        let infs = KnownInfs::of(alloc, infs)?;
        let inf = own_inf(alloc, user, &infs)?;
        let tables = tables_for(alloc, user, platform, inf.value(), infs)?;
        let fronts = begin(alloc, &tables, inf.value())?;
        Ok(InstanceSearch {
            user,
            platform,
            inf,
            tables,
            fronts,
        })
    }

    fn is_library(&self) -> bool
        ensures { (inf : InfModel) → known self.now.infs self.now.user.inf ≡ Some inf → result ≡ is_library inf }
    {
        !self.inf.value().serves.items().is_empty()
    }

    // The INF files that are wanted next by a module that isn't a library.
    fn wanted_by_module(
        self,
        alloc: Global,
    ) -> Result<(Rows<Path>, InstanceSearch<'a>), WantOfMemory>
        requires { (inf : InfModel) → known self.infs self.user.inf ≡ Some inf → is_library inf ≡ false }
        ensures wanted { IfOk result
            (λ x. x.0 ≡ wanted self.entry.user self.entry.platform self.entry.infs) }
        ensures search { IfOk result (λ x. x.1 ≡ self.entry) }
    {
        let InstanceSearch {
            user,
            platform,
            inf,
            tables,
            fronts,
        } = self;
        let (wanted, fronts) = wanted_behind(alloc, &tables, fronts)?;
        let search = InstanceSearch {
            user,
            platform,
            inf,
            tables,
            fronts,
        };
        Ok((wanted, search))
    }

    /// The INF files that are wanted next, and the search that goes on behind them.
    #[tactic(auto, unfolding(crate::specs::Closure::wanted))]
    pub fn wanted_infs(
        self,
        alloc: Global,
    ) -> Result<(Rows<Path>, InstanceSearch<'a>), WantOfMemory>
        ensures wanted { IfOk result
            (λ x. x.0 ≡ wanted self.entry.user self.entry.platform self.entry.infs) }
        ensures search { IfOk result (λ x. x.1 ≡ self.entry) }
    {
        if self.is_library() {
            return Ok((Rows::new(alloc), self));
        }
        self.wanted_by_module(alloc)
    }

    /// The same with these INF files known behind the others.
    pub fn with_more(
        self,
        alloc: Global,
        more: &[Shared<InfDoc>],
    ) -> Result<InstanceSearch<'a>, WantOfMemory>
        ensures { IfOk result (λ s. s
            ≡ record self.entry { infs = self.entry.infs ++ more.now }) }
    {
        let InstanceSearch {
            user,
            platform,
            inf,
            tables,
            fronts,
        } = self;
        let tables = tables.with_more(alloc, more)?;
        Ok(InstanceSearch {
            user,
            platform,
            inf,
            tables,
            fronts,
        })
    }

    /// The library instances of the module in first-found order, and what they have called, once no
    /// INF file is wanted. A library chooses nothing. Faults 301 to 305.
    #[tactic(auto, unfolding(crate::specs::Choices::choice))]
    pub fn choose(self, alloc: Global, permit: Permit) -> Result<Choice, Refusal>
        requires closed { wanted self.user self.platform self.infs ≡ [] }
        ensures value { Answers result
            (choice self.entry.user self.entry.platform self.entry.infs) }
        ensures laws { OnOk result
            (AreLawful self.entry.user self.entry.platform self.entry.infs) }
    {
        let _ = permit;
        if self.is_library() {
            return Ok(empty_choice(alloc));
        }
        let InstanceSearch {
            user,
            platform: _platform,
            inf,
            tables,
            fronts,
        } = self;
        choice_of_found(alloc, user, &tables, inf.value(), fronts)
    }
}
