//! The choice for a module.
ghost use Rattle.std.specs.Prelude.{◌≡◌, [], true, OnOk, Some, codes};
ghost use Rattle.std.specs.List.{filter_map};
ghost use Rattle.build_base.specs.Answer.{Answers, Finds as Faulty};
ghost use Rattle.build_base.specs.FaultText.{fault_of};
ghost use Rattle.build_base.specs.First.{or_fault};
ghost use Rattle.library_choice.specs.Choices.{choice_of, classes_fault, choice_of_found, empty_choice, choice};
ghost use Rattle.library_choice.specs.Closure.{same_path, is_known, instance_of, next, nulls, wanted};
ghost use Rattle.library_choice.specs.Fronts.{AreFronts};
ghost use Rattle.library_choice.specs.Laws.{IsLawful, AreLawful};
ghost use Rattle.library_choice.specs.Reaching.{IsWhole};
ghost use Rattle.library_choice.specs.Search.{Finds};
ghost use Rattle.build_base.specs.FaultCodes.{TOO_MANY_INSTANCES};

use crate::callers::callers;
use crate::found::Found;
use crate::front::{Fronts, instances_behind};
use crate::reach::reach;
use crate::search::InstanceSearch;
use crate::serving::check_all;
use crate::tables::Tables;
use build_base::fault_codes::TOO_MANY_INSTANCES;
use build_base::{Path, Permit, Place, Refusal, Rows, Same, WantOfMemory, refuse};
use doc_types::choice::{Choice, Module};
use doc_types::module::InfDoc;
use doc_types::platform::PlatformDoc;
use library_calls::choice_by;
use shared_value::Shared;
use std::alloc::Global;

#[tactic(auto, unfolding(crate::specs::Choices::choice_of))]
fn choice_of(alloc: Global, tables: &Tables<'_>, found: &Found) -> Result<Choice, Refusal>
    requires whole { IsWhole tables.now found.now }
    ensures { Answers result (choice_of tables.now found.now) }
{
    let callers = callers(alloc, tables, found.items())?;
    let rows = reach(alloc, tables, found, callers.items())?;
    let paths = found.paths(alloc)?;
    choice_by(alloc, paths, callers.items(), rows.items())
}

fn checked_choice(
    alloc: Global,
    tables: &Tables<'_>,
    inf: &InfDoc,
    found: &Found,
) -> Result<Choice, Refusal>
    requires whole { IsWhole tables.now found.now }
    ensures { Answers result
        (or_fault (classes_fault tables.now inf.now found.now) (choice_of tables.now found.now)) }
{
    check_all(alloc, tables, inf, found.items())?;
    choice_of(alloc, tables, found)
}

// The same, with what is known of the instances.
fn lawful_choice(
    alloc: Global,
    tables: &Tables<'_>,
    inf: &InfDoc,
    found: &Found,
) -> Result<Choice, Refusal>
    requires { Finds same_path (next tables.now)
        (filter_map (instance_of tables.now) inf.now.classes) (nulls tables.now) (Some found.now) }
    ensures value { Answers result
        (or_fault (classes_fault tables.now inf.now found.now) (choice_of tables.now found.now)) }
    ensures laws { OnOk result (IsLawful tables.now inf.now) }
{
    let choice = checked_choice(alloc, tables, inf, found)?;
    Ok(choice)
}

// More than 1,024 instances.
fn too_many(alloc: Global, inf: &Path) -> Refusal
    ensures { Faulty result
        (Some (fault_of TOO_MANY_INSTANCES (record { path = inf.now; line = 0 }) (codes "1025"))) }
{
    match inf.copy(alloc) {
        Ok(path) => refuse(
            alloc,
            TOO_MANY_INSTANCES,
            &Place { path, line: 0 },
            b"1025".as_slice(),
        ),
        Err(_) => Refusal::WantOfMemory,
    }
}

/// The choice for a module, of whose instances so much is found.
pub(crate) fn choice_of_found(
    alloc: Global,
    user: &Module,
    tables: &Tables<'_>,
    inf: &InfDoc,
    fronts: Fronts,
) -> Result<Choice, Refusal>
    requires { AreFronts tables.now inf.now fronts }
    ensures value { Answers result (choice_of_found user.now tables.now inf.now) }
    ensures laws { OnOk result (IsLawful tables.now inf.now) }
{
    match instances_behind(alloc, tables, fronts)? {
        Some(found) => lawful_choice(alloc, tables, inf, &found),
        None => Err(too_many(alloc, &user.inf)),
    }
}

/// The choice for a library.
pub(crate) fn empty_choice(alloc: Global) -> Choice
    ensures { result ≡ empty_choice }
{
    Choice {
        library: true,
        instances: Rows::new(alloc),
        constructors: Rows::new(alloc),
        destructors: Rows::new(alloc),
    }
}

/// The library instances of a module in first-found order, and what they have called (EDK II Build
/// specification). A library chooses nothing. Faults 301 to 305.
pub fn choose(
    alloc: Global,
    permit: Permit,
    module: &Module,
    platform: &PlatformDoc,
    infs: &Rows<Shared<InfDoc>>,
) -> Result<Choice, Refusal>
    requires known { is_known infs.now «module».now.inf ≡ true }
    requires closed { wanted «module».now platform.now infs.now ≡ [] }
    ensures value { Answers result (choice «module».now platform.now infs.now) }
    ensures laws { OnOk result (AreLawful «module».now platform.now infs.now) }
{
    let search = InstanceSearch::new(alloc, module, platform, infs.copy(alloc)?)?;
    search.choose(alloc, permit)
}
