//! A law of the names of faults.
ghost use Rattle.std.specs.Prelude.{◌≡◌, Err, Result};
ghost use Rattle.build_base.specs.declared.fault.Fault.{Fault as FaultOf};
ghost use Rattle.named_faults.specs.Named.{HasName, FailsByName};

/// The fault of an outcome that fails by a name has that name.
#[tactic(auto, using(crate::proofs::NamedLemmas::name_of_fault))]
pub fn outcomes_have_names<T>()
    ensures { (r : Result T FaultOf) (fault : FaultOf) → FailsByName r → r ≡ Err fault
        → HasName fault }
{}
