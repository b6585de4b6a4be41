//! Laws of the names of faults.
ghost use Rattle.std.specs.Prelude.{◌≡◌, ℕ, Err, List};
ghost use Rattle.build_base.specs.declared.fault.Fault.{Fault};
ghost use Rattle.build_base.specs.declared.lines.Lines.{Lines};
ghost use Rattle.build_base.specs.declared.lines.Macro.{Macro};
ghost use Rattle.build_base.specs.declared.outside.Got.{Got};
ghost use Rattle.macro_conditions.specs.Expansion.{bad, expansion, need};
ghost use Rattle.macro_conditions.specs.Worlds.{told};
ghost use Rattle.dec_docs.specs.Package.{package_of};
ghost use Rattle.inf_docs.specs.Modules.{module_of};
ghost use Rattle.named_faults.specs.Named.{FailsByName, HasName};

/// Where the answers for all files are known, a document's lines want none. Where they have a
/// fault, its code has a name.
#[tactic(auto, using(crate::proofs::ExpansionFaults::nothing_wanted, crate::proofs::ExpansionFaults::fault_named))]
pub fn line_faults_have_names()
    ensures wanted { (world : List ℕ → Got) (root : List ℕ) (macros fixed : List Macro)
        (path : List ℕ) → expansion (told world) root macros fixed ≡ Err (need path) → ⊥ }
    ensures named { (world : List ℕ → Got) (root : List ℕ) (macros fixed : List Macro)
        (fault : Fault) → expansion (told world) root macros fixed ≡ Err (bad fault)
        → HasName fault }
{}

/// Where the lines of a package make no document, the code of their fault has a name.
#[tactic(auto, using(crate::proofs::PackageFaults::package_fails))]
pub fn package_faults_have_names()
    ensures { (lines : Lines) → FailsByName (package_of lines) }
{}

/// Where the lines of a module make no document, the code of their fault has a name.
#[tactic(auto, using(crate::proofs::ModuleFaults::module_fails))]
pub fn module_faults_have_names()
    ensures { (lines : Lines) → FailsByName (module_of lines) }
{}
