//! What reading and compiling have to do with each other.
ghost use Rattle.depex_code.specs.Law.{ReadsBack};

use build_base::Rows;
use doc_types::depex::DepexGroup;
use doc_types::module_type::ModuleType;

/// A law, without a computation: what `read_back` gives of the bytes that `compile` gives is the
/// tree that was compiled.
#[tactic(auto, using(crate::proofs::LawLemmas::reads_back))]
pub fn compiled_reads_back(module_type: ModuleType, groups: &Rows<DepexGroup>)
    ensures { ReadsBack module_type groups.now }
{}
