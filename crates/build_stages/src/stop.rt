//! Why a key gives no outcome yet, or none at all.
use build_base::{Fault, Permit, Refusal, Rows, WantOfMemory};
use step_engine::Ask;

/// Why a step stops before its end.
#[derive(Drop)]
pub enum Stop<K> {
    /// Answers are wanted, and the permit goes back.
    Wants(Rows<Ask<K>>, Permit),
    /// The step's outcome is a fault.
    Fails(Fault),
    /// An answer is one that no world gives.
    ImpossibleAnswer,
    WantOfMemory,
}

impl<K> From<WantOfMemory> for Stop<K> {
    ghost use Rattle.std.specs.Prelude.{◌≡◌};
    ghost use Rattle.build_stages.specs.declared.stop.Stop.TheVariants.{WantOfMemory as Wanting};

    ghost from_gives = { λ _ e. e ≡ Wanting };

    fn from(_: WantOfMemory) -> Stop<K> {
        Stop::WantOfMemory
    }
}

impl<K> From<Refusal> for Stop<K> {
    ghost use Rattle.std.specs.Prelude.{◌≡◌};
    ghost use Rattle.build_stages.specs.Gives.{stop_by};

    ghost from_gives = { λ refusal stop. stop ≡ stop_by refusal };

    fn from(refusal: Refusal) -> Stop<K> {
        match refusal {
            Refusal::Bad(fault) => Stop::Fails(fault),
            Refusal::WantOfMemory => Stop::WantOfMemory,
        }
    }
}
