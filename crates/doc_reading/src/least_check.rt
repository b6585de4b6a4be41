//! The least of a line's faults.
ghost use Rattle.std.specs.Prelude.{Option, [], ◌∷◌};
ghost use Rattle.build_base.specs.Answer.{Checks, Finds};
ghost use Rattle.build_base.specs.declared.fault.Fault.{Fault as Found};
ghost use Rattle.doc_reading.specs.Least.{lesser, least_of};

use build_base::Refusal;

/// Of two refusals of one line that of the lesser code, of one code the first.
pub fn lesser_refusal(first: Refusal, second: Refusal) -> Refusal
    ensures { (fault other : Option Found) → Finds first fault → Finds second other →
        Finds result (lesser fault other) }
{
    match (first, second) {
        (Refusal::Bad(fault), Refusal::Bad(other)) => {
            if other.code < fault.code {
                Refusal::Bad(other)
            } else {
                Refusal::Bad(fault)
            }
        }
        _ => Refusal::WantOfMemory,
    }
}

/// The least of what a check found and of a refusal.
pub fn least_refusal(found: Result<(), Refusal>, refusal: Refusal) -> Refusal
    ensures { (fault other : Option Found) → Checks found fault → Finds refusal other →
        Finds result (lesser fault other) }
{
    match found {
        Ok(()) => refusal,
        Err(first) => lesser_refusal(first, refusal),
    }
}

/// The least of a refusal and of what a check found.
pub fn with_check(refusal: Refusal, check: Result<(), Refusal>) -> Refusal
    ensures { (fault other : Option Found) → Finds refusal fault → Checks check other →
        Finds result (lesser fault other) }
{
    match check {
        Ok(()) => refusal,
        Err(other) => lesser_refusal(refusal, other),
    }
}

/// The least of what a check and others find.
pub fn lesser_check(first: Result<(), Refusal>, rest: Result<(), Refusal>) -> Result<(), Refusal>
    ensures { (fault other : Option Found) → Checks first fault → Checks rest other →
        Checks result (lesser fault other) }
{
    match first {
        Ok(()) => rest,
        Err(refusal) => Err(with_check(refusal, rest)),
    }
}

/// What one check finds.
pub fn least_of_one(check: Result<(), Refusal>) -> Result<(), Refusal>
    ensures { (fault : Option Found) → Checks check fault → Checks result (least_of (fault ∷ [])) }
{
    lesser_check(check, Ok(()))
}

/// What two checks find: of their faults the one of the lesser code, of one code the first.
pub fn least_of_two(first: Result<(), Refusal>, second: Result<(), Refusal>) -> Result<(), Refusal>
    ensures { (a b : Option Found) → Checks first a → Checks second b →
        Checks result (least_of (a ∷ b ∷ [])) }
{
    lesser_check(first, least_of_one(second))
}

/// What three checks find.
pub fn least_of_three(
    first: Result<(), Refusal>,
    second: Result<(), Refusal>,
    third: Result<(), Refusal>,
) -> Result<(), Refusal>
    ensures { (a b c : Option Found) → Checks first a → Checks second b → Checks third c →
        Checks result (least_of (a ∷ b ∷ c ∷ [])) }
{
    lesser_check(first, least_of_two(second, third))
}

/// What four checks find.
pub fn least_of_four(
    first: Result<(), Refusal>,
    second: Result<(), Refusal>,
    third: Result<(), Refusal>,
    fourth: Result<(), Refusal>,
) -> Result<(), Refusal>
    ensures { (a b c d : Option Found) → Checks first a → Checks second b → Checks third c →
        Checks fourth d → Checks result (least_of (a ∷ b ∷ c ∷ d ∷ [])) }
{
    lesser_check(first, least_of_three(second, third, fourth))
}

/// What five checks find.
pub fn least_of_five(
    first: Result<(), Refusal>,
    second: Result<(), Refusal>,
    third: Result<(), Refusal>,
    fourth: Result<(), Refusal>,
    fifth: Result<(), Refusal>,
) -> Result<(), Refusal>
    ensures { (a b c d e : Option Found) → Checks first a → Checks second b → Checks third c →
        Checks fourth d → Checks fifth e → Checks result (least_of (a ∷ b ∷ c ∷ d ∷ e ∷ [])) }
{
    lesser_check(first, least_of_four(second, third, fourth, fifth))
}
