//! Copies of several fields of a record.
ghost use Rattle.std.specs.Prelude.{◌≡◌, IfOk};

use crate::same::Same;
use crate::text::WantOfMemory;
use std::alloc::Global;

/// Both once more. A record of several fields is copied by one such call, since each field that may
/// be refused lets go all that were copied before it.
pub fn two<A: Same + Drop, B: Same + Drop>(
    first: &A,
    second: &B,
    alloc: Global,
) -> Result<(A, B), WantOfMemory>
    ensures { IfOk result (λ copies. copies ≡ (first.now, second.now)) }
{
    let first = first.copy(alloc)?;
    let second = second.copy(alloc)?;
    Ok((first, second))
}

/// Each of the three once more.
pub fn three<A: Same + Drop, B: Same + Drop, C: Same + Drop>(
    first: &A,
    second: &B,
    third: &C,
    alloc: Global,
) -> Result<(A, B, C), WantOfMemory>
    ensures { IfOk result (λ copies. copies ≡ (first.now, second.now, third.now)) }
{
    let first = first.copy(alloc)?;
    let second = second.copy(alloc)?;
    let third = third.copy(alloc)?;
    Ok((first, second, third))
}

/// Each of the four once more.
pub fn four<A: Same + Drop, B: Same + Drop, C: Same + Drop, D: Same + Drop>(
    first: &A,
    second: &B,
    third: &C,
    fourth: &D,
    alloc: Global,
) -> Result<(A, B, C, D), WantOfMemory>
    ensures { IfOk result (λ copies. copies ≡ (first.now, second.now, third.now, fourth.now)) }
{
    let (first, second) = two(first, second, alloc)?;
    let (third, fourth) = two(third, fourth, alloc)?;
    Ok((first, second, third, fourth))
}

/// Each of the five once more.
pub fn five<A: Same + Drop, B: Same + Drop, C: Same + Drop, D: Same + Drop, E: Same + Drop>(
    first: &A,
    second: &B,
    third: &C,
    fourth: &D,
    fifth: &E,
    alloc: Global,
) -> Result<(A, B, C, D, E), WantOfMemory>
    ensures { IfOk result (λ copies. copies ≡ (first.now, second.now, third.now, fourth.now, fifth.now)) }
{
    let (first, second, third) = three(first, second, third, alloc)?;
    let (fourth, fifth) = two(fourth, fifth, alloc)?;
    Ok((first, second, third, fourth, fifth))
}

/// Each of the six once more.
pub fn six<
    A: Same + Drop,
    B: Same + Drop,
    C: Same + Drop,
    D: Same + Drop,
    E: Same + Drop,
    F: Same + Drop,
>(
    first: &A,
    second: &B,
    third: &C,
    fourth: &D,
    fifth: &E,
    sixth: &F,
    alloc: Global,
) -> Result<(A, B, C, D, E, F), WantOfMemory>
    ensures { IfOk result (λ c. c ≡ (first.now, second.now, third.now, fourth.now, fifth.now, sixth.now)) }
{
    let (first, second, third) = three(first, second, third, alloc)?;
    let (fourth, fifth, sixth) = three(fourth, fifth, sixth, alloc)?;
    Ok((first, second, third, fourth, fifth, sixth))
}
