//! Operands and terms of expressions, and what the operators make of operands.

ghost use Rattle.std.specs.Prelude.{◌≡◌, ◌*◌, ◌/◌, ◌^◌, MatchOption};
ghost use Rattle.macro_expressions.specs.Values.{view, number, faulty, apply, apply_prefix, kinds_fit, on_numbers, on_texts};
ghost use Rattle.build_base.specs.FaultCodes.{VALUE_RANGE};

use crate::operator::{BinaryOperator, PrefixOperator};
use build_base::fault_codes::{VALUE_RANGE, ZERO_DIVISOR};

/// A text, a number, the code of the fault that comes first, or that a text stands in the place of
/// a number.
#[derive(Clone, Copy)]
pub(crate) enum Operand<'a> {
    Word(&'a [u8]),
    Number(u64),
    Error(u16),
    TypeError,
}

/// A term of an expression. An unknown mark belongs to none.
#[derive(Clone, Copy)]
pub enum Term<'a> {
    Value(Operand<'a>),
    Binary(BinaryOperator),
    Prefix(PrefixOperator),
    Open,
    Close,
    Unknown,
}

fn truth(b: bool) -> Operand<'static>
    ensures { view result ≡ Rattle.macro_expressions.specs.Values.truth b }
{
    Operand::Number(b as u64)
}

/// The operators on two numbers, but for shifts.
fn on_numbers<'a>(op: BinaryOperator, a: u64, b: u64) -> Operand<'a>
    ensures { view result ≡ on_numbers op a b }
{
    match op {
        BinaryOperator::Or => truth(a != 0 || b != 0),
        BinaryOperator::And => truth(a != 0 && b != 0),
        BinaryOperator::BitOr => Operand::Number(a | b),
        BinaryOperator::BitXor => Operand::Number(a ^ b),
        BinaryOperator::BitAnd => Operand::Number(a & b),
        BinaryOperator::Eq => truth(a == b),
        BinaryOperator::Ne => truth(a != b),
        BinaryOperator::Lt => truth(a < b),
        BinaryOperator::Le => truth(a <= b),
        BinaryOperator::Gt => truth(a > b),
        BinaryOperator::Ge => truth(a >= b),
        BinaryOperator::Shl => shifted_left(a, b),
        BinaryOperator::Shr => Operand::Number(shifted_right(a, b)),
        BinaryOperator::Add => fitting(a.checked_add(b)),
        BinaryOperator::Sub => fitting(a.checked_sub(b)),
        BinaryOperator::Mul => fitting(a.checked_mul(b)),
        BinaryOperator::Div => match a.checked_div(b) {
            Some(n) => Operand::Number(n),
            None => Operand::Error(ZERO_DIVISOR),
        },
        BinaryOperator::Rem => match a.checked_rem(b) {
            Some(n) => Operand::Number(n),
            None => Operand::Error(ZERO_DIVISOR),
        },
    }
}

fn fitting<'a>(n: Option<u64>) -> Operand<'a>
    ensures { MatchOption n (view result ≡ faulty VALUE_RANGE) (λ x. view result ≡ number x) }
{
    match n {
        Some(n) => Operand::Number(n),
        None => Operand::Error(VALUE_RANGE),
    }
}

/// The quotient of `a` by 2 to the power `b`.
#[tactic(auto, using(crate::proofs::Shifts::quotient_none))]
fn shifted_right(a: u64, b: u64) -> u64
    ensures { result ≡ a / 2 ^ b }
{
    if b < 64 { a >> b } else { 0 }
}

/// `a` times 2 to the power `b`.
#[tactic(auto, using(crate::proofs::Shifts::shl_far, crate::proofs::Shifts::shl_over))]
fn shifted_left<'a>(a: u64, b: u64) -> Operand<'a>
    ensures { view result ≡ Rattle.macro_expressions.specs.Values.fitting (a * 2 ^ b) }
{
    if a == 0 {
        return Operand::Number(0);
    }
    if b >= 64 {
        return Operand::Error(VALUE_RANGE);
    }
    if a > u64::MAX >> b {
        return Operand::Error(VALUE_RANGE);
    }
    Operand::Number(a << b)
}

/// The value of an operator with its operands.
#[tactic(auto, unfolding(crate::specs::Values::apply))]
pub fn apply<'a>(op: BinaryOperator, left: Operand<'a>, right: Operand<'a>) -> Operand<'a>
    ensures { view result ≡ apply op (view left.entry) (view right.entry) }
{
    if !kinds_fit(op, left, right) {
        return Operand::TypeError;
    }
    match (left, right) {
        (Operand::Error(c), _) => Operand::Error(c),
        (_, Operand::Error(c)) => Operand::Error(c),
        (Operand::Number(a), Operand::Number(b)) => on_numbers(op, a, b),
        (Operand::Word(v), Operand::Word(w)) => on_texts(op, v == w),
        _ => on_texts(op, false),
    }
}

fn on_texts<'a>(op: BinaryOperator, same: bool) -> Operand<'a>
    ensures { view result ≡ on_texts op same }
{
    match op {
        BinaryOperator::Eq => truth(same),
        BinaryOperator::Ne => truth(!same),
        _ => Operand::TypeError,
    }
}

fn is_number(operand: Operand<'_>) -> bool
    ensures { result ≡ Rattle.macro_expressions.specs.Values.is_number (view operand.entry) }
{
    matches!(operand, Operand::Number(_) | Operand::Error(_))
}

fn is_ill(operand: Operand<'_>) -> bool
    ensures { result ≡ Rattle.macro_expressions.specs.Values.is_ill (view operand.entry) }
{
    matches!(operand, Operand::TypeError)
}

fn kinds_fit(op: BinaryOperator, left: Operand<'_>, right: Operand<'_>) -> bool
    ensures { result ≡ kinds_fit op (view left.entry) (view right.entry) }
{
    if op.takes_texts() {
        !is_ill(left) && !is_ill(right)
    } else {
        is_number(left) && is_number(right)
    }
}

/// The value of a prefix operator with its operand.
#[tactic(auto, unfolding(crate::specs::Values::apply_prefix))]
pub(crate) fn apply_prefix<'a>(op: PrefixOperator, operand: Operand<'a>) -> Operand<'a>
    ensures { view result ≡ apply_prefix op (view operand.entry) }
{
    match (op, operand) {
        (PrefixOperator::Not, Operand::Number(n)) => truth(n == 0),
        (PrefixOperator::Flip, Operand::Number(n)) => Operand::Number(!n),
        (_, Operand::Error(c)) => Operand::Error(c),
        _ => Operand::TypeError,
    }
}
