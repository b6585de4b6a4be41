//! A machine that reads the terms of an expression one by one.

ghost use Rattle.std.specs.Prelude.{◌≡◌, ◌+◌, ◌-◌, [], ◌∷◌, Some, None, if◌then◌else◌, map, option_map, IfOk};
ghost use Rattle.macro_expressions.specs.Values.{view};
ghost use Rattle.macro_expressions.specs.ExpressionTree.{term_view};
ghost use Rattle.macro_expressions.specs.ExpressionMachine.{waits_of, wait_view, settle, reduce, rest, front_of, left_of, top_of, depth_of, wanting, deeper, holding, closed, step, ended, run};

use crate::operand::{Operand, Term, apply, apply_prefix};
use crate::operator::{BinaryOperator, PrefixOperator};
use std::alloc::{AllocError, Global};

/// What waits for an operand.
#[derive(Clone, Copy)]
pub enum Waiting<'a> {
    Group,
    Front(PrefixOperator),
    Left(Operand<'a>, BinaryOperator),
}

/// What is read next is an operand, or what may follow `held`.
#[derive(Drop)]
struct Machine<'a> {
    waits: Vec<Waiting<'a>>,
    held: Option<Operand<'a>>,
    depth: u32,
    ghost counted: { depth ≡ depth_of (waits_of waits.items) },
}

/// The innermost of what waits.
fn top<'a>(waits: &Vec<Waiting<'a>>) -> Option<Waiting<'a>>
    ensures { option_map wait_view result ≡ top_of (waits_of waits.now.items) }
{
    waits.last().copied()
}

fn lower(waits: &mut Vec<Waiting<'_>>)
    ensures { waits_of waits.new.items ≡ rest (waits_of waits.old.items) }
{
    let _ = waits.pop();
}

fn front_of(waits: &Vec<Waiting<'_>>) -> Option<PrefixOperator>
    ensures { result ≡ front_of (waits_of waits.now.items) }
{
    match top(waits) {
        Some(Waiting::Front(op)) => Some(op),
        _ => None,
    }
}

fn left_of<'a>(level: u8, waits: &Vec<Waiting<'a>>) -> Option<(Operand<'a>, BinaryOperator)>
    ensures { option_map (λ p. (view p.0, p.1)) result ≡ left_of level (waits_of waits.now.items) }
{
    match top(waits) {
        Some(Waiting::Left(left, op)) => {
            if level <= op.level() {
                Some((left, op))
            } else {
                None
            }
        }
        _ => None,
    }
}

impl<'a> Machine<'a> {
    ghost use Rattle.macro_expressions.specs.ExpressionState.{state_of};

    fn new(alloc: Global) -> Machine<'a>
        ensures { state_of result ≡ wanting [] }
    {
        Machine {
            waits: Vec::new(alloc),
            held: None,
            depth: 0,
        }
    }

    /// A parenthesis or a prefix operator opens, where fewer than 64 are open.
    fn deepen(&mut self, wait: Waiting<'a>) -> Result<bool, AllocError>
        requires opens { depth_of (wait_view wait ∷ []) ≡ 1 }
        requires wanting { self.old.held ≡ None }
        ensures { IfOk result (λ goes. deeper (wait_view wait.entry) (waits_of self.old.waits.items)
            ≡ (if goes then Some (state_of self.new) else None)) }
    {
        if self.depth >= 64 {
            return Ok(false);
        }
        self.waits.push(wait)?;
        self.depth += 1;
        Ok(true)
    }

    /// Prefix operators take their operand, and what they make is held.
    fn settle(&mut self, operand: Operand<'a>)
        ensures { state_of self.new ≡ holding
            (settle (waits_of self.old.waits.items) (view operand.entry)) }
    {
        let mut value = operand;
        while let Some(op) = front_of(&self.waits) {
            lower(&mut self.waits);
            self.depth -= 1;
            value = apply_prefix(op, value);
        }
        self.held = Some(value);
    }

    /// Operators of the level or above it take their right operand.
    fn reduce(&mut self, level: u8, operand: Operand<'a>) -> Operand<'a>
        ensures waits { waits_of self.new.waits.items
            ≡ (reduce level (waits_of self.old.waits.items) (view operand.entry)).waits }
        ensures value { view result
            ≡ (reduce level (waits_of self.old.waits.items) (view operand.entry)).operand }
    {
        let mut value = operand;
        while let Some((left, op)) = left_of(level, &self.waits) {
            lower(&mut self.waits);
            value = apply(op, left, value);
        }
        value
    }

    /// The parenthesis that is open closes.
    fn close(&mut self, operand: Operand<'a>) -> bool
        ensures { closed (waits_of self.old.waits.items) (view operand.entry)
            ≡ (if result then Some (state_of self.new) else None) }
    {
        match top(&self.waits) {
            Some(Waiting::Group) => {
                lower(&mut self.waits);
                self.depth -= 1;
                self.settle(operand);
                true
            }
            _ => false,
        }
    }

    /// Reads one more term, where it may follow.
    fn step(&mut self, term: Term<'a>) -> Result<bool, AllocError>
        ensures { IfOk result (λ goes. step (state_of self.old) (term_view term.entry)
            ≡ (if goes then Some (state_of self.new) else None)) }
    {
        match self.held {
            None => match term {
                Term::Value(operand) => {
                    self.settle(operand);
                    Ok(true)
                }
                Term::Prefix(op) => self.deepen(Waiting::Front(op)),
                Term::Open => self.deepen(Waiting::Group),
                Term::Binary(_) | Term::Close | Term::Unknown => Ok(false),
            },
            Some(held) => match term {
                Term::Binary(op) => {
                    let left = self.reduce(op.level(), held);
                    self.waits.push(Waiting::Left(left, op))?;
                    self.held = None;
                    Ok(true)
                }
                Term::Close => {
                    let operand = self.reduce(0, held);
                    Ok(self.close(operand))
                }
                Term::Value(_) | Term::Prefix(_) | Term::Open | Term::Unknown => Ok(false),
            },
        }
    }

    /// The value of the whole expression, if it ends here.
    fn end(&mut self) -> Option<Operand<'a>>
        ensures { option_map view result ≡ ended (state_of self.old) }
    {
        let held = self.held?;
        let value = self.reduce(0, held);
        if self.waits.is_empty() {
            Some(value)
        } else {
            None
        }
    }
}

/// What the terms come to, if they are those of an expression.
#[tactic(auto, using(crate::proofs::ExpressionTurns::run_stops, crate::proofs::ExpressionTurns::run_ends))]
pub fn run<'a>(alloc: Global, terms: &[Term<'a>]) -> Result<Option<Operand<'a>>, AllocError>
    ensures { IfOk result (λ r. option_map view r
        ≡ run (Some (wanting [])) (map term_view terms.now)) }
{
    let mut machine = Machine::new(alloc);
    for term in terms {
        if !machine.step(*term)? {
            return Ok(None);
        }
    }
    Ok(machine.end())
}
