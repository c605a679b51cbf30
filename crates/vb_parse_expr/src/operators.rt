// Behind a primary: what goes on with it, and the operators on both sides of an operand.
ghost use Rattle.std.specs.Prelude.{◌≡◌, length, Some, option_map};
ghost use Rattle.vb_parse_expr.specs.TypeReading.{Gives};
ghost use Rattle.vb_parse_expr.specs.MachineReading as spec;

use crate::ahead::{after_closing, after_dot, after_is, after_opening, after_opening_brace};
use crate::closings::close;
use crate::fault::Fault;
use crate::machine::State;
use crate::pending::{Goal, Pending};
use crate::types::{read_name, read_type, read_type_arguments};
use crate::words::operator_of;
use std::alloc::Global;
use vb_syntax::{BinaryOperator, Boxed, Expr, Items, Token, VariableInitializer};

#[tactic(auto, unfolding(crate::specs::MachineReading::primary))]
pub fn primary<'a>(
    alloc: Global,
    goal: Goal,
    found: Expr,
    tokens: &'a [Token],
    waiting: &mut Items<Pending>,
) -> Result<(State, &'a [Token]), Fault>
    ensures { Gives (λ x. (waiting.new, x.0, x.1.now)) result (spec.primary goal found tokens.now waiting.old) }
{
    if let Some(rest) = after_dot(tokens) {
        let (name, rest) = read_name(rest)?;
        let (arguments, rest) = read_type_arguments(alloc, rest)?;
        let object = Boxed::new(alloc, found)?;
        return Ok((
            State::Primary(Expr::MemberAccess(object, name, arguments)),
            rest,
        ));
    }
    if let Some(inner) = after_opening(tokens) {
        let callee = Boxed::new(alloc, found)?;
        let arguments = Items::new(alloc);
        if let Some(rest) = after_closing(inner) {
            return Ok((State::Primary(Expr::Invocation(callee, arguments)), rest));
        }
        waiting.push(Pending::Arguments(callee, arguments))?;
        return Ok((State::Want, inner));
    }
    if after_opening_brace(tokens).is_some() {
        return Err(Fault::Grammar);
    }
    behind(alloc, goal, found, tokens, waiting)
}

// Nothing goes on with the primary itself.
#[tactic(auto, using(crate::proofs::Lists::popped_last), unfolding(crate::specs::MachineReading::behind_primary, crate::specs::TypeReading::popped))]
fn behind<'a>(
    alloc: Global,
    goal: Goal,
    found: Expr,
    tokens: &'a [Token],
    waiting: &mut Items<Pending>,
) -> Result<(State, &'a [Token]), Fault>
    ensures { Gives (λ x. (waiting.new, x.0, x.1.now)) result (spec.behind_primary goal found tokens.now waiting.old) }
{
    match waiting.pop() {
        Some(Pending::AddressOf) => {
            let operand = Boxed::new(alloc, found)?;
            Ok((State::Primary(Expr::AddressOf(operand)), tokens))
        }
        Some(Pending::TypeOf) => {
            let Some(rest) = after_is(tokens) else {
                return Err(Fault::Grammar);
            };
            let (name, rest) = read_type(alloc, rest)?;
            let operand = Boxed::new(alloc, found)?;
            Ok((State::Primary(Expr::TypeOf(operand, name)), rest))
        }
        Some(pending) => {
            waiting.push(pending)?;
            operand(alloc, found, tokens, waiting)
        }
        None => match goal {
            Goal::Primary => Ok((State::Done(VariableInitializer::Expression(found)), tokens)),
            _ => operand(alloc, found, tokens, waiting),
        },
    }
}

// The primary is an operand.
#[tactic(auto, unfolding(crate::specs::MachineReading::operand))]
fn operand<'a>(
    alloc: Global,
    found: Expr,
    tokens: &'a [Token],
    waiting: &mut Items<Pending>,
) -> Result<(State, &'a [Token]), Fault>
    ensures { Gives (λ x. (waiting.new, x.0, x.1.now)) result (spec.operand found tokens.now waiting.old) }
{
    match operator_first(tokens) {
        Some((operator, strength, rest)) => {
            let left = settled(alloc, strength, found, waiting)?;
            waiting.push(Pending::Between(Boxed::new(alloc, left)?, operator, strength))?;
            Ok((State::Want, rest))
        }
        None => {
            let whole = settled(alloc, WEAKEST, found, waiting)?;
            close(alloc, whole, tokens, waiting)
        }
    }
}

// The operator that stands first, its strength, and what stands behind it.
#[tactic(auto, unfolding(crate::specs::MachineReading::operator_first))]
fn operator_first(tokens: &[Token]) -> Option<(BinaryOperator, u8, &[Token])>
    ensures { option_map (λ p. (p.0, p.1, p.2.now)) result ≡ spec.operator_first tokens.now }
{
    let [token, rest @ ..] = tokens else {
        return None;
    };
    let (operator, strength) = operator_of(token)?;
    Some((operator, strength, rest))
}

// Weaker than each operator.
const WEAKEST: u8 = 13;

// The operators that an operator of this strength ends take their operand, the last one first.
#[tactic(auto, using(crate::proofs::Lists::popped_last), unfolding(crate::specs::MachineReading::settled, crate::specs::TypeReading::popped))]
fn settled(
    alloc: Global,
    strength: u8,
    found: Expr,
    waiting: &mut Items<Pending>,
) -> Result<Expr, Fault>
    ensures { Gives (λ x. (waiting.new, x)) result (Some (spec.settled strength (length waiting.old) waiting.old found)) }
{
    let mut operand = found;
    for _turn in 0..waiting.len() {
        let Some(pending) = waiting.pop() else {
            return Ok(operand);
        };
        match settle(alloc, strength, pending, operand)? {
            Settlement::Whole(whole) => operand = whole,
            Settlement::Waits(pending, operand) => {
                waiting.push(pending)?;
                return Ok(operand);
            }
        }
    }
    Ok(operand)
}

/// What becomes of an operator and the operand behind it.
#[derive(Drop)]
pub enum Settlement {
    /// The operator took the operand.
    Whole(Expr),
    /// The operator waits on, since the operand isn't ended.
    Waits(Pending, Expr),
}

// An operator takes its operand where an operator of this strength ends it.
fn settle(alloc: Global, strength: u8, pending: Pending, operand: Expr) -> Result<Settlement, Fault>
    ensures { spec.Settles strength pending operand result }
{
    match pending {
        Pending::Before(operator, own) if own < strength => {
            let operand = Boxed::new(alloc, operand)?;
            Ok(Settlement::Whole(Expr::Unary(operator, operand)))
        }
        Pending::Between(left, operator, own) if own <= strength => {
            let right = Boxed::new(alloc, operand)?;
            Ok(Settlement::Whole(Expr::Binary(operator, left, right)))
        }
        pending => Ok(Settlement::Waits(pending, operand)),
    }
}
