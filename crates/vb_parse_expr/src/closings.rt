// What waits takes an expression, or elements in braces.
ghost use Rattle.std.specs.Prelude.{List};
ghost use Rattle.vb_syntax.specs.declared.expression.Expr.TheVariants as e;
ghost use Rattle.vb_parse_expr.specs.declared.pending.Pending.{Pending as OnePending};
ghost use Rattle.vb_parse_expr.specs.declared.pending.Pending.TheVariants as wait;
ghost use Rattle.vb_parse_expr.specs.Reading.{after_closing, after_comma};
ghost use Rattle.vb_parse_expr.specs.TypeReading.{Gives};
ghost use Rattle.vb_parse_expr.specs.MachineReading as spec;

use crate::ahead::{after_closing, after_closing_brace, after_comma};
use crate::beginnings::created;
use crate::fault::Fault;
use crate::machine::State;
use crate::pending::Pending;
use crate::types::read_type;
use std::alloc::Global;
use vb_syntax::{
    Boxed, CastOperator, Expr, Items, PrimitiveTypeName, SimpleTypeName, Token, VariableInitializer,
};

// BEHIND AN EXPRESSION

#[tactic(auto, using(crate::proofs::Lists::popped_last), unfolding(crate::specs::MachineReading::close, crate::specs::TypeReading::popped))]
pub fn close<'a>(
    alloc: Global,
    found: Expr,
    tokens: &'a [Token],
    waiting: &mut Items<Pending>,
) -> Result<(State, &'a [Token]), Fault>
    ensures { Gives (λ x. (waiting.new, x.0, x.1.now)) result (spec.close found tokens.now waiting.old) }
{
    match waiting.pop() {
        None => Ok((State::Done(VariableInitializer::Expression(found)), tokens)),
        Some(pending) => close_with(alloc, found, tokens, pending, waiting),
    }
}

// What waits takes the expression.
fn close_with<'a>(
    alloc: Global,
    found: Expr,
    tokens: &'a [Token],
    pending: Pending,
    waiting: &mut Items<Pending>,
) -> Result<(State, &'a [Token]), Fault>
    ensures { Gives (λ x. (waiting.new, x.0, x.1.now)) result (spec.close_with found tokens.now waiting.old pending) }
{
    match pending {
        Pending::Parenthesis => parenthesized(alloc, found, tokens),
        Pending::Arguments(callee, arguments) => {
            call_more(callee, arguments, found, tokens, waiting)
        }
        Pending::Creation(name, arguments) => {
            creation_more(alloc, name, arguments, found, tokens, waiting)
        }
        Pending::Array(name, bound, elements) => {
            element(
                VariableInitializer::Expression(found),
                tokens,
                Pending::Array(name, bound, elements),
                waiting,
            )
        }
        Pending::Elements(elements) => {
            element(
                VariableInitializer::Expression(found),
                tokens,
                Pending::Elements(elements),
                waiting,
            )
        }
        Pending::Conversion(word) => conversion(alloc, word, found, tokens),
        Pending::Cast(operator) => cast(alloc, operator, found, tokens),
        Pending::Test => test(alloc, found, tokens, waiting),
        Pending::Then(test) => first_value(alloc, test, found, tokens, waiting),
        Pending::Else(test, value) => conditional(alloc, test, value, found, tokens),
        _ => Err(Fault::Grammar),
    }
}

fn closed(tokens: &[Token]) -> Result<&[Token], Fault>
    ensures { Gives (λ ts. ts.now) result (after_closing tokens.now) }
{
    match after_closing(tokens) {
        Some(rest) => Ok(rest),
        None => Err(Fault::Grammar),
    }
}

fn parenthesized<'a>(
    alloc: Global,
    found: Expr,
    tokens: &'a [Token],
) -> Result<(State, &'a [Token]), Fault>
    ensures { (ws : List OnePending) → Gives (λ x. (ws, x.0, x.1.now)) result (spec.closed_as ws (e.Parenthesized found) (after_closing tokens.now)) }
{
    let rest = closed(tokens)?;
    let inner = Boxed::new(alloc, found)?;
    Ok((State::Primary(Expr::Parenthesized(inner)), rest))
}

fn call_more<'a>(
    callee: Boxed<Expr>,
    arguments: Items<Expr>,
    found: Expr,
    tokens: &'a [Token],
    waiting: &mut Items<Pending>,
) -> Result<(State, &'a [Token]), Fault>
    ensures { Gives (λ x. (waiting.new, x.0, x.1.now)) result (spec.close_with found tokens.now waiting.old (wait.Arguments callee arguments)) }
{
    let mut arguments = arguments;
    arguments.push(found)?;
    if let Some(next) = after_comma(tokens) {
        waiting.push(Pending::Arguments(callee, arguments))?;
        return Ok((State::Want, next));
    }
    let rest = closed(tokens)?;
    Ok((State::Primary(Expr::Invocation(callee, arguments)), rest))
}

fn creation_more<'a>(
    alloc: Global,
    name: SimpleTypeName,
    arguments: Items<Expr>,
    found: Expr,
    tokens: &'a [Token],
    waiting: &mut Items<Pending>,
) -> Result<(State, &'a [Token]), Fault>
    ensures { Gives (λ x. (waiting.new, x.0, x.1.now)) result (spec.close_with found tokens.now waiting.old (wait.Creation name arguments)) }
{
    let mut arguments = arguments;
    arguments.push(found)?;
    if let Some(next) = after_comma(tokens) {
        waiting.push(Pending::Creation(name, arguments))?;
        return Ok((State::Want, next));
    }
    let rest = closed(tokens)?;
    created(alloc, name, arguments, rest, waiting)
}

fn conversion<'a>(
    alloc: Global,
    word: PrimitiveTypeName,
    found: Expr,
    tokens: &'a [Token],
) -> Result<(State, &'a [Token]), Fault>
    ensures { (ws : List OnePending) → Gives (λ x. (ws, x.0, x.1.now)) result (spec.closed_as ws (e.PrimitiveCast word found) (after_closing tokens.now)) }
{
    let rest = closed(tokens)?;
    let operand = Boxed::new(alloc, found)?;
    Ok((State::Primary(Expr::PrimitiveCast(word, operand)), rest))
}

fn cast<'a>(
    alloc: Global,
    operator: CastOperator,
    found: Expr,
    tokens: &'a [Token],
) -> Result<(State, &'a [Token]), Fault>
    ensures { (ws : List OnePending) → Gives (λ x. (ws, x.0, x.1.now)) result (spec.close_with found tokens.now ws (wait.Cast operator)) }
{
    let Some(rest) = after_comma(tokens) else {
        return Err(Fault::Grammar);
    };
    let (name, rest) = read_type(alloc, rest)?;
    let rest = closed(rest)?;
    let operand = Boxed::new(alloc, found)?;
    Ok((State::Primary(Expr::Cast(operator, operand, name)), rest))
}

// THE PARTS OF `If`

fn test<'a>(
    alloc: Global,
    found: Expr,
    tokens: &'a [Token],
    waiting: &mut Items<Pending>,
) -> Result<(State, &'a [Token]), Fault>
    ensures { Gives (λ x. (waiting.new, x.0, x.1.now)) result (spec.next_part waiting.old (wait.Then found) (after_comma tokens.now)) }
{
    let Some(next) = after_comma(tokens) else {
        return Err(Fault::Grammar);
    };
    waiting.push(Pending::Then(Boxed::new(alloc, found)?))?;
    Ok((State::Want, next))
}

fn first_value<'a>(
    alloc: Global,
    test: Boxed<Expr>,
    found: Expr,
    tokens: &'a [Token],
    waiting: &mut Items<Pending>,
) -> Result<(State, &'a [Token]), Fault>
    ensures { Gives (λ x. (waiting.new, x.0, x.1.now)) result (spec.next_part waiting.old (wait.Else test found) (after_comma tokens.now)) }
{
    let Some(next) = after_comma(tokens) else {
        return Err(Fault::Grammar);
    };
    waiting.push(Pending::Else(test, Boxed::new(alloc, found)?))?;
    Ok((State::Want, next))
}

fn conditional<'a>(
    alloc: Global,
    test: Boxed<Expr>,
    value: Boxed<Expr>,
    found: Expr,
    tokens: &'a [Token],
) -> Result<(State, &'a [Token]), Fault>
    ensures { (ws : List OnePending) → Gives (λ x. (ws, x.0, x.1.now)) result (spec.closed_as ws (e.Conditional test value found) (after_closing tokens.now)) }
{
    let rest = closed(tokens)?;
    let other = Boxed::new(alloc, found)?;
    Ok((State::Primary(Expr::Conditional(test, value, other)), rest))
}

// BEHIND AN ELEMENT

// An element of the braces that wait.
#[tactic(auto, unfolding(crate::specs::MachineReading::element))]
fn element<'a>(
    found: VariableInitializer,
    tokens: &'a [Token],
    pending: Pending,
    waiting: &mut Items<Pending>,
) -> Result<(State, &'a [Token]), Fault>
    ensures { Gives (λ x. (waiting.new, x.0, x.1.now)) result (spec.element found tokens.now pending waiting.old) }
{
    match pending {
        Pending::Array(name, bound, elements) => {
            let mut elements = elements;
            elements.push(found)?;
            if let Some(next) = after_comma(tokens) {
                waiting.push(Pending::Array(name, bound, elements))?;
                return Ok((State::Want, next));
            }
            let Some(rest) = after_closing_brace(tokens) else {
                return Err(Fault::Grammar);
            };
            Ok((
                State::Primary(Expr::ArrayCreation(name, bound, elements)),
                rest,
            ))
        }
        Pending::Elements(elements) => {
            let mut elements = elements;
            elements.push(found)?;
            if let Some(next) = after_comma(tokens) {
                waiting.push(Pending::Elements(elements))?;
                return Ok((State::Want, next));
            }
            let Some(rest) = after_closing_brace(tokens) else {
                return Err(Fault::Grammar);
            };
            Ok((State::Braces(elements), rest))
        }
        _ => Err(Fault::Grammar),
    }
}

// Behind the brace that closes.
#[tactic(auto, using(crate::proofs::Lists::popped_last), unfolding(crate::specs::MachineReading::braces, crate::specs::TypeReading::popped))]
pub fn braces<'a>(
    found: Items<VariableInitializer>,
    tokens: &'a [Token],
    waiting: &mut Items<Pending>,
) -> Result<(State, &'a [Token]), Fault>
    ensures { Gives (λ x. (waiting.new, x.0, x.1.now)) result (spec.braces found tokens.now waiting.old) }
{
    match waiting.pop() {
        None => Ok((State::Done(VariableInitializer::Elements(found)), tokens)),
        Some(pending) => element(
            VariableInitializer::Elements(found),
            tokens,
            pending,
            waiting,
        ),
    }
}
