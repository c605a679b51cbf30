// Statements without a block.
ghost use Rattle.std.specs.Prelude.{◌≡◌, ◌≤◌, length, drop, IsTrue, ◌↔◌, Some, slice_get};
ghost use Rattle.vb_parse_stmt.specs.declared.front.Front.TheVariants as front;
ghost use Rattle.vb_parse_expr.specs.Words.{comma};
ghost use Rattle.vb_parse_decl.specs.Parts.{IsExpression, IsPrimary, IsOptional};
ghost use Rattle.vb_parse_stmt.specs.SimpleLines.{IsPrimaryLine, IsTwo, IsPlainName, IsEvent, compound_there};
ghost use Rattle.vb_parse_decl.specs.Answers.{Tells};
ghost use Rattle.vb_parse_stmt.specs.Reading.{front_of, IsItemFrom};

use std::alloc::Global;
use vb_parse_decl::{is_equal_at, whole_expression};
use vb_parse_expr::{ParseErr, one_reading, parse_expr, parse_primary, primary_begins, refusal};
use vb_syntax::{CompoundOperator, Context, Expr, Item, Items, Line, Symbol, Token};
use vb_text::Name;

pub fn call(alloc: Global, context: &Context, line: &Line) -> Result<Item, ParseErr>
    requires { front_of context.now line.now.tokens ≡ front.Call }
    ensures { Tells (IsItemFrom context.now front.Call) line.now line.now.tokens result }
{
    primary_begins();
    let called = whole_primary(alloc, line, 1)?;
    Ok(Item::Invocation(called))
}

pub fn throw(alloc: Global, context: &Context, line: &Line) -> Result<Item, ParseErr>
    requires { front_of context.now line.now.tokens ≡ front.Throw }
    ensures { Tells (IsItemFrom context.now front.Throw) line.now line.now.tokens result }
{
    let thrown = optional_expression(alloc, line, 1)?;
    Ok(Item::Throw(thrown))
}

pub fn yield_value(alloc: Global, context: &Context, line: &Line) -> Result<Item, ParseErr>
    requires { front_of context.now line.now.tokens ≡ front.Yield }
    ensures { Tells (IsItemFrom context.now front.Yield) line.now line.now.tokens result }
{
    let given = whole_expression(alloc, line, 1)?;
    Ok(Item::Yield(given))
}

pub fn return_value(alloc: Global, context: &Context, line: &Line) -> Result<Item, ParseErr>
    requires { front_of context.now line.now.tokens ≡ front.Return }
    ensures { Tells (IsItemFrom context.now front.Return) line.now line.now.tokens result }
{
    let returned = optional_expression(alloc, line, 1)?;
    Ok(Item::Return(returned))
}

pub fn add_handler(alloc: Global, context: &Context, line: &Line) -> Result<Item, ParseErr>
    requires { front_of context.now line.now.tokens ≡ front.AddHandler }
    ensures { Tells (IsItemFrom context.now front.AddHandler) line.now line.now.tokens result }
{
    let (event, handler) = two_expressions(alloc, line, 1)?;
    Ok(Item::AddHandler(event, handler))
}

pub fn remove_handler(alloc: Global, context: &Context, line: &Line) -> Result<Item, ParseErr>
    requires { front_of context.now line.now.tokens ≡ front.RemoveHandler }
    ensures { Tells (IsItemFrom context.now front.RemoveHandler) line.now line.now.tokens result }
{
    let (event, handler) = two_expressions(alloc, line, 1)?;
    Ok(Item::RemoveHandler(event, handler))
}

pub fn raise_event(alloc: Global, context: &Context, line: &Line) -> Result<Item, ParseErr>
    requires { front_of context.now line.now.tokens ≡ front.RaiseEvent }
    ensures { Tells (IsItemFrom context.now front.RaiseEvent) line.now line.now.tokens result }
{
    one_reading();
    // Read for its range alone: the proof needs that a line's tokens can be counted.
    let _count = line.tokens.len();
    let raised = whole_primary(alloc, line, 1)?;
    match event_of(alloc, raised) {
        Some((event, arguments)) => Ok(Item::RaiseEvent(event, arguments)),
        None => Err(ParseErr::Refused(refusal(line))),
    }
}

// The event that a primary names, and the arguments that it is given.
fn event_of(alloc: Global, raised: Expr) -> Option<(Name, Items<Expr>)>
    ensures { IsEvent raised result }
{
    match raised {
        Expr::SimpleName(event, types) => {
            if types.is_empty() {
                Some((event, Items::new(alloc)))
            } else {
                None
            }
        }
        Expr::Invocation(called, arguments) => {
            let event = plain_name(called.into_inner())?;
            Some((event, arguments))
        }
        _other => None,
    }
}

// The name that an expression is, without type arguments.
fn plain_name(expression: Expr) -> Option<Name>
    ensures { IsPlainName expression result }
{
    match expression {
        Expr::SimpleName(name, types) => types.is_empty().then_some(name),
        _other => None,
    }
}

// The primary that all tokens from this place on are.
fn whole_primary(alloc: Global, line: &Line, from: usize) -> Result<Expr, ParseErr>
    requires { from ≤ length line.now.tokens }
    ensures { Tells IsPrimary line.now (drop from line.now.tokens) result }
{
    one_reading();
    match parse_primary(alloc, line, from) {
        Ok((found, behind)) => {
            if behind == line.tokens.len() {
                Ok(found)
            } else {
                Err(ParseErr::Refused(refusal(line)))
            }
        }
        Err(ParseErr::Memory) => Err(ParseErr::Memory),
        Err(ParseErr::Refused(_)) => Err(ParseErr::Refused(refusal(line))),
    }
}

// The expression that all tokens from this place on are, or nothing where there are none.
fn optional_expression(alloc: Global, line: &Line, from: usize) -> Result<Option<Expr>, ParseErr>
    requires { from ≤ length line.now.tokens }
    ensures { Tells (IsOptional IsExpression) line.now (drop from line.now.tokens) result }
{
    if from == line.tokens.len() {
        return Ok(None);
    }
    let found = whole_expression(alloc, line, from)?;
    Ok(Some(found))
}

// Two expressions with a comma between them, which all tokens from this place on are.
fn two_expressions(alloc: Global, line: &Line, from: usize) -> Result<(Expr, Expr), ParseErr>
    requires { from ≤ length line.now.tokens }
    ensures { Tells IsTwo line.now (drop from line.now.tokens) result }
{
    one_reading();
    match parse_expr(alloc, line, from) {
        Ok((left, behind)) => {
            if behind < line.tokens.len() && is_comma_at(line, behind) {
                let right = whole_expression(alloc, line, behind + 1)?;
                Ok((left, right))
            } else {
                Err(ParseErr::Refused(refusal(line)))
            }
        }
        Err(ParseErr::Memory) => Err(ParseErr::Memory),
        Err(ParseErr::Refused(_)) => Err(ParseErr::Refused(refusal(line))),
    }
}

// Whether a comma stands at this place.
fn is_comma_at(line: &Line, at: usize) -> bool
    ensures { IsTrue result ↔ (slice_get line.now.tokens at ≡ Some comma) }
{
    matches!(line.tokens.get(at), Some(Token::Symbol(Symbol::Comma)))
}

pub fn assignment_or_call(alloc: Global, context: &Context, line: &Line) -> Result<Item, ParseErr>
    requires { front_of context.now line.now.tokens ≡ front.Other }
    ensures { Tells (IsItemFrom context.now front.Other) line.now line.now.tokens result }
{
    primary_line(alloc, line)
}

// The assignment, the compound assignment or the call without `Call` that all tokens are, with whatever they begin.
pub fn primary_line(alloc: Global, line: &Line) -> Result<Item, ParseErr>
    ensures { Tells IsPrimaryLine line.now line.now.tokens result }
{
    one_reading();
    match parse_primary(alloc, line, 0) {
        Ok((target, behind)) => {
            if behind == line.tokens.len() {
                return Ok(Item::Invocation(target));
            }
            if is_equal_at(line, behind) {
                let value = whole_expression(alloc, line, behind + 1)?;
                return Ok(Item::Assignment(target, value));
            }
            let Some(operator) = compound_at(line, behind) else {
                return Err(ParseErr::Refused(refusal(line)));
            };
            let operand = whole_expression(alloc, line, behind + 1)?;
            Ok(Item::CompoundAssignment(operator, target, operand))
        }
        Err(ParseErr::Memory) => Err(ParseErr::Memory),
        Err(ParseErr::Refused(_)) => Err(ParseErr::Refused(refusal(line))),
    }
}

// The operator of a compound assignment at this place.
fn compound_at(line: &Line, at: usize) -> Option<CompoundOperator>
    ensures { result ≡ compound_there (slice_get line.now.tokens at) }
{
    let Some(Token::Symbol(symbol)) = line.tokens.get(at) else {
        return None;
    };
    match symbol {
        Symbol::PlusEqual => Some(CompoundOperator::Add),
        Symbol::MinusEqual => Some(CompoundOperator::Subtract),
        Symbol::TimesEqual => Some(CompoundOperator::Multiply),
        Symbol::BackslashEqual => Some(CompoundOperator::IntegerDivide),
        Symbol::AmpersandEqual => Some(CompoundOperator::Concatenate),
        Symbol::ShiftLeftEqual => Some(CompoundOperator::ShiftLeft),
        Symbol::ShiftRightEqual => Some(CompoundOperator::ShiftRight),
        _ => None,
    }
}
