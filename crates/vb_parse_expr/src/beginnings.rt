// Where an operand is to come: what stands before it, and what it begins with.
ghost use Rattle.std.specs.Prelude.{◌≡◌, List, Some};
ghost use Rattle.vb_parse_expr.specs.declared.pending.Pending.{Pending as OnePending};
ghost use Rattle.vb_parse_expr.specs.declared.pending.Goal.{Goal as OneGoal};
ghost use Rattle.vb_parse_expr.specs.TypeReading.{Gives};
ghost use Rattle.vb_parse_expr.specs.MachineReading as spec;

use crate::ahead::{
    after_closing, after_closing_brace, after_dot, after_opening, after_opening_brace,
};
use crate::fault::Fault;
use crate::machine::State;
use crate::pending::{Goal, Pending};
use crate::types::{read_name, read_simple_type, read_type_arguments};
use crate::words::{cast_operator, prefix_of, primitive_cast, type_of};
use std::alloc::Global;
use vb_syntax::{Boxed, Expr, Items, Keyword, SimpleTypeName, Symbol, Token};

#[tactic(auto, unfolding(crate::specs::MachineReading::want))]
pub fn want<'a>(
    alloc: Global,
    goal: Goal,
    tokens: &'a [Token],
    waiting: &mut Items<Pending>,
) -> Result<(State, &'a [Token]), Fault>
    ensures { Gives (λ x. (waiting.new, x.0, x.1.now)) result (spec.want goal waiting.old tokens.now) }
{
    let [token, rest @ ..] = tokens else {
        return Err(Fault::Grammar);
    };
    if let Some((operator, strength)) = prefix_of(token) {
        if wants_primary(goal, waiting.as_slice()) {
            return Err(Fault::Grammar);
        }
        waiting.push(Pending::Before(operator, strength))?;
        return Ok((State::Want, rest));
    }
    if let Some(inner) = after_opening_brace(tokens) {
        if !wants_element(goal, waiting.as_slice()) {
            return Err(Fault::Grammar);
        }
        return elements(alloc, inner, waiting);
    }
    begin(alloc, token, rest, waiting)
}

// Only a primary may stand here.
#[tactic(auto, unfolding(crate::specs::MachineReading::wants_primary))]
fn wants_primary(goal: Goal, waiting: &[Pending]) -> bool
    ensures { result ≡ spec.wants_primary goal waiting.now }
{
    match waiting.last() {
        None => matches!(goal, Goal::Primary),
        Some(last) => takes_primary(last),
    }
}

// Its operand is a primary.
fn takes_primary(last: &Pending) -> bool
    ensures { (goal : OneGoal) (ws : List OnePending) → result ≡ spec.last_wants_primary goal (Some (ws, last.now)) }
{
    matches!(last, Pending::AddressOf | Pending::TypeOf)
}

// Braces may stand here.
#[tactic(auto, unfolding(crate::specs::MachineReading::wants_element))]
fn wants_element(goal: Goal, waiting: &[Pending]) -> bool
    ensures { result ≡ spec.wants_element goal waiting.now }
{
    match waiting.last() {
        None => matches!(goal, Goal::Initializer),
        Some(last) => takes_element(last),
    }
}

// It has elements.
fn takes_element(last: &Pending) -> bool
    ensures { (goal : OneGoal) (ws : List OnePending) → result ≡ spec.last_wants_element goal (Some (ws, last.now)) }
{
    matches!(last, Pending::Array(..) | Pending::Elements(_))
}

// Elements behind their brace.
#[tactic(auto, unfolding(crate::specs::MachineReading::elements))]
fn elements<'a>(
    alloc: Global,
    tokens: &'a [Token],
    waiting: &mut Items<Pending>,
) -> Result<(State, &'a [Token]), Fault>
    ensures { Gives (λ x. (waiting.new, x.0, x.1.now)) result (spec.elements waiting.old tokens.now) }
{
    if let Some(rest) = after_closing_brace(tokens) {
        return Ok((State::Braces(Items::new(alloc)), rest));
    }
    waiting.push(Pending::Elements(Items::new(alloc)))?;
    Ok((State::Want, tokens))
}

// The first token of a primary, and what goes with it.
#[tactic(auto, unfolding(crate::specs::MachineReading::begin))]
fn begin<'a>(
    alloc: Global,
    token: &'a Token,
    rest: &'a [Token],
    waiting: &mut Items<Pending>,
) -> Result<(State, &'a [Token]), Fault>
    ensures { Gives (λ x. (waiting.new, x.0, x.1.now)) result (spec.begin waiting.old token.now rest.now) }
{
    match token {
        Token::Name(name) | Token::EscapedName(name) => {
            let (arguments, rest) = read_type_arguments(alloc, rest)?;
            Ok((State::Primary(Expr::SimpleName(*name, arguments)), rest))
        }
        Token::Integer(literal) => Ok((State::Primary(Expr::Integer(literal.integer())), rest)),
        Token::Text(text) => Ok((State::Primary(Expr::Text(text.copy(alloc)?)), rest)),
        Token::Char(unit) => Ok((State::Primary(Expr::Char(*unit)), rest)),
        Token::Symbol(sign) => begin_sign(*sign, rest, waiting),
        Token::Keyword(word) => match word {
            Keyword::True => Ok((State::Primary(Expr::True), rest)),
            Keyword::False => Ok((State::Primary(Expr::False), rest)),
            Keyword::Nothing => Ok((State::Primary(Expr::Nothing), rest)),
            Keyword::Me => Ok((State::Primary(Expr::Me), rest)),
            Keyword::MyBase => Ok((State::Primary(Expr::MyBase), rest)),
            Keyword::AddressOf => {
                waiting.push(Pending::AddressOf)?;
                Ok((State::Want, rest))
            }
            Keyword::TypeOf => {
                waiting.push(Pending::TypeOf)?;
                Ok((State::Want, rest))
            }
            Keyword::New => creation(alloc, rest, waiting),
            _ => begin_word(token, rest, waiting),
        },
    }
}

// A parenthesis, or the member of a With block's value.
#[tactic(auto, unfolding(crate::specs::MachineReading::begin_sign))]
fn begin_sign<'a>(
    sign: Symbol,
    rest: &'a [Token],
    waiting: &mut Items<Pending>,
) -> Result<(State, &'a [Token]), Fault>
    ensures { Gives (λ x. (waiting.new, x.0, x.1.now)) result (spec.begin_sign waiting.old sign rest.now) }
{
    match sign {
        Symbol::OpenParenthesis => {
            waiting.push(Pending::Parenthesis)?;
            Ok((State::Want, rest))
        }
        Symbol::Dot => {
            let (name, rest) = read_name(rest)?;
            Ok((State::Primary(Expr::WithMemberAccess(name)), rest))
        }
        _ => Err(Fault::Grammar),
    }
}

// A cast, `If`, or the member of a type that has a reserved word.
#[tactic(auto, unfolding(crate::specs::MachineReading::begin_word))]
fn begin_word<'a>(
    token: &Token,
    rest: &'a [Token],
    waiting: &mut Items<Pending>,
) -> Result<(State, &'a [Token]), Fault>
    ensures { Gives (λ x. (waiting.new, x.0, x.1.now)) result (spec.begin_word waiting.old token.now rest.now) }
{
    if let Some(word) = type_of(token) {
        let Some(rest) = after_dot(rest) else {
            return Err(Fault::Grammar);
        };
        let (name, rest) = read_name(rest)?;
        return Ok((State::Primary(Expr::BuiltInMemberAccess(word, name)), rest));
    }
    let Some(inner) = after_opening(rest) else {
        return Err(Fault::Grammar);
    };
    let Some(pending) = call_of(token) else {
        return Err(Fault::Grammar);
    };
    waiting.push(pending)?;
    Ok((State::Want, inner))
}

// What a word before a parenthesis begins.
#[tactic(auto, unfolding(crate::specs::MachineReading::call_of))]
fn call_of(token: &Token) -> Option<Pending>
    ensures { result ≡ spec.call_of token.now }
{
    if let Some(word) = primitive_cast(token) {
        return Some(Pending::Conversion(word));
    }
    if let Some(operator) = cast_operator(token) {
        return Some(Pending::Cast(operator));
    }
    match token {
        Token::Keyword(Keyword::If) => Some(Pending::Test),
        _ => None,
    }
}

// What stands behind New.
#[tactic(auto, unfolding(crate::specs::MachineReading::creation))]
fn creation<'a>(
    alloc: Global,
    tokens: &'a [Token],
    waiting: &mut Items<Pending>,
) -> Result<(State, &'a [Token]), Fault>
    ensures { Gives (λ x. (waiting.new, x.0, x.1.now)) result (spec.creation waiting.old tokens.now) }
{
    let (name, rest) = read_simple_type(alloc, tokens)?;
    let Some(inner) = after_opening(rest) else {
        return Ok((
            State::Primary(Expr::ObjectCreation(name, Items::new(alloc))),
            rest,
        ));
    };
    if let Some(rest) = after_closing(inner) {
        return created(alloc, name, Items::new(alloc), rest, waiting);
    }
    waiting.push(Pending::Creation(name, Items::new(alloc)))?;
    Ok((State::Want, inner))
}

// A new object, or a new array where a brace stands behind the parentheses.
#[tactic(auto, unfolding(crate::specs::MachineReading::created))]
pub fn created<'a>(
    alloc: Global,
    name: SimpleTypeName,
    arguments: Items<Expr>,
    tokens: &'a [Token],
    waiting: &mut Items<Pending>,
) -> Result<(State, &'a [Token]), Fault>
    ensures { Gives (λ x. (waiting.new, x.0, x.1.now)) result (spec.created waiting.old name arguments tokens.now) }
{
    let Some(inner) = after_opening_brace(tokens) else {
        return Ok((
            State::Primary(Expr::ObjectCreation(name, arguments)),
            tokens,
        ));
    };
    let bound = bound_of(alloc, arguments)?;
    if let Some(rest) = after_closing_brace(inner) {
        return Ok((
            State::Primary(Expr::ArrayCreation(name, bound, Items::new(alloc))),
            rest,
        ));
    }
    waiting.push(Pending::Array(name, bound, Items::new(alloc)))?;
    Ok((State::Want, inner))
}

// The bound of a new array: at most one expression.
fn bound_of(alloc: Global, arguments: Items<Expr>) -> Result<Option<Boxed<Expr>>, Fault>
    ensures { Gives (λ b. b) result (spec.bound_of arguments) }
{
    let mut arguments = arguments;
    let Some(bound) = arguments.pop() else {
        return Ok(None);
    };
    if !arguments.is_empty() {
        return Err(Fault::Grammar);
    }
    Ok(Some(Boxed::new(alloc, bound)?))
}
