// Reads the name of a type. A name whose arguments are being read waits in a list, so that no call is within another.
ghost use Rattle.std.specs.Prelude.{◌≡◌, [], ◌++◌, ◌∷◌, length, option_map};
ghost use Rattle.vb_parse_expr.specs.Types.{qualified_by};
ghost use Rattle.vb_parse_expr.specs.declared.types.TypeState.TheVariants as at;
ghost use Rattle.vb_parse_expr.specs.TypeReading as spec;
ghost use Rattle.vb_parse_expr.specs.TypeReading.{Gives};

use crate::ahead::{after_closing, after_comma, after_dot, after_of, after_opening};
use crate::fault::Fault;
use crate::words::{name_of, type_of};
use std::alloc::Global;
use vb_syntax::{Items, QualifiedTypeName, SimpleTypeName, Token, TypeName};
use vb_text::Name;

/// A name whose type arguments are being read.
#[derive(Drop)]
pub struct OpenName {
    pub parts: Items<Name>,
    /// The arguments that have been read.
    pub arguments: Items<TypeName>,
}

/// Where the reading of a type is.
#[derive(Drop)]
pub enum TypeState {
    /// A type is to come.
    Want,
    /// A type has been read.
    Have(SimpleTypeName),
    /// The type that is wanted has been read.
    Done(SimpleTypeName),
}

/// The name of a type at the front of tokens, which may be an array, and the tokens behind it, for readers of more than a type.
#[tactic(auto, unfolding(crate::specs::TypeReading::read_type))]
pub fn read_type(alloc: Global, tokens: &[Token]) -> Result<(TypeName, &[Token]), Fault>
    ensures { Gives (λ x. (x.0, x.1.now)) result (spec.read_type tokens.now) }
{
    let (name, rest) = read_simple_type(alloc, tokens)?;
    Ok(with_array(name, rest))
}

/// The name of a type that is no array.
#[tactic(auto, unfolding(crate::specs::TypeReading::read_simple_type))]
pub fn read_simple_type(
    alloc: Global,
    tokens: &[Token],
) -> Result<(SimpleTypeName, &[Token]), Fault>
    ensures { Gives (λ x. (x.0, x.1.now)) result (spec.read_simple_type tokens.now) }
{
    run_types(alloc, tokens, Items::new(alloc))
}

/// Type arguments in parentheses behind `Of`; none where `(Of` doesn't stand first.
#[tactic(auto, unfolding(crate::specs::TypeReading::read_type_arguments))]
pub fn read_type_arguments(
    alloc: Global,
    tokens: &[Token],
) -> Result<(Items<TypeName>, &[Token]), Fault>
    ensures { Gives (λ x. (x.0, x.1.now)) result (spec.read_type_arguments tokens.now) }
{
    let Some(rest) = after_opening_of(tokens) else {
        return Ok((Items::new(alloc), tokens));
    };
    read_type_list(alloc, rest)
}

// One type or several with commas between them, and the parenthesis that closes.
#[tactic(auto, unfolding(crate::specs::TypeReading::type_list))]
fn read_type_list(alloc: Global, tokens: &[Token]) -> Result<(Items<TypeName>, &[Token]), Fault>
    ensures { Gives (λ x. (x.0, x.1.now)) result (spec.type_list (length tokens.now) [] tokens.now) }
{
    let mut found = Items::new(alloc);
    let mut rest = tokens;
    for _turn in 0..tokens.len() {
        let (name, after) = read_type(alloc, rest)?;
        found.push(name)?;
        let Some(next) = after_comma(after) else {
            let Some(after) = after_closing(after) else {
                return Err(Fault::Grammar);
            };
            return Ok((found, after));
        };
        rest = next;
    }
    Err(Fault::Grammar)
}

fn open_name(parts: Items<Name>, alloc: Global) -> OpenName
    ensures { result ≡ spec.open_name parts [] }
{
    OpenName {
        parts,
        arguments: Items::new(alloc),
    }
}

/// What stands behind `(Of`, where it comes first.
#[tactic(auto, unfolding(crate::specs::TypeReading::after_opening_of))]
pub fn after_opening_of(tokens: &[Token]) -> Option<&[Token]>
    ensures { option_map (λ ts. ts.now) result ≡ spec.after_opening_of tokens.now }
{
    let rest = after_opening(tokens)?;
    after_of(rest)
}

// An array where `()` stands first.
#[tactic(auto, unfolding(crate::specs::TypeReading::with_array))]
fn with_array(name: SimpleTypeName, tokens: &[Token]) -> (TypeName, &[Token])
    ensures { (result.0, result.1.now) ≡ spec.with_array name tokens.now }
{
    let Some(rest) = after_opening(tokens) else {
        return (TypeName::Simple(name), tokens);
    };
    let Some(rest) = after_closing(rest) else {
        return (TypeName::Simple(name), tokens);
    };
    (TypeName::Array(name), rest)
}

#[tactic(auto, unfolding(crate::specs::TypeReading::run_types))]
fn run_types(
    alloc: Global,
    tokens: &[Token],
    waiting: Items<OpenName>,
) -> Result<(SimpleTypeName, &[Token]), Fault>
    ensures { Gives (λ x. (x.0, x.1.now)) result (spec.run_types spec.most_turns waiting at.Want tokens.now) }
{
    let mut waiting = waiting;
    let mut state = TypeState::Want;
    let mut rest = tokens;
    for _turn in 0..u128::MAX {
        let (next, after) = type_step(alloc, state, rest, &mut waiting)?;
        match next {
            TypeState::Done(name) => return Ok((name, after)),
            next => {
                state = next;
                rest = after;
            }
        }
    }
    Err(Fault::Grammar)
}

#[tactic(auto, using(crate::proofs::Lists::popped_last), unfolding(crate::specs::TypeReading::type_step, crate::specs::TypeReading::popped))]
fn type_step<'a>(
    alloc: Global,
    state: TypeState,
    tokens: &'a [Token],
    waiting: &mut Items<OpenName>,
) -> Result<(TypeState, &'a [Token]), Fault>
    ensures { Gives (λ x. (waiting.new, x.0, x.1.now)) result (spec.type_step waiting.old state tokens.now) }
{
    match state {
        TypeState::Want => want_type(alloc, tokens, waiting),
        TypeState::Have(name) => match waiting.pop() {
            Some(begun) => have_type(name, tokens, begun, waiting),
            None => Ok((TypeState::Done(name), tokens)),
        },
        TypeState::Done(name) => Ok((TypeState::Done(name), tokens)),
    }
}

#[tactic(auto, unfolding(crate::specs::TypeReading::want_type))]
fn want_type<'a>(
    alloc: Global,
    tokens: &'a [Token],
    waiting: &mut Items<OpenName>,
) -> Result<(TypeState, &'a [Token]), Fault>
    ensures { Gives (λ x. (waiting.new, x.0, x.1.now)) result (spec.want_type waiting.old tokens.now) }
{
    let [token, rest @ ..] = tokens else {
        return Err(Fault::Grammar);
    };
    if let Some(word) = type_of(token) {
        return Ok((TypeState::Have(SimpleTypeName::BuiltIn(word)), rest));
    }
    let (parts, rest) = read_names(alloc, tokens)?;
    let Some(inner) = after_opening_of(rest) else {
        return Ok((TypeState::Have(qualified(parts, Items::new(alloc))), rest));
    };
    waiting.push(open_name(parts, alloc))?;
    Ok((TypeState::Want, inner))
}

#[tactic(auto, unfolding(crate::specs::TypeReading::have_type))]
fn have_type<'a>(
    name: SimpleTypeName,
    tokens: &'a [Token],
    begun: OpenName,
    waiting: &mut Items<OpenName>,
) -> Result<(TypeState, &'a [Token]), Fault>
    ensures { Gives (λ x. (waiting.new, x.0, x.1.now)) result (spec.have_type name tokens.now begun waiting.old) }
{
    let (argument, rest) = with_array(name, tokens);
    let mut begun = begun;
    begun.arguments.push(argument)?;
    if let Some(next) = after_comma(rest) {
        waiting.push(begun)?;
        return Ok((TypeState::Want, next));
    }
    let Some(rest) = after_closing(rest) else {
        return Err(Fault::Grammar);
    };
    Ok((
        TypeState::Have(qualified(begun.parts, begun.arguments)),
        rest,
    ))
}

fn qualified(parts: Items<Name>, arguments: Items<TypeName>) -> SimpleTypeName
    ensures { result ≡ qualified_by parts arguments }
{
    SimpleTypeName::Qualified(QualifiedTypeName { parts, arguments })
}

// One name or several with dots between them.
#[tactic(auto, unfolding(crate::specs::TypeReading::names))]
fn read_names(alloc: Global, tokens: &[Token]) -> Result<(Items<Name>, &[Token]), Fault>
    ensures { Gives (λ x. (x.0, x.1.now)) result (spec.names (length tokens.now) [] tokens.now) }
{
    let mut names = Items::new(alloc);
    let mut rest = tokens;
    for _turn in 0..tokens.len() {
        let (name, after) = read_name(rest)?;
        names.push(name)?;
        let Some(next) = after_dot(after) else {
            return Ok((names, after));
        };
        rest = next;
    }
    Err(Fault::Grammar)
}

/// The name at the front of tokens, and the tokens behind it.
#[tactic(auto, unfolding(crate::specs::TypeReading::read_name))]
pub fn read_name(tokens: &[Token]) -> Result<(Name, &[Token]), Fault>
    ensures { Gives (λ x. (x.0, x.1.now)) result (spec.read_name tokens.now) }
{
    let [token, rest @ ..] = tokens else {
        return Err(Fault::Grammar);
    };
    match name_of(token) {
        Some(name) => Ok((name, rest)),
        None => Err(Fault::Grammar),
    }
}
