// The headers of members and of their accessors.
ghost use Rattle.std.specs.Prelude.{◌≡◌};
ghost use Rattle.vb_parse_expr.specs.TypeReading.{Gives};
ghost use Rattle.vb_parse_decl.specs.LineReading as spec;

use crate::ahead::after_equal;
use crate::implemented::{ended, last_implements};
use crate::modifiers::{only_access, property_split};
use crate::parameters::{
    name_modifier, read_declared, read_parameters, read_signature, read_written,
};
use std::alloc::Global;
use vb_parse_expr::{Fault, after_opening, read_expression, read_name};
use vb_syntax::{
    DeclarationLine, EventAccessorKind, EventHandler, Expr, FunctionKind, Items, Keyword, Modifier,
    PropertyHeader, PropertyKind, Token,
};

/// What stands behind `Sub`.
#[tactic(auto, unfolding(crate::specs::LineReading::sub_behind))]
pub fn sub_behind(
    alloc: Global,
    modifiers: Items<Modifier>,
    tokens: &[Token],
) -> Result<DeclarationLine, Fault>
    ensures { Gives (λ x. x) result (spec.sub_behind modifiers tokens.now) }
{
    match tokens {
        [Token::Keyword(Keyword::New), rest @ ..] => read_constructor(alloc, modifiers, rest),
        _ => read_sub(alloc, modifiers, tokens),
    }
}

#[tactic(auto, unfolding(crate::specs::LineReading::read_sub))]
fn read_sub(
    alloc: Global,
    modifiers: Items<Modifier>,
    tokens: &[Token],
) -> Result<DeclarationLine, Fault>
    ensures { Gives (λ x. x) result (spec.read_sub modifiers tokens.now) }
{
    let (signature, rest) = read_signature(alloc, tokens)?;
    let implements = last_implements(alloc, rest)?;
    Ok(DeclarationLine::Sub(modifiers, signature, implements))
}

#[tactic(auto, unfolding(crate::specs::LineReading::read_constructor))]
fn read_constructor(
    alloc: Global,
    modifiers: Items<Modifier>,
    tokens: &[Token],
) -> Result<DeclarationLine, Fault>
    ensures { Gives (λ x. x) result (spec.read_constructor modifiers tokens.now) }
{
    let (parameters, rest) = read_parameters(alloc, tokens)?;
    let implements = last_implements(alloc, rest)?;
    Ok(DeclarationLine::Constructor(modifiers, parameters, implements))
}

#[tactic(auto, unfolding(crate::specs::LineReading::read_function))]
pub fn read_function(
    alloc: Global,
    kind: FunctionKind,
    modifiers: Items<Modifier>,
    tokens: &[Token],
) -> Result<DeclarationLine, Fault>
    ensures { Gives (λ x. x) result (spec.read_function kind modifiers tokens.now) }
{
    let (signature, rest) = read_signature(alloc, tokens)?;
    let (result_type, rest) = read_declared(alloc, rest)?;
    let implements = last_implements(alloc, rest)?;
    Ok(DeclarationLine::Function {
        modifiers,
        kind,
        signature,
        result: result_type,
        implements,
    })
}

/// What stands behind `WriteOnly`.
#[tactic(auto, unfolding(crate::specs::LineReading::write_only_behind))]
pub fn write_only_behind(
    alloc: Global,
    modifiers: Items<Modifier>,
    tokens: &[Token],
) -> Result<DeclarationLine, Fault>
    ensures { Gives (λ x. x) result (spec.write_only_behind modifiers tokens.now) }
{
    match tokens {
        [Token::Keyword(Keyword::Property), rest @ ..] => {
            let header = read_property(alloc, PropertyKind::WriteOnly, rest)?;
            Ok(DeclarationLine::Property(modifiers, header))
        }
        _ => Err(Fault::Grammar),
    }
}

/// What stands behind `Property`: the last `ReadOnly` among the modifiers gives its kind.
#[tactic(auto, unfolding(crate::specs::LineReading::property_behind))]
pub fn property_behind(
    alloc: Global,
    modifiers: Items<Modifier>,
    tokens: &[Token],
) -> Result<DeclarationLine, Fault>
    ensures { Gives (λ x. x) result (spec.property_behind modifiers tokens.now) }
{
    let (modifiers, kind) = property_split(alloc, modifiers)?;
    let header = read_property(alloc, kind, tokens)?;
    Ok(DeclarationLine::Property(modifiers, header))
}

#[tactic(auto, unfolding(crate::specs::LineReading::read_property))]
fn read_property(
    alloc: Global,
    kind: PropertyKind,
    tokens: &[Token],
) -> Result<PropertyHeader, Fault>
    ensures { Gives (λ x. x) result (spec.read_property kind tokens.now) }
{
    let (name, rest) = read_name(tokens)?;
    let (modifier, rest) = name_modifier(rest);
    let (declared, rest) = read_declared(alloc, rest)?;
    let (initializer, rest) = read_initial(alloc, rest)?;
    let implements = last_implements(alloc, rest)?;
    Ok(PropertyHeader {
        kind,
        name,
        modifier,
        declared,
        initializer,
        implements,
    })
}

// `=` and a first value, where `=` stands first.
#[tactic(auto, unfolding(crate::specs::LineReading::read_initial))]
fn read_initial(alloc: Global, tokens: &[Token]) -> Result<(Option<Expr>, &[Token]), Fault>
    ensures { Gives (λ x. (x.0, x.1.now)) result (spec.read_initial tokens.now) }
{
    let Some(rest) = after_equal(tokens) else {
        return Ok((None, tokens));
    };
    let (value, rest) = read_expression(alloc, rest)?;
    Ok((Some(value), rest))
}

#[tactic(auto, unfolding(crate::specs::LineReading::read_event))]
pub fn read_event(
    alloc: Global,
    modifiers: Items<Modifier>,
    tokens: &[Token],
) -> Result<DeclarationLine, Fault>
    ensures { Gives (λ x. x) result (spec.read_event modifiers tokens.now) }
{
    let (name, rest) = read_name(tokens)?;
    let (handler, rest) = read_handler(alloc, rest)?;
    let implements = last_implements(alloc, rest)?;
    Ok(DeclarationLine::Event {
        modifiers,
        name,
        handler,
        implements,
    })
}

// The parameters of an event's handlers, or their delegate.
#[tactic(auto, unfolding(crate::specs::LineReading::read_handler))]
fn read_handler(alloc: Global, tokens: &[Token]) -> Result<(EventHandler, &[Token]), Fault>
    ensures { Gives (λ x. (x.0, x.1.now)) result (spec.read_handler tokens.now) }
{
    if after_opening(tokens).is_none() {
        let (delegate, rest) = read_declared(alloc, tokens)?;
        return Ok((EventHandler::Delegate(delegate), rest));
    }
    let (parameters, rest) = read_written(alloc, tokens)?;
    Ok((EventHandler::Parameters(parameters), rest))
}

#[tactic(auto, unfolding(crate::specs::LineReading::read_custom_event))]
pub fn read_custom_event(
    alloc: Global,
    modifiers: Items<Modifier>,
    tokens: &[Token],
) -> Result<DeclarationLine, Fault>
    ensures { Gives (λ x. x) result (spec.read_custom_event modifiers tokens.now) }
{
    let (name, rest) = read_name(tokens)?;
    let (delegate, rest) = read_declared(alloc, rest)?;
    ended(
        rest,
        DeclarationLine::CustomEvent(modifiers, name, delegate),
    )
}

#[tactic(auto, unfolding(crate::specs::LineReading::read_get))]
pub fn read_get(modifiers: &Items<Modifier>, tokens: &[Token]) -> Result<DeclarationLine, Fault>
    ensures { Gives (λ x. x) result (spec.read_get modifiers.now tokens.now) }
{
    let access = only_access(modifiers)?;
    ended(tokens, DeclarationLine::Get(access))
}

#[tactic(auto, unfolding(crate::specs::LineReading::read_set))]
pub fn read_set(
    alloc: Global,
    modifiers: &Items<Modifier>,
    tokens: &[Token],
) -> Result<DeclarationLine, Fault>
    ensures { Gives (λ x. x) result (spec.read_set modifiers.now tokens.now) }
{
    let access = only_access(modifiers)?;
    let (parameters, rest) = read_parameters(alloc, tokens)?;
    ended(rest, DeclarationLine::Set(access, parameters))
}

#[tactic(auto, unfolding(crate::specs::LineReading::read_accessor))]
pub fn read_accessor(
    alloc: Global,
    kind: EventAccessorKind,
    modifiers: &Items<Modifier>,
    tokens: &[Token],
) -> Result<DeclarationLine, Fault>
    ensures { Gives (λ x. x) result (spec.read_accessor kind modifiers.now tokens.now) }
{
    if !modifiers.is_empty() {
        return Err(Fault::Grammar);
    }
    let (parameters, rest) = read_written(alloc, tokens)?;
    ended(rest, DeclarationLine::EventAccessor(kind, parameters))
}
