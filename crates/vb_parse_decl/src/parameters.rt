// Parameters and signatures.
ghost use Rattle.std.specs.Prelude.{◌≡◌, List};
ghost use Rattle.vb_parse_expr.specs.TypeReading.{Gives};
ghost use Rattle.vb_parse_decl.specs.DeclarationReading as spec;

use crate::ahead::after_as;
use crate::lists::{Listed, read_list};
use crate::type_parameters::read_type_parameters;
use std::alloc::Global;
use vb_parse_expr::{Fault, after_closing, after_opening, read_name, read_type};
use vb_syntax::{
    Items, Keyword, MethodSignature, NameModifier, Parameter, PassedBy, Token, TypeName,
};

impl Listed for Parameter {
    ghost reading = { spec.read_parameter };

    fn read(alloc: Global, tokens: &[Token]) -> Result<(Parameter, &[Token]), Fault> {
        read_parameter(alloc, tokens)
    }
}

/// A name, type parameters and parameters.
#[tactic(auto, unfolding(crate::specs::DeclarationReading::read_signature))]
pub fn read_signature(alloc: Global, tokens: &[Token]) -> Result<(MethodSignature, &[Token]), Fault>
    ensures { Gives (λ x. (x.0, x.1.now)) result (spec.read_signature tokens.now) }
{
    let (name, rest) = read_name(tokens)?;
    let (type_parameters, rest) = read_type_parameters(alloc, rest)?;
    let (parameters, rest) = read_parameters(alloc, rest)?;
    let signature = MethodSignature {
        name,
        type_parameters,
        parameters,
    };
    Ok((signature, rest))
}

/// Parameters in parentheses; none where `(` doesn't stand first.
#[tactic(auto, unfolding(crate::specs::DeclarationReading::read_parameters))]
pub fn read_parameters(
    alloc: Global,
    tokens: &[Token],
) -> Result<(Items<Parameter>, &[Token]), Fault>
    ensures { Gives (λ x. (x.0, x.1.now)) result (spec.read_parameters tokens.now) }
{
    let Some(rest) = after_opening(tokens) else {
        return Ok((Items::new(alloc), tokens));
    };
    read_opened(alloc, rest)
}

/// Parameters in parentheses, which must be written.
#[tactic(auto, unfolding(crate::specs::DeclarationReading::read_written))]
pub fn read_written(alloc: Global, tokens: &[Token]) -> Result<(Items<Parameter>, &[Token]), Fault>
    ensures { Gives (λ x. (x.0, x.1.now)) result (spec.read_written tokens.now) }
{
    let Some(rest) = after_opening(tokens) else {
        return Err(Fault::Grammar);
    };
    read_opened(alloc, rest)
}

// What stands behind the parenthesis that opens, up to the one that closes.
#[tactic(auto, unfolding(crate::specs::DeclarationReading::read_opened))]
fn read_opened(alloc: Global, tokens: &[Token]) -> Result<(Items<Parameter>, &[Token]), Fault>
    ensures { Gives (λ x. (x.0, x.1.now)) result (spec.read_opened tokens.now) }
{
    if let Some(rest) = after_closing(tokens) {
        return Ok((Items::new(alloc), rest));
    }
    let (found, rest) = read_list(alloc, tokens)?;
    let Some(rest) = after_closing(rest) else {
        return Err(Fault::Grammar);
    };
    Ok((found, rest))
}

#[tactic(auto, unfolding(crate::specs::DeclarationReading::read_parameter))]
fn read_parameter(alloc: Global, tokens: &[Token]) -> Result<(Parameter, &[Token]), Fault>
    ensures { Gives (λ x. (x.0, x.1.now)) result (spec.read_parameter tokens.now) }
{
    let (passed, rest) = passed_by(tokens);
    let (name, rest) = read_name(rest)?;
    let (modifier, rest) = name_modifier(rest);
    let (declared, rest) = read_declared(alloc, rest)?;
    let parameter = Parameter {
        passed,
        name,
        modifier,
        declared,
    };
    Ok((parameter, rest))
}

#[tactic(auto, unfolding(crate::specs::DeclarationReading::passed_by))]
fn passed_by(tokens: &[Token]) -> (PassedBy, &[Token])
    ensures { (result.0, result.1.now) ≡ spec.passed_by tokens.now }
{
    match tokens {
        [Token::Keyword(Keyword::ByVal), rest @ ..] => (PassedBy::Value, rest),
        [Token::Keyword(Keyword::ByRef), rest @ ..] => (PassedBy::Reference, rest),
        _ => (PassedBy::Value, tokens),
    }
}

/// `()` or nothing, as behind the name of a parameter or a property.
#[tactic(auto, unfolding(crate::specs::DeclarationReading::name_modifier_of))]
pub fn name_modifier(tokens: &[Token]) -> (NameModifier, &[Token])
    ensures { (result.0, result.1.now) ≡ spec.name_modifier_of tokens.now }
{
    let Some(rest) = after_opening(tokens) else {
        return (NameModifier::Plain, tokens);
    };
    let Some(rest) = after_closing(rest) else {
        return (NameModifier::Plain, tokens);
    };
    (NameModifier::Array, rest)
}

/// `As` and a type.
#[tactic(auto, unfolding(crate::specs::DeclarationReading::read_declared))]
pub fn read_declared(alloc: Global, tokens: &[Token]) -> Result<(TypeName, &[Token]), Fault>
    ensures { Gives (λ x. (x.0, x.1.now)) result (spec.read_declared tokens.now) }
{
    let Some(rest) = after_as(tokens) else {
        return Err(Fault::Grammar);
    };
    read_type(alloc, rest)
}

/// `As` and the type of a result, where `As` stands first.
#[tactic(auto, unfolding(crate::specs::DeclarationReading::read_result))]
pub fn read_result(alloc: Global, tokens: &[Token]) -> Result<(Option<TypeName>, &[Token]), Fault>
    ensures { Gives (λ x. (x.0, x.1.now)) result (spec.read_result tokens.now) }
{
    let Some(rest) = after_as(tokens) else {
        return Ok((None, tokens));
    };
    let (named, rest) = read_type(alloc, rest)?;
    Ok((Some(named), rest))
}
