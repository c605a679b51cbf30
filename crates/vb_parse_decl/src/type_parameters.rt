// Type parameters.
ghost use Rattle.std.specs.Prelude.{◌≡◌, List, option_map};
ghost use Rattle.vb_parse_expr.specs.TypeReading.{Gives, read_type as type_read};
ghost use Rattle.vb_parse_decl.specs.DeclarationReading as spec;

use crate::ahead::after_as;
use crate::lists::{Listed, read_list};
use std::alloc::Global;
use vb_parse_expr::{
    Fault, after_closing, after_closing_brace, after_opening_brace, after_opening_of, read_name,
    read_type,
};
use vb_syntax::{Items, Keyword, Token, TypeConstraint, TypeName, TypeParameter};

impl Listed for TypeName {
    ghost reading = { type_read };

    fn read(alloc: Global, tokens: &[Token]) -> Result<(TypeName, &[Token]), Fault> {
        read_type(alloc, tokens)
    }
}

impl Listed for TypeConstraint {
    ghost reading = { spec.read_constraint };

    fn read(alloc: Global, tokens: &[Token]) -> Result<(TypeConstraint, &[Token]), Fault> {
        read_constraint(alloc, tokens)
    }
}

impl Listed for TypeParameter {
    ghost reading = { spec.read_type_parameter };

    fn read(alloc: Global, tokens: &[Token]) -> Result<(TypeParameter, &[Token]), Fault> {
        read_type_parameter(alloc, tokens)
    }
}

/// Type parameters in parentheses behind `Of`; none where `(Of` doesn't stand first.
#[tactic(auto, unfolding(crate::specs::DeclarationReading::read_type_parameters))]
pub fn read_type_parameters(
    alloc: Global,
    tokens: &[Token],
) -> Result<(Items<TypeParameter>, &[Token]), Fault>
    ensures { Gives (λ x. (x.0, x.1.now)) result (spec.read_type_parameters tokens.now) }
{
    let Some(rest) = after_opening_of(tokens) else {
        return Ok((Items::new(alloc), tokens));
    };
    let (found, rest) = read_list(alloc, rest)?;
    let Some(rest) = after_closing(rest) else {
        return Err(Fault::Grammar);
    };
    Ok((found, rest))
}

// A name, and its constraints if `As` stands behind it.
#[tactic(auto, unfolding(crate::specs::DeclarationReading::read_type_parameter))]
fn read_type_parameter(alloc: Global, tokens: &[Token]) -> Result<(TypeParameter, &[Token]), Fault>
    ensures { Gives (λ x. (x.0, x.1.now)) result (spec.read_type_parameter tokens.now) }
{
    let (name, rest) = read_name(tokens)?;
    let Some(after) = after_as(rest) else {
        let constraints = Items::new(alloc);
        return Ok((TypeParameter { name, constraints }, rest));
    };
    let (constraints, rest) = read_constraints(alloc, after)?;
    Ok((TypeParameter { name, constraints }, rest))
}

// One constraint, or several in braces.
#[tactic(auto, unfolding(crate::specs::DeclarationReading::read_constraints))]
fn read_constraints(
    alloc: Global,
    tokens: &[Token],
) -> Result<(Items<TypeConstraint>, &[Token]), Fault>
    ensures { Gives (λ x. (x.0, x.1.now)) result (spec.read_constraints tokens.now) }
{
    let Some(rest) = after_opening_brace(tokens) else {
        let (constraint, rest) = read_constraint(alloc, tokens)?;
        let mut found = Items::new(alloc);
        found.push(constraint)?;
        return Ok((found, rest));
    };
    let (found, rest) = read_list(alloc, rest)?;
    let Some(rest) = after_closing_brace(rest) else {
        return Err(Fault::Grammar);
    };
    Ok((found, rest))
}

#[tactic(auto, unfolding(crate::specs::DeclarationReading::read_constraint))]
fn read_constraint(alloc: Global, tokens: &[Token]) -> Result<(TypeConstraint, &[Token]), Fault>
    ensures { Gives (λ x. (x.0, x.1.now)) result (spec.read_constraint tokens.now) }
{
    if let Some(found) = constraint_word(tokens) {
        return Ok(found);
    }
    let (named, rest) = read_type(alloc, tokens)?;
    Ok((TypeConstraint::Type(named), rest))
}

// `Class` or `New`, where one of them comes first.
#[tactic(auto, unfolding(crate::specs::DeclarationReading::constraint_word))]
fn constraint_word(tokens: &[Token]) -> Option<(TypeConstraint, &[Token])>
    ensures { option_map (λ x. (x.0, x.1.now)) result ≡ spec.constraint_word tokens.now }
{
    match tokens {
        [Token::Keyword(Keyword::Class), rest @ ..] => Some((TypeConstraint::Class, rest)),
        [Token::Keyword(Keyword::New), rest @ ..] => Some((TypeConstraint::New, rest)),
        _ => None,
    }
}
