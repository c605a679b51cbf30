// Implemented members.
ghost use Rattle.std.specs.Prelude.{◌≡◌, List};
ghost use Rattle.vb_parse_expr.specs.TypeReading.{Gives, popped};
ghost use Rattle.vb_parse_decl.specs.LineReading as spec;
ghost use Rattle.vb_parse_decl.specs.MemberReading.{last_name, member_of as member_in, member_of_simple as simple_member};

use crate::ahead::after_implements;
use crate::lists::{Listed, read_list};
use std::alloc::Global;
use vb_parse_expr::{Fault, after_dot, read_name, read_type};
use vb_syntax::{ImplementedMember, Items, QualifiedTypeName, SimpleTypeName, Token, TypeName};
use vb_text::Name;

impl Listed for ImplementedMember {
    ghost reading = { spec.read_implemented };

    fn read(alloc: Global, tokens: &[Token]) -> Result<(ImplementedMember, &[Token]), Fault> {
        read_implemented(alloc, tokens)
    }
}

/// Implemented members up to the end, or nothing.
#[tactic(auto, unfolding(crate::specs::LineReading::last_implements))]
pub fn last_implements(alloc: Global, tokens: &[Token]) -> Result<Items<ImplementedMember>, Fault>
    ensures { Gives (λ x. x) result (spec.last_implements tokens.now) }
{
    let (found, rest) = read_implements(alloc, tokens)?;
    ended(rest, found)
}

/// What was found, where nothing stands behind it.
pub fn ended<X: Drop>(rest: &[Token], found: X) -> Result<X, Fault>
    ensures { Gives (λ x. x) result (spec.ended rest.now found) }
{
    match rest {
        [] => Ok(found),
        _ => Err(Fault::Grammar),
    }
}

#[tactic(auto, unfolding(crate::specs::LineReading::read_implements))]
fn read_implements(
    alloc: Global,
    tokens: &[Token],
) -> Result<(Items<ImplementedMember>, &[Token]), Fault>
    ensures { Gives (λ x. (x.0, x.1.now)) result (spec.read_implements tokens.now) }
{
    let Some(rest) = after_implements(tokens) else {
        return Ok((Items::new(alloc), tokens));
    };
    read_list(alloc, rest)
}

// A type, a dot and the name of its member.
#[tactic(auto, unfolding(crate::specs::LineReading::read_implemented))]
fn read_implemented(alloc: Global, tokens: &[Token]) -> Result<(ImplementedMember, &[Token]), Fault>
    ensures { Gives (λ x. (x.0, x.1.now)) result (spec.read_implemented tokens.now) }
{
    let (interface, rest) = read_type(alloc, tokens)?;
    if let Some(after) = after_dot(rest) {
        let (member, rest) = read_name(after)?;
        return Ok((ImplementedMember { interface, member }, rest));
    }
    let Some((interface, member)) = member_of(interface) else {
        return Err(Fault::Grammar);
    };
    Ok((ImplementedMember { interface, member }, rest))
}

// The type before the last name, and that name, where the dot before it was read as one of the type's.
#[tactic(auto, unfolding(crate::specs::MemberReading::member_of))]
fn member_of(named: TypeName) -> Option<(TypeName, Name)>
    ensures { result ≡ member_in named }
{
    match named {
        TypeName::Simple(named) => member_of_simple(named),
        TypeName::Array(_) => None,
    }
}

fn member_of_simple(named: SimpleTypeName) -> Option<(TypeName, Name)>
    ensures { result ≡ simple_member named }
{
    match named {
        SimpleTypeName::Qualified(name) => member_of_names(name),
        SimpleTypeName::BuiltIn(_) => None,
    }
}

#[tactic(auto, using(vb_parse_expr::proofs::Lists::popped_last), unfolding(vb_parse_expr::specs::TypeReading::popped))]
fn member_of_names(name: QualifiedTypeName) -> Option<(TypeName, Name)>
    ensures { result ≡ last_name name.arguments (popped name.parts) }
{
    let QualifiedTypeName { parts, arguments } = name;
    let mut before = parts;
    let member = before.pop()?;
    if before.is_empty() || !arguments.is_empty() {
        return None;
    }
    let interface = QualifiedTypeName {
        parts: before,
        arguments,
    };
    Some((
        TypeName::Simple(SimpleTypeName::Qualified(interface)),
        member,
    ))
}
