// The headers of types, and the lines behind them.
ghost use Rattle.std.specs.Prelude.{◌≡◌};
ghost use Rattle.vb_parse_expr.specs.TypeReading.{Gives};
ghost use Rattle.vb_parse_decl.specs.LineReading as spec;

use crate::implemented::ended;
use crate::lists::read_list;
use crate::modifiers::only_access;
use crate::parameters::{read_result, read_signature};
use crate::type_parameters::read_type_parameters;
use std::alloc::Global;
use vb_parse_expr::{Fault, read_name};
use vb_syntax::{
    ClassModifier, DeclarationLine, DelegateKind, Items, Keyword, MethodSignature, Modifier, Token,
    TypeName,
};

#[tactic(auto, unfolding(crate::specs::LineReading::read_module))]
pub fn read_module(modifiers: &Items<Modifier>, tokens: &[Token]) -> Result<DeclarationLine, Fault>
    ensures { Gives (λ x. x) result (spec.read_module modifiers.now tokens.now) }
{
    let access = only_access(modifiers)?;
    let (name, rest) = read_name(tokens)?;
    ended(rest, DeclarationLine::Module(access, name))
}

#[tactic(auto, unfolding(crate::specs::LineReading::read_class))]
pub fn read_class(
    alloc: Global,
    modifier: Option<ClassModifier>,
    modifiers: &Items<Modifier>,
    tokens: &[Token],
) -> Result<DeclarationLine, Fault>
    ensures { Gives (λ x. x) result (spec.read_class modifier modifiers.now tokens.now) }
{
    let access = only_access(modifiers)?;
    let (name, rest) = read_name(tokens)?;
    let (type_parameters, rest) = read_type_parameters(alloc, rest)?;
    let line = DeclarationLine::Class {
        access,
        modifier,
        name,
        type_parameters,
    };
    ended(rest, line)
}

/// `Class` and what stands behind it, where `MustInherit` or `NotInheritable` stands before it.
#[tactic(auto, unfolding(crate::specs::LineReading::class_behind))]
pub fn class_behind(
    alloc: Global,
    modifier: ClassModifier,
    modifiers: &Items<Modifier>,
    tokens: &[Token],
) -> Result<DeclarationLine, Fault>
    ensures { Gives (λ x. x) result (spec.class_behind modifier modifiers.now tokens.now) }
{
    match tokens {
        [Token::Keyword(Keyword::Class), rest @ ..] => {
            read_class(alloc, Some(modifier), modifiers, rest)
        }
        _ => Err(Fault::Grammar),
    }
}

#[tactic(auto, unfolding(crate::specs::LineReading::read_interface))]
pub fn read_interface(
    alloc: Global,
    modifiers: &Items<Modifier>,
    tokens: &[Token],
) -> Result<DeclarationLine, Fault>
    ensures { Gives (λ x. x) result (spec.read_interface modifiers.now tokens.now) }
{
    let access = only_access(modifiers)?;
    let (name, rest) = read_name(tokens)?;
    let (type_parameters, rest) = read_type_parameters(alloc, rest)?;
    let line = DeclarationLine::Interface {
        access,
        name,
        type_parameters,
    };
    ended(rest, line)
}

/// What stands behind `Delegate`.
#[tactic(auto, unfolding(crate::specs::LineReading::delegate_behind))]
pub fn delegate_behind(
    alloc: Global,
    modifiers: &Items<Modifier>,
    tokens: &[Token],
) -> Result<DeclarationLine, Fault>
    ensures { Gives (λ x. x) result (spec.delegate_behind modifiers.now tokens.now) }
{
    match tokens {
        [Token::Keyword(Keyword::Sub), rest @ ..] => {
            read_delegate(alloc, DelegateKind::Sub, modifiers, rest)
        }
        [Token::Keyword(Keyword::Function), rest @ ..] => {
            read_delegate(alloc, DelegateKind::Function, modifiers, rest)
        }
        _ => Err(Fault::Grammar),
    }
}

#[tactic(auto, unfolding(crate::specs::LineReading::read_delegate))]
fn read_delegate(
    alloc: Global,
    kind: DelegateKind,
    modifiers: &Items<Modifier>,
    tokens: &[Token],
) -> Result<DeclarationLine, Fault>
    ensures { Gives (λ x. x) result (spec.read_delegate kind modifiers.now tokens.now) }
{
    let access = only_access(modifiers)?;
    let (signature, rest) = read_signature(alloc, tokens)?;
    let (result_type, rest) = read_result(alloc, rest)?;
    let MethodSignature {
        name,
        type_parameters,
        parameters,
    } = signature;
    let line = DeclarationLine::Delegate {
        access,
        kind,
        name,
        type_parameters,
        parameters,
        result: result_type,
    };
    ended(rest, line)
}

#[tactic(auto, unfolding(crate::specs::LineReading::read_inherits))]
pub fn read_inherits(
    alloc: Global,
    modifiers: &Items<Modifier>,
    tokens: &[Token],
) -> Result<DeclarationLine, Fault>
    ensures { Gives (λ x. x) result (spec.read_inherits modifiers.now tokens.now) }
{
    let bases = last_types(alloc, modifiers, tokens)?;
    Ok(DeclarationLine::Inherits(bases))
}

#[tactic(auto, unfolding(crate::specs::LineReading::read_implements_line))]
pub fn read_implements_line(
    alloc: Global,
    modifiers: &Items<Modifier>,
    tokens: &[Token],
) -> Result<DeclarationLine, Fault>
    ensures { Gives (λ x. x) result (spec.read_implements_line modifiers.now tokens.now) }
{
    let interfaces = last_types(alloc, modifiers, tokens)?;
    Ok(DeclarationLine::Implements(interfaces))
}

// Types up to the end, on a line without modifiers.
#[tactic(auto, unfolding(crate::specs::LineReading::last_types))]
fn last_types(
    alloc: Global,
    modifiers: &Items<Modifier>,
    tokens: &[Token],
) -> Result<Items<TypeName>, Fault>
    ensures { Gives (λ x. x) result (spec.last_types modifiers.now tokens.now) }
{
    if !modifiers.is_empty() {
        return Err(Fault::Grammar);
    }
    let (found, rest) = read_list(alloc, tokens)?;
    ended(rest, found)
}
