// The modifiers of a line.
ghost use Rattle.std.specs.Prelude.{◌≡◌, IfOk, [], option_map};
ghost use Rattle.vb_parse_expr.specs.TypeReading.{Gives};
ghost use Rattle.vb_parse_decl.specs.DeclarationLines as lines;
ghost use Rattle.vb_parse_decl.specs.ModifierReading as spec;

use std::alloc::{AllocError, Global};
use vb_parse_expr::Fault;
use vb_syntax::{Access, Items, Keyword, Modifier, PropertyKind, Token};

/// The modifiers at the front of tokens, as many as there are, and the tokens behind them.
#[tactic(auto, unfolding(crate::specs::ModifierReading::read_modifiers, crate::specs::ModifierReading::modifiers_from))]
pub fn read_modifiers(
    alloc: Global,
    tokens: &[Token],
) -> Result<(Items<Modifier>, &[Token]), AllocError>
    ensures { IfOk result (λ x. (x.0, x.1.now) ≡ spec.read_modifiers tokens.now) }
{
    let mut found = Items::new(alloc);
    let mut rest = tokens;
    for _turn in 0..tokens.len() {
        let Some((modifier, after)) = first_modifier(rest) else {
            return Ok((found, rest));
        };
        found.push(modifier)?;
        rest = after;
    }
    Ok((found, rest))
}

// The modifier that comes first: `Protected Friend` is one.
#[tactic(auto, unfolding(crate::specs::ModifierReading::first_modifier))]
fn first_modifier(tokens: &[Token]) -> Option<(Modifier, &[Token])>
    ensures { option_map (λ x. (x.0, x.1.now)) result ≡ spec.first_modifier tokens.now }
{
    match after_protected_friend(tokens) {
        Some(rest) => Some((Modifier::Access(Access::ProtectedFriend), rest)),
        None => first_word(tokens),
    }
}

#[tactic(auto, unfolding(crate::specs::ModifierReading::after_protected_friend))]
fn after_protected_friend(tokens: &[Token]) -> Option<&[Token]>
    ensures { option_map (λ ts. ts.now) result ≡ spec.after_protected_friend tokens.now }
{
    match tokens {
        [
            Token::Keyword(Keyword::Protected),
            Token::Keyword(Keyword::Friend),
            rest @ ..,
        ] => Some(rest),
        _ => None,
    }
}

// The modifier that the first word is.
#[tactic(auto, unfolding(crate::specs::ModifierReading::first_word))]
fn first_word(tokens: &[Token]) -> Option<(Modifier, &[Token])>
    ensures { option_map (λ x. (x.0, x.1.now)) result ≡ spec.first_word tokens.now }
{
    let [Token::Keyword(word), rest @ ..] = tokens else {
        return None;
    };
    let modifier = word_modifier(*word)?;
    Some((modifier, rest))
}

fn word_modifier(word: Keyword) -> Option<Modifier>
    ensures { result ≡ spec.word_modifier word }
{
    match word {
        Keyword::Public => Some(Modifier::Access(Access::Public)),
        Keyword::Private => Some(Modifier::Access(Access::Private)),
        Keyword::Protected => Some(Modifier::Access(Access::Protected)),
        Keyword::Friend => Some(Modifier::Access(Access::Friend)),
        Keyword::Shared => Some(Modifier::Shared),
        Keyword::Overridable => Some(Modifier::Overridable),
        Keyword::Overrides => Some(Modifier::Overrides),
        Keyword::MustOverride => Some(Modifier::MustOverride),
        Keyword::NotOverridable => Some(Modifier::NotOverridable),
        Keyword::Overloads => Some(Modifier::Overloads),
        Keyword::Shadows => Some(Modifier::Shadows),
        Keyword::ReadOnly => Some(Modifier::ReadOnly),
        _ => None,
    }
}

/// The access that the modifiers are, or that there are none.
pub fn only_access(modifiers: &Items<Modifier>) -> Result<Option<Access>, Fault>
    ensures { Gives (λ x. x) result (spec.only_access modifiers.now) }
{
    match modifiers.as_slice() {
        [] => Ok(None),
        [Modifier::Access(access)] => Ok(Some(*access)),
        _ => Err(Fault::Grammar),
    }
}

/// The modifiers of a property and its kind: the last `ReadOnly`, wherever it stands, gives the kind and is not kept among them.
pub fn property_split(
    alloc: Global,
    modifiers: Items<Modifier>,
) -> Result<(Items<Modifier>, PropertyKind), AllocError>
    ensures { IfOk result (λ x. x ≡ spec.property_split modifiers) }
{
    if !has_read_only(modifiers.as_slice()) {
        return Ok((modifiers, PropertyKind::ReadWrite));
    }
    let kept = without_last(alloc, modifiers.as_slice())?;
    Ok((kept, PropertyKind::ReadOnly))
}

// Without the last `ReadOnly`.
#[tactic(auto, using(crate::proofs::PropertyModifiers::turn_stays, crate::proofs::PropertyModifiers::turn_drops), unfolding(crate::specs::ModifierReading::without_last))]
fn without_last(alloc: Global, modifiers: &[Modifier]) -> Result<Items<Modifier>, AllocError>
    ensures { IfOk result (λ x. x ≡ spec.without_last modifiers.now) }
{
    let mut kept = Items::new(alloc);
    let mut rest = modifiers;
    while let [first, behind @ ..] = rest {
        if !is_last_read_only(*first, behind) {
            kept.push(*first)?;
        }
        rest = behind;
    }
    Ok(kept)
}

fn is_last_read_only(modifier: Modifier, behind: &[Modifier]) -> bool
    ensures { result ≡ spec.is_last_read_only modifier behind.now }
{
    match modifier {
        Modifier::ReadOnly => !has_read_only(behind),
        _ => false,
    }
}

fn has_read_only(modifiers: &[Modifier]) -> bool
    ensures { result ≡ lines.has_read_only modifiers.now }
{
    for modifier in modifiers {
        if is_read_only(*modifier) {
            return true;
        }
    }
    false
}

fn is_read_only(modifier: Modifier) -> bool
    ensures { result ≡ lines.is_read_only modifier }
{
    matches!(modifier, Modifier::ReadOnly)
}
