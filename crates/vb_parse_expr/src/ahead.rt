// What stands behind a token, where it comes first.
ghost use Rattle.std.specs.Prelude.{◌≡◌, option_map};
ghost use Rattle.vb_parse_expr.specs.Reading as spec;

use vb_syntax::{Keyword, Symbol, Token};

/// What stands behind `(`, where it comes first.
#[tactic(auto, unfolding(crate::specs::Reading::after_opening))]
pub fn after_opening(tokens: &[Token]) -> Option<&[Token]>
    ensures { option_map (λ ts. ts.now) result ≡ spec.after_opening tokens.now }
{
    match tokens {
        [Token::Symbol(Symbol::OpenParenthesis), rest @ ..] => Some(rest),
        _ => None,
    }
}

/// What stands behind `)`, where it comes first.
#[tactic(auto, unfolding(crate::specs::Reading::after_closing))]
pub fn after_closing(tokens: &[Token]) -> Option<&[Token]>
    ensures { option_map (λ ts. ts.now) result ≡ spec.after_closing tokens.now }
{
    match tokens {
        [Token::Symbol(Symbol::CloseParenthesis), rest @ ..] => Some(rest),
        _ => None,
    }
}

/// What stands behind `{`, where it comes first.
#[tactic(auto, unfolding(crate::specs::Reading::after_opening_brace))]
pub fn after_opening_brace(tokens: &[Token]) -> Option<&[Token]>
    ensures { option_map (λ ts. ts.now) result ≡ spec.after_opening_brace tokens.now }
{
    match tokens {
        [Token::Symbol(Symbol::OpenBrace), rest @ ..] => Some(rest),
        _ => None,
    }
}

/// What stands behind `}`, where it comes first.
#[tactic(auto, unfolding(crate::specs::Reading::after_closing_brace))]
pub fn after_closing_brace(tokens: &[Token]) -> Option<&[Token]>
    ensures { option_map (λ ts. ts.now) result ≡ spec.after_closing_brace tokens.now }
{
    match tokens {
        [Token::Symbol(Symbol::CloseBrace), rest @ ..] => Some(rest),
        _ => None,
    }
}

/// What stands behind `,`, where it comes first.
#[tactic(auto, unfolding(crate::specs::Reading::after_comma))]
pub fn after_comma(tokens: &[Token]) -> Option<&[Token]>
    ensures { option_map (λ ts. ts.now) result ≡ spec.after_comma tokens.now }
{
    match tokens {
        [Token::Symbol(Symbol::Comma), rest @ ..] => Some(rest),
        _ => None,
    }
}

/// What stands behind `.`, where it comes first.
#[tactic(auto, unfolding(crate::specs::Reading::after_dot))]
pub fn after_dot(tokens: &[Token]) -> Option<&[Token]>
    ensures { option_map (λ ts. ts.now) result ≡ spec.after_dot tokens.now }
{
    match tokens {
        [Token::Symbol(Symbol::Dot), rest @ ..] => Some(rest),
        _ => None,
    }
}

#[tactic(auto, unfolding(crate::specs::Reading::after_is))]
pub fn after_is(tokens: &[Token]) -> Option<&[Token]>
    ensures { option_map (λ ts. ts.now) result ≡ spec.after_is tokens.now }
{
    match tokens {
        [Token::Keyword(Keyword::Is), rest @ ..] => Some(rest),
        _ => None,
    }
}

#[tactic(auto, unfolding(crate::specs::Reading::after_of))]
pub fn after_of(tokens: &[Token]) -> Option<&[Token]>
    ensures { option_map (λ ts. ts.now) result ≡ spec.after_of tokens.now }
{
    match tokens {
        [Token::Keyword(Keyword::Of), rest @ ..] => Some(rest),
        _ => None,
    }
}
