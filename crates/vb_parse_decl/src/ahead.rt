// What stands behind a token, where it comes first.
ghost use Rattle.std.specs.Prelude.{◌≡◌, option_map};
ghost use Rattle.vb_parse_decl.specs.DeclarationReading as spec;

use vb_syntax::{Keyword, Symbol, Token};

#[tactic(auto, unfolding(crate::specs::DeclarationReading::after_as))]
pub fn after_as(tokens: &[Token]) -> Option<&[Token]>
    ensures { option_map (λ ts. ts.now) result ≡ spec.after_as tokens.now }
{
    match tokens {
        [Token::Keyword(Keyword::As), rest @ ..] => Some(rest),
        _ => None,
    }
}

#[tactic(auto, unfolding(crate::specs::DeclarationReading::after_implements))]
pub fn after_implements(tokens: &[Token]) -> Option<&[Token]>
    ensures { option_map (λ ts. ts.now) result ≡ spec.after_implements tokens.now }
{
    match tokens {
        [Token::Keyword(Keyword::Implements), rest @ ..] => Some(rest),
        _ => None,
    }
}

#[tactic(auto, unfolding(crate::specs::DeclarationReading::after_equal))]
pub fn after_equal(tokens: &[Token]) -> Option<&[Token]>
    ensures { option_map (λ ts. ts.now) result ≡ spec.after_equal tokens.now }
{
    match tokens {
        [Token::Symbol(Symbol::Equal), rest @ ..] => Some(rest),
        _ => None,
    }
}
