// The pieces of a logical line.
ghost use Rattle.std.specs.Prelude.{◌≡◌, ◌≤◌, length, drop};
ghost use Rattle.vb_rows.specs.Pieces as spec;
ghost use Rattle.vb_rows.specs.Cutting.{FirstPiece, before_behind, skipped as skipped_behind, is_left_out as is_left_out_piece};

use vb_syntax::{Joint, Keyword, Symbol, Token};
use vb_text::Name;

/// What stands before a token in its part of the line.
#[derive(Clone, Copy, Debug, PartialEq, Eq)]
pub enum Before {
    /// Nothing: the token is the first.
    Front,
    /// `Case`.
    Case,
    /// Another token.
    Other,
}

/// The first piece of tokens: how many tokens it has, and what stands behind it.
#[derive(Clone, Copy, Debug, PartialEq, Eq)]
pub struct Found {
    pub length: usize,
    pub behind: Joint,
}

pub fn is_colon(token: &Token) -> bool
    ensures { result ≡ spec.is_colon token.now }
{
    matches!(token, Token::Symbol(Symbol::Colon))
}

fn parts_at_else(before: Before, token: &Token) -> bool
    ensures { result ≡ spec.parts_at_else before token.now }
{
    matches!(
        (before, token),
        (Before::Other, Token::Keyword(Keyword::Else))
    )
}

fn goes_on_in_part(tokens: &[Token]) -> bool
    ensures { result ≡ spec.goes_on_in_part tokens.now }
{
    match tokens {
        [token, ..] => !is_colon(token),
        [] => false,
    }
}

fn parts_at_then(token: &Token, behind: &[Token]) -> bool
    ensures { result ≡ spec.parts_at_then token.now behind.now }
{
    match token {
        Token::Keyword(Keyword::Then) => goes_on_in_part(behind),
        _ => false,
    }
}

fn before_next(token: &Token) -> Before
    ensures { result ≡ spec.before_next token.now }
{
    match token {
        Token::Keyword(Keyword::Case) => Before::Case,
        _ => Before::Other,
    }
}

/// The name of the label at the front of a line.
pub fn label_of(tokens: &[Token]) -> Option<Name>
    ensures { result ≡ spec.label_of tokens.now }
{
    match tokens {
        [
            Token::Name(name) | Token::EscapedName(name),
            Token::Symbol(Symbol::Colon),
            ..
        ] => Some(*name),
        _ => None,
    }
}

/// Where the tokens behind the label begin.
pub fn behind_label(tokens: &[Token]) -> usize
    ensures within { result ≤ length tokens.now }
    ensures behind { drop result tokens.now ≡ spec.behind_label tokens.now }
{
    match label_of(tokens) {
        Some(_) => 2,
        None => 0,
    }
}

/// The first piece of tokens with this before them.
pub fn first_piece(before: Before, tokens: &[Token]) -> Found
    ensures { FirstPiece before tokens.now result }
{
    let mut before = before;
    let mut rest = tokens;
    while let [token, after @ ..] = rest {
        let length = tokens.len() - rest.len();
        if is_colon(token) {
            return Found {
                length,
                behind: Joint::Colon,
            };
        }
        if parts_at_else(before, token) {
            return Found {
                length,
                behind: Joint::Else,
            };
        }
        if parts_at_then(token, after) {
            return Found {
                length: length + 1,
                behind: Joint::Then,
            };
        }
        before = before_next(token);
        rest = after;
    }
    Found {
        length: tokens.len(),
        behind: Joint::End,
    }
}

/// What stands before the first token behind this.
pub fn before_of(behind: Joint) -> Before
    ensures { result ≡ before_behind behind }
{
    match behind {
        Joint::End | Joint::Colon => Before::Front,
        Joint::Then | Joint::Else => Before::Other,
    }
}

/// How many tokens stand between a piece and the next one.
pub fn skipped(behind: Joint) -> usize
    ensures { result ≡ skipped_behind behind }
{
    match behind {
        Joint::Colon | Joint::Else => 1,
        Joint::Then | Joint::End => 0,
    }
}

fn parts_statements(joint: Joint) -> bool
    ensures { result ≡ spec.parts_statements joint }
{
    matches!(joint, Joint::End | Joint::Colon)
}

/// Whether nothing stands in the piece, and nothing has to.
pub fn is_left_out(from: Joint, found: Found) -> bool
    ensures { result ≡ is_left_out_piece from found }
{
    found.length == 0 && parts_statements(from) && parts_statements(found.behind)
}
