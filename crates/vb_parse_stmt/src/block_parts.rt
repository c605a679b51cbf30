// What the lines of blocks have in common.
ghost use Rattle.std.specs.Prelude.{◌≡◌, ◌+◌, ◌≤◌, ◌<◌, ◌↔◌, IfSome, IsTrue, Some, drop, length, slice_get};
ghost use Rattle.vb_parse_expr.specs.TypeReading.{most_tokens};
ghost use Rattle.vb_parse_expr.specs.Types.{IsTypeFront};
ghost use Rattle.vb_parse_expr.specs.Fronts.{IsFront};
ghost use Rattle.vb_parse_decl.specs.Parts.{reserved};
ghost use Rattle.vb_parse_decl.specs.Answers.{Tells};
ghost use Rattle.vb_parse_stmt.specs.BlockParts.{StandsFrom, found_name};

use std::alloc::Global;
use vb_parse_expr::{ParseErr, parse_expr, parse_type, refusal};
use vb_syntax::{Expr, Keyword, Line, Token, TypeName};
use vb_text::Name;

// A law for proofs: a line has no more tokens than a place can count. It does nothing.
pub fn few_tokens(line: &Line)
    ensures { length line.now.tokens ≤ most_tokens }
{
    let _count = line.tokens.len();
}

// Whether the reserved word stands at this place.
pub fn is_word_at(line: &Line, at: usize, word: Keyword) -> bool
    ensures answer { IsTrue result ↔ (slice_get line.now.tokens at ≡ Some (reserved word)) }
    ensures within { IsTrue result → at < length line.now.tokens }
{
    match line.tokens.get(at) {
        Some(Token::Keyword(found)) => *found == word,
        _ => false,
    }
}

// Whether the reserved word stands at this place, and nothing behind it.
pub fn is_last_word(line: &Line, at: usize, word: Keyword) -> bool
    ensures { IsTrue result ↔ ((slice_get line.now.tokens at ≡ Some (reserved word)) × (length line.now.tokens ≡ at + 1)) }
{
    is_word_at(line, at, word) && line.tokens.len() == at + 1
}

// The name that stands at this place, if one does.
pub fn name_at(line: &Line, at: usize) -> Option<Name>
    ensures name { result ≡ found_name (slice_get line.now.tokens at) }
    ensures within { IfSome result (λ _. at < length line.now.tokens) }
{
    match line.tokens.get(at) {
        Some(Token::Name(name) | Token::EscapedName(name)) => Some(*name),
        _ => None,
    }
}

// The expression at the front of the tokens from this place on, and the place behind it.
pub fn expression_at(alloc: Global, line: &Line, from: usize) -> Result<(Expr, usize), ParseErr>
    ensures { Tells (StandsFrom IsFront from) line.now (drop from line.now.tokens) result }
{
    match parse_expr(alloc, line, from) {
        Ok(found) => Ok(found),
        Err(ParseErr::Memory) => Err(ParseErr::Memory),
        Err(ParseErr::Refused(_)) => Err(ParseErr::Refused(refusal(line))),
    }
}

// The type at the front of the tokens from this place on, and the place behind it.
pub fn type_at(alloc: Global, line: &Line, from: usize) -> Result<(TypeName, usize), ParseErr>
    ensures { Tells (StandsFrom IsTypeFront from) line.now (drop from line.now.tokens) result }
{
    match parse_type(alloc, line, from) {
        Ok(found) => Ok(found),
        Err(ParseErr::Memory) => Err(ParseErr::Memory),
        Err(ParseErr::Refused(_)) => Err(ParseErr::Refused(refusal(line))),
    }
}
