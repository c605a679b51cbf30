// The parts of a line that reach up to its end.
ghost use Rattle.std.specs.Prelude.{◌≡◌, ◌≤◌, length, drop, IsTrue, ◌↔◌, Some, slice_get};
ghost use Rattle.vb_parse_expr.specs.Expressions.{SpellsInitializer};
ghost use Rattle.vb_parse_decl.specs.Parts.{IsExpression, equal};
ghost use Rattle.vb_parse_decl.specs.Answers.{Tells};

use std::alloc::Global;
use vb_parse_expr::{ParseErr, one_reading, parse_expr, parse_initializer, refusal};
use vb_syntax::{Expr, Line, Symbol, Token, VariableInitializer};

/// The expression that all tokens from this place on are (Visual Basic Language Specification 11.0, 11).
///
/// # Errors
///
/// `Refused`, with the line's `refusal`, exactly where they are none. `Memory` where there is no memory for the tree.
pub fn whole_expression(alloc: Global, line: &Line, from: usize) -> Result<Expr, ParseErr>
    requires { from ≤ length line.now.tokens }
    ensures { Tells IsExpression line.now (drop from line.now.tokens) result }
{
    one_reading();
    match parse_expr(alloc, line, from) {
        Ok((found, behind)) => {
            if behind == line.tokens.len() {
                Ok(found)
            } else {
                Err(ParseErr::Refused(refusal(line)))
            }
        }
        Err(ParseErr::Memory) => Err(ParseErr::Memory),
        Err(ParseErr::Refused(_)) => Err(ParseErr::Refused(refusal(line))),
    }
}

/// The first value that all tokens from this place on are (Visual Basic Language Specification 11.0, 9.6 and 11.15).
///
/// # Errors
///
/// `Refused`, with the line's `refusal`, exactly where they are none. `Memory` where there is no memory for the tree.
pub fn whole_initializer(
    alloc: Global,
    line: &Line,
    from: usize,
) -> Result<VariableInitializer, ParseErr>
    requires { from ≤ length line.now.tokens }
    ensures { Tells SpellsInitializer line.now (drop from line.now.tokens) result }
{
    one_reading();
    match parse_initializer(alloc, line, from) {
        Ok((found, end)) => {
            if end == line.tokens.len() {
                Ok(found)
            } else {
                Err(ParseErr::Refused(refusal(line)))
            }
        }
        Err(ParseErr::Memory) => Err(ParseErr::Memory),
        Err(ParseErr::Refused(_)) => Err(ParseErr::Refused(refusal(line))),
    }
}

/// Whether `=` stands at this place of the line's tokens; behind the last one nothing does.
pub fn is_equal_at(line: &Line, at: usize) -> bool
    ensures { IsTrue result ↔ (slice_get line.now.tokens at ≡ Some equal) }
{
    matches!(line.tokens.get(at), Some(Token::Symbol(Symbol::Equal)))
}
