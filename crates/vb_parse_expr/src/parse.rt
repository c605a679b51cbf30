// What stands at the front of a logical line, from one of its tokens on.
ghost use Rattle.vb_parse_expr.specs.Types.{IsTypeFront, IsSimpleTypeFront};
ghost use Rattle.std.specs.Prelude.{◌≡◌, ℕ, ◌≤◌, true, List, [], ◌∷◌, length, drop, IfOk};
ghost use Rattle.vb_syntax.specs.declared.tokens.Token.{Token as OneToken};
ghost use Rattle.vb_syntax.specs.declared.types.SimpleTypeName.{SimpleTypeName as OneSimpleTypeName};
ghost use Rattle.vb_syntax.specs.declared.types.TypeName.{TypeName as OneTypeName};
ghost use Rattle.vb_syntax.specs.declared.expression.Expr.{Expr as OneExpr};
ghost use Rattle.vb_syntax.specs.declared.expression.VariableInitializer.{VariableInitializer as OneInitializer};
ghost use Rattle.vb_parse_expr.specs.declared.machine.State.TheVariants as at;
ghost use Rattle.vb_parse_expr.specs.TypeReading.{Gives, most_tokens, most_turns};
ghost use Rattle.vb_parse_expr.specs.MachineReading as machine;
ghost use Rattle.vb_parse_expr.specs.Placing.{Places, expression_of, read_expression as expression_read};
ghost use Rattle.vb_parse_expr.specs.Fronts.{Answers, IsFront, IsPrimaryFront, IsInitializerFront, IsRefusalOf, begins_primary};

use crate::error::ParseErr;
use crate::fault::Fault;
use crate::machine::run;
use crate::pending::Goal;
use crate::types::{read_simple_type, read_type};
use crate::words::has_unused;
use std::alloc::Global;
use vb_diag::{Refusal, Rule};
use vb_syntax::{Expr, Line, SimpleTypeName, Token, TypeName, VariableInitializer};

/// The expression at the front of the line's tokens from the place `from` on, and the place behind it. It takes as many
/// tokens as it can: what stands behind doesn't go on with it.
///
/// # Errors
///
/// `Refused`, with the line's `refusal`, exactly where no expression stands there, as where `from` is past the last token.
/// `Memory` where there is no memory for the tree.
pub fn parse_expr(alloc: Global, line: &Line, from: usize) -> Result<(Expr, usize), ParseErr>
    ensures { Answers IsFront line.now from result }
{
    let tokens = tokens_from(line, from);
    placed(line, read_goal(alloc, Goal::Expression, tokens))
}

/// The primary at the front from the place `from` on, as the target of an assignment and a call are, and the place behind
/// it: `=` and other operators don't go on with it.
///
/// # Errors
///
/// `Refused`, with the line's `refusal`, exactly where no primary stands there. `Memory` where there is no memory for the tree.
pub fn parse_primary(alloc: Global, line: &Line, from: usize) -> Result<(Expr, usize), ParseErr>
    ensures { Answers IsPrimaryFront line.now from result }
{
    let tokens = tokens_from(line, from);
    placed(line, read_goal(alloc, Goal::Primary, tokens))
}

/// The first value of a variable at the front from the place `from` on, an expression or elements in braces, and the place
/// behind it.
///
/// # Errors
///
/// `Refused`, with the line's `refusal`, exactly where neither stands there. `Memory` where there is no memory for the tree.
pub fn parse_initializer(
    alloc: Global,
    line: &Line,
    from: usize,
) -> Result<(VariableInitializer, usize), ParseErr>
    ensures { Answers IsInitializerFront line.now from result }
{
    let tokens = tokens_from(line, from);
    placed(line, run(alloc, Goal::Initializer, tokens))
}

/// The name of a type at the front from the place `from` on, and the place behind it. It takes its type arguments and the
/// `()` of an array.
///
/// # Errors
///
/// `Refused`, with the line's `refusal`, exactly where no name of a type stands there. `Memory` where there is no memory for
/// the tree.
pub fn parse_type(alloc: Global, line: &Line, from: usize) -> Result<(TypeName, usize), ParseErr>
    ensures { Answers IsTypeFront line.now from result }
{
    let tokens = tokens_from(line, from);
    placed(line, read_type(alloc, tokens))
}

/// The name of a type at the front from the place `from` on, without the `()` of an array, as behind `New`, and the place
/// behind it.
///
/// # Errors
///
/// `Refused`, with the line's `refusal`, exactly where no name of a type stands there. `Memory` where there is no memory for
/// the tree.
pub fn parse_simple_type(
    alloc: Global,
    line: &Line,
    from: usize,
) -> Result<(SimpleTypeName, usize), ParseErr>
    ensures { Answers IsSimpleTypeFront line.now from result }
{
    let tokens = tokens_from(line, from);
    placed(line, read_simple_type(alloc, tokens))
}

// The line's tokens from this place on.
fn tokens_from(line: &Line, from: usize) -> &[Token]
    ensures tokens { result.now ≡ drop from line.now.tokens }
    ensures within { length line.now.tokens ≤ most_tokens }
{
    let tokens = line.tokens.as_slice();
    if from > tokens.len() {
        return &[];
    }
    &tokens[from..]
}

/// The expression at the front of tokens, and the tokens behind it, for readers of more than an expression.
#[tactic(auto, unfolding(crate::specs::Placing::read_expression))]
pub fn read_expression(alloc: Global, tokens: &[Token]) -> Result<(Expr, &[Token]), Fault>
    ensures { Gives (λ x. (x.0, x.1.now)) result (expression_read tokens.now) }
{
    read_goal(alloc, Goal::Expression, tokens)
}

// An expression, which a reading for no initializer always finds.
fn read_goal(alloc: Global, goal: Goal, tokens: &[Token]) -> Result<(Expr, &[Token]), Fault>
    ensures { Gives (λ x. (x.0, x.1.now)) result (expression_of (machine.run goal most_turns [] at.Want tokens.now)) }
{
    let (found, rest) = run(alloc, goal, tokens)?;
    match found {
        VariableInitializer::Expression(found) => Ok((found, rest)),
        VariableInitializer::Elements(_) => Err(Fault::Grammar),
    }
}

// The place behind what was found, or the refusal.
fn placed<X: Drop>(line: &Line, found: Result<(X, &[Token]), Fault>) -> Result<(X, usize), ParseErr>
    requires { IfOk found (λ p. length p.1.now ≤ length line.now.tokens) }
    ensures { Places (λ ts. ts.now) line.now found.entry result }
{
    match found {
        Ok((found, rest)) => Ok((found, line.tokens.len() - rest.len())),
        Err(Fault::Memory) => Err(ParseErr::Memory),
        Err(Fault::Grammar) => Err(ParseErr::Refused(refusal(line))),
    }
}

/// The refusal of a line that isn't of the grammar, at the line's file and number. Its rule tells whether a reserved word
/// stands in the line that the grammar doesn't use.
pub fn refusal(line: &Line) -> Refusal
    ensures { IsRefusalOf line.now result }
{
    let rule = if has_unused(line.tokens.as_slice()) {
        32
    } else {
        30
    };
    Refusal {
        rule: Rule::new(rule),
        file: line.file,
        line: line.number,
    }
}

/// A law for callers' proofs: at the front of tokens stands one expression at most, of one length, and so with primaries,
/// first values and names of types. It does nothing.
pub fn one_reading()
    ensures expressions { (ts : List OneToken) (x y : OneExpr) (n m : ℕ) → length ts ≤ most_tokens → IsFront ts x n → IsFront ts y m → (x ≡ y) × (n ≡ m) }
    ensures primaries { (ts : List OneToken) (x y : OneExpr) (n m : ℕ) → length ts ≤ most_tokens → IsPrimaryFront ts x n → IsPrimaryFront ts y m → (x ≡ y) × (n ≡ m) }
    ensures initializers { (ts : List OneToken) (x y : OneInitializer) (n m : ℕ) → length ts ≤ most_tokens → IsInitializerFront ts x n → IsInitializerFront ts y m → (x ≡ y) × (n ≡ m) }
    ensures types { (ts : List OneToken) (x y : OneTypeName) (n m : ℕ) → length ts ≤ most_tokens → IsTypeFront ts x n → IsTypeFront ts y m → (x ≡ y) × (n ≡ m) }
    ensures simple_types { (ts : List OneToken) (x y : OneSimpleTypeName) (n m : ℕ) → length ts ≤ most_tokens → IsSimpleTypeFront ts x n → IsSimpleTypeFront ts y m → (x ≡ y) × (n ≡ m) }
{}

/// A law for callers' proofs: the first token of a primary is one that begins a primary. It does nothing.
pub fn primary_begins()
    ensures { (ts : List OneToken) (x : OneExpr) (n : ℕ) → IsPrimaryFront ts x n → (t : OneToken) × (us : List OneToken) × (ts ≡ t ∷ us) × (begins_primary t ≡ true) }
{}
