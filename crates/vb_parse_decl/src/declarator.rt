// Reads declarators.
ghost use Rattle.std.specs.Prelude.{◌≡◌, ◌≤◌, length, drop};
ghost use Rattle.vb_parse_expr.specs.Expressions.{SpellsInitializer};
ghost use Rattle.vb_parse_expr.specs.Fronts.{Answers};
ghost use Rattle.vb_parse_expr.specs.TypeReading.{most_tokens};
ghost use Rattle.vb_parse_decl.specs.Answers.{Tells};
ghost use Rattle.vb_parse_decl.specs.Declarators.{IsBound, IsDeclarator, IsIdentifier, IsNew};
ghost use Rattle.vb_parse_decl.specs.DeclaredReading as spec;
ghost use Rattle.vb_parse_decl.specs.DeclaredReading.{IsPartAt, IsModifier, IsTyped, anything, ends_identifier, is_as, is_closing, is_over};
ghost use Rattle.vb_parse_decl.specs.Parts.{AreListed, IsExpression};

use std::alloc::Global;
use vb_parse_expr::{
    ParseErr, one_reading, parse_expr, parse_initializer, parse_primary, parse_type,
    primary_begins, refusal,
};
use vb_syntax::{
    Declarator, Expr, Items, Keyword, Line, SimpleTypeName, Symbol, Token, TypeName,
    VariableIdentifier, VariableInitializer, VariableModifier,
};
use vb_text::Name;

/// One declarator or several with commas between them, which all tokens from this place on are
/// (Visual Basic Language Specification 11.0, 9.6).
///
/// # Errors
///
/// `Refused`, with the line's `refusal`, exactly where they are none. `Memory` where there is no memory for the tree.
pub fn declarators(alloc: Global, line: &Line, from: usize) -> Result<Items<Declarator>, ParseErr>
    requires { from ≤ length line.now.tokens }
    ensures { Tells (AreListed IsDeclarator) line.now (drop from line.now.tokens) result }
{
    one_reading();
    primary_begins();
    let mut found = Items::new(alloc);
    let mut at = from;
    while at < line.tokens.len() {
        let (one, behind) = declarator(alloc, line, at)?;
        found.push(one)?;
        if behind == line.tokens.len() {
            return Ok(found);
        }
        at = behind + 1;
    }
    Err(ParseErr::Refused(refusal(line)))
}

// Names and their type, or a name and its value, up to a comma or the line's end.
fn declarator(alloc: Global, line: &Line, from: usize) -> Result<(Declarator, usize), ParseErr>
    requires { from ≤ length line.now.tokens }
    ensures { Answers (IsPartAt is_over IsDeclarator) line.now from result }
{
    one_reading();
    primary_begins();
    if let Some(name) = inferred_name(rest(line, from)) {
        let (value, behind) = over_expression(alloc, line, from + 2)?;
        return Ok((Declarator::Inferred(name, value), behind));
    }
    let (names, at) = identifiers(alloc, line, from)?;
    if begins_new(rest(line, at + 1)) {
        let ((class, arguments), behind) = creation(alloc, line, at + 1)?;
        return Ok((Declarator::AsNew(names, class, arguments), behind));
    }
    let ((declared, initial), behind) = typed(alloc, line, at + 1)?;
    Ok((Declarator::As(names, declared, initial), behind))
}

// One name or several with commas between them, up to `As`.
fn identifiers(
    alloc: Global,
    line: &Line,
    from: usize,
) -> Result<(Items<VariableIdentifier>, usize), ParseErr>
    requires { from ≤ length line.now.tokens }
    ensures { Answers (IsPartAt is_as (AreListed IsIdentifier)) line.now from result }
{
    one_reading();
    primary_begins();
    let mut found = Items::new(alloc);
    let mut at = from;
    while at < line.tokens.len() {
        let (one, behind) = identifier(alloc, line, at)?;
        found.push(one)?;
        if is_as(rest(line, behind)) {
            return Ok((found, behind));
        }
        at = behind + 1;
    }
    Err(ParseErr::Refused(refusal(line)))
}

// A name, with what may stand behind it, up to a comma or `As`.
fn identifier(
    alloc: Global,
    line: &Line,
    from: usize,
) -> Result<(VariableIdentifier, usize), ParseErr>
    requires { from ≤ length line.now.tokens }
    ensures { Answers (IsPartAt ends_identifier IsIdentifier) line.now from result }
{
    let Some(name) = first_name(rest(line, from)) else {
        return Err(ParseErr::Refused(refusal(line)));
    };
    let (modifier, behind) = modifier_at(alloc, line, from + 1)?;
    Ok((VariableIdentifier { name, modifier }, behind))
}

// What stands behind a name.
fn modifier_at(
    alloc: Global,
    line: &Line,
    from: usize,
) -> Result<(VariableModifier, usize), ParseErr>
    requires { from ≤ length line.now.tokens }
    ensures { Answers (IsPartAt ends_identifier IsModifier) line.now from result }
{
    one_reading();
    primary_begins();
    if ends_identifier(rest(line, from)) {
        return Ok((VariableModifier::Plain, from));
    }
    if begins_array(rest(line, from)) {
        return if ends_identifier(rest(line, from + 2)) {
            Ok((VariableModifier::Array, from + 2))
        } else {
            Err(ParseErr::Refused(refusal(line)))
        };
    }
    let (found, behind) = bound(alloc, line, from)?;
    if ends_identifier(rest(line, behind)) {
        Ok((VariableModifier::Bound(found), behind))
    } else {
        Err(ParseErr::Refused(refusal(line)))
    }
}

// A type, with a first value or without, up to a comma or the line's end.
fn typed(
    alloc: Global,
    line: &Line,
    from: usize,
) -> Result<((TypeName, Option<VariableInitializer>), usize), ParseErr>
    requires { from ≤ length line.now.tokens }
    ensures { Answers (IsPartAt is_over IsTyped) line.now from result }
{
    one_reading();
    match parse_type(alloc, line, from) {
        Ok((declared, behind)) => {
            if is_over(rest(line, behind)) {
                Ok(((declared, None), behind))
            } else if begins_equal(rest(line, behind)) {
                let (initial, end) = over_initializer(alloc, line, behind + 1)?;
                Ok(((declared, Some(initial)), end))
            } else {
                Err(ParseErr::Refused(refusal(line)))
            }
        }
        Err(ParseErr::Memory) => Err(ParseErr::Memory),
        Err(ParseErr::Refused(_)) => Err(ParseErr::Refused(refusal(line))),
    }
}

// A new object, up to a comma or the line's end.
fn creation(
    alloc: Global,
    line: &Line,
    from: usize,
) -> Result<((SimpleTypeName, Items<Expr>), usize), ParseErr>
    requires { from ≤ length line.now.tokens }
    ensures { Answers (IsPartAt is_over IsNew) line.now from result }
{
    one_reading();
    match parse_primary(alloc, line, from) {
        Ok((made, behind)) => {
            if !is_over(rest(line, behind)) {
                return Err(ParseErr::Refused(refusal(line)));
            }
            match made {
                Expr::ObjectCreation(class, arguments) => Ok(((class, arguments), behind)),
                _ => Err(ParseErr::Refused(refusal(line))),
            }
        }
        Err(ParseErr::Memory) => Err(ParseErr::Memory),
        Err(ParseErr::Refused(_)) => Err(ParseErr::Refused(refusal(line))),
    }
}

/// The expression from this place up to a comma or the line's end, and the place behind it.
///
/// # Errors
///
/// `Refused`, with the line's `refusal`, exactly where no expression ends there. `Memory` where there is no memory for the tree.
pub fn over_expression(alloc: Global, line: &Line, from: usize) -> Result<(Expr, usize), ParseErr>
    requires { from ≤ length line.now.tokens }
    ensures { Answers (IsPartAt is_over IsExpression) line.now from result }
{
    one_reading();
    match parse_expr(alloc, line, from) {
        Ok((found, behind)) => {
            if is_over(rest(line, behind)) {
                Ok((found, behind))
            } else {
                Err(ParseErr::Refused(refusal(line)))
            }
        }
        Err(ParseErr::Memory) => Err(ParseErr::Memory),
        Err(ParseErr::Refused(_)) => Err(ParseErr::Refused(refusal(line))),
    }
}

// A first value, up to a comma or the line's end.
fn over_initializer(
    alloc: Global,
    line: &Line,
    from: usize,
) -> Result<(VariableInitializer, usize), ParseErr>
    requires { from ≤ length line.now.tokens }
    ensures { Answers (IsPartAt is_over SpellsInitializer) line.now from result }
{
    one_reading();
    match parse_initializer(alloc, line, from) {
        Ok((found, behind)) => {
            if is_over(rest(line, behind)) {
                Ok((found, behind))
            } else {
                Err(ParseErr::Refused(refusal(line)))
            }
        }
        Err(ParseErr::Memory) => Err(ParseErr::Memory),
        Err(ParseErr::Refused(_)) => Err(ParseErr::Refused(refusal(line))),
    }
}

/// The tokens from this place on; and a line has no more tokens than a place can count.
pub fn rest(line: &Line, from: usize) -> &[Token]
    requires { from ≤ length line.now.tokens }
    ensures rest { result.now ≡ drop from line.now.tokens }
    ensures few { length line.now.tokens ≤ most_tokens }
{
    &line.tokens.as_slice()[from..]
}

/// The name that stands first, between brackets or not; none where something else or nothing does.
pub fn first_name(tokens: &[Token]) -> Option<Name>
    ensures { result ≡ spec.first_name tokens.now }
{
    match tokens {
        [Token::Name(name) | Token::EscapedName(name), ..] => Some(*name),
        _ => None,
    }
}

/// The bound of an array from this place on, an expression between parentheses, and the place behind it
/// (Visual Basic Language Specification 11.0, 9.6).
///
/// # Errors
///
/// `Refused`, with the line's `refusal`, exactly where no bound stands there. `Memory` where there is no memory for the tree.
pub fn bound(alloc: Global, line: &Line, from: usize) -> Result<(Expr, usize), ParseErr>
    requires { from ≤ length line.now.tokens }
    ensures { Answers (IsPartAt anything IsBound) line.now from result }
{
    if !begins_opening(rest(line, from)) {
        return Err(ParseErr::Refused(refusal(line)));
    }
    let (found, behind) = closed_expression(alloc, line, from + 1)?;
    Ok((found, behind + 1))
}

fn begins_opening(tokens: &[Token]) -> bool
    ensures { result ≡ spec.begins_opening tokens.now }
{
    matches!(tokens, [Token::Symbol(Symbol::OpenParenthesis), ..])
}

// An expression that `)` stands behind.
fn closed_expression(alloc: Global, line: &Line, from: usize) -> Result<(Expr, usize), ParseErr>
    requires { from ≤ length line.now.tokens }
    ensures { Answers (IsPartAt is_closing IsExpression) line.now from result }
{
    one_reading();
    match parse_expr(alloc, line, from) {
        Ok((found, behind)) => {
            if is_closing(rest(line, behind)) {
                Ok((found, behind))
            } else {
                Err(ParseErr::Refused(refusal(line)))
            }
        }
        Err(ParseErr::Memory) => Err(ParseErr::Memory),
        Err(ParseErr::Refused(_)) => Err(ParseErr::Refused(refusal(line))),
    }
}

fn is_closing(tokens: &[Token]) -> bool
    ensures { result ≡ spec.is_closing tokens.now }
{
    matches!(tokens, [Token::Symbol(Symbol::CloseParenthesis), ..])
}

/// Whether a comma or nothing stands first.
pub fn is_over(tokens: &[Token]) -> bool
    ensures { result ≡ spec.is_over tokens.now }
{
    matches!(tokens, [] | [Token::Symbol(Symbol::Comma), ..])
}

fn is_as(tokens: &[Token]) -> bool
    ensures { result ≡ spec.is_as tokens.now }
{
    matches!(tokens, [Token::Keyword(Keyword::As), ..])
}

// Whether a comma or `As` stands first.
fn ends_identifier(tokens: &[Token]) -> bool
    ensures { result ≡ spec.ends_identifier tokens.now }
{
    matches!(
        tokens,
        [
            Token::Symbol(Symbol::Comma) | Token::Keyword(Keyword::As),
            ..
        ]
    )
}

fn begins_array(tokens: &[Token]) -> bool
    ensures { result ≡ spec.begins_array tokens.now }
{
    matches!(
        tokens,
        [
            Token::Symbol(Symbol::OpenParenthesis),
            Token::Symbol(Symbol::CloseParenthesis),
            ..
        ]
    )
}

fn begins_new(tokens: &[Token]) -> bool
    ensures { result ≡ spec.begins_new tokens.now }
{
    matches!(tokens, [Token::Keyword(Keyword::New), ..])
}

fn begins_equal(tokens: &[Token]) -> bool
    ensures { result ≡ spec.begins_equal tokens.now }
{
    matches!(tokens, [Token::Symbol(Symbol::Equal), ..])
}

// The name before `=`.
fn inferred_name(tokens: &[Token]) -> Option<Name>
    ensures { result ≡ spec.inferred_name tokens.now }
{
    match tokens {
        [
            Token::Name(name) | Token::EscapedName(name),
            Token::Symbol(Symbol::Equal),
            ..
        ] => Some(*name),
        _ => None,
    }
}
