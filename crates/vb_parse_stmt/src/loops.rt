// Loops.
ghost use Rattle.std.specs.Prelude.{◌≡◌, ◌≤◌, ◌<◌, ◌↔◌, IsTrue, Some, drop, length, slice_get};
ghost use Rattle.vb_syntax.specs.declared.tokens.Token.TheVariants as token;
ghost use Rattle.vb_parse_stmt.specs.declared.front.Front.TheVariants as front;
ghost use Rattle.vb_parse_decl.specs.Answers.{Tells};
ghost use Rattle.vb_parse_decl.specs.Parts.{IsOptional};
ghost use Rattle.vb_parse_stmt.specs.Statements.{IsCondition, IsLimit, IsRange};
ghost use Rattle.vb_parse_stmt.specs.BlockParts.{IsCounted, IsEach, IsVariableFront, StandsFrom};
ghost use Rattle.vb_parse_stmt.specs.Reading.{front_of, IsItemFrom};

use crate::block_parts::{expression_at, few_tokens, is_word_at, name_at, type_at};
use std::alloc::Global;
use vb_parse_decl::{is_equal_at, whole_expression};
use vb_parse_expr::{ParseErr, one_reading, refusal};
use vb_syntax::{Context, Expr, Item, Keyword, Line, LoopCondition, LoopControlVariable, Token};

pub fn while_front(alloc: Global, context: &Context, line: &Line) -> Result<Item, ParseErr>
    requires { front_of context.now line.now.tokens ≡ front.While }
    ensures { Tells (IsItemFrom context.now front.While) line.now line.now.tokens result }
{
    let test = whole_expression(alloc, line, 1)?;
    Ok(Item::While(test))
}

pub fn do_front(alloc: Global, context: &Context, line: &Line) -> Result<Item, ParseErr>
    requires { front_of context.now line.now.tokens ≡ front.Do }
    ensures { Tells (IsItemFrom context.now front.Do) line.now line.now.tokens result }
{
    let test = condition(alloc, context, line)?;
    Ok(Item::Do(test))
}

pub fn loop_end(alloc: Global, context: &Context, line: &Line) -> Result<Item, ParseErr>
    requires { front_of context.now line.now.tokens ≡ front.Loop }
    ensures { Tells (IsItemFrom context.now front.Loop) line.now line.now.tokens result }
{
    let test = condition(alloc, context, line)?;
    Ok(Item::Loop(test))
}

// Whether `Until` stands behind the first token, where it is a word.
fn is_until(context: &Context, line: &Line) -> bool
    ensures answer { IsTrue result ↔ (slice_get line.now.tokens 1 ≡ Some (token.Name context.now.words.until)) }
    ensures within { IsTrue result → 1 < length line.now.tokens }
{
    match line.tokens.get(1) {
        Some(Token::Name(name)) => *name == context.words.until,
        _ => false,
    }
}

// `While` or `Until` and a test behind the first token, or nothing.
fn condition(
    alloc: Global,
    context: &Context,
    line: &Line,
) -> Result<Option<LoopCondition>, ParseErr>
    requires { 1 ≤ length line.now.tokens }
    ensures { Tells (IsOptional (IsCondition context.now.words)) line.now (drop 1 line.now.tokens) result }
{
    if line.tokens.len() == 1 {
        return Ok(None);
    }
    if is_word_at(line, 1, Keyword::While) {
        let test = whole_expression(alloc, line, 2)?;
        return Ok(Some(LoopCondition::While(test)));
    }
    if is_until(context, line) {
        let test = whole_expression(alloc, line, 2)?;
        return Ok(Some(LoopCondition::Until(test)));
    }
    Err(ParseErr::Refused(refusal(line)))
}

pub fn for_front(alloc: Global, context: &Context, line: &Line) -> Result<Item, ParseErr>
    requires { front_of context.now line.now.tokens ≡ front.For }
    ensures { Tells (IsItemFrom context.now front.For) line.now line.now.tokens result }
{
    if is_word_at(line, 1, Keyword::Each) {
        let (variable, collection) = each(alloc, line, 2)?;
        return Ok(Item::ForEach(variable, collection));
    }
    let (variable, (start, (limit, step))) = counted(alloc, line, 1)?;
    Ok(Item::For(variable, start, limit, step))
}

// A variable and the collection that it goes through, which all tokens from this place on are.
fn each(alloc: Global, line: &Line, from: usize) -> Result<(LoopControlVariable, Expr), ParseErr>
    requires { from ≤ length line.now.tokens }
    ensures { Tells IsEach line.now (drop from line.now.tokens) result }
{
    one_reading();
    few_tokens(line);
    let (variable, behind) = variable_at(alloc, line, from)?;
    if is_word_at(line, behind, Keyword::In) {
        let collection = whole_expression(alloc, line, behind + 1)?;
        Ok((variable, collection))
    } else {
        Err(ParseErr::Refused(refusal(line)))
    }
}

// A variable, and where it starts, its limit and its step, which all tokens from this place on are.
fn counted(
    alloc: Global,
    line: &Line,
    from: usize,
) -> Result<(LoopControlVariable, (Expr, (Expr, Option<Expr>))), ParseErr>
    requires { from ≤ length line.now.tokens }
    ensures { Tells IsCounted line.now (drop from line.now.tokens) result }
{
    one_reading();
    few_tokens(line);
    let (variable, behind) = variable_at(alloc, line, from)?;
    if is_equal_at(line, behind) {
        let values = range(alloc, line, behind + 1)?;
        Ok((variable, values))
    } else {
        Err(ParseErr::Refused(refusal(line)))
    }
}

// A start, `To` and a limit, which all tokens from this place on are.
fn range(alloc: Global, line: &Line, from: usize) -> Result<(Expr, (Expr, Option<Expr>)), ParseErr>
    requires { from ≤ length line.now.tokens }
    ensures { Tells IsRange line.now (drop from line.now.tokens) result }
{
    one_reading();
    few_tokens(line);
    let (start, behind) = expression_at(alloc, line, from)?;
    if is_word_at(line, behind, Keyword::To) {
        let bounds = limit(alloc, line, behind + 1)?;
        Ok((start, bounds))
    } else {
        Err(ParseErr::Refused(refusal(line)))
    }
}

// A limit, and a step behind `Step` if one is written, which all tokens from this place on are.
fn limit(alloc: Global, line: &Line, from: usize) -> Result<(Expr, Option<Expr>), ParseErr>
    requires { from ≤ length line.now.tokens }
    ensures { Tells IsLimit line.now (drop from line.now.tokens) result }
{
    one_reading();
    few_tokens(line);
    let (found, behind) = expression_at(alloc, line, from)?;
    if behind == line.tokens.len() {
        Ok((found, None))
    } else if is_word_at(line, behind, Keyword::Step) {
        let step = whole_expression(alloc, line, behind + 1)?;
        Ok((found, Some(step)))
    } else {
        Err(ParseErr::Refused(refusal(line)))
    }
}

// The variable at the front of the tokens from this place on, and the place behind it.
fn variable_at(
    alloc: Global,
    line: &Line,
    from: usize,
) -> Result<(LoopControlVariable, usize), ParseErr>
    ensures { Tells (StandsFrom IsVariableFront from) line.now (drop from line.now.tokens) result }
{
    few_tokens(line);
    let Some(name) = name_at(line, from) else {
        return Err(ParseErr::Refused(refusal(line)));
    };
    if is_word_at(line, from + 1, Keyword::As) {
        let (found, behind) = type_at(alloc, line, from + 2)?;
        let declared = Some(found);
        Ok((LoopControlVariable { name, declared }, behind))
    } else {
        let declared = None;
        Ok((LoopControlVariable { name, declared }, from + 1))
    }
}

pub fn next(alloc: Global, context: &Context, line: &Line) -> Result<Item, ParseErr>
    requires { front_of context.now line.now.tokens ≡ front.Next }
    ensures { Tells (IsItemFrom context.now front.Next) line.now line.now.tokens result }
{
    match line.tokens.as_slice() {
        [_] => Ok(Item::Next(None)),
        [_, Token::Name(name) | Token::EscapedName(name)] => Ok(Item::Next(Some(*name))),
        _ => Err(ParseErr::Refused(refusal(line))),
    }
}
