// Conditional statements.
ghost use Rattle.std.specs.Prelude.{◌≡◌, ◌≤◌, ◌↔◌, IsTrue, drop, length};
ghost use Rattle.vb_parse_stmt.specs.declared.front.Front.TheVariants as front;
ghost use Rattle.vb_parse_stmt.specs.BlockParts.{EndsTest};
ghost use Rattle.vb_parse_decl.specs.Answers.{Tells};
ghost use Rattle.vb_parse_stmt.specs.Statements.{IsTest};
ghost use Rattle.vb_parse_stmt.specs.Reading.{front_of, IsItemFrom};

use crate::block_parts::{few_tokens, is_last_word, is_word_at};
use crate::cases::case_items;
use crate::simple::primary_line;
use std::alloc::Global;
use vb_parse_decl::whole_expression;
use vb_parse_expr::{ParseErr, one_reading, parse_expr, primary_begins, refusal};
use vb_syntax::{Context, Expr, Item, Keyword, Line};

pub fn if_or_call(alloc: Global, context: &Context, line: &Line) -> Result<Item, ParseErr>
    requires { front_of context.now line.now.tokens ≡ front.If }
    ensures { Tells (IsItemFrom context.now front.If) line.now line.now.tokens result }
{
    match test(alloc, line, 1) {
        Ok(tested) => Ok(Item::If(tested)),
        Err(ParseErr::Memory) => Err(ParseErr::Memory),
        Err(ParseErr::Refused(_)) => primary_line(alloc, line),
    }
}

pub fn else_if(alloc: Global, context: &Context, line: &Line) -> Result<Item, ParseErr>
    requires { front_of context.now line.now.tokens ≡ front.ElseIf }
    ensures { Tells (IsItemFrom context.now front.ElseIf) line.now line.now.tokens result }
{
    let tested = test(alloc, line, 1)?;
    Ok(Item::ElseIf(tested))
}

// A test up to the line's end, with `Then` behind it or without.
fn test(alloc: Global, line: &Line, from: usize) -> Result<Expr, ParseErr>
    requires { from ≤ length line.now.tokens }
    ensures { Tells IsTest line.now (drop from line.now.tokens) result }
{
    one_reading();
    few_tokens(line);
    match parse_expr(alloc, line, from) {
        Ok((found, behind)) => {
            if ends_test(line, behind) {
                Ok(found)
            } else {
                Err(ParseErr::Refused(refusal(line)))
            }
        }
        Err(ParseErr::Memory) => Err(ParseErr::Memory),
        Err(ParseErr::Refused(_)) => Err(ParseErr::Refused(refusal(line))),
    }
}

// Whether the line ends at this place, or only `Then` stands from it on.
fn ends_test(line: &Line, at: usize) -> bool
    ensures { IsTrue result ↔ EndsTest line.now.tokens at }
{
    at == line.tokens.len() || is_last_word(line, at, Keyword::Then)
}

pub fn otherwise(alloc: Global, context: &Context, line: &Line) -> Result<Item, ParseErr>
    requires { front_of context.now line.now.tokens ≡ front.Else }
    ensures { Tells (IsItemFrom context.now front.Else) line.now line.now.tokens result }
{
    if line.tokens.len() == 1 {
        Ok(Item::Else)
    } else {
        Err(ParseErr::Refused(refusal(line)))
    }
}

pub fn select(alloc: Global, context: &Context, line: &Line) -> Result<Item, ParseErr>
    requires { front_of context.now line.now.tokens ≡ front.Select }
    ensures { Tells (IsItemFrom context.now front.Select) line.now line.now.tokens result }
{
    primary_begins();
    let from = if is_word_at(line, 1, Keyword::Case) {
        2
    } else {
        1
    };
    let value = whole_expression(alloc, line, from)?;
    Ok(Item::Select(value))
}

pub fn case(alloc: Global, context: &Context, line: &Line) -> Result<Item, ParseErr>
    requires { front_of context.now line.now.tokens ≡ front.Case }
    ensures { Tells (IsItemFrom context.now front.Case) line.now line.now.tokens result }
{
    if is_last_word(line, 1, Keyword::Else) {
        return Ok(Item::CaseElse);
    }
    let found = case_items(alloc, line)?;
    Ok(Item::Case(found))
}
