// Statements that guard a block.
ghost use Rattle.std.specs.Prelude.{◌≡◌, ◌≢◌, ◌≤◌, ◌<◌, Some, drop, length, slice_get};
ghost use Rattle.vb_syntax.specs.declared.keyword.Keyword.TheVariants as word;
ghost use Rattle.vb_parse_decl.specs.Parts.{reserved};
ghost use Rattle.vb_parse_stmt.specs.BlockParts.{IsCatchVariableFront, IsCaughtPair, IsTypedValue, IsUndeclared, Makes, StandsFrom, found_name};
ghost use Rattle.vb_parse_decl.specs.Declarators.{IsNew};
ghost use Rattle.vb_parse_stmt.specs.Statements.{IsResource};
ghost use Rattle.vb_parse_stmt.specs.declared.front.Front.TheVariants as front;
ghost use Rattle.vb_parse_decl.specs.Answers.{Tells};
ghost use Rattle.vb_parse_stmt.specs.Reading.{front_of, IsItemFrom};

use crate::block_parts::{few_tokens, is_word_at, name_at, type_at};
use std::alloc::Global;
use vb_parse_decl::{is_equal_at, whole_expression};
use vb_parse_expr::{ParseErr, one_reading, parse_primary, refusal};
use vb_syntax::{
    CatchVariable, Context, Expr, Item, Items, Keyword, Line, SimpleTypeName, TypeName,
    UsingResource,
};
use vb_text::Name;

pub fn try_front(alloc: Global, context: &Context, line: &Line) -> Result<Item, ParseErr>
    requires { front_of context.now line.now.tokens ≡ front.Try }
    ensures { Tells (IsItemFrom context.now front.Try) line.now line.now.tokens result }
{
    if line.tokens.len() == 1 {
        Ok(Item::Try)
    } else {
        Err(ParseErr::Refused(refusal(line)))
    }
}

pub fn catch(alloc: Global, context: &Context, line: &Line) -> Result<Item, ParseErr>
    requires { front_of context.now line.now.tokens ≡ front.Catch }
    ensures { Tells (IsItemFrom context.now front.Catch) line.now line.now.tokens result }
{
    let (variable, filter) = caught(alloc, line)?;
    Ok(Item::Catch(variable, filter))
}

// A variable and a filter, as far as they are written, which all tokens behind the first are.
fn caught(alloc: Global, line: &Line) -> Result<(Option<CatchVariable>, Option<Expr>), ParseErr>
    requires { 1 ≤ length line.now.tokens }
    ensures { Tells IsCaughtPair line.now (drop 1 line.now.tokens) result }
{
    if line.tokens.len() == 1 {
        Ok((None, None))
    } else if is_word_at(line, 1, Keyword::When) {
        let filter = whole_expression(alloc, line, 2)?;
        Ok((None, Some(filter)))
    } else {
        caught_variable(alloc, line)
    }
}

// A variable, and a filter behind `When` if one is written, which all tokens behind the first are.
fn caught_variable(
    alloc: Global,
    line: &Line,
) -> Result<(Option<CatchVariable>, Option<Expr>), ParseErr>
    requires longer { 1 < length line.now.tokens }
    requires other { slice_get line.now.tokens 1 ≢ Some (reserved word.When) }
    ensures { Tells IsCaughtPair line.now (drop 1 line.now.tokens) result }
{
    one_reading();
    few_tokens(line);
    let (variable, behind) = catch_variable_at(alloc, line, 1)?;
    if behind == line.tokens.len() {
        Ok((Some(variable), None))
    } else if is_word_at(line, behind, Keyword::When) {
        let filter = whole_expression(alloc, line, behind + 1)?;
        Ok((Some(variable), Some(filter)))
    } else {
        Err(ParseErr::Refused(refusal(line)))
    }
}

// The variable at the front of the tokens from this place on, and the place behind it.
fn catch_variable_at(
    alloc: Global,
    line: &Line,
    from: usize,
) -> Result<(CatchVariable, usize), ParseErr>
    ensures { Tells (StandsFrom IsCatchVariableFront from) line.now (drop from line.now.tokens) result }
{
    few_tokens(line);
    let Some(name) = name_at(line, from) else {
        return Err(ParseErr::Refused(refusal(line)));
    };
    if is_word_at(line, from + 1, Keyword::As) {
        let (declared, behind) = type_at(alloc, line, from + 2)?;
        Ok((CatchVariable { name, declared }, behind))
    } else {
        Err(ParseErr::Refused(refusal(line)))
    }
}

pub fn finally(alloc: Global, context: &Context, line: &Line) -> Result<Item, ParseErr>
    requires { front_of context.now line.now.tokens ≡ front.Finally }
    ensures { Tells (IsItemFrom context.now front.Finally) line.now line.now.tokens result }
{
    if line.tokens.len() == 1 {
        Ok(Item::Finally)
    } else {
        Err(ParseErr::Refused(refusal(line)))
    }
}

pub fn sync_lock(alloc: Global, context: &Context, line: &Line) -> Result<Item, ParseErr>
    requires { front_of context.now line.now.tokens ≡ front.SyncLock }
    ensures { Tells (IsItemFrom context.now front.SyncLock) line.now line.now.tokens result }
{
    let object = whole_expression(alloc, line, 1)?;
    Ok(Item::SyncLock(object))
}

pub fn with(alloc: Global, context: &Context, line: &Line) -> Result<Item, ParseErr>
    requires { front_of context.now line.now.tokens ≡ front.With }
    ensures { Tells (IsItemFrom context.now front.With) line.now line.now.tokens result }
{
    let value = whole_expression(alloc, line, 1)?;
    Ok(Item::With(value))
}

pub fn using(alloc: Global, context: &Context, line: &Line) -> Result<Item, ParseErr>
    requires { front_of context.now line.now.tokens ≡ front.Using }
    ensures { Tells (IsItemFrom context.now front.Using) line.now line.now.tokens result }
{
    let found = resource(alloc, line)?;
    Ok(Item::Using(found))
}

// What is disposed of, which all tokens behind the first are.
fn resource(alloc: Global, line: &Line) -> Result<UsingResource, ParseErr>
    requires { 1 ≤ length line.now.tokens }
    ensures { Tells IsResource line.now (drop 1 line.now.tokens) result }
{
    let Some(name) = name_at(line, 1) else {
        return value_resource(alloc, line);
    };
    if is_word_at(line, 2, Keyword::As) {
        local_resource(alloc, line, name)
    } else {
        value_resource(alloc, line)
    }
}

// A value, where no local is declared.
fn value_resource(alloc: Global, line: &Line) -> Result<UsingResource, ParseErr>
    requires within { 1 ≤ length line.now.tokens }
    requires undeclared { IsUndeclared line.now.tokens }
    ensures { Tells IsResource line.now (drop 1 line.now.tokens) result }
{
    let value = whole_expression(alloc, line, 1)?;
    Ok(UsingResource::Value(value))
}

// A local of this name and what stands behind its `As`.
fn local_resource(alloc: Global, line: &Line, name: Name) -> Result<UsingResource, ParseErr>
    requires named { found_name (slice_get line.now.tokens 1) ≡ Some name }
    requires typed { slice_get line.now.tokens 2 ≡ Some (reserved word.As) }
    ensures { Tells IsResource line.now (drop 1 line.now.tokens) result }
{
    one_reading();
    few_tokens(line);
    if is_word_at(line, 3, Keyword::New) {
        let (class, arguments) = new_object(alloc, line, 3)?;
        Ok(UsingResource::AsNew(name, class, arguments))
    } else {
        let (declared, value) = typed_value(alloc, line, 3)?;
        Ok(UsingResource::As(name, declared, value))
    }
}

// The new object that all tokens from this place on make.
fn new_object(
    alloc: Global,
    line: &Line,
    from: usize,
) -> Result<(SimpleTypeName, Items<Expr>), ParseErr>
    requires { from ≤ length line.now.tokens }
    ensures { Tells IsNew line.now (drop from line.now.tokens) result }
{
    one_reading();
    few_tokens(line);
    match parse_primary(alloc, line, from) {
        Ok((made, behind)) => {
            if behind == line.tokens.len() {
                created(line, made)
            } else {
                Err(ParseErr::Refused(refusal(line)))
            }
        }
        Err(ParseErr::Memory) => Err(ParseErr::Memory),
        Err(ParseErr::Refused(_)) => Err(ParseErr::Refused(refusal(line))),
    }
}

// The class and the arguments of a new object, if the expression makes one.
fn created(line: &Line, made: Expr) -> Result<(SimpleTypeName, Items<Expr>), ParseErr>
    ensures { Tells (Makes made) line.now line.now.tokens result }
{
    match made {
        Expr::ObjectCreation(class, arguments) => Ok((class, arguments)),
        _ => Err(ParseErr::Refused(refusal(line))),
    }
}

// A type, `=` and a value, which all tokens from this place on are.
fn typed_value(alloc: Global, line: &Line, from: usize) -> Result<(TypeName, Expr), ParseErr>
    requires { from ≤ length line.now.tokens }
    ensures { Tells IsTypedValue line.now (drop from line.now.tokens) result }
{
    one_reading();
    few_tokens(line);
    let (declared, behind) = type_at(alloc, line, from)?;
    if is_equal_at(line, behind) {
        let value = whole_expression(alloc, line, behind + 1)?;
        Ok((declared, value))
    } else {
        Err(ParseErr::Refused(refusal(line)))
    }
}
