// Local declarations.
ghost use Rattle.std.specs.Prelude.{◌≡◌};
ghost use Rattle.vb_parse_decl.specs.Answers.{Tells};
ghost use Rattle.vb_parse_stmt.specs.declared.front.Front.TheVariants as front;
ghost use Rattle.vb_parse_stmt.specs.Reading.{front_of, IsItemFrom};

use std::alloc::Global;
use vb_parse_decl::{bound, declarators, first_name, rest};
use vb_parse_expr::{ParseErr, one_reading, refusal};
use vb_syntax::{Context, Item, Line, LocalModifier};

pub fn dim(alloc: Global, context: &Context, line: &Line) -> Result<Item, ParseErr>
    requires { front_of context.now line.now.tokens ≡ front.Dim }
    ensures { Tells (IsItemFrom context.now front.Dim) line.now line.now.tokens result }
{
    let found = declarators(alloc, line, 1)?;
    Ok(Item::Declaration(LocalModifier::Dim, found))
}

pub fn constant(alloc: Global, context: &Context, line: &Line) -> Result<Item, ParseErr>
    requires { front_of context.now line.now.tokens ≡ front.Const }
    ensures { Tells (IsItemFrom context.now front.Const) line.now line.now.tokens result }
{
    let found = declarators(alloc, line, 1)?;
    Ok(Item::Declaration(LocalModifier::Const, found))
}

pub fn static_local(alloc: Global, context: &Context, line: &Line) -> Result<Item, ParseErr>
    requires { front_of context.now line.now.tokens ≡ front.Static }
    ensures { Tells (IsItemFrom context.now front.Static) line.now line.now.tokens result }
{
    let found = declarators(alloc, line, 1)?;
    Ok(Item::Declaration(LocalModifier::Static, found))
}

pub fn redim(alloc: Global, context: &Context, line: &Line) -> Result<Item, ParseErr>
    requires { front_of context.now line.now.tokens ≡ front.ReDim }
    ensures { Tells (IsItemFrom context.now front.ReDim) line.now line.now.tokens result }
{
    one_reading();
    if line.tokens.len() < 2 {
        return Err(ParseErr::Refused(refusal(line)));
    }
    let Some(name) = first_name(rest(line, 1)) else {
        return Err(ParseErr::Refused(refusal(line)));
    };
    let (found, behind) = bound(alloc, line, 2)?;
    if behind == line.tokens.len() {
        Ok(Item::ReDim(name, found))
    } else {
        Err(ParseErr::Refused(refusal(line)))
    }
}
