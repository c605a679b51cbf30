// What is told of the items that stand on lines.

use crate::tell::{tell_name, tell_named, tell_parts};
use crate::tell_declarations::{tell_declaration, tell_declarators};
use crate::tell_expressions::{relation_sign, tell_all, tell_expr, tell_simple_type, tell_type};
use std::alloc::AllocError;
use vb_syntax::{
    CaseItem, CatchVariable, Expr, Item, Items, LoopCondition, LoopControlVariable, OnErrorAction,
    ResumePlace, UsingResource,
};
use vb_text::{Name, NameTable};

// A word and an expression.
fn tell_word(
    out: &mut String,
    names: &mut NameTable,
    word: &str,
    value: &Expr,
) -> Result<(), AllocError> {
    out.push_str(word)?;
    tell_expr(out, names, value)
}

// Two expressions with a word before each.
fn tell_two(
    out: &mut String,
    names: &mut NameTable,
    words: (&str, &str),
    left: &Expr,
    right: &Expr,
) -> Result<(), AllocError> {
    tell_word(out, names, words.0, left)?;
    tell_word(out, names, words.1, right)
}

// A word and an expression, if there is one.
fn tell_maybe(
    out: &mut String,
    names: &mut NameTable,
    word: &str,
    value: &Option<Expr>,
) -> Result<(), AllocError> {
    match value {
        Some(value) => tell_word(out, names, word, value),
        None => Ok(()),
    }
}

fn tell_spaces(
    out: &mut String,
    names: &mut NameTable,
    spaces: &Items<Items<Name>>,
) -> Result<(), AllocError> {
    out.push_str("imports")?;
    for space in spaces.as_slice() {
        out.push_str(" ")?;
        tell_parts(out, names, space)?;
    }
    Ok(())
}

fn tell_variable(
    out: &mut String,
    names: &mut NameTable,
    word: &str,
    variable: &LoopControlVariable,
) -> Result<(), AllocError> {
    tell_named(out, names, word, variable.name)?;
    match &variable.declared {
        Some(name) => {
            out.push_str(" ")?;
            tell_type(out, names, name)
        }
        None => Ok(()),
    }
}

fn tell_condition(
    out: &mut String,
    names: &mut NameTable,
    word: &str,
    test: &Option<LoopCondition>,
) -> Result<(), AllocError> {
    out.push_str(word)?;
    match test {
        None => Ok(()),
        Some(LoopCondition::While(test)) => tell_word(out, names, " while ", test),
        Some(LoopCondition::Until(test)) => tell_word(out, names, " until ", test),
    }
}

fn tell_case(out: &mut String, names: &mut NameTable, found: &CaseItem) -> Result<(), AllocError> {
    out.push_str(" ")?;
    match found {
        CaseItem::Value(value) => tell_expr(out, names, value),
        CaseItem::Range(low, high) => tell_two(out, names, ("", "to"), low, high),
        CaseItem::Relation(operator, value) => {
            tell_word(out, names, relation_sign(*operator), value)
        }
    }
}

fn tell_cases(
    out: &mut String,
    names: &mut NameTable,
    found: &Items<CaseItem>,
) -> Result<(), AllocError> {
    out.push_str("case")?;
    for one in found.as_slice() {
        tell_case(out, names, one)?;
    }
    Ok(())
}

fn tell_caught(
    out: &mut String,
    names: &mut NameTable,
    variable: &Option<CatchVariable>,
) -> Result<(), AllocError> {
    match variable {
        None => out.push_str("catch"),
        Some(variable) => {
            tell_named(out, names, "catch ", variable.name)?;
            out.push_str(" ")?;
            tell_type(out, names, &variable.declared)
        }
    }
}

fn tell_resource(
    out: &mut String,
    names: &mut NameTable,
    found: &UsingResource,
) -> Result<(), AllocError> {
    match found {
        UsingResource::AsNew(name, declared, arguments) => {
            tell_name(out, names, *name)?;
            out.push_str(" new ")?;
            tell_simple_type(out, names, declared)?;
            tell_all(out, names, arguments)
        }
        UsingResource::As(name, declared, value) => {
            tell_name(out, names, *name)?;
            out.push_str(" ")?;
            tell_type(out, names, declared)?;
            tell_word(out, names, " gets ", value)
        }
        UsingResource::Value(value) => tell_expr(out, names, value),
    }
}

fn tell_on_error(
    out: &mut String,
    names: &mut NameTable,
    action: &OnErrorAction,
) -> Result<(), AllocError> {
    match action {
        OnErrorAction::GoTo(name) => tell_named(out, names, "on error goto ", *name),
        OnErrorAction::GoToZero => out.push_str("on error none"),
        OnErrorAction::GoToMinusOne => out.push_str("on error forget"),
        OnErrorAction::ResumeNext => out.push_str("on error next"),
    }
}

fn tell_resume(
    out: &mut String,
    names: &mut NameTable,
    place: &ResumePlace,
) -> Result<(), AllocError> {
    match place {
        ResumePlace::Same => out.push_str("resume"),
        ResumePlace::Next => out.push_str("resume next"),
        ResumePlace::Label(name) => tell_named(out, names, "resume at ", *name),
    }
}

// Appends an item in words.
pub fn tell_item(out: &mut String, names: &mut NameTable, found: &Item) -> Result<(), AllocError> {
    match found {
        Item::Option(setting) => write!(out, "option {setting:?}"),
        Item::Imports(spaces) => tell_spaces(out, names, spaces),
        Item::Declares(line) => tell_declaration(out, names, line.get()),
        Item::End(word) => write!(out, "end {word:?}"),
        Item::Label(name) => tell_named(out, names, "label ", *name),
        Item::Declaration(modifier, all) => {
            write!(out, "{modifier:?}")?;
            tell_declarators(out, names, all)
        }
        Item::ReDim(name, bound) => {
            tell_named(out, names, "redim ", *name)?;
            tell_expr(out, names, bound)
        }
        Item::Assignment(target, value) => tell_two(out, names, ("", " gets "), target, value),
        Item::CompoundAssignment(operator, target, value) => {
            tell_expr(out, names, target)?;
            write!(out, " {operator:?} ")?;
            tell_expr(out, names, value)
        }
        Item::Invocation(called) => tell_word(out, names, "run ", called),
        _ => tell_statement(out, names, found),
    }
}

fn tell_statement(out: &mut String, names: &mut NameTable, found: &Item) -> Result<(), AllocError> {
    match found {
        Item::Throw(value) => {
            out.push_str("throw")?;
            tell_maybe(out, names, " ", value)
        }
        Item::Return(value) => {
            out.push_str("return")?;
            tell_maybe(out, names, " ", value)
        }
        Item::Yield(value) => tell_word(out, names, "yield ", value),
        Item::GoTo(name) => tell_named(out, names, "goto ", *name),
        Item::Exit(kind) => write!(out, "exit {kind:?}"),
        Item::Continue(kind) => write!(out, "continue {kind:?}"),
        Item::OnError(action) => tell_on_error(out, names, action),
        Item::Resume(place) => tell_resume(out, names, place),
        Item::AddHandler(event, handler) => tell_two(out, names, ("add ", " "), event, handler),
        Item::RemoveHandler(event, handler) => {
            tell_two(out, names, ("remove ", " "), event, handler)
        }
        Item::RaiseEvent(name, arguments) => {
            tell_named(out, names, "raise ", *name)?;
            tell_all(out, names, arguments)
        }
        _ => tell_block(out, names, found),
    }
}

fn tell_block(out: &mut String, names: &mut NameTable, found: &Item) -> Result<(), AllocError> {
    match found {
        Item::If(test) => tell_word(out, names, "if ", test),
        Item::ElseIf(test) => tell_word(out, names, "elseif ", test),
        Item::Else => out.push_str("else"),
        Item::While(test) => tell_word(out, names, "while ", test),
        Item::Do(test) => tell_condition(out, names, "do", test),
        Item::Loop(test) => tell_condition(out, names, "loop", test),
        Item::For(variable, start, limit, step) => {
            tell_variable(out, names, "for ", variable)?;
            tell_two(out, names, (" ", " to "), start, limit)?;
            tell_maybe(out, names, " by ", step)
        }
        Item::ForEach(variable, collection) => {
            tell_variable(out, names, "each ", variable)?;
            tell_word(out, names, " in ", collection)
        }
        Item::Next(None) => out.push_str("next"),
        Item::Next(Some(name)) => tell_named(out, names, "next ", *name),
        Item::Select(value) => tell_word(out, names, "select ", value),
        Item::Case(items) => tell_cases(out, names, items),
        Item::CaseElse => out.push_str("case else"),
        _ => tell_guard(out, names, found),
    }
}

fn tell_guard(out: &mut String, names: &mut NameTable, found: &Item) -> Result<(), AllocError> {
    match found {
        Item::Try => out.push_str("try"),
        Item::Catch(variable, filter) => {
            tell_caught(out, names, variable)?;
            tell_maybe(out, names, " when ", filter)
        }
        Item::Finally => out.push_str("finally"),
        Item::SyncLock(value) => tell_word(out, names, "lock ", value),
        Item::With(value) => tell_word(out, names, "with ", value),
        Item::Using(resource) => {
            out.push_str("using ")?;
            tell_resource(out, names, resource)
        }
        _ => out.push_str("?"),
    }
}
