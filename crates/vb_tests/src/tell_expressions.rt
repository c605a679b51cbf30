// What is told of the names of types and of expressions.

use crate::tell::{tell_name, tell_named, tell_parts};
use std::alloc::AllocError;
use vb_syntax::{
    BinaryOperator, BuiltInTypeName, Expr, Items, RelationalOperator, SimpleTypeName, TypeName,
    UnaryOperator, VariableInitializer,
};
use vb_text::{NameTable, Text};

fn tell_built_in(out: &mut String, name: BuiltInTypeName) -> Result<(), AllocError> {
    match name {
        BuiltInTypeName::Object => out.push_str("Object"),
        BuiltInTypeName::Primitive(name) => write!(out, "{name:?}"),
    }
}

#[cycle(telling_types)]
fn tell_types(
    out: &mut String,
    names: &mut NameTable,
    all: &Items<TypeName>,
) -> Result<(), AllocError> {
    for one in all.as_slice() {
        out.push_str("<")?;
        tell_type(out, names, one)?;
        out.push_str(">")?;
    }
    Ok(())
}

// Appends a type: `Integer`, `.a.b<.c>`, and `()` behind that of an array's elements.
#[cycle(telling_types)]
pub fn tell_type(
    out: &mut String,
    names: &mut NameTable,
    name: &TypeName,
) -> Result<(), AllocError> {
    match name {
        TypeName::Simple(name) => tell_simple_type(out, names, name),
        TypeName::Array(name) => {
            tell_simple_type(out, names, name)?;
            out.push_str("()")
        }
    }
}

#[cycle(telling_types)]
pub fn tell_simple_type(
    out: &mut String,
    names: &mut NameTable,
    name: &SimpleTypeName,
) -> Result<(), AllocError> {
    match name {
        SimpleTypeName::BuiltIn(name) => tell_built_in(out, *name),
        SimpleTypeName::Qualified(name) => {
            tell_parts(out, names, &name.parts)?;
            tell_types(out, names, &name.arguments)
        }
    }
}

fn tell_text(out: &mut String, text: &Text) -> Result<(), AllocError> {
    let text = String::from_utf16_lossy(*out.allocator(), text.units())?;
    write!(out, "\"{text}\"")
}

pub fn relation_sign(operator: RelationalOperator) -> &'static str {
    match operator {
        RelationalOperator::Equal => "=",
        RelationalOperator::NotEqual => "<>",
        RelationalOperator::Less => "<",
        RelationalOperator::LessOrEqual => "<=",
        RelationalOperator::Greater => ">",
        RelationalOperator::GreaterOrEqual => ">=",
    }
}

// Appends the sign of an operator, or its word.
fn tell_operator(out: &mut String, operator: BinaryOperator) -> Result<(), AllocError> {
    match operator {
        BinaryOperator::Multiply => out.push_str("*"),
        BinaryOperator::Add => out.push_str("+"),
        BinaryOperator::Subtract => out.push_str("-"),
        BinaryOperator::Relational(operator) => out.push_str(relation_sign(operator)),
        operator => write!(out, "{operator:?}"),
    }
}

// Each with a blank before.
#[cycle(telling_expressions)]
pub fn tell_all(
    out: &mut String,
    names: &mut NameTable,
    all: &Items<Expr>,
) -> Result<(), AllocError> {
    for one in all.as_slice() {
        out.push_str(" ")?;
        tell_expr(out, names, one)?;
    }
    Ok(())
}

#[cycle(telling_expressions)]
fn tell_elements(
    out: &mut String,
    names: &mut NameTable,
    all: &Items<VariableInitializer>,
) -> Result<(), AllocError> {
    out.push_str("{")?;
    for one in all.as_slice() {
        out.push_str(" ")?;
        tell_initializer(out, names, one)?;
    }
    out.push_str("}")
}

// Appends an expression, or elements between braces.
#[cycle(telling_expressions)]
pub fn tell_initializer(
    out: &mut String,
    names: &mut NameTable,
    found: &VariableInitializer,
) -> Result<(), AllocError> {
    match found {
        VariableInitializer::Expression(found) => tell_expr(out, names, found),
        VariableInitializer::Elements(all) => tell_elements(out, names, all),
    }
}

// Appends an expression, with each operation between brackets.
#[cycle(telling_expressions)]
pub fn tell_expr(out: &mut String, names: &mut NameTable, found: &Expr) -> Result<(), AllocError> {
    out.push_str("[")?;
    match found {
        Expr::Integer(literal) => {
            let value = literal.value;
            write!(out, "{value}")?;
        }
        Expr::Text(text) => tell_text(out, text)?,
        Expr::Char(unit) => write!(out, "char {unit}")?,
        Expr::True => out.push_str("true")?,
        Expr::False => out.push_str("false")?,
        Expr::Nothing => out.push_str("nothing")?,
        Expr::Me => out.push_str("me")?,
        Expr::MyBase => out.push_str("mybase")?,
        Expr::SimpleName(name, arguments) => {
            tell_name(out, names, *name)?;
            tell_types(out, names, arguments)?;
        }
        Expr::BuiltInMemberAccess(name, member) => {
            tell_built_in(out, *name)?;
            tell_named(out, names, ".", *member)?;
        }
        Expr::WithMemberAccess(member) => tell_named(out, names, ".", *member)?,
        found => tell_operation(out, names, found)?,
    }
    out.push_str("]")
}

// Appends an expression of others.
#[cycle(telling_expressions)]
fn tell_operation(out: &mut String, names: &mut NameTable, found: &Expr) -> Result<(), AllocError> {
    match found {
        Expr::Parenthesized(inner) => tell_prefixed(out, names, "paren", inner.get()),
        Expr::AddressOf(operand) => tell_prefixed(out, names, "address", operand.get()),
        Expr::TypeOf(operand, name) => {
            tell_prefixed(out, names, "typeof", operand.get())?;
            tell_type(out, names, name)
        }
        Expr::PrimitiveCast(name, operand) => {
            write!(out, "to {name:?}")?;
            tell_expr(out, names, operand.get())
        }
        Expr::Cast(operator, operand, name) => {
            write!(out, "{operator:?}")?;
            tell_expr(out, names, operand.get())?;
            tell_type(out, names, name)
        }
        Expr::Unary(operator, operand) => {
            let sign = match operator {
                UnaryOperator::Not => "!",
                UnaryOperator::Minus => "~",
                UnaryOperator::Plus => "plus",
            };
            tell_prefixed(out, names, sign, operand.get())
        }
        Expr::Binary(operator, left, right) => {
            tell_expr(out, names, left.get())?;
            tell_operator(out, *operator)?;
            tell_expr(out, names, right.get())
        }
        Expr::Conditional(test, left, right) => {
            tell_prefixed(out, names, "if", test.get())?;
            tell_expr(out, names, left.get())?;
            tell_expr(out, names, right.get())
        }
        found => tell_call(out, names, found),
    }
}

#[cycle(telling_expressions)]
fn tell_prefixed(
    out: &mut String,
    names: &mut NameTable,
    word: &str,
    operand: &Expr,
) -> Result<(), AllocError> {
    out.push_str(word)?;
    tell_expr(out, names, operand)
}

// Appends a member, a call or a new object or array.
#[cycle(telling_expressions)]
fn tell_call(out: &mut String, names: &mut NameTable, found: &Expr) -> Result<(), AllocError> {
    match found {
        Expr::MemberAccess(object, name, arguments) => {
            tell_expr(out, names, object.get())?;
            tell_named(out, names, ".", *name)?;
            tell_types(out, names, arguments)
        }
        Expr::Invocation(callee, arguments) => {
            tell_prefixed(out, names, "call", callee.get())?;
            tell_all(out, names, arguments)
        }
        Expr::ObjectCreation(name, arguments) => {
            out.push_str("new")?;
            tell_simple_type(out, names, name)?;
            tell_all(out, names, arguments)
        }
        Expr::ArrayCreation(name, bound, elements) => {
            out.push_str("array")?;
            tell_simple_type(out, names, name)?;
            if let Some(bound) = bound {
                tell_expr(out, names, bound.get())?;
            }
            tell_elements(out, names, elements)
        }
        _ => out.push_str("?"),
    }
}
