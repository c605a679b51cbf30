// The statements of a program, each by itself.
ghost use Rattle.std.specs.Prelude.{◌≡◌, length, IfSome};
ghost use Rattle.vb_bound.specs.Tree.{IsExprOf, IsStatementOf, IsLineOf, IsInitialOf};
ghost use Rattle.vb_bind.specs.Parsing.{assign_read, is_write_line as is_write_line_tree, argument_read, write_read, statement_read, test_read, initial_read, is_integer_type as is_integer_type_name, is_plain as is_plain_modifier, variable_read, declarator_read, declared_read, dim_read};

use crate::expressions::{condition_of, expr_of, is_name, named_local, operand_of};
use crate::names::{KnownNames, is_same, new_name_of};
use vb_bound::{Condition, Expr, Line, Operand, Statement};
use vb_syntax::{
    BuiltInTypeName, Declarator, Expr as SyntaxExpr, LocalModifier, PrimitiveTypeName,
    SimpleTypeName, StatementForm, TypeName, VariableIdentifier, VariableInitializer,
    VariableModifier,
};
use vb_text::Name;

// A statement without a block.
pub fn statement_of(known: &KnownNames, names: &[Name], form: &StatementForm) -> Option<Statement>
    ensures statement { result ≡ statement_read known.now names.now form.now }
    ensures bound { IfSome result (λ s. IsStatementOf (length names.now) s) }
{
    match form {
        StatementForm::Assignment(target, value) => assign_of(names, target, value),
        StatementForm::Invocation(call) => write_of(known, names, call),
        _ => None,
    }
}

fn assign_of(names: &[Name], target: &SyntaxExpr, value: &SyntaxExpr) -> Option<Statement>
    ensures statement { result ≡ assign_read names.now target.now value.now }
    ensures bound { IfSome result (λ s. IsStatementOf (length names.now) s) }
{
    let local = named_local(names, target)?;
    let expr = expr_of(names, value)?;
    Some(Statement::Assign(local, expr))
}

// A call of the console.
fn write_of(known: &KnownNames, names: &[Name], call: &SyntaxExpr) -> Option<Statement>
    ensures statement { result ≡ write_read known.now names.now call.now }
    ensures bound { IfSome result (λ s. IsStatementOf (length names.now) s) }
{
    match call {
        SyntaxExpr::Invocation(callee, arguments) if is_write_line(known, callee.get()) => {
            let expr = argument_of(names, arguments.as_slice())?;
            Some(Statement::WriteLine(expr))
        }
        _ => None,
    }
}

// Whether an expression is the method that writes a line.
pub fn is_write_line(known: &KnownNames, callee: &SyntaxExpr) -> bool
    ensures { result ≡ is_write_line_tree known.now callee.now }
{
    match callee {
        SyntaxExpr::MemberAccess(object, member, arguments) => match arguments.as_slice() {
            [] => is_name(object.get(), known.console) && is_same(*member, known.write_line),
            _ => false,
        },
        _ => false,
    }
}

// The one argument of a call.
fn argument_of(names: &[Name], arguments: &[SyntaxExpr]) -> Option<Expr>
    ensures expr { result ≡ argument_read names.now arguments.now }
    ensures bound { IfSome result (λ e. IsExprOf (length names.now) e) }
{
    match arguments {
        [argument] => expr_of(names, argument),
        _ => None,
    }
}

// The test of a loop.
pub fn test_of(names: &[Name], test: &SyntaxExpr) -> Option<Condition>
    ensures test { result ≡ test_read names.now test.now }
    ensures bound { IfSome result (λ c. IsLineOf (length names.now) (Line.While c)) }
{
    match test {
        SyntaxExpr::Binary(relation, left, right) => condition_of(
            names,
            left.get(),
            *relation,
            right.get(),
        ),
        _ => None,
    }
}

// The value that a declaration gives.
fn initial_of(names: &[Name], initial: &Option<VariableInitializer>) -> Option<Option<Operand>>
    ensures initial { result ≡ initial_read names.now initial.now }
    ensures bound { IfSome result (λ i. IsInitialOf (length names.now) i) }
{
    match initial {
        None => Some(None),
        Some(VariableInitializer::Expression(value)) => {
            let operand = operand_of(names, value)?;
            Some(Some(operand))
        }
        Some(VariableInitializer::Elements(_)) => None,
    }
}

pub fn is_integer_type(name: &TypeName) -> bool
    ensures { result ≡ is_integer_type_name name.now }
{
    match name {
        TypeName::Simple(SimpleTypeName::BuiltIn(BuiltInTypeName::Primitive(primitive))) =>
            *primitive == PrimitiveTypeName::Integer,
        _ => false,
    }
}

// Whether nothing stands behind the name of a variable.
pub fn is_plain(modifier: &VariableModifier) -> bool
    ensures { result ≡ is_plain_modifier modifier.now }
{
    match modifier {
        VariableModifier::Plain => true,
        _ => false,
    }
}

// The name of the one variable that is declared.
fn variable_of(known: &KnownNames, variables: &[VariableIdentifier]) -> Option<Name>
    ensures { result ≡ variable_read known.now variables.now }
{
    match variables {
        [variable] if is_plain(&variable.modifier) => new_name_of(known, variable.name),
        _ => None,
    }
}

// A declaration: the local's name and its value, if it is given one.
pub fn dim_of(
    known: &KnownNames,
    names: &[Name],
    form: &StatementForm,
) -> Option<(Name, Option<Operand>)>
    ensures dim { result ≡ dim_read known.now names.now form.now }
    ensures bound { IfSome result (λ d. IsInitialOf (length names.now) d.1) }
{
    match form {
        StatementForm::LocalDeclaration(LocalModifier::Dim, declarators) => {
            declared(known, names, declarators.as_slice())
        }
        _ => None,
    }
}

// What the one declarator declares.
fn declared(
    known: &KnownNames,
    names: &[Name],
    declarators: &[Declarator],
) -> Option<(Name, Option<Operand>)>
    ensures dim { result ≡ declared_read known.now names.now declarators.now }
    ensures bound { IfSome result (λ d. IsInitialOf (length names.now) d.1) }
{
    match declarators {
        [declarator] => declarator_of(known, names, declarator),
        _ => None,
    }
}

fn declarator_of(
    known: &KnownNames,
    names: &[Name],
    declarator: &Declarator,
) -> Option<(Name, Option<Operand>)>
    ensures dim { result ≡ declarator_read known.now names.now declarator.now }
    ensures bound { IfSome result (λ d. IsInitialOf (length names.now) d.1) }
{
    match declarator {
        Declarator::As(variables, type_name, initial) if is_integer_type(type_name) => {
            let name = variable_of(known, variables.as_slice())?;
            let initial = initial_of(names, initial)?;
            Some((name, initial))
        }
        _ => None,
    }
}
