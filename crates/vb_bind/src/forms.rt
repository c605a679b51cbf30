// Whether a statement is one of a program, whatever the names and the numbers are.
ghost use Rattle.std.specs.Prelude.{◌≡◌};
ghost use Rattle.vb_bind.specs.Parsing.{is_operand_form as is_operand_tree, is_expr_form as is_expr_tree, is_assign_form as is_assign_pair, is_argument_form as is_argument_list, is_write_form as is_write_tree, is_test_form as is_test_tree, is_initial_form as is_initial_tree, is_variable_form as is_variable_list, is_declarator_form as is_declarator_tree, is_dim_form as is_dim_list, is_form};

use crate::expressions::{name_of, number_of, operator_of, relation_of};
use crate::names::KnownNames;
use crate::statements::{is_integer_type, is_plain, is_write_line};
use vb_syntax::{
    Declarator, Expr, LocalModifier, StatementForm, VariableIdentifier, VariableInitializer,
};

// Whether a statement's form is built. A number is still an Integer, and the names that the grammar uses stand where it uses
// them. Of a While the inner statements don't matter.
pub fn is_built(known: &KnownNames, form: &StatementForm) -> bool
    ensures { result ≡ is_form known.now form.now }
{
    match form {
        StatementForm::LocalDeclaration(LocalModifier::Dim, declarators) => {
            is_dim(declarators.as_slice())
        }
        StatementForm::Assignment(target, value) => is_assign(target, value),
        StatementForm::Invocation(call) => is_write(known, call),
        StatementForm::While(test, _) => is_test(test),
        _ => false,
    }
}

fn is_operand(expr: &Expr) -> bool
    ensures { result ≡ is_operand_tree expr.now }
{
    name_of(expr).is_some() || number_of(expr).is_some()
}

// An operand, or an operator between two.
fn is_expr(expr: &Expr) -> bool
    ensures { result ≡ is_expr_tree expr.now }
{
    match expr {
        Expr::Binary(operator, left, right) => {
            operator_of(*operator).is_some() && is_operand(left.get()) && is_operand(right.get())
        }
        _ => is_operand(expr),
    }
}

fn is_assign(target: &Expr, value: &Expr) -> bool
    ensures { result ≡ is_assign_pair target.now value.now }
{
    name_of(target).is_some() && is_expr(value)
}

// A call of the console.
fn is_write(known: &KnownNames, call: &Expr) -> bool
    ensures { result ≡ is_write_tree known.now call.now }
{
    match call {
        Expr::Invocation(callee, arguments) => {
            is_write_line(known, callee.get()) && is_argument(arguments.as_slice())
        }
        _ => false,
    }
}

fn is_argument(arguments: &[Expr]) -> bool
    ensures { result ≡ is_argument_list arguments.now }
{
    match arguments {
        [argument] => is_expr(argument),
        _ => false,
    }
}

// The test of a loop: a relation between two operands.
fn is_test(test: &Expr) -> bool
    ensures { result ≡ is_test_tree test.now }
{
    match test {
        Expr::Binary(relation, left, right) => {
            relation_of(*relation).is_some() && is_operand(left.get()) && is_operand(right.get())
        }
        _ => false,
    }
}

// A declaration of one Integer.
fn is_dim(declarators: &[Declarator]) -> bool
    ensures { result ≡ is_dim_list declarators.now }
{
    match declarators {
        [declarator] => is_declarator(declarator),
        _ => false,
    }
}

fn is_declarator(declarator: &Declarator) -> bool
    ensures { result ≡ is_declarator_tree declarator.now }
{
    match declarator {
        Declarator::As(variables, type_name, initial) => {
            is_integer_type(type_name) && is_variable(variables.as_slice()) && is_initial(initial)
        }
        _ => false,
    }
}

fn is_variable(variables: &[VariableIdentifier]) -> bool
    ensures { result ≡ is_variable_list variables.now }
{
    match variables {
        [variable] => is_plain(&variable.modifier),
        _ => false,
    }
}

fn is_initial(initial: &Option<VariableInitializer>) -> bool
    ensures { result ≡ is_initial_tree initial.now }
{
    match initial {
        None => true,
        Some(VariableInitializer::Expression(value)) => is_operand(value),
        Some(VariableInitializer::Elements(_)) => false,
    }
}
