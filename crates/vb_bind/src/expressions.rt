// Operands, and what stands between two of them.
ghost use Rattle.std.specs.Prelude.{◌≡◌, ◌<◌, length, IfSome};
ghost use Rattle.vb_bound.specs.Tree.{IsOperandOf, IsExprOf, IsLineOf};
ghost use Rattle.vb_bind.specs.Parsing.{named, is_name_tree, number_read, local_read, operand_read, operator_read, relation_from, relation_read, are_mixed as are_mixed_operands, two_read, condition_read, expr_read};

use crate::names::{is_same, local_of};
use vb_bound::{Condition, Expr, Line, LocalId, Operand, Operator, Relation};
use vb_syntax::{
    BinaryOperator, Expr as SyntaxExpr, IntegerType, IntegerValue, RelationalOperator,
};
use vb_text::Name;

// The name that an expression is, if it is one.
pub fn name_of(expr: &SyntaxExpr) -> Option<Name>
    ensures { result ≡ named expr.now }
{
    match expr {
        SyntaxExpr::SimpleName(name, arguments) => match arguments.as_slice() {
            [] => Some(*name),
            _ => None,
        },
        _ => None,
    }
}

pub fn is_name(expr: &SyntaxExpr, wanted: Name) -> bool
    ensures { result ≡ is_name_tree expr.now wanted }
{
    match name_of(expr) {
        Some(name) => is_same(name, wanted),
        None => false,
    }
}

// The value of a literal of type Integer, in whatever base it was written.
pub fn number_of(expr: &SyntaxExpr) -> Option<i32>
    ensures { result ≡ number_read expr.now }
{
    match expr {
        SyntaxExpr::Integer(
            IntegerValue {
                kind: IntegerType::Integer,
                value,
            },
        ) => i32::try_from(*value).ok(),
        _ => None,
    }
}

// The local that an expression names.
pub fn named_local(names: &[Name], expr: &SyntaxExpr) -> Option<LocalId>
    ensures local { result ≡ local_read names.now expr.now }
    ensures bound { IfSome result (λ x. x.0 < length names.now) }
{
    local_of(names, name_of(expr)?)
}

pub fn operand_of(names: &[Name], expr: &SyntaxExpr) -> Option<Operand>
    ensures operand { result ≡ operand_read names.now expr.now }
    ensures bound { IfSome result (λ p. IsOperandOf (length names.now) p) }
{
    match name_of(expr) {
        Some(name) => Some(Operand::Local(local_of(names, name)?)),
        None => Some(Operand::Number(number_of(expr)?)),
    }
}

pub fn operator_of(operator: BinaryOperator) -> Option<Operator>
    ensures { result ≡ operator_read operator }
{
    match operator {
        BinaryOperator::Add => Some(Operator::Add),
        BinaryOperator::Subtract => Some(Operator::Sub),
        BinaryOperator::Multiply => Some(Operator::Mul),
        _ => None,
    }
}

fn relation_between(relation: RelationalOperator) -> Relation
    ensures { result ≡ relation_from relation }
{
    match relation {
        RelationalOperator::Equal => Relation::Equal,
        RelationalOperator::NotEqual => Relation::NotEqual,
        RelationalOperator::Less => Relation::Less,
        RelationalOperator::LessOrEqual => Relation::LessOrEqual,
        RelationalOperator::Greater => Relation::Greater,
        RelationalOperator::GreaterOrEqual => Relation::GreaterOrEqual,
    }
}

pub fn relation_of(operator: BinaryOperator) -> Option<Relation>
    ensures { result ≡ relation_read operator }
{
    match operator {
        BinaryOperator::Relational(relation) => Some(relation_between(relation)),
        _ => None,
    }
}

// Whether two operands aren't both numbers.
fn are_mixed(left: Operand, right: Operand) -> bool
    ensures { result ≡ are_mixed_operands left right }
{
    match left {
        Operand::Local(_) => true,
        Operand::Number(_) => match right {
            Operand::Local(_) => true,
            Operand::Number(_) => false,
        },
    }
}

// An operator between two operands.
fn two_of(
    names: &[Name],
    left: &SyntaxExpr,
    operator: BinaryOperator,
    right: &SyntaxExpr,
) -> Option<Expr>
    ensures expr { result ≡ two_read names.now left.now operator right.now }
    ensures bound { IfSome result (λ e. IsExprOf (length names.now) e) }
{
    let left = operand_of(names, left)?;
    let operator = operator_of(operator)?;
    let right = operand_of(names, right)?;
    if are_mixed(left, right) {
        Some(Expr::Two(left, operator, right))
    } else {
        None
    }
}

// A relation between two operands.
pub fn condition_of(
    names: &[Name],
    left: &SyntaxExpr,
    relation: BinaryOperator,
    right: &SyntaxExpr,
) -> Option<Condition>
    ensures condition { result ≡ condition_read names.now left.now relation right.now }
    ensures bound { IfSome result (λ c. IsLineOf (length names.now) (Line.While c)) }
{
    let left = operand_of(names, left)?;
    let relation = relation_of(relation)?;
    let right = operand_of(names, right)?;
    if are_mixed(left, right) {
        Some(Condition {
            left,
            relation,
            right,
        })
    } else {
        None
    }
}

pub fn expr_of(names: &[Name], expr: &SyntaxExpr) -> Option<Expr>
    ensures expr { result ≡ expr_read names.now expr.now }
    ensures bound { IfSome result (λ e. IsExprOf (length names.now) e) }
{
    match expr {
        SyntaxExpr::Binary(operator, left, right) => two_of(
            names,
            left.get(),
            *operator,
            right.get(),
        ),
        _ => Some(Expr::One(operand_of(names, expr)?)),
    }
}
