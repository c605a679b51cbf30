// The code of declarations, statements and tests.
ghost use Rattle.std.specs.Prelude.{◌≡◌, ◌++◌, ◌∷◌, [], length, OnOk};
ghost use Rattle.vb_codegen.specs.Emitted.{step, instr_of, arithmetic_of, comparison_of, expr_code, line_code, statement_code, local_code, test_code};

use std::alloc::AllocError;
use vb_bound::{Condition, Expr, LocalId, Operand, Operator, Relation, Statement};
use vb_code::{Arithmetic, Comparison, Constant, Instr, Mark, Silent, Step};
use vb_num::Kind;

/// Adds an instruction, with which so many statements begin.
pub fn put(steps: &mut Vec<Step>, begins: u32, instr: Instr) -> Result<(), AllocError>
    ensures { OnOk result (steps.new.items ≡ steps.old.items ++ step begins instr ∷ []) }
{
    steps.push(Step { begins, instr })?;
    Ok(())
}

/// What pushes an operand.
fn instr_of(operand: Operand) -> Instr
    ensures { result ≡ instr_of operand }
{
    match operand {
        Operand::Local(local) => Instr::LoadLocal(local.0),
        Operand::Number(value) => Instr::Push(Constant::Integer(value)),
    }
}

fn arithmetic_of(operator: Operator) -> Arithmetic
    ensures { result ≡ arithmetic_of operator }
{
    match operator {
        Operator::Add => Arithmetic::Add,
        Operator::Sub => Arithmetic::Sub,
        Operator::Mul => Arithmetic::Mul,
    }
}

fn comparison_of(relation: Relation) -> Comparison
    ensures { result ≡ comparison_of relation }
{
    match relation {
        Relation::Equal => Comparison::Equal,
        Relation::NotEqual => Comparison::NotEqual,
        Relation::Less => Comparison::Less,
        Relation::LessOrEqual => Comparison::LessOrEqual,
        Relation::Greater => Comparison::Greater,
        Relation::GreaterOrEqual => Comparison::GreaterOrEqual,
    }
}

/// A declaration of this local, with a value or without (Visual Basic Language Specification 11.0, 10.2).
pub fn emit_local(
    steps: &mut Vec<Step>,
    local: usize,
    value: Option<Operand>,
) -> Result<(), AllocError>
    ensures { OnOk result (steps.new.items ≡ steps.old.items ++ local_code (length steps.old.items) local value) }
{
    match value {
        None => put(steps, 1, Instr::Jump(steps.len() + 1)),
        Some(value) => {
            put(steps, 2, instr_of(value))?;
            put(steps, 0, Instr::StoreLocal(local))
        }
    }
}

/// A statement without a block.
pub fn emit_statement(steps: &mut Vec<Step>, statement: Statement) -> Result<(), AllocError>
    ensures { OnOk result (steps.new.items ≡ steps.old.items ++ statement_code statement) }
{
    match statement {
        Statement::Assign(local, value) => {
            emit_expr(steps, value)?;
            put(steps, 0, Instr::StoreLocal(local.0))
        }
        Statement::WriteLine(value) => {
            emit_expr(steps, value)?;
            emit_line_end(steps)
        }
    }
}

// The value of a statement's expression.
fn emit_expr(steps: &mut Vec<Step>, expr: Expr) -> Result<(), AllocError>
    ensures { OnOk result (steps.new.items ≡ steps.old.items ++ expr_code expr) }
{
    match expr {
        Expr::One(value) => put(steps, 1, instr_of(value)),
        Expr::Two(left, operator, right) => {
            put(steps, 1, instr_of(left))?;
            put(steps, 0, instr_of(right))?;
            put(
                steps,
                0,
                Instr::Arith(arithmetic_of(operator), Kind::Integer),
            )
        }
    }
}

// Writes the number on the stack as a line.
fn emit_line_end(steps: &mut Vec<Step>) -> Result<(), AllocError>
    ensures { OnOk result (steps.new.items ≡ steps.old.items ++ line_code) }
{
    put(steps, 0, Instr::Intrinsic(Silent::TextOf))?;
    put(steps, 0, Instr::PushText(0))?;
    put(steps, 0, Instr::Concat)?;
    put(steps, 0, Instr::Write(Mark::Always))
}

/// The test of a loop whose body begins at this place.
pub fn emit_test(steps: &mut Vec<Step>, body: usize, test: Condition) -> Result<(), AllocError>
    ensures { OnOk result (steps.new.items ≡ steps.old.items ++ test_code body test) }
{
    put(steps, 1, instr_of(test.left))?;
    put(steps, 0, instr_of(test.right))?;
    put(steps, 0, Instr::Compare(comparison_of(test.relation)))?;
    put(steps, 0, Instr::JumpIf(body))
}
