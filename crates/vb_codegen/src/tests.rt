use super::*;
use std::test::Fail;
use vb_bound::{Condition, Expr, Line, LocalId, Operand, Operator, Program, Relation, Statement};

// Dim x As Integer = 0; While x <= 2; x = x + 1; End While; Console.WriteLine(x).
#[test]
fn counts_in_eighteen_instructions(rt: HostRuntime) -> Result<(), Fail> {
    let alloc = rt.alloc();
    let x = Operand::Local(LocalId(0));
    let test = Condition {
        left: x,
        relation: Relation::LessOrEqual,
        right: Operand::Number(2),
    };
    let next = Expr::Two(x, Operator::Add, Operand::Number(1));
    let locals = Vec::from_array(alloc, [Some(Operand::Number(0))])?;
    let lines = Vec::from_array(
        alloc,
        [
            Line::While(test),
            Line::Does(Statement::Assign(LocalId(0), next)),
            Line::EndWhile,
            Line::Does(Statement::WriteLine(Expr::One(x))),
        ],
    )?;
    let checked = generate(alloc, &Program::new(locals, lines))?;
    assert_eq!(rt; checked.code().steps().len(), 18);
    Ok(())
}
