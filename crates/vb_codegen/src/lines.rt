// The code of the lines of a program, by a stack of the loops that are open.
ghost use Rattle.std.specs.Prelude.{◌≡◌, ◌<◌, ◌++◌, ◌∷◌, [], List, length, OnOk};
ghost use Rattle.vb_bound.specs.Tree.{Block, lines_of, HasBlock};
ghost use Rattle.vb_codegen.specs.Emitted.{step, block_code};
ghost use Rattle.vb_codegen.specs.Emission.{CanComplete, Goes, closed, open_at};

use crate::statements::{emit_statement, emit_test, put};
use std::alloc::{AllocError, Global};
use vb_bound::{Condition, Line};
use vb_code::{Instr, Step};

/// A loop whose end is still to come: the place of its jump, and its test.
#[derive(Clone, Copy, Debug, PartialEq, Eq)]
pub struct OpenLoop {
    pub start: usize,
    pub test: Condition,
}

/// Adds the code of these lines.
pub fn emit_lines(alloc: Global, steps: &mut Vec<Step>, lines: &[Line]) -> Result<(), AllocError>
    requires { HasBlock lines.now }
    ensures { OnOk result ((block : Block) → lines.now ≡ lines_of block → steps.new.items ≡ steps.old.items ++ block_code (length steps.old.items) block) }
{
    let mut loops = Vec::new(alloc);
    for line in lines {
        emit_line(steps, &mut loops, *line)?;
    }
    Ok(())
}

// Adds the code of one line. A loop is open from its first line to its last one.
fn emit_line(steps: &mut Vec<Step>, loops: &mut Vec<OpenLoop>, line: Line) -> Result<(), AllocError>
    requires { (lines : List Line) × CanComplete steps.old.items loops.old.items (line ∷ lines) }
    ensures { OnOk result (Goes line steps.old.items loops.old.items steps.new.items loops.new.items) }
{
    match line {
        Line::Does(statement) => emit_statement(steps, statement),
        Line::While(test) => open_loop(steps, loops, test),
        Line::EndWhile => match loops.pop() {
            Some(innermost) => close_loop(steps, innermost),
            None => unreachable!(),
        },
    }
}

// A jump that is still to be led to the test.
fn open_loop(
    steps: &mut Vec<Step>,
    loops: &mut Vec<OpenLoop>,
    test: Condition,
) -> Result<(), AllocError>
    ensures steps { OnOk result (steps.new.items ≡ steps.old.items ++ step 1 (Instr.Jump 0) ∷ []) }
    ensures loops { OnOk result (loops.new.items ≡ loops.old.items ++ open_at (length steps.old.items) test ∷ []) }
{
    let start = steps.len();
    put(steps, 1, Instr::Jump(0))?;
    loops.push(OpenLoop { start, test })?;
    Ok(())
}

// The jump leads to the test, which is added.
fn close_loop(steps: &mut Vec<Step>, innermost: OpenLoop) -> Result<(), AllocError>
    requires { innermost.start < length steps.old.items }
    ensures { OnOk result (steps.new.items ≡ closed innermost steps.old.items) }
{
    steps[innermost.start] = Step {
        begins: 1,
        instr: Instr::Jump(steps.len()),
    };
    emit_test(steps, innermost.start + 1, innermost.test)
}
