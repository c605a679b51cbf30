// The statements behind the declarations.
ghost use Rattle.std.specs.Prelude.{◌≡◌, ◌++◌, [], ◌∷◌, length, IfOk, Err};
ghost use Rattle.vb_bound.specs.Tree.{Block as BoundBlock, Done, Loop, AreLocals, IsBound, lines_of, outline};
ghost use Rattle.vb_bind.specs.Parsing.{IsGoodBlock, IsNoBlock};

use crate::names::KnownNames;
use crate::program::ReadErr;
use crate::statements::{statement_of, test_of};
use std::alloc::Global;
use vb_bound::{Condition, Line, Operand, Program};
use vb_syntax::{Statement, StatementForm};
use vb_text::Name;

// The program of these locals and of these statements behind their declarations.
pub fn program_behind(
    alloc: Global,
    known: &KnownNames,
    names: &[Name],
    locals: Vec<Option<Operand>>,
    block: &[Statement],
) -> Result<Program, ReadErr>
    requires bound { AreLocals 0 locals.items }
    requires counted { length locals.items ≡ length names.now }
    ensures read { IfOk result (λ p. (b : BoundBlock) × IsGoodBlock known.now names.now block.now b × (p ≡ outline locals.items (lines_of b))) }
    ensures refused { result ≡ Err ReadErr.Refused → IsNoBlock known.now names.now block.now }
    ensures bound { IfOk result (λ p. IsBound p) }
{
    let mut lines: Vec<Line> = Vec::new(alloc);
    push_block(known, names, block, &mut lines)?;
    Ok(Program::new(locals, lines))
}

// Pushes the lines of the statements.
#[cycle(block)]
fn push_block(
    known: &KnownNames,
    names: &[Name],
    block: &[Statement],
    lines: &mut Vec<Line>,
) -> Result<(), ReadErr>
    ensures read { IfOk result (λ _. (b : BoundBlock) × IsGoodBlock known.now names.now block.now b × (lines.new.items ≡ lines.old.items ++ lines_of b)) }
    ensures refused { result ≡ Err ReadErr.Refused → IsNoBlock known.now names.now block.now }
{
    for statement in block {
        push_statement(known, names, statement, lines)?;
    }
    Ok(())
}

#[cycle(block)]
fn push_statement(
    known: &KnownNames,
    names: &[Name],
    statement: &Statement,
    lines: &mut Vec<Line>,
) -> Result<(), ReadErr>
    ensures read { IfOk result (λ _. (b : BoundBlock) × IsGoodBlock known.now names.now (statement.now ∷ []) b × (lines.new.items ≡ lines.old.items ++ lines_of b)) }
    ensures refused { result ≡ Err ReadErr.Refused → IsNoBlock known.now names.now (statement.now ∷ []) }
{
    match &statement.form {
        StatementForm::While(test, body) => match test_of(names, test) {
            Some(test) => push_loop(known, names, test, body.as_slice(), lines),
            None => Err(ReadErr::Refused),
        },
        form => match statement_of(known, names, form) {
            Some(does) => push_line(lines, Line::Does(does)),
            None => Err(ReadErr::Refused),
        },
    }
}

// Pushes the lines of a While with this test and these statements.
#[cycle(block)]
fn push_loop(
    known: &KnownNames,
    names: &[Name],
    test: Condition,
    body: &[Statement],
    lines: &mut Vec<Line>,
) -> Result<(), ReadErr>
    ensures read { IfOk result (λ _. (b : BoundBlock) × IsGoodBlock known.now names.now body.now b × (lines.new.items ≡ lines.old.items ++ lines_of (Loop test b Done))) }
    ensures refused { result ≡ Err ReadErr.Refused → IsNoBlock known.now names.now body.now }
{
    push_line(lines, Line::While(test))?;
    push_block(known, names, body, lines)?;
    push_line(lines, Line::EndWhile)
}

fn push_line(lines: &mut Vec<Line>, line: Line) -> Result<(), ReadErr>
    ensures pushed { IfOk result (λ _. lines.new.items ≡ lines.old.items ++ line ∷ []) }
    ensures refused { result ≡ Err ReadErr.Refused → ⊥ }
{
    match lines.push(line) {
        Ok(()) => Ok(()),
        Err(_) => Err(ReadErr::Memory),
    }
}
