// An `If` on one line, and the ends of its parts.
ghost use Rattle.std.specs.Prelude.{◌≡◌, reverse, Some};
ghost use Rattle.vb_blocks.specs.Steps.{Gives};
ghost use Rattle.vb_blocks.specs.Steps as spec;
ghost use Rattle.vb_tree.specs.Lines as lines;

use std::alloc::Global;
use vb_blocks::{Fault, Frame, LineClause, Scope, begun, is_line};
use vb_members::with_statement;
use vb_syntax::{Block, Boxed, Items, Joint, Statement, StatementForm};

/// What stands behind a statement in its line, where these are the statements with it.
pub fn statement_ends(
    alloc: Global,
    behind: Joint,
    scope: Scope,
    body: Block,
    below: &mut Items<Frame>,
) -> Result<Frame, Fault>
    ensures { Gives (λ f. (f, reverse below.new)) result (spec.statement_ends behind scope body (reverse below.old)) }
{
    match behind {
        Joint::End => line_ends(scope, body, below),
        Joint::Else => else_begins(alloc, scope, body, below),
        Joint::Colon => line_goes_on(scope, body),
        Joint::Then => {
            drop((scope, body));
            Err(Fault::Grammar)
        }
    }
}

// Before another statement of the line.
fn line_goes_on(scope: Scope, body: Block) -> Result<Frame, Fault>
    ensures { Gives (λ f. f) result (lines.line_goes_on scope body) }
{
    if is_line(&scope) {
        Ok(Frame::Body(scope, body))
    } else {
        drop((scope, body));
        Err(Fault::Grammar)
    }
}

// Behind the last statement of a line.
fn line_ends(scope: Scope, body: Block, below: &mut Items<Frame>) -> Result<Frame, Fault>
    ensures { Gives (λ f. (f, reverse below.new)) result (spec.line_ends scope body (reverse below.old)) }
{
    let mut frame = Frame::Body(scope, body);
    while in_line(&frame) {
        frame = left(frame, below)?;
    }
    Ok(frame)
}

// Behind the statement before `Else`.
fn else_begins(
    alloc: Global,
    scope: Scope,
    body: Block,
    below: &mut Items<Frame>,
) -> Result<Frame, Fault>
    ensures { Gives (λ f. (f, reverse below.new)) result (spec.else_begins scope body (reverse below.old)) }
{
    let mut frame = Frame::Body(scope, body);
    while in_else(&frame) {
        frame = left(frame, below)?;
    }
    else_clause(alloc, frame)
}

// Whether they are statements of a part of an `If` on one line.
fn in_line(frame: &Frame) -> bool
    ensures { result ≡ lines.in_line frame.now }
{
    matches!(frame, Frame::Body(Scope::Line(_), _))
}

// Whether that part is behind its `Else`.
fn in_else(frame: &Frame) -> bool
    ensures { result ≡ lines.in_else frame.now }
{
    match frame {
        Frame::Body(Scope::Line(clause), _) => is_else(clause.get()),
        _ => false,
    }
}

fn is_else(clause: &LineClause) -> bool
    ensures { result ≡ lines.is_else clause.now }
{
    matches!(clause, LineClause::Else(..))
}

// Behind the `Else` of an `If` on one line.
fn else_clause(alloc: Global, frame: Frame) -> Result<Frame, Fault>
    ensures { Gives (λ f. f) result (lines.else_clause frame) }
{
    match frame {
        Frame::Body(scope, body) => else_scope(alloc, scope, body),
        other => {
            drop(other);
            Err(Fault::Grammar)
        }
    }
}

fn else_scope(alloc: Global, scope: Scope, body: Block) -> Result<Frame, Fault>
    ensures { Gives (λ f. f) result (lines.else_clause (Frame.Body scope body)) }
{
    match scope {
        Scope::Line(clause) => else_frame(alloc, clause.into_inner(), body),
        other => {
            drop((other, body));
            Err(Fault::Grammar)
        }
    }
}

fn else_frame(alloc: Global, clause: LineClause, body: Block) -> Result<Frame, Fault>
    ensures { Gives (λ f. f) result (lines.else_clause (Frame.Body (Scope.Line clause) body)) }
{
    match clause {
        LineClause::Then(line, test) => line_frame(alloc, LineClause::Else(line, test, body)),
        LineClause::Else(..) => Err(Fault::Grammar),
    }
}

/// The frame of a part of an `If` on one line.
pub fn line_frame(alloc: Global, clause: LineClause) -> Result<Frame, Fault>
    ensures { Gives (λ f. f) result (Some (spec.body (Scope.Line clause))) }
{
    let clause = Boxed::new(alloc, clause)?;
    Ok(begun(alloc, Scope::Line(clause)))
}

// The `If` on one line is whole: the statements that it stands among.
fn left(frame: Frame, below: &mut Items<Frame>) -> Result<Frame, Fault>
    ensures { Gives (λ f. (f, reverse below.new)) result (lines.left frame (reverse below.old)) }
{
    match frame {
        Frame::Body(scope, body) => left_scope(scope, body, below),
        other => {
            drop(other);
            Err(Fault::Grammar)
        }
    }
}

fn left_scope(scope: Scope, body: Block, below: &mut Items<Frame>) -> Result<Frame, Fault>
    ensures { Gives (λ f. (f, reverse below.new)) result (lines.left (Frame.Body scope body) (reverse below.old)) }
{
    match scope {
        Scope::Line(clause) => put_line(line_whole(clause.into_inner(), body), below),
        other => {
            drop((other, body));
            Err(Fault::Grammar)
        }
    }
}

fn line_whole(clause: LineClause, body: Block) -> Statement
    ensures { result ≡ spec.line_whole clause body }
{
    match clause {
        LineClause::Then(line, test) => Statement {
            line,
            form: StatementForm::LineIf {
                test,
                body,
                otherwise: None,
            },
        },
        LineClause::Else(line, test, before) => Statement {
            line,
            form: StatementForm::LineIf {
                test,
                body: before,
                otherwise: Some(body),
            },
        },
    }
}

fn put_line(statement: Statement, below: &mut Items<Frame>) -> Result<Frame, Fault>
    ensures { Gives (λ f. (f, reverse below.new)) result (lines.line_put statement (reverse below.old)) }
{
    match below.pop() {
        Some(frame) => among(statement, frame),
        None => Err(Fault::Grammar),
    }
}

fn among(statement: Statement, frame: Frame) -> Result<Frame, Fault>
    ensures { Gives (λ f. f) result (lines.among statement frame) }
{
    match frame {
        Frame::Body(scope, body) => with_statement(scope, body, statement),
        other => {
            drop(other);
            Err(Fault::Grammar)
        }
    }
}
