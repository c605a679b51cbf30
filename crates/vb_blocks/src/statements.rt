// Statements: those without a block, and what begins one with a block.
ghost use Rattle.std.specs.Prelude.{◌≡◌, Some, None, MatchResult};
ghost use Rattle.vb_blocks.specs.Trees as spec;
ghost use Rattle.vb_blocks.specs.Steps.{Gives};
ghost use Rattle.vb_blocks.specs.Steps as steps;

use crate::bodies::scope_turn;
use crate::fault::Fault;
use crate::frame::{Frame, Turn};
use crate::scope::{IfClause, Scope, TryClause};
use crate::turns::opens;
use std::alloc::Global;
use vb_syntax::{Block, Boxed, Expr, Item, Items, StatementForm};

/// The statement that an item is by itself, or the item.
pub fn simple(item: Item) -> Result<StatementForm, Item>
    ensures { MatchResult result (λ f. spec.simple_form item ≡ Some f) (λ x. (x ≡ item) × (spec.simple_form item ≡ None)) }
{
    match item {
        Item::Declaration(modifier, declarators) => {
            Ok(StatementForm::LocalDeclaration(modifier, declarators))
        }
        Item::Label(name) => Ok(StatementForm::Label(name)),
        Item::ReDim(name, bound) => Ok(StatementForm::ReDim(name, bound)),
        Item::Assignment(target, value) => Ok(StatementForm::Assignment(target, value)),
        Item::CompoundAssignment(operator, target, value) => {
            Ok(StatementForm::CompoundAssignment(operator, target, value))
        }
        Item::Invocation(call) => Ok(StatementForm::Invocation(call)),
        Item::Throw(value) => Ok(StatementForm::Throw(value)),
        Item::Yield(value) => Ok(StatementForm::Yield(value)),
        Item::Return(value) => Ok(StatementForm::Return(value)),
        Item::GoTo(label) => Ok(StatementForm::GoTo(label)),
        Item::Exit(kind) => Ok(StatementForm::Exit(kind)),
        Item::Continue(kind) => Ok(StatementForm::Continue(kind)),
        Item::OnError(action) => Ok(StatementForm::OnError(action)),
        Item::Resume(place) => Ok(StatementForm::Resume(place)),
        Item::AddHandler(event, handler) => Ok(StatementForm::AddHandler(event, handler)),
        Item::RemoveHandler(event, handler) => Ok(StatementForm::RemoveHandler(event, handler)),
        Item::RaiseEvent(event, arguments) => Ok(StatementForm::RaiseEvent(event, arguments)),
        other => Err(other),
    }
}

/// The frame that a statement with blocks begins inside these statements, or what the item does to the block that they stand in.
pub fn opened(
    alloc: Global,
    scope: Scope,
    body: Block,
    line: u32,
    item: Item,
) -> Result<Turn, Fault>
    ensures { Gives (λ t. t) result (steps.opened_or_turned scope body line item (steps.opened line item)) }
{
    match item {
        Item::If(test) => opens(Frame::Body(scope, body), if_frame(alloc, line, test)),
        Item::Try => opens(Frame::Body(scope, body), try_frame(alloc, line)),
        Item::Select(value) => opens(Frame::Body(scope, body), select_frame(alloc, line, value)),
        Item::While(test) => opens(
            Frame::Body(scope, body),
            enclosing(alloc, line, Item::While(test)),
        ),
        Item::Do(test) => opens(
            Frame::Body(scope, body),
            enclosing(alloc, line, Item::Do(test)),
        ),
        Item::For(variable, start, limit, step) => {
            let opener = Item::For(variable, start, limit, step);
            opens(Frame::Body(scope, body), enclosing(alloc, line, opener))
        }
        Item::ForEach(variable, collection) => {
            let opener = Item::ForEach(variable, collection);
            opens(Frame::Body(scope, body), enclosing(alloc, line, opener))
        }
        Item::SyncLock(value) => opens(
            Frame::Body(scope, body),
            enclosing(alloc, line, Item::SyncLock(value)),
        ),
        Item::With(value) => opens(
            Frame::Body(scope, body),
            enclosing(alloc, line, Item::With(value)),
        ),
        Item::Using(resource) => opens(
            Frame::Body(scope, body),
            enclosing(alloc, line, Item::Using(resource)),
        ),
        other => scope_turn(alloc, scope, body, line, other),
    }
}

/// The frame of statements that are to come.
pub fn begun(alloc: Global, scope: Scope) -> Frame
    ensures { result ≡ steps.body scope }
{
    Frame::Body(scope, Items::new(alloc))
}

fn if_frame(alloc: Global, line: u32, test: Expr) -> Result<Frame, Fault>
    ensures { Gives (λ f. f) result (Some (steps.body (Scope.If (IfClause.If line test)))) }
{
    let clause = Boxed::new(alloc, IfClause::If(line, test))?;
    Ok(begun(alloc, Scope::If(clause)))
}

fn try_frame(alloc: Global, line: u32) -> Result<Frame, Fault>
    ensures { Gives (λ f. f) result (Some (steps.body (Scope.Try (TryClause.Try line)))) }
{
    let clause = Boxed::new(alloc, TryClause::Try(line))?;
    Ok(begun(alloc, Scope::Try(clause)))
}

fn select_frame(alloc: Global, line: u32, value: Expr) -> Result<Frame, Fault>
    ensures { Gives (λ f. f) result (Some (Frame.Select line value)) }
{
    let value = Boxed::new(alloc, value)?;
    Ok(Frame::Select(line, value))
}

fn enclosing(alloc: Global, line: u32, opener: Item) -> Result<Frame, Fault>
    ensures { Gives (λ f. f) result (Some (steps.body (Scope.Enclosed line opener))) }
{
    let opener = Boxed::new(alloc, opener)?;
    Ok(begun(alloc, Scope::Enclosed(line, opener)))
}
