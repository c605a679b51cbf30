// The clauses of an `If`, a `Select Case` and a `Try`, and the end of each.
ghost use Rattle.std.specs.Prelude.{◌≡◌, Some};
ghost use Rattle.vb_blocks.specs.Steps.{Gives};
ghost use Rattle.vb_blocks.specs.Steps as spec;

use crate::fault::Fault;
use crate::frame::{Frame, Turn};
use crate::scope::{IfClause, IfParts, Scope, SelectClause, SelectParts, TryClause, TryParts};
use crate::statements::begun;
use crate::turns::closes_statement;
use crate::words::{is_word, word_of};
use std::alloc::Global;
use vb_syntax::{
    Block, BlockClause, BlockWord, Boxed, CaseClause, CaseItem, CatchClause, CatchVariable,
    ElseIfClause, Expr, Item, Items, Statement, StatementForm,
};

// IF

/// An item behind statements of an `If`.
pub fn if_turn(
    alloc: Global,
    clause: IfClause,
    body: Block,
    line: u32,
    item: Item,
) -> Result<Turn, Fault>
    ensures { Gives (λ t. t) result (spec.if_turn clause body line item) }
{
    match clause {
        IfClause::If(start, test) => {
            let parts = IfParts {
                line: start,
                test,
                body,
                else_ifs: Items::new(alloc),
            };
            if_next(alloc, parts, line, item)
        }
        IfClause::ElseIf(parts, start, test) => {
            if_next(alloc, with_else_if(parts, start, test, body)?, line, item)
        }
        IfClause::Else(parts, start) => {
            let clause = BlockClause { line: start, body };
            if_end(alloc, parts, Some(clause), word_of(item))
        }
    }
}

fn with_else_if(parts: IfParts, line: u32, test: Expr, body: Block) -> Result<IfParts, Fault>
    ensures { Gives (λ p. p) result (Some (spec.with_else_if parts line test body)) }
{
    let mut parts = parts;
    parts.else_ifs.push(ElseIfClause { line, test, body })?;
    Ok(parts)
}

fn if_next(alloc: Global, parts: IfParts, line: u32, item: Item) -> Result<Turn, Fault>
    ensures { Gives (λ t. t) result (spec.if_next parts line item) }
{
    match item {
        Item::ElseIf(test) => if_goes(alloc, IfClause::ElseIf(parts, line, test)),
        Item::Else => if_goes(alloc, IfClause::Else(parts, line)),
        other => if_end(alloc, parts, None, word_of(other)),
    }
}

fn if_goes(alloc: Global, clause: IfClause) -> Result<Turn, Fault>
    ensures { Gives (λ t. t) result (Some (Turn.Goes (spec.body (Scope.If clause)))) }
{
    let clause = Boxed::new(alloc, clause)?;
    Ok(Turn::Goes(begun(alloc, Scope::If(clause))))
}

fn if_end(
    alloc: Global,
    parts: IfParts,
    otherwise: Option<BlockClause>,
    word: Option<BlockWord>,
) -> Result<Turn, Fault>
    ensures { Gives (λ t. t) result (spec.if_end parts otherwise word) }
{
    let form = StatementForm::If {
        test: parts.test,
        body: parts.body,
        else_ifs: parts.else_ifs,
        otherwise,
    };
    let statement = Statement {
        line: parts.line,
        form,
    };
    closes_statement(alloc, is_word(BlockWord::If, word), statement)
}

// SELECT CASE

/// An item behind statements of a `Select Case`.
pub fn select_turn(
    alloc: Global,
    clause: SelectClause,
    body: Block,
    line: u32,
    item: Item,
) -> Result<Turn, Fault>
    ensures { Gives (λ t. t) result (spec.select_turn clause body line item) }
{
    match clause {
        SelectClause::Case(parts, start, items) => {
            select_next(alloc, with_case(parts, start, items, body)?, line, item)
        }
        SelectClause::Else(parts, start) => {
            let clause = BlockClause { line: start, body };
            select_end(alloc, parts, Some(clause), word_of(item))
        }
    }
}

fn with_case(
    parts: SelectParts,
    line: u32,
    items: Items<CaseItem>,
    body: Block,
) -> Result<SelectParts, Fault>
    ensures { Gives (λ p. p) result (Some (spec.with_case parts line items body)) }
{
    let mut parts = parts;
    parts.cases.push(CaseClause { line, items, body })?;
    Ok(parts)
}

/// An item where the first clause of a `Select Case` may begin.
pub fn select_first(
    alloc: Global,
    line: u32,
    value: Boxed<Expr>,
    here: u32,
    item: Item,
) -> Result<Turn, Fault>
    ensures { Gives (λ t. t) result (spec.frame_turn (Frame.Select line value) here item) }
{
    let parts = SelectParts {
        line,
        value: value.into_inner(),
        cases: Items::new(alloc),
    };
    select_next(alloc, parts, here, item)
}

fn select_next(alloc: Global, parts: SelectParts, line: u32, item: Item) -> Result<Turn, Fault>
    ensures { Gives (λ t. t) result (spec.select_next parts line item) }
{
    match item {
        Item::Case(items) => select_goes(alloc, SelectClause::Case(parts, line, items)),
        Item::CaseElse => select_goes(alloc, SelectClause::Else(parts, line)),
        other => select_end(alloc, parts, None, word_of(other)),
    }
}

fn select_goes(alloc: Global, clause: SelectClause) -> Result<Turn, Fault>
    ensures { Gives (λ t. t) result (Some (Turn.Goes (spec.body (Scope.Select clause)))) }
{
    let clause = Boxed::new(alloc, clause)?;
    Ok(Turn::Goes(begun(alloc, Scope::Select(clause))))
}

fn select_end(
    alloc: Global,
    parts: SelectParts,
    otherwise: Option<BlockClause>,
    word: Option<BlockWord>,
) -> Result<Turn, Fault>
    ensures { Gives (λ t. t) result (spec.select_end parts otherwise word) }
{
    let form = StatementForm::Select {
        value: parts.value,
        cases: parts.cases,
        otherwise,
    };
    let statement = Statement {
        line: parts.line,
        form,
    };
    closes_statement(alloc, is_word(BlockWord::Select, word), statement)
}

// TRY

/// An item behind statements of a `Try`.
pub fn try_turn(
    alloc: Global,
    clause: TryClause,
    body: Block,
    line: u32,
    item: Item,
) -> Result<Turn, Fault>
    ensures { Gives (λ t. t) result (spec.try_turn clause body line item) }
{
    match clause {
        TryClause::Try(start) => {
            let parts = TryParts {
                line: start,
                body,
                catches: Items::new(alloc),
            };
            try_next(alloc, parts, line, item)
        }
        TryClause::Catch(parts, start, variable, filter) => {
            let catch = CatchClause {
                line: start,
                variable,
                filter,
                body,
            };
            try_next(alloc, with_catch(parts, catch)?, line, item)
        }
        TryClause::Finally(parts, start) => {
            let clause = BlockClause { line: start, body };
            try_end(alloc, parts, Some(clause), word_of(item))
        }
    }
}

fn with_catch(parts: TryParts, catch: CatchClause) -> Result<TryParts, Fault>
    ensures { Gives (λ p. p) result (Some (spec.with_catch parts catch)) }
{
    let mut parts = parts;
    parts.catches.push(catch)?;
    Ok(parts)
}

fn try_next(alloc: Global, parts: TryParts, line: u32, item: Item) -> Result<Turn, Fault>
    ensures { Gives (λ t. t) result (spec.try_next parts line item) }
{
    match item {
        Item::Catch(variable, filter) => {
            try_goes(alloc, TryClause::Catch(parts, line, variable, filter))
        }
        Item::Finally => try_goes(alloc, TryClause::Finally(parts, line)),
        other => try_end(alloc, parts, None, word_of(other)),
    }
}

fn try_goes(alloc: Global, clause: TryClause) -> Result<Turn, Fault>
    ensures { Gives (λ t. t) result (Some (Turn.Goes (spec.body (Scope.Try clause)))) }
{
    let clause = Boxed::new(alloc, clause)?;
    Ok(Turn::Goes(begun(alloc, Scope::Try(clause))))
}

fn try_end(
    alloc: Global,
    parts: TryParts,
    finally: Option<BlockClause>,
    word: Option<BlockWord>,
) -> Result<Turn, Fault>
    ensures { Gives (λ t. t) result (spec.try_end parts finally word) }
{
    let form = StatementForm::Try {
        body: parts.body,
        catches: parts.catches,
        finally,
    };
    let statement = Statement {
        line: parts.line,
        form,
    };
    closes_statement(alloc, is_word(BlockWord::Try, word), statement)
}
