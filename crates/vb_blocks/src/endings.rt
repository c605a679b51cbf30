// The end of a statement with one block.
ghost use Rattle.std.specs.Prelude.{◌≡◌, Some, None, if◌then◌else◌};
ghost use Rattle.vb_blocks.specs.Steps.{Gives};
ghost use Rattle.vb_blocks.specs.Steps as spec;
ghost use Rattle.vb_blocks.specs.Trees.{enclosed as enclosed_form};
ghost use Rattle.vb_blocks.specs.Words as words;

use crate::fault::Fault;
use crate::frame::Turn;
use crate::turns::closes_statement;
use crate::words::{is_word, word_of};
use std::alloc::Global;
use vb_syntax::{
    Block, BlockWord, Item, LoopCondition, LoopTest, NextClause, Statement, StatementForm,
};
use vb_text::Name;

/// An item behind the block of a statement that has one.
pub fn enclosed(
    alloc: Global,
    start: u32,
    opener: Item,
    body: Block,
    line: u32,
    item: Item,
) -> Result<Turn, Fault>
    ensures { Gives (λ t. t) result (spec.enclosed_whole start (enclosed_form opener body line item)) }
{
    match opener {
        Item::While(test) => {
            let form = StatementForm::While(test, body);
            ended(alloc, BlockWord::While, start, form, item)
        }
        Item::SyncLock(value) => {
            let form = StatementForm::SyncLock(value, body);
            ended(alloc, BlockWord::SyncLock, start, form, item)
        }
        Item::With(value) => {
            let form = StatementForm::With(value, body);
            ended(alloc, BlockWord::With, start, form, item)
        }
        Item::Using(resource) => {
            let form = StatementForm::Using(resource, body);
            ended(alloc, BlockWord::Using, start, form, item)
        }
        Item::Do(top) => looped(alloc, start, top, body, line, item),
        Item::For(variable, from, limit, step) => {
            let may_end = is_next(&item);
            let form = StatementForm::For {
                variable,
                start: from,
                limit,
                step,
                body,
                next: next_of(line, item),
            };
            closes_statement(alloc, may_end, Statement { line: start, form })
        }
        Item::ForEach(variable, collection) => {
            let may_end = is_next(&item);
            let form = StatementForm::ForEach {
                variable,
                collection,
                body,
                next: next_of(line, item),
            };
            closes_statement(alloc, may_end, Statement { line: start, form })
        }
        other => {
            drop((other, body, item));
            Err(Fault::Grammar)
        }
    }
}

// A block that ends by `End` and the word.
fn ended(
    alloc: Global,
    word: BlockWord,
    line: u32,
    form: StatementForm,
    item: Item,
) -> Result<Turn, Fault>
    ensures { Gives (λ t. t) result (if words.is_word word (spec.word_of item) then spec.enclosed_whole line (Some form) else None) }
{
    let may_end = is_word(word, word_of(item));
    closes_statement(alloc, may_end, Statement { line, form })
}

// NEXT

fn is_next(item: &Item) -> bool
    ensures { result ≡ spec.is_next item.now }
{
    matches!(item, Item::Next(_))
}

// The clause that ends a loop, if it is one.
fn next_of(line: u32, item: Item) -> NextClause
    ensures { result ≡ spec.next_of line item }
{
    let variable = next_variable(item);
    NextClause { line, variable }
}

fn next_variable(item: Item) -> Option<Name>
    ensures { result ≡ spec.next_variable item }
{
    match item {
        Item::Next(variable) => variable,
        other => {
            drop(other);
            None
        }
    }
}

// LOOP

fn looped(
    alloc: Global,
    start: u32,
    top: Option<LoopCondition>,
    body: Block,
    line: u32,
    item: Item,
) -> Result<Turn, Fault>
    ensures { Gives (λ t. t) result (spec.enclosed_whole start (enclosed_form (Item.Do top) body line item)) }
{
    match item {
        Item::Loop(bottom) => do_ended(alloc, start, top, body, line, bottom),
        other => {
            drop((top, body, other));
            Err(Fault::Grammar)
        }
    }
}

fn do_ended(
    alloc: Global,
    start: u32,
    top: Option<LoopCondition>,
    body: Block,
    line: u32,
    bottom: Option<LoopCondition>,
) -> Result<Turn, Fault>
    ensures { Gives (λ t. t) result (spec.enclosed_whole start (enclosed_form (Item.Do top) body line (Item.Loop bottom))) }
{
    match top {
        None => {
            let form = StatementForm::Do(bottom_test(line, bottom), body);
            closes_statement(alloc, true, Statement { line: start, form })
        }
        Some(condition) => {
            let form = StatementForm::Do(LoopTest::Top(condition), body);
            closes_statement(alloc, is_bare(&bottom), Statement { line: start, form })
        }
    }
}

fn is_bare(test: &Option<LoopCondition>) -> bool
    ensures { result ≡ spec.is_bare test.now }
{
    test.is_none()
}

fn bottom_test(line: u32, bottom: Option<LoopCondition>) -> LoopTest
    ensures { Some result ≡ spec.loop_test None line bottom }
{
    match bottom {
        None => LoopTest::Never,
        Some(condition) => LoopTest::Bottom { line, condition },
    }
}
