// The items of the pieces of a line.
ghost use Rattle.std.specs.Prelude.{◌≡◌, ◌≤◌, IfOk, length, slice_range};
ghost use Rattle.vb_rows.specs.Rows.{Spells};

use std::alloc::{AllocError, Global};
use vb_parse_stmt::{ParseErr, parse_stmt};
use vb_syntax::{Context, Item, Items, Line, Token};

// What stands on a line, or on a part of it; none where nothing of the grammar does. The error is want of memory.
fn item_of(alloc: Global, context: &Context, line: &Line) -> Result<Option<Item>, AllocError>
    ensures { IfOk result (λ i. Spells context.now line.now.tokens i) }
{
    match parse_stmt(alloc, context, line) {
        Ok(item) => Ok(Some(item)),
        Err(ParseErr::Refused(_)) => Ok(None),
        Err(ParseErr::Memory) => Err(AllocError),
    }
}

fn copied(alloc: Global, tokens: &[Token]) -> Result<Items<Token>, AllocError>
    ensures { IfOk result (λ copy. copy ≡ tokens.now) }
{
    let mut copy = Items::new(alloc);
    for token in tokens {
        copy.push(token.copy(alloc)?)?;
    }
    Ok(copy)
}

/// What stands on the tokens of the line from one place to another; none where nothing of the grammar does. The error is want
/// of memory. Of a whole line no token is copied.
pub fn item_at(
    alloc: Global,
    context: &Context,
    line: &Line,
    from: usize,
    to: usize,
) -> Result<Option<Item>, AllocError>
    requires from { from ≤ to }
    requires to { to ≤ length line.now.tokens }
    ensures { IfOk result (λ i. Spells context.now (slice_range line.now.tokens from to) i) }
{
    if from == 0 && to == line.tokens.len() {
        return item_of(alloc, context, line);
    }
    let part = Line {
        file: line.file,
        number: line.number,
        tokens: copied(alloc, &line.tokens.as_slice()[from..to])?,
    };
    item_of(alloc, context, &part)
}
