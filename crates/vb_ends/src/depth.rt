// How deep the rows of a file stand in blocks and brackets.
ghost use Rattle.std.specs.Prelude.{◌≡◌, ◌↔◌, ◌+◌, ◌<◌, length, reverse, IsTrue, IfOk};
ghost use Rattle.vb_diag.specs.Broken.{IsLeastLine};
ghost use Rattle.vb_ends.specs.Depth.{IsTooDeep};

use crate::reading::{Reader, item_at};
use std::alloc::{AllocError, Global};
use vb_diag::lesser;
use vb_syntax::Row;

// So many blocks and brackets may be open together.
const LIMIT: usize = 100;

fn is_too_deep(blocks: usize, brackets: usize) -> bool
    ensures { IsTrue result ↔ (100 < blocks + brackets) }
{
    blocks > LIMIT || brackets > LIMIT - blocks
}

/// The least line of a file in which a row stands too deep: the blocks that are open before it and those of its brackets that are
/// open at one of its tokens are more than 100. Each row has the greatest number of such brackets beside it. A row is inside the
/// block that it ends (Visual Basic Language Specification 11.0, 7, 9, 10 and 11).
///
/// The error is want of memory.
pub fn first_too_deep(
    alloc: Global,
    rows: &[Row],
    brackets: &[usize],
) -> Result<Option<u32>, AllocError>
    requires { length brackets.now ≡ length rows.now }
    ensures { IfOk result (λ first. IsLeastLine (λ line. IsTooDeep (reverse rows.now) (reverse brackets.now) line) first) }
{
    let mut reader = Reader::new(alloc);
    let mut first = None;
    for (at, row) in rows.iter().enumerate() {
        if is_too_deep(reader.blocks.depth(), brackets[at]) {
            first = lesser(first, Some(row.line));
        }
        reader.take(row, item_at(rows, at + 1))?;
    }
    Ok(first)
}
