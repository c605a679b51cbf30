// The rows of a file, read one behind the other.
ghost use Rattle.std.specs.Prelude.{◌≡◌, ◌<◌, List, [], ◌∷◌, drop, reverse, Option, IfOk, OnOk, None};
ghost use Rattle.std.specs.Option.{option_copied};
ghost use Rattle.vb_syntax.specs.declared.item.Item.{Item as OneItem};
ghost use Rattle.vb_syntax.specs.declared.item.Row.{Row as OneRow};
ghost use Rattle.vb_diag.specs.Broken.{IsLeastLine};
ghost use Rattle.vb_ends.specs.Enders.{BreaksBackwards};
ghost use Rattle.vb_ends.specs.Reading.{HasRead, next_item};
ghost use Rattle.vb_ends.specs.Roles.{marks_of};

use crate::blocks::Blocks;
use crate::role::Role;
use crate::roles::item_role;
use std::alloc::{AllocError, Global};
use vb_syntax::{Item, Row};

// The rows of a file, as far as they were read.
#[derive(Drop)]
pub struct Reader {
    pub blocks: Blocks,
    // Whether no part of an `If` on one line stands before what stands behind.
    is_fresh: bool,
}

impl Reader {
    pub fn new(alloc: Global) -> Self
        ensures { (next : Option OneItem) → HasRead result next [] }
    {
        Reader {
            blocks: Blocks::new(alloc),
            is_fresh: true,
        }
    }

    // Behind the rows so far stands one more, and behind that the item.
    pub fn take(&mut self, row: &Row, next: Option<&Item>) -> Result<(), AllocError>
        ensures { OnOk result ((before : List OneRow) → HasRead self.old row.now.item before → HasRead self.new (option_copied next.entry) (row.now ∷ before)) }
    {
        let is_end = row.behind.is_end();
        let role = if self.is_fresh && is_end {
            item_role(self.blocks.in_interface(), &row.item, next)
        } else {
            Role::Stays
        };
        self.blocks.take(role, row.line)?;
        self.is_fresh = is_end;
        Ok(())
    }
}

// The item of the row at the place.
pub fn item_at(rows: &[Row], at: usize) -> Option<&Item>
    ensures { option_copied result ≡ next_item (drop at rows.now) }
{
    rows.get(at)?.item.as_ref()
}

/// The least line of a file at which a block has no end or an end has no block (Visual Basic Language Specification 11.0, 7, 9 and 10).
///
/// The error is want of memory.
pub fn first_unended(alloc: Global, rows: &[Row]) -> Result<Option<u32>, AllocError>
    ensures { IfOk result (λ first. IsLeastLine (λ line. BreaksBackwards (marks_of None (reverse rows.now)) line) first) }
{
    let mut reader = Reader::new(alloc);
    for (at, row) in rows.iter().enumerate() {
        reader.take(row, item_at(rows, at + 1))?;
    }
    Ok(reader.blocks.finish())
}
