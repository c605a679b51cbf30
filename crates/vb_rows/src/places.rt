// Whether the items of a line stand where they may.
ghost use Rattle.std.specs.Prelude.{◌≡◌, ◌<◌, ◌+◌, ◌^◌, ◌≤◌};
ghost use Rattle.vb_syntax.specs.declared.item.Joint.TheVariants as joint;
ghost use Rattle.vb_rows.specs.Rows as spec;

use crate::joints::is_if;
use vb_syntax::{Item, Joint, Row};

// Whether an item fits what stands round it.
fn fits(from: Joint, waiting: usize, behind: Joint, item: &Item) -> bool
    ensures { result ≡ spec.fits from waiting behind item.now }
{
    match behind {
        Joint::End => from.is_end() || item.is_simple(),
        Joint::Then => is_if(item),
        Joint::Else => item.is_simple() && waiting > 0,
        Joint::Colon => item.is_simple(),
    }
}

fn is_in_place(from: Joint, waiting: usize, behind: Joint, item: &Option<Item>) -> bool
    ensures { result ≡ spec.is_in_place from waiting behind item.now }
{
    match item {
        Some(item) => fits(from, waiting, behind, item),
        None => false,
    }
}

// How many `If`s on one line wait for an `Else` behind a row.
fn waiting_behind(waiting: usize, behind: Joint) -> usize
    requires { waiting + 1 < 2 ^ 64 }
    ensures count { result ≡ spec.waiting_behind waiting behind }
    ensures few { result ≤ waiting + 1 }
{
    match behind {
        Joint::End => 0,
        Joint::Then => waiting + 1,
        Joint::Else => waiting.saturating_sub(1),
        Joint::Colon => waiting,
    }
}

/// Whether the rows of a line are of the grammar.
pub fn are_in_place(rows: &[Row]) -> bool
    ensures { result ≡ spec.are_in_place joint.End 0 rows.now }
{
    let mut from = Joint::End;
    let mut waiting: usize = 0;
    for row in rows {
        if !is_in_place(from, waiting, row.behind, &row.item) {
            return false;
        }
        from = row.behind;
        waiting = waiting_behind(waiting, from);
    }
    true
}
