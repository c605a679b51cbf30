// What the colons of a line are.
ghost use Rattle.std.specs.Prelude.{◌≡◌, ◌<◌, ◌+◌, false, length, drop};
ghost use Rattle.std.proofs.Common.{get_or};
ghost use Rattle.vb_syntax.specs.declared.item.Row.{Row as OneRow};
ghost use Rattle.vb_rows.specs.Rows as spec;
ghost use Rattle.vb_rows.specs.Rows.{joined};

use vb_syntax::{Item, Joint, Row};

/// Whether an item is the front of an `If`, with its test.
pub fn is_if(item: &Item) -> bool
    ensures { result ≡ spec.is_if item.now }
{
    matches!(item, Item::If(_))
}

// Whether a statement of an `If` on one line may stand there.
fn is_statement_of_if(behind: Joint, item: &Option<Item>) -> bool
    ensures { result ≡ spec.is_statement_of_if behind item.now }
{
    match item {
        None => false,
        Some(item) => item.is_simple() || (matches!(behind, Joint::Then) && is_if(item)),
    }
}

fn goes_on(rows: &[Row]) -> bool
    ensures { result ≡ spec.goes_on rows.now }
{
    match rows {
        [row, ..] => is_statement_of_if(row.behind, &row.item),
        [] => false,
    }
}

// What stands behind a row, where a colon is known only as one.
fn joint_of(inside: bool, behind: Joint, rows: &[Row]) -> Joint
    ensures { result ≡ spec.joint_of inside behind rows.now }
{
    match behind {
        Joint::Colon if inside && goes_on(rows) => Joint::Colon,
        Joint::Colon => Joint::End,
        behind => behind,
    }
}

// The same of the row at a place.
fn joint_at(inside: bool, rows: &[Row], place: usize) -> Joint
    requires { place < length rows.now }
    ensures { (row : OneRow) → row ≡ get_or rows.now place row → result ≡ spec.joint_of inside row.behind (drop (place + 1) rows.now) }
{
    joint_of(inside, rows[place].behind, &rows[place + 1..])
}

/// Tells which colons of a line part the statements of an `If` on one line: the others are ends.
pub fn join(rows: &mut [Row])
    ensures { rows.new ≡ joined false rows.old }
{
    let mut inside = false;
    for place in 0..rows.len() {
        let joint = joint_at(inside, rows, place);
        rows[place].behind = joint;
        inside = !joint.is_end();
    }
}
