// The rows as far as a broken rule. What is behind it isn't told, so no tree of it is built: none nests deeper than the rule on nesting
// allows.
ghost use Rattle.std.specs.Prelude.{◌≡◌, IfOk};
ghost use Rattle.vb_parse.specs.UpTo as spec;
ghost use Rattle.vb_parse.specs.UpTo.{IsUpTo, IsFront, IsFrontBuilt};

use std::alloc::{AllocError, Global};
use vb_diag::Refusal;
use vb_syntax::{Items, Row, SourceFile};
use vb_tree::{BuildErr, build};

// The tree of the rows as far as one may be told before the rule that is broken, of all where none is.
pub fn built_front(
    alloc: Global,
    file: u32,
    rows: Items<Row>,
    broken: &Option<Refusal>,
) -> Result<SourceFile, BuildErr>
    ensures { IsFrontBuilt file rows broken.now result }
{
    match front_of(rows, broken) {
        Ok(front) => build(alloc, file, front),
        Err(_) => Err(BuildErr::Memory),
    }
}

// The last line in which a row may stand that is misplaced and told before the rule that is broken.
fn last_line(broken: &Refusal) -> u32
    ensures { result ≡ spec.last_line broken.now }
{
    if broken.rule.number() < 34 {
        broken.line.saturating_sub(1)
    } else {
        broken.line
    }
}

// The rows as far as that line; all where no rule is broken.
fn front_of(rows: Items<Row>, broken: &Option<Refusal>) -> Result<Items<Row>, AllocError>
    ensures { IfOk result (λ front. IsFront broken.now rows front) }
{
    match broken {
        Some(broken) => up_to(rows, last_line(broken)),
        None => Ok(rows),
    }
}

fn up_to(rows: Items<Row>, line: u32) -> Result<Items<Row>, AllocError>
    ensures { IfOk result (λ front. IsUpTo line rows front) }
{
    let mut front = rows;
    while let Some(row) = front.pop() {
        if row.line <= line {
            front.push(row)?;
            return Ok(front);
        }
    }
    Ok(front)
}
