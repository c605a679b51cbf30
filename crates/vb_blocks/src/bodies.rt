// An item that is no statement by itself.
ghost use Rattle.std.specs.Prelude.{◌≡◌};
ghost use Rattle.vb_blocks.specs.Steps.{Gives};
ghost use Rattle.vb_blocks.specs.Steps as spec;

use crate::accessors::accessor_turn;
use crate::clauses::{if_turn, select_turn, try_turn};
use crate::endings::enclosed;
use crate::fault::Fault;
use crate::frame::{Frame, Turn};
use crate::procedure_ends::procedure;
use crate::scope::Scope;
use crate::statements::opened;
use std::alloc::Global;
use vb_syntax::{Block, Item};

/// An item behind statements.
pub fn body_turn(
    alloc: Global,
    scope: Scope,
    body: Block,
    line: u32,
    item: Item,
) -> Result<Turn, Fault>
    ensures { Gives (λ t. t) result (spec.body_turn scope body line item) }
{
    if is_line(&scope) {
        drop((scope, body, item));
        Err(Fault::Grammar)
    } else {
        opened(alloc, scope, body, line, item)
    }
}

/// Whether it is a part of an `If` on one line.
pub fn is_line(scope: &Scope) -> bool
    ensures { result ≡ spec.is_line scope.now }
{
    matches!(scope, Scope::Line(_))
}

/// An item that begins no statement, behind statements.
pub fn scope_turn(
    alloc: Global,
    scope: Scope,
    body: Block,
    line: u32,
    item: Item,
) -> Result<Turn, Fault>
    ensures { Gives (λ t. t) result (spec.scope_turn scope body line item) }
{
    match scope {
        Scope::Enclosed(start, opener) => {
            enclosed(alloc, start, opener.into_inner(), body, line, item)
        }
        Scope::If(clause) => if_turn(alloc, clause.into_inner(), body, line, item),
        Scope::Select(clause) => select_turn(alloc, clause.into_inner(), body, line, item),
        Scope::Try(clause) => try_turn(alloc, clause.into_inner(), body, line, item),
        Scope::Procedure(start, header) => {
            procedure(alloc, start, header.into_inner(), body, item)
        }
        Scope::Accessor(header) => accessor_turn(header, body, item),
        Scope::Line(clause) => {
            drop((clause, body, item));
            Err(Fault::Grammar)
        }
    }
}
