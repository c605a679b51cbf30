// What a row does to the innermost frame, made where it may stand there.
ghost use Rattle.std.specs.Prelude.{◌≡◌, Some, None, if◌then◌else◌};
ghost use Rattle.vb_blocks.specs.declared.frame.Frame.{Frame as OneFrame};
ghost use Rattle.vb_blocks.specs.Steps.{Gives};

use crate::fault::Fault;
use crate::frame::{Frame, Turn, Whole};
use std::alloc::Global;
use vb_syntax::{Block, Boxed, Item, Member, Statement, TypeDeclaration};

/// What a row does, where it may stand.
pub fn given(may_stand: bool, turn: Turn) -> Result<Turn, Fault>
    ensures { Gives (λ t. t) result (if may_stand then Some turn else None) }
{
    if may_stand {
        Ok(turn)
    } else {
        drop(turn);
        Err(Fault::Grammar)
    }
}

/// The frame stands inside the other.
pub fn opens(outer: Frame, inner: Result<Frame, Fault>) -> Result<Turn, Fault>
    ensures { (f : OneFrame) → Gives (λ g. g) inner (Some f) → Gives (λ t. t) result (Some (Turn.Opens outer f)) }
{
    match inner {
        Ok(frame) => Ok(Turn::Opens(outer, frame)),
        Err(fault) => {
            drop(outer);
            Err(fault)
        }
    }
}

/// A statement is whole, where a row may end it.
pub fn closes_statement(alloc: Global, may_end: bool, statement: Statement) -> Result<Turn, Fault>
    ensures { Gives (λ t. t) result (if may_end then Some (Turn.Closes (Whole.Statement statement)) else None) }
{
    let statement = Boxed::new(alloc, statement)?;
    given(may_end, Turn::Closes(Whole::Statement(statement)))
}

/// A member is whole, where a row may end it.
pub fn closes_member(alloc: Global, may_end: bool, member: Member) -> Result<Turn, Fault>
    ensures { Gives (λ t. t) result (if may_end then Some (Turn.Closes (Whole.Member member)) else None) }
{
    let member = Boxed::new(alloc, member)?;
    given(may_end, Turn::Closes(Whole::Member(member)))
}

/// A type is whole, where a row may end it.
pub fn closes_type(
    alloc: Global,
    may_end: bool,
    declaration: TypeDeclaration,
) -> Result<Turn, Fault>
    ensures { Gives (λ t. t) result (if may_end then Some (Turn.Closes (Whole.Type declaration)) else None) }
{
    let declaration = Boxed::new(alloc, declaration)?;
    given(may_end, Turn::Closes(Whole::Type(declaration)))
}
