// The state of one thread that runs code.
ghost use Rattle.std.specs.Prelude.{◌≡◌, IfOk};
ghost use Rattle.vb_code.specs.Local.{thread_of};
ghost use Rattle.vb_code.specs.Machine.{code_machine};
ghost use Rattle.vb_code.specs.Shapes.{IsState};

use crate::{Checked, Operands, Slots};
use std::alloc::{AllocError, Global};

/// Where a thread is. A place is the number of an instruction of `Main`, and a class that of a class record.
#[derive(Clone, Copy, Debug, PartialEq, Eq)]
pub enum Position {
    /// Before the instruction at a place.
    At(usize),
    /// At the Write at a place, which was asked and has no answer yet. Its text is still on the operands.
    Writing(usize),
    /// At the instruction at a place, which throws a class whose object was asked for and not yet made. Its operands are
    /// still there.
    Throwing(usize, usize),
    /// The last call has returned.
    Returned,
    /// The thread has ended.
    Ended,
    /// The thread has thrown an object of a class to its bottom.
    Thrown(usize),
}

/// The state of a thread: where it is, its operands and its locals, and how many statements it has begun since they were
/// last counted elsewhere.
#[derive(Drop)]
pub struct Local {
    pub position: Position,
    pub operands: Operands,
    pub slots: Slots,
    pub begun: u64,
}

impl Local {
    /// The state in which `Main` is called, with no statement begun. The error is want of memory.
    pub fn first(alloc: Global, code: &Checked) -> Result<Self, AllocError>
        ensures first { IfOk result (λ l. thread_of code.now l ≡ (code_machine code.now).main) }
        ensures state { IfOk result (λ l. IsState code.now (thread_of code.now l)) }
        ensures begun { IfOk result (λ l. l.begun ≡ 0) }
    {
        Ok(Local {
            position: Position::At(0),
            operands: Operands::new(alloc),
            slots: Slots::new(alloc, code.code().locals())?,
            begun: 0,
        })
    }
}
