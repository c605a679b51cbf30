// The code of a whole program.
ghost use Rattle.std.specs.Prelude.{◌≡◌, ◌++◌, ◌∷◌, ℕ, List, [], IfOk, OnOk};
ghost use Rattle.vb_bound.specs.Tree.{Tree, IsOutlineOf, IsBound, HasBlock};
ghost use Rattle.vb_code.specs.Machine.{CodeThread, code_machine};
ghost use Rattle.vb_code.specs.Shapes.{IsChecked};
ghost use Rattle.vb_codegen.specs.Emitted.{front_code, main_code, code_of};
ghost use Rattle.vb_meaning.specs.Source.{source_machine};
ghost use Rattle.vb_threads.specs.Stands.{StandsFor};
ghost use Rattle.vb_threads.specs.Work.{IsWithin};
ghost use Rattle.vb_threads.specs.World.{Entry, Run, World, opening};
ghost use Rattle.vb_value.specs.Store.{Store};

use crate::lines::emit_lines;
use crate::parts::{classes, integers, texts};
use crate::statements::{emit_local, put};
use std::alloc::{AllocError, Global};
use vb_bound::{Operand, Program};
use vb_code::{Checked, Code, Instr, Proc, Step};

/// Checked code that stands for the program: whatever its threads may do, those of the program may do.
///
/// For each statement that it begins it takes at most 256 turns, each one instruction. A While loop is tested before each
/// turn, and once more when it ends (Visual Basic Language Specification 11.0, 10.9.1). The only error is want of memory.
pub fn generate(alloc: Global, program: &Program) -> Result<Checked, AllocError>
    ensures checked { IfOk result (λ code. IsChecked code) }
    ensures stands { IfOk result (λ code. (t : Tree) → IsOutlineOf program.now t → StandsFor (code_machine code) (source_machine t)) }
    ensures paced { IfOk result (λ code. (input : List ℕ) (heap : ℕ) (journal : List Entry) (w : World CodeThread Store) → Run (code_machine code) (opening (code_machine code) input heap) journal w → IsWithin (code_machine code) 256 w) }
{
    let code = code_of(alloc, program)?;
    Ok(Checked::new(code))
}

// The code of the program's tree.
fn code_of(alloc: Global, program: &Program) -> Result<Code, AllocError>
    ensures each { IfOk result (λ code. (t : Tree) → IsOutlineOf program.now t → code ≡ code_of t) }
    ensures some { OnOk result (HasBlock program.now.lines) }
    ensures bound { OnOk result (IsBound program.now) }
{
    let locals = program.locals();
    let mut steps = Vec::new(alloc);
    emit_front(&mut steps, locals)?;
    emit_lines(alloc, &mut steps, program.lines())?;
    put(&mut steps, 0, Instr::Return)?;
    let mut procs = Vec::new(alloc);
    procs.push(Proc::new(4, integers(alloc, locals)?, steps))?;
    Ok(Code::new(texts(alloc)?, classes(alloc)?, procs, 0))
}

// The call of Main and the declarations.
fn emit_front(steps: &mut Vec<Step>, locals: &[Option<Operand>]) -> Result<(), AllocError>
    requires { steps.old.items ≡ [] }
    ensures { OnOk result (steps.new.items ≡ front_code locals.now) }
{
    put(steps, 1, Instr::Jump(1))?;
    for (local, value) in locals.iter().enumerate() {
        emit_local(steps, local, *value)?;
    }
    Ok(())
}
