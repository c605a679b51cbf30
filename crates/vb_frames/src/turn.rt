// One turn of a thread: one instruction.
ghost use Rattle.std.specs.Prelude.{◌≡◌, ◌+◌, ◌<◌, ◌^◌, ⊤, ℕ, map, Some};
ghost use Rattle.vb_code.specs.Code.{body_of, begins_of, begins_from};
ghost use Rattle.vb_code.specs.Local.{thread_of};
ghost use Rattle.vb_code.specs.Shapes.{IsState};
ghost use Rattle.vb_code.specs.Machine.{commits, constant as constant_of};
ghost use Rattle.vb_value.specs.Datum.{datum_of};
ghost use Rattle.vb_value.specs.Store.{Reply};
ghost use Rattle.vb_frames.specs.Turn.{Needs, Obeys, TurnsTo, place_of};

use crate::instructions::{
    arith, compare, concat, jump_if, load, push_text, push_value, store, text_of_top,
};
use std::alloc::Global;
use vb_code::{Code, Constant, Instr, Local, Mark, Position, Silent, Step, steps_stand};
use vb_num::{Kind, Num};
use vb_value::Value;

/// What one turn did.
#[derive(Clone, Copy, Debug, PartialEq, Eq)]
pub enum Did {
    /// A silent step.
    Went,
    /// Nothing: the thread asks what stands there now. Its entry is committed or not.
    Asked(bool),
    /// Nothing: the thread has thrown a class to its bottom.
    Rested(usize),
    /// Nothing, for want of memory.
    NoMemory,
}

/// Does one turn. The steps are those of the code's `Main`.
pub fn turn(alloc: Global, code: &Code, steps: &[Step], local: &mut Local) -> Did
    requires body { body_of code.now ≡ map (λ s. s.instr) steps.now }
    requires begins { begins_of code.now ≡ begins_from 0 steps.now }
    requires state { IsState code.now (thread_of code.now local.old) }
    requires going { local.old.position ≡ Position.Ended → ⊥ }
    requires room { local.old.begun + 2 ^ 32 < 2 ^ 64 }
    ensures { TurnsTo code.now local.old local.new result }
{
    match local.position {
        Position::At(place) => step_at(alloc, code, steps, place, local),
        Position::Writing(place) => step_at(alloc, code, steps, place, local),
        Position::Throwing(place, _) => step_at(alloc, code, steps, place, local),
        Position::Returned => Did::Asked(true),
        Position::Thrown(class) => Did::Rested(class),
        Position::Ended => unreachable!(),
    }
}

// Does the instruction at a place, and counts the statements that begin there.
fn step_at(alloc: Global, code: &Code, steps: &[Step], place: usize, local: &mut Local) -> Did
    requires body { body_of code.now ≡ map (λ s. s.instr) steps.now }
    requires begins { begins_of code.now ≡ begins_from 0 steps.now }
    requires state { IsState code.now (thread_of code.now local.old) }
    requires here { place_of local.old.position ≡ Some place }
    requires room { local.old.begun + 2 ^ 32 < 2 ^ 64 }
    ensures { TurnsTo code.now local.old local.new result }
{
    steps_stand();
    let step = steps[place];
    match obey(alloc, code, step.instr, place, local) {
        Did::Went => {
            local.begun += wide(step.begins);
            Did::Went
        }
        Did::Asked(committed) => Did::Asked(committed),
        Did::NoMemory => Did::NoMemory,
        Did::Rested(_) => unreachable!(),
    }
}

// The same number of statements.
fn wide(begins: u32) -> u64
    ensures same { result ≡ begins }
    ensures few { result < 2 ^ 32 }
{
    u64::from(begins)
}

// Does an instruction that stands at a place.
fn obey(alloc: Global, code: &Code, instr: Instr, place: usize, local: &mut Local) -> Did
    requires needs { Needs code.now instr local.old.operands local.old.slots }
    requires here { place_of local.old.position ≡ Some place }
    requires next { place + 1 < 2 ^ 64 }
    ensures { Obeys code.now instr place local.old local.new result }
{
    match instr {
        Instr::Push(constant) => push_value(value_of(constant), place, local),
        Instr::PushText(number) => push_text(alloc, code, number, place, local),
        Instr::LoadLocal(slot) => load(alloc, slot, place, local),
        Instr::StoreLocal(slot) => store(slot, place, local),
        Instr::Arith(operation, _) => arith(code, operation, place, local),
        Instr::Compare(comparison) => compare(comparison, place, local),
        Instr::Concat => concat(alloc, code, place, local),
        Instr::Intrinsic(Silent::TextOf) => text_of_top(alloc, place, local),
        Instr::Jump(to) => {
            local.position = Position::At(to);
            Did::Went
        }
        Instr::JumpIf(to) => jump_if(to, place, local),
        Instr::Write(mark) => {
            local.position = Position::Writing(place);
            Did::Asked(is_always(mark))
        }
        Instr::Return => {
            local.position = Position::Returned;
            Did::Went
        }
    }
}

// The value of a constant.
fn value_of(constant: Constant) -> Value
    ensures { datum_of result ≡ constant_of constant }
{
    match constant {
        Constant::Integer(value) => Value::Num(Num {
            kind: Kind::Integer,
            value: i128::from(value),
        }),
    }
}

/// Whether each entry with this mark is committed. None is with another mark.
pub fn is_always(mark: Mark) -> bool
    ensures { (reply : Reply) → commits mark reply ≡ result }
{
    matches!(mark, Mark::Always)
}
