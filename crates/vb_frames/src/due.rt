// What is due of a thread that has no turn left.
ghost use Rattle.std.specs.Prelude.{◌≡◌, ◌+◌, ◌<◌, ◌≤◌, ◌^◌, map, length, Some};
ghost use Rattle.vb_text.specs.Units.{most_units};
ghost use Rattle.vb_num.specs.declared.kinds.Kind.{Kind};
ghost use Rattle.vb_value.specs.Datum.{units_of};
ghost use Rattle.vb_code.specs.Code.{body_of, overflow, out_of_memory};
ghost use Rattle.vb_code.specs.Local.{thread_of};
ghost use Rattle.vb_code.specs.Shapes.{IsState};
ghost use Rattle.vb_frames.specs.Turn.{Needs, StandsAt, IsDue, Throwable, HasNumbers, HasTexts, place_of};

use crate::instructions::{operate, throw};
use crate::turn::is_always;
use vb_code::{Arithmetic, Code, Instr, Local, Position, Step};
use vb_text::Text;

// The most units of a text.
const MOST_UNITS: usize = 1_048_576;

/// What a thread does next.
#[derive(Clone, Copy, Debug, PartialEq, Eq)]
pub enum Due {
    /// A silent step.
    Step,
    /// What stands there now. Its entry is committed or not.
    Ask(bool),
    /// Nothing: the thread has thrown a class to its bottom.
    Rest(usize),
}

/// What a thread does next, with nothing done. Where it asks, it stands at that ask. It takes no memory.
pub fn due_of(code: &Code, steps: &[Step], local: &mut Local) -> Due
    requires body { body_of code.now ≡ map (λ s. s.instr) steps.now }
    requires state { IsState code.now (thread_of code.now local.old) }
    requires going { local.old.position ≡ Position.Ended → ⊥ }
    ensures { IsDue code.now local.old local.new result }
{
    match local.position {
        Position::At(place) => due_at(code, steps, place, local),
        Position::Writing(place) => due_at(code, steps, place, local),
        Position::Throwing(place, _) => due_at(code, steps, place, local),
        Position::Returned => Due::Ask(true),
        Position::Thrown(class) => Due::Rest(class),
        Position::Ended => unreachable!(),
    }
}

// What a thread at a place does next.
fn due_at(code: &Code, steps: &[Step], place: usize, local: &mut Local) -> Due
    requires body { body_of code.now ≡ map (λ s. s.instr) steps.now }
    requires state { IsState code.now (thread_of code.now local.old) }
    requires here { place_of local.old.position ≡ Some place }
    ensures { IsDue code.now local.old local.new result }
{
    match stand(code, steps[place].instr, place, local) {
        Some(committed) => Due::Ask(committed),
        None => Due::Step,
    }
}

// Stands at what an instruction asks, and answers whether its entry is committed. A silent one asks nothing.
fn stand(code: &Code, instr: Instr, place: usize, local: &mut Local) -> Option<bool>
    requires needs { Needs code.now instr local.old.operands local.old.slots }
    requires here { place_of local.old.position ≡ Some place }
    requires next { place + 1 < 2 ^ 64 }
    ensures { StandsAt code.now instr place local.old local.new result }
{
    match instr {
        Instr::Write(mark) => {
            local.position = Position::Writing(place);
            Some(is_always(mark))
        }
        Instr::Arith(operation, _) => stand_at_arith(code, operation, place, local),
        Instr::Concat => stand_at_concat(code, place, local),
        _ => None,
    }
}

// Stands at the exception of an operation on two numbers that has no result.
fn stand_at_arith(
    code: &Code,
    operation: Arithmetic,
    place: usize,
    local: &mut Local,
) -> Option<bool>
    requires numbers { HasNumbers local.old.operands }
    requires throws { Throwable code.now overflow }
    ensures { (k : Kind) → Needs code.now (Instr.Arith operation k) local.old.operands local.old.slots → StandsAt code.now (Instr.Arith operation k) place local.old local.new result }
{
    let right = local.operands.number_at(0);
    let left = local.operands.number_at(1);
    match operate(operation, left, right) {
        Ok(_) => None,
        Err(_) => {
            throw(code, b"System.OverflowException", place, local);
            Some(true)
        }
    }
}

// Stands at the exception of two texts that are too long together.
fn stand_at_concat(code: &Code, place: usize, local: &mut Local) -> Option<bool>
    requires texts { HasTexts local.old.operands }
    requires throws { Throwable code.now out_of_memory }
    ensures { StandsAt code.now Instr.Concat place local.old local.new result }
{
    let back = count_of(local.operands.text_at(0));
    let front = count_of(local.operands.text_at(1));
    if front + back <= MOST_UNITS {
        return None;
    }
    throw(code, b"System.OutOfMemoryException", place, local);
    Some(true)
}

// How many units a text has. Nothing has none.
fn count_of(text: &Option<Text>) -> usize
    ensures count { result ≡ length (units_of text.now) }
    ensures few { result ≤ most_units }
{
    match text {
        Some(text) => text.units().len(),
        None => 0,
    }
}
