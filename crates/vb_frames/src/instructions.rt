// What each instruction does with the operands and locals.
ghost use Rattle.std.specs.Prelude.{true, ◌≡◌, ◌+◌, ◌<◌, ◌^◌, [], ℕ, ℤ, List, Option, Some, None, length, IfOk};
ghost use Rattle.std.specs.Fmt.{signed_decimal};
ghost use Rattle.vb_num.specs.declared.kinds.Kind.{Kind};
ghost use Rattle.vb_num.specs.Num.{Answers};
ghost use Rattle.vb_value.specs.Datum.{datum_of, units_of};
ghost use Rattle.vb_code.specs.Code.{overflow, out_of_memory};
ghost use Rattle.vb_code.specs.Machine.{arith_of, compared};
ghost use Rattle.vb_frames.specs.Turn.{Needs, Obeys, Pushes, Throws, Throwable, HasNumber, HasNumbers, HasTruth, HasTexts, JoinsTo};

use crate::turn::Did;
use std::alloc::{AllocError, Global};
use vb_code::{Arithmetic, Code, Comparison, Instr, Local, Position, Silent};
use vb_num::{Num, Thrown, add, mul, sub, text_of};
use vb_text::{Text, TextErr};
use vb_value::Value;

/// Puts a value on the operands.
pub fn push_value(value: Value, place: usize, local: &mut Local) -> Did
    requires next { place + 1 < 2 ^ 64 }
    ensures { Pushes (datum_of value) place local.old local.new result }
{
    match local.operands.push(value) {
        Ok(()) => {
            local.position = Position::At(place + 1);
            Did::Went
        }
        Err(_) => Did::NoMemory,
    }
}

/// Puts a text of the code on the operands.
pub fn push_text(alloc: Global, code: &Code, number: usize, place: usize, local: &mut Local) -> Did
    requires needs { number < length code.now.texts }
    requires next { place + 1 < 2 ^ 64 }
    ensures { Obeys code.now (Instr.PushText number) place local.old local.new result }
{
    match code.text(number).copy(alloc) {
        Ok(text) => push_value(Value::Text(Some(text)), place, local),
        Err(_) => Did::NoMemory,
    }
}

/// Puts the value of a slot on the operands.
pub fn load(alloc: Global, slot: usize, place: usize, local: &mut Local) -> Did
    requires needs { slot < length local.old.slots }
    requires next { place + 1 < 2 ^ 64 }
    ensures { (c : Code) → Obeys c (Instr.LoadLocal slot) place local.old local.new result }
{
    match local.slots.get(slot, alloc) {
        Ok(value) => push_value(value, place, local),
        Err(_) => Did::NoMemory,
    }
}

/// Puts the value on top into a slot.
pub fn store(slot: usize, place: usize, local: &mut Local) -> Did
    requires needs { (slot < length local.old.slots) × (0 < length local.old.operands) }
    requires next { place + 1 < 2 ^ 64 }
    ensures { (c : Code) → Obeys c (Instr.StoreLocal slot) place local.old local.new result }
{
    let value = local.operands.pop_any();
    local.slots.set(slot, value);
    local.position = Position::At(place + 1);
    Did::Went
}

/// Puts the result of an operation in place of the two numbers on top, or throws where there is none.
pub fn arith(code: &Code, operation: Arithmetic, place: usize, local: &mut Local) -> Did
    requires numbers { HasNumbers local.old.operands }
    requires throws { Throwable code.now overflow }
    requires next { place + 1 < 2 ^ 64 }
    ensures { (k : Kind) → Needs code.now (Instr.Arith operation k) local.old.operands local.old.slots → Obeys code.now (Instr.Arith operation k) place local.old local.new result }
{
    let right = local.operands.number_at(0);
    let left = local.operands.number_at(1);
    match operate(operation, left, right) {
        Ok(number) => {
            local.operands.replace_two(Value::Num(number));
            local.position = Position::At(place + 1);
            Did::Went
        }
        Err(_) => throw(code, b"System.OverflowException", place, local),
    }
}

/// The result of an operation on two numbers.
pub fn operate(operation: Arithmetic, left: Num, right: Num) -> Result<Num, Thrown>
    requires { left.kind ≡ right.kind }
    ensures { Answers left.kind (arith_of operation left.kind left.value right.value) result }
{
    match operation {
        Arithmetic::Add => add(left, right),
        Arithmetic::Sub => sub(left, right),
        Arithmetic::Mul => mul(left, right),
    }
}

/// Stands where an object of a class of this name is asked for and then thrown.
pub fn throw(code: &Code, name: &[u8], place: usize, local: &mut Local) -> Did
    requires { Throwable code.now name.now }
    ensures asked { result ≡ Did.Asked true }
    ensures throws { Throws code.now name.now place local.old local.new }
{
    let Some(class) = code.throwable(name) else {
        unreachable!()
    };
    local.position = Position::Throwing(place, class);
    Did::Asked(true)
}

/// Puts whether a comparison holds in place of the two numbers on top.
pub fn compare(comparison: Comparison, place: usize, local: &mut Local) -> Did
    requires needs { HasNumbers local.old.operands }
    requires next { place + 1 < 2 ^ 64 }
    ensures { (c : Code) → Obeys c (Instr.Compare comparison) place local.old local.new result }
{
    let right = local.operands.number_at(0);
    let left = local.operands.number_at(1);
    let holds = holds(comparison, left.value, right.value);
    local.operands.replace_two(Value::Bool(holds));
    local.position = Position::At(place + 1);
    Did::Went
}

// Whether a comparison of two numbers holds.
fn holds(comparison: Comparison, left: i128, right: i128) -> bool
    ensures { result ≡ compared comparison left right }
{
    match comparison {
        Comparison::Equal => left == right,
        Comparison::NotEqual => left != right,
        Comparison::Less => left < right,
        Comparison::LessOrEqual => left <= right,
        Comparison::Greater => left > right,
        Comparison::GreaterOrEqual => left >= right,
    }
}

/// Joins the two texts on top, or throws where they are too long together.
pub fn concat(alloc: Global, code: &Code, place: usize, local: &mut Local) -> Did
    requires texts { HasTexts local.old.operands }
    requires throws { Throwable code.now out_of_memory }
    requires next { place + 1 < 2 ^ 64 }
    ensures { Obeys code.now Instr.Concat place local.old local.new result }
{
    let Ok(empty) = Text::new(Vec::new(alloc)) else {
        return Did::NoMemory;
    };
    let back = or_empty(local.operands.text_at(0), &empty);
    let front = or_empty(local.operands.text_at(1), &empty);
    match join(alloc, front, back) {
        Ok(text) => {
            local.operands.replace_two(Value::Text(Some(text)));
            local.position = Position::At(place + 1);
            Did::Went
        }
        Err(TextErr::TooLong) => throw(code, b"System.OutOfMemoryException", place, local),
        Err(TextErr::Memory) => Did::NoMemory,
    }
}

// The text, or in place of Nothing the empty one.
fn or_empty<'a>(text: &'a Option<Text>, empty: &'a Text) -> &'a Text
    requires { empty.now ≡ [] }
    ensures { result.now ≡ units_of text.now }
{
    match text {
        Some(text) => text,
        None => empty,
    }
}

// The text of both.
fn join(alloc: Global, front: &Text, back: &Text) -> Result<Text, TextErr>
    ensures { JoinsTo front.now back.now result }
{
    front.concat(alloc, back)
}

/// Puts the decimal text of the number on top in its place.
pub fn text_of_top(alloc: Global, place: usize, local: &mut Local) -> Did
    requires needs { HasNumber local.old.operands }
    requires next { place + 1 < 2 ^ 64 }
    ensures { (c : Code) → Obeys c (Instr.Intrinsic Silent.TextOf) place local.old local.new result }
{
    let number = local.operands.number_at(0);
    match decimal(alloc, number) {
        Ok(text) => {
            local.operands.replace_top(Value::Text(Some(text)));
            local.position = Position::At(place + 1);
            Did::Went
        }
        Err(_) => Did::NoMemory,
    }
}

// The decimal text of a number.
fn decimal(alloc: Global, number: Num) -> Result<Text, AllocError>
    ensures { IfOk result (λ t. t ≡ signed_decimal number.value) }
{
    let mut units = Vec::new(alloc);
    text_of(number, &mut units)?;
    match Text::new(units) {
        Ok(text) => Ok(text),
        Err(_) => Err(AllocError),
    }
}

/// Goes to a place where the Boolean on top is True, and else to the next one.
pub fn jump_if(to: usize, place: usize, local: &mut Local) -> Did
    requires needs { HasTruth local.old.operands }
    requires next { place + 1 < 2 ^ 64 }
    ensures { (c : Code) → Obeys c (Instr.JumpIf to) place local.old local.new result }
{
    let holds = local.operands.pop_truth();
    local.position = Position::At(if holds { to } else { place + 1 });
    Did::Went
}
