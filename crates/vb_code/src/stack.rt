// The operands and locals of a procedure.
ghost use Rattle.std.specs.Prelude.{◌≡◌, ◌<◌, ◌≤◌, ℕ, ℤ, Bool, List, [], ◌∷◌, drop, length, map, Option, Some, slice_get, slice_set, OnOk, OnErr, IfOk};
ghost use Rattle.vb_num.specs.declared.kinds.Kind.{Kind};
ghost use Rattle.vb_value.specs.Datum.{Datum, Number, Truth, Letters, datum_of, default_of};

use std::alloc::{AllocError, Global};
use std::marker::Model;
use vb_num::Num;
use vb_text::Text;
use vb_value::{Shape, Value};

/// The operands of a procedure, seen as what they mean, the topmost first (ECMA-335, III.1.3).
#[derive(Drop)]
pub struct Operands {
    values: Vec<Value>,
}

impl Model for Operands {
    ghost use Rattle.std.specs.Prelude.{List, map, reverse};
    ghost use Rattle.vb_value.specs.Datum.{Datum, datum_of};

    ghost Value = { List Datum };

    ghost view = { λ o. reverse (map datum_of o.values.items) };
}

impl Operands {
    /// No operands. It takes no memory.
    pub fn new(alloc: Global) -> Self
        ensures { result ≡ [] }
    {
        Operands {
            values: Vec::new(alloc),
        }
    }

    /// Puts a value on top. The error is want of memory, and the operands are then as they were.
    pub fn push(&mut self, value: Value) -> Result<(), AllocError>
        ensures ok { OnOk result (self.new ≡ datum_of value ∷ self.old) }
        ensures err { OnErr result (self.new ≡ self.old) }
    {
        self.values.push(value)?;
        Ok(())
    }

    /// Takes the number on top.
    pub fn pop_number(&mut self) -> Num
        requires { (k : Kind) × (v : ℤ) × (rest : List Datum) × (self.old ≡ Number k v ∷ rest) }
        ensures { self.old ≡ Number result.kind result.value ∷ self.new }
    {
        match self.values.pop() {
            Some(Value::Num(number)) => number,
            _ => unreachable!(),
        }
    }

    /// Takes the Boolean on top.
    pub fn pop_truth(&mut self) -> bool
        requires { (b : Bool) × (rest : List Datum) × (self.old ≡ Truth b ∷ rest) }
        ensures { self.old ≡ Truth result ∷ self.new }
    {
        match self.values.pop() {
            Some(Value::Bool(holds)) => holds,
            _ => unreachable!(),
        }
    }

    /// Takes the text on top, which may be Nothing.
    pub fn pop_text(&mut self) -> Option<Text>
        requires { (t : Option (List ℕ)) × (rest : List Datum) × (self.old ≡ Letters t ∷ rest) }
        ensures { self.old ≡ Letters result ∷ self.new }
    {
        match self.values.pop() {
            Some(Value::Text(text)) => text,
            _ => unreachable!(),
        }
    }

    /// The value that stands at a depth, from 0 at the top.
    pub fn at(&self, depth: usize) -> &Value
        requires { depth < length self.now }
        ensures { slice_get self.now depth ≡ Some (datum_of result.now) }
    {
        &self.values[self.values.len() - 1 - depth]
    }

    /// The number that stands at a depth, from 0 at the top.
    pub fn number_at(&self, depth: usize) -> Num
        requires { (k : Kind) × (v : ℤ) × (slice_get self.now depth ≡ Some (Number k v)) }
        ensures { slice_get self.now depth ≡ Some (Number result.kind result.value) }
    {
        match self.at(depth) {
            Value::Num(number) => *number,
            _ => unreachable!(),
        }
    }

    /// The text that stands at a depth, from 0 at the top. It may be Nothing.
    pub fn text_at(&self, depth: usize) -> &Option<Text>
        requires { (t : Option (List ℕ)) × (slice_get self.now depth ≡ Some (Letters t)) }
        ensures { slice_get self.now depth ≡ Some (Letters result.now) }
    {
        match self.at(depth) {
            Value::Text(text) => text,
            _ => unreachable!(),
        }
    }

    /// Puts a value in place of the two on top. It takes no memory.
    pub fn replace_two(&mut self, value: Value)
        requires { 2 ≤ length self.old }
        ensures { self.new ≡ datum_of value ∷ drop 2 self.old }
    {
        let _top = self.values.pop();
        let last = self.values.len() - 1;
        self.values[last] = value;
    }

    /// Puts a value in place of the one on top. It takes no memory.
    pub fn replace_top(&mut self, value: Value)
        requires { 1 ≤ length self.old }
        ensures { self.new ≡ datum_of value ∷ drop 1 self.old }
    {
        let last = self.values.len() - 1;
        self.values[last] = value;
    }

    /// Takes the value on top.
    pub fn pop_any(&mut self) -> Value
        requires { 0 < length self.old }
        ensures { self.old ≡ datum_of result ∷ self.new }
    {
        match self.values.pop() {
            Some(value) => value,
            None => unreachable!(),
        }
    }
}

/// The locals of a procedure by slot, seen as what they mean.
#[derive(Drop)]
pub struct Slots {
    values: Vec<Value>,
}

impl Model for Slots {
    ghost use Rattle.std.specs.Prelude.{List, map};
    ghost use Rattle.vb_value.specs.Datum.{Datum, datum_of};

    ghost Value = { List Datum };

    ghost view = { λ s. map datum_of s.values.items };
}

impl Slots {
    /// Locals of these shapes, each 0, False or Nothing. The error is want of memory.
    pub fn new(alloc: Global, shapes: &[Shape]) -> Result<Self, AllocError>
        ensures { IfOk result (λ s. s ≡ map default_of shapes.now) }
    {
        let mut values = Vec::new(alloc);
        for shape in shapes {
            values.push(Value::default_of(*shape))?;
        }
        Ok(Slots { values })
    }

    /// A copy of the value in a slot. Only a text takes memory, and the error is want of it.
    pub fn get(&self, slot: usize, alloc: Global) -> Result<Value, AllocError>
        requires { slot < length self.now }
        ensures { IfOk result (λ v. slice_get self.now slot ≡ Some (datum_of v)) }
    {
        self.values[slot].copy(alloc)
    }

    /// Puts a value into a slot.
    pub fn set(&mut self, slot: usize, value: Value)
        requires { slot < length self.old }
        ensures { self.new ≡ slice_set self.old slot (datum_of value) }
    {
        self.values[slot] = value;
    }
}
