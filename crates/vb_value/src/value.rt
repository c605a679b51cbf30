// Values and their shapes.
ghost use Rattle.std.specs.Prelude.{◌≡◌, IfOk};
ghost use Rattle.vb_value.specs.Datum.{datum_of, default_of};

use std::alloc::{AllocError, Global};
use vb_num::{Kind, Num};
use vb_text::Text;

/// A reference to an object: its number, from 0 in order of New, and the number of its class.
#[derive(Clone, Copy, Debug, PartialEq, Eq)]
pub struct Ref {
    pub id: u32,
    pub class: usize,
}

/// A value of a local or an operand (Visual Basic Language Specification 11.0, 7). A text or a reference may be Nothing.
#[derive(Drop)]
pub enum Value {
    Num(Num),
    Bool(bool),
    Text(Option<Text>),
    Ref(Option<Ref>),
}

/// What sort of value stands in a place (ECMA-335, III.1.8).
#[derive(Clone, Copy, Debug, PartialEq, Eq)]
pub enum Shape {
    Num(Kind),
    Bool,
    Text,
    Ref,
}

impl Value {
    /// What a local of the shape holds before a value is stored there: 0, False or Nothing (Visual Basic Language
    /// Specification 11.0, 7). It takes no memory.
    pub fn default_of(shape: Shape) -> Self
        ensures { datum_of result ≡ default_of shape }
    {
        match shape {
            Shape::Num(kind) => Value::Num(Num { kind, value: 0 }),
            Shape::Bool => Value::Bool(false),
            Shape::Text => Value::Text(None),
            Shape::Ref => Value::Ref(None),
        }
    }

    /// An equal value. Only a text that is not Nothing takes memory, and the error is want of it.
    pub fn copy(&self, alloc: Global) -> Result<Self, AllocError>
        ensures { IfOk result (λ v. datum_of v ≡ datum_of self.now) }
    {
        match self {
            Value::Num(number) => Ok(Value::Num(*number)),
            Value::Bool(holds) => Ok(Value::Bool(*holds)),
            Value::Text(None) => Ok(Value::Text(None)),
            Value::Text(Some(text)) => Ok(Value::Text(Some(text.copy(alloc)?))),
            Value::Ref(object) => Ok(Value::Ref(*object)),
        }
    }
}
