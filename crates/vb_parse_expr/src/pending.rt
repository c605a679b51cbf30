// What has been begun and waits for the expression that is being read.

use vb_syntax::{
    BinaryOperator, Boxed, CastOperator, Expr, Items, PrimitiveTypeName, SimpleTypeName,
    UnaryOperator, VariableInitializer,
};

/// What has been begun, the outer before the inner.
#[derive(Drop)]
pub enum Pending {
    /// An operator before its operand, and its strength.
    Before(UnaryOperator, u8),
    /// A left operand with the operator behind it, and its strength.
    Between(Boxed<Expr>, BinaryOperator, u8),
    /// `AddressOf`.
    AddressOf,
    /// `TypeOf`.
    TypeOf,
    /// `(`
    Parenthesis,
    /// What is called, `(` and the arguments so far.
    Arguments(Boxed<Expr>, Items<Expr>),
    /// `New`, a type, `(` and the arguments so far.
    Creation(SimpleTypeName, Items<Expr>),
    /// A word of a cast and `(`.
    Conversion(PrimitiveTypeName),
    /// `CType`, `DirectCast` or `TryCast` and `(`.
    Cast(CastOperator),
    /// `If(`
    Test,
    /// `If(` and the test.
    Then(Boxed<Expr>),
    /// `If(`, the test and the first value.
    Else(Boxed<Expr>, Boxed<Expr>),
    /// `New`, a type with its bound, `{` and the elements so far.
    Array(SimpleTypeName, Option<Boxed<Expr>>, Items<VariableInitializer>),
    /// `{` and the elements so far.
    Elements(Items<VariableInitializer>),
}

/// What a reading is for.
#[derive(Clone, Copy, Debug, PartialEq, Eq)]
pub enum Goal {
    Expression,
    Primary,
    Initializer,
}
