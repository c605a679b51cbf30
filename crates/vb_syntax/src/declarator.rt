// Declarators, which members and local declarations have in common.

use crate::expression::{Expr, VariableInitializer};
use crate::types::{SimpleTypeName, TypeName};
use sqlite_items::Items;
use vb_text::Name;

/// Variables or constants that one `As` declares, or one whose type is that of its value, in one of three forms
/// (Visual Basic Language Specification 11.0, 9.5, 9.6 and 10.2). Its line is that of the declaration that it stands in.
#[derive(Drop)]
pub enum Declarator {
    /// `As` and a type, with a first value or without.
    As(Items<VariableIdentifier>, TypeName, Option<VariableInitializer>),
    /// `As New`: each variable gets a new object of the class, made with these arguments.
    AsNew(Items<VariableIdentifier>, SimpleTypeName, Items<Expr>),
    /// `=` and a value, which gives the type too.
    Inferred(Name, Expr),
}

/// The name of a variable (Visual Basic Language Specification 11.0, 9.6).
#[derive(Drop)]
pub struct VariableIdentifier {
    pub name: Name,
    pub modifier: VariableModifier,
}

/// What may stand behind the name of a variable (Visual Basic Language Specification 11.0, 9.6 and 9.6.3).
#[derive(Drop)]
pub enum VariableModifier {
    /// Nothing: the variable is of the type that is written.
    Plain,
    /// `()`: an array of that type.
    Array,
    /// A bound between parentheses: a new array of that type, whose greatest index it is.
    Bound(Expr),
}
