//! The tokens of Visual Basic, the logical lines that they form, and the syntax trees of those.
//!
//! Proved: the texts of words and symbols, and the names that are words in some places.
//!
//! Only tested: the tables once.
//!
//! Assumed: nothing but memory.
#![tactic(auto)]

mod declaration;
mod declarator;
mod expression;
mod item;
mod keyword;
mod statement;
mod symbol;
mod tokens;
mod types;
mod words;

pub use declaration::{
    Access, ClassBase, ClassModifier, DelegateKind, EventAccessor, EventHandler, FunctionKind,
    GetAccessor, ImplementedMember, ImportsStatement, InterfaceHeader, InterfaceList,
    InterfaceMember, Member, MemberForm, MethodSignature, Modifier, NameModifier, OptionSetting,
    OptionStatement, OptionSwitch, Parameter, PassedBy, PropertyAccessors, PropertyKind,
    SetAccessor, SourceFile, TypeDeclaration, TypeForm,
};
pub use declarator::{Declarator, VariableIdentifier, VariableModifier};
pub use expression::{
    BinaryOperator, CastOperator, Expr, RelationalOperator, UnaryOperator, VariableInitializer,
};
pub use item::{
    BlockWord, DeclarationLine, EventAccessorKind, Item, Joint, PropertyHeader, Row, must_override,
};
pub use keyword::Keyword;
pub use sqlite_items::{Boxed, Items};
pub use statement::{
    Block, BlockClause, CaseClause, CaseItem, CatchClause, CatchVariable, CompoundOperator,
    ContinueKind, ElseIfClause, ExitKind, LocalModifier, LoopCondition, LoopControlVariable,
    LoopTest, NextClause, OnErrorAction, ResumePlace, Statement, StatementForm, UsingResource,
};
pub use symbol::Symbol;
pub use tokens::{IntegerLiteral, IntegerType, IntegerValue, Line, Lines, Token};
pub use types::{
    BuiltInTypeName, PrimitiveTypeName, QualifiedTypeName, SimpleTypeName, TypeConstraint,
    TypeName, TypeParameter,
};
pub use words::{Context, ContextualWords, words_apart};

#[cfg(test)]
mod tests;
