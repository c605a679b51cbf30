// What the statements of a block or of a clause are the body of.

use vb_syntax::{
    Access, Block, Boxed, CaseClause, CaseItem, CatchClause, CatchVariable, ElseIfClause,
    EventAccessorKind, Expr, Item, Items, Parameter,
};

/// What the statements that stand one behind the other are the body of.
#[derive(Drop)]
pub enum Scope {
    /// A statement with one block, by its line and the item that begins it.
    Enclosed(u32, Boxed<Item>),
    If(Boxed<IfClause>),
    Select(Boxed<SelectClause>),
    Try(Boxed<TryClause>),
    /// A procedure, by its line and its header.
    Procedure(u32, Boxed<Item>),
    Accessor(AccessorHeader),
    /// A part of an `If` on one line.
    Line(Boxed<LineClause>),
}

/// What an `If` has before the clause that is open.
#[derive(Drop)]
pub struct IfParts {
    pub line: u32,
    pub test: Expr,
    pub body: Block,
    pub else_ifs: Items<ElseIfClause>,
}

/// The part of an `If` that is open, with its line.
#[derive(Drop)]
pub enum IfClause {
    /// The `If` itself, and its test.
    If(u32, Expr),
    ElseIf(IfParts, u32, Expr),
    Else(IfParts, u32),
}

/// What a `Select Case` has before the clause that is open.
#[derive(Drop)]
pub struct SelectParts {
    pub line: u32,
    pub value: Expr,
    pub cases: Items<CaseClause>,
}

/// The clause of a `Select Case` that is open, with its line.
#[derive(Drop)]
pub enum SelectClause {
    Case(SelectParts, u32, Items<CaseItem>),
    Else(SelectParts, u32),
}

/// What a `Try` has before the clause that is open.
#[derive(Drop)]
pub struct TryParts {
    pub line: u32,
    pub body: Block,
    pub catches: Items<CatchClause>,
}

/// The part of a `Try` that is open, with its line.
#[derive(Drop)]
pub enum TryClause {
    /// The `Try` itself.
    Try(u32),
    Catch(TryParts, u32, Option<CatchVariable>, Option<Expr>),
    Finally(TryParts, u32),
}

/// The header of an accessor, with its line.
#[derive(Drop)]
pub enum AccessorHeader {
    Get(u32, Option<Access>),
    Set(u32, Option<Access>, Items<Parameter>),
    Event(u32, EventAccessorKind, Items<Parameter>),
}

/// The part of an `If` on one line that is open, with the line and the test.
#[derive(Drop)]
pub enum LineClause {
    Then(u32, Expr),
    /// Behind the statements before `Else`.
    Else(u32, Expr, Block),
}
