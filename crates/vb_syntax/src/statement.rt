// Statements.

use crate::declarator::Declarator;
use crate::expression::{Expr, RelationalOperator};
use crate::types::{SimpleTypeName, TypeName};
use sqlite_items::Items;
use vb_text::Name;

/// The statements of a procedure, an accessor, a block or a clause (Visual Basic Language Specification 11.0, 10.1).
pub type Block = Items<Statement>;

/// A statement, with the number of the logical line that it begins on (Visual Basic Language Specification 11.0, 10).
#[cycle(statement)]
#[derive(Drop)]
pub struct Statement {
    pub line: u32,
    pub form: StatementForm,
}

/// The forms of statements (Visual Basic Language Specification 11.0, 10).
#[cycle(statement)]
#[derive(Drop)]
pub enum StatementForm {
    /// `Dim`, `Const` or `Static` (Visual Basic Language Specification 11.0, 10.2).
    LocalDeclaration(LocalModifier, Items<Declarator>),
    /// A label, as a statement of its own (10.1).
    Label(Name),
    /// A new array in a variable, and its bound (10.12.1).
    ReDim(Name, Expr),
    /// A target and the value that it gets (10.6.1).
    Assignment(Expr, Expr),
    /// A target and the operand that its value is joined with (10.6.2).
    CompoundAssignment(CompoundOperator, Expr, Expr),
    /// A call, with `Call` before it or without (10.7).
    Invocation(Expr),
    /// An `If` with blocks (10.8.1).
    If {
        test: Expr,
        body: Block,
        else_ifs: Items<ElseIfClause>,
        otherwise: Option<BlockClause>,
    },
    /// An `If` on one line, with at least one statement behind `Then` and behind `Else`, none of which has a block
    /// (10.8.1).
    LineIf {
        test: Expr,
        body: Block,
        otherwise: Option<Block>,
    },
    /// `While` and its test (10.9.1).
    While(Expr, Block),
    /// `Do` and `Loop` (10.9.1).
    Do(LoopTest, Block),
    /// `For` and `Next` (10.9.2).
    For {
        variable: LoopControlVariable,
        start: Expr,
        limit: Expr,
        step: Option<Expr>,
        body: Block,
        next: NextClause,
    },
    /// `For Each` and `Next` (10.9.3).
    ForEach {
        variable: LoopControlVariable,
        collection: Expr,
        body: Block,
        next: NextClause,
    },
    /// `Select Case` (10.8.2).
    Select {
        value: Expr,
        cases: Items<CaseClause>,
        otherwise: Option<BlockClause>,
    },
    /// `Try` (10.10.1).
    Try {
        body: Block,
        catches: Items<CatchClause>,
        finally: Option<BlockClause>,
    },
    /// The object whose lock is held, and the block (10.4).
    SyncLock(Expr, Block),
    /// The value whose members may be named by a dot alone, and the block (10.3).
    With(Expr, Block),
    /// What is disposed of behind the block, and the block (10.13).
    Using(UsingResource, Block),
    /// `Throw`; without a value it throws the caught exception again (10.10.1.3).
    Throw(Option<Expr>),
    /// `Return`, with a value or without (10.11).
    Return(Option<Expr>),
    /// `Yield` and the value that it gives to the caller (10.15).
    Yield(Expr),
    /// `GoTo` and the label that it goes to (10.11).
    GoTo(Name),
    /// `Exit` (10.11).
    Exit(ExitKind),
    /// `Continue` (10.11).
    Continue(ContinueKind),
    /// `On Error` (10.10.2).
    OnError(OnErrorAction),
    /// `Resume` (10.10.2).
    Resume(ResumePlace),
    /// The event and the delegate that is added to it (10.5.2).
    AddHandler(Expr, Expr),
    /// The event and the delegate that is removed from it (10.5.2).
    RemoveHandler(Expr, Expr),
    /// The event and its arguments; none also where it has no parentheses (10.5.1).
    RaiseEvent(Name, Items<Expr>),
}

/// The word before a local declaration (Visual Basic Language Specification 11.0, 10.2).
#[derive(Clone, Copy, Debug, PartialEq, Eq)]
pub enum LocalModifier {
    Dim,
    Const,
    Static,
}

/// The operator of a compound assignment (Visual Basic Language Specification 11.0, 10.6.2).
#[derive(Clone, Copy, Debug, PartialEq, Eq)]
pub enum CompoundOperator {
    Add,
    Subtract,
    Multiply,
    IntegerDivide,
    Concatenate,
    ShiftLeft,
    ShiftRight,
}

/// An `ElseIf` (Visual Basic Language Specification 11.0, 10.8.1).
#[cycle(statement)]
#[derive(Drop)]
pub struct ElseIfClause {
    pub line: u32,
    pub test: Expr,
    pub body: Block,
}

/// A clause that is a word and a block: `Else`, `Case Else` or `Finally`
/// (Visual Basic Language Specification 11.0, 10.8 and 10.10.1.1).
#[cycle(statement)]
#[derive(Drop)]
pub struct BlockClause {
    pub line: u32,
    pub body: Block,
}

/// Where a `Do` is tested (Visual Basic Language Specification 11.0, 10.9.1).
#[derive(Drop)]
pub enum LoopTest {
    Never,
    /// Behind `Do`.
    Top(LoopCondition),
    /// Behind `Loop`, which has a line of its own.
    Bottom { line: u32, condition: LoopCondition },
}

/// A test that goes on with a `Do`, or ends it (Visual Basic Language Specification 11.0, 10.9.1).
#[derive(Drop)]
pub enum LoopCondition {
    /// It goes on while this is true.
    While(Expr),
    /// It ends when this is true.
    Until(Expr),
}

/// The variable that a `For` or a `For Each` sets; it is declared there where a type is written
/// (Visual Basic Language Specification 11.0, 10.9).
#[derive(Drop)]
pub struct LoopControlVariable {
    pub name: Name,
    pub declared: Option<TypeName>,
}

/// The `Next` of a loop, with its variable's name or without (Visual Basic Language Specification 11.0, 10.9).
#[derive(Clone, Copy, Debug, PartialEq, Eq)]
pub struct NextClause {
    pub line: u32,
    pub variable: Option<Name>,
}

/// A `Case`, taken where one of its items fits (Visual Basic Language Specification 11.0, 10.8.2).
#[cycle(statement)]
#[derive(Drop)]
pub struct CaseClause {
    pub line: u32,
    pub items: Items<CaseItem>,
    pub body: Block,
}

/// What the value of a `Select Case` may be (Visual Basic Language Specification 11.0, 10.8.2).
#[derive(Drop)]
pub enum CaseItem {
    Value(Expr),
    /// From the first value to the second.
    Range(Expr, Expr),
    /// A comparison, whose right operand this is.
    Relation(RelationalOperator, Expr),
}

/// A `Catch`, with the filter that stands behind `When` (Visual Basic Language Specification 11.0, 10.10.1.2).
#[cycle(statement)]
#[derive(Drop)]
pub struct CatchClause {
    pub line: u32,
    pub variable: Option<CatchVariable>,
    pub filter: Option<Expr>,
    pub body: Block,
}

/// The local that holds the caught exception (Visual Basic Language Specification 11.0, 10.10.1.2).
#[derive(Drop)]
pub struct CatchVariable {
    pub name: Name,
    pub declared: TypeName,
}

/// What a `Using` disposes of (Visual Basic Language Specification 11.0, 10.13).
#[derive(Drop)]
pub enum UsingResource {
    /// A local with a new object of the class, made with these arguments.
    AsNew(Name, SimpleTypeName, Items<Expr>),
    /// A local of the type, with this value.
    As(Name, TypeName, Expr),
    Value(Expr),
}

/// What an `Exit` leaves (Visual Basic Language Specification 11.0, 10.11).
#[derive(Clone, Copy, Debug, PartialEq, Eq)]
pub enum ExitKind {
    Sub,
    Function,
    Property,
    Do,
    For,
    While,
    Select,
    Try,
}

/// The loop that a `Continue` goes on with (Visual Basic Language Specification 11.0, 10.11).
#[derive(Clone, Copy, Debug, PartialEq, Eq)]
pub enum ContinueKind {
    Do,
    For,
    While,
}

/// What an `On Error` asks for (Visual Basic Language Specification 11.0, 10.10.2).
#[derive(Clone, Copy, Debug, PartialEq, Eq)]
pub enum OnErrorAction {
    /// An exception goes to the label.
    GoTo(Name),
    /// `GoTo 0`: no exception is handled any longer.
    GoToZero,
    /// `GoTo -1`: the exception that was handled is forgotten.
    GoToMinusOne,
    /// An exception goes to the statement behind the one that threw it.
    ResumeNext,
}

/// Where a `Resume` goes (Visual Basic Language Specification 11.0, 10.10.2).
#[derive(Clone, Copy, Debug, PartialEq, Eq)]
pub enum ResumePlace {
    /// The statement that threw.
    Same,
    /// The statement behind it.
    Next,
    Label(Name),
}
