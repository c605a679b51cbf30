// What stands on a logical line by itself, whatever block it is in.
ghost use Rattle.std.specs.Prelude.{◌≡◌};
ghost use Rattle.vb_syntax.specs.Items as spec;

use crate::declaration::{
    Access, ClassModifier, DelegateKind, EventHandler, FunctionKind, ImplementedMember,
    MethodSignature, Modifier, NameModifier, OptionSetting, Parameter, PropertyKind,
};
use crate::declarator::Declarator;
use crate::expression::Expr;
use crate::statement::{
    CaseItem, CatchVariable, CompoundOperator, ContinueKind, ExitKind, LocalModifier,
    LoopCondition, LoopControlVariable, OnErrorAction, ResumePlace, UsingResource,
};
use crate::types::{TypeName, TypeParameter};
use sqlite_items::{Boxed, Items};
use vb_text::Name;

/// What stands on a line or on a part of it: a statement without a block, or what begins, parts or ends a block
/// (Visual Basic Language Specification 11.0, 1.1).
#[derive(Drop)]
pub enum Item {
    /// `Option` (6.2).
    Option(OptionSetting),
    /// `Imports` and the namespaces, each by the names between its dots (6.3.2).
    Imports(Items<Items<Name>>),
    /// The header of a type, a member or an accessor, or another line of declarations (7 and 9).
    Declares(Boxed<DeclarationLine>),
    /// `End` and the word of the block that it ends.
    End(BlockWord),

    /// A label, by the name before its colon (10.1).
    Label(Name),
    /// `Dim`, `Const` or `Static` and what it declares, without modifiers; of a procedure or of a type (9.5, 9.6 and 10.2).
    Declaration(LocalModifier, Items<Declarator>),
    /// A new array in a variable, and its bound (10.12.1).
    ReDim(Name, Expr),
    /// A target and the value that it gets (10.6.1).
    Assignment(Expr, Expr),
    /// A target and the operand that its value is joined with (10.6.2).
    CompoundAssignment(CompoundOperator, Expr, Expr),
    /// A call, with `Call` before it or without (10.7).
    Invocation(Expr),
    /// `Throw`, with a value or without (10.10.1.3).
    Throw(Option<Expr>),
    /// `Yield` and the value that it gives to the caller (10.15).
    Yield(Expr),
    /// `Return`, with a value or without (10.11).
    Return(Option<Expr>),
    /// `GoTo` and the label that it goes to (10.11).
    GoTo(Name),
    /// `Exit` (10.11).
    Exit(ExitKind),
    /// `Continue` (10.11).
    Continue(ContinueKind),
    /// `On Error` (10.10.2).
    OnError(OnErrorAction),
    /// `Resume` (10.10.2).
    Resume(ResumePlace),
    /// The event and the delegate that is added to it (10.5.2).
    AddHandler(Expr, Expr),
    /// The event and the delegate that is removed from it (10.5.2).
    RemoveHandler(Expr, Expr),
    /// The event and its arguments; none also where it has no parentheses (10.5.1).
    RaiseEvent(Name, Items<Expr>),

    /// `If` and its test (10.8.1).
    If(Expr),
    /// `ElseIf` and its test (10.8.1).
    ElseIf(Expr),
    /// `Else` (10.8.1).
    Else,
    /// `While` and its test (10.9.1).
    While(Expr),
    /// `Do`, with a test or without (10.9.1).
    Do(Option<LoopCondition>),
    /// `Loop`, with a test or without (10.9.1).
    Loop(Option<LoopCondition>),
    /// `For`: its variable, where it starts, its limit, and its step if one is written (10.9.2).
    For(LoopControlVariable, Expr, Expr, Option<Expr>),
    /// `For Each`: its variable and the collection (10.9.3).
    ForEach(LoopControlVariable, Expr),
    /// `Next`, with the variable's name or without (10.9.2 and 10.9.3).
    Next(Option<Name>),
    /// `Select Case` and its value (10.8.2).
    Select(Expr),
    /// `Case` and its items (10.8.2).
    Case(Items<CaseItem>),
    /// `Case Else` (10.8.2).
    CaseElse,
    /// `Try` (10.10.1).
    Try,
    /// `Catch`, its variable and its filter, as far as they are written (10.10.1.2).
    Catch(Option<CatchVariable>, Option<Expr>),
    /// `Finally` (10.10.1.1).
    Finally,
    /// `SyncLock` and the object whose lock is held (10.4).
    SyncLock(Expr),
    /// `With` and its value (10.3).
    With(Expr),
    /// `Using` and what it disposes of (10.13).
    Using(UsingResource),
}

impl Item {
    /// Whether it is a statement without a block, which may stand in an `If` on one line; a label is none
    /// (Visual Basic Language Specification 11.0, 10.1 and 10.8.1).
    pub fn is_simple(&self) -> bool
        ensures { result ≡ spec.is_simple self.now }
    {
        matches!(
            self,
            Item::Declaration(..)
                | Item::ReDim(..)
                | Item::Assignment(..)
                | Item::CompoundAssignment(..)
                | Item::Invocation(_)
                | Item::Throw(_)
                | Item::Yield(_)
                | Item::Return(_)
                | Item::GoTo(_)
                | Item::Exit(_)
                | Item::Continue(_)
                | Item::OnError(_)
                | Item::Resume(_)
                | Item::AddHandler(..)
                | Item::RemoveHandler(..)
                | Item::RaiseEvent(..)
        )
    }

    /// Whether it goes on with a property: an accessor of one, or its end (Visual Basic Language Specification 11.0, 9.7).
    pub fn goes_on_property(&self) -> bool
        ensures { result ≡ spec.goes_on_property self.now }
    {
        match self {
            Item::Declares(line) => matches!(
                line.get(),
                DeclarationLine::Get(_) | DeclarationLine::Set(_, _)
            ),
            Item::End(word) => matches!(word, BlockWord::Property),
            _ => false,
        }
    }
}

/// What a line of the declarations of types and members says, but for variables and constants without modifiers
/// (Visual Basic Language Specification 11.0, 7 and 9). Modifiers stand in the order of the text.
#[derive(Drop)]
pub enum DeclarationLine {
    /// The header of a module (7.7).
    Module(Option<Access>, Name),
    /// The header of a class (7.5).
    Class {
        access: Option<Access>,
        modifier: Option<ClassModifier>,
        name: Name,
        type_parameters: Items<TypeParameter>,
    },
    /// The header of an interface (7.8).
    Interface {
        access: Option<Access>,
        name: Name,
        type_parameters: Items<TypeParameter>,
    },
    /// A delegate (7.10).
    Delegate {
        access: Option<Access>,
        kind: DelegateKind,
        name: Name,
        type_parameters: Items<TypeParameter>,
        parameters: Items<Parameter>,
        result: Option<TypeName>,
    },
    /// The base of a class, or the bases of an interface (7.5.1 and 7.8.1).
    Inherits(Items<TypeName>),
    /// Interfaces of a class (7.2).
    Implements(Items<TypeName>),
    /// Variables with modifiers, of which there is at least one; with `Dim` behind them or without (9.6).
    Variables(Items<Modifier>, Items<Declarator>),
    /// Constants with modifiers, of which there is at least one (9.5).
    Constants(Items<Modifier>, Items<Declarator>),
    /// The header of a procedure without a result (9.2.1).
    Sub(Items<Modifier>, MethodSignature, Items<ImplementedMember>),
    /// The header of a constructor (9.3).
    Constructor(Items<Modifier>, Items<Parameter>, Items<ImplementedMember>),
    /// The header of a procedure with a result (9.2.1).
    Function {
        modifiers: Items<Modifier>,
        kind: FunctionKind,
        signature: MethodSignature,
        result: TypeName,
        implements: Items<ImplementedMember>,
    },
    /// The header of a property (9.7).
    Property(Items<Modifier>, PropertyHeader),
    /// An event whose accessors aren't written (9.4).
    Event {
        modifiers: Items<Modifier>,
        name: Name,
        handler: EventHandler,
        implements: Items<ImplementedMember>,
    },
    /// The header of an event with accessors of its own (9.4.1).
    CustomEvent(Items<Modifier>, Name, TypeName),
    /// The header of a property's accessor that reads (9.7.1).
    Get(Option<Access>),
    /// The header of a property's accessor that writes (9.7.2).
    Set(Option<Access>, Items<Parameter>),
    /// The header of an accessor of an event (9.4.1).
    EventAccessor(EventAccessorKind, Items<Parameter>),
}

/// What the header of a property says (Visual Basic Language Specification 11.0, 9.7).
#[derive(Drop)]
pub struct PropertyHeader {
    pub kind: PropertyKind,
    pub name: Name,
    pub modifier: NameModifier,
    pub declared: TypeName,
    pub initializer: Option<Expr>,
    pub implements: Items<ImplementedMember>,
}

impl PropertyHeader {
    /// Whether nothing stands behind its name and its type, as in an interface: no `()`, no value and no interface's member
    /// (Visual Basic Language Specification 11.0, 7.8.2).
    pub fn is_of_interface(&self) -> bool
        ensures { result ≡ spec.is_property_of_interface self.now }
    {
        matches!(self.modifier, NameModifier::Plain)
            && self.initializer.is_none()
            && self.implements.is_empty()
    }
}

/// What an accessor of an event does (Visual Basic Language Specification 11.0, 9.4.1).
#[derive(Clone, Copy, Debug, PartialEq, Eq)]
pub enum EventAccessorKind {
    AddHandler,
    RemoveHandler,
    RaiseEvent,
}

/// The word of a block, as it stands behind `End` (Visual Basic Language Specification 11.0, 7.5, 7.7, 7.8, 9.2.1, 9.4.1, 9.7, 10.3,
/// 10.4, 10.8, 10.9.1, 10.10.1 and 10.13).
#[derive(Clone, Copy, Debug, PartialEq, Eq)]
pub enum BlockWord {
    Module,
    Class,
    Interface,
    Sub,
    Function,
    Property,
    Get,
    Set,
    Event,
    AddHandler,
    RemoveHandler,
    RaiseEvent,
    If,
    Select,
    SyncLock,
    Try,
    Using,
    While,
    With,
}

/// What stands behind an item in its logical line (Visual Basic Language Specification 11.0, 1.1 and 10.8.1).
#[derive(Clone, Copy, Debug, PartialEq, Eq)]
pub enum Joint {
    /// The end of the line, or a colon that parts two statements as the end of a line does.
    End,
    /// A colon between two statements of an `If` on one line.
    Colon,
    /// The `Then` of an `If` on one line, which is a part of the item, and a statement.
    Then,
    /// The `Else` of an `If` on one line, and a statement.
    Else,
}

impl Joint {
    /// Whether it ends the statements of a line.
    pub fn is_end(self) -> bool
        ensures { result ≡ spec.is_end self }
    {
        matches!(self, Joint::End)
    }
}

/// Whether `MustOverride` is among the modifiers, so that the member has no block (Visual Basic Language Specification 11.0, 9.2.1).
pub fn must_override(modifiers: &[Modifier]) -> bool
    ensures { result ≡ spec.must_override modifiers.now }
{
    modifiers
        .iter()
        .any(|modifier| matches!(modifier, Modifier::MustOverride))
}

/// What was read of a line, or of a part of it (Visual Basic Language Specification 11.0, 1.1).
#[derive(Drop)]
pub struct Row {
    /// The number of the logical line, from 1.
    pub line: u32,
    /// The item that stands there; none where nothing of the grammar does.
    pub item: Option<Item>,
    /// What stands behind it in the line.
    pub behind: Joint,
}
