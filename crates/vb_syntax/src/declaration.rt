// Files, types and their members.

use crate::declarator::Declarator;
use crate::item::PropertyHeader;
use crate::statement::Block;
use crate::types::{TypeName, TypeParameter};
use sqlite_items::Items;
use vb_text::Name;

/// A source file (Visual Basic Language Specification 11.0, 6).
#[derive(Drop)]
pub struct SourceFile {
    /// The file, from 0 in the order in which the files were given.
    pub file: u32,
    pub options: Items<OptionStatement>,
    pub imports: Items<ImportsStatement>,
    pub types: Items<TypeDeclaration>,
}

/// An `Option` (Visual Basic Language Specification 11.0, 6.2).
#[derive(Clone, Copy, Debug, PartialEq, Eq)]
pub struct OptionStatement {
    pub line: u32,
    pub setting: OptionSetting,
}

/// What an `Option` sets (Visual Basic Language Specification 11.0, 6.2).
#[derive(Clone, Copy, Debug, PartialEq, Eq)]
pub enum OptionSetting {
    Strict(OptionSwitch),
    Explicit(OptionSwitch),
    Infer(OptionSwitch),
    CompareBinary,
    CompareText,
}

/// Whether an option holds; it does where neither word is written (Visual Basic Language Specification 11.0, 6.2).
#[derive(Clone, Copy, Debug, PartialEq, Eq)]
pub enum OptionSwitch {
    On,
    Off,
}

/// An `Imports` of namespaces (Visual Basic Language Specification 11.0, 6.3.2).
#[derive(Drop)]
pub struct ImportsStatement {
    pub line: u32,
    /// Each by the names between its dots, at least one.
    pub namespaces: Items<Items<Name>>,
}

/// From where a type or a member may be named (Visual Basic Language Specification 11.0, 4.6).
#[derive(Clone, Copy, Debug, PartialEq, Eq)]
pub enum Access {
    Public,
    Private,
    Protected,
    Friend,
    ProtectedFriend,
}

/// The declaration of a type, with the line of its header (Visual Basic Language Specification 11.0, 7).
#[derive(Drop)]
pub struct TypeDeclaration {
    pub line: u32,
    pub access: Option<Access>,
    pub name: Name,
    pub form: TypeForm,
}

/// The forms of declared types (Visual Basic Language Specification 11.0, 7).
#[derive(Drop)]
pub enum TypeForm {
    /// A standard module (7.7).
    Module(Items<Member>),
    /// A class (7.5).
    Class {
        modifier: Option<ClassModifier>,
        type_parameters: Items<TypeParameter>,
        base: Option<ClassBase>,
        implements: Items<InterfaceList>,
        members: Items<Member>,
    },
    /// An interface (7.8).
    Interface {
        type_parameters: Items<TypeParameter>,
        inherits: Items<InterfaceList>,
        members: Items<InterfaceMember>,
    },
    /// A delegate (7.10).
    Delegate {
        kind: DelegateKind,
        type_parameters: Items<TypeParameter>,
        parameters: Items<Parameter>,
        result: Option<TypeName>,
    },
}

/// Whether a class has to be inherited or can't be (Visual Basic Language Specification 11.0, 4.3.1).
#[derive(Clone, Copy, Debug, PartialEq, Eq)]
pub enum ClassModifier {
    MustInherit,
    NotInheritable,
}

/// The `Inherits` of a class (Visual Basic Language Specification 11.0, 7.5.1).
#[derive(Drop)]
pub struct ClassBase {
    pub line: u32,
    pub base: TypeName,
}

/// The `Implements` of a class or `Inherits` of an interface (Visual Basic Language Specification 11.0, 7.2 and 7.8.1).
#[derive(Drop)]
pub struct InterfaceList {
    pub line: u32,
    pub interfaces: Items<TypeName>,
}

/// A member of an interface (Visual Basic Language Specification 11.0, 7.8.2).
#[derive(Drop)]
pub struct InterfaceMember {
    pub line: u32,
    pub header: InterfaceHeader,
}

/// What a member of an interface is, by its header (Visual Basic Language Specification 11.0, 7.8.2).
#[derive(Drop)]
pub enum InterfaceHeader {
    Sub(MethodSignature),
    /// A function, and the type of its result.
    Function(MethodSignature, TypeName),
    Property(PropertyKind, Name, TypeName),
    Event(Name, EventHandler),
}

/// What a delegate calls (Visual Basic Language Specification 11.0, 7.10).
#[derive(Clone, Copy, Debug, PartialEq, Eq)]
pub enum DelegateKind {
    Sub,
    Function,
}

/// A member of a class or a module, with the line of its header (Visual Basic Language Specification 11.0, 9).
#[derive(Drop)]
pub struct Member {
    pub line: u32,
    /// In the order of the text.
    pub modifiers: Items<Modifier>,
    pub form: MemberForm,
}

/// A modifier of a member (Visual Basic Language Specification 11.0, 4.6 and 9).
#[derive(Clone, Copy, Debug, PartialEq, Eq)]
pub enum Modifier {
    Access(Access),
    Shared,
    Overridable,
    Overrides,
    MustOverride,
    NotOverridable,
    Overloads,
    Shadows,
    ReadOnly,
}

/// The forms of members (Visual Basic Language Specification 11.0, 9).
#[derive(Drop)]
pub enum MemberForm {
    /// Variables, with `Dim` before them or without (9.6).
    Variables(Items<Declarator>),
    /// Constants (9.5).
    Constants(Items<Declarator>),
    /// A procedure without a result, which has no block where it must be overridden (9.2).
    Sub {
        signature: MethodSignature,
        implements: Items<ImplementedMember>,
        body: Option<Block>,
    },
    /// A constructor (9.3).
    Constructor {
        parameters: Items<Parameter>,
        implements: Items<ImplementedMember>,
        body: Option<Block>,
    },
    /// A procedure with a result, which has no block where it must be overridden (9.2).
    Function {
        kind: FunctionKind,
        signature: MethodSignature,
        result: TypeName,
        implements: Items<ImplementedMember>,
        body: Option<Block>,
    },
    /// A property, which has no accessors where it is implemented automatically or must be overridden (9.7).
    Property(PropertyHeader, Option<PropertyAccessors>),
    /// An event whose accessors aren't written (9.4).
    Event {
        name: Name,
        handler: EventHandler,
        implements: Items<ImplementedMember>,
    },
    /// An event with accessors of its own, whatever their order, as far as they are written (9.4.1).
    CustomEvent {
        name: Name,
        delegate: TypeName,
        add_handler: Option<EventAccessor>,
        remove_handler: Option<EventAccessor>,
        raise_event: Option<EventAccessor>,
    },
}

/// The name and the parameters of a procedure (Visual Basic Language Specification 11.0, 9.2).
#[derive(Drop)]
pub struct MethodSignature {
    pub name: Name,
    pub type_parameters: Items<TypeParameter>,
    /// None also where it has no parentheses.
    pub parameters: Items<Parameter>,
}

/// A parameter (Visual Basic Language Specification 11.0, 9.2.5).
#[derive(Drop)]
pub struct Parameter {
    pub passed: PassedBy,
    pub name: Name,
    pub modifier: NameModifier,
    pub declared: TypeName,
}

/// How an argument is passed: by value where neither word is written (Visual Basic Language Specification 11.0, 9.2.5).
#[derive(Clone, Copy, Debug, PartialEq, Eq)]
pub enum PassedBy {
    Value,
    Reference,
}

/// What may stand behind the name of a parameter or a property (Visual Basic Language Specification 11.0, 7.9).
#[derive(Clone, Copy, Debug, PartialEq, Eq)]
pub enum NameModifier {
    /// Nothing: it is of the type that is written.
    Plain,
    /// `()`: it is an array of that type.
    Array,
}

/// A member of an interface that a member implements (Visual Basic Language Specification 11.0, 9.1).
#[derive(Drop)]
pub struct ImplementedMember {
    pub interface: TypeName,
    pub member: Name,
}

/// How a function gives its result (Visual Basic Language Specification 11.0, 10.1.1 and 10.1.2).
#[derive(Clone, Copy, Debug, PartialEq, Eq)]
pub enum FunctionKind {
    Regular,
    /// By the values that it yields.
    Iterator,
}

/// The word before `Property`, if one is there (Visual Basic Language Specification 11.0, 9.7).
#[derive(Clone, Copy, Debug, PartialEq, Eq)]
pub enum PropertyKind {
    ReadWrite,
    ReadOnly,
    WriteOnly,
}

/// The accessors of a property (Visual Basic Language Specification 11.0, 9.7).
#[derive(Drop)]
pub struct PropertyAccessors {
    pub get: Option<GetAccessor>,
    pub set: Option<SetAccessor>,
}

/// A `Get` (Visual Basic Language Specification 11.0, 9.7.1).
#[derive(Drop)]
pub struct GetAccessor {
    pub line: u32,
    pub access: Option<Access>,
    pub body: Block,
}

/// A `Set` (Visual Basic Language Specification 11.0, 9.7.2).
#[derive(Drop)]
pub struct SetAccessor {
    pub line: u32,
    pub access: Option<Access>,
    pub parameters: Items<Parameter>,
    pub body: Block,
}

/// The parameters of an event's handlers, or their delegate (Visual Basic Language Specification 11.0, 9.4).
#[derive(Drop)]
pub enum EventHandler {
    Parameters(Items<Parameter>),
    Delegate(TypeName),
}

/// An accessor of a custom event (Visual Basic Language Specification 11.0, 9.4.1).
#[derive(Drop)]
pub struct EventAccessor {
    pub line: u32,
    pub parameters: Items<Parameter>,
    pub body: Block,
}
