// What has been begun, with what stands in it so far.

use crate::scope::Scope;
use vb_syntax::{
    Access, Block, Boxed, ClassBase, ClassModifier, EventAccessor, EventAccessorKind, Expr,
    GetAccessor, ImportsStatement, InterfaceList, InterfaceMember, Items, Member, Modifier,
    OptionStatement, PropertyHeader, SetAccessor, Statement, TypeDeclaration, TypeName,
    TypeParameter,
};
use vb_text::Name;

/// What has been begun.
#[derive(Drop)]
pub enum Frame {
    /// Statements.
    Body(Scope, Block),
    /// A `Select Case` before its first clause, by its line and its value.
    Select(u32, Boxed<Expr>),
    /// A property with accessors.
    Property(Boxed<PropertyParts>),
    /// An event with accessors of its own.
    Event(Boxed<EventParts>),
    /// The members of a module or a class.
    Members(Boxed<TypeHeader>, Items<Member>),
    Interface(Boxed<InterfaceParts>),
    File(Boxed<FileParts>),
}

#[derive(Drop)]
pub struct PropertyParts {
    pub line: u32,
    pub modifiers: Items<Modifier>,
    pub header: PropertyHeader,
    pub get: Option<GetAccessor>,
    pub set: Option<SetAccessor>,
}

#[derive(Drop)]
pub struct EventParts {
    pub line: u32,
    pub modifiers: Items<Modifier>,
    pub name: Name,
    pub delegate: TypeName,
    pub add_handler: Option<EventAccessor>,
    pub remove_handler: Option<EventAccessor>,
    pub raise_event: Option<EventAccessor>,
}

/// What a module or a class says before its members.
#[derive(Drop)]
pub enum TypeHeader {
    Module(u32, Option<Access>, Name),
    Class(ClassParts),
}

#[derive(Drop)]
pub struct ClassParts {
    pub line: u32,
    pub access: Option<Access>,
    pub modifier: Option<ClassModifier>,
    pub name: Name,
    pub type_parameters: Items<TypeParameter>,
    pub base: Option<ClassBase>,
    pub implements: Items<InterfaceList>,
}

#[derive(Drop)]
pub struct InterfaceParts {
    pub line: u32,
    pub access: Option<Access>,
    pub name: Name,
    pub type_parameters: Items<TypeParameter>,
    pub inherits: Items<InterfaceList>,
    pub members: Items<InterfaceMember>,
}

#[derive(Drop)]
pub struct FileParts {
    pub options: Items<OptionStatement>,
    pub imports: Items<ImportsStatement>,
    pub types: Items<TypeDeclaration>,
}

/// A part of a tree that is whole.
#[derive(Drop)]
pub enum Whole {
    Statement(Boxed<Statement>),
    Member(Boxed<Member>),
    Get(GetAccessor),
    Set(SetAccessor),
    Event(EventAccessorKind, EventAccessor),
    Type(Boxed<TypeDeclaration>),
}

/// What a row does to the innermost frame.
#[derive(Drop)]
pub enum Turn {
    /// This frame stands in its place.
    Goes(Frame),
    /// The frame, and a new one inside it.
    Opens(Frame, Frame),
    /// It is whole.
    Closes(Whole),
}
