// Interfaces.
ghost use Rattle.std.specs.Prelude.{◌≡◌, Some};
ghost use Rattle.vb_blocks.specs.Steps.{Gives};
ghost use Rattle.vb_blocks.specs.Steps as spec;
ghost use Rattle.vb_blocks.specs.Trees.{interface_member};

use std::alloc::Global;
use vb_blocks::{Fault, Frame, InterfaceParts, Turn, closes_type, given, is_word};
use vb_syntax::{
    BlockWord, Boxed, DeclarationLine, FunctionKind, ImplementedMember, InterfaceHeader,
    InterfaceList, InterfaceMember, Item, Items, Modifier, NameModifier, PropertyHeader,
    TypeDeclaration, TypeForm, TypeName,
};

/// An item in an interface.
pub fn interface_turn(
    alloc: Global,
    parts: Boxed<InterfaceParts>,
    line: u32,
    item: Item,
) -> Result<Turn, Fault>
    ensures { Gives (λ t. t) result (spec.interface_turn parts line item) }
{
    match item {
        Item::Declares(declaration) => interface_declares(
            alloc,
            parts,
            line,
            declaration.into_inner(),
        ),
        Item::End(word) => {
            let may_end = is_word(BlockWord::Interface, Some(word));
            closes_type(alloc, may_end, interface_of(parts.into_inner()))
        }
        other => {
            drop((parts, other));
            Err(Fault::Grammar)
        }
    }
}

fn interface_of(parts: InterfaceParts) -> TypeDeclaration
    ensures { result ≡ spec.interface_of parts }
{
    TypeDeclaration {
        line: parts.line,
        access: parts.access,
        name: parts.name,
        form: TypeForm::Interface {
            type_parameters: parts.type_parameters,
            inherits: parts.inherits,
            members: parts.members,
        },
    }
}

fn interface_declares(
    alloc: Global,
    parts: Boxed<InterfaceParts>,
    line: u32,
    declaration: DeclarationLine,
) -> Result<Turn, Fault>
    ensures { Gives (λ t. t) result (spec.interface_turn parts line (Item.Declares declaration)) }
{
    match declaration {
        DeclarationLine::Inherits(types) => interface_inherits(alloc, parts, line, types),
        other => interface_header(alloc, parts, line, member_header(other)),
    }
}

fn interface_inherits(
    alloc: Global,
    parts: Boxed<InterfaceParts>,
    line: u32,
    interfaces: Items<TypeName>,
) -> Result<Turn, Fault>
    ensures { Gives (λ t. t) result (spec.interface_inherits parts line interfaces parts.members) }
{
    let is_early = has_no_members(parts.get());
    let mut parts = parts.into_inner();
    parts.inherits.push(InterfaceList { line, interfaces })?;
    let parts = Boxed::new(alloc, parts)?;
    given(is_early, Turn::Goes(Frame::Interface(parts)))
}

fn has_no_members(parts: &InterfaceParts) -> bool
    ensures { result ≡ spec.is_empty parts.now.members }
{
    parts.members.is_empty()
}

fn interface_header(
    alloc: Global,
    parts: Boxed<InterfaceParts>,
    line: u32,
    header: Option<InterfaceHeader>,
) -> Result<Turn, Fault>
    ensures { Gives (λ t. t) result (spec.interface_member_turn parts line header) }
{
    match header {
        Some(header) => {
            let mut parts = parts.into_inner();
            parts.members.push(InterfaceMember { line, header })?;
            let parts = Boxed::new(alloc, parts)?;
            Ok(Turn::Goes(Frame::Interface(parts)))
        }
        None => {
            drop(parts);
            Err(Fault::Grammar)
        }
    }
}

// THE HEADERS OF MEMBERS

// The header of a member of an interface.
fn member_header(declaration: DeclarationLine) -> Option<InterfaceHeader>
    ensures { result ≡ interface_member (Item.Declares declaration) }
{
    match declaration {
        DeclarationLine::Sub(modifiers, signature, implements) => {
            plain(&modifiers, &implements, InterfaceHeader::Sub(signature))
        }
        DeclarationLine::Function {
            modifiers,
            kind: FunctionKind::Regular,
            signature,
            result,
            implements,
        } => plain(
            &modifiers,
            &implements,
            InterfaceHeader::Function(signature, result),
        ),
        DeclarationLine::Property(modifiers, header) => property_header(&modifiers, header),
        DeclarationLine::Event {
            modifiers,
            name,
            handler,
            implements,
        } => plain(
            &modifiers,
            &implements,
            InterfaceHeader::Event(name, handler),
        ),
        other => {
            drop(other);
            None
        }
    }
}

// The header, where nothing stands before it and behind it.
fn plain(
    modifiers: &Items<Modifier>,
    implements: &Items<ImplementedMember>,
    header: InterfaceHeader,
) -> Option<InterfaceHeader>
    ensures { result ≡ spec.plain modifiers.now implements.now header }
{
    if modifiers.is_empty() && implements.is_empty() {
        Some(header)
    } else {
        None
    }
}

fn property_header(modifiers: &Items<Modifier>, header: PropertyHeader) -> Option<InterfaceHeader>
    ensures { result ≡ interface_member (Item.Declares (DeclarationLine.Property modifiers.now header)) }
{
    if modifiers.is_empty() && header.is_of_interface() {
        Some(InterfaceHeader::Property(header.kind, header.name, header.declared))
    } else {
        None
    }
}
