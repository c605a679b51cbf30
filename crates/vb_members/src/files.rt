// What stands in a file outside its types.
ghost use Rattle.std.specs.Prelude.{◌≡◌, [], Some, None, if◌then◌else◌};
ghost use Rattle.vb_blocks.specs.Steps.{Gives};
ghost use Rattle.vb_blocks.specs.Steps as spec;

use std::alloc::Global;
use vb_blocks::{ClassParts, Fault, FileParts, Frame, InterfaceParts, Turn, TypeHeader, given};
use vb_syntax::{
    Access, Boxed, ClassModifier, DeclarationLine, ImportsStatement, Item, Items, OptionSetting,
    OptionStatement, TypeDeclaration, TypeForm, TypeParameter,
};
use vb_text::Name;

/// An item in a file, outside its types.
pub fn file_turn(
    alloc: Global,
    parts: Boxed<FileParts>,
    line: u32,
    item: Item,
) -> Result<Turn, Fault>
    ensures { Gives (λ t. t) result (spec.file_turn parts line item) }
{
    match item {
        Item::Option(setting) => file_option(alloc, parts, line, setting),
        Item::Imports(namespaces) => file_imports(alloc, parts, line, namespaces),
        Item::Declares(declaration) => file_declares(alloc, parts, line, declaration.into_inner()),
        other => {
            drop((parts, other));
            Err(Fault::Grammar)
        }
    }
}

fn file_option(
    alloc: Global,
    parts: Boxed<FileParts>,
    line: u32,
    setting: OptionSetting,
) -> Result<Turn, Fault>
    ensures { Gives (λ t. t) result (spec.file_turn parts line (Item.Option setting)) }
{
    let is_early = has_no_imports(parts.get()) && has_no_types(parts.get());
    let mut parts = parts.into_inner();
    parts.options.push(OptionStatement { line, setting })?;
    file_given(alloc, is_early, parts)
}

fn file_imports(
    alloc: Global,
    parts: Boxed<FileParts>,
    line: u32,
    namespaces: Items<Items<Name>>,
) -> Result<Turn, Fault>
    ensures { Gives (λ t. t) result (spec.file_turn parts line (Item.Imports namespaces)) }
{
    let is_early = has_no_types(parts.get());
    let mut parts = parts.into_inner();
    parts.imports.push(ImportsStatement { line, namespaces })?;
    file_given(alloc, is_early, parts)
}

// The file with one statement more, where it may stand.
fn file_given(alloc: Global, may_stand: bool, parts: FileParts) -> Result<Turn, Fault>
    ensures { Gives (λ t. t) result (if may_stand then Some (Turn.Goes (Frame.File parts)) else None) }
{
    let parts = Boxed::new(alloc, parts)?;
    given(may_stand, Turn::Goes(Frame::File(parts)))
}

fn has_no_imports(parts: &FileParts) -> bool
    ensures { result ≡ spec.is_empty parts.now.imports }
{
    parts.imports.is_empty()
}

fn has_no_types(parts: &FileParts) -> bool
    ensures { result ≡ spec.is_empty parts.now.types }
{
    parts.types.is_empty()
}

fn file_declares(
    alloc: Global,
    parts: Boxed<FileParts>,
    line: u32,
    declaration: DeclarationLine,
) -> Result<Turn, Fault>
    ensures { Gives (λ t. t) result (spec.file_declares parts line declaration) }
{
    match declaration {
        DeclarationLine::Module(access, name) => {
            opens_members(alloc, parts, TypeHeader::Module(line, access, name))
        }
        DeclarationLine::Class {
            access,
            modifier,
            name,
            type_parameters,
        } => {
            let class = bare_class(alloc, line, access, modifier, name, type_parameters);
            opens_members(alloc, parts, TypeHeader::Class(class))
        }
        DeclarationLine::Interface {
            access,
            name,
            type_parameters,
        } => {
            let interface = bare_interface(alloc, line, access, name, type_parameters);
            opens_interface(alloc, parts, interface)
        }
        DeclarationLine::Delegate {
            access,
            kind,
            name,
            type_parameters,
            parameters,
            result,
        } => {
            let form = TypeForm::Delegate {
                kind,
                type_parameters,
                parameters,
                result,
            };
            let declaration = TypeDeclaration {
                line,
                access,
                name,
                form,
            };
            Ok(Turn::Goes(with_type(alloc, parts, declaration)?))
        }
        other => {
            drop((parts, other));
            Err(Fault::Grammar)
        }
    }
}

// A class of which nothing stands there yet but its header.
fn bare_class(
    alloc: Global,
    line: u32,
    access: Option<Access>,
    modifier: Option<ClassModifier>,
    name: Name,
    type_parameters: Items<TypeParameter>,
) -> ClassParts
    ensures { result ≡ record { line = line; access = access; modifier = modifier; name = name; type_parameters = type_parameters; base = None; implements = [] } }
{
    ClassParts {
        line,
        access,
        modifier,
        name,
        type_parameters,
        base: None,
        implements: Items::new(alloc),
    }
}

// An interface of which nothing stands there yet but its header.
fn bare_interface(
    alloc: Global,
    line: u32,
    access: Option<Access>,
    name: Name,
    type_parameters: Items<TypeParameter>,
) -> InterfaceParts
    ensures { result ≡ record { line = line; access = access; name = name; type_parameters = type_parameters; inherits = []; members = [] } }
{
    InterfaceParts {
        line,
        access,
        name,
        type_parameters,
        inherits: Items::new(alloc),
        members: Items::new(alloc),
    }
}

fn opens_members(alloc: Global, parts: Boxed<FileParts>, kind: TypeHeader) -> Result<Turn, Fault>
    ensures { Gives (λ t. t) result (Some (Turn.Opens (Frame.File parts) (Frame.Members kind []))) }
{
    let kind = Boxed::new(alloc, kind)?;
    Ok(Turn::Opens(Frame::File(parts), Frame::Members(kind, Items::new(alloc))))
}

fn opens_interface(
    alloc: Global,
    parts: Boxed<FileParts>,
    interface: InterfaceParts,
) -> Result<Turn, Fault>
    ensures { Gives (λ t. t) result (Some (Turn.Opens (Frame.File parts) (Frame.Interface interface))) }
{
    let interface = Boxed::new(alloc, interface)?;
    Ok(Turn::Opens(Frame::File(parts), Frame::Interface(interface)))
}

/// One more type.
pub fn with_type(
    alloc: Global,
    parts: Boxed<FileParts>,
    declaration: TypeDeclaration,
) -> Result<Frame, Fault>
    ensures { Gives (λ f. f) result (Some (spec.with_type parts declaration)) }
{
    let mut parts = parts.into_inner();
    parts.types.push(declaration)?;
    let parts = Boxed::new(alloc, parts)?;
    Ok(Frame::File(parts))
}
